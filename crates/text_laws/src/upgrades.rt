//! Laws on what is upgraded. Each function does nothing: its contract is the law.
ghost use Rattle.text_laws.specs.Upgrades.{UpgradedTextsAreRead, UpgradingTwiceIsUpgradingOnce};
ghost use Rattle.text_laws.specs.WorkedSecond.{SecondFormatIsWorkedOut};

/// What a read job is written as in format 2 is read as that job in format 2, if it has no more bytes than a text may
/// have.
pub fn upgraded_texts_are_read()
    ensures { UpgradedTextsAreRead }
{}

/// What that text is read as is a job of format 2, and so is written again byte for byte.
pub fn upgrading_twice_is_upgrading_once()
    ensures { UpgradingTwiceIsUpgradingOnce }
{}

/// What texts of format 2 are read as and written as again, what a job of format 1 is upgraded to, and refusals that
/// distinguish the formats, worked out by hand.
pub fn second_format_is_worked_out()
    ensures { SecondFormatIsWorkedOut }
{}
