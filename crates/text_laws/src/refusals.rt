//! Laws on refusals. Each function does nothing: its contract is the law.
ghost use Rattle.text_laws.specs.Refusals.{RefusalsHoldForAllThatFollows, PlainTextsAreRefusedAlike, LinesAboveAreRead, LinesAboveGoOn, RefusalsAreOfALineOrTextsGoOn};

/// If a text is refused at one of its lines, no text that has the same lines up to it is a text of a job.
pub fn refusals_hold_for_all_that_follows()
    ensures { RefusalsHoldForAllThatFollows }
{}

/// If a text is refused at one of its lines, each text that has the same lines up to it, isn't too long and has allowed
/// bytes only is refused at that line by the same code.
pub fn plain_texts_are_refused_alike()
    ensures { PlainTextsAreRefusedAlike }
{}

/// If a text of allowed bytes is refused at one of its lines, no text that has the same lines above it is refused at
/// one of those.
pub fn lines_above_are_read()
    ensures { LinesAboveAreRead }
{}

/// If a text of allowed bytes is refused at one of its lines, the lines above may be the beginning of a job: with an
/// `end` for all that is open and an empty body for each missing name they are a job's, if a text has room for these.
pub fn lines_above_go_on()
    ensures { LinesAboveGoOn }
{}

/// A refusal, unless it is for the length, for a byte or for a missing header, is of a line that no job's text has
/// after the lines above it, which may be the beginning of a job, or the whole text may be the beginning of a job.
pub fn refusals_are_of_a_line_or_texts_go_on()
    ensures { RefusalsAreOfALineOrTextsGoOn }
{}
