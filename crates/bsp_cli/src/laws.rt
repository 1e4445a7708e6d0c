//! A law on the lines on standard error. The function does nothing: its contract is the law.
ghost use Rattle.bsp_cli.specs.Lines.{LinesAreWorkedOut};

/// The line on standard error of each status that has one is written down, and not said by a rule.
pub fn lines_are_worked_out()
    ensures { LinesAreWorkedOut }
{}
