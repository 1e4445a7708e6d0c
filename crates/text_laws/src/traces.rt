//! Laws on traces. Each function does nothing: its contract is the law.
ghost use Rattle.text_laws.specs.Advances.{AdvancesComeFirst};
ghost use Rattle.text_laws.specs.Enough.{RunsReachTheirAnswer, CallsDoneReachTheirAnswer};
ghost use Rattle.text_laws.specs.Heads.{HeadsAreSpelled};
ghost use Rattle.text_laws.specs.TreeAdvances.{AdvancesOfTreesComeFirst};
ghost use Rattle.text_laws.specs.WorkedTraces.{RefusedTracesAreWorkedOut, TracesAreWorkedOut};

/// `run` takes a call to its answer: more steps would print nothing more, and leave the same tree.
pub fn runs_reach_their_answer()
    ensures { RunsReachTheirAnswer }
{}

/// `do` takes a call from its beginning to its answer.
pub fn calls_done_reach_their_answer()
    ensures { CallsDoneReachTheirAnswer }
{}

/// A line is read as a head exactly if it is written as that head: its parts in their order, each in its one form, and
/// left out only if it says what holds without it.
pub fn heads_are_spelled()
    ensures { HeadsAreSpelled }
{}

/// The line of an advance comes before the answer of the call that caused it: a call of a phaser that moves the
/// phase prints first the phase that it ended, with the parties that it left, and one that doesn't prints its answer alone.
pub fn advances_come_first()
    ensures { AdvancesComeFirst }
{}

/// A command of a tree that moves the root's phase prints first the phase that ended, with the root's parties, and then
/// `done` in that phase. One that doesn't prints its answer alone.
pub fn advances_of_trees_come_first()
    ensures { AdvancesOfTreesComeFirst }
{}

/// Three traces, of a phaser, of a tree and of a barrier, print these texts, which are written out in full.
pub fn traces_are_worked_out()
    ensures { TracesAreWorkedOut }
{}

/// What some traces are refused for is written down, and not said by a rule: numbers at their limit and one above it, first words
/// that begin with a slash or a colon, and which fault counts at the limits of commands and tokens.
pub fn refused_traces_are_worked_out()
    ensures { RefusedTracesAreWorkedOut }
{}
