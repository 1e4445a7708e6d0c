//! Laws on stretches. Each function does nothing: its contract is the law.
ghost use Rattle.program_stretches.specs.Laws.{StretchesAreRefusedInOrder};

use programs::program::Program;

/// A stretch is refused for the first of these that holds: it is of another step, it hasn't run, no stretch has its
/// number, its stretch isn't out. If none holds, it is taken back.
pub fn stretches_are_refused_in_order<P: Program>()
    ensures { StretchesAreRefusedInOrder P P.Task }
{}
