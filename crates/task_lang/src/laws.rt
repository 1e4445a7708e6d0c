//! Laws on what bodies and segments mean. Each function does nothing: its contract is the law.
ghost use Rattle.task_lang.specs.Laws.{
  CodeSaysOneTree,
  NeverReadsItsPuts,
  FaultsWithoutEffect,
  StaysWithinItsBudget,
  PutsIntoCells,
  NumbersItsSpawns,
  StaysTheSameTask,
  GoesOnWhereItWasCut,
  ByFirstMention,
};

/// Each flat code with matched jumps is the code of exactly one list of statement trees, and each such list
/// has one.
pub fn code_says_one_tree()
    ensures { CodeSaysOneTree }
{}

/// A segment never reads what it puts.
pub fn never_reads_its_puts()
    ensures { NeverReadsItsPuts }
{}

/// A segment that faults puts, prints and spawns nothing.
pub fn faults_without_effect()
    ensures { FaultsWithoutEffect }
{}

/// A segment puts, prints and spawns no more than its budget.
pub fn stays_within_its_budget()
    ensures { StaysWithinItsBudget }
{}

/// A segment puts only into cells that exist.
pub fn puts_into_cells()
    ensures { PutsIntoCells }
{}

/// A segment spawns at most eight tasks, numbered on from those that its task had spawned before.
pub fn numbers_its_spawns()
    ensures { NumbersItsSpawns }
{}

/// A task that synced keeps its path and its argument, and counts what it spawned.
pub fn stays_the_same_task()
    ensures { StaysTheSameTask }
{}

/// A task that synced goes on exactly where it was cut: over the same arrays, and if its two segments don't fault, they
/// do what its statements do without that sync, up to the next one.
pub fn goes_on_where_it_was_cut()
    ensures { GoesOnWhereItWasCut }
{}

/// If the lines mention each local for the first time in the order of the locals, and mention all of them, the locals
/// of the body are in the order of first mention.
pub fn stand_by_first_mention()
    ensures { ByFirstMention }
{}
