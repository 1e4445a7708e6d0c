//! Laws on what the report of a job says of its supersteps, and on every schedule of a job over a tree of phasers. Each
//! function does nothing: its contract is the law.
//!
//! * [`cast`]: what each token of the tree does in a superstep.
//! * [`driven`]: which jobs, trees and limits the laws on schedules are about: all that may be driven.
//! * [`reached`]: what holds of every world that their schedules reach.
//!
//! # Where things are
//!
//! * `lib.rt`: the laws on reports; `specs/Worked.antt`: worked out.
//! * `cast.rt`: the roles of tokens; `proofs/Playing.antt`: what others' steps leave of a role; `Quiet.antt` and
//!   `Steps.antt`: one step of a call; `Joining.antt`: joins; `Casting.antt`: the advance; `proofs/Sharing.antt`:
//!   one holder a token; `Calling.antt`: a step of a call; `Staging.antt` and `Moving.antt`: a task's stages;
//!   `Delivering.antt`, `Advancing.antt`, `Renewing.antt`, `Initial.antt`: the other moves; `Room.antt` and
//!   `Few.antt`: the room at a tier; `Keeping.antt`: all moves; `Claiming.antt`, `Following.antt`, `Answered.antt`
//!   and `SpawningOnTrees.antt`: the laws.
#![tactic(auto)]

pub mod cast;
pub mod driven;
pub mod reached;

ghost use Rattle.job_laws.specs.Reports.{
  ReportsAreBySuperstep,
  TextsHaveEveryPrint,
  PrintsAreOfTheirSuperstep,
  RecordsTellSupersteps,
  FaultsTellTheFirst,
};
ghost use Rattle.job_laws.specs.Refusals.{
  LandingsAreRefusedInOrder,
  DeliveriesAreRefusedInOrder,
  RefusalsAreNumbered,
  RunsAreLandedSo,
};
ghost use Rattle.job_laws.specs.WorkedTexts.{ReportsAreWrittenSo};
ghost use Rattle.job_laws.specs.Worked.{JobsAreWorkedOut};
ghost use Rattle.job_laws.specs.WorkedFaults.{SpawnsAreNumbered, FaultsAreWorkedOut};
ghost use Rattle.job_laws.specs.WorkedTests.{TestsAreWorkedOut};
ghost use Rattle.job_laws.specs.Outcomes.{OutcomesTellWhy, OutcomesAreWorkedOut, DeliveriesNameTheirSpawns};
ghost use Rattle.job_laws.specs.WorkedOperators.{OperatorsAreArithmetic, OperatorsAreWorkedOut};

/// The records of a job are those of phases 0, 1, 2, .., one for each superstep taken, and its prints are ordered by superstep.
pub fn reports_are_by_superstep()
    ensures { ReportsAreBySuperstep }
{}

/// Every print of a report is in its text, in front of the record of its superstep.
pub fn texts_have_every_print()
    ensures { TextsHaveEveryPrint }
{}

/// The prints of each superstep are what its tasks printed in it.
pub fn prints_are_of_their_superstep()
    ensures { PrintsAreOfTheirSuperstep }
{}

/// Each record describes its superstep: the phase, those live and those spawned, how many were spawned and how many stopped.
pub fn records_tell_supersteps()
    ensures { RecordsTellSupersteps }
{}

/// A fault that ends a job is that of the first faulting live task, with its code and path; or over 4096 tasks would live on.
pub fn faults_tell_the_first()
    ensures { FaultsTellTheFirst }
{}

/// What some jobs leave, worked out by hand: a swap, a conflict in both orders, a spawn, a fault, a limit, a sum by
/// all, sums that overflow, also under a put that would cover one, and such a sum beside a faulting task.
pub fn jobs_are_worked_out()
    ensures { JobsAreWorkedOut }
{}

/// Each operator is what its sign says: a sum, a difference and a product if it has 64 signed bits; a quotient rounded
/// to 0; a remainder with the sign of the left number; a comparison, which is 1 exactly if it holds.
pub fn operators_are_arithmetic()
    ensures { OperatorsAreArithmetic }
{}

/// What each operator gives for some numbers, on both sides of 0 and at the ends, worked out by hand.
pub fn operators_are_worked_out()
    ensures { OperatorsAreWorkedOut }
{}

/// When a task may spawn, and as what: with a path of fewer than 8 numbers, fewer than 8 spawns in the superstep and
/// fewer than 65535 in all; else it faults.
pub fn spawns_are_numbered()
    ensures { SpawnsAreNumbered }
{}

/// What some jobs with a fault leave, each with its number, and what jobs leave that just don't fault or just reach the
/// limit, worked out by hand.
pub fn faults_are_worked_out()
    ensures { FaultsAreWorkedOut }
{}

/// What some tests and indices lead to, worked out by hand: each number but 0 is a yes, also a negative one, and no
/// negative number is an index.
pub fn tests_are_worked_out()
    ensures { TestsAreWorkedOut }
{}

/// A superstep's outcome is the first of: a task faulted, over 4096 tasks would live on, a sum overflowed, its puts landed.
pub fn outcomes_tell_why()
    ensures { OutcomesTellWhy }
{}

/// How some supersteps end, worked out by hand: one for each outcome, and those to which two outcomes would apply.
pub fn outcomes_are_worked_out()
    ensures { OutcomesAreWorkedOut }
{}

/// A delivery has the paths of the tasks that its task spawned in the order of the spawns: the task's path, followed by the next numbers.
pub fn deliveries_name_their_spawns()
    ensures { DeliveriesNameTheirSpawns }
{}

/// Paths that don't rise are refused first, and otherwise the first put to no cell, by its path and its place from 0.
pub fn landings_are_refused_in_order()
    ensures { LandingsAreRefusedInOrder }
{}

/// A delivery of another step is refused as such, even if it is of another job; otherwise one of another job is, and
/// otherwise a second one.
pub fn deliveries_are_refused_in_order()
    ensures { DeliveriesAreRefusedInOrder }
{}

/// The numbers of the refusals of landings and of closings.
pub fn refusals_are_numbered()
    ensures { RefusalsAreNumbered }
{}

/// What logs in two runs leave, and why some don't land, worked out by hand.
pub fn runs_are_landed_so()
    ensures { RunsAreLandedSo }
{}

/// What is printed of some reports is written down byte for byte: one that ended, one with a spawned task, faults of a task and of
/// none, and the limit.
pub fn reports_are_written_so()
    ensures { ReportsAreWrittenSo }
{}
