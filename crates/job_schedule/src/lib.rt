//! A job on a tree of phasers, worked at by numbered workers in any order.
//!
//! * [`participant`]: a live task as a participant of the tree, its calls there, and how their answers change it.
//! * [`stage`]: how far a participant has come, and the moves of workers.
//! * [`step`]: what a worker does in one step, and what that answers.
//! * [`drive`]: a job by a list of steps.
//!
//! # Where things are
//!
//! * `hands.rt`: which task each worker has; `next.rt`: the next participants in path order; `step.rt`: steps and
//!   answers; `rounds.rt`: what the round takes; `schedule.rt`: the world in code and its moves; `drive.rt`: a list of
//!   steps; `laws.rt`: the laws.
//! * `proofs/Jobs.antt`: that the job of a world is that of its supersteps so far; `Closing.antt`: who closes a
//!   round; `Ending.antt`: what comes after the end; `Kept.antt`: which segments the round has by the stages of the
//!   participants; `Deeds.antt`: that what is delivered for a path is what its task does.
#![tactic(auto)]

pub mod drive;
mod hands;
pub mod laws;
mod next;
pub mod participant;
mod rounds;
mod schedule;
pub mod stage;
pub mod step;
