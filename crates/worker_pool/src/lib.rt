//! Runs jobs, and other programs, on worker threads, which synchronize at a tree of phasers.
//!
//! * `job`, `within`: a job on workers; `program`: any program. `run`, `start`: one run, from its first members at the tree to what it
//!   leaves.
//! * `work`: the loop of one worker.
//! * `shared`: what all workers share: the queue of `stretch_queue` under a lock, and the tree without one; `lane`: the stretches of a
//!   worker; `published`: the superstep that idle workers wait for.
//! * `tree`, `leaves`: the calls of the tree, and the leaves of its tasks.
//! * `specs/JobPlan.antt`: when the tree of a run ends.
#![tactic(auto)]

mod job;
mod lane;
mod leaves;
mod program;
mod published;
mod run;
mod shared;
mod start;
mod tree;
mod within;
mod work;

pub use job::run_job;
pub use program::{run_program, run_program_watched};
pub use run::{limit_in, run_stretches, stretches_wanted};
pub use stretch_queue::fault::{Refused, WorkerFault};
pub use stretch_queue::hook::{Closed, Hook, Lines, NoLines};
pub use stretch_queue::hooks::{AllStart, Gate, OpenGate, Starter};
pub use within::run_within;
