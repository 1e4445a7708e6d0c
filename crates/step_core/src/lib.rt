//! What a job means, superstep by superstep. Rounds: the supersteps of a job, with orders for its tasks and deliveries of what
//! they did. A job of the task language as a program of supersteps, and a run of it on one thread.
//!
//! # Where things are
//!
//! * `round.rt`: the round; `alone.rt`: one thread; `observe.rt`: observers of its supersteps; `laws.rt`: the laws.
//! * `order.rt`: orders and deliveries; `live.rt`: the live tasks, shared with orders, and by place what was
//!   delivered; `slot.rt`: both as orders borrow them; `closing.rt`: what closing does with what was delivered;
//!   `landing.rt`: how its puts land; `next.rt`: the next live tasks; `reading.rt`: what a caller reads of a round;
//!   `fault.rt`: refusals.
//! * `job.rt`: the program, and what begins a run of it; `steps.rt`: a run on one thread, superstep by superstep.
//! * `specs/JobMeaning.antt`: what a job means; `JobTasks.antt`: what its tasks may leave; `JobRun.antt`: a run after some
//!   supersteps.
//! * `proofs/Rounds.antt`: orders and deliveries; `Closed.antt`: closing; `Watching.antt`: one thread and watchers;
//!   `LawProofs.antt`, `Apart.antt`, `Landings.antt`: the laws; `Beside.antt`: tasks beside what was delivered; `Places.antt`: the
//!   places of a round's tasks; `Formed.antt`: what a task leaves is well formed; `Starts.antt`: a run of the program leaves the
//!   job's report.
#![tactic(auto)]

mod alone;
pub mod closing;
pub mod fault;
mod job;
mod landing;
pub mod laws;
pub mod live;
pub mod next;
mod observe;
pub mod order;
pub mod reading;
mod round;
pub mod slot;
mod steps;

pub use alone::{run_alone, run_observed};
pub use fault::{AcceptFault, CloseFault, Outcome};
pub use job::{Beginning, JobProgram, MOST_TASKS, begin, start_all};
pub use observe::{NoObserver, Observe};
pub use order::{Delivery, Order};
pub use round::Round;
pub use steps::JobSteps;
