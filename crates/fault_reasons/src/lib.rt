//! Why a job ended by a fault or at its limit, in words for people: the body, the line of the text with its statement, and
//! the values that it read. All of it is worked out afterwards: the job is run again, on this thread, to the superstep in
//! question. Nothing here is part of Java's API.
//!
//! # Where things are
//!
//! * `again.rt`: the tasks and the arrays as a superstep began; `walk.rt`: where a segment ends, and what it did;
//!   `lines.rt`: the lines of a body in the text; `items.rt`, `names.rt`: what a statement reads; `task.rt`, `sums.rt`,
//!   `limit.rt`: the texts; `pieces.rt`: texts and numbers; `reason.rt`: the whole; `laws.rt`: the laws.
#![tactic(auto)]

mod again;
mod items;
pub mod laws;
mod limit;
mod lines;
mod names;
mod pieces;
mod reason;
mod sums;
mod task;
mod walk;

pub use reason::end_reason;
