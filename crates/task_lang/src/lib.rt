//! The task language: tasks, what one action of a task does, and what one segment does. Bodies and jobs are those of
//! `task_code`.
//!
//! # Where things are
//!
//! * `task.rt`, `scene.rt`: a task, what its segment reads, and what it has done so far.
//! * `value.rt`, `act.rt`: what an expression is worth, and what an action does; `fault.rt`: faults.
//! * `segment.rt`: the interpreter, which changes its task in place and works in buffers that it borrows
//!   (`segment_into`).
//! * `moves.rt`: where an operation leads; `laws.rt`: the laws.
//! * `specs/Meaning.antt`: what a segment does, by statement trees alone; `Views.antt`: what the code has, in those words;
//!   `Lent.antt`: what a segment leaves in its task and in borrowed buffers.
//! * `proofs/Behind.antt`: that a segment does the same after the puts of others; `Played.antt`: operations beside
//!   lines.
#![tactic(auto)]

pub mod act;
pub mod fault;
pub mod laws;
mod moves;
pub mod scene;
pub mod segment;
pub mod task;
pub mod value;

pub use task_code::{body, builder, code, job, names};
