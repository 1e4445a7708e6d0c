//! The text of a job: read as the job that it says or refused at its first fault, and written in one way. The words of its
//! lines, jobs as statement trees, and jobs of either format as jobs of format 2. Nothing here is part of Java's API.
//!
//! # Where things are
//!
//! * `words.rt`: names, numbers, cells; `exprs.rt`: expressions; `lines.rt`: lines of bodies; `faults.rt`: which
//!   fault of a line counts; `mentions.rt`: the locals that lines mention; `upgrades.rt`: a job in format 2.
//! * `outer.rt`: lines outside bodies; `inside.rt`: lines of an open body; `state.rt` and `so_far.rt`: what has
//!   been read; `grow.rt`: lines that the job grows by; `read.rt`: the one pass; `push.rt` and `write.rt`: the canonical
//!   text; `fault.rt`: why no job is read; `laws.rt`: the laws.
//! * `specs/Reading.antt`: what a text says; `Grammar.antt`: which lines are a job's; `Kept.antt`: what the job so
//!   far and its open body keep; `Trees.antt`: a job without the flat code of its bodies; `Legal.antt`: which of these
//!   are jobs; `Upgrade.antt`: a job in format 2.
#![tactic(auto)]

pub mod exprs;
mod fault;
pub mod faults;
mod grow;
mod inside;
mod laws;
pub mod lines;
pub mod mentions;
mod outer;
mod push;
mod read;
mod so_far;
mod state;
mod upgrades;
pub mod words;
mod write;

pub use fault::ReadJobFault;
pub use laws::{each_text_is_read_or_refused, read_texts_are_jobs};
pub use read::read_job;
pub use text_lines::{Code, Refusal};
pub use upgrades::upgrade;
pub use write::{canonical, write_job};
