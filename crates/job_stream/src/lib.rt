//! A job whose report is written superstep by superstep: the lines of each superstep as soon as it is closed, then the arrays and
//! the last line. The bytes are those of the report's text.
//!
//! Arrays, tasks and one superstep are all that is kept in memory.
//!
//! # Where things are
//!
//! * `alone.rt`: a run on one thread; `text.rt`: what is written; `fault.rt`: why a run doesn't end.
//! * `specs/Streamed.antt`: what is written; `Running.antt`: the run of a job.
//! * `proofs/Texts.antt`: texts superstep by superstep; `Pieces.antt`: what supersteps of a run leave.
#![tactic(auto)]

mod alone;
mod fault;
mod text;

pub use alone::{stream_alone, write_left};
pub use fault::StreamFault;
pub use text::pass_on;
