//! A job on worker threads whose report is written superstep by superstep: the lines of each superstep as the next one begins,
//! then the arrays and the last line. The bytes are those of the report's text.
//!
//! The worker that takes the first stretch of a superstep writes the lines of the one before, with no lock of the pool held, and
//! then runs its tasks. So at most one superstep's lines wait: a superstep isn't closed before each of its stretches is back.
//!
//! # Where things are
//!
//! * `run.rt`: a run; `lines.rt`: the lines that are still to be written; `outlet.rt`: the writer, which
//!   workers share; `streaming.rt`: what a run is of; `fault.rt`: why a run doesn't end.
//! * `specs/Written.antt`: what is written.
#![tactic(auto)]

mod fault;
mod lines;
mod outlet;
mod run;
mod streaming;

pub use fault::WorkersStreamFault;
pub use run::stream_within;
