//! Shared arrays, the paths of tasks, and the puts that land in the arrays at the end of a superstep.
//!
//! # Where things are
//!
//! * `arrays.rt`: arrays, puts and logs; `path.rt`: the order of paths; `log.rt`: one log, taken or given back.
//! * `puts.rt`: the log of a superstep, and how it lands; `lots.rt`, `lots_landing.rt`, `lots_listed.rt`: single puts and rows of
//!   puts: as they are kept, how they land, and as one list.
//! * For callers with logs of their own: `landing.rt`: landing; `runs.rt`: runs of logs. `laws.rt`: the laws.
//! * `specs/PathOrder.antt`: things in path order; `Landing.antt`: what puts leave and which overflow; `Runs.antt`:
//!   what runs are.
//! * `proofs/Landed.antt`: one put after another; `Over.antt`: the first that overflows; `Taken.antt`: puts taken
//!   and given back; `Merged.antt` and `InOrder.antt`: lists in path order; `LandedLaws.antt`: the laws.
#![tactic(auto)]

pub mod arrays;
pub mod landing;
pub mod laws;
pub mod log;
mod lots;
mod lots_landing;
mod lots_listed;
pub mod path;
pub mod puts;
pub mod runs;
