//! Runs the supersteps of a program stretch by stretch. A stretch is a list of consecutive live tasks. It is handed out, run by
//! its holder, and taken back, always as a whole.
//!
//! # Where things are
//!
//! * `stretch.rt`: a stretch that was taken; `start.rt`: a superstep as it begins; `lines.rt`: what supersteps printed;
//!   `stretches.rt`: the whole; `fault.rt`: refusals; `laws.rt`: the laws.
//! * Stretches apart from the run that they are of: `part.rt`: a stretch and what its tasks did; `parts.rt`: several together;
//!   `hand_over.rt`: what they hand over in the end; `landing.rt`: how puts land; `cut.rt`: new stretches; `next.rt`: the next
//!   ones, if tasks came or left; `moving.rt`: capacity for what a superstep leaves; `ready.rt`: what a run begins with.
//! * `specs/StretchesValue.antt`: the supersteps; `Closing.antt`: how they are taken, taken back and closed;
//!   `Reached.antt`: the history so far.
//! * `specs/Parts.antt`: what stretches did together; `Kept.antt`: what a stretch keeps of tasks that were replaced; `Next.antt`: how
//!   the next live tasks are put together.
#![tactic(auto)]

pub mod cut;
mod fault;
pub mod hand_over;
pub mod landing;
pub mod laws;
mod lines;
pub mod moving;
pub mod next;
pub mod part;
pub mod parts;
pub mod ready;
mod start;
mod stretch;
mod stretches;

pub use fault::{AcceptStretchFault, CloseStretchesFault, Outcome};
pub use lines::Lines;
pub use programs::deeds::{Change, Changes};
pub use start::SuperstepStart;
pub use stretch::Stretch;
pub use stretches::{Left, Stretches};
