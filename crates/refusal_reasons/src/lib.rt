//! Why a text is refused, in words for people: the place of the fault, what its code means, and its line with a mark below what
//! counts. And the faulty lines of the text of a job: its first refusal, and then those of the lines after it, read as if that
//! line were left out. Nothing here is part of Java's API.
//!
//! # Where things are
//!
//! * `marks.rt`: what a fault is about; `known.rt`: the names that are known at a line of a job, and its open blocks; `place.rt`:
//!   where a fault is shown.
//! * `names.rt`, `meaning.rt`: the names of codes and what they mean; `lines.rt`: lines by number; `marked.rt`: a line and its
//!   mark; `reason.rt`: the whole reason, of a given refusal; `why.rt`: that of the text of a job.
//! * `faults.rt`: faulty lines; `replacing.rt`: texts with another line; `listing.rt`: the list as a text.
//! * `pieces.rt`: texts and numbers; `laws.rt`: the laws.
//! * `specs/Marks.antt`, `Known.antt`, `Places.antt`: what is shown; `Reasons.antt`, `JobReasons.antt`: what is said;
//!   `Faults.antt`: which lines are faulty.
#![tactic(auto)]

mod faults;
mod known;
pub mod laws;
mod lines;
mod listing;
mod marked;
mod marks;
mod meaning;
mod names;
mod pieces;
mod place;
mod reason;
mod replacing;
mod why;

pub use faults::{MOST_LISTED, faults_of};
pub use lines::line_at;
pub use listing::listing_of;
pub use marks::{Mark, Part};
pub use meaning::{Kind, meaning_of};
pub use names::code_name;
pub use place::{Place, job_mark, job_place, place_of};
pub use reason::refusal_reason;
pub use why::job_reason;
