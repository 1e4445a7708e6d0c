//! A single phaser as Java SE 21's `Phaser` without a parent: one word of counts, and a stored rule that says when it
//! ends.
//!
//! Three things are not part of Java's API: the number of a phase that an ended phaser shows, that the end is looked at
//! before the limit of parties, and a first phase other than 0.
//!
//! # Where things are
//!
//! * `phaser.rt`: the calls; `step.rt`: what each does to a word; `call.rt`: calls as data; `laws.rt`: the laws.
//! * `proofs/Counting.antt`: counts of members of one owner; `Following.antt`: one call; `RunProofs.antt`: lists of
//!   calls; `LawProofs.antt`: the laws.
#![tactic(auto)]

mod call;
mod laws;
mod phaser;
mod step;

pub use call::{Advance, Awaited, Call, OneFault, Reply};
pub use laws::{
    alike_words_are_one, arrivals_are_reported, awaits_are_reported, ended_stays, not_all_arrived,
    only_arrivals_ask_the_plan, phase_moves_by_one, plans_are_spelled_out, refusals_leave_all,
    registrations_are_reported, words_are_seen,
};
pub use phaser::PhaserOne;
