//! Tokens in all their states.

use tier_table::tokens::{Crew, Door, Errand, Opening};

/// A token, whatever it is in.
pub enum Holder {
    /// Without members.
    Outside(Door),
    /// With members.
    Inside(Crew),
    /// In an arrival or a departure.
    Owing(Errand),
    /// In a registration.
    Opening(Opening),
}

/// Three tokens of one tree.
pub type Three = (Holder, Holder, Holder);

/// Four tokens of one tree.
pub type Four = (Holder, Holder, Holder, Holder);

/// Eight tokens of one tree.
pub struct Eight {
    /// The first four.
    pub front: Four,
    /// The last four.
    pub back: Four,
}
