//! Groups, and doors for them.

use tier_table::groups::Group;
use tier_table::tokens::Door;

/// A place for a group.
#[derive(Drop)]
pub enum Seat {
    /// No group, but a door.
    Outside(Door),
    /// A group.
    Inside(Group),
}

/// Three places for groups of one tree.
pub type Three = (Seat, Seat, Seat);
