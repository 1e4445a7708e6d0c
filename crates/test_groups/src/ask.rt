//! What groups are asked.

/// What a group is asked, or a door that has none.
#[derive(Clone, Copy)]
pub enum Deed {
    /// A group of this many members registers at a tier.
    Register(u16, u32),
    /// This many members register beside the group.
    Join(u32),
    /// All members arrive.
    Arrive,
    /// The same by a call with this many tries. If it owes something, it is finished by calls with no try and with 16.
    ArriveIn(u32),
    /// All members arrive; some join before, and some of the old ones leave.
    ArriveWith(u32, u32),
    /// The same by a call with this many tries.
    ArriveWithIn(u32, u32, u32),
    /// A wait for the next phase.
    Await,
    /// A look at the phase.
    Poll,
    /// All members arrive, and wait for the next phase.
    Meet,
    /// All members leave.
    Leave,
    /// The group keeps this many members, and the next place gets the others. The answer is that of a poll.
    Split(u32),
    /// The group takes in that of the next place. The answer is that of a poll.
    Merge,
    /// The end by force.
    Force,
}
