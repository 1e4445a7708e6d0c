//! What calls answer in a test.

use tier_core::call::Cause;

/// What a token or a group of tokens answers.
#[derive(Clone, Copy, PartialEq, Eq)]
pub enum Reported {
    /// Nothing is done yet.
    Busy,
    /// Something is owed.
    Owing,
    /// Members joined in this phase.
    Joined(u32),
    /// They are held off in this phase.
    Held(u32, Cause),
    /// There is no room beside this number of parties.
    Full(u32),
    /// A member arrived or left in this phase; whether that led.
    Done(u32, bool),
    /// The last member left.
    Left(u32, bool),
    /// All members had arrived.
    AlreadyArrived(u32),
    /// The next phase.
    Passed(u32),
    /// All members have arrived, and others have not.
    Waiting,
    /// A member is unarrived.
    Here(u32),
    /// The tree has ended.
    Ended(i32),
}
