//! The calls of a barrier as data, and their answers.

use thiserror::Error;

/// The largest number of parties of a barrier.
pub const MOST_PARTIES: u32 = 65535;

/// A call of a barrier. Callers are numbers; Java SE 21's `CyclicBarrier` knows them by their threads.
#[derive(Clone, Copy)]
pub enum Call {
    /// The caller of this number arrives.
    Await(u32),
    /// The caller of this number, which waits, leaves early.
    Abandon(u32),
    /// A party that will never come breaks the barrier.
    BreakOff,
    /// The next generation starts, unbroken.
    Reset,
}

/// The answer of an arrival.
#[derive(Drop)]
pub enum AwaitedStep {
    /// The caller waits, with this arrival index. It passes when another call returns a list with its number.
    Waits(u32),
    /// The caller was the last. The list has all callers with their arrival indices, in order of arrival: let them pass.
    Tripped(Vec<(u32, u32)>),
    /// The caller was the last, and the action failed. The barrier is broken now. The list has the others, whose wait
    /// failed, in order of arrival: report `Broken` to them.
    ActionFailed(Vec<u32>),
    /// The barrier was broken before, and the caller doesn't wait. Call `reset` before the next arrival.
    Broken,
}

/// What an arrival did, without the lists of callers.
#[derive(Clone, Copy, Debug, PartialEq, Eq)]
pub enum Arrived {
    /// The caller waits, with this arrival index.
    Waits(u32),
    /// The caller was the last, and the generation tripped.
    Tripped,
    /// The caller was the last, and the action failed. The barrier is broken now.
    ActionFailed,
    /// The barrier was broken before, and the caller doesn't wait.
    Broken,
}

/// Why a call failed. Nothing changed then.
#[derive(Clone, Copy, Debug, PartialEq, Eq, Error)]
pub enum BarrierFault {
    /// A barrier was to have fewer than 1 party.
    #[error("fewer than 1 party")]
    NoParty,
    /// The caller that arrives already waits. Give each thread a different number.
    #[error("the caller waits already")]
    AlreadyWaiting,
    /// The caller that leaves early does not wait: it never arrived, or its wait is over.
    #[error("the caller does not wait")]
    NotWaiting,
    /// A barrier was to have more than 65535 parties.
    #[error("more than 65535 parties")]
    TooMany,
    /// There was no memory. The caller may try again.
    #[error("out of memory")]
    Memory,
}
