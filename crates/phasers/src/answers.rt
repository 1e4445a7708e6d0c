//! What the calls of a tree's tokens answer, and their errors.

ghost use Rattle.std.specs.Prelude.{◌≡◌};
ghost use Rattle.phasers.specs.Thin.{left_in};

use crate::shared::{NoHook, OnAdvance};
use crate::tree::{Guest, Party};
use std::fmt;
use thiserror::Error;

/// Why nobody has joined. The guest is handed back: use it again, or drop it.
#[derive(Drop, Error)]
pub enum JoinError<'a, A: OnAdvance = NoHook> {
    /// There is no room: a tier of the path has this many parties, and 65535 is the most. Try another tier, or wait until
    /// members have left.
    #[error("no room: a tier has {1} parties")]
    Full(Guest<'a, A>, u32),
    /// The tree has ended, and shows this number as its phase, which is negative. Nobody can join any more.
    #[error("the tree has ended")]
    Ended(Guest<'a, A>, i32),
}

impl<A: OnAdvance> fmt::Debug for JoinError<'_, A> {
    fn fmt<W: fmt::Write>(&self, f: &mut fmt::Formatter<W>) -> fmt::Result {
        match self {
            JoinError::Full(_, parties) => write!(f, "Full({parties})"),
            JoinError::Ended(_, shown) => write!(f, "Ended({shown})"),
        }
    }
}

/// The time of a registration has passed, and nobody has joined.
#[derive(Drop, Error)]
#[error("the time has passed")]
pub struct JoinTimedOut<'a, A: OnAdvance = NoHook> {
    /// The guest: use it again, or drop it.
    pub guest: Guest<'a, A>,
}

impl<A: OnAdvance> fmt::Debug for JoinTimedOut<'_, A> {
    fn fmt<W: fmt::Write>(&self, f: &mut fmt::Formatter<W>) -> fmt::Result {
        write!(f, "JoinTimedOut")
    }
}

/// Why a party has brought nobody. A token that was split off it for them is handed back: use it, or drop it.
#[derive(Drop, Error)]
pub enum BringError<'a, A: OnAdvance = NoHook> {
    /// There is no room: the tier has this many parties, and 65535 is the most.
    #[error("no room: the tier has {1} parties")]
    Full(Guest<'a, A>, u32),
    /// The tree has ended, and shows this number as its phase, which is negative. Nobody can join any more.
    #[error("the tree has ended")]
    Ended(Guest<'a, A>, i32),
    /// All members of the party have arrived, and nothing was done. Bring others before the last member arrives, or in
    /// the next phase.
    #[error("all members have arrived")]
    AllArrived,
}

impl<A: OnAdvance> fmt::Debug for BringError<'_, A> {
    fn fmt<W: fmt::Write>(&self, f: &mut fmt::Formatter<W>) -> fmt::Result {
        match self {
            BringError::Full(_, parties) => write!(f, "Full({parties})"),
            BringError::Ended(_, shown) => write!(f, "Ended({shown})"),
            BringError::AllArrived => write!(f, "AllArrived"),
        }
    }
}

/// Why a meeting has seen no end of its phase.
#[derive(Clone, Copy, Debug, PartialEq, Eq, Error)]
pub enum MeetError {
    /// Another member of the party has not arrived in this phase. Call again for it. A party of one member never gets this.
    #[error("another member of the party has not arrived")]
    Here(u32),
    /// The tree has ended, and shows this number as its phase, which is negative. Stop.
    #[error("the tree has ended")]
    Ended(i32),
}

/// The tree has ended, before the phase that a guest waited for.
#[derive(Clone, Copy, Debug, PartialEq, Eq, Error)]
#[error("the tree has ended")]
pub struct TreeEnded {
    /// The number that the tree shows as its phase, which is negative.
    pub shown: i32,
}

/// The answer of a departure.
#[derive(Drop)]
#[must_use]
pub enum Departed<'a, A: OnAdvance = NoHook> {
    /// A member has left, and the party has others.
    Done {
        /// The party without that member.
        party: Party<'a, A>,
        /// The phase in which it left.
        phase: u32,
        /// Whether the call took the advance.
        led: bool,
    },
    /// The last member has left. Register by the guest to take part again, or drop it.
    Left {
        /// The token, without members now.
        guest: Guest<'a, A>,
        /// The phase in which the member left.
        phase: u32,
        /// Whether the call took the advance.
        led: bool,
    },
    /// The tree has ended, and shows this number as its phase, which is negative. Nobody has to leave any more.
    Ended(Party<'a, A>, i32),
}

impl<A: OnAdvance> Departed<'_, A> {
    /// Returns the phase in which the member left. Fails with `TreeEnded` if the tree had ended, and nobody had to leave.
    ///
    /// For a party of one member, of which nothing is left. The other members of a larger one are in [`Departed::Done`]: match
    /// it, since a party that is dropped stays registered.
    pub fn phase(&self) -> Result<u32, TreeEnded>
        ensures { result ≡ left_in self.now }
    {
        match self {
            Departed::Done { phase, .. } | Departed::Left { phase, .. } => Ok(*phase),
            Departed::Ended(_, shown) => Err(TreeEnded { shown: *shown }),
        }
    }
}
