//! The calls that tokens make, how far a call has come, and what its steps answer.

use thiserror::Error;
use tier_steps::kind::Kind;
use tier_steps::view::Passage;

/// A call that a token can make.
///
/// `Join`, `Arrive`, `Leave` and `Force` are `bulkRegister`, `arrive`, `arriveAndDeregister` and
/// `forceTermination` of Java SE 21's `Phaser`. `Poll` is not part of Java's API.
#[derive(Clone, Copy)]
pub enum Call {
    /// Registers new members at a tier, for a token that has none.
    Join {
        /// The tier at which they register.
        tier: u16,
        /// The number of members, from 1 to 65535.
        n: u32,
    },
    /// Arrives with one member of the token.
    Arrive,
    /// Deregisters one member of the token. Its departure counts as its arrival.
    Leave,
    /// Asks whether the token's phase has passed.
    Poll,
    /// Ends the tree at once.
    Force,
}

/// Why a join is held off.
///
/// Each cause goes away by itself as other tokens take their steps, so the caller joins again later.
#[derive(Clone, Copy, PartialEq, Eq)]
pub enum Cause {
    /// Another token is opening the path to the tier.
    BeingOpened,
    /// All parties of the tier have arrived in this phase. The tier admits members again in the next one.
    AllArrived,
    /// The root is in a later phase than the tier. The next step of a party of the tier brings it there.
    Lagging,
    /// All parties of the root have arrived, and its advance is under way.
    Advancing,
}

/// What a step of a call answers.
///
/// After `GoesOn` the token takes the next step. After `MustAdvance` it takes the advance
/// ([`finish_advance`](crate::tree::Core::finish_advance)). After any other answer the call is over and the
/// token may make another.
#[derive(Clone, Copy, PartialEq, Eq)]
pub enum Played {
    /// The call has more steps.
    GoesOn,
    /// The call is done and counts in this phase. From a poll: a member has not arrived in this phase.
    Done(u32),
    /// From a poll: all members had arrived, the phase has passed, and the token is in this phase now.
    Passed(u32),
    /// From a poll: all members of the token have arrived, and the phase has not passed.
    Waiting,
    /// From a join: it is held off in this phase, for this cause. The token still has no members.
    Held(u32, Cause),
    /// From a join: a tier of the path already has this many parties, too many for those that would be added.
    /// The token still has no members.
    Full(u32),
    /// From an arrival or a departure: all members of the token had arrived in this phase before the call.
    AlreadyArrived(u32),
    /// The tree has ended and shows this phase, a negative number. The call has counted nothing.
    Ended(i32),
    /// Everyone has arrived, and this token must advance the root: from this phase, with this many parties at the
    /// root. Everyone else waits until it does.
    MustAdvance(u32, u32),
}

/// The error of a step that the token can't take now. The tree is unchanged.
#[derive(Clone, Copy, Debug, Drop, PartialEq, Eq, Error)]
#[error("not now")]
pub struct NotNow;

/// How far the call of a token has come.
#[derive(Clone, Copy)]
pub enum Progress {
    /// The token is in no call.
    Idle,
    /// No step of the call has been taken.
    Begun(Call),
    /// A join has looked at the root, and is going up its path to the tier that admits it.
    Seeking {
        /// The tier to join.
        tier: u16,
        /// The number of members that are to join.
        size: u32,
    },
    /// A join has been taken, and its claimed tiers get their parties.
    Settling,
    /// A join has been refused, and releases its claimed tiers. Afterwards it gives this answer.
    GivingBack(Played),
    /// An arrival or a departure has looked at the root. Its step at its crew's tier, which counts it, is next.
    Passing(Passage),
    /// An arrival or a departure has been counted at its crew's tier, and climbs.
    Owing(Passage),
    /// An arrival or a departure must advance the root.
    Due(Passage),
    /// A poll has looked at the root and found that its crew's tier lags. The flag says whether its phase has passed.
    Refreshing(bool),
}

/// One step of a call, before it is taken.
#[derive(Clone, Copy)]
pub struct Turn {
    /// The kind of the step.
    pub kind: Kind,
    /// The tier whose word the step reads and changes.
    pub tier: u16,
    /// How far the call has come after the step.
    pub next: Progress,
    /// What the step answers.
    pub answer: Played,
}

/// A step of a run, in which any number of tokens take steps in any order. Tokens are given by number.
#[derive(Clone, Copy)]
pub enum Step {
    /// The token begins this call.
    Begin(usize, Call),
    /// The token takes the next step of its call.
    Go(usize),
    /// The token takes the advance that it must take. The plan says whether the tree ends.
    Finish(usize),
}

/// What a step of a run answers.
#[derive(Clone, Copy)]
pub enum Answer {
    /// The call has begun.
    Begun,
    /// A step of a call was taken and gave this answer.
    Played(Played),
    /// The token can't take the step now. The tree is unchanged.
    NotNow,
}
