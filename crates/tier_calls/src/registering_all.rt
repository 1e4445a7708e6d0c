//! Registrations of several tokens at any tier.

ghost use Rattle.std.specs.Prelude.{◌≡◌, ◌<◌, ℕ, Some, length};
ghost use Rattle.tier_calls.specs.RegistersAll.{OthersJoin, RegistersAll, HasEnded};

use crate::groups::Group;
use crate::joining::Registered;
use crate::joining_all::JoinedAll;
use crate::tiers::Tiers;
use crate::tokens::{Crew, Door, Opening};
use tier_core::call::Cause;

/// Why a registration of several tokens stopped after the first one.
pub enum Halt {
    /// The tier has this many parties, and would have over 65535 with the others.
    Full(u32),
    /// The tree has ended and shows this phase, a negative number. No later call on it counts anything.
    Ended(i32),
    /// The tries ran out.
    Busy,
}

/// The answer of a registration of several tokens: [`Tiers::register_all`](crate::tiers::Tiers::register_all).
///
/// Only `Joined` has registered all members, and only `Partly` has registered some. `Held`, `Full`, `Ended` and `Busy`
/// return the door without members.
pub enum RegisteredAll {
    /// All members have registered, and are unarrived in this phase. They can arrive now.
    Joined(Group, u32),
    /// The first member has registered, and is the only one of this group. The others have not, for this reason. Register
    /// them by [`Tiers::join_all`](crate::tiers::Tiers::join_all), or go on without them: the group can arrive, and its
    /// member can leave.
    Partly(Group, Halt),
    /// The registration is held off in this phase, for this cause. Causes go away as other tokens take their steps:
    /// let other threads run and register again.
    Held(Door, u32, Cause),
    /// A tier of the path has this many parties already and would have over 65535. Register at another tier.
    Full(Door, u32),
    /// The tree has ended and shows this phase, a negative number. No later call on it counts anything.
    Ended(Door, i32),
    /// The tries ran out, and the registration has changed nothing. Register again.
    Busy(Door),
    /// The tries ran out while the path to the tier was opened or released. Nobody else can register at the claimed
    /// tiers meanwhile, so resume soon: [`Tiers::open_on`](crate::tiers::Tiers::open_on). This registers the first member
    /// alone; then register the others by [`Tiers::join_all`](crate::tiers::Tiers::join_all).
    Owing(Opening),
}

impl Tiers {
    /// Registers `n` members of one new token each beside a crew of one member that has just registered.
    fn join_others(&self, mut crew: Crew, n: u32, tries: u32) -> RegisteredAll
        requires own { crew.tree ≡ self.now }
        requires one { crew.view.size ≡ 1 }
        requires unarrived { crew.view.arrived ≡ 0 }
        ensures { OthersJoin crew n tries result }
    {
        let mut door = self.open_beside(&mut crew);
        let group = Group::of(crew);
        match self.join_all(group, &mut door, n, tries) {
            JoinedAll::Joined(group, phase) => RegisteredAll::Joined(group, phase),
            JoinedAll::Full(group, count) => RegisteredAll::Partly(group, Halt::Full(count)),
            JoinedAll::Ended(group, shown) => RegisteredAll::Partly(group, Halt::Ended(shown)),
            JoinedAll::Busy(group) => RegisteredAll::Partly(group, Halt::Busy),
            JoinedAll::AlreadyArrived(_, _) => unreachable!(),
        }
    }

    /// Registers `n` new members at a tier, as Java's `bulkRegister`, but each of them is the one member of a token of its
    /// own. First registers one as [`Tiers::join`](crate::tiers::Tiers::join) does, which opens the path to the tier if it
    /// is empty, and then the others beside it by one exchange.
    ///
    /// Makes at most `tries` tries for the first one, and at most `tries` for the others. See [`RegisteredAll`] for what to
    /// do after each answer.
    pub fn register_all(&self, door: Door, tier: u16, n: u32, tries: u32) -> RegisteredAll
        requires own { door.tree ≡ self.now }
        requires tier { tier < length self.now.key.shape }
        requires some { 0 < n }
        ensures answer { RegistersAll door tier n tries result }
        ensures ended { (phase : ℕ) → door.view.end_seen ≡ Some phase → HasEnded result }
    {
        match self.join(door, tier, 1, tries) {
            Registered::Joined(crew, phase) => {
                if n == 1 {
                    return RegisteredAll::Joined(Group::of(crew), phase);
                }
                self.join_others(crew, n - 1, tries)
            }
            Registered::Held(door, phase, cause) => RegisteredAll::Held(door, phase, cause),
            Registered::Full(door, count) => RegisteredAll::Full(door, count),
            Registered::Ended(door, shown) => RegisteredAll::Ended(door, shown),
            Registered::Busy(door) => RegisteredAll::Busy(door),
            Registered::Owing(opening) => RegisteredAll::Owing(opening),
        }
    }
}
