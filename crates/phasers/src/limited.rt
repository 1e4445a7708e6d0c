//! Calls that wait no longer than a limit. Each returns what the call without a limit returns, or fails with `TimedOut` and leaves
//! its token as it was: after that, look again, wait on, or let others go. A limit bounds how long a call waits for others; no
//! contract speaks of time. If the clock can't be read, the time has passed at once.

ghost use Rattle.std.specs.Prelude.{◌≡◌, ◌<◌, ◌≤◌, ℕ, Some, IfOk, MatchResult, length};
ghost use Rattle.tier_shape.specs.Leaves.{leaves_of};
ghost use Rattle.tier_shape.specs.Preferred.{leaf_at};
ghost use Rattle.tier_calls.specs.Made.{HasEntered, HasLooked};
ghost use Rattle.tier_table.specs.AtLast.{AwaitsWithin, AwaitWaited, HasEndedJoin, HasEndedWait, HasSplit, OpensAtLast, steps_of};
ghost use Rattle.tier_table.specs.AtLast as at_last;
ghost use Rattle.tier_table.specs.GroupsAtLast.{AwaitsAllWithin, MeetsAllWithin};
ghost use Rattle.phasers.specs.Late.{AwaitsPhaseWithin};
ghost use Rattle.phasers.specs.Limited.{MeetsWithin, joined_of};

use crate::answers::{JoinError, JoinTimedOut, MeetError, TreeEnded};
use crate::late::await_phase_within;
use crate::parties::Parties;
use crate::shared::OnAdvance;
use crate::tree::{Guest, Party};
use std::sync::Wait;
use std::time::{Clock, Duration};
use tier_table::TRIES;
use tier_table::groups::await_all_within;
use tier_table::waiting::{
    AwaitedAdvance, Limited, RegisteredAtLast, TimedOut, await_within, register_within,
};

impl<'a, A: OnAdvance> Guest<'a, A> {
    /// Registers as [`Guest::register`] does. If its parties have all arrived, waits no longer than `limit` for the next phase.
    /// Then fails, and hands the guest back: nobody has joined.
    pub fn register_for<R: Wait + Clock>(
        self,
        rt: &R,
        tier: u16,
        members: u32,
        limit: Duration,
    ) -> Result<Result<Party<'a, A>, JoinError<'a, A>>, JoinTimedOut<'a, A>>
        requires tier { tier < length self.tree.key.shape }
        requires members { (0 < members) × (members ≤ 65535) }
        ensures answer { OpensAtLast self.entry.tree tier members (joined_of result) }
        ensures unsplit { HasSplit self.entry.opened (joined_of result) }
        ensures made { HasEntered self.entry.steps (steps_of (joined_of result)) }
        ensures ended { (phase : ℕ) → self.entry.view.end_seen ≡ Some phase → MatchResult (joined_of result) HasEndedJoin (λ next. ⊥) }
    {
        let Guest { shared, door } = self;
        let patience = Limited::new(rt, limit);
        match register_within(&shared.tiers, rt, door, tier, members, patience) {
            Ok(RegisteredAtLast::Joined(crew, _)) => Ok(Ok(Party { shared, crew })),
            Ok(RegisteredAtLast::Full(door, count)) => {
                Ok(Err(JoinError::Full(Guest { shared, door }, count)))
            }
            Ok(RegisteredAtLast::Ended(door, shown)) => {
                Ok(Err(JoinError::Ended(Guest { shared, door }, shown)))
            }
            Err(door) => Err(JoinTimedOut {
                guest: Guest { shared, door },
            }),
        }
    }

    /// Registers one member at the leaf of this number, as [`Guest::join`] does, and waits no longer than `limit`. Then fails, and
    /// hands the guest back: nobody has joined.
    pub fn join_for<R: Wait + Clock>(
        self,
        rt: &R,
        number: usize,
        limit: Duration,
    ) -> Result<Result<Party<'a, A>, JoinError<'a, A>>, JoinTimedOut<'a, A>>
        ensures answer { OpensAtLast self.entry.tree (leaf_at (leaves_of self.entry.tree.key.shape) number) 1 (joined_of result) }
        ensures unsplit { HasSplit self.entry.opened (joined_of result) }
        ensures made { HasEntered self.entry.steps (steps_of (joined_of result)) }
        ensures ended { (phase : ℕ) → self.entry.view.end_seen ≡ Some phase → MatchResult (joined_of result) HasEndedJoin (λ next. ⊥) }
    {
        let tier = self.shared.leaf(number);
        self.register_for(rt, tier, 1, limit)
    }

    /// Waits for a phase as [`Guest::await_phase`] does, no longer than `limit`.
    pub fn await_phase_for<R: Wait + Clock>(
        &mut self,
        rt: &R,
        phase: u32,
        limit: Duration,
    ) -> Result<Result<u32, TreeEnded>, TimedOut>
        ensures tree { self.new.tree ≡ self.old.tree }
        ensures answer { AwaitsPhaseWithin phase self.old self.new result }
    {
        let shared = self.shared;
        let patience = Limited::new(rt, limit);
        match await_phase_within(&shared.tiers, rt, &mut self.door, phase, patience) {
            Ok(Ok(now)) => Ok(Ok(now)),
            Ok(Err(shown)) => Ok(Err(TreeEnded { shown })),
            Err(_) => Err(TimedOut),
        }
    }
}

impl<'a, A: OnAdvance> Party<'a, A> {
    /// Waits as [`Party::await_advance`] does, no longer than `limit`. Then fails with `TimedOut`: the members have arrived and are
    /// still registered, so `poll`, wait again, or call [`Party::snapshot`] to see who has not arrived.
    pub fn await_advance_for<R: Wait + Clock>(
        &mut self,
        rt: &R,
        limit: Duration,
    ) -> Result<AwaitedAdvance, TimedOut>
        ensures tree { self.new.tree ≡ self.old.tree }
        ensures answer { AwaitsWithin self.old self.new result }
        ensures waited { IfOk result (AwaitWaited self.old self.new) }
        ensures unsplit { self.new.opened ≡ self.old.opened }
        ensures made { HasLooked self.old.steps self.new.steps }
        ensures caught_up { IfOk result (λ answer. at_last.CaughtUpBy answer self.new) }
        ensures ended { (phase : ℕ) → self.old.view.end_seen ≡ Some phase → MatchResult result HasEndedWait (λ fault. ⊥) }
    {
        let shared = self.shared;
        let patience = Limited::new(rt, limit);
        await_within(&shared.tiers, rt, &mut self.crew, patience)
    }

    /// Lets a member arrive, and waits as [`Party::meet`] does, no longer than `limit`. Then fails with `TimedOut`: the member has
    /// arrived. Wait for the others by `await_advance` or `await_advance_for` after that, since another `meet` would let the member
    /// arrive in the next phase if this one is over by then.
    pub fn meet_for<R: Wait + Clock>(
        &mut self,
        rt: &R,
        limit: Duration,
    ) -> Result<Result<u32, MeetError>, TimedOut>
        ensures tree { self.new.tree ≡ self.old.tree }
        ensures answer { MeetsWithin self.old self.new result }
        ensures unsplit { self.new.opened ≡ self.old.opened }
    {
        self.arrive(rt);
        match self.await_advance_for(rt, limit) {
            Ok(AwaitedAdvance::Passed(phase)) => Ok(Ok(phase)),
            Ok(AwaitedAdvance::Here(phase)) => Ok(Err(MeetError::Here(phase))),
            Ok(AwaitedAdvance::Ended(shown)) => Ok(Err(MeetError::Ended(shown))),
            Err(_) => Err(TimedOut),
        }
    }
}

impl<'a, A: OnAdvance> Parties<'a, A> {
    /// Waits as [`Parties::await_advance`] does, no longer than `limit`. Then fails with `TimedOut`: the members have arrived and are
    /// still registered.
    pub fn await_advance_for<R: Wait + Clock>(
        &mut self,
        rt: &R,
        limit: Duration,
    ) -> Result<AwaitedAdvance, TimedOut>
        ensures answer { AwaitsAllWithin self.old self.new result }
        ensures ended { (phase : ℕ) → self.old.view.end_seen ≡ Some phase → MatchResult result HasEndedWait (λ fault. ⊥) }
    {
        let patience = Limited::new(rt, limit);
        self.await_within(rt, patience)
    }

    /// Lets all members arrive, and waits as [`Parties::meet_all`] does, no longer than `limit`. Returns the members and the answer of
    /// [`Parties::await_advance_for`].
    pub fn meet_all_for<R: Wait + Clock>(
        self,
        rt: &R,
        limit: Duration,
    ) -> (Parties<'a, A>, Result<AwaitedAdvance, TimedOut>)
        ensures answer { MeetsAllWithin TRIES self.entry result.0 result.1 }
        ensures ended { (phase : ℕ) → self.entry.view.end_seen ≡ Some phase → MatchResult result.1 HasEndedWait (λ fault. ⊥) }
    {
        let patience = Limited::new(rt, limit);
        self.meet_within(rt, patience)
    }
}
