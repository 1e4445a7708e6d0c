//! Meetings that don't wait: for callers that may not, as they have no `rt` that waits.

ghost use Rattle.tier_calls.specs.Led.{LedOnWaited};
ghost use Rattle.tier_calls.specs.Arrives.{Resumes};
ghost use Rattle.phasers.specs.Trying.{TriesToMeet, resumed_of};

use crate::shared::SharedTree;
use crate::tree::{NoHook, OnAdvance, Party, Polled};
use std::marker::Model;
use tier_calls::arriving::{Arrived, Resumed};
use tier_calls::tokens::Errand;

/// A member of a party has arrived, and the tiers above don't know of it yet. Until they do, all others wait, so an `Owed`
/// can't be dropped: call [`Owed::settle`].
pub struct Owed<'a, A: OnAdvance = NoHook> {
    shared: &'a SharedTree<A>,
    errand: Errand,
}

impl<'a, A: OnAdvance> Model for Owed<'a, A> {
    ghost use Rattle.std.specs.Prelude.{◌≡◌, ◌<◌};
    ghost use Rattle.tier_calls.specs.declared.going.Going.{Going};

    ghost Value = { Going };

    ghost view = { λ o. o.errand };

    ghost invariant = { λ o. (o.errand.token.tree ≡ o.shared.now) × (0 < o.errand.token.view.size) };
}

/// The answer of a meeting that doesn't wait.
#[must_use]
pub enum Met<'a, A: OnAdvance = NoHook> {
    /// The phase in which all members had arrived is over, and this is the next one.
    Passed(Party<'a, A>, u32),
    /// All members have arrived, and other parties haven't. Call `poll` until it returns `Passed`.
    Waiting(Party<'a, A>),
    /// Another member has not arrived in this phase. Call again for it.
    Here(Party<'a, A>, u32),
    /// The tree has ended, and shows this number as its phase, which is negative. Stop.
    Ended(Party<'a, A>, i32),
    /// All tries failed, and nobody was counted. Call again.
    Busy(Party<'a, A>),
    /// All tries were used. A member has arrived, and the tiers above don't know of it yet. Call `settle` at once.
    Owing(Owed<'a, A>),
}

/// The answer of [`Owed::settle`].
#[must_use]
pub enum Settled<'a, A: OnAdvance = NoHook> {
    /// The member has arrived.
    Done {
        /// The party of the member.
        party: Party<'a, A>,
        /// The phase in which it arrived.
        phase: u32,
        /// Whether the call took the advance.
        led: bool,
    },
    /// All tries were used. Call again.
    Owing(Owed<'a, A>),
}

impl<'a, A: OnAdvance> Owed<'a, A> {
    /// Resumes the arrival, with at most `tries` tries; 16 are enough if no other thread is inside a call.
    pub fn settle(self, tries: u32) -> Settled<'a, A>
        ensures answer { Resumes self.entry tries (resumed_of result) }
        ensures waited { LedOnWaited (resumed_of result) }
    {
        let Owed { shared, errand } = self;
        match shared.resume(errand, tries) {
            Resumed::Done(crew, phase, led) => {
                let party = Party { shared, crew };
                Settled::Done { party, phase, led }
            }
            Resumed::Left(door, _, _) => {
                // For the prover: a door has no members.
                let _ = door.phase();
                unreachable!()
            }
            Resumed::Owing(errand) => Settled::Owing(Owed { shared, errand }),
        }
    }
}

impl<'a, A: OnAdvance> Party<'a, A> {
    /// Lets a member arrive, with at most `tries` tries, and checks whether the phase is over; 16 tries are enough if no
    /// other thread is inside a call. If all members had arrived and the phase is still the same, only checks. If it is over
    /// by now, the member arrives in the next phase: after `Waiting` call `poll` instead. Never waits.
    pub fn try_meet(self, tries: u32) -> Met<'a, A>
        ensures { TriesToMeet self.entry tries result }
    {
        // For the prover: a party has members.
        let _ = self.size();
        let Party { shared, crew } = self;
        let mut party = match shared.arrive(crew, tries) {
            Arrived::Done(crew, _, _) => Party { shared, crew },
            Arrived::AlreadyArrived(crew, _) => Party { shared, crew },
            Arrived::Ended(crew, shown) => return Met::Ended(Party { shared, crew }, shown),
            Arrived::Busy(crew) => return Met::Busy(Party { shared, crew }),
            Arrived::Owing(errand) => return Met::Owing(Owed { shared, errand }),
            Arrived::Left(_, _, _) => unreachable!(),
        };
        match party.poll() {
            Polled::Passed(phase) => Met::Passed(party, phase),
            Polled::Waiting => Met::Waiting(party),
            Polled::Here(phase) => Met::Here(party, phase),
            Polled::Ended(shown) => Met::Ended(party, shown),
        }
    }
}
