//! A place in which one thread leaves a party, and another takes it.

ghost use Rattle.std.specs.Prelude.{◌≡◌, ◌<◌, IfErr, IfOk, IfSome};

use crate::shared::{NoHook, OnAdvance};
use crate::tree::Party;
use sleepers::{Deadline, TimedOut};
use std::sync::{Condvar, CondvarTimeouts, Mutex, Wait};
use std::time::{Clock, Duration};

// What is in a seat.
#[derive(Drop)]
struct Place<'a, A: OnAdvance> {
    party: Option<Party<'a, A>>,
    closed: bool,
}

/// A place in which one thread leaves a party, and another one, which runs already, takes it: the way to join late in a
/// phase that can't end meanwhile. The party is brought by [`Party::bring`], which doesn't wait for an advance.
///
/// ```
/// let plan = EndPlan::when_empty();
/// let mut tree = PhaserTree::from_widths(rt.alloc(), "2", plan).expect(&rt, "a tree");
/// let seat = Seat::new();
/// let mut own = tree.guest().join(&rt, 0).expect(&rt, "the leaf has room");
/// let party = own.bring(&rt, 1).expect(&rt, "the leaf has room");
/// assert!(rt; seat.give(&rt, party).is_ok());
/// seat.close(&rt);
/// // Other threads may call this.
/// let other = seat.take(&rt).expect(&rt, "a party");
/// assert!(rt; (other.tier(), other.phase()) == (own.tier(), 0));
/// assert!(rt; seat.take(&rt).is_none());
/// ```
#[derive(Drop)]
pub struct Seat<'a, A: OnAdvance = NoHook> {
    place: Mutex<Place<'a, A>>,
    changed: Condvar,
}

impl<'a, A: OnAdvance> Seat<'a, A> {
    /// Creates an empty seat.
    pub fn new() -> Seat<'a, A> {
        let place = Place {
            party: None,
            closed: false,
        };
        Seat {
            place: Mutex::new(place),
            changed: Condvar::new(),
        }
    }

    /// Leaves `party` in the seat, and wakes a thread that waits for one. If nobody has taken the party before it, or the seat is
    /// closed, fails and hands `party` back.
    pub fn give<R: Wait>(&self, rt: &R, party: Party<'a, A>) -> Result<(), Party<'a, A>>
        ensures { IfErr result (λ back. back ≡ party.entry) }
    {
        let mut place = self.place.lock(rt);
        if place.closed || place.party.is_some() {
            return Err(party);
        }
        place.party = Some(party);
        self.changed.notify_one();
        Ok(())
    }

    /// Closes the seat: nobody leaves a party in it any more, and no thread waits for one. The party that is in it can still be
    /// taken.
    pub fn close<R: Wait>(&self, rt: &R) {
        let mut place = self.place.lock(rt);
        place.closed = true;
        self.changed.notify_all();
    }

    /// Waits until there is a party in the seat, and takes it. Returns `None` if the seat is empty and closed. Waits for ever if
    /// no thread leaves a party or closes the seat.
    pub fn take<R: Wait>(&self, rt: &R) -> Option<Party<'a, A>>
        ensures { IfSome result (λ party. 0 < party.view.size) }
    {
        let mut place = self.place.lock(rt);
        for _ in rt.forever() {
            if let Some(party) = place.party.take() {
                // For the prover: a party has members.
                let _ = party.size();
                return Some(party);
            }
            if place.closed {
                return None;
            }
            place = self.changed.wait(rt, place);
        }
        unreachable!()
    }

    /// Takes the party in the seat as `take` does, and waits for one no longer than `limit`. Then fails with `TimedOut`.
    pub fn take_for<R: Wait + Clock>(
        &self,
        rt: &R,
        limit: Duration,
    ) -> Result<Option<Party<'a, A>>, TimedOut>
        ensures { IfOk result (λ taken. IfSome taken (λ party. 0 < party.view.size)) }
    {
        let deadline = Deadline::after(rt, limit);
        let mut place = self.place.lock(rt);
        for _ in rt.forever() {
            if let Some(party) = place.party.take() {
                // For the prover: a party has members.
                let _ = party.size();
                return Ok(Some(party));
            }
            if place.closed {
                return Ok(None);
            }
            let Some(left) = deadline.left(rt) else {
                return Err(TimedOut);
            };
            place = self.changed.wait_timeout(rt, place, left).0;
        }
        unreachable!()
    }
}
