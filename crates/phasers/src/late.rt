//! Threads that join later: a guest that waits for a phase.

ghost use Rattle.std.specs.Prelude.{◌≡◌, IfErr};
ghost use Rattle.phasers.specs.Late.{AwaitsPhase, SeesPhaseWithin};

use crate::answers::TreeEnded;
use crate::shared::OnAdvance;
use crate::tree::Guest;
use std::sync::Wait;
use tier_calls::tiers::Tiers;
use tier_calls::tokens::Door;
use tier_calls::{Patience, TimedOut, Unlimited};

// Waits until the tree is in `phase` or a later one, as long as `patience` lasts.
pub(crate) fn await_phase_within<R: Wait, P: Patience<R> + Drop>(
    tiers: &Tiers,
    rt: &R,
    door: &mut Door,
    phase: u32,
    patience: P,
) -> Result<Result<u32, i32>, TimedOut>
    requires own { door.old.tree ≡ tiers.now }
    ensures tree { door.new.tree ≡ door.old.tree }
    ensures answer { SeesPhaseWithin phase door.old door.new result }
    ensures within { IfErr result (λ fault. P.ends) }
{
    let mut patience = patience;
    for _ in rt.forever() {
        match tiers.watch(door) {
            Ok(now) => {
                if phase <= now {
                    return Ok(Ok(now));
                }
            }
            Err(shown) => return Ok(Err(shown)),
        }
        if tiers.pause(rt, &mut patience).is_err() {
            return Err(TimedOut);
        }
    }
    unreachable!()
}

impl<'a, A: OnAdvance> Guest<'a, A> {
    /// Waits until the tree is in `phase` or a later one, and returns the phase that it is in. Fails with `TreeEnded` if the
    /// tree has ended, or ends before. After phase 2147483647 phases start again at 0, and the call waits on.
    ///
    /// The guest holds up no phase, so the tree may be in a later one when the call returns. To join in a phase that can't
    /// end meanwhile, take a party that another thread has brought ([`Party::bring`](crate::tree::Party::bring)).
    pub fn await_phase<R: Wait>(&mut self, rt: &R, phase: u32) -> Result<u32, TreeEnded>
        ensures tree { self.new.tree ≡ self.old.tree }
        ensures answer { AwaitsPhase phase self.old self.new result }
    {
        let shared = self.shared;
        match await_phase_within(&shared.tiers, rt, &mut self.door, phase, Unlimited::new()) {
            Ok(Ok(now)) => Ok(now),
            Ok(Err(shown)) => Err(TreeEnded { shown }),
            Err(_) => unreachable!(),
        }
    }
}
