//! Registrations beside a party that is unarrived, and departures of one that has arrived: calls that try again.

ghost use Rattle.std.specs.Prelude.{◌≡◌, ◌<◌, ◌≤◌, ℕ, Some, MatchResult};
ghost use Rattle.tier_table.specs.AtLast.{HasEndedArrival, HasEndedJoin, token_admitted, token_counted};
ghost use Rattle.phasers.specs.Thin.{BringsAtLast, BringsOnce, Departs, HaveTried, LeavesNext, counted_of};

use crate::answers::Departed;
use crate::shared::{OnAdvance, SharedTree};
use crate::tree::{Guest, Party};
use std::sync::Wait;
use std::thread;
use tier_calls::joining::Registered;
use tier_calls::tiers::Tiers;
use tier_calls::tokens::{Crew, Door};
use tier_table::TRIES;
use tier_table::waiting::{
    ArrivedAtLast, AwaitedAdvance, RegisteredAtLast, await_advance, open_wait,
};

// Tries once to register members at the crew's tier. Returns the door as an error if the tries were used up.
#[tactic(auto, using(crate::proofs::Again::spent_tried))]
fn join_beside_once<R: Wait>(
    tiers: &Tiers,
    rt: &R,
    crew: &mut Crew,
    door: Door,
    members: u32,
) -> Result<RegisteredAtLast, Door>
    requires own { (crew.old.tree ≡ tiers.now) × (door.tree ≡ tiers.now) }
    requires some { crew.old.view.arrived < crew.old.view.size }
    requires members { (0 < members) × (members ≤ 65535) }
    ensures tree { (crew.new.tree ≡ crew.old.tree) × MatchResult result (λ a. (token_admitted a).tree ≡ door.tree) (λ next. next.tree ≡ door.tree) }
    ensures answer { MatchResult result (λ a. BringsOnce TRIES crew.old crew.new door members a) (λ next. HaveTried crew.old crew.new door next) }
    ensures ended { (phase : ℕ) → crew.old.view.end_seen ≡ Some phase → MatchResult result HasEndedJoin (λ next. ⊥) }
{
    match tiers.join_beside(crew, door, members, TRIES) {
        Registered::Joined(crew, phase) => Ok(RegisteredAtLast::Joined(crew, phase)),
        Registered::Full(door, count) => Ok(RegisteredAtLast::Full(door, count)),
        Registered::Ended(door, shown) => Ok(RegisteredAtLast::Ended(door, shown)),
        Registered::Busy(next) => Err(next),
        Registered::Held(_, _, _) => unreachable!(),
        Registered::Owing(opening) => {
            // Never taken. For the prover: an opening can't be dropped.
            let _ = open_wait(tiers, rt, opening);
            unreachable!()
        }
    }
}

/// Registers members at the crew's tier. A member of the crew has not arrived, so the tier is not empty and can't pass to
/// the next phase meanwhile.
pub(crate) fn join_beside_wait<R: Wait>(
    tiers: &Tiers,
    rt: &R,
    crew: &mut Crew,
    door: Door,
    members: u32,
) -> RegisteredAtLast
    requires own { (crew.old.tree ≡ tiers.now) × (door.tree ≡ tiers.now) }
    requires some { crew.old.view.arrived < crew.old.view.size }
    requires members { (0 < members) × (members ≤ 65535) }
    ensures tree { ((token_admitted result).tree ≡ door.tree) × (crew.new.tree ≡ crew.old.tree) }
    ensures answer { BringsAtLast TRIES crew.old crew.new door members result }
    ensures ended { (phase : ℕ) → crew.old.view.end_seen ≡ Some phase → HasEndedJoin result }
{
    let mut door = door;
    for _ in rt.forever() {
        match join_beside_once(tiers, rt, crew, door, members) {
            Ok(answer) => return answer,
            Err(next) => door = next,
        }
        thread::yield_now();
    }
    unreachable!()
}

// Lets a member leave whose party has an unarrived one.
#[tactic(auto, using(crate::proofs::Again::unarrived_still))]
fn leave_now<'a, R: Wait, A: OnAdvance>(
    shared: &'a SharedTree<A>,
    rt: &R,
    crew: Crew,
) -> Departed<'a, A>
    requires own { crew.tree ≡ shared.now }
    requires some { crew.view.arrived < crew.view.size }
    ensures answer { Departs crew (counted_of result) }
    ensures unsplit { (token_counted (counted_of result)).opened ≡ crew.opened }
    ensures ended { (phase : ℕ) → crew.view.end_seen ≡ Some phase → HasEndedArrival (counted_of result) }
{
    match shared.leave_wait(rt, crew) {
        ArrivedAtLast::Done(crew, phase, led) => {
            let party = Party { shared, crew };
            Departed::Done { party, phase, led }
        }
        ArrivedAtLast::Left(door, phase, led) => {
            let guest = Guest { shared, door };
            Departed::Left { guest, phase, led }
        }
        ArrivedAtLast::Ended(crew, shown) => Departed::Ended(Party { shared, crew }, shown),
        ArrivedAtLast::AlreadyArrived(_, _) => unreachable!(),
    }
}

/// Lets a member leave whose party has arrived: waits until the phase is over, and then leaves in the next.
pub(crate) fn leave_next<'a, R: Wait, A: OnAdvance>(
    shared: &'a SharedTree<A>,
    rt: &R,
    mut crew: Crew,
) -> Departed<'a, A>
    requires own { crew.tree ≡ shared.now }
    ensures answer { LeavesNext crew (counted_of result) }
    ensures unsplit { (token_counted (counted_of result)).opened ≡ crew.opened }
    ensures ended { (phase : ℕ) → crew.view.end_seen ≡ Some phase → HasEndedArrival (counted_of result) }
{
    // For the prover: a crew has members.
    let _ = crew.size();
    match await_advance(&shared.tiers, rt, &mut crew) {
        AwaitedAdvance::Passed(_) => leave_now(shared, rt, crew),
        AwaitedAdvance::Here(_) => leave_now(shared, rt, crew),
        AwaitedAdvance::Ended(shown) => Departed::Ended(Party { shared, crew }, shown),
    }
}
