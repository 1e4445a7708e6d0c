//! Calls that wait no longer than a limit.
use phasers::barrier::{Barrier, GateFault, NoAction};
use phasers::parties::{JoinedParties, Parties};
use phasers::tree::{AwaitedAdvance, EndPlan, Guest, Party, PhaserTree, Polled, Seat, TimedOut};
use std::process::Abort;
use std::sync::Wait;
use std::time::{Clock, Duration};

// A limit that passes.
fn short() -> Duration {
    Duration::from_millis(5)
}

// A limit that doesn't.
fn long() -> Duration {
    Duration::from_secs(30)
}

// A party that waits for another in vain is left as it was, has arrived once, and passes when the other comes.
fn waits_in_vain<R: Wait + Clock>(rt: &R, first: &mut Party<'_>, second: &mut Party<'_>) -> bool {
    let late = first.meet_for(rt, short()) == Err(TimedOut)
        && first.await_advance_for(rt, Duration::ZERO) == Err(TimedOut);
    let arrived = (first.phase(), first.unarrived()) == (0, 0)
        && matches!(first.poll(), Polled::Waiting);
    let met = second.meet_for(rt, long()) == Ok(Ok(1));
    late && arrived && met && first.await_advance_for(rt, long()) == Ok(AwaitedAdvance::Passed(1))
}

// A newcomer at a leaf whose party has arrived, and a guest that waits for a phase, give up.
fn guests_wait_in_vain<R: Wait + Clock>(rt: &R, mut guest: Guest<'_>) -> bool {
    let phase = guest.await_phase_for(rt, 2, short());
    match guest.join_for(rt, 0, short()) {
        Err(late) => phase == Err(TimedOut) && late.guest.phase() == 1,
        Ok(_) => false,
    }
}

#[test]
fn parties_and_guests(rt: HostRuntime) {
    let plan = EndPlan::when_empty();
    let mut tree = PhaserTree::from_widths(rt.alloc(), "2", plan).expect(&rt, "a tree");
    let mut guest = tree.guest();
    let mut first = guest.split().join(&rt, 0).expect(&rt, "room");
    let mut second = guest.split().join(&rt, 1).expect(&rt, "room");
    assert!(rt; waits_in_vain(&rt, &mut first, &mut second));
    first.arrive(&rt);
    assert!(rt; guests_wait_in_vain(&rt, guest.split()));
    let snapshot = first.snapshot(rt.alloc()).expect(&rt, "memory");
    let printed = format!(in rt.alloc(); "{snapshot}").expect(&rt, "memory");
    assert!(rt;
        printed.as_str() == "tier 0: 1 of 2 hasn't arrived\ntier 2: 1 of 1 hasn't arrived\n"
    );
    assert!(rt; guest.await_phase_for(&rt, 1, long()) == Ok(Ok(1)));
}

// Parties that wait for another in vain have arrived once.
fn parties_wait<R: Wait + Clock>(rt: &R, parties: Parties<'_>, other: &mut Party<'_>) -> bool {
    let (mut parties, met) = parties.meet_all_for(rt, short());
    let late = met == Err(TimedOut) && parties.await_advance_for(rt, short()) == Err(TimedOut);
    let met = other.meet_for(rt, long()) == Ok(Ok(1));
    late && met && parties.await_advance_for(rt, long()) == Ok(AwaitedAdvance::Passed(1))
}

#[test]
fn parties_that_arrive_together(rt: HostRuntime) {
    let plan = EndPlan::when_empty();
    let mut tree = PhaserTree::from_widths(rt.alloc(), "2", plan).expect(&rt, "a tree");
    let mut guest = tree.guest();
    let mut other = guest.split().join(&rt, 1).expect(&rt, "room");
    match guest.join_all(&rt, 0, 3) {
        JoinedParties::Joined(parties, _) => assert!(rt; parties_wait(&rt, parties, &mut other)),
        _ => panic!(rt; "the leaf has room"),
    }
}

#[test]
fn a_seat(rt: HostRuntime) {
    let seat: Seat<'_> = Seat::new();
    assert!(rt; matches!(seat.take_for(&rt, short()), Err(TimedOut)));
    seat.close(&rt);
    assert!(rt; matches!(seat.take_for(&rt, long()), Ok(None)));
}

#[test]
fn a_barrier(rt: HostRuntime) {
    let barrier = Barrier::new(rt.alloc(), 2, NoAction).expect(&rt, "two parties");
    assert!(rt; barrier.await_turn_for(&rt, 0, short()) == Err(GateFault::TimedOut));
    assert!(rt; barrier.await_turn_for(&rt, 1, long()) == Err(GateFault::Broken));
    assert!(rt; barrier.kept(&rt) == 0 && barrier.reset(&rt).is_empty());
}
