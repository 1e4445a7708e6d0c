//! The calls of the crate `phasers`, and what no clause says: threads meet, and a hook runs once at each advance.
use phasers::barrier::{Barrier, GateFault, NoAction};
use phasers::tree::{
    ArrivedInPlace, Departed, EndPlan, Forced, Guest, JoinError, Party, PhaserTree, Seat, TreeEnded,
};
use std::process::Abort;
use std::sync::Wait;
use std::sync::atomic::{AtomicU64, Ordering};
use std::thread;
use std::thread::Threads;

// A party meets `times` times, and leaves.
fn meets<R: Wait>(rt: &R, mut party: Party<'_>, times: u32) -> bool {
    for _ in 0..times {
        if party.meet(rt).is_err() {
            return false;
        }
    }
    matches!(party.leave(rt), Departed::Left { .. })
}

#[test]
fn threads_meet_in_a_scope(rt: HostRuntime) {
    let plan = EndPlan::when_empty();
    let mut tree = PhaserTree::from_widths(rt.alloc(), "2x2", plan).expect(&rt, "a tree");
    let mut guest = tree.guest();
    let shared = &rt;
    thread::scope(thread::scope_env(), shared, |scope| {
        for number in 0..4 {
            if let Ok(party) = guest.split().join(shared, number) {
                let _ = scope.spawn(move || meets(shared, party, 100));
            }
        }
    });
    assert!(rt; matches!(guest.join(&rt, 0), Err(JoinError::Ended(_, _))));
}

// Waits for phase 1, takes a party, meets the other in that phase, and leaves. Then waits for a second party, which doesn't
// come. Counts what came as it should.
fn comes_late<'a, R: Wait>(rt: &R, seat: &Seat<'a>, mut guest: Guest<'a>, right: &AtomicU64) {
    let waits = guest.await_phase(rt, 1) == Ok(1);
    let Some(mut party) = seat.take(rt) else {
        return;
    };
    let meets = party.phase() == 1 && party.meet(rt) == Ok(2);
    let leaves = party.leave(rt).phase() == Ok(2);
    let closes = seat.take(rt).is_none();
    right.fetch_add(
        u64::from(waits) + u64::from(meets) + u64::from(leaves) + u64::from(closes),
        Ordering::SeqCst,
    );
}

// Meets alone in phase 0, brings a party for the other thread, and meets it in phase 1. Closes the seat, which then takes no
// party.
fn brings<'a, R: Wait + Abort>(rt: &R, seat: &Seat<'a>, mut own: Party<'a>) {
    assert!(rt; own.meet(rt) == Ok(1));
    let party = own.bring(rt, 1).expect(rt, "room");
    assert!(rt; seat.give(rt, party).is_ok());
    assert!(rt; own.meet(rt) == Ok(2));
    seat.close(rt);
    let back = seat.give(rt, own).expect_err(rt, "a closed seat");
    assert!(rt; back.leave(rt).phase() == Ok(2));
}

// Two threads, of which one joins late.
fn two_with_a_seat<R: Threads + Wait + Abort + Sync>(rt: &R, guest: Guest<'_>, own: Party<'_>) {
    let (seat, right) = (&Seat::new(), &AtomicU64::new(0));
    thread::scope(thread::scope_env(), rt, |scope| {
        let _ = scope.spawn(move || comes_late(rt, seat, guest, right));
        brings(rt, seat, own);
    });
    assert!(rt; right.load(Ordering::SeqCst) == 4);
}

#[test]
fn a_thread_joins_late(rt: HostRuntime) {
    let plan = EndPlan::when_empty();
    let mut tree = PhaserTree::from_widths(rt.alloc(), "2", plan).expect(&rt, "a tree");
    let mut guest = tree.guest();
    let own = guest.split().join(&rt, 0).expect(&rt, "joined");
    two_with_a_seat(&rt, guest.split(), own);
    assert!(rt; matches!(guest.await_phase(&rt, 9), Err(TreeEnded { .. })));
}

// A token of a tree of three tiers, and two members of another at its tier 1.
fn registered<'a, R: Wait + Abort>(rt: &R, tree: &'a mut PhaserTree) -> (Guest<'a>, Party<'a>) {
    assert!(rt; tree.shape().count() == 3);
    let mut guest = tree.guest();
    let party = guest.split().register(rt, 1, 2).expect(rt, "registered");
    assert!(rt; party.phase() == 0);
    (guest, party)
}

// Returns true if a party is at tier 1, in phase 0, with two members that haven't arrived.
fn is_new(party: &Party<'_>) -> bool {
    (party.tier(), party.size(), party.unarrived(), party.phase()) == (1, 2, 2, 0)
}

// Returns true if one member of two arrives.
fn one_arrives<R: Wait>(rt: &R, party: &mut Party<'_>) -> bool {
    matches!(party.arrive(rt), ArrivedInPlace::Done { .. }) && party.unarrived() == 1
}

// Returns true if the next member learns that the tree has ended.
fn learns_the_end<R: Wait>(rt: &R, party: &mut Party<'_>) -> bool {
    matches!(party.arrive(rt), ArrivedInPlace::Ended(_))
}

// A token's calls on a separate tree.
fn calls<R: Wait + Abort>(rt: &R, tree: &mut PhaserTree) {
    let (mut guest, mut party) = registered(rt, tree);
    let arrived = is_new(&party) && one_arrives(rt, &mut party);
    let ended = matches!(guest.force(16), Forced::Ended(_)) && learns_the_end(rt, &mut party);
    assert!(rt; arrived && ended);
}

#[test]
fn a_tree_by_one(rt: HostRuntime) {
    let plan = EndPlan::when_empty();
    let mut tree = PhaserTree::from_widths(rt.alloc(), "2", plan).expect(&rt, "a tree");
    calls(&rt, &mut tree);
}

// Returns true if the only caller gets its turn, and no caller waits who could be taken away.
fn gives_turns<R: Wait>(rt: &R, barrier: &Barrier) -> bool {
    barrier.await_turn(rt, 7) == Ok(0) && barrier.abandon(rt, 7).is_err()
}

// Returns true if a barrier is broken until it is reset, and keeps nothing then.
fn breaks<R: Wait>(rt: &R, barrier: &Barrier) -> bool {
    barrier.break_off(rt).is_empty()
        && barrier.await_turn(rt, 7) == Err(GateFault::Broken)
        && barrier.reset(rt).is_empty()
        && barrier.kept(rt) == 0
}

#[test]
fn a_barrier(rt: HostRuntime) {
    let barrier = Barrier::new(rt.alloc(), 1, NoAction).expect(&rt, "one party");
    assert!(rt; gives_turns(&rt, &barrier));
    assert!(rt; breaks(&rt, &barrier) && gives_turns(&rt, &barrier));
}
