//! Seats, of which a lock lets no clause say what one thread finds that another has left.
use phasers::tree::{EndPlan, Guest, Party, PhaserTree, Seat};
use std::process::Abort;
use std::sync::Wait;
use std::sync::atomic::{AtomicU64, Ordering};
use std::thread::{self, Threads};
use std::time::{Clock, Duration};

// Sleeps long enough for a thread that waits to fall asleep.
fn sleeps_a_while<R: Clock>(rt: &R) {
    thread::sleep(rt, Duration::from_millis(60));
}

// The seat takes one party at a time, and gives it once.
fn one_at_a_time<'a, R: Wait>(rt: &R, first: Party<'a>, second: Party<'a>) -> bool {
    let seat = Seat::new();
    let given = seat.give(rt, first).is_ok();
    let Err(second) = seat.give(rt, second) else {
        return false;
    };
    let taken = seat.take(rt).is_some_and(|party| party.tier() == 1);
    given && taken && second.tier() == 2 && seat.give(rt, second).is_ok()
}

#[test]
fn a_seat_has_one_party(rt: HostRuntime) {
    let plan = EndPlan::when_empty();
    let mut tree = PhaserTree::from_widths(rt.alloc(), "2", plan).expect(&rt, "a tree");
    let mut guest = tree.guest();
    let first = guest.split().join(&rt, 0).expect(&rt, "room");
    let second = guest.join(&rt, 1).expect(&rt, "room");
    assert!(rt; one_at_a_time(&rt, first, second));
}

// Adds 1 to a number if the seat gives a party, and 100 if it gives none.
fn takes<'a, R: Wait>(rt: &R, seat: &Seat<'a>, sum: &AtomicU64) {
    let found = if seat.take(rt).is_some() { 1 } else { 100 };
    sum.fetch_add(found, Ordering::SeqCst);
}

// Three threads sleep at a seat. Then one party comes, and after a while the seat is closed. Returns the sum of what they found.
fn three_sleep<R: Threads + Wait + Clock + Abort + Sync>(rt: &R, guest: Guest<'_>) -> u64 {
    let (seat, sum) = (&Seat::new(), &AtomicU64::new(0));
    thread::scope(thread::scope_env(), rt, |scope| {
        for _ in 0..3 {
            let _ = scope.spawn(move || takes(rt, seat, sum));
        }
        sleeps_a_while(rt);
        let party = guest.join(rt, 0).expect(rt, "room");
        assert!(rt; seat.give(rt, party).is_ok());
        sleeps_a_while(rt);
        assert!(rt; sum.load(Ordering::SeqCst) == 1);
        seat.close(rt);
    });
    sum.load(Ordering::SeqCst)
}

#[test]
fn who_sleeps_at_a_seat_is_woken(rt: HostRuntime) {
    let plan = EndPlan::when_empty();
    let mut tree = PhaserTree::from_widths(rt.alloc(), "flat", plan).expect(&rt, "a tree");
    assert!(rt; three_sleep(&rt, tree.guest()) == 201);
}
