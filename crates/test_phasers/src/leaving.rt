//! Parties of which some leave, worked out by hand.

use phasers::parties::{Parties, PartiesArrived, PartiesLeft};
use phasers::tree::{EndPlan, Forced, Guest, PhaserTree, Polled};
use std::alloc::Global;
use std::process::Abort;
use std::sync::Wait;
use test_groups::reported::Reported;

// What parties are asked.
#[derive(Clone, Copy)]
enum Ask {
    // That this many members leave.
    LeaveSome(u32),
    // That all members arrive.
    Arrive,
    // Whether their phase is over.
    Poll,
}

// Some members leave. If they don't, the answer has as many as were to leave.
fn some_leave<R: Wait + Abort>(rt: &R, own: &mut Parties<'_>, n: u32) -> Reported {
    assert!(rt; 0 < n && n < own.size());
    match own.leave_some(rt, n) {
        PartiesLeft::Left {
            guest: _,
            phase,
            led,
        } => Reported::Left(phase, led),
        PartiesLeft::AlreadyArrived(others, phase) => {
            assert!(rt; others.size() == n);
            Reported::AlreadyArrived(phase)
        }
        PartiesLeft::Ended(others, shown) => {
            assert!(rt; others.size() == n);
            Reported::Ended(shown)
        }
    }
}

// All members arrive.
fn all_arrive<'a, R: Wait>(rt: &R, own: Parties<'a>) -> (Parties<'a>, Reported) {
    match own.arrive_all(rt) {
        PartiesArrived::Done {
            parties,
            phase,
            led,
        } => (parties, Reported::Done(phase, led)),
        PartiesArrived::Full(parties, count) => (parties, Reported::Full(count)),
        PartiesArrived::AlreadyArrived(parties, phase) => (
            parties,
            Reported::AlreadyArrived(phase),
        ),
        PartiesArrived::Ended(parties, shown) => (parties, Reported::Ended(shown)),
    }
}

// Polls. Returns what that answers.
fn polled(own: &mut Parties<'_>) -> Reported {
    match own.poll() {
        Polled::Passed(phase) => Reported::Passed(phase),
        Polled::Waiting => Reported::Waiting,
        Polled::Here(phase) => Reported::Here(phase),
        Polled::Ended(shown) => Reported::Ended(shown),
    }
}

// What parties are asked, what they answer, and how many members they have then.
type Row = (Ask, Reported, u32);

// Parties do what a row says.
fn plays<'a, R: Wait + Abort>(rt: &R, mut own: Parties<'a>, row: Row) -> Parties<'a> {
    let (ask, want, size) = row;
    let reported = match ask {
        Ask::LeaveSome(n) => some_leave(rt, &mut own, n),
        Ask::Arrive => {
            let (next, reported) = all_arrive(rt, own);
            own = next;
            reported
        }
        Ask::Poll => polled(&mut own),
    };
    assert!(rt; reported == want && own.size() == size);
    own
}

// Five members at the first leaf and three at the second. The first are rows with `true`. Of members that have arrived
// none can leave, so the one that was to leave stays registered without the parties.
const ROWS: [(bool, Row); 11] = [
    (true, (Ask::LeaveSome(2), Reported::Left(0, false), 3)),
    (true, (Ask::Poll, Reported::Here(0), 3)),
    (false, (Ask::Arrive, Reported::Done(0, false), 3)),
    (false, (Ask::LeaveSome(1), Reported::AlreadyArrived(0), 2)),
    (true, (Ask::LeaveSome(1), Reported::Left(0, false), 2)),
    (false, (Ask::Poll, Reported::Waiting, 2)),
    (true, (Ask::Arrive, Reported::Done(0, true), 2)),
    (false, (Ask::Poll, Reported::Passed(1), 2)),
    (false, (Ask::LeaveSome(1), Reported::Left(1, false), 1)),
    (true, (Ask::Arrive, Reported::Done(1, false), 2)),
    (true, (Ask::Poll, Reported::Waiting, 2)),
];

// Both parties, one row after another.
fn both_play<'a, R: Wait + Abort>(
    rt: &R,
    one: Parties<'a>,
    other: Parties<'a>,
) -> (Parties<'a>, Parties<'a>) {
    let (mut one, mut other) = (one, other);
    for (first, row) in ROWS {
        if first {
            one = plays(rt, one, row);
        } else {
            other = plays(rt, other, row);
        }
    }
    (one, other)
}

// After an end by force nobody leaves.
fn ends<'a, R: Wait + Abort>(rt: &R, mut guest: Guest<'a>, one: Parties<'a>) {
    assert!(rt; matches!(guest.force(16), Forced::Ended(-2147483647)));
    let _ = plays(
        rt,
        one,
        (Ask::LeaveSome(1), Reported::Ended(-2147483647), 1),
    );
}

// Plays with the parties of a tree of two leaves.
fn two_parties<R: Wait + Abort>(rt: &R, alloc: Global, tree: &mut PhaserTree) {
    match tree.with_parties(alloc, rt, &[5, 3]) {
        Ok((guest, mut parties)) => {
            let other = parties.pop().expect(rt, "parties");
            let one = parties.pop().expect(rt, "parties");
            assert!(rt; one.tier() == 1 && other.tier() == 2 && parties.is_empty());
            let (one, _other) = both_play(rt, one, other);
            ends(rt, guest, one);
        }
        Err(_) => panic!(rt; "no parties"),
    }
}

#[test]
fn some_members_leave(rt: HostRuntime) {
    let plan = EndPlan::when_empty();
    let mut tree = PhaserTree::from_widths(rt.alloc(), "2", plan).expect(&rt, "a tree");
    two_parties(&rt, rt.alloc(), &mut tree);
    match tree.close(rt.alloc()) {
        Ok(words) => {
            assert!(rt; words.len() == 3 && words[0].ended);
            // Of five 3 have left, of three 1, and the one that couldn't leave is still to arrive in phase 1.
            assert!(rt; (words[1].phase, words[1].parties, words[1].unarrived) == (1, 2, 0));
            assert!(rt; (words[2].phase, words[2].parties, words[2].unarrived) == (1, 2, 2));
        }
        Err(_) => panic!(rt; "not closed"),
    }
}
