//! A hook of a tree runs once at each advance, whichever call takes it, and what these calls answer.

ghost use Rattle.std.specs.Prelude.{◌≤◌};

use phasers::parties::{JoinedParties, Parties, PartiesArrived, PartiesLeft};
use phasers::tree::{
    ArrivedInPlace, AwaitedAdvance, Departed, EndPlan, Guest, MeetError, Met, OnAdvance, Owed,
    Party, PhaserTree, Polled, Settled, Shape,
};
use std::alloc::Global;
use std::process::Abort;
use std::sync::Wait;
use std::sync::atomic::{AtomicU64, Ordering};
use test_groups::reported::Reported;

// Appends each phase that ends, and the parties at the root then, as two digits.
#[derive(Drop)]
struct Noting<'a>(&'a AtomicU64);

impl OnAdvance for Noting<'_> {
    fn run(&self, phase: u32, parties: u32) {
        let before = self.0.load(Ordering::SeqCst);
        let digits = u64::from(phase) * 10 + u64::from(parties);
        self.0.store(
            before.wrapping_mul(100).wrapping_add(digits),
            Ordering::SeqCst,
        );
    }
}

type Hooked<'a, 'b> = Party<'a, Noting<'b>>;

// What a party is asked.
#[derive(Clone, Copy)]
enum Ask {
    // That a member arrives.
    Arrive,
    // That a member leaves.
    Leave,
    // That its only member meets the others, without waiting and with this many tries. What is owed then is settled.
    TryMeet(u32),
    // That its only member meets the others.
    Meet,
    // That it waits for the next phase.
    Await,
    // Whether its phase is over.
    Poll,
}

// What a party without members is asked and answered: nothing.
const NOBODY: Reported = Reported::Busy;

// Takes the steps that are owed.
fn settled<'a, 'b, R: Wait + Abort>(rt: &R, owed: Owed<'a, Noting<'b>>) -> Hooked<'a, 'b> {
    let mut owed = owed;
    for _ in rt.forever() {
        match owed.settle(1) {
            Settled::Done {
                party,
                phase: _,
                led: _,
            } => return party,
            Settled::Owing(next) => owed = next,
        }
    }
    panic!(rt; "unreachable")
}

// Meets without waiting.
fn tries<'a, 'b, R: Wait + Abort>(
    rt: &R,
    party: Hooked<'a, 'b>,
    tries: u32,
) -> (Hooked<'a, 'b>, Reported) {
    match party.try_meet(tries) {
        Met::Passed(party, phase) => (party, Reported::Passed(phase)),
        Met::Waiting(party) => (party, Reported::Waiting),
        Met::Here(party, phase) => (party, Reported::Here(phase)),
        Met::Ended(party, shown) => (party, Reported::Ended(shown)),
        Met::Busy(party) => (party, Reported::Busy),
        Met::Owing(owed) => (settled(rt, owed), Reported::Owing),
    }
}

// A member leaves.
fn leaves<'a, 'b, R: Wait>(rt: &R, party: Hooked<'a, 'b>) -> (Option<Hooked<'a, 'b>>, Reported) {
    match party.leave(rt) {
        Departed::Done { party, phase, led } => (Some(party), Reported::Done(phase, led)),
        Departed::Left { phase, led, .. } => (None, Reported::Left(phase, led)),
        Departed::Ended(party, shown) => (Some(party), Reported::Ended(shown)),
    }
}

// Returns what an arrival answers.
fn reported_by_arrival(arrived: ArrivedInPlace) -> Reported {
    match arrived {
        ArrivedInPlace::Done { phase, led } => Reported::Done(phase, led),
        ArrivedInPlace::AlreadyArrived(phase) => Reported::AlreadyArrived(phase),
        ArrivedInPlace::Ended(shown) => Reported::Ended(shown),
    }
}

// Returns what a meeting answers.
fn reported_by_meeting(met: Result<u32, MeetError>) -> Reported {
    match met {
        Ok(phase) => Reported::Passed(phase),
        Err(MeetError::Here(phase)) => Reported::Here(phase),
        Err(MeetError::Ended(shown)) => Reported::Ended(shown),
    }
}

// Returns what a wait answers.
fn reported_by_wait(awaited: AwaitedAdvance) -> Reported {
    match awaited {
        AwaitedAdvance::Passed(phase) => Reported::Passed(phase),
        AwaitedAdvance::Here(phase) => Reported::Here(phase),
        AwaitedAdvance::Ended(shown) => Reported::Ended(shown),
    }
}

// Returns what a poll answers.
fn reported_by_poll(polled: Polled) -> Reported {
    match polled {
        Polled::Passed(phase) => Reported::Passed(phase),
        Polled::Waiting => Reported::Waiting,
        Polled::Here(phase) => Reported::Here(phase),
        Polled::Ended(shown) => Reported::Ended(shown),
    }
}

// Asks a party, if there is one. It is gone when its last member has left.
fn asked<'a, 'b, R: Wait + Abort>(
    rt: &R,
    party: Option<Hooked<'a, 'b>>,
    ask: Ask,
) -> (Option<Hooked<'a, 'b>>, Reported) {
    let Some(mut party) = party else {
        return (None, NOBODY);
    };
    let reported = match ask {
        Ask::Leave => return leaves(rt, party),
        Ask::TryMeet(number) => {
            let (next, reported) = tries(rt, party, number);
            party = next;
            reported
        }
        Ask::Arrive => reported_by_arrival(party.arrive(rt)),
        Ask::Meet => reported_by_meeting(party.meet(rt)),
        Ask::Await => reported_by_wait(party.await_advance(rt)),
        Ask::Poll => reported_by_poll(party.poll()),
    };
    (Some(party), reported)
}

// Whether the first of two parties is asked, what it is asked, what it answers, and what is noted then.
type Row = (bool, Ask, Reported, u64);

// Returns true if two parties answer as the rows say.
fn both_answer<'a, 'b, R: Wait + Abort>(
    rt: &R,
    one: Hooked<'a, 'b>,
    other: Hooked<'a, 'b>,
    notes: &AtomicU64,
    rows: &[Row],
) -> bool {
    let (mut one, mut other) = (Some(one), Some(other));
    for (first, ask, want, noted) in rows {
        let (party, reported) = asked(rt, if *first { one.take() } else { other.take() }, *ask);
        if *first {
            one = party;
        } else {
            other = party;
        }
        if reported != *want || notes.load(Ordering::SeqCst) != *noted {
            return false;
        }
    }
    true
}

// Each call of a party that can take an advance, and the end. The phases 0 to 3 end with the party that stays, 4 with nobody,
// at which the tree ends.
const ONE_STAYS: [Row; 7] = [
    (true, Ask::Arrive, Reported::Done(0, false), 0),
    (false, Ask::Leave, Reported::Left(0, true), 1),
    (true, Ask::Await, Reported::Passed(1), 1),
    (true, Ask::Meet, Reported::Passed(2), 1_11),
    (true, Ask::TryMeet(16), Reported::Passed(3), 1_11_21),
    (true, Ask::TryMeet(1), Reported::Owing, 1_11_21_31),
    (true, Ask::Leave, Reported::Left(4, true), 1_11_21_31_40),
];

// A party of one member that has arrived leaves in the next phase, after the other one.
const ONE_HAS_ARRIVED: [Row; 5] = [
    (true, Ask::Arrive, Reported::Done(0, false), 0),
    (false, Ask::Arrive, Reported::Done(0, true), 2),
    (true, Ask::Leave, Reported::Left(1, false), 2),
    (false, Ask::Await, Reported::Passed(1), 2),
    (false, Ask::Leave, Reported::Left(1, true), 2_10),
];

// Two parties meet without waiting in phase 0, and the first of them then finds that it is over. They meet again, and the tree
// ends with phase 1.
const BOTH_TRY: [Row; 7] = [
    (true, Ask::TryMeet(0), Reported::Busy, 0),
    (true, Ask::TryMeet(1), Reported::Owing, 0),
    (false, Ask::TryMeet(16), Reported::Passed(1), 2),
    (true, Ask::Poll, Reported::Passed(1), 2),
    (true, Ask::TryMeet(16), Reported::Waiting, 2),
    (false, Ask::TryMeet(16), Reported::Ended(-2147483646), 2_12),
    (false, Ask::Poll, Reported::Ended(-2147483646), 2_12),
];

// One of two parties leaves, and the other meets in three phases alone.
const ONE_MEETS: [Row; 5] = [
    (false, Ask::Leave, Reported::Left(5, false), 0),
    (true, Ask::Meet, Reported::Passed(6), 51),
    (true, Ask::Meet, Reported::Passed(7), 51_61),
    (true, Ask::Meet, Reported::Passed(8), 51_61_71),
    (true, Ask::Leave, Reported::Left(8, true), 51_61_71_80),
];

// The widths of a tree and its first phase, whether it ends at phase 1 or when it is empty, and what two parties do, each at
// another leaf, if there are two.
const SCENES: [(&str, u32, bool, &[Row]); 4] = [
    ("flat", 0, false, &ONE_STAYS),
    ("2", 0, false, &ONE_HAS_ARRIVED),
    ("2", 0, true, &BOTH_TRY),
    ("2", 5, false, &ONE_MEETS),
];

// A tree with a hook.
fn hooked<'b, R: Abort>(
    rt: &R,
    alloc: Global,
    widths: &str,
    phase: u32,
    plan: EndPlan,
    notes: &'b AtomicU64,
) -> PhaserTree<Noting<'b>>
    requires { phase ≤ 2147483647 }
{
    let shape = Shape::from_widths(alloc, widths).expect(rt, "a shape");
    PhaserTree::with_hook(alloc, shape, phase, plan, Noting(notes)).expect(rt, "a tree")
}

// Joins two parties at the first two leaves, and returns true if they answer as the rows say.
fn two_answer<R: Wait + Abort>(
    rt: &R,
    tree: &mut PhaserTree<Noting<'_>>,
    notes: &AtomicU64,
    rows: &[Row],
) -> bool {
    let mut guest = tree.guest();
    let one = guest.split().join(rt, 0).expect(rt, "a party joins");
    let other = guest.join(rt, 1).expect(rt, "another joins");
    both_answer(rt, one, other, notes, rows)
}

#[test]
fn a_hook_runs_whichever_call_of_a_party_advances(rt: HostRuntime) {
    for (widths, phase, ends, rows) in SCENES {
        let notes = AtomicU64::new(0);
        let plan = if ends {
            EndPlan::at_phase(1)
        } else {
            EndPlan::when_empty()
        };
        let mut tree = hooked(&rt, rt.alloc(), widths, phase % 8, plan, &notes);
        assert!(rt; two_answer(&rt, &mut tree, &notes, rows), "{widths}");
        match tree.close(rt.alloc()) {
            Ok(words) => assert!(rt; words[0].ended && (words.len() == 1 || !words[1].ended)),
            Err(_) => panic!(rt; "not closed"),
        }
    }
}

type HookedAll<'a, 'b> = Parties<'a, Noting<'b>>;

// All arrive.
fn all_arrive<'a, 'b, R: Wait + Abort>(rt: &R, parties: HookedAll<'a, 'b>) -> HookedAll<'a, 'b> {
    match parties.arrive_all(rt) {
        PartiesArrived::Done { parties, led, .. } => {
            assert!(rt; led);
            parties
        }
        _ => panic!(rt; "not arrived"),
    }
}

// One joins, two leave, and the others arrive.
fn some_change<'a, 'b, R: Wait + Abort>(rt: &R, parties: HookedAll<'a, 'b>) -> HookedAll<'a, 'b> {
    assert!(rt; parties.size() == 4);
    match parties.arrive_with(rt, 1, 2) {
        PartiesArrived::Done { parties, led, .. } => {
            assert!(rt; led);
            parties
        }
        _ => panic!(rt; "not changed"),
    }
}

// Each call of a group that can take an advance, and the end.
fn a_group_takes_all<R: Wait + Abort>(rt: &R, guest: Guest<'_, Noting<'_>>) {
    let parties = match guest.join_all(rt, 0, 4) {
        JoinedParties::Joined(parties, _) => parties,
        _ => panic!(rt; "not joined"),
    };
    let parties = all_arrive(rt, parties);
    let parties = some_change(rt, parties);
    let (parties, answer) = parties.meet_all(rt);
    assert!(rt; answer == AwaitedAdvance::Passed(3));
    assert!(rt; matches!(parties.leave_all(rt), PartiesLeft::Left { led: true, .. }));
}

#[test]
fn a_hook_runs_whichever_call_of_a_group_advances(rt: HostRuntime) {
    let notes = AtomicU64::new(0);
    let mut tree = hooked(&rt, rt.alloc(), "flat", 0, EndPlan::when_empty(), &notes);
    a_group_takes_all(&rt, tree.guest());
    // The phase 0 with four parties, 1 and 2 with three, 3 with nobody, at which the tree ends.
    assert!(rt; notes.load(Ordering::SeqCst) == 4_132_330);
}
