//! Runs of groups on one thread, worked out by hand.

ghost use Rattle.std.specs.Prelude.{◌≡◌, ◌≤◌};
ghost use Rattle.advance_rule.specs.Stored.{Answers};
ghost use Rattle.advance_rule.specs.Plan.{end_ends_at};
ghost use Rattle.test_groups.specs.Seats.{tree_at, TwoAt, ThreeAt};

use crate::ask::Deed;
use crate::ask::Deed::{
    Arrive, ArriveIn, ArriveWith, ArriveWithIn, Await, Force, Join, Leave, Meet, Merge, Poll,
    Register, Split,
};
use crate::calls::done;
use crate::counts::are;
use crate::reported::Reported;
use crate::reported::Reported::{
    AlreadyArrived, Busy, Done, Ended, Full, Here, Joined, Left, Passed, Waiting,
};
use crate::rules::{Rule, WHEN_EMPTY, is_empty};
use crate::seats::{Seat, Three};
use crate::trees::{left, planted};
use advance_rule::StoredAdvance;
use std::alloc::Global;
use std::process::Abort;
use std::sync::Wait;
use tier_table::tokens::Door;
use tier_table::tree::Tree;

/// The place of the group that acts, what it does, what it answers, and its size and phase then; 0 for a door's.
pub(crate) type Row = (usize, Deed, Reported, u32, u32);

// The tree's widths and its first phase, what the groups do, and the words that the tree leaves.
type Run = (
    &'static str,
    u32,
    &'static [Row],
    &'static [(u32, u32, u32, bool)],
);

// One tier. The last of its groups leaves, which ends the tree.
const ONE_TIER: [Row; 20] = [
    (0, Register(0, 3), Joined(0), 3, 0),
    (0, Join(2), Joined(0), 5, 0),
    (0, Await, Here(0), 5, 0),
    (0, Split(4), Here(0), 4, 0),
    (1, Join(9), Joined(0), 10, 0),
    (0, Arrive, Done(0, false), 4, 0),
    (0, Arrive, AlreadyArrived(0), 4, 0),
    (0, ArriveWith(1, 0), AlreadyArrived(0), 4, 0),
    (0, Join(1), AlreadyArrived(0), 4, 0),
    (0, Leave, AlreadyArrived(0), 4, 0),
    (0, Poll, Waiting, 4, 0),
    (1, ArriveIn(0), Busy, 10, 0),
    (1, ArriveIn(1), Done(0, true), 10, 1),
    (1, Poll, Here(1), 10, 1),
    (0, Merge, Passed(1), 14, 1),
    (0, ArriveWith(2, 3), Done(1, true), 13, 2),
    (0, Split(1), Here(2), 1, 2),
    (1, Leave, Left(2, false), 0, 0),
    (0, Leave, Left(2, true), 0, 0),
    (0, Register(0, 1), Ended(-2147483645), 0, 0),
];

// A group that has polled begins with the word that it found. If another group has joined since then, this costs a try.
const KEPT_WORDS: [Row; 19] = [
    (0, Register(0, 3), Joined(0), 3, 0),
    (0, Poll, Here(0), 3, 0),
    (1, Register(0, 2), Joined(0), 2, 0),
    (0, ArriveIn(1), Busy, 3, 0),
    (0, ArriveIn(1), Done(0, false), 3, 0),
    (1, Poll, Here(0), 2, 0),
    (1, ArriveWithIn(2, 1, 1), Done(0, true), 3, 1),
    (0, Poll, Passed(1), 3, 1),
    (1, Poll, Here(1), 3, 1),
    (1, Arrive, Done(1, false), 3, 1),
    (0, ArriveIn(2), Done(1, true), 3, 2),
    (1, Poll, Passed(2), 3, 2),
    (1, Leave, Left(2, false), 0, 0),
    (1, Register(0, 1), Joined(2), 1, 2),
    (0, Merge, Here(2), 4, 2),
    (1, Register(0, 2), Joined(2), 2, 2),
    (0, ArriveIn(1), Busy, 4, 2),
    (0, ArriveIn(1), Done(2, false), 4, 2),
    (1, ArriveIn(2), Done(2, true), 2, 3),
];

// Groups of the root and of both its leaves. A leaf's group leaves in parts, and the last part empties the leaf, so that
// the root has one party less.
const TWO_LEAVES: [Row; 15] = [
    (0, Register(1, 3), Joined(0), 3, 0),
    (1, Register(2, 1), Joined(0), 1, 0),
    (2, Register(0, 2), Joined(0), 2, 0),
    (0, Arrive, Done(0, false), 3, 0),
    (1, ArriveWith(4, 0), Done(0, false), 5, 0),
    (2, ArriveWithIn(0, 1, 1), Done(0, true), 1, 0),
    (2, Await, Passed(1), 1, 1),
    (0, Poll, Passed(1), 3, 1),
    (1, Await, Passed(1), 5, 1),
    (2, Leave, Left(1, false), 0, 0),
    (1, Split(2), Here(1), 2, 1),
    (2, Leave, Left(1, false), 0, 0),
    (1, Leave, Left(1, false), 0, 0),
    (0, Arrive, Done(1, true), 3, 2),
    (0, Poll, Here(2), 3, 2),
];

// Three tiers. Two of a leaf's three members leave as the last that were to arrive. At another leaf four leave and one
// comes.
const THREE_TIERS: [Row; 13] = [
    (0, Register(3, 1), Joined(0), 1, 0),
    (1, Register(3, 2), Joined(0), 2, 0),
    (2, Register(6, 4), Joined(0), 4, 0),
    (0, Arrive, Done(0, false), 1, 0),
    (2, Arrive, Done(0, false), 4, 0),
    (2, Poll, Waiting, 4, 0),
    (1, Leave, Left(0, true), 0, 0),
    (0, Await, Passed(1), 1, 1),
    (2, Await, Passed(1), 4, 1),
    (2, ArriveWith(1, 4), Done(1, false), 1, 1),
    (0, Meet, Passed(2), 1, 2),
    (0, Await, Here(2), 1, 2),
    (2, Poll, Passed(2), 1, 2),
];

// Four tiers. A group's last arrival climbs three of them, and advances the tree. Then all leave, and each path is empty.
const FOUR_TIERS: [Row; 9] = [
    (0, Register(7, 1000), Joined(0), 1000, 0),
    (2, Register(14, 500), Joined(0), 500, 0),
    (2, ArriveIn(1), Done(0, false), 500, 0),
    (0, ArriveIn(1), Done(0, true), 1000, 1),
    (2, Await, Passed(1), 500, 1),
    (0, Split(999), Here(1), 999, 1),
    (0, Leave, Left(1, false), 0, 0),
    (1, Leave, Left(1, false), 0, 0),
    (2, Leave, Left(1, true), 0, 0),
];

const LAST: u32 = 2147483647;

const BEFORE: u32 = 2147483646;

// The phase after the last is 0.
const THE_WRAP: [Row; 9] = [
    (0, Register(1, 2), Joined(BEFORE), 2, BEFORE),
    (1, Register(2, 3), Joined(BEFORE), 3, BEFORE),
    (0, Arrive, Done(BEFORE, false), 2, BEFORE),
    (1, Arrive, Done(BEFORE, true), 3, LAST),
    (1, Arrive, Done(LAST, false), 3, LAST),
    (0, Meet, Passed(0), 2, 0),
    (1, Poll, Passed(0), 3, 0),
    (0, ArriveWith(1, 0), Done(0, false), 3, 0),
    (1, Meet, Passed(1), 3, 1),
];

// An end by force. All learn of it, and nobody is counted any more.
const BY_FORCE: [Row; 15] = [
    (0, Register(1, 2), Joined(0), 2, 0),
    (1, Register(2, 3), Joined(0), 3, 0),
    (0, Arrive, Done(0, false), 2, 0),
    (2, Force, Ended(i32::MIN), 0, 0),
    (0, Poll, Ended(i32::MIN), 2, 0),
    (0, Await, Ended(i32::MIN), 2, 0),
    (1, Arrive, Ended(i32::MIN), 3, 0),
    (1, ArriveIn(0), Ended(i32::MIN), 3, 0),
    (1, ArriveWith(1, 1), Ended(i32::MIN), 3, 0),
    (1, ArriveWithIn(0, 2, 1), Ended(i32::MIN), 3, 0),
    (1, Join(1), Ended(i32::MIN), 3, 0),
    (1, Meet, Ended(i32::MIN), 3, 0),
    (1, Leave, Ended(i32::MIN), 3, 0),
    (0, Leave, Ended(i32::MIN), 2, 0),
    (2, Register(1, 1), Ended(i32::MIN), 0, 0),
];

// A tier has room for 65535 members. Of ten that register one has room for itself, and not beside nine others.
const NO_ROOM: [Row; 13] = [
    (0, Register(1, 65530), Joined(0), 65530, 0),
    (0, Join(10), Full(65530), 65530, 0),
    (0, ArriveWith(6, 1), Full(65530), 65530, 0),
    (1, Register(1, 10), Full(65531), 1, 0),
    (1, Join(5), Full(65531), 1, 0),
    (1, Join(4), Joined(0), 5, 0),
    (0, ArriveWith(1, 65530), Full(65535), 65530, 0),
    (2, Register(1, 1), Full(65535), 0, 0),
    (2, Register(1, 2), Full(65535), 0, 0),
    (1, Leave, Left(0, false), 0, 0),
    (0, Join(10), Full(65530), 65530, 0),
    (0, Join(5), Joined(0), 65535, 0),
    (0, Arrive, Done(0, true), 65535, 1),
];

const RUNS: [Run; 8] = [
    ("flat", 0, &ONE_TIER, &[(3, 0, 1, true)]),
    ("flat", 0, &KEPT_WORDS, &[(3, 6, 6, false)]),
    (
        "2",
        0,
        &TWO_LEAVES,
        &[(2, 1, 1, false), (2, 3, 3, false), (1, 0, 1, false)],
    ),
    (
        "2x2",
        0,
        &THREE_TIERS,
        &[
            (2, 2, 2, false),
            (1, 1, 0, false),
            (1, 1, 0, false),
            (2, 1, 1, false),
            (0, 0, 1, false),
            (0, 0, 1, false),
            (2, 1, 1, false),
        ],
    ),
    (
        "2x2x2",
        0,
        &FOUR_TIERS,
        &[
            (2, 0, 1, true),
            (1, 0, 1, false),
            (1, 0, 1, false),
            (1, 0, 1, false),
            (0, 0, 1, false),
            (0, 0, 1, false),
            (1, 0, 1, false),
            (1, 0, 1, false),
            (0, 0, 1, false),
            (0, 0, 1, false),
            (0, 0, 1, false),
            (0, 0, 1, false),
            (0, 0, 1, false),
            (0, 0, 1, false),
            (1, 0, 1, false),
        ],
    ),
    (
        "2",
        BEFORE,
        &THE_WRAP,
        &[(1, 2, 2, false), (0, 3, 0, false), (0, 3, 0, false)],
    ),
    (
        "2",
        0,
        &BY_FORCE,
        &[(0, 2, 1, true), (0, 2, 0, false), (0, 3, 3, false)],
    ),
    (
        "2",
        0,
        &NO_ROOM,
        &[(1, 1, 1, false), (0, 65535, 0, false), (0, 0, 1, false)],
    ),
];

// Returns the size and the phase of a group, and 0 for a door.
fn looks(seat: &Seat) -> (u32, u32) {
    match seat {
        Seat::Outside(_) => (0, 0),
        Seat::Inside(group) => (group.size(), group.phase()),
    }
}

// A group does what a row says, and answers as it says.
fn acts<R: Wait + Abort>(
    rt: &R,
    tree: &Tree<Rule>,
    spare: &mut Door,
    own: Seat,
    next: Seat,
    row: (usize, Row),
) -> (Seat, Seat)
    requires own { (spare.old.tree ≡ tree.now.tree) × (tree_at own ≡ tree.now.tree) × (tree_at next ≡ tree.now.tree) }
    requires rule { Answers (pre tree.now.rule.closure) (post tree.now.rule.closure) (end_ends_at tree.now.rule.plan) }
    ensures spare { spare.new.tree ≡ tree.now.tree }
    ensures own { TwoAt tree.now.tree result }
{
    let (number, (_place, deed, want, size, phase)) = row;
    let (seats, reported) = done(rt, tree, spare, own, next, deed);
    assert!(rt; reported == want, "row {number}: another answer");
    assert!(rt;
        looks(&seats.0) == (size, phase),
        "row {number}: another group"
    );
    seats
}

// Lets the group that a row names do what it says.
fn turned<R: Wait + Abort>(
    rt: &R,
    tree: &Tree<Rule>,
    spare: &mut Door,
    seats: Three,
    row: (usize, Row),
) -> Three
    requires own { (spare.old.tree ≡ tree.now.tree) × ThreeAt tree.now.tree seats }
    requires rule { Answers (pre tree.now.rule.closure) (post tree.now.rule.closure) (end_ends_at tree.now.rule.plan) }
    ensures spare { spare.new.tree ≡ tree.now.tree }
    ensures own { ThreeAt tree.now.tree result }
{
    let (zero, one, two) = seats;
    match row.1.0 {
        0 => {
            let (zero, one) = acts(rt, tree, spare, zero, one, row);
            (zero, one, two)
        }
        1 => {
            let (one, two) = acts(rt, tree, spare, one, two, row);
            (zero, one, two)
        }
        _ => {
            let (two, zero) = acts(rt, tree, spare, two, zero, row);
            (zero, one, two)
        }
    }
}

/// Plays rows one after another with three groups.
pub(crate) fn played<R: Wait + Abort>(
    rt: &R,
    tree: &Tree<Rule>,
    mut spare: Door,
    mut seats: Three,
    rows: &[Row],
) -> Three
    requires own { (spare.tree ≡ tree.now.tree) × ThreeAt tree.now.tree seats }
    requires rule { Answers (pre tree.now.rule.closure) (post tree.now.rule.closure) (end_ends_at tree.now.rule.plan) }
    ensures { ThreeAt tree.now.tree result }
{
    for (number, row) in rows.iter().enumerate() {
        seats = turned(rt, tree, &mut spare, seats, (number, *row));
    }
    seats
}

// Plays a run from its first phase to its last words. The groups are dropped, and so their members stay.
fn run<R: Wait + Abort>(rt: &R, alloc: Global, rule: StoredAdvance<Rule>, run: Run)
    requires rule { Answers (pre rule.closure) (post rule.closure) (end_ends_at rule.plan) }
{
    let (widths, phase, rows, words) = run;
    assert!(rt; phase <= LAST);
    let (tree, mut spare) = planted(rt, alloc, widths, phase, rule);
    let zero = Seat::Outside(tree.split(&mut spare));
    let one = Seat::Outside(tree.split(&mut spare));
    let two = Seat::Outside(tree.split(&mut spare));
    let _ = played(rt, &tree, spare, (zero, one, two), rows);
    let closed = left(rt, alloc, tree, Vec::new(alloc));
    assert!(rt; are(&closed.words, words), "other words");
}

#[test]
fn groups_answer_as_worked_out(rt: HostRuntime) {
    for worked in RUNS {
        let rule = StoredAdvance::new(is_empty as Rule, WHEN_EMPTY);
        run(&rt, rt.alloc(), rule, worked);
    }
}
