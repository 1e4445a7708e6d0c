//! Worked runs on one thread, row by row. Each run has three tokens, and ends when nobody is registered.

ghost use Rattle.std.specs.Prelude.{◌≡◌, ◌==◌, ◌≤◌};
ghost use Rattle.advance_rule.specs.Stored.{Answers};
ghost use Rattle.advance_rule.specs.Plan.{end_ends_at};

use crate::calls::ask::Ask::{Arrive, Beside, Force, Leave, Open, Poll, Register, Resume};
use crate::calls::holders::Holder;
use crate::table::rows::{Row, played};
use crate::table::trees::{left_by_three, with_three};
use advance_rule::{EndPlan, StoredAdvance};
use std::alloc::Global;
use std::process::Abort;
use test_groups::counts::are;
use test_groups::reported::Reported::{
    AlreadyArrived, Busy, Done, Ended, Full, Held, Here, Joined, Left, Owing, Passed, Waiting,
};
use test_groups::rules::{Rule, WHEN_EMPTY, is_empty};
use tier_core::call::Cause;
use tier_table::closing::ClosedToken;

// A run: the widths of its tree, the first phase, its rows, the last words, and, if given, what the third token is in
// the end.
type Run = (
    &'static str,
    u32,
    &'static [Row],
    &'static [(u32, u32, u32, bool)],
    Option<ClosedToken>,
);

// One member of two is missing, and the last owes the advance while a third token tries to join. Then the
// tier is filled.
const ONE_TIER: [Row; 12] = [
    (0, Register(0, 1), 16, Joined(0)),
    (1, Register(0, 2), 16, Joined(0)),
    (0, Arrive, 16, Done(0, false)),
    (0, Arrive, 16, AlreadyArrived(0)),
    (0, Poll, 1, Waiting),
    (1, Arrive, 16, Done(0, false)),
    (1, Arrive, 1, Owing),
    (2, Register(0, 1), 1, Held(0, Cause::Advancing)),
    (1, Resume, 1, Done(0, true)),
    (0, Poll, 1, Passed(1)),
    (2, Register(0, 65533), 16, Full(3)),
    (2, Register(0, 65532), 16, Joined(1)),
];

// A path of empty tiers, opened by one try at a time, which holds another token off. That joins at the root
// and arrives meanwhile.
const A_PATH: [Row; 9] = [
    (0, Register(2, 1), 1, Owing),
    (1, Register(2, 1), 1, Held(0, Cause::BeingOpened)),
    (0, Open, 1, Owing),
    (0, Open, 1, Owing),
    (1, Register(0, 1), 16, Joined(0)),
    (1, Arrive, 16, Done(0, false)),
    (0, Open, 1, Owing),
    (0, Open, 1, Joined(0)),
    (0, Arrive, 16, Done(0, true)),
];

// An arrival in flight, while another token joins at the root.
const AN_ARRIVAL: [Row; 7] = [
    (0, Register(1, 1), 16, Joined(0)),
    (1, Register(2, 1), 16, Joined(0)),
    (1, Arrive, 16, Done(0, false)),
    (0, Arrive, 1, Owing),
    (2, Register(0, 1), 16, Joined(0)),
    (0, Resume, 16, Done(0, false)),
    (2, Arrive, 16, Done(0, true)),
];

// Joins that are held off before the advance and after it, and one that a poll lets in. In the end the third token has one member at
// the first leaf, which is unarrived in phase 1.
const HELD_OFF: [Row; 8] = [
    (0, Register(1, 1), 16, Joined(0)),
    (1, Register(2, 1), 16, Joined(0)),
    (0, Arrive, 16, Done(0, false)),
    (2, Register(1, 1), 1, Held(0, Cause::AllArrived)),
    (1, Arrive, 16, Done(0, true)),
    (2, Register(1, 1), 1, Held(1, Cause::Lagging)),
    (0, Poll, 1, Passed(1)),
    (2, Register(1, 1), 16, Joined(1)),
];

// A departure in flight, while another token joins at the tier that it left.
const A_DEPARTURE: [Row; 4] = [
    (0, Register(2, 1), 16, Joined(0)),
    (0, Leave, 1, Owing),
    (1, Register(2, 1), 16, Joined(0)),
    (0, Resume, 16, Left(0, false)),
];

// After the greatest phase comes 0.
const THE_LAST_PHASE: [Row; 6] = [
    (0, Register(1, 1), 16, Joined(2147483647)),
    (1, Register(2, 1), 16, Joined(2147483647)),
    (0, Arrive, 16, Done(2147483647, false)),
    (1, Arrive, 16, Done(2147483647, true)),
    (0, Poll, 1, Passed(0)),
    (0, Poll, 1, Here(0)),
];

// An end by force between the steps of an arrival, at no try, and then twice: the arrival is counted, and
// leads nothing, and all learn of the end.
const A_FORCE: [Row; 12] = [
    (0, Register(1, 1), 16, Joined(0)),
    (1, Register(2, 1), 16, Joined(0)),
    (1, Arrive, 16, Done(0, false)),
    (0, Arrive, 1, Owing),
    (2, Force, 0, Busy),
    (2, Force, 16, Ended(i32::MIN)),
    (2, Force, 0, Ended(i32::MIN)),
    (0, Resume, 1, Done(0, false)),
    (1, Poll, 1, Ended(i32::MIN)),
    (0, Arrive, 16, Ended(i32::MIN)),
    (0, Leave, 16, Ended(i32::MIN)),
    (2, Register(1, 1), 16, Ended(i32::MIN)),
];

// A member joins a leaf, another beside it, which had not arrived, and then both arrive.
const A_CREW_TAKES_IN: [Row; 4] = [
    (0, Register(1, 1), 16, Joined(0)),
    (1, Beside, 16, Joined(0)),
    (0, Arrive, 16, Done(0, false)),
    (1, Arrive, 16, Done(0, true)),
];

// The last member leaves: the advance ends the tree, and all learn of it.
const THE_LAST_LEAVES: [Row; 5] = [
    (0, Register(1, 2), 16, Joined(0)),
    (0, Leave, 16, Done(0, false)),
    (0, Leave, 16, Left(0, true)),
    (0, Register(1, 1), 16, Ended(-2147483647)),
    (1, Register(0, 1), 16, Ended(-2147483647)),
];

// Each call with no try: it is busy, or owes on. Those that are answered by a look alone are answered.
const NO_TRY: [Row; 14] = [
    (2, Register(0, 1), 0, Busy),
    (2, Force, 0, Busy),
    (0, Register(1, 1), 1, Owing),
    (0, Open, 0, Owing),
    (0, Open, 16, Joined(0)),
    (0, Beside, 0, Busy),
    (0, Arrive, 0, Busy),
    (0, Leave, 0, Busy),
    (0, Poll, 0, Here(0)),
    (0, Arrive, 1, Owing),
    (0, Resume, 0, Owing),
    (0, Resume, 16, Done(0, true)),
    (0, Poll, 0, Passed(1)),
    (0, Leave, 16, Left(1, true)),
];

// A tree that ends at its phase, with members who have all arrived.
const AT_ITS_PHASE: [Row; 8] = [
    (0, Register(1, 1), 16, Joined(0)),
    (1, Register(2, 1), 16, Joined(0)),
    (0, Arrive, 16, Done(0, false)),
    (1, Leave, 16, Left(0, true)),
    (0, Arrive, 16, Done(1, true)),
    (0, Poll, 1, Ended(-2147483646)),
    (0, Leave, 16, Ended(-2147483646)),
    (1, Register(2, 1), 16, Ended(-2147483646)),
];

// A path of seven tiers, the longest. 16 tries are enough for each call, as no other token takes a step meanwhile. The
// second registration takes 13 tries. Arrivals and departures after the first phase take up to 14, because they refresh
// the six tiers below the root.
const SEVEN_TIERS: [Row; 12] = [
    (2, Register(0, 1), 16, Joined(0)),
    (1, Register(6, 1), 1, Owing),
    (1, Open, 16, Joined(0)),
    (1, Leave, 16, Left(0, false)),
    (0, Register(6, 1), 16, Joined(0)),
    (2, Leave, 16, Left(0, false)),
    (0, Arrive, 16, Done(0, true)),
    (0, Arrive, 16, Done(1, true)),
    (0, Arrive, 1, Busy),
    (0, Arrive, 1, Owing),
    (0, Resume, 16, Done(2, true)),
    (0, Leave, 16, Left(3, true)),
];

const LAST: u32 = 2147483647;

const IS_LET_IN: ClosedToken = ClosedToken {
    tier: 1,
    size: 1,
    unarrived: 1,
    phase: 1,
};

const RUNS: [Run; 12] = [
    ("flat", 0, &ONE_TIER, &[(1, 65535, 65535, false)], None),
    (
        "1x1",
        0,
        &A_PATH,
        &[(1, 2, 2, false), (0, 1, 0, false), (0, 1, 0, false)],
        None,
    ),
    (
        "2",
        0,
        &AN_ARRIVAL,
        &[(1, 3, 3, false), (0, 1, 0, false), (0, 1, 0, false)],
        None,
    ),
    (
        "2",
        0,
        &HELD_OFF,
        &[(1, 2, 2, false), (1, 2, 2, false), (0, 1, 0, false)],
        Some(IS_LET_IN),
    ),
    (
        "1x1",
        0,
        &A_DEPARTURE,
        &[(0, 1, 1, false), (0, 1, 1, false), (0, 1, 1, false)],
        None,
    ),
    (
        "2",
        LAST,
        &THE_LAST_PHASE,
        &[(0, 2, 2, false), (0, 1, 1, false), (LAST, 1, 0, false)],
        None,
    ),
    (
        "2",
        0,
        &A_FORCE,
        &[(0, 2, 1, true), (0, 1, 0, false), (0, 1, 0, false)],
        None,
    ),
    (
        "2",
        0,
        &A_CREW_TAKES_IN,
        &[(1, 1, 1, false), (0, 2, 0, false), (0, 0, 1, false)],
        None,
    ),
    (
        "1x1",
        5,
        &[],
        &[(5, 0, 1, false), (5, 0, 1, false), (5, 0, 1, false)],
        None,
    ),
    (
        "2",
        0,
        &THE_LAST_LEAVES,
        &[(1, 0, 1, true), (0, 0, 1, false), (0, 0, 1, false)],
        None,
    ),
    (
        "2",
        0,
        &NO_TRY,
        &[(2, 0, 1, true), (1, 0, 1, false), (0, 0, 1, false)],
        None,
    ),
    (
        "1x1x1x1x1x1",
        0,
        &SEVEN_TIERS,
        &[
            (4, 0, 1, true),
            (3, 0, 1, false),
            (3, 0, 1, false),
            (3, 0, 1, false),
            (3, 0, 1, false),
            (3, 0, 1, false),
            (3, 0, 1, false),
        ],
        None,
    ),
];

// Returns true if a token is a crew that says this of itself, or if nothing is wanted.
fn is_reported(holder: &Holder, want: Option<ClosedToken>) -> bool {
    match (holder, want) {
        (_, None) => true,
        (Holder::Inside(crew), Some(want)) => {
            crew.tier() == want.tier
                && crew.size() == want.size
                && crew.unarrived() == want.unarrived
                && crew.phase() == want.phase
        }
        _ => false,
    }
}

// Returns true if the third of the tokens that were handed back is this, or if nothing is wanted.
fn is_handed_back(tokens: &[ClosedToken], want: Option<ClosedToken>) -> bool {
    match (tokens.last(), want) {
        (_, None) => true,
        (Some(token), Some(want)) => {
            token.tier == want.tier
                && token.size == want.size
                && token.unarrived == want.unarrived
                && token.phase == want.phase
        }
        _ => false,
    }
}

// Plays a run from its first phase to its last words.
fn run(rt: &impl Abort, alloc: Global, rule: StoredAdvance<Rule>, run: Run)
    requires rule { Answers (pre rule.closure) (post rule.closure) (end_ends_at rule.plan) }
{
    let (widths, phase, rows, words, third) = run;
    assert!(rt; phase <= LAST);
    let (tree, holders) = with_three(rt, alloc, widths, phase, rule);
    let holders = played(rt, &tree, holders, rows);
    assert!(rt; is_reported(&holders.2, third));
    let closed = left_by_three(rt, alloc, tree, holders);
    assert!(rt; closed.tokens.len() == 3 && are(&closed.words, words));
    assert!(rt; is_handed_back(&closed.tokens, third));
}

#[test]
fn answers_as_worked_out(rt: HostRuntime) {
    for worked in RUNS {
        let rule = StoredAdvance::new(is_empty as Rule, WHEN_EMPTY);
        run(&rt, rt.alloc(), rule, worked);
    }
}

// The end of phase 1 ends the tree.
const AT_ONE: EndPlan = EndPlan {
    when_empty: false,
    at: Some(1),
};

// Returns true if this phase is 1.
fn is_one(phase: u32, _count: u32) -> bool
    ensures { result ≡ (1 == phase) }
{
    phase == 1
}

#[test]
fn ends_at_its_phase(rt: HostRuntime) {
    let rule = StoredAdvance::new(is_one as Rule, AT_ONE);
    let words = &[(2, 1, 1, true), (1, 1, 0, false), (0, 0, 1, false)];
    run(&rt, rt.alloc(), rule, ("2", 0, &AT_ITS_PHASE, words, None));
}
