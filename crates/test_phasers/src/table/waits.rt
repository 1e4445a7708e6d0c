//! Each answer of the calls that wait, on one thread: none of them is tried again for ever.

ghost use Rattle.std.specs.Prelude.{◌≡◌};
ghost use Rattle.advance_rule.specs.Stored.{Answers};
ghost use Rattle.advance_rule.specs.Plan.{end_ends_at};
ghost use Rattle.test_phasers.specs.Holders.{tree_of, ThreeOf};

use crate::calls::ask::Ask;
use crate::calls::ask::Ask::{Arrive, Force, Leave, Poll, Register};
use crate::calls::call::call;
use crate::calls::holders::{Holder, Three};
use crate::table::trees::{left_by_three, with_three};
use advance_rule::StoredAdvance;
use std::process::Abort;
use std::sync::Wait;
use test_groups::reported::Reported;
use test_groups::reported::Reported::{
    AlreadyArrived, Done, Ended, Full, Here, Joined, Left, Passed,
};
use test_groups::rules::{Rule, WHEN_EMPTY, is_empty};
use tier_table::tokens::{Crew, Door};
use tier_table::tree::Tree;
use tier_table::waiting::{ArrivedAtLast, AwaitedAdvance, RegisteredAtLast};

// The token that is asked, what it is asked, and what it has to answer. `Poll` is asked as `await_advance`.
type Row = (usize, Ask, Reported);

// A registration.
fn registers<R: Wait + Abort>(
    rt: &R,
    tree: &Tree<Rule>,
    door: Door,
    tier: u16,
    members: u32,
) -> (Holder, Reported)
    requires own { door.tree ≡ tree.now.tree }
    ensures { tree_of result.0 ≡ tree.now.tree }
{
    assert!(rt; usize::from(tier) < tree.shape().count() && members > 0 && members < 65536);
    match tree.register_wait(rt, door, tier, members) {
        RegisteredAtLast::Joined(crew, phase) => (Holder::Inside(crew), Reported::Joined(phase)),
        RegisteredAtLast::Full(door, count) => (Holder::Outside(door), Reported::Full(count)),
        RegisteredAtLast::Ended(door, shown) => (Holder::Outside(door), Reported::Ended(shown)),
    }
}

// An arrival or a departure.
fn passes<R: Wait + Abort>(rt: &R, tree: &Tree<Rule>, crew: Crew, ask: Ask) -> (Holder, Reported)
    requires own { crew.tree ≡ tree.now.tree }
    requires rule { Answers (pre tree.now.rule.closure) (post tree.now.rule.closure) (end_ends_at tree.now.rule.plan) }
    ensures { tree_of result.0 ≡ tree.now.tree }
{
    let arrived = if matches!(ask, Ask::Leave) {
        tree.leave_wait(rt, crew)
    } else {
        tree.arrive_wait(rt, crew)
    };
    match arrived {
        ArrivedAtLast::Done(crew, phase, led) => (Holder::Inside(crew), Reported::Done(phase, led)),
        ArrivedAtLast::Left(door, phase, led) => (
            Holder::Outside(door),
            Reported::Left(phase, led),
        ),
        ArrivedAtLast::AlreadyArrived(crew, phase) => {
            (Holder::Inside(crew), Reported::AlreadyArrived(phase))
        }
        ArrivedAtLast::Ended(crew, shown) => (Holder::Inside(crew), Reported::Ended(shown)),
    }
}

// A wait for the next phase.
fn awaits<R: Wait + Abort>(rt: &R, tree: &Tree<Rule>, mut crew: Crew) -> (Holder, Reported)
    requires own { crew.tree ≡ tree.now.tree }
    ensures { tree_of result.0 ≡ tree.now.tree }
{
    let reported = match tree.await_advance(rt, &mut crew) {
        AwaitedAdvance::Passed(phase) => Reported::Passed(phase),
        AwaitedAdvance::Here(phase) => Reported::Here(phase),
        AwaitedAdvance::Ended(shown) => Reported::Ended(shown),
    };
    (Holder::Inside(crew), reported)
}

// A token is asked as this row says, and gives its answer.
fn asked<R: Wait + Abort>(rt: &R, tree: &Tree<Rule>, holder: Holder, row: (usize, Row)) -> Holder
    requires own { tree_of holder ≡ tree.now.tree }
    requires rule { Answers (pre tree.now.rule.closure) (post tree.now.rule.closure) (end_ends_at tree.now.rule.plan) }
    ensures { tree_of result ≡ tree.now.tree }
{
    let (number, (_token, ask, want)) = row;
    let (holder, reported) = match (holder, ask) {
        (Holder::Outside(door), Ask::Register(tier, members)) => {
            registers(rt, tree, door, tier, members)
        }
        (Holder::Inside(crew), Ask::Arrive | Ask::Leave) => passes(rt, tree, crew, ask),
        (Holder::Inside(crew), Ask::Poll) => awaits(rt, tree, crew),
        (holder, ask) => call(rt, tree, holder, ask, 16),
    };
    assert!(rt; reported == want, "row {number}");
    holder
}

// Asks the token that a row names what the row says.
fn turned<R: Wait + Abort>(rt: &R, tree: &Tree<Rule>, holders: Three, row: (usize, Row)) -> Three
    requires own { ThreeOf tree.now.tree holders }
    requires rule { Answers (pre tree.now.rule.closure) (post tree.now.rule.closure) (end_ends_at tree.now.rule.plan) }
    ensures { ThreeOf tree.now.tree result }
{
    let (zero, one, two) = holders;
    match row.1.0 {
        0 => (asked(rt, tree, zero, row), one, two),
        1 => (zero, asked(rt, tree, one, row), two),
        _ => (zero, one, asked(rt, tree, two, row)),
    }
}

// Plays these rows one after another with three tokens.
fn played<R: Wait + Abort>(rt: &R, tree: &Tree<Rule>, mut holders: Three, rows: &[Row]) -> Three
    requires own { ThreeOf tree.now.tree holders }
    requires rule { Answers (pre tree.now.rule.closure) (post tree.now.rule.closure) (end_ends_at tree.now.rule.plan) }
    ensures { ThreeOf tree.now.tree result }
{
    for (number, row) in rows.iter().enumerate() {
        holders = turned(rt, tree, holders, (number, *row));
    }
    holders
}

// Two members at the first leaf and one at the second, until the last has left, which ends the tree. There is no room for
// 65534 members at the root or at the first leaf, which have two parties.
const UNTIL_EMPTY: [Row; 19] = [
    (0, Register(1, 2), Joined(0)),
    (0, Poll, Here(0)),
    (1, Register(2, 1), Joined(0)),
    (2, Register(0, 65534), Full(2)),
    (2, Register(0, 65535), Full(2)),
    (2, Register(1, 65534), Full(2)),
    (0, Arrive, Done(0, false)),
    (0, Poll, Here(0)),
    (0, Arrive, Done(0, false)),
    (0, Arrive, AlreadyArrived(0)),
    (0, Leave, AlreadyArrived(0)),
    (1, Arrive, Done(0, true)),
    (1, Poll, Passed(1)),
    (0, Poll, Passed(1)),
    (0, Leave, Done(1, false)),
    (1, Leave, Left(1, false)),
    (0, Leave, Left(1, true)),
    (0, Register(1, 1), Ended(-2147483646)),
    (2, Register(0, 1), Ended(-2147483646)),
];

// An end by force. A member that has arrived learns of it, and one that hasn't.
const BY_FORCE: [Row; 9] = [
    (0, Register(1, 1), Joined(0)),
    (1, Register(2, 1), Joined(0)),
    (0, Arrive, Done(0, false)),
    (2, Force, Ended(i32::MIN)),
    (0, Poll, Ended(i32::MIN)),
    (0, Arrive, Ended(i32::MIN)),
    (1, Arrive, Ended(i32::MIN)),
    (1, Leave, Ended(i32::MIN)),
    (1, Poll, Ended(i32::MIN)),
];

#[test]
fn waiting_calls_answer(rt: HostRuntime) {
    for rows in [&UNTIL_EMPTY[..], &BY_FORCE[..]] {
        let rule = StoredAdvance::new(is_empty as Rule, WHEN_EMPTY);
        let (tree, holders) = with_three(&rt, rt.alloc(), "2", 0, rule);
        let holders = played(&rt, &tree, holders, rows);
        let closed = left_by_three(&rt, rt.alloc(), tree, holders);
        assert!(rt; closed.tokens.len() == 3);
    }
}
