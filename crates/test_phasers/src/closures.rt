//! A stored closure is called once an advance or a trip, and at no other call. The closure of a tree is in `written`.
ghost use Rattle.std.specs.Prelude.{◌≡◌, ◌<◌};
ghost use Rattle.advance_rule.specs.Action.{AnswersAction};
ghost use Rattle.advance_rule.specs.Stored.{Answers};
ghost use Rattle.advance_rule.specs.Plan.{count_ends};

use advance_rule::{CountPlan, StoredAction, StoredCount};
use cyclic_gate::{BarrierCore, BarrierFault};
use phaser_one::PhaserOne;
use std::cell::Cell;

// One more call.
fn note(calls: &Cell<u32>) {
    calls.set(calls.get().wrapping_add(1));
}

// What a phaser is asked.
#[derive(Clone, Copy)]
enum Ask {
    // To register this many parties.
    Register(i64),
    // To let a party arrive.
    Arrive,
    // To let a party leave.
    Leave,
}

// What a phaser is asked, whether it does that, and how often the closure has been called then.
type Row = (Ask, bool, u32);

// Returns true if a phaser answers as the rows say.
fn answers<F: Fn(u32, u32) -> bool>(
    phaser: &mut PhaserOne<F>,
    calls: &Cell<u32>,
    rows: &[Row],
) -> bool
    requires { Answers (F.pre phaser.old.rule.closure) (F.post phaser.old.rule.closure) (count_ends phaser.old.rule.plan) }
{
    for (ask, is_done, count) in rows {
        let reported = match *ask {
            Ask::Register(1) => phaser.register(),
            Ask::Register(parties) => phaser.bulk_register(parties),
            Ask::Arrive => phaser.arrive(),
            Ask::Leave => phaser.arrive_and_deregister(),
        };
        if reported.is_ok() != *is_done || calls.get() != *count {
            return false;
        }
    }
    true
}

// At a phaser of two parties: once an advance.
const AT_TWO: [Row; 7] = [
    (Ask::Arrive, true, 0),
    (Ask::Leave, true, 1),
    (Ask::Register(1), true, 1),
    (Ask::Leave, true, 1),
    (Ask::Arrive, true, 2),
    (Ask::Leave, true, 3),
    (Ask::Arrive, true, 3),
];

// At a phaser without parties: calls that are refused, or that don't arrive, don't ask the rule.
const AT_NONE: [Row; 7] = [
    (Ask::Arrive, false, 0),
    (Ask::Leave, false, 0),
    (Ask::Register(1), true, 0),
    (Ask::Register(2), true, 0),
    (Ask::Arrive, true, 0),
    (Ask::Arrive, true, 0),
    (Ask::Arrive, true, 1),
];

// Returns true if a new phaser of these parties, which ends when nobody is left, answers as the rows say.
fn are_answered(parties: i64, rows: &[Row]) -> bool {
    let calls = Cell::new(0u32);
    let ends = |_phase: u32, count: u32| {
        note(&calls);
        count < 1
    };
    let rule = StoredCount::new(ends, CountPlan { least: 1, at: None });
    match PhaserOne::new(parties, 0, rule) {
        Ok(mut phaser) => answers(&mut phaser, &calls, rows),
        Err(_) => false,
    }
}

#[test]
fn a_phaser_calls_it_once_an_advance(rt: HostRuntime) {
    assert!(rt; are_answered(2, &AT_TWO) && are_answered(0, &AT_NONE));
}

// Which caller comes to a barrier, whether it may, and how often the action has been run then. A caller that waits may not
// come again, also if one party alone is missing.
const TURNS: [(u32, bool, u32); 7] = [
    (0, true, 0),
    (0, false, 0),
    (1, true, 1),
    (0, true, 1),
    (0, false, 1),
    (1, true, 2),
    (0, true, 2),
];

// Returns true if a barrier answers as the turns say.
fn takes_turns<F: Fn(u64) -> bool>(barrier: &mut BarrierCore<F>, calls: &Cell<u32>) -> bool
    requires { AnswersAction (F.pre barrier.old.action.closure) (F.post barrier.old.action.closure) barrier.old.action.plan }
{
    for (caller, may, count) in TURNS {
        let reported = match barrier.await_step(caller) {
            Ok(_) => may,
            Err(fault) => !may && fault == BarrierFault::AlreadyWaiting,
        };
        if !reported || calls.get() != count {
            return false;
        }
    }
    true
}

#[test]
fn a_barrier_runs_it_once_a_trip(rt: HostRuntime) {
    let calls = Cell::new(0u32);
    let action = |generation: u64| {
        note(&calls);
        generation == 1
    };
    let action = StoredAction::new(action, Some(1));
    let mut barrier = BarrierCore::new(rt.alloc(), 2, action).expect(&rt, "a barrier");
    assert!(rt; takes_turns(&mut barrier, &calls));
}
