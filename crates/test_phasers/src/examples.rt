//! The examples in the docs of types, as tests: each example there has the text of a test here.
ghost use Rattle.std.specs.Prelude.{◌≡◌};

use advance_rule::{CountPlan, EndPlan, StoredAction, StoredAdvance, StoredCount};
use cyclic_gate::{AwaitedStep, BarrierCore, CyclicGate};
use phaser_one::PhaserOne;
use phasers::barrier::{Barrier, GateState, NoAction};
use phasers::tree::{MeetError, PhaserTree, Seat};
use tier_core::call::{Call, Played};
use tier_core::tree::Core;
use tier_shape::Shape;
use tier_table::tree::Tree;
use tier_table::waiting::{ArrivedAtLast, RegisteredAtLast};

#[test]
fn a_single_phaser(rt: HostRuntime) {
    // It ends when fewer than one party is left.
    let plan = CountPlan { least: 1, at: None };
    let rule = StoredCount::new(|_phase, parties| parties < 1, plan);
    let mut phaser = PhaserOne::new(2, 0, rule).expect(&rt, "two parties");
    assert!(rt; phaser.arrive().is_ok());
    assert!(rt; phaser.phase() == 0);
    assert!(rt; phaser.arrive().is_ok());
    assert!(rt; phaser.phase() == 1);
}

#[test]
fn a_barrier_as_a_value(rt: HostRuntime) {
    // The action never fails. Callers have numbers.
    let action = StoredAction::new(|_generation| false, None);
    let mut barrier = BarrierCore::new(rt.alloc(), 2, action).expect(&rt, "two parties");
    assert!(rt; matches!(barrier.await_step(7), Ok(AwaitedStep::Waits(1))));
    assert!(rt; matches!(barrier.await_step(9), Ok(AwaitedStep::Tripped(_))));
    assert!(rt; barrier.generation() == 1);
}

#[test]
fn a_gate(rt: HostRuntime) {
    // Each thread calls `await_turn` with a different number; the last to come gets 0.
    let action = StoredAction::new(|_generation| false, None);
    let gate = CyclicGate::new(rt.alloc(), 1, action).expect(&rt, "one party");
    assert!(rt; gate.await_turn(&rt, 7) == Ok(0));
}

#[test]
fn a_tree_as_a_machine(rt: HostRuntime) {
    // A root and two leaves; the tree ends when nobody is left.
    let shape = Shape::from_widths(rt.alloc(), "2").expect(&rt, "a shape");
    let plan = EndPlan {
        when_empty: true,
        at: None,
    };
    let mut core = Core::new(rt.alloc(), shape, 0, plan).expect(&rt, "memory");
    let token = core.add_token().expect(&rt, "memory");
    assert!(rt; core.begin(token, Call::Join { tier: 1, n: 1 }).is_ok());
    // Each step is one load or one compare-and-swap of a tier's word.
    for _ in 0..16 {
        if let Ok(Played::Done(phase)) = core.go(token) {
            assert!(rt; phase == 0);
        }
    }
    assert!(rt; core.root().parties == 1);
}

#[test]
fn a_tree_without_a_lock(rt: HostRuntime) {
    // Any threads may share the tree; each has its tokens.
    let shape = Shape::from_widths(rt.alloc(), "2").expect(&rt, "a shape");
    let plan = EndPlan {
        when_empty: true,
        at: None,
    };
    let rule = StoredAdvance::new(|_phase, parties| parties == 0, plan);
    let (tree, door) = Tree::new(rt.alloc(), shape, 0, rule).expect(&rt, "memory");
    assert!(rt; tree.shape().count() == 3);
    // A member at tier 1; it is the only one, so its arrival takes the advance.
    if let RegisteredAtLast::Joined(crew, _) = tree.register_wait(&rt, door, 1, 1) {
        assert!(rt; matches!(tree.arrive_wait(&rt, crew), ArrivedAtLast::Done(_, 0, true)));
    }
}

#[test]
fn a_tree_that_ends_at_a_phase(rt: HostRuntime) {
    let plan = EndPlan::at_phase(2);
    let mut tree = PhaserTree::from_widths(rt.alloc(), "2", plan).expect(&rt, "a tree");
    let mut guest = tree.guest();
    // The only member meets in phases 0 and 1; the tree ends with phase 2.
    if let Ok(mut party) = guest.split().join(&rt, 0) {
        assert!(rt; party.meet(&rt) == Ok(1));
        assert!(rt; party.meet(&rt) == Ok(2));
        assert!(rt; matches!(party.meet(&rt), Err(MeetError::Ended(_))));
    }
}

#[test]
fn a_seat_for_a_party(rt: HostRuntime) {
    let plan = EndPlan::when_empty();
    let mut tree = PhaserTree::from_widths(rt.alloc(), "2", plan).expect(&rt, "a tree");
    let seat = Seat::new();
    let mut own = tree.guest().join(&rt, 0).expect(&rt, "the leaf has room");
    let party = own.bring(&rt, 1).expect(&rt, "the leaf has room");
    assert!(rt; seat.give(&rt, party).is_ok());
    seat.close(&rt);
    // Other threads may call this.
    let other = seat.take(&rt).expect(&rt, "a party");
    assert!(rt; (other.tier(), other.phase()) == (own.tier(), 0));
    assert!(rt; seat.take(&rt).is_none());
}

#[test]
fn a_snapshot_of_a_tree(rt: HostRuntime) {
    let plan = EndPlan::when_empty();
    let mut tree = PhaserTree::from_widths(rt.alloc(), "2", plan).expect(&rt, "a tree");
    let mut guest = tree.guest();
    let mut party = guest.split().join(&rt, 0).expect(&rt, "the leaf has room");
    let _late = guest.join(&rt, 1).expect(&rt, "the leaf has room");
    party.arrive(&rt);
    let snapshot = party.snapshot(rt.alloc()).expect(&rt, "memory");
    assert!(rt; snapshot.words().len() == 3);
    assert!(rt; snapshot.unarrived(1) == 0 && snapshot.unarrived(2) == 1);
}

#[test]
fn a_barrier_without_an_action(rt: HostRuntime) {
    let barrier = Barrier::new(rt.alloc(), 1, NoAction).expect(&rt, "one party");
    assert!(rt; barrier.await_turn(&rt, 7) == Ok(0));
}

#[test]
fn a_gate_without_its_action(rt: HostRuntime) {
    let gate = GateState::new(rt.alloc(), 1, None).expect(&rt, "one party");
    // The action is passed in at each arrival; the last caller runs it.
    let action = StoredAction::new(|_generation| false, None);
    assert!(rt; gate.await_turn(&rt, 7, &action) == Ok(0));
}
