//! Trees that begin with groups at their leaves.

ghost use Rattle.std.specs.Prelude.{◌≡◌, All, IfOk};
ghost use Rattle.advance_rule.specs.Stored.{Answers};
ghost use Rattle.advance_rule.specs.Plan.{end_ends_at};
ghost use Rattle.test_groups.specs.Seats.{tree_at, ThreeAt};

use crate::ask::Deed::{Arrive, Await, Join, Poll};
use crate::counts::are;
use crate::reported::Reported::{Done, Full, Here, Passed, Waiting};
use crate::rules::{Rule, WHEN_EMPTY, is_empty};
use crate::runs::{Row, played};
use crate::seats::{Seat, Three};
use crate::trees::left;
use advance_rule::StoredAdvance;
use std::alloc::Global;
use std::process::Abort;
use std::sync::Wait;
use tier_shape::Shape;
use tier_table::beginning::Unregistered;
use tier_table::groups::Group;
use tier_table::tokens::Door;
use tier_table::tree::Tree;

// A tree of four leaves that begins with this many members at each.
#[tactic(auto, using(crate::proofs::AtLeaves::are_own))]
pub(crate) fn begun<R: Wait + Abort>(
    rt: &R,
    alloc: Global,
    rule: StoredAdvance<Rule>,
    counts: &[u32; 4],
) -> Result<(Tree<Rule>, Door, Vec<Group>), Unregistered>
    ensures { IfOk result (λ r. (r.0.rule ≡ rule) × (r.1.tree ≡ r.0.tree) × All (λ g. g.tree ≡ r.0.tree) r.2.items) }
{
    let shape = Shape::from_widths(alloc, "2x2").expect(rt, "a shape");
    let leaves = shape.leaves(alloc).expect(rt, "memory");
    assert!(rt; leaves.len() == 4);
    Tree::with_groups(alloc, rt, shape, 0, rule, counts)
}

// Takes the last group out. It must be at this tier.
fn last_at(rt: &impl Abort, tree: &Tree<Rule>, groups: &mut Vec<Group>, tier: u16) -> Seat
    requires { All (λ g. g.tree ≡ tree.now.tree) groups.old.items }
    ensures rest { All (λ g. g.tree ≡ tree.now.tree) groups.new.items }
    ensures last { tree_at result ≡ tree.now.tree }
{
    let _ = tree;
    match groups.pop() {
        Some(group) => {
            assert!(rt; group.tier() == tier);
            Seat::Inside(group)
        }
        None => panic!(rt; "no group"),
    }
}

// Takes out the groups of the first, the third and the fourth leaf. There must be no others.
fn three_of(rt: &impl Abort, tree: &Tree<Rule>, groups: &mut Vec<Group>) -> Three
    requires { All (λ g. g.tree ≡ tree.now.tree) groups.old.items }
    ensures { ThreeAt tree.now.tree result }
{
    let two = last_at(rt, tree, groups, 6);
    let one = last_at(rt, tree, groups, 5);
    let zero = last_at(rt, tree, groups, 3);
    assert!(rt; groups.is_empty());
    (zero, one, two)
}

// The first phase passes only when all groups have arrived. The last leaf has no room for one more member.
const FIRST_PHASE: [Row; 13] = [
    (0, Poll, Here(0), 3, 0),
    (1, Poll, Here(0), 1000, 0),
    (2, Poll, Here(0), 65535, 0),
    (2, Arrive, Done(0, false), 65535, 0),
    (0, Arrive, Done(0, false), 3, 0),
    (0, Poll, Waiting, 3, 0),
    (2, Poll, Waiting, 65535, 0),
    (1, Poll, Here(0), 1000, 0),
    (1, Arrive, Done(0, true), 1000, 1),
    (0, Await, Passed(1), 3, 1),
    (2, Await, Passed(1), 65535, 1),
    (2, Join(1), Full(65535), 65535, 1),
    (1, Poll, Here(1), 1000, 1),
];

const WORDS: [(u32, u32, u32, bool); 7] = [
    (1, 2, 2, false),
    (0, 1, 0, false),
    (0, 2, 0, false),
    (1, 3, 3, false),
    (0, 0, 1, false),
    (1, 1000, 1000, false),
    (1, 65535, 65535, false),
];

#[test]
fn a_tree_begins_with_groups(rt: HostRuntime) {
    let rule = StoredAdvance::new(is_empty as Rule, WHEN_EMPTY);
    match begun(&rt, rt.alloc(), rule, &[3, 0, 1000, 65535]) {
        Ok((tree, spare, mut groups)) => {
            let seats = three_of(&rt, &tree, &mut groups);
            let _ = played(&rt, &tree, spare, seats, &FIRST_PHASE);
            let closed = left(&rt, rt.alloc(), tree, Vec::new(rt.alloc()));
            assert!(rt; are(&closed.words, &WORDS));
        }
        Err(_) => panic!(rt; "not begun"),
    }
}

// Returns true if a tree has no room for these members, at this leaf first.
fn is_full_at<R: Wait + Abort>(rt: &R, alloc: Global, counts: &[u32; 4], leaf: u16) -> bool {
    let rule = StoredAdvance::new(is_empty as Rule, WHEN_EMPTY);
    match begun(rt, alloc, rule, counts) {
        Err(Unregistered::Full { tier, members }) => tier == leaf && members > 65535,
        _ => false,
    }
}

#[test]
fn a_leaf_has_no_room(rt: HostRuntime) {
    assert!(rt; is_full_at(&rt, rt.alloc(), &[65536, 0, 0, 0], 3));
    assert!(rt; is_full_at(&rt, rt.alloc(), &[3, 65536, 0, 1], 4));
    assert!(rt; is_full_at(&rt, rt.alloc(), &[0, 0, 65535, u32::MAX], 6));
    assert!(rt; !is_full_at(&rt, rt.alloc(), &[65535, 65535, 65535, 65535], 3));
}
