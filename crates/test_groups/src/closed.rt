//! Trees that are closed with the groups that are left.

ghost use Rattle.std.specs.Prelude.{◌≡◌, All};
ghost use Rattle.advance_rule.specs.Stored.{Answers};
ghost use Rattle.advance_rule.specs.Plan.{end_ends_at};
ghost use Rattle.tier_table.specs.Closes.{held};

use crate::begun::begun;
use crate::calls::reported_of;
use crate::counts::are;
use crate::reported::Reported;
use crate::rules::{Rule, WHEN_EMPTY, is_empty};
use advance_rule::StoredAdvance;
use std::alloc::Global;
use std::process::Abort;
use std::sync::Wait;
use tier_table::closing::{ClosedAll, ClosedToken};
use tier_table::groups::Group;
use tier_table::tokens::{Door, Token};
use tier_table::tree::Tree;

// Takes the last group out.
fn last(rt: &impl Abort, tree: &Tree<Rule>, groups: &mut Vec<Group>) -> Group
    requires { All (λ g. g.tree ≡ tree.now.tree) groups.old.items }
    ensures rest { All (λ g. g.tree ≡ tree.now.tree) groups.new.items }
    ensures last { result.tree ≡ tree.now.tree }
{
    let _ = tree;
    groups.pop().expect(rt, "a group")
}

// All members of a group arrive in phase 0, and others are waited for.
fn arrived<R: Wait + Abort>(rt: &R, tree: &Tree<Rule>, group: Group) -> Group
    requires own { group.tree ≡ tree.now.tree }
    requires rule { Answers (pre tree.now.rule.closure) (post tree.now.rule.closure) (end_ends_at tree.now.rule.plan) }
    ensures { result.tree ≡ tree.now.tree }
{
    let (group, reported) = reported_of(tree.arrive_all_wait(rt, group));
    assert!(rt; reported == Reported::Done(0, false));
    group
}

// Closes a tree with its door and these two groups. Returns what it leaves.
fn closed_with(
    rt: &impl Abort,
    alloc: Global,
    tree: Tree<Rule>,
    door: Door,
    one: Group,
    other: Group,
) -> ClosedAll
    requires own { (door.tree ≡ tree.tree) × (one.tree ≡ tree.tree) × (other.tree ≡ tree.tree) }
{
    let tokens = vec![in alloc; Token::Door(door)].expect(rt, "memory");
    let groups = vec![in alloc; one, other].expect(rt, "memory");
    match tree.close_all(alloc, tokens, groups) {
        Ok(closed) => closed,
        Err(_unclosed) => panic!(rt; "no memory"),
    }
}

// Returns true if tokens are these: the tier, the size, how many of the members are unarrived, and the phase.
fn tokens_are(tokens: &[ClosedToken], wants: &[(u16, u32, u32, u32)]) -> bool {
    if tokens.len() != wants.len() {
        return false;
    }
    for (token, want) in tokens.iter().zip(wants) {
        if (token.tier, token.size, token.unarrived, token.phase) != *want {
            return false;
        }
    }
    true
}

// The last leaf's members have arrived. The words also count the thousand members whose group was dropped.
const WORDS: [(u32, u32, u32, bool); 7] = [
    (0, 2, 2, false),
    (0, 1, 1, false),
    (0, 2, 1, false),
    (0, 3, 3, false),
    (0, 0, 1, false),
    (0, 1000, 1000, false),
    (0, 65535, 0, false),
];

#[test]
fn a_tree_closes_with_groups(rt: HostRuntime) {
    let rule = StoredAdvance::new(is_empty as Rule, WHEN_EMPTY);
    match begun(&rt, rt.alloc(), rule, &[3, 0, 1000, 65535]) {
        Ok((tree, spare, mut groups)) => {
            let two = last(&rt, &tree, &mut groups);
            let two = arrived(&rt, &tree, two);
            let _dropped = last(&rt, &tree, &mut groups);
            let zero = last(&rt, &tree, &mut groups);
            let closed = closed_with(&rt, rt.alloc(), tree, spare, zero, two);
            assert!(rt; are(&closed.words, &WORDS));
            assert!(rt; tokens_are(&closed.tokens, &[(0, 0, 0, 0)]));
            assert!(rt; tokens_are(&closed.groups, &[(3, 3, 3, 0), (6, 65535, 0, 0)]));
        }
        Err(_) => panic!(rt; "not begun"),
    }
}
