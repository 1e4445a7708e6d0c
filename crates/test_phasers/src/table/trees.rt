//! Trees with three tokens, and the words that they leave.

ghost use Rattle.std.specs.Prelude.{◌≡◌, ◌≤◌};
ghost use Rattle.test_phasers.specs.Holders.{ThreeOf};

use crate::calls::call::at_rest;
use crate::calls::holders::{Holder, Three};
use crate::trees::{left, planted};
use advance_rule::StoredAdvance;
use std::alloc::Global;
use std::process::Abort;
use test_groups::rules::Rule;
use tier_table::closing::Closed;
use tier_table::tree::Tree;

/// A tree of these widths, in this phase, and three tokens of it.
pub fn with_three(
    rt: &impl Abort,
    alloc: Global,
    widths: &str,
    phase: u32,
    rule: StoredAdvance<Rule>,
) -> (Tree<Rule>, Three)
    requires { phase ≤ 2147483647 }
    ensures rule { result.0.rule ≡ rule }
    ensures own { ThreeOf result.0.tree result.1 }
{
    let (tree, mut zero) = planted(rt, alloc, widths, phase, rule);
    let one = Holder::Outside(tree.split(&mut zero));
    let two = Holder::Outside(tree.split(&mut zero));
    (tree, (Holder::Outside(zero), one, two))
}

/// Closes a tree with its three tokens. Returns what it leaves.
pub(crate) fn left_by_three(
    rt: &impl Abort,
    alloc: Global,
    tree: Tree<Rule>,
    holders: Three,
) -> Closed
    requires own { ThreeOf tree.tree holders }
{
    let (zero, one, two) = holders;
    let (zero, one, two) = (at_rest(rt, zero), at_rest(rt, one), at_rest(rt, two));
    let tokens = vec![in alloc; zero, one, two].expect(rt, "memory");
    left(rt, alloc, tree, tokens)
}
