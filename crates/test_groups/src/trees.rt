//! Trees, how they begin and what they leave.

ghost use Rattle.std.specs.Prelude.{◌≡◌, ◌≤◌, All};
ghost use Rattle.tier_table.specs.Closes.{held};

use crate::rules::Rule;
use advance_rule::StoredAdvance;
use std::alloc::Global;
use std::process::Abort;
use tier_shape::Shape;
use tier_table::closing::Closed;
use tier_table::tokens::{Door, Token};
use tier_table::tree::Tree;

/// A tree of these widths, in this phase, and its first token.
pub fn planted(
    rt: &impl Abort,
    alloc: Global,
    widths: &str,
    phase: u32,
    rule: StoredAdvance<Rule>,
) -> (Tree<Rule>, Door)
    requires { phase ≤ 2147483647 }
    ensures rule { result.0.rule ≡ rule }
    ensures own { result.1.tree ≡ result.0.tree }
{
    let shape = Shape::from_widths(alloc, widths).expect(rt, "a shape");
    Tree::new(alloc, shape, phase, rule).expect(rt, "memory")
}

/// Closes a tree with these tokens. Returns what it leaves.
pub(crate) fn left(rt: &impl Abort, alloc: Global, tree: Tree<Rule>, tokens: Vec<Token>) -> Closed
    requires own { All (λ t. (held t).tree ≡ tree.tree) tokens.items }
{
    match tree.close(alloc, tokens) {
        Ok(closed) => closed,
        Err(_unclosed) => panic!(rt; "no memory"),
    }
}
