//! What `Tree::close` returns, and the close that takes groups too.

ghost use Rattle.std.specs.Prelude.{◌≡◌, ◌++◌, IfOk, IfErr, All};
ghost use Rattle.tier_calls.specs.Closes.{held, plain_tokens, views_in, sights_in, TallyWithOthers, IsLeftBy};
ghost use Rattle.tier_calls.specs.Closes.{sights_together, views_together};
ghost use Rattle.tier_calls.specs.Closes as closes;

use crate::tree::Tree;
use phaser_word::Word;
use std::alloc::Global;
use tier_calls::closing::{plain_all, plain_groups};
pub use tier_calls::closing::{Closed, ClosedToken};
use tier_calls::groups::Group;
use tier_calls::tokens::Token;

/// A tree that could not be closed, because memory ran out, and the tokens that were passed in. Both are as they were:
/// the caller may go on with them, or try again.
#[derive(Drop)]
pub struct CloseTreeFault<F: Fn(u32, u32) -> bool> {
    /// The tree.
    pub tree: Tree<F>,
    /// The tokens.
    pub tokens: Vec<Token>,
}

/// What remains of a tree after it was closed with tokens and groups.
#[derive(Drop)]
pub struct ClosedAll {
    /// The words of the tiers, by tier number.
    pub words: Vec<Word>,
    /// The tokens that the caller handed in, in their order.
    pub tokens: Vec<ClosedToken>,
    /// The members of each group that the caller handed in, in the order of the groups.
    pub groups: Vec<ClosedToken>,
}

/// A tree that could not be closed, because memory ran out, and the tokens and groups that were passed in. All are as they
/// were: the caller may go on with them, or try again.
#[derive(Drop)]
pub struct CloseAllFault<F: Fn(u32, u32) -> bool> {
    /// The tree.
    pub tree: Tree<F>,
    /// The tokens.
    pub tokens: Vec<Token>,
    /// The groups.
    pub groups: Vec<Group>,
}

impl<F: Fn(u32, u32) -> bool> Tree<F> {
    /// Closes the tree as [`Tree::close`](crate::tree::Tree::close) does, and takes groups too. Pass the tokens and the groups
    /// of this tree that are left; those that were dropped count as others. If memory runs out, hands the tree, the tokens
    /// and the groups back.
    pub fn close_all(
        self,
        alloc: Global,
        tokens: Vec<Token>,
        groups: Vec<Group>,
    ) -> Result<ClosedAll, CloseAllFault<F>>
    where
        F: Drop,
        requires own { All (λ t. (held t).tree ≡ self.tree) tokens.items }
        requires groups { All (λ g. g.tree ≡ self.tree) groups.items }
        ensures tokens { IfOk result (λ c. c.tokens.items ≡ plain_tokens tokens.items) }
        ensures groups { IfOk result (λ c. c.groups.items ≡ closes.plain_groups groups.items) }
        ensures words { IfOk result (λ c. TallyWithOthers self.tree.key.shape c.words.items (views_in tokens.items ++ views_together groups.items)) }
        ensures left { IfOk result (λ c. IsLeftBy self.tree.key c.words.items (sights_in tokens.items ++ sights_together groups.items)) }
        ensures refused { IfErr result (λ u. (u.tree ≡ self) × (u.tokens ≡ tokens) × (u.groups ≡ groups)) }
    {
        let Ok(words) = Vec::with_capacity(alloc, self.tiers.shape().count()) else {
            return Err(CloseAllFault {
                tree: self,
                tokens,
                groups,
            });
        };
        let Ok(mut plains) = Vec::with_capacity(alloc, tokens.len()) else {
            return Err(CloseAllFault {
                tree: self,
                tokens,
                groups,
            });
        };
        let Ok(mut members) = Vec::with_capacity(alloc, groups.len()) else {
            return Err(CloseAllFault {
                tree: self,
                tokens,
                groups,
            });
        };
        plain_all(&tokens, &mut plains);
        plain_groups(&groups, &mut members);
        let Tree { tiers, rule: _ } = self;
        Ok(ClosedAll {
            words: tiers.close_all(tokens, groups, words),
            tokens: plains,
            groups: members,
        })
    }
}
