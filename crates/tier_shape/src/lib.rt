//! Trees of tiers: the parent of each tier, the leaves, and the paths up to the root.
//!
//! Not part of Java's API.
//!
//! # Where things are
//!
//! * `leaves.rt`: leaves by number (`specs/Preferred.antt`); `widths.rt`: texts of widths.
//! * `specs/Parents.antt`: the shape as a list; `Paths.antt`, `Leaves.antt`, `Widths.antt`: what a text of widths
//!   says; `InText.antt`: the same as a function.
#![tactic(auto)]

ghost use Rattle.std.specs.Prelude.{◌≡◌, ℕ, ◌+◌, ◌<◌, ◌≤◌, ◌↔◌, ◌&&◌, List, length, false, nat_lt, if◌then◌else◌};
ghost use Rattle.std.specs.Prelude.{IfErr, IfOk, IsErrOf, IsTrue, MatchResult};
ghost use Rattle.tier_shape.specs.Parents.{parent_of, IsShape};
ghost use Rattle.tier_shape.specs.Paths.{path_of, IsTiers, IsTooDeep, PathsGoUp};
ghost use Rattle.tier_shape.specs.Faults.{fault_number, fault_name, IsRefusedText};
ghost use Rattle.tier_shape.specs.Leaves.{IsLeaf, is_leaf_of, leaves_of, LeavesAreChildless, TreesHaveALeaf};
ghost use Rattle.tier_shape.specs.Widths.{IsBadText, IsDeepText, IsWideText, IsTreeText, IsGoodText};
ghost use Rattle.tier_shape.specs.Widths.{TextsSayOneTree, TreesHaveTheirLevels, LeavesAreTheLastLevel, TextsSayShapes};
ghost use Rattle.tier_shape.specs.InText.{shape_in_text, TextsAreSpelledOut};

pub mod leaves;
mod widths;

use smallvec::SmallVec;
use std::alloc::{AllocError, Global};
use std::marker::Model;
use thiserror::Error;
use widths::{is_small, read_widths, tree};

/// The most tiers that a shape can have.
pub const MOST_TIERS: usize = 64;

/// The most levels below the root that a shape can have.
pub const MOST_LEVELS: usize = 6;

/// Why no shape was made.
#[derive(Clone, Copy, Debug, Drop, PartialEq, Eq, Error)]
pub enum ShapeFault {
    /// The list of parents is empty.
    #[error("a shape needs a tier")]
    NoTier,
    /// There would be more than [`MOST_TIERS`] tiers.
    #[error("over 64 tiers")]
    TooManyTiers,
    /// A tier's parent is not an earlier tier, or the first tier's is not the tier itself.
    #[error("a parent that isn't earlier")]
    ParentNotEarlier,
    /// A tier would be more than [`MOST_LEVELS`] levels below the root.
    #[error("over 6 levels below the root")]
    TooDeep,
    /// The text is neither `flat` nor numbers from 1 to 64 joined by `x`.
    #[error("not a text of widths")]
    BadText,
    /// Memory ran out.
    #[error(transparent)]
    Memory(#[from(alloc)] AllocError),
}

impl ShapeFault {
    /// Returns the number of this fault, or `None` if memory ran out.
    pub fn number(&self) -> Option<u32>
        ensures { result ≡ fault_number self.now }
    {
        match self {
            ShapeFault::NoTier => Some(1),
            ShapeFault::TooManyTiers => Some(2),
            ShapeFault::ParentNotEarlier => Some(3),
            ShapeFault::TooDeep => Some(4),
            ShapeFault::BadText => Some(5),
            ShapeFault::Memory(_) => None,
        }
    }

    /// Returns the name of this fault, as its variant is written.
    pub fn name(&self) -> &'static str
        ensures { result.now ≡ fault_name self.now }
    {
        match self {
            ShapeFault::NoTier => "NoTier",
            ShapeFault::TooManyTiers => "TooManyTiers",
            ShapeFault::ParentNotEarlier => "ParentNotEarlier",
            ShapeFault::TooDeep => "TooDeep",
            ShapeFault::BadText => "BadText",
            ShapeFault::Memory(_) => "Memory",
        }
    }
}

/// A tree of 1 to 64 tiers, numbered from 0, the root, and at most 6 levels below it.
///
/// Contracts see it as the list of the tiers' parents. The root's parent there is the root itself.
#[derive(Drop)]
pub struct Shape {
    parents: Vec<u16>,
}

impl Model for Shape {
    ghost Value = { List ℕ };

    ghost view = { λ s. s.parents.items };

    ghost invariant = { λ s. IsTiers s.parents.items };
}

// Returns true if each tier's parent is an earlier tier, and the root's is the root.
fn come_earlier(parents: &[u16]) -> bool
    requires { 0 < length parents.now }
    ensures { IsTrue result ↔ IsShape parents.now }
{
    parents[0] == 0
        && parents
            .iter()
            .enumerate()
            .all(|(tier, parent)| tier == 0 || usize::from(*parent) < tier)
}

// Returns the number of levels from the root down to a tier.
fn level_of(parents: &[u16], tier: usize) -> usize
    requires shape { IsShape parents.now }
    requires within { tier < length parents.now }
    ensures { result + 1 ≡ length (path_of parents.now tier) }
{
    let mut at = tier;
    let mut level = 0;
    while at != 0 {
        at = usize::from(parents[at]);
        level += 1;
    }
    level
}

// Returns true if no tier is too far below the root.
fn are_near(parents: &[u16]) -> bool
    requires { IsShape parents.now }
    ensures near { IsTrue result → (tier : ℕ) → tier < length parents.now → length (path_of parents.now tier) ≤ 7 }
    ensures far { result ≡ false → IsTooDeep parents.now }
{
    (0..parents.len()).all(|tier| level_of(parents, tier) <= MOST_LEVELS)
}

// Returns true if this is a tier and no other tier's parent.
fn has_no_child(parents: &[u16], tier: u16) -> bool
    ensures { IsTrue result ↔ IsLeaf parents.now tier }
{
    usize::from(tier) < parents.len()
        && parents.iter().enumerate().all(|(other, parent)| *parent != tier
            || other == usize::from(tier))
}

// Returns the shape that a text describes, or why there is none.
fn read_shape(alloc: Global, text: &[u8]) -> Result<Shape, ShapeFault>
    ensures { MatchResult result (λ shape. IsTreeText text.now shape × IsTiers shape) (λ fault. IsRefusedText text.now fault) }
{
    let widths = read_widths(alloc, text)?;
    if !is_small(&widths) {
        return Err(ShapeFault::TooManyTiers);
    }
    match tree(alloc, &widths) {
        Ok(parents) => Ok(Shape { parents }),
        Err(error) => Err(ShapeFault::Memory(error)),
    }
}

impl Shape {
    /// Creates the shape with these parents: entry i is the parent of tier i, and entry 0 is 0.
    ///
    /// # Errors
    ///
    /// In this order: `NoTier`, `TooManyTiers`, `ParentNotEarlier`, `TooDeep`, `Memory`.
    pub fn from_parents(alloc: Global, parents: &[u16]) -> Result<Self, ShapeFault>
        ensures no_tier { IsErrOf result ShapeFault.NoTier ↔ (length parents.now ≡ 0) }
        ensures too_many { IsErrOf result ShapeFault.TooManyTiers ↔ (MOST_TIERS < length parents.now) }
        ensures not_earlier { IsErrOf result ShapeFault.ParentNotEarlier ↔
            ((0 < length parents.now) × (length parents.now ≤ MOST_TIERS) × (IsShape parents.now → ⊥)) }
        ensures too_deep { IsErrOf result ShapeFault.TooDeep ↔
            ((length parents.now ≤ MOST_TIERS) × IsShape parents.now × IsTooDeep parents.now) }
        ensures text { IsErrOf result ShapeFault.BadText → ⊥ }
        ensures memory { (e : AllocError) → IsErrOf result (ShapeFault.Memory e) → IsTiers parents.now }
        ensures taken { IsTiers parents.now → IfErr result (λ fault. fault_number fault ≡ None) }
        ensures ok { IfOk result (λ shape. (shape ≡ parents.now) × IsTiers shape) }
    {
        if parents.is_empty() {
            return Err(ShapeFault::NoTier);
        }
        if parents.len() > MOST_TIERS {
            return Err(ShapeFault::TooManyTiers);
        }
        if !come_earlier(parents) {
            return Err(ShapeFault::ParentNotEarlier);
        }
        if !are_near(parents) {
            return Err(ShapeFault::TooDeep);
        }
        let parents = parents.to_vec(alloc).map_err(ShapeFault::Memory)?;
        Ok(Shape { parents })
    }

    /// Creates the shape that a text of widths describes: `flat` is the root alone, and `2x3` a root with two children
    /// that have three children each. Tiers are numbered level by level from the root, 0.
    ///
    /// # Errors
    ///
    /// In this order: `BadText` if the text is neither `flat` nor numbers from 1 to 64, without leading zeros, joined by
    /// `x`; `TooDeep` if there are over six numbers; `TooManyTiers`; `Memory`.
    pub fn from_widths(alloc: Global, text: &str) -> Result<Self, ShapeFault>
        ensures bad_text { IsErrOf result ShapeFault.BadText ↔ IsBadText text.now }
        ensures too_deep { IsErrOf result ShapeFault.TooDeep ↔ IsDeepText text.now }
        ensures too_many { IsErrOf result ShapeFault.TooManyTiers ↔ IsWideText text.now }
        ensures no_tier { IsErrOf result ShapeFault.NoTier → ⊥ }
        ensures not_earlier { IsErrOf result ShapeFault.ParentNotEarlier → ⊥ }
        ensures memory { (e : AllocError) → IsErrOf result (ShapeFault.Memory e) → IsGoodText text.now }
        ensures ok { IfOk result (λ shape. IsTreeText text.now shape × IsTiers shape) }
        ensures spelled_out { IfOk result (λ shape. shape_in_text text.now ≡ Ok shape) }
        ensures refused { IfErr result (λ fault. (fault_number fault ≡ None → ⊥) → shape_in_text text.now ≡ Err fault) }
    {
        Self::from_width_bytes(alloc, text.as_bytes())
    }

    /// Creates the shape that a text of widths describes, given as bytes. Otherwise as [`Shape::from_widths`].
    pub fn from_width_bytes(alloc: Global, text: &[u8]) -> Result<Self, ShapeFault>
        ensures bad_text { IsErrOf result ShapeFault.BadText ↔ IsBadText text.now }
        ensures too_deep { IsErrOf result ShapeFault.TooDeep ↔ IsDeepText text.now }
        ensures too_many { IsErrOf result ShapeFault.TooManyTiers ↔ IsWideText text.now }
        ensures no_tier { IsErrOf result ShapeFault.NoTier → ⊥ }
        ensures not_earlier { IsErrOf result ShapeFault.ParentNotEarlier → ⊥ }
        ensures memory { (e : AllocError) → IsErrOf result (ShapeFault.Memory e) → IsGoodText text.now }
        ensures ok { IfOk result (λ shape. IsTreeText text.now shape × IsTiers shape) }
        ensures spelled_out { IfOk result (λ shape. shape_in_text text.now ≡ Ok shape) }
        ensures refused { IfErr result (λ fault. (fault_number fault ≡ None → ⊥) → shape_in_text text.now ≡ Err fault) }
    {
        read_shape(alloc, text)
    }

    /// Returns the number of tiers, from 1 to 64.
    pub fn count(&self) -> usize
        ensures value { result ≡ length self.now }
        ensures tiers { IsTiers self.now }
    {
        self.parents.len()
    }

    /// Returns the parent of a tier, or `None` for the root and for a number that is no tier.
    pub fn parent(&self, tier: u16) -> Option<u16>
        ensures { result ≡ (if nat_lt 0 tier && nat_lt tier (length self.now) then Some (parent_of self.now tier) else None) }
    {
        if tier == 0 {
            return None;
        }
        self.parents.get(usize::from(tier)).copied()
    }

    /// Returns true if this is a tier and no other tier's parent. If the root is the only tier, it is a leaf.
    pub fn is_leaf(&self, tier: u16) -> bool
        ensures leaf { IsTrue result ↔ IsLeaf self.now tier }
        ensures test { result ≡ is_leaf_of self.now tier }
    {
        has_no_child(&self.parents, tier)
    }

    /// Returns the leaves in rising order, at least one.
    pub fn leaves(&self, alloc: Global) -> Result<Vec<u16>, AllocError>
        ensures exact { IfOk result (λ leaves. leaves.items ≡ leaves_of self.now) }
        ensures some { IfOk result (λ leaves. 0 < length leaves.items) }
        ensures few { IfOk result (λ leaves. length leaves.items ≤ 64) }
    {
        let mut leaves = Vec::new(alloc);
        for tier in 0..self.count() {
            let tier = tier as u16;
            if self.is_leaf(tier) {
                leaves.push(tier)?;
            }
        }
        Ok(leaves)
    }

    /// Returns the tiers on the path from `tier` up to the root, both included. Takes no memory.
    pub fn path_up(&self, tier: u16) -> SmallVec<u16, 7>
        requires { tier < length self.now }
        ensures path { result.items ≡ path_of self.now tier }
        ensures inline { result.capacity ≡ 7 }
    {
        let mut path = SmallVec::new(*self.parents.allocator());
        let mut at = tier;
        while at != 0 {
            path.push_reserved(at);
            at = self.parents[usize::from(at)];
        }
        path.push_reserved(0);
        path
    }
}

/// Each path goes from parent to parent, its numbers fall at each step, and it ends at the root.
pub fn paths_go_up()
    ensures { PathsGoUp }
{}

/// Each text describes at most one list of widths, and so at most one tree.
pub fn texts_say_one_tree()
    ensures { TextsSayOneTree }
{}

/// The definition of a text's tree as a function agrees with the one as a relation.
pub fn texts_are_spelled_out()
    ensures { TextsAreSpelledOut }
{}

/// The tree of some widths has one level for each width, and the children of each tier are numbered in a row.
pub fn trees_have_their_levels()
    ensures { TreesHaveTheirLevels }
{}

/// The leaves of the tree of some widths are its last level. Their number is the product of the widths.
pub fn leaves_are_the_last_level()
    ensures { LeavesAreTheLastLevel }
{}

/// Each tree that a text describes is a shape, so `from_parents` takes its list of parents.
pub fn texts_say_shapes()
    ensures { TextsSayShapes }
{}

/// The leaves are exactly the tiers without children, in rising order.
pub fn leaves_are_childless()
    ensures { LeavesAreChildless }
{}

/// Every tree has a leaf: its last tier is one.
pub fn trees_have_a_leaf()
    ensures { TreesHaveALeaf }
{}
