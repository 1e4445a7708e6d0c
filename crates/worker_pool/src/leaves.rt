//! The leaves of the tree of a run, by number.
ghost use Rattle.std.specs.Prelude.{◌≡◌, ◌<◌, ◌≤◌, length};
ghost use Rattle.tier_shape.specs.Leaves.{leaves_of};
ghost use Rattle.worker_pool.specs.LeafTiers.{AreLeaves};

use std::marker::PhantomData;
use stretch_queue::running::Running;
use tier_shape::leaves::leaf_at;

/// The tiers that are leaves of the tree of the run. A leaf is known by its number, modulo the number of leaves.
#[derive(Drop)]
pub(crate) struct Leaves<J: Running> {
    tiers: Vec<u16>,
    of: PhantomData<J>,
    ghost all: { AreLeaves J.tree.key.shape tiers.items },
}

impl<J: Running> Leaves<J> {
    ghost use Rattle.tier_shape.specs.Preferred.{leaf_at};

    /// Keeps the leaves of the tree of the run.
    pub(crate) fn new(tiers: Vec<u16>) -> Self
        requires { AreLeaves J.tree.key.shape tiers.items }
    {
        Leaves {
            tiers,
            of: PhantomData,
        }
    }

    /// Returns the number of leaves.
    pub(crate) fn count(&self) -> u16
        ensures count { result ≡ length (leaves_of J.tree.key.shape) }
        ensures some { 1 ≤ result }
    {
        match u16::try_from(self.tiers.len()) {
            Ok(count) => count,
            Err(_) => unreachable!(),
        }
    }

    /// Returns the tier of the leaf with this number.
    pub(crate) fn tier(&self, number: usize) -> u16
        ensures leaf { result ≡ leaf_at (leaves_of J.tree.key.shape) number }
        ensures within { result < length J.tree.key.shape }
    {
        leaf_at(&self.tiers, number)
    }
}
