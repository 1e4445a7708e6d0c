//! How many tasks of a stretch came and left, and at which leaves.
ghost use Rattle.std.specs.Prelude.{◌≡◌, ◌≤◌, ◌<◌, ◌+◌, ◌%◌};
ghost use Rattle.stretch_queue.specs.Leaves.{leaf_of, leaf_below};

use program_stretches::Stretch;
use programs::deeds::Change;
use programs::program::{OnPath, Program};
use std::alloc::{AllocError, Global};

/// How many members join and leave at a leaf.
#[derive(Clone, Copy, Drop)]
pub struct LeafMoves {
    /// How many tasks were spawned that join this leaf.
    pub joining: u32,
    /// How many tasks left that joined this leaf.
    pub leaving: u32,
}

/// How many tasks were spawned in a stretch, and how many left.
#[derive(Drop)]
pub struct Moves {
    /// All of them.
    pub all: LeafMoves,
    /// For each leaf, by its number. Empty if nobody came or left, or the tree has one leaf.
    pub at_leaves: Vec<LeafMoves>,
}

// Returns the number of the leaf of the task that a task at leaf `at` spawned with this number.
fn leaf_after(leaves: u16, at: u16, number: u16) -> u16
    requires leaves { 1 ≤ leaves }
    ensures leaf { result ≡ (at + 1 + number) % leaves }
    ensures within { result < leaves }
{
    ((u32::from(at) + 1 + u32::from(number)) % u32::from(leaves)) as u16
}

// Returns the number of the leaf of a descendant of a task at leaf `at`, given the numbers of its path after those of the task.
fn leaf_below(leaves: u16, at: u16, path: &[u16]) -> u16
    requires leaves { 1 ≤ leaves }
    requires at { at < leaves }
    ensures leaf { result ≡ leaf_below leaves at path.now }
    ensures within { result < leaves }
{
    let mut leaf = at;
    for number in path {
        leaf = leaf_after(leaves, leaf, *number);
    }
    leaf
}

/// Returns the number of the leaf that a task at this path is to join: start task i leaf i, and each task the leaf with the
/// number of its spawner's leaf, plus 1, plus its own number; all modulo the number of leaves.
pub fn leaf_of(leaves: u16, path: &[u16]) -> u16
    requires leaves { 1 ≤ leaves }
    ensures leaf { result ≡ leaf_of leaves path.now }
    ensures within { result < leaves }
{
    match path.split_first() {
        Some((number, after)) => leaf_below(leaves, *number % leaves, after),
        None => 0,
    }
}

impl Moves {
    /// Creates moves in which nobody came or left.
    pub fn none(alloc: Global) -> Self {
        Moves {
            all: LeafMoves {
                joining: 0,
                leaving: 0,
            },
            at_leaves: Vec::new(alloc),
        }
    }

    /// Returns the number of members after these moves, if there were `size` before.
    pub fn size_after(&self, size: usize) -> usize {
        let most = size.saturating_add(self.all.joining as usize);
        most.saturating_sub(self.all.leaving as usize)
    }

    // Counts a task that was spawned.
    fn join(&mut self, leaf: u16) {
        self.all.joining = self.all.joining.saturating_add(1);
        if let Some(moves) = self.at_leaves.get_mut(usize::from(leaf)) {
            moves.joining = moves.joining.saturating_add(1);
        }
    }

    // Counts a task that left.
    fn leave(&mut self, leaf: u16) {
        self.all.leaving = self.all.leaving.saturating_add(1);
        if let Some(moves) = self.at_leaves.get_mut(usize::from(leaf)) {
            moves.leaving = moves.leaving.saturating_add(1);
        }
    }

    // Counts what a task at this leaf did. The last number of a path is that of its task's spawn.
    fn count<T: OnPath>(&mut self, leaves: u16, leaf: u16, change: &Change<'_, T>)
        requires { 1 ≤ leaves }
    {
        for task in change.spawned {
            let leaf = match task.path().as_slice().last() {
                Some(number) => leaf_after(leaves, leaf, *number),
                None => leaf,
            };
            self.join(leaf);
        }
        if !change.synced {
            self.leave(leaf);
        }
    }
}

// Counts what the tasks of a stretch did, leaf by leaf. A task that wasn't run because of a fault leaves.
fn count_by_leaf<P: Program>(
    alloc: Global,
    stretch: &Stretch<'_, P>,
    leaves: u16,
) -> Result<Moves, AllocError>
    requires { 1 ≤ leaves }
{
    let mut moves = Moves::none(alloc);
    moves.at_leaves.resize(
        usize::from(leaves),
        LeafMoves {
            joining: 0,
            leaving: 0,
        },
    )?;
    let Some((tasks, mut changes)) = stretch.changes() else {
        return Err(AllocError);
    };
    for task in tasks {
        let leaf = leaf_of(leaves, task.path().as_slice());
        match changes.split_first() {
            Some((change, after)) => {
                moves.count(leaves, leaf, &change);
                changes = after;
            }
            None => moves.leave(leaf),
        }
    }
    Ok(moves)
}

/// Counts how many tasks were spawned in a stretch that has run, and how many left. The tree has `leaves` leaves.
pub fn moves_of<P: Program>(
    alloc: Global,
    stretch: &Stretch<'_, P>,
    leaves: u16,
) -> Result<Moves, AllocError>
    requires { 1 ≤ leaves }
{
    if stretch.has_faulted() {
        return count_by_leaf(alloc, stretch, leaves);
    }
    if stretch.all_stay() {
        return Ok(Moves::none(alloc));
    }
    if leaves > 1 {
        return count_by_leaf(alloc, stretch, leaves);
    }
    let mut moves = Moves::none(alloc);
    moves.all.joining = u32::try_from(stretch.spawned()).unwrap_or(u32::MAX);
    moves.all.leaving = u32::try_from(stretch.left()).unwrap_or(u32::MAX);
    Ok(moves)
}
