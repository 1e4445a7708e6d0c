//! A new tree with members at its leaves.

ghost use Rattle.std.specs.Prelude.{◌≡◌, ◌+◌, ◌<◌, ◌≤◌, All, IfErr, IfOk, MatchOption, MatchResult, length};
ghost use Rattle.tier_shape.specs.Leaves.{leaves_of};
ghost use Rattle.tier_calls.specs.ArrivesWith.{OnlySplit};
ghost use Rattle.tier_calls.specs.Holding.{split_once};
ghost use Rattle.tier_table.specs.Beginning.{AreAtLeaves, BeginsNot, BeginsWith, HaveRoom, IsFirstFull, IsGroupAt, IsNotIn, RegistersNot, asked};
ghost use Rattle.tier_table.specs.GroupMembersAtLast.{RegistersAllAtLast};

use crate::group_members::{GroupRegistered, register_all_wait};
use crate::groups::Group;
use crate::tree::Tree;
use advance_rule::StoredAdvance;
use std::alloc::{AllocError, Global};
use std::sync::Wait;
use tier_calls::TRIES;
use tier_calls::tiers::Tiers;
use tier_calls::tokens::Door;
use tier_shape::Shape;

/// Why members were not registered at all leaves.
#[derive(Drop)]
pub enum Unregistered {
    /// Out of memory. Nobody has registered. Try again once there is memory.
    Memory(AllocError),
    /// The leaf `tier` is the first that was to have more members than 65535, the most that a tier has room for. Nobody has
    /// registered. Make a tree with more leaves, or have fewer members at this one.
    Full {
        /// The leaf.
        tier: u16,
        /// How many members it was to have.
        members: u32,
    },
    /// Others use the tree too, and the leaf `tier` did not register its members in the phase. The leaves before it have
    /// registered theirs. Go on with those, or let them leave: as long as they are unarrived, no phase can pass.
    Stopped {
        /// The groups of the leaves before it.
        groups: Vec<Group>,
        /// The leaf.
        tier: u16,
        /// What it answered: there was no room beside the members of others, the tree has ended, or the members have joined
        /// in another phase.
        answer: GroupRegistered,
    },
}

impl From<AllocError> for Unregistered {
    ghost use Rattle.std.specs.Prelude.{◌≡◌};
    ghost use Rattle.tier_table.specs.declared.beginning.Unregistered.TheVariants.{Memory};

    ghost from_gives = { λ error fault. fault ≡ Memory error };

    fn from(error: AllocError) -> Self {
        Unregistered::Memory(error)
    }
}

// Finds the first leaf that is to have more members than a tier has room for.
fn first_full(leaves: &[u16], counts: &[u32]) -> Option<(u16, u32)>
    requires { length counts.now ≤ length leaves.now }
    ensures { MatchOption result (HaveRoom counts.now) (λ r. IsFirstFull leaves.now counts.now r.0 r.1) }
{
    let mut rest = counts;
    let mut places = leaves;
    while let (Some((count, more)), Some((leaf, others))) = (
        rest.split_first(),
        places.split_first(),
    ) {
        if *count > 65535 {
            return Some((*leaf, *count));
        }
        rest = more;
        places = others;
    }
    None
}

// Registers `n` new members at a leaf, by a token that is split off `door`. Returns the answer as an error if they have not
// registered in `phase`.
fn register_leaf<R: Wait>(
    tiers: &Tiers,
    rt: &R,
    door: &mut Door,
    phase: u32,
    leaf: u16,
    n: u32,
) -> Result<Group, GroupRegistered>
    requires own { door.old.tree ≡ tiers.now }
    requires tier { leaf < length tiers.now.key.shape }
    requires some { 0 < n }
    ensures same { door.new ≡ split_once door.old }
    ensures answer { MatchResult result (λ group. IsGroupAt tiers.now phase leaf n group) (λ answer. RegistersAllAtLast TRIES tiers.now leaf n answer × IsNotIn phase answer) }
{
    let one = tiers.open_door(door);
    match register_all_wait(tiers, rt, one, leaf, n) {
        GroupRegistered::Joined(group, at) => {
            if at == phase {
                return Ok(group);
            }
            Err(GroupRegistered::Joined(group, at))
        }
        answer => Err(answer),
    }
}

/// Registers new members at the leaves of a tree, as many at each as `counts` has in its place, and returns one group for
/// each leaf that has some. All register in `phase`, which should be the tree's. The tokens are split off `door`, one for
/// each group. A leaf without a count gets none.
///
/// `Full` comes before anything else is done, and `Memory` before anybody registers.
pub fn register_leaves<R: Wait>(
    alloc: Global,
    tiers: &Tiers,
    rt: &R,
    door: &mut Door,
    phase: u32,
    leaves: &[u16],
    counts: &[u32],
) -> Result<Vec<Group>, Unregistered>
    requires own { door.old.tree ≡ tiers.now }
    requires tiers { All (λ leaf. leaf < length tiers.now.key.shape) leaves.now }
    requires counts { length counts.now ≤ length leaves.now }
    ensures door { OnlySplit door.old door.new }
    ensures capacity { IfOk result (λ groups. HaveRoom counts.now) }
    ensures groups { IfOk result (λ groups. AreAtLeaves tiers.now phase leaves.now counts.now groups.items) }
    ensures opened { IfOk result (λ groups. door.new.opened ≡ door.old.opened + length groups.items) }
    ensures refused { IfErr result (λ fault. RegistersNot TRIES tiers.now phase leaves.now counts.now fault) }
    ensures asked { IfErr result (λ fault. door.new.opened ≡ door.old.opened + asked fault) }
{
    if let Some((tier, members)) = first_full(leaves, counts) {
        return Err(Unregistered::Full { tier, members });
    }
    let mut groups = Vec::with_capacity(alloc, counts.len())?;
    let mut rest = counts;
    let mut places = leaves;
    while let (Some((count, more)), Some((leaf, others))) = (
        rest.split_first(),
        places.split_first(),
    ) {
        if *count > 0 {
            match register_leaf(tiers, rt, door, phase, *leaf, *count) {
                Ok(group) => groups.push_reserved(group),
                Err(answer) => {
                    let tier = *leaf;
                    return Err(Unregistered::Stopped {
                        groups,
                        tier,
                        answer,
                    });
                }
            }
        }
        rest = more;
        places = others;
    }
    Ok(groups)
}

impl<F: Fn(u32, u32) -> bool> Tree<F> {
    /// Creates a tree in `phase` as [`Tree::new`] does, and registers members at its leaves before any other thread has
    /// it: as many at each leaf as `counts` has in its place. Returns the tree, its first token, and one group for each
    /// leaf that has members, in the order of the leaves. All are unarrived in `phase`. A leaf without a count has none.
    ///
    /// On an error there is no tree. Nobody else has had it, so `Stopped` never comes; but no contract says so.
    pub fn with_groups<R: Wait>(
        alloc: Global,
        rt: &R,
        shape: Shape,
        phase: u32,
        advance: StoredAdvance<F>,
        counts: &[u32],
    ) -> Result<(Tree<F>, Door, Vec<Group>), Unregistered>
    where
        F: Drop,
        requires phase { phase ≤ 2147483647 }
        requires counts { length counts.now ≤ length (leaves_of shape) }
        ensures begun { IfOk result (λ r. BeginsWith shape phase advance counts.now r.0 r.1 r.2.items) }
        ensures refused { IfErr result (λ fault. BeginsNot TRIES shape phase advance.plan counts.now fault) }
    {
        let leaves = shape.leaves(alloc)?;
        let (tree, mut door) = Tree::new(alloc, shape, phase, advance)?;
        let groups = register_leaves(alloc, &tree.tiers, rt, &mut door, phase, &leaves, counts)?;
        Ok((tree, door, groups))
    }
}
