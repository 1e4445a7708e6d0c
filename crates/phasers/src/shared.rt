//! What the tokens of a tree share: its tiers, the plan that ends it, its leaves, and the hook of its advances.

ghost use Rattle.std.specs.Prelude.{◌≡◌, ◌<◌, ◌≤◌, ◌+◌, ℕ, Some, [], length, IfErr, IfOk, MatchResult};
ghost use Rattle.advance_rule.specs.Plan.{end_ends_at};
ghost use Rattle.tier_steps.specs.View.{new_view};
ghost use Rattle.tier_steps.specs.Start.{empty_word};
ghost use Rattle.tier_calls.specs.Arrives.{Arrives, Resumes};
ghost use Rattle.tier_calls.specs.Arrives as arrives;
ghost use Rattle.tier_calls.specs.Led.{LedWaited, LedOnWaited, LedInPlaceWaited};
ghost use Rattle.tier_calls.specs.InPlace.{ArrivesInPlace};
ghost use Rattle.tier_calls.specs.InPlace as in_place;
ghost use Rattle.tier_shape.specs.Leaves.{leaves_of};
ghost use Rattle.tier_shape.specs.Preferred.{leaf_at};
ghost use Rattle.tier_steps.specs.declared.view.Passage.TheVariants.{Arrival, Departure};
ghost use Rattle.tier_table.specs.AtLast.{token_counted, ArrivesAtLast, LedAtLast, HasEndedArrival, HasEndedWait, PassedBy};
ghost use Rattle.tier_calls.specs.ArrivesWith.{OnlySplit};
ghost use Rattle.tier_table.specs.GroupsAtLast.{ArrivesAllAtLast, ArrivesWithAtLast, MeetsAllWithin, HasEndedAll, tokens_arrived};
ghost use Rattle.tier_table.specs.GroupMembersAtLast.{LeavesAllAtLast, HasEndedLeaving, tree_left};

use advance_rule::{EndPlan, StoredAdvance};
use std::alloc::{AllocError, Global};
use std::marker::Model;
use std::sync::Wait;
use tier_calls::arriving::{Arrived, Resumed};
use tier_calls::in_place::ArrivedInPlace;
use tier_calls::tiers::Tiers;
use tier_calls::tokens::{Crew, Door, Errand};
use tier_shape::Shape;
use tier_shape::leaves::leaf_at;
use tier_steps::view::Passage;
use tier_table::TRIES;
use tier_table::group_members::{GroupLeft, leave_all_wait};
use tier_table::groups::{Group, GroupArrived, arrive_all_wait, arrive_with_wait, meet_all_within};
use tier_table::waiting::{ArrivedAtLast, AwaitedAdvance, Patience, TimedOut, pass_wait};

/// An action at each advance of a tree (Java SE 21, `Phaser.onAdvance`).
///
/// The thread that takes the advance runs it before the next phase starts, so no party passes meanwhile. It must not
/// call the tree.
pub trait OnAdvance {
    /// Runs at the end of `phase`, with the number of parties registered at the root.
    fn run(&self, phase: u32, parties: u32);
}

/// Does nothing at an advance.
#[derive(Clone, Copy)]
pub struct NoHook;

impl OnAdvance for NoHook {
    fn run(&self, _phase: u32, _parties: u32) {}
}

/// The tiers of a tree, the plan that ends it, its leaves, and the hook of its advances.
#[derive(Drop)]
pub(crate) struct SharedTree<A: OnAdvance> {
    pub(crate) tiers: Tiers,
    plan: EndPlan,
    leaves: Vec<u16>,
    hook: A,
}

impl<A: OnAdvance> Model for SharedTree<A> {
    ghost use Rattle.std.specs.Prelude.{◌≡◌, ◌<◌, length};
    ghost use Rattle.tier_calls.specs.Holding.{Named};
    ghost use Rattle.tier_shape.specs.Leaves.{leaves_of};

    ghost Value = { Named };

    ghost view = { λ s. s.tiers };

    ghost invariant = { λ s. (s.tiers.key.plan ≡ s.plan) × (s.leaves.items ≡ leaves_of s.tiers.key.shape) × (0 < length s.leaves.items) };
}

impl<A: OnAdvance> SharedTree<A> {
    /// Creates empty tiers in `phase`, and the first token.
    pub(crate) fn new(
        alloc: Global,
        shape: Shape,
        phase: u32,
        plan: EndPlan,
        hook: A,
    ) -> Result<(SharedTree<A>, Door), AllocError>
    where
        A: Drop,
        requires { phase ≤ 2147483647 }
        ensures tree { IfOk result (λ r. r.0.key ≡ record { shape = shape; phase = phase; plan = plan }) }
        ensures token { IfOk result (λ r. (r.1.tree ≡ r.0) × (r.1.view ≡ new_view phase) × (r.1.tier ≡ 0) × (r.1.word ≡ empty_word phase) × (r.1.tried ≡ 0) × (r.1.steps ≡ []) × (r.1.opened ≡ 0)) }
    {
        let leaves = shape.leaves(alloc)?;
        let (tiers, door) = Tiers::new(alloc, shape, phase, plan)?;
        Ok((
            SharedTree {
                tiers,
                plan,
                leaves,
                hook,
            },
            door,
        ))
    }

    /// Returns the tier of the leaf of this number. After the last leaf, numbers start again at the first.
    pub(crate) fn leaf(&self, number: usize) -> u16
        ensures leaf { result ≡ leaf_at (leaves_of self.now.key.shape) number }
        ensures within { result < length self.now.key.shape }
    {
        leaf_at(&self.leaves, number)
    }

    /// Returns the tiers that are leaves.
    pub(crate) fn leaves(&self) -> &[u16]
        ensures { result.now ≡ leaves_of self.now.key.shape }
    {
        &self.leaves
    }

    // Runs the hook, and returns true if the tree ends at this advance.
    fn ends(&self, phase: u32, count: u32) -> bool
        ensures { result ≡ end_ends_at self.now.key.plan phase count }
    {
        self.hook.run(phase, count);
        self.plan.ends(phase, count == 0)
    }

    /// Lets a member of `crew` arrive, with at most `tries` tries.
    pub(crate) fn arrive(&self, crew: Crew, tries: u32) -> Arrived
        requires own { crew.tree ≡ self.now }
        ensures answer { Arrives Arrival crew tries result }
        ensures waited { LedWaited result }
        ensures found { arrives.FindsArrived crew result }
        ensures ended { (phase : ℕ) → crew.view.end_seen ≡ Some phase → arrives.HasEnded result }
    {
        let rule = StoredAdvance::new(|phase: u32, count: u32| self.ends(phase, count), self.plan);
        self.tiers.pass(crew, Passage::Arrival, &rule, tries)
    }

    /// Resumes an arrival that was counted, with at most `tries` tries.
    pub(crate) fn resume(&self, errand: Errand, tries: u32) -> Resumed
        requires own { errand.token.tree ≡ self.now }
        ensures answer { Resumes errand tries result }
        ensures waited { LedOnWaited result }
    {
        let rule = StoredAdvance::new(|phase: u32, count: u32| self.ends(phase, count), self.plan);
        self.tiers.pass_on(errand, &rule, tries)
    }

    /// Lets a member of `crew` arrive. The crew isn't moved.
    pub(crate) fn arrive_in_place<R: Wait>(&self, rt: &R, crew: &mut Crew) -> ArrivedInPlace
        requires own { crew.old.tree ≡ self.now }
        ensures answer { ArrivesInPlace crew.old crew.new result }
        ensures waited { LedInPlaceWaited crew.new result }
        ensures found { in_place.FindsArrived crew.old crew.new result }
        ensures ended { (phase : ℕ) → crew.old.view.end_seen ≡ Some phase → in_place.HasEnded result }
    {
        let rule = StoredAdvance::new(|phase: u32, count: u32| self.ends(phase, count), self.plan);
        self.tiers.arrive_in_place(rt, crew, &rule)
    }

    /// Lets a member of `crew` leave.
    pub(crate) fn leave_wait<R: Wait>(&self, rt: &R, crew: Crew) -> ArrivedAtLast
        requires own { crew.tree ≡ self.now }
        ensures answer { ArrivesAtLast Departure crew result }
        ensures waited { LedAtLast result }
        ensures unsplit { (token_counted result).opened ≡ crew.opened }
        ensures made { PassedBy Departure crew.steps result }
        ensures ended { (phase : ℕ) → crew.view.end_seen ≡ Some phase → HasEndedArrival result }
    {
        let rule = StoredAdvance::new(|phase: u32, count: u32| self.ends(phase, count), self.plan);
        pass_wait(&self.tiers, rt, crew, Passage::Departure, &rule)
    }

    /// Lets all members of `group` arrive.
    pub(crate) fn arrive_all<R: Wait>(&self, rt: &R, group: Group) -> GroupArrived
        requires own { group.tree ≡ self.now }
        ensures tree { (tokens_arrived result).tree ≡ group.tree }
        ensures answer { ArrivesAllAtLast TRIES group result }
        ensures ended { (phase : ℕ) → group.view.end_seen ≡ Some phase → HasEndedAll result }
    {
        let rule = StoredAdvance::new(|phase: u32, count: u32| self.ends(phase, count), self.plan);
        arrive_all_wait(&self.tiers, rt, group, &rule)
    }

    /// Lets `joining` new members join and arrive, `leaving` members of `group` leave, and the others arrive.
    pub(crate) fn arrive_with<R: Wait>(
        &self,
        rt: &R,
        door: &mut Door,
        group: Group,
        joining: u32,
        leaving: u32,
    ) -> GroupArrived
        requires own { (door.old.tree ≡ self.now) × (group.tree ≡ self.now) }
        requires few { leaving ≤ length group.tokens }
        requires come { leaving < joining + length group.tokens }
        ensures door { OnlySplit door.old door.new }
        ensures tree { (tokens_arrived result).tree ≡ group.tree }
        ensures answer { ArrivesWithAtLast TRIES joining leaving group result }
        ensures ended { (phase : ℕ) → group.view.end_seen ≡ Some phase → HasEndedAll result }
    {
        let rule = StoredAdvance::new(|phase: u32, count: u32| self.ends(phase, count), self.plan);
        arrive_with_wait(&self.tiers, rt, door, group, joining, leaving, &rule)
    }

    /// Lets all members of `group` arrive, and waits until the phase is over, as long as `patience` lasts.
    pub(crate) fn meet_all_within<R: Wait, P: Patience<R> + Drop>(
        &self,
        rt: &R,
        group: Group,
        patience: P,
    ) -> (Group, Result<AwaitedAdvance, TimedOut>)
        requires own { group.tree ≡ self.now }
        ensures tree { result.0.tree ≡ group.tree }
        ensures answer { MeetsAllWithin TRIES group result.0 result.1 }
        ensures ended { (phase : ℕ) → group.view.end_seen ≡ Some phase → MatchResult result.1 HasEndedWait (λ fault. ⊥) }
        ensures within { IfErr result.1 (λ fault. P.ends) }
    {
        let rule = StoredAdvance::new(|phase: u32, count: u32| self.ends(phase, count), self.plan);
        meet_all_within(&self.tiers, rt, group, &rule, patience)
    }

    /// Lets all members of `group` leave.
    pub(crate) fn leave_all<R: Wait>(&self, rt: &R, group: Group) -> GroupLeft
        requires own { group.tree ≡ self.now }
        ensures tree { tree_left result ≡ group.tree }
        ensures answer { LeavesAllAtLast TRIES group result }
        ensures ended { (phase : ℕ) → group.view.end_seen ≡ Some phase → HasEndedLeaving result }
    {
        let rule = StoredAdvance::new(|phase: u32, count: u32| self.ends(phase, count), self.plan);
        leave_all_wait(&self.tiers, rt, group, &rule)
    }
}
