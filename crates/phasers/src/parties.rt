//! Members of a tree that arrive together. One exchange of a word counts all of them, however many they are.

ghost use Rattle.std.specs.Prelude.{◌≡◌, ◌<◌, ◌≤◌, ◌+◌, ◌-◌, ℕ, Some, [], All, IfErr, IfOk, MatchResult, length};
ghost use Rattle.std.specs.Vec.{vec_capacity};
ghost use Rattle.tier_calls.specs.ArrivesAll.{PollsAll, AllCaughtUpBy};
ghost use Rattle.tier_calls.specs.ArrivesWith.{OnlySplit};
ghost use Rattle.tier_calls.specs.Polls as polls;
ghost use Rattle.tier_calls.specs.Splits.{SplitAt};
ghost use Rattle.tier_calls.specs.Waited.{PollAllWaited};
ghost use Rattle.tier_table.specs.GroupsAtLast.{ArrivesAllAtLast, ArrivesWithAtLast, AwaitsAll, AwaitsAllWithin, MeetsAll, MeetsAllWithin, HasEndedAll, tokens_arrived};
ghost use Rattle.tier_table.specs.AtLast.{HasEndedWait};
ghost use Rattle.tier_table.specs.Beginning.{AreAtLeaves, HaveRoom};
ghost use Rattle.tier_table.specs.GroupMembersAtLast.{JoinsAllAtLast, LeavesAllAtLast, RegistersAllAtLast, HasEndedJoining, HasEndedLeaving, HasEndedRegistering, tree_registered};
ghost use Rattle.tier_shape.specs.Leaves.{leaves_of};
ghost use Rattle.tier_shape.specs.Preferred.{leaf_at};
ghost use Rattle.phasers.specs.Together.{BeginsIn, BeginsNotIn, JoinsNot, LeavesSome, group_arrived, group_joined, group_left, group_registered};

use crate::shared::SharedTree;
use crate::tree::{Guest, NoHook, OnAdvance, PhaserTree, Polled};
use std::alloc::{AllocError, Global};
use std::marker::Model;
use std::sync::Wait;
use tier_calls::tokens::Door;
use tier_table::TRIES;
use tier_table::beginning::{Unregistered, register_leaves};
use tier_table::group_members::{
    GroupJoined, GroupLeft, GroupRegistered, join_all_wait, register_all_wait,
};
use tier_table::groups::{Group, GroupArrived, await_advance_all, await_all_within};
use tier_table::waiting::{AwaitedAdvance, Patience, TimedOut, Unlimited};

/// Some members of a tree, all at one tier and in one phase. They arrive together, by one exchange of a word, and so they
/// have all arrived in their phase or none has.
///
/// Use it for a thread that takes part for many, such as the tasks that it runs. Its size in memory doesn't depend on how
/// many they are. If it is dropped, its members stay registered, and the tree waits for them forever. Let them leave first.
///
/// ```
/// let plan = EndPlan::at_phase(2);
/// let mut tree = PhaserTree::from_widths(rt.alloc(), "2", plan).expect(&rt, "a tree");
/// let mut guest = tree.guest();
/// if let JoinedParties::Joined(parties, _) = guest.split().join_all(&rt, 0, 1000) {
///     // In phase 0 one of the thousand leaves, three join, and all others arrive. Nobody else takes part, so it advances.
///     if let PartiesArrived::Done { parties, led, .. } = parties.arrive_with(&rt, 3, 1) {
///         assert!(rt; led && parties.size() == 1002 && parties.phase() == 1);
///         // All meet in phase 1, and the tree ends with phase 2.
///         let (parties, answer) = parties.meet_all(&rt);
///         assert!(rt; answer == AwaitedAdvance::Passed(2));
///         let (_, answer) = parties.meet_all(&rt);
///         assert!(rt; matches!(answer, AwaitedAdvance::Ended(_)));
///     }
/// }
/// ```
#[derive(Drop)]
pub struct Parties<'a, A: OnAdvance = NoHook> {
    shared: &'a SharedTree<A>,
    group: Group,
    door: Door,
}

impl<'a, A: OnAdvance> Model for Parties<'a, A> {
    ghost use Rattle.std.specs.Prelude.{◌≡◌};
    ghost use Rattle.tier_calls.specs.Groups.{GroupHeld};

    ghost Value = { GroupHeld };

    ghost view = { λ p. p.group };

    ghost invariant = { λ p. (p.group.tree ≡ p.shared.now) × (p.door.tree ≡ p.shared.now) };
}

/// The answer of a registration of several members: [`Guest::join_all`](crate::tree::Guest::join_all).
#[derive(Drop)]
#[must_use]
pub enum JoinedParties<'a, A: OnAdvance = NoHook> {
    /// All members have joined. They are unarrived in this phase: meet by the parties.
    Joined(Parties<'a, A>, u32),
    /// The first member has joined, and the others have not: their tier has this many parties, and 65535 is the most.
    Partly(Parties<'a, A>, u32),
    /// There is no room: a tier of the path has this many parties, and 65535 is the most. Nobody has joined.
    Full(Guest<'a, A>, u32),
    /// The tree has ended, and shows this number as its phase, which is negative. Nobody has joined.
    Ended(Guest<'a, A>, i32),
    /// The same, but the tree ended after the first member had joined.
    PartlyEnded(Parties<'a, A>, i32),
}

/// Why members have not joined at all leaves: [`PhaserTree::with_parties`](crate::tree::PhaserTree::with_parties).
#[derive(Drop)]
pub enum Unjoined<'a, A: OnAdvance = NoHook> {
    /// Out of memory. Nobody has joined. Try again once there is memory.
    Memory(AllocError),
    /// The leaf `tier` is the first that was to have more members than 65535, the most that a tier has room for. Nobody has
    /// joined. Make a tree with more leaves, or have fewer members at this one.
    Full {
        /// The leaf.
        tier: u16,
        /// How many members it was to have.
        members: u32,
    },
    /// There are more counts than leaves. Nobody has joined.
    NoLeaf {
        /// The number of leaves.
        leaves: usize,
    },
    /// Others use the tree too, and the members of the leaf `tier` have not joined in the phase. Those of the leaves before
    /// it have. Go on with them, or let them leave: as long as they are unarrived, no phase can pass.
    Stopped {
        /// The members of the leaves before it.
        parties: Vec<Parties<'a, A>>,
        /// The leaf.
        tier: u16,
        /// What it answered: there was no room beside the members of others, the tree has ended, or the members have joined
        /// in another phase.
        answer: JoinedParties<'a, A>,
    },
}

/// The answer of an arrival of all members.
#[derive(Drop)]
#[must_use]
pub enum PartiesArrived<'a, A: OnAdvance = NoHook> {
    /// All members have arrived, or have left.
    Done {
        /// The members. New ones come first.
        parties: Parties<'a, A>,
        /// The phase in which they arrived.
        phase: u32,
        /// Whether the call took the advance.
        led: bool,
    },
    /// The tier has this many parties, and 65535 is the most, so the new members have no room. Nobody was counted.
    Full(Parties<'a, A>, u32),
    /// All members had arrived in this phase before, and nobody was counted. Call `await_advance` first.
    AlreadyArrived(Parties<'a, A>, u32),
    /// The tree has ended, and shows this number as its phase, which is negative. Stop.
    Ended(Parties<'a, A>, i32),
}

/// The answer of [`Parties::bring_all`].
#[derive(Drop)]
#[must_use]
pub enum PartiesBrought<'a, A: OnAdvance = NoHook> {
    /// The new members have joined. Like the others, they have not arrived in this phase.
    Joined(Parties<'a, A>, u32),
    /// The tier has this many parties, and 65535 is the most, so the new members have no room. Nobody has joined.
    Full(Parties<'a, A>, u32),
    /// All members have arrived in this phase, and nobody has joined. Bring others before the members arrive, or in the next
    /// phase.
    AlreadyArrived(Parties<'a, A>, u32),
    /// The tree has ended, and shows this number as its phase, which is negative. Nobody can join any more.
    Ended(Parties<'a, A>, i32),
}

/// The answer of [`Parties::leave_all`].
#[derive(Drop)]
#[must_use]
pub enum PartiesLeft<'a, A: OnAdvance = NoHook> {
    /// All members have left. Register by the guest to take part again, or drop it.
    Left {
        /// A token without members.
        guest: Guest<'a, A>,
        /// The phase in which the members left.
        phase: u32,
        /// Whether the call took the advance.
        led: bool,
    },
    /// All members had arrived in this phase before, so none could leave in it. Call `await_advance` first.
    AlreadyArrived(Parties<'a, A>, u32),
    /// The tree has ended, and shows this number as its phase, which is negative. Nobody has to leave any more.
    Ended(Parties<'a, A>, i32),
}

impl<'a, A: OnAdvance> Guest<'a, A> {
    /// Registers `members` members at `tier`, as parties that arrive together. Waits as [`Guest::register`] does.
    pub fn register_all<R: Wait>(self, rt: &R, tier: u16, members: u32) -> JoinedParties<'a, A>
        requires tier { tier < length self.tree.key.shape }
        requires members { 0 < members }
        ensures answer { RegistersAllAtLast TRIES self.entry.tree tier members (group_registered result) }
        ensures ended { (phase : ℕ) → self.entry.view.end_seen ≡ Some phase → HasEndedRegistering (group_registered result) }
    {
        let Guest {
            shared,
            door: mut first,
        } = self;
        let door = shared.tiers.open_door(&mut first);
        let answer = register_all_wait(&shared.tiers, rt, first, tier, members);
        JoinedParties::of(shared, door, answer)
    }

    /// Registers `members` members at the leaf of this number, as parties that arrive together. Leaves are numbered from 0;
    /// after the last, numbers start again at the first. Waits as [`Guest::join`] does, and has the same danger: a thread
    /// with an unarrived member brings others by [`Parties::bring_all`].
    pub fn join_all<R: Wait>(self, rt: &R, number: usize, members: u32) -> JoinedParties<'a, A>
        requires members { 0 < members }
        ensures answer { RegistersAllAtLast TRIES self.entry.tree (leaf_at (leaves_of self.entry.tree.key.shape) number) members (group_registered result) }
        ensures ended { (phase : ℕ) → self.entry.view.end_seen ≡ Some phase → HasEndedRegistering (group_registered result) }
    {
        let tier = self.shared.leaf(number);
        self.register_all(rt, tier, members)
    }

    /// Registers members at the leaves, as many at each as `counts` has in its place, and returns one [`Parties`] for each
    /// leaf that has some, in the order of the leaves. All join in this guest's phase, so split a new guest for it, or call
    /// [`PhaserTree::with_parties`]. A leaf without a count gets none. Waits as [`Guest::join`] does.
    pub fn join_leaves<R: Wait>(
        &mut self,
        alloc: Global,
        rt: &R,
        counts: &[u32],
    ) -> Result<Vec<Parties<'a, A>>, Unjoined<'a, A>>
        ensures same { OnlySplit self.old self.new }
        ensures capacity { IfOk result (λ all. (length counts.now ≤ length (leaves_of self.old.tree.key.shape)) × HaveRoom counts.now) }
        ensures joined { IfOk result (λ all. AreAtLeaves self.old.tree self.old.view.phase (leaves_of self.old.tree.key.shape) counts.now all.items) }
        ensures refused { IfErr result (λ fault. JoinsNot TRIES self.old.tree self.old.view.phase counts.now fault) }
    {
        let shared = self.shared;
        let leaves = shared.leaves();
        if counts.len() > leaves.len() {
            let leaves = leaves.len();
            return Err(Unjoined::NoLeaf { leaves });
        }
        let phase = self.door.phase();
        let Ok(parties) = Vec::with_capacity(alloc, counts.len()) else {
            return Err(Unjoined::Memory(AllocError));
        };
        match register_leaves(
            alloc,
            &shared.tiers,
            rt,
            &mut self.door,
            phase,
            leaves,
            counts,
        ) {
            Ok(groups) => Ok(parties_of(shared, &mut self.door, groups, parties)),
            Err(Unregistered::Memory(fault)) => Err(Unjoined::Memory(fault)),
            Err(Unregistered::Full { tier, members }) => Err(Unjoined::Full { tier, members }),
            Err(
                Unregistered::Stopped {
                    groups,
                    tier,
                    answer,
                },
            ) => {
                let parties = parties_of(shared, &mut self.door, groups, parties);
                let door = shared.tiers.open_door(&mut self.door);
                let answer = JoinedParties::of(shared, door, answer);
                Err(Unjoined::Stopped {
                    parties,
                    tier,
                    answer,
                })
            }
        }
    }
}

impl<A: OnAdvance> PhaserTree<A> {
    /// Registers members at the leaves, as many at each as `counts` has in its place, and returns a new guest and one
    /// [`Parties`] for each leaf that has some, in the order of the leaves. All are unarrived in the guest's phase, which is
    /// the tree's. A leaf without a count gets none.
    ///
    /// Call it right after the tree is made, and then give each thread its parties: no phase passes before all of them have
    /// arrived. Only tokens from before the call could make it wait, or return [`Unjoined::Stopped`]; none is left then, as
    /// each borrows the tree. But no contract says so.
    pub fn with_parties<R: Wait>(
        &mut self,
        alloc: Global,
        rt: &R,
        counts: &[u32],
    ) -> Result<(Guest<'_, A>, Vec<Parties<'_, A>>), Unjoined<'_, A>>
        ensures joined { IfOk result (λ r. BeginsIn self.old.tree counts.now r.0 r.1.items) }
        ensures refused { IfErr result (λ fault. BeginsNotIn TRIES self.old.tree counts.now fault) }
    {
        let mut guest = self.guest();
        match guest.join_leaves(alloc, rt, counts) {
            Ok(parties) => Ok((guest, parties)),
            Err(fault) => Err(fault),
        }
    }
}

// Appends parties of the groups to `parties`, which is empty and has room for them. Each has a token that is split off `door`.
fn parties_of<'a, A: OnAdvance>(
    shared: &'a SharedTree<A>,
    door: &mut Door,
    groups: Vec<Group>,
    mut parties: Vec<Parties<'a, A>>,
) -> Vec<Parties<'a, A>>
    requires own { door.old.tree ≡ shared.now }
    requires groups { All (λ group. group.tree ≡ shared.now) groups.items }
    requires empty { parties.items ≡ [] }
    requires capacity { length groups.items ≤ vec_capacity parties }
    ensures door { OnlySplit door.old door.new }
    ensures same { result.items ≡ groups.items }
{
    for group in groups {
        let door = shared.tiers.open_door(door);
        parties.push_reserved(Parties::of(shared, group, door));
    }
    parties
}

impl<'a, A: OnAdvance> Parties<'a, A> {
    // Makes one of a group of this tree.
    fn of(shared: &'a SharedTree<A>, group: Group, door: Door) -> Parties<'a, A>
        requires own { (group.tree ≡ shared.now) × (door.tree ≡ shared.now) }
        ensures { result ≡ group }
    {
        Parties {
            shared,
            group,
            door,
        }
    }

    /// Returns the number of members, from 1 to 65535.
    pub fn size(&self) -> u32
        ensures size { result ≡ length self.now.tokens }
        ensures some { 0 < length self.now.tokens }
        ensures one { self.now.view.size ≡ 1 }
    {
        self.group.size()
    }

    /// Returns the tier of the members.
    pub fn tier(&self) -> u16
        ensures { result ≡ self.now.view.tier }
    {
        self.group.tier()
    }

    /// Returns the phase of the members, as they saw the root last.
    pub fn phase(&self) -> u32
        ensures { result ≡ self.now.view.phase }
    {
        self.group.phase()
    }

    /// Splits the members: these keep the first `n`, and the others go to the parties that are returned.
    pub fn split_off(&mut self, n: u32) -> Parties<'a, A>
        requires count { (0 < n) × (n < length self.old.tokens) }
        ensures { SplitAt n self.old self.new result }
    {
        let shared = self.shared;
        let door = shared.tiers.open_door(&mut self.door);
        let group = shared.tiers.split_at(&mut self.group, n);
        Parties::of(shared, group, door)
    }

    /// Lets all members arrive, as Java's `arrive` by each of them. Never returns `Full`.
    pub fn arrive_all<R: Wait>(self, rt: &R) -> PartiesArrived<'a, A>
        ensures answer { ArrivesAllAtLast TRIES self.entry (group_arrived result) }
        ensures ended { (phase : ℕ) → self.entry.view.end_seen ≡ Some phase → HasEndedAll (group_arrived result) }
    {
        let Parties {
            shared,
            group,
            door,
        } = self;
        PartiesArrived::of(shared, door, shared.arrive_all(rt, group))
    }

    /// By one exchange, `joining` new members join and arrive, `leaving` of the members leave, and the others arrive. At
    /// least one member has to arrive; if all leave, call [`Parties::leave_all`].
    pub fn arrive_with<R: Wait>(self, rt: &R, joining: u32, leaving: u32) -> PartiesArrived<'a, A>
        requires few { leaving ≤ length self.tokens }
        requires come { leaving < joining + length self.tokens }
        ensures answer { ArrivesWithAtLast TRIES joining leaving self.entry (group_arrived result) }
        ensures ended { (phase : ℕ) → self.entry.view.end_seen ≡ Some phase → HasEndedAll (group_arrived result) }
    {
        let Parties {
            shared,
            group,
            mut door,
        } = self;
        let answer = shared.arrive_with(rt, &mut door, group, joining, leaving);
        PartiesArrived::of(shared, door, answer)
    }

    /// Waits until the phase in which all members have arrived is over. Returns at once if they have not arrived, or the tree
    /// has ended. Returns `Passed` only after an advance of the tree that found every member of every party arrived in the
    /// members' phase.
    pub fn await_advance<R: Wait>(&mut self, rt: &R) -> AwaitedAdvance
        ensures answer { AwaitsAll self.old self.new result }
        ensures ended { (phase : ℕ) → self.old.view.end_seen ≡ Some phase → HasEndedWait result }
    {
        let shared = self.shared;
        await_advance_all(&shared.tiers, rt, &mut self.group)
    }

    // Waits as `await_advance` does, as long as `patience` lasts.
    pub(crate) fn await_within<R: Wait, P: Patience<R> + Drop>(
        &mut self,
        rt: &R,
        patience: P,
    ) -> Result<AwaitedAdvance, TimedOut>
        ensures answer { AwaitsAllWithin self.old self.new result }
        ensures ended { (phase : ℕ) → self.old.view.end_seen ≡ Some phase → MatchResult result HasEndedWait (λ fault. ⊥) }
    {
        let shared = self.shared;
        await_all_within(&shared.tiers, rt, &mut self.group, patience)
    }

    // Meets as `meet_all` does, as long as `patience` lasts.
    pub(crate) fn meet_within<R: Wait, P: Patience<R> + Drop>(
        self,
        rt: &R,
        patience: P,
    ) -> (Parties<'a, A>, Result<AwaitedAdvance, TimedOut>)
        ensures answer { MeetsAllWithin TRIES self.entry result.0 result.1 }
        ensures ended { (phase : ℕ) → self.entry.view.end_seen ≡ Some phase → MatchResult result.1 HasEndedWait (λ fault. ⊥) }
        ensures within { IfErr result.1 (λ fault. P.ends) }
    {
        let Parties {
            shared,
            group,
            door,
        } = self;
        let (group, answer) = shared.meet_all_within(rt, group, patience);
        (Parties::of(shared, group, door), answer)
    }

    /// Checks whether the phase in which all members have arrived is over. Doesn't wait.
    pub fn poll(&mut self) -> Polled
        ensures answer { PollsAll self.old self.new result }
        ensures waited { PollAllWaited self.old self.new result }
        ensures caught_up { AllCaughtUpBy result self.new }
        ensures ended { (phase : ℕ) → self.old.view.end_seen ≡ Some phase → polls.HasEnded result }
    {
        let shared = self.shared;
        shared.tiers.poll_all(&mut self.group)
    }

    /// Lets all members arrive, and waits until the phase is over. Returns the members and the answer of
    /// [`Parties::await_advance`]: `Passed` only after an advance of the tree that found every member of every party arrived
    /// in the members' phase.
    pub fn meet_all<R: Wait>(self, rt: &R) -> (Parties<'a, A>, AwaitedAdvance)
        ensures answer { MeetsAll TRIES self.entry result.0 result.1 }
        ensures ended { (phase : ℕ) → self.entry.view.end_seen ≡ Some phase → HasEndedWait result.1 }
    {
        let (parties, met) = self.meet_within(rt, Unlimited::new());
        match met {
            Ok(answer) => (parties, answer),
            Err(_) => unreachable!(),
        }
    }

    /// Registers `n` new members at the tier of these, who have not arrived. The new members belong to these parties.
    pub fn bring_all<R: Wait>(self, rt: &R, n: u32) -> PartiesBrought<'a, A>
        ensures answer { JoinsAllAtLast TRIES n self.entry (group_joined result) }
        ensures ended { (phase : ℕ) → self.entry.view.end_seen ≡ Some phase → HasEndedJoining (group_joined result) }
    {
        let Parties {
            shared,
            group,
            mut door,
        } = self;
        match join_all_wait(&shared.tiers, rt, &mut door, group, n) {
            GroupJoined::Joined(group, phase) => PartiesBrought::Joined(
                Parties::of(shared, group, door),
                phase,
            ),
            GroupJoined::Full(group, count) => PartiesBrought::Full(
                Parties::of(shared, group, door),
                count,
            ),
            GroupJoined::AlreadyArrived(group, phase) => PartiesBrought::AlreadyArrived(
                Parties::of(shared, group, door),
                phase,
            ),
            GroupJoined::Ended(group, shown) => PartiesBrought::Ended(
                Parties::of(shared, group, door),
                shown,
            ),
        }
    }

    /// Lets `n` of the members leave, by one exchange, and keeps the others, which don't arrive by it. If all members had
    /// arrived, or the tree has ended, nobody leaves, and the answer has those `n`.
    pub fn leave_some<R: Wait>(&mut self, rt: &R, n: u32) -> PartiesLeft<'a, A>
        requires count { (0 < n) × (n < length self.old.tokens) }
        ensures { LeavesSome TRIES n self.old self.new result }
    {
        let stay = self.size() - n;
        self.split_off(stay).leave_all(rt)
    }

    /// Lets all members leave, as Java's `arriveAndDeregister` by each of them, by one exchange.
    pub fn leave_all<R: Wait>(self, rt: &R) -> PartiesLeft<'a, A>
        ensures answer { LeavesAllAtLast TRIES self.entry (group_left result) }
        ensures ended { (phase : ℕ) → self.entry.view.end_seen ≡ Some phase → HasEndedLeaving (group_left result) }
    {
        let Parties {
            shared,
            group,
            door,
        } = self;
        match shared.leave_all(rt, group) {
            GroupLeft::Left(door, phase, led) => {
                let guest = Guest { shared, door };
                PartiesLeft::Left { guest, phase, led }
            }
            GroupLeft::AlreadyArrived(group, phase) => PartiesLeft::AlreadyArrived(
                Parties::of(shared, group, door),
                phase,
            ),
            GroupLeft::Ended(group, shown) => PartiesLeft::Ended(
                Parties::of(shared, group, door),
                shown,
            ),
        }
    }
}

impl<'a, A: OnAdvance> JoinedParties<'a, A> {
    // Makes the answer for a registration in this tree.
    fn of(shared: &'a SharedTree<A>, door: Door, answer: GroupRegistered) -> JoinedParties<'a, A>
        requires door { door.tree ≡ shared.now }
        requires group { tree_registered answer ≡ shared.now }
        ensures { group_registered result ≡ answer }
    {
        match answer {
            GroupRegistered::Joined(group, phase) => {
                JoinedParties::Joined(Parties::of(shared, group, door), phase)
            }
            GroupRegistered::Partly(group, count) => {
                JoinedParties::Partly(Parties::of(shared, group, door), count)
            }
            GroupRegistered::PartlyEnded(group, shown) => {
                JoinedParties::PartlyEnded(Parties::of(shared, group, door), shown)
            }
            GroupRegistered::Full(door, count) => {
                JoinedParties::Full(Guest { shared, door }, count)
            }
            GroupRegistered::Ended(door, shown) => {
                JoinedParties::Ended(Guest { shared, door }, shown)
            }
        }
    }
}

impl<'a, A: OnAdvance> PartiesArrived<'a, A> {
    // Makes the answer for a group of this tree.
    fn of(shared: &'a SharedTree<A>, door: Door, answer: GroupArrived) -> PartiesArrived<'a, A>
        requires door { door.tree ≡ shared.now }
        requires group { (tokens_arrived answer).tree ≡ shared.now }
        ensures { group_arrived result ≡ answer }
    {
        match answer {
            GroupArrived::Done(group, phase, led) => {
                let parties = Parties::of(shared, group, door);
                PartiesArrived::Done {
                    parties,
                    phase,
                    led,
                }
            }
            GroupArrived::Full(group, count) => PartiesArrived::Full(
                Parties::of(shared, group, door),
                count,
            ),
            GroupArrived::AlreadyArrived(group, phase) => PartiesArrived::AlreadyArrived(
                Parties::of(shared, group, door),
                phase,
            ),
            GroupArrived::Ended(group, shown) => PartiesArrived::Ended(
                Parties::of(shared, group, door),
                shown,
            ),
        }
    }
}
