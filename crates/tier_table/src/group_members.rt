//! Registrations and departures of groups of tokens.

ghost use Rattle.std.specs.Prelude.{◌≡◌, ◌<◌, ◌≤◌, ℕ, Some, MatchResult, length};
ghost use Rattle.advance_rule.specs.Stored.{Answers};
ghost use Rattle.advance_rule.specs.Plan.{end_ends_at};
ghost use Rattle.tier_calls.specs.ArrivesWith.{OnlySplit};
ghost use Rattle.tier_calls.specs.JoinsAll.{JoinsAll};
ghost use Rattle.tier_calls.specs.JoinsAll as joins_all;
ghost use Rattle.tier_calls.specs.LeavesAll.{LeavesAll};
ghost use Rattle.tier_calls.specs.LeavesAll as leaves_all;
ghost use Rattle.tier_calls.specs.RegistersAll.{RegistersAll};
ghost use Rattle.tier_calls.specs.RegistersAll as registers_all;
ghost use Rattle.tier_table.specs.GroupsAtLast.{HaveLookedOn};
ghost use Rattle.tier_table.specs.GroupMembersAtLast.{JoinsAllAtLast, LeavesAllAtLast, OthersJoin, RegistersAllAtLast, HasEndedJoining, HasEndedLeaving, HasEndedRegistering, tokens_joined, tree_left, tree_registered};

use crate::groups::Group;
use crate::tree::Tree;
use crate::waiting::{ArrivedAtLast, RegisteredAtLast, register_wait, resume_wait};
use advance_rule::StoredAdvance;
use std::sync::Wait;
use std::thread;
use tier_calls::TRIES;
pub use tier_calls::joining_all::JoinedAll;
pub use tier_calls::leaving_all::LeftAll;
pub use tier_calls::registering_all::RegisteredAll;
use tier_calls::tiers::Tiers;
use tier_calls::tokens::{Crew, Door};

/// The answer of new members that join a group.
#[derive(Drop)]
pub enum GroupJoined {
    /// The new members have joined, and have not arrived in this phase, like all of the group.
    Joined(Group, u32),
    /// The tier has this many parties, and 65535 is the most, so the new members have no room. Nobody has joined.
    Full(Group, u32),
    /// The group's members have arrived in this phase, so they can't keep the tier from passing to the next one. Nobody has
    /// joined. Join once the phase has passed.
    AlreadyArrived(Group, u32),
    /// The tree has ended, and shows this number as its phase, which is negative. Nobody can join any more.
    Ended(Group, i32),
}

/// The answer of a departure of a whole group.
#[derive(Drop)]
pub enum GroupLeft {
    /// All members have left in this phase, and the door has none. The flag `led` is true if the call itself advanced the
    /// tree.
    Left(Door, u32, bool),
    /// All members had arrived in this phase before, so none could leave in it. Leave once the phase has passed.
    AlreadyArrived(Group, u32),
    /// The tree has ended, and shows this number as its phase, which is negative. Nobody has to leave any more.
    Ended(Group, i32),
}

/// The answer of a registration of a group that waits.
#[derive(Drop)]
pub enum GroupRegistered {
    /// All members have registered, and have not arrived in this phase.
    Joined(Group, u32),
    /// The first member has registered, and the others have not: their tier has this many parties, and no room for them.
    /// Register them elsewhere, or let the group leave.
    Partly(Group, u32),
    /// There is no room: a tier of the path has this many parties, and 65535 is the most. Nobody has registered.
    Full(Door, u32),
    /// The tree has ended, and shows this number as its phase, which is negative. Nobody has registered.
    Ended(Door, i32),
    /// The same, but the tree ended after the first member had registered.
    PartlyEnded(Group, i32),
}

// Tries once to register new members beside a group. Returns the group as an error if the tries were used up.
fn join_all_once(tiers: &Tiers, door: &mut Door, group: Group, n: u32) -> Result<GroupJoined, Group>
    requires own { (door.old.tree ≡ tiers.now) × (group.tree ≡ tiers.now) }
    ensures one { group.view.size ≡ 1 }
    ensures door { OnlySplit door.old door.new }
    ensures answer { MatchResult result (λ a. JoinsAllAtLast TRIES n group a) (λ next. HaveLookedOn group next) }
    ensures ended { (phase : ℕ) → group.view.end_seen ≡ Some phase → MatchResult result HasEndedJoining (λ next. ⊥) }
{
    // For the prover: each token has one member.
    let _ = group.size();
    match tiers.join_all(group, door, n, TRIES) {
        JoinedAll::Joined(group, phase) => Ok(GroupJoined::Joined(group, phase)),
        JoinedAll::Full(group, parties) => Ok(GroupJoined::Full(group, parties)),
        JoinedAll::AlreadyArrived(group, phase) => Ok(GroupJoined::AlreadyArrived(group, phase)),
        JoinedAll::Ended(group, shown) => Ok(GroupJoined::Ended(group, shown)),
        JoinedAll::Busy(next) => Err(next),
    }
}

/// Registers `n` new members beside a group whose members have not arrived, by one exchange of their tier's word.
pub fn join_all_wait<R: Wait>(
    tiers: &Tiers,
    rt: &R,
    door: &mut Door,
    group: Group,
    n: u32,
) -> GroupJoined
    requires own { (door.old.tree ≡ tiers.now) × (group.tree ≡ tiers.now) }
    ensures door { OnlySplit door.old door.new }
    ensures tree { (tokens_joined result).tree ≡ group.tree }
    ensures answer { JoinsAllAtLast TRIES n group result }
    ensures ended { (phase : ℕ) → group.view.end_seen ≡ Some phase → HasEndedJoining result }
{
    let mut group = group;
    for _ in rt.forever() {
        match join_all_once(tiers, door, group, n) {
            Ok(answer) => return answer,
            Err(next) => group = next,
        }
        thread::yield_now();
    }
    unreachable!()
}

// Tries once to let all members leave. Returns the group as an error if the tries were used up.
fn leave_all_once<R: Wait, F: Fn(u32, u32) -> bool>(
    tiers: &Tiers,
    rt: &R,
    group: Group,
    rule: &StoredAdvance<F>,
) -> Result<GroupLeft, Group>
    requires own { group.tree ≡ tiers.now }
    requires rule { Answers (F.pre rule.now.closure) (F.post rule.now.closure) (end_ends_at rule.now.plan) }
    requires plan { rule.now.plan ≡ tiers.now.key.plan }
    ensures one { group.view.size ≡ 1 }
    ensures answer { MatchResult result (λ a. LeavesAllAtLast TRIES group a) (λ next. HaveLookedOn group next) }
    ensures ended { (phase : ℕ) → group.view.end_seen ≡ Some phase → MatchResult result HasEndedLeaving (λ next. ⊥) }
{
    // For the prover: each token has one member.
    let _ = group.size();
    match tiers.leave_all(group, TRIES) {
        LeftAll::Left(door, phase) => Ok(GroupLeft::Left(door, phase, false)),
        LeftAll::AlreadyArrived(group, phase) => Ok(GroupLeft::AlreadyArrived(group, phase)),
        LeftAll::Ended(group, shown) => Ok(GroupLeft::Ended(group, shown)),
        LeftAll::Busy(next) => Err(next),
        LeftAll::Owing(errand) => match resume_wait(tiers, rt, errand, rule) {
            ArrivedAtLast::Left(door, phase, led) => Ok(GroupLeft::Left(door, phase, led)),
            ArrivedAtLast::Done(crew, _, _) => {
                // For the prover: a crew has members.
                let _ = crew.size();
                unreachable!()
            }
            ArrivedAtLast::AlreadyArrived(_, _) | ArrivedAtLast::Ended(_, _) => unreachable!(),
        },
    }
}

/// Lets all members of a group leave, as Java's `arriveAndDeregister` by each of them, by one exchange of their tier's
/// word.
pub fn leave_all_wait<R: Wait, F: Fn(u32, u32) -> bool>(
    tiers: &Tiers,
    rt: &R,
    group: Group,
    rule: &StoredAdvance<F>,
) -> GroupLeft
    requires own { group.tree ≡ tiers.now }
    requires rule { Answers (F.pre rule.now.closure) (F.post rule.now.closure) (end_ends_at rule.now.plan) }
    requires plan { rule.now.plan ≡ tiers.now.key.plan }
    ensures tree { tree_left result ≡ group.tree }
    ensures answer { LeavesAllAtLast TRIES group result }
    ensures ended { (phase : ℕ) → group.view.end_seen ≡ Some phase → HasEndedLeaving result }
{
    let mut group = group;
    for _ in rt.forever() {
        match leave_all_once(tiers, rt, group, rule) {
            Ok(answer) => return answer,
            Err(next) => group = next,
        }
        thread::yield_now();
    }
    unreachable!()
}

// Registers `n` new members beside a crew of one member that has just registered.
fn join_others<R: Wait>(tiers: &Tiers, rt: &R, mut crew: Crew, n: u32) -> GroupRegistered
    requires own { crew.tree ≡ tiers.now }
    requires one { crew.view.size ≡ 1 }
    requires unarrived { crew.view.arrived ≡ 0 }
    ensures { OthersJoin TRIES crew n result }
{
    let mut door = tiers.open_beside(&mut crew);
    match join_all_wait(tiers, rt, &mut door, Group::of(crew), n) {
        GroupJoined::Joined(group, phase) => GroupRegistered::Joined(group, phase),
        GroupJoined::Full(group, parties) => GroupRegistered::Partly(group, parties),
        GroupJoined::Ended(group, shown) => GroupRegistered::PartlyEnded(group, shown),
        GroupJoined::AlreadyArrived(_, _) => unreachable!(),
    }
}

/// Registers `n` new members at `tier`, as Java's `bulkRegister`, but each is the one member of a token of its own. First
/// registers one as `register_wait` does, and then the others beside it by one exchange.
pub fn register_all_wait<R: Wait>(
    tiers: &Tiers,
    rt: &R,
    door: Door,
    tier: u16,
    n: u32,
) -> GroupRegistered
    requires own { door.tree ≡ tiers.now }
    requires tier { tier < length tiers.now.key.shape }
    requires some { 0 < n }
    ensures tree { tree_registered result ≡ tiers.now }
    ensures answer { RegistersAllAtLast TRIES tiers.now tier n result }
    ensures ended { (phase : ℕ) → door.view.end_seen ≡ Some phase → HasEndedRegistering result }
{
    match register_wait(tiers, rt, door, tier, 1) {
        RegisteredAtLast::Joined(crew, phase) => {
            if n == 1 {
                return GroupRegistered::Joined(Group::of(crew), phase);
            }
            join_others(tiers, rt, crew, n - 1)
        }
        RegisteredAtLast::Full(door, parties) => GroupRegistered::Full(door, parties),
        RegisteredAtLast::Ended(door, shown) => GroupRegistered::Ended(door, shown),
    }
}

impl<F: Fn(u32, u32) -> bool> Tree<F> {
    /// Registers `n` new members beside those of `group`, who have not arrived, with at most `tries` tries. Each is the one
    /// member of a new token. The tokens are split off `door`. See [`JoinedAll`] for the answers.
    pub fn join_all(&self, group: Group, door: &mut Door, n: u32, tries: u32) -> JoinedAll
        requires own { (door.old.tree ≡ self.now.tree) × (group.tree ≡ self.now.tree) }
        ensures answer { JoinsAll tries n group result }
        ensures ended { (phase : ℕ) → group.view.end_seen ≡ Some phase → joins_all.HasEnded result }
        ensures door { OnlySplit door.old door.new }
    {
        self.tiers.join_all(group, door, n, tries)
    }

    /// Registers `n` new members beside those of `group`, who have not arrived. Each is the one member of a new token. The
    /// tokens are split off `door`.
    pub fn join_all_wait<R: Wait>(
        &self,
        rt: &R,
        door: &mut Door,
        group: Group,
        n: u32,
    ) -> GroupJoined
        requires own { (door.old.tree ≡ self.now.tree) × (group.tree ≡ self.now.tree) }
        ensures door { OnlySplit door.old door.new }
        ensures tree { (tokens_joined result).tree ≡ group.tree }
        ensures answer { JoinsAllAtLast TRIES n group result }
        ensures ended { (phase : ℕ) → group.view.end_seen ≡ Some phase → HasEndedJoining result }
    {
        join_all_wait(&self.tiers, rt, door, group, n)
    }

    /// Registers `n` new members at `tier` by `door`, a token of this tree, with at most `tries` tries for the first and as
    /// many for the others. Each is the one member of a token. See [`RegisteredAll`] for the answers.
    pub fn register_all(&self, door: Door, tier: u16, n: u32, tries: u32) -> RegisteredAll
        requires own { door.tree ≡ self.now.tree }
        requires tier { tier < length self.now.tree.key.shape }
        requires some { 0 < n }
        ensures answer { RegistersAll door tier n tries result }
        ensures ended { (phase : ℕ) → door.view.end_seen ≡ Some phase → registers_all.HasEnded result }
    {
        self.tiers.register_all(door, tier, n, tries)
    }

    /// Registers `n` new members at `tier` by `door`, a token of this tree. Each is the one member of a token. Waits as
    /// `register_wait` does.
    pub fn register_all_wait<R: Wait>(
        &self,
        rt: &R,
        door: Door,
        tier: u16,
        n: u32,
    ) -> GroupRegistered
        requires own { door.tree ≡ self.now.tree }
        requires tier { tier < length self.now.tree.key.shape }
        requires some { 0 < n }
        ensures tree { tree_registered result ≡ self.now.tree }
        ensures answer { RegistersAllAtLast TRIES self.now.tree tier n result }
        ensures ended { (phase : ℕ) → door.view.end_seen ≡ Some phase → HasEndedRegistering result }
    {
        register_all_wait(&self.tiers, rt, door, tier, n)
    }

    /// Lets all members of `group` leave, as Java's `arriveAndDeregister` by each of them, with at most `tries` tries. They
    /// are counted by one exchange, however many they are. See [`LeftAll`] for the answers.
    pub fn leave_all(&self, group: Group, tries: u32) -> LeftAll
        requires own { group.tree ≡ self.now.tree }
        ensures answer { LeavesAll group tries result }
        ensures ended { (phase : ℕ) → group.view.end_seen ≡ Some phase → leaves_all.HasEnded result }
    {
        self.tiers.leave_all(group, tries)
    }

    /// Lets all members of `group` leave, as Java's `arriveAndDeregister` by each of them. They are counted by one exchange,
    /// however many they are.
    pub fn leave_all_wait<R: Wait>(&self, rt: &R, group: Group) -> GroupLeft
        requires own { group.tree ≡ self.now.tree }
        requires rule { Answers (F.pre self.now.rule.closure) (F.post self.now.rule.closure) (end_ends_at self.now.rule.plan) }
        ensures tree { tree_left result ≡ group.tree }
        ensures answer { LeavesAllAtLast TRIES group result }
        ensures ended { (phase : ℕ) → group.view.end_seen ≡ Some phase → HasEndedLeaving result }
    {
        leave_all_wait(&self.tiers, rt, group, &self.rule)
    }
}
