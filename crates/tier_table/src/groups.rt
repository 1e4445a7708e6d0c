//! Groups of tokens in a tree. One exchange lets all members of a group arrive, however many they are.

ghost use Rattle.std.specs.Prelude.{◌≡◌, ◌<◌, ◌≤◌, ◌+◌, ℕ, Some, IfErr, IfSome, MatchResult, length};
ghost use Rattle.advance_rule.specs.Stored.{Answers};
ghost use Rattle.advance_rule.specs.Plan.{end_ends_at};
ghost use Rattle.tier_calls.specs.ArrivesAll.{ArrivesAll, PollsAll, AllCaughtUpBy};
ghost use Rattle.tier_calls.specs.ArrivesAll as arrives_all;
ghost use Rattle.tier_calls.specs.ArrivesWith.{ArrivesWith, OnlySplit};
ghost use Rattle.tier_calls.specs.ArrivesWith as arrives_with;
ghost use Rattle.tier_calls.specs.Finishes.{IsBeside, Finishes};
ghost use Rattle.tier_calls.specs.Polls as polls;
ghost use Rattle.tier_calls.specs.Splits.{SplitAt, AreTogether, Together};
ghost use Rattle.tier_calls.specs.Waited.{PollAllWaited};
ghost use Rattle.tier_table.specs.GroupsAtLast.{HaveLookedOn, FinishesAtLast, ArrivesAllAtLast, ArrivesWithAtLast, AwaitsAfter, AwaitsAll, AwaitsAllWithin, MeetsAll, MeetsAllWithin, HasEndedAll, tokens_arrived};
ghost use Rattle.tier_table.specs.AtLast.{HasEndedWait};

use crate::tree::Tree;
use crate::waiting::{ArrivedAtLast, AwaitedAdvance, resume_wait};
use advance_rule::StoredAdvance;
use std::sync::Wait;
use std::thread;
use tier_calls::arriving_with::ArrivedWith;
use tier_calls::finishing::Finished;
pub use tier_calls::groups::{ArrivedAll, Group};
use tier_calls::polling::Polled;
use tier_calls::tiers::Tiers;
use tier_calls::tokens::{Door, Errand};
use tier_calls::{Patience, TRIES, TimedOut, Unlimited};

/// The answer of an arrival of a whole group that waits until it is counted.
#[derive(Drop)]
pub enum GroupArrived {
    /// Every member has arrived in this phase, or has left in it. The flag `led` is true if the call itself advanced the
    /// tree. If it is false, other parties may still have to arrive: call `await_advance_all`.
    Done(Group, u32, bool),
    /// The tier has this many parties, and 65535 is the most, so the new members have no room. Nobody was counted.
    Full(Group, u32),
    /// All members had arrived in this phase before, so the call counted nobody. Call `await_advance_all` first.
    AlreadyArrived(Group, u32),
    /// The tree has ended, and shows this number as its phase, which is negative. The call counted nobody. Stop.
    Ended(Group, i32),
}

// Resumes an arrival of a group that was counted, until it is over.
fn finish_wait<R: Wait, F: Fn(u32, u32) -> bool>(
    tiers: &Tiers,
    rt: &R,
    errand: Errand,
    others: Option<Group>,
    rule: &StoredAdvance<F>,
) -> (Group, u32, bool)
    requires own { errand.token.tree ≡ tiers.now }
    requires one { errand.token.view.size ≡ 1 }
    requires beside { IfSome others (IsBeside errand.token) }
    requires rule { Answers (F.pre rule.now.closure) (F.post rule.now.closure) (end_ends_at rule.now.plan) }
    requires plan { rule.now.plan ≡ tiers.now.key.plan }
    ensures { FinishesAtLast errand.token others result.0 result.1 result.2 }
{
    match resume_wait(tiers, rt, errand, rule) {
        ArrivedAtLast::Done(crew, phase, led) => (tiers.whole(crew, others), phase, led),
        ArrivedAtLast::Left(door, _, _) => {
            // For the prover: a door has no members.
            let _ = door.phase();
            unreachable!()
        }
        ArrivedAtLast::AlreadyArrived(_, _) | ArrivedAtLast::Ended(_, _) => unreachable!(),
    }
}

// Tries once to let all members arrive. Returns the group as an error if the tries were used up.
fn arrive_all_once<R: Wait, F: Fn(u32, u32) -> bool>(
    tiers: &Tiers,
    rt: &R,
    group: Group,
    rule: &StoredAdvance<F>,
) -> Result<GroupArrived, Group>
    requires own { group.tree ≡ tiers.now }
    requires rule { Answers (F.pre rule.now.closure) (F.post rule.now.closure) (end_ends_at rule.now.plan) }
    requires plan { rule.now.plan ≡ tiers.now.key.plan }
    ensures one { group.view.size ≡ 1 }
    ensures answer { MatchResult result (λ a. ArrivesAllAtLast TRIES group a) (λ next. HaveLookedOn group next) }
    ensures ended { (phase : ℕ) → group.view.end_seen ≡ Some phase → MatchResult result HasEndedAll (λ next. ⊥) }
{
    // For the prover: each token has one member.
    let _ = group.size();
    match tiers.arrive_all(group, TRIES) {
        ArrivedAll::Done(group, phase) => Ok(GroupArrived::Done(group, phase, false)),
        ArrivedAll::AlreadyArrived(group, phase) => Ok(GroupArrived::AlreadyArrived(group, phase)),
        ArrivedAll::Ended(group, shown) => Ok(GroupArrived::Ended(group, shown)),
        ArrivedAll::Busy(next) => Err(next),
        ArrivedAll::Owing(errand, others) => {
            let (group, phase, led) = finish_wait(tiers, rt, errand, others, rule);
            Ok(GroupArrived::Done(group, phase, led))
        }
    }
}

/// Lets all members of `group` arrive, as Java's `arrive` by each of them, by one exchange of their tier's word. Never
/// returns `Full`.
pub fn arrive_all_wait<R: Wait, F: Fn(u32, u32) -> bool>(
    tiers: &Tiers,
    rt: &R,
    group: Group,
    rule: &StoredAdvance<F>,
) -> GroupArrived
    requires own { group.tree ≡ tiers.now }
    requires rule { Answers (F.pre rule.now.closure) (F.post rule.now.closure) (end_ends_at rule.now.plan) }
    requires plan { rule.now.plan ≡ tiers.now.key.plan }
    ensures tree { (tokens_arrived result).tree ≡ group.tree }
    ensures answer { ArrivesAllAtLast TRIES group result }
    ensures ended { (phase : ℕ) → group.view.end_seen ≡ Some phase → HasEndedAll result }
{
    let mut group = group;
    for _ in rt.forever() {
        match arrive_all_once(tiers, rt, group, rule) {
            Ok(answer) => return answer,
            Err(next) => group = next,
        }
        thread::yield_now();
    }
    unreachable!()
}

// Tries once to let all members arrive, with new ones, or leave. Returns the group as an error if the tries were used up.
fn arrive_with_once<R: Wait, F: Fn(u32, u32) -> bool>(
    tiers: &Tiers,
    rt: &R,
    door: &mut Door,
    group: Group,
    joining: u32,
    leaving: u32,
    rule: &StoredAdvance<F>,
) -> Result<GroupArrived, Group>
    requires own { (door.old.tree ≡ tiers.now) × (group.tree ≡ tiers.now) }
    requires few { leaving ≤ length group.tokens }
    requires come { leaving < joining + length group.tokens }
    requires rule { Answers (F.pre rule.now.closure) (F.post rule.now.closure) (end_ends_at rule.now.plan) }
    requires plan { rule.now.plan ≡ tiers.now.key.plan }
    ensures one { group.view.size ≡ 1 }
    ensures door { OnlySplit door.old door.new }
    ensures answer { MatchResult result (λ a. ArrivesWithAtLast TRIES joining leaving group a) (λ next. HaveLookedOn group next) }
    ensures ended { (phase : ℕ) → group.view.end_seen ≡ Some phase → MatchResult result HasEndedAll (λ next. ⊥) }
{
    // For the prover: each token has one member.
    let _ = group.size();
    match tiers.arrive_with(door, group, joining, leaving, TRIES) {
        ArrivedWith::Done(group, phase) => Ok(GroupArrived::Done(group, phase, false)),
        ArrivedWith::Full(group, parties) => Ok(GroupArrived::Full(group, parties)),
        ArrivedWith::AlreadyArrived(group, phase) => Ok(GroupArrived::AlreadyArrived(group, phase)),
        ArrivedWith::Ended(group, shown) => Ok(GroupArrived::Ended(group, shown)),
        ArrivedWith::Busy(next) => Err(next),
        ArrivedWith::Owing(errand, others) => {
            let (group, phase, led) = finish_wait(tiers, rt, errand, others, rule);
            Ok(GroupArrived::Done(group, phase, led))
        }
    }
}

/// Lets `joining` new members join the tier of `group` and arrive, `leaving` of the group's members leave, and the others
/// arrive, all by one exchange of their tier's word.
pub fn arrive_with_wait<R: Wait, F: Fn(u32, u32) -> bool>(
    tiers: &Tiers,
    rt: &R,
    door: &mut Door,
    group: Group,
    joining: u32,
    leaving: u32,
    rule: &StoredAdvance<F>,
) -> GroupArrived
    requires own { (door.old.tree ≡ tiers.now) × (group.tree ≡ tiers.now) }
    requires few { leaving ≤ length group.tokens }
    requires come { leaving < joining + length group.tokens }
    requires rule { Answers (F.pre rule.now.closure) (F.post rule.now.closure) (end_ends_at rule.now.plan) }
    requires plan { rule.now.plan ≡ tiers.now.key.plan }
    ensures door { OnlySplit door.old door.new }
    ensures tree { (tokens_arrived result).tree ≡ group.tree }
    ensures answer { ArrivesWithAtLast TRIES joining leaving group result }
    ensures ended { (phase : ℕ) → group.view.end_seen ≡ Some phase → HasEndedAll result }
{
    let mut group = group;
    for _ in rt.forever() {
        match arrive_with_once(tiers, rt, door, group, joining, leaving, rule) {
            Ok(answer) => return answer,
            Err(next) => group = next,
        }
        thread::yield_now();
    }
    unreachable!()
}

/// Waits as [`await_advance_all`] does, as long as `patience` lasts. Then fails with `TimedOut`: the members have arrived, are
/// still registered, and their phase was not over at the last look.
pub fn await_all_within<R: Wait, P: Patience<R> + Drop>(
    tiers: &Tiers,
    rt: &R,
    group: &mut Group,
    patience: P,
) -> Result<AwaitedAdvance, TimedOut>
    requires own { group.old.tree ≡ tiers.now }
    ensures tree { group.new.tree ≡ group.old.tree }
    ensures answer { AwaitsAllWithin group.old group.new result }
    ensures ended { (phase : ℕ) → group.old.view.end_seen ≡ Some phase → MatchResult result HasEndedWait (λ fault. ⊥) }
    ensures within { IfErr result (λ fault. P.ends) }
{
    // For the prover: each token has one member.
    let _ = group.size();
    let mut patience = patience;
    for _ in rt.forever() {
        match tiers.poll_all(group) {
            Polled::Passed(phase) => return Ok(AwaitedAdvance::Passed(phase)),
            Polled::Here(phase) => return Ok(AwaitedAdvance::Here(phase)),
            Polled::Ended(shown) => return Ok(AwaitedAdvance::Ended(shown)),
            Polled::Waiting => {
                if tiers.pause(rt, &mut patience).is_err() {
                    return Err(TimedOut);
                }
            }
        }
    }
    unreachable!()
}

/// Waits until the phase in which all members of `group` have arrived is over. Returns at once if they have not arrived,
/// or the tree has ended.
pub fn await_advance_all<R: Wait>(tiers: &Tiers, rt: &R, group: &mut Group) -> AwaitedAdvance
    requires own { group.old.tree ≡ tiers.now }
    ensures tree { group.new.tree ≡ group.old.tree }
    ensures answer { AwaitsAll group.old group.new result }
    ensures ended { (phase : ℕ) → group.old.view.end_seen ≡ Some phase → HasEndedWait result }
{
    match await_all_within(tiers, rt, group, Unlimited::new()) {
        Ok(answer) => answer,
        Err(_) => unreachable!(),
    }
}

// Waits until `phase` is over, in which all members of `group` have arrived, as long as `patience` lasts. Returns at once if the
// group is seen in another phase already.
fn await_after<R: Wait, P: Patience<R> + Drop>(
    tiers: &Tiers,
    rt: &R,
    group: Group,
    phase: u32,
    patience: P,
) -> (Group, Result<AwaitedAdvance, TimedOut>)
    requires own { group.tree ≡ tiers.now }
    ensures tree { result.0.tree ≡ group.tree }
    ensures answer { AwaitsAfter group phase result.0 result.1 }
    ensures within { IfErr result.1 (λ fault. P.ends) }
{
    let mut group = group;
    let now = group.phase();
    if now != phase {
        return (group, Ok(AwaitedAdvance::Passed(now)));
    }
    let waited = await_all_within(tiers, rt, &mut group, patience);
    (group, waited)
}

/// Lets all members of `group` arrive, and waits until the phase is over, as long as `patience` lasts. Returns the group and the
/// answer of [`await_all_within`]. If the phase is over by the time the arrival returns, that is `Passed`.
pub fn meet_all_within<R: Wait, P: Patience<R> + Drop, F: Fn(u32, u32) -> bool>(
    tiers: &Tiers,
    rt: &R,
    group: Group,
    rule: &StoredAdvance<F>,
    patience: P,
) -> (Group, Result<AwaitedAdvance, TimedOut>)
    requires own { group.tree ≡ tiers.now }
    requires rule { Answers (F.pre rule.now.closure) (F.post rule.now.closure) (end_ends_at rule.now.plan) }
    requires plan { rule.now.plan ≡ tiers.now.key.plan }
    ensures tree { result.0.tree ≡ group.tree }
    ensures answer { MeetsAllWithin TRIES group result.0 result.1 }
    ensures ended { (phase : ℕ) → group.view.end_seen ≡ Some phase → MatchResult result.1 HasEndedWait (λ fault. ⊥) }
    ensures within { IfErr result.1 (λ fault. P.ends) }
{
    match arrive_all_wait(tiers, rt, group, rule) {
        GroupArrived::Done(group, phase, _) => await_after(tiers, rt, group, phase, patience),
        GroupArrived::AlreadyArrived(mut group, _) => {
            let answer = await_all_within(tiers, rt, &mut group, patience);
            (group, answer)
        }
        GroupArrived::Ended(group, shown) => (group, Ok(AwaitedAdvance::Ended(shown))),
        GroupArrived::Full(_, _) => unreachable!(),
    }
}

/// Lets all members of `group` arrive, and waits until the phase is over. Returns the group and the answer of
/// `await_advance_all`. If the phase is over by the time the arrival returns, that is `Passed`.
pub fn meet_all_wait<R: Wait, F: Fn(u32, u32) -> bool>(
    tiers: &Tiers,
    rt: &R,
    group: Group,
    rule: &StoredAdvance<F>,
) -> (Group, AwaitedAdvance)
    requires own { group.tree ≡ tiers.now }
    requires rule { Answers (F.pre rule.now.closure) (F.post rule.now.closure) (end_ends_at rule.now.plan) }
    requires plan { rule.now.plan ≡ tiers.now.key.plan }
    ensures tree { result.0.tree ≡ group.tree }
    ensures answer { MeetsAll TRIES group result.0 result.1 }
    ensures ended { (phase : ℕ) → group.view.end_seen ≡ Some phase → HasEndedWait result.1 }
{
    let (group, met) = meet_all_within(tiers, rt, group, rule, Unlimited::new());
    match met {
        Ok(answer) => (group, answer),
        Err(_) => unreachable!(),
    }
}

impl<F: Fn(u32, u32) -> bool> Tree<F> {
    /// Lets all members of `group` arrive, as Java's `arrive` by each of them, with at most `tries` tries. The members are
    /// counted by one exchange, however many they are. See [`ArrivedAll`] for the answers.
    pub fn arrive_all(&self, group: Group, tries: u32) -> ArrivedAll
        requires own { group.tree ≡ self.now.tree }
        ensures answer { ArrivesAll group tries result }
        ensures ended { (phase : ℕ) → group.view.end_seen ≡ Some phase → arrives_all.HasEnded result }
    {
        self.tiers.arrive_all(group, tries)
    }

    /// Lets all members of `group` arrive, as Java's `arrive` by each of them. The members are counted by one exchange,
    /// however many they are. Never returns `Full`.
    pub fn arrive_all_wait<R: Wait>(&self, rt: &R, group: Group) -> GroupArrived
        requires own { group.tree ≡ self.now.tree }
        requires rule { Answers (F.pre self.now.rule.closure) (F.post self.now.rule.closure) (end_ends_at self.now.rule.plan) }
        ensures tree { (tokens_arrived result).tree ≡ group.tree }
        ensures answer { ArrivesAllAtLast TRIES group result }
        ensures ended { (phase : ℕ) → group.view.end_seen ≡ Some phase → HasEndedAll result }
    {
        arrive_all_wait(&self.tiers, rt, group, &self.rule)
    }

    /// By one exchange, `joining` new members join the tier of `group` and arrive, `leaving` of its members leave, and the
    /// others arrive. As Java's `register` and `arrive`, `arriveAndDeregister`, and `arrive`. At least one member has to
    /// arrive. New tokens are split off `door`, and the group has them first. Makes at most `tries` tries. See
    /// [`ArrivedWith`] for the answers.
    pub fn arrive_with(
        &self,
        door: &mut Door,
        group: Group,
        joining: u32,
        leaving: u32,
        tries: u32,
    ) -> ArrivedWith
        requires own { (door.old.tree ≡ self.now.tree) × (group.tree ≡ self.now.tree) }
        requires few { leaving ≤ length group.tokens }
        requires come { leaving < joining + length group.tokens }
        ensures answer { ArrivesWith tries joining leaving group result }
        ensures ended { (phase : ℕ) → group.view.end_seen ≡ Some phase → arrives_with.HasEnded result }
        ensures door { OnlySplit door.old door.new }
    {
        self.tiers.arrive_with(door, group, joining, leaving, tries)
    }

    /// By one exchange, `joining` new members join the tier of `group` and arrive, `leaving` of its members leave, and the
    /// others arrive. At least one member has to arrive. New tokens are split off `door`, and the group has them first.
    pub fn arrive_with_wait<R: Wait>(
        &self,
        rt: &R,
        door: &mut Door,
        group: Group,
        joining: u32,
        leaving: u32,
    ) -> GroupArrived
        requires own { (door.old.tree ≡ self.now.tree) × (group.tree ≡ self.now.tree) }
        requires few { leaving ≤ length group.tokens }
        requires come { leaving < joining + length group.tokens }
        requires rule { Answers (F.pre self.now.rule.closure) (F.post self.now.rule.closure) (end_ends_at self.now.rule.plan) }
        ensures door { OnlySplit door.old door.new }
        ensures tree { (tokens_arrived result).tree ≡ group.tree }
        ensures answer { ArrivesWithAtLast TRIES joining leaving group result }
        ensures ended { (phase : ℕ) → group.view.end_seen ≡ Some phase → HasEndedAll result }
    {
        arrive_with_wait(&self.tiers, rt, door, group, joining, leaving, &self.rule)
    }

    /// Resumes an arrival of a whole group that was counted but ran out of tries, with at most `tries` tries more. Call
    /// again on `Owing`.
    pub fn finish(&self, errand: Errand, others: Option<Group>, tries: u32) -> Finished
        requires own { errand.token.tree ≡ self.now.tree }
        requires one { errand.token.view.size ≡ 1 }
        requires beside { IfSome others (IsBeside errand.token) }
        requires rule { Answers (F.pre self.now.rule.closure) (F.post self.now.rule.closure) (end_ends_at self.now.rule.plan) }
        ensures { Finishes errand others tries result }
    {
        self.tiers.finish(errand, others, &self.rule, tries)
    }

    /// Checks once for all tokens of `group` whether their phase is over. Doesn't wait. Brings their tier into the root's
    /// phase if that tier lags, with at most one try. The answers are those of `poll`.
    pub fn poll_all(&self, group: &mut Group) -> Polled
        requires own { group.old.tree ≡ self.now.tree }
        ensures answer { PollsAll group.old group.new result }
        ensures waited { PollAllWaited group.old group.new result }
        ensures caught_up { AllCaughtUpBy result group.new }
        ensures ended { (phase : ℕ) → group.old.view.end_seen ≡ Some phase → polls.HasEnded result }
    {
        self.tiers.poll_all(group)
    }

    /// Waits until the phase in which all members of `group` have arrived is over. Returns at once if they have not
    /// arrived, or the tree has ended.
    ///
    /// A thread that sees `Passed` sees all that any member's thread did before it arrived in that phase.
    pub fn await_advance_all<R: Wait>(&self, rt: &R, group: &mut Group) -> AwaitedAdvance
        requires own { group.old.tree ≡ self.now.tree }
        ensures tree { group.new.tree ≡ group.old.tree }
        ensures answer { AwaitsAll group.old group.new result }
        ensures ended { (phase : ℕ) → group.old.view.end_seen ≡ Some phase → HasEndedWait result }
    {
        await_advance_all(&self.tiers, rt, group)
    }

    /// Lets all members of `group` arrive, and waits until the phase is over. Returns `Passed` only after an advance of the
    /// tree that found every member of every party arrived in the phase of the group.
    pub fn meet_all_wait<R: Wait>(&self, rt: &R, group: Group) -> (Group, AwaitedAdvance)
        requires own { group.tree ≡ self.now.tree }
        requires rule { Answers (F.pre self.now.rule.closure) (F.post self.now.rule.closure) (end_ends_at self.now.rule.plan) }
        ensures tree { result.0.tree ≡ group.tree }
        ensures answer { MeetsAll TRIES group result.0 result.1 }
        ensures ended { (phase : ℕ) → group.view.end_seen ≡ Some phase → HasEndedWait result.1 }
    {
        meet_all_wait(&self.tiers, rt, group, &self.rule)
    }

    /// Splits a new group off `group`, which keeps its first `n` tokens.
    pub fn split_group(&self, group: &mut Group, n: u32) -> Group
        requires own { group.old.tree ≡ self.now.tree }
        requires count { (0 < n) × (n < length group.old.tokens) }
        ensures { SplitAt n group.old group.new result }
    {
        self.tiers.split_at(group, n)
    }

    /// Appends the tokens of `other` to those of `group`, and looks at the root once for all of them. The members of both
    /// groups are at one tier and in one phase, and have all arrived or none.
    pub fn join_groups(&self, group: &mut Group, other: Group)
        requires own { (group.old.tree ≡ self.now.tree) × (other.tree ≡ self.now.tree) }
        requires together { AreTogether group.old.view other.view }
        ensures { Together group.old other group.new }
    {
        self.tiers.append(group, other);
    }
}
