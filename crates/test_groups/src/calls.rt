//! Calls of groups.

ghost use Rattle.std.specs.Prelude.{◌≡◌, IfSome, if◌then◌else◌};
ghost use Rattle.advance_rule.specs.Stored.{Answers};
ghost use Rattle.advance_rule.specs.Plan.{end_ends_at};
ghost use Rattle.tier_table.specs.Finishes.{IsBeside};
ghost use Rattle.tier_table.specs.GroupsAtLast.{tokens_arrived};
ghost use Rattle.test_groups.specs.Seats.{tree_at, TwoAt};

use crate::ask::Deed;
use crate::reported::Reported;
use crate::rules::Rule;
use crate::seats::Seat;
use std::process::Abort;
use std::sync::Wait;
use tier_table::arriving_with::ArrivedWith;
use tier_table::finishing::Finished;
use tier_table::forcing::Forced;
use tier_table::group_members::{GroupJoined, GroupLeft, GroupRegistered};
use tier_table::groups::{ArrivedAll, Group, GroupArrived};
use tier_table::polling::Polled;
use tier_table::tokens::{Door, Errand};
use tier_table::tree::Tree;
use tier_table::waiting::AwaitedAdvance;

// A registration.
fn registers<R: Wait + Abort>(
    rt: &R,
    tree: &Tree<Rule>,
    door: Door,
    tier: u16,
    members: u32,
) -> (Seat, Reported)
    requires own { door.tree ≡ tree.now.tree }
    ensures { tree_at result.0 ≡ tree.now.tree }
{
    assert!(rt; usize::from(tier) < tree.shape().count() && members > 0);
    match tree.register_all_wait(rt, door, tier, members) {
        GroupRegistered::Joined(group, phase) => (Seat::Inside(group), Reported::Joined(phase)),
        GroupRegistered::Partly(group, count) => (Seat::Inside(group), Reported::Full(count)),
        GroupRegistered::Full(door, count) => (Seat::Outside(door), Reported::Full(count)),
        GroupRegistered::Ended(door, shown) => (Seat::Outside(door), Reported::Ended(shown)),
        GroupRegistered::PartlyEnded(group, shown) => (Seat::Inside(group), Reported::Ended(shown)),
    }
}

// A registration beside a group, by tokens that are split off a door.
fn joins<R: Wait>(
    rt: &R,
    tree: &Tree<Rule>,
    door: &mut Door,
    group: Group,
    members: u32,
) -> (Seat, Reported)
    requires own { (door.old.tree ≡ tree.now.tree) × (group.tree ≡ tree.now.tree) }
    ensures door { door.new.tree ≡ tree.now.tree }
    ensures own { tree_at result.0 ≡ tree.now.tree }
{
    match tree.join_all_wait(rt, door, group, members) {
        GroupJoined::Joined(group, phase) => (Seat::Inside(group), Reported::Joined(phase)),
        GroupJoined::Full(group, count) => (Seat::Inside(group), Reported::Full(count)),
        GroupJoined::AlreadyArrived(group, phase) => {
            (Seat::Inside(group), Reported::AlreadyArrived(phase))
        }
        GroupJoined::Ended(group, shown) => (Seat::Inside(group), Reported::Ended(shown)),
    }
}

/// Returns what an arrival that waits answers, and its group.
pub(crate) fn reported_of(arrived: GroupArrived) -> (Group, Reported)
    ensures { result.0 ≡ tokens_arrived arrived }
{
    match arrived {
        GroupArrived::Done(group, phase, led) => (group, Reported::Done(phase, led)),
        GroupArrived::Full(group, count) => (group, Reported::Full(count)),
        GroupArrived::AlreadyArrived(group, phase) => (group, Reported::AlreadyArrived(phase)),
        GroupArrived::Ended(group, shown) => (group, Reported::Ended(shown)),
    }
}

// Finishes an arrival that is counted, first by a call with no try.
fn finishes(
    rt: &impl Abort,
    tree: &Tree<Rule>,
    errand: Errand,
    others: Option<Group>,
) -> (Seat, Reported)
    requires own { errand.token.tree ≡ tree.now.tree }
    requires one { errand.token.view.size ≡ 1 }
    requires beside { IfSome others (IsBeside errand.token) }
    requires rule { Answers (pre tree.now.rule.closure) (post tree.now.rule.closure) (end_ends_at tree.now.rule.plan) }
    ensures { tree_at result.0 ≡ tree.now.tree }
{
    match tree.finish(errand, others, 0) {
        Finished::Owing(errand, others) => match tree.finish(errand, others, 16) {
            Finished::Done(group, phase, led) => (Seat::Inside(group), Reported::Done(phase, led)),
            _ => panic!(rt; "not finished"),
        },
        _ => panic!(rt; "finished by no try"),
    }
}

// An arrival of all members, with a number of tries.
fn arrives_in(rt: &impl Abort, tree: &Tree<Rule>, group: Group, tries: u32) -> (Seat, Reported)
    requires own { group.tree ≡ tree.now.tree }
    requires rule { Answers (pre tree.now.rule.closure) (post tree.now.rule.closure) (end_ends_at tree.now.rule.plan) }
    ensures { tree_at result.0 ≡ tree.now.tree }
{
    match tree.arrive_all(group, tries) {
        ArrivedAll::Done(group, phase) => (Seat::Inside(group), Reported::Done(phase, false)),
        ArrivedAll::Owing(errand, others) => finishes(rt, tree, errand, others),
        ArrivedAll::AlreadyArrived(group, phase) => {
            (Seat::Inside(group), Reported::AlreadyArrived(phase))
        }
        ArrivedAll::Ended(group, shown) => (Seat::Inside(group), Reported::Ended(shown)),
        ArrivedAll::Busy(group) => (Seat::Inside(group), Reported::Busy),
    }
}

// An arrival of all members, with new ones and without some old ones.
fn arrives_with<R: Wait + Abort>(
    rt: &R,
    tree: &Tree<Rule>,
    door: &mut Door,
    group: Group,
    joining: u32,
    leaving: u32,
) -> (Seat, Reported)
    requires own { (door.old.tree ≡ tree.now.tree) × (group.tree ≡ tree.now.tree) }
    requires rule { Answers (pre tree.now.rule.closure) (post tree.now.rule.closure) (end_ends_at tree.now.rule.plan) }
    ensures door { door.new.tree ≡ tree.now.tree }
    ensures own { tree_at result.0 ≡ tree.now.tree }
{
    assert!(rt;
        leaving <= group.size() && u64::from(leaving) < u64::from(joining) + u64::from(group.size())
    );
    let (group, reported) = reported_of(tree.arrive_with_wait(rt, door, group, joining, leaving));
    (Seat::Inside(group), reported)
}

// Does the same with a number of tries.
fn arrives_with_in(
    rt: &impl Abort,
    tree: &Tree<Rule>,
    door: &mut Door,
    group: Group,
    counts: (u32, u32),
    tries: u32,
) -> (Seat, Reported)
    requires own { (door.old.tree ≡ tree.now.tree) × (group.tree ≡ tree.now.tree) }
    requires rule { Answers (pre tree.now.rule.closure) (post tree.now.rule.closure) (end_ends_at tree.now.rule.plan) }
    ensures door { door.new.tree ≡ tree.now.tree }
    ensures own { tree_at result.0 ≡ tree.now.tree }
{
    let (joining, leaving) = counts;
    assert!(rt;
        leaving <= group.size() && u64::from(leaving) < u64::from(joining) + u64::from(group.size())
    );
    match tree.arrive_with(door, group, joining, leaving, tries) {
        ArrivedWith::Done(group, phase) => (Seat::Inside(group), Reported::Done(phase, false)),
        ArrivedWith::Owing(errand, others) => finishes(rt, tree, errand, others),
        ArrivedWith::Full(group, count) => (Seat::Inside(group), Reported::Full(count)),
        ArrivedWith::AlreadyArrived(group, phase) => {
            (Seat::Inside(group), Reported::AlreadyArrived(phase))
        }
        ArrivedWith::Ended(group, shown) => (Seat::Inside(group), Reported::Ended(shown)),
        ArrivedWith::Busy(group) => (Seat::Inside(group), Reported::Busy),
    }
}

// Returns what a wait answers.
fn reported_by(awaited: AwaitedAdvance) -> Reported {
    match awaited {
        AwaitedAdvance::Passed(phase) => Reported::Passed(phase),
        AwaitedAdvance::Here(phase) => Reported::Here(phase),
        AwaitedAdvance::Ended(shown) => Reported::Ended(shown),
    }
}

// Polls. Returns what that answers.
fn polls(tree: &Tree<Rule>, group: &mut Group) -> Reported
    requires own { group.old.tree ≡ tree.now.tree }
    ensures { group.new.tree ≡ tree.now.tree }
{
    match tree.poll_all(group) {
        Polled::Passed(phase) => Reported::Passed(phase),
        Polled::Waiting => Reported::Waiting,
        Polled::Here(phase) => Reported::Here(phase),
        Polled::Ended(shown) => Reported::Ended(shown),
    }
}

// A departure of all members.
fn leaves<R: Wait>(rt: &R, tree: &Tree<Rule>, group: Group) -> (Seat, Reported)
    requires own { group.tree ≡ tree.now.tree }
    requires rule { Answers (pre tree.now.rule.closure) (post tree.now.rule.closure) (end_ends_at tree.now.rule.plan) }
    ensures { tree_at result.0 ≡ tree.now.tree }
{
    match tree.leave_all_wait(rt, group) {
        GroupLeft::Left(door, phase, led) => (Seat::Outside(door), Reported::Left(phase, led)),
        GroupLeft::AlreadyArrived(group, phase) => {
            (Seat::Inside(group), Reported::AlreadyArrived(phase))
        }
        GroupLeft::Ended(group, shown) => (Seat::Inside(group), Reported::Ended(shown)),
    }
}

// Ends the tree by force.
fn forces(tree: &Tree<Rule>, mut door: Door) -> (Seat, Reported)
    requires own { door.tree ≡ tree.now.tree }
    ensures { tree_at result.0 ≡ tree.now.tree }
{
    let reported = match tree.force(&mut door, 16) {
        Forced::Ended(shown) => Reported::Ended(shown),
        Forced::Busy => Reported::Busy,
    };
    (Seat::Outside(door), reported)
}

// Does what a group does without another one. New tokens are split off the spare door.
fn done_alone<R: Wait + Abort>(
    rt: &R,
    tree: &Tree<Rule>,
    spare: &mut Door,
    mut group: Group,
    deed: Deed,
) -> (Seat, Reported)
    requires own { (spare.old.tree ≡ tree.now.tree) × (group.tree ≡ tree.now.tree) }
    requires rule { Answers (pre tree.now.rule.closure) (post tree.now.rule.closure) (end_ends_at tree.now.rule.plan) }
    ensures spare { spare.new.tree ≡ tree.now.tree }
    ensures own { tree_at result.0 ≡ tree.now.tree }
{
    match deed {
        Deed::Join(members) => joins(rt, tree, spare, group, members),
        Deed::Arrive => {
            let (group, reported) = reported_of(tree.arrive_all_wait(rt, group));
            (Seat::Inside(group), reported)
        }
        Deed::ArriveIn(tries) => arrives_in(rt, tree, group, tries),
        Deed::ArriveWith(come, go) => arrives_with(rt, tree, spare, group, come, go),
        Deed::ArriveWithIn(come, go, tries) => {
            arrives_with_in(rt, tree, spare, group, (come, go), tries)
        }
        Deed::Await => {
            let reported = reported_by(tree.await_advance_all(rt, &mut group));
            (Seat::Inside(group), reported)
        }
        Deed::Poll => {
            let reported = polls(tree, &mut group);
            (Seat::Inside(group), reported)
        }
        Deed::Meet => {
            let (group, awaited) = tree.meet_all_wait(rt, group);
            (Seat::Inside(group), reported_by(awaited))
        }
        Deed::Leave => leaves(rt, tree, group),
        _ => panic!(rt; "a group can't do it alone"),
    }
}

// A group keeps its first members, and a new one has the others.
fn splits(
    rt: &impl Abort,
    tree: &Tree<Rule>,
    mut group: Group,
    kept: u32,
) -> ((Seat, Seat), Reported)
    requires own { group.tree ≡ tree.now.tree }
    ensures { TwoAt tree.now.tree result.0 }
{
    assert!(rt; kept > 0 && kept < group.size());
    let mut other = tree.split_group(&mut group, kept);
    let reported = polls(tree, &mut group);
    assert!(rt; polls(tree, &mut other) == reported);
    ((Seat::Inside(group), Seat::Inside(other)), reported)
}

// Returns true if all members of a group have arrived, and false if none has.
fn have_arrived(rt: &impl Abort, tree: &Tree<Rule>, group: &mut Group) -> bool
    requires own { group.old.tree ≡ tree.now.tree }
    ensures own { group.new.tree ≡ tree.now.tree }
    ensures arrived { group.new.view.arrived ≡ (if result then 1 else 0) }
{
    match tree.poll_all(group) {
        Polled::Waiting => true,
        Polled::Here(_) | Polled::Passed(_) => false,
        Polled::Ended(_) => panic!(rt; "the tree has ended"),
    }
}

/// A group takes in another one, whose members are in its tier and its phase, and have arrived if its have.
pub(crate) fn merges(
    rt: &impl Abort,
    tree: &Tree<Rule>,
    spare: &mut Door,
    mut group: Group,
    mut other: Group,
) -> ((Seat, Seat), Reported)
    requires own { (spare.old.tree ≡ tree.now.tree) × (group.tree ≡ tree.now.tree) × (other.tree ≡ tree.now.tree) }
    ensures spare { spare.new.tree ≡ tree.now.tree }
    ensures own { TwoAt tree.now.tree result.0 }
{
    let reported = polls(tree, &mut group);
    let own = have_arrived(rt, tree, &mut group);
    let others = have_arrived(rt, tree, &mut other);
    assert!(rt; own == others && group.tier() == other.tier() && group.phase() == other.phase());
    tree.join_groups(&mut group, other);
    let door = tree.split(spare);
    ((Seat::Inside(group), Seat::Outside(door)), reported)
}

/// Does what a group does, and the next one if it has to do with it. New tokens are split off the spare door.
pub(crate) fn done<R: Wait + Abort>(
    rt: &R,
    tree: &Tree<Rule>,
    spare: &mut Door,
    own: Seat,
    next: Seat,
    deed: Deed,
) -> ((Seat, Seat), Reported)
    requires own { (spare.old.tree ≡ tree.now.tree) × (tree_at own ≡ tree.now.tree) × (tree_at next ≡ tree.now.tree) }
    requires rule { Answers (pre tree.now.rule.closure) (post tree.now.rule.closure) (end_ends_at tree.now.rule.plan) }
    ensures spare { spare.new.tree ≡ tree.now.tree }
    ensures own { TwoAt tree.now.tree result.0 }
{
    match (own, next, deed) {
        (Seat::Inside(group), Seat::Outside(_), Deed::Split(kept)) => splits(rt, tree, group, kept),
        (Seat::Inside(group), Seat::Inside(other), Deed::Merge) => {
            merges(rt, tree, spare, group, other)
        }
        (Seat::Outside(door), next, Deed::Register(tier, members)) => {
            let (own, reported) = registers(rt, tree, door, tier, members);
            ((own, next), reported)
        }
        (Seat::Outside(door), next, Deed::Force) => {
            let (own, reported) = forces(tree, door);
            ((own, next), reported)
        }
        (Seat::Inside(group), next, deed) => {
            let (own, reported) = done_alone(rt, tree, spare, group, deed);
            ((own, next), reported)
        }
        _ => panic!(rt; "a door can't do it"),
    }
}
