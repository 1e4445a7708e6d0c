//! Calls of the tree on atomic words.

ghost use Rattle.std.specs.Prelude.{◌≡◌, ◌<◌, ◌≤◌};
ghost use Rattle.advance_rule.specs.Stored.{Answers};
ghost use Rattle.advance_rule.specs.Plan.{end_ends_at};
ghost use Rattle.tier_table.specs.Closes.{held};
ghost use Rattle.test_phasers.specs.Holders.{tree_of};

use crate::calls::ask::Ask;
use crate::calls::holders::Holder;
use std::process::Abort;
use test_groups::reported::Reported;
use test_groups::rules::Rule;
use tier_table::arriving::{Arrived, Resumed};
use tier_table::forcing::Forced;
use tier_table::joining::{Opened, Registered};
use tier_table::polling::Polled;
use tier_table::tokens::{Crew, Door, Errand, Opening, Token};
use tier_table::tree::Tree;

// A registration.
fn register(
    rt: &impl Abort,
    tree: &Tree<Rule>,
    door: Door,
    tier: u16,
    members: u32,
    tries: u32,
) -> (Holder, Reported)
    requires own { door.tree ≡ tree.now.tree }
    ensures { tree_of result.0 ≡ tree.now.tree }
{
    assert!(rt; usize::from(tier) < tree.shape().count() && members > 0 && members < 65536);
    match tree.register(door, tier, members, tries) {
        Registered::Joined(crew, phase) => (Holder::Inside(crew), Reported::Joined(phase)),
        Registered::Held(door, phase, cause) => (
            Holder::Outside(door),
            Reported::Held(phase, cause),
        ),
        Registered::Full(door, count) => (Holder::Outside(door), Reported::Full(count)),
        Registered::Ended(door, shown) => (Holder::Outside(door), Reported::Ended(shown)),
        Registered::Busy(door) => (Holder::Outside(door), Reported::Busy),
        Registered::Owing(opening) => (Holder::Opening(opening), Reported::Owing),
    }
}

// Ends the tree by force.
fn force(tree: &Tree<Rule>, mut door: Door, tries: u32) -> (Holder, Reported)
    requires own { door.tree ≡ tree.now.tree }
    ensures { tree_of result.0 ≡ tree.now.tree }
{
    let reported = match tree.force(&mut door, tries) {
        Forced::Ended(shown) => Reported::Ended(shown),
        Forced::Busy => Reported::Busy,
    };
    (Holder::Outside(door), reported)
}

// A registration goes on.
fn open(tree: &Tree<Rule>, opening: Opening, tries: u32) -> (Holder, Reported)
    requires own { opening.token.tree ≡ tree.now.tree }
    ensures { tree_of result.0 ≡ tree.now.tree }
{
    match tree.resume_opening(opening, tries) {
        Opened::Joined(crew, phase) => (Holder::Inside(crew), Reported::Joined(phase)),
        Opened::Held(door, phase, cause) => (Holder::Outside(door), Reported::Held(phase, cause)),
        Opened::Full(door, count) => (Holder::Outside(door), Reported::Full(count)),
        Opened::Ended(door, shown) => (Holder::Outside(door), Reported::Ended(shown)),
        Opened::Owing(opening) => (Holder::Opening(opening), Reported::Owing),
    }
}

// An arrival or a departure.
fn pass(tree: &Tree<Rule>, crew: Crew, ask: Ask, tries: u32) -> (Holder, Reported)
    requires own { crew.tree ≡ tree.now.tree }
    requires rule { Answers (pre tree.now.rule.closure) (post tree.now.rule.closure) (end_ends_at tree.now.rule.plan) }
    ensures { tree_of result.0 ≡ tree.now.tree }
{
    let arrived = if matches!(ask, Ask::Leave) {
        tree.arrive_and_deregister(crew, tries)
    } else {
        tree.arrive(crew, tries)
    };
    match arrived {
        Arrived::Done(crew, phase, led) => (Holder::Inside(crew), Reported::Done(phase, led)),
        Arrived::Left(door, phase, led) => (Holder::Outside(door), Reported::Left(phase, led)),
        Arrived::AlreadyArrived(crew, phase) => (
            Holder::Inside(crew),
            Reported::AlreadyArrived(phase),
        ),
        Arrived::Ended(crew, shown) => (Holder::Inside(crew), Reported::Ended(shown)),
        Arrived::Busy(crew) => (Holder::Inside(crew), Reported::Busy),
        Arrived::Owing(errand) => (Holder::Owing(errand), Reported::Owing),
    }
}

// An arrival or a departure goes on.
fn resume(tree: &Tree<Rule>, errand: Errand, tries: u32) -> (Holder, Reported)
    requires own { errand.token.tree ≡ tree.now.tree }
    requires rule { Answers (pre tree.now.rule.closure) (post tree.now.rule.closure) (end_ends_at tree.now.rule.plan) }
    ensures { tree_of result.0 ≡ tree.now.tree }
{
    match tree.resume(errand, tries) {
        Resumed::Done(crew, phase, led) => (Holder::Inside(crew), Reported::Done(phase, led)),
        Resumed::Left(door, phase, led) => (Holder::Outside(door), Reported::Left(phase, led)),
        Resumed::Owing(errand) => (Holder::Owing(errand), Reported::Owing),
    }
}

// Sees whether a crew's phase has passed.
fn poll(tree: &Tree<Rule>, mut crew: Crew) -> (Holder, Reported)
    requires own { crew.tree ≡ tree.now.tree }
    ensures { tree_of result.0 ≡ tree.now.tree }
{
    let reported = match tree.poll(&mut crew) {
        Polled::Passed(phase) => Reported::Passed(phase),
        Polled::Waiting => Reported::Waiting,
        Polled::Here(phase) => Reported::Here(phase),
        Polled::Ended(shown) => Reported::Ended(shown),
    };
    (Holder::Inside(crew), reported)
}

/// One call, with at most `tries` tries. A poll makes one at most, whatever `tries` is.
pub fn call(
    rt: &impl Abort,
    tree: &Tree<Rule>,
    holder: Holder,
    ask: Ask,
    tries: u32,
) -> (Holder, Reported)
    requires own { tree_of holder ≡ tree.now.tree }
    requires rule { Answers (pre tree.now.rule.closure) (post tree.now.rule.closure) (end_ends_at tree.now.rule.plan) }
    ensures { tree_of result.0 ≡ tree.now.tree }
{
    match (holder, ask) {
        (Holder::Outside(door), Ask::Register(tier, members)) => {
            register(rt, tree, door, tier, members, tries)
        }
        (Holder::Outside(door), Ask::Force) => force(tree, door, tries),
        (Holder::Inside(crew), Ask::Poll) => poll(tree, crew),
        (Holder::Inside(crew), Ask::Arrive | Ask::Leave) => pass(tree, crew, ask, tries),
        (Holder::Owing(errand), Ask::Resume) => resume(tree, errand, tries),
        (Holder::Opening(opening), Ask::Open) => open(tree, opening, tries),
        _ => panic!(rt; "it can't be asked so"),
    }
}

/// A token that is in no call.
pub fn at_rest(rt: &impl Abort, holder: Holder) -> Token
    ensures { (held result).tree ≡ tree_of holder }
{
    match holder {
        Holder::Outside(door) => Token::Door(door),
        Holder::Inside(crew) => Token::Crew(crew),
        _ => panic!(rt; "a call is not over"),
    }
}
