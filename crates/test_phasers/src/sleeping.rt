//! Threads that sleep at a tree are woken by each step that ends their wait. The thread that takes this step first lets the other
//! fall asleep. A wake-up that is lost lets the test run into its limit of time.

ghost use Rattle.std.specs.Prelude.{◌≡◌, ◌<◌, length};

use crate::trees::planted;
use advance_rule::StoredAdvance;
use phasers::tree::{EndPlan, Forced, Guest, Party, PhaserTree};
use sleepers::{Pauses, Sleepers};
use std::process::Abort;
use std::sync::Wait;
use std::sync::atomic::{AtomicU64, Ordering};
use std::thread::{self, Threads};
use std::time::{Clock, Duration};
use test_groups::rules::{Rule, WHEN_EMPTY, is_empty};
use tier_table::joining::{Opened, Registered};
use tier_table::tokens::{Door, Opening};
use tier_table::tree::Tree;
use tier_table::waiting::RegisteredAtLast;

// Sleeps long enough for a thread that waits to fall asleep.
fn sleeps_a_while<R: Clock>(rt: &R) {
    thread::sleep(rt, Duration::from_millis(60));
}

// Meets the others, and returns the phase after that, or a number below 0 if the tree has ended.
fn meets<R: Wait>(rt: &R, mut party: Party<'_>) -> i64 {
    party.meet(rt).map_or(-1, i64::from)
}

// Does the same after a while.
fn meets_late<R: Wait + Clock>(rt: &R, party: Party<'_>) -> i64 {
    sleeps_a_while(rt);
    meets(rt, party)
}

// Two parties at the leaves of a tree, and a token.
fn two_and_a_guest<'a, R: Wait + Abort>(
    rt: &R,
    tree: &'a mut PhaserTree,
) -> (Party<'a>, Party<'a>, Guest<'a>) {
    let mut guest = tree.guest();
    let first = guest.split().join(rt, 0).expect(rt, "room");
    let second = guest.split().join(rt, 1).expect(rt, "room");
    (first, second, guest)
}

#[test]
fn an_advance_wakes(rt: HostRuntime) {
    let plan = EndPlan::when_empty();
    let mut tree = PhaserTree::from_widths(rt.alloc(), "2x2", plan).expect(&rt, "a tree");
    let (first, second, _guest) = two_and_a_guest(&rt, &mut tree);
    let met = thread::join(&rt, || meets(&rt, first), || meets_late(&rt, second));
    assert!(rt; met == (1, 1));
}

// Ends the tree after a while. Returns true if that was done.
fn ends_late<R: Clock>(rt: &R, mut guest: Guest<'_>) -> bool {
    sleeps_a_while(rt);
    matches!(guest.force(16), Forced::Ended(_))
}

#[test]
fn the_end_wakes(rt: HostRuntime) {
    let plan = EndPlan::when_empty();
    let mut tree = PhaserTree::from_widths(rt.alloc(), "2", plan).expect(&rt, "a tree");
    let (first, _absent, guest) = two_and_a_guest(&rt, &mut tree);
    let met = thread::join(&rt, || meets(&rt, first), || ends_late(&rt, guest));
    assert!(rt; met == (-1, true));
}

// Joins at the first leaf, and returns the phase.
fn joins<R: Wait>(rt: &R, guest: Guest<'_>) -> i64 {
    guest
        .join(rt, 0)
        .map_or(-1, |party| i64::from(party.phase()))
}

// After a while the second party advances the tree, and after another the first one brings its leaf into the new phase.
fn catches_up<R: Wait + Clock>(rt: &R, mut first: Party<'_>, second: Party<'_>) -> i64 {
    let met = meets_late(rt, second);
    sleeps_a_while(rt);
    let _ = first.poll();
    met
}

#[test]
fn a_tier_that_catches_up_wakes(rt: HostRuntime) {
    let plan = EndPlan::when_empty();
    let mut tree = PhaserTree::from_widths(rt.alloc(), "2", plan).expect(&rt, "a tree");
    let (mut first, second, guest) = two_and_a_guest(&rt, &mut tree);
    first.arrive(&rt);
    let met = thread::join(&rt, || joins(&rt, guest), || catches_up(&rt, first, second));
    assert!(rt; met == (1, 1));
}

// Who is to register one member at a tier.
#[derive(Drop)]
struct Newcomer<'t> {
    tree: &'t Tree<Rule>,
    door: Door,
    tier: u16,
    ghost own: { door.tree ≡ tree.now.tree },
    ghost within: { tier < length tree.now.tree.key.shape },
}

// Registers. Returns 0 if the newcomer has joined in phase 0, and the number of parties if there is no room.
fn registers<R: Wait>(rt: &R, newcomer: Newcomer<'_>) -> u64 {
    let Newcomer { tree, door, tier } = newcomer;
    match tree.register_wait(rt, door, tier, 1) {
        RegisteredAtLast::Joined(_, phase) => u64::from(phase),
        RegisteredAtLast::Full(_, parties) => u64::from(parties),
        RegisteredAtLast::Ended(_, _) => u64::MAX,
    }
}

// Resumes a registration after a while. Returns the same numbers.
fn resumes_late<R: Clock + Abort>(rt: &R, tree: &Tree<Rule>, opening: Opening) -> u64
    requires own { opening.token.tree ≡ tree.now.tree }
{
    sleeps_a_while(rt);
    match tree.resume_opening(opening, 16) {
        Opened::Joined(_, phase) => u64::from(phase),
        Opened::Full(_, parties) => u64::from(parties),
        _ => panic!(rt; "16 tries are enough"),
    }
}

// Claims the tier by one try, tells the other thread, and goes on after a while.
fn claims<R: Clock + Abort>(rt: &R, newcomer: Newcomer<'_>, claimed: &AtomicU64) -> u64 {
    let Newcomer { tree, door, tier } = newcomer;
    match tree.register(door, tier, 1, 1) {
        Registered::Owing(opening) => {
            claimed.store(1, Ordering::SeqCst);
            resumes_late(rt, tree, opening)
        }
        _ => panic!(rt; "one try claims the tier"),
    }
}

// Registers once the other thread has claimed the tier.
fn comes_second<R: Wait>(rt: &R, newcomer: Newcomer<'_>, claimed: &AtomicU64) -> u64 {
    for _ in rt.forever() {
        if claimed.load(Ordering::SeqCst) == 1 {
            return registers(rt, newcomer);
        }
        thread::yield_now();
    }
    unreachable!()
}

// Two threads register at a tier. Returns what both find.
fn two_register<R: Threads + Wait + Clock + Abort + Sync>(
    rt: &R,
    first: Newcomer<'_>,
    second: Newcomer<'_>,
) -> (u64, u64) {
    let claimed = AtomicU64::new(0);
    thread::join(
        rt,
        || claims(rt, first, &claimed),
        || comes_second(rt, second, &claimed),
    )
}

// The same, by tokens that are split off a door.
fn two_at<R: Threads + Wait + Clock + Abort + Sync>(
    rt: &R,
    tree: &Tree<Rule>,
    mut door: Door,
    tier: u16,
) -> (u64, u64)
    requires own { door.tree ≡ tree.now.tree }
{
    assert!(rt; usize::from(tier) < tree.shape().count());
    let second = Newcomer {
        tree,
        door: tree.split(&mut door),
        tier,
    };
    two_register(rt, Newcomer { tree, door, tier }, second)
}

#[test]
fn a_tier_that_opens_wakes(rt: HostRuntime) {
    let rule = StoredAdvance::new(is_empty as Rule, WHEN_EMPTY);
    let (tree, door) = planted(&rt, rt.alloc(), "2", 0, rule);
    assert!(rt; two_at(&rt, &tree, door, 1) == (0, 0));
}

#[test]
fn a_tier_that_is_given_back_wakes(rt: HostRuntime) {
    let rule = StoredAdvance::new(is_empty as Rule, WHEN_EMPTY);
    let (tree, mut door) = planted(&rt, rt.alloc(), "1x1", 0, rule);
    let full = tree.split(&mut door);
    assert!(rt; tree.shape().count() == 3);
    let filled = tree.register_wait(&rt, full, 1, 65535);
    assert!(rt; matches!(filled, RegisteredAtLast::Joined(_, 0)));
    assert!(rt; two_at(&rt, &tree, door, 2) == (65535, 65535));
}

// Pauses until the next pause would sleep: 64 times it lets others run, and then it marks the word for the last look. A pause that
// sleeps without that look lets the test run into its limit of time.
fn about_to_sleep<R: Wait>(rt: &R, sleepers: &Sleepers) -> Pauses {
    let mut pauses = Pauses::new();
    for _ in 0..65 {
        sleepers.pause(rt, &mut pauses);
    }
    pauses
}

// A thread that has marked the word is slow. It finds that others were woken since, though another thread has marked the word again.
#[test]
fn no_wake_up_is_slept_through(rt: HostRuntime) {
    let sleepers = Sleepers::new(0);
    let mut slow = about_to_sleep(&rt, &sleepers);
    sleepers.wake();
    let _other = about_to_sleep(&rt, &sleepers);
    sleepers.pause(&rt, &mut slow);
}
