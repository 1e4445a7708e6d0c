//! Eight threads whose groups grow, shrink, split and come together while they meet.

ghost use Rattle.std.specs.Prelude.{◌≡◌, All};
ghost use Rattle.advance_rule.specs.Stored.{Answers};
ghost use Rattle.advance_rule.specs.Plan.{end_ends_at};

use crate::calls::{merges, reported_of};
use crate::counts::tally;
use crate::numbers::Numbers;
use crate::reported::Reported;
use crate::rules::{Rule, WHEN_EMPTY, is_empty};
use crate::seats::Seat;
use crate::trees::{left, planted};
use advance_rule::StoredAdvance;
use std::alloc::Global;
use std::process::Abort;
use std::sync::Wait;
use std::thread;
use std::thread::Threads;
use tier_shape::Shape;
use tier_table::closing::ClosedToken;
use tier_table::group_members::{GroupJoined, GroupLeft, GroupRegistered};
use tier_table::groups::Group;
use tier_table::tokens::Door;
use tier_table::tree::Tree;
use tier_table::waiting::AwaitedAdvance;

// A thread's group, a door for new tokens, and where its numbers begin.
#[derive(Drop)]
struct Player {
    group: Group,
    door: Door,
    seed: u32,
}

// How many phases they meet in.
const PHASES: u32 = 200;

// Some members join a group.
fn grown<R: Wait + Abort>(
    rt: &R,
    tree: &Tree<Rule>,
    door: &mut Door,
    group: Group,
    members: u32,
) -> Group
    requires own { (door.old.tree ≡ tree.now.tree) × (group.tree ≡ tree.now.tree) }
    ensures door { door.new.tree ≡ tree.now.tree }
    ensures own { result.tree ≡ tree.now.tree }
{
    let size = group.size();
    match tree.join_all_wait(rt, door, group, members) {
        GroupJoined::Joined(group, _) => {
            assert!(rt; group.size() == size.saturating_add(members));
            group
        }
        _ => panic!(rt; "not joined"),
    }
}

// All members but the first ones leave.
fn shrunk<R: Wait + Abort>(rt: &R, tree: &Tree<Rule>, mut group: Group, kept: u32) -> Group
    requires own { group.tree ≡ tree.now.tree }
    requires rule { Answers (pre tree.now.rule.closure) (post tree.now.rule.closure) (end_ends_at tree.now.rule.plan) }
    ensures { result.tree ≡ tree.now.tree }
{
    if kept == 0 || kept >= group.size() {
        return group;
    }
    let others = tree.split_group(&mut group, kept);
    match tree.leave_all_wait(rt, others) {
        GroupLeft::Left(_, _, led) => assert!(rt; !led && group.size() == kept),
        _ => panic!(rt; "not left"),
    }
    group
}

// All members arrive, with some new ones and without some old ones.
fn exchanged<R: Wait + Abort>(
    rt: &R,
    tree: &Tree<Rule>,
    door: &mut Door,
    group: Group,
    joining: u32,
    leaving: u32,
) -> Group
    requires own { (door.old.tree ≡ tree.now.tree) × (group.tree ≡ tree.now.tree) }
    requires rule { Answers (pre tree.now.rule.closure) (post tree.now.rule.closure) (end_ends_at tree.now.rule.plan) }
    ensures door { door.new.tree ≡ tree.now.tree }
    ensures own { result.tree ≡ tree.now.tree }
{
    let size = group.size();
    if leaving > size || u64::from(leaving) >= u64::from(joining) + u64::from(size) {
        return group;
    }
    let (group, reported) = reported_of(tree.arrive_with_wait(rt, door, group, joining, leaving));
    assert!(rt; matches!(reported, Reported::Done(_, _)));
    assert!(rt; group.size() == size.saturating_add(joining) - leaving);
    group
}

// All members arrive.
fn arrived<R: Wait + Abort>(rt: &R, tree: &Tree<Rule>, group: Group) -> Group
    requires own { group.tree ≡ tree.now.tree }
    requires rule { Answers (pre tree.now.rule.closure) (post tree.now.rule.closure) (end_ends_at tree.now.rule.plan) }
    ensures { result.tree ≡ tree.now.tree }
{
    let (group, reported) = reported_of(tree.arrive_all_wait(rt, group));
    assert!(rt; matches!(reported, Reported::Done(_, _)));
    group
}

// All members wait until the phase is over, if it isn't yet.
fn awaited<R: Wait + Abort>(rt: &R, tree: &Tree<Rule>, group: &mut Group, next: u32)
    requires own { group.old.tree ≡ tree.now.tree }
    ensures { group.new.tree ≡ tree.now.tree }
{
    match tree.await_advance_all(rt, group) {
        AwaitedAdvance::Passed(phase) | AwaitedAdvance::Here(phase) => {
            assert!(rt; phase == next && group.phase() == next);
        }
        AwaitedAdvance::Ended(_) => panic!(rt; "the tree has ended"),
    }
}

// All members meet, by one call.
fn met<R: Wait + Abort>(rt: &R, tree: &Tree<Rule>, group: Group, next: u32) -> Group
    requires own { group.tree ≡ tree.now.tree }
    requires rule { Answers (pre tree.now.rule.closure) (post tree.now.rule.closure) (end_ends_at tree.now.rule.plan) }
    ensures { result.tree ≡ tree.now.tree }
{
    let (group, awaited) = tree.meet_all_wait(rt, group);
    assert!(rt; awaited == AwaitedAdvance::Passed(next) && group.phase() == next);
    group
}

// Two parts of a group meet, and come together again.
fn met_in_parts<R: Wait + Abort>(
    rt: &R,
    tree: &Tree<Rule>,
    door: &mut Door,
    mut group: Group,
    next: u32,
) -> Group
    requires own { (door.old.tree ≡ tree.now.tree) × (group.tree ≡ tree.now.tree) }
    requires rule { Answers (pre tree.now.rule.closure) (post tree.now.rule.closure) (end_ends_at tree.now.rule.plan) }
    ensures door { door.new.tree ≡ tree.now.tree }
    ensures own { result.tree ≡ tree.now.tree }
{
    let size = group.size();
    if size < 2 {
        return met(rt, tree, group, next);
    }
    let other = tree.split_group(&mut group, size / 2);
    let mut other = arrived(rt, tree, other);
    let mut group = arrived(rt, tree, group);
    awaited(rt, tree, &mut group, next);
    awaited(rt, tree, &mut other, next);
    let ((own, _next), _reported) = merges(rt, tree, door, group, other);
    match own {
        Seat::Inside(group) => {
            assert!(rt; group.size() == size);
            group
        }
        Seat::Outside(_) => panic!(rt; "no group"),
    }
}

// One phase of a group. It meets the others, in one of four ways.
fn round<R: Wait + Abort>(
    rt: &R,
    tree: &Tree<Rule>,
    door: &mut Door,
    mut group: Group,
    numbers: &mut Numbers,
    next: u32,
) -> Group
    requires own { (door.old.tree ≡ tree.now.tree) × (group.tree ≡ tree.now.tree) }
    requires rule { Answers (pre tree.now.rule.closure) (post tree.now.rule.closure) (end_ends_at tree.now.rule.plan) }
    ensures door { door.new.tree ≡ tree.now.tree }
    ensures own { result.tree ≡ tree.now.tree }
{
    match numbers.below(4) {
        0 => group = grown(rt, tree, door, group, numbers.below(6)),
        1 => group = shrunk(rt, tree, group, numbers.below(8)),
        _ => {}
    }
    match numbers.below(4) {
        0 => return met(rt, tree, group, next),
        1 => return met_in_parts(rt, tree, door, group, next),
        2 => group = arrived(rt, tree, group),
        _ => {
            let joining = numbers.below(4).saturating_add(1);
            let leaving = numbers.below(group.size().saturating_add(1));
            group = exchanged(rt, tree, door, group, joining, leaving);
        }
    }
    awaited(rt, tree, &mut group, next);
    group
}

// All phases of a player.
fn plays<R: Wait + Abort>(rt: &R, tree: &Tree<Rule>, player: Player) -> Player
    requires own { (player.door.tree ≡ tree.now.tree) × (player.group.tree ≡ tree.now.tree) }
    requires rule { Answers (pre tree.now.rule.closure) (post tree.now.rule.closure) (end_ends_at tree.now.rule.plan) }
    ensures { (result.door.tree ≡ tree.now.tree) × (result.group.tree ≡ tree.now.tree) }
{
    let Player {
        mut group,
        mut door,
        seed,
    } = player;
    let mut numbers = Numbers { seed };
    for phase in 0..PHASES {
        group = round(rt, tree, &mut door, group, &mut numbers, phase + 1);
    }
    Player { group, door, seed }
}

// All players, each in its thread.
fn all_play<R: Threads + Wait + Abort + Sync>(
    rt: &R,
    tree: &Tree<Rule>,
    players: Vec<Player>,
) -> Vec<Player>
    requires own { All (λ p. (p.door.tree ≡ tree.now.tree) × (p.group.tree ≡ tree.now.tree)) players.items }
    requires rule { Answers (pre tree.now.rule.closure) (post tree.now.rule.closure) (end_ends_at tree.now.rule.plan) }
{
    let played = thread::map_vec(
        rt,
        players,
        &|player: Player| -> Player
            requires { ((player.door.tree ≡ tree.now.tree) × (player.group.tree ≡ tree.now.tree)) × Answers (pre tree.now.rule.closure) (post tree.now.rule.closure) (end_ends_at tree.now.rule.plan) }
        { plays(rt, tree, player) },
    );
    played.expect(rt, "memory")
}

// A group registers at a tier.
fn registered<R: Wait + Abort>(
    rt: &R,
    tree: &Tree<Rule>,
    spare: &mut Door,
    tier: u16,
    members: u32,
    seed: u32,
) -> Player
    requires own { spare.old.tree ≡ tree.now.tree }
    ensures spare { spare.new.tree ≡ tree.now.tree }
    ensures own { (result.door.tree ≡ tree.now.tree) × (result.group.tree ≡ tree.now.tree) }
{
    assert!(rt; usize::from(tier) < tree.shape().count() && members > 0);
    let door = tree.split(spare);
    match tree.register_all_wait(rt, door, tier, members) {
        GroupRegistered::Joined(group, 0) => {
            let door = tree.split(spare);
            Player { group, door, seed }
        }
        _ => panic!(rt; "not registered"),
    }
}

// Two players at one leaf, one at each other leaf, one at each inner tier, and one at the root.
fn players<R: Wait + Abort>(
    rt: &R,
    alloc: Global,
    tree: &Tree<Rule>,
    mut spare: Door,
    seed: u32,
) -> Vec<Player>
    requires own { spare.tree ≡ tree.now.tree }
    ensures { All (λ p. (p.door.tree ≡ tree.now.tree) × (p.group.tree ≡ tree.now.tree)) result.items }
{
    let zero = registered(rt, tree, &mut spare, 3, 2, seed);
    let one = registered(rt, tree, &mut spare, 3, 1, seed.wrapping_add(1));
    let two = registered(rt, tree, &mut spare, 5, 3, seed.wrapping_add(2));
    let three = registered(rt, tree, &mut spare, 2, 1, seed.wrapping_add(3));
    let four = registered(rt, tree, &mut spare, 4, 5, seed.wrapping_add(4));
    let five = registered(rt, tree, &mut spare, 6, 1, seed.wrapping_add(5));
    let six = registered(rt, tree, &mut spare, 1, 2, seed.wrapping_add(6));
    let seven = registered(rt, tree, &mut spare, 0, 1, seed.wrapping_add(7));
    vec![in alloc; zero, one, two, three, four, five, six, seven].expect(rt, "memory")
}

// Returns what the groups say of themselves. Nobody may have arrived in the last phase.
fn tokens_of(rt: &impl Abort, alloc: Global, players: &[Player]) -> Vec<ClosedToken> {
    let mut tokens = Vec::new(alloc);
    for player in players {
        let group = &player.group;
        let token = ClosedToken {
            tier: group.tier(),
            size: group.size(),
            unarrived: group.size(),
            phase: group.phase(),
        };
        assert!(rt; token.phase == PHASES);
        tokens.push(token).expect(rt, "memory");
    }
    tokens
}

// Eight threads meet. At the end each word counts the members that are left at its tier and the tiers below it.
fn game<R: Threads + Wait + Abort + Sync>(
    rt: &R,
    alloc: Global,
    rule: StoredAdvance<Rule>,
    seed: u32,
)
    requires { Answers (pre rule.closure) (post rule.closure) (end_ends_at rule.plan) }
{
    let (tree, spare) = planted(rt, alloc, "2x2", 0, rule);
    let players = players(rt, alloc, &tree, spare, seed);
    let players = all_play(rt, &tree, players);
    let tokens = tokens_of(rt, alloc, &players);
    let shape = Shape::from_widths(alloc, "2x2").expect(rt, "a shape");
    let closed = left(rt, alloc, tree, Vec::new(alloc));
    assert!(rt; closed.words.first().map(|root| root.phase) == Some(PHASES));
    assert!(rt; tokens.len() == 8 && tally(&shape, &closed.words, &tokens));
}

#[test]
fn groups_of_eight_threads_meet(rt: HostRuntime) {
    for seed in 0..4u32 {
        let rule = StoredAdvance::new(is_empty as Rule, WHEN_EMPTY);
        game(&rt, rt.alloc(), rule, seed.wrapping_mul(100));
    }
}
