//! What a tree's closure is called with at each advance: the phase that passes and the parties of the root. Each call is
//! written down.

ghost use Rattle.std.specs.Prelude.{◌≡◌, All};
ghost use Rattle.advance_rule.specs.Stored.{Answers};
ghost use Rattle.advance_rule.specs.Plan.{end_ends_at};

use advance_rule::StoredAdvance;
use std::alloc::Global;
use std::process::Abort;
use std::sync::Wait;
use std::sync::atomic::{AtomicU64, Ordering};
use std::thread;
use std::thread::Threads;
use test_groups::rules::WHEN_EMPTY;
use tier_shape::Shape;
use tier_table::arriving::Arrived;
use tier_table::joining::Registered;
use tier_table::tokens::{Crew, Door};
use tier_table::tree::Tree;
use tier_table::waiting::{ArrivedAtLast, AwaitedAdvance};

// Returns what is written down after one more call, in twelve bits.
fn then(before: u64, (phase, count): (u32, u32)) -> u64 {
    before
        .wrapping_mul(4096)
        .wrapping_add(u64::from(phase) * 64)
        .wrapping_add(u64::from(count))
}

// Writes a call down. Only the thread that takes the advance calls the closure, so no other writes meanwhile.
fn write(log: &AtomicU64, phase: u32, count: u32) {
    let before = log.load(Ordering::SeqCst);
    log.store(then(before, (phase, count)), Ordering::SeqCst);
}

// Returns what is written down of these calls.
fn written(calls: &[(u32, u32)]) -> u64 {
    let mut log = 1;
    for call in calls {
        log = then(log, *call);
    }
    log
}

// Members join a tier.
fn joins<F: Fn(u32, u32) -> bool>(
    rt: &impl Abort,
    tree: &Tree<F>,
    door: Door,
    tier: u16,
    members: u32,
) -> Crew
    requires { door.tree ≡ tree.now.tree }
    ensures { result.tree ≡ tree.now.tree }
{
    assert!(rt; usize::from(tier) < tree.shape().count() && members > 0 && members < 65536);
    match tree.register(door, tier, members, 16) {
        Registered::Joined(crew, _) => crew,
        _ => panic!(rt; "not joined"),
    }
}

// A member arrives or leaves, and isn't the last. This is written down then.
fn goes<F: Fn(u32, u32) -> bool>(
    rt: &impl Abort,
    tree: &Tree<F>,
    crew: Crew,
    leaves: bool,
    log: &AtomicU64,
    want: u64,
) -> Crew
    requires own { crew.tree ≡ tree.now.tree }
    requires rule { Answers (F.pre tree.now.rule.closure) (F.post tree.now.rule.closure) (end_ends_at tree.now.rule.plan) }
    ensures { result.tree ≡ tree.now.tree }
{
    let reported = if leaves {
        tree.arrive_and_deregister(crew, 16)
    } else {
        tree.arrive(crew, 16)
    };
    assert!(rt; log.load(Ordering::SeqCst) == want);
    match reported {
        Arrived::Done(crew, _, _) => crew,
        _ => panic!(rt; "not passed"),
    }
}

// Lets the last member of a crew leave. This is written down then.
fn empties<F: Fn(u32, u32) -> bool>(
    rt: &impl Abort,
    tree: &Tree<F>,
    crew: Crew,
    log: &AtomicU64,
    want: u64,
)
    requires own { crew.tree ≡ tree.now.tree }
    requires rule { Answers (F.pre tree.now.rule.closure) (F.post tree.now.rule.closure) (end_ends_at tree.now.rule.plan) }
{
    match tree.arrive_and_deregister(crew, 16) {
        Arrived::Left(_, _, led) => assert!(rt; led && log.load(Ordering::SeqCst) == want),
        _ => panic!(rt; "not left"),
    }
}

// Three members at one tier and one at another pass phase 0. One of the three leaves last in phase 1, one more and then the
// single one in phase 2, and the last one in phase 3. After each call the closure has been called once for each advance.
fn two_crews_pass<F: Fn(u32, u32) -> bool>(
    rt: &impl Abort,
    tree: &Tree<F>,
    mut door: Door,
    tiers: (u16, u16),
    log: &AtomicU64,
    parties: (u32, u32),
)
    requires own { door.tree ≡ tree.now.tree }
    requires rule { Answers (F.pre tree.now.rule.closure) (F.post tree.now.rule.closure) (end_ends_at tree.now.rule.plan) }
{
    let second = tree.split(&mut door);
    let one = joins(rt, tree, door, tiers.0, 3);
    let other = joins(rt, tree, second, tiers.1, 1);
    let one = goes(rt, tree, one, false, log, written(&[]));
    let one = goes(rt, tree, one, false, log, written(&[]));
    let one = goes(rt, tree, one, false, log, written(&[]));
    let (first, next) = ((0, parties.0), (1, parties.1));
    let other = goes(rt, tree, other, false, log, written(&[first]));
    let other = goes(rt, tree, other, false, log, written(&[first]));
    let one = goes(rt, tree, one, false, log, written(&[first]));
    let one = goes(rt, tree, one, false, log, written(&[first]));
    let one = goes(rt, tree, one, true, log, written(&[first, next]));
    let one = goes(rt, tree, one, true, log, written(&[first, next]));
    let one = goes(rt, tree, one, false, log, written(&[first, next]));
    empties(rt, tree, other, log, written(&[first, next, (2, 1)]));
    empties(rt, tree, one, log, written(&[first, next, (2, 1), (3, 0)]));
}

// Two crews pass on a tree of these widths, whose root has these numbers of parties at the first two advances.
fn reported_alone(
    rt: &impl Abort,
    alloc: Global,
    widths: &str,
    tiers: (u16, u16),
    parties: (u32, u32),
) {
    let log = AtomicU64::new(1);
    let ends = |phase: u32, count: u32| {
        write(&log, phase, count);
        count == 0
    };
    let rule = StoredAdvance::new(ends, WHEN_EMPTY);
    let shape = Shape::from_widths(alloc, widths).expect(rt, "a shape");
    let (tree, door) = Tree::new(alloc, shape, 0, rule).expect(rt, "memory");
    two_crews_pass(rt, &tree, door, tiers, &log, parties);
}

// On one tier all members are parties of the root; on the other tree its children are.
#[test]
fn one_thread_advances(rt: HostRuntime) {
    reported_alone(&rt, rt.alloc(), "flat", (0, 0), (4, 3));
    reported_alone(&rt, rt.alloc(), "2x2", (3, 6), (2, 2));
}

// A member passes three phases, and leaves.
fn passes<R: Wait + Abort, F: Fn(u32, u32) -> bool>(rt: &R, tree: &Tree<F>, crew: Crew) -> bool
    requires own { crew.tree ≡ tree.now.tree }
    requires rule { Answers (F.pre tree.now.rule.closure) (F.post tree.now.rule.closure) (end_ends_at tree.now.rule.plan) }
{
    let mut crew = crew;
    for phase in 0..3u32 {
        match tree.arrive_wait(rt, crew) {
            ArrivedAtLast::Done(next, _, _) => crew = next,
            _ => panic!(rt; "not arrived"),
        }
        assert!(rt; tree.await_advance(rt, &mut crew) == AwaitedAdvance::Passed(phase + 1));
    }
    matches!(tree.leave_wait(rt, crew), ArrivedAtLast::Left(_, _, _))
}

// Threads pass, each with a member at a different leaf.
fn threads_pass<R: Threads + Wait + Abort + Sync, F: Fn(u32, u32) -> bool + Sync>(
    rt: &R,
    alloc: Global,
    tree: &Tree<F>,
    mut door: Door,
)
    requires own { door.tree ≡ tree.now.tree }
    requires rule { Answers (F.pre tree.now.rule.closure) (F.post tree.now.rule.closure) (end_ends_at tree.now.rule.plan) }
{
    let (second, third, fourth) = (
        tree.split(&mut door),
        tree.split(&mut door),
        tree.split(&mut door),
    );
    let crews = vec![in alloc;
        joins(rt, tree, door, 3, 1),
        joins(rt, tree, second, 4, 1),
        joins(rt, tree, third, 5, 1),
        joins(rt, tree, fourth, 6, 1),
    ]
    .expect(rt, "memory");
    let passed = thread::map_vec(
        rt,
        crews,
        &|crew: Crew| -> bool
            requires { (crew.tree ≡ tree.now.tree) × Answers (F.pre tree.now.rule.closure) (F.post tree.now.rule.closure) (end_ends_at tree.now.rule.plan) }
        { passes(rt, tree, crew) },
    );
    assert!(rt; passed.expect(rt, "memory").len() == 4);
}

// Returns what is written down while four threads pass.
fn reported_together<R: Threads + Wait + Abort + Sync>(rt: &R, alloc: Global) -> u64 {
    let log = AtomicU64::new(1);
    let ends = |phase: u32, count: u32| {
        write(&log, phase, count);
        count == 0
    };
    let rule = StoredAdvance::new(ends, WHEN_EMPTY);
    let shape = Shape::from_widths(alloc, "2x2").expect(rt, "a shape");
    let (tree, door) = Tree::new(alloc, shape, 0, rule).expect(rt, "memory");
    threads_pass(rt, alloc, &tree, door);
    log.load(Ordering::SeqCst)
}

#[test]
fn four_threads_advance(rt: HostRuntime) {
    for _ in 0..100 {
        let reported = reported_together(&rt, rt.alloc());
        assert!(rt; reported == written(&[(0, 2), (1, 2), (2, 2), (3, 0)]));
    }
}
