//! Threads at the barrier of `phasers`, whose gate keeps the ends of its generations: scenes that one function plays.

use phasers::barrier::{Action, Barrier, BarrierFault, GateFault};
use std::alloc::Global;
use std::process::Abort;
use std::sync::Wait;
use std::sync::atomic::{AtomicU64, Ordering};
use std::thread;
use std::thread::Threads;

// What is counted once the action has run for another generation than the next, or twice for one.
const OUT_OF_ORDER: u64 = u64::MAX;

// Counts the generations, if they come in order, each once.
#[derive(Drop)]
struct InOrder<'a>(&'a AtomicU64);

impl Action for InOrder<'_> {
    fn run(&self, generation: u64) {
        let runs = self.0.load(Ordering::SeqCst);
        let next = if runs == generation {
            runs.wrapping_add(1)
        } else {
            OUT_OF_ORDER
        };
        self.0.store(next, Ordering::SeqCst);
    }
}

type Counted<'a> = Barrier<InOrder<'a>>;

// What each of the threads does.
#[derive(Clone, Copy)]
enum Duty {
    // It comes 500 times, and finds after each of its turns that the action has run once a generation, with its number. All
    // parties come each time, so no later generation can end before this thread comes again.
    SeesEach,
    // It comes until it has had a turn in a number of generations, or another thread has, and then ends all. After some of
    // each sixteen turns it looks how many ends are kept.
    Looks(u32, u32),
    // It comes as caller 0, or as caller 1 if the other thread waits as caller 0.
    Insists,
    // The first thread waits as caller 0. The second removes it, and comes to a broken barrier then.
    Parts,
}

// What a thread returns that got a wrong answer: more than any number of ends that are kept.
const WRONG: usize = usize::MAX;

// Breaks the barrier, so that nobody waits for a thread that got a wrong answer.
fn gives_up<R: Wait>(rt: &R, barrier: &Counted<'_>) -> usize {
    barrier.break_off(rt);
    WRONG
}

fn sees_each<R: Wait>(rt: &R, barrier: &Counted<'_>, runs: &AtomicU64, caller: u32) -> usize {
    for turn in 0..500u64 {
        let is_given = barrier.await_turn(rt, caller).is_ok();
        if !is_given || runs.load(Ordering::SeqCst) != turn + 1 {
            return gives_up(rt, barrier);
        }
    }
    0
}

// Returns the most ends that it saw kept.
fn looks<R: Wait>(rt: &R, barrier: &Counted<'_>, caller: u32, turns: u32, some: u32) -> usize {
    let mut most = 0;
    for turn in 0..turns {
        match barrier.await_turn(rt, caller) {
            Ok(_) if turn % 16 < some => most = most.max(barrier.kept(rt)),
            Ok(_) => {}
            Err(GateFault::Broken) => return most,
            Err(_) => return gives_up(rt, barrier),
        }
    }
    barrier.break_off(rt);
    most
}

fn insists<R: Wait>(rt: &R, barrier: &Counted<'_>) -> usize {
    let turn = match barrier.await_turn(rt, 0) {
        Err(GateFault::AlreadyWaiting) => barrier.await_turn(rt, 1),
        turn => turn,
    };
    if turn.is_err() {
        return gives_up(rt, barrier);
    }
    0
}

// Removes caller 0 once it waits. Gives up after many turns.
fn removes<R: Wait>(rt: &R, barrier: &Counted<'_>) -> usize {
    for _ in 0..1000000u32 {
        match barrier.abandon(rt, 0) {
            Err(BarrierFault::NotWaiting) => thread::yield_now(),
            Ok(others) if others.is_empty() => return is_broken(rt, barrier),
            _ => break,
        }
    }
    gives_up(rt, barrier)
}

// Comes as caller 0, whose answer has to be that the barrier is broken.
fn is_broken<R: Wait>(rt: &R, barrier: &Counted<'_>) -> usize {
    if barrier.await_turn(rt, 0) == Err(GateFault::Broken) {
        return 0;
    }
    WRONG
}

// Does what the thread of this number does.
fn does<R: Wait>(
    rt: &R,
    barrier: &Counted<'_>,
    runs: &AtomicU64,
    duty: Duty,
    thread: usize,
) -> usize {
    let caller = (thread % 64) as u32;
    match duty {
        Duty::SeesEach => sees_each(rt, barrier, runs, caller),
        Duty::Looks(turns, some) => looks(rt, barrier, caller, turns, some),
        Duty::Insists => insists(rt, barrier),
        Duty::Parts if thread == 0 => is_broken(rt, barrier),
        Duty::Parts => removes(rt, barrier),
    }
}

// How many parties a barrier has, how many threads come to it, how often they are started, and what each of them does. Then
// the least and the most ends that one of them has to see kept, and how often the action has to run at least.
type Scene = (i64, usize, u32, Duty, (usize, usize), u64);

const SCENES: [Scene; 6] = [
    // The action runs once a generation.
    (2, 2, 1, Duty::SeesEach, (0, 0), 500),
    (3, 3, 1, Duty::SeesEach, (0, 0), 500),
    (4, 4, 1, Duty::SeesEach, (0, 0), 500),
    // A caller that waits already breaks nothing.
    (2, 2, 20, Duty::Insists, (0, 0), 20),
    // An end is kept until it is read.
    (2, 2, 1, Duty::Looks(20000, 16), (1, 1), 20000),
    // A caller that waits is removed.
    (2, 2, 1, Duty::Parts, (0, 0), 0),
];

// Never are more ends kept than there are other threads, also if more threads come than there are parties.
const BY_TWO: [Scene; 2] = [
    (2, 2, 1, Duty::Looks(100000, 1), (0, 1), 100000),
    (2, 3, 1, Duty::Looks(100000, 1), (0, 2), 100000),
];

const BY_FOUR: [Scene; 2] = [
    (4, 4, 1, Duty::Looks(100000, 1), (0, 3), 100000),
    (4, 6, 1, Duty::Looks(100000, 1), (0, 5), 100000),
];

// Returns true if a scene is played as it says, and nothing is kept in the end.
fn is_played<R: Threads + Wait + Abort + Sync>(rt: &R, alloc: Global, scene: &Scene) -> bool {
    let (parties, threads, rounds, duty, (least, most), least_runs) = *scene;
    let runs = AtomicU64::new(0);
    let barrier = Barrier::new(alloc, parties, InOrder(&runs)).expect(rt, "a barrier");
    let mut kept = 0;
    for _ in 0..rounds {
        let seen = thread::map_indices(
            rt,
            alloc,
            threads,
            &|i: usize| does(rt, &barrier, &runs, duty, i),
        );
        for it in &seen.expect(rt, "memory") {
            kept = kept.max(*it);
        }
    }
    let runs = runs.load(Ordering::SeqCst);
    least <= kept
        && kept <= most
        && least_runs <= runs
        && runs < OUT_OF_ORDER
        && barrier.kept(rt) == 0
}

#[test]
fn threads_come_to_a_barrier(rt: HostRuntime) {
    for (number, scene) in SCENES.iter().enumerate() {
        assert!(rt; is_played(&rt, rt.alloc(), scene), "scene {number}");
    }
}

#[test]
fn two_parties_keep_little(rt: HostRuntime) {
    for scene in &BY_TWO {
        assert!(rt; is_played(&rt, rt.alloc(), scene));
    }
}

#[test]
fn four_parties_keep_little(rt: HostRuntime) {
    for scene in &BY_FOUR {
        assert!(rt; is_played(&rt, rt.alloc(), scene));
    }
}
