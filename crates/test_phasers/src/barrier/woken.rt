//! Calls at the gate that end the wait of one, two or three threads: scenes that one function plays. Who waits has to be
//! answered. A call that wakes too few would leave the others waiting, so the test would not end within its 60 seconds.
ghost use Rattle.advance_rule.specs.Action.{AnswersAction};

use advance_rule::StoredAction;
use cyclic_gate::{CyclicGate, GateFault};
use std::alloc::Global;
use std::process::Abort;
use std::sync::Wait;
use std::sync::atomic::{AtomicU32, Ordering};
use std::thread;
use std::thread::Threads;

// What a thread gets from the gate.
type Turn = Result<u32, GateFault>;

const BROKEN: Turn = Err(GateFault::Broken);

// What a thread answers that ended the wait of all others by one call.
const ENDED: Turn = Ok(7);

// What a thread answers that found something else wrong.
const WRONG: Turn = Err(GateFault::Memory);

// How the last thread ends the wait of the others.
#[derive(Clone, Copy)]
enum Interruption {
    // It comes too.
    Comes,
    // It comes as caller 0, and as another one if the answer is that caller 0 waits.
    ComesAgain,
    // It starts the next generation.
    Resets,
    // It breaks the gate.
    BreaksOff,
    // It takes this caller away.
    TakesAway(u32),
}

// How many threads have come, how many have got their turn, and whether all is over. Then how often the action has run, and
// how often all parties of the gate have come in the end.
#[derive(Drop)]
struct Marks<'a> {
    coming: AtomicU32,
    gone: AtomicU32,
    over: AtomicU32,
    runs: &'a AtomicU32,
    trips: u32,
}

// How many threads wait, how their wait ends, and what the last thread gets. Of threads that only come, each may be the last,
// however long one gives the others, so there it is `None`. Then what the others get, or all of them, in any order.
type Scene<'a> = (u32, Interruption, Option<Turn>, &'a [Turn]);

// Comes as a caller, and as the caller 9 if that one waits.
fn comes<R: Wait, F: Fn(u64) -> bool>(rt: &R, gate: &CyclicGate<F>, caller: u32) -> Turn
    requires { AnswersAction (F.pre gate.now.action.closure) (F.post gate.now.action.closure) gate.now.action.plan }
{
    let turn = gate.await_turn(rt, caller);
    if turn == Err(GateFault::AlreadyWaiting) {
        return gate.await_turn(rt, 9);
    }
    if turn == Err(GateFault::Memory) {
        gate.break_off(rt);
    }
    turn
}

// Waits, after it has said so. If the gate is to be broken off, and was before all is over, it waits again.
fn waits<R: Wait, F: Fn(u64) -> bool>(
    rt: &R,
    gate: &CyclicGate<F>,
    marks: &Marks<'_>,
    interruption: Interruption,
    caller: u32,
) -> Turn
    requires { AnswersAction (F.pre gate.now.action.closure) (F.post gate.now.action.closure) gate.now.action.plan }
{
    marks.coming.fetch_add(1, Ordering::SeqCst);
    let mut turn = comes(rt, gate, caller);
    for _ in 0..1000000u32 {
        let is_early = turn == BROKEN && marks.over.load(Ordering::SeqCst) == 0;
        if !is_early || !matches!(interruption, Interruption::BreaksOff) {
            break;
        }
        thread::yield_now();
        turn = comes(rt, gate, caller);
    }
    marks.gone.fetch_add(1, Ordering::SeqCst);
    turn
}

// Gives the others time until `want` are counted.
fn gives_time(count: &AtomicU32, want: u32, most: u32) {
    for _ in 0..most {
        if count.load(Ordering::SeqCst) == want {
            return;
        }
        thread::yield_now();
    }
}

// Returns how many callers a list has, or more than can wait if it has another one than those below `waiting`.
fn counted(callers: &[u32], waiting: u32) -> usize {
    for caller in callers {
        if *caller >= waiting {
            return usize::MAX;
        }
    }
    callers.len()
}

// Ends the wait of all who wait, by one call, and returns how many they are.
fn ends_once<R: Wait, F: Fn(u64) -> bool>(
    rt: &R,
    gate: &CyclicGate<F>,
    interruption: Interruption,
    waiting: u32,
) -> usize {
    match interruption {
        Interruption::Comes | Interruption::ComesAgain => 0,
        Interruption::Resets => counted(&gate.reset(rt), waiting),
        Interruption::BreaksOff => counted(&gate.break_off(rt), waiting),
        Interruption::TakesAway(caller) => match gate.abandon(rt, caller) {
            Ok(others) if others.contains(&caller) => usize::MAX,
            Ok(others) => counted(&others, waiting).saturating_add(1),
            Err(_) => 0,
        },
    }
}

// Ends the wait of the others. If nobody waits yet, tries again. If that came too early for some, breaks the gate until they
// are gone. It is wrong if the call never ends a wait, or ends that of a caller who doesn't wait.
fn ends_the_wait<R: Wait, F: Fn(u64) -> bool>(
    rt: &R,
    gate: &CyclicGate<F>,
    marks: &Marks<'_>,
    interruption: Interruption,
    waiting: u32,
) -> Turn {
    let mut ended = 0;
    for _ in 0..1000000u32 {
        ended = ends_once(rt, gate, interruption, waiting);
        if ended > 0 {
            break;
        }
        if matches!(interruption, Interruption::BreaksOff) {
            gate.reset(rt);
        }
        thread::yield_now();
    }
    marks.over.store(1, Ordering::SeqCst);
    if ended == waiting as usize {
        return ENDED;
    }
    for _ in 0..100000u32 {
        gate.break_off(rt);
        gives_time(&marks.gone, waiting, 10);
    }
    if ended == 0 || ended > waiting as usize {
        return WRONG;
    }
    ENDED
}

// Does what the thread of this number does: the last ends the wait of the others, once they had time to come.
fn goes<R: Wait, F: Fn(u64) -> bool>(
    rt: &R,
    gate: &CyclicGate<F>,
    marks: &Marks<'_>,
    scene: &Scene<'_>,
    thread: usize,
) -> Turn
    requires { AnswersAction (F.pre gate.now.action.closure) (F.post gate.now.action.closure) gate.now.action.plan }
{
    let caller = (thread % 64) as u32;
    if caller < scene.0 {
        return waits(rt, gate, marks, scene.1, caller);
    }
    gives_time(&marks.coming, scene.0, 1000000);
    gives_time(&marks.gone, scene.0, 20000);
    match scene.1 {
        Interruption::Comes => comes(rt, gate, caller),
        Interruption::ComesAgain => comes(rt, gate, 0),
        interruption => ends_the_wait(rt, gate, marks, interruption, scene.0),
    }
}

// Does what the thread of this number does. The action has to have run once for each time that all parties came, before any
// of them goes on.
fn does<R: Wait, F: Fn(u64) -> bool>(
    rt: &R,
    gate: &CyclicGate<F>,
    marks: &Marks<'_>,
    scene: &Scene<'_>,
    thread: usize,
) -> Turn
    requires { AnswersAction (F.pre gate.now.action.closure) (F.post gate.now.action.closure) gate.now.action.plan }
{
    let turn = goes(rt, gate, marks, scene, thread);
    if marks.runs.load(Ordering::SeqCst) != marks.trips {
        return WRONG;
    }
    turn
}

// Returns how often an answer is among these.
fn times(turns: &[Turn], want: Turn) -> u32 {
    let mut times = 0u32;
    for turn in turns {
        if *turn == want {
            times = times.wrapping_add(1);
        }
    }
    times
}

// Returns true if these are the same answers, in any order.
fn are(turns: &[Turn], wants: &[Turn]) -> bool {
    for want in wants {
        if times(turns, *want) != times(wants, *want) {
            return false;
        }
    }
    turns.len() == wants.len()
}

// Returns true if the threads got what a scene says.
fn are_answered(turns: &[Turn], scene: &Scene<'_>) -> bool {
    let Some((last, others)) = turns.split_last() else {
        return false;
    };
    match scene.2 {
        Some(want) => *last == want && are(others, scene.3),
        None => are(turns, scene.3),
    }
}

// Returns true if a broken gate answers a late caller so, and keeps nobody whom a reset would wake.
fn is_mended<R: Wait, F: Fn(u64) -> bool>(
    rt: &R,
    gate: &CyclicGate<F>,
    interruption: Interruption,
) -> bool
    requires { AnswersAction (F.pre gate.now.action.closure) (F.post gate.now.action.closure) gate.now.action.plan }
{
    match interruption {
        Interruption::BreaksOff | Interruption::TakesAway(_) => {
            gate.await_turn(rt, 2) == BROKEN && gate.reset(rt).is_empty()
        }
        _ => true,
    }
}

// Plays a scene. Returns true if all threads are answered as it says, no end is kept, and a broken gate is mended.
fn is_played<R: Threads + Wait + Abort + Sync, F: Fn(u64) -> bool + Sync>(
    rt: &R,
    alloc: Global,
    gate: &CyclicGate<F>,
    scene: &Scene<'_>,
    marks: &Marks<'_>,
) -> bool
    requires { AnswersAction (F.pre gate.now.action.closure) (F.post gate.now.action.closure) gate.now.action.plan }
{
    let turns = thread::map_indices(
        rt,
        alloc,
        scene.0.saturating_add(1) as usize,
        &|i: usize| -> Turn
            requires { AnswersAction (F.pre gate.now.action.closure) (F.post gate.now.action.closure) gate.now.action.plan }
        { does(rt, gate, marks, scene, i) },
    );
    are_answered(&turns.expect(rt, "memory"), scene)
        && gate.kept(rt) == 0
        && is_mended(rt, gate, scene.1)
}

// How many parties a gate has, in which generation its action fails, and the scenes that are played at it one after another.
type Row<'a> = (i64, Option<u64>, &'a [Scene<'a>]);

// Plays the scenes of a row at a new gate.
fn plays<R: Threads + Wait + Abort + Sync>(rt: &R, alloc: Global, row: &Row<'_>) -> bool {
    let (parties, fails, scenes) = *row;
    let runs = AtomicU32::new(0);
    let action = |generation: u64| {
        runs.fetch_add(1, Ordering::SeqCst);
        fails == Some(generation)
    };
    let action = StoredAction::new(action, fails);
    let gate = CyclicGate::new(alloc, parties, action).expect(rt, "a gate");
    let mut trips = 0u32;
    for scene in scenes {
        if matches!(scene.1, Interruption::Comes | Interruption::ComesAgain) {
            trips = trips.wrapping_add(1);
        }
        let marks = Marks {
            coming: AtomicU32::new(0),
            gone: AtomicU32::new(0),
            over: AtomicU32::new(0),
            runs: &runs,
            trips,
        };
        if !is_played(rt, alloc, &gate, scene, &marks) {
            return false;
        }
    }
    true
}

const FAILED: Turn = Err(GateFault::ActionFailed);

const THREE: [Turn; 3] = [BROKEN, BROKEN, BROKEN];

// One thread or three wait, and another ends their wait.
const ONE_IS_RESET: [Scene<'static>; 1] = [(1, Interruption::Resets, Some(ENDED), &[BROKEN])];

const ONE_IS_BROKEN: [Scene<'static>; 1] = [(1, Interruption::BreaksOff, Some(ENDED), &[BROKEN])];

const ONE_IS_TAKEN: [Scene<'static>; 1] = [(1, Interruption::TakesAway(0), Some(ENDED), &[BROKEN])];

const THREE_ARE_RESET: [Scene<'static>; 1] = [(3, Interruption::Resets, Some(ENDED), &THREE)];

const THREE_ARE_BROKEN: [Scene<'static>; 1] = [(3, Interruption::BreaksOff, Some(ENDED), &THREE)];

const ONE_OF_THREE_IS_TAKEN: [Scene<'static>; 1] = [(
    3,
    Interruption::TakesAway(0),
    Some(ENDED),
    &THREE,
)];

// Two threads meet, also if both come as caller 0.
const TWO_MEET: [Scene<'static>; 1] = [(1, Interruption::Comes, None, &[Ok(1), Ok(0)])];

const TWO_COME_AGAIN: [Scene<'static>; 1] = [(1, Interruption::ComesAgain, None, &[Ok(1), Ok(0)])];

// The action fails when two or four come.
const TWO_FAIL: [Scene<'static>; 1] = [(1, Interruption::Comes, None, &[BROKEN, FAILED])];

const FOUR_FAIL: [Scene<'static>; 1] = [(
    3,
    Interruption::Comes,
    None,
    &[BROKEN, BROKEN, BROKEN, FAILED],
)];

// Three threads meet. Then one of two that wait is taken away, which breaks the gate. After a reset they meet there again.
const MEET_TWICE: [Scene<'static>; 3] = [
    (2, Interruption::Comes, None, &[Ok(0), Ok(1), Ok(2)]),
    (
        2,
        Interruption::TakesAway(1),
        Some(ENDED),
        &[BROKEN, BROKEN],
    ),
    (2, Interruption::Comes, None, &[Ok(0), Ok(1), Ok(2)]),
];

const ROWS: [Row<'static>; 11] = [
    (2, None, &TWO_MEET),
    (2, Some(0), &TWO_FAIL),
    (2, Some(1), &TWO_COME_AGAIN),
    (2, None, &ONE_IS_RESET),
    (2, None, &ONE_IS_BROKEN),
    (2, None, &ONE_IS_TAKEN),
    (4, Some(0), &FOUR_FAIL),
    (4, None, &THREE_ARE_RESET),
    (4, None, &THREE_ARE_BROKEN),
    (4, None, &ONE_OF_THREE_IS_TAKEN),
    (3, None, &MEET_TWICE),
];

#[test]
fn who_waits_is_answered(rt: HostRuntime) {
    for (number, row) in ROWS.iter().enumerate() {
        assert!(rt; plays(&rt, rt.alloc(), row), "row {number}");
    }
}

const A_TRIP: [Scene<'static>; 1] = [(3, Interruption::Comes, None, &[Ok(0), Ok(1), Ok(2), Ok(3)])];

#[test]
fn a_trip_wakes_three(rt: HostRuntime) {
    for _ in 0..20 {
        assert!(rt; plays(&rt, rt.alloc(), &(4, None, &A_TRIP)));
    }
}
