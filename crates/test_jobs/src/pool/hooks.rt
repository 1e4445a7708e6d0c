//! What a gate gets: the path of each task, those of spawned ones too, and the superstep; and in which order one worker runs tasks.
use crate::pool::fixtures::{End, run_text};
use std::alloc::Global;
use std::sync::atomic::{AtomicU64, Ordering};
use std::sync::{Mutex, Wait};
use std::thread::Threads;
use superstep_memory::path::Path;
use worker_pool::{AllStart, Gate};

// A task that spawns one, and then two. Each of those takes two supersteps.
const SPAWNS_LATER: &str = "bsp 1
body p
spawn c 0
sync
spawn c 0
spawn c 0
sync
end
body c
sync
end
start p 0
";

// What a gate gets in that job: the numbers of the path, each one more, and the superstep, as digits. They rise.
const SEGMENTS: [u64; 9] = [10, 11, 12, 111, 112, 122, 123, 132, 133];

// Tasks that turn, or put, as often as they are asked to in superstep 0. In superstep 1 those that turned less turn more, and one that
// put has nothing to do. 35 turns are more statements than 20 puts, but fewer than 20 puts and what these put.
const TURNS: &str = "bsp 1
array a 1
body turn
let i = 0
while i < arg
let i = i + 1
end
sync
let i = 60 - arg
let i = i / 2
while 0 < i
let i = i - 1
end
sync
end
body set
let i = 0
while i < arg
put a[0] = i
let i = i + 1
end
sync
sync
end
start turn 5
start turn 55
start set 20
start turn 35
start turn 45
start turn 15
";

// What a gate gets in that job after superstep 0, in the order in which one worker runs the tasks: those that computed most in the
// superstep before come first.
const ORDER: [u64; 12] = [21, 51, 31, 41, 61, 11, 12, 62, 42, 52, 22, 32];

// A path and a superstep as digits.
fn digits_of(path: &Path, step: u32) -> u64 {
    let mut digits = 0u64;
    for number in path.as_slice() {
        digits = digits.wrapping_mul(10).wrapping_add(u64::from(*number) + 1);
    }
    digits.wrapping_mul(10).wrapping_add(u64::from(step))
}

// Notes what it gets before and after segments. If it is open, it counts the tasks of stretches, and adds up their supersteps.
#[derive(Drop)]
struct Notes {
    open: bool,
    entered: Mutex<Vec<u64>>,
    left: Mutex<Vec<u64>>,
    tasks: AtomicU64,
    steps: AtomicU64,
}

// Adds to a list. If there is no memory, the list stays as it is.
fn note<R: Wait>(rt: &R, list: &Mutex<Vec<u64>>, digits: u64) {
    let _ = list.lock(rt).push(digits);
}

impl Gate for Notes {
    fn is_open(&self) -> bool {
        self.open
    }

    fn stretch<R: Wait>(&self, _rt: &R, step: u32, tasks: usize) {
        let tasks = tasks as u64;
        self.tasks.fetch_add(tasks, Ordering::SeqCst);
        self.steps
            .fetch_add(tasks.wrapping_mul(u64::from(step)), Ordering::SeqCst);
    }

    fn enter<R: Wait>(&self, rt: &R, path: &Path, step: u32) {
        note(rt, &self.entered, digits_of(path, step));
    }

    fn leave<R: Wait>(&self, rt: &R, path: &Path, step: u32) {
        note(rt, &self.left, digits_of(path, step));
    }
}

// What a test sees of a run.
#[derive(Clone, Copy)]
enum Look {
    // Each segment is noted once before it and once after it, in whatever order, and no other.
    Segments,
    // The stretches have nine tasks in all, whose supersteps add up to 16.
    Stretches,
    // The segments after superstep 0 are noted in their order.
    Order,
}

// Returns true if a list has these numbers, in whatever order.
fn has_all(list: &mut Vec<u64>, want: &[u64]) -> bool {
    list.sort_unstable();
    list.as_slice() == want
}

// Returns true if a list ends with these numbers.
fn ends_with(list: &[u64], want: &[u64]) -> bool {
    list.ends_with(want)
}

// Returns true if a gate has noted what it should.
fn has_noted<R: Wait>(rt: &R, notes: &Notes, look: Look) -> bool {
    match look {
        Look::Segments => {
            has_all(&mut notes.entered.lock(rt), &SEGMENTS)
                && has_all(&mut notes.left.lock(rt), &SEGMENTS)
        }
        Look::Stretches => {
            (
                notes.tasks.load(Ordering::SeqCst),
                notes.steps.load(Ordering::SeqCst),
            ) == (9, 16)
        }
        Look::Order => ends_with(&notes.entered.lock(rt), &ORDER),
    }
}

// Returns true if the run of a job ends, and its gate notes what it should.
fn notes_so<R: Threads + Wait + Sync>(
    rt: &R,
    alloc: Global,
    text: &str,
    widths: &str,
    workers: u32,
    look: Look,
) -> bool {
    let notes = Notes {
        open: matches!(look, Look::Stretches),
        entered: Mutex::new(Vec::new(alloc)),
        left: Mutex::new(Vec::new(alloc)),
        tasks: AtomicU64::new(0),
        steps: AtomicU64::new(0),
    };
    let sum = AtomicU64::new(0);
    let end = run_text(rt, alloc, text, widths, workers, &notes, &AllStart, &sum);
    matches!(end, End::Ended(_)) && has_noted(rt, &notes, look)
}

// A job, the widths of a tree, the number of workers, and what is seen.
const ROWS: [(&str, &str, u32, Look); 5] = [
    (SPAWNS_LATER, "2", 1, Look::Segments),
    (SPAWNS_LATER, "2", 3, Look::Segments),
    (SPAWNS_LATER, "2", 1, Look::Stretches),
    (SPAWNS_LATER, "2", 3, Look::Stretches),
    (TURNS, "flat", 1, Look::Order),
];

#[test]
fn a_gate_gets_what_it_should(rt: HostRuntime) {
    for (text, widths, workers, look) in &ROWS {
        assert!(rt; notes_so(&rt, rt.alloc(), text, widths, *workers, *look));
    }
}
