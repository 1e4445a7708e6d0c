//! What `run` reports of its progress, to a `Progress` of the test, and that workers share a job's segments.
use crate::runs::{SWAP, status_of};
use bsp_cli::{ObserveEnd, Progress};
use phase_records::JobStatus;
use std::alloc::Global;
use std::sync::Wait;
use std::sync::atomic::{AtomicU64, Ordering};
use std::thread;
use std::thread::Threads;
use step_core::Observe;
use superstep_memory::arrays::Arrays;
use superstep_memory::path::Path;
use worker_pool::Gate;

// How often each call was made.
#[derive(Drop)]
struct Counts {
    supersteps: AtomicU64,
    tasks: AtomicU64,
    ends: AtomicU64,
    left: AtomicU64,
    gave_up: AtomicU64,
    ended: AtomicU64,
}

// Counts the calls. It may hold the first task in superstep 0 until the second has left. After many turns it gives up.
#[derive(Clone, Copy)]
struct Counter<'a> {
    counts: &'a Counts,
    holds: bool,
}

// Adds to a count.
fn add(count: &AtomicU64, number: u64) {
    count.fetch_add(number, Ordering::SeqCst);
}

// Returns the value of a count.
fn of(count: &AtomicU64) -> u64 {
    count.load(Ordering::SeqCst)
}

// Returns true if a path is that of the start line of this number.
fn is_start(path: &Path, number: u16) -> bool {
    path.as_slice() == [number].as_slice()
}

impl Observe for Counter<'_> {
    fn superstep(&mut self, _step: u32, _arrays: &Arrays, tasks: usize) {
        add(&self.counts.supersteps, 1);
        add(&self.counts.tasks, tasks as u64);
    }
}

impl ObserveEnd for Counter<'_> {
    fn end(self) {
        add(&self.counts.ends, 1);
    }
}

impl Gate for Counter<'_> {
    fn enter<R: Wait>(&self, _rt: &R, path: &Path, step: u32) {
        if !self.holds || step != 0 || !is_start(path, 0) {
            return;
        }
        for _ in 0..10000000u32 {
            if of(&self.counts.left) > 0 {
                return;
            }
            thread::yield_now();
        }
        add(&self.counts.gave_up, 1);
    }

    fn leave<R: Wait>(&self, _rt: &R, _path: &Path, _step: u32) {
        add(&self.counts.left, 1);
    }
}

impl<'a> Progress for Counter<'a> {
    type Alone = Counter<'a>;

    fn alone(&self) -> Counter<'a> {
        *self
    }

    fn end<R: Wait>(&self, _rt: &R) {
        add(&self.counts.ends, 1);
    }

    fn set_end<R: Wait>(&self, _rt: &R, status: JobStatus) {
        if let JobStatus::Ended(2) = status {
            add(&self.counts.ended, 1);
        }
    }
}

// The numbers of supersteps, tasks, segments that were left, ends, ends with the right status, and holds that were given up.
fn seen(counts: &Counts) -> [u64; 6] {
    [
        of(&counts.supersteps),
        of(&counts.tasks),
        of(&counts.left),
        of(&counts.ends),
        of(&counts.ended),
        of(&counts.gave_up),
    ]
}

// Counts of nothing.
fn nothing() -> Counts {
    Counts {
        supersteps: AtomicU64::new(0),
        tasks: AtomicU64::new(0),
        ends: AtomicU64::new(0),
        left: AtomicU64::new(0),
        gave_up: AtomicU64::new(0),
        ended: AtomicU64::new(0),
    }
}

// The words of a command line, whether a task is held, and what is counted: supersteps and tasks on one thread, segments on several,
// and ends.
type Row = (&'static [&'static str], bool, [u64; 4]);

// Returns true if a run of two tasks that swap two cells succeeds and reports this much. Each run passes its status on.
fn tells<R: Threads + Wait + Sync>(
    rt: &R,
    alloc: Global,
    words: &[&str],
    holds: bool,
    [supersteps, tasks, left, ends]: [u64; 4],
) -> bool {
    let counts = nothing();
    let counter = Counter {
        counts: &counts,
        holds,
    };
    let status = status_of(rt, alloc, words, SWAP.as_bytes(), &counter);
    status == 0 && seen(&counts) == [supersteps, tasks, left, ends, 1, 0]
}

// One worker reports two supersteps of two tasks each, and the end. Nothing is reported if no progress is asked for. Four workers
// report four segments and the end. One task waits until the other has left, so two threads work.
const ROWS: [Row; 5] = [
    (&["bsp", "run", "--progress"], false, [2, 4, 0, 1]),
    (&["bsp", "run"], false, [0, 0, 0, 0]),
    (&["bsp", "run", "--workers", "4"], false, [0, 0, 0, 0]),
    (BY_FOUR, false, [0, 0, 4, 1]),
    (BY_FOUR, true, [0, 0, 4, 1]),
];

const BY_FOUR: &[&str] = &["bsp", "run", "--progress", "--workers", "4"];

#[test]
fn progress_is_reported_of_each_superstep_or_segment(rt: HostRuntime) {
    for (words, holds, want) in &ROWS {
        assert!(rt; tells(&rt, rt.alloc(), words, *holds, *want));
    }
}
