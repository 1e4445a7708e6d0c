//! Segments that overlap: a gate holds tasks, or stretches, until others were entered or left.
use crate::pool::fixtures::{End, FORTY, SWAP, run_text};
use std::alloc::Global;
use std::sync::Wait;
use std::sync::atomic::{AtomicBool, AtomicU64, Ordering};
use std::thread;
use std::thread::Threads;
use superstep_memory::path::Path;
use worker_pool::{AllStart, Gate};

// Three tasks of one superstep.
const THREE: &str = "bsp 1
body b
end
start b 0
start b 1
start b 2
";

// Two tasks of many supersteps.
const LONG: &str = "bsp 1
body b
let i = 0
while i < 1000
let i = i + 1
sync
end
end
start b 0
start b 1
";

// What a gate holds.
#[derive(Clone, Copy)]
pub(crate) enum Hold {
    Nothing,
    // In superstep 0 the task of one start line, until that of another has left.
    Line(u16, u16),
    // In superstep 0 each task, until so many were entered.
    Tasks(u64),
    // In superstep 0 each stretch, until so many began. The gate is open.
    Stretches(u64),
    // In each superstep each task, until so many of it were entered.
    Each(u64),
}

// Holds segments or stretches. After many turns it gives up, and holds none any more.
#[derive(Drop)]
pub(crate) struct Holds {
    hold: Hold,
    // How many segments or stretches were entered.
    entered: AtomicU64,
    // How many segments were left for which others wait.
    left: AtomicU64,
    // Whether one that was held went on as it should.
    went_on: AtomicBool,
    gave_up: AtomicBool,
}

// Returns true if a path is that of the start line of this number.
fn is_start(path: &Path, number: u16) -> bool {
    path.as_slice() == [number].as_slice()
}

impl Holds {
    // A gate that holds these.
    pub(crate) fn new(hold: Hold) -> Self {
        Holds {
            hold,
            entered: AtomicU64::new(0),
            left: AtomicU64::new(0),
            went_on: AtomicBool::new(false),
            gave_up: AtomicBool::new(false),
        }
    }

    // Returns the number of segments and stretches that were entered.
    pub(crate) fn count_entered(&self) -> u64 {
        self.entered.load(Ordering::SeqCst)
    }

    // Waits until a count has reached a number.
    fn wait_for(&self, count: &AtomicU64, wanted: u64) {
        for _ in 0..10000000u32 {
            if self.gave_up.load(Ordering::SeqCst) {
                return;
            }
            if count.load(Ordering::SeqCst) >= wanted {
                self.went_on.store(true, Ordering::SeqCst);
                return;
            }
            thread::yield_now();
        }
        self.gave_up.store(true, Ordering::SeqCst);
    }
}

impl Gate for Holds {
    fn is_open(&self) -> bool {
        matches!(self.hold, Hold::Stretches(_))
    }

    fn stretch<R: Wait>(&self, _rt: &R, step: u32, _tasks: usize) {
        if let Hold::Stretches(wanted) = self.hold {
            if step == 0 {
                self.entered.fetch_add(1, Ordering::SeqCst);
                self.wait_for(&self.entered, wanted);
            }
        }
    }

    fn enter<R: Wait>(&self, _rt: &R, path: &Path, step: u32) {
        self.entered.fetch_add(1, Ordering::SeqCst);
        match self.hold {
            Hold::Line(held, _) if step == 0 && is_start(path, held) => {
                self.wait_for(&self.left, 1)
            }
            Hold::Tasks(wanted) if step == 0 => self.wait_for(&self.entered, wanted),
            Hold::Each(wanted) => {
                let steps = u64::from(step).wrapping_add(1);
                self.wait_for(&self.entered, steps.wrapping_mul(wanted))
            }
            _ => {}
        }
    }

    fn leave<R: Wait>(&self, _rt: &R, path: &Path, step: u32) {
        if let Hold::Line(_, awaited) = self.hold {
            if step == 0 && is_start(path, awaited) {
                self.left.fetch_add(1, Ordering::SeqCst);
            }
        }
    }
}

// Returns how a run with this gate ended, whether one that was held went on, and whether the gate gave up.
fn ends<R: Threads + Wait + Sync>(
    rt: &R,
    alloc: Global,
    text: &str,
    widths: &str,
    workers: u32,
    hold: Hold,
) -> (End, bool, bool) {
    let gate = Holds::new(hold);
    let sum = AtomicU64::new(0);
    let end = run_text(rt, alloc, text, widths, workers, &gate, &AllStart, &sum);
    (
        end,
        gate.went_on.load(Ordering::SeqCst),
        gate.gave_up.load(Ordering::SeqCst),
    )
}

// A job, the widths of a tree, the number of workers, what is held, and after how many supersteps the job ends.
type Row = (&'static str, &'static str, u32, Hold, u32);

// Two workers hold one task each: either may wait for the other. They do of forty tasks too: at a gate that isn't open no worker
// has two of them at a time. Three workers are three threads, and share the stretches of a job if no gate sees its segments.
// In each superstep of a long run both workers have a task.
const ROWS: [Row; 18] = [
    (SWAP, "flat", 2, Hold::Line(0, 1), 2),
    (SWAP, "flat", 2, Hold::Line(1, 0), 2),
    (SWAP, "2", 2, Hold::Line(0, 1), 2),
    (SWAP, "2", 2, Hold::Line(1, 0), 2),
    (SWAP, "2x3", 2, Hold::Line(0, 1), 2),
    (SWAP, "2x3", 2, Hold::Line(1, 0), 2),
    (FORTY, "flat", 2, Hold::Line(0, 1), 2),
    (FORTY, "flat", 2, Hold::Line(1, 0), 2),
    (FORTY, "2", 2, Hold::Line(0, 1), 2),
    (FORTY, "2", 2, Hold::Line(1, 0), 2),
    (FORTY, "2x3", 2, Hold::Line(0, 1), 2),
    (FORTY, "2x3", 2, Hold::Line(1, 0), 2),
    (THREE, "flat", 3, Hold::Tasks(3), 1),
    (THREE, "2x3", 3, Hold::Tasks(3), 1),
    (FORTY, "flat", 3, Hold::Stretches(3), 2),
    (FORTY, "2x3", 3, Hold::Stretches(3), 2),
    (LONG, "flat", 2, Hold::Each(2), 1001),
    (LONG, "2", 2, Hold::Each(2), 1001),
];

#[test]
fn workers_overlap(rt: HostRuntime) {
    for (text, widths, workers, hold, steps) in &ROWS {
        let ended = ends(&rt, rt.alloc(), text, widths, *workers, *hold);
        assert!(rt; ended == (End::Ended(*steps), true, false));
    }
}
