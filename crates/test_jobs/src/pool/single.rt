//! Jobs on one worker thread, and on four: the program runs a job of one worker without a thread.
use crate::left::{is_left_alone, job_of};
use crate::pool::fixtures::{End, left_by, run_text};
use crate::schedule::orders::JOBS;
use std::alloc::Global;
use std::process::Abort;
use std::sync::Wait;
use std::sync::atomic::AtomicU64;
use std::thread::Threads;
use task_code::job::Job;
use worker_pool::{AllStart, OpenGate};

// Returns true if `workers` workers leave of a job what it leaves on one thread without workers.
fn leave_the_same<R: Threads + Wait + Sync>(
    rt: &R,
    alloc: Global,
    job: &Job,
    widths: &str,
    workers: u32,
    limit: u32,
) -> bool {
    let sum = AtomicU64::new(0);
    match left_by(
        rt, alloc, job, widths, workers, limit, &OpenGate, &AllStart, &sum,
    ) {
        Ok(report) => is_left_alone(alloc, job, limit, &report),
        Err(_) => false,
    }
}

// Returns true if they do so with the job of this text.
fn is_so<R: Threads + Wait + Sync>(
    rt: &R,
    alloc: Global,
    text: &str,
    widths: &str,
    workers: u32,
    limit: u32,
) -> bool {
    match job_of(alloc, text) {
        Ok(job) => leave_the_same(rt, alloc, &job, widths, workers, limit),
        Err(_) => false,
    }
}

// The widths of each tree, and each number of workers.
const CREWS: [(&str, u32); 6] = [
    ("flat", 1),
    ("flat", 4),
    ("2", 1),
    ("2", 4),
    ("2x3", 1),
    ("2x3", 4),
];

#[test]
fn workers_leave_what_one_thread_leaves(rt: HostRuntime) {
    for (text, limit) in &JOBS {
        for (widths, workers) in &CREWS {
            assert!(rt; is_so(&rt, rt.alloc(), text, widths, *workers, *limit));
        }
    }
}

// Four tasks of many supersteps.
const LONG: &str = "bsp 1
body b
let i = 0
while i < 20000
let i = i + 1
sync
end
end
start b 0
start b 1
start b 2
start b 3
";

// Rows of stretches may come back to the board when their superstep is closed already.
#[test]
fn cohorts_may_come_late(rt: HostRuntime) {
    let sum = AtomicU64::new(0);
    let end = run_text(&rt, rt.alloc(), LONG, "flat", 4, &OpenGate, &AllStart, &sum);
    assert!(rt; end == End::Ended(20001));
}
