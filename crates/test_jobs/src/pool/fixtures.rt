//! Jobs run on worker threads.
ghost use Rattle.std.specs.Prelude.{◌≤◌};

use crate::left::job_of;
use advance_rule::{EndPlan, StoredAdvance};
use phase_records::{JobStatus, Report};
use std::alloc::Global;
use std::sync::Wait;
use std::sync::atomic::{AtomicU64, Ordering};
use std::thread::Threads;
use task_code::job::Job;
use tier_shape::Shape;
use worker_pool::{Gate, Refused, Starter, run_job};

/// Two tasks that swap two cells.
pub(crate) const SWAP: &str = "bsp 1
array a 2 10 20
body swap
let other = 1 - arg
put a[arg] = a[other]
sync
print a[arg]
end
start swap 0
start swap 1
";

/// A task that spawns eight.
pub(crate) const SPAWNS: &str = "bsp 1
body p
let i = 0
while i < 8
spawn c i
let i = i + 1
end
sync
end
body c
end
start p 0
";

/// Forty tasks of two supersteps.
pub(crate) const FORTY: &str = "bsp 1
body b
sync
end
start b 0
start b 0
start b 0
start b 0
start b 0
start b 0
start b 0
start b 0
start b 0
start b 0
start b 0
start b 0
start b 0
start b 0
start b 0
start b 0
start b 0
start b 0
start b 0
start b 0
start b 0
start b 0
start b 0
start b 0
start b 0
start b 0
start b 0
start b 0
start b 0
start b 0
start b 0
start b 0
start b 0
start b 0
start b 0
start b 0
start b 0
start b 0
start b 0
start b 0
";

// Returns what workers leave of a job, whose tree ends in this phase at the latest. The closure that ends it adds what it gets:
// 1000000 each time, 1000 for each phase, and the parties at the root.
fn run<R: Threads + Wait + Sync, G: Gate + Sync, S: Starter>(
    rt: &R,
    alloc: Global,
    job: &Job,
    shape: Shape,
    workers: u32,
    last: u32,
    gate: &G,
    starter: &S,
    sum: &AtomicU64,
) -> Result<Report, Refused>
    requires workers { (1 ≤ workers) × (workers ≤ 64) }
    requires last { last ≤ 2147483647 }
{
    let plan = EndPlan {
        when_empty: true,
        at: Some(last),
    };
    let advance = StoredAdvance::new(
        |phase: u32, count: u32| {
            let seen = 1000000 + 1000 * u64::from(phase) + u64::from(count);
            sum.fetch_add(seen, Ordering::SeqCst);
            count == 0 || phase == last
        },
        plan,
    );
    run_job(rt, alloc, job, shape, workers, advance, gate, starter)
}

/// Returns what workers leave of a job within a limit, on a tree of these widths. Fails if the number of workers or the limit
/// is out of its range.
pub(crate) fn left_by<R: Threads + Wait + Sync, G: Gate + Sync, S: Starter>(
    rt: &R,
    alloc: Global,
    job: &Job,
    widths: &str,
    workers: u32,
    limit: u32,
    gate: &G,
    starter: &S,
    sum: &AtomicU64,
) -> Result<Report, Refused> {
    if workers < 1 || workers > 64 || limit < 1 || limit > 1000000 {
        return Err(Refused::Internal);
    }
    match Shape::from_widths(alloc, widths) {
        Ok(shape) => run(
            rt,
            alloc,
            job,
            shape,
            workers,
            limit - 1,
            gate,
            starter,
            sum,
        ),
        Err(_) => Err(Refused::Internal),
    }
}

/// How a run ended.
#[derive(Clone, Copy, PartialEq, Eq)]
pub(crate) enum End {
    /// After this many supersteps.
    Ended(u32),
    /// With a fault or at the limit, or the run is refused.
    Otherwise,
    /// The worker of this number couldn't be started.
    NotStarted(u32),
}

// Returns how a run ended.
fn end_of(ran: &Result<Report, Refused>) -> End {
    match ran {
        Ok(report) => match report.status {
            JobStatus::Ended(steps) => End::Ended(steps),
            _ => End::Otherwise,
        },
        Err(Refused::NotStarted(k)) => End::NotStarted(*k),
        Err(_) => End::Otherwise,
    }
}

/// Runs the job of a text on workers, on a tree of these widths, and returns how the run ended.
pub(crate) fn run_text<R: Threads + Wait + Sync, G: Gate + Sync, S: Starter>(
    rt: &R,
    alloc: Global,
    text: &str,
    widths: &str,
    workers: u32,
    gate: &G,
    starter: &S,
    sum: &AtomicU64,
) -> End {
    match job_of(alloc, text) {
        Ok(job) => end_of(&left_by(
            rt, alloc, &job, widths, workers, 1000000, gate, starter, sum,
        )),
        Err(_) => End::Otherwise,
    }
}
