//! A job on worker threads, within a limit of supersteps.
ghost use Rattle.std.specs.Prelude.{◌≡◌, ◌≤◌, Some, IfOk, IfErr};
ghost use Rattle.step_core.specs.Program.{program_of};
ghost use Rattle.step_core.specs.JobMeaning.{report_of};
ghost use Rattle.stretch_queue.specs.Refusals.{IsOfWorkers};

use crate::job::run_job;
use advance_rule::{EndPlan, StoredAdvance};
use phase_records::Report;
use std::alloc::Global;
use std::sync::Wait;
use std::thread::Threads;
use stretch_queue::fault::Refused;
use stretch_queue::hooks::{Gate, Starter};
use task_code::job::Job;
use tier_shape::Shape;

/// Runs `job` on `workers` threads that synchronize at a tree of phasers of this `shape`, for at most `limit` supersteps.
/// The report is the one that a single thread produces within the same limit. `gate` is called before and after each
/// segment, and `starter` before each worker is started. Pass `&OpenGate` and `&AllStart` for none.
///
/// Returns after joining all workers. Termination is not part of the contract. Fails with `Memory` if memory runs out,
/// and with `NotStarted` if a worker could not be started.
pub fn run_within<R: Threads + Wait + Sync, G: Gate + Sync, S: Starter>(
    rt: &R,
    alloc: Global,
    job: &Job,
    shape: Shape,
    workers: u32,
    limit: u32,
    gate: &G,
    starter: &S,
) -> Result<Report, Refused>
    requires workers { (1 ≤ workers) × (workers ≤ 64) }
    requires limit { (1 ≤ limit) × (limit ≤ 2147483648) }
    ensures report { IfOk result (λ report. report_of (program_of job.now) limit ≡ Some report) }
    ensures started { IfErr result (IsOfWorkers workers) }
{
    let last = limit - 1;
    let plan = EndPlan::at_phase(last);
    let advance = StoredAdvance::new(|phase: u32, count: u32| count == 0 || phase == last, plan);
    run_job(rt, alloc, job, shape, workers, advance, gate, starter)
}
