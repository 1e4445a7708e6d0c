//! Runs a job on worker threads.
ghost use Rattle.std.specs.Prelude.{◌≡◌, ◌≤◌, Some, IfOk, IfErr};
ghost use Rattle.advance_rule.specs.Stored.{Answers};
ghost use Rattle.advance_rule.specs.Plan.{end_ends_at};
ghost use Rattle.step_core.specs.Program.{program_of};
ghost use Rattle.step_core.specs.JobMeaning.{report_of};
ghost use Rattle.worker_pool.specs.JobPlan.{limit_of, IsJobPlan};
ghost use Rattle.stretch_queue.specs.Refusals.{IsOfWorkers};

use crate::program::run_program;
use advance_rule::StoredAdvance;
use phase_records::Report;
use programs::alone::Ran;
use std::alloc::Global;
use std::sync::Wait;
use std::thread::Threads;
use step_core::{Beginning, JobProgram, MOST_TASKS, begin};
use stretch_queue::fault::Refused;
use stretch_queue::hooks::{Gate, Starter};
use task_code::job::Job;
use tier_shape::Shape;

/// Runs `job` on `workers` threads that synchronize at a tree of phasers of this shape. The report is the one that a
/// single thread produces within the same limit (own).
///
/// The limit of supersteps is that of `advance`'s plan: its last phase, plus one. The closure of `advance` is called once a
/// superstep, after the last arrival, with the phase and the number of parties at the root. `gate` is called before and after
/// each segment, and `starter` before each worker is started.
///
/// Returns after joining all workers that were started. Termination is not part of the contract.
///
/// ```
/// let text = b"bsp 1\narray a 1\nbody b\nput a[0] = 7\nend\nstart b 0\n";
/// let job = read_job(rt.alloc(), text).expect(&rt, "a job");
/// // Four workers at a root and two leaves; at most 1000 supersteps, so the last phase is 999.
/// let shape = Shape::from_widths(rt.alloc(), "2").expect(&rt, "a shape");
/// let plan = EndPlan {
///     when_empty: true,
///     at: Some(999),
/// };
/// let rule = StoredAdvance::new(|phase, parties| parties == 0 || phase == 999, plan);
/// match run_job(&rt, rt.alloc(), &job, shape, 4, rule, &OpenGate, &AllStart) {
///     Ok(report) => assert!(rt; report.arrays.cell(0, 0) == Some(7)),
///     Err(_) => panic!(rt; "a refused run"),
/// }
/// ```
pub fn run_job<
    R: Threads + Wait + Sync,
    F: Fn(u32, u32) -> bool + Sync + Drop,
    G: Gate + Sync,
    S: Starter,
>(
    rt: &R,
    alloc: Global,
    job: &Job,
    shape: Shape,
    workers: u32,
    advance: StoredAdvance<F>,
    gate: &G,
    starter: &S,
) -> Result<Report, Refused>
    requires workers { (1 ≤ workers) × (workers ≤ 64) }
    requires plan { IsJobPlan advance.plan }
    requires rule { Answers (F.pre advance.closure) (F.post advance.closure) (end_ends_at advance.plan) }
    ensures report { IfOk result (λ report. report_of (program_of job.now) (limit_of advance.plan) ≡ Some report) }
    ensures started { IfErr result (IsOfWorkers workers) }
{
    let Ok(Beginning { arrays, tasks }) = begin(alloc, job) else {
        return Err(Refused::Memory);
    };
    let program = JobProgram { job };
    match run_program(
        rt, alloc, &program, arrays, tasks, MOST_TASKS, shape, workers, advance, gate, starter,
    ) {
        Ok(Ran { report, tasks: _ }) => Ok(report),
        Err(refused) => Err(refused),
    }
}
