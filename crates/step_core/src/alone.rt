//! A job on one thread.
ghost use Rattle.std.specs.Prelude.{◌≡◌, ◌≤◌, Some, IfOk};
ghost use Rattle.step_core.specs.Program.{program_of};
ghost use Rattle.step_core.specs.JobMeaning.{report_of};
ghost use Rattle.step_core.specs.Watching.{SawAll};

use crate::observe::{Looking, NoObserver, Observe};
use crate::{Beginning, JobProgram, MOST_TASKS, begin};
use phase_records::Report;
use programs::alone::{Ran, run_watched as run_program};
use std::alloc::{AllocError, Global};
use task_code::job::Job;

/// Returns what a job leaves, within this limit of supersteps. Runs each superstep's tasks one after another, by path.
///
/// ```
/// let text = b"bsp 1\narray a 1\nbody b\nput a[0] = 7\nend\nstart b 0\n";
/// let job = read_job(rt.alloc(), text).expect(&rt, "a job");
/// // At most 1000 supersteps; this job ends after one.
/// let report = run_alone(rt.alloc(), &job, 1000).expect(&rt, "memory");
/// assert!(rt; matches!(report.status, JobStatus::Ended(1)));
/// assert!(rt; report.arrays.cell(0, 0) == Some(7));
/// ```
pub fn run_alone(alloc: Global, job: &Job, limit: u32) -> Result<Report, AllocError>
    requires { 1 ≤ limit }
    ensures { IfOk result (λ report. report_of (program_of job.now) limit ≡ Some report) }
{
    run_observed(alloc, job, limit, &mut NoObserver)
}

/// Returns what [`run_alone`] returns. `watch` is called before each superstep, and that changes nothing.
pub fn run_observed<W: Observe>(
    alloc: Global,
    job: &Job,
    limit: u32,
    watch: &mut W,
) -> Result<Report, AllocError>
    requires { 1 ≤ limit }
    ensures report { IfOk result (λ report. report_of (program_of job.now) limit ≡ Some report) }
    ensures seen { IfOk result (λ report. SawAll W.seen (program_of job.now) limit) }
{
    let Beginning { arrays, tasks } = begin(alloc, job)?;
    let program = JobProgram { job };
    let mut looking = Looking { watch };
    let ran = run_program(
        alloc,
        &program,
        arrays,
        tasks,
        MOST_TASKS,
        limit,
        &mut looking,
    )?;
    let Ran { report, tasks: _ } = ran;
    Ok(report)
}
