//! A job run again, on this thread, to one of its supersteps.
ghost use Rattle.std.specs.Prelude.{◌≡◌, IfOk, MatchOption};
ghost use Rattle.programs.specs.Steps.{ended};
ghost use Rattle.fault_reasons.specs.Begun.{Begins, GetsTo, is_limit};

use phase_records::JobStatus;
use std::alloc::{AllocError, Global};
use step_core::JobSteps;
use task_code::job::Job;

// Returns true if a run has reached its limit.
fn is_at_limit(run: &JobSteps<'_>) -> bool
    ensures { result ≡ is_limit (ended run.now.run) }
{
    match run.status() {
        Some(JobStatus::Limit(_)) => true,
        _ => false,
    }
}

/// Returns a run of a job that has taken this many supersteps, and keeps neither prints nor records. Returns `None` if the job
/// ends before.
pub(crate) fn run_to(
    alloc: Global,
    job: &Job,
    step: u32,
) -> Result<Option<JobSteps<'_>>, AllocError>
    ensures { IfOk result (λ found. MatchOption found (GetsTo job.now step → ⊥) (λ run. Begins job.now step run.run.arrays run.run.tasks)) }
{
    let mut run = JobSteps::new(alloc, job, step)?;
    run.advance(alloc, step)?;
    if is_at_limit(&run) {
        Ok(Some(run))
    } else {
        Ok(None)
    }
}
