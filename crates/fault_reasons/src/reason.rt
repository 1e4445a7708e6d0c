//! Why a job ended by a fault or at its limit.
ghost use Rattle.std.specs.Prelude.{◌≡◌, IfOk};
ghost use Rattle.std.specs.Option.{option_map};
ghost use Rattle.phase_records.specs.StatusSeen.{status_seen};
ghost use Rattle.fault_reasons.specs.AgainSeen.{again_seen};
ghost use Rattle.fault_reasons.specs.Explains.{again, Explains, SaysEnd, SaysIfThere};
ghost use Rattle.fault_reasons.specs.Texts.{fault_text as fault_text_of, limit_text as limit_text_of};

use crate::again::run_to;
use crate::limit::push_limit;
use crate::sums::{push_overflow, push_too_many};
use crate::task::{Superstep, push_task_fault};
use job_reader::{ReadJobFault, read_job};
use phase_records::JobStatus;
use std::alloc::{AllocError, Global};
use step_core::JobSteps;
use task_code::job::Job;

// Returns the superstep that a run takes next, which has this number.
fn superstep<'a>(text: &'a [u8], job: &'a Job, run: &'a JobSteps<'a>, step: u32) -> Superstep<'a>
    ensures { again_seen result ≡ again text.now job.now step run.now.run.arrays run.now.run.tasks }
{
    Superstep {
        text,
        job,
        arrays: run.arrays(),
        tasks: run.tasks(),
        step,
    }
}

// Returns the text of a fault that came in a superstep.
fn fault_text(
    alloc: Global,
    at: Superstep<'_>,
    code: u8,
    path: &[u16],
) -> Result<Vec<u8>, AllocError>
    ensures { IfOk result (λ text. text.items ≡ fault_text_of (again_seen at.entry) code path.now) }
{
    let mut out = Vec::new(alloc);
    if code == 7 {
        push_too_many(alloc, &mut out, at)?;
    } else if code == 8 {
        push_overflow(alloc, &mut out, at, path)?;
    } else {
        push_task_fault(alloc, &mut out, at, path)?;
    }
    Ok(out)
}

// Returns why a fault ended a job in this superstep, or `None` if the job doesn't get there.
fn fault_reason(
    alloc: Global,
    text: &[u8],
    job: &Job,
    code: u8,
    step: u32,
    path: &[u16],
) -> Result<Option<Vec<u8>>, AllocError>
    ensures { IfOk result (λ reason. SaysIfThere text.now job.now step (λ a. fault_text_of a code path.now) (option_map (λ v. v.items) reason)) }
{
    match run_to(alloc, job, step)? {
        Some(run) => {
            let reason = fault_text(alloc, superstep(text, job, &run, step), code, path)?;
            Ok(Some(reason))
        }
        None => Ok(None),
    }
}

// Returns the text of a job that reached its limit.
fn limit_text(alloc: Global, at: Superstep<'_>) -> Result<Vec<u8>, AllocError>
    ensures { IfOk result (λ text. text.items ≡ limit_text_of (again_seen at.entry)) }
{
    let mut out = Vec::new(alloc);
    push_limit(&mut out, at)?;
    Ok(out)
}

// Returns why a job ended at this limit, or `None` if it doesn't get there.
fn limit_reason(
    alloc: Global,
    text: &[u8],
    job: &Job,
    step: u32,
) -> Result<Option<Vec<u8>>, AllocError>
    ensures { IfOk result (λ reason. SaysIfThere text.now job.now step limit_text_of (option_map (λ v. v.items) reason)) }
{
    match run_to(alloc, job, step)? {
        Some(run) => {
            let reason = limit_text(alloc, superstep(text, job, &run, step))?;
            Ok(Some(reason))
        }
        None => Ok(None),
    }
}

// Returns why a job ended so.
fn job_reason(
    alloc: Global,
    text: &[u8],
    job: &Job,
    status: &JobStatus,
) -> Result<Option<Vec<u8>>, AllocError>
    ensures { IfOk result (λ reason. SaysEnd text.now job.now (status_seen status.now) (option_map (λ v. v.items) reason)) }
{
    match status {
        JobStatus::Ended(_) => Ok(None),
        JobStatus::Fault { code, step, path } => fault_reason(alloc, text, job, *code, *step, path),
        JobStatus::Limit(step) => limit_reason(alloc, text, job, *step),
    }
}

/// Returns why the job of a text ended as `status` says, in words for people. Returns `None` if the text is refused, if the job
/// ended without a fault before its limit, or if it never gets to the superstep that `status` names: the job's own status names one
/// that it gets to, as [`ends_are_reached`](crate::laws::ends_are_reached) says.
///
/// Runs the job once more, on this thread, to that superstep. Keeps arrays and tasks in memory, and no prints or records.
pub fn end_reason(
    alloc: Global,
    text: &[u8],
    status: &JobStatus,
) -> Result<Option<Vec<u8>>, AllocError>
    ensures { IfOk result (λ reason. Explains text.now (status_seen status.now) (option_map (λ v. v.items) reason)) }
{
    match read_job(alloc, text) {
        Ok(job) => job_reason(alloc, text, &job, status),
        Err(ReadJobFault::Text(_)) => Ok(None),
        Err(ReadJobFault::Memory) => Err(AllocError),
    }
}
