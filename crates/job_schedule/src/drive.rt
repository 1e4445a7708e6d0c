//! A job by a list of steps of its workers.
ghost use Rattle.std.specs.Prelude.{◌≡◌, ◌≤◌, [], ◌∷◌, ◌++◌, Some, OnOk, IfOk, map};
ghost use Rattle.std.specs.List.{Contains};
ghost use Rattle.phase_records.specs.ReportValue.{ReportValue};
ghost use Rattle.step_core.specs.Program.{program_of};
ghost use Rattle.step_core.specs.JobMeaning.{report_of};
ghost use Rattle.job_schedule.specs.AnswerValue.{answer_seen, Finished};
ghost use Rattle.job_schedule.specs.Parts.{IsKept, IsReached, world_of};
ghost use Rattle.job_schedule.specs.World.{initial_world, answers, answer_of, world_after};

use crate::schedule::Schedule;
use crate::step::{Answer, JobStep};
use std::alloc::{AllocError, Global};
use task_code::job::Job;
use tier_shape::Shape;

// Takes a step, and appends its answer.
fn take_step(
    alloc: Global,
    schedule: &mut Schedule<'_>,
    step: JobStep,
    replies: &mut Vec<Answer>,
) -> Result<(), AllocError>
    requires reached { IsReached (world_of schedule.old) }
    requires kept { IsKept schedule.old.round (world_of schedule.old) }
    ensures replies { OnOk result (map answer_seen replies.new.items ≡ map answer_seen replies.old.items ++ answer_of (world_of schedule.old) step ∷ []) }
    ensures after { OnOk result (world_of schedule.new ≡ world_after (world_of schedule.old) step) }
    ensures reached { OnOk result (IsReached (world_of schedule.new)) }
    ensures kept { OnOk result (IsKept schedule.new.round (world_of schedule.new)) }
{
    let answer = schedule.step(alloc, step)?;
    replies.push(answer)?;
    Ok(())
}

// Takes the steps one after another.
fn take_each(
    alloc: Global,
    schedule: &mut Schedule<'_>,
    steps: &[JobStep],
) -> Result<Vec<Answer>, AllocError>
    requires reached { IsReached (world_of schedule.old) }
    requires kept { IsKept schedule.old.round (world_of schedule.old) }
    ensures { IfOk result (λ replies. map answer_seen replies.items ≡ answers (world_of schedule.old) steps.now) }
{
    let mut replies = Vec::new(alloc);
    for step in steps {
        take_step(alloc, schedule, *step, &mut replies)?;
    }
    Ok(replies)
}

// Takes the steps on a job from its beginning.
fn take_steps(
    alloc: Global,
    job: &Job,
    shape: Shape,
    limit: u32,
    steps: &[JobStep],
) -> Result<Vec<Answer>, AllocError>
    requires { 1 ≤ limit }
    ensures { IfOk result (λ replies. map answer_seen replies.items ≡ answers (initial_world (program_of job.now) shape limit) steps.now) }
{
    let mut schedule = Schedule::new(alloc, job, shape, limit)?;
    take_each(alloc, &mut schedule, steps)
}

/// Runs a job with this limit of supersteps on a tree of phasers of this shape, by these steps of its workers. Returns
/// the answer of each step (own).
///
/// Start tasks join before the first step, task i at leaf i modulo the number of leaves. The tree ends when it is empty,
/// and in phase `limit - 1` at the latest.
pub fn drive_job(
    alloc: Global,
    job: &Job,
    shape: Shape,
    limit: u32,
    steps: &[JobStep],
) -> Result<Vec<Answer>, AllocError>
    requires some { 1 ≤ limit }
    requires few { limit ≤ 2147483648 }
    ensures answers { IfOk result (λ replies. map answer_seen replies.items ≡ answers (initial_world (program_of job.now) shape limit) steps.now) }
    ensures report { IfOk result (λ replies. (report : ReportValue) → Contains (map answer_seen replies.items) (Finished report)
        → report_of (program_of job.now) limit ≡ Some report) }
{
    let replies = take_steps(alloc, job, shape, limit, steps)?;
    Ok(replies)
}
