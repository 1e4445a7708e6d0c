//! Schedules, and what a schedule leaves.
use crate::left::is_left_alone;
use job_schedule::drive::drive_job;
use job_schedule::step::{Answer, JobStep};
use phase_records::Report;
use std::alloc::{AllocError, Global};
use task_code::job::Job;
use tier_shape::Shape;

// Returns the answers of a job to these steps, on a tree of these widths. There are none if the limit is out of its range.
pub(crate) fn answers_of(
    alloc: Global,
    job: &Job,
    widths: &str,
    limit: u32,
    steps: &[JobStep],
) -> Result<Vec<Answer>, AllocError> {
    if limit == 0 || limit > 1000000 {
        return Ok(Vec::new(alloc));
    }
    match Shape::from_widths(alloc, widths) {
        Ok(shape) => drive_job(alloc, job, shape, limit, steps),
        Err(_) => Ok(Vec::new(alloc)),
    }
}

// Returns the report of the answer that finishes a job, if it is the only one.
fn finished(answers: &[Answer]) -> Option<&Report> {
    let mut found = None;
    for answer in answers {
        if let Answer::Finished(report) = answer {
            if found.is_some() {
                return None;
            }
            found = Some(report);
        }
    }
    found
}

// Returns the step of this kind by this worker.
pub(crate) fn step_of(kind: usize, worker: usize) -> JobStep {
    match kind % 5 {
        0 => JobStep::Take(worker),
        1 => JobStep::Deliver(worker),
        2 => JobStep::Tree(worker),
        3 => JobStep::Advance(worker),
        _ => JobStep::Close(worker),
    }
}

// Returns the try of this number, if workers try in turn and each tries these kinds in its turn.
fn try_at(number: usize, workers: usize, kinds: &[usize]) -> JobStep {
    let each = kinds.len().max(1);
    let kind = kinds.get(number % each).copied().unwrap_or(0);
    step_of(kind, number / each % workers.max(1))
}

// Adds `tries` tries of workers in turn.
pub(crate) fn add_tries(
    steps: &mut Vec<JobStep>,
    workers: usize,
    kinds: &[usize],
    tries: usize,
) -> Result<(), AllocError> {
    for number in 0..tries {
        steps.push(try_at(number, workers, kinds))?;
    }
    Ok(())
}

// Returns true if this schedule leaves what one thread leaves, and finishes the job once.
pub(crate) fn is_as_alone(
    alloc: Global,
    job: &Job,
    widths: &str,
    limit: u32,
    steps: &[JobStep],
) -> bool {
    let Ok(answers) = answers_of(alloc, job, widths, limit, steps) else {
        return false;
    };
    match finished(&answers) {
        Some(report) => is_left_alone(alloc, job, limit, report),
        None => false,
    }
}
