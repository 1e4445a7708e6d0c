//! Jobs by their texts, and whether what they leave is what they leave on one thread.
use job_reader::{ReadJobFault, read_job};
use phase_records::Report;
use std::alloc::Global;
use step_core::run_alone;
use task_code::job::Job;

// Returns the job of a text.
pub(crate) fn job_of(alloc: Global, text: &str) -> Result<Job, ReadJobFault> {
    read_job(alloc, text.as_bytes())
}

// Returns true if a report is the one that a job leaves on one thread within this limit. A limit that is none counts as 1.
pub(crate) fn is_left_alone(alloc: Global, job: &Job, limit: u32, report: &Report) -> bool {
    match run_alone(alloc, job, limit.max(1)) {
        Ok(alone) => alone.same_as(report),
        Err(_) => false,
    }
}

// Returns what the job of a text leaves on one thread.
fn left_by(alloc: Global, text: &str) -> Option<Report> {
    run_alone(alloc, &job_of(alloc, text).ok()?, 9).ok()
}

#[test]
fn reports_with_other_prints_are_not_the_same(rt: HostRuntime) {
    let one = left_by(rt.alloc(), "bsp 1\nbody b\nprint 7\nend\nstart b 0\n");
    let other = left_by(rt.alloc(), "bsp 1\nbody b\nprint 8\nend\nstart b 0\n");
    let (Some(one), Some(other)) = (one, other) else {
        panic!(rt; "no report");
    };
    assert!(rt; one.same_as(&one) && !one.same_as(&other));
}
