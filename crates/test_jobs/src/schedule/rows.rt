//! Worked runs of a job by one worker, row by row.
use crate::left::job_of;
use crate::schedule::fixtures::answers_of;
use job_schedule::step::{Answer, JobStep};
use std::alloc::{AllocError, Global};
use std::process::Abort;
use tier_core::call::Played;

// An answer, without what it carries except for the tree's.
#[derive(Clone, Copy, PartialEq, Eq)]
enum Seen {
    Took(usize),
    Delivered,
    Stepped(Played),
    Advanced(Played),
    Closed,
    Finished,
    NotNow,
}

// Returns what an answer says; for a path, how many numbers it has.
fn reported(answer: &Answer) -> Seen {
    match answer {
        Answer::Took(path) => Seen::Took(path.len()),
        Answer::Delivered => Seen::Delivered,
        Answer::Stepped(played) => Seen::Stepped(*played),
        Answer::Advanced(played) => Seen::Advanced(*played),
        Answer::Closed => Seen::Closed,
        Answer::Finished(_) => Seen::Finished,
        Answer::NotNow => Seen::NotNow,
    }
}

// A step, and what its answer has to say.
type Row = (JobStep, Seen);

// One worker does a job.
const A_WHOLE_JOB: [Row; 10] = [
    (JobStep::Take(0), Seen::Took(1)),
    (JobStep::Deliver(0), Seen::Delivered),
    (JobStep::Tree(0), Seen::Stepped(Played::Done(0))),
    (JobStep::Tree(0), Seen::Stepped(Played::GoesOn)),
    (JobStep::Tree(0), Seen::Stepped(Played::MustAdvance(0, 0))),
    (JobStep::Advance(0), Seen::Advanced(Played::Done(0))),
    (JobStep::Close(0), Seen::Finished),
    (JobStep::Take(0), Seen::NotNow),
    (JobStep::Tree(0), Seen::NotNow),
    (JobStep::Close(0), Seen::NotNow),
];

// A step that isn't next changes nothing.
const NOT_NEXT: [Row; 13] = [
    (JobStep::Close(0), Seen::NotNow),
    (JobStep::Deliver(0), Seen::NotNow),
    (JobStep::Tree(0), Seen::NotNow),
    (JobStep::Take(64), Seen::NotNow),
    (JobStep::Take(63), Seen::Took(1)),
    (JobStep::Take(63), Seen::NotNow),
    (JobStep::Take(0), Seen::NotNow),
    (JobStep::Advance(63), Seen::NotNow),
    (JobStep::Tree(63), Seen::NotNow),
    (JobStep::Deliver(63), Seen::Delivered),
    (JobStep::Deliver(63), Seen::NotNow),
    (JobStep::Close(63), Seen::NotNow),
    (JobStep::Tree(63), Seen::Stepped(Played::Done(0))),
];

// A fault ends the tree by force.
const A_FAULT: [Row; 11] = [
    (JobStep::Take(2), Seen::Took(1)),
    (JobStep::Deliver(2), Seen::Delivered),
    (JobStep::Tree(2), Seen::Stepped(Played::Done(0))),
    (JobStep::Tree(2), Seen::Stepped(Played::GoesOn)),
    (JobStep::Tree(2), Seen::Stepped(Played::MustAdvance(0, 0))),
    (JobStep::Advance(2), Seen::Advanced(Played::Done(0))),
    (JobStep::Close(1), Seen::NotNow),
    (JobStep::Close(2), Seen::Finished),
    (JobStep::Tree(1), Seen::NotNow),
    (JobStep::Tree(2), Seen::Stepped(Played::Ended(-2147483647))),
    (JobStep::Tree(2), Seen::NotNow),
];

// A job without tasks is closed by anybody.
const NO_TASKS: [Row; 4] = [
    (JobStep::Take(5), Seen::NotNow),
    (JobStep::Close(64), Seen::NotNow),
    (JobStep::Close(5), Seen::Finished),
    (JobStep::Close(5), Seen::NotNow),
];

// A job of one task that does nothing.
const NOTHING: &str = "bsp 1\nbody b\nend\nstart b 0\n";

const FAULTS: &str = "bsp 1\nbody b\nprint 1 / 0\nend\nstart b 0\n";

// Each run: its job, its tree, and its rows.
const RUNS: [(&str, &str, &[Row]); 4] = [
    (NOTHING, "flat", &A_WHOLE_JOB),
    (NOTHING, "flat", &NOT_NEXT),
    (FAULTS, "flat", &A_FAULT),
    ("bsp 1\nbody b\nend\n", "2x3", &NO_TASKS),
];

// Returns true if these answers say what the rows say.
fn are_reported(answers: &[Answer], rows: &[Row]) -> bool {
    for (answer, (_, want)) in answers.iter().zip(rows) {
        if reported(answer) != *want {
            return false;
        }
    }
    answers.len() == rows.len()
}

// Returns the steps of these rows.
fn steps_of(alloc: Global, rows: &[Row]) -> Result<Vec<JobStep>, AllocError> {
    let mut steps = Vec::new(alloc);
    for (step, _) in rows {
        steps.push(*step)?;
    }
    Ok(steps)
}

// Returns true if the steps of these rows are answered so, by the job of this text.
fn is_so(alloc: Global, text: &str, widths: &str, rows: &[Row]) -> Result<bool, AllocError> {
    let Ok(job) = job_of(alloc, text) else {
        return Ok(false);
    };
    let steps = steps_of(alloc, rows)?;
    let answers = answers_of(alloc, &job, widths, 10, &steps)?;
    Ok(are_reported(&answers, rows))
}

#[test]
fn workers_are_answered_as_the_rows_say(rt: HostRuntime) {
    for (text, widths, rows) in &RUNS {
        assert!(rt; matches!(is_so(rt.alloc(), text, widths, rows), Ok(true)));
    }
}
