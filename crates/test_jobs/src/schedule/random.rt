//! Random schedules of random jobs.
use crate::left::job_of;
use crate::schedule::fixtures::{add_tries, is_as_alone, step_of};
use job_schedule::step::JobStep;
use std::alloc::{AllocError, Global};
use std::process::Abort;
use task_code::job::Job;

const HEAD: &str =
    "bsp 1\narray a 4 3 1 4 1\nbody p\nlet i = 0\nwhile i < arg\nspawn c i\nlet i = i + 1\nend\nput a[0] = arg\nsync\nprint a[0]\nend\nbody c\nput a[1] = arg\nsync\nspawn d arg\nsync\nprint a[1]\nend\nbody d\nput a[2] = arg\nprint a[3] / arg\nend\n";

// Returns the number that comes after one.
fn next(number: u32) -> u32 {
    number.wrapping_mul(1664525).wrapping_add(1013904223)
}

// Returns a number below a bound, by this random number.
fn below(number: u32, bound: u32) -> usize {
    ((number >> 16) % bound.max(1)) as usize
}

// Returns the number that is `count` places after another.
fn skip(number: u32, count: usize) -> u32 {
    let mut number = number;
    for _ in 0..count {
        number = next(number);
    }
    number
}

// The lines that start a task.
const STARTS: [&str; 4] = ["start p 0\n", "start p 2\n", "start p 7\n", "start d 5\n"];

// Returns the start line that a number says.
fn start_of(number: u32) -> &'static str {
    STARTS[below(number, 4) % 4]
}

// Returns the text of a job of `starts` start tasks, by the numbers after this.
fn text_of(alloc: Global, starts: usize, number: u32) -> Result<String, AllocError> {
    let mut text = String::from_str(alloc, HEAD)?;
    let mut number = number;
    for _ in 0..starts {
        number = next(number);
        text.push_str(start_of(number))?;
    }
    Ok(text)
}

// The kinds of random steps, most often a tree's.
const KINDS: [usize; 10] = [0, 1, 3, 4, 2, 2, 2, 2, 2, 2];

// What each worker tries in its turn.
const TRIES: [usize; 10] = [0, 1, 2, 2, 2, 2, 2, 2, 3, 4];

// Returns the step of one of eight workers, by the two numbers after this.
fn step_by(number: u32) -> JobStep {
    let first = next(number);
    step_of(KINDS[below(next(first), 10) % 10], below(first, 8))
}

// 3000 steps of up to eight workers, in any order, and then of all in turn until the job is done.
fn steps_of(alloc: Global, number: u32) -> Result<Vec<JobStep>, AllocError> {
    let mut steps = Vec::new(alloc);
    let mut number = number;
    for _ in 0..3000 {
        steps.push(step_by(number))?;
        number = skip(number, 2);
    }
    add_tries(&mut steps, 8, &TRIES, 7000)?;
    Ok(steps)
}

// Returns true if the random schedule by the numbers after this leaves what one thread leaves.
fn leaves_the_same(alloc: Global, job: &Job, widths: &str, number: u32) -> bool {
    match steps_of(alloc, number) {
        Ok(steps) => is_as_alone(alloc, job, widths, 6, &steps),
        Err(_) => false,
    }
}

// Returns true if those on each tree do so, one after another.
fn all_leave_the_same(alloc: Global, job: &Job, number: u32) -> bool {
    let mut number = number;
    for widths in ["flat", "3", "2x3", "1x4x2"] {
        if !leaves_the_same(alloc, job, widths, number) {
            return false;
        }
        number = skip(number, 6000);
    }
    true
}

// Returns true if they do so with the random job of up to four start tasks by the numbers after this.
fn is_so_by(alloc: Global, number: u32) -> bool {
    let first = next(number);
    let starts = below(first, 5);
    let Ok(text) = text_of(alloc, starts, first) else {
        return false;
    };
    match job_of(alloc, text.as_str()) {
        Ok(job) => all_leave_the_same(alloc, &job, skip(first, starts)),
        Err(_) => false,
    }
}

#[test]
fn random_schedules_leave_the_same(rt: HostRuntime) {
    for seed in 0..100 {
        assert!(rt; is_so_by(rt.alloc(), seed));
    }
}
