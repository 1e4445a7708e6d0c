//! Jobs under written schedules: one worker alone, and eight workers in turn.
use crate::left::job_of;
use crate::schedule::fixtures::{add_tries, is_as_alone};
use job_schedule::step::JobStep;
use std::alloc::{AllocError, Global};
use std::process::Abort;

const SWAP: &str =
    "bsp 1\narray a 2 10 20\nbody swap\nlet other = 1 - arg\nput a[arg] = a[other]\nsync\nprint a[arg]\nend\nstart swap 0\nstart swap 1\n";

const CONFLICT: &str =
    "bsp 1\narray c 1\nbody w\nput c[0] = arg\nput c[0] = arg + 5\nend\nbody z\nput c[0] = arg\nend\nstart w 1\nstart z 9\n";

const SPAWNS: &str =
    "bsp 1\nbody p\nlet i = 0\nwhile i < 8\nspawn c i\nlet i = i + 1\nend\nsync\nend\nbody c\nend\nstart p 0\n";

const FAULTS: &str =
    "bsp 1\nbody b\nsync\nprint 10 / arg\nsync\nend\nstart b 1\nstart b 0\nstart b 2\n";

const ENDLESS: &str = "bsp 1\nbody b\nwhile 1\nsync\nend\nend\nstart b 0\nstart b 1\n";
// All leave at once, and what they spawned goes on with more tokens than are free.
const HANDOVER: &str =
    "bsp 1\nbody p\nspawn c 1\nspawn c 2\nspawn c 3\nend\nbody c\nspawn d 0\nspawn d 0\nend\nbody d\nprint 7\nend\nstart p 0\nstart p 1\n";

// Each job, and its limit.
pub(crate) const JOBS: [(&str, u32); 6] = [
    (SWAP, 10),
    (CONFLICT, 10),
    (SPAWNS, 10),
    (FAULTS, 10),
    (ENDLESS, 3),
    (HANDOVER, 10),
];

// Makes `tries` tries of workers in turn. Each worker tries each kind of step in its turn.
fn tries_of(alloc: Global, workers: usize, tries: usize) -> Result<Vec<JobStep>, AllocError> {
    let mut steps = Vec::new(alloc);
    add_tries(&mut steps, workers, &[0, 1, 2, 3, 4], tries)?;
    Ok(steps)
}

// Returns true if `tries` tries of workers in turn leave of the job of this text what one thread leaves, on a tree of these widths.
fn is_so(
    alloc: Global,
    text: &str,
    limit: u32,
    widths: &str,
    workers: usize,
    tries: usize,
) -> bool {
    let Ok(job) = job_of(alloc, text) else {
        return false;
    };
    match tries_of(alloc, workers, tries) {
        Ok(steps) => is_as_alone(alloc, &job, widths, limit, &steps),
        Err(_) => false,
    }
}

// The widths of each tree, and how many tries the workers make: 400 turns of one worker, and 200 of each of eight.
const CREWS: [(&str, usize, usize); 4] = [
    ("flat", 1, 2000),
    ("2x3", 1, 2000),
    ("flat", 8, 8000),
    ("2x3", 8, 8000),
];

#[test]
fn written_orders_leave_the_same(rt: HostRuntime) {
    for (text, limit) in &JOBS {
        for (widths, workers, tries) in &CREWS {
            assert!(rt; is_so(rt.alloc(), text, *limit, widths, *workers, *tries));
        }
    }
}
