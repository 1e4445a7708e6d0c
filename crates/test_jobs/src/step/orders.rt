//! What a round, its orders and their deliveries say of themselves.
use std::alloc::Global;
use step_core::{Delivery, Round};
use superstep_memory::path::Path;
use task_code::job::Job;

// The path of the second task, and that of the task that it spawns.
const SECOND: &[u16] = &[1];

const SPAWNED: &[u16] = &[1, 0];

// Returns true if these paths are this one alone.
fn are_one(paths: &[Path], want: &[u16]) -> bool {
    match paths {
        [path] => path.as_slice() == want,
        _ => false,
    }
}

// Returns true if a path is there, and is this one.
fn is_path(path: Option<&[u16]>, want: &[u16]) -> bool {
    match path {
        Some(path) => path == want,
        None => false,
    }
}

// Returns true if a delivery says what the second task does: it syncs, and spawns one task.
fn delivery_says(alloc: Global, delivery: &Delivery<'_>) -> bool {
    let Ok(spawns) = delivery.spawns(alloc) else {
        return false;
    };
    are_one(&spawns, SPAWNED)
        && delivery.path() == SECOND
        && delivery.synced()
        && delivery.spawn_count() == 1
        && is_path(delivery.spawn_path(0), SPAWNED)
        && delivery.spawn_path(1).is_none()
}

// Returns true if the order of the second task of a round says what that is, in the first superstep, and its delivery what it does.
fn second_says(alloc: Global, round: &Round<'_>) -> bool {
    let Ok(Some(order)) = round.order(alloc, SECOND) else {
        return false;
    };
    if order.path() != SECOND || order.step() != 0 {
        return false;
    }
    match Delivery::of(alloc, order) {
        Ok(delivery) => delivery_says(alloc, &delivery),
        Err(_) => false,
    }
}

// Returns true if a round of a job of two tasks within three supersteps says what it is: one of this job and limit and not of
// others, in its first superstep.
pub(crate) fn round_says(alloc: Global, round: &Round<'_>, job: &Job, other: &Job) -> bool {
    let Ok(live) = round.live(alloc) else {
        return false;
    };
    live.len() == 2
        && round.is_of(job, 3)
        && !round.is_of(job, 2)
        && !round.is_of(other, 3)
        && round.step() == 0
        && second_says(alloc, round)
}
