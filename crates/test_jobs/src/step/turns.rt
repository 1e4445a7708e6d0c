//! Supersteps of a round whose deliveries come in any order.
use crate::left::is_left_alone;
use crate::step::hands::{Answer, close, deliver};
use std::alloc::Global;
use step_core::Round;
use superstep_memory::path::Path;
use task_code::job::Job;

// Puts the live tasks into an order: the one at the place `first` comes first, then those after it, then those in front
// of it; or the other way round.
fn turn(live: &mut Vec<Path>, first: usize, forwards: bool) {
    if !forwards {
        live.reverse();
    }
    let count = live.len();
    live.rotate_left(first.min(count));
}

// Hands in the deliveries of all live tasks in such an order, and closes the round.
pub(crate) fn superstep_from(
    alloc: Global,
    round: &mut Round<'_>,
    first: usize,
    forwards: bool,
) -> Answer {
    let Ok(paths) = round.live(alloc) else {
        return Answer::NoMemory;
    };
    let mut live = paths;
    turn(&mut live, first, forwards);
    for path in &live {
        deliver(alloc, round, path.as_slice());
    }
    close(alloc, round)
}

// Returns true if a round has ended with the report that its job leaves on one thread within three supersteps.
pub(crate) fn is_as_alone(alloc: Global, job: &Job, round: &Round<'_>) -> bool {
    match round.report(alloc) {
        Ok(Some(report)) => is_left_alone(alloc, job, 3, &report),
        _ => false,
    }
}
