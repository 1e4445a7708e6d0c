//! Calls of a round, one after another.
use crate::step::hands::{Answer, close, deliver, hand_in, keep, keep_first, status_of};
use crate::step::orders::round_says;
use crate::step::turns::{is_as_alone, superstep_from};
use std::alloc::Global;
use step_core::{Order, Round};
use task_code::job::Job;

// What is asked of a round.
#[derive(Clone, Copy)]
pub(crate) enum Move {
    // The delivery of the start line of this number.
    Deliver(u16),
    // That the order of the start line of this number is kept.
    Keep(u16),
    // That the order of the first task of another job is kept.
    KeepOther,
    // The delivery of the order that is kept.
    HandIn,
    // That it is closed.
    Close,
    // How the job has ended.
    Status,
    // How many deliveries are missing.
    Count,
    // What it is, beside the other job.
    Says,
    // A superstep whose deliveries come in this order.
    Superstep(usize, bool),
    // Whether it leaves what one thread leaves.
    Alone,
}

// Makes one call.
fn answer_to<'j>(
    alloc: Global,
    round: &mut Round<'j>,
    job: &'j Job,
    other: &'j Job,
    kept: &mut Option<Order<'j>>,
    call: Move,
) -> Answer {
    match call {
        Move::Deliver(number) => deliver(alloc, round, &[number]),
        Move::Keep(number) => keep(alloc, round, kept, number),
        Move::KeepOther => keep_first(alloc, other, kept),
        Move::HandIn => hand_in(alloc, round, kept.take()),
        Move::Close => close(alloc, round),
        Move::Status => status_of(round),
        Move::Count => Answer::Misses(round.missing()),
        Move::Says => Answer::Is(round_says(alloc, round, job, other)),
        Move::Superstep(first, forwards) => superstep_from(alloc, round, first, forwards),
        Move::Alone => Answer::Is(is_as_alone(alloc, job, round)),
    }
}

// Returns true if calls made one after another get these answers.
pub(crate) fn plays_so<'j>(
    alloc: Global,
    round: &mut Round<'j>,
    job: &'j Job,
    other: &'j Job,
    calls: &[(Move, Answer)],
) -> bool {
    let mut kept = None;
    let mut right = true;
    for (call, want) in calls {
        right = right && answer_to(alloc, round, job, other, &mut kept, *call) == *want;
    }
    right
}
