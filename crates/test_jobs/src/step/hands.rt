//! Calls of a round, and what it answers to them.
use phase_records::JobStatus;
use std::alloc::Global;
use step_core::{AcceptFault, CloseFault, Delivery, Order, Outcome, Round};
use task_code::job::Job;

// What a round answers.
#[derive(Clone, Copy, PartialEq, Eq)]
pub(crate) enum Answer {
    NoOrder,
    NoMemory,
    // An order is kept.
    Kept,
    Taken,
    WrongStep,
    Stranger,
    Double,
    Landed,
    Faulted,
    TooMany,
    Overflowed,
    Running,
    // The first number of the path that is missing.
    Missing(u16),
    // How many are missing.
    Misses(usize),
    // In this superstep.
    Ended(u32),
    Limit(u32),
    // The number of the fault, and the superstep.
    Fault(u8, u32),
    // Whether something is so.
    Is(bool),
}

// Returns how a job has ended, if it has.
pub(crate) fn status_of(round: &Round<'_>) -> Answer {
    if !round.has_ended() {
        return Answer::Running;
    }
    match round.status() {
        Some(JobStatus::Ended(step)) => Answer::Ended(step),
        Some(JobStatus::Fault { code, step, .. }) => Answer::Fault(code, step),
        Some(JobStatus::Limit(step)) => Answer::Limit(step),
        None => Answer::Running,
    }
}

// Takes a delivery.
fn accept<'j>(round: &mut Round<'j>, delivery: Delivery<'j>) -> Answer {
    if round.has_ended() {
        return Answer::NoOrder;
    }
    match round.accept(delivery) {
        Ok(()) => Answer::Taken,
        Err(AcceptFault::WrongStep) => Answer::WrongStep,
        Err(AcceptFault::Stranger) => Answer::Stranger,
        Err(AcceptFault::Double) => Answer::Double,
    }
}

// Hands in what this order says, if there is one.
pub(crate) fn hand_in<'j>(
    alloc: Global,
    round: &mut Round<'j>,
    order: Option<Order<'j>>,
) -> Answer {
    match order {
        Some(order) => match Delivery::of(alloc, order) {
            Ok(delivery) => accept(round, delivery),
            Err(_) => Answer::NoMemory,
        },
        None => Answer::NoOrder,
    }
}

// Hands in what the task of this path does.
pub(crate) fn deliver(alloc: Global, round: &mut Round<'_>, path: &[u16]) -> Answer {
    match round.order(alloc, path) {
        Ok(order) => hand_in(alloc, round, order),
        Err(_) => Answer::NoMemory,
    }
}

// Returns why a round wasn't closed.
fn not_closed(fault: &CloseFault) -> Answer {
    match fault {
        CloseFault::Missing(path) => match path.first() {
            Some(number) => Answer::Missing(*number),
            None => Answer::NoOrder,
        },
        CloseFault::Memory(_) => Answer::NoMemory,
    }
}

// Closes a round.
pub(crate) fn close(alloc: Global, round: &mut Round<'_>) -> Answer {
    if round.has_ended() {
        return Answer::NoOrder;
    }
    match round.close_round(alloc) {
        Ok(Outcome::Landed) => Answer::Landed,
        Ok(Outcome::Faulted) => Answer::Faulted,
        Ok(Outcome::TooMany) => Answer::TooMany,
        Ok(Outcome::Overflowed) => Answer::Overflowed,
        Err(fault) => not_closed(&fault),
    }
}

// Keeps the order of a start line.
pub(crate) fn keep<'j>(
    alloc: Global,
    round: &Round<'j>,
    kept: &mut Option<Order<'j>>,
    number: u16,
) -> Answer {
    match round.order(alloc, &[number]) {
        Ok(order) => {
            *kept = order;
            Answer::Kept
        }
        Err(_) => Answer::NoMemory,
    }
}

// Keeps the order of the first task of a job, from a round of two supersteps.
pub(crate) fn keep_first<'j>(alloc: Global, job: &'j Job, kept: &mut Option<Order<'j>>) -> Answer {
    match Round::new(alloc, job, 2) {
        Ok(round) => keep(alloc, &round, kept, 0),
        Err(_) => Answer::NoMemory,
    }
}
