//! A round's deliveries in any order, what it answers and refuses, and what it says of itself.
use crate::left::job_of;
use crate::step::calls::{Move, plays_so};
use crate::step::hands::Answer;
use std::alloc::Global;
use std::process::Abort;
use step_core::Round;

// Tasks that put to one cell, print and spawn.
const SPAWNS: &str =
    "bsp 1\narray a 1\nbody b\nput a[0] = arg\nprint arg\nspawn c 7\nsync\nprint arg + 1\nend\nbody c\nput a[0] = arg\nend\nstart b 4\nstart b 6\nstart b 5\n";

// A call of a round, and its answer.
type Row = (Move, Answer);

const ANSWERS: [Row; 18] = [
    (Move::Status, Answer::Running),
    (Move::Count, Answer::Misses(2)),
    (Move::Close, Answer::Missing(0)),
    (Move::Deliver(1), Answer::Taken),
    (Move::Count, Answer::Misses(1)),
    (Move::Deliver(1), Answer::Double),
    (Move::Deliver(2), Answer::NoOrder),
    (Move::Close, Answer::Missing(0)),
    (Move::Deliver(0), Answer::Taken),
    (Move::Close, Answer::Landed),
    (Move::Status, Answer::Running),
    (Move::Close, Answer::Missing(0)),
    (Move::Deliver(0), Answer::Taken),
    (Move::Close, Answer::Missing(1)),
    (Move::Deliver(1), Answer::Taken),
    (Move::Close, Answer::Landed),
    (Move::Status, Answer::Ended(2)),
    (Move::Deliver(0), Answer::NoOrder),
];

const A_FAULT: [Row; 5] = [
    (Move::Deliver(0), Answer::Taken),
    (Move::Close, Answer::Faulted),
    (Move::Status, Answer::Fault(2, 0)),
    (Move::Deliver(0), Answer::NoOrder),
    (Move::Close, Answer::NoOrder),
];

// What a round says before it has begun.
const WHAT_IT_IS: [Row; 1] = [(Move::Says, Answer::Is(true))];

// A delivery of a superstep that is over, and the next one.
const TOO_LATE: [Row; 5] = [
    (Move::Keep(0), Answer::Kept),
    (Move::Deliver(0), Answer::Taken),
    (Move::Close, Answer::Landed),
    (Move::HandIn, Answer::WrongStep),
    (Move::Deliver(0), Answer::Taken),
];

// A delivery of the same job, made anew, and of another.
const THE_SAME: [Row; 2] = [
    (Move::KeepOther, Answer::Kept),
    (Move::HandIn, Answer::Taken),
];

const A_STRANGER: [Row; 2] = [
    (Move::KeepOther, Answer::Kept),
    (Move::HandIn, Answer::Stranger),
];

const SYNCS: &str = "bsp 1\nbody b\nsync\nend\nstart b 4\nstart b 6\n";

const FAULTS: &str = "bsp 1\nbody b\nprint 1 / 0\nend\nstart b 0\n";

const ONE: &str = "bsp 1\nbody b\nspawn c 0\nsync\nend\nbody c\nend\nstart b 4\n";

const TWO: &str = "bsp 1\nbody b\nspawn c 0\nsync\nend\nbody c\nend\nstart b 4\nstart b 6\n";

// A job, another, and what the round of the first answers.
const ROUNDS: [(&str, &str, &[Row]); 6] = [
    (SYNCS, ONE, &ANSWERS),
    (FAULTS, ONE, &A_FAULT),
    (ONE, ONE, &TOO_LATE),
    (TWO, TWO, &THE_SAME),
    (TWO, ONE, &A_STRANGER),
    (TWO, ONE, &WHAT_IT_IS),
];

// Returns true if the round of the job of this text answers so beside another job, within three supersteps.
fn is_so(alloc: Global, text: &str, other: &str, calls: &[Row]) -> bool {
    let Ok(job) = job_of(alloc, text) else {
        return false;
    };
    let Ok(other) = job_of(alloc, other) else {
        return false;
    };
    match Round::new(alloc, &job, 3) {
        Ok(round) => {
            let mut round = round;
            plays_so(alloc, &mut round, &job, &other, calls)
        }
        Err(_) => false,
    }
}

#[test]
fn rounds_answer_as_the_rows_say(rt: HostRuntime) {
    for (text, other, calls) in &ROUNDS {
        assert!(rt; is_so(rt.alloc(), text, other, calls));
    }
}

// Three supersteps whose deliveries come in any of these orders leave what one thread leaves.
#[test]
fn deliveries_come_in_any_order(rt: HostRuntime) {
    for turn in 0..6 {
        let superstep = Move::Superstep(turn / 2, turn % 2 == 0);
        let calls = [
            (superstep, Answer::Landed),
            (superstep, Answer::Landed),
            (superstep, Answer::NoOrder),
            (Move::Alone, Answer::Is(true)),
        ];
        assert!(rt; is_so(rt.alloc(), SPAWNS, ONE, &calls));
    }
}
