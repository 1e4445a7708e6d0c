//! The program on devices that give or take little, and that fail.

use crate::fakes::{ALL, Plan, Then, dripping, taking};
use crate::runs::{SWAP, TEXTS, leave_all, leaves, run_by};
use std::alloc::Global;
use std::sync::Wait;
use std::thread::Threads;

// What is printed if a device fails.
pub(crate) const FAILED: &[u8] = b"read or write failed\n";

// Returns true if nothing is written by readers that fail at each read of a text, for good or once, the read of its end too.
fn reads_fail<R: Threads + Wait + Sync>(
    rt: &R,
    alloc: Global,
    words: &[&str],
    text: &str,
    once: bool,
) -> bool {
    for capacity in 0..text.len() + 1 {
        let plan = dripping(capacity, once);
        if !leaves(rt, alloc, words, text.as_bytes(), plan, (8, b"", FAILED)) {
            return false;
        }
    }
    true
}

#[test]
fn a_reader_that_fails_leaves_no_output(rt: HostRuntime) {
    for (word, text) in &TEXTS {
        let words = ["bsp", *word];
        assert!(rt; reads_fail(&rt, rt.alloc(), &words, text, false));
        // A reader has room for the text and the read that finds its end.
        let plans = [dripping(text.len() + 1, false)];
        assert!(rt; leave_all(&rt, rt.alloc(), &words, text, &plans));
    }
}

#[test]
fn a_reader_that_fails_once_has_failed(rt: HostRuntime) {
    for (word, text) in &TEXTS {
        assert!(rt; reads_fail(&rt, rt.alloc(), &["bsp", *word], text, true));
    }
}

// Returns true if writers that stop at each byte have taken the first bytes of the whole output, by `most` bytes a write.
fn writes_fail<R: Threads + Wait + Sync>(
    rt: &R,
    alloc: Global,
    words: &[&str],
    text: &str,
    most: usize,
    then: Then,
) -> bool {
    let whole = run_by(rt, alloc, words, text.as_bytes(), ALL);
    for capacity in 0..whole.out.len() {
        let (plan, front) = (taking(capacity, most, then), &whole.out[..capacity]);
        if !leaves(rt, alloc, words, text.as_bytes(), plan, (8, front, FAILED)) {
            return false;
        }
    }
    whole.status == 0
}

#[test]
fn a_writer_that_fails_has_the_first_bytes(rt: HostRuntime) {
    for (word, text) in &TEXTS {
        for then in [Then::Fails, Then::TakesNone] {
            assert!(rt; writes_fail(&rt, rt.alloc(), &["bsp", *word], text, 3, then));
        }
    }
}

#[test]
fn a_writer_that_fails_once_has_failed(rt: HostRuntime) {
    for (word, text) in &TEXTS {
        assert!(rt; writes_fail(&rt, rt.alloc(), &["bsp", *word], text, 1, Then::FailsOnce));
    }
}

// A writer of errors takes four bytes.
fn curt(capacity: usize) -> Plan {
    let mut plan = dripping(capacity, false);
    plan.takes_errors.capacity = 4;
    plan.takes_errors.most = 3;
    plan
}

// A subcommand, a text, how many reads go well, the status, which is as with a writer that takes all, and the errors.
const CURT: [(&str, &str, usize, u8, &[u8]); 7] = [
    ("trace", "phaser\n", usize::MAX, 4, b"refu"),
    ("check", "phaser\n", usize::MAX, 4, b"refu"),
    ("upgrade", "phaser\n", usize::MAX, 4, b"refu"),
    ("run", "phaser\n", usize::MAX, 4, b"refu"),
    ("walk", SWAP, usize::MAX, 5, b"comm"),
    ("check", SWAP, 0, 8, b"read"),
    ("upgrade", SWAP, 0, 8, b"read"),
];

#[test]
fn a_writer_of_errors_that_fails_leaves_the_status(rt: HostRuntime) {
    for (word, text, capacity, status, errors) in &CURT {
        let (words, want) = (["bsp", *word], (*status, b"".as_slice(), *errors));
        assert!(rt;
            leaves(
                &rt,
                rt.alloc(),
                &words,
                text.as_bytes(),
                curt(*capacity),
                want
            )
        );
    }
}

// Returns true if a text of too many LFs is refused by 1048577 reads of a byte.
fn is_refused_in_time<R: Threads + Wait + Sync>(
    rt: &R,
    alloc: Global,
    words: &[&str],
    text: &[u8],
) -> bool {
    let left = run_by(rt, alloc, words, text, dripping(usize::MAX, false));
    left.status == 4
        && left.out.is_empty()
        && left.errors.as_slice() == b"refused line 1 code 1\n".as_slice()
        && left.reads == 1048577
}

#[test]
fn a_text_is_read_by_at_most_1048577_reads(rt: HostRuntime) {
    let text = Vec::from_elem(rt.alloc(), b'\n', 2097152).expect(&rt, "memory");
    for word in ["trace", "check", "upgrade", "run"] {
        assert!(rt; is_refused_in_time(&rt, rt.alloc(), &["bsp", word], &text));
    }
}
