//! Texts that are cut, or that a row can't say.
use crate::fakes::ALL;
use crate::runs::{Ran, SWAP, TEXTS, leaves, run_by};
use std::alloc::Global;
use std::sync::Wait;
use std::thread::Threads;

// Returns true if the beginning `front` of a text is a job, and then it is printed, or is refused, and then that is an error.
fn is_job_or_refused<R: Threads + Wait + Sync>(
    rt: &R,
    alloc: Global,
    front: &[u8],
    is_job: bool,
) -> bool {
    let left = run_by(rt, alloc, &["bsp", "check"], front, ALL);
    let status = if is_job { 0 } else { 4 };
    left.status == status && left.out.is_empty() != is_job && left.errors.is_empty() == is_job
}

// A beginning of the text is a job if it ends after its header, after or in the numbers of its array, after its body or
// after a start line.
const JOBS: [usize; 15] = [5, 6, 15, 16, 17, 18, 19, 20, 21, 22, 95, 96, 108, 109, 121];

#[test]
fn a_front_of_a_text_is_a_job_or_refused(rt: HostRuntime) {
    for length in 0..SWAP.len() {
        let (front, is_job) = (&SWAP.as_bytes()[..length], JOBS.contains(&length));
        assert!(rt;
            is_job_or_refused(&rt, rt.alloc(), front, is_job),
            "{length}"
        );
    }
}

// Returns true if a front of a text was run to its end, a fault or the limit, or refused, and then nothing is printed.
fn has_ended(left: &Ran) -> bool {
    match left.status {
        0 | 2 | 3 => left.errors.is_empty(),
        4 => left.out.is_empty() && !left.errors.is_empty(),
        _ => false,
    }
}

// Returns true if each front of a text ends so.
fn fronts_end<R: Threads + Wait + Sync>(
    rt: &R,
    alloc: Global,
    words: &[&str],
    text: &[u8],
) -> bool {
    for length in 0..text.len() + 1 {
        if !has_ended(&run_by(rt, alloc, words, &text[..length], ALL)) {
            return false;
        }
    }
    true
}

#[test]
fn each_front_of_a_text_ends(rt: HostRuntime) {
    for (word, text) in &TEXTS {
        let words = ["bsp", *word, "--limit", "3"];
        let count = if *word == "run" { 4 } else { 2 };
        assert!(rt; fronts_end(&rt, rt.alloc(), &words[..count], text.as_bytes()));
    }
}

// Without the last line end, and with a byte that a file of rows can't have: a subcommand, a text, and what is left of it.
const TEXTS_OF_NO_ROW: [(&str, &[u8], (u8, &[u8], &[u8])); 3] = [
    (
        "run",
        b"bsp 1\narray a 2 1",
        (0, b"array a 1 0\nended 0\n", b""),
    ),
    (
        "check",
        b"bsp 1\narray a 2 10 20\nbody sw",
        (4, b"", b"refused line 4 code 10\n"),
    ),
    ("check", b"bsp 9\n\0", (4, b"", b"refused line 2 code 2\n")),
];

#[test]
fn texts_that_no_row_says(rt: HostRuntime) {
    for (word, text, want) in &TEXTS_OF_NO_ROW {
        assert!(rt; leaves(&rt, rt.alloc(), &["bsp", *word], text, ALL, *want));
    }
}
