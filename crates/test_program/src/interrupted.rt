//! The program on devices whose reads and writes are interrupted by signals.
use crate::failing::FAILED;
use crate::fakes::interrupted;
use crate::runs::{TEXTS, leave_all, leaves};

// Interrupts change nothing that the program leaves of a text: no more than three in a row, and a thousand.
#[test]
fn an_interrupted_ask_is_made_again(rt: HostRuntime) {
    let plans = [
        interrupted(0, 0),
        interrupted(1, 1),
        interrupted(2, 2),
        interrupted(3, 3),
        interrupted(1000, 1000),
    ];
    for (word, text) in &TEXTS {
        assert!(rt; leave_all(&rt, rt.alloc(), &["bsp", *word], text, &plans));
    }
}

#[test]
fn an_ask_that_is_always_interrupted_has_failed(rt: HostRuntime) {
    for (word, text) in &TEXTS {
        for plan in [interrupted(1001, 0), interrupted(0, 1001)] {
            let (words, want) = (["bsp", *word], (8, b"".as_slice(), FAILED));
            assert!(rt; leaves(&rt, rt.alloc(), &words, text.as_bytes(), plan, want));
        }
    }
}
