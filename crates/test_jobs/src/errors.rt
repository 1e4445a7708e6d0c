//! What errors print, for users who pass them on with `?`.
use job_reader::{ReadJobFault, read_job};
use std::alloc::Global;

// Returns the fault of a text; of a job's text, that memory ran out.
fn fault_of(alloc: Global, text: &[u8]) -> ReadJobFault {
    match read_job(alloc, text) {
        Ok(_) => ReadJobFault::Memory,
        Err(fault) => fault,
    }
}

// Returns true if the fault of a text prints this.
fn prints(alloc: Global, text: &[u8], want: &str) -> bool {
    match format!(in alloc; "{}", fault_of(alloc, text)) {
        Ok(printed) => printed.as_str() == want,
        Err(_) => false,
    }
}

// Texts, and what their faults print. The last is a job's.
const ROWS: [(&[u8], &str); 4] = [
    (b"bsp 1\n\nshow\n", "line 3: unknown line"),
    (b"bsp 3\n", "line 1: the first line isn't a header"),
    (
        b"bsp 1\nbody b\nlet x = 05\nend\n",
        "line 3: not a number, or out of its range",
    ),
    (b"bsp 1\n", "out of memory"),
];

#[test]
fn a_refusal_prints_its_line(rt: HostRuntime) {
    for (text, want) in &ROWS {
        assert!(rt; prints(rt.alloc(), text, want));
    }
}
