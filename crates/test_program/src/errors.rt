//! What errors print, for users who pass them on with `?`.
use bsp_cli::RunFault;
use job_stream::StreamFault;
use std::alloc::Global;
use std::fmt::Display;
use stream_workers::WorkersStreamFault;
use text_lines::{Code, Refusal};
use trace_text::TraceFault;

// Returns true if each error prints the text beside it.
fn print_so<E: Display + Drop>(alloc: Global, rows: &[(E, &str)]) -> bool {
    for (error, want) in rows {
        match format!(in alloc; "{error}") {
            Ok(printed) if printed.as_str() == *want => {}
            _ => return false,
        }
    }
    true
}

// The refusal of a text at its third line.
const REFUSAL: Refusal = Refusal {
    line: 3,
    code: Code::UnknownLine,
};

#[test]
fn a_command_that_did_not_end_prints_why(rt: HostRuntime) {
    let rows = [
        (RunFault::Text(REFUSAL), "refused line 3 code 4"),
        (RunFault::Read, "read or write failed"),
        (RunFault::Write, "read or write failed"),
        (RunFault::Memory, "out of memory"),
        (RunFault::NotStarted(2), "worker 2 not started"),
        (RunFault::Internal, "internal"),
    ];
    assert!(rt; print_so(rt.alloc(), &rows));
}

#[test]
fn a_trace_that_did_not_end_prints_why(rt: HostRuntime) {
    let rows = [
        (TraceFault::Text(REFUSAL), "line 3: unknown line"),
        (TraceFault::Read, "read failed"),
        (TraceFault::Write, "write failed"),
        (TraceFault::Memory, "out of memory"),
    ];
    assert!(rt; print_so(rt.alloc(), &rows));
}

#[test]
fn a_stream_that_did_not_end_prints_why(rt: HostRuntime) {
    let rows = [(StreamFault::Write, "write failed")];
    assert!(rt; print_so(rt.alloc(), &rows));
    let rows = [
        (
            WorkersStreamFault::Fault(StreamFault::Memory),
            "out of memory",
        ),
        (WorkersStreamFault::Fault(StreamFault::Internal), "internal"),
        (WorkersStreamFault::NotStarted(3), "worker 3 not started"),
    ];
    assert!(rt; print_so(rt.alloc(), &rows));
}
