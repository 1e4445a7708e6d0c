//! Help, whose text is the parser's.
use crate::fakes::ALL;
use crate::runs::run_by;
use std::alloc::Global;
use std::sync::Wait;
use std::thread::Threads;

// Words of a command line that asks for help, and what the help says.
const HELPS: [(&[&str], &str); 13] = [
    (&["bsp", "--help"], "\n  trace  "),
    (&["bsp", "--help"], "\n  check  "),
    (&["bsp", "--help"], "\n  upgrade  "),
    (&["bsp", "--help"], "\n  run  "),
    (&["bsp", "run", "--help"], "--limit <N>"),
    (&["bsp", "run", "--help"], "--workers <N>"),
    (&["bsp", "run", "--help"], "--tree <WIDTHS>"),
    (&["bsp", "run", "--help"], "\n  10  "),
    (&["bsp", "run", "--help"], "worker K not started"),
    (&["bsp", "check", "--help"], "\n  10  "),
    (&["bsp", "upgrade", "--help"], "\n  10  "),
    (&["bsp", "trace", "--help"], "\n  12  "),
    (&["bsp", "trace", "-h"], "trace"),
];

// Returns true if a run with these words says this.
fn tells<R: Threads + Wait + Sync>(rt: &R, alloc: Global, words: &[&str], name: &str) -> bool {
    let left = run_by(rt, alloc, words, b"", ALL);
    match str::from_utf8(left.out.as_slice()) {
        Ok(text) => left.status == 0 && left.errors.is_empty() && text.contains(name),
        Err(_) => false,
    }
}

#[test]
fn help_names_what_the_command_line_takes(rt: HostRuntime) {
    for (words, name) in &HELPS {
        assert!(rt; tells(&rt, rt.alloc(), words, name));
    }
}
