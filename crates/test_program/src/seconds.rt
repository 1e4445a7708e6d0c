//! What `--progress` prints, by a clock of the test: a line a second, however many supersteps end in it.
use crate::runs::status_of;
use bsp_cli::{Seen, Teller};
use std::alloc::Global;
use std::fmt::Display;
use std::io;
use std::rt::Clock;
use std::sync::atomic::{AtomicU64, Ordering};
use std::sync::{Mutex, Wait};
use std::thread::Threads;
use std::time::Duration;

// Its clock goes on by ten milliseconds each time it is read. It keeps what is printed to standard error.
#[derive(Drop)]
struct Desk<'a, R: Wait> {
    rt: &'a R,
    alloc: Global,
    reads: AtomicU64,
    printed: Mutex<Vec<u8>>,
}

impl<R: Wait> Wait for Desk<'_, R> {}

impl<R: Wait> Clock for Desk<'_, R> {
    fn monotonic(&self) -> io::Result<Duration> {
        let reads = self.reads.fetch_add(1, Ordering::SeqCst);
        Ok(Duration::from_millis(reads.saturating_mul(10)))
    }

    fn since_1970(&self) -> io::Result<Duration> {
        self.monotonic()
    }
}

impl<R: Wait> Desk<'_, R> {
    // Keeps a text.
    fn keep(&self, text: &str) -> io::Result<()> {
        let mut printed = self.printed.lock(self.rt);
        match printed.extend_from_slice(text.as_bytes()) {
            Ok(()) => Ok(()),
            Err(_) => Err(io::ErrorKind::OutOfMemory.into()),
        }
    }
}

impl<R: Wait> Eprint for Desk<'_, R> {
    fn eprint<D: Display + Drop>(&self, value: D) -> io::Result<()> {
        match format!(in self.alloc; "{value}") {
            Ok(text) => self.keep(text.as_str()),
            Err(_) => Err(io::ErrorKind::OutOfMemory.into()),
        }
    }

    fn eprintln<D: Display + Drop>(&self, value: D) -> io::Result<()> {
        match format!(in self.alloc; "{value}\n") {
            Ok(text) => self.keep(text.as_str()),
            Err(_) => Err(io::ErrorKind::OutOfMemory.into()),
        }
    }
}

// A task that goes on for ever.
const ENDLESS: &str = "bsp 1
body b
while 1
sync
end
end
start b 0
";

// What a thousand supersteps of ten milliseconds print: a line at the first superstep of each second, of the one before, and one at
// the end.
const TOLD: &str = "superstep 99, 1 tasks, 1 s
superstep 199, 1 tasks, 2 s
superstep 299, 1 tasks, 3 s
superstep 399, 1 tasks, 4 s
superstep 499, 1 tasks, 5 s
superstep 599, 1 tasks, 6 s
superstep 699, 1 tasks, 7 s
superstep 799, 1 tasks, 8 s
superstep 899, 1 tasks, 9 s
superstep 999, 1 tasks, 10 s
";

// Returns true if a run by these words prints this of its progress, and ends at its limit.
fn prints<R: Threads + Wait + Sync>(rt: &R, alloc: Global, words: &[&str], want: &str) -> bool {
    let desk = Desk {
        rt,
        alloc,
        reads: AtomicU64::new(0),
        printed: Mutex::new(Vec::new(alloc)),
    };
    let seen = Seen::new();
    let teller = Teller::new(&desk, &seen);
    let status = status_of(rt, alloc, words, ENDLESS.as_bytes(), &teller);
    let printed = desk.printed.lock(rt);
    status == 3 && printed.as_slice() == want.as_bytes()
}

// On one thread, by supersteps that are written as they end, and on two workers.
const WORDS: [&[&str]; 3] = [
    &["bsp", "run", "--progress", "--limit", "1000"],
    &["bsp", "run", "--progress", "--limit", "1000", "--stream"],
    &[
        "bsp",
        "run",
        "--progress",
        "--limit",
        "1000",
        "--workers",
        "2",
    ],
];

#[test]
fn progress_is_a_line_a_second(rt: HostRuntime) {
    for words in &WORDS {
        assert!(rt; prints(&rt, rt.alloc(), words, TOLD));
    }
}
