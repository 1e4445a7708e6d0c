//! Texts, and runs of the program on them.
use crate::fakes::{ALL, Plan, Sink, Source};
use bsp_cli::{Progress, run, run_telling};
use phase_records::{Reader, Writer};
use std::alloc::Global;
use std::sync::Wait;
use std::thread::Threads;

// Calls of a single phaser.
const PHASER: &str = "phaser 2\narrive\narrive\nshow\nbulk -1\nawait 1\n";

// An arrival in flight in a tree, while another token joins.
const IN_FLIGHT: &str = "tree 2
token
token
token
do 0 join 1 1
do 1 join 2 1
do 1 arrive
begin 0 arrive
go 0
go 0
do 2 join 0 1
run 0
show 0
do 2 arrive
show 0
";

// A trip of a barrier, a caller that leaves early, a reset and a trip.
const BARRIER: &str = "barrier 3
await 0
await 1
await 2
await 0
await 1
abandon 1
await 2
reset
await 0
await 1
await 2
show
";

/// A job of two tasks that swap two cells.
pub(crate) const SWAP: &str = "bsp 1
array a 2 10 20
body swap
let other = 1 - arg
put a[arg] = a[other]
sync
print a[arg]
end
start swap 0
start swap 1
";

// A job of a task that spawns eight.
const SPAWNS: &str = "bsp 1
body p
let i = 0
while i < 8
spawn c i
let i = i + 1
end
sync
end
body c
end
start p 0
";

// A job of format 2, whose tasks add to one cell.
const SUMS: &str = "bsp 2
array c 2 10 20
body sum from to
let from = c[arg]
add c[0] = from
put c[to] = arg
end
start sum 0
start sum 1
";

/// Texts that each subcommand takes, after its name.
pub(crate) const TEXTS: [(&str, &str); 10] = [
    ("trace", PHASER),
    ("trace", IN_FLIGHT),
    ("trace", BARRIER),
    ("check", SWAP),
    ("check", SUMS),
    ("upgrade", SWAP),
    ("upgrade", SUMS),
    ("run", SWAP),
    ("run", SPAWNS),
    ("run", SUMS),
];

/// What a run of the program left.
#[derive(Drop)]
pub(crate) struct Ran {
    pub(crate) status: u8,
    pub(crate) out: Vec<u8>,
    pub(crate) errors: Vec<u8>,
    /// How often it has read.
    pub(crate) reads: u64,
}

/// Runs the program on a text, by devices of this plan.
pub(crate) fn run_by<T: Threads + Wait + Sync>(
    rt: &T,
    alloc: Global,
    words: &[&str],
    text: &[u8],
    plan: Plan,
) -> Ran {
    let (mut out, mut errors) = (Vec::new(alloc), Vec::new(alloc));
    let mut reads = 0;
    let status = run(
        rt,
        alloc,
        words,
        &mut Reader::new(Source::new(text, plan.gives, &mut reads)),
        &mut Writer::new(Sink::new(&mut out, plan.takes)),
        &mut Writer::new(Sink::new(&mut errors, plan.takes_errors)),
    );
    Ran {
        status,
        out,
        errors,
        reads,
    }
}

/// Runs the program on a text with this progress, and returns the status.
pub(crate) fn status_of<T: Threads + Wait + Sync, P: Progress + Sync>(
    rt: &T,
    alloc: Global,
    words: &[&str],
    text: &[u8],
    progress: &P,
) -> u8 {
    let (mut out, mut errors) = (Vec::new(alloc), Vec::new(alloc));
    let mut reads = 0;
    run_telling(
        rt,
        alloc,
        words,
        &mut Reader::new(Source::new(text, ALL.gives, &mut reads)),
        &mut Writer::new(Sink::new(&mut out, ALL.takes)),
        &mut Writer::new(Sink::new(&mut errors, ALL.takes_errors)),
        progress,
    )
}

/// Returns true if a run by devices of this plan leaves this status, output and errors.
pub(crate) fn leaves<T: Threads + Wait + Sync>(
    rt: &T,
    alloc: Global,
    words: &[&str],
    text: &[u8],
    plan: Plan,
    want: (u8, &[u8], &[u8]),
) -> bool {
    let left = run_by(rt, alloc, words, text, plan);
    left.status == want.0 && left.out.as_slice() == want.1 && left.errors.as_slice() == want.2
}

/// Returns true if runs by devices of these plans succeed, and leave what a run does whose devices give and take all at once.
pub(crate) fn leave_all<T: Threads + Wait + Sync>(
    rt: &T,
    alloc: Global,
    words: &[&str],
    text: &str,
    plans: &[Plan],
) -> bool {
    let whole = run_by(rt, alloc, words, text.as_bytes(), ALL);
    for plan in plans {
        if !leaves(
            rt,
            alloc,
            words,
            text.as_bytes(),
            *plan,
            (0, &whole.out, b""),
        ) {
            return false;
        }
    }
    whole.status == 0
}
