//! What the closure that ends the tree gets.
use crate::pool::fixtures::{End, SPAWNS, SWAP, run_text};
use std::alloc::Global;
use std::sync::Wait;
use std::sync::atomic::{AtomicU64, Ordering};
use std::thread::Threads;
use worker_pool::{AllStart, OpenGate};

// A task that spawns one.
const SPAWNS_ONE: &str = "bsp 1
body p
spawn c 0
sync
end
body c
end
start p 0
";

// Each job, a tree, and what the closure gets in two supersteps: a number of parties at the root in the first, and none
// in the second. On one tier all nine tasks are parties of the root; on three levels its two children are. On two
// leaves the second start task is at the second leaf, and so is the first task that one at the first leaf spawns.
const SUMS: [(&str, &str, u64); 4] = [
    (SPAWNS, "flat", 2001009),
    (SPAWNS, "2x3", 2001002),
    (SWAP, "2", 2001002),
    (SPAWNS_ONE, "2", 2001002),
];

// Returns how a run with two workers ended, and the sum of what the closure got.
fn sum_in<R: Threads + Wait + Sync>(rt: &R, alloc: Global, text: &str, widths: &str) -> (End, u64) {
    let sum = AtomicU64::new(0);
    let end = run_text(rt, alloc, text, widths, 2, &OpenGate, &AllStart, &sum);
    (end, sum.load(Ordering::SeqCst))
}

#[test]
fn the_closure_gets_phases_and_parties_of_the_root(rt: HostRuntime) {
    for (text, widths, want) in &SUMS {
        assert!(rt; sum_in(&rt, rt.alloc(), text, widths) == (End::Ended(2), *want));
    }
}
