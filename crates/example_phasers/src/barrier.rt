//! Three threads meet twenty times at a barrier, whose action counts the generations.

use phasers::barrier::{Action, Barrier, GateFault};
use std::sync::Wait;
use std::sync::atomic::{AtomicU64, Ordering};
use std::thread::{self, Threads};

#[derive(Drop)]
struct Counting<'a>(&'a AtomicU64);

impl Action for Counting<'_> {
    fn run(&self, _generation: u64) {
        self.0.fetch_add(1, Ordering::SeqCst);
    }
}

// Meets the others twenty times, and returns the sum of the arrival indices.
fn turns<R: Wait, A: Action>(rt: &R, barrier: &Barrier<A>, caller: u32) -> Result<u64, GateFault> {
    let mut sum = 0u64;
    for _ in 0..20 {
        match barrier.await_turn(rt, caller) {
            Ok(index) => sum = sum.saturating_add(u64::from(index)),
            Err(fault) => {
                // The others would wait for this thread.
                barrier.break_off(rt);
                return Err(fault);
            }
        }
    }
    Ok(sum)
}

/// Runs the threads at the barrier, and prints what they return.
pub(crate) fn run<R: AllocGlobal + Print + Threads + Wait + Sync>(rt: &R) -> anyhow::Result<()> {
    let count = AtomicU64::new(0);
    let barrier = Barrier::new(rt.alloc(), 3, Counting(&count))?;
    let sums = thread::map_indices(rt, rt.alloc(), 3, &|i: usize| turns(rt, &barrier, i as u32))?;
    let mut all = 0u64;
    for sum in sums {
        all = all.saturating_add(sum?);
    }
    println!(rt; "{all} {}", count.load(Ordering::SeqCst))?;
    Ok(())
}
