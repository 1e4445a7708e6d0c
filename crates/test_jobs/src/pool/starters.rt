//! Workers that can't be started.
use crate::pool::fixtures::{End, SWAP, run_text};
use crate::pool::gates::{Hold, Holds};
use std::alloc::Global;
use std::sync::Wait;
use std::sync::atomic::AtomicU64;
use std::thread::Threads;
use worker_pool::{Refused, Starter};

// Lets each worker be started but one.
#[derive(Drop)]
struct AllBut(u32);

impl Starter for AllBut {
    fn may_start(&self, k: u32) -> bool {
        k != self.0
    }
}

// Returns how a run of eight workers ends if the worker of this number can't be started, and how many segments are entered.
fn ends_without<R: Threads + Wait + Sync>(rt: &R, alloc: Global, but: u32) -> (End, u64) {
    let gate = Holds::new(Hold::Nothing);
    let sum = AtomicU64::new(0);
    let end = run_text(rt, alloc, SWAP, "2x3", 8, &gate, &AllBut(but), &sum);
    (end, gate.count_entered())
}

// No task runs unless all workers are started, and then two do, twice.
#[test]
fn if_a_worker_is_not_started_all_stop(rt: HostRuntime) {
    for but in 0..8 {
        assert!(rt; ends_without(&rt, rt.alloc(), but) == (End::NotStarted(but), 0));
    }
    assert!(rt; ends_without(&rt, rt.alloc(), 8) == (End::Ended(2), 4));
}

#[test]
fn refusals_have_their_numbers(rt: HostRuntime) {
    let numbers = [
        Refused::Memory.number(),
        Refused::NotStarted(5).number(),
        Refused::Internal.number(),
        Refused::Full.number(),
    ];
    assert!(rt; numbers == [1, 2, 3, 4]);
}
