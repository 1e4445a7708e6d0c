//! The hooks of a run: its gate gets each segment, its starter each worker, and its workers are threads.

use bodies::{Gate, Path, Starter};
use std::sync::Wait;
use std::sync::atomic::{AtomicU64, Ordering};
use std::thread;

// How often the first task looks for the second before it gives up.
const LOOKS: u32 = 10_000_000;

/// Counts segments. The first start task waits in superstep 0 until the second has come, so two threads have to run them.
#[derive(Drop)]
pub(crate) struct Meets {
    entered: AtomicU64,
    left: AtomicU64,
    came: AtomicU64,
    met: AtomicU64,
}

impl Meets {
    /// Creates a gate to which nobody has come yet.
    pub(crate) fn new() -> Self {
        Meets {
            entered: AtomicU64::new(0),
            left: AtomicU64::new(0),
            came: AtomicU64::new(0),
            met: AtomicU64::new(0),
        }
    }

    /// Returns how many segments were entered, how many were left, and 1 if the two first tasks ran at the same time.
    pub(crate) fn counts(&self) -> (u64, u64, u64) {
        (
            self.entered.load(Ordering::SeqCst),
            self.left.load(Ordering::SeqCst),
            self.met.load(Ordering::SeqCst),
        )
    }

    // Waits until the second task has come.
    fn await_second(&self) {
        for _ in 0..LOOKS {
            if self.came.load(Ordering::SeqCst) == 1 {
                self.met.store(1, Ordering::SeqCst);
                return;
            }
            thread::yield_now();
        }
    }
}

impl Gate for Meets {
    fn enter<R: Wait>(&self, _rt: &R, path: &Path, step: u32) {
        self.entered.fetch_add(1, Ordering::SeqCst);
        if step == 0 && path.as_slice() == [0u16].as_slice() {
            self.await_second();
        }
        if step == 0 && path.as_slice() == [1u16].as_slice() {
            self.came.store(1, Ordering::SeqCst);
        }
    }

    fn leave<R: Wait>(&self, _rt: &R, _path: &Path, _step: u32) {
        self.left.fetch_add(1, Ordering::SeqCst);
    }
}

/// Starts all workers, and notes their numbers as digits, each one more.
#[derive(Drop)]
pub(crate) struct Starts {
    digits: AtomicU64,
}

impl Starts {
    /// Creates a starter by which no worker has been started yet.
    pub(crate) fn new() -> Self {
        Starts {
            digits: AtomicU64::new(0),
        }
    }

    /// Returns the numbers of the workers, as digits.
    pub(crate) fn digits(&self) -> u64 {
        self.digits.load(Ordering::SeqCst)
    }
}

impl Starter for Starts {
    fn may_start(&self, k: u32) -> bool {
        let before = self.digits.load(Ordering::SeqCst);
        let digit = u64::from(k).wrapping_add(1);
        self.digits.store(
            before.wrapping_mul(10).wrapping_add(digit),
            Ordering::SeqCst,
        );
        true
    }
}
