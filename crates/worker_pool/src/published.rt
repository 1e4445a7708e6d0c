//! The superstep whose stretches are handed out, as workers see it without a lock.
ghost use Rattle.std.specs.Prelude.{◌≡◌, true, false};
ghost use Rattle.stretch_queue.specs.QueueValue.{is_over};

use programs::program::TaskLoop;
use std::sync::atomic::{AtomicU64, Ordering};
use stretch_queue::hook::Hook;
use stretch_queue::queue::Queue;
use stretch_queue::running::Running;

/// What is published once workers must stop.
pub(crate) const OVER: u64 = u64::MAX;

/// The number of the superstep whose stretches were handed out last, or `OVER`. Only a queue can change it, so no superstep is
/// published that the queue hasn't begun.
///
/// Workers that wait look at the word all the time. If other words in its cache line were written meanwhile, as those of the queue
/// are, each write would wait for these workers. So it has the line for itself, and the one beside it, wherever it lies.
#[derive(Drop)]
pub(crate) struct Published {
    before: [u64; GAP],
    word: AtomicU64,
    after: [u64; GAP],
}

/// How many words keep two others out of each other's cache line, and out of the one beside it.
pub(crate) const GAP: usize = 15;

// Returns what is published of a queue: its superstep, or `OVER` if workers must stop.
fn word_of<P: TaskLoop, H: Hook<P>, J: Running>(queue: &Queue<'_, '_, P, H, J>) -> u64
    ensures over { is_over queue.now ≡ true → result ≡ 18446744073709551615 }
    ensures step { is_over queue.now ≡ false → result ≡ queue.now.stretches.step }
{
    if queue.is_over() {
        OVER
    } else {
        u64::from(queue.step())
    }
}

impl Published {
    /// Creates the state of the first superstep.
    pub(crate) fn new() -> Self {
        Published {
            before: [0; GAP],
            word: AtomicU64::new(0),
            after: [0; GAP],
        }
    }

    /// Returns what was published last.
    pub(crate) fn look(&self) -> u64 {
        self.word.load(Ordering::SeqCst)
    }

    /// Publishes the superstep of a queue, or that workers must stop. Call it while the queue is locked, once its inboxes are filled.
    pub(crate) fn publish<P: TaskLoop, H: Hook<P>, J: Running>(
        &self,
        queue: &Queue<'_, '_, P, H, J>,
    ) {
        self.word.store(word_of(queue), Ordering::SeqCst);
    }
}
