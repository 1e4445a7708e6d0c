//! The stretches of a worker: those that it is to run, and those that it has run.
ghost use Rattle.std.specs.Prelude.{◌≡◌, ◌<◌, ◌+◌, IfOk, IfSome, length, vec_len};

use crate::published::GAP;
use programs::program::TaskLoop;
use std::alloc::{AllocError, Global};
use std::sync::atomic::{AtomicU64, Ordering};
use std::sync::{Mutex, Wait};
use stretch_queue::fault::WorkerFault;
use stretch_queue::hand::{HeldStretch, RanStretch};
use stretch_queue::hook::Hook;
use stretch_queue::inbox::Inbox;
use stretch_queue::outbox::{Arrived, Delivered, Outbox};
use stretch_queue::queue::Queue;
use stretch_queue::running::Running;

/// What a worker is to run in a superstep and what it has run, under a lock each. An inbox is filled only before its superstep is
/// published, so a worker that finds all of them empty after that needn't look again before the next one.
#[derive(Drop)]
pub(crate) struct Lane<'p, P: TaskLoop, H: Hook<P>, J: Running> {
    inbox: Mutex<Inbox<'p, P, H::Lines, J>>,
    outbox: Mutex<Outbox<'p, P, J>>,
    // How many stretches the inbox has.
    waiting: AtomicU64,
    // Keeps the next lane out of this one's cache lines.
    after: [u64; GAP],
}

impl<'p, P: TaskLoop, H: Hook<P>, J: Running> Lane<'p, P, H, J> {
    // Creates a lane without stretches.
    fn new(alloc: Global) -> Self {
        Lane {
            inbox: Mutex::new(Inbox::new(alloc)),
            outbox: Mutex::new(Outbox::new(alloc)),
            waiting: AtomicU64::new(0),
            after: [0; GAP],
        }
    }

    // Returns how many stretches are to be run.
    fn waiting(&self) -> u64 {
        self.waiting.load(Ordering::SeqCst)
    }

    /// Takes the stretch that is to be run first: of those that wait, the one whose tasks computed most in the superstep before.
    pub(crate) fn take<R: Wait>(&self, rt: &R) -> Option<HeldStretch<'p, P, H::Lines, J>> {
        if self.waiting() == 0 {
            return None;
        }
        let mut inbox = self.inbox.lock(rt);
        let held = inbox.pop();
        self.waiting.store(inbox.len() as u64, Ordering::SeqCst);
        held
    }

    /// Delivers a stretch whose segments have run. Returns the members of its tasks.
    pub(crate) fn deliver<R: Wait>(
        &self,
        rt: &R,
        ran: RanStretch<'p, P, J>,
    ) -> Result<Delivered<J>, WorkerFault> {
        self.outbox.lock(rt).deliver(ran)
    }

    /// Takes back members that have arrived or left. Returns them if their superstep has been closed in the meantime.
    pub(crate) fn take_back<R: Wait>(
        &self,
        rt: &R,
        arrived: Arrived<J>,
    ) -> Result<Option<Arrived<J>>, WorkerFault> {
        self.outbox.lock(rt).take_back(arrived)
    }

    /// Moves the ready stretches below this number from the queue to the inbox.
    pub(crate) fn fill<R: Wait>(
        &self,
        rt: &R,
        queue: &mut Queue<'_, 'p, P, H, J>,
        end: usize,
    ) -> Result<(), WorkerFault> {
        let mut inbox = self.inbox.lock(rt);
        for _ in 0..queue.ready_len() {
            match queue.next_below(end)? {
                Some(held) => inbox.push(held)?,
                None => break,
            }
        }
        inbox.sort();
        self.waiting.store(inbox.len() as u64, Ordering::SeqCst);
        Ok(())
    }

    /// Moves what was delivered in a superstep, and the members that are back, to the queue, and begins the next superstep.
    pub(crate) fn empty<R: Wait>(
        &self,
        rt: &R,
        queue: &mut Queue<'_, 'p, P, H, J>,
        next: u32,
    ) -> Result<(), WorkerFault> {
        let mut outbox = self.outbox.lock(rt);
        for _ in 0..outbox.done_len() {
            if let Some(done) = outbox.pop_done() {
                queue.accept(done);
            }
        }
        for _ in 0..outbox.back_len() {
            if let Some(arrived) = outbox.pop_back() {
                queue.put_tokens(arrived.number, arrived.tokens)?;
            }
        }
        outbox.open(next);
        Ok(())
    }
}

/// Makes the lanes of `workers` workers.
pub(crate) fn lanes_for<'p, P: TaskLoop, H: Hook<P>, J: Running>(
    alloc: Global,
    workers: u32,
) -> Result<Vec<Lane<'p, P, H, J>>, AllocError>
    ensures { IfOk result (λ lanes. vec_len lanes ≡ workers) }
{
    let mut lanes = Vec::with_capacity(alloc, workers as usize)?;
    for _ in 0..workers {
        lanes.push(Lane::new(alloc))?;
    }
    Ok(lanes)
}

// Returns the place of the lane with the most stretches to be run, if there are any.
fn fullest<P: TaskLoop, H: Hook<P>, J: Running>(lanes: &[Lane<'_, P, H, J>]) -> Option<usize>
    ensures { IfSome result (λ place. place < length lanes.now) }
{
    let mut most = 0;
    let mut place = None;
    for k in 0..lanes.len() {
        let waiting = lanes[k].waiting();
        if waiting > most {
            most = waiting;
            place = Some(k);
        }
    }
    place
}

/// Takes a stretch of the lane that has the most to be run. Returns `None` if none is to be run any more in this superstep.
pub(crate) fn take_of_fullest<'p, P: TaskLoop, H: Hook<P>, J: Running, R: Wait>(
    rt: &R,
    lanes: &[Lane<'p, P, H, J>],
) -> Option<HeldStretch<'p, P, H::Lines, J>> {
    for _ in rt.forever() {
        let place = fullest(lanes)?;
        if let Some(held) = lanes[place].take(rt) {
            return Some(held);
        }
    }
    unreachable!()
}

/// Returns the number after those of the stretches of worker `k`, of `workers` workers, if there are `count` stretches.
pub(crate) fn end_of(count: usize, k: usize, workers: usize) -> usize
    requires { k < workers }
    ensures all { k + 1 ≡ workers → result ≡ count }
{
    if k + 1 == workers {
        count
    } else {
        count.saturating_mul(k + 1) / workers
    }
}
