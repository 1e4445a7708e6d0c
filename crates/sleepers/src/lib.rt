//! Threads that wait for a change of words that no lock guards. Each looks again and again for a short time, and then sleeps until
//! another thread has made such a change and calls [`Sleepers::wake`]. If nobody sleeps, that call is a single load of a word that is
//! seldom written.
//!
//! # Why no change is slept over
//!
//! A thread that is about to sleep makes the word odd ([`Sleepers::pause`] returns after that), looks once more at what it waits for,
//! and sleeps only while the word is what it has made of it. A thread that makes a change first makes it, and then loads the word. All
//! of these steps have one order. If the look comes before the change, the word was made odd before it was loaded. So whoever has
//! loaded it, or another that was faster, makes it even, one more than it was, and wakes all. Who hasn't begun to sleep by then
//! finds another number, and looks again. The number grows, so that nobody who was slow takes a later odd number for its own.
//!
//! No clause says so, as no clause says that a thread waits or goes on. `tools/sleepers` tries every order of the steps of two threads
//! that wake others and three that wait; tests try threads.
//!
//! # How long a call waits
//!
//! A call that waits is generic over its [`Patience`]: it waits without a limit ([`Unlimited`]), or until a time has passed
//! ([`Limited`]). Its loop is the same for both.
//!
//! Not part of Java's API.
#![tactic(auto)]

ghost use Rattle.std.specs.Prelude.{IfErr};

use std::hint::spin_loop;
use std::sync::Wait;
use std::sync::atomic::{AtomicU64, Ordering};
use std::thread;
use std::time::{Clock, Duration, Instant};
use thiserror::Error;

/// How often a thread that waits lets others run before it sleeps.
const YIELDS: u32 = 64;

/// The time of a wait has passed, and what it waited for hasn't come.
#[derive(Clone, Copy, Debug, PartialEq, Eq, Error)]
#[error("the time has passed")]
pub struct TimedOut;

/// The threads that wait for a change.
#[derive(Drop)]
pub struct Sleepers {
    // Odd if a thread may sleep.
    word: AtomicU64,
    // How often a thread looks before it lets others run.
    spins: u32,
}

/// How long a thread has waited for a change.
#[derive(Clone, Copy)]
pub struct Pauses {
    looks: u32,
    // The word as the thread has made it odd, if it looks for the last time before it sleeps.
    odd: Option<u32>,
}

impl Pauses {
    /// Begins to wait.
    #[inline(always)]
    pub fn new() -> Pauses {
        Pauses {
            looks: 0,
            odd: None,
        }
    }

    /// Begins anew. Call it if the last look didn't show whether there was a change: then the thread must not sleep yet.
    pub fn restart(&mut self) {
        *self = Pauses::new();
    }
}

/// The time at which a wait ends.
#[derive(Clone, Copy)]
pub enum Deadline {
    /// This time, by the clock of the process.
    At(Instant),
    /// A time that the clock doesn't reach.
    Never,
    /// At once, because the clock can't be read.
    Now,
}

impl Deadline {
    /// Returns the time that comes `limit` from now.
    pub fn after<C: Clock>(clock: &C, limit: Duration) -> Deadline {
        match Instant::now(clock) {
            Ok(now) => now.checked_add(limit).map_or(Deadline::Never, Deadline::At),
            Err(_) => Deadline::Now,
        }
    }

    /// Returns how much time is left, or `None` if the time has passed.
    pub fn left<C: Clock>(&self, clock: &C) -> Option<Duration> {
        match self {
            Deadline::At(end) => {
                let left = end.checked_duration_since(Instant::now(clock).ok()?)?;
                if left.is_zero() { None } else { Some(left) }
            }
            Deadline::Never => Some(Duration::MAX),
            Deadline::Now => None,
        }
    }
}

impl Sleepers {
    /// Nobody sleeps. Who waits spins so often before it lets others run, and then sleeps.
    pub fn new(spins: u32) -> Sleepers {
        Sleepers {
            word: AtomicU64::new(0),
            spins,
        }
    }

    /// Waits for a while, or until a thread has called `wake`. Look again after each pause.
    pub fn pause<R: Wait>(&self, rt: &R, pauses: &mut Pauses) {
        if let Some(odd) = self.mark(pauses) {
            self.word.park(rt, odd);
        }
    }

    /// Waits as `pause`, but no longer than `limit`.
    pub fn pause_for<R: Wait>(&self, rt: &R, pauses: &mut Pauses, limit: Duration) {
        if let Some(odd) = self.mark(pauses) {
            self.word.park_timeout(rt, odd, limit);
        }
    }

    // Lets others run, or makes the word odd for the last look before a sleep. Returns that odd number if the look came after it, so
    // that the thread may sleep now.
    fn mark(&self, pauses: &mut Pauses) -> Option<u32> {
        if pauses.looks < self.spins {
            pauses.looks += 1;
            spin_loop();
            return None;
        }
        if pauses.looks - self.spins < YIELDS {
            pauses.looks = pauses.looks.saturating_add(1);
            thread::yield_now();
            return None;
        }
        let looked = pauses.odd.take();
        if looked.is_none() {
            let odd = self.word.fetch_or(1, Ordering::SeqCst) | 1;
            pauses.odd = Some((odd & 0xFFFF_FFFF) as u32);
        }
        looked
    }

    /// Wakes all threads that sleep. Call it after a change that others may wait for.
    #[inline(always)]
    pub fn wake(&self) {
        let word = self.word.load(Ordering::SeqCst);
        if word & 1 == 1 {
            self.wake_all(word);
        }
    }

    // Makes the odd word even, and wakes all. If another thread has made it even in the meantime, that one wakes them.
    #[cold]
    #[inline(never)]
    fn wake_all(&self, odd: u64) {
        let next = odd.wrapping_add(1);
        if self
            .word
            .compare_exchange(odd, next, Ordering::SeqCst, Ordering::SeqCst)
            .is_ok()
        {
            self.word.wake_all();
        }
    }
}

/// How long a call waits.
pub trait Patience<R: Wait> {
    /// What holds if the call gives up: nothing can hold if it waits without a limit.
    ghost ends: { Type 0 };

    /// Waits for a while, or until a thread has called `wake`. Fails if the time has passed.
    fn pause(&mut self, rt: &R, sleepers: &Sleepers) -> Result<(), TimedOut>
        ensures { IfErr result (λ fault. Self.ends) };

    /// Begins anew, as [`Pauses::restart`].
    fn restart(&mut self);
}

/// Waits until what it waits for has come.
#[derive(Clone, Copy)]
pub struct Unlimited {
    pauses: Pauses,
}

/// Waits until what it waits for has come, or a time has passed.
#[derive(Clone, Copy)]
pub struct Limited {
    pauses: Pauses,
    deadline: Deadline,
}

impl Unlimited {
    /// Begins to wait.
    #[inline(always)]
    pub fn new() -> Unlimited {
        Unlimited {
            pauses: Pauses::new(),
        }
    }
}

impl Limited {
    /// Begins to wait, at most for `limit`. If the clock can't be read, the time has passed at once.
    pub fn new<C: Clock>(clock: &C, limit: Duration) -> Limited {
        Limited {
            pauses: Pauses::new(),
            deadline: Deadline::after(clock, limit),
        }
    }
}

impl<R: Wait> Patience<R> for Unlimited {
    ghost ends = { ⊥ };

    fn pause(&mut self, rt: &R, sleepers: &Sleepers) -> Result<(), TimedOut> {
        sleepers.pause(rt, &mut self.pauses);
        Ok(())
    }

    fn restart(&mut self) {
        self.pauses.restart();
    }
}

impl<R: Wait + Clock> Patience<R> for Limited {
    ghost ends = { Unit {0} };

    fn pause(&mut self, rt: &R, sleepers: &Sleepers) -> Result<(), TimedOut> {
        match self.deadline.left(rt) {
            Some(left) => {
                sleepers.pause_for(rt, &mut self.pauses, left);
                Ok(())
            }
            None => Err(TimedOut),
        }
    }

    fn restart(&mut self) {
        self.pauses.restart();
    }
}
