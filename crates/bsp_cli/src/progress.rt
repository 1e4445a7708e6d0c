//! Progress of a job while it runs. No contract depends on it: progress changes nothing else.
use phase_records::JobStatus;
use std::alloc::{AllocError, Global};
use std::rt::Clock;
use std::sync::{Arc, Condvar, CondvarTimeouts, Mutex, Wait};
use std::thread;
use std::thread::{JoinHandle, Threads};
use std::time::{Duration, Instant};
use step_core::{NoObserver, Observe};
use superstep_memory::arrays::Arrays;
use superstep_memory::path::Path;
use worker_pool::Gate;

/// Watches the supersteps of a job on one thread, and is called once more when the job has left its report.
pub trait ObserveEnd: Observe {
    /// Called when no more supersteps come.
    fn end(self);
}

/// Reports progress: is called around each segment of a job that workers share, and once when the job has left its report.
pub trait Progress: Gate {
    /// The observer of a job on one thread.
    type Alone: ObserveEnd;

    /// Returns an observer for the supersteps of a job on one thread.
    fn alone(&self) -> Self::Alone;

    /// Called when no more segments come.
    fn end<R: Wait>(&self, rt: &R);

    /// Called with how a job ended, once its report is printed.
    fn set_end<R: Wait>(&self, rt: &R, status: JobStatus);
}

/// Reports nothing.
#[derive(Clone, Copy, Drop)]
pub struct NoProgress;

impl Gate for NoProgress {
    fn enter<R: Wait>(&self, _rt: &R, _path: &Path, _step: u32) {}

    fn leave<R: Wait>(&self, _rt: &R, _path: &Path, _step: u32) {}
}

impl ObserveEnd for NoObserver {
    fn end(self) {}
}

impl Progress for NoProgress {
    type Alone = NoObserver;

    fn alone(&self) -> NoObserver {
        NoObserver
    }

    fn end<R: Wait>(&self, _rt: &R) {}

    fn set_end<R: Wait>(&self, _rt: &R, _status: JobStatus) {}
}

// The word that asks for progress.
const PROGRESS: &str = "--progress";

// The current superstep, the number of tasks known to be in it, when the job began, the second of the last report, and
// whether the job has left its report.
#[derive(Clone, Copy)]
struct ProgressState {
    step: u32,
    tasks: u32,
    began: Option<Instant>,
    shown: u64,
    over: bool,
}

// Returns the number of seconds that the job has run.
fn seconds<T: Clock>(rt: &T, seen: ProgressState) -> u64 {
    let Some(began) = seen.began else {
        return 0;
    };
    match began.elapsed(rt) {
        Ok(passed) => passed.as_secs(),
        Err(_) => 0,
    }
}

// Reports the superstep that was seen.
fn tell<T: Eprint>(rt: &T, seen: ProgressState, seconds: u64) {
    let ProgressState { step, tasks, .. } = seen;
    let _ = eprintln!(rt; "superstep {step}, {tasks} tasks, {seconds} s");
}

// Reports the superstep that was seen, if a second has passed since the last report. Returns the state after that.
fn tell_if_due<T: Clock + Eprint>(rt: &T, seen: ProgressState) -> ProgressState {
    let passed = seconds(rt, seen);
    if passed <= seen.shown {
        return seen;
    }
    tell(rt, seen, passed);
    ProgressState {
        shown: passed,
        ..seen
    }
}

// Returns the state after `tasks` more tasks of this superstep. If it is a new superstep and a second has passed, reports
// the one before.
fn seen_after<T: Clock + Eprint>(
    rt: &T,
    seen: ProgressState,
    step: u32,
    tasks: u32,
) -> ProgressState {
    if step == seen.step {
        return ProgressState {
            tasks: seen.tasks.saturating_add(tasks),
            began: seen.began.or_else(|| Instant::now(rt).ok()),
            ..seen
        };
    }
    ProgressState {
        step,
        tasks,
        ..tell_if_due(rt, seen)
    }
}

/// What is known of a job that runs, and how it ended.
#[derive(Drop)]
pub struct Seen {
    state: Mutex<ProgressState>,
    over: Condvar,
    end: Mutex<Option<JobStatus>>,
}

impl Seen {
    /// Creates the state before the first superstep.
    pub fn new() -> Self {
        Seen {
            state: Mutex::new(ProgressState {
                step: 0,
                tasks: 0,
                began: None,
                shown: 0,
                over: false,
            }),
            over: Condvar::new(),
            end: Mutex::new(None),
        }
    }

    /// Gives away how the job ended, if its report was printed.
    pub(crate) fn take_end<T: Wait>(&self, rt: &T) -> Option<JobStatus> {
        self.end.lock(rt).take()
    }

    // Sees `tasks` more tasks of this superstep.
    fn see<T: Clock + Eprint + Wait>(&self, rt: &T, step: u32, tasks: usize) {
        let tasks = u32::try_from(tasks).unwrap_or(u32::MAX);
        let mut state = self.state.lock(rt);
        *state = seen_after(rt, *state, step, tasks);
    }

    // Reports the superstep that was seen last, if there was one. To be called when the job has left its report.
    fn end<T: Clock + Eprint + Wait>(&self, rt: &T) {
        let mut state = self.state.lock(rt);
        state.over = true;
        if state.tasks > 0 {
            tell(rt, *state, seconds(rt, *state));
        }
    }

    // Reports once a second the superstep that lasts, until the job has left its report.
    fn tick<T: Clock + Eprint + Wait>(&self, rt: &T) {
        let mut state = self.state.lock(rt);
        for _ in rt.forever() {
            if state.over {
                return;
            }
            state = self.over.wait_timeout(rt, state, Duration::from_secs(1)).0;
            if !state.over {
                *state = tell_if_due(rt, *state);
            }
        }
    }
}

/// A thread that reports the superstep that lasts, once a second.
#[derive(Drop)]
pub(crate) struct Ticker {
    seen: Arc<Seen, Global>,
    thread: JoinHandle<()>,
}

impl Ticker {
    // Starts the thread. Fails if there is no memory for it.
    fn start<T: Clock + Eprint + Threads + Wait + Copy + Send + 'static>(
        rt: &T,
        alloc: Global,
    ) -> Result<Ticker, AllocError> {
        let seen = Arc::new(alloc, Seen::new())?;
        let theirs = Arc::try_clone(&seen)?;
        let host = *rt;
        let thread = thread::spawn(rt, move || theirs.tick(&host))?;
        Ok(Ticker { seen, thread })
    }

    // Ends the thread.
    fn stop<T: Threads + Wait>(self, rt: &T) {
        let Ticker { seen, thread } = self;
        seen.state.lock(rt).over = true;
        seen.over.notify_all();
        thread.join(rt);
    }
}

/// Starts a thread that ticks if a word asks for progress. Without the memory for it there is none.
pub(crate) fn ticker_for<T: Clock + Eprint + Threads + Wait + Copy + Send + 'static>(
    rt: &T,
    alloc: Global,
    words: &[&str],
) -> Option<Ticker> {
    if words.iter().any(|word| *word == PROGRESS) {
        Ticker::start(rt, alloc).ok()
    } else {
        None
    }
}

/// Returns what is known to the thread, or if there is none, what is known here.
pub(crate) fn seen_by<'a>(ticker: &'a Option<Ticker>, here: &'a Seen) -> &'a Seen {
    match ticker {
        Some(ticker) => &ticker.seen,
        None => here,
    }
}

/// Ends the thread, if there is one.
pub(crate) fn stop<T: Threads + Wait>(rt: &T, ticker: Option<Ticker>) {
    if let Some(ticker) = ticker {
        ticker.stop(rt);
    }
}

/// Reports a job to standard error: when a superstep begins and a second has passed, prints
/// `superstep S, T tasks, R s` of the superstep before, and at the end of the last one. A [`Ticker`] prints it while a
/// superstep lasts.
#[derive(Drop)]
pub struct Teller<'a, T: Clock + Eprint + Wait> {
    rt: &'a T,
    seen: &'a Seen,
}

impl<'a, T: Clock + Eprint + Wait> Teller<'a, T> {
    /// Returns a reporter of what is known here, which reads the clock of `rt` and prints to its standard error.
    pub fn new(rt: &'a T, seen: &'a Seen) -> Self {
        Teller { rt, seen }
    }
}

impl<T: Clock + Eprint + Wait> Observe for Teller<'_, T> {
    fn superstep(&mut self, step: u32, _arrays: &Arrays, tasks: usize) {
        self.seen.see(self.rt, step, tasks);
    }
}

impl<T: Clock + Eprint + Wait> ObserveEnd for Teller<'_, T> {
    fn end(self) {
        self.seen.end(self.rt);
    }
}

impl<T: Clock + Eprint + Wait> Gate for Teller<'_, T> {
    fn is_open(&self) -> bool {
        true
    }

    fn stretch<R: Wait>(&self, _rt: &R, step: u32, tasks: usize) {
        self.seen.see(self.rt, step, tasks);
    }

    fn enter<R: Wait>(&self, _rt: &R, _path: &Path, _step: u32) {}

    fn leave<R: Wait>(&self, _rt: &R, _path: &Path, _step: u32) {}
}

impl<'a, T: Clock + Eprint + Wait> Progress for Teller<'a, T> {
    type Alone = Teller<'a, T>;

    fn alone(&self) -> Teller<'a, T> {
        Teller::new(self.rt, self.seen)
    }

    fn end<R: Wait>(&self, _rt: &R) {
        self.seen.end(self.rt);
    }

    fn set_end<R: Wait>(&self, rt: &R, status: JobStatus) {
        *self.seen.end.lock(rt) = Some(status);
    }
}
