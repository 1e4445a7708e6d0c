//! Observers of the supersteps of a job on one thread.
ghost use Rattle.std.specs.Prelude.{ℕ, ℤ, List};

use programs::watch;
use superstep_memory::arrays::Arrays;

/// Is called before each superstep of a job on one thread (own).
pub trait Observe {
    /// What a call says of its superstep, of the arrays as it begins, and of how many tasks live: nothing, unless it says more.
    ghost seen: { ℕ → List (List ℕ × List ℤ) → ℕ → Type 0 } = { λ step arrays tasks. Unit {0} };

    /// Is called when superstep `step`, from 0, begins with these arrays and `tasks` live tasks.
    fn superstep(&mut self, step: u32, arrays: &Arrays, tasks: usize)
        ensures seen { seen step arrays.now tasks };
}

/// Does nothing (own).
#[derive(Clone, Copy, Drop)]
pub struct NoObserver;

impl Observe for NoObserver {
    #[inline(always)]
    fn superstep(&mut self, _step: u32, _arrays: &Arrays, _tasks: usize) {}
}

// An observer of a job, as a watcher of its program that never stops it.
#[derive(Drop)]
pub(crate) struct Looking<'w, W> {
    pub(crate) watch: &'w mut W,
}

impl<'w, W: Observe> watch::Watch for Looking<'w, W> {
    ghost stops = { λ step arrays tasks. ⊥ };

    ghost goes = { λ step arrays tasks. W.seen step arrays tasks };

    #[inline(always)]
    fn goes_on(&mut self, step: u32, arrays: &Arrays, tasks: usize) -> bool {
        self.watch.superstep(step, arrays, tasks);
        true
    }
}
