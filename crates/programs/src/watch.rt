//! Watchers of a run.
ghost use Rattle.std.specs.Prelude.{◌≡◌, ℕ, ℤ, List, false, true};

use superstep_memory::arrays::Arrays;

/// Looks on at a run, superstep by superstep, and may stop it (own).
pub trait Watch {
    /// When it may stop a run: before this superstep, if these are the arrays and so many tasks live. Always, unless it says more.
    ghost stops: { ℕ → List (List ℕ × List ℤ) → ℕ → Type 0 } = { λ step arrays tasks. Unit {0} };

    /// When it may let a superstep begin: always, unless it says more.
    ghost goes: { ℕ → List (List ℕ × List ℤ) → ℕ → Type 0 } = { λ step arrays tasks. Unit {0} };

    /// Is called before each superstep, with its number from 0, the arrays, and how many tasks live. Returns `false` to stop
    /// the run there: it then ends as at a limit of `step` supersteps.
    fn goes_on(&mut self, step: u32, arrays: &Arrays, tasks: usize) -> bool
        ensures stops { result ≡ false → stops step arrays.now tasks }
        ensures goes { result ≡ true → goes step arrays.now tasks };
}

/// Stops no run (own).
#[derive(Clone, Copy)]
pub struct NoWatch;

impl Watch for NoWatch {
    ghost stops = { λ step arrays tasks. ⊥ };

    fn goes_on(&mut self, step: u32, arrays: &Arrays, tasks: usize) -> bool {
        true
    }
}
