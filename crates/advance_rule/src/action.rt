//! The action of a barrier: a closure beside the generation in which it fails.
ghost use Rattle.std.specs.Prelude.{◌≡◌, ℕ, Option};
ghost use Rattle.advance_rule.specs.Action.{fails_at, AnswersAction};
ghost use Rattle.advance_rule.specs.Stored.{Stored};

use std::marker::Model;

/// A closure of a generation that returns true if it fails, beside the generation in which it does (Java SE 21's
/// `CyclicBarrier` takes a `Runnable`, which fails by throwing).
///
/// The type can't keep that the closure fails in that generation alone. So each call that may call the closure requires it
/// again.
#[derive(Drop)]
pub struct StoredAction<F: Fn(u64) -> bool> {
    closure: F,
    fails: Option<u64>,
}

impl<F: Fn(u64) -> bool> Model for StoredAction<F> {
    ghost Value = { Stored F (Option ℕ) };

    ghost view = { λ s. record { closure = s.closure; plan = s.fails } };
}

impl<F: Fn(u64) -> bool> StoredAction<F> {
    /// Stores a closure that may be called in every generation up to 18446744073709551615, and returns true in generation
    /// `fails`, if there is one, and in no other.
    pub fn new(closure: F, fails: Option<u64>) -> Self
        requires { AnswersAction (F.pre closure) (F.post closure) fails }
        ensures { result ≡ record { closure = closure; plan = fails } }
    {
        StoredAction { closure, fails }
    }

    /// Returns the generation in which the action fails.
    pub fn fails(&self) -> Option<u64>
        ensures { result ≡ self.now.plan }
    {
        self.fails
    }

    /// Runs the action in this generation. Returns true if it failed.
    pub fn call(&self, generation: u64) -> bool
        requires rule { AnswersAction (F.pre self.now.closure) (F.post self.now.closure) self.now.plan }
        ensures called { F.post self.now.closure generation result }
        ensures answer { result ≡ fails_at self.now.plan generation }
    {
        (self.closure)(generation)
    }
}
