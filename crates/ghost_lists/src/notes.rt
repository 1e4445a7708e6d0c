//! A note that only proofs read.
ghost use Rattle.std.specs.Prelude.{◌≡◌, List, [], ◌∷◌, ◌++◌};
ghost use Rattle.std.specs.Borrow.{ftrue};

use std::marker::{Model, PhantomData};

/// What pairs of values were, the first pair first (own). A clause reads them as `items`.
#[derive(Drop)]
pub struct Notes<A, B> {
    of: PhantomData<(A, B)>,
    pub ghost items: { List (A × B) },
}

impl<A, B> Model for Notes<A, B> {
    ghost also_owns = { λ _. ftrue };
}

// It owns nothing.
unsafe impl<A: Send, B: Send> Send for Notes<A, B> {}

impl<A, B> Notes<A, B> {
    /// Creates empty notes.
    pub fn new() -> Notes<A, B>
        ensures { result.items ≡ [] }
    {
        Notes { of: PhantomData }
    }

    /// Returns what is noted, and after it what these two are.
    pub fn and(&self, first: &A, second: &B) -> Notes<A, B>
        ensures { result.items ≡ self.now.items ++ (first.now, second.now) ∷ [] }
    {
        Notes { of: PhantomData }
    }
}
