//! The rule of the words under a log, and what each step on them says.
ghost use Rattle.std.specs.Prelude.{[], true, false};
ghost use Rattle.ghost_lists.specs.Agreed.{IsAgreed, Takes as HasTaken, Notes as HasNoted, Agrees as HasAgreed, copy_of, hearing};

use atomic_table::{Join, Play, Split, TableRule};
use std::collections::LinkedList;

/// What a seat knows of a log. Only contracts use it: no value of this type is made.
pub struct Known<X> {
    /// The log, the last entry first.
    pub log: LinkedList<X>,
    /// A log that it has heard of from another seat.
    pub heard: LinkedList<X>,
    /// Whether the place for values is taken.
    pub taken: bool,
}

/// What each seat knows is an end of what the first seat knows.
pub struct Rule;

impl<X> TableRule<Option<X>, Known<X>, ()> for Rule {
    ghost holds = { λ k s. IsAgreed s };

    ghost first = { λ k. record { log = []; heard = []; taken = false } };
}

/// The first seat takes the place for values.
pub struct Takes;

impl<X> Play<Option<X>, Known<X>> for Takes {
    ghost then = { λ step me n next. HasTaken me next };
}

/// The first seat adds the value in its place to the log.
pub struct Notes;

impl<X> Play<Option<X>, Known<X>> for Notes {
    ghost then = { λ step me n next. HasNoted me next };
}

/// The first seat compares what it has heard of.
pub struct Compares;

impl<X> Play<Option<X>, Known<X>> for Compares {
    ghost then = { λ step me n next. HasAgreed me next };
}

/// Splits off a seat that knows the log as it is.
pub struct Copies;

impl<X> Split<Known<X>> for Copies {
    ghost left = { λ v. v };

    ghost right = { copy_of };
}

/// Takes in what another seat knows.
pub struct Hears;

impl<X> Join<Known<X>> for Hears {
    ghost both = { hearing };

    ghost spent = { record { log = []; heard = []; taken = true } };
}
