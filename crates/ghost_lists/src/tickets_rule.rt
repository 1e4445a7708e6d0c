//! The rule of the word under a list of tickets, and what each step on it says.
ghost use Rattle.std.specs.Prelude.{[], None};
ghost use Rattle.ghost_lists.specs.Passed.{IsKept, Issues as HasIssued, Redeems as HasRedeemed, passed_on, with_none, receiving};

use atomic_table::{Join, Play, Split, TableRule};
use std::collections::LinkedList;

/// What a ticket is for: a step and a number, and what was known when it was issued. Each ticket of a list has its key.
pub struct TicketEntry<T> {
    pub key: u64,
    pub step: u64,
    pub number: u64,
    pub known: T,
}

/// What a seat knows. Only contracts use it: no value of this type is made.
pub struct Known<T> {
    /// The entries of the tickets that are out.
    pub out: LinkedList<TicketEntry<T>>,
    /// The entry that it has.
    pub held: Option<TicketEntry<T>>,
    /// The key of the next ticket.
    pub next: u64,
}

/// The entry of each seat is among those that the first seat knows.
pub struct Rule;

impl<T> TableRule<T, Known<T>, ()> for Rule {
    ghost holds = { λ k s. IsKept s };

    ghost first = { λ k. record { out = []; held = None; next = 0 } };
}

/// The first seat writes an entry.
pub struct Issues;

impl<T> Play<T, Known<T>> for Issues {
    ghost then = { λ step me n next. HasIssued step.first step.second step.said me next };
}

/// The first seat looks its entry up, and strikes it out.
pub struct Redeems;

impl<T> Play<T, Known<T>> for Redeems {
    ghost then = { λ step me n next. HasRedeemed me next };
}

/// Splits off a seat that has the entry.
pub struct Gives;

impl<T> Split<Known<T>> for Gives {
    ghost left = { with_none };

    ghost right = { passed_on };
}

/// Takes the entry of another seat.
pub struct Receives;

impl<T> Join<Known<T>> for Receives {
    ghost both = { receiving };

    ghost spent = { record { out = []; held = None; next = 0 } };
}
