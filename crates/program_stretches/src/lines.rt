//! What supersteps printed and recorded.
use phase_records::{PhaseRecord, Print};
use std::marker::Model;

/// What consecutive supersteps printed and recorded, in order (own).
#[derive(Drop)]
pub struct Lines {
    /// The first of the supersteps, from 0.
    pub first: u32,
    /// The superstep after the last of them.
    pub next: u32,
    /// What was printed, by superstep, then by path, then in program order.
    pub prints: Vec<Print>,
    /// A record for each superstep, in order.
    pub records: Vec<PhaseRecord>,
}

impl Model for Lines {
    ghost use Rattle.program_stretches.specs.LinesValue.{LinesValue};

    ghost Value = { LinesValue };

    ghost view = { λ l. record { first = l.first; next = l.next; prints = l.prints.items; records = l.records.items } };
}
