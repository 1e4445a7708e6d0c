//! Logs, their writers, and snapshots.
ghost use Rattle.std.specs.Prelude.{◌≡◌, ◌∷◌, [], IfOk};

use crate::log_rule::{Compares, Copies, Hears, Known, Notes, Rule, Takes};
use atomic_table::{Seat, Table};
use std::alloc::{AllocError, Global};
use std::marker::Model;

/// A log: what ties its writer to its snapshots (own). Writer and snapshots are of the log whose name they have.
#[derive(Drop)]
pub struct Log<X> {
    table: Table<Option<X>, Known<X>, (), Rule, Global>,
}

impl<X> Model for Log<X> {
    ghost use Rattle.atomic_table.specs.Seated.{TableId};
    ghost use Rattle.ghost_lists.specs.Agreed.{IsLog};

    ghost Value = { TableId };

    ghost view = { λ l. l.table.shared.table_id };

    ghost invariant = { λ l. IsLog l.table.shared.table_id };
}

/// The right to write a new log (own).
#[derive(Drop)]
pub struct Start<X> {
    seat: Seat<Option<X>, Known<X>>,
}

impl<X> Model for Start<X> {
    ghost use Rattle.atomic_table.specs.Seated.{TableId};
    ghost use Rattle.ghost_lists.specs.Agreed.{IsStart};

    ghost Value = { TableId };

    ghost view = { λ s. s.seat.table_id };

    ghost invariant = { λ s. IsStart s.seat.id s.seat.me };
}

/// The writer of a log (own).
#[derive(Drop)]
pub struct Writer<X> {
    seat: Seat<Option<X>, Known<X>>,
}

impl<X> Model for Writer<X> {
    ghost use Rattle.ghost_lists.specs.Agreed.{LogValue, IsWriter};

    ghost Value = { LogValue X };

    ghost view = { λ w. record { name = w.seat.table_id; log = w.seat.me.0.log } };

    ghost invariant = { λ w. IsWriter w.seat.id w.seat.me };
}

/// What a log was at a moment (own). It takes no memory, and any thread may hold it.
#[derive(Drop)]
pub struct Snapshot<X> {
    seat: Seat<Option<X>, Known<X>>,
}

impl<X> Model for Snapshot<X> {
    ghost use Rattle.std.specs.Prelude.{◌≡◌, []};
    ghost use Rattle.ghost_lists.specs.Agreed.{LogValue};

    ghost Value = { LogValue X };

    ghost view = { λ w. record { name = w.seat.table_id; log = w.seat.me.0.log } };

    ghost invariant = { λ w. w.seat.me.1 ≡ [] };
}

impl<X: Drop> Log<X> {
    ghost use Rattle.std.specs.Prelude.{◌≡◌, IfOk};

    /// Creates a log without entries.
    pub fn new(alloc: Global) -> Result<(Log<X>, Start<X>), AllocError>
        ensures { IfOk result (λ l. l.1 ≡ l.0) }
    {
        let (table, seat) = Table::vacant(alloc, &[0], 1, &())?;
        Ok((Log { table }, Start { seat }))
    }

    /// Begins to write.
    pub fn write(&self, start: Start<X>) -> Writer<X>
        requires { start ≡ self.now }
        ensures { result ≡ record { name = self.now; log = [] } }
    {
        let Start { mut seat } = start;
        self.table.shared.load::<Takes>(&mut seat, 0);
        drop(self.table.shared.exchange(&mut seat, 0, None));
        Writer { seat }
    }
}

impl<X: Drop> Start<X> {
    /// Gives up the right.
    pub fn give_up(self) {}
}

impl<X: Drop> Snapshot<X> {
    /// Gives up the snapshot.
    pub fn give_up(self) {}
}

impl<X: Drop> Writer<X> {
    /// Gives up writing.
    pub fn give_up(self) {}
}

impl<X: Drop> Writer<X> {
    ghost use Rattle.std.specs.Prelude.{◌≡◌, ◌∷◌};
    ghost use Rattle.ghost_lists.specs.Agreed.{WasBefore};

    /// Adds an entry that says what this value is, and returns the value.
    pub fn note(&mut self, log: &Log<X>, value: X) -> X
        requires { self.old.name ≡ log.now }
        ensures same { result ≡ value }
        ensures noted { self.new ≡ record self.old { log = value ∷ self.old.log } }
    {
        drop(log.table.shared.exchange(&mut self.seat, 0, Some(value)));
        log.table.shared.load::<Notes>(&mut self.seat, 0);
        match log.table.shared.exchange(&mut self.seat, 0, None) {
            Some(value) => value,
            None => unreachable!(),
        }
    }

    /// Returns a snapshot of what the log is now.
    pub fn snapshot(&mut self, log: &Log<X>) -> Snapshot<X>
        requires { self.old.name ≡ log.now }
        ensures same { self.new ≡ self.old }
        ensures snapshot { result ≡ self.old }
    {
        let seat = log.table.shared.split_seat::<Copies>(&mut self.seat);
        Snapshot { seat }
    }

    /// Proves that a snapshot is what the log was before the entries that it has more.
    pub fn compare(&mut self, log: &Log<X>, snapshot: Snapshot<X>)
        requires writer { self.old.name ≡ log.now }
        requires snapshot { snapshot.name ≡ log.now }
        ensures same { self.new ≡ self.old }
        ensures before { WasBefore snapshot.log self.old.log }
    {
        let Snapshot { seat } = snapshot;
        log.table.shared.join_seat::<Hears>(&mut self.seat, seat);
        log.table.shared.load::<Compares>(&mut self.seat, 0);
    }
}
