//! A list of tickets, and a ticket.
ghost use Rattle.std.specs.Prelude.{◌≡◌, ◌∷◌, [], None, IfOk};

use crate::tickets_rule::{Gives, Issues, Known, Receives, Redeems, Rule};
use atomic_table::{Seat, Table};
use std::alloc::{AllocError, Global};
use std::marker::Model;

/// A list of the tickets that are out (own). In contracts it is the list of their entries, with a name that it shares with its
/// tickets.
#[derive(Drop)]
pub struct TicketList<T> {
    table: Table<T, Known<T>, (), Rule, Global>,
    seat: Seat<T, Known<T>>,
}

impl<T> Model for TicketList<T> {
    ghost use Rattle.ghost_lists.specs.Passed.{TicketsValue, IsList};

    ghost Value = { TicketsValue T };

    ghost view = { λ l. record { name = l.seat.table_id; out = l.seat.me.0.out } };

    ghost invariant = { λ l. IsList l.table.shared.table_id l.seat.table_id l.seat.id l.seat.me };
}

/// A ticket (own). It doesn't allocate, and any thread may hold it.
#[derive(Drop)]
pub struct Ticket<T> {
    seat: Seat<T, Known<T>>,
}

impl<T> Model for Ticket<T> {
    ghost use Rattle.std.specs.Prelude.{◌≡◌, []};
    ghost use Rattle.ghost_lists.specs.Passed.{TicketValue};

    ghost Value = { TicketValue T };

    ghost view = { λ p. record { name = p.seat.table_id; held = p.seat.me.0.held } };

    ghost invariant = { λ p. p.seat.me.1 ≡ [] };
}

impl<T> TicketList<T> {
    ghost use Rattle.std.specs.Prelude.{◌≡◌, ◌⊎◌, ℕ, ◌∷◌, [], Some, IfOk, IfSome};
    ghost use Rattle.ghost_lists.specs.Passed.{IsOut, without, ticket_entry};
    ghost use Rattle.ghost_lists.specs.declared.tickets_rule.TicketEntry.{TicketEntry};

    /// Creates a list without tickets.
    pub fn new(alloc: Global) -> Result<TicketList<T>, AllocError>
        ensures { IfOk result (λ l. l.out ≡ []) }
    {
        let (table, seat) = Table::of_words(alloc, &[0], &())?;
        Ok(TicketList { table, seat })
    }

    /// Gives a ticket out for this step and number. Its entry keeps what `known` is now.
    pub fn issue(&mut self, step: u32, number: usize, known: &T) -> Ticket<T>
        ensures listed { (key : ℕ) × ((self.new ≡ record self.old { out = ticket_entry key step number known.now ∷ self.old.out })
            × (result ≡ record { name = self.old.name; held = Some (ticket_entry key step number known.now) })) }
    {
        let TicketList { table, seat } = self;
        let table = &table.shared;
        table.compare_exchange_with::<Issues>(seat, 0, u64::from(step), number as u64, known);
        Ticket {
            seat: table.split_seat::<Gives>(seat),
        }
    }

    /// Takes a ticket back and removes its entry, which is proved to have been in the list.
    pub fn redeem(&mut self, pass: Ticket<T>)
        requires { pass.name ≡ self.old.name }
        ensures name { self.new.name ≡ self.old.name }
        ensures out { IfSome pass.held (λ t. IsOut t self.old.out × (self.new.out ≡ without t.key self.old.out)) }
        ensures others { IfSome pass.held (λ t. (u : TicketEntry T) → IsOut u self.old.out → (t ≡ u) ⊎ IsOut u self.new.out) }
    {
        let Ticket { seat: back } = pass;
        let TicketList { table, seat } = self;
        let table = &table.shared;
        table.join_seat::<Receives>(seat, back);
        table.load::<Redeems>(seat, 0);
    }
}

impl<T> Ticket<T> {
    /// Gives the ticket up. Its entry stays in the list.
    pub fn give_up(self) {}
}
