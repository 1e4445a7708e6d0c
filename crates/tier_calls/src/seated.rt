//! A token: its seat at the table of words, and what it knows of the tree.

ghost use Rattle.std.specs.Prelude.{◌≡◌};

use crate::seen::Seen;
use atomic_table::Seat;
use phaser_word::Word;
use std::marker::Model;
use tier_rule::sight::Sights;
use tier_steps::kind::Kind;
use tier_steps::view::View;

/// A token of a tree, in a call or not.
pub struct Seated {
    pub(crate) seat: Seat<Kind, Sights>,
    pub(crate) view: View,
    pub(crate) tier: u16,
    pub(crate) word: Seen,
}

impl Model for Seated {
    ghost use Rattle.tier_calls.specs.Holding.{Holding, IsSeated, sight_of};

    ghost Value = { Holding };

    ghost view = { λ t. record { tree = record { id = t.seat.table_id; key = (sight_of t.seat.me).key }; view = t.view; tier = t.tier; word = t.word; tried = (sight_of t.seat.me).tried; steps = (sight_of t.seat.me).steps; opened = (sight_of t.seat.me).opened } };

    ghost invariant = { λ t. IsSeated t.seat.me t.view t.tier t.word };
}

impl Seated {
    ghost use Rattle.std.specs.Prelude.{◌≡◌};
    ghost use Rattle.tier_calls.specs.Holding.{shape_of};
    ghost use Rattle.tier_rule.specs.Tell.{Beside};

    /// Returns what the token knows and owes.
    pub fn view(&self) -> View
        ensures { result ≡ self.now.view }
    {
        self.view
    }

    /// Returns the tier of its last step.
    pub fn tier(&self) -> u16
        ensures { result ≡ self.now.tier }
    {
        self.tier
    }

    /// Returns the word of that tier, as its last step left it.
    pub fn word(&self) -> Word
        ensures word { result ≡ self.now.word }
        ensures beside { Beside (shape_of self.now) self.now.tier self.now.word self.now.view }
    {
        self.word.word()
    }
}

impl Seated {
    ghost use Rattle.std.specs.Prelude.{◌≡◌, [], ◌∷◌};
    ghost use Rattle.tier_calls.specs.Holding.{sight_held};

    /// Returns its seat.
    pub(crate) fn into_seat(self) -> Seat<Kind, Sights>
        ensures table { result.table_id ≡ self.tree.id }
        ensures seat { result.me ≡ (sight_held self ∷ [], []) }
    {
        let Self {
            seat,
            view: _,
            tier: _,
            word: _,
        } = self;
        seat
    }
}

impl Drop for Seated {
    fn drop(self) {
        let Self {
            seat: _,
            view: _,
            tier: _,
            word: _,
        } = self;
    }
}
