//! Words as the packed numbers that the table holds.

ghost use Rattle.std.specs.Prelude.{◌≡◌};
ghost use Rattle.phaser_word.specs.Fields.{Fields, IsLegal};
ghost use Rattle.phaser_word.specs.Packed.{packed};

use phaser_word::Word;
use std::marker::Model;

/// A word as its packed number. Each reader unpacks only what it needs.
#[derive(Clone, Copy)]
pub(crate) struct Seen {
    number: u64,
}

impl Model for Seen {
    ghost use Rattle.std.specs.Prelude.{◌≡◌};
    ghost use Rattle.phaser_word.specs.Fields.{Fields, IsLegal};
    ghost use Rattle.phaser_word.specs.Packed.{packed};
    ghost use Rattle.tier_calls.specs.WordOfNumber.{word_of_number};

    ghost Value = { Fields };

    ghost view = { λ s. word_of_number s.number };

    ghost invariant = { λ s. IsLegal (word_of_number s.number) × (packed (word_of_number s.number) ≡ s.number) };

    ghost inverse = { λ w. record { number = packed w } };
}

impl Seen {
    /// Returns the word that is packed into this number.
    #[inline(always)]
    pub(crate) fn at(number: u64) -> Seen
        requires { (w : Fields) × IsLegal w × (packed w ≡ number) }
        ensures { (w : Fields) → IsLegal w → packed w ≡ number → result ≡ w }
    {
        Seen { number }
    }

    /// Packs a word.
    #[inline(always)]
    pub(crate) fn of(word: Word) -> Seen
        ensures { result ≡ word }
    {
        let number = word.pack();
        Seen::at(number)
    }

    /// Returns the packed number.
    #[inline(always)]
    pub(crate) fn number(&self) -> u64
        ensures { result ≡ packed self.now }
    {
        self.number
    }

    /// Unpacks the word.
    #[inline(always)]
    pub(crate) fn word(&self) -> Word
        ensures { result ≡ self.now }
    {
        Word {
            phase: (self.number / 4294967296 % 2147483648) as u32,
            parties: (self.number / 65536 % 65536) as u32,
            unarrived: (self.number % 65536) as u32,
            ended: self.number / 9223372036854775808 != 0,
        }
    }
}
