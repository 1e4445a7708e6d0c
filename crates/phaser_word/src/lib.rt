//! The state of one tier of a phaser, and the 64-bit number that it is packed into.
//!
//! Phases and the limit of parties are those of Java SE 21's `Phaser`. The packed form, the marks of a tier without
//! parties, and the number that an ended phaser shows are not part of Java's API.
#![tactic(auto)]

ghost use Rattle.std.specs.Prelude.{◌≡◌, ◌≤◌, IfSome};
ghost use Rattle.phaser_word.specs.Fields.{Fields, IsLegal, WordsAreSpelledOut};
ghost use Rattle.phaser_word.specs.Packed.{packed};
ghost use Rattle.phaser_word.specs.Phase.{next_phase_of, shown_of};

use std::marker::Model;

/// The greatest phase number. After it comes 0.
pub const LAST_PHASE: u32 = 2147483647;

/// The most parties that a tier, and so a phaser, can have.
pub const MOST_PARTIES: u32 = 65535;

/// The state of one tier.
///
/// Its type keeps that the phase is at most [`LAST_PHASE`], that there are at most [`MOST_PARTIES`] parties, and that no
/// more of them are unarrived than there are. Without parties, `unarrived` is a mark instead: 0 if the root is still to
/// advance, 1 if the tier is empty, and 2 if it is being opened.
#[derive(Clone, Copy, Debug, PartialEq, Eq)]
pub struct Word {
    /// The phase number.
    pub phase: u32,
    /// The number of registered parties.
    pub parties: u32,
    /// The number of parties that have not arrived in this phase, or a mark if there are no parties.
    pub unarrived: u32,
    /// True if the phaser has ended.
    pub ended: bool,
}

impl Model for Word {
    ghost Value = { Fields };

    ghost view = { λ w. record { phase = w.phase; parties = w.parties; unarrived = w.unarrived; ended = w.ended } };

    ghost invariant = { λ w. IsLegal (record { phase = w.phase; parties = w.parties; unarrived = w.unarrived; ended = w.ended }) };

    ghost inverse = { λ w. record { phase = w.phase; parties = w.parties; unarrived = w.unarrived; ended = w.ended } };
}

impl Word {
    /// Packs the word into a number: `unarrived` in bits 0 to 15, `parties` in 16 to 31, `phase` in 32 to 62 and `ended`
    /// in 63.
    pub fn pack(&self) -> u64
        ensures { result ≡ packed self.now }
    {
        let ended = if self.ended { 1u64 << 63 } else { 0 };
        u64::from(self.unarrived)
            + (u64::from(self.parties) << 16)
            + (u64::from(self.phase) << 32)
            + ended
    }

    /// Unpacks a number. Returns `None` if no word is packed into it.
    pub fn unpack(bits: u64) -> Option<Word>
        ensures found { IfSome result (λ w. IsLegal w × (packed w ≡ bits)) }
        ensures again { (w : Fields) → IsLegal w → packed w ≡ bits → result ≡ Some w }
    {
        let unarrived = (bits % 65536) as u32;
        let parties = (bits / 65536 % 65536) as u32;
        let phase = (bits / 4294967296 % 2147483648) as u32;
        let ended = bits / 9223372036854775808 != 0;
        let most = if parties == 0 { 2 } else { parties };
        if unarrived > most {
            return None;
        }
        Some(Word {
            phase,
            parties,
            unarrived,
            ended,
        })
    }

    /// Returns the phase as callers see it (Java's `getPhase`): if the phaser has ended, `phase` less 2147483648, a
    /// negative number, else `phase`.
    pub fn shown(&self) -> i32
        ensures { result ≡ shown_of self.now.phase self.now.ended }
    {
        let phase = self.phase as i32;
        if self.ended {
            phase - i32::MAX - 1
        } else {
            phase
        }
    }
}

/// Returns the phase after this one, which is 0 after [`LAST_PHASE`].
pub fn next_phase(phase: u32) -> u32
    requires { phase ≤ LAST_PHASE }
    ensures { result ≡ next_phase_of phase }
{
    if phase == LAST_PHASE { 0 } else { phase + 1 }
}

/// Which words there are, in numbers: of a tier without parties exactly the marks 0, 1 and 2. The function does nothing,
/// and its contract is a law.
pub fn words_are_spelled_out()
    ensures { WordsAreSpelledOut }
{}
