//! Reading a number without changing it.
ghost use Rattle.std.specs.Prelude.{◌≡◌, ◌≤◌, pos};
ghost use Rattle.flat_phaser.specs.Flat.{Flat};
ghost use Rattle.flat_phaser.specs.Alike.{IsAlike};
ghost use Rattle.phaser_one.specs.Seen.{flat_of};
ghost use Rattle.bsp_phaser.specs.Readings.{IsReading, reported_by};

use crate::number::{NO_WORD, word_of};
use phaser_word::Word;

/// What to read of a phaser.
#[derive(Clone, Copy)]
pub(crate) enum Reading {
    /// The phase shown.
    Phase,
    /// The number of registered parties.
    Parties,
    /// The number of parties that have arrived in this phase.
    Arrived,
    /// The number of parties that have not arrived in this phase.
    Unarrived,
    /// 1 if the phaser has ended, else 0.
    Ended,
}

// Reads a word.
fn reported(word: Word, reading: Reading) -> i32
    requires counted { word.unarrived ≤ word.parties }
    ensures { (f : Flat) → IsAlike f (flat_of word) → result ≡ reported_by reading f }
{
    match reading {
        Reading::Phase => word.shown(),
        Reading::Parties => word.parties as i32,
        Reading::Arrived => (word.parties - word.unarrived) as i32,
        Reading::Unarrived => word.unarrived as i32,
        Reading::Ended => i32::from(word.ended),
    }
}

// Stores what is read of a number in `answer`, or 0 if it holds no word, and returns the status.
pub(crate) fn read(number: u64, reading: Reading, answer: &mut i32) -> i32
    ensures { IsReading (reported_by reading) number result answer.new }
{
    match word_of(number) {
        Some(word) => {
            *answer = reported(word, reading);
            0
        }
        None => {
            *answer = 0;
            NO_WORD
        }
    }
}
