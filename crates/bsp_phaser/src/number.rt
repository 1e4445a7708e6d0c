//! Numbers that hold the word of a single phaser.
ghost use Rattle.std.specs.Prelude.{◌≡◌, ◌≢◌, pos, IfSome, MatchResult};
ghost use Rattle.phaser_word.specs.Fields.{Fields};
ghost use Rattle.bsp_phaser.specs.Numbers.{IsWordOf};
ghost use Rattle.bsp_phaser.specs.Steps.{IsNew, status_of_new};

use advance_rule::{CountPlan, StoredCount};
use phaser_one::PhaserOne;
use phaser_word::{LAST_PHASE, Word};

/// The status of a number that holds no word of a single phaser.
pub(crate) const NO_WORD: i32 = 1;

/// The status of a new phaser with fewer than 0 parties, or more than 65535.
const TOO_MANY: i32 = 3;

// Unpacks the word of a single phaser from a number, if it holds one.
pub(crate) fn word_of(number: u64) -> Option<Word>
    ensures found { IfSome result (λ w. IsWordOf w number) }
    ensures again { (w : Fields) → IsWordOf w number → result ≡ Some w }
{
    match Word::unpack(number) {
        Some(word) if word.unarrived <= word.parties => Some(word),
        _ => None,
    }
}

// Returns the number of a new phaser, or the status if there is none.
pub(crate) fn new_number(parties: i64, phase: u32) -> Result<u64, i32>
    ensures { MatchResult result (λ number. (status_of_new parties phase ≡ pos 0) × IsNew parties phase number) (λ status. (status ≡ status_of_new parties phase) × (status ≢ pos 0)) }
{
    if phase > LAST_PHASE {
        return Err(NO_WORD);
    }
    let plan = CountPlan { least: 0, at: None };
    let rule = StoredCount::new(|phase: u32, count: u32| plan.ends(phase, count), plan);
    match PhaserOne::new(parties, phase, rule) {
        Ok(phaser) => Ok(phaser.word().pack()),
        Err(_) => Err(TOO_MANY),
    }
}
