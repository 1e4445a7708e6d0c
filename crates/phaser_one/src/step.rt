//! The effect of each call on the word of a single phaser.
ghost use Rattle.std.specs.Prelude.{◌≡◌, ◌≢◌, ◌+◌, ◌≤◌, ◌<◌, ◌^◌, pos, true, IfOk, MatchResult};
ghost use Rattle.advance_rule.specs.Plan.{count_ends};
ghost use Rattle.advance_rule.specs.Stored.{Answers};
ghost use Rattle.phaser_word.specs.Phase.{shown_of};
ghost use Rattle.flat_phaser.specs.Flat.{Flat, registered, unarrived};
ghost use Rattle.flat_phaser.specs.Alike.{IsAlike};
ghost use Rattle.phaser_one.specs.Arrivals.{call_of};
ghost use Rattle.phaser_one.specs.Calls as spec;
ghost use Rattle.phaser_one.specs.Seen.{flat_of, Follows, IsSettled};

use crate::call::OneFault;
use advance_rule::StoredCount;
use phaser_word::{LAST_PHASE, MOST_PARTIES, Word, next_phase};

/// Whether a party that arrives stays registered.
#[derive(Clone, Copy)]
pub(crate) enum Arrival {
    /// It stays for the next phase.
    Stays,
    /// It deregisters.
    Leaves,
}

/// The word after a call, and the phase that the call returns, as it is shown.
pub(crate) struct Stepped {
    pub word: Word,
    pub shown: i32,
}

// Returns the word with these counts. If nobody is unarrived, advances it.
fn settle<F: Fn(u32, u32) -> bool>(
    rule: &StoredCount<F>,
    phase: u32,
    parties: u32,
    unarrived: u32,
) -> Word
    requires counted { unarrived ≤ parties }
    requires parties { parties ≤ MOST_PARTIES }
    requires phase { phase ≤ LAST_PHASE }
    requires rule { Answers (F.pre rule.now.closure) (F.post rule.now.closure) (count_ends rule.now.plan) }
    ensures settled { IsSettled rule.now.plan phase parties unarrived result }
    ensures called { result.phase ≢ phase → F.post rule.now.closure phase parties result.ended }
{
    if unarrived == 0 {
        return Word {
            phase: next_phase(phase),
            parties,
            unarrived: parties,
            ended: rule.call(phase, parties),
        };
    }
    Word {
        phase,
        parties,
        unarrived,
        ended: false,
    }
}

// Registers `count` parties.
pub(crate) fn joined<F: Fn(u32, u32) -> bool>(
    rule: &StoredCount<F>,
    word: Word,
    count: u64,
) -> Result<Stepped, OneFault>
    requires counted { word.unarrived ≤ word.parties }
    requires count { count < 2 ^ 63 }
    ensures flat { MatchResult result
        (λ s. Follows rule.now.plan (spec.Bulk (pos count)) word s.word (spec.Number s.shown))
        (λ e. Follows rule.now.plan (spec.Bulk (pos count)) word word (spec.Refused e)) }
    ensures counted { IfOk result (λ s. s.word.unarrived ≤ s.word.parties) }
{
    let shown = word.shown();
    if word.ended {
        return Ok(Stepped { word, shown });
    }
    let parties = u64::from(word.parties) + count;
    if parties > u64::from(MOST_PARTIES) {
        return Err(OneFault::Full);
    }
    let word = Word {
        phase: word.phase,
        parties: parties as u32,
        unarrived: word.unarrived + count as u32,
        ended: false,
    };
    Ok(Stepped { word, shown })
}

impl Arrival {
    ghost use Rattle.phaser_one.specs.Arrivals.{left_by};

    /// Returns how many of `parties` are registered after the arrival.
    fn left_of(self, parties: u32) -> u32
        requires { 0 < parties }
        ensures { result ≡ left_by self parties }
    {
        match self {
            Arrival::Stays => parties,
            Arrival::Leaves => parties - 1,
        }
    }
}

/// Arrives with one party. If it is the last, advances the phaser.
pub(crate) fn arrived<F: Fn(u32, u32) -> bool>(
    rule: &StoredCount<F>,
    word: Word,
    arrival: Arrival,
) -> Result<Stepped, OneFault>
    requires counted { word.unarrived ≤ word.parties }
    requires rule { Answers (F.pre rule.now.closure) (F.post rule.now.closure) (count_ends rule.now.plan) }
    ensures flat { MatchResult result
        (λ s. Follows rule.now.plan (call_of arrival) word s.word (spec.Number s.shown))
        (λ e. Follows rule.now.plan (call_of arrival) word word (spec.Refused e)) }
    ensures called { IfOk result (λ s. s.word.phase ≢ word.phase → F.post rule.now.closure word.phase s.word.parties s.word.ended) }
    ensures counted { IfOk result (λ s. s.word.unarrived ≤ s.word.parties) }
{
    let shown = word.shown();
    let Word {
        phase,
        parties,
        unarrived,
        ended,
    } = word;
    if ended {
        return Ok(Stepped { word, shown });
    }
    if unarrived == 0 {
        return Err(OneFault::NobodyUnarrived);
    }
    let word = settle(rule, phase, arrival.left_of(parties), unarrived - 1);
    Ok(Stepped { word, shown })
}

// Ends the phaser.
pub(crate) fn forced<F: Fn(u32, u32) -> bool>(rule: &StoredCount<F>, word: Word) -> Word
    requires counted { word.unarrived ≤ word.parties }
    ensures word { result ≡ record word { ended = true } }
    ensures flat { Follows rule.now.plan spec.Force word result (spec.Number (shown_of word.phase true)) }
{
    Word {
        ended: true,
        ..word
    }
}

// Returns the number of registered parties.
pub(crate) fn members(word: Word) -> u32
    requires counted { word.unarrived ≤ word.parties }
    ensures { (f : Flat) → IsAlike f (flat_of word) → result ≡ registered f }
{
    word.parties
}

// Returns the number of parties that have arrived.
pub(crate) fn present(word: Word) -> u32
    requires counted { word.unarrived ≤ word.parties }
    ensures { (f : Flat) → IsAlike f (flat_of word) → result + unarrived f ≡ registered f }
{
    word.parties - word.unarrived
}

// Returns the number of parties that have not arrived.
pub(crate) fn absent(word: Word) -> u32
    requires counted { word.unarrived ≤ word.parties }
    ensures { (f : Flat) → IsAlike f (flat_of word) → result ≡ unarrived f }
{
    word.unarrived
}
