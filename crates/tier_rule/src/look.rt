//! The look that a load, or a lost try of a step, is.

ghost use Rattle.std.specs.Prelude.{◌≡◌};
ghost use Rattle.tier_rule.specs.Look.{looking, glance, refusing};

use phaser_word::Word;
use tier_core::turn::turns_away;
use tier_steps::kind::Kind;
use tier_steps::step::parties_added;

/// Returns a look at a tier that refuses nothing.
pub fn plain_look(tier: u16) -> Kind
    ensures { result ≡ glance tier }
{
    if tier == 0 { Kind::Look } else { Kind::Glance }
}

/// Returns a look at a tier at which a join is due: a refusal or a plain look, by the word that it finds.
fn look_to_join(tier: u16, joined: u16, claimed: u16, size: u32, word: Word) -> Kind
    ensures { result ≡ refusing tier joined claimed size word }
{
    if !word.ended && turns_away(parties_added(claimed, size), word) {
        Kind::Refuse {
            tier: joined,
            claimed,
            size,
        }
    } else {
        plain_look(tier)
    }
}

/// Returns the look that a lost try of a step of this kind is, or a load in place of the step.
pub fn look_for(kind: Kind, tier: u16, word: Word) -> Kind
    ensures { result ≡ looking kind tier word }
{
    match kind {
        Kind::Join {
            tier: joined,
            claimed,
            size,
        }
        | Kind::Claim {
            tier: joined,
            claimed,
            size,
        } => look_to_join(tier, joined, claimed, size, word),
        _ => plain_look(tier),
    }
}
