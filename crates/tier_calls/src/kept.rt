//! An exchange by tokens that have kept the root's word.

ghost use Rattle.std.specs.Prelude.{◌≡◌, ◌<◌, [], List, MatchOption, length};
ghost use Rattle.tier_rule.specs.declared.sight.Sight.{Sight};
ghost use Rattle.tier_calls.specs.Groups.{MayGo, HaveGone, HaveLost};
ghost use Rattle.tier_calls.specs.Kept.{Finds, GoesFrom, as_seat};

use crate::groups::Group;
use crate::seen::Seen;
use crate::tiers::Tiers;
use atomic_table::Seat;
use phaser_word::Word;
use std::marker::Brand;
use tier_rule::rule::Gone;
use tier_rule::sight::Sights;
use tier_steps::kind::Kind;

/// What some tokens know before the steps of an exchange: what they know now, or that and a look by this very exchange, which
/// finds the word that it names. Each call picks one.
pub trait Begun {
    /// What they know then.
    ghost before: { List Sight };
}

impl Begun for Brand {
    ghost before = { [] };
}

impl Tiers {
    /// Returns the word from which a try begins: the one that the group has kept, or the one that a load finds.
    #[inline(always)]
    pub(crate) fn find(&self, group: &mut Group, tier: u16, kept: &Option<Seen>) -> Word
        requires own { group.old.tree ≡ self.now }
        requires tier { tier < length self.now.key.shape }
        ensures { Finds kept.now tier result group.old group.new }
    {
        match kept {
            Some(seen) => seen.word(),
            None => self.look_all(group, tier),
        }
    }

    /// Makes one try by which all tokens of a seat take their steps at a tier, as `go_together` does. `B` names what they know
    /// before these steps. Returns the other word if the try is lost.
    pub(crate) fn go_from<J: Gone, B: Begun>(
        &self,
        seat: &mut Seat<Kind, Sights>,
        tier: u16,
        word: Word,
        next: Word,
    ) -> Option<Word>
        requires own { seat.old.table_id ≡ self.now.id }
        requires tier { tier < length self.now.key.shape }
        requires ends { (J.key ≡ self.now.key) × (J.from ≡ word) × (J.to ≡ next) }
        requires from { GoesFrom self.now.key tier word seat.old.me B.before }
        requires may { MayGo self.now.key tier word next (as_seat B.before) J.sights }
        ensures table { seat.new.table_id ≡ seat.old.table_id }
        ensures gone { MatchOption result (HaveGone self.now.key tier word next (as_seat B.before) seat.new.me J.sights) (λ z. HaveLost self.now.key tier word z seat.old.me seat.new.me) }
    {
        self.go_together::<J>(seat, tier, word, next)
    }
}
