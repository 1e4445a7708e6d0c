//! Reading the words of all tiers.

ghost use Rattle.std.specs.Prelude.{◌≡◌, ◌≤◌, ◌<◌, [], length, vec_capacity};
ghost use Rattle.tier_calls.specs.Holding.{Looked};
ghost use Rattle.tier_steps.specs.declared.kind.Kind.TheVariants.{Look};
ghost use Rattle.tier_calls.specs.Reads.{ReadsWords};

use crate::tiers::Tiers;
use crate::tokens::Door;
use phaser_word::Word;
use tier_steps::kind::Kind;

impl Tiers {
    /// Loads the word of a tier for a door.
    fn read_word(&self, door: &mut Door, tier: u16) -> Word
        requires own { door.old.tree ≡ self.now }
        requires tier { tier < length self.now.key.shape }
        ensures looked { Looked Look tier door.old door.new }
        ensures word { result ≡ door.new.word }
    {
        self.look(&mut door.token, tier, Kind::Look);
        door.token.word()
    }

    /// Loads the word of each tier once, by tier number, and appends them to `words`, which must be empty and have room for
    /// them. Other threads may change words meanwhile, so the words are not those of one moment. Changes no word.
    pub fn read_words(&self, door: &mut Door, mut words: Vec<Word>) -> Vec<Word>
        requires own { door.old.tree ≡ self.now }
        requires empty { words.items ≡ [] }
        requires capacity { length self.now.key.shape ≤ vec_capacity words }
        ensures { ReadsWords door.old result.items door.new }
    {
        for tier in 0..self.shape().count() as u16 {
            let word = self.read_word(door, tier);
            words.push_reserved(word);
        }
        words
    }
}
