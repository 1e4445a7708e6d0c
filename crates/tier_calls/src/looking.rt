//! Looking at a tree without taking part.

ghost use Rattle.std.specs.Prelude.{◌≡◌, MatchResult};
ghost use Rattle.tier_calls.specs.Passes.{EndSeen, IsFresh};
ghost use Rattle.tier_calls.specs.Watches.{HasWatchedRoot};

use crate::tiers::Tiers;
use crate::tokens::Door;

impl Tiers {
    /// Loads the word of the root for a door. Returns the phase of the tree, or if it has ended the phase that it shows, a
    /// negative number, as an error. Changes no word.
    pub fn watch(&self, door: &mut Door) -> Result<u32, i32>
        requires own { door.old.tree ≡ self.now }
        ensures seen { HasWatchedRoot door.old door.new }
        ensures answer { MatchResult result (λ phase. (phase ≡ door.new.view.phase) × IsFresh door.new.view) (λ shown. EndSeen door.new.view shown) }
    {
        let token = &mut door.token;
        self.look_at_root(token);
        let word = token.word();
        if word.ended {
            return Err(word.shown());
        }
        Ok(token.view().phase)
    }
}
