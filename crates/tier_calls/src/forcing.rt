//! Ending a tree by force.

ghost use Rattle.std.specs.Prelude.{◌≡◌, ℕ, None, Some};
ghost use Rattle.tier_calls.specs.Forces.{Forces, ForcedBy, ForcesOnce, HasEnded, IsBefore};

use crate::tiers::Tiers;
use crate::tokens::Door;
use tier_steps::kind::Kind;

/// The answer of a forced end: [`Tiers::force`](crate::tiers::Tiers::force), and `force` of `tier_table::Tree`.
#[derive(Clone, Copy)]
pub enum Forced {
    /// The tree has ended, by this call or before it, and shows this phase, a negative number. It stays ended.
    Ended(i32),
    /// The tries ran out, and the tree has not ended. No word has changed. Call `force` again.
    Busy,
}

impl Tiers {
    /// Makes one try to end the tree.
    fn force_once(&self, door: &mut Door) -> Forced
        requires own { door.old.tree ≡ self.now }
        requires root { IsBefore door.old }
        requires unseen { door.old.view.end_seen ≡ None }
        ensures answer { ForcesOnce door.old door.new result }
        ensures made { ForcedBy result door.old.steps door.new.steps }
    {
        let token = &mut door.token;
        self.attempt(token, Kind::Force);
        let word = token.word();
        if word.ended {
            return Forced::Ended(word.shown());
        }
        Forced::Busy
    }

    /// Makes at most `tries` tries to end the tree.
    fn force_on(&self, door: &mut Door, tries: u32) -> Forced
        requires own { door.old.tree ≡ self.now }
        requires root { IsBefore door.old }
        requires unseen { door.old.view.end_seen ≡ None }
        ensures tree { door.new.tree ≡ door.old.tree }
        ensures answer { Forces door.old tries door.new result }
        ensures made { ForcedBy result door.old.steps door.new.steps }
    {
        for _ in 0..tries {
            let forced = self.force_once(door);
            if let Forced::Ended(_) = forced {
                return forced;
            }
        }
        Forced::Busy
    }

    /// Ends the tree at once, as Java's `forceTermination`. The phase and the counts stay as they are, and a tree that
    /// has ended stays as it is.
    ///
    /// Makes at most `tries` tries. Two are enough if no other token takes a step meanwhile. `Busy` means that each
    /// lost against another token's step: call again.
    pub fn force(&self, door: &mut Door, tries: u32) -> Forced
        requires own { door.old.tree ≡ self.now }
        ensures tree { door.new.tree ≡ door.old.tree }
        ensures answer { Forces door.old tries door.new result }
        ensures made { ForcedBy result door.old.steps door.new.steps }
        ensures ended { (phase : ℕ) → door.old.view.end_seen ≡ Some phase → HasEnded result }
    {
        let token = &mut door.token;
        let before = token.word();
        if token.tier() == 0 && !before.ended {
            return self.force_on(door, tries);
        }
        self.look_at_root(token);
        let word = token.word();
        if word.ended {
            return Forced::Ended(word.shown());
        }
        self.force_on(door, tries)
    }
}
