//! Registrations at a crew's tier.

ghost use Rattle.std.specs.Prelude.{◌≡◌, ◌<◌, ◌≤◌, ℕ, Some, true, length};
ghost use Rattle.tier_rule.specs.Tell.{Beside};
ghost use Rattle.tier_core.specs.Turn.{lags};
ghost use Rattle.tier_calls.specs.Holding.{IsCrew, shape_of};
ghost use Rattle.tier_calls.specs.Passes.{IsFresh};
ghost use Rattle.tier_calls.specs.JoinsHere.{JoinsHere, JoinsOnce, KeepsCrew, Meets, Waits};
ghost use Rattle.tier_calls.specs.Made.{HasLooked};
ghost use Rattle.tier_calls.specs.Registers.{EnteredBy, HasEnded, token_of};

use crate::joining::Registered;
use crate::seated::Seated;
use crate::tiers::Tiers;
use crate::tokens::{Crew, Door};
use phaser_word::{MOST_PARTIES, Word};
use tier_core::turn::{is_behind, turns_away};
use tier_rule::look::plain_look;
use tier_steps::kind::Kind;

/// The outcome of the door's part of a try.
enum Met {
    /// The registration has this answer.
    Answer(Registered),
    /// The word changed between the crew's look and the door's.
    Late(Door),
}

/// Returns true if the two words are equal.
fn is_same(one: Word, other: Word) -> bool
    ensures { result ≡ true → one ≡ other }
{
    one == other
}

impl Tiers {
    /// Looks at the crew's tier. Returns true if that tier lags.
    fn look_here(&self, token: &mut Seated) -> bool
        requires own { token.old.tree ≡ self.now }
        requires crew { IsCrew token.old }
        requires some { token.old.view.arrived < token.old.view.size }
        ensures keeps { KeepsCrew 0 token.old token.new }
        ensures lags { result ≡ lags token.new.word token.new.view }
        ensures beside { Beside (shape_of token.new) token.new.tier token.new.word token.new.view }
    {
        // Only for the prover: brings in what the token knows of its tier.
        let _ = token.word();
        let tier = token.view().tier;
        self.look(token, tier, Kind::Look);
        let view = token.view();
        is_behind(token.word(), &view)
    }

    /// Makes one try to bring the crew's tier into its phase.
    fn refresh_here(&self, token: &mut Seated)
        requires own { token.old.tree ≡ self.now }
        requires crew { IsCrew token.old }
        requires some { token.old.view.arrived < token.old.view.size }
        requires tier { token.old.tier ≡ token.old.view.tier }
        requires lags { lags token.old.word token.old.view ≡ true }
        ensures { KeepsCrew 1 token.old token.new }
    {
        self.attempt(token, Kind::Refresh);
    }

    /// Makes one try at the crew's tier that changes nothing, so that the round counts as a try.
    fn stay_here(&self, token: &mut Seated)
        requires own { token.old.tree ≡ self.now }
        requires crew { IsCrew token.old }
        requires some { token.old.view.arrived < token.old.view.size }
        requires tier { token.old.tier ≡ token.old.view.tier }
        ensures { KeepsCrew 1 token.old token.new }
    {
        let kind = plain_look(token.tier());
        self.attempt(token, kind);
    }

    /// Makes the door's part of a try. A crew with an unarrived member is at the tier, and has just seen the word
    /// `seen`.
    fn meet(&self, door: Door, tier: u16, size: u32, seen: Word) -> Met
        requires own { door.tree ≡ self.now }
        requires tier { tier < length self.now.key.shape }
        requires size { (0 < size) × (size ≤ MOST_PARTIES) }
        requires fresh { IsFresh door.view }
        requires waits { Waits seen }
        ensures { Meets door tier size result }
    {
        let Door { mut token } = door;
        let join = Kind::Join {
            tier,
            claimed: 0,
            size,
        };
        self.look(&mut token, tier, join);
        let word = token.word();
        if word.ended {
            return Met::Answer(Registered::Ended(Door { token }, word.shown()));
        }
        if !is_same(word, seen) {
            return Met::Late(Door { token });
        }
        if turns_away(size, word) {
            return Met::Answer(Registered::Full(Door { token }, word.parties));
        }
        if self.attempt(&mut token, join) {
            return Met::Answer(Registered::Joined(Crew { token }, word.phase));
        }
        let found = token.word();
        if found.ended {
            return Met::Answer(Registered::Ended(Door { token }, found.shown()));
        }
        Met::Answer(Registered::Busy(Door { token }))
    }

    /// Makes one try of a registration at the crew's tier.
    fn join_once(&self, crew: &mut Crew, door: Door, size: u32) -> Registered
        requires own { (crew.old.tree ≡ self.now) × (door.tree ≡ self.now) }
        requires some { crew.old.view.arrived < crew.old.view.size }
        requires size { (0 < size) × (size ≤ MOST_PARTIES) }
        requires fresh { IsFresh door.view }
        ensures { JoinsOnce crew.old crew.new door size result }
    {
        let member = &mut crew.token;
        if self.look_here(member) {
            self.refresh_here(member);
            return Registered::Busy(door);
        }
        let seen = member.word();
        let tier = member.tier();
        match self.meet(door, tier, size, seen) {
            Met::Answer(answer) => answer,
            Met::Late(door) => {
                self.stay_here(member);
                Registered::Busy(door)
            }
        }
    }

    /// Makes at most `tries` tries of a registration at the crew's tier.
    fn keep_joining(&self, crew: &mut Crew, mut door: Door, size: u32, tries: u32) -> Registered
        requires own { (crew.old.tree ≡ self.now) × (door.tree ≡ self.now) }
        requires some { crew.old.view.arrived < crew.old.view.size }
        requires size { (0 < size) × (size ≤ MOST_PARTIES) }
        requires fresh { IsFresh door.view }
        ensures { JoinsHere crew.old crew.new door size tries result }
    {
        for _ in 0..tries {
            match self.join_once(crew, door, size) {
                Registered::Busy(next) => door = next,
                answer => return answer,
            }
        }
        Registered::Busy(door)
    }

    /// Registers `size` new members at the crew's tier. The crew must have an unarrived member, so its tier is not
    /// empty and can't pass to the next phase meanwhile.
    ///
    /// Makes at most `tries` tries, of both tokens together. The answers are those of [`Registered`], but never `Held`
    /// or `Owing`.
    pub fn join_beside(&self, crew: &mut Crew, door: Door, size: u32, tries: u32) -> Registered
        requires own { (crew.old.tree ≡ self.now) × (door.tree ≡ self.now) }
        requires some { crew.old.view.arrived < crew.old.view.size }
        requires size { (0 < size) × (size ≤ MOST_PARTIES) }
        ensures answer { JoinsHere crew.old crew.new door size tries result }
        ensures made { EnteredBy result door.steps (token_of result).steps × HasLooked crew.old.steps crew.new.steps }
        ensures ended { (phase : ℕ) → door.view.end_seen ≡ Some phase → HasEnded result }
        ensures crew_ended { (phase : ℕ) → crew.old.view.end_seen ≡ Some phase → HasEnded result }
    {
        let Door { token: first } = door;
        let token = self.look_together(&mut crew.token, first);
        let word = token.word();
        if word.ended {
            return Registered::Ended(Door { token }, word.shown());
        }
        self.keep_joining(crew, Door { token }, size, tries)
    }
}
