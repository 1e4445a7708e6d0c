//! The exchange by which all members of a group leave their tier.

ghost use Rattle.std.specs.Prelude.{◌≡◌, ◌<◌, ◌≤◌, ℕ, Some, length, false, IfSome};
ghost use Rattle.phaser_word.specs.Fields.{IsLegal};
ghost use Rattle.tier_shape.specs.Parents.{parent_of};
ghost use Rattle.tier_steps.specs.Step.{CanPass, owed};
ghost use Rattle.tier_steps.specs.declared.view.Passage.TheVariants.{Departure};
ghost use Rattle.tier_calls.specs.Groups.{left_less};
ghost use Rattle.tier_calls.specs.LastOnes.{IsLast};
ghost use Rattle.tier_calls.specs.Kept.{MayBegin, Begins, begun};
ghost use Rattle.tier_calls.specs.KeptTries.{TriesLeavingKept};
ghost use Rattle.tier_calls.specs.LeavesAll.{TriesOnce, LeavesAll, HasEnded};

use crate::going::Going;
use crate::groups::{Group, view_glanced};
use crate::kept::Begun;
use crate::seated::Seated;
use crate::seen::Seen;
use crate::tiers::Tiers;
use crate::tokens::{Door, Errand};
use phaser_word::Word;
use std::marker::Brand;
use tier_core::call::{Played, Progress};
use tier_core::turn::{above, is_behind};
use tier_steps::step::{errand_after, word_passed};
use tier_steps::view;
use tier_steps::view::{Passage, View};

/// How a try of all departures came out.
pub(crate) enum LeavingTry {
    /// All have left, and others are still to arrive at their tier.
    Left(Door),
    /// All have left, and nobody else was to arrive at their tier. This token owes what follows.
    Owing(Errand),
    /// The try was lost to this word.
    Lost(Group, Word),
}

/// How some tries of all departures came out.
pub(crate) enum TriedLeaving {
    /// None of the members has left yet.
    Yet(Group),
    /// All have left, and others are still to arrive at their tier.
    Left(Door),
    /// All have left, and nobody else was to arrive at their tier. This token owes what follows.
    Owing(Errand),
    /// The tree has ended with this word.
    Ended(Group, Word),
}

/// The answer of the departures of all tokens: [`Tiers::leave_all`](crate::tiers::Tiers::leave_all).
///
/// `Left` and `Owing` have counted every departure, once. The other answers have counted nothing.
pub enum LeftAll {
    /// All members have left in this phase, and others are still to arrive at their tier. The door can register new
    /// members.
    Left(Door, u32),
    /// All members have left, and nobody else was to arrive at their tier. The tiers above don't know of it yet, or the root
    /// is still to advance. Everyone waits for that, so resume the errand soon:
    /// [`Tiers::pass_on`](crate::tiers::Tiers::pass_on). It answers `Left` with a door when it is done.
    Owing(Errand),
    /// All members had arrived in this phase before the call. They can leave once a poll answers that the phase has passed.
    AlreadyArrived(Group, u32),
    /// The tree has ended and shows this phase, a negative number. No later call on it counts anything.
    Ended(Group, i32),
    /// The tries ran out before a member left. Make the call again.
    Busy(Group),
}

/// Returns the word of a tier after `left` of its unarrived parties leave it. Others stay there.
fn word_left(word: Word, left: u32) -> Word
    requires open { word.unarrived ≤ word.parties }
    requires more { left < word.unarrived }
    ensures { result ≡ left_less word left }
{
    Word {
        parties: word.parties - left,
        unarrived: word.unarrived - left,
        ..word
    }
}

/// Returns the errand of a token that left last at its tier.
fn owing_left(token: Seated) -> Errand
    requires owes { IsLast token.view.errand }
    requires unled { token.view.led ≡ false }
    ensures { result.token ≡ token }
{
    let progress = match token.view().errand {
        view::Errand::Advancing => Progress::Due(Passage::Departure),
        _ => Progress::Owing(Passage::Departure),
    };
    Errand {
        going: Going {
            token,
            progress,
            answer: Played::GoesOn,
        },
    }
}

impl Tiers {
    /// Returns what the last token that leaves a tier owes. `before` is the tier's word before that.
    fn errand_left(&self, tier: u16, before: Word) -> view::Errand
        ensures { result ≡ owed (parent_of self.now.key.shape tier) tier Departure before }
    {
        errand_after(above(self.shape(), tier), tier, Passage::Departure, before)
    }

    /// Makes one try by which all members leave their tier, from the word that they found there. The last token leaves
    /// first, and the first one last. The other tokens are dropped then.
    fn leave_together<B: Begun>(&self, group: Group, word: Word) -> LeavingTry
        requires own { group.tree ≡ self.now }
        requires begins { Begins group word B.before }
        requires may { CanPass group.view.tier word group.view }
        requires place { group.view.tier < length self.now.key.shape }
        requires unled { group.view.led ≡ false }
        requires legal { IsLegal word }
        requires some { 0 < word.parties }
        requires enough { length group.tokens ≤ word.unarrived }
        ensures { TriesOnce word (begun group B.before) group result }
    {
        let Group {
            mut seat,
            view,
            count,
            found: _,
        } = group;
        let tier = view.tier;
        let before = word_left(word, count - 1);
        let next = word_passed(tier, Passage::Departure, before);
        if let Some(other) = self.go_from::<Brand, B>(&mut seat, tier, word, next) {
            let view = view_glanced(tier, other, view);
            return LeavingTry::Lost(
                Group {
                    seat,
                    view,
                    count,
                    found: None,
                },
                other,
            );
        }
        let _ = self.part_first(&mut seat, count);
        let errand = self.errand_left(tier, before);
        let token = Seated {
            seat,
            view: View {
                size: 0,
                errand,
                ..view
            },
            tier,
            word: Seen::of(next),
        };
        if word.unarrived > count {
            return LeavingTry::Left(Door { token });
        }
        LeavingTry::Owing(owing_left(token))
    }

    /// Makes at most one try by which all members leave their tier, from the root's word that they have kept or after a load.
    /// If the tier lags, the try brings it into the tokens' phase instead.
    fn try_leaving_once(&self, mut group: Group, kept: Option<Seen>) -> TriedLeaving
        requires own { group.tree ≡ self.now }
        requires place { group.view.tier < length self.now.key.shape }
        requires unled { group.view.led ≡ false }
        requires unarrived { group.view.arrived ≡ 0 }
        requires kept { IfSome kept (MayBegin group) }
        ensures { TriesLeavingKept kept 1 group result }
    {
        let tier = group.tier();
        let word = self.find(&mut group, tier, &kept);
        if word.ended {
            return TriedLeaving::Ended(group, word);
        }
        if is_behind(word, &group.view) {
            self.refresh_first(&mut group, word);
            return TriedLeaving::Yet(group);
        }
        match self.leave_together::<Brand>(group, word) {
            LeavingTry::Left(door) => TriedLeaving::Left(door),
            LeavingTry::Owing(errand) => TriedLeaving::Owing(errand),
            LeavingTry::Lost(group, _) => TriedLeaving::Yet(group),
        }
    }

    /// Makes at most `tries` tries by which all members leave their tier, the first of them from the root's word if they have
    /// kept it. If that try is won, it has found this word once more, so it is their look at the root too.
    fn try_leaving(&self, mut group: Group, mut kept: Option<Seen>, tries: u32) -> TriedLeaving
        requires own { group.tree ≡ self.now }
        requires place { group.view.tier < length self.now.key.shape }
        requires unled { group.view.led ≡ false }
        requires unarrived { group.view.arrived ≡ 0 }
        requires kept { IfSome kept (λ w. MayBegin group w × (0 < tries)) }
        ensures { TriesLeavingKept kept tries group result }
    {
        for _ in 0..tries {
            match self.try_leaving_once(group, kept) {
                TriedLeaving::Yet(next) => {
                    group = next;
                    kept = None;
                }
                answer => return answer,
            }
        }
        TriedLeaving::Yet(group)
    }

    /// Leaves with all members, as Java's `arriveAndDeregister` by each of them, by one exchange of their tier's word.
    /// Doesn't wait for the phase to pass.
    ///
    /// The group's first token becomes a door, and its other tokens are dropped. Makes at most `tries` tries, each of which may
    /// also bring the tier into the root's phase. The first one needs no load if that of `arrive_all` needs none. See
    /// [`LeftAll`] for what to do after each answer.
    pub fn leave_all(&self, mut group: Group, tries: u32) -> LeftAll
        requires own { group.tree ≡ self.now }
        ensures answer { LeavesAll group tries result }
        ensures ended { (phase : ℕ) → group.view.end_seen ≡ Some phase → HasEnded result }
    {
        // Only for the prover: brings in that the tree has a root.
        let _ = self.shape();
        let kept = group.kept(tries);
        let root = self.find(&mut group, 0, &kept);
        if root.ended {
            return LeftAll::Ended(group, root.shown());
        }
        if group.view.arrived == 1 {
            let phase = group.phase();
            return LeftAll::AlreadyArrived(group, phase);
        }
        match self.try_leaving(group, kept, tries) {
            TriedLeaving::Yet(group) => LeftAll::Busy(group),
            TriedLeaving::Left(door) => {
                let phase = door.phase();
                LeftAll::Left(door, phase)
            }
            TriedLeaving::Owing(errand) => LeftAll::Owing(errand),
            TriedLeaving::Ended(group, word) => LeftAll::Ended(group, word.shown()),
        }
    }
}
