//! Registrations of several tokens at once.

ghost use Rattle.std.specs.Prelude.{◌≡◌, ◌+◌, ◌<◌, ◌≤◌, ℕ, Some, length};
ghost use Rattle.phaser_word.specs.Fields.{IsLegal};
ghost use Rattle.tier_steps.specs.Step.{CanPass};
ghost use Rattle.tier_calls.specs.ArrivesWith.{OnlySplit};
ghost use Rattle.tier_calls.specs.NewTokens.{AreBlank, IsEager};
ghost use Rattle.tier_calls.specs.JoinsAll.{sights_joined, TriesJoining, TriesToJoin, JoinsAll, HasEnded};
ghost use Rattle.tier_calls.specs.Groups.{joined_more};

use crate::arriving_with::NewTokens;
use crate::groups::{Group, view_glanced};
use crate::tiers::Tiers;
use crate::tokens::Door;
use phaser_word::{MOST_PARTIES, Word};
use std::marker::Brand;
use tier_core::turn::is_behind;
use tier_rule::rule::{Gone, Joins};

/// How one exchange of a group's tier by which new members join came out.
pub(crate) enum JoinTry {
    /// It was won. The new tokens are in the group.
    Joined(Group),
    /// It was lost to this word. The new tokens are gone.
    Lost(Group, Word),
}

/// How one try of a registration beside a group came out.
pub(crate) enum TriedJoin {
    /// Nobody has joined yet.
    Yet(Group),
    /// All have joined.
    Joined(Group),
    /// The tier has this many parties, and no room.
    Full(Group, u32),
    /// The tree has ended with this word.
    Ended(Group, Word),
}

/// The answer of a registration beside a group: [`Tiers::join_all`](crate::tiers::Tiers::join_all).
///
/// Only `Joined` has registered anybody. Each answer returns the group.
pub enum JoinedAll {
    /// The new members have registered, and are unarrived in this phase, like all of the group.
    Joined(Group, u32),
    /// The tier has this many parties already and would have over 65535. Register fewer members, or at another tier.
    Full(Group, u32),
    /// The group's members have arrived in this phase, so they don't keep their tier from passing to the next one.
    /// Register again once a poll answers that the phase has passed.
    AlreadyArrived(Group, u32),
    /// The tree has ended and shows this phase, a negative number. No later call on it counts anything.
    Ended(Group, i32),
    /// The tries ran out before anybody was registered. Make the call again.
    Busy(Group),
}

/// Returns the word of a tier with parties after `count` more members have joined there.
#[inline(always)]
fn after_joins(word: Word, count: u32) -> Word
    requires some { 0 < word.parties }
    requires capacity { word.parties + count ≤ MOST_PARTIES }
    ensures after { result ≡ joined_more word count }
    ensures legal { IsLegal word }
{
    Word {
        parties: word.parties + count,
        unarrived: word.unarrived + count,
        ..word
    }
}

impl Tiers {
    /// Makes one try by which one member of each new token joins at a group's tier, from the word that was found there.
    /// `J` names the steps, for the table's rule.
    fn exchange_joins_as<J: Gone>(&self, group: Group, new_tokens: NewTokens, word: Word) -> JoinTry
        requires own { (group.tree ≡ self.now) × (new_tokens.table ≡ self.now.id) }
        requires blank { AreBlank self.now.key new_tokens.tokens }
        requires may { CanPass group.view.tier word group.view }
        requires eager { IsEager group.view }
        requires place { group.view.tier < length self.now.key.shape }
        requires some { 0 < word.parties }
        requires enough { length group.tokens ≤ word.unarrived }
        requires capacity { word.parties + length new_tokens.tokens ≤ MOST_PARTIES }
        requires ends { (J.key ≡ self.now.key) × (J.from ≡ word) × (J.to ≡ joined_more word (length new_tokens.tokens)) }
        requires sights { J.sights ≡ sights_joined group new_tokens word }
        ensures { TriesJoining group new_tokens word result }
    {
        let Group {
            seat: olds,
            view,
            count,
            found: _,
        } = group;
        let NewTokens {
            mut seat,
            count: news,
        } = new_tokens;
        let tier = view.tier;
        let next = after_joins(word, news);
        self.table.shared.join_seat::<Joins>(&mut seat, olds);
        if let Some(other) = self.go_together::<J>(&mut seat, tier, word, next) {
            let olds = self.keep_last(seat, news);
            let view = view_glanced(tier, other, view);
            return JoinTry::Lost(
                Group {
                    seat: olds,
                    view,
                    count,
                    found: None,
                },
                other,
            );
        }
        JoinTry::Joined(Group {
            seat,
            view,
            count: news + count,
            found: None,
        })
    }

    /// Makes one try by which one member of each new token joins at a group's tier, from the word that was found there.
    fn exchange_joins(&self, group: Group, new_tokens: NewTokens, word: Word) -> JoinTry
        requires own { (group.tree ≡ self.now) × (new_tokens.table ≡ self.now.id) }
        requires blank { AreBlank self.now.key new_tokens.tokens }
        requires may { CanPass group.view.tier word group.view }
        requires eager { IsEager group.view }
        requires place { group.view.tier < length self.now.key.shape }
        requires some { 0 < word.parties }
        requires enough { length group.tokens ≤ word.unarrived }
        requires capacity { word.parties + length new_tokens.tokens ≤ MOST_PARTIES }
        ensures { TriesJoining group new_tokens word result }
    {
        self.exchange_joins_as::<Brand>(group, new_tokens, word)
    }

    /// Makes at most one try by which `n` new tokens join beside a group, after a load of its tier's word. If the tier lags,
    /// the try brings it into the group's phase instead. The new tokens are split off the door.
    fn try_join_once(&self, door: &mut Door, mut group: Group, n: u32) -> TriedJoin
        requires own { (door.old.tree ≡ self.now) × (group.tree ≡ self.now) }
        requires place { group.view.tier < length self.now.key.shape }
        requires unarrived { group.view.arrived ≡ 0 }
        requires eager { 0 < group.view.tier → IsEager group.view }
        ensures went { TriesToJoin 1 n group result }
        ensures door { OnlySplit door.old door.new }
    {
        let tier = group.tier();
        let word = self.look_all(&mut group, tier);
        if word.ended {
            return TriedJoin::Ended(group, word);
        }
        if is_behind(word, &group.view) {
            self.refresh_first(&mut group, word);
            return TriedJoin::Yet(group);
        }
        if n > MOST_PARTIES - word.parties {
            return TriedJoin::Full(group, word.parties);
        }
        let new_tokens = self.new_tokens(door, n);
        match self.exchange_joins(group, new_tokens, word) {
            JoinTry::Joined(group) => TriedJoin::Joined(group),
            JoinTry::Lost(group, _) => TriedJoin::Yet(group),
        }
    }

    /// Makes at most `tries` tries by which `n` new tokens join beside a group.
    fn try_join(&self, door: &mut Door, mut group: Group, n: u32, tries: u32) -> TriedJoin
        requires own { (door.old.tree ≡ self.now) × (group.tree ≡ self.now) }
        requires place { group.view.tier < length self.now.key.shape }
        requires eager { IsEager group.view }
        ensures went { TriesToJoin tries n group result }
        ensures door { OnlySplit door.old door.new }
    {
        for _ in 0..tries {
            match self.try_join_once(door, group, n) {
                TriedJoin::Yet(next) => group = next,
                answer => return answer,
            }
        }
        TriedJoin::Yet(group)
    }

    /// Registers `n` new members at a group's tier by one exchange of its word, as Java's `bulkRegister`, but each of them is
    /// the one member of a token of its own. The new tokens are split off the door, and the group has them first. Nobody
    /// arrives.
    ///
    /// The group's members must not have arrived, so their tier is not empty and can't pass to the next phase meanwhile.
    /// Makes at most `tries` tries. See [`JoinedAll`] for what to do after each answer.
    pub fn join_all(&self, mut group: Group, door: &mut Door, n: u32, tries: u32) -> JoinedAll
        requires own { (door.old.tree ≡ self.now) × (group.tree ≡ self.now) }
        ensures answer { JoinsAll tries n group result }
        ensures ended { (phase : ℕ) → group.view.end_seen ≡ Some phase → HasEnded result }
        ensures door { OnlySplit door.old door.new }
    {
        // Only for the prover: brings in that the tree has a root.
        let _ = self.shape();
        let root = self.look_all(&mut group, 0);
        if root.ended {
            return JoinedAll::Ended(group, root.shown());
        }
        if group.view.arrived == 1 {
            let phase = group.phase();
            return JoinedAll::AlreadyArrived(group, phase);
        }
        match self.try_join(door, group, n, tries) {
            TriedJoin::Yet(group) => JoinedAll::Busy(group),
            TriedJoin::Joined(group) => {
                let phase = group.phase();
                JoinedAll::Joined(group, phase)
            }
            TriedJoin::Full(group, count) => JoinedAll::Full(group, count),
            TriedJoin::Ended(group, word) => JoinedAll::Ended(group, word.shown()),
        }
    }
}
