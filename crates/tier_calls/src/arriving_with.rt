//! The exchange by which some new members join a tier, some old ones leave it, and all others arrive there.

ghost use Rattle.std.specs.Prelude.{◌≡◌, ◌+◌, ◌-◌, ◌<◌, ◌≤◌, [], length, take, drop, IfSome};
ghost use Rattle.tier_calls.specs.Kept.{MayBegin, Begins, begun};

use crate::groups::{Group, view_glanced};
use crate::kept::Begun;
use crate::seated::Seated;
use crate::seen::Seen;
use crate::tiers::Tiers;
use crate::tokens::{Door, Errand};
use atomic_table::Seat;
use phaser_word::{MOST_PARTIES, Word};
use std::marker::{Brand, Model};
use tier_core::turn::is_behind;
use tier_rule::rule::{Counted, Cuts, Gone, Halves, Joins, PartsAt, SitsAll};
use tier_rule::sight::Sights;
use tier_steps::kind::Kind;
use tier_steps::view::View;

/// Some tokens without members. Their data are the same however many tokens there are, and dropping them changes nothing
/// for others.
#[derive(Drop)]
pub struct NewTokens {
    pub(crate) seat: Seat<Kind, Sights>,
    pub(crate) count: u32,
}

impl Model for NewTokens {
    ghost use Rattle.tier_calls.specs.NewTokens.{TokensHeld, AreTokens, tokens_of};

    ghost Value = { TokensHeld };

    ghost view = { λ c. tokens_of c.seat.table_id c.seat.me };

    ghost invariant = { λ c. AreTokens c.seat.me c.count };
}

/// How a try of such an exchange came out.
pub(crate) enum EarlyTry {
    /// It was won. These tokens' members have arrived.
    Done(Group),
    /// It was lost to this word. The new tokens are gone.
    Lost(Group, Word),
}

/// How a try of such an exchange came out, where one of the arrivals is the last at the tier.
pub(crate) enum LastPass {
    /// It was won. This token owes what follows; the others, if there are any, owe nothing.
    Owing(Errand, Option<Group>),
    /// It was lost to this word. The new tokens are gone.
    Lost(Group, Word),
}

/// How one try of all passages came out.
pub(crate) enum TriedWith {
    /// Nothing was counted yet.
    Yet(Group),
    /// All have passed, and others are still to arrive at their tier.
    Done(Group),
    /// All have passed, and nobody else is to arrive at their tier. This token owes what follows.
    Owing(Errand, Option<Group>),
    /// The tier has this many parties, and no room.
    Full(Group, u32),
    /// The tree has ended with this word.
    Ended(Group, Word),
}

/// The answer of the passages of all tokens: [`Tiers::arrive_with`](crate::tiers::Tiers::arrive_with).
///
/// `Done` and `Owing` have counted everything, once. The other answers have counted nothing.
pub enum ArrivedWith {
    /// The new members have joined, those that were to leave have left, and all others have arrived in this phase. Others are
    /// still to arrive at their tier.
    Done(Group, u32),
    /// The same, but nobody else is to arrive at their tier. The tiers above don't know of it yet, or the root is still to
    /// advance. Everyone waits for that, so resume the errand soon: [`Tiers::pass_on`](crate::tiers::Tiers::pass_on). The other
    /// tokens, if there are any, owe nothing.
    Owing(Errand, Option<Group>),
    /// The tier has this many parties, and no room for the new ones.
    Full(Group, u32),
    /// All members had arrived in this phase before the call.
    AlreadyArrived(Group, u32),
    /// The tree has ended and shows this phase, a negative number. No later call on it counts anything.
    Ended(Group, i32),
    /// The tries ran out before anything was counted. Make the call again.
    Busy(Group),
}

impl NewTokens {
    /// Returns the number of tokens.
    pub fn count(&self) -> u32
        ensures { result ≡ length self.now.tokens }
    {
        self.count
    }
}

impl Tiers {
    ghost use Rattle.tier_calls.specs.Holding.{split_once};
    ghost use Rattle.tier_calls.specs.NewTokens.{AreSat};

    /// Makes `n` tokens of a new seat, by one load of the root. `J` names the tree and their number, for the table's rule.
    fn sit_all_as<J: Counted>(&self, mut seat: Seat<Kind, Sights>, n: u32) -> NewTokens
        requires own { seat.table_id ≡ self.now.id }
        requires blank { seat.me ≡ ([], []) }
        requires key { (J.key ≡ self.now.key) × (J.count ≡ n) }
        ensures { AreSat self.now n result }
    {
        // Only for the prover: brings in that the tree has a root.
        let _ = self.shape();
        self.table.shared.load::<SitsAll<J>>(&mut seat, 0);
        NewTokens { seat, count: n }
    }

    /// Makes `n` tokens of a new seat, by one load of the root.
    fn sit_all(&self, seat: Seat<Kind, Sights>, n: u32) -> NewTokens
        requires own { seat.table_id ≡ self.now.id }
        requires blank { seat.me ≡ ([], []) }
        ensures { AreSat self.now n result }
    {
        self.sit_all_as::<Brand>(seat, n)
    }

    /// Splits a new seat off that of a token.
    fn blank_off(&self, token: &mut Seated) -> Seat<Kind, Sights>
        requires own { token.old.tree ≡ self.now }
        ensures counted { token.new ≡ split_once token.old }
        ensures table { result.table_id ≡ self.now.id }
        ensures blank { result.me ≡ ([], []) }
    {
        // Only for the prover: brings in that the tree has a root.
        let _ = self.shape();
        self.table.shared.split_seat::<Cuts>(&mut token.seat)
    }

    /// Makes `n` new tokens without members, by one load of the root, or by none if `n` is 0.
    pub(crate) fn new_tokens(&self, door: &mut Door, n: u32) -> NewTokens
        requires own { door.old.tree ≡ self.now }
        ensures counted { door.new ≡ split_once door.old }
        ensures new { AreSat self.now n result }
    {
        let seat = self.blank_off(&mut door.token);
        if n == 0 {
            return NewTokens { seat, count: 0 };
        }
        self.sit_all(seat, n)
    }
}

impl Tiers {
    ghost use Rattle.std.specs.Prelude.{take, drop};

    /// Splits a seat at a place. `J` names the two parts, for the table's rule.
    fn part_seat_as<J: Halves>(&self, seat: &mut Seat<Kind, Sights>, n: u32) -> Seat<Kind, Sights>
        requires own { seat.old.table_id ≡ self.now.id }
        requires bare { seat.old.me.1 ≡ [] }
        requires count { (0 < n) × (n < length seat.old.me.0) }
        requires parts { (J.kept ≡ take n seat.old.me.0) × (J.given ≡ drop n seat.old.me.0) }
        ensures table { (seat.new.table_id ≡ seat.old.table_id) × (result.table_id ≡ seat.old.table_id) }
        ensures kept { seat.new.me ≡ (take n seat.old.me.0, []) }
        ensures given { result.me ≡ (drop n seat.old.me.0, []) }
    {
        // Only for the prover: brings in that the tree has a root.
        let _ = self.shape();
        self.table.shared.split_seat::<PartsAt<J>>(seat)
    }

    /// Splits a seat at a place.
    fn part_seat(&self, seat: &mut Seat<Kind, Sights>, n: u32) -> Seat<Kind, Sights>
        requires own { seat.old.table_id ≡ self.now.id }
        requires bare { seat.old.me.1 ≡ [] }
        requires count { (0 < n) × (n < length seat.old.me.0) }
        ensures table { (seat.new.table_id ≡ seat.old.table_id) × (result.table_id ≡ seat.old.table_id) }
        ensures kept { seat.new.me ≡ (take n seat.old.me.0, []) }
        ensures given { result.me ≡ (drop n seat.old.me.0, []) }
    {
        self.part_seat_as::<Brand>(seat, n)
    }

    /// Keeps all but the first `n` tokens of a seat, and lets those go.
    pub(crate) fn keep_last(&self, mut seat: Seat<Kind, Sights>, n: u32) -> Seat<Kind, Sights>
        requires own { seat.table_id ≡ self.now.id }
        requires bare { seat.me.1 ≡ [] }
        requires count { n < length seat.me.0 }
        ensures table { result.table_id ≡ seat.table_id }
        ensures given { result.me ≡ (drop n seat.me.0, []) }
    {
        if n == 0 {
            return seat;
        }
        self.part_seat(&mut seat, n)
    }

    /// Keeps the first `n` tokens of a seat, and lets the last `leaving` go.
    fn keep_first(&self, seat: &mut Seat<Kind, Sights>, n: u32, leaving: u32)
        requires own { seat.old.table_id ≡ self.now.id }
        requires bare { seat.old.me.1 ≡ [] }
        requires count { (0 < n) × (n + leaving ≡ length seat.old.me.0) }
        ensures table { seat.new.table_id ≡ seat.old.table_id }
        ensures kept { seat.new.me ≡ (take n seat.old.me.0, []) }
    {
        if leaving == 0 {
            return;
        }
        let _ = self.part_seat(seat, n);
    }
}

impl Tiers {
    ghost use Rattle.tier_calls.specs.NewTokens.{MayExchange};
    ghost use Rattle.tier_calls.specs.Exchanges.{sights_with, word_with, ExchangesBy, ExchangesLast};

    /// Makes one try by which all tokens of a group and some new ones pass the tier, from the word that was found there:
    /// one member of each new token joins and arrives, `leaving` of the old members leave, and the others arrive. Others are
    /// still to arrive there, so no arrival is the last. `J` names the steps, for the table's rule.
    fn exchange_early_as<J: Gone, B: Begun>(
        &self,
        group: Group,
        new_tokens: NewTokens,
        leaving: u32,
        word: Word,
    ) -> EarlyTry
        requires begins { Begins group word B.before }
        requires may { MayExchange self.now leaving word group new_tokens }
        requires more { length group.tokens < word.unarrived }
        requires ends { (J.key ≡ self.now.key) × (J.from ≡ word) × (J.to ≡ word_with group new_tokens leaving word) }
        requires sights { J.sights ≡ sights_with (begun group B.before) new_tokens leaving word }
        ensures { ExchangesBy group B.before new_tokens leaving word result }
    {
        let Group {
            seat: olds,
            view,
            count,
            found: _,
        } = group;
        let NewTokens {
            mut seat,
            count: news,
        } = new_tokens;
        let tier = view.tier;
        let next = Word {
            parties: word.parties + news - leaving,
            unarrived: word.unarrived - count,
            ..word
        };
        self.table.shared.join_seat::<Joins>(&mut seat, olds);
        if let Some(other) = self.go_from::<J, Brand>(&mut seat, tier, word, next) {
            let olds = self.keep_last(seat, news);
            let view = view_glanced(tier, other, view);
            return EarlyTry::Lost(
                Group {
                    seat: olds,
                    view,
                    count,
                    found: None,
                },
                other,
            );
        }
        let come = news + count - leaving;
        self.keep_first(&mut seat, come, leaving);
        EarlyTry::Done(Group {
            seat,
            view: View { arrived: 1, ..view },
            count: come,
            found: None,
        })
    }

    /// Makes one try by which all tokens of a group and some new ones pass the tier, as `exchange_early_as` says.
    pub(crate) fn exchange_early<B: Begun>(
        &self,
        group: Group,
        new_tokens: NewTokens,
        leaving: u32,
        word: Word,
    ) -> EarlyTry
        requires begins { Begins group word B.before }
        requires may { MayExchange self.now leaving word group new_tokens }
        requires more { length group.tokens < word.unarrived }
        ensures { ExchangesBy group B.before new_tokens leaving word result }
    {
        self.exchange_early_as::<Brand, B>(group, new_tokens, leaving, word)
    }

    /// Does the same as `exchange_early_as`, if nobody else is to arrive there. So one of the arrivals is the last.
    fn exchange_last_as<J: Gone, B: Begun>(
        &self,
        group: Group,
        new_tokens: NewTokens,
        leaving: u32,
        word: Word,
    ) -> LastPass
        requires begins { Begins group word B.before }
        requires may { MayExchange self.now leaving word group new_tokens }
        requires last { length group.tokens ≡ word.unarrived }
        requires ends { (J.key ≡ self.now.key) × (J.from ≡ word) × (J.to ≡ word_with group new_tokens leaving word) }
        requires sights { J.sights ≡ sights_with (begun group B.before) new_tokens leaving word }
        ensures { ExchangesLast group B.before new_tokens leaving word result }
    {
        let Group {
            seat: olds,
            view,
            count,
            found: _,
        } = group;
        let NewTokens {
            mut seat,
            count: news,
        } = new_tokens;
        let tier = view.tier;
        let parties = word.parties + news - leaving;
        let before = Word {
            parties,
            unarrived: 1,
            ..word
        };
        let next = Word {
            parties,
            unarrived: word.unarrived - count,
            ..word
        };
        self.table.shared.join_seat::<Joins>(&mut seat, olds);
        if let Some(other) = self.go_from::<J, Brand>(&mut seat, tier, word, next) {
            let olds = self.keep_last(seat, news);
            let view = view_glanced(tier, other, view);
            return LastPass::Lost(
                Group {
                    seat: olds,
                    view,
                    count,
                    found: None,
                },
                other,
            );
        }
        let come = news + count - leaving;
        self.keep_first(&mut seat, come, leaving);
        let (errand, others) = self.settle_last(seat, view, come, before, next);
        LastPass::Owing(errand, others)
    }

    /// Does the same as `exchange_early`, if nobody else is to arrive there.
    pub(crate) fn exchange_last<B: Begun>(
        &self,
        group: Group,
        new_tokens: NewTokens,
        leaving: u32,
        word: Word,
    ) -> LastPass
        requires begins { Begins group word B.before }
        requires may { MayExchange self.now leaving word group new_tokens }
        requires last { length group.tokens ≡ word.unarrived }
        ensures { ExchangesLast group B.before new_tokens leaving word result }
    {
        self.exchange_last_as::<Brand, B>(group, new_tokens, leaving, word)
    }
}

impl Group {
    /// Returns the root's word if the group has kept it and the first of `tries` tries, by which `joining` new members join, can
    /// begin with it.
    #[inline(always)]
    fn kept_for(&self, joining: u32, tries: u32) -> Option<Seen>
        ensures { IfSome result (λ w. MayBegin self.now w × (0 < tries) × (w.parties + joining ≤ MOST_PARTIES)) }
    {
        let kept = self.kept(tries)?;
        if joining > MOST_PARTIES - kept.word().parties {
            return None;
        }
        Some(kept)
    }
}

impl Tiers {
    ghost use Rattle.tier_calls.specs.NewTokens.{IsEager};
    ghost use Rattle.tier_steps.specs.Step.{CanPass};
    ghost use Rattle.tier_calls.specs.KeptWith.{PassesFrom, TriesWithKept};
    ghost use Rattle.std.specs.Prelude.{ℕ, Some};
    ghost use Rattle.tier_calls.specs.ArrivesWith.{ArrivesWith, HasEnded, OnlySplit};

    /// Makes one try by which all tokens pass their tier, from the word that they found there. The new tokens are split off the
    /// door.
    fn pass_from<B: Begun>(
        &self,
        door: &mut Door,
        group: Group,
        joining: u32,
        leaving: u32,
        word: Word,
    ) -> TriedWith
        requires own { (door.old.tree ≡ self.now) × (group.tree ≡ self.now) }
        requires begins { Begins group word B.before }
        requires may { CanPass group.view.tier word group.view }
        requires eager { IsEager group.view }
        requires place { group.view.tier < length self.now.key.shape }
        requires some { 0 < word.parties }
        requires capacity { word.parties + joining ≤ MOST_PARTIES }
        requires enough { length group.tokens ≤ word.unarrived }
        requires few { leaving ≤ length group.tokens }
        requires come { leaving < joining + length group.tokens }
        ensures went { PassesFrom joining leaving (begun group B.before) group result }
        ensures door { OnlySplit door.old door.new }
    {
        let new_tokens = self.new_tokens(door, joining);
        if word.unarrived > group.size() {
            return match self.exchange_early::<B>(group, new_tokens, leaving, word) {
                EarlyTry::Done(group) => TriedWith::Done(group),
                EarlyTry::Lost(group, _) => TriedWith::Yet(group),
            };
        }
        match self.exchange_last::<B>(group, new_tokens, leaving, word) {
            LastPass::Owing(errand, others) => TriedWith::Owing(errand, others),
            LastPass::Lost(group, _) => TriedWith::Yet(group),
        }
    }

    /// Makes at most one try by which all tokens pass their tier, from the root's word that they have kept or after a load. If the
    /// tier lags, the try brings it into the tokens' phase instead. The new tokens are split off the door.
    fn try_with_once(
        &self,
        door: &mut Door,
        mut group: Group,
        joining: u32,
        leaving: u32,
        kept: Option<Seen>,
    ) -> TriedWith
        requires own { (door.old.tree ≡ self.now) × (group.tree ≡ self.now) }
        requires place { group.view.tier < length self.now.key.shape }
        requires unarrived { group.view.arrived ≡ 0 }
        requires eager { 0 < group.view.tier → IsEager group.view }
        requires few { leaving ≤ length group.tokens }
        requires come { leaving < joining + length group.tokens }
        requires kept { IfSome kept (λ w. MayBegin group w × (w.parties + joining ≤ MOST_PARTIES)) }
        ensures went { TriesWithKept kept 1 joining leaving group result }
        ensures door { OnlySplit door.old door.new }
    {
        let tier = group.tier();
        let word = self.find(&mut group, tier, &kept);
        if word.ended {
            return TriedWith::Ended(group, word);
        }
        if is_behind(word, &group.view) {
            self.refresh_first(&mut group, word);
            return TriedWith::Yet(group);
        }
        if joining > MOST_PARTIES - word.parties {
            return TriedWith::Full(group, word.parties);
        }
        self.pass_from::<Brand>(door, group, joining, leaving, word)
    }

    /// Makes at most `tries` tries by which all tokens pass their tier, the first of them from the root's word if they have kept
    /// it. If that try is won, it has found this word once more, so it is their look at the root too.
    fn try_with(
        &self,
        door: &mut Door,
        mut group: Group,
        joining: u32,
        leaving: u32,
        mut kept: Option<Seen>,
        tries: u32,
    ) -> TriedWith
        requires own { (door.old.tree ≡ self.now) × (group.tree ≡ self.now) }
        requires place { group.view.tier < length self.now.key.shape }
        requires unarrived { group.view.arrived ≡ 0 }
        requires eager { 0 < group.view.tier → IsEager group.view }
        requires few { leaving ≤ length group.tokens }
        requires come { leaving < joining + length group.tokens }
        requires kept { IfSome kept (λ w. MayBegin group w × (0 < tries) × (w.parties + joining ≤ MOST_PARTIES)) }
        ensures went { TriesWithKept kept tries joining leaving group result }
        ensures door { OnlySplit door.old door.new }
    {
        for _ in 0..tries {
            match self.try_with_once(door, group, joining, leaving, kept) {
                TriedWith::Yet(next) => {
                    group = next;
                    kept = None;
                }
                answer => return answer,
            }
        }
        TriedWith::Yet(group)
    }

    /// Passes the tier by one exchange of its word: `joining` new members join and arrive, `leaving` of the group's members leave
    /// (those of its last tokens), and the others arrive. As Java's `register` and `arrive`, `arriveAndDeregister`, and `arrive`,
    /// in this order. Doesn't wait for the phase to pass. At least one member must arrive. The new tokens are split off the
    /// door, and the group has them first.
    ///
    /// Makes at most `tries` tries. See [`ArrivedWith`] for what to do after each answer.
    pub fn arrive_with(
        &self,
        door: &mut Door,
        mut group: Group,
        joining: u32,
        leaving: u32,
        tries: u32,
    ) -> ArrivedWith
        requires own { (door.old.tree ≡ self.now) × (group.tree ≡ self.now) }
        requires few { leaving ≤ length group.tokens }
        requires come { leaving < joining + length group.tokens }
        ensures answer { ArrivesWith tries joining leaving group result }
        ensures ended { (phase : ℕ) → group.view.end_seen ≡ Some phase → HasEnded result }
        ensures door { OnlySplit door.old door.new }
    {
        // Only for the prover: brings in that the tree has a root.
        let _ = self.shape();
        let kept = group.kept_for(joining, tries);
        let root = self.find(&mut group, 0, &kept);
        if root.ended {
            return ArrivedWith::Ended(group, root.shown());
        }
        if group.view.arrived == 1 {
            let phase = group.phase();
            return ArrivedWith::AlreadyArrived(group, phase);
        }
        match self.try_with(door, group, joining, leaving, kept, tries) {
            TriedWith::Yet(group) => ArrivedWith::Busy(group),
            TriedWith::Done(group) => {
                let phase = group.phase();
                ArrivedWith::Done(group, phase)
            }
            TriedWith::Owing(errand, others) => ArrivedWith::Owing(errand, others),
            TriedWith::Full(group, count) => ArrivedWith::Full(group, count),
            TriedWith::Ended(group, word) => ArrivedWith::Ended(group, word.shown()),
        }
    }
}
