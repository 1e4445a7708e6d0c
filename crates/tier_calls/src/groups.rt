//! Several tokens with one member each in one seat, which take their steps by one access to a word for all of them.

ghost use Rattle.std.specs.Prelude.{false, ◌≡◌, ◌+◌, ◌-◌, ◌<◌, ◌≤◌, ℕ, Some, take, drop, ◌∷◌, [], length, IfSome, MatchOption, option_map};
ghost use Rattle.phaser_word.specs.Fields.{IsLegal};
ghost use Rattle.tier_steps.specs.Step.{CanPass, CanRefresh};
ghost use Rattle.tier_rule.specs.Group.{AreOf, Among, LookedAll};
ghost use Rattle.tier_calls.specs.Splits.{SplitAt, AreTogether, Together};
ghost use Rattle.tier_calls.specs.Settles.{HaveAllArrived, Settles};
ghost use Rattle.tier_calls.specs.ArrivesAll.{KeepsAll, KeepsSoon, ArrivesAll, PollsAll, HaveCaughtUp, AllCaughtUpBy, HasEnded};
ghost use Rattle.tier_calls.specs.Polls as polls;
ghost use Rattle.tier_calls.specs.Waited.{PollAllWaited};
ghost use Rattle.tier_rule.specs.declared.sight.Key.{Key};
ghost use Rattle.tier_calls.specs.Holding.{sight_held};
ghost use Rattle.tier_rule.specs.Reach.{those, front_of, rest_of};
ghost use Rattle.tier_calls.specs.LastOnes.{IsLast, TriesLast};
ghost use Rattle.tier_calls.specs.declared.groups.TriedAll.TheVariants as tried;
ghost use Rattle.tier_calls.specs.Kept.{MayKeep, MayBegin, Begins, begun};
ghost use Rattle.tier_calls.specs.KeptTries.{TriesFrom, TriesKept};
ghost use Rattle.tier_calls.specs.Groups.{AreSeated, group_of, AllLooked, glanced, MayGo, HaveGone, HaveLost, AllArrived, AllLost};

use crate::going::Going;
use crate::kept::Begun;
use crate::polling::Polled;
use crate::seated::Seated;
use crate::seen::Seen;
use crate::tiers::Tiers;
use crate::tokens::{Crew, Errand};
use atomic_table::Seat;
use phaser_word::Word;
use std::marker::{Brand, Model};
use tier_core::call::{Played, Progress};
use tier_core::turn::{above, is_behind};
use tier_rule::rule::{GoesTogether, Gone, Halves, Joins, Keyed, LooksAll, Parts, PartsAt};
use tier_rule::sight::Sights;
use tier_steps::kind::Kind;
use tier_steps::step::{errand_after, look, step_word};
use tier_steps::view;
use tier_steps::view::{Passage, View};

/// Some tokens with one member each, all at one tier and in one phase. Either none of the members have arrived or all.
///
/// Its data are the same however many tokens there are. If it is dropped, the members stay registered, and the tree waits
/// for them forever.
#[derive(Drop)]
pub struct Group {
    pub(crate) seat: Seat<Kind, Sights>,
    pub(crate) view: View,
    pub(crate) count: u32,
    /// The root's word, if the members are there, their tokens' last step found it, and they may pass from it.
    pub(crate) found: Option<Seen>,
}

impl Model for Group {
    ghost use Rattle.tier_calls.specs.Holding.{sight_of};
    ghost use Rattle.tier_calls.specs.Groups.{GroupHeld, AreSeated};
    ghost use Rattle.tier_calls.specs.Kept.{FoundThere};
    ghost use Rattle.std.specs.Prelude.{IfSome};

    ghost Value = { GroupHeld };

    ghost view = { λ c. record { tree = record { id = c.seat.table_id; key = (sight_of c.seat.me).key }; view = c.view; tokens = c.seat.me.0 } };

    ghost invariant = { λ c. AreSeated c.seat.me c.view c.count × IfSome c.found (FoundThere c.seat.me c.view) };
}

/// Returns the errand of a token that arrived last at its tier.
fn owing(token: Seated) -> Errand
    requires owes { IsLast token.view.errand }
    requires unled { token.view.led ≡ false }
    ensures { result.token ≡ token }
{
    let progress = match token.view().errand {
        view::Errand::Advancing => Progress::Due(Passage::Arrival),
        _ => Progress::Owing(Passage::Arrival),
    };
    Errand {
        going: Going {
            token,
            progress,
            answer: Played::GoesOn,
        },
    }
}

/// Returns the tokens of a seat, if there is one.
fn others_of(seat: Option<Seat<Kind, Sights>>, view: View, count: u32) -> Option<Group>
    requires { IfSome seat (λ s. AreSeated s.me view count) }
    ensures { result ≡ option_map (λ s. group_of s.table_id s.me view) seat }
{
    match seat {
        None => None,
        Some(seat) => Some(Group {
            seat,
            view,
            count,
            found: None,
        }),
    }
}

/// How a try of the last arrivals at a tier came out.
pub(crate) enum LastTry {
    /// All have arrived. This token owes what follows; the others, if there are any, owe nothing.
    Owing(Errand, Option<Group>),
    /// The try was lost to this word.
    Lost(Group, Word),
}

/// The answer of the arrivals of all tokens: [`Tiers::arrive_all`](crate::tiers::Tiers::arrive_all).
///
/// `Done` and `Owing` have counted every member, once. The other answers have counted nothing.
pub enum ArrivedAll {
    /// All members have arrived in this phase, and others are still to arrive at their tier. To learn when the phase has
    /// passed, poll.
    Done(Group, u32),
    /// All members have arrived, the last ones at their tier. The tiers above don't know of it yet, or the root is still to
    /// advance. Everyone waits for that, so resume the errand soon: [`Tiers::pass_on`](crate::tiers::Tiers::pass_on). The
    /// other tokens, if there are any, owe nothing.
    Owing(Errand, Option<Group>),
    /// All members had arrived in this phase before the call. Arrive again once a poll answers that the phase has passed.
    AlreadyArrived(Group, u32),
    /// The tree has ended and shows this phase, a negative number. No later call on it counts anything.
    Ended(Group, i32),
    /// The tries ran out before a member was counted. Make the call again.
    Busy(Group),
}

/// How one try of all arrivals came out.
pub(crate) enum TriedAll {
    /// None of the members has arrived yet.
    Yet(Group),
    /// All have arrived, and others are still to arrive at their tier.
    Done(Group),
    /// All have arrived, the last ones at their tier. This token owes what follows; the others, if there are any, owe
    /// nothing.
    Owing(Errand, Option<Group>),
    /// The tree has ended with this word.
    Ended(Group, Word),
}

/// Returns a tier's word after `arrivals` more members have arrived there.
#[inline(always)]
fn after_arrivals(word: Word, arrivals: u32) -> Word
    requires { arrivals ≤ word.unarrived }
    ensures after { result ≡ record word { unarrived = word.unarrived - arrivals } }
    ensures legal { IsLegal word }
{
    Word {
        unarrived: word.unarrived - arrivals,
        ..word
    }
}

/// Returns the view of a token after a look at a tier.
#[inline(always)]
pub(crate) fn view_glanced(tier: u16, word: Word, view: View) -> View
    ensures { result ≡ glanced tier word view }
{
    if tier == 0 { look(word, view) } else { view }
}

/// Returns how a try came out by which nobody arrived last. `lost` is the other word if the try was lost.
fn tried_early(group: Group, lost: Option<Word>) -> TriedAll
    ensures { MatchOption lost (result ≡ tried.Done group) (λ z. result ≡ tried.Yet group) }
{
    match lost {
        None => TriedAll::Done(group),
        Some(_) => TriedAll::Yet(group),
    }
}

/// Returns what a group keeps of a look at the root: its word, if the members are there and may pass from it.
#[inline(always)]
fn kept_after(word: Word, view: &View) -> Option<Seen>
    ensures { IfSome result (λ kept. (kept ≡ word) × MayKeep view.now word) }
{
    if view.tier != 0 || view.arrived == 1 || word.ended || is_behind(word, view) {
        return None;
    }
    Some(Seen::of(word))
}

impl Group {
    /// Returns the root's word if the group has kept it and the first of `tries` tries can begin with it.
    #[inline(always)]
    pub(crate) fn kept(&self, tries: u32) -> Option<Seen>
        ensures { IfSome result (λ w. MayBegin self.now w × (0 < tries)) }
    {
        if tries == 0 { None } else { self.found }
    }

    /// Makes one of a crew with one member.
    pub fn of(crew: Crew) -> Group
        requires { crew.view.size ≡ 1 }
        ensures tree { result.tree ≡ crew.tree }
        ensures view { result.view ≡ crew.view }
        ensures tokens { result.tokens ≡ sight_held crew ∷ [] }
    {
        let Crew { token } = crew;
        let view = token.view();
        let seat = token.into_seat();
        Group {
            seat,
            view,
            count: 1,
            found: None,
        }
    }

    /// Returns its seat.
    pub(crate) fn into_seat(self) -> Seat<Kind, Sights>
        ensures table { result.table_id ≡ self.tree.id }
        ensures seat { result.me ≡ (self.tokens, []) }
    {
        let Group {
            seat,
            view: _,
            count: _,
            found: _,
        } = self;
        seat
    }

    /// Returns the number of tokens, which is the number of members.
    pub fn size(&self) -> u32
        ensures size { result ≡ length self.now.tokens }
        ensures some { 0 < length self.now.tokens }
        ensures one { self.now.view.size ≡ 1 }
    {
        self.count
    }

    /// Returns the tier of the members.
    pub fn tier(&self) -> u16
        ensures { result ≡ self.now.view.tier }
    {
        self.view.tier
    }

    /// Returns the phase of the members, as of the tokens' last look at the root.
    pub fn phase(&self) -> u32
        ensures { result ≡ self.now.view.phase }
    {
        self.view.phase
    }
}

impl Tiers {
    /// Loads the word of a tier once for all tokens. `J` names the tree, for the table's rule.
    fn look_all_as<J: Keyed>(&self, group: &mut Group, tier: u16) -> Word
        requires own { group.old.tree ≡ self.now }
        requires tier { tier < length self.now.key.shape }
        requires key { J.key ≡ self.now.key }
        ensures { AllLooked tier result 0 group.old group.new }
    {
        let found = self
            .table
            .shared
            .load::<LooksAll<J>>(&mut group.seat, usize::from(tier));
        let seen = Seen::at(found);
        let word = seen.word();
        group.view = view_glanced(tier, word, group.view);
        group.found = None;
        word
    }

    /// Loads the word of a tier once for all tokens.
    pub(crate) fn look_all(&self, group: &mut Group, tier: u16) -> Word
        requires own { group.old.tree ≡ self.now }
        requires tier { tier < length self.now.key.shape }
        ensures { AllLooked tier result 0 group.old group.new }
    {
        self.look_all_as::<Brand>(group, tier)
    }

    /// Loads the root's word once for all tokens. The group keeps it, if its members are there and may pass from it.
    fn look_and_keep(&self, group: &mut Group) -> Word
        requires own { group.old.tree ≡ self.now }
        requires root { 0 < length self.now.key.shape }
        ensures { AllLooked 0 result 0 group.old group.new }
    {
        let word = self.look_all(group, 0);
        group.found = kept_after(word, &group.view);
        word
    }

    /// Makes one try by which all tokens of a seat take their steps at a tier, one after another, from the word that was
    /// found there to the next. `J` names the steps, for the table's rule. Returns the other word if the try is lost.
    pub(crate) fn go_together<J: Gone>(
        &self,
        seat: &mut Seat<Kind, Sights>,
        tier: u16,
        word: Word,
        next: Word,
    ) -> Option<Word>
        requires own { seat.old.table_id ≡ self.now.id }
        requires tier { tier < length self.now.key.shape }
        requires ends { (J.key ≡ self.now.key) × (J.from ≡ word) × (J.to ≡ next) }
        requires may { MayGo self.now.key tier word next seat.old.me J.sights }
        ensures table { seat.new.table_id ≡ seat.old.table_id }
        ensures gone { MatchOption result (HaveGone self.now.key tier word next seat.old.me seat.new.me J.sights) (λ z. HaveLost self.now.key tier word z seat.old.me seat.new.me) }
    {
        let old = Seen::of(word).number();
        let new = Seen::of(next).number();
        let found = self
            .table
            .shared
            .compare_exchange::<GoesTogether<J>>(seat, usize::from(tier), old, new);
        if found == old {
            return None;
        }
        let other = Seen::at(found);
        Some(other.word())
    }

    /// Makes one try of the arrivals of all tokens at their tier, from the word that they found there. Others are still to
    /// arrive there, so no arrival is the last. Returns the other word if the try is lost.
    fn arrive_early<B: Begun>(&self, group: &mut Group, word: Word) -> Option<Word>
        requires own { group.old.tree ≡ self.now }
        requires begins { Begins group.old word B.before }
        requires may { CanPass group.old.view.tier word group.old.view }
        requires place { group.old.view.tier < length self.now.key.shape }
        requires more { length group.old.tokens < word.unarrived }
        ensures { MatchOption result (AllArrived word (begun group.old B.before) group.new) (λ z. AllLost word z group.old group.new) }
    {
        let tier = group.view.tier;
        let next = after_arrivals(word, group.count);
        group.found = None;
        match self.go_from::<Brand, B>(&mut group.seat, tier, word, next) {
            None => {
                group.view.arrived = 1;
                None
            }
            Some(other) => {
                group.view = view_glanced(tier, other, group.view);
                Some(other)
            }
        }
    }

    /// Parts the first token of a seat from the others, if there are any.
    pub(crate) fn part_first(
        &self,
        seat: &mut Seat<Kind, Sights>,
        count: u32,
    ) -> Option<Seat<Kind, Sights>>
        requires own { seat.old.table_id ≡ self.now.id }
        requires bare { seat.old.me.1 ≡ [] }
        requires count { (length seat.old.me.0 ≡ count) × (0 < count) }
        ensures table { seat.new.table_id ≡ seat.old.table_id }
        ensures kept { seat.new.me ≡ (front_of seat.old.me.0, []) }
        ensures given { MatchOption result (rest_of seat.old.me.0 ≡ []) (λ s. (s.table_id ≡ seat.old.table_id) × (s.me ≡ (rest_of seat.old.me.0, [])) × (1 < count)) }
    {
        // Only for the prover: brings in that the tree has a root.
        let _ = self.shape();
        if count == 1 {
            return None;
        }
        Some(self.table.shared.split_seat::<Parts>(seat))
    }

    /// Makes one try of the arrivals of all tokens at their tier, from the word that they found there. Nobody else is to
    /// arrive there, so one of the arrivals is the last.
    pub(crate) fn arrive_last<B: Begun>(&self, group: Group, word: Word) -> LastTry
        requires own { group.tree ≡ self.now }
        requires begins { Begins group word B.before }
        requires may { CanPass group.view.tier word group.view }
        requires place { group.view.tier < length self.now.key.shape }
        requires unled { group.view.led ≡ false }
        requires last { length group.tokens ≡ word.unarrived }
        ensures { TriesLast word (begun group B.before) group result }
    {
        let Group {
            mut seat,
            view,
            count,
            found: _,
        } = group;
        let tier = view.tier;
        let before = Word {
            unarrived: word.unarrived - (count - 1),
            ..word
        };
        let next = Word {
            unarrived: word.unarrived - count,
            ..word
        };
        if let Some(other) = self.go_from::<Brand, B>(&mut seat, tier, word, next) {
            let view = view_glanced(tier, other, view);
            return LastTry::Lost(
                Group {
                    seat,
                    view,
                    count,
                    found: None,
                },
                other,
            );
        }
        let behind = self.part_first(&mut seat, count);
        let others = others_of(behind, View { arrived: 1, ..view }, count - 1);
        let above = above(self.shape(), tier);
        let errand = errand_after(above, tier, Passage::Arrival, before);
        let token = Seated {
            seat,
            view: View {
                arrived: 1,
                errand,
                ..view
            },
            tier,
            word: Seen::of(next),
        };
        LastTry::Owing(owing(token), others)
    }

    /// Brings the tokens' tier, which lags, into their phase. Makes one try.
    pub(crate) fn refresh_first(&self, group: &mut Group, word: Word)
        requires own { group.old.tree ≡ self.now }
        requires place { group.old.view.tier < length self.now.key.shape }
        requires among { Among self.now.key.shape group.old.view.tier word (those group.old.tokens) }
        requires may { CanRefresh group.old.view.tier word group.old.view }
        requires unarrived { group.old.view.arrived ≡ 0 }
        ensures kept { KeepsAll 1 group.old group.new }
        ensures caught_up { HaveCaughtUp group.new }
    {
        let tier = group.view.tier;
        let next = step_word(Kind::Refresh, tier, word, &group.view);
        group.found = None;
        match self.go_together::<Brand>(&mut group.seat, tier, word, next) {
            None => self.sleepers.wake(),
            Some(other) => group.view = view_glanced(tier, other, group.view),
        }
    }

    /// Makes one try of the arrivals of all tokens at their tier, from the word that they found there.
    fn arrive_from<B: Begun>(&self, mut group: Group, word: Word) -> TriedAll
        requires own { group.tree ≡ self.now }
        requires begins { Begins group word B.before }
        requires may { CanPass group.view.tier word group.view }
        requires place { group.view.tier < length self.now.key.shape }
        requires unled { group.view.led ≡ false }
        requires unarrived { group.view.arrived ≡ 0 }
        requires enough { length group.tokens ≤ word.unarrived }
        ensures { TriesFrom word (begun group B.before) group result }
    {
        if word.unarrived > group.size() {
            let lost = self.arrive_early::<B>(&mut group, word);
            return tried_early(group, lost);
        }
        match self.arrive_last::<B>(group, word) {
            LastTry::Owing(errand, others) => TriedAll::Owing(errand, others),
            LastTry::Lost(group, _) => TriedAll::Yet(group),
        }
    }

    /// Makes at most one try of the arrivals of all tokens at their tier, from the root's word that they have kept or after a
    /// load. If the tier lags, the try brings it into the tokens' phase instead.
    fn try_all_once(&self, mut group: Group, kept: Option<Seen>) -> TriedAll
        requires own { group.tree ≡ self.now }
        requires place { group.view.tier < length self.now.key.shape }
        requires unled { group.view.led ≡ false }
        requires unarrived { group.view.arrived ≡ 0 }
        requires kept { IfSome kept (MayBegin group) }
        ensures { TriesKept kept 1 group result }
    {
        let tier = group.tier();
        let word = self.find(&mut group, tier, &kept);
        if word.ended {
            return TriedAll::Ended(group, word);
        }
        if is_behind(word, &group.view) {
            self.refresh_first(&mut group, word);
            return TriedAll::Yet(group);
        }
        self.arrive_from::<Brand>(group, word)
    }

    /// Makes at most `tries` tries of the arrivals of all tokens, the first of them from the root's word if they have kept it.
    /// If that try is won, it has found this word once more, so it is their look at the root too.
    fn try_all(&self, mut group: Group, mut kept: Option<Seen>, tries: u32) -> TriedAll
        requires own { group.tree ≡ self.now }
        requires place { group.view.tier < length self.now.key.shape }
        requires unled { group.view.led ≡ false }
        requires unarrived { group.view.arrived ≡ 0 }
        requires kept { IfSome kept (λ w. MayBegin group w × (0 < tries)) }
        ensures { TriesKept kept tries group result }
    {
        for _ in 0..tries {
            match self.try_all_once(group, kept) {
                TriedAll::Yet(next) => {
                    group = next;
                    kept = None;
                }
                answer => return answer,
            }
        }
        TriedAll::Yet(group)
    }

    /// Arrives with all members, as Java's `arrive` by each of them, by one exchange of their tier's word. Doesn't wait for
    /// the phase to pass.
    ///
    /// Makes at most `tries` tries, each of which may also bring the tier into the root's phase. The first one needs no load
    /// if the group's last call was a poll or an append, its members are at the root, and they may arrive. See [`ArrivedAll`] for
    /// what to do after each answer.
    pub fn arrive_all(&self, mut group: Group, tries: u32) -> ArrivedAll
        requires own { group.tree ≡ self.now }
        ensures answer { ArrivesAll group tries result }
        ensures ended { (phase : ℕ) → group.view.end_seen ≡ Some phase → HasEnded result }
    {
        // Only for the prover: brings in that the tree has a root.
        let _ = self.shape();
        let kept = group.kept(tries);
        let root = self.find(&mut group, 0, &kept);
        if root.ended {
            return ArrivedAll::Ended(group, root.shown());
        }
        if group.view.arrived == 1 {
            let phase = group.phase();
            return ArrivedAll::AlreadyArrived(group, phase);
        }
        match self.try_all(group, kept, tries) {
            TriedAll::Yet(group) => ArrivedAll::Busy(group),
            TriedAll::Done(group) => {
                let phase = group.phase();
                ArrivedAll::Done(group, phase)
            }
            TriedAll::Owing(errand, others) => ArrivedAll::Owing(errand, others),
            TriedAll::Ended(group, word) => ArrivedAll::Ended(group, word.shown()),
        }
    }

    /// Brings the tokens' tier into their phase if it lags, after a look at the root. Makes at most one try.
    fn catch_up_all(&self, group: &mut Group)
        requires own { group.old.tree ≡ self.now }
        requires place { group.old.view.tier < length self.now.key.shape }
        requires unarrived { group.old.view.arrived ≡ 0 }
        ensures kept { KeepsSoon 1 group.old group.new }
        ensures root { group.old.view.tier ≡ 0 → group.new.view ≡ group.old.view }
        ensures caught_up { (group.old.view.tier ≡ 0 → HaveCaughtUp group.old) → HaveCaughtUp group.new }
    {
        let tier = group.tier();
        if tier == 0 {
            return;
        }
        let word = self.look_all(group, tier);
        if is_behind(word, &group.view) {
            self.refresh_first(group, word);
        }
    }

    /// Asks once for all tokens whether their phase has passed. Doesn't wait.
    ///
    /// If their tier lags, this also brings it into the root's phase, by at most one try. The answer doesn't depend on that
    /// try.
    pub fn poll_all(&self, group: &mut Group) -> Polled
        requires own { group.old.tree ≡ self.now }
        ensures answer { PollsAll group.old group.new result }
        ensures waited { PollAllWaited group.old group.new result }
        ensures caught_up { AllCaughtUpBy result group.new }
        ensures ended { (phase : ℕ) → group.old.view.end_seen ≡ Some phase → polls.HasEnded result }
    {
        // Only for the prover: brings in that the tree has a root.
        let _ = self.shape();
        let before = group.phase();
        let word = self.look_and_keep(group);
        if word.ended {
            return Polled::Ended(word.shown());
        }
        if group.view.arrived == 1 {
            return Polled::Waiting;
        }
        self.catch_up_all(group);
        let phase = group.phase();
        if phase == before {
            return Polled::Here(phase);
        }
        Polled::Passed(phase)
    }

    /// Splits a new group off another one, which keeps the first `n` tokens. `J` names the two parts, for the table's rule.
    fn split_at_as<J: Halves>(&self, group: &mut Group, n: u32) -> Group
        requires own { group.old.tree ≡ self.now }
        requires count { (0 < n) × (n < length group.old.tokens) }
        requires parts { (J.kept ≡ take n group.old.tokens) × (J.given ≡ drop n group.old.tokens) }
        ensures { SplitAt n group.old group.new result }
    {
        // Only for the prover: brings in that the tree has a root.
        let _ = self.shape();
        let seat = self.table.shared.split_seat::<PartsAt<J>>(&mut group.seat);
        let count = group.count - n;
        group.count = n;
        group.found = None;
        Group {
            seat,
            view: group.view,
            count,
            found: None,
        }
    }

    /// Splits a new group off another one, which keeps the first `n` tokens.
    pub fn split_at(&self, group: &mut Group, n: u32) -> Group
        requires own { group.old.tree ≡ self.now }
        requires count { (0 < n) × (n < length group.old.tokens) }
        ensures { SplitAt n group.old group.new result }
    {
        self.split_at_as::<Brand>(group, n)
    }

    /// Loads the word of a tier once for all tokens of a seat. `J` names the tree, for the table's rule.
    fn look_seat_as<J: Keyed>(&self, seat: &mut Seat<Kind, Sights>, tier: u16) -> Word
        requires own { seat.old.table_id ≡ self.now.id }
        requires tier { tier < length self.now.key.shape }
        requires key { J.key ≡ self.now.key }
        requires bare { seat.old.me.1 ≡ [] }
        requires tokens { AreOf self.now.key seat.old.me.0 }
        ensures table { seat.new.table_id ≡ seat.old.table_id }
        ensures bare { seat.new.me.1 ≡ [] }
        ensures looked { LookedAll self.now.key tier result 0 seat.old.me.0 seat.new.me.0 }
    {
        let found = self
            .table
            .shared
            .load::<LooksAll<J>>(seat, usize::from(tier));
        let seen = Seen::at(found);
        seen.word()
    }

    /// Loads the word of a tier once for all tokens of a seat.
    fn look_seat(&self, seat: &mut Seat<Kind, Sights>, tier: u16) -> Word
        requires own { seat.old.table_id ≡ self.now.id }
        requires tier { tier < length self.now.key.shape }
        requires bare { seat.old.me.1 ≡ [] }
        requires tokens { AreOf self.now.key seat.old.me.0 }
        ensures table { seat.new.table_id ≡ seat.old.table_id }
        ensures bare { seat.new.me.1 ≡ [] }
        ensures looked { LookedAll self.now.key tier result 0 seat.old.me.0 seat.new.me.0 }
    {
        self.look_seat_as::<Brand>(seat, tier)
    }

    /// Appends a group to another one, and looks once at the root for all their tokens. Their members are at one tier and in
    /// one phase, and all of them have arrived or none.
    pub fn append(&self, group: &mut Group, other: Group)
        requires own { (group.old.tree ≡ self.now) × (other.tree ≡ self.now) }
        requires together { AreTogether group.old.view other.view }
        ensures { Together group.old other group.new }
    {
        // Only for the prover: brings in that the tree has a root.
        let _ = self.shape();
        let Group {
            seat,
            view: _,
            count,
            found: _,
        } = other;
        self.table.shared.join_seat::<Joins>(&mut group.seat, seat);
        let word = self.look_seat(&mut group.seat, 0);
        group.count += count;
        group.view = look(word, group.view);
        group.found = kept_after(word, &group.view);
    }

    /// Parts the token that has arrived last at a tier from the others that arrived with it. `before` is the word before its
    /// arrival, and `next` the word now.
    pub(crate) fn settle_last(
        &self,
        mut seat: Seat<Kind, Sights>,
        view: View,
        count: u32,
        before: Word,
        next: Word,
    ) -> (Errand, Option<Group>)
        requires own { seat.table_id ≡ self.now.id }
        requires place { view.tier < length self.now.key.shape }
        requires unled { view.led ≡ false }
        requires come { HaveAllArrived self.now.key view.tier view count seat.me before next }
        ensures { Settles self.now view seat.me.0 result.0.token result.1 }
    {
        let tier = view.tier;
        let behind = self.part_first(&mut seat, count);
        let others = others_of(behind, View { arrived: 1, ..view }, count - 1);
        let above = above(self.shape(), tier);
        let errand = errand_after(above, tier, Passage::Arrival, before);
        let token = Seated {
            seat,
            view: View {
                arrived: 1,
                errand,
                ..view
            },
            tier,
            word: Seen::of(next),
        };
        (owing(token), others)
    }
}
