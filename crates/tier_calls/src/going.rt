//! The loops that take the steps of a call.

ghost use Rattle.std.specs.Prelude.{◌≡◌, ◌≤◌, true};
ghost use Rattle.tier_rule.specs.Tell.{Beside};
ghost use Rattle.tier_core.specs.Machine.{CallFits, is_going};
ghost use Rattle.tier_core.specs.Turn.{place};
ghost use Rattle.tier_core.specs.declared.call.Progress.TheVariants.{Passing};
ghost use Rattle.tier_calls.specs.Holding.{Looked};
ghost use Rattle.tier_calls.specs.Calls.{IsAt, under};
ghost use Rattle.tier_calls.specs.Next.{meant, is_owing, is_passing};
ghost use Rattle.tier_calls.specs.Joins.{is_joining};
ghost use Rattle.tier_calls.specs.Goes.{Stands, LooksOn, WentOn, EndsAsPlanned, Stood, Ran, After};
ghost use Rattle.advance_rule.specs.Stored.{Answers};
ghost use Rattle.advance_rule.specs.Plan.{end_ends_at};

use crate::next::{gives_back, goes_on, meant_step, only_looks};
use crate::seated::Seated;
use crate::tiers::Tiers;
use advance_rule::StoredAdvance;
use tier_core::call::{Played, Progress};
use tier_core::turn::{tier_of, turn_here};
use tier_steps::view::{Passage, View};

/// How far a call has come, apart from its token.
#[derive(Clone, Copy)]
pub struct CallCourse {
    /// How far the call has come.
    pub progress: Progress,
    /// The answer of its last step.
    pub answer: Played,
}

/// A token in a call.
pub struct Going {
    /// The token.
    pub token: Seated,
    /// How far its call has come.
    pub progress: Progress,
    /// The answer of its last step.
    pub answer: Played,
}

impl Tiers {
    /// Loads the word of the tier of the call's next step.
    fn look_next(&self, token: &mut Seated, progress: Progress)
        requires own { token.old.tree ≡ self.now }
        requires going { is_going progress ≡ true }
        requires fits { CallFits self.now.key.shape progress token.old.view }
        requires known { Beside self.now.key.shape token.old.tier token.old.word token.old.view }
        ensures { Looked (meant progress token.old.view) (place self.now.key.shape progress token.old.view) token.old token.new }
    {
        let view = token.view();
        let tier = tier_of(self.shape(), progress, &view);
        let kind = meant_step(progress, view);
        self.look(token, tier, kind);
    }

    /// Records how far a call has come after a look, before which its token's view was `before`.
    fn looked(&self, at: &mut Going, before: View)
        ensures token { at.new.token ≡ at.old.token }
        ensures next { After self.now.key.shape at.old.progress before at.new }
    {
        let turn = turn_here(self.shape(), false, at.token.word(), at.progress, before);
        if only_looks(turn.kind) {
            at.progress = turn.next;
            at.answer = turn.answer;
        } else {
            at.answer = Played::GoesOn;
        }
    }

    /// Looks at the tier of the call's next step, and records how far the call has come.
    fn look_on(&self, at: &mut Going)
        requires at { IsAt self.now at.old }
        requires going { is_going at.old.progress ≡ true }
        ensures { LooksOn self.now 0 at.old at.new }
    {
        let before = at.token.view();
        self.look_next(&mut at.token, at.progress);
        self.looked(at, before);
    }

    /// Returns true if the token last saw the tier of the call's next step, and that step changes a word.
    fn stands(&self, at: &Going) -> bool
        requires going { is_going at.now.progress ≡ true }
        ensures { result ≡ true → Stands self.now.key at.now }
    {
        let shape = self.shape();
        let turn = turn_here(shape, false, at.token.word(), at.progress, at.token.view());
        let view = at.token.view();
        let tier = tier_of(shape, at.progress, &view);
        at.token.tier() == tier && !only_looks(turn.kind)
    }

    /// Looks until the token has seen the tier of the call's next step, or the call is over.
    fn stand(&self, at: &mut Going)
        requires at { IsAt self.now at.old }
        requires going { is_going at.old.progress ≡ true }
        ensures { Stood self.now at.old at.new }
    {
        if self.stands(at) {
            return;
        }
        self.look_on(at);
        if !gives_back(at.progress) || self.stands(at) {
            return;
        }
        self.look_on(at);
    }

    /// Makes one try of the call's next step. The token must have seen the tier of that step last.
    fn try_on(&self, at: &mut Going, ends: bool)
        requires at { IsAt self.now at.old }
        requires stands { Stands self.now.key at.old }
        requires ends { EndsAsPlanned self.now.key ends at.old }
        ensures { WentOn self.now 1 at.old at.new }
    {
        let turn = turn_here(
            self.shape(),
            ends,
            at.token.word(),
            at.progress,
            at.token.view(),
        );
        let before = at.token.view();
        if self.attempt(&mut at.token, turn.kind) {
            at.progress = turn.next;
            at.answer = turn.answer;
        } else {
            self.looked(at, before);
        }
    }

    /// Asks the rule's closure whether the advance that a call must take ends the tree.
    #[inline(always)]
    pub(crate) fn planned<F: Fn(u32, u32) -> bool>(
        &self,
        token: &Seated,
        course: &CallCourse,
        rule: &StoredAdvance<F>,
    ) -> bool
        requires rule { Answers (F.pre rule.now.closure) (F.post rule.now.closure) (end_ends_at rule.now.plan) }
        requires plan { rule.now.plan ≡ self.now.key.plan }
        ensures { EndsAsPlanned self.now.key result (under token.now course.now) }
    {
        let Progress::Due(_) = course.progress else {
            return false;
        };
        let word = token.word();
        rule.call(word.phase, word.parties)
    }

    /// Takes the steps of an arrival or a departure until it is over, or `tries` tries were made.
    #[inline]
    pub(crate) fn go_on<F: Fn(u32, u32) -> bool>(
        &self,
        token: &mut Seated,
        course: &mut CallCourse,
        rule: &StoredAdvance<F>,
        tries: u32,
    )
        requires at { IsAt self.now (under token.old course.old) }
        requires passing { is_passing course.old.progress ≡ true }
        requires rule { Answers (F.pre rule.now.closure) (F.post rule.now.closure) (end_ends_at rule.now.plan) }
        requires plan { rule.now.plan ≡ self.now.key.plan }
        ensures { Ran self.now tries (under token.old course.old) (under token.new course.new) }
    {
        for _ in 0..tries {
            match course.progress {
                Progress::Passing(own) => self.pass_own(token, course, own),
                Progress::Owing(own) => self.climb(token, course, own),
                Progress::Due(_) => self.advance(token, course, rule),
                _ => unreachable!(),
            }
            if !goes_on(course.progress) {
                return;
            }
        }
    }

    /// Takes the steps of an arrival or a departure that was counted at its crew's tier, until it is over, or `tries`
    /// tries were made.
    pub(crate) fn go_owing<F: Fn(u32, u32) -> bool>(
        &self,
        token: &mut Seated,
        course: &mut CallCourse,
        rule: &StoredAdvance<F>,
        tries: u32,
    )
        requires at { IsAt self.now (under token.old course.old) }
        requires owing { is_owing course.old.progress ≡ true }
        requires rule { Answers (F.pre rule.now.closure) (F.post rule.now.closure) (end_ends_at rule.now.plan) }
        requires plan { rule.now.plan ≡ self.now.key.plan }
        ensures { Ran self.now tries (under token.old course.old) (under token.new course.new) }
    {
        for _ in 0..tries {
            match course.progress {
                Progress::Owing(own) => self.climb(token, course, own),
                Progress::Due(_) => self.advance(token, course, rule),
                _ => unreachable!(),
            }
            if !goes_on(course.progress) {
                return;
            }
        }
    }

    /// Takes the step of an arrival or a departure at its crew's tier, and the advance if that is due then. Returns the
    /// number of tries used, at most `tries`.
    #[inline(always)]
    fn start<F: Fn(u32, u32) -> bool>(
        &self,
        token: &mut Seated,
        course: &mut CallCourse,
        own: Passage,
        rule: &StoredAdvance<F>,
        tries: u32,
    ) -> u32
        requires at { IsAt self.now (under token.old course.old) }
        requires passing { course.old.progress ≡ Passing own }
        requires rule { Answers (F.pre rule.now.closure) (F.post rule.now.closure) (end_ends_at rule.now.plan) }
        requires plan { rule.now.plan ≡ self.now.key.plan }
        ensures ran { Ran self.now result (under token.old course.old) (under token.new course.new) }
        ensures few { result ≤ tries }
    {
        if tries < 2 {
            return 0;
        }
        self.pass_own(token, course, own);
        let Progress::Due(_) = course.progress else {
            return 1;
        };
        self.advance(token, course, rule);
        2
    }

    /// Takes the steps of an arrival or a departure, beginning with the one at its crew's tier. If that step, or the
    /// advance after it, is the last, this takes no loop.
    #[inline(always)]
    pub(crate) fn go_straight<F: Fn(u32, u32) -> bool>(
        &self,
        token: &mut Seated,
        course: &mut CallCourse,
        own: Passage,
        rule: &StoredAdvance<F>,
        tries: u32,
    )
        requires at { IsAt self.now (under token.old course.old) }
        requires passing { course.old.progress ≡ Passing own }
        requires rule { Answers (F.pre rule.now.closure) (F.post rule.now.closure) (end_ends_at rule.now.plan) }
        requires plan { rule.now.plan ≡ self.now.key.plan }
        ensures { Ran self.now tries (under token.old course.old) (under token.new course.new) }
    {
        let used = self.start(token, course, own, rule, tries);
        if !goes_on(course.progress) {
            return;
        }
        self.go_on(token, course, rule, tries - used);
    }

    /// Takes the steps of a registration until it is over, or `tries` tries were made.
    pub(crate) fn go_joining(&self, mut at: Going, tries: u32) -> Going
        requires at { IsAt self.now at }
        requires going { is_going at.progress ≡ true }
        requires joining { is_joining at.progress ≡ true }
        ensures { Ran self.now tries at result }
    {
        for _ in 0..tries {
            self.stand(&mut at);
            if !goes_on(at.progress) {
                return at;
            }
            self.try_on(&mut at, false);
            if !goes_on(at.progress) {
                return at;
            }
        }
        at
    }
}
