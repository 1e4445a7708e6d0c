//! The single steps of arrivals and departures, each with its kind known beforehand.

ghost use Rattle.std.specs.Prelude.{◌≡◌, true, false, if◌then◌else◌};
ghost use Rattle.advance_rule.specs.Stored.{Answers};
ghost use Rattle.advance_rule.specs.Plan.{end_ends_at};
ghost use Rattle.tier_core.specs.Machine.{is_going};
ghost use Rattle.tier_core.specs.Turn.{place, turn_by, pass_turn};
ghost use Rattle.tier_core.specs.declared.call.Played.{Played};
ghost use Rattle.tier_core.specs.declared.call.Played.TheVariants as played;
ghost use Rattle.tier_core.specs.declared.call.Progress.TheVariants as progress;
ghost use Rattle.tier_steps.specs.declared.view.Passage.TheVariants.{Arrival};
ghost use Rattle.tier_calls.specs.Calls.{IsAt, under};
ghost use Rattle.tier_calls.specs.Next.{is_passing};
ghost use Rattle.tier_calls.specs.Goes.{Stands, WentOn, EndsAsPlanned, Stood, Ran, over_at};

use crate::going::CallCourse;
use crate::next::goes_on;
use crate::seated::Seated;
use crate::tiers::Tiers;
use advance_rule::StoredAdvance;
use phaser_word::Word;
use tier_core::call::{Played, Progress, Turn};
use tier_core::turn::{above, is_behind, passed_answer, then_climb};
use tier_steps::kind::Kind;
use tier_steps::step::{errand_after, word_passed};
use tier_steps::view::{Errand, Passage};

/// Records that a call's step was lost and only looked. It found `word`, and the token was in `phase` before.
#[inline(always)]
fn missed(course: &mut CallCourse, phase: u32, word: Word)
    ensures progress { course.new.progress ≡ (if word.ended then progress.Idle else course.old.progress) }
    ensures answer { course.new.answer ≡ (if word.ended then over_at course.old.progress phase word else played.GoesOn) }
{
    if !word.ended {
        course.answer = Played::GoesOn;
        return;
    }
    course.answer = match course.progress {
        Progress::Passing(_) => Played::Ended(word.shown()),
        _ => Played::Done(phase),
    };
    course.progress = Progress::Idle;
}

impl Tiers {
    /// Looks at the tier of the call's next step, unless the token saw that tier last.
    #[inline(always)]
    fn stand_to(&self, token: &mut Seated, course: &mut CallCourse, tier: u16)
        requires at { IsAt self.now (under token.old course.old) }
        requires passing { is_passing course.old.progress ≡ true }
        requires tier { tier ≡ place self.now.key.shape course.old.progress token.old.view }
        ensures stood { Stood self.now (under token.old course.old) (under token.new course.new) }
        ensures going { is_going course.new.progress ≡ true → (course.new.progress ≡ course.old.progress) × (token.new.word.ended ≡ false) }
    {
        if token.tier() == tier && !token.word().ended {
            return;
        }
        let phase = token.view().phase;
        self.look(token, tier, Kind::Look);
        missed(course, phase, token.word());
    }

    /// Makes one try of the call's next step.
    #[inline(always)]
    fn try_turn(&self, token: &mut Seated, course: &mut CallCourse, turn: Turn, ends: bool)
        requires at { IsAt self.now (under token.old course.old) }
        requires stands { Stands self.now.key (under token.old course.old) }
        requires passing { is_passing course.old.progress ≡ true }
        requires turn { turn ≡ turn_by self.now.key.shape ends token.old.word course.old.progress token.old.view }
        requires ends { EndsAsPlanned self.now.key ends (under token.old course.old) }
        ensures { WentOn self.now 1 (under token.old course.old) (under token.new course.new) }
    {
        let phase = token.view().phase;
        if self.attempt(token, turn.kind) {
            course.progress = turn.next;
            course.answer = turn.answer;
        } else {
            missed(course, phase, token.word());
        }
    }

    /// Makes one try of the step by which a party passes the tier that its token saw last. If that tier lags, the try
    /// refreshes it instead.
    #[inline(always)]
    fn pass_tier(
        &self,
        token: &mut Seated,
        course: &mut CallCourse,
        own: Passage,
        passage: Passage,
        kind: Kind,
    )
        requires at { IsAt self.now (under token.old course.old) }
        requires stands { Stands self.now.key (under token.old course.old) }
        requires passing { is_passing course.old.progress ≡ true }
        requires open { token.old.word.ended ≡ false }
        requires turn { (over : Played) × (turn_by self.now.key.shape false token.old.word course.old.progress token.old.view ≡ pass_turn self.now.key.shape own token.old.tier passage kind course.old.progress over token.old.word token.old.view) }
        requires ends { EndsAsPlanned self.now.key false (under token.old course.old) }
        ensures { WentOn self.now 1 (under token.old course.old) (under token.new course.new) }
    {
        let tier = token.tier();
        let word = token.word();
        let view = token.view();
        if is_behind(word, &view) {
            let turn = Turn {
                kind: Kind::Refresh,
                tier,
                next: course.progress,
                answer: Played::GoesOn,
            };
            return self.try_turn(token, course, turn, false);
        }
        let errand = errand_after(above(self.shape(), tier), tier, passage, word);
        let parties = word_passed(tier, passage, word).parties;
        let turn = Turn {
            kind,
            tier,
            next: then_climb(own, errand),
            answer: passed_answer(view.phase, parties, errand),
        };
        self.try_turn(token, course, turn, false);
    }

    /// Makes one try of an arrival at the tier that its token saw last. If that tier lags, the try refreshes it instead.
    /// If others are still to arrive there, the call is then over. If it was the last at the root, the advance is due.
    #[inline(always)]
    fn arrive_at(&self, token: &mut Seated, course: &mut CallCourse)
        requires at { IsAt self.now (under token.old course.old) }
        requires stands { Stands self.now.key (under token.old course.old) }
        requires passing { course.old.progress ≡ progress.Passing Arrival }
        requires open { token.old.word.ended ≡ false }
        ensures { WentOn self.now 1 (under token.old course.old) (under token.new course.new) }
    {
        let word = token.word();
        let phase = token.view().phase;
        if word.unarrived >= 2 {
            let turn = Turn {
                kind: Kind::Arrive,
                tier: token.tier(),
                next: Progress::Idle,
                answer: Played::Done(phase),
            };
            return self.try_turn(token, course, turn, false);
        }
        if word.unarrived == 1 && token.tier() == 0 {
            let turn = Turn {
                kind: Kind::Arrive,
                tier: 0,
                next: Progress::Due(Passage::Arrival),
                answer: Played::MustAdvance(phase, word.parties),
            };
            return self.try_turn(token, course, turn, false);
        }
        self.pass_tier(
            token,
            course,
            Passage::Arrival,
            Passage::Arrival,
            Kind::Arrive,
        );
    }

    /// Takes the step of an arrival or a departure at its crew's tier. Makes at most one try.
    #[inline(always)]
    pub(crate) fn pass_own(&self, token: &mut Seated, course: &mut CallCourse, own: Passage)
        requires at { IsAt self.now (under token.old course.old) }
        requires passing { course.old.progress ≡ progress.Passing own }
        ensures { Ran self.now 1 (under token.old course.old) (under token.new course.new) }
    {
        let tier = token.view().tier;
        self.stand_to(token, course, tier);
        if !goes_on(course.progress) {
            return;
        }
        match own {
            Passage::Arrival => {
                self.pass_tier(
                    token,
                    course,
                    Passage::Arrival,
                    Passage::Arrival,
                    Kind::Arrive,
                )
            }
            Passage::Departure => {
                self.pass_tier(
                    token,
                    course,
                    Passage::Departure,
                    Passage::Departure,
                    Kind::Leave,
                )
            }
        }
    }

    /// Takes the step of an arrival at its crew's tier. Makes at most one try, and decides at once if others are still
    /// to arrive there.
    #[inline(always)]
    pub(crate) fn arrive_own(&self, token: &mut Seated, course: &mut CallCourse)
        requires at { IsAt self.now (under token.old course.old) }
        requires passing { course.old.progress ≡ progress.Passing Arrival }
        ensures { Ran self.now 1 (under token.old course.old) (under token.new course.new) }
    {
        let tier = token.view().tier;
        self.stand_to(token, course, tier);
        if !goes_on(course.progress) {
            return;
        }
        self.arrive_at(token, course);
    }

    /// Takes the next step of the call's climb. Makes at most one try.
    #[inline(always)]
    pub(crate) fn climb(&self, token: &mut Seated, course: &mut CallCourse, own: Passage)
        requires at { IsAt self.now (under token.old course.old) }
        requires owing { course.old.progress ≡ progress.Owing own }
        ensures { Ran self.now 1 (under token.old course.old) (under token.new course.new) }
    {
        let Errand::Climbing { tier, .. } = token.view().errand else {
            unreachable!()
        };
        self.stand_to(token, course, tier);
        if !goes_on(course.progress) {
            return;
        }
        let Errand::Climbing { passage, .. } = token.view().errand else {
            unreachable!()
        };
        match passage {
            Passage::Arrival => self.pass_tier(
                token,
                course,
                own,
                Passage::Arrival,
                Kind::Climb(Passage::Arrival),
            ),
            Passage::Departure => self.pass_tier(
                token,
                course,
                own,
                Passage::Departure,
                Kind::Climb(Passage::Departure),
            ),
        }
    }

    /// Takes the advance that is due. Makes at most one try.
    #[inline(always)]
    pub(crate) fn advance<F: Fn(u32, u32) -> bool>(
        &self,
        token: &mut Seated,
        course: &mut CallCourse,
        rule: &StoredAdvance<F>,
    )
        requires at { IsAt self.now (under token.old course.old) }
        requires due { (own : Passage) × (course.old.progress ≡ progress.Due own) }
        requires rule { Answers (F.pre rule.now.closure) (F.post rule.now.closure) (end_ends_at rule.now.plan) }
        requires plan { rule.now.plan ≡ self.now.key.plan }
        ensures { Ran self.now 1 (under token.old course.old) (under token.new course.new) }
    {
        self.stand_to(token, course, 0);
        if !goes_on(course.progress) {
            return;
        }
        let ends = self.planned(token, course, rule);
        let turn = Turn {
            kind: Kind::Advance(ends),
            tier: 0,
            next: Progress::Idle,
            answer: Played::Done(token.view().phase),
        };
        self.try_turn(token, course, turn, ends);
    }
}
