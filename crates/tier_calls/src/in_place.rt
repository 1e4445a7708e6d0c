//! Arrivals that leave their crew in place. They repeat until they have an answer and let other threads run between
//! tries. Termination is not part of their contracts.

ghost use Rattle.std.specs.Prelude.{◌≡◌, ℕ, Some, true};
ghost use Rattle.advance_rule.specs.Stored.{Answers};
ghost use Rattle.advance_rule.specs.Plan.{end_ends_at};
ghost use Rattle.tier_core.specs.declared.call.Progress.TheVariants.{Passing};
ghost use Rattle.tier_steps.specs.declared.view.Passage.TheVariants.{Arrival};
ghost use Rattle.tier_calls.specs.Calls.{IsAt, under};
ghost use Rattle.tier_calls.specs.Next.{is_passing};
ghost use Rattle.tier_calls.specs.Goes.{WentOn};
ghost use Rattle.tier_calls.specs.Led.{LedInPlaceWaited};
ghost use Rattle.tier_calls.specs.InPlace.{ArrivesInPlace, FindsArrived, HasEnded, MayCome, Comes, RanOver};

use crate::TRIES;
use crate::going::CallCourse;
use crate::next::goes_on;
use crate::seated::Seated;
use crate::tiers::Tiers;
use crate::tokens::Crew;
use advance_rule::StoredAdvance;
use std::sync::Wait;
use std::thread;
use tier_core::call::{Played, Progress};
use tier_steps::view::Passage;

/// The answer of an arrival in place: [`Tiers::arrive_in_place`](crate::tiers::Tiers::arrive_in_place), and
/// `arrive_in_place` of `tier_table::Tree`.
#[derive(Clone, Copy, PartialEq, Eq)]
pub enum ArrivedInPlace {
    /// A member has arrived. To learn when the phase has passed, poll the crew.
    Done {
        /// The phase in which the member arrived.
        phase: u32,
        /// True if this call took the advance of that phase.
        led: bool,
    },
    /// All members had arrived in this phase before the call, which counted nothing. Arrive again once a poll answers
    /// that the phase has passed.
    AlreadyArrived(u32),
    /// The tree has ended and shows this phase, a negative number. Nothing was counted, and no later call on the tree
    /// counts anything.
    Ended(i32),
}

/// Returns the answer of an arrival that is over.
#[inline(always)]
fn answer_over(token: &Seated, course: CallCourse) -> ArrivedInPlace
    requires { MayCome (under token.now course) }
    ensures { Comes (under token.now course) result }
{
    let view = token.view();
    match course.answer {
        Played::Done(phase) => ArrivedInPlace::Done {
            phase,
            led: view.led,
        },
        Played::Ended(shown) => ArrivedInPlace::Ended(shown),
        _ => unreachable!(),
    }
}

impl Tiers {
    /// Takes the steps of an arrival until it is over.
    #[inline(never)]
    fn go_through<R: Wait, F: Fn(u32, u32) -> bool>(
        &self,
        rt: &R,
        token: &mut Seated,
        course: &mut CallCourse,
        rule: &StoredAdvance<F>,
    )
        requires at { IsAt self.now (under token.old course.old) }
        requires passing { is_passing course.old.progress ≡ true }
        requires rule { Answers (F.pre rule.now.closure) (F.post rule.now.closure) (end_ends_at rule.now.plan) }
        requires plan { rule.now.plan ≡ self.now.key.plan }
        ensures { RanOver self.now (under token.old course.old) (under token.new course.new) }
    {
        for _ in rt.forever() {
            self.go_on(token, course, rule, TRIES);
            if !goes_on(course.progress) {
                return;
            }
            thread::yield_now();
        }
        unreachable!()
    }

    /// Takes the step of an arrival at its crew's tier, and the advance if that is due then.
    #[inline(always)]
    fn begin_arrival<F: Fn(u32, u32) -> bool>(
        &self,
        token: &mut Seated,
        course: &mut CallCourse,
        rule: &StoredAdvance<F>,
    )
        requires at { IsAt self.now (under token.old course.old) }
        requires passing { course.old.progress ≡ Passing Arrival }
        requires rule { Answers (F.pre rule.now.closure) (F.post rule.now.closure) (end_ends_at rule.now.plan) }
        requires plan { rule.now.plan ≡ self.now.key.plan }
        ensures { (used : ℕ) × WentOn self.now used (under token.old course.old) (under token.new course.new) }
    {
        self.arrive_own(token, course);
        let Progress::Due(_) = course.progress else {
            return;
        };
        self.advance(token, course, rule);
    }

    /// Takes the steps of an arrival, beginning with the one at its crew's tier, until it is over. If that step, or the
    /// advance after it, is the last, this takes no loop.
    #[inline(always)]
    fn go_to_end<R: Wait, F: Fn(u32, u32) -> bool>(
        &self,
        rt: &R,
        token: &mut Seated,
        course: &mut CallCourse,
        rule: &StoredAdvance<F>,
    )
        requires at { IsAt self.now (under token.old course.old) }
        requires passing { course.old.progress ≡ Passing Arrival }
        requires rule { Answers (F.pre rule.now.closure) (F.post rule.now.closure) (end_ends_at rule.now.plan) }
        requires plan { rule.now.plan ≡ self.now.key.plan }
        ensures { RanOver self.now (under token.old course.old) (under token.new course.new) }
    {
        self.begin_arrival(token, course, rule);
        if !goes_on(course.progress) {
            return;
        }
        self.go_through(rt, token, course, rule);
    }

    /// Arrives with one member of the crew, as Java's `arrive`, and leaves the crew in place.
    ///
    /// Repeats until it has an answer, and lets other threads run after every 16 tries. Termination is not part of the
    /// contract. Doesn't wait for the phase to pass.
    pub fn arrive_in_place<R: Wait, F: Fn(u32, u32) -> bool>(
        &self,
        rt: &R,
        crew: &mut Crew,
        rule: &StoredAdvance<F>,
    ) -> ArrivedInPlace
        requires own { crew.old.tree ≡ self.now }
        requires rule { Answers (F.pre rule.now.closure) (F.post rule.now.closure) (end_ends_at rule.now.plan) }
        requires plan { rule.now.plan ≡ self.now.key.plan }
        ensures answer { ArrivesInPlace crew.old crew.new result }
        ensures waited { LedInPlaceWaited crew.new result }
        ensures found { FindsArrived crew.old crew.new result }
        ensures ended { (phase : ℕ) → crew.old.view.end_seen ≡ Some phase → HasEnded result }
    {
        let token = &mut crew.token;
        self.look_at_root(token);
        let word = token.word();
        if word.ended {
            return ArrivedInPlace::Ended(word.shown());
        }
        let view = token.view();
        if view.arrived == view.size {
            return ArrivedInPlace::AlreadyArrived(view.phase);
        }
        let mut course = CallCourse {
            progress: Progress::Passing(Passage::Arrival),
            answer: Played::GoesOn,
        };
        self.go_to_end(rt, token, &mut course, rule);
        answer_over(token, course)
    }
}
