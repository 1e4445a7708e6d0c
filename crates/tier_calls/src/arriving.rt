//! Arrivals and departures.

ghost use Rattle.std.specs.Prelude.{◌≡◌, ℕ, Some};
ghost use Rattle.advance_rule.specs.Stored.{Answers};
ghost use Rattle.advance_rule.specs.Plan.{end_ends_at};
ghost use Rattle.tier_calls.specs.Calls.{under};
ghost use Rattle.tier_calls.specs.Led.{LedWaited, LedOnWaited};
ghost use Rattle.tier_calls.specs.Arrives.{Arrives, FindsArrived, Resumes, HasEnded, MaySettle, MayEnd, Settles, Ends};

use crate::going::{CallCourse, Going};
use crate::seated::Seated;
use crate::tiers::Tiers;
use crate::tokens::{Crew, Door, Errand};
use advance_rule::StoredAdvance;
use tier_core::call::{Played, Progress};
use tier_steps::kind::Kind;
use tier_steps::view::Passage;

/// The answer of an arrival or a departure: [`Tiers::pass`](crate::tiers::Tiers::pass), and `arrive` and
/// `arrive_and_deregister` of `tier_table::Tree`.
///
/// `Done` and `Left` have counted the member, and so has `Owing`. The other answers have counted nothing. In `Done` and
/// `Left` the last field is `led`: true if this call took the advance.
pub enum Arrived {
    /// The member has arrived in this phase, or has left in it and others remain. To learn when the phase has passed,
    /// poll the crew.
    Done(Crew, u32, bool),
    /// The last member has left in this phase. The door can register new members.
    Left(Door, u32, bool),
    /// All members had arrived in this phase before the call. Arrive again once a poll answers that the phase has
    /// passed.
    AlreadyArrived(Crew, u32),
    /// The tree has ended and shows this phase, a negative number. No later call on it counts anything.
    Ended(Crew, i32),
    /// The tries ran out before the member was counted. Make the call again.
    Busy(Crew),
    /// The tries ran out after the member was counted: the tiers above don't know of it yet, or the root is still to
    /// advance. Everyone waits for that, so resume soon: [`Tiers::pass_on`](crate::tiers::Tiers::pass_on).
    Owing(Errand),
}

/// The answer of a resumed arrival or departure: [`Tiers::pass_on`](crate::tiers::Tiers::pass_on), and `resume` of
/// `tier_table::Tree`.
///
/// Its member was counted before. In `Done` and `Left` the last field is `led`: true if this call took the advance.
pub enum Resumed {
    /// The call is over. The member arrived in this phase, or left in it and others remain.
    Done(Crew, u32, bool),
    /// The call is over. The last member left in this phase. The door can register new members.
    Left(Door, u32, bool),
    /// The tries ran out again. Everyone waits for the rest of the call, so resume soon.
    Owing(Errand),
}

/// Joins a token and how far its call has come.
#[inline(always)]
fn going(token: Seated, course: CallCourse) -> Going
    ensures { result ≡ under token course }
{
    let CallCourse { progress, answer } = course;
    Going {
        token,
        progress,
        answer,
    }
}

/// Returns the answer of an arrival or a departure that is over or has run out of tries.
fn answer_settled(at: Going) -> Arrived
    requires { MaySettle at }
    ensures { Settles at result }
{
    let Going {
        token,
        progress,
        answer,
    } = at;
    let view = token.view();
    match progress {
        Progress::Owing(_) | Progress::Due(_) => Arrived::Owing(Errand {
            going: Going {
                token,
                progress,
                answer,
            },
        }),
        Progress::Passing(_) => Arrived::Busy(Crew { token }),
        _ => match answer {
            Played::Done(phase) if view.size == 0 => Arrived::Left(Door { token }, phase, view.led),
            Played::Done(phase) => Arrived::Done(Crew { token }, phase, view.led),
            Played::Ended(shown) => Arrived::Ended(Crew { token }, shown),
            _ => unreachable!(),
        },
    }
}

/// Returns the answer of a resumed arrival or departure that is over or has run out of tries.
fn answer_resumed(at: Going) -> Resumed
    requires { MayEnd at }
    ensures { Ends at result }
{
    let Going {
        token,
        progress,
        answer,
    } = at;
    let view = token.view();
    match progress {
        Progress::Owing(_) | Progress::Due(_) => Resumed::Owing(Errand {
            going: Going {
                token,
                progress,
                answer,
            },
        }),
        _ if view.size == 0 => Resumed::Left(Door { token }, view.phase, view.led),
        _ => Resumed::Done(Crew { token }, view.phase, view.led),
    }
}

impl Tiers {
    /// Arrives with one member, as Java's `arrive`, or deregisters it, as Java's `arriveAndDeregister`: `own` says which.
    /// Doesn't wait for the phase to pass. The last party to arrive advances the tree within this call.
    ///
    /// Makes at most `tries` tries; 16 are enough if no other token takes a step meanwhile. See [`Arrived`] for what to
    /// do after each answer.
    pub fn pass<F: Fn(u32, u32) -> bool>(
        &self,
        crew: Crew,
        own: Passage,
        rule: &StoredAdvance<F>,
        tries: u32,
    ) -> Arrived
        requires own { crew.tree ≡ self.now }
        requires rule { Answers (F.pre rule.now.closure) (F.post rule.now.closure) (end_ends_at rule.now.plan) }
        requires plan { rule.now.plan ≡ self.now.key.plan }
        ensures answer { Arrives own crew tries result }
        ensures waited { LedWaited result }
        ensures found { FindsArrived crew result }
        ensures ended { (phase : ℕ) → crew.view.end_seen ≡ Some phase → HasEnded result }
    {
        let Crew { mut token } = crew;
        self.look(&mut token, 0, Kind::Look);
        let word = token.word();
        let view = token.view();
        if word.ended {
            return Arrived::Ended(Crew { token }, word.shown());
        }
        if view.arrived == view.size {
            return Arrived::AlreadyArrived(Crew { token }, view.phase);
        }
        let mut course = CallCourse {
            progress: Progress::Passing(own),
            answer: Played::GoesOn,
        };
        self.go_straight(&mut token, &mut course, own, rule, tries);
        answer_settled(going(token, course))
    }

    /// Resumes an arrival or a departure that ran out of tries after its member was counted. Makes at most `tries`
    /// more; 16 are enough if no other token takes a step meanwhile. See [`Resumed`] for what to do after each answer.
    pub fn pass_on<F: Fn(u32, u32) -> bool>(
        &self,
        errand: Errand,
        rule: &StoredAdvance<F>,
        tries: u32,
    ) -> Resumed
        requires own { errand.token.tree ≡ self.now }
        requires rule { Answers (F.pre rule.now.closure) (F.post rule.now.closure) (end_ends_at rule.now.plan) }
        requires plan { rule.now.plan ≡ self.now.key.plan }
        ensures answer { Resumes errand tries result }
        ensures waited { LedOnWaited result }
    {
        let Errand { going: at } = errand;
        let Going {
            mut token,
            progress,
            answer,
        } = at;
        let mut course = CallCourse { progress, answer };
        self.go_owing(&mut token, &mut course, rule, tries);
        answer_resumed(going(token, course))
    }
}
