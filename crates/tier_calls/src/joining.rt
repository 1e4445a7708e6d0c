//! Registrations at any tier.

ghost use Rattle.std.specs.Prelude.{◌≡◌, ◌<◌, ◌≤◌, ℕ, Some, length};
ghost use Rattle.tier_calls.specs.Made.{MadeOnly, is_entering};
ghost use Rattle.tier_calls.specs.Registers.{token_of, opened_of, Registers, EnteredBy, Opens, HasEnded, IsEndedOrOwed, NoBusy, MayAnswer, AnswersJoin, SameAnswer};

use crate::going::Going;
use crate::tiers::Tiers;
use crate::tokens::{Crew, Door, Opening};
use phaser_word::MOST_PARTIES;
use tier_core::call::{Cause, Played, Progress};
use tier_core::turn::claims;
use tier_steps::kind::Kind;

/// The answer of a registration: [`Tiers::join`](crate::tiers::Tiers::join) and
/// [`Tiers::join_beside`](crate::tiers::Tiers::join_beside), and `register` and `join_here` of `tier_table::Tree`.
///
/// Only `Joined` has registered anybody. `Held`, `Full`, `Ended` and `Busy` return the door without members.
pub enum Registered {
    /// The members have registered, and are unarrived in this phase. They can arrive now.
    Joined(Crew, u32),
    /// The registration is held off in this phase, for this cause. Causes go away as other tokens take their steps:
    /// let other threads run and register again.
    Held(Door, u32, Cause),
    /// A tier of the path has this many parties already and would have over 65535. Register fewer members, or at
    /// another tier.
    Full(Door, u32),
    /// The tree has ended and shows this phase, a negative number. No later call on it counts anything.
    Ended(Door, i32),
    /// The tries ran out, and the registration has changed nothing. Register again.
    Busy(Door),
    /// The tries ran out while the path to the tier was opened or released. Nobody else can register at the claimed
    /// tiers meanwhile, so resume soon: [`Tiers::open_on`](crate::tiers::Tiers::open_on).
    Owing(Opening),
}

/// The answer of a resumed registration: [`Tiers::open_on`](crate::tiers::Tiers::open_on), and `resume_opening` of
/// `tier_table::Tree`.
///
/// Only `Joined` has registered anybody. All answers but `Owing` hold no tier any more.
pub enum Opened {
    /// The members have registered, and are unarrived in this phase. They can arrive now.
    Joined(Crew, u32),
    /// The registration is held off in this phase, for this cause. Causes go away as other tokens take their steps:
    /// let other threads run and register again.
    Held(Door, u32, Cause),
    /// A tier of the path has this many parties already and would have over 65535. Register fewer members, or at
    /// another tier.
    Full(Door, u32),
    /// The tree has ended and shows this phase, a negative number. No later call on it counts anything.
    Ended(Door, i32),
    /// The tries ran out again. Nobody else can register at the claimed tiers meanwhile, so resume soon.
    Owing(Opening),
}

/// Returns the answer of a join that is over or has run out of tries.
fn answer_join(at: Going) -> Registered
    requires { MayAnswer at }
    ensures { AnswersJoin at result }
{
    let Going {
        token,
        progress,
        answer,
    } = at;
    let view = token.view();
    match progress {
        Progress::Idle => match answer {
            Played::Done(phase) => Registered::Joined(Crew { token }, phase),
            Played::Held(phase, cause) => Registered::Held(Door { token }, phase, cause),
            Played::Full(count) => Registered::Full(Door { token }, count),
            Played::Ended(shown) => Registered::Ended(Door { token }, shown),
            _ => unreachable!(),
        },
        _ if claims(view.errand) == 0 => Registered::Busy(Door { token }),
        _ => Registered::Owing(Opening {
            going: Going {
                token,
                progress,
                answer,
            },
        }),
    }
}

/// Returns an answer other than `Busy` as that of a resumed registration.
fn answer_opening(answer: Registered) -> Opened
    requires { NoBusy answer }
    ensures { SameAnswer answer result }
{
    match answer {
        Registered::Joined(crew, phase) => Opened::Joined(crew, phase),
        Registered::Held(door, phase, cause) => Opened::Held(door, phase, cause),
        Registered::Full(door, count) => Opened::Full(door, count),
        Registered::Ended(door, shown) => Opened::Ended(door, shown),
        Registered::Owing(opening) => Opened::Owing(opening),
        Registered::Busy(_) => unreachable!(),
    }
}

impl Tiers {
    /// Registers `size` new members at a tier, as Java's `bulkRegister`. If the tier is empty, first opens the path from
    /// it to the nearest ancestor that has parties.
    ///
    /// Makes at most `tries` tries; 16 are enough if no other token takes a step meanwhile. See [`Registered`] for what
    /// to do after each answer.
    pub fn join(&self, door: Door, tier: u16, size: u32, tries: u32) -> Registered
        requires own { door.tree ≡ self.now }
        requires tier { tier < length self.now.key.shape }
        requires size { (0 < size) × (size ≤ MOST_PARTIES) }
        ensures answer { Registers door tier size tries result }
        ensures made { EnteredBy result door.steps (token_of result).steps }
        ensures ended { (phase : ℕ) → door.view.end_seen ≡ Some phase → HasEnded result }
    {
        let Door { mut token } = door;
        self.look(&mut token, 0, Kind::Look);
        let word = token.word();
        if word.ended {
            return Registered::Ended(Door { token }, word.shown());
        }
        let at = Going {
            token,
            progress: Progress::Seeking { tier, size },
            answer: Played::GoesOn,
        };
        answer_join(self.go_joining(at, tries))
    }

    /// Resumes a registration that ran out of tries. Makes at most `tries` more; 16 are enough if no other token takes
    /// a step meanwhile.
    ///
    /// If the token has seen that the tree ended before the members joined, releases the claimed tiers and returns
    /// `Ended`. See [`Opened`] for what to do after each answer.
    pub fn open_on(&self, opening: Opening, tries: u32) -> Opened
        requires own { opening.token.tree ≡ self.now }
        ensures answer { Opens opening tries result }
        ensures made { MadeOnly is_entering opening.token.steps (opened_of result).steps }
        ensures ended { (phase : ℕ) → opening.token.view.end_seen ≡ Some phase → opening.token.view.size ≡ 0 → IsEndedOrOwed result }
    {
        let Opening { going } = opening;
        answer_opening(answer_join(self.go_joining(going, tries)))
    }
}
