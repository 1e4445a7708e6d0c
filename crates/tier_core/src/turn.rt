//! The next step of a call: the tier that a token looks at, and the kind of step that it picks.

ghost use Rattle.std.specs.Prelude.{◌≡◌, ◌==◌, ℕ, Bool, List, if◌then◌else◌};
ghost use Rattle.tier_core.specs.declared.call.Call.TheVariants as call;
ghost use Rattle.tier_core.specs.Turn as spec;
ghost use Rattle.phaser_word.specs.Fields.{Fields};
ghost use Rattle.tier_steps.specs.declared.view.View.{View};
ghost use Rattle.tier_shape.specs.Parents.{parent_of};
ghost use Rattle.tier_steps.specs.View.{ancestor};
ghost use Rattle.tier_steps.specs.declared.view.Passage.TheVariants.{Arrival, Departure};
ghost use Rattle.tier_steps.specs.Tally.{word_at};
ghost use Rattle.tier_steps.specs.Step.{looked};
ghost use Rattle.tier_steps.specs.declared.kind.Kind.TheVariants.{Look};
ghost use Rattle.tier_shape.specs.Parents.{IsShape};
ghost use Rattle.tier_core.specs.Turn.{
  lags,
  has_no_room,
  is_refusing,
  is_claimable,
  cause_of,
  refusal,
  unless_claimed,
  settling,
  giving_back,
  seek_turn,
  settle_turn,
  give_back_turn,
  goes_on,
  reported,
  pass_turn,
  own_kind,
  climb_turn,
  polled,
  first_turn,
  claimed_by,
  errand_place,
  place,
  turn_by,
  turn,
  finish_turn,
  last_look,
  end_shown,
};

use crate::call::{Call, Cause, Played, Progress, Turn};
use phaser_word::{MOST_PARTIES, Word};
use tier_shape::Shape;
use tier_steps::kind::Kind;
use tier_steps::step::{errand_after, look, parties_added, refuse, word_passed};
use tier_steps::view::{Errand, Passage, View};

/// Returns the parent of a tier. The root's parent is the root.
pub fn above(shape: &Shape, tier: u16) -> u16
    requires { IsShape shape.now }
    ensures { result ≡ parent_of shape.now tier }
{
    shape.parent(tier).unwrap_or(0)
}

/// Returns the tier that is `steps` levels above another.
fn far_above(shape: &Shape, tier: u16, steps: u16) -> u16
    requires { IsShape shape.now }
    ensures { result ≡ ancestor shape.now tier steps }
{
    let mut at = tier;
    for _ in 0..steps {
        at = above(shape, at);
    }
    at
}

// The word of a tier past the last: empty, in phase 0.
const BLANK: Word = Word {
    phase: 0,
    parties: 0,
    unarrived: 1,
    ended: false,
};

/// Returns the word of a tier.
pub fn word_of(words: &[Word], tier: u16) -> Word
    ensures { result ≡ word_at words.now tier }
{
    words.get(usize::from(tier)).copied().unwrap_or(BLANK)
}

/// Returns true if the tier lags: its parties have all arrived, in another phase than the token's.
pub fn is_behind(word: Word, view: &View) -> bool
    ensures { result ≡ lags word view.now }
{
    word.parties > 0 && word.unarrived == 0 && word.phase != view.phase
}

/// Returns the answer `Ended` with the phase that an ended root shows.
fn shown_end(root: Word) -> Played
    ensures { result ≡ end_shown root }
{
    let root = Word {
        ended: true,
        ..root
    };
    Played::Ended(root.shown())
}

/// Returns true if the tier has no room for `parties` more.
fn lacks_room(parties: u32, word: Word) -> bool
    ensures { result ≡ has_no_room parties word }
{
    parties > MOST_PARTIES - word.parties
}

/// Returns true if a tier that has not ended refuses `parties` more: it has no room, all its parties have
/// arrived, or it is being opened.
pub fn turns_away(parties: u32, word: Word) -> bool
    ensures { result ≡ is_refusing parties word }
{
    lacks_room(parties, word) || word.unarrived == 0 || word.parties == 0 && word.unarrived == 2
}

/// Returns why a join is held off. `phase` is the phase of the call's last look at the root.
fn cause(tier: u16, phase: u32, word: Word) -> Cause
    ensures { result ≡ cause_of tier phase word }
{
    if word.unarrived != 0 {
        Cause::BeingOpened
    } else if tier == 0 {
        Cause::Advancing
    } else if word.phase == phase {
        Cause::AllArrived
    } else {
        Cause::Lagging
    }
}

/// Returns the answer of a refused join.
fn refused_answer(tier: u16, parties: u32, phase: u32, word: Word) -> Played
    ensures { result ≡ refusal tier parties phase word }
{
    if lacks_room(parties, word) {
        Played::Full(word.parties)
    } else {
        Played::Held(phase, cause(tier, phase, word))
    }
}

/// Returns `answer` if no claimed tier is left, else `GoesOn`.
fn if_last(claimed: u16, answer: Played) -> Played
    ensures { result ≡ unless_claimed claimed answer }
{
    if claimed == 0 { answer } else { Played::GoesOn }
}

/// Returns the look at the root with which a call ends.
fn look_last(answer: Played) -> Turn
    ensures { result ≡ last_look answer }
{
    Turn {
        kind: Kind::Look,
        tier: 0,
        next: Progress::Idle,
        answer,
    }
}

/// Returns how a join goes on after its members are admitted.
fn then_settle(claimed: u16) -> Progress
    ensures { result ≡ settling claimed }
{
    if claimed == 0 {
        Progress::Idle
    } else {
        Progress::Settling
    }
}

/// Returns how a join goes on after it is refused.
fn then_give_back(claimed: u16, answer: Played) -> Progress
    ensures { result ≡ giving_back claimed answer }
{
    if claimed == 0 {
        Progress::Idle
    } else {
        Progress::GivingBack(answer)
    }
}

/// Returns the step of a join with `claimed` claimed tiers that finds the tree ended.
fn seek_over(claimed: u16, root: Word) -> Turn
    ensures kind { result.kind ≡ Look }
    ensures tier { result.tier ≡ 0 }
    ensures next { result.next ≡ giving_back claimed (end_shown root) }
    ensures answer { result.answer ≡ unless_claimed claimed (end_shown root) }
{
    let answer = shown_end(root);
    Turn {
        kind: Kind::Look,
        tier: 0,
        next: then_give_back(claimed, answer),
        answer: if_last(claimed, answer),
    }
}

/// Returns the step of a join with `claimed` claimed tiers at the next tier of its path.
fn seek(tier: u16, claimed: u16, size: u32, at: u16, word: Word, view: View) -> Turn
    ensures { result ≡ seek_turn tier claimed size at word view }
{
    if word.ended {
        return seek_over(claimed, word);
    }
    let parties = parties_added(claimed, size);
    if turns_away(parties, word) {
        let answer = refused_answer(at, parties, refuse(at, word, view).phase, word);
        return Turn {
            kind: Kind::Refuse {
                tier,
                claimed,
                size,
            },
            tier: at,
            next: then_give_back(claimed, answer),
            answer: if_last(claimed, answer),
        };
    }
    if at > 0 && word.parties == 0 && word.unarrived == 1 {
        return Turn {
            kind: Kind::Claim {
                tier,
                claimed,
                size,
            },
            tier: at,
            next: Progress::Seeking { tier, size },
            answer: Played::GoesOn,
        };
    }
    Turn {
        kind: Kind::Join {
            tier,
            claimed,
            size,
        },
        tier: at,
        next: then_settle(claimed),
        answer: if_last(claimed, Played::Done(word.phase)),
    }
}

/// Returns the step that gives the highest claimed tier its parties, after a join.
fn settle(shape: &Shape, view: View) -> Turn
    requires { IsShape shape.now }
    ensures { result ≡ settle_turn shape.now view view.errand }
{
    match view.errand {
        Errand::Opening {
            tier,
            claimed,
            size,
            ..
        } if claimed > 0 => {
            let claimed = claimed - 1;
            Turn {
                kind: Kind::Settle {
                    tier,
                    claimed,
                    size,
                },
                tier: far_above(shape, tier, claimed),
                next: then_settle(claimed),
                answer: if_last(claimed, Played::Done(view.phase)),
            }
        }
        _ => look_last(Played::GoesOn),
    }
}

/// Returns the step that releases the highest claimed tier, after a refusal.
fn give_back(shape: &Shape, answer: Played, view: View) -> Turn
    requires { IsShape shape.now }
    ensures { result ≡ give_back_turn shape.now answer view.errand }
{
    match view.errand {
        Errand::Opening {
            tier,
            claimed,
            size,
            ..
        } if claimed > 0 => {
            let claimed = claimed - 1;
            Turn {
                kind: Kind::SettleBack {
                    tier,
                    claimed,
                    size,
                },
                tier: far_above(shape, tier, claimed),
                next: then_give_back(claimed, answer),
                answer: if_last(claimed, answer),
            }
        }
        _ => look_last(Played::GoesOn),
    }
}

/// Returns how an arrival or a departure goes on from what its token owes.
#[inline(always)]
pub fn then_climb(own: Passage, errand: Errand) -> Progress
    ensures { result ≡ goes_on own errand }
{
    match errand {
        Errand::Rest | Errand::Opening { .. } => Progress::Idle,
        Errand::Advancing => Progress::Due(own),
        Errand::Climbing { .. } => Progress::Owing(own),
    }
}

/// Returns the answer of a step that passes a tier, by what its token owes afterwards.
#[inline(always)]
pub fn passed_answer(phase: u32, parties: u32, errand: Errand) -> Played
    ensures { result ≡ reported phase parties errand }
{
    match errand {
        Errand::Rest => Played::Done(phase),
        Errand::Advancing => Played::MustAdvance(phase, parties),
        Errand::Climbing { .. } | Errand::Opening { .. } => Played::GoesOn,
    }
}

/// Returns the step of a call that passes a tier. If the tier lags, this refreshes it first.
fn pass(
    shape: &Shape,
    own: Passage,
    at: u16,
    passage: Passage,
    pass: Turn,
    word: Word,
    view: View,
) -> Turn
    requires { IsShape shape.now }
    ensures { result ≡ pass_turn shape.now own at passage pass.kind pass.next pass.answer word view }
{
    if word.ended {
        return look_last(pass.answer);
    }
    if is_behind(word, &view) {
        return Turn {
            kind: Kind::Refresh,
            tier: at,
            next: pass.next,
            answer: Played::GoesOn,
        };
    }
    let errand = errand_after(above(shape, at), at, passage, word);
    Turn {
        kind: pass.kind,
        tier: at,
        next: then_climb(own, errand),
        answer: passed_answer(view.phase, word_passed(at, passage, word).parties, errand),
    }
}

/// Returns the answer of a poll after its look at the root.
fn poll_answer(moved: bool, phase: u32) -> Played
    ensures { result ≡ polled moved phase }
{
    if moved {
        Played::Passed(phase)
    } else {
        Played::Done(phase)
    }
}

/// Returns the look of an arrival or a departure. `all` says whether all members had arrived in this phase.
fn look_passing(passage: Passage, all: bool, phase: u32) -> Turn
    ensures kind { result.kind ≡ Look }
    ensures tier { result.tier ≡ 0 }
    ensures next { result.next ≡ (if all then spec.Idle else spec.Passing passage) }
    ensures answer { result.answer ≡ (if all then spec.AlreadyArrived phase else spec.GoesOn) }
{
    if all {
        return look_last(Played::AlreadyArrived(phase));
    }
    Turn {
        kind: Kind::Look,
        tier: 0,
        next: Progress::Passing(passage),
        answer: Played::GoesOn,
    }
}

/// Returns the first look of an arrival or a departure.
fn look_before(passage: Passage, root: Word, view: View) -> Turn
    ensures kind { result.kind ≡ Look }
    ensures tier { result.tier ≡ 0 }
    ensures next { result.next ≡ (if root.ended then spec.Idle else (if (looked root view).arrived == view.size then spec.Idle else spec.Passing passage)) }
    ensures answer { result.answer ≡ (if root.ended then end_shown root else (if (looked root view).arrived == view.size then spec.AlreadyArrived (looked root view).phase else spec.GoesOn)) }
{
    if root.ended {
        return look_last(shown_end(root));
    }
    let size = view.size;
    let looked = look(root, view);
    look_passing(passage, looked.arrived == size, looked.phase)
}

/// Returns the first step of a poll.
fn poll(root: Word, own: Word, view: View) -> Turn
    ensures { result ≡ first_turn call.Poll root own view }
{
    if root.ended {
        return look_last(shown_end(root));
    }
    let size = view.size;
    let phase = view.phase;
    let looked = look(root, view);
    if looked.arrived == size {
        return look_last(Played::Waiting);
    }
    let moved = looked.phase != phase;
    if !is_behind(own, &looked) {
        return look_last(poll_answer(moved, looked.phase));
    }
    Turn {
        kind: Kind::Look,
        tier: 0,
        next: Progress::Refreshing(moved),
        answer: Played::GoesOn,
    }
}

/// Returns the first step of a join.
fn look_around(tier: u16, size: u32, root: Word) -> Turn
    ensures { (own : Fields) (v : View) → result ≡ first_turn (call.Join tier size) root own v }
{
    if root.ended {
        return look_last(shown_end(root));
    }
    let kind = if tier == 0 && turns_away(size, root) {
        Kind::Refuse {
            tier: 0,
            claimed: 0,
            size,
        }
    } else {
        Kind::Look
    };
    Turn {
        kind,
        tier: 0,
        next: Progress::Seeking { tier, size },
        answer: Played::GoesOn,
    }
}

/// Returns the first step of a call.
fn first(call: Call, root: Word, own: Word, view: View) -> Turn
    ensures { result ≡ first_turn call root own view }
{
    match call {
        Call::Join { tier, n } => look_around(tier, n, root),
        Call::Arrive => look_before(Passage::Arrival, root, view),
        Call::Leave => look_before(Passage::Departure, root, view),
        Call::Poll => poll(root, own, view),
        Call::Force => Turn {
            kind: Kind::Force,
            tier: 0,
            next: Progress::Idle,
            answer: shown_end(root),
        },
    }
}

/// Returns the number of tiers that an errand has claimed.
pub fn claims(errand: Errand) -> u16
    ensures { result ≡ claimed_by errand }
{
    match errand {
        Errand::Opening { claimed, .. } => claimed,
        Errand::Rest | Errand::Climbing { .. } | Errand::Advancing => 0,
    }
}

/// Returns the tier that an errand leads to next.
fn errand_tier(shape: &Shape, errand: Errand) -> u16
    requires { IsShape shape.now }
    ensures { result ≡ errand_place shape.now errand }
{
    match errand {
        Errand::Rest | Errand::Advancing => 0,
        Errand::Climbing { tier, .. } => tier,
        Errand::Opening { tier, claimed, .. } => {
            if claimed == 0 {
                0
            } else {
                far_above(shape, tier, claimed - 1)
            }
        }
    }
}

/// Returns the tier at which a call that has looked at the root takes its next step.
pub fn tier_of(shape: &Shape, progress: Progress, view: &View) -> u16
    requires { IsShape shape.now }
    ensures { result ≡ place shape.now progress view.now }
{
    match progress {
        Progress::Idle | Progress::Begun(_) | Progress::Due(_) => 0,
        Progress::Seeking { tier, .. } => far_above(shape, tier, claims(view.errand)),
        Progress::Passing(_) | Progress::Refreshing(_) => view.tier,
        Progress::Settling | Progress::GivingBack(_) | Progress::Owing(_) => {
            errand_tier(shape, view.errand)
        }
    }
}

/// Returns the next step of a climb.
fn climb(shape: &Shape, own: Passage, word: Word, view: View) -> Turn
    requires { IsShape shape.now }
    ensures { result ≡ climb_turn shape.now own word view view.errand }
{
    let Errand::Climbing { tier, passage } = view.errand else {
        return look_last(Played::GoesOn);
    };
    let step = Turn {
        kind: Kind::Climb(passage),
        tier,
        next: Progress::Owing(own),
        answer: Played::Done(view.phase),
    };
    pass(shape, own, tier, passage, step, word, view)
}

/// Returns the step of an arrival or a departure at its crew's tier.
fn pass_own(shape: &Shape, passage: Passage, word: Word, view: View) -> Turn
    requires { IsShape shape.now }
    ensures { result ≡ pass_turn shape.now passage view.tier passage (own_kind passage) (spec.Passing passage) (end_shown word) word view }
{
    let kind = match passage {
        Passage::Arrival => Kind::Arrive,
        Passage::Departure => Kind::Leave,
    };
    let step = Turn {
        kind,
        tier: view.tier,
        next: Progress::Passing(passage),
        answer: shown_end(word),
    };
    pass(shape, passage, view.tier, passage, step, word, view)
}

/// Returns the second step of a poll.
fn refresh(moved: bool, word: Word, view: View) -> Turn
    ensures { (parents : List ℕ) (ends : Bool) → result ≡ turn_by parents ends word (spec.Refreshing moved) view }
{
    let kind = if is_behind(word, &view) {
        Kind::Refresh
    } else {
        Kind::Glance
    };
    Turn {
        kind,
        tier: view.tier,
        next: Progress::Idle,
        answer: poll_answer(moved, view.phase),
    }
}

/// Returns the next step of a call that has looked at the root. `word` is the word of the tier at which it
/// takes that step. An advance ends the tree if `ends` is true. Before that look, and in no call, the step is a
/// look at the root.
pub fn turn_here(shape: &Shape, ends: bool, word: Word, progress: Progress, view: View) -> Turn
    requires { IsShape shape.now }
    ensures { result ≡ turn_by shape.now ends word progress view }
{
    match progress {
        Progress::Idle | Progress::Begun(_) => look_last(Played::GoesOn),
        Progress::Seeking { tier, size } => {
            let claimed = claims(view.errand);
            let at = far_above(shape, tier, claimed);
            seek(tier, claimed, size, at, word, view)
        }
        Progress::Settling => settle(shape, view),
        Progress::GivingBack(answer) => give_back(shape, answer, view),
        Progress::Passing(passage) => pass_own(shape, passage, word, view),
        Progress::Owing(own) => climb(shape, own, word, view),
        Progress::Due(_) => last_turn(ends, word, view),
        Progress::Refreshing(moved) => refresh(moved, word, view),
    }
}

/// Returns the next step of a call, however far it has come.
pub fn next_turn(shape: &Shape, words: &[Word], progress: Progress, view: View) -> Turn
    requires { IsShape shape.now }
    ensures { result ≡ turn shape.now words.now progress view }
{
    match progress {
        Progress::Idle | Progress::Due(_) => look_last(Played::GoesOn),
        Progress::Begun(call) => first(call, word_of(words, 0), word_of(words, view.tier), view),
        Progress::Seeking { .. }
        | Progress::Settling
        | Progress::GivingBack(_)
        | Progress::Passing(_)
        | Progress::Owing(_)
        | Progress::Refreshing(_) => {
            let word = word_of(words, tier_of(shape, progress, &view));
            turn_here(shape, false, word, progress, view)
        }
    }
}

/// Returns the advance that a token must take, or a look if the root has ended.
pub fn last_turn(ends: bool, root: Word, view: View) -> Turn
    ensures { result ≡ finish_turn ends root view }
{
    let kind = if root.ended {
        Kind::Look
    } else {
        Kind::Advance(ends)
    };
    Turn {
        kind,
        tier: 0,
        next: Progress::Idle,
        answer: Played::Done(view.phase),
    }
}
