//! The tree of phasers as a pure machine: its words, its tokens and their calls.

ghost use Rattle.std.specs.Prelude.{◌≡◌, ◌≤◌, ◌<◌, length, true, false, if◌then◌else◌, Ok, Err, IfOk, OnOk, OnErr, IsErr, ◌↔◌, replicate};
ghost use Rattle.tier_core.specs.Run.{may_call};

use crate::call::{Answer, Call, NotNow, Played, Progress, Step, Turn};
use crate::turn::{above, last_turn, next_turn, word_of};
use advance_rule::EndPlan;
use phaser_word::{LAST_PHASE, Word};
use std::alloc::{AllocError, Global};
use std::marker::Model;
use tier_shape::Shape;
use tier_steps::step::{step_view, step_word};
use tier_steps::view::View;

/// A tree of phasers with its tokens.
///
/// A token has members, all registered at one tier, or none. Its number is the number of tokens that were
/// added before it. A token takes each call in steps, and steps of different tokens may come in any order.
/// The time of a step doesn't depend on the number of tokens.
///
/// [`begin`](Core::begin) starts a call, [`go`](Core::go) takes its next step, and
/// [`finish_advance`](Core::finish_advance) takes the advance after the answer `MustAdvance`. A call is over
/// after at most 16 steps.
///
/// ```
/// // A root and two leaves; the tree ends when nobody is left.
/// let shape = Shape::from_widths(rt.alloc(), "2").expect(&rt, "a shape");
/// let plan = EndPlan {
///     when_empty: true,
///     at: None,
/// };
/// let mut core = Core::new(rt.alloc(), shape, 0, plan).expect(&rt, "memory");
/// let token = core.add_token().expect(&rt, "memory");
/// assert!(rt; core.begin(token, Call::Join { tier: 1, n: 1 }).is_ok());
/// // Each step is one load or one compare-and-swap of a tier's word.
/// for _ in 0..16 {
///     if let Ok(Played::Done(phase)) = core.go(token) {
///         assert!(rt; phase == 0);
///     }
/// }
/// assert!(rt; core.root().parties == 1);
/// ```
#[derive(Drop)]
pub struct Core {
    shape: Shape,
    words: Vec<Word>,
    views: Vec<View>,
    calls: Vec<Progress>,
    plan: EndPlan,
}

impl Model for Core {
    ghost use Rattle.tier_core.specs.Machine.{State};

    ghost Value = { State };

    ghost use Rattle.tier_core.specs.CoreView.{core_of, IsCoreInside};

    ghost view = { core_of };

    ghost invariant = { IsCoreInside };
}

/// Returns true if a token with this view may begin the call in a tree of `tiers` tiers.
fn may_take(tiers: usize, call: Call, view: &View) -> bool
    ensures { result ≡ may_call tiers call view.now }
{
    match call {
        Call::Join { tier, .. } => usize::from(tier) < tiers && view.size == 0,
        Call::Arrive | Call::Leave | Call::Poll => view.size > 0,
        Call::Force => true,
    }
}

impl Core {
    ghost use Rattle.tier_core.specs.Machine.{State, IsCore, IsNext, view_at, turn_at, played, opened, with_token};
    ghost use Rattle.tier_core.specs.Run as spec;
    ghost use Rattle.tier_core.specs.Turn.{IsInRange};
    ghost use Rattle.tier_steps.specs.Tally.{word_at};
    ghost use Rattle.tier_shape.specs.Paths.{IsTiers};
    ghost use Rattle.tier_core.specs.Run.{may_begin, may_go, may_finish, finish_at, IsCall, after, IsStepOfCalls, AreSteps, answer_to, plan_ends, answers, run, IsFlat};
    ghost use Rattle.tier_steps.specs.Image.{image, LooksAlike};
    ghost use Rattle.flat_phaser.specs.Flat.{Flat};

    /// Creates a tree of this shape in `phase`, with empty tiers and no tokens. It ends at an advance if `plan`
    /// says so.
    pub fn new(alloc: Global, shape: Shape, phase: u32, plan: EndPlan) -> Result<Self, AllocError>
        requires { phase ≤ LAST_PHASE }
        ensures { IfOk result (λ c. c ≡ opened shape phase plan) }
    {
        let word = Word {
            phase,
            parties: 0,
            unarrived: 1,
            ended: false,
        };
        let words = vec![in alloc; word; shape.count()]?;
        Ok(Core {
            shape,
            words,
            views: Vec::new(alloc),
            calls: Vec::new(alloc),
            plan,
        })
    }

    /// Adds a token without members, in the root's phase, and returns its number: the number of tokens before.
    /// If memory runs out, the tree is unchanged.
    pub fn add_token(&mut self) -> Result<usize, AllocError>
        ensures token { IfOk result (λ token. token ≡ length self.old.views) }
        ensures added { OnOk result (self.new ≡ with_token self.old) }
        ensures memory { OnErr result (self.new ≡ self.old) }
    {
        let token = self.tokens();
        let phase = word_of(&self.words, 0).phase;
        self.calls.reserve(1)?;
        self.views.extend_from_slice(&[View::new(phase)])?;
        self.calls.push_reserved(Progress::Idle);
        Ok(token)
    }

    /// Takes a step of a token.
    fn play(&mut self, token: usize, turn: Turn)
        requires known { token < length self.old.views }
        requires next { IsNext self.old.parents self.old.words (view_at self.old.views token) turn.kind turn.tier turn.next }
        ensures { self.new ≡ played self.old token turn }
    {
        let tier = usize::from(turn.tier);
        let word = self.words[tier];
        let view = self.views[token];
        let parent = above(&self.shape, turn.tier);
        self.words[tier] = step_word(turn.kind, turn.tier, word, &view);
        self.views[token] = step_view(turn.kind, turn.tier, parent, word, view);
        self.calls[token] = turn.next;
    }

    /// Returns true if the token may begin the call.
    fn may_begin(&self, token: usize, call: Call) -> bool
        ensures { result ≡ may_begin self.now token call }
    {
        token < self.tokens()
            && matches!(self.calls[token], Progress::Idle)
            && may_take(self.tiers(), call, &self.views[token])
    }

    /// Returns true if the token has a step of its call to take.
    fn may_go(&self, token: usize) -> bool
        ensures { result ≡ may_go self.now token }
    {
        token < self.tokens() && !matches!(self.calls[token], Progress::Idle | Progress::Due(_))
    }

    /// Returns true if the token must advance the root. Its next step is then
    /// [`finish_advance`](Core::finish_advance).
    pub fn must_advance(&self, token: usize) -> bool
        ensures { result ≡ may_finish self.now token }
    {
        token < self.tokens() && matches!(self.calls[token], Progress::Due(_))
    }

    /// Begins a call of the token. Its steps follow by [`go`](Core::go).
    ///
    /// # Errors
    ///
    /// `NotNow` if there is no such token, if it is in a call, for a join if it has members or there is no such
    /// tier, and for an arrival, a departure or a poll if it has no members. The tree is unchanged.
    pub fn begin(&mut self, token: usize, call: Call) -> Result<(), NotNow>
        requires size { IsCall call }
        ensures not_now { IsErr result ↔ (may_begin self.old token call ≡ false) }
        ensures after { self.new ≡ after self.old (spec.Begin token call) }
    {
        if !self.may_begin(token, call) {
            return Err(NotNow);
        }
        self.calls[token] = Progress::Begun(call);
        Ok(())
    }

    /// Returns the next step of a token.
    fn turn(&self, token: usize) -> Turn
        requires { token < length self.now.views }
        ensures turn { result ≡ turn_at self.now token }
        ensures core { IsCore self.now }
    {
        next_turn(
            &self.shape,
            &self.words,
            self.calls[token],
            self.views[token],
        )
    }

    /// Takes exactly one step of the token's call. In the answer `MustAdvance` the phase is at most 2147483647
    /// and the parties at most 65535.
    ///
    /// # Errors
    ///
    /// `NotNow` if there is no such token, if it is in no call, or if it must advance the root. The tree is
    /// unchanged.
    pub fn go(&mut self, token: usize) -> Result<Played, NotNow>
        ensures not_now { IsErr result ↔ (may_go self.old token ≡ false) }
        ensures answer { IfOk result (λ a. a ≡ (turn_at self.old token).answer) }
        ensures range { IfOk result IsInRange }
        ensures after { self.new ≡ after self.old (spec.Go token) }
    {
        if !self.may_go(token) {
            return Err(NotNow);
        }
        let turn = self.turn(token);
        self.play(token, turn);
        Ok(turn.answer)
    }

    /// Takes the advance that the token must take. If `ends` is true, this ends the tree. If the tree has ended
    /// meanwhile, the step is a look.
    ///
    /// # Errors
    ///
    /// `NotNow` unless the token must advance the root. The tree is unchanged.
    pub fn finish_advance(&mut self, token: usize, ends: bool) -> Result<Played, NotNow>
        ensures not_now { IsErr result ↔ (may_finish self.old token ≡ false) }
        ensures answer { IfOk result (λ a. a ≡ (finish_at self.old token ends).answer) }
        ensures after { self.new ≡ (if may_finish self.old token then played self.old token (finish_at self.old token ends) else self.old) }
    {
        if !self.must_advance(token) {
            return Err(NotNow);
        }
        let turn = last_turn(ends, word_of(&self.words, 0), self.views[token]);
        self.play(token, turn);
        Ok(turn.answer)
    }

    /// Returns the number of tiers, from 1 to 64.
    pub fn tiers(&self) -> usize
        ensures value { result ≡ length self.now.parents }
        ensures few { result ≤ 64 }
        ensures shape { IsTiers self.now.parents }
    {
        self.shape.count()
    }

    /// Returns the word of the root.
    pub fn root(&self) -> Word
        ensures { result ≡ word_at self.now.words 0 }
    {
        let root = 0;
        word_of(&self.words, root)
    }

    /// Returns the number of tokens.
    pub fn tokens(&self) -> usize
        ensures { result ≡ length self.now.views }
    {
        self.views.len()
    }

    /// Returns the word of a tier.
    pub fn word(&self, tier: u16) -> Word
        requires { tier < length self.now.parents }
        ensures { result ≡ word_at self.now.words tier }
    {
        word_of(&self.words, tier)
    }

    /// Returns what the token with this number knows and owes.
    pub fn view(&self, number: usize) -> View
        requires { number < length self.now.views }
        ensures { result ≡ view_at self.now.views number }
    {
        self.views[number]
    }

    /// Takes one step of a run and returns its answer. An advance ends the tree if the plan says so.
    pub fn step(&mut self, step: Step) -> Answer
        requires { IsStepOfCalls step }
        ensures answer { result ≡ answer_to self.old step }
        ensures after { self.new ≡ after self.old step }
    {
        match step {
            Step::Begin(token, call) => match self.begin(token, call) {
                Ok(()) => Answer::Begun,
                Err(_) => Answer::NotNow,
            },
            Step::Go(token) => self.go(token).map_or(Answer::NotNow, Answer::Played),
            Step::Finish(token) => self.finish(token).map_or(Answer::NotNow, Answer::Played),
        }
    }

    /// Takes the advance that the token must take. It ends the tree if the plan says so.
    fn finish(&mut self, token: usize) -> Result<Played, NotNow>
        ensures not_now { IsErr result ↔ (may_finish self.old token ≡ false) }
        ensures answer { IfOk result (λ a. a ≡ (finish_at self.old token (plan_ends self.old)).answer) }
        ensures after { self.new ≡ after self.old (spec.Finish token) }
    {
        let root = word_of(&self.words, 0);
        let ends = self.plan.ends(root.phase, root.parties == 0);
        self.finish_advance(token, ends)
    }

    /// Takes a list of steps and returns the answer of each. If memory for the answers runs out, no step is taken.
    ///
    /// The tree is flat: on every tree, any steps of any tokens are a run of one flat phaser over all members of
    /// all tokens. A member counts from the step that admits it.
    pub fn drive(&mut self, alloc: Global, steps: &[Step]) -> Result<Vec<Answer>, AllocError>
        requires { AreSteps steps.now }
        ensures answers { IfOk result (λ v. v.items ≡ answers steps.now self.old) }
        ensures state { OnOk result (self.new ≡ run steps.now self.old) }
        ensures memory { OnErr result (self.new ≡ self.old) }
        ensures flat { (f : Flat) → LooksAlike f (image self.old.words self.old.views) → IsFlat self.old steps.now f }
    {
        // Only for the prover: brings in what every `Core` keeps.
        let _ = &self.shape;
        let mut reported = Vec::with_capacity(alloc, steps.len())?;
        for step in steps {
            reported.push_reserved(self.step(*step));
        }
        Ok(reported)
    }
}
