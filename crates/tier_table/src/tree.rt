//! The tree of phasers, shared by reference and called from any threads without a lock.
//!
//! A thread calls the tree by its tokens: a door has no members, a crew has some, all at one tier. `tries` limits how
//! many exchanges a call makes, since an exchange fails if another thread got there first. 16 is always enough for a
//! call that no other thread disturbs ([`TRIES`](crate::TRIES)); a call that ran out of tries says so, and hands its
//! token back. The calls in [`waiting`](crate::waiting) need no number of tries: they try until they have an answer.

ghost use Rattle.std.specs.Prelude.{◌≡◌, ◌<◌, ◌≤◌, ℕ, Some, IfOk, IfErr, All, length};
ghost use Rattle.tier_calls.specs.Closes.{held, plain_tokens, views_in, sights_in, TallyWithOthers, IsLeftBy};
ghost use Rattle.advance_rule.specs.Stored.{Answers};
ghost use Rattle.advance_rule.specs.Plan.{end_ends_at};
ghost use Rattle.tier_steps.specs.declared.view.Passage.TheVariants.{Arrival, Departure};
ghost use Rattle.tier_calls.specs.Holding.{IsSat, split_once};
ghost use Rattle.tier_table.specs.Ruled.{IsNew};
ghost use Rattle.tier_calls.specs.Arrives.{Arrives, FindsArrived, Resumes};
ghost use Rattle.tier_calls.specs.Arrives as arrives;
ghost use Rattle.tier_calls.specs.Made.{MadeOnly, HasLooked, is_entering};
ghost use Rattle.tier_calls.specs.Registers.{token_of, opened_of, Registers, EnteredBy, Opens};
ghost use Rattle.tier_calls.specs.Registers as registers;
ghost use Rattle.tier_calls.specs.JoinsHere.{JoinsHere};
ghost use Rattle.tier_calls.specs.Polls.{Polls};
ghost use Rattle.tier_calls.specs.Polls as polls;
ghost use Rattle.tier_calls.specs.Led.{LedWaited, LedOnWaited};
ghost use Rattle.tier_calls.specs.Waited.{PollWaited};
ghost use Rattle.tier_calls.specs.Forces.{Forces, ForcedBy};
ghost use Rattle.tier_calls.specs.Forces as forces;

use crate::closing::{CloseTreeFault, Closed};
use advance_rule::StoredAdvance;
use std::alloc::{AllocError, Global};
use std::marker::Model;
use tier_calls::arriving::{Arrived, Resumed};
use tier_calls::closing::plain_all;
use tier_calls::forcing::Forced;
use tier_calls::joining::{Opened, Registered};
use tier_calls::polling::Polled;
use tier_calls::tiers::Tiers;
use tier_calls::tokens::{Crew, Door, Errand, Opening, Token};
use tier_shape::Shape;
use tier_steps::view::Passage;

/// A tree of phasers: one atomic word for each tier, and the rule that says when the tree ends. Its calls take it
/// by shared reference, take no lock, and never wait.
///
/// ```
/// // Any threads may share the tree; each has its tokens.
/// let shape = Shape::from_widths(rt.alloc(), "2").expect(&rt, "a shape");
/// let plan = EndPlan {
///     when_empty: true,
///     at: None,
/// };
/// let rule = StoredAdvance::new(|_phase, parties| parties == 0, plan);
/// let (tree, door) = Tree::new(rt.alloc(), shape, 0, rule).expect(&rt, "memory");
/// assert!(rt; tree.shape().count() == 3);
/// // A member at tier 1; it is the only one, so its arrival takes the advance.
/// if let RegisteredAtLast::Joined(crew, _) = tree.register_wait(&rt, door, 1, 1) {
///     assert!(rt; matches!(tree.arrive_wait(&rt, crew), ArrivedAtLast::Done(_, 0, true)));
/// }
/// ```
#[derive(Drop)]
pub struct Tree<F: Fn(u32, u32) -> bool> {
    pub(crate) tiers: Tiers,
    pub(crate) rule: StoredAdvance<F>,
}

impl<F: Fn(u32, u32) -> bool> Model for Tree<F> {
    ghost use Rattle.std.specs.Prelude.{◌≡◌};
    ghost use Rattle.tier_table.specs.Ruled.{Ruled};

    ghost Value = { Ruled F };

    ghost view = { λ t. record { tree = t.tiers; rule = t.rule } };

    ghost invariant = { λ t. t.tiers.key.plan ≡ t.rule.plan };
}

impl<F: Fn(u32, u32) -> bool> Tree<F> {
    /// Creates a tree of empty tiers in `phase`, and its first token. The tree ends as `advance` says. Its closure is
    /// called once at each advance, by the thread that takes it, and must not call the tree.
    pub fn new(
        alloc: Global,
        shape: Shape,
        phase: u32,
        advance: StoredAdvance<F>,
    ) -> Result<(Tree<F>, Door), AllocError>
    where
        F: Drop,
        requires { phase ≤ 2147483647 }
        ensures { IfOk result (λ r. IsNew shape phase advance r.0 r.1) }
    {
        let (tiers, door) = Tiers::new(alloc, shape, phase, advance.plan())?;
        let tree = Tree {
            tiers,
            rule: advance,
        };
        Ok((tree, door))
    }

    /// Returns the shape of the tree.
    pub fn shape(&self) -> &Shape
        ensures { result.now ≡ self.now.tree.key.shape }
    {
        self.tiers.shape()
    }

    /// Splits a new token off `door`, a token of this tree. The new token has no members and is in the root's current
    /// phase. Give each thread a different token.
    pub fn split(&self, door: &mut Door) -> Door
        requires own { door.old.tree ≡ self.now.tree }
        ensures same { door.new ≡ split_once door.old }
        ensures new { IsSat self.now.tree result }
    {
        self.tiers.open_door(door)
    }

    /// Splits a new token off `crew`, a token of this tree. The new token has no members and is in the root's current
    /// phase.
    pub fn split_crew(&self, crew: &mut Crew) -> Door
        requires own { crew.old.tree ≡ self.now.tree }
        ensures same { crew.new ≡ split_once crew.old }
        ensures new { IsSat self.now.tree result }
    {
        self.tiers.open_beside(crew)
    }

    /// Registers `members` new members at `tier` by `door`, a token of this tree, with at most `tries` tries. If the
    /// tier is empty, first opens the path to it from the nearest tier above that has parties.
    ///
    /// * `Joined`: they have joined, and the crew has them.
    /// * `Held`: all parties of a tier on the path have arrived, so a newcomer has to wait for the next phase. Call again
    ///   later.
    /// * `Full`: a tier of the path has no room for them. Choose another tier, or wait until members have left.
    /// * `Ended`: the tree has ended, and nobody can join any more.
    /// * `Busy`: all tries failed and nothing changed. Call again.
    /// * `Owing`: all tries were used, and the path is half open. Call `resume_opening`: until then no other thread can
    ///   join there.
    pub fn register(&self, door: Door, tier: u16, members: u32, tries: u32) -> Registered
        requires own { door.tree ≡ self.now.tree }
        requires tier { tier < length self.now.tree.key.shape }
        requires members { (0 < members) × (members ≤ 65535) }
        ensures answer { Registers door tier members tries result }
        ensures made { EnteredBy result door.steps (token_of result).steps }
        ensures ended { (phase : ℕ) → door.view.end_seen ≡ Some phase → registers.HasEnded result }
    {
        self.tiers.join(door, tier, members, tries)
    }

    /// Resumes a registration that ran out of tries, with at most `tries` tries more. If the tree has ended before the
    /// members joined, releases the claimed tiers and returns `Ended`. Call again on `Owing`; the other answers are those
    /// of `register`.
    pub fn resume_opening(&self, opening: Opening, tries: u32) -> Opened
        requires own { opening.token.tree ≡ self.now.tree }
        ensures answer { Opens opening tries result }
        ensures made { MadeOnly is_entering opening.token.steps (opened_of result).steps }
        ensures ended { (phase : ℕ) → opening.token.view.end_seen ≡ Some phase → opening.token.view.size ≡ 0 → registers.IsEndedOrOwed result }
    {
        self.tiers.open_on(opening, tries)
    }

    /// Registers `members` new members by `door` at the tier of `crew`, both tokens of this tree, with at most `tries`
    /// tries, of both tokens together. A member of the crew has not arrived there, so the phase can't end meanwhile, and
    /// the call never returns `Held` or `Owing`. Call again on `Busy`.
    pub fn join_here(&self, crew: &mut Crew, door: Door, members: u32, tries: u32) -> Registered
        requires own { (crew.old.tree ≡ self.now.tree) × (door.tree ≡ self.now.tree) }
        requires unarrived { crew.old.view.arrived < crew.old.view.size }
        requires members { (0 < members) × (members ≤ 65535) }
        ensures answer { JoinsHere crew.old crew.new door members tries result }
        ensures made { EnteredBy result door.steps (token_of result).steps × HasLooked crew.old.steps crew.new.steps }
        ensures ended { (phase : ℕ) → door.view.end_seen ≡ Some phase → registers.HasEnded result }
        ensures crew_ended { (phase : ℕ) → crew.old.view.end_seen ≡ Some phase → registers.HasEnded result }
    {
        self.tiers.join_beside(crew, door, members, tries)
    }

    /// Lets a member of `crew`, a token of this tree, arrive, with at most `tries` tries. The flag `led` of an answer is
    /// true if the call itself took the advance of the tree.
    ///
    /// * `Done`: the member has arrived. If `led` is false, other parties may still have to arrive: call `poll`.
    /// * `AlreadyArrived`: all members had arrived in this phase before, and nobody was counted. Call `poll`.
    /// * `Ended`: the tree has ended, and nobody was counted. Stop.
    /// * `Busy`: all tries failed, and nobody was counted. Call again.
    /// * `Owing`: the member was counted, all tries were used, and the tiers above don't know of it yet. Call `resume`:
    ///   until then all others wait.
    /// * `Left`: never returned.
    pub fn arrive(&self, crew: Crew, tries: u32) -> Arrived
        requires own { crew.tree ≡ self.now.tree }
        requires rule { Answers (F.pre self.now.rule.closure) (F.post self.now.rule.closure) (end_ends_at self.now.rule.plan) }
        ensures answer { Arrives Arrival crew tries result }
        ensures waited { LedWaited result }
        ensures found { FindsArrived crew result }
        ensures ended { (phase : ℕ) → crew.view.end_seen ≡ Some phase → arrives.HasEnded result }
    {
        self.tiers.pass(crew, Passage::Arrival, &self.rule, tries)
    }

    /// Lets a member of `crew`, a token of this tree, leave, with at most `tries` tries. Its departure counts as its
    /// arrival. The answers are those of `arrive`, and `Left`, with a door, if the member was the last of the crew.
    pub fn arrive_and_deregister(&self, crew: Crew, tries: u32) -> Arrived
        requires own { crew.tree ≡ self.now.tree }
        requires rule { Answers (F.pre self.now.rule.closure) (F.post self.now.rule.closure) (end_ends_at self.now.rule.plan) }
        ensures answer { Arrives Departure crew tries result }
        ensures waited { LedWaited result }
        ensures found { FindsArrived crew result }
        ensures ended { (phase : ℕ) → crew.view.end_seen ≡ Some phase → arrives.HasEnded result }
    {
        self.tiers.pass(crew, Passage::Departure, &self.rule, tries)
    }

    /// Resumes an arrival or a departure that was counted but ran out of tries, with at most `tries` tries more. Call
    /// again on `Owing`.
    pub fn resume(&self, errand: Errand, tries: u32) -> Resumed
        requires own { errand.token.tree ≡ self.now.tree }
        requires rule { Answers (F.pre self.now.rule.closure) (F.post self.now.rule.closure) (end_ends_at self.now.rule.plan) }
        ensures answer { Resumes errand tries result }
        ensures waited { LedOnWaited result }
    {
        self.tiers.pass_on(errand, &self.rule, tries)
    }

    /// Checks whether the phase of `crew`, a token of this tree, is over. Doesn't wait. Brings the crew's tier into the
    /// root's phase if that tier lags, with at most one try.
    ///
    /// * `Passed`: the phase in which all members had arrived is over. Arrive in the next.
    /// * `Waiting`: all members have arrived, and other parties haven't. Call again later.
    /// * `Here`: a member has not arrived in this phase. Arrive first.
    /// * `Ended`: the tree has ended. Stop.
    pub fn poll(&self, crew: &mut Crew) -> Polled
        requires own { crew.old.tree ≡ self.now.tree }
        ensures tree { crew.new.tree ≡ crew.old.tree }
        ensures answer { Polls crew.old crew.new result }
        ensures waited { PollWaited crew.old crew.new result }
        ensures caught_up { polls.CaughtUpBy result crew.new }
        ensures ended { (phase : ℕ) → crew.old.view.end_seen ≡ Some phase → polls.HasEnded result }
    {
        self.tiers.poll(crew)
    }

    /// Ends the tree by `door`, a token of this tree, whoever has arrived, with at most `tries` tries. Returns `Ended` if
    /// the tree has ended, by this call or before. On `Busy` all tries failed and nothing changed: call again.
    pub fn force(&self, door: &mut Door, tries: u32) -> Forced
        requires own { door.old.tree ≡ self.now.tree }
        ensures tree { door.new.tree ≡ door.old.tree }
        ensures answer { Forces door.old tries door.new result }
        ensures made { ForcedBy result door.old.steps door.new.steps }
        ensures ended { (phase : ℕ) → door.old.view.end_seen ≡ Some phase → forces.HasEnded result }
    {
        self.tiers.force(door, tries)
    }

    /// Closes the tree, and returns the words of its tiers and what its tokens were. Pass the tokens of this tree that
    /// are left; those that were dropped count as others. If memory runs out, hands the tree and the tokens back.
    pub fn close(self, alloc: Global, tokens: Vec<Token>) -> Result<Closed, CloseTreeFault<F>>
    where
        F: Drop,
        requires own { All (λ t. (held t).tree ≡ self.tree) tokens.items }
        ensures tokens { IfOk result (λ c. c.tokens.items ≡ plain_tokens tokens.items) }
        ensures words { IfOk result (λ c. TallyWithOthers self.tree.key.shape c.words.items (views_in tokens.items)) }
        ensures left { IfOk result (λ c. IsLeftBy self.tree.key c.words.items (sights_in tokens.items)) }
        ensures refused { IfErr result (λ u. (u.tree ≡ self) × (u.tokens ≡ tokens)) }
    {
        let Ok(words) = Vec::with_capacity(alloc, self.tiers.shape().count()) else {
            return Err(CloseTreeFault { tree: self, tokens });
        };
        let Ok(mut plains) = Vec::with_capacity(alloc, tokens.len()) else {
            return Err(CloseTreeFault { tree: self, tokens });
        };
        plain_all(&tokens, &mut plains);
        let Tree { tiers, rule: _ } = self;
        Ok(Closed {
            words: tiers.close(tokens, words),
            tokens: plains,
        })
    }
}
