//! Calls that wait. Each repeats a call of the tree, [`TRIES`] tries at a time, until it has an answer that lasts, and
//! lets other threads run in between. A thread that waits for an advance, or until a tier takes newcomers, sleeps after some
//! time, and the step that ends its wait wakes it (`Tiers::pause`). That such a call returns is not part of its contract: others
//! may hold a tier for ever.
//!
//! A call whose name ends in `within` waits as long as its [`Patience`] lasts. The same call without a limit has the same loop.
//!
//! The functions take the tiers, and the rule if an advance may be due. [`Tree`] passes both.

ghost use Rattle.std.specs.Prelude.{◌≡◌, ◌<◌, ◌≤◌, ℕ, Some, length, List, IfErr, IfOk, MatchResult};
ghost use Rattle.advance_rule.specs.Stored.{Answers};
ghost use Rattle.advance_rule.specs.Plan.{end_ends_at};
ghost use Rattle.tier_steps.specs.declared.view.Passage.TheVariants.{Arrival, Departure};
ghost use Rattle.tier_calls.specs.Openings.{asked_tier, asked_size};
ghost use Rattle.tier_calls.specs.Holding.{Holding};
ghost use Rattle.tier_calls.specs.Arrives.{IsLooked, HasPassed};
ghost use Rattle.tier_calls.specs.Made.{MadeOnly, HasEntered, HasLooked, HasStepped, is_entering};
ghost use Rattle.tier_steps.specs.declared.kind.Kind.{Kind};
ghost use Rattle.tier_calls.specs.Led.{LedInPlaceWaited};
ghost use Rattle.tier_calls.specs.InPlace.{ArrivesInPlace};
ghost use Rattle.tier_calls.specs.InPlace as in_place;
ghost use Rattle.tier_table.specs.AtLast.{token_admitted, token_counted, steps_of, HasSplit, HasWaited, LedAtLast, PassedBy, ResumedBy, CaughtUpBy, RegistersAtLast, OpensAtLast, ArrivesAtLast, ResumesAtLast, AwaitsAdvance, AwaitsWithin, AwaitWaited, HasEndedJoin, HasEndedArrival, HasEndedWait};

use crate::tree::Tree;
use advance_rule::StoredAdvance;
use std::sync::Wait;
use std::thread;
use tier_calls::TRIES;
use tier_calls::arriving::{Arrived, Resumed};
use tier_calls::in_place::ArrivedInPlace;
use tier_calls::joining::{Opened, Registered};
use tier_calls::polling::Polled;
use tier_calls::tiers::Tiers;
use tier_calls::tokens::{Crew, Door, Errand, Opening};
pub use tier_calls::{Limited, Patience, TimedOut, Unlimited};
use tier_steps::view::Passage;

/// The answer of a registration that waits.
#[derive(Drop)]
pub enum RegisteredAtLast {
    /// The members have joined. The crew has them, and the number is its phase: arrive by the crew.
    Joined(Crew, u32),
    /// There is no room: a tier of the path has this many parties, and 65535 is the most. Nobody has joined. Try
    /// another tier, or wait until members have left.
    Full(Door, u32),
    /// The tree has ended, and shows this number as its phase, which is negative. Nobody has joined, and nobody can
    /// join any more.
    Ended(Door, i32),
}

/// The answer of an arrival or a departure that waits.
#[derive(Drop)]
pub enum ArrivedAtLast {
    /// One member has arrived, or has left, in this phase. The flag `led` is true if the call itself took the advance.
    /// If it is false, other parties may still have to arrive: call `await_advance`.
    Done(Crew, u32, bool),
    /// The last member has left, in this phase, so the token has no members now; `led` as for `Done`. Register by the
    /// door to take part again, or drop it.
    Left(Door, u32, bool),
    /// All members had arrived in this phase before, so the call counted nobody. Call `await_advance` first.
    AlreadyArrived(Crew, u32),
    /// The tree has ended, and shows this number as its phase, which is negative. The call counted nobody. Stop.
    Ended(Crew, i32),
}

/// The answer of a crew that waits for the next phase.
#[derive(Clone, Copy, PartialEq, Eq)]
pub enum AwaitedAdvance {
    /// The phase in which all members had arrived is over, and this is the next one. Arrive in it.
    Passed(u32),
    /// The call didn't wait, since a member has not arrived in this phase. Let each member arrive first.
    Here(u32),
    /// The tree has ended, and shows this number as its phase, which is negative. Stop.
    Ended(i32),
}

/// Resumes a registration that ran out of tries until it is over. Returns the door as an error if the members may not
/// join now: all parties of a tier on the path have arrived, so a newcomer has to wait for the next phase.
pub fn open_wait<R: Wait>(tiers: &Tiers, rt: &R, opening: Opening) -> Result<RegisteredAtLast, Door>
    requires own { opening.token.tree ≡ tiers.now }
    ensures answer { OpensAtLast tiers.now (asked_tier opening.token.view.errand) (asked_size opening.token.view.errand) result }
    ensures unsplit { HasSplit opening.token.opened result }
    ensures made { MadeOnly is_entering opening.token.steps (steps_of result) }
{
    let mut opening = opening;
    for _ in rt.forever() {
        match tiers.open_on(opening, TRIES) {
            Opened::Joined(crew, phase) => return Ok(RegisteredAtLast::Joined(crew, phase)),
            Opened::Full(door, count) => return Ok(RegisteredAtLast::Full(door, count)),
            Opened::Ended(door, shown) => return Ok(RegisteredAtLast::Ended(door, shown)),
            Opened::Held(door, _, _) => return Err(door),
            Opened::Owing(next) => opening = next,
        }
        thread::yield_now();
    }
    unreachable!()
}

// Tries once to register `members` members. If the tier is empty, opens the path to it. Returns the door as an error if
// the members may not join now, or the tries were used up. After that nobody wakes a thread, so the pauses begin anew.
fn join_once<R: Wait, P: Patience<R>>(
    tiers: &Tiers,
    rt: &R,
    door: Door,
    tier: u16,
    members: u32,
    patience: &mut P,
) -> Result<RegisteredAtLast, Door>
    requires own { door.tree ≡ tiers.now }
    requires tier { tier < length tiers.now.key.shape }
    requires members { (0 < members) × (members ≤ 65535) }
    ensures answer { OpensAtLast tiers.now tier members result }
    ensures unsplit { HasSplit door.opened result }
    ensures made { HasEntered door.steps (steps_of result) }
    ensures ended { (phase : ℕ) → door.view.end_seen ≡ Some phase → MatchResult result HasEndedJoin (λ next. ⊥) }
{
    match tiers.join(door, tier, members, TRIES) {
        Registered::Joined(crew, phase) => Ok(RegisteredAtLast::Joined(crew, phase)),
        Registered::Full(next, count) => Ok(RegisteredAtLast::Full(next, count)),
        Registered::Ended(next, shown) => Ok(RegisteredAtLast::Ended(next, shown)),
        Registered::Held(next, _, _) => Err(next),
        Registered::Busy(next) => {
            patience.restart();
            Err(next)
        }
        Registered::Owing(opening) => open_wait(tiers, rt, opening),
    }
}

/// Registers `members` new members at `tier`, as [`register_wait`] does, as long as `patience` lasts. Then returns the door as
/// an error: nobody has joined.
pub fn register_within<R: Wait, P: Patience<R> + Drop>(
    tiers: &Tiers,
    rt: &R,
    door: Door,
    tier: u16,
    members: u32,
    patience: P,
) -> Result<RegisteredAtLast, Door>
    requires own { door.tree ≡ tiers.now }
    requires tier { tier < length tiers.now.key.shape }
    requires members { (0 < members) × (members ≤ 65535) }
    ensures answer { OpensAtLast tiers.now tier members result }
    ensures unsplit { HasSplit door.opened result }
    ensures made { HasEntered door.steps (steps_of result) }
    ensures ended { (phase : ℕ) → door.view.end_seen ≡ Some phase → MatchResult result HasEndedJoin (λ next. ⊥) }
    ensures within { IfErr result (λ next. P.ends) }
{
    let mut door = door;
    let mut patience = patience;
    for _ in rt.forever() {
        match join_once(tiers, rt, door, tier, members, &mut patience) {
            Ok(answer) => return Ok(answer),
            Err(next) => door = next,
        }
        if tiers.pause(rt, &mut patience).is_err() {
            return Err(door);
        }
    }
    unreachable!()
}

/// Registers `members` new members at `tier`. If the tier is empty, first opens the path to it from the nearest tier
/// above that has parties. Tries again, and lets other threads run in between, while all parties of a tier on the path
/// have arrived: a newcomer then has to wait for the next phase.
pub fn register_wait<R: Wait>(
    tiers: &Tiers,
    rt: &R,
    door: Door,
    tier: u16,
    members: u32,
) -> RegisteredAtLast
    requires own { door.tree ≡ tiers.now }
    requires tier { tier < length tiers.now.key.shape }
    requires members { (0 < members) × (members ≤ 65535) }
    ensures answer { RegistersAtLast tiers.now tier members result }
    ensures unsplit { (token_admitted result).opened ≡ door.opened }
    ensures made { HasEntered door.steps (token_admitted result).steps }
    ensures ended { (phase : ℕ) → door.view.end_seen ≡ Some phase → HasEndedJoin result }
{
    match register_within(tiers, rt, door, tier, members, Unlimited::new()) {
        Ok(answer) => answer,
        Err(_) => unreachable!(),
    }
}

// Resumes an arrival or a departure that was counted, until it is over.
#[inline(always)]
pub(crate) fn resume_wait<R: Wait, F: Fn(u32, u32) -> bool>(
    tiers: &Tiers,
    rt: &R,
    errand: Errand,
    rule: &StoredAdvance<F>,
) -> ArrivedAtLast
    requires own { errand.token.tree ≡ tiers.now }
    requires rule { Answers (F.pre rule.now.closure) (F.post rule.now.closure) (end_ends_at rule.now.plan) }
    requires plan { rule.now.plan ≡ tiers.now.key.plan }
    ensures answer { ResumesAtLast errand.token result }
    ensures waited { LedAtLast result }
    ensures unsplit { (token_counted result).opened ≡ errand.token.opened }
    ensures made { ResumedBy errand.token.steps result }
{
    let mut errand = errand;
    for _ in rt.forever() {
        match tiers.pass_on(errand, rule, TRIES) {
            Resumed::Done(crew, phase, led) => return ArrivedAtLast::Done(crew, phase, led),
            Resumed::Left(door, phase, led) => return ArrivedAtLast::Left(door, phase, led),
            Resumed::Owing(next) => errand = next,
        }
        thread::yield_now();
    }
    unreachable!()
}

// Resumes an errand of this kind until it is over.
fn settle_wait<R: Wait, F: Fn(u32, u32) -> bool>(
    tiers: &Tiers,
    rt: &R,
    errand: Errand,
    own: Passage,
    rule: &StoredAdvance<F>,
) -> ArrivedAtLast
    requires own { errand.token.tree ≡ tiers.now }
    requires rule { Answers (F.pre rule.now.closure) (F.post rule.now.closure) (end_ends_at rule.now.plan) }
    requires plan { rule.now.plan ≡ tiers.now.key.plan }
    ensures answer { (h : Holding) → 0 < h.view.size → errand.token.tree ≡ h.tree → HasPassed own h.view errand.token.view → ArrivesAtLast own h result }
    ensures waited { LedAtLast result }
    ensures unsplit { (token_counted result).opened ≡ errand.token.opened }
    ensures made { (old : List Kind) → HasStepped own old errand.token.steps → PassedBy own old result }
{
    match resume_wait(tiers, rt, errand, rule) {
        ArrivedAtLast::Left(door, phase, led) => {
            // For the prover: a door has no members.
            let _ = door.phase();
            ArrivedAtLast::Left(door, phase, led)
        }
        answer => answer,
    }
}

// Tries once to let a member arrive or leave. Returns the crew as an error if the tries were used up.
fn pass_once<R: Wait, F: Fn(u32, u32) -> bool>(
    tiers: &Tiers,
    rt: &R,
    crew: Crew,
    own: Passage,
    rule: &StoredAdvance<F>,
) -> Result<ArrivedAtLast, Crew>
    requires own { crew.tree ≡ tiers.now }
    requires rule { Answers (F.pre rule.now.closure) (F.post rule.now.closure) (end_ends_at rule.now.plan) }
    requires plan { rule.now.plan ≡ tiers.now.key.plan }
    ensures some { 0 < crew.view.size }
    ensures answer { MatchResult result (λ a. ArrivesAtLast own crew a) (λ next. (next.tree ≡ crew.tree) × IsLooked crew.view next.view) }
    ensures waited { MatchResult result LedAtLast (λ next. Unit {0}) }
    ensures unsplit { MatchResult result (λ a. (token_counted a).opened ≡ crew.opened) (λ next. next.opened ≡ crew.opened) }
    ensures made { MatchResult result (λ a. PassedBy own crew.steps a) (λ next. HasWaited crew next) }
    ensures ended { (phase : ℕ) → crew.view.end_seen ≡ Some phase → MatchResult result HasEndedArrival (λ next. ⊥) }
{
    // For the prover: a crew has members.
    let _ = crew.size();
    match tiers.pass(crew, own, rule, TRIES) {
        Arrived::Done(crew, phase, led) => Ok(ArrivedAtLast::Done(crew, phase, led)),
        Arrived::Left(door, phase, led) => Ok(ArrivedAtLast::Left(door, phase, led)),
        Arrived::AlreadyArrived(crew, phase) => Ok(ArrivedAtLast::AlreadyArrived(crew, phase)),
        Arrived::Ended(crew, shown) => Ok(ArrivedAtLast::Ended(crew, shown)),
        Arrived::Busy(next) => Err(next),
        Arrived::Owing(errand) => Ok(settle_wait(tiers, rt, errand, own, rule)),
    }
}

/// Lets a member arrive or leave, whichever `own` says.
pub fn pass_wait<R: Wait, F: Fn(u32, u32) -> bool>(
    tiers: &Tiers,
    rt: &R,
    crew: Crew,
    own: Passage,
    rule: &StoredAdvance<F>,
) -> ArrivedAtLast
    requires own { crew.tree ≡ tiers.now }
    requires rule { Answers (F.pre rule.now.closure) (F.post rule.now.closure) (end_ends_at rule.now.plan) }
    requires plan { rule.now.plan ≡ tiers.now.key.plan }
    ensures answer { ArrivesAtLast own crew result }
    ensures waited { LedAtLast result }
    ensures unsplit { (token_counted result).opened ≡ crew.opened }
    ensures made { PassedBy own crew.steps result }
    ensures ended { (phase : ℕ) → crew.view.end_seen ≡ Some phase → HasEndedArrival result }
{
    let mut crew = crew;
    for _ in rt.forever() {
        match pass_once(tiers, rt, crew, own, rule) {
            Ok(answer) => return answer,
            Err(next) => crew = next,
        }
        thread::yield_now();
    }
    unreachable!()
}

/// Waits as [`await_advance`] does, as long as `patience` lasts. Then fails with `TimedOut`: the members have arrived, are still
/// registered, and their phase was not over at the last look.
pub fn await_within<R: Wait, P: Patience<R> + Drop>(
    tiers: &Tiers,
    rt: &R,
    crew: &mut Crew,
    patience: P,
) -> Result<AwaitedAdvance, TimedOut>
    requires own { crew.old.tree ≡ tiers.now }
    ensures tree { crew.new.tree ≡ crew.old.tree }
    ensures answer { AwaitsWithin crew.old crew.new result }
    ensures waited { IfOk result (AwaitWaited crew.old crew.new) }
    ensures unsplit { crew.new.opened ≡ crew.old.opened }
    ensures made { HasLooked crew.old.steps crew.new.steps }
    ensures caught_up { IfOk result (λ answer. CaughtUpBy answer crew.new) }
    ensures ended { (phase : ℕ) → crew.old.view.end_seen ≡ Some phase → MatchResult result HasEndedWait (λ fault. ⊥) }
    ensures within { IfErr result (λ fault. P.ends) }
{
    // For the prover: a crew has members.
    let _ = crew.size();
    let mut patience = patience;
    for _ in rt.forever() {
        match tiers.poll(crew) {
            Polled::Passed(phase) => return Ok(AwaitedAdvance::Passed(phase)),
            Polled::Here(phase) => return Ok(AwaitedAdvance::Here(phase)),
            Polled::Ended(shown) => return Ok(AwaitedAdvance::Ended(shown)),
            Polled::Waiting => {
                if tiers.pause(rt, &mut patience).is_err() {
                    return Err(TimedOut);
                }
            }
        }
    }
    unreachable!()
}

/// Waits until the phase in which all members of `crew` have arrived is over. Returns at once if a member has not
/// arrived, or the tree has ended.
pub fn await_advance<R: Wait>(tiers: &Tiers, rt: &R, crew: &mut Crew) -> AwaitedAdvance
    requires own { crew.old.tree ≡ tiers.now }
    ensures tree { crew.new.tree ≡ crew.old.tree }
    ensures answer { AwaitsAdvance crew.old crew.new result }
    ensures waited { AwaitWaited crew.old crew.new result }
    ensures unsplit { crew.new.opened ≡ crew.old.opened }
    ensures made { HasLooked crew.old.steps crew.new.steps }
    ensures caught_up { CaughtUpBy result crew.new }
    ensures ended { (phase : ℕ) → crew.old.view.end_seen ≡ Some phase → HasEndedWait result }
{
    match await_within(tiers, rt, crew, Unlimited::new()) {
        Ok(answer) => answer,
        Err(_) => unreachable!(),
    }
}

impl<F: Fn(u32, u32) -> bool> Tree<F> {
    /// Registers `members` new members at `tier` by `door`, a token of this tree. If the tier is empty, first opens the
    /// path to it from the nearest tier above that has parties. Tries again, and lets other threads run in between,
    /// while all parties of a tier on the path have arrived: a newcomer then has to wait for the next phase.
    ///
    /// That wait never ends if those parties wait in turn for the caller, as they do if another token of the caller's
    /// has a member that hasn't arrived. Such a caller registers by `join_here`.
    pub fn register_wait<R: Wait>(
        &self,
        rt: &R,
        door: Door,
        tier: u16,
        members: u32,
    ) -> RegisteredAtLast
        requires own { door.tree ≡ self.now.tree }
        requires tier { tier < length self.now.tree.key.shape }
        requires members { (0 < members) × (members ≤ 65535) }
        ensures answer { RegistersAtLast self.now.tree tier members result }
        ensures unsplit { (token_admitted result).opened ≡ door.opened }
        ensures made { HasEntered door.steps (token_admitted result).steps }
        ensures ended { (phase : ℕ) → door.view.end_seen ≡ Some phase → HasEndedJoin result }
    {
        register_wait(&self.tiers, rt, door, tier, members)
    }

    /// Lets a member of `crew`, a token of this tree, arrive. Never returns `Left`.
    ///
    /// It takes the crew and returns it, so that the crew can't be used while its call is under way. Use it if the crew
    /// is moved anyway, as between threads, or if the answer holds it. Otherwise use `arrive_in_place`, which has the
    /// same effect and moves nothing.
    pub fn arrive_wait<R: Wait>(&self, rt: &R, crew: Crew) -> ArrivedAtLast
        requires own { crew.tree ≡ self.now.tree }
        requires rule { Answers (F.pre self.now.rule.closure) (F.post self.now.rule.closure) (end_ends_at self.now.rule.plan) }
        ensures answer { ArrivesAtLast Arrival crew result }
        ensures waited { LedAtLast result }
        ensures unsplit { (token_counted result).opened ≡ crew.opened }
        ensures made { PassedBy Arrival crew.steps result }
        ensures ended { (phase : ℕ) → crew.view.end_seen ≡ Some phase → HasEndedArrival result }
    {
        pass_wait(&self.tiers, rt, crew, Passage::Arrival, &self.rule)
    }

    /// Lets a member of `crew`, a token of this tree, arrive. The crew isn't moved: this is `arrive_wait` for a caller
    /// that keeps its crew in a variable or in a list. It waits as `arrive_wait` does.
    #[inline]
    pub fn arrive_in_place<R: Wait>(&self, rt: &R, crew: &mut Crew) -> ArrivedInPlace
        requires own { crew.old.tree ≡ self.now.tree }
        requires rule { Answers (F.pre self.now.rule.closure) (F.post self.now.rule.closure) (end_ends_at self.now.rule.plan) }
        ensures answer { ArrivesInPlace crew.old crew.new result }
        ensures waited { LedInPlaceWaited crew.new result }
        ensures found { in_place.FindsArrived crew.old crew.new result }
        ensures ended { (phase : ℕ) → crew.old.view.end_seen ≡ Some phase → in_place.HasEnded result }
    {
        self.tiers.arrive_in_place(rt, crew, &self.rule)
    }

    /// Lets a member of `crew`, a token of this tree, leave. Its departure counts as its arrival. Returns `Left`, with a
    /// door, if the member was the last of the crew.
    pub fn leave_wait<R: Wait>(&self, rt: &R, crew: Crew) -> ArrivedAtLast
        requires own { crew.tree ≡ self.now.tree }
        requires rule { Answers (F.pre self.now.rule.closure) (F.post self.now.rule.closure) (end_ends_at self.now.rule.plan) }
        ensures answer { ArrivesAtLast Departure crew result }
        ensures waited { LedAtLast result }
        ensures unsplit { (token_counted result).opened ≡ crew.opened }
        ensures made { PassedBy Departure crew.steps result }
        ensures ended { (phase : ℕ) → crew.view.end_seen ≡ Some phase → HasEndedArrival result }
    {
        pass_wait(&self.tiers, rt, crew, Passage::Departure, &self.rule)
    }

    /// Waits until the phase in which all members of `crew`, a token of this tree, have arrived is over. Returns at once
    /// if a member has not arrived, or the tree has ended.
    ///
    /// A thread that sees `Passed` sees all that any member's thread did before it arrived in that phase.
    pub fn await_advance<R: Wait>(&self, rt: &R, crew: &mut Crew) -> AwaitedAdvance
        requires own { crew.old.tree ≡ self.now.tree }
        ensures tree { crew.new.tree ≡ crew.old.tree }
        ensures answer { AwaitsAdvance crew.old crew.new result }
        ensures waited { AwaitWaited crew.old crew.new result }
        ensures unsplit { crew.new.opened ≡ crew.old.opened }
        ensures made { HasLooked crew.old.steps crew.new.steps }
        ensures caught_up { CaughtUpBy result crew.new }
        ensures ended { (phase : ℕ) → crew.old.view.end_seen ≡ Some phase → HasEndedWait result }
    {
        await_advance(&self.tiers, rt, crew)
    }
}
