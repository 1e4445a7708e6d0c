//! A barrier without its action: each call is one step.
ghost use Rattle.std.specs.Prelude.{◌≡◌, ◌⊎◌, ◌↔◌, true, ◌<◌, ◌≤◌, ◌+◌, ◌++◌, ◌∷◌, [], length, ◌<ℤ◌, pos, IfOk, IfErr, OnOk, OnErr, MatchResult, false};
ghost use Rattle.advance_rule.specs.Action.{AnswersAction};
ghost use Rattle.cyclic_gate.specs.Machine.{Machine, machine, fresh};
ghost use Rattle.cyclic_gate.specs.Steps.{answer, after, indexed, is_in, joined, renewed, Absent, Breaks, next_generation};
ghost use Rattle.cyclic_gate.specs.Seen.{answer_of, IsArrived, RefusesAwait, Ran, RanFor};
ghost use Rattle.cyclic_gate.specs.declared.call.Call.TheVariants.{Await, Abandon, BreakOff, Reset};

use crate::call::{Arrived, AwaitedStep, BarrierFault, MOST_PARTIES};
use advance_rule::StoredAction;
use std::alloc::{AllocError, Global};
use std::collections::HashSet;
use std::marker::Model;
use std::mem;

/// A barrier without its action: each arrival passes the action in. For a barrier that holds its action see
/// `BarrierCore`.
#[derive(Drop)]
pub struct BarrierState {
    parties: u32,
    generation: u64,
    waiting: Vec<u32>,
    // The same callers, so that one is found at once.
    callers: HashSet<u32>,
    broken: bool,
}

impl Model for BarrierState {
    ghost use Rattle.cyclic_gate.specs.Machine.{Machine, machine, IsBarrier};
    ghost use Rattle.cyclic_gate.specs.Found.{AreFound};

    ghost Value = { Machine };

    ghost view = { λ s. machine s.parties s.generation s.waiting.items s.broken };

    ghost invariant = { λ s. IsBarrier (machine s.parties s.generation s.waiting.items s.broken) × AreFound s.callers s.waiting.items };
}

// Returns the generation after this one.
fn generation_after(generation: u64) -> u64
    ensures { result ≡ next_generation generation }
{
    if generation == u64::MAX {
        0
    } else {
        generation + 1
    }
}

// Returns all callers with their arrival indices, `last` at the end.
fn with_indices(
    alloc: Global,
    parties: u32,
    waiting: &[u32],
    last: u32,
) -> Result<Vec<(u32, u32)>, AllocError>
    requires { length waiting.now + 1 ≡ parties }
    ensures { IfOk result (λ list. list.items ≡ indexed parties 0 (waiting.now ++ last ∷ [])) }
{
    let mut list = Vec::new(alloc);
    let mut next = parties;
    for caller in waiting {
        next -= 1;
        list.push((*caller, next))?;
    }
    list.push((last, 0))?;
    Ok(list)
}

impl BarrierState {
    /// Creates a barrier at which `parties` callers meet. It is in generation 0, and nobody waits. Fails with `NoParty`
    /// if `parties` is below 1, and with `TooMany` if it is above 65535.
    pub fn new(alloc: Global, parties: i64) -> Result<Self, BarrierFault>
        ensures fresh { IfOk result (λ s. (pos s.parties ≡ parties) × (s ≡ fresh s.parties)) }
        ensures no_party { (result ≡ Err BarrierFault.NoParty) ↔ (parties <ℤ pos 1) }
        ensures too_many { (result ≡ Err BarrierFault.TooMany) ↔ (pos 65535 <ℤ parties) }
        ensures fault { IfErr result (λ e. (e ≡ BarrierFault.NoParty) ⊎ (e ≡ BarrierFault.TooMany)) }
    {
        match u32::try_from(parties) {
            Ok(parties) if parties > MOST_PARTIES => Err(BarrierFault::TooMany),
            Ok(0) => Err(BarrierFault::NoParty),
            Ok(parties) => Ok(BarrierState {
                parties,
                generation: 0,
                waiting: Vec::new(alloc),
                callers: HashSet::new(alloc),
                broken: false,
            }),
            Err(_) if parties < 1 => Err(BarrierFault::NoParty),
            Err(_) => Err(BarrierFault::TooMany),
        }
    }

    /// Returns how many parties meet, from 1 to 65535 (Java SE 21, `CyclicBarrier.getParties`).
    pub fn parties(&self) -> u32
        ensures answer { result ≡ self.now.parties }
        ensures range { (0 < result) × (result ≤ 65535) }
    {
        self.parties
    }

    /// Returns the generation, counted from 0; after 18446744073709551615 comes 0.
    pub fn generation(&self) -> u64
        ensures { result ≡ self.now.generation }
    {
        self.generation
    }

    /// Returns how many callers wait (Java SE 21, `CyclicBarrier.getNumberWaiting`).
    pub fn waiting(&self) -> usize
        ensures answer { result ≡ length self.now.waiting }
        ensures range { (result < self.now.parties) × (self.now.parties ≤ 65535) }
    {
        self.waiting.len()
    }

    /// Returns true if the barrier is broken (Java SE 21, `CyclicBarrier.isBroken`). Then nobody waits.
    pub fn is_broken(&self) -> bool
        ensures answer { result ≡ self.now.broken }
        ensures nobody { self.now.broken ≡ true → self.now.waiting ≡ [] }
    {
        self.broken
    }

    /// Returns true if this caller waits.
    pub fn is_waiting(&self, caller: u32) -> bool
        ensures { result ≡ is_in caller self.now.waiting }
    {
        self.callers.contains(&caller)
    }

    // Lets one more caller wait.
    fn join(&mut self, caller: u32) -> Result<(), AllocError>
        requires capacity { length self.old.waiting + 1 < self.old.parties }
        requires whole { self.old.broken ≡ false }
        ensures ok { OnOk result (self.new ≡ joined caller self.old) }
        ensures err { OnErr result (self.new ≡ self.old) }
    {
        self.waiting.reserve(1)?;
        if self.callers.insert(caller).is_err() {
            return Err(AllocError);
        }
        self.waiting.push_reserved(caller);
        Ok(())
    }

    // Starts the next generation. Nobody waits in it.
    fn renew(&mut self)
        requires whole { self.old.broken ≡ false }
        ensures { self.new ≡ renewed self.old }
    {
        self.waiting.clear();
        self.callers.clear();
        self.generation = generation_after(self.generation);
    }

    // Arrives as the last caller, and runs the action.
    fn trip<F: Fn(u64) -> bool>(
        &mut self,
        action: &StoredAction<F>,
        caller: u32,
    ) -> Result<AwaitedStep, BarrierFault>
        requires rule { AnswersAction (F.pre action.now.closure) (F.post action.now.closure) action.now.plan }
        requires whole { self.old.broken ≡ false }
        requires last { length self.old.waiting + 1 ≡ self.old.parties }
        requires stranger { is_in caller self.old.waiting ≡ false }
        ensures answer { MatchResult result
            (λ a. answer action.now.plan (Await caller) self.old ≡ answer_of a)
            (λ e. e ≡ BarrierFault.Memory) }
        ensures state { MatchResult result
            (λ a. self.new ≡ after action.now.plan (Await caller) self.old)
            (λ e. self.new ≡ self.old) }
        ensures ran { IfOk result (Ran (F.post action.now.closure self.old.generation)) }
    {
        let alloc = *self.waiting.allocator();
        let Ok(list) = with_indices(alloc, self.parties, &self.waiting, caller) else {
            return Err(BarrierFault::Memory);
        };
        let failed = action.call(self.generation);
        if failed {
            return Ok(AwaitedStep::ActionFailed(self.break_off()));
        }
        self.renew();
        Ok(AwaitedStep::Tripped(list))
    }

    /// Arrives as `caller` (Java SE 21, `CyclicBarrier.await`). The last to arrive runs the action. Fails with
    /// `AlreadyWaiting` if and only if the caller waits already.
    pub fn await_step<F: Fn(u64) -> bool>(
        &mut self,
        action: &StoredAction<F>,
        caller: u32,
    ) -> Result<AwaitedStep, BarrierFault>
        requires rule { AnswersAction (F.pre action.now.closure) (F.post action.now.closure) action.now.plan }
        ensures answer { MatchResult result
            (λ a. answer action.now.plan (Await caller) self.old ≡ answer_of a)
            (λ e. RefusesAwait e (answer action.now.plan (Await caller) self.old)) }
        ensures state { MatchResult result
            (λ a. self.new ≡ after action.now.plan (Await caller) self.old)
            (λ e. self.new ≡ self.old) }
        ensures ran { IfOk result (Ran (F.post action.now.closure self.old.generation)) }
    {
        if self.broken {
            return Ok(AwaitedStep::Broken);
        }
        if self.is_waiting(caller) {
            return Err(BarrierFault::AlreadyWaiting);
        }
        let others = self.waiting.len() as u32;
        if others + 1 < self.parties {
            return match self.join(caller) {
                Ok(()) => Ok(AwaitedStep::Waits(self.parties - 1 - others)),
                Err(_) => Err(BarrierFault::Memory),
            };
        }
        self.trip(action, caller)
    }

    /// Arrives as `caller`, as `await_step` does, but returns no lists. So the last to arrive needs no memory. An
    /// earlier one needs some only if more callers wait than ever since the barrier last broke or was reset.
    pub fn arrive<F: Fn(u64) -> bool>(
        &mut self,
        action: &StoredAction<F>,
        caller: u32,
    ) -> Result<Arrived, BarrierFault>
        requires rule { AnswersAction (F.pre action.now.closure) (F.post action.now.closure) action.now.plan }
        ensures answer { MatchResult result
            (λ a. IsArrived a (answer action.now.plan (Await caller) self.old))
            (λ e. RefusesAwait e (answer action.now.plan (Await caller) self.old)) }
        ensures state { MatchResult result
            (λ a. self.new ≡ after action.now.plan (Await caller) self.old)
            (λ e. self.new ≡ self.old) }
        ensures ran { IfOk result (RanFor (F.post action.now.closure self.old.generation)) }
    {
        if self.broken {
            return Ok(Arrived::Broken);
        }
        if self.is_waiting(caller) {
            return Err(BarrierFault::AlreadyWaiting);
        }
        let others = self.waiting.len() as u32;
        if others + 1 < self.parties {
            return match self.join(caller) {
                Ok(()) => Ok(Arrived::Waits(self.parties - 1 - others)),
                Err(_) => Err(BarrierFault::Memory),
            };
        }
        if action.call(self.generation) {
            let _callers = self.break_off();
            return Ok(Arrived::ActionFailed);
        }
        self.renew();
        Ok(Arrived::Tripped)
    }

    /// Removes a waiting caller, which breaks the barrier. Returns the others, whose wait failed, in order of arrival.
    /// (Java's `await` does this on an interrupt or a timeout.) Fails with `NotWaiting` if and only if the caller doesn't
    /// wait.
    pub fn abandon(&mut self, caller: u32) -> Result<Vec<u32>, BarrierFault>
        ensures answer { MatchResult result
            (λ l. answer None (Abandon caller) self.old ≡ Breaks l.items)
            (λ e. (e ≡ BarrierFault.NotWaiting) × (answer None (Abandon caller) self.old ≡ Absent)) }
        ensures state { MatchResult result
            (λ l. self.new ≡ after None (Abandon caller) self.old)
            (λ e. self.new ≡ self.old) }
    {
        if !self.is_waiting(caller) {
            return Err(BarrierFault::NotWaiting);
        }
        let mut others = self.break_off();
        others.retain(|other| *other != caller);
        Ok(others)
    }

    /// Breaks the barrier. Returns the callers who waited, whose wait failed, in order of arrival.
    pub fn break_off(&mut self) -> Vec<u32>
        ensures answer { answer None BreakOff self.old ≡ Breaks result.items }
        ensures state { self.new ≡ after None BreakOff self.old }
    {
        self.broken = true;
        self.callers.clear();
        let alloc = *self.waiting.allocator();
        mem::replace(&mut self.waiting, Vec::new(alloc))
    }

    /// Starts the next generation, unbroken. Returns the callers who waited, whose wait failed, in order of arrival
    /// (Java SE 21, `CyclicBarrier.reset`).
    pub fn reset(&mut self) -> Vec<u32>
        ensures answer { answer None Reset self.old ≡ Breaks result.items }
        ensures state { self.new ≡ after None Reset self.old }
    {
        self.broken = false;
        self.generation = generation_after(self.generation);
        self.callers.clear();
        let alloc = *self.waiting.allocator();
        mem::replace(&mut self.waiting, Vec::new(alloc))
    }
}
