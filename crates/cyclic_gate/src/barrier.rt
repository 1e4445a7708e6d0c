//! The barrier with its action, as a value.
ghost use Rattle.std.specs.Prelude.{◌≡◌, ◌⊎◌, ◌↔◌, ◌<◌, ◌≤◌, true, [], length, ◌<ℤ◌, pos, IfOk, IfErr, MatchResult};
ghost use Rattle.advance_rule.specs.Action.{AnswersAction};
ghost use Rattle.cyclic_gate.specs.Machine.{Machine, fresh};
ghost use Rattle.cyclic_gate.specs.Steps.{answer, after, Absent, Breaks};
ghost use Rattle.cyclic_gate.specs.Seen.{Core, answer_of, RefusesAwait, Ran};
ghost use Rattle.cyclic_gate.specs.declared.call.Call.TheVariants.{Await, Abandon, BreakOff, Reset};

use crate::call::{AwaitedStep, BarrierFault};
use crate::state::BarrierState;
use advance_rule::StoredAction;
use std::alloc::Global;
use std::marker::Model;

/// A cyclic barrier with its action, as a value that one thread steps (Java SE 21, `CyclicBarrier`).
///
/// An arrival returns at once, and says whether its caller waits. The call that ends a generation returns one list of
/// everyone who waited.
///
/// ```
/// // The action never fails. Callers have numbers.
/// let action = StoredAction::new(|_generation| false, None);
/// let mut barrier = BarrierCore::new(rt.alloc(), 2, action).expect(&rt, "two parties");
/// assert!(rt; matches!(barrier.await_step(7), Ok(AwaitedStep::Waits(1))));
/// assert!(rt; matches!(barrier.await_step(9), Ok(AwaitedStep::Tripped(_))));
/// assert!(rt; barrier.generation() == 1);
/// ```
#[derive(Drop)]
pub struct BarrierCore<F: Fn(u64) -> bool> {
    action: StoredAction<F>,
    state: BarrierState,
}

impl<F: Fn(u64) -> bool> Model for BarrierCore<F> {
    ghost use Rattle.cyclic_gate.specs.Seen.{Core};

    ghost Value = { Core F };

    ghost view = { λ c. record { action = c.action; barrier = c.state } };
}

impl<F: Fn(u64) -> bool> BarrierCore<F> {
    /// Creates a barrier at which `parties` callers meet. It is in generation 0, and nobody waits. Fails with `NoParty`
    /// if `parties` is below 1, and with `TooMany` if it is above 65535.
    pub fn new(alloc: Global, parties: i64, action: StoredAction<F>) -> Result<Self, BarrierFault>
    where
        F: Drop,
        ensures fresh { IfOk result (λ core. (pos core.barrier.parties ≡ parties) × (core.barrier ≡ fresh core.barrier.parties)) }
        ensures action { IfOk result (λ core. core.action ≡ action) }
        ensures no_party { (result ≡ Err BarrierFault.NoParty) ↔ (parties <ℤ pos 1) }
        ensures too_many { (result ≡ Err BarrierFault.TooMany) ↔ (pos 65535 <ℤ parties) }
        ensures fault { IfErr result (λ e. (e ≡ BarrierFault.NoParty) ⊎ (e ≡ BarrierFault.TooMany)) }
    {
        let state = BarrierState::new(alloc, parties)?;
        Ok(BarrierCore { action, state })
    }

    /// Returns how many parties meet, from 1 to 65535 (Java SE 21, `CyclicBarrier.getParties`).
    pub fn parties(&self) -> u32
        ensures answer { result ≡ self.now.barrier.parties }
        ensures range { (0 < result) × (result ≤ 65535) }
    {
        self.state.parties()
    }

    /// Returns the generation, counted from 0; after 18446744073709551615 comes 0.
    pub fn generation(&self) -> u64
        ensures { result ≡ self.now.barrier.generation }
    {
        self.state.generation()
    }

    /// Returns how many callers wait (Java SE 21, `CyclicBarrier.getNumberWaiting`).
    pub fn waiting(&self) -> usize
        ensures { result ≡ length self.now.barrier.waiting }
    {
        self.state.waiting()
    }

    /// Returns true if the barrier is broken (Java SE 21, `CyclicBarrier.isBroken`). Then nobody waits.
    pub fn is_broken(&self) -> bool
        ensures answer { result ≡ self.now.barrier.broken }
        ensures nobody { self.now.barrier.broken ≡ true → self.now.barrier.waiting ≡ [] }
    {
        self.state.is_broken()
    }

    /// Arrives as `caller` (Java SE 21, `CyclicBarrier.await`). The last to arrive runs the action. Fails with
    /// `AlreadyWaiting` if and only if the caller waits already.
    pub fn await_step(&mut self, caller: u32) -> Result<AwaitedStep, BarrierFault>
        requires rule { AnswersAction (F.pre self.old.action.closure) (F.post self.old.action.closure) self.old.action.plan }
        ensures answer { MatchResult result
            (λ a. answer self.old.action.plan (Await caller) self.old.barrier ≡ answer_of a)
            (λ e. RefusesAwait e (answer self.old.action.plan (Await caller) self.old.barrier)) }
        ensures barrier { MatchResult result
            (λ a. self.new.barrier ≡ after self.old.action.plan (Await caller) self.old.barrier)
            (λ e. self.new.barrier ≡ self.old.barrier) }
        ensures ran { IfOk result (Ran (F.post self.old.action.closure self.old.barrier.generation)) }
        ensures action { self.new.action ≡ self.old.action }
    {
        self.state.await_step(&self.action, caller)
    }

    /// Removes a waiting caller, which breaks the barrier. Returns the others, whose wait failed, in order of arrival.
    /// (Java's `await` does this on an interrupt or a timeout.) Fails with `NotWaiting` if and only if the caller doesn't
    /// wait.
    pub fn abandon(&mut self, caller: u32) -> Result<Vec<u32>, BarrierFault>
        ensures answer { MatchResult result
            (λ l. answer self.old.action.plan (Abandon caller) self.old.barrier ≡ Breaks l.items)
            (λ e. (e ≡ BarrierFault.NotWaiting) × (answer self.old.action.plan (Abandon caller) self.old.barrier ≡ Absent)) }
        ensures barrier { MatchResult result
            (λ l. self.new.barrier ≡ after self.old.action.plan (Abandon caller) self.old.barrier)
            (λ e. self.new.barrier ≡ self.old.barrier) }
        ensures action { self.new.action ≡ self.old.action }
    {
        self.state.abandon(caller)
    }

    /// Breaks the barrier. Returns the callers who waited, whose wait failed, in order of arrival.
    pub fn break_off(&mut self) -> Vec<u32>
        ensures answer { answer self.old.action.plan BreakOff self.old.barrier ≡ Breaks result.items }
        ensures barrier { self.new.barrier ≡ after self.old.action.plan BreakOff self.old.barrier }
        ensures action { self.new.action ≡ self.old.action }
    {
        self.state.break_off()
    }

    /// Starts the next generation, unbroken. Returns the callers who waited, whose wait failed, in order of arrival
    /// (Java SE 21, `CyclicBarrier.reset`).
    pub fn reset(&mut self) -> Vec<u32>
        ensures answer { answer self.old.action.plan Reset self.old.barrier ≡ Breaks result.items }
        ensures barrier { self.new.barrier ≡ after self.old.action.plan Reset self.old.barrier }
        ensures action { self.new.action ≡ self.old.action }
    {
        self.state.reset()
    }
}
