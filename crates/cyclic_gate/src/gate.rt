//! A gate: a cyclic barrier under a lock, at which threads wait, beside its action.
ghost use Rattle.std.specs.Prelude.{◌≡◌, ◌⊎◌, ◌↔◌, ◌<◌, ◌≤◌, ◌<ℤ◌, pos, IfOk, IfErr, MatchResult};
ghost use Rattle.advance_rule.specs.Action.{AnswersAction};
ghost use Rattle.cyclic_gate.specs.Steps.{answer, Breaks};
ghost use Rattle.cyclic_gate.specs.Runs.{AfterSome};
ghost use Rattle.cyclic_gate.specs.Seen.{RefusesAbandon};
ghost use Rattle.cyclic_gate.specs.Gate.{GivesTurn, GivesNoTurn, GivesTurnFor};
ghost use Rattle.cyclic_gate.specs.declared.call.Call.TheVariants.{Await, Abandon, BreakOff, Reset};

use crate::call::BarrierFault;
use crate::gate_state::GateState;
use advance_rule::StoredAction;
use std::alloc::Global;
use std::marker::Model;
use std::sync::Wait;
use std::time::{Clock, Duration};
use thiserror::Error;

/// Why a caller was given no turn.
#[derive(Clone, Copy, Debug, PartialEq, Eq, Error)]
pub enum GateFault {
    /// The barrier is broken, or broke while the caller waited. Stop, or call `reset` before the next turn.
    #[error("the barrier is broken")]
    Broken,
    /// The caller was the last, and the action failed. The barrier is broken now.
    #[error("the action failed")]
    ActionFailed,
    /// The caller already waits, in another thread. Nothing changed. Give each thread a different number.
    #[error("the caller waits already")]
    AlreadyWaiting,
    /// There was no memory, and nothing changed. The caller may try again.
    #[error("out of memory")]
    Memory,
    /// The time of the wait has passed, and the barrier is broken now. Only `await_turn_for` fails so.
    #[error("the time has passed")]
    TimedOut,
}

/// A cyclic barrier at which threads wait, with its action (Java SE 21, `CyclicBarrier`).
///
/// One lock guards the barrier and the ends of generations that some callers have still to read. At most one end is
/// kept for each call of `await_turn` that hasn't returned, however many generations there were. An end takes 24 bytes.
/// The last caller of a generation runs the action while it holds the lock, so the action must not call the gate. No
/// contract can say what the barrier was when a call took the lock. So the clauses say that some list of calls leaves a
/// barrier that answers so.
///
/// ```
/// // Each thread calls `await_turn` with a different number; the last to come gets 0.
/// let action = StoredAction::new(|_generation| false, None);
/// let gate = CyclicGate::new(rt.alloc(), 1, action).expect(&rt, "one party");
/// assert!(rt; gate.await_turn(&rt, 7) == Ok(0));
/// ```
#[derive(Drop)]
pub struct CyclicGate<F: Fn(u64) -> bool> {
    action: StoredAction<F>,
    state: GateState,
}

impl<F: Fn(u64) -> bool> Model for CyclicGate<F> {
    ghost use Rattle.std.specs.Prelude.{◌≡◌};
    ghost use Rattle.cyclic_gate.specs.Gate.{Gate};

    ghost Value = { Gate F };

    ghost view = { λ g. record { action = g.action; parties = g.state.parties } };

    ghost invariant = { λ g. g.action.plan ≡ g.state.fails };
}

impl<F: Fn(u64) -> bool> CyclicGate<F> {
    /// Creates a gate at which `parties` threads meet. The gate is in generation 0, and nobody waits. Fails with
    /// `NoParty` if `parties` is below 1, and with `TooMany` if it is above 65535.
    pub fn new(alloc: Global, parties: i64, action: StoredAction<F>) -> Result<Self, BarrierFault>
    where
        F: Drop,
        ensures parties { IfOk result (λ gate. pos gate.parties ≡ parties) }
        ensures action { IfOk result (λ gate. gate.action ≡ action) }
        ensures no_party { (result ≡ Err BarrierFault.NoParty) ↔ (parties <ℤ pos 1) }
        ensures too_many { (result ≡ Err BarrierFault.TooMany) ↔ (pos 65535 <ℤ parties) }
        ensures fault { IfErr result (λ e. (e ≡ BarrierFault.NoParty) ⊎ (e ≡ BarrierFault.TooMany)) }
    {
        let state = GateState::new(alloc, parties, action.fails())?;
        Ok(CyclicGate { action, state })
    }

    /// Returns how many parties meet, from 1 to 65535 (Java SE 21, `CyclicBarrier.getParties`).
    pub fn parties(&self) -> u32
        ensures answer { result ≡ self.now.parties }
        ensures range { (0 < result) × (result ≤ 65535) }
    {
        self.state.parties()
    }

    /// Waits as `caller` until all parties have arrived, and returns its arrival index: parties - 1 for the
    /// first, 0 for the last, which runs the action (Java SE 21, `CyclicBarrier.await`). Fails with `Broken`
    /// if the barrier is broken, or breaks while the caller waits; with `ActionFailed` if the caller ran the
    /// action and it failed; with `AlreadyWaiting` if the caller waits already.
    ///
    /// The code also returns `Broken` for a ledger of other parties or of another action, and for an index
    /// that isn't below the parties. Neither ever occurs.
    pub fn await_turn<R: Wait>(&self, rt: &R, caller: u32) -> Result<u32, GateFault>
        requires rule { AnswersAction (F.pre self.now.action.closure) (F.post self.now.action.closure) self.now.action.plan }
        ensures below { IfOk result (λ i. i < self.now.parties) }
        ensures turn { AfterSome self.now.parties self.now.action.plan (λ m. MatchResult result
            (λ i. GivesTurn i (answer self.now.action.plan (Await caller) m))
            (λ e. GivesNoTurn e (answer self.now.action.plan (Await caller) m))) }
    {
        self.state.await_turn(rt, caller, &self.action)
    }

    /// Waits as `await_turn` does, but no longer than `limit`. Then removes the caller, which breaks the barrier for all, and
    /// fails with `TimedOut`: the others' calls fail with `Broken`, and so do later ones until `reset` (Java SE 21,
    /// `CyclicBarrier.await` with a timeout). With a limit of 0 only the last caller doesn't break the barrier.
    pub fn await_turn_for<R: Wait + Clock>(
        &self,
        rt: &R,
        caller: u32,
        limit: Duration,
    ) -> Result<u32, GateFault>
        requires rule { AnswersAction (F.pre self.now.action.closure) (F.post self.now.action.closure) self.now.action.plan }
        ensures below { IfOk result (λ i. i < self.now.parties) }
        ensures turn { AfterSome self.now.parties self.now.action.plan (GivesTurnFor self.now.action.plan caller result) }
    {
        self.state.await_turn_for(rt, caller, &self.action, limit)
    }

    /// Removes a waiting caller, which breaks the barrier. Returns the others, whose calls fail with
    /// `Broken`, in order of arrival. The removed caller's `await_turn` fails with `Broken` too. (Java's
    /// `await` does this on an interrupt or a timeout.) Fails with `NotWaiting` if the caller doesn't wait.
    pub fn abandon<R: Wait>(&self, rt: &R, caller: u32) -> Result<Vec<u32>, BarrierFault>
        ensures answer { AfterSome self.now.parties self.now.action.plan (λ m. MatchResult result
            (λ l. answer self.now.action.plan (Abandon caller) m ≡ Breaks l.items)
            (λ e. RefusesAbandon e (answer self.now.action.plan (Abandon caller) m))) }
    {
        self.state.abandon(rt, caller)
    }

    /// Breaks the barrier. Returns the callers who waited, whose calls fail with `Broken`, in order of
    /// arrival. It needs no memory.
    pub fn break_off<R: Wait>(&self, rt: &R) -> Vec<u32>
        ensures answer { AfterSome self.now.parties self.now.action.plan (λ m.
            answer self.now.action.plan BreakOff m ≡ Breaks result.items) }
    {
        self.state.break_off(rt)
    }

    /// Starts the next generation, unbroken. Returns the callers who waited, whose calls fail with `Broken`,
    /// in order of arrival (Java SE 21, `CyclicBarrier.reset`). It needs no memory.
    pub fn reset<R: Wait>(&self, rt: &R) -> Vec<u32>
        ensures answer { AfterSome self.now.parties self.now.action.plan (λ m.
            answer self.now.action.plan Reset m ≡ Breaks result.items) }
    {
        self.state.reset(rt)
    }

    /// Returns how many ends of generations are kept for callers that waited and haven't been answered yet. It is
    /// never more than the calls of `await_turn` that haven't returned, however many generations there were.
    pub fn kept<R: Wait>(&self, rt: &R) -> usize {
        self.state.kept(rt)
    }
}
