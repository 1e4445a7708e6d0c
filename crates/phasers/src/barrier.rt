//! A cyclic barrier at which threads wait, whose calls have no preconditions.

ghost use Rattle.std.specs.Prelude.{◌≡◌, ◌⊎◌, ◌↔◌, ◌<◌, ◌≤◌, ◌<ℤ◌, pos, None, false, IfOk, IfErr, MatchResult};
ghost use Rattle.cyclic_gate.specs.Steps.{answer, Breaks};
ghost use Rattle.cyclic_gate.specs.Runs.{AfterSome};
ghost use Rattle.cyclic_gate.specs.Seen.{RefusesAbandon};
ghost use Rattle.cyclic_gate.specs.Gate.{GivesTurn, GivesNoTurn, GivesTurnFor};
ghost use Rattle.cyclic_gate.specs.declared.call.Call.TheVariants.{Await, Abandon, BreakOff, Reset};

pub use advance_rule::StoredAction;
pub use cyclic_gate::{BarrierCore, BarrierFault, BarrierState, CyclicGate, GateFault, GateState};
use std::alloc::Global;
use std::marker::Model;
use std::sync::Wait;
use std::time::{Clock, Duration};

/// An action at the end of each generation of a barrier (Java SE 21, the `barrierAction` of `CyclicBarrier`).
///
/// The last caller to arrive runs it before any caller passes. It runs under the barrier's lock, so it must not call the
/// barrier.
pub trait Action {
    /// Runs when all parties of `generation`, counted from 0, have arrived.
    fn run(&self, generation: u64);
}

/// Does nothing at the end of a generation.
#[derive(Clone, Copy)]
pub struct NoAction;

impl Action for NoAction {
    fn run(&self, _generation: u64) {}
}

/// A cyclic barrier at which threads wait, with an action or none (Java SE 21, `CyclicBarrier`).
///
/// Callers are known by numbers. Give each thread a different one. However many generations there are, the barrier
/// keeps at most one entry for each call of `await_turn` that hasn't returned. No contract can say what the barrier was
/// when a call took its lock. So the clauses say that some list of calls leaves a barrier that answers so.
///
/// ```
/// let barrier = Barrier::new(rt.alloc(), 1, NoAction).expect(&rt, "one party");
/// assert!(rt; barrier.await_turn(&rt, 7) == Ok(0));
/// ```
#[derive(Drop)]
pub struct Barrier<A: Action = NoAction> {
    action: A,
    state: GateState,
}

impl<A: Action> Model for Barrier<A> {
    ghost use Rattle.std.specs.Prelude.{◌≡◌, None, ℕ};

    ghost Value = { ℕ };

    ghost view = { λ b. b.state.parties };

    ghost invariant = { λ b. b.state.fails ≡ None };
}

impl<A: Action> Barrier<A> {
    /// Creates a barrier at which `parties` threads meet. It runs `action` at the end of each generation. Fails with
    /// `NoParty` if `parties` is below 1, and with `TooMany` if it is above 65535.
    pub fn new(alloc: Global, parties: i64, action: A) -> Result<Self, BarrierFault>
    where
        A: Drop,
        ensures parties { IfOk result (λ b. pos b ≡ parties) }
        ensures no_party { (result ≡ Err BarrierFault.NoParty) ↔ (parties <ℤ pos 1) }
        ensures too_many { (result ≡ Err BarrierFault.TooMany) ↔ (pos 65535 <ℤ parties) }
        ensures fault { IfErr result (λ e. (e ≡ BarrierFault.NoParty) ⊎ (e ≡ BarrierFault.TooMany)) }
    {
        let state = GateState::new(alloc, parties, None)?;
        Ok(Barrier { action, state })
    }

    /// Returns how many parties meet, from 1 to 65535 (Java SE 21, `CyclicBarrier.getParties`).
    pub fn parties(&self) -> u32
        ensures answer { result ≡ self.now }
        ensures range { (0 < result) × (result ≤ 65535) }
    {
        self.state.parties()
    }

    /// Waits as `caller` until all parties have arrived, and returns its arrival index: parties - 1 for the first, 0 for
    /// the last, which runs the action (Java SE 21, `CyclicBarrier.await`). Fails with `Broken` if the barrier is
    /// broken, or breaks while the caller waits, and with `AlreadyWaiting` if the caller waits already. The action
    /// doesn't fail, so `ActionFailed` never occurs.
    pub fn await_turn<R: Wait>(&self, rt: &R, caller: u32) -> Result<u32, GateFault>
        ensures below { IfOk result (λ i. i < self.now) }
        ensures turn { AfterSome self.now None (λ m. MatchResult result
            (λ i. GivesTurn i (answer None (Await caller) m))
            (λ e. GivesNoTurn e (answer None (Await caller) m))) }
    {
        let action = |generation: u64| -> bool
            ensures { result ≡ false }
        {
            self.action.run(generation);
            false
        };
        let stored = StoredAction::new(action, None);
        self.state.await_turn(rt, caller, &stored)
    }

    /// Waits as `await_turn` does, but no longer than `limit`. Then removes the caller, which breaks the barrier for all, and
    /// fails with `TimedOut`: the others' calls fail with `Broken`, and so do later ones until `reset` (Java SE 21,
    /// `CyclicBarrier.await` with a timeout).
    pub fn await_turn_for<R: Wait + Clock>(
        &self,
        rt: &R,
        caller: u32,
        limit: Duration,
    ) -> Result<u32, GateFault>
        ensures below { IfOk result (λ i. i < self.now) }
        ensures turn { AfterSome self.now None (GivesTurnFor None caller result) }
    {
        let action = |generation: u64| -> bool
            ensures { result ≡ false }
        {
            self.action.run(generation);
            false
        };
        let stored = StoredAction::new(action, None);
        self.state.await_turn_for(rt, caller, &stored, limit)
    }

    /// Removes a waiting caller, which breaks the barrier. Returns the others, whose calls fail with `Broken`, in order
    /// of arrival. The removed caller's `await_turn` fails with `Broken` too. (Java's `await` does this on an interrupt
    /// or a timeout.) Fails with `NotWaiting` if the caller doesn't wait.
    pub fn abandon<R: Wait>(&self, rt: &R, caller: u32) -> Result<Vec<u32>, BarrierFault>
        ensures answer { AfterSome self.now None (λ m. MatchResult result
            (λ l. answer None (Abandon caller) m ≡ Breaks l.items)
            (λ e. RefusesAbandon e (answer None (Abandon caller) m))) }
    {
        self.state.abandon(rt, caller)
    }

    /// Breaks the barrier. Returns the callers who waited, whose calls fail with `Broken`, in order of arrival. Call it
    /// when a thread gives up, so that no other waits for it. It needs no memory.
    pub fn break_off<R: Wait>(&self, rt: &R) -> Vec<u32>
        ensures answer { AfterSome self.now None (λ m. answer None BreakOff m ≡ Breaks result.items) }
    {
        self.state.break_off(rt)
    }

    /// Starts the next generation, unbroken. Returns the callers who waited, whose calls fail with `Broken`, in order of
    /// arrival (Java SE 21, `CyclicBarrier.reset`). It needs no memory.
    pub fn reset<R: Wait>(&self, rt: &R) -> Vec<u32>
        ensures answer { AfterSome self.now None (λ m. answer None Reset m ≡ Breaks result.items) }
    {
        self.state.reset(rt)
    }

    /// Returns how many ends of generations are kept for callers that waited and haven't been answered yet. It is never
    /// more than the calls of `await_turn` that haven't returned, however many generations there were.
    pub fn kept<R: Wait>(&self, rt: &R) -> usize {
        self.state.kept(rt)
    }
}
