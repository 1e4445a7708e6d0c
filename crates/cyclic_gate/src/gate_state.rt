//! The barrier under a lock, at which threads wait, without its action.
ghost use Rattle.std.specs.Prelude.{◌≡◌, ◌⊎◌, ◌↔◌, ◌<◌, ◌≤◌, ◌<ℤ◌, pos, Err, IfOk, IfErr, MatchResult};
ghost use Rattle.advance_rule.specs.Action.{AnswersAction};
ghost use Rattle.cyclic_gate.specs.Steps.{answer, Breaks};
ghost use Rattle.cyclic_gate.specs.Runs.{AfterSome};
ghost use Rattle.cyclic_gate.specs.Seen.{RefusesAbandon};
ghost use Rattle.cyclic_gate.specs.Ledger.{booked};
ghost use Rattle.cyclic_gate.specs.Gate.{GivesTurn, GivesNoTurn, GivesTurnFor, IsArrival, RefusesArrival, left_by};
ghost use Rattle.cyclic_gate.specs.declared.call.Call.TheVariants.{Await, Abandon, BreakOff, Reset};

use crate::call::{Arrived, BarrierFault};
use crate::gate::GateFault;
use crate::ledger::{Ledger, Outcome};
use advance_rule::StoredAction;
use std::alloc::Global;
use std::marker::Model;
use std::sync::{Condvar, CondvarTimeouts, Mutex, Wait};
use std::time::{Clock, Duration};

// How an arrival goes on.
#[derive(Clone, Copy)]
enum Arrival {
    // The caller waits with this index for the end of this generation.
    Waits(u32, u64),
    // The caller is the last, with this index.
    Last(u32),
}

// Returns the turn of a caller whose wait ended in this way.
fn turn_after(end: Outcome, index: u32, parties: u32) -> Result<u32, GateFault>
    ensures ok { IfOk result (λ i. (i ≡ index) × (i < parties) × (end ≡ Outcome.Tripped)) }
    ensures broken { IfErr result (λ e. (e ≡ GateFault.Broken) × ((end ≡ Outcome.Tripped) → parties ≤ index)) }
{
    match end {
        Outcome::Tripped if index < parties => Ok(index),
        _ => Err(GateFault::Broken),
    }
}

/// A cyclic barrier at which threads wait, without its action: each arrival passes the action in. For a gate
/// that holds its action see `CyclicGate`.
///
/// The barrier is under one lock, beside the ends of generations that some callers have still to read. The last caller of a generation runs the
/// action while it holds the lock, so the action must not call the gate. No contract can say what the barrier
/// was when a call took the lock. So the clauses say that some list of calls leaves a barrier that answers so.
///
/// ```
/// let gate = GateState::new(rt.alloc(), 1, None).expect(&rt, "one party");
/// // The action is passed in at each arrival; the last caller runs it.
/// let action = StoredAction::new(|_generation| false, None);
/// assert!(rt; gate.await_turn(&rt, 7, &action) == Ok(0));
/// ```
#[derive(Drop)]
pub struct GateState {
    alloc: Global,
    parties: u32,
    fails: Option<u64>,
    ledger: Mutex<Ledger>,
    ended: Condvar,
}

impl Model for GateState {
    ghost use Rattle.std.specs.Prelude.{◌<◌, ◌≤◌};
    ghost use Rattle.cyclic_gate.specs.Gate.{GatePlan};

    ghost Value = { GatePlan };

    ghost view = { λ s. record { parties = s.parties; fails = s.fails } };

    ghost invariant = { λ s. (0 < s.parties) × (s.parties ≤ 65535) };
}

impl GateState {
    /// Creates a gate at which `parties` threads meet. Its action fails in generation `fails`. The gate is in
    /// generation 0, and nobody waits. Fails with `NoParty` if `parties` is below 1, and with `TooMany` if it is above
    /// 65535.
    pub fn new(alloc: Global, parties: i64, fails: Option<u64>) -> Result<Self, BarrierFault>
        ensures parties { IfOk result (λ gate. pos gate.parties ≡ parties) }
        ensures fails { IfOk result (λ gate. gate.fails ≡ fails) }
        ensures no_party { (result ≡ Err BarrierFault.NoParty) ↔ (parties <ℤ pos 1) }
        ensures too_many { (result ≡ Err BarrierFault.TooMany) ↔ (pos 65535 <ℤ parties) }
        ensures fault { IfErr result (λ e. (e ≡ BarrierFault.NoParty) ⊎ (e ≡ BarrierFault.TooMany)) }
    {
        let ledger = Ledger::new(alloc, parties, fails)?;
        let parties = ledger.parties();
        Ok(GateState {
            alloc,
            parties,
            fails,
            ledger: Mutex::new(ledger),
            ended: Condvar::new(),
        })
    }

    /// Returns how many parties meet, from 1 to 65535 (Java SE 21, `CyclicBarrier.getParties`).
    pub fn parties(&self) -> u32
        ensures answer { result ≡ self.now.parties }
        ensures range { (0 < result) × (result ≤ 65535) }
    {
        self.parties
    }

    /// Waits as `caller` until all parties have arrived, and returns its arrival index: parties - 1 for the
    /// first, 0 for the last, which runs the action (Java SE 21, `CyclicBarrier.await`). Fails with `Broken`
    /// if the barrier is broken, or breaks while the caller waits; with `ActionFailed` if the caller ran the
    /// action and it failed; with `AlreadyWaiting` if the caller waits already.
    ///
    /// The code also returns `Broken` for a ledger of other parties or of another action, and for an index
    /// that isn't below the parties. Neither ever occurs.
    pub fn await_turn<R: Wait, F: Fn(u64) -> bool>(
        &self,
        rt: &R,
        caller: u32,
        action: &StoredAction<F>,
    ) -> Result<u32, GateFault>
        requires rule { AnswersAction (F.pre action.now.closure) (F.post action.now.closure) action.now.plan }
        requires plan { action.now.plan ≡ self.now.fails }
        ensures below { IfOk result (λ i. i < self.now.parties) }
        ensures turn { AfterSome self.now.parties self.now.fails (λ m. MatchResult result
            (λ i. GivesTurn i (answer self.now.fails (Await caller) m))
            (λ e. GivesNoTurn e (answer self.now.fails (Await caller) m))) }
    {
        let mut ledger = self.ledger.lock(rt);
        if !ledger.is_of(self.parties, self.fails) {
            return Err(GateFault::Broken);
        }
        match self.arrive(&mut ledger, caller, action)? {
            Arrival::Last(index) => Ok(index),
            Arrival::Waits(index, generation) => {
                let mut ledger = self.ended.wait_while(rt, ledger, |ledger| {
                    ledger.end_of(generation) == Outcome::GoesOn
                });
                turn_after(ledger.read_end(generation), index, self.parties)
            }
        }
    }

    /// Waits as `await_turn` does, but no longer than `limit`. Then removes the caller, which breaks the barrier for all, and
    /// fails with `TimedOut` (Java SE 21, `CyclicBarrier.await` with a timeout).
    pub fn await_turn_for<R: Wait + Clock, F: Fn(u64) -> bool>(
        &self,
        rt: &R,
        caller: u32,
        action: &StoredAction<F>,
        limit: Duration,
    ) -> Result<u32, GateFault>
        requires rule { AnswersAction (F.pre action.now.closure) (F.post action.now.closure) action.now.plan }
        requires plan { action.now.plan ≡ self.now.fails }
        ensures below { IfOk result (λ i. i < self.now.parties) }
        ensures turn { AfterSome self.now.parties self.now.fails (GivesTurnFor self.now.fails caller result) }
    {
        let mut ledger = self.ledger.lock(rt);
        if !ledger.is_of(self.parties, self.fails) {
            return Err(GateFault::Broken);
        }
        match self.arrive(&mut ledger, caller, action)? {
            Arrival::Last(index) => Ok(index),
            Arrival::Waits(index, generation) => {
                let (mut ledger, waited) = self.ended.wait_timeout_while(
                    rt,
                    ledger,
                    limit,
                    |ledger| { ledger.end_of(generation) == Outcome::GoesOn },
                );
                if waited.timed_out() {
                    return Err(self.give_up(&mut ledger, caller, generation));
                }
                turn_after(ledger.read_end(generation), index, self.parties)
            }
        }
    }

    // Removes a caller under the lock whose time has passed, wakes the others, and reads the end of its generation. The code also
    // returns `Broken` for a ledger of another barrier and for a caller that doesn't wait. Neither ever occurs.
    fn give_up(&self, ledger: &mut Ledger, caller: u32, generation: u64) -> GateFault
        ensures turn { AfterSome self.now.parties self.now.fails (GivesTurnFor self.now.fails caller (Err result)) }
        ensures late { (result ≡ GateFault.TimedOut) ⊎ (result ≡ GateFault.Broken) }
    {
        if !ledger.is_of(self.parties, self.fails) {
            return GateFault::Broken;
        }
        let given_up = self.abandon_now(ledger, caller).is_ok();
        ledger.read_end(generation);
        if given_up {
            GateFault::TimedOut
        } else {
            GateFault::Broken
        }
    }

    // Arrives as `caller` under the lock, and wakes the others if the generation ends.
    fn arrive<F: Fn(u64) -> bool>(
        &self,
        ledger: &mut Ledger,
        caller: u32,
        action: &StoredAction<F>,
    ) -> Result<Arrival, GateFault>
        requires rule { AnswersAction (F.pre action.now.closure) (F.post action.now.closure) action.now.plan }
        requires plan { ledger.old.fails ≡ action.now.plan }
        ensures arrival { MatchResult result
            (λ a. IsArrival a (answer ledger.old.fails (Await caller) ledger.old.barrier) ledger.old.barrier.generation)
            (λ e. RefusesArrival e (answer ledger.old.fails (Await caller) ledger.old.barrier)) }
        ensures book { ledger.new ≡ left_by result caller ledger.old }
    {
        let generation = ledger.generation();
        match ledger.await_step(action, caller) {
            Ok(Arrived::Waits(index)) => Ok(Arrival::Waits(index, generation)),
            Ok(Arrived::Tripped) => {
                self.ended.notify_all();
                Ok(Arrival::Last(0))
            }
            Ok(Arrived::ActionFailed) => {
                self.ended.notify_all();
                Err(GateFault::ActionFailed)
            }
            Ok(Arrived::Broken) => Err(GateFault::Broken),
            Err(BarrierFault::AlreadyWaiting) => Err(GateFault::AlreadyWaiting),
            Err(BarrierFault::Memory) => Err(GateFault::Memory),
            Err(_) => Err(GateFault::Broken),
        }
    }

    /// Removes a waiting caller, which breaks the barrier. Returns the others, whose calls fail with
    /// `Broken`, in order of arrival. The removed caller's `await_turn` fails with `Broken` too. (Java's
    /// `await` does this on an interrupt or a timeout.) Fails with `NotWaiting` if the caller doesn't wait.
    pub fn abandon<R: Wait>(&self, rt: &R, caller: u32) -> Result<Vec<u32>, BarrierFault>
        ensures answer { AfterSome self.now.parties self.now.fails (λ m. MatchResult result
            (λ l. answer self.now.fails (Abandon caller) m ≡ Breaks l.items)
            (λ e. RefusesAbandon e (answer self.now.fails (Abandon caller) m))) }
    {
        let mut ledger = self.ledger.lock(rt);
        if !ledger.is_of(self.parties, self.fails) {
            return Err(BarrierFault::NotWaiting);
        }
        self.abandon_now(&mut ledger, caller)
    }

    // Removes a waiting caller under the lock, and wakes the others.
    fn abandon_now(&self, ledger: &mut Ledger, caller: u32) -> Result<Vec<u32>, BarrierFault>
        ensures answer { MatchResult result
            (λ l. answer ledger.old.fails (Abandon caller) ledger.old.barrier ≡ Breaks l.items)
            (λ e. RefusesAbandon e (answer ledger.old.fails (Abandon caller) ledger.old.barrier)) }
        ensures book { MatchResult result (λ l. ledger.new ≡ booked (Abandon caller) ledger.old) (λ e. ledger.new ≡ ledger.old) }
    {
        let others = ledger.abandon(caller)?;
        self.ended.notify_all();
        Ok(others)
    }

    /// Breaks the barrier. Returns the callers who waited, whose calls fail with `Broken`, in order of
    /// arrival. It needs no memory.
    pub fn break_off<R: Wait>(&self, rt: &R) -> Vec<u32>
        ensures answer { AfterSome self.now.parties self.now.fails (λ m.
            answer self.now.fails BreakOff m ≡ Breaks result.items) }
    {
        let mut ledger = self.ledger.lock(rt);
        if !ledger.is_of(self.parties, self.fails) {
            return Vec::new(self.alloc);
        }
        self.break_now(&mut ledger)
    }

    // Breaks the barrier under the lock, and wakes those who wait.
    fn break_now(&self, ledger: &mut Ledger) -> Vec<u32>
        ensures answer { answer ledger.old.fails BreakOff ledger.old.barrier ≡ Breaks result.items }
        ensures book { ledger.new ≡ booked BreakOff ledger.old }
    {
        let callers = ledger.break_off();
        self.ended.notify_all();
        callers
    }

    /// Starts the next generation, unbroken. Returns the callers who waited, whose calls fail with `Broken`,
    /// in order of arrival (Java SE 21, `CyclicBarrier.reset`). It needs no memory.
    pub fn reset<R: Wait>(&self, rt: &R) -> Vec<u32>
        ensures answer { AfterSome self.now.parties self.now.fails (λ m.
            answer self.now.fails Reset m ≡ Breaks result.items) }
    {
        let mut ledger = self.ledger.lock(rt);
        if !ledger.is_of(self.parties, self.fails) {
            return Vec::new(self.alloc);
        }
        self.reset_now(&mut ledger)
    }

    // Starts the next generation under the lock, and wakes those who wait.
    fn reset_now(&self, ledger: &mut Ledger) -> Vec<u32>
        ensures answer { answer ledger.old.fails Reset ledger.old.barrier ≡ Breaks result.items }
        ensures book { ledger.new ≡ booked Reset ledger.old }
    {
        let callers = ledger.reset();
        self.ended.notify_all();
        callers
    }

    /// Returns how many ends of generations are kept for callers that waited and haven't been answered yet. It is
    /// never more than the calls of `await_turn` that haven't returned, however many generations there were.
    pub fn kept<R: Wait>(&self, rt: &R) -> usize {
        self.ledger.lock(rt).kept()
    }
}
