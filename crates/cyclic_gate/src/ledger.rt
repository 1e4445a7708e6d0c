//! The barrier beside the ends that its callers have still to read, as it is under the gate's lock.
ghost use Rattle.std.specs.Prelude.{◌≡◌, ◌⊎◌, ◌↔◌, ◌<◌, ◌≤◌, ◌+◌, true, [], length, ◌<ℤ◌, pos, IfOk, IfErr, IsTrue, MatchResult, vec_len, vec_capacity};
ghost use Rattle.advance_rule.specs.Action.{AnswersAction};
ghost use Rattle.cyclic_gate.specs.Machine.{fresh};
ghost use Rattle.cyclic_gate.specs.Steps.{answer, Breaks};
ghost use Rattle.cyclic_gate.specs.Runs.{AfterSome};
ghost use Rattle.cyclic_gate.specs.Seen.{IsArrived, RefusesAwait, RefusesAbandon, RanFor};
ghost use Rattle.cyclic_gate.specs.Ledger.{Book, book, booked, end_of, read_by, is_free, kept_after, outcome_for, IsPlace};
ghost use Rattle.cyclic_gate.specs.declared.call.Call.TheVariants.{Await, Abandon, BreakOff, Reset};
ghost use Rattle.cyclic_gate.specs.declared.call.Arrived.TheVariants.{Broken};

use crate::call::{Arrived, BarrierFault};
use crate::state::BarrierState;
use advance_rule::StoredAction;
use std::alloc::Global;
use std::marker::Model;

/// What a call did to the generation in which it was made.
#[derive(Clone, Copy, PartialEq, Eq)]
pub enum Outcome {
    /// The generation goes on.
    GoesOn,
    /// The generation tripped: all who waited pass.
    Tripped,
    /// The generation broke: the wait of all who waited failed.
    Broken,
}

/// How a generation ended that some of its callers haven't read yet.
#[derive(Clone, Copy)]
pub struct KeptEnd {
    /// The generation.
    pub generation: u64,
    /// How it ended.
    pub outcome: Outcome,
    /// How many of its callers haven't read this, from 1 to 65535.
    pub unread: u32,
}

/// A barrier, and the ends of generations that some callers have still to read. In any case some list of calls leaves
/// the barrier as it is.
///
/// An end is kept from the call that ends the generation until the last caller that waited in it has read it. So there
/// are never more of them than calls of `await_turn` that haven't returned, however many generations there were. While
/// callers wait, the list of ends has room for one more, so that no call that ends a generation needs memory.
#[derive(Drop)]
pub struct Ledger {
    fails: Option<u64>,
    state: BarrierState,
    ends: Vec<KeptEnd>,
}

impl Model for Ledger {
    ghost use Rattle.cyclic_gate.specs.Ledger.{Book, book, IsReached, HasRoom};
    ghost use Rattle.std.specs.Prelude.{vec_len, vec_capacity};

    ghost Value = { Book };

    ghost view = { λ l. book l.fails l.state l.ends.items };

    ghost invariant = { λ l. IsReached l.fails l.state × HasRoom l.state (vec_len l.ends) (vec_capacity l.ends) };
}

impl Arrived {
    // Returns what the arrival did to the generation.
    fn outcome(&self) -> Outcome
        ensures { result ≡ outcome_for self.now }
    {
        match self {
            Arrived::Waits(_) | Arrived::Broken => Outcome::GoesOn,
            Arrived::Tripped => Outcome::Tripped,
            Arrived::ActionFailed => Outcome::Broken,
        }
    }
}

// Keeps the end of a generation if it ended while callers wait; `unread` is how many.
fn keep(ends: &mut Vec<KeptEnd>, generation: u64, outcome: Outcome, unread: u32)
    requires { 0 < unread → vec_len ends.old < vec_capacity ends.old }
    ensures items { ends.new.items ≡ kept_after generation outcome unread ends.old.items }
    ensures same { outcome ≡ Outcome.GoesOn → ends.new ≡ ends.old }
{
    if outcome != Outcome::GoesOn && unread != 0 {
        ends.push_reserved(KeptEnd {
            generation,
            outcome,
            unread,
        });
    }
}

// Returns the place of the end of this generation, or the number of ends if it isn't kept.
fn place_of(ends: &[KeptEnd], generation: u64) -> usize
    ensures { IsPlace generation ends.now result }
{
    let mut place = 0;
    for end in ends {
        if end.generation == generation {
            return place;
        }
        place += 1;
    }
    place
}

impl Ledger {
    /// Creates a barrier at which `parties` callers meet. Its action fails in generation `fails`. No end is kept. Fails
    /// with `NoParty` if `parties` is below 1, and with `TooMany` if it is above 65535. It needs no memory.
    pub fn new(alloc: Global, parties: i64, fails: Option<u64>) -> Result<Self, BarrierFault>
        ensures fresh { IfOk result (λ l. (pos l.barrier.parties ≡ parties) × (l ≡ book fails (fresh l.barrier.parties) [])) }
        ensures no_party { (result ≡ Err BarrierFault.NoParty) ↔ (parties <ℤ pos 1) }
        ensures too_many { (result ≡ Err BarrierFault.TooMany) ↔ (pos 65535 <ℤ parties) }
        ensures fault { IfErr result (λ e. (e ≡ BarrierFault.NoParty) ⊎ (e ≡ BarrierFault.TooMany)) }
    {
        let state = BarrierState::new(alloc, parties)?;
        Ok(Ledger {
            fails,
            state,
            ends: Vec::new(alloc),
        })
    }

    /// Returns how many parties meet, from 1 to 65535.
    pub fn parties(&self) -> u32
        ensures answer { result ≡ self.now.barrier.parties }
        ensures range { (0 < result) × (result ≤ 65535) }
    {
        self.state.parties()
    }

    /// Returns true if `parties` callers meet, and the action fails in generation `fails`. In any case some list of calls
    /// leaves the barrier as it is.
    pub fn is_of(&self, parties: u32, fails: Option<u64>) -> bool
        ensures answer { IsTrue result ↔ ((self.now.barrier.parties ≡ parties) × (self.now.fails ≡ fails)) }
        ensures reached { AfterSome self.now.barrier.parties self.now.fails (λ m. m ≡ self.now.barrier) }
    {
        self.state.parties() == parties && self.fails == fails
    }

    /// Returns the generation, counted from 0; after 18446744073709551615 comes 0.
    pub fn generation(&self) -> u64
        ensures { result ≡ self.now.barrier.generation }
    {
        self.state.generation()
    }

    // Returns how many callers wait.
    fn waiting(&self) -> u32
        ensures { result ≡ length self.now.barrier.waiting }
    {
        self.state.waiting() as u32
    }

    /// Returns how many ends are kept.
    pub fn kept(&self) -> usize
        ensures { result ≡ length self.now.ends }
    {
        self.ends.len()
    }

    /// Returns how this generation ended, or `GoesOn` if no end of it is kept.
    pub fn end_of(&self, generation: u64) -> Outcome
        ensures { result ≡ end_of generation self.now.ends }
    {
        match self.ends.get(place_of(&self.ends, generation)) {
            Some(end) => end.outcome,
            None => Outcome::GoesOn,
        }
    }

    /// Reads how this generation ended, for one of the callers that waited in it. The end is forgotten when the last of
    /// them has read it. Returns `GoesOn` if no end of this generation is kept.
    pub fn read_end(&mut self, generation: u64) -> Outcome
        ensures answer { result ≡ end_of generation self.old.ends }
        ensures book { self.new ≡ book self.old.fails self.old.barrier (read_by generation self.old.ends) }
    {
        let place = place_of(&self.ends, generation);
        if place == self.ends.len() {
            return Outcome::GoesOn;
        }
        let end = self.ends[place];
        if end.unread > 1 {
            self.ends[place] = KeptEnd {
                unread: end.unread - 1,
                ..end
            };
        } else {
            self.ends.remove(place);
        }
        end.outcome
    }

    /// Arrives as `caller`. The last to arrive runs the action. Fails with `AlreadyWaiting` if the caller already
    /// waits, and with `Memory` if memory runs out. It also fails with `Memory` if the caller is the first of its
    /// generation and the end of the generation that had the same number, 2^64 generations ago, is still kept.
    pub fn await_step<F: Fn(u64) -> bool>(
        &mut self,
        action: &StoredAction<F>,
        caller: u32,
    ) -> Result<Arrived, BarrierFault>
        requires rule { AnswersAction (F.pre action.now.closure) (F.post action.now.closure) action.now.plan }
        requires plan { self.old.fails ≡ action.now.plan }
        ensures answer { MatchResult result
            (λ a. IsArrived a (answer self.old.fails (Await caller) self.old.barrier))
            (λ e. RefusesAwait e (answer self.old.fails (Await caller) self.old.barrier)) }
        ensures book { MatchResult result (λ a. self.new ≡ booked (Await caller) self.old) (λ e. self.new ≡ self.old) }
        ensures free { IfOk result (λ a. (a ≡ Broken) ⊎ (is_free self.old ≡ true)) }
        ensures ran { IfOk result (RanFor (F.post action.now.closure self.old.barrier.generation)) }
    {
        if self.state.is_broken() {
            return Ok(Arrived::Broken);
        }
        if self.state.is_waiting(caller) {
            return Err(BarrierFault::AlreadyWaiting);
        }
        let generation = self.state.generation();
        let waiting = self.waiting();
        if waiting == 0 && self.end_of(generation) != Outcome::GoesOn {
            return Err(BarrierFault::Memory);
        }
        match self.ends.reserve(1) {
            Ok(()) => {}
            Err(_) => return Err(BarrierFault::Memory),
        }
        let arrived = self.state.arrive(action, caller)?;
        keep(&mut self.ends, generation, arrived.outcome(), waiting);
        Ok(arrived)
    }

    /// Removes a waiting caller, which breaks the barrier. Returns the others, whose wait failed, in order of arrival.
    /// Fails with `NotWaiting` if the caller doesn't wait. It needs no memory.
    pub fn abandon(&mut self, caller: u32) -> Result<Vec<u32>, BarrierFault>
        ensures answer { MatchResult result
            (λ l. answer self.old.fails (Abandon caller) self.old.barrier ≡ Breaks l.items)
            (λ e. RefusesAbandon e (answer self.old.fails (Abandon caller) self.old.barrier)) }
        ensures fault { IfErr result (λ e. e ≡ BarrierFault.NotWaiting) }
        ensures book { MatchResult result (λ l. self.new ≡ booked (Abandon caller) self.old) (λ e. self.new ≡ self.old) }
    {
        let generation = self.state.generation();
        let waiting = self.waiting();
        let others = self.state.abandon(caller)?;
        keep(&mut self.ends, generation, Outcome::Broken, waiting);
        Ok(others)
    }

    /// Breaks the barrier. Returns the callers who waited, whose wait failed, in order of arrival. It needs no memory.
    pub fn break_off(&mut self) -> Vec<u32>
        ensures answer { answer self.old.fails BreakOff self.old.barrier ≡ Breaks result.items }
        ensures book { self.new ≡ booked BreakOff self.old }
    {
        let generation = self.state.generation();
        let waiting = self.waiting();
        let callers = self.state.break_off();
        keep(&mut self.ends, generation, Outcome::Broken, waiting);
        callers
    }

    /// Starts the next generation, unbroken. Returns the callers who waited, whose wait failed, in order of arrival. It
    /// needs no memory.
    pub fn reset(&mut self) -> Vec<u32>
        ensures answer { answer self.old.fails Reset self.old.barrier ≡ Breaks result.items }
        ensures book { self.new ≡ booked Reset self.old }
    {
        let generation = self.state.generation();
        let waiting = self.waiting();
        let callers = self.state.reset();
        keep(&mut self.ends, generation, Outcome::Broken, waiting);
        callers
    }
}
