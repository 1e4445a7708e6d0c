//! What the workers of a run share: its stretches, which of them are ready, and the members of the tree that arrive for their tasks.
ghost use Rattle.std.specs.Prelude.{◌≡◌, ℕ, [], true, false, None, Err, IfErr, IfOk, IfSome, is_some};
ghost use Rattle.stretch_queue.specs.Refusals.{IsOfWorkers};
ghost use Rattle.program_stretches.specs.Parts.{reading_of};
ghost use Rattle.stretch_queue.specs.Watched.{LeavesAs, can_leave_in};
ghost use Rattle.stretch_queue.specs.declared.fault.WorkerFault.TheVariants as worker_fault;
ghost use Rattle.stretch_queue.specs.declared.fault.Refused.TheVariants as refused;

use crate::fault::{Refused, WorkerFault};
use crate::hand::HeldStretch;
use crate::hook::{Closed, Hook};
use crate::led::Led;
use crate::members::{Members, Recut};
use crate::outbox::{Arrived, DoneStretch};
use crate::running::Running;
use crate::tokens::Tokens;
use ghost_lists::tickets::{Ticket, TicketList};
use program_stretches::{Left, Stretches};
use programs::program::{Program, TaskLoop};
use std::alloc::{AllocError, Global};
use std::collections::VecDeque;
use std::marker::{Model, PhantomData};
use std::mem;

/// The ticket lists of a run.
#[derive(Drop)]
pub struct Lists {
    /// Tickets for stretches that workers hold.
    pub stretches: TicketList<()>,
    /// Tickets for workers that have stopped.
    pub stops: TicketList<()>,
}

/// The ticket of a worker that has stopped. A worker gets it when it sees that workers must stop.
#[derive(Drop)]
pub struct Stopped<J: Running> {
    pass: Ticket<()>,
    of: PhantomData<J>,
    ghost own: { (pass.name ≡ J.stops) × (is_some pass.held ≡ true) },
}

/// The effect of handing back the members of a stretch.
#[derive(Drop)]
pub enum HandedBack<J: Running> {
    /// No stretch became ready.
    Unchanged,
    /// Stretches became ready, or the run has ended with no task left or at its limit.
    Ready,
    /// A fault or the hook has ended the run; the tree must be ended too.
    Ended,
    /// These members have to be cut anew. No stretch is ready before that.
    Recut(Recut<J>),
}

/// The stretches of a run, its hook, the members that arrive for their tasks, and the first refusal. Its type keeps that the
/// stretches have the mark of the run, that the hook keeps what it says of them, that a worker that couldn't be started is one of
/// the run, and that each ticket for a stretch is for one of this superstep that is out. Until workers must stop, it also keeps that
/// no worker has stopped.
#[derive(Drop)]
pub struct Queue<'t, 'p, P: TaskLoop, H: Hook<P>, J: Running> {
    stretches: Stretches<'t, 'p, P>,
    hook: H,
    // Whether the hook has stopped the run.
    stopped: bool,
    // What the next stretch takes along.
    lines: Option<H::Lines>,
    lists: Lists,
    // The members of the tasks of each stretch.
    members: Members<J>,
    // The numbers of the stretches that are there with the members of their tasks.
    ready: VecDeque<usize>,
    // The first refusal of the run.
    first: Option<Refused>,
    of: PhantomData<J>,
}

impl<'t, 'p, P: TaskLoop, H: Hook<P>, J: Running> Model for Queue<'t, 'p, P, H, J> {
    ghost use Rattle.stretch_queue.specs.QueueValue.{QueueValue, IsQueue};
    ghost use Rattle.stretch_queue.specs.QueueView.{queue_of};

    ghost Value = { QueueValue P P.Task };

    ghost view = { queue_of };

    ghost invariant = { λ i. IsQueue H.kept J.mark J.workers J.passes J.stops i.lists (queue_of i) };
}

// Returns what a run leaves that has ended, or that its hook has stopped.
fn left_by<'p, P: TaskLoop>(
    alloc: Global,
    stretches: Stretches<'_, 'p, P>,
    halted: bool,
) -> Result<Left<'p, P>, Refused>
    requires left { can_leave_in stretches halted ≡ true }
    ensures left { IfOk result (λ l. LeavesAs (reading_of P.frame P.may P.meant P.Task.path_of) stretches.entry halted l.writer l.given l.ran.report l.ran.tasks.items) }
    ensures memory { IfErr result (λ fault. fault ≡ refused.Memory) }
{
    let left = if halted {
        stretches.stop(alloc)
    } else {
        stretches.into_left(alloc)
    };
    match left {
        Ok(Some(left)) => Ok(left),
        Ok(None) => unreachable!(),
        Err(_) => Err(Refused::Memory),
    }
}

// Returns the numbers below this one, in order.
fn numbers_below(alloc: Global, count: usize) -> Result<VecDeque<usize>, AllocError> {
    let mut numbers = VecDeque::new(alloc);
    for number in 0..count {
        if numbers.push_back(number).is_err() {
            return Err(AllocError);
        }
    }
    Ok(numbers)
}

// Returns the members of all stretches, with the numbers of these, which are ready; and the refusal of the run if memory runs out.
fn begin_ready<J: Running>(
    alloc: Global,
    tokens: Vec<Option<Tokens<J>>>,
) -> (Members<J>, VecDeque<usize>, Option<Refused>)
    ensures { (workers : ℕ) → IfSome result.2 (IsOfWorkers workers) }
{
    let numbers = numbers_below(alloc, tokens.len());
    match (Members::new(alloc, tokens), numbers) {
        (Ok(members), Ok(ready)) => (members, ready, None),
        (_, _) => (
            Members::none(alloc),
            VecDeque::new(alloc),
            Some(Refused::Memory),
        ),
    }
}

/// Returns the number of tasks of each stretch.
pub fn lengths_of<P: Program>(
    alloc: Global,
    stretches: &Stretches<'_, '_, P>,
) -> Result<Vec<usize>, AllocError> {
    let mut lengths = Vec::with_capacity(alloc, stretches.len())?;
    for number in 0..stretches.len() {
        lengths.push(stretches.length(number))?;
    }
    Ok(lengths)
}

impl<'t, 'p, P: TaskLoop, H: Hook<P>, J: Running> Queue<'t, 'p, P, H, J> {
    ghost use Rattle.std.specs.Prelude.{◌≡◌, ◌≢◌, ◌<◌, ◌&&◌, ◌∷◌, [], None, Some, Err, true, false, not, is_some, IfOk, IfSome, IfErr, MatchOption, Ok, OnOk, OnErr, length};
    ghost use Rattle.program_stretches.specs.Parts.{covers, reading_of};
    ghost use Rattle.stretch_queue.specs.QueueValue.{AreNew, AreNamed, refused_by, is_over, begins_below};
    ghost use Rattle.program_stretches.specs.Closing.{Accepts};
    ghost use Rattle.program_stretches.specs.StretchesValue.{with_slot, status_in};
    ghost use Rattle.stretch_queue.specs.Hooked.{bare, AreNext};
    ghost use Rattle.stretch_queue.specs.Watched.{HasLeftKept};
    ghost use Rattle.stretch_queue.specs.Refusals.{IsOfWorkers, refusal_of};
    ghost use Rattle.stretch_queue.specs.declared.fault.WorkerFault.TheVariants as worker_fault;
    ghost use Rattle.stretch_queue.specs.declared.fault.Refused.TheVariants as refused;

    /// Creates a queue for these stretches, of which none is out or has run. `tokens` has the members of their tasks, by number. If
    /// memory runs out, the run is refused.
    pub fn new(
        alloc: Global,
        stretches: Stretches<'t, 'p, P>,
        hook: H,
        stopped: bool,
        lists: Lists,
        tokens: Vec<Option<Tokens<J>>>,
    ) -> Self
        requires mark { stretches.name ≡ J.mark }
        requires lists { AreNew lists × AreNamed J.passes J.stops lists }
        requires next { AreNext stretches }
        requires kept { H.kept (bare stretches) stopped }
        requires stopped { stopped ≡ true → status_in stretches ≡ None }
        ensures stretches { result.stretches ≡ stretches.entry }
    {
        let (members, ready, first) = begin_ready(alloc, tokens);
        Queue {
            stretches,
            hook,
            stopped,
            lines: None,
            lists,
            members,
            ready,
            first,
            of: PhantomData,
        }
    }

    /// Returns true if workers must stop: the run has ended or was refused.
    pub fn is_over(&self) -> bool
        ensures { result ≡ is_over self.now }
    {
        self.first.is_some() || self.stretches.has_ended() || self.stopped
    }

    /// Returns the number of supersteps taken so far.
    pub fn step(&self) -> u32
        ensures { result ≡ self.now.stretches.step }
    {
        self.stretches.step()
    }

    /// Returns the number of stretches of live tasks.
    pub fn len(&self) -> usize
        ensures { result ≡ length self.now.stretches.parts }
    {
        self.stretches.len()
    }

    /// Returns the number of stretches that are ready.
    pub fn ready_len(&self) -> usize
        ensures { result ≡ length self.now.ready }
    {
        self.ready.len()
    }

    // Issues the ticket of a worker that stops.
    fn stop(&mut self) -> Stopped<J>
        requires over { is_over self.old ≡ true }
        ensures { self.new ≡ self.old }
    {
        let pass = self.lists.stops.issue(0, 0, &());
        Stopped {
            pass,
            of: PhantomData,
        }
    }

    // Takes the members of the stretch of this number, if they are there.
    fn take_tokens(&mut self, number: usize) -> Option<Tokens<J>>
        ensures { self.new ≡ self.old }
    {
        self.members.take(number)
    }

    // Hands out the stretch of this number, with the members of its tasks. Fails with `Internal` if they aren't there, or aren't as
    // many.
    fn hand_out(&mut self, number: usize) -> Result<HeldStretch<'p, P, H::Lines, J>, WorkerFault>
        requires running { is_over self.old ≡ false }
        ensures same { (self.new.first ≡ self.old.first) × (self.new.ready ≡ self.old.ready) }
        ensures of { IfOk result (λ held. (held.number ≡ number) × (held.step ≡ self.old.stretches.step) × (held.part.done ≡ false)) }
    {
        let Some(tokens) = self.take_tokens(number) else {
            return Err(WorkerFault::Internal);
        };
        if tokens.size() != self.stretches.length(number) {
            return Err(WorkerFault::Internal);
        }
        let Some(stretch) = self.stretches.take(number)? else {
            return Err(WorkerFault::Internal);
        };
        let pass = self
            .lists
            .stretches
            .issue(stretch.step(), stretch.number(), &());
        let lines = mem::replace(&mut self.lines, None);
        Ok(HeldStretch::new(stretch, pass, tokens, lines))
    }

    /// Returns the ticket of a worker that stops, if workers must stop.
    pub fn stop_if_over(&mut self) -> Option<Stopped<J>>
        ensures over { is_some result ≡ is_over self.old }
        ensures same { self.new ≡ self.old }
    {
        if self.is_over() {
            Some(self.stop())
        } else {
            None
        }
    }

    // Removes the number of the first ready stretch, if it is below `end`, and returns it.
    fn pop_below(&mut self, end: usize) -> Option<usize>
        ensures first { MatchOption result (self.new ≡ self.old) (λ number. (number < end) × (self.old ≡ record self.new { ready = number ∷ self.new.ready })) }
        ensures some { is_some result ≡ begins_below self.old.ready end }
    {
        match self.ready.front() {
            Some(number) if *number < end => self.ready.pop_front(),
            Some(_) | None => None,
        }
    }

    /// Hands out the first ready stretch if its number is below `end`. Returns `None` if it isn't, if none is ready, or if workers must
    /// stop. If it fails, workers must stop: the run is refused for that reason.
    pub fn next_below(
        &mut self,
        end: usize,
    ) -> Result<Option<HeldStretch<'p, P, H::Lines, J>>, WorkerFault>
        ensures of { IfOk result (λ held. IfSome held (λ h. (h.number < end) × (h.step ≡ self.old.stretches.step) × (h.part.done ≡ false) × (self.old.ready ≡ h.number ∷ self.new.ready))) }
        ensures some { IfOk result (λ held. is_some held ≡ (not (is_over self.old) && begins_below self.old.ready end)) }
        ensures none { result ≡ Ok None → self.new ≡ self.old }
        ensures noted { IfErr result (λ fault. self.new.first ≡ Some (refusal_of fault)) }
        ensures unrefused { OnOk result (self.new.first ≡ self.old.first) }
    {
        if self.is_over() {
            return Ok(None);
        }
        let Some(number) = self.pop_below(end) else {
            return Ok(None);
        };
        match self.hand_out(number) {
            Ok(held) => Ok(Some(held)),
            Err(fault) => {
                self.first = Some(fault.refusal());
                Err(fault)
            }
        }
    }

    // Notes how many members the stretch of this number has after this superstep.
    fn note_size(&mut self, number: usize, size: usize)
        ensures { self.new ≡ self.old }
    {
        self.members.note_size(number, size);
    }

    /// Takes back a stretch whose segments have run.
    pub fn accept(&mut self, done: DoneStretch<'p, P, J>)
        ensures taken { Accepts self.old.stretches done.entry }
        ensures added { self.new ≡ record self.old { stretches = with_slot self.old.stretches done.entry.number (Some done.entry.part) } }
    {
        let (stretch, pass, size) = done.into_parts();
        self.lists.stretches.redeem(pass);
        let number = stretch.number();
        match self.stretches.accept(stretch) {
            Ok(()) => {}
            Err(_) => unreachable!(),
        }
        self.note_size(number, size);
    }

    /// Notes why the run is refused, unless something was noted before. From now on, workers must stop.
    pub fn refuse(&mut self, refused: Refused) -> Stopped<J>
        requires { IsOfWorkers J.workers refused }
        ensures { self.new ≡ refused_by self.old refused }
    {
        if self.first.is_none() {
            self.first = Some(refused);
        }
        self.stop()
    }

    /// Puts members that are back into the place of their stretch. Fails with `Internal` if there is no stretch of this number.
    pub fn put_tokens(&mut self, number: usize, tokens: Tokens<J>) -> Result<(), WorkerFault>
        ensures same { self.new ≡ self.old }
        ensures internal { IfErr result (λ fault. fault ≡ worker_fault.Internal) }
    {
        if self.members.put(number, tokens) {
            Ok(())
        } else {
            Err(WorkerFault::Internal)
        }
    }

    // Makes the stretch of this number ready.
    fn make_ready(&mut self, number: usize) -> Result<(), WorkerFault>
        ensures same { (self.new.stretches ≡ self.old.stretches) × (self.new.stopped ≡ self.old.stopped) × (self.new.first ≡ self.old.first) }
    {
        match self.ready.push_back(number) {
            Ok(()) => Ok(()),
            Err(_) => Err(WorkerFault::Memory),
        }
    }

    // Makes the stretches ready whose members are back.
    fn make_all_ready(&mut self) -> Result<(), WorkerFault>
        ensures same { (self.new.stretches ≡ self.old.stretches) × (self.new.stopped ≡ self.old.stopped) × (self.new.first ≡ self.old.first) }
    {
        self.members.list_back(&mut self.ready)?;
        Ok(())
    }

    // Takes the members that have to be cut anew for the next stretches, if none of them is missing.
    fn recut(&mut self, alloc: Global) -> Result<HandedBack<J>, WorkerFault>
        ensures same { self.new ≡ self.old }
    {
        match self.members.take_moving(alloc, &self.stretches)? {
            Some(recut) => Ok(HandedBack::Recut(recut)),
            None => Ok(HandedBack::Unchanged),
        }
    }

    // Prepares the next superstep: makes its stretches ready as far as the members of their tasks are back. If tasks have moved
    // between stretches, takes the members of these stretches once they are back.
    fn prepare(&mut self, alloc: Global) -> Result<HandedBack<J>, WorkerFault>
        ensures same { (self.new.stretches ≡ self.old.stretches) × (self.new.stopped ≡ self.old.stopped) × (self.new.first ≡ self.old.first) }
    {
        self.members.find_moving(&self.stretches)?;
        if self.members.are_moving() {
            return self.recut(alloc);
        }
        self.make_all_ready()?;
        Ok(HandedBack::Ready)
    }

    // Closes the superstep.
    fn close(&mut self, alloc: Global) -> Result<HandedBack<J>, WorkerFault>
        requires running { is_over self.old ≡ false }
        ensures whole { OnOk result (covers true self.old.stretches.count 0 self.old.stretches.parts ≡ true) }
        ensures unrefused { OnOk result (self.new.first ≡ self.old.first) }
    {
        match self.hook.close(alloc, &mut self.stretches) {
            Ok(Closed::Landed(lines)) => self.lines = lines,
            Ok(Closed::Stopped) => {
                self.stopped = true;
                return Ok(HandedBack::Ended);
            }
            Ok(Closed::Faulted) => return Ok(HandedBack::Ended),
            Err(fault) => {
                self.first = Some(fault.refusal());
                return Err(fault);
            }
        }
        if self.stretches.has_ended() {
            return Ok(HandedBack::Ready);
        }
        self.prepare(alloc)
    }

    // Takes back members of this superstep. If one of them advanced the tree, closes the superstep.
    fn take_back(
        &mut self,
        alloc: Global,
        arrived: Arrived<J>,
        led: Option<Led<J>>,
    ) -> Result<HandedBack<J>, WorkerFault>
        requires running { is_over self.old ≡ false }
        ensures unled { led ≡ None → self.new ≡ self.old }
        ensures unrefused { OnOk result (self.new.first ≡ self.old.first) }
    {
        let Arrived { number, tokens, .. } = arrived;
        self.put_tokens(number, tokens)?;
        if led.is_some() {
            self.close(alloc)
        } else {
            Ok(HandedBack::Unchanged)
        }
    }

    // Takes back members whose superstep has been closed in the meantime.
    fn take_back_late(
        &mut self,
        alloc: Global,
        arrived: Arrived<J>,
    ) -> Result<HandedBack<J>, WorkerFault>
        ensures same { (self.new.stretches ≡ self.old.stretches) × (self.new.stopped ≡ self.old.stopped) × (self.new.first ≡ self.old.first) }
    {
        let Arrived { number, tokens, .. } = arrived;
        self.put_tokens(number, tokens)?;
        if self.members.are_moving() {
            return self.recut(alloc);
        }
        self.make_ready(number)?;
        Ok(HandedBack::Ready)
    }

    /// Takes back the members of a stretch that have arrived or left in its superstep. If one of them advanced the tree (`led`),
    /// closes the superstep. If workers must stop, drops them. If it fails, workers must stop: the run is refused for that reason.
    pub fn hand_back(
        &mut self,
        alloc: Global,
        arrived: Arrived<J>,
        led: Option<Led<J>>,
    ) -> Result<HandedBack<J>, WorkerFault>
        ensures unled { led ≡ None → self.new.stretches ≡ self.old.stretches }
        ensures over { is_over self.old ≡ true → self.new ≡ self.old }
        ensures noted { IfErr result (λ fault. self.new.first ≡ Some (refusal_of fault)) }
        ensures unrefused { OnOk result (self.new.first ≡ self.old.first) }
    {
        if self.is_over() {
            return Ok(HandedBack::Unchanged);
        }
        let handed_back = if self.stretches.step() == arrived.step {
            self.take_back(alloc, arrived, led)
        } else {
            self.take_back_late(alloc, arrived)
        };
        match handed_back {
            Ok(effect) => Ok(effect),
            Err(fault) => {
                self.first = Some(fault.refusal());
                Err(fault)
            }
        }
    }

    /// Takes back members that were cut anew, those of each stretch that they are for, in order. Makes all stretches ready whose
    /// members are back. Fails only if memory runs out; then workers must stop.
    pub fn put_back(&mut self, tokens: Vec<Option<Tokens<J>>>) -> Result<(), WorkerFault>
        ensures same { self.new.stretches ≡ self.old.stretches }
        ensures noted { IfErr result (λ fault. self.new.first ≡ Some (refusal_of fault)) }
        ensures unrefused { OnOk result (self.new.first ≡ self.old.first) }
    {
        self.members.put_moving(tokens);
        match self.make_all_ready() {
            Ok(()) => Ok(()),
            Err(fault) => {
                self.first = Some(fault.refusal());
                Err(fault)
            }
        }
    }

    /// Returns what the run leaves, or its first refusal if there is one. Without a refusal, fails only if memory runs out.
    /// `stopped` is the ticket of a worker that has stopped.
    pub fn conclude(self, alloc: Global, stopped: Stopped<J>) -> Result<Left<'p, P>, Refused>
        ensures left { IfOk result (λ l. HasLeftKept (reading_of P.frame P.may P.meant P.Task.path_of) H.kept J.mark l.writer l.given l.ran.report l.ran.tasks.items) }
        ensures first { IfSome self.entry.first (λ refused. result ≡ Err refused) }
        ensures memory { self.entry.first ≡ None → IfErr result (λ fault. fault ≡ refused.Memory) }
        ensures started { IfErr result (IsOfWorkers J.workers) }
    {
        let Queue {
            stretches,
            hook: _,
            stopped: halted,
            mut lists,
            first,
            ..
        } = self;
        let Stopped { pass, of: _ } = stopped;
        lists.stops.redeem(pass);
        match first {
            Some(refused) => {
                stretches.give_up();
                Err(refused)
            }
            None => left_by(alloc, stretches, halted),
        }
    }
}
