//! The stretches that a worker has run, and the members of their tasks.
ghost use Rattle.std.specs.Prelude.{◌≡◌, true};
ghost use Rattle.program_stretches.specs.StretchesValue.{StretchValue};
ghost use Rattle.stretch_queue.specs.HandedOut.{IsFor};

use crate::fault::WorkerFault;
use crate::hand::RanStretch;
use crate::moves::Moves;
use crate::running::Running;
use crate::tokens::Tokens;
use ghost_lists::tickets::Ticket;
use program_stretches::Stretch;
use programs::program::Program;
use std::alloc::Global;
use std::marker::{Model, PhantomData};

/// The members of the tasks of a stretch that was delivered.
#[derive(Drop)]
pub struct Delivered<J: Running> {
    /// The number of the stretch.
    pub number: usize,
    /// Its superstep.
    pub step: u32,
    /// The members, which haven't arrived in this superstep.
    pub tokens: Tokens<J>,
    /// How many tasks came and left.
    pub moves: Moves,
}

/// The members of the tasks of a stretch after they have arrived, or left.
#[derive(Drop)]
pub struct Arrived<J: Running> {
    /// The number of the stretch.
    pub number: usize,
    /// Its superstep.
    pub step: u32,
    /// The members that are left.
    pub tokens: Tokens<J>,
}

/// A stretch that was delivered, with the ticket by which it comes back. Its type keeps what that of `RanStretch` does.
#[derive(Drop)]
pub struct DoneStretch<'p, P: Program, J: Running> {
    stretch: Stretch<'p, P>,
    pass: Ticket<()>,
    // How many members it has after this superstep.
    size: usize,
    of: PhantomData<J>,
}

impl<'p, P: Program, J: Running> Model for DoneStretch<'p, P, J> {
    ghost Value = { StretchValue P P.Task };

    ghost view = { λ d. d.stretch };

    ghost invariant = { λ d. (d.stretch.name ≡ J.mark) × IsFor J.passes d.stretch.step d.stretch.number d.pass × (d.stretch.part.done ≡ true) };
}

impl<'p, P: Program, J: Running> DoneStretch<'p, P, J> {
    ghost use Rattle.std.specs.Prelude.{◌≡◌, true};
    ghost use Rattle.stretch_queue.specs.HandedOut.{IsFor};

    /// Returns the stretch, its ticket, and how many members it has after this superstep.
    pub fn into_parts(self) -> (Stretch<'p, P>, Ticket<()>, usize)
        ensures stretch { result.0 ≡ self.entry }
        ensures done { result.0.part.done ≡ true }
        ensures mark { result.0.name ≡ J.mark }
        ensures pass { IsFor J.passes result.0.step result.0.number result.1 }
    {
        let DoneStretch {
            stretch,
            pass,
            size,
            of: _,
        } = self;
        (stretch, pass, size)
    }
}

/// What a worker has delivered in a superstep, and the members that are back, until the superstep is closed.
#[derive(Drop)]
pub struct Outbox<'p, P: Program, J: Running> {
    step: u32,
    done: Vec<DoneStretch<'p, P, J>>,
    back: Vec<Arrived<J>>,
    of: PhantomData<&'p P>,
}

impl<'p, P: Program, J: Running> Model for Outbox<'p, P, J> {
    ghost use Rattle.std.specs.Prelude.{length};
    ghost use Rattle.stretch_queue.specs.Outboxes.{OutboxValue};

    ghost Value = { OutboxValue P P.Task };

    ghost view = { λ o. record { step = o.step; done = o.done.items; back = length o.back.items } };

    ghost invariant = { λ o. Unit {0} };
}

// Splits a stretch that was run into what is delivered, and what arrives after that.
fn split<'p, P: Program, J: Running>(
    ran: RanStretch<'p, P, J>,
) -> (DoneStretch<'p, P, J>, Delivered<J>)
    ensures stretch { result.0 ≡ ran.entry }
    ensures number { (result.1.number ≡ ran.entry.number) × (result.1.step ≡ ran.entry.step) }
{
    let (stretch, pass, tokens, moves) = ran.into_parts();
    let delivered = Delivered {
        number: stretch.number(),
        step: stretch.step(),
        tokens,
        moves,
    };
    let size = delivered.moves.size_after(stretch.len());
    let done = DoneStretch {
        stretch,
        pass,
        size,
        of: PhantomData,
    };
    (done, delivered)
}

impl<'p, P: Program, J: Running> Outbox<'p, P, J> {
    ghost use Rattle.std.specs.Prelude.{◌≡◌, ◌≢◌, ◌+◌, ◌++◌, ◌∷◌, [], length, IfOk, IfErr, OnOk, OnErr, MatchOption};
    ghost use Rattle.stretch_queue.specs.declared.fault.WorkerFault.TheVariants as worker_fault;

    /// Creates an outbox for the first superstep.
    pub fn new(alloc: Global) -> Self
        ensures { result ≡ record { step = 0; done = []; back = 0 } }
    {
        Outbox {
            step: 0,
            done: Vec::new(alloc),
            back: Vec::new(alloc),
            of: PhantomData,
        }
    }

    /// Returns the number of stretches in it.
    pub fn done_len(&self) -> usize
        ensures { result ≡ length self.now.done }
    {
        self.done.len()
    }

    /// Returns the number of stretches whose members are back.
    pub fn back_len(&self) -> usize
        ensures { result ≡ self.now.back }
    {
        self.back.len()
    }

    /// Delivers a stretch whose segments have run. Returns the members of its tasks. If memory runs out, all of it is lost.
    pub fn deliver(&mut self, ran: RanStretch<'p, P, J>) -> Result<Delivered<J>, WorkerFault>
        ensures added { OnOk result (self.new ≡ record self.old { done = self.old.done ++ ran.entry ∷ [] }) }
        ensures number { IfOk result (λ d. (d.number ≡ ran.entry.number) × (d.step ≡ ran.entry.step)) }
        ensures unchanged { OnErr result (self.new ≡ self.old) }
        ensures memory { IfErr result (λ fault. fault ≡ worker_fault.Memory) }
    {
        match self.done.reserve(1) {
            Ok(()) => {
                let (done, delivered) = split(ran);
                self.done.push_reserved(done);
                Ok(delivered)
            }
            Err(_) => {
                ran.give_up();
                Err(WorkerFault::Memory)
            }
        }
    }

    /// Takes back members that have arrived or left in its superstep. Returns them if that superstep has been closed in the meantime.
    /// If memory runs out, they are lost.
    pub fn take_back(&mut self, arrived: Arrived<J>) -> Result<Option<Arrived<J>>, WorkerFault>
        ensures back { IfOk result (λ late. MatchOption late
            ((arrived.step ≡ self.old.step) × (self.new ≡ record self.old { back = self.old.back + 1 }))
            (λ a. (arrived.step ≢ self.old.step) × (self.new ≡ self.old) × (a ≡ arrived))) }
        ensures unchanged { OnErr result (self.new ≡ self.old) }
        ensures memory { IfErr result (λ fault. fault ≡ worker_fault.Memory) }
    {
        if arrived.step != self.step {
            return Ok(Some(arrived));
        }
        match self.back.reserve(1) {
            Ok(()) => {
                self.back.push_reserved(arrived);
                Ok(None)
            }
            Err(_) => Err(WorkerFault::Memory),
        }
    }

    /// Removes the last stretch and returns it.
    pub fn pop_done(&mut self) -> Option<DoneStretch<'p, P, J>>
        ensures { MatchOption result ((self.old.done ≡ []) × (self.new ≡ self.old)) (λ done. self.old ≡ record self.new { done = self.new.done ++ done ∷ [] }) }
    {
        self.done.pop()
    }

    /// Removes the members of a stretch that are back and returns them.
    pub fn pop_back(&mut self) -> Option<Arrived<J>>
        ensures { MatchOption result ((self.old.back ≡ 0) × (self.new ≡ self.old)) (λ arrived. self.old ≡ record self.new { back = self.new.back + 1 }) }
    {
        self.back.pop()
    }

    /// Begins this superstep. Members of an earlier one are late from now on.
    pub fn open(&mut self, step: u32)
        ensures { self.new ≡ record self.old { step = step } }
    {
        self.step = step;
    }
}
