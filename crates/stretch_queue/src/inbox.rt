//! The stretches that a worker is to run.
use crate::fault::WorkerFault;
use crate::hand::HeldStretch;
use crate::hook::Lines;
use crate::running::Running;
use programs::program::Program;
use std::alloc::Global;
use std::marker::{Model, PhantomData};

/// The stretches that a worker is to run in a superstep. Whoever takes one takes the last.
#[derive(Drop)]
pub struct Inbox<'p, P: Program, L: Lines, J: Running> {
    ready: Vec<HeldStretch<'p, P, L, J>>,
    of: PhantomData<&'p P>,
}

impl<'p, P: Program, L: Lines, J: Running> Model for Inbox<'p, P, L, J> {
    ghost use Rattle.std.specs.Prelude.{List};
    ghost use Rattle.program_stretches.specs.StretchesValue.{StretchValue};

    ghost Value = { List (StretchValue P P.Task) };

    ghost view = { λ i. i.ready.items };

    ghost invariant = { λ i. Unit {0} };
}

impl<'p, P: Program, L: Lines, J: Running> Inbox<'p, P, L, J> {
    ghost use Rattle.std.specs.Prelude.{◌≡◌, ◌++◌, ◌∷◌, [], length, IfErr, OnOk, OnErr, MatchOption};
    ghost use Rattle.std.specs.List.Sorted.{IsPermutation};
    ghost use Rattle.stretch_queue.specs.declared.fault.WorkerFault.TheVariants as worker_fault;

    /// Creates an inbox without stretches.
    pub fn new(alloc: Global) -> Self
        ensures { result ≡ [] }
    {
        Inbox {
            ready: Vec::new(alloc),
            of: PhantomData,
        }
    }

    /// Returns the number of stretches.
    pub fn len(&self) -> usize
        ensures { result ≡ length self.now }
    {
        self.ready.len()
    }

    /// Appends a stretch. If memory runs out, the stretch is lost.
    pub fn push(&mut self, held: HeldStretch<'p, P, L, J>) -> Result<(), WorkerFault>
        ensures added { OnOk result (self.new ≡ self.old ++ held.entry ∷ []) }
        ensures unchanged { OnErr result (self.new ≡ self.old) }
        ensures memory { IfErr result (λ fault. fault ≡ worker_fault.Memory) }
    {
        match self.ready.reserve(1) {
            Ok(()) => {
                self.ready.push_reserved(held);
                Ok(())
            }
            Err(_) => {
                held.give_up();
                Err(WorkerFault::Memory)
            }
        }
    }

    /// Sorts the stretches, so that those whose tasks computed most in the superstep before are taken first. Then a worker that
    /// gets one of them late doesn't keep the others waiting.
    pub fn sort(&mut self)
        ensures { IsPermutation self.old self.new }
    {
        self.ready.sort_unstable_by_key(|held| held.effort());
    }

    /// Removes the last stretch and returns it.
    pub fn pop(&mut self) -> Option<HeldStretch<'p, P, L, J>>
        ensures { MatchOption result ((self.old ≡ []) × (self.new ≡ [])) (λ held. self.old ≡ self.new ++ held ∷ []) }
    {
        self.ready.pop()
    }
}
