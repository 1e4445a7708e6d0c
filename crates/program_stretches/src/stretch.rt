//! A stretch that was taken.
use crate::part::{Part, run_part};
use crate::start::SuperstepStart;
use ghost_lists::log::Snapshot;
use programs::deeds::Changes;
use programs::program::{Program, TaskLoop};
use std::alloc::{AllocError, Global};
use std::marker::Model;
use std::sync::Arc;
use superstep_memory::arrays::Arrays;
use superstep_memory::path::Path;

/// Consecutive live tasks of a superstep, taken by whoever runs them. Its type keeps that what was done is what these tasks may
/// leave in this superstep.
#[derive(Drop)]
pub struct Stretch<'p, P: Program> {
    pub(crate) program: &'p P,
    pub(crate) number: usize,
    pub(crate) step: u32,
    pub(crate) arrays: Arc<Arrays>,
    pub(crate) part: Part<P::Task>,
    pub(crate) snapshot: Snapshot<SuperstepStart<'p, P, P::Task>>,
}

impl<'p, P: Program> Model for Stretch<'p, P> {
    ghost use Rattle.program_stretches.specs.Parts.{reading_of};
    ghost use Rattle.program_stretches.specs.StretchesValue.{StretchValue, IsStretch};
    ghost use Rattle.program_stretches.specs.StretchView.{stretch_of};

    ghost Value = { StretchValue P P.Task };

    ghost view = { stretch_of };

    ghost invariant = { λ s. IsStretch (reading_of P.frame P.may P.meant P.Task.path_of) P.ready (stretch_of s) };
}

impl<'p, P: Program> Stretch<'p, P> {
    ghost use Rattle.std.specs.Prelude.{◌≡◌, ◌↔◌, ◌&&◌, not, true, None, IsTrue, IfSome, OnErr, is_some, length, map, slice_get};
    ghost use Rattle.std.specs.Option.{option_map};
    ghost use Rattle.programs.specs.InPlace.{left_in, spawned_in, living_with};

    /// Returns its number among the stretches of its superstep, counted from 0 in path order.
    pub fn number(&self) -> usize
        ensures { result ≡ self.now.number }
    {
        self.number
    }

    /// Returns the number of its tasks.
    pub fn len(&self) -> usize
        ensures { result ≡ length self.now.part.tasks }
    {
        self.part.len()
    }

    /// Returns its superstep, counted from 0.
    pub fn step(&self) -> u32
        ensures { result ≡ self.now.step }
    {
        self.step
    }

    /// Returns how much its tasks computed in the last superstep in which they ran, and 0 if they haven't run yet: a hint for whoever
    /// shares out stretches. No clause says what it is, since nothing that a run leaves depends on it.
    pub fn effort(&self) -> u64 {
        self.part.effort()
    }

    /// Returns true if its tasks have run.
    pub fn is_done(&self) -> bool
        ensures { result ≡ self.now.part.done }
    {
        self.part.is_done()
    }

    /// Returns the path of its first task, or `None` if it has no task.
    pub fn first_path(&self) -> Option<Path>
        ensures { option_map (λ p. p.items) result ≡ slice_get (map P.Task.path_of self.now.part.tasks) 0 }
    {
        self.part.first_path()
    }

    /// Returns true if one of its tasks has faulted.
    pub fn has_faulted(&self) -> bool
        ensures fault { result ≡ is_some self.now.part.fault }
        ensures each { self.now.part.done ≡ true → self.now.part.fault ≡ None → length self.now.part.tasks ≡ length self.now.part.deeds }
    {
        self.part.has_faulted()
    }

    /// Returns true if every task that was run lives on, and none of them spawned a task.
    pub fn all_stay(&self) -> bool
        ensures stay { IsTrue result ↔ ((left_in self.now.part.deeds ≡ 0) × (spawned_in self.now.part.deeds ≡ 0)) }
        ensures same { IsTrue result → self.now.part.done ≡ true → self.now.part.fault ≡ None
            → living_with self.now.part.tasks self.now.part.deeds ≡ self.now.part.tasks }
    {
        self.part.all_stay()
    }

    /// Returns how many of its tasks have stopped.
    pub fn left(&self) -> usize
        ensures { result ≡ left_in self.now.part.deeds }
    {
        self.part.left()
    }

    /// Returns how many tasks its tasks have spawned.
    pub fn spawned(&self) -> usize
        ensures { result ≡ spawned_in self.now.part.deeds }
    {
        self.part.spawned()
    }

    /// Makes the next live tasks of those that have run, so that closing the superstep needn't: those that go on and those that
    /// were spawned, in path order. Does nothing if all of them stay, if one has faulted, or if one made a put that adds, since
    /// the task of a put that overflows must be found when it lands. After it, `changes` returns `None`.
    pub fn settle(&mut self) -> Result<(), AllocError>
        requires { self.old.part.done ≡ true }
        ensures rest { self.new ≡ record self.old { part = record self.old.part { settled = self.new.part.settled } } }
        ensures memory { OnErr result (self.new ≡ self.old) }
    {
        if self.part.has_faulted() {
            return Ok(());
        }
        if !self.part.are_sets() {
            return Ok(());
        }
        self.part.settle()
    }

    /// Returns its tasks, and what each of them did to the list of tasks, up to the first fault. Returns `None` once it is settled, and
    /// before its tasks have run.
    pub fn changes(&self) -> Option<(&[P::Task], Changes<'_, P::Task>)>
        ensures changes { IfSome result (λ r. (r.0.now ≡ self.now.part.tasks) × (r.1 ≡ self.now.part.deeds)) }
        ensures some { is_some result ≡ (self.now.part.done && not self.now.part.settled) }
    {
        self.part.changes()
    }

    /// Gives the stretch up. Its tasks are lost.
    pub fn give_up(self) {
        let Stretch { snapshot, .. } = self;
        snapshot.give_up();
    }
}

impl<'p, P: TaskLoop> Stretch<'p, P> {
    ghost use Rattle.std.specs.Prelude.{◌≡◌, true, false, None, OnOk, length, map};

    /// Runs its tasks, each in its place. Unless one faults, they keep their paths. Out of memory, the tasks are lost.
    pub fn run(&mut self, alloc: Global) -> Result<(), AllocError>
        requires { self.old.part.done ≡ false }
        ensures done { OnOk result (self.new.part.done ≡ true) }
        ensures unsettled { self.new.part.settled ≡ false }
        ensures count { OnOk result (length self.new.part.tasks ≡ length self.old.part.tasks) }
        ensures paths { OnOk result (self.new.part.fault ≡ None → map P.Task.path_of self.new.part.tasks ≡ map P.Task.path_of self.old.part.tasks) }
        ensures same { self.new ≡ record self.old { part = self.new.part } }
        ensures place { self.new.part.first ≡ self.old.part.first }
    {
        run_part(alloc, self.program, &self.arrays, self.step, &mut self.part)
    }
}
