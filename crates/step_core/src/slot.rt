//! Live tasks with what was delivered for them, by reference, and what a superstep leaves.
use phase_records::{PhaseRecord, Print};
use std::alloc::{AllocError, Global};
use std::marker::Model;
use superstep_memory::arrays::Arrays;
use superstep_memory::puts::Puts;
use task_lang::task::{After, Segment, Task};

/// A live task, and its segment once it was delivered.
#[derive(Drop)]
pub struct Slot<'a> {
    task: &'a Task,
    done: &'a Option<Segment>,
}

impl<'a> Model for Slot<'a> {
    ghost use Rattle.step_core.specs.SlotValue.{SlotValue};

    ghost Value = { SlotValue };

    ghost view = { λ s. record { task = s.task.now; done = s.done.now } };
}

/// Live tasks, each beside what was delivered for it.
#[derive(Drop)]
pub struct Slots<'a> {
    tasks: &'a [Task],
    done: &'a [Option<Segment>],
}

impl<'a> Model for Slots<'a> {
    ghost use Rattle.std.specs.Prelude.{List};
    ghost use Rattle.step_core.specs.SlotValue.{SlotValue};
    ghost use Rattle.step_core.specs.SlotParts.{beside};

    ghost Value = { List SlotValue };

    ghost view = { λ s. beside s.tasks.now s.done.now };
}

impl<'a> Slots<'a> {
    ghost use Rattle.std.specs.Prelude.{◌≡◌, ◌∷◌, [], None, Some, MatchOption, slice_get};
    ghost use Rattle.step_core.specs.SlotParts.{beside};

    /// Returns these tasks, each beside what was delivered for it, by place.
    pub(crate) fn of(tasks: &'a [Task], done: &'a [Option<Segment>]) -> Self
        ensures { result ≡ beside tasks.now done.now }
    {
        Slots { tasks, done }
    }

    /// Returns a copy.
    pub(crate) fn again(&self) -> Self
        ensures { result ≡ self.now }
    {
        Slots {
            tasks: self.tasks,
            done: self.done,
        }
    }

    /// Returns the first one and the rest, or `None` if there is none.
    pub(crate) fn split_first(&self) -> Option<(Slot<'a>, Slots<'a>)>
        ensures { MatchOption result (self.now ≡ []) (λ split. self.now ≡ split.0 ∷ split.1) }
    {
        let Some((task, tasks)) = self.tasks.split_first() else {
            return None;
        };
        let Some((done, rest)) = self.done.split_first() else {
            return None;
        };
        Some((Slot { task, done }, Slots { tasks, done: rest }))
    }

    /// Returns the one at this place, if there is one.
    pub fn at(&self, place: usize) -> Option<Slot<'a>>
        ensures { MatchOption result (slice_get self.now place ≡ None) (λ slot. slice_get self.now place ≡ Some slot) }
    {
        let Some(task) = self.tasks.get(place) else {
            return None;
        };
        let Some(done) = self.done.get(place) else {
            return None;
        };
        Some(Slot { task, done })
    }

    /// Returns the number of places to look at.
    pub(crate) fn len(&self) -> usize {
        self.tasks.len()
    }
}

impl<'a> Slot<'a> {
    ghost use Rattle.std.specs.Prelude.{◌≡◌, ◌++◌, is_some, Some, None, IsTrue, OnOk, length};
    ghost use Rattle.std.specs.List.{list_all};
    ghost use Rattle.std.specs.Option.{option_copied};
    ghost use Rattle.std.specs.Str.{bytes_eq};
    ghost use Rattle.superstep_memory.specs.Landing.{landed, is_set};
    ghost use Rattle.step_core.specs.SlotParts.{puts_in, living_of, IsSmall};

    pub(crate) fn task(&self) -> &'a Task
        ensures { result.now ≡ self.now.task }
    {
        self.task
    }

    pub(crate) fn done(&self) -> Option<&'a Segment>
        ensures { option_copied result ≡ self.now.done }
    {
        self.done.as_ref()
    }

    pub(crate) fn is_done(&self) -> bool
        ensures { result ≡ is_some self.now.done }
    {
        self.done.is_some()
    }

    /// Returns true if its task has this path.
    pub(crate) fn is_of(&self, path: &[u16]) -> bool
        ensures { result ≡ bytes_eq self.now.task.path path.now }
    {
        let task = self.task;
        task.path.as_slice() == path
    }

    /// Returns the number of tasks that live on, as far as was delivered.
    pub(crate) fn count_living(&self) -> usize
        requires { IsSmall self.now.done }
        ensures { result ≡ length (living_of self.now.done) }
    {
        match self.done {
            None => 0,
            Some(segment) => match &segment.after {
                After::Synced(_) => segment.spawns.len() + 1,
                After::Stopped | After::Fault(_) => segment.spawns.len(),
            },
        }
    }

    /// Returns true if none of the puts that were delivered adds.
    pub(crate) fn are_sets(&self) -> bool
        ensures { result ≡ list_all is_set (puts_in self.now) }
    {
        match self.done {
            Some(segment) => segment.puts.are_sets(),
            None => true,
        }
    }

    /// Lands the puts that were delivered. None of them adds.
    pub(crate) fn land_sets(&self, arrays: &mut Arrays)
        requires { IsTrue (list_all is_set (puts_in self.now)) }
        ensures { arrays.new ≡ landed (puts_in self.now) arrays.old }
    {
        match self.done {
            Some(segment) => segment.puts.land_sets(arrays),
            None => {}
        }
    }

    /// Appends copies of the puts that were delivered.
    pub(crate) fn copy_puts(&self, alloc: Global, puts: &mut Puts) -> Result<(), AllocError>
        ensures { OnOk result (puts.new ≡ puts.old ++ puts_in self.now) }
    {
        match self.done {
            Some(segment) => puts.append_copy(alloc, &segment.puts),
            None => Ok(()),
        }
    }

    /// Returns the number of puts that were delivered.
    pub(crate) fn count_puts(&self) -> usize
        ensures { result ≡ length (puts_in self.now) }
    {
        match self.done {
            Some(segment) => segment.puts.len(),
            None => 0,
        }
    }
}

/// What a superstep left: its prints and its record.
#[derive(Drop)]
pub struct Finished {
    pub prints: Vec<Print>,
    pub counts: PhaseRecord,
}

impl Model for Finished {
    ghost use Rattle.step_core.specs.FinishedValue.{FinishedValue};

    ghost Value = { FinishedValue };

    ghost view = { λ f. record { prints = f.prints.items; counts = f.counts } };
}
