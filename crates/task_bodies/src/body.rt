//! What the body of a task reads, writes and does.
ghost use Rattle.std.specs.Prelude.{◌≡◌, ◌≤◌, ◌^◌, ◌++◌, ◌∷◌, ℕ, ℤ, pos, List, [], length, slice_get, IfOk, OnOk, OnErr};
ghost use Rattle.superstep_memory.specs.declared.arrays.PutKind.TheVariants as PutKinds;
ghost use Rattle.superstep_memory.specs.Cells.{cell_at};
ghost use Rattle.superstep_memory.specs.Rows.{row_puts};
ghost use Rattle.task_bodies.specs.Bodies.{OutValue, Left, nothing, left_so, cells_in};

use std::alloc::{AllocError, Global};
use std::marker::Model;
use superstep_memory::arrays::{Arrays, Put, PutKind};
use superstep_memory::path::Path;
use superstep_memory::puts::Puts;

/// What a task reads in a superstep: the arrays as they were when the superstep began, the task's path, and the superstep's
/// number.
#[derive(Clone, Copy)]
pub struct View<'a> {
    /// The arrays as they were when the superstep began.
    pub arrays: &'a Arrays,
    /// The path of the task: the number of its start task, from 0, and then one number for each spawn on the way to it.
    pub path: &'a Path,
    /// The superstep, from 0.
    pub step: u32,
}

impl View<'_> {
    /// Returns the cells of the array at this place, in declared order. Empty if there is no such array.
    #[inline(always)]
    pub fn cells(&self, array: u16) -> &[i64]
        ensures cells { result.now ≡ cells_in (slice_get self.now.arrays.now array) }
        ensures small { length result.now ≤ 2 ^ 32 }
    {
        match self.arrays.get(usize::from(array)) {
            Some((_, cells)) => cells,
            None => &[],
        }
    }

    /// Returns the value of a cell, if there is such a cell.
    pub fn cell(&self, array: u16, index: u32) -> Option<i64>
        ensures { result ≡ cell_at self.now.arrays.now array (pos index) }
    {
        self.arrays.cell(array, index)
    }
}

/// What a task writes in a superstep. It is empty when the task begins. Puts land when all tasks of the superstep have run: in
/// the order of the tasks' paths, and for each task in the order of its calls.
#[derive(Drop)]
pub struct Out<K> {
    pub(crate) puts: Puts,
    pub(crate) prints: Vec<i64>,
    pub(crate) spawns: Vec<K>,
}

impl<K> Model for Out<K> {
    ghost use Rattle.task_bodies.specs.Bodies.{OutValue};

    ghost Value = { OutValue K };

    ghost view = { λ o. record { puts = o.puts; prints = o.prints.items; spawns = o.spawns.items } };
}

impl<K: Drop> Out<K> {
    /// Sets a cell. If there is no such cell, the run ends with fault 3.
    #[inline(always)]
    pub fn put(&mut self, array: u16, index: u32, value: i64) -> Result<(), AllocError>
        ensures done { OnOk result (self.new ≡ record self.old { puts = self.old.puts ++ record { array = array; index = index; kind = PutKinds.Set; value = value } ∷ [] }) }
        ensures memory { OnErr result (self.new ≡ self.old) }
    {
        self.puts.put(Put {
            array,
            index,
            kind: PutKind::Set,
            value,
        })
    }

    /// Adds to a cell. If there is no such cell, the run ends with fault 3; if a sum doesn't fit 64 signed bits, with
    /// fault 8. Bits of an `f64` can't be added like this.
    #[inline(always)]
    pub fn add(&mut self, array: u16, index: u32, value: i64) -> Result<(), AllocError>
        ensures done { OnOk result (self.new ≡ record self.old { puts = self.old.puts ++ record { array = array; index = index; kind = PutKinds.Add; value = value } ∷ [] }) }
        ensures memory { OnErr result (self.new ≡ self.old) }
    {
        self.puts.put(Put {
            array,
            index,
            kind: PutKind::Add,
            value,
        })
    }

    /// Sets adjacent cells, beginning with the cell `first`. If one doesn't exist, the run ends with fault 3. A row
    /// costs less than single puts: 8 bytes a cell, and one look at the array.
    #[inline(always)]
    pub fn put_row(&mut self, array: u16, first: u32, values: Vec<i64>) -> Result<(), AllocError>
        ensures done { OnOk result (self.new ≡ record self.old { puts = self.old.puts ++ row_puts array first values.items }) }
        ensures memory { OnErr result (self.new ≡ self.old) }
    {
        self.puts.put_row(array, first, values)
    }

    /// Returns an empty vector for the values of a row, with the memory of an earlier row if there is one.
    pub fn buffer(&mut self, alloc: Global) -> Vec<i64>
        ensures empty { result.items ≡ [] }
        ensures same { self.new ≡ self.old }
    {
        self.puts.buffer(alloc)
    }

    /// Prints a value.
    pub fn print(&mut self, value: i64) -> Result<(), AllocError>
        ensures done { OnOk result (self.new ≡ record self.old { prints = self.old.prints ++ value ∷ [] }) }
        ensures memory { OnErr result (self.new ≡ self.old) }
    {
        match self.prints.push(value) {
            Ok(()) => Ok(()),
            Err(_) => Err(AllocError),
        }
    }

    /// Spawns a task that keeps this. It first runs in the next superstep. A task whose path has 8 numbers can't spawn: the run
    /// ends with fault 5. A task can spawn 65535 tasks in all; with one more, the run ends with fault 6.
    pub fn spawn(&mut self, kept: K) -> Result<(), AllocError>
        ensures done { OnOk result (self.new ≡ record self.old { spawns = self.old.spawns ++ kept ∷ [] }) }
        ensures memory { OnErr result (self.new ≡ self.old) }
    {
        match self.spawns.push(kept) {
            Ok(()) => Ok(()),
            Err(_) => Err(AllocError),
        }
    }
}

/// How a task ends a superstep.
#[derive(Clone, Copy)]
pub enum Ending {
    /// It goes on in the next superstep, with what it keeps.
    Syncs,
    /// It stops. What it has put and printed counts.
    Stops,
    /// The run ends with a fault of this number, and nothing of the superstep counts. Take a number from 16 on: smaller ones are
    /// those of the library.
    Fails(u8),
}

/// What the tasks of a run do (own). Implement only `Kept` and `run`: no ghost item, contract or proof is needed.
pub trait TaskBody {
    /// What a task keeps from one superstep to the next.
    type Kept: Drop;

    /// When it can run: always, unless a body says otherwise.
    ghost ready: { Self → Type 0 } = { λ s. Unit {0} };

    /// What a task may leave, given its path, the arrays as they were when the superstep began, the superstep's number, and what
    /// the task keeps. By default, anything.
    ghost may: { Self → List ℕ → List (List ℕ × List ℤ) → ℕ → Self.Kept → Left Self.Kept → Type 0 } = { λ s path arrays step k o. Unit {0} };

    /// Does what a task does in one superstep: reads `view`, changes `kept`, writes to `out`.
    fn run(
        &self,
        alloc: Global,
        kept: &mut Self::Kept,
        view: &View<'_>,
        out: &mut Out<Self::Kept>,
    ) -> Result<Ending, AllocError>
        requires ready { ready self.now }
        requires none { out.old ≡ nothing }
        ensures { IfOk result (λ e. may self.now view.now.path.now.items view.now.arrays.now view.now.step kept.old (left_so e kept.new out.new)) };
}

/// A body whose result is written down as a function, `does` (own). Its `may` allows only that result.
pub trait Exact: TaskBody {
    /// What a task leaves, given its path, the arrays as they were when the superstep began, the superstep's number, and what the
    /// task keeps.
    ghost does: { Self → List ℕ → List (List ℕ × List ℤ) → ℕ → Self.Kept → Left Self.Kept };

    ghost exact: { (s : Self) (path : List ℕ) (arrays : List (List ℕ × List ℤ)) (step : ℕ) (k : Self.Kept) (o : Left Self.Kept) → Self.may s path arrays step k o → o ≡ does s path arrays step k };
}
