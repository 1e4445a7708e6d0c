//! Kernels over adjacent cells: cell by cell, and sums.
ghost use Rattle.std.specs.Prelude.{◌≡◌, ◌+ℤ◌, None, Some, if◌then◌else◌};
ghost use Rattle.superstep_memory.specs.declared.arrays.PutKind.TheVariants as PutKinds;
ghost use Rattle.superstep_memory.specs.Landing.{is_over};
ghost use Rattle.task_bodies.specs.Cells.{MapMay, ReduceMay, are_there};
ghost use Rattle.task_bodies.specs.Kernels.{ends_in};

use crate::body::{Ending, Out, TaskBody, View};
use std::alloc::{AllocError, Global};

/// Adjacent cells: those from the cell `first` on, up to the one before the cell `end`.
#[derive(Clone, Copy)]
pub struct Cells {
    /// The first cell.
    pub first: u32,
    /// The cell after the last. It is at least `first`; if both are the same, there are no cells.
    pub end: u32,
}

/// In each superstep up to `last`, sets each cell of a span to what the closure returns for the cell of the same number in the
/// array `from`. Both arrays may be the same. A task whose span has cells that don't exist in `from` fails with number 16.
#[derive(Drop)]
pub struct Map<F> {
    /// The place of the array that is read, in declared order.
    pub from: u16,
    /// The place of the array that is set.
    pub into: u16,
    /// The last superstep in which tasks run.
    pub last: u32,
    /// The closure.
    pub f: F,
}

/// Sums what the closure returns for each cell of a span, adds the sum to one cell, and stops. Tasks with one span each sum up an
/// array. A task whose span has cells that don't exist fails with number 16, and a task whose sum doesn't fit 64 signed bits, at
/// the end or on the way, fails with number 17.
#[derive(Drop)]
pub struct Reduce<F> {
    /// The place of the array that is read, in declared order.
    pub array: u16,
    /// The place of the array that has the sum.
    pub into: u16,
    /// The number of the cell that has the sum.
    pub cell: u32,
    /// The closure.
    pub f: F,
}

/// Returns how a task that runs up to superstep `last` ends in superstep `step`.
#[inline(always)]
pub(crate) fn ending_in(last: u32, step: u32) -> Ending
    ensures { result ≡ ends_in last step }
{
    if step < last {
        Ending::Syncs
    } else {
        Ending::Stops
    }
}

// Returns the sum of two values, unless it is outside of 64 signed bits.
#[inline(always)]
fn sum_of(so_far: i64, value: i64) -> Option<i64>
    ensures { result ≡ (if is_over PutKinds.Add value so_far then None else Some (so_far +ℤ value)) }
{
    so_far.checked_add(value)
}

// Returns true if all cells of a span are among `count` cells.
fn have_all(count: usize, span: Cells) -> bool
    ensures { result ≡ are_there count span }
{
    span.first <= span.end && span.end as usize <= count
}

impl<F: Fn(i64) -> i64> TaskBody for Map<F> {
    type Kept = Cells;

    ghost ready = { λ s. F.IsAlwaysCallable s.f };

    ghost may = { λ s path arrays step k o. MapMay (λ x v. F.post s.f x v) s.from s.into s.last arrays step k o };

    fn run(
        &self,
        alloc: Global,
        kept: &mut Cells,
        view: &View<'_>,
        out: &mut Out<Cells>,
    ) -> Result<Ending, AllocError> {
        let span = *kept;
        let cells = view.cells(self.from);
        if !have_all(cells.len(), span) {
            return Ok(Ending::Fails(16));
        }
        let end = span.end as usize;
        let mut values = out.buffer(alloc);
        let mut place = span.first as usize;
        while place < end {
            let value = (self.f)(cells[place]);
            values.push(value)?;
            place += 1;
        }
        out.put_row(self.into, span.first, values)?;
        Ok(ending_in(self.last, view.step))
    }
}

impl<F: Fn(i64) -> i64> TaskBody for Reduce<F> {
    type Kept = Cells;

    ghost ready = { λ s. F.IsAlwaysCallable s.f };

    ghost may = { λ s path arrays step k o. ReduceMay (λ x v. F.post s.f x v) s.array s.into s.cell arrays k o };

    fn run(
        &self,
        alloc: Global,
        kept: &mut Cells,
        view: &View<'_>,
        out: &mut Out<Cells>,
    ) -> Result<Ending, AllocError> {
        let span = *kept;
        let cells = view.cells(self.array);
        if !have_all(cells.len(), span) {
            return Ok(Ending::Fails(16));
        }
        let end = span.end as usize;
        let mut sum: i64 = 0;
        let mut place = span.first as usize;
        while place < end {
            let value = (self.f)(cells[place]);
            let Some(more) = sum_of(sum, value) else {
                return Ok(Ending::Fails(17));
            };
            sum = more;
            place += 1;
        }
        out.add(self.into, self.cell, sum)?;
        Ok(Ending::Stops)
    }
}
