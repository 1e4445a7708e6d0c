//! Bodies that are a closure.
ghost use Rattle.std.specs.Prelude.{◌≡◌, ◌≤◌, ◌<◌, ◌+◌, ◌++◌, ◌∷◌, []};
ghost use Rattle.task_bodies.specs.Kernels.{StencilMay};

use crate::body::{Ending, Out, TaskBody, View};
pub use crate::cells::{Cells, Map, Reduce};
pub use crate::grid::{BoardRows, Grid, Window};
use std::alloc::{AllocError, Global};

/// Adjacent cells: those after the cell `before`, up to and including the cell `end`.
#[derive(Clone, Copy)]
pub struct Span {
    /// The cell before the first.
    pub before: u32,
    /// The last cell. It is at least `before`; if both are the same, the span has no cells.
    pub end: u32,
}

/// In each superstep up to `last`, sets each cell of a span to what the closure returns for the cell before it, the
/// cell, and the cell after it. A task fails with number 16 if a cell of its span, or a neighbour of one, doesn't exist.
#[derive(Drop)]
pub struct Stencil<F> {
    /// The place of the array, in declared order.
    pub array: u16,
    /// The last superstep in which tasks run.
    pub last: u32,
    /// The closure.
    pub f: F,
}

impl<F: Fn(i64, i64, i64) -> i64> TaskBody for Stencil<F> {
    type Kept = Span;

    ghost ready = { λ s. F.IsAlwaysCallable s.f };

    ghost may = { λ s path arrays step k o. StencilMay (λ l m r v. F.post s.f l m r v) s.array s.last arrays step k o };

    fn run(
        &self,
        alloc: Global,
        kept: &mut Span,
        view: &View<'_>,
        out: &mut Out<Span>,
    ) -> Result<Ending, AllocError> {
        let span = *kept;
        let cells = view.cells(self.array);
        let end = span.end as usize;
        if span.before > span.end || cells.len() < 2 || end > cells.len() - 2 {
            return Ok(Ending::Fails(16));
        }
        let mut values = out.buffer(alloc);
        let mut place = span.before as usize;
        while place < end {
            let value = (self.f)(cells[place], cells[place + 1], cells[place + 2]);
            values.push(value)?;
            place += 1;
        }
        out.put_row(self.array, span.before + 1, values)?;
        if view.step < self.last {
            Ok(Ending::Syncs)
        } else {
            Ok(Ending::Stops)
        }
    }
}
