//! Heat in a rod, in blocks of cells.
use std::alloc::{AllocError, Global};
use superstep_memory::arrays::Arrays;
use task_bodies::Watch;
use task_bodies::body::{Ending, Out, TaskBody, View};

/// A rod whose ends keep their temperature. Superstep `last` is the last one.
#[derive(Clone, Copy)]
pub struct Rod {
    pub last: u32,
}

/// Cells of the rod side by side: the cell before the first of them, and the cell before the last.
#[derive(Clone, Copy)]
pub struct Block {
    pub before: u32,
    pub end: u32,
}

fn at(cells: &[i64], place: usize) -> i64 {
    cells.get(place).copied().unwrap_or(0)
}

// Returns what the cell after this place becomes.
fn mixed(cells: &[i64], place: u32) -> i64 {
    let place = place as usize;
    let own = at(cells, place + 1);
    let others = at(cells, place).wrapping_add(at(cells, place + 2));
    others.wrapping_add(own).wrapping_add(own) / 4
}

impl TaskBody for Rod {
    type Kept = Block;

    fn run(
        &self,
        alloc: Global,
        block: &mut Block,
        view: &View<'_>,
        out: &mut Out<Block>,
    ) -> Result<Ending, AllocError> {
        let cells = view.cells(0);
        let mut values = out.buffer(alloc);
        for place in block.before..block.end {
            values.push(mixed(cells, place))?;
        }
        out.put_row(0, block.before.wrapping_add(1), values)?;
        if view.step < self.last {
            Ok(Ending::Syncs)
        } else {
            Ok(Ending::Stops)
        }
    }
}

/// Stops a run as soon as this cell of the rod holds so much.
#[derive(Clone, Copy)]
pub struct UntilWarm {
    pub cell: u32,
    pub least: i64,
}

impl Watch for UntilWarm {
    fn goes_on(&mut self, step: u32, arrays: &Arrays, tasks: usize) -> bool {
        match arrays.cell(0, self.cell) {
            Some(value) => value < self.least,
            None => false,
        }
    }
}
