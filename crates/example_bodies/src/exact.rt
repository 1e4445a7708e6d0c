//! The rod again, by a body whose meaning is written down.
ghost use Rattle.std.specs.Prelude.{◌≡◌, get_or, pos, int_div};
ghost use Rattle.std.specs.Int.{w64, int_wrapping_add};
ghost use Rattle.task_bodies.specs.Kernels.{ends_in};
ghost use Rattle.example_bodies.specs.Rod.{mixed, rod_does};

use std::alloc::{AllocError, Global};
use task_bodies::body::{Ending, Exact, Out, TaskBody, View};

/// A rod whose ends keep their temperature. Superstep `last` is the last one.
#[derive(Clone, Copy)]
pub struct ExactRod {
    pub last: u32,
}

/// Cells of the rod side by side, from `first` to the one before `end`.
#[derive(Clone, Copy)]
pub struct Piece {
    pub first: u32,
    pub end: u32,
}

/// Returns the rod without its ends, in 46 pieces.
pub fn pieces(alloc: Global) -> Result<Vec<Piece>, AllocError> {
    let mut pieces = Vec::new(alloc);
    for number in 0..46 {
        pieces.push(Piece {
            first: number * 89 + 1,
            end: number * 89 + 90,
        })?;
    }
    Ok(pieces)
}

fn at(cells: &[i64], place: usize) -> i64
    ensures { result ≡ get_or cells.now place (pos 0) }
{
    cells.get(place).copied().unwrap_or(0)
}

fn sum(one: i64, other: i64) -> i64
    ensures { result ≡ int_wrapping_add w64 one other }
{
    one.wrapping_add(other)
}

fn quarter(value: i64) -> i64
    ensures { result ≡ int_div value (pos 4) }
{
    value / 4
}

// Returns what the cell at this place becomes.
fn mixed(cells: &[i64], place: u32) -> i64
    ensures { result ≡ mixed cells.now place }
{
    let place = place as usize;
    let own = at(cells, place);
    let others = sum(at(cells, place.saturating_sub(1)), at(cells, place + 1));
    quarter(sum(sum(others, own), own))
}

// Returns how a task that runs up to superstep `last` ends in superstep `step`.
fn ending_in(last: u32, step: u32) -> Ending
    ensures { result ≡ ends_in last step }
{
    if step < last {
        Ending::Syncs
    } else {
        Ending::Stops
    }
}

impl TaskBody for ExactRod {
    type Kept = Piece;

    ghost may = { λ s path arrays step k o. o ≡ rod_does s.last arrays step k };

    fn run(
        &self,
        alloc: Global,
        piece: &mut Piece,
        view: &View<'_>,
        out: &mut Out<Piece>,
    ) -> Result<Ending, AllocError> {
        let cells = view.cells(0);
        let mut values = out.buffer(alloc);
        let mut place = piece.first;
        while place < piece.end {
            values.push(mixed(cells, place))?;
            place += 1;
        }
        out.put_row(0, piece.first, values)?;
        Ok(ending_in(self.last, view.step))
    }
}

impl Exact for ExactRod {
    ghost does = { λ s path arrays step k. rod_does s.last arrays step k };

    ghost exact = { λ s path arrays step k o h. h };
}
