//! A kernel over a board: each cell from the nine cells round it.
ghost use Rattle.std.specs.Prelude.{◌≡◌, ◌≤◌, ◌+◌, ◌*◌, length, take, drop};
ghost use Rattle.task_bodies.specs.Board.{GridMay, are_rows, row_at, row_before, near};

use crate::body::{Ending, Out, TaskBody, View};
use crate::cells::ending_in;
use std::alloc::{AllocError, Global};

/// Rows side by side, from the row `first` to the one before the row `end`, which is greater. They count from 0.
#[derive(Clone, Copy)]
pub struct BoardRows {
    /// The first row.
    pub first: u32,
    /// The row after the last.
    pub end: u32,
}

/// A cell of a board and its eight neighbours.
#[derive(Clone, Copy)]
pub struct Window {
    /// The cell before, in the row before.
    pub north_west: i64,
    /// The cell above: of the same column, in the row before.
    pub north: i64,
    /// The cell after, in the row before.
    pub north_east: i64,
    /// The cell before.
    pub west: i64,
    /// The cell itself.
    pub own: i64,
    /// The cell after.
    pub east: i64,
    /// The cell before, in the row after.
    pub south_west: i64,
    /// The cell below: of the same column, in the row after.
    pub south: i64,
    /// The cell after, in the row after.
    pub south_east: i64,
}

/// A board is an array, row after row, each with `width` cells. In each superstep up to `last`, sets each cell of some rows to what
/// the closure returns for the cell and its eight neighbours. Cells beyond the edges hold `beyond`. A task that has no rows, or
/// rows that don't exist, fails with number 16.
#[derive(Drop)]
pub struct Grid<F> {
    /// The place of the array, in declared order.
    pub array: u16,
    /// How many cells a row has.
    pub width: u32,
    /// What cells beyond the edges hold.
    pub beyond: i64,
    /// The last superstep in which tasks run.
    pub last: u32,
    /// The closure.
    pub f: F,
}

// The cells of one column in three rows.
#[derive(Clone, Copy)]
struct Column {
    up: i64,
    own: i64,
    down: i64,
}

// Three rows, one below the other.
#[derive(Clone, Copy)]
struct Three<'a> {
    up: &'a [i64],
    own: &'a [i64],
    down: &'a [i64],
}

// Returns the cell of this number, or `beyond` if there is no such cell.
#[inline(always)]
fn cell_or(cells: &[i64], place: usize, beyond: i64) -> i64
    ensures { result ≡ near beyond cells.now (place + 1) }
{
    cells.get(place).copied().unwrap_or(beyond)
}

// Returns the cells of this column.
#[inline(always)]
fn column_of(rows: Three<'_>, place: usize, beyond: i64) -> Column
    ensures up { result.up ≡ near beyond rows.entry.up.now (place + 1) }
    ensures own { result.own ≡ near beyond rows.entry.own.now (place + 1) }
    ensures down { result.down ≡ near beyond rows.entry.down.now (place + 1) }
{
    Column {
        up: cell_or(rows.up, place, beyond),
        own: cell_or(rows.own, place, beyond),
        down: cell_or(rows.down, place, beyond),
    }
}

// Returns a cell with its neighbours: those of three columns.
#[inline(always)]
fn window_of(left: Column, middle: Column, right: Column) -> Window
    ensures { result ≡ record {
      north_west = left.up;
      north = middle.up;
      north_east = right.up;
      west = left.own;
      own = middle.own;
      east = right.own;
      south_west = left.down;
      south = middle.down;
      south_east = right.down;
    } }
{
    Window {
        north_west: left.up,
        north: middle.up,
        north_east: right.up,
        west: left.own,
        own: middle.own,
        east: right.own,
        south_west: left.down,
        south: middle.down,
        south_east: right.down,
    }
}

// Returns `width` cells from this place on, or as many as exist.
fn cells_from(cells: &[i64], place: usize, width: usize) -> &[i64]
    ensures { result.now ≡ take width (drop place cells.now) }
{
    if place >= cells.len() {
        return &[];
    }
    let rest = &cells[place..];
    if rest.len() <= width {
        return rest;
    }
    &rest[..width]
}

// Returns the row before the row of this number, which begins at this cell.
fn row_above(cells: &[i64], row: usize, at: usize, width: usize) -> &[i64]
    requires { at ≡ row * width }
    ensures { result.now ≡ row_before cells.now width row }
{
    if row == 0 {
        return &[];
    }
    cells_from(cells, at - width, width)
}

// Returns the row of this number, which begins at this cell, with those round it.
fn rows_round(cells: &[i64], row: usize, at: usize, width: usize) -> Three<'_>
    requires at { at ≡ row * width }
    requires there { at + width ≤ length cells.now }
    ensures up { result.up.now ≡ row_before cells.now width row }
    ensures own { result.own.now ≡ row_at cells.now width row }
    ensures down { result.down.now ≡ row_at cells.now width (row + 1) }
{
    Three {
        up: row_above(cells, row, at, width),
        own: cells_from(cells, at, width),
        down: cells_from(cells, at + width, width),
    }
}

// Returns true if these rows are among `count` cells. There is at least one row.
fn have_all(count: usize, width: usize, rows: BoardRows) -> bool
    ensures { result ≡ are_rows count width rows }
{
    if width == 0 || rows.first >= rows.end {
        return false;
    }
    match (rows.end as usize).checked_mul(width) {
        Some(all) => all <= count,
        None => false,
    }
}

impl<F: Fn(Window) -> i64> Grid<F> {
    ghost use Rattle.std.specs.Prelude.{OnOk};
    ghost use Rattle.task_bodies.specs.Board.{HasRow};

    // Appends what the closure returns for each cell of a row.
    fn push_row(
        &self,
        rows: Three<'_>,
        width: usize,
        values: &mut Vec<i64>,
    ) -> Result<(), AllocError>
        requires { F.IsAlwaysCallable self.now.f }
        ensures { OnOk result (HasRow (λ w v. F.post self.now.f w v) self.now.beyond rows.entry.up.now rows.entry.own.now rows.entry.down.now width values.old.items values.new.items) }
    {
        let mut left = Column {
            up: self.beyond,
            own: self.beyond,
            down: self.beyond,
        };
        let mut middle = column_of(rows, 0, self.beyond);
        let mut place = 0;
        while place < width {
            let right = column_of(rows, place + 1, self.beyond);
            let value = (self.f)(window_of(left, middle, right));
            values.push(value)?;
            left = middle;
            middle = right;
            place += 1;
        }
        Ok(())
    }
}

impl<F: Fn(Window) -> i64> TaskBody for Grid<F> {
    type Kept = BoardRows;

    ghost ready = { λ s. F.IsAlwaysCallable s.f };

    ghost may = { λ s path arrays step k o. GridMay (λ w v. F.post s.f w v) s.array s.width s.beyond s.last arrays step k o };

    fn run(
        &self,
        alloc: Global,
        kept: &mut BoardRows,
        view: &View<'_>,
        out: &mut Out<BoardRows>,
    ) -> Result<Ending, AllocError> {
        let rows = *kept;
        let width = self.width as usize;
        let cells = view.cells(self.array);
        if !have_all(cells.len(), width, rows) {
            return Ok(Ending::Fails(16));
        }
        let end = rows.end as usize;
        let mut row = rows.first as usize;
        let first = row * width;
        let mut at = first;
        let mut values = out.buffer(alloc);
        while row < end {
            self.push_row(rows_round(cells, row, at, width), width, &mut values)?;
            row += 1;
            at += width;
        }
        out.put_row(self.array, first as u32, values)?;
        Ok(ending_in(self.last, view.step))
    }
}
