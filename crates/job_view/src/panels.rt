//! What is drawn of an array.
ghost use Rattle.std.specs.Prelude.{◌≡◌, ◌++◌, ◌+◌, ◌*◌, ◌<◌, ◌≤◌, OnOk, IfOk, length, drop, take};
ghost use Rattle.job_view.specs.Grids.{beside as beside_of, placed as placed_at};
ghost use Rattle.job_view.specs.Panels.{
  across_of as drawn_across,
  board as drawn_board,
  board_count as drawn_count,
  board_number,
  boards as drawn_boards,
  distance,
  drawn,
  height as drawn_height,
  height_of,
  missing,
  over_time as drawn_over_time,
  panels_from,
  row_number,
  row_numbers,
  several,
  small_boards,
  small_lines as drawn_lines,
  spacing,
};

use crate::cells::{push_caption, push_escaped, push_strip, range_of};
use crate::grids::{Frame, beside, board_frame, placed, push_grid, small_frame, time_frame};
use crate::pieces::{push_field, push_text};
use std::alloc::{AllocError, Global};

/// How an array is drawn.
#[derive(Clone, Copy)]
pub enum Form {
    /// Draws the cells side by side.
    Strip,
    /// Draws the cells in rows of this many.
    Board {
        /// How many cells a row has. 0 is as 1.
        across: u32,
    },
    /// Draws a row of all cells for each of several supersteps. Row `i` is of superstep `every * i`.
    OverTime {
        /// The distance of two rows, in supersteps.
        every: u32,
    },
    /// Draws a small board for each of several supersteps. Board `i` is of superstep `every * i`.
    Boards {
        /// How many cells a row of a board has. 0 is as 1.
        across: u32,
        /// The distance of two boards, in supersteps.
        every: u32,
    },
    /// Says that there is no such array.
    Missing,
}

/// An array as it is drawn.
#[derive(Clone, Copy)]
pub struct Panel<'a> {
    /// The array's name.
    pub name: &'a str,
    /// How many cells the array has.
    pub cells: usize,
    /// Its cells; over supersteps, its cells at the first of them, then at the next.
    pub values: &'a [i64],
    /// How it is drawn.
    pub form: Form,
}

// Appends the distance of two rows or boards, if it is above 1.
fn push_several(out: &mut Vec<u8>, every: u32) -> Result<(), AllocError>
    ensures { OnOk result (out.new.items ≡ out.old.items ++ several every) }
{
    push_field(out, b" every ", every)?;
    push_text(out, b" supersteps")
}

// Appends the distance of two rows or boards.
fn push_distance(out: &mut Vec<u8>, every: u32) -> Result<(), AllocError>
    ensures { OnOk result (out.new.items ≡ out.old.items ++ distance every) }
{
    if every <= 1 {
        return push_text(out, b" a superstep");
    }
    push_several(out, every)
}

// Appends of how many supersteps there is one row, or one board.
fn push_spacing(out: &mut Vec<u8>, what: &[u8], every: u32) -> Result<(), AllocError>
    ensures { OnOk result (out.new.items ≡ out.old.items ++ spacing what.now every) }
{
    push_text(out, b", a ")?;
    push_text(out, what)?;
    push_distance(out, every)
}

// Appends a number beside a row.
fn push_row_number(out: &mut Vec<u8>, y: u128, n: u128) -> Result<(), AllocError>
    ensures { OnOk result (out.new.items ≡ out.old.items ++ row_number y n) }
{
    push_field(out, b"<text class=\"n\" x=\"71\" y=\"", y)?;
    push_field(out, b"\">", n)?;
    push_text(out, b"</text>\n")
}

// Appends the superstep of the first row, and of the last if there are several.
fn push_row_numbers(out: &mut Vec<u8>, frame: Frame, every: u32) -> Result<(), AllocError>
    requires top { frame.top + frame.high < 4294967296 }
    requires down { frame.down < 18446744073709551616 }
    ensures { OnOk result (out.new.items ≡ out.old.items ++ row_numbers frame every) }
{
    push_row_number(out, 28, 0)?;
    if 1 < frame.down {
        let last = u128::from(every) * (frame.down - 1);
        return push_row_number(out, frame.top + frame.high, last);
    }
    Ok(())
}

// Appends the superstep of a small board, above it.
fn push_board_number(out: &mut Vec<u8>, frame: Frame, n: u128) -> Result<(), AllocError>
    ensures { OnOk result (out.new.items ≡ out.old.items ++ board_number frame n) }
{
    push_field(out, b"<text x=\"", frame.left)?;
    push_field(out, b"\" y=\"", frame.top.saturating_sub(4))?;
    push_field(out, b"\">", n)?;
    push_text(out, b"</text>\n")
}

// Splits values into the first ones and the others.
fn cut(values: &[i64], count: usize) -> (&[i64], &[i64])
    ensures front { result.0.now ≡ take count values.now }
    ensures back { result.1.now ≡ drop count values.now }
{
    if count <= values.len() {
        values.split_at(count)
    } else {
        (values, &[])
    }
}

// Returns how many boards there are.
fn board_count(cells: usize, values: &[i64]) -> usize
    ensures { result ≡ drawn_count cells values.now }
{
    values.len().div_ceil(cells.max(1))
}

// Appends a small board for each of several supersteps.
fn push_small_boards(
    alloc: Global,
    out: &mut Vec<u8>,
    across: usize,
    every: u32,
    cells: usize,
    values: &[i64],
) -> Result<(), AllocError>
    requires { 0 < across }
    ensures { OnOk result (out.new.items ≡ out.old.items ++ small_boards across every cells values.now) }
{
    let extent = range_of(values);
    let count = board_count(cells, values);
    let frame = small_frame(across, cells);
    let mut rest = values;
    let mut more = count;
    while more > 0 {
        let (board, after) = cut(rest, cells);
        let number = count.saturating_sub(more);
        let step = u128::from(every) * u128::from(number as u64);
        let place = placed(frame, number);
        push_board_number(out, place, step)?;
        push_grid(alloc, out, place, extent, across, board)?;
        rest = after;
        more -= 1;
    }
    Ok(())
}

// Returns how many cells a row has, at least one.
fn across_of(across: usize) -> usize
    ensures across { result ≡ drawn_across across }
    ensures some { 0 < result }
{
    across.max(1)
}

// Appends that there is no such array.
fn push_missing(out: &mut Vec<u8>, top: u128, name: &str) -> Result<(), AllocError>
    ensures { OnOk result (out.new.items ≡ out.old.items ++ missing top name.now) }
{
    push_field(out, b"<g transform=\"translate(0,", top)?;
    push_text(out, b")\"><text class=\"k\" x=\"80\" y=\"12\">")?;
    push_escaped(out, name.as_bytes())?;
    push_text(out, b": no such array</text></g>\n")
}

// Appends a board.
fn push_board(
    alloc: Global,
    out: &mut Vec<u8>,
    top: u128,
    panel: Panel<'_>,
    across: usize,
) -> Result<(), AllocError>
    requires { 0 < across }
    ensures { OnOk result (out.new.items ≡ out.old.items ++ drawn_board top panel.entry.name.now panel.entry.cells panel.entry.values.now across) }
{
    let Panel {
        name,
        cells,
        values,
        ..
    } = panel;
    let extent = range_of(values);
    push_caption(out, top, name, cells, extent)?;
    push_field(out, b", in rows of ", across)?;
    push_text(out, b"</text>\n")?;
    let frame = board_frame(across, values.len());
    push_grid(alloc, out, frame, extent, across, values)?;
    push_text(out, b"</g>\n")
}

// Appends an array over supersteps.
fn push_over_time(
    alloc: Global,
    out: &mut Vec<u8>,
    top: u128,
    panel: Panel<'_>,
    every: u32,
) -> Result<(), AllocError>
    ensures { OnOk result (out.new.items ≡ out.old.items ++ drawn_over_time top panel.entry.name.now panel.entry.cells panel.entry.values.now every) }
{
    let Panel {
        name,
        cells,
        values,
        ..
    } = panel;
    let extent = range_of(values);
    let across = across_of(cells);
    let frame = time_frame(across, values.len());
    push_caption(out, top, name, cells, extent)?;
    push_spacing(out, b"row", every)?;
    push_text(out, b"</text>\n")?;
    push_row_numbers(out, frame, every)?;
    push_grid(alloc, out, frame, extent, across, values)?;
    push_text(out, b"</g>\n")
}

// Appends an array as small boards.
fn push_boards(
    alloc: Global,
    out: &mut Vec<u8>,
    top: u128,
    panel: Panel<'_>,
    across: usize,
    every: u32,
) -> Result<(), AllocError>
    requires { 0 < across }
    ensures { OnOk result (out.new.items ≡ out.old.items ++ drawn_boards top panel.entry.name.now panel.entry.cells panel.entry.values.now across every) }
{
    let Panel {
        name,
        cells,
        values,
        ..
    } = panel;
    push_caption(out, top, name, cells, range_of(values))?;
    push_spacing(out, b"board", every)?;
    push_text(out, b"</text>\n")?;
    push_small_boards(alloc, out, across, every, cells, values)?;
    push_text(out, b"</g>\n")
}

// Appends a panel, so far below the top.
fn push_panel(
    alloc: Global,
    out: &mut Vec<u8>,
    top: u128,
    panel: Panel<'_>,
) -> Result<(), AllocError>
    ensures { OnOk result (out.new.items ≡ out.old.items ++ drawn top panel.entry.name.now panel.entry.cells panel.entry.values.now panel.entry.form) }
{
    match panel.form {
        Form::Strip => push_strip(out, top, panel.name, panel.values),
        Form::Board { across } => {
            let across = across_of(across as usize);
            push_board(alloc, out, top, panel, across)
        }
        Form::OverTime { every } => push_over_time(alloc, out, top, panel, every),
        Form::Boards { across, every } => {
            let across = across_of(across as usize);
            push_boards(alloc, out, top, panel, across, every)
        }
        Form::Missing => push_missing(out, top, panel.name),
    }
}

// Returns how high lines of small boards are.
fn small_lines(across: usize, cells: usize, values: &[i64]) -> u128
    requires { 0 < across }
    ensures { result ≡ drawn_lines across cells values.now }
{
    let frame = small_frame(across, cells);
    let count = u128::from(board_count(cells, values) as u64);
    count.div_ceil(beside(frame)) * (frame.high + 20)
}

// Returns how high a panel is.
fn height(panel: Panel<'_>) -> u128
    ensures { result ≡ drawn_height panel.entry.cells panel.entry.values.now panel.entry.form }
{
    let Panel { cells, values, .. } = panel;
    match panel.form {
        Form::Strip => 50,
        Form::Board { across } => {
            let across = across_of(across as usize);
            30 + board_frame(across, values.len()).high
        }
        Form::OverTime { .. } => 30 + time_frame(across_of(cells), values.len()).high,
        Form::Boards { across, .. } => {
            let across = across_of(across as usize);
            30 + small_lines(across, cells, values)
        }
        Form::Missing => 25,
    }
}

/// Appends panels one below another, the first so far below the top. A picture of over 2 ^ 128 pixels is out of memory.
pub(crate) fn push_panels(
    alloc: Global,
    out: &mut Vec<u8>,
    top: u128,
    panels: &[Panel<'_>],
) -> Result<(), AllocError>
    ensures { OnOk result (out.new.items ≡ out.old.items ++ panels_from top panels.now) }
{
    let mut top = top;
    for panel in panels {
        push_panel(alloc, out, top, *panel)?;
        match top.checked_add(height(*panel)) {
            Some(below) => top = below,
            None => return Err(AllocError),
        }
    }
    Ok(())
}

/// Returns how high a picture with these panels is. A picture of over 2 ^ 128 pixels is out of memory.
pub(crate) fn whole_height(panels: &[Panel<'_>]) -> Result<u128, AllocError>
    ensures { IfOk result (λ high. high ≡ 320 + height_of panels.now) }
{
    let mut high: u128 = 320;
    for panel in panels {
        match high.checked_add(height(*panel)) {
            Some(more) => high = more,
            None => return Err(AllocError),
        }
    }
    Ok(high)
}
