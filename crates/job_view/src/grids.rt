//! Cells in rows.
ghost use Rattle.std.specs.Prelude.{◌≡◌, ◌++◌, ◌+◌, ◌<◌, ◌≤◌, OnOk, length};
ghost use Rattle.job_view.specs.Grids.{
  beside as beside_of,
  board_frame as board_frame_of,
  frame_end,
  frame_head,
  grid,
  layer,
  layers,
  mark,
  mark_if,
  marks_from,
  path,
  placed as placed_at,
  shaded,
  side as side_of,
  sized as sized_for,
  small_frame as small_frame_of,
  time_frame as time_frame_of,
};

use crate::cells::{Extent, shade};
use crate::pieces::{push_field, push_text};
use std::alloc::{AllocError, Global};

/// Where cells are drawn, and how many there are across and down.
#[derive(Clone, Copy)]
pub(crate) struct Frame {
    pub(crate) left: u128,
    pub(crate) top: u128,
    pub(crate) wide: u128,
    pub(crate) high: u128,
    pub(crate) across: u128,
    pub(crate) down: u128,
}

// Appends a cell.
fn push_mark(out: &mut Vec<u8>, x: usize, y: usize) -> Result<(), AllocError>
    ensures { OnOk result (out.new.items ≡ out.old.items ++ mark x y) }
{
    push_field(out, b"M", x)?;
    push_field(out, b" ", y)?;
    push_text(out, b"h1")
}

// Appends the cell of this number if it is this dark.
fn push_mark_if(
    out: &mut Vec<u8>,
    extent: Extent,
    across: usize,
    dark: u128,
    at: usize,
    value: &i64,
) -> Result<(), AllocError>
    requires { 0 < across }
    ensures { OnOk result (out.new.items ≡ out.old.items ++ mark_if extent across dark at value.now) }
{
    if shade(extent, value) == dark {
        return push_mark(out, at % across, at / across);
    }
    Ok(())
}

// Appends the cells that are this dark.
fn push_marks(
    out: &mut Vec<u8>,
    extent: Extent,
    across: usize,
    dark: u128,
    values: &[i64],
) -> Result<(), AllocError>
    requires { 0 < across }
    ensures { OnOk result (out.new.items ≡ out.old.items ++ marks_from extent across dark (length values.now) values.now) }
{
    let count = values.len();
    let mut rest = values;
    while let Some((value, after)) = rest.split_first() {
        let at = count.saturating_sub(rest.len());
        push_mark_if(out, extent, across, dark, at, value)?;
        rest = after;
    }
    Ok(())
}

// Appends cells of one shade.
fn push_path(out: &mut Vec<u8>, dark: u128, marks: &[u8]) -> Result<(), AllocError>
    ensures { OnOk result (out.new.items ≡ out.old.items ++ path dark marks.now) }
{
    push_field(out, b"<path opacity=\".", dark)?;
    push_text(out, b"\" d=\"")?;
    push_text(out, marks)?;
    push_text(out, b"\"/>\n")
}

// Appends cells of one shade, if there are any.
fn push_shaded(out: &mut Vec<u8>, dark: u128, marks: &[u8]) -> Result<(), AllocError>
    ensures { OnOk result (out.new.items ≡ out.old.items ++ shaded dark marks.now) }
{
    if marks.is_empty() {
        return Ok(());
    }
    push_path(out, dark, marks)
}

// Appends all cells of one shade.
fn push_layer(
    alloc: Global,
    out: &mut Vec<u8>,
    extent: Extent,
    across: usize,
    values: &[i64],
    dark: u128,
) -> Result<(), AllocError>
    requires { 0 < across }
    ensures { OnOk result (out.new.items ≡ out.old.items ++ layer extent across values.now dark) }
{
    let mut marks = Vec::new(alloc);
    push_marks(&mut marks, extent, across, dark, values)?;
    push_shaded(out, dark, &marks)
}

// Appends the cells of each shade from 1 to a last one.
fn push_layers(
    alloc: Global,
    out: &mut Vec<u8>,
    extent: Extent,
    across: usize,
    values: &[i64],
    count: u32,
) -> Result<(), AllocError>
    requires { 0 < across }
    ensures { OnOk result (out.new.items ≡ out.old.items ++ layers extent across values.now count) }
{
    for n in 0..count {
        push_layer(alloc, out, extent, across, values, u128::from(n) + 1)?;
    }
    Ok(())
}

// Begins a frame.
fn push_frame_head(out: &mut Vec<u8>, frame: Frame) -> Result<(), AllocError>
    ensures { OnOk result (out.new.items ≡ out.old.items ++ frame_head frame) }
{
    push_field(out, b"<svg x=\"", frame.left)?;
    push_field(out, b"\" y=\"", frame.top)?;
    push_field(out, b"\" width=\"", frame.wide)?;
    push_field(out, b"\" height=\"", frame.high)?;
    push_field(out, b"\" viewBox=\"0 -.5 ", frame.across)?;
    push_field(out, b" ", frame.down)?;
    push_text(
        out,
        b"\" preserveAspectRatio=\"none\" stroke=\"#6d9fd6\">\n",
    )
}

// Ends a frame with a line round it.
fn push_frame_end(out: &mut Vec<u8>, frame: Frame) -> Result<(), AllocError>
    ensures { OnOk result (out.new.items ≡ out.old.items ++ frame_end frame) }
{
    push_field(out, b"</svg><path class=\"o\" d=\"M", frame.left)?;
    push_field(out, b" ", frame.top)?;
    push_field(out, b"h", frame.wide)?;
    push_field(out, b"v", frame.high)?;
    push_field(out, b"h-", frame.wide)?;
    push_text(out, b"z\"/>\n")
}

/// Appends cells in rows of this many, in a frame.
pub(crate) fn push_grid(
    alloc: Global,
    out: &mut Vec<u8>,
    frame: Frame,
    extent: Extent,
    across: usize,
    values: &[i64],
) -> Result<(), AllocError>
    requires { 0 < across }
    ensures { OnOk result (out.new.items ≡ out.old.items ++ grid frame extent across values.now) }
{
    push_frame_head(out, frame)?;
    push_layers(alloc, out, extent, across, values, 9)?;
    push_frame_end(out, frame)
}

// Returns the length of a cell's side.
fn side(room: u32, longest: u32, across: usize) -> u128
    requires across { 0 < across }
    ensures side { result ≡ side_of room longest across }
    ensures most { result < 4294967296 }
{
    let fits = u128::from(room) / u128::from(across as u64);
    u128::from(longest).min(fits).max(1)
}

// Returns a frame for cells in rows of `across`: squares, unless there are too many for the room.
fn sized(wide: u32, high: u32, longest: u32, across: usize, count: usize) -> Frame
    requires { 0 < across }
    ensures { result ≡ sized_for wide high longest across count }
{
    let side = side(wide, longest, across);
    let down = u128::from(count.div_ceil(across) as u64);
    let across = u128::from(across as u64);
    Frame {
        left: 80,
        top: 18,
        wide: u128::from(wide).min(across * side),
        high: u128::from(high).min(down * side),
        across,
        down,
    }
}

/// Returns the frame of one large board.
pub(crate) fn board_frame(across: usize, count: usize) -> Frame
    requires { 0 < across }
    ensures { result ≡ board_frame_of across count }
{
    sized(800, 600, 20, across, count)
}

/// Returns the frame of an array over supersteps.
pub(crate) fn time_frame(across: usize, count: usize) -> Frame
    requires { 0 < across }
    ensures frame { result ≡ time_frame_of across count }
    ensures room { result.top + result.high < 4294967296 }
    ensures rows { result.down < 18446744073709551616 }
{
    let frame = sized(800, 600, 20, across, count);
    Frame {
        high: frame.high.max(24),
        ..frame
    }
}

/// Returns the frame of a small board, before it is placed.
pub(crate) fn small_frame(across: usize, cells: usize) -> Frame
    requires { 0 < across }
    ensures frame { result ≡ small_frame_of across cells }
    ensures size { (result.wide ≤ 152) × (result.high ≤ 152) }
{
    sized(152, 152, 8, across, cells)
}

/// Returns how many small boards are side by side: at least one.
pub(crate) fn beside(frame: Frame) -> u128
    requires { frame.wide ≤ 152 }
    ensures beside { result ≡ beside_of frame }
    ensures some { 0 < result }
{
    800 / (frame.wide + 8)
}

/// Returns a small board's frame in its place, by its number.
pub(crate) fn placed(frame: Frame, number: usize) -> Frame
    requires { (frame.wide ≤ 152) × (frame.high ≤ 152) }
    ensures { result ≡ placed_at frame number }
{
    let number = u128::from(number as u64);
    let beside = beside(frame);
    Frame {
        left: 80 + number % beside * (frame.wide + 8),
        top: 38 + number / beside * (frame.high + 20),
        ..frame
    }
}
