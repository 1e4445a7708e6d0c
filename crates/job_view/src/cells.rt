//! Arrays as strips of cells.
ghost use Rattle.std.specs.Prelude.{◌≡◌, ◌++◌, ◌^◌, ◌≤◌, ◌<◌, OnOk, IfSome, length, option_map};
ghost use Rattle.std.specs.Fmt.{signed_decimal};
ghost use Rattle.job_view.specs.Cells.{
  after_none as after_none_of,
  escape,
  escaped,
  least as least_of,
  most as most_of,
  extent_of,
  shade as shade_of,
  cell,
  cells_from,
  longest as longest_of,
  value_at,
  values_from,
  few_values,
  shown_values,
  caption,
  strip,
  strips_from,
};

use crate::pieces::{push_field, push_text};
use itoa::Buffer;
use std::alloc::AllocError;
use superstep_memory::arrays::Arrays;

// Returns what follows a code point that no text of XML may hold, if a name begins with one.
fn after_none(name: &[u8]) -> Option<&[u8]>
    ensures found { option_map (λ s. s.now) result ≡ after_none_of name.now }
    ensures shorter { IfSome result (λ rest. length rest.now < length name.now) }
{
    let (a, rest) = name.split_first()?;
    let (b, rest) = rest.split_first()?;
    let (c, rest) = rest.split_first()?;
    if *a == 239 && *b == 191 && (*c == 190 || *c == 191) {
        Some(rest)
    } else {
        None
    }
}

// Appends a byte of a name, escaped for XML.
fn push_byte(out: &mut Vec<u8>, byte: u8) -> Result<(), AllocError>
    ensures { OnOk result (out.new.items ≡ out.old.items ++ escaped byte) }
{
    match byte {
        b'&' => push_text(out, b"&amp;"),
        b'<' => push_text(out, b"&lt;"),
        b'>' => push_text(out, b"&gt;"),
        0..32 => push_text(out, b" "),
        other => push_text(out, &[other]),
    }
}

/// Appends a name, escaped for XML.
#[tactic(auto, using(crate::proofs::Escapes::none_escaped, crate::proofs::Escapes::byte_escaped))]
pub(crate) fn push_escaped(out: &mut Vec<u8>, name: &[u8]) -> Result<(), AllocError>
    ensures { OnOk result (out.new.items ≡ out.old.items ++ escape name.now) }
{
    let mut rest = name;
    while let Some((byte, after)) = rest.split_first() {
        if let Some(more) = after_none(rest) {
            push_text(out, b" ")?;
            rest = more;
        } else {
            push_byte(out, *byte)?;
            rest = after;
        }
    }
    Ok(())
}

// Returns the least value, or 0 if there is none.
fn least(values: &[i64]) -> i64
    ensures { result ≡ least_of values.now }
{
    let Some((first, rest)) = values.split_first() else {
        return 0;
    };
    let mut low = *first;
    for value in rest {
        low = low.min(*value);
    }
    low
}

// Returns the greatest value, or 0 if there is none.
fn most(values: &[i64]) -> i64
    ensures { result ≡ most_of values.now }
{
    let Some((first, rest)) = values.split_first() else {
        return 0;
    };
    let mut high = *first;
    for value in rest {
        high = high.max(*value);
    }
    high
}

// The least and the greatest value of an array.
#[derive(Clone, Copy)]
pub(crate) struct Extent {
    pub(crate) low: i64,
    pub(crate) high: i64,
}

/// Returns the least and the greatest of these values.
pub(crate) fn range_of(values: &[i64]) -> Extent
    ensures { result ≡ extent_of values.now }
{
    Extent {
        low: least(values),
        high: most(values),
    }
}

/// Returns how far up a value is between the least and the greatest, in ninths.
pub(crate) fn shade(extent: Extent, value: &i64) -> u128
    ensures { result ≡ shade_of extent value.now }
{
    let span = u128::from(extent.high.abs_diff(extent.low));
    if span == 0 {
        return 0;
    }
    u128::from(value.abs_diff(extent.low)) * 9 / span
}

// Appends a value.
fn push_signed(out: &mut Vec<u8>, value: &i64) -> Result<(), AllocError>
    ensures { OnOk result (out.new.items ≡ out.old.items ++ signed_decimal value.now) }
{
    push_text(out, Buffer::new().format(*value).as_bytes())
}

// Appends a cell.
fn push_cell(out: &mut Vec<u8>, at: usize, shade: u128) -> Result<(), AllocError>
    ensures { OnOk result (out.new.items ≡ out.old.items ++ cell at shade) }
{
    push_field(out, b"<rect x=\"", at)?;
    push_field(out, b"\" width=\"1\" height=\"1\" fill-opacity=\".", shade)?;
    push_text(out, b"\"/>\n")
}

// Appends the cells of an array.
fn push_cells(out: &mut Vec<u8>, extent: Extent, values: &[i64]) -> Result<(), AllocError>
    ensures { OnOk result (out.new.items ≡ out.old.items ++ cells_from extent (length values.now) values.now) }
{
    let count = values.len();
    let mut rest = values;
    while let Some((value, after)) = rest.split_first() {
        push_cell(out, count.saturating_sub(rest.len()), shade(extent, value))?;
        rest = after;
    }
    Ok(())
}

// Returns the length of the longest of these values in decimal.
fn longest(values: &[i64]) -> usize
    ensures longest { result ≡ longest_of values.now }
    ensures some { 0 < result }
{
    let mut signs = 1;
    for value in values {
        signs = signs.max(Buffer::new().format(*value).len());
    }
    signs
}

// Appends a value, in the middle of its cell.
fn push_value(out: &mut Vec<u8>, count: usize, at: usize, value: &i64) -> Result<(), AllocError>
    ensures { OnOk result (out.new.items ≡ out.old.items ++ value_at count at value.now) }
{
    push_field(out, b"<text class=\"v\" transform=\"translate(", at)?;
    push_field(out, b".5,.68) scale(", count)?;
    push_text(out, b",1) scale(.00125,.04)\">")?;
    push_signed(out, value)?;
    push_text(out, b"</text>\n")
}

// Appends values, each in the middle of its cell.
fn push_values(out: &mut Vec<u8>, values: &[i64]) -> Result<(), AllocError>
    ensures { OnOk result (out.new.items ≡ out.old.items ++ values_from (length values.now) values.now) }
{
    let count = values.len();
    let mut rest = values;
    while let Some((value, after)) = rest.split_first() {
        push_value(out, count, count.saturating_sub(rest.len()), value)?;
        rest = after;
    }
    Ok(())
}

// Appends the values of a few cells.
fn push_few_values(out: &mut Vec<u8>, values: &[i64]) -> Result<(), AllocError>
    ensures { OnOk result (out.new.items ≡ out.old.items ++ few_values values.now) }
{
    let size = 1300 / values.len().max(1) / longest(values);
    push_field(out, b"<g font-size=\"", size.min(12))?;
    push_text(out, b"\">\n")?;
    push_values(out, values)?;
    push_text(out, b"</g>\n")
}

// Appends the values of an array of 64 cells or fewer.
fn push_shown_values(out: &mut Vec<u8>, values: &[i64]) -> Result<(), AllocError>
    ensures { OnOk result (out.new.items ≡ out.old.items ++ shown_values values.now) }
{
    if values.len() <= 64 {
        return push_few_values(out, values);
    }
    Ok(())
}

/// Appends what is above the cells of an array, but for its end.
pub(crate) fn push_caption(
    out: &mut Vec<u8>,
    top: u128,
    name: &str,
    count: usize,
    extent: Extent,
) -> Result<(), AllocError>
    ensures { OnOk result (out.new.items ≡ out.old.items ++ caption top name.now count extent) }
{
    push_field(out, b"<g transform=\"translate(0,", top)?;
    push_text(out, b")\"><text class=\"k\" x=\"80\" y=\"12\">")?;
    push_escaped(out, name.as_bytes())?;
    push_field(out, b": cells ", count)?;
    push_text(out, b", least ")?;
    push_signed(out, &extent.low)?;
    push_text(out, b", greatest ")?;
    push_signed(out, &extent.high)
}

/// Appends an array as a strip, so far below the top.
pub(crate) fn push_strip(
    out: &mut Vec<u8>,
    top: u128,
    name: &str,
    values: &[i64],
) -> Result<(), AllocError>
    ensures { OnOk result (out.new.items ≡ out.old.items ++ strip top (name.now, values.now)) }
{
    let extent = range_of(values);
    push_caption(out, top, name, values.len(), extent)?;
    push_field(
        out,
        b"</text>\n<svg x=\"80\" y=\"18\" width=\"800\" height=\"25\" viewBox=\"0 0 ",
        values.len(),
    )?;
    push_text(
        out,
        b" 1\" preserveAspectRatio=\"none\" overflow=\"visible\"><g class=\"c\">\n",
    )?;
    push_cells(out, extent, values)?;
    push_text(out, b"</g>\n")?;
    push_shown_values(out, values)?;
    push_text(
        out,
        b"</svg><path class=\"o\" d=\"M80 18h800v25h-800z\"/></g>\n",
    )
}

/// Appends arrays, each as a strip of cells.
pub(crate) fn push_strips(out: &mut Vec<u8>, arrays: &Arrays) -> Result<(), AllocError>
    ensures { OnOk result (out.new.items ≡ out.old.items ++ strips_from 0 arrays.now) }
{
    for place in 0..arrays.len() {
        if let Some((name, cells)) = arrays.get(place) {
            push_strip(out, 310 + 50 * u128::from(place as u64), name, cells)?;
        }
    }
    Ok(())
}
