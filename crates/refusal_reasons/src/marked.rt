//! A line and its mark.
ghost use Rattle.std.specs.Prelude.{◌≡◌, ◌++◌, ◌+◌, ◌<◌, ◌≤◌, OnOk, IfOk, codes, decimal, nat_lt, length, take, drop};
ghost use Rattle.refusal_reasons.specs.Reasons.{
  cut_line,
  dots as dots_of,
  hex as hex_of,
  hidden as hidden_of,
  line_shown,
  mark,
  part_line,
  shown as shown_of,
  shown_byte,
};

use crate::pieces::{push_field, push_text, push_times};
use itoa::Buffer;
use std::alloc::{AllocError, Global};

// How many bytes of a line may be shown.
const MOST_SHOWN: usize = 160;

// Returns a digit of base 16.
fn hex(digit: u8) -> u8
    requires { digit < 16 }
    ensures { result ≡ hex_of digit }
{
    if digit < 10 { 48 + digit } else { 87 + digit }
}

// Appends a byte as it is shown.
fn push_byte(out: &mut Vec<u8>, byte: u8) -> Result<(), AllocError>
    ensures { OnOk result (out.new.items ≡ out.old.items ++ shown_byte byte) }
{
    if 32 <= byte && byte <= 126 {
        return push_text(out, &[byte]);
    }
    push_text(out, b"\\x")?;
    push_text(out, &[hex(byte / 16), hex(byte % 16)])
}

// Appends bytes as they are shown.
fn push_shown(out: &mut Vec<u8>, line: &[u8]) -> Result<(), AllocError>
    ensures { OnOk result (out.new.items ≡ out.old.items ++ shown_of line.now) }
{
    for byte in line {
        push_byte(out, *byte)?;
    }
    Ok(())
}

// Returns bytes as they are shown.
fn shown(alloc: Global, line: &[u8]) -> Result<Vec<u8>, AllocError>
    ensures { IfOk result (λ text. text.items ≡ shown_of line.now) }
{
    let mut out = Vec::new(alloc);
    push_shown(&mut out, line)?;
    Ok(out)
}

// Splits a line into its first bytes and the others.
fn cut(line: &[u8], count: usize) -> (&[u8], &[u8])
    ensures front { result.0.now ≡ take count line.now }
    ensures back { result.1.now ≡ drop count line.now }
{
    if count <= line.len() {
        line.split_at(count)
    } else {
        (line, &[])
    }
}

// Appends the mark below a line.
fn push_mark(
    alloc: Global,
    out: &mut Vec<u8>,
    before: usize,
    count: usize,
    line: &[u8],
) -> Result<(), AllocError>
    ensures { OnOk result (out.new.items ≡ out.old.items ++ mark before count line.now) }
{
    let (front, rest) = cut(line, before);
    let (marked, _) = cut(rest, count);
    let blanks = shown(alloc, front)?.len();
    let carets = shown(alloc, marked)?.len().max(1);
    push_times(out, b' ', blanks)?;
    push_times(out, b'^', carets)
}

// Returns how many bytes at the front of a line aren't shown.
fn hidden(before: usize, line: &[u8]) -> usize
    ensures hidden { result ≡ hidden_of before line.now }
    ensures within { result ≤ length line.now }
{
    let wanted = before.saturating_sub(40);
    wanted.min(line.len().saturating_sub(MOST_SHOWN))
}

// Returns dots if something isn't shown.
fn dots(is_cut: bool) -> &'static [u8]
    ensures { result.now ≡ dots_of is_cut }
{
    if is_cut { b"..." } else { b"" }
}

// The part of a line that is shown, and whether bytes are left out before it and after it.
#[derive(Clone, Copy)]
struct Window<'a> {
    is_cut: bool,
    goes_on: bool,
    part: &'a [u8],
}

// Returns the part of a line after its first `from` bytes.
fn shown_part(from: usize, line: &[u8]) -> Window<'_>
    requires { from ≤ length line.now }
    ensures cut { result.is_cut ≡ nat_lt 0 from }
    ensures rest { result.goes_on ≡ nat_lt (from + 160) (length line.now) }
    ensures part { result.part.now ≡ take 160 (drop from line.now) }
{
    let (_, rest) = cut(line, from);
    let (part, _) = cut(rest, MOST_SHOWN);
    Window {
        is_cut: from > 0,
        goes_on: from + MOST_SHOWN < line.len(),
        part,
    }
}

// Appends the number of a line, and the part of it.
fn push_numbered(out: &mut Vec<u8>, number: usize, seen: Window<'_>) -> Result<(), AllocError>
    ensures { OnOk result (out.new.items ≡ out.old.items ++ (codes "  " ++ decimal number ++ codes " | " ++ dots_of seen.entry.is_cut
        ++ shown_of seen.entry.part.now ++ dots_of seen.entry.goes_on ++ codes "\n  ")) }
{
    push_field(out, b"  ", number)?;
    push_text(out, b" | ")?;
    push_text(out, dots(seen.is_cut))?;
    push_shown(out, seen.part)?;
    push_text(out, dots(seen.goes_on))?;
    push_text(out, b"\n  ")
}

// Appends a part of a line with the line's number and its mark.
fn push_part(
    alloc: Global,
    out: &mut Vec<u8>,
    number: usize,
    seen: Window<'_>,
    before: usize,
    count: usize,
) -> Result<(), AllocError>
    ensures { OnOk result (out.new.items ≡ out.old.items
        ++ part_line number seen.entry.is_cut seen.entry.goes_on before count seen.entry.part.now) }
{
    push_numbered(out, number, seen)?;
    push_times(out, b' ', Buffer::new().format(number).len())?;
    push_text(out, b" | ")?;
    push_times(out, b' ', dots(seen.is_cut).len())?;
    push_mark(alloc, out, before, count, seen.part)?;
    push_text(out, b"\n")
}

// Appends a line with its number and its mark.
fn push_marked(
    alloc: Global,
    out: &mut Vec<u8>,
    number: usize,
    before: usize,
    count: usize,
    line: &[u8],
) -> Result<(), AllocError>
    ensures { OnOk result (out.new.items ≡ out.old.items ++ cut_line number (hidden_of before line.now) before count line.now) }
{
    let from = hidden(before, line);
    let seen = shown_part(from, line);
    push_part(alloc, out, number, seen, before.saturating_sub(from), count)
}

/// Appends a line with its number and its mark, or nothing if it is empty. Of a long line, only what is round the mark is shown.
pub(crate) fn push_line(
    alloc: Global,
    out: &mut Vec<u8>,
    number: usize,
    before: usize,
    count: usize,
    line: &[u8],
) -> Result<(), AllocError>
    ensures { OnOk result (out.new.items ≡ out.old.items ++ line_shown number before count line.now) }
{
    if line.is_empty() {
        return Ok(());
    }
    push_marked(alloc, out, number, before, count, line)
}
