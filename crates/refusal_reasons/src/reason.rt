//! Why a text is refused.
ghost use Rattle.std.specs.Prelude.{◌≡◌, ◌++◌, OnOk, IfOk};
ghost use Rattle.text_lines.specs.Text.{words_of};
ghost use Rattle.refusal_reasons.specs.Reasons.{
  first_word_at as first_word_at_of,
  head,
  is_outer as is_outer_of,
  open_line as open_line_of,
  open_shown,
  place_shown,
  refusal_reason as reason_of,
  shown_by,
};

use crate::known::open_block;
use crate::lines::line_at;
use crate::marked::push_line;
use crate::marks::Mark;
use crate::meaning::{Kind, meaning_of};
use crate::names::code_name;
use crate::pieces::{push_field, push_text};
use crate::place::{Place, place_of};
use job_reader::words::is_word;
use std::alloc::{AllocError, Global};
use text_lines::{Code, Refusal, split_word};

// Appends the place, the code with its name, and what it means.
fn push_head(out: &mut Vec<u8>, source: &[u8], kind: Kind, place: Place) -> Result<(), AllocError>
    ensures { OnOk result (out.new.items ≡ out.old.items ++ head source.now kind place) }
{
    push_text(out, source)?;
    push_field(out, b":", place.line)?;
    push_field(out, b":", place.column)?;
    push_field(out, b": code ", place.code.number())?;
    push_text(out, b" ")?;
    push_text(out, code_name(place.code).as_bytes())?;
    push_text(out, b": ")?;
    push_text(out, meaning_of(kind, place.code).as_bytes())?;
    push_text(out, b"\n")
}

// Returns the place of the first word of a line.
fn first_word_at(text: &[u8], line: usize) -> Place
    ensures { result ≡ first_word_at_of text.now line }
{
    let code = Code::UnknownLine;
    place_of(text, Refusal { line, code }, None)
}

// Returns the place that is shown.
fn shown_place(
    alloc: Global,
    text: &[u8],
    refusal: Refusal,
    mark: Option<Mark>,
) -> Result<Place, AllocError>
    ensures { IfOk result (λ place. place ≡ shown_by refusal.code text.now refusal mark) }
{
    match refusal.code {
        Code::Unclosed => Ok(first_word_at(text, open_block(alloc, text, refusal.line)?)),
        Code::TooLong => Ok(first_word_at(text, 0)),
        _ => Ok(place_of(text, refusal, mark)),
    }
}

// Returns true if a line begins as one outside bodies.
fn is_outer(line: &[u8]) -> bool
    ensures { result ≡ is_outer_of (words_of line.now) }
{
    match split_word(line) {
        Some((word, _)) => {
            is_word(word, b"array") || is_word(word, b"body") || is_word(word, b"start")
        }
        None => false,
    }
}

// Returns the number of the line whose block is still open when a line outside bodies is refused, or 0.
fn open_line(alloc: Global, text: &[u8], refusal: Refusal) -> Result<usize, AllocError>
    ensures { IfOk result (λ line. line ≡ open_line_of refusal.code text.now refusal) }
{
    if refusal.code == Code::UnknownLine && is_outer(line_at(text, refusal.line)) {
        return open_block(alloc, text, refusal.line);
    }
    Ok(0)
}

// Appends the line of a place.
fn push_place(alloc: Global, out: &mut Vec<u8>, place: Place, text: &[u8]) -> Result<(), AllocError>
    ensures { OnOk result (out.new.items ≡ out.old.items ++ place_shown place text.now) }
{
    let before = place.column.saturating_sub(1);
    push_line(
        alloc,
        out,
        place.line,
        before,
        place.count,
        line_at(text, place.line),
    )
}

// Appends the line whose block is still open, if there is one.
fn push_open(alloc: Global, out: &mut Vec<u8>, text: &[u8], line: usize) -> Result<(), AllocError>
    ensures { OnOk result (out.new.items ≡ out.old.items ++ open_shown line text.now) }
{
    if line == 0 {
        return Ok(());
    }
    push_field(out, b"the block of line ", line)?;
    push_text(out, b" is still open:\n")?;
    push_place(alloc, out, first_word_at(text, line), text)
}

// Appends the line that is shown.
fn push_shown(
    alloc: Global,
    out: &mut Vec<u8>,
    text: &[u8],
    refusal: Refusal,
    mark: Option<Mark>,
) -> Result<(), AllocError>
    ensures { OnOk result (out.new.items ≡ out.old.items ++ place_shown (shown_by refusal.code text.now refusal mark) text.now) }
{
    let shown = shown_place(alloc, text, refusal, mark)?;
    push_place(alloc, out, shown, text)
}

// Appends the line of the block that is still open when a line outside bodies is refused.
fn push_block(
    alloc: Global,
    out: &mut Vec<u8>,
    text: &[u8],
    refusal: Refusal,
) -> Result<(), AllocError>
    ensures { OnOk result (out.new.items ≡ out.old.items ++ open_shown (open_line_of refusal.code text.now refusal) text.now) }
{
    let line = open_line(alloc, text, refusal)?;
    push_open(alloc, out, text, line)
}

// Appends the lines of a text that are shown.
#[tactic(auto, using(crate::proofs::Behind::last))]
fn push_lines(
    alloc: Global,
    out: &mut Vec<u8>,
    text: &[u8],
    refusal: Refusal,
    mark: Option<Mark>,
) -> Result<(), AllocError>
    ensures { OnOk result (out.new.items ≡ out.old.items
        ++ (place_shown (shown_by refusal.code text.now refusal mark) text.now ++ open_shown (open_line_of refusal.code text.now refusal) text.now)) }
{
    push_shown(alloc, out, text, refusal, mark)?;
    push_block(alloc, out, text, refusal)
}

/// Returns why a text is refused, in words for people, by what the refusal is about: the source, the line and the column, the
/// code with its name and its meaning, and the line with carets below what counts. Of a long line, only 160 bytes round the
/// mark are shown; of a text that is too long, none. If an `end` is missing, the line of the block that is still open is shown.
pub fn refusal_reason(
    alloc: Global,
    source: &str,
    text: &[u8],
    kind: Kind,
    refusal: Refusal,
    mark: Option<Mark>,
) -> Result<Vec<u8>, AllocError>
    ensures { IfOk result (λ reason. reason.items ≡ reason_of source.now text.now kind refusal mark) }
{
    let mut out = Vec::new(alloc);
    let place = place_of(text, refusal, mark);
    push_head(&mut out, source.as_bytes(), kind, place)?;
    push_lines(alloc, &mut out, text, refusal, mark)?;
    Ok(out)
}
