//! The lines of a body in the text of its job.
ghost use Rattle.std.specs.Prelude.{◌≡◌, ◌≤◌, ◌+◌, ◌^◌, ◌++◌, true, false, OnOk, MatchOption, length, slice_get};
ghost use Rattle.std.specs.Option.{option_map};
ghost use Rattle.text_lines.specs.Text.{is_skipped, lines_of, words_of};
ghost use Rattle.fault_reasons.specs.Lines.{begins_body as begins_body_of, from_body as from_body_of, joined, kept_from, line_in, spaced};
ghost use Rattle.fault_reasons.specs.Found.{line_found};

use crate::pieces::push_text;
use std::alloc::AllocError;
use text_lines::{first_word, split_line, split_word};

// Returns true if a line is the first of a body, or `None` if it is skipped.
fn begins_body(line: &[u8]) -> Option<bool>
    ensures { MatchOption result (is_skipped (words_of line.now) ≡ true)
        (λ begins. (is_skipped (words_of line.now) ≡ false) × (begins ≡ begins_body_of (words_of line.now))) }
{
    match first_word(line) {
        Some((word, _)) => Some(word == b"body".as_slice()),
        None => None,
    }
}

// Returns the text from the first line of the body of this number on, and the number of that line; no text if there is none.
fn from_body(text: &[u8], body: usize) -> (usize, &[u8])
    ensures bound { result.0 + length result.1.now ≤ 1 + length text.now }
    ensures lines { kept_from result.0 (lines_of result.1.now) ≡ from_body_of body (kept_from 1 (lines_of text.now)) }
{
    let mut number: usize = 1;
    let mut left = body;
    let mut rest = text;
    while let Some((line, after)) = split_line(rest) {
        if let Some(begins) = begins_body(line)
            && begins
        {
            if left == 0 {
                return (number, rest);
            }
            left -= 1;
        }
        number += 1;
        rest = after;
    }
    (number, &[])
}

/// A line of a text, with its number from 1.
#[derive(Clone, Copy)]
pub(crate) struct Found<'a> {
    pub(crate) number: usize,
    pub(crate) line: &'a [u8],
}

// Returns the line that comes `count` lines after the first line of a text; lines that are skipped don't count. The first line
// has the number `first`.
fn line_from(text: &[u8], first: usize, count: usize) -> Option<Found<'_>>
    requires { first + length text.now ≤ 2 ^ 63 }
    ensures { option_map line_found result ≡ slice_get (kept_from first (lines_of text.now)) count }
{
    let mut number = first;
    let mut left = count;
    let mut rest = text;
    while let Some((line, after)) = split_line(rest) {
        if begins_body(line).is_some() {
            if left == 0 {
                return Some(Found { number, line });
            }
            left -= 1;
        }
        number += 1;
        rest = after;
    }
    None
}

/// Returns the line of a body that comes `count` lines after its first one; lines that are skipped don't count. Bodies are
/// numbered in the order of the text, from 0.
pub(crate) fn line_in_body(text: &[u8], body: usize, count: usize) -> Option<Found<'_>>
    ensures { option_map line_found result ≡ line_in text.now body count }
{
    let (first, from) = from_body(text, body);
    line_from(from, first, count)
}

// Appends words, each with a space in front.
fn push_spaced(out: &mut Vec<u8>, words: &[u8]) -> Result<(), AllocError>
    ensures { OnOk result (out.new.items ≡ out.old.items ++ spaced (words_of words.now)) }
{
    let mut rest = words;
    while let Some((word, after)) = split_word(rest) {
        push_text(out, b" ")?;
        push_text(out, word)?;
        rest = after;
    }
    Ok(())
}

/// Appends the words of a line, with a space between them.
pub(crate) fn push_words(out: &mut Vec<u8>, line: &[u8]) -> Result<(), AllocError>
    ensures { OnOk result (out.new.items ≡ out.old.items ++ joined (words_of line.now)) }
{
    let Some((word, after)) = split_word(line) else {
        return Ok(());
    };
    push_text(out, word)?;
    push_spaced(out, after)
}
