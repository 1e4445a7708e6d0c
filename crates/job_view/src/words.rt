//! The texts of the options.
ghost use Rattle.std.specs.Prelude.{◌≡◌, IfOk, map};
ghost use Rattle.text_lines.specs.Text.{words_of};
ghost use Rattle.job_view.specs.Words.{are_widths as are_widths_of, is_given, spaced as spaced_of, width_by as width_read, width_in, words_in};

use std::alloc::{AllocError, Global};
use text_lines::{number, split_word};

// The most cells of an array.
const MOST_CELLS: i64 = 4096;

// Returns a space for a comma or an equals sign, and else the byte itself.
fn spaced(byte: u8) -> u8
    ensures { result ≡ spaced_of byte }
{
    if byte == b',' || byte == b'=' {
        return b' ';
    }
    byte
}

/// Returns the text of an option with spaces in place of commas and equals signs.
pub fn spaced_text(alloc: Global, text: &str) -> Result<Vec<u8>, AllocError>
    ensures { IfOk result (λ words. words.items ≡ map spaced_of text.now) }
{
    let mut words = Vec::new(alloc);
    let rest = text.as_bytes();
    for byte in rest {
        words.push(spaced(*byte))?;
    }
    Ok(words)
}

// Returns a width that is one of an array.
fn width_by(number: Option<i64>) -> Option<u32>
    ensures { result ≡ width_read number }
{
    match number {
        Some(width) if 1 <= width && width <= MOST_CELLS => Some(width as u32),
        _ => None,
    }
}

/// Returns the width that these words give to an array, if they give it one.
pub(crate) fn width_of(words: &[u8], name: &[u8]) -> Option<u32>
    ensures { result ≡ width_in name.now (words_of words.now) }
{
    let mut rest = words;
    while let Some((word, after)) = split_word(rest) {
        let Some((width, more)) = split_word(after) else {
            return None;
        };
        if word == name {
            return width_by(number(width));
        }
        rest = more;
    }
    None
}

// Returns true if these words give a width to the array of this name.
fn is_given(words: &[u8], name: &[u8]) -> bool
    ensures { result ≡ is_given name.now (words_of words.now) }
{
    let mut rest = words;
    while let Some((word, after)) = split_word(rest) {
        let Some((_, more)) = split_word(after) else {
            return false;
        };
        if word == name {
            return true;
        }
        rest = more;
    }
    false
}

// Returns true if these words are names and widths in turn, with each name once.
fn are_widths(words: &[u8]) -> bool
    ensures { result ≡ are_widths_of (words_of words.now) }
{
    let mut rest = words;
    while let Some((word, after)) = split_word(rest) {
        let Some((width, more)) = split_word(after) else {
            return false;
        };
        if is_given(more, word) || width_by(number(width)).is_none() {
            return false;
        }
        rest = more;
    }
    true
}

/// Returns true if a text is one of widths: `NAME=N`, several with commas between them, each N from 1 to 4096 and each NAME once.
pub fn says_widths(alloc: Global, text: &str) -> Result<bool, AllocError>
    ensures { IfOk result (λ says. says ≡ are_widths_of (words_in text.now)) }
{
    let words = spaced_text(alloc, text)?;
    Ok(are_widths(&words))
}
