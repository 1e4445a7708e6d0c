//! The names that are known at a line of a text, and the blocks that are open there.
ghost use Rattle.std.specs.Prelude.{◌≡◌, ◌++◌, ◌∷◌, [], take, IfOk, OnOk};
ghost use Rattle.text_lines.specs.Text.{lines_of, words_of};
ghost use Rattle.job_reader.specs.Views.{lent};
ghost use Rattle.refusal_reasons.specs.Known as spec;

use job_reader::words::is_word;
use std::alloc::{AllocError, Global};
use text_lines::{first_word, split_line, split_word};

/// The names that a line may use.
#[derive(Clone, Copy)]
pub(crate) struct Known<'a> {
    /// The arrays above the line.
    pub(crate) arrays: &'a [&'a [u8]],
    /// The locals of its body. `None` if any name may be a local.
    pub(crate) locals: Option<&'a [&'a [u8]]>,
}

// Appends the first word.
fn note_first<'a>(names: &mut Vec<&'a [u8]>, line: &'a [u8]) -> Result<(), AllocError>
    ensures { OnOk result (lent names.new.items ≡ lent names.old.items ++ take 1 (words_of line.entry.now)) }
{
    if let Some((word, _)) = split_word(line) {
        names.push(word)?;
    }
    Ok(())
}

// Appends the name that the line of an array declares.
fn note_array<'a>(names: &mut Vec<&'a [u8]>, line: &'a [u8]) -> Result<(), AllocError>
    ensures { OnOk result (lent names.new.items ≡ lent names.old.items ++ spec.arrays_on (words_of line.entry.now)) }
{
    let Some((keyword, rest)) = split_word(line) else {
        return Ok(());
    };
    if is_word(keyword, b"array") {
        return note_first(names, rest);
    }
    Ok(())
}

/// Returns the names of the arrays above the line of this number, from 1.
pub(crate) fn arrays_above<'a>(
    alloc: Global,
    text: &'a [u8],
    number: usize,
) -> Result<Vec<&'a [u8]>, AllocError>
    ensures { IfOk result (λ names. lent names.items ≡ spec.arrays_in (spec.above number (lines_of text.entry.now))) }
{
    let mut names = Vec::new(alloc);
    let mut left = number;
    let mut rest = text;
    while let Some((line, after)) = split_line(rest) {
        if left <= 1 {
            return Ok(names);
        }
        note_array(&mut names, line)?;
        left -= 1;
        rest = after;
    }
    Ok(names)
}

// Returns true if a line is the first of a body.
fn begins_body(line: &[u8]) -> bool
    ensures { result ≡ spec.begins_body (words_of line.now) }
{
    match split_word(line) {
        Some((word, _)) => is_word(word, b"body"),
        None => false,
    }
}

// Returns the last line above the one of this number that is the first of a body, or no bytes.
fn body_above(text: &[u8], number: usize) -> &[u8]
    ensures { result.now ≡ spec.last_body [] (spec.above number (lines_of text.now)) }
{
    let mut last: &[u8] = &[];
    let mut left = number;
    let mut rest = text;
    while let Some((line, after)) = split_line(rest) {
        if left <= 1 {
            return last;
        }
        if begins_body(line) {
            last = line;
        }
        left -= 1;
        rest = after;
    }
    last
}

/// Returns the words of a line.
pub(crate) fn words_in<'a>(alloc: Global, line: &'a [u8]) -> Result<Vec<&'a [u8]>, AllocError>
    ensures { IfOk result (λ words. lent words.items ≡ words_of line.entry.now) }
{
    let mut words = Vec::new(alloc);
    let mut rest = line;
    while let Some((word, after)) = split_word(rest) {
        rest = after;
        words.push(word)?;
    }
    Ok(words)
}

// Returns a line after its first two words.
fn after_two(line: &[u8]) -> &[u8]
    ensures { words_of result.now ≡ spec.locals_on (words_of line.now) }
{
    let Some((_, rest)) = split_word(line) else {
        return &[];
    };
    match split_word(rest) {
        Some((_, rest)) => rest,
        None => &[],
    }
}

/// Returns the locals that the last first line of a body above the line of this number lists.
pub(crate) fn locals_above<'a>(
    alloc: Global,
    text: &'a [u8],
    number: usize,
) -> Result<Vec<&'a [u8]>, AllocError>
    ensures { IfOk result (λ names. lent names.items
        ≡ spec.locals_on (words_of (spec.last_body [] (spec.above number (lines_of text.entry.now))))) }
{
    words_in(alloc, after_two(body_above(text, number)))
}

// Returns true if a line says format 1, from its first word and the rest of it.
fn says_one(first: &[u8], rest: &[u8]) -> bool
    ensures { result ≡ spec.says_one (first.now ∷ words_of rest.now) }
{
    match split_word(rest) {
        Some((format, _)) => is_word(format, b"1"),
        None => false,
    }
}

/// Returns true if a text is of format 1, in which any name may be a local.
pub(crate) fn is_first(text: &[u8]) -> bool
    ensures { result ≡ spec.is_first (lines_of text.now) }
{
    let mut rest = text;
    while let Some((line, after)) = split_line(rest) {
        if let Some((first, format)) = first_word(line) {
            return says_one(first, format);
        }
        rest = after;
    }
    false
}

// Returns true if a line that begins so opens a block.
fn opens(word: &[u8]) -> bool
    ensures { result ≡ spec.opens word.now }
{
    is_word(word, b"body") || is_word(word, b"if") || is_word(word, b"while")
}

// Opens or closes the block of a line of this number.
fn note_block(blocks: &mut Vec<usize>, number: usize, line: &[u8]) -> Result<(), AllocError>
    ensures { OnOk result (blocks.new.items ≡ spec.opening number blocks.old.items (words_of line.now)) }
{
    let Some((word, _)) = split_word(line) else {
        return Ok(());
    };
    if opens(word) {
        blocks.push(number)?;
        return Ok(());
    }
    if is_word(word, b"end") {
        let _ = blocks.pop();
    }
    Ok(())
}

// Returns the numbers of the lines above the one of this number whose blocks are open there.
fn open_above(alloc: Global, text: &[u8], number: usize) -> Result<Vec<usize>, AllocError>
    ensures { IfOk result (λ blocks. blocks.items ≡ spec.open_after 1 [] (spec.above number (lines_of text.now))) }
{
    let mut blocks = Vec::new(alloc);
    let mut at: usize = 1;
    let mut left = number;
    let mut rest = text;
    while let Some((line, after)) = split_line(rest) {
        if left <= 1 {
            return Ok(blocks);
        }
        note_block(&mut blocks, at, line)?;
        at += 1;
        left -= 1;
        rest = after;
    }
    Ok(blocks)
}

/// Returns the number of the line whose block is the innermost that is open above the line of this number, or 0 if none is.
pub(crate) fn open_block(alloc: Global, text: &[u8], number: usize) -> Result<usize, AllocError>
    ensures { IfOk result (λ line. line ≡ spec.open_block number (lines_of text.now)) }
{
    let blocks = open_above(alloc, text, number)?;
    Ok(blocks.last().copied().unwrap_or(0))
}
