//! Lines outside bodies as words.
ghost use Rattle.std.specs.Prelude.{◌≡◌, ◌≤◌, ◌∷◌, length, None, Some, IfOk, MatchOption};
ghost use Rattle.job_reader.specs.Gives.{LineSays, joined};
ghost use Rattle.text_lines.specs.Text.{words_of};
ghost use Rattle.job_reader.specs.Views.{lent};
ghost use Rattle.job_reader.specs.Reading as spec;

use crate::fault::LineFault;
use crate::faults::{both, earlier};
use crate::lines::body_at;
use crate::words::{is_word, named, numbered};
use std::alloc::{AllocError, Global};
use std::collections::HashSet;
use task_code::job::{MOST_CELLS, Start};
use task_code::names::{is_name, is_reserved};
use text_lines::{Code, split_word};

/// The first word of a line outside bodies.
#[derive(Clone, Copy)]
pub enum Outer {
    /// `array`
    Array,
    /// `body`
    Body,
    /// `start`
    Start,
}

/// Reads a word as the first word of a line outside bodies.
#[tactic(auto, unfolding(crate::specs::Reading::outer_of))]
pub(crate) fn outer_of(word: &[u8]) -> Option<Outer>
    ensures { result ≡ spec.outer_of word.now }
{
    if is_word(word, b"array") {
        Some(Outer::Array)
    } else if is_word(word, b"body") {
        Some(Outer::Body)
    } else if is_word(word, b"start") {
        Some(Outer::Start)
    } else {
        None
    }
}

// Reads a word as a format.
fn format_in(word: &[u8]) -> Option<u32>
    ensures { result ≡ spec.format_in word.now }
{
    if is_word(word, b"1") {
        Some(1)
    } else if is_word(word, b"2") {
        Some(2)
    } else {
        None
    }
}

/// Reads the format from the first line of a job: its first word and the rest of the line.
pub(crate) fn format_of(first: &[u8], rest: &[u8]) -> Option<u32>
    ensures { result ≡ spec.format_of (first.now ∷ words_of rest.now) }
{
    let (format, rest) = split_word(rest)?;
    if split_word(rest).is_some() || !is_word(first, b"bsp") {
        return None;
    }
    format_in(format)
}

/// Returns the words of a line.
pub(crate) fn words_in<'a>(alloc: Global, line: &'a [u8]) -> Result<Vec<&'a [u8]>, AllocError>
    ensures { IfOk result (λ words. lent words.items ≡ words_of line.entry.now) }
{
    let mut words = Vec::new(alloc);
    let mut rest = line;
    while let Some((word, after)) = split_word(rest) {
        rest = after;
        words.push(word)?;
    }
    Ok(words)
}

/// Returns the name of the body that a line declares, if it declares one.
pub(crate) fn declared_by(line: &[u8]) -> Option<&[u8]>
    ensures { MatchOption result (spec.declared_by (words_of line.now) ≡ None) (λ w. spec.declared_by (words_of line.now) ≡ Some w.now) }
{
    let (first, rest) = split_word(line)?;
    match outer_of(first) {
        Some(Outer::Body) => {
            let (name, _) = split_word(rest)?;
            Some(name)
        }
        _ => None,
    }
}

// Joins two parts of a line. The second takes memory. If both are refused, this chooses the fault to report.
fn joined<A: Drop, B: Drop>(
    a: Result<A, Code>,
    b: Result<B, LineFault>,
) -> Result<(A, B), LineFault>
    ensures { result ≡ joined a b }
{
    match (a, b) {
        (_, Err(LineFault::Memory)) => Err(LineFault::Memory),
        (Ok(a), Ok(b)) => Ok((a, b)),
        (Ok(_), Err(LineFault::Refused(code))) => Err(LineFault::Refused(code)),
        (Err(code), Ok(_)) => Err(LineFault::Refused(code)),
        (Err(code), Err(LineFault::Refused(other))) => {
            Err(LineFault::Refused(earlier(code, other)))
        }
    }
}

// Reads the words of a line as numbers.
fn all_numbered(alloc: Global, line: &[u8]) -> Result<Vec<i64>, LineFault>
    ensures { LineSays (λ values. values.items) result (spec.all_numbered (words_of line.now)) }
{
    let mut values = Vec::new(alloc);
    let mut rest = line;
    while let Some((word, after)) = split_word(rest) {
        rest = after;
        values.push(numbered(word)?)?;
    }
    Ok(values)
}

// Adds zeros to the values until there are `length` cells, from 1 to 4096.
fn filled(alloc: Global, length: i64, mut values: Vec<i64>) -> Result<Vec<i64>, LineFault>
    ensures { LineSays (λ cells. cells.items) result (spec.filled (length, values.items)) }
{
    let Ok(length) = usize::try_from(length) else {
        return Err(LineFault::Refused(Code::BadLength));
    };
    if length < 1 || length > MOST_CELLS || values.len() > length {
        return Err(LineFault::Refused(Code::BadLength));
    }
    let zeros = vec![in alloc; 0i64; length - values.len()]?;
    values.extend_from_slice(&zeros)?;
    Ok(values)
}

// Reads a length and values as cells.
fn cells_of(alloc: Global, len: &[u8], values: &[u8]) -> Result<Vec<i64>, LineFault>
    ensures { LineSays (λ cells. cells.items) result (spec.cells_of len.now (words_of values.now)) }
{
    let (len, values) = joined(numbered(len), all_numbered(alloc, values))?;
    filled(alloc, len, values)
}

/// Reads the line of an array: its name and its cells.
pub(crate) fn array_of(alloc: Global, line: &[u8]) -> Result<(&[u8], Vec<i64>), LineFault>
    ensures { LineSays (λ a. (a.0.now, a.1.items)) result (spec.array_of (words_of line.now)) }
{
    let (name, rest) = split_word(line).ok_or(Code::BadLine)?;
    let (len, values) = split_word(rest).ok_or(Code::BadLine)?;
    let (_, cells) = joined(named(name), cells_of(alloc, len, values))?;
    Ok((name, cells))
}

// Checks that each word is a name. Fails with `Reserved` if any is reserved, else with `BadName`.
fn all_named(words: &[&[u8]]) -> Result<(), Code>
    ensures { result ≡ spec.all_named (lent words.now) }
{
    let mut names = true;
    for word in words {
        if is_reserved(word) {
            return Err(Code::Reserved);
        }
        if !is_name(word) {
            names = false;
        }
    }
    if names { Ok(()) } else { Err(Code::BadName) }
}

/// Returns true if no word is there twice. Each word is looked up in a set, so the time is linear.
pub(crate) fn are_apart(alloc: Global, words: &[&[u8]]) -> Result<bool, AllocError>
    ensures { IfOk result (λ apart. apart ≡ spec.are_apart (lent words.now)) }
{
    let mut seen = HashSet::new(alloc);
    for word in words {
        if !seen.insert(*word)? {
            return Ok(false);
        }
    }
    Ok(true)
}

/// Reads the first line of a body: its name and the locals that it lists.
pub(crate) fn body_of<'a>(
    alloc: Global,
    format: u32,
    line: &'a [u8],
) -> Result<(&'a [u8], Vec<&'a [u8]>), LineFault>
    ensures { LineSays (λ h. (h.0.now, lent h.1.items)) result (spec.body_of format (words_of line.entry.now)) }
{
    let (name, rest) = split_word(line).ok_or(Code::BadLine)?;
    if format == 1 && split_word(rest).is_some() {
        return Err(LineFault::Refused(Code::BadLine));
    }
    let locals = words_in(alloc, rest)?;
    both(named(name), all_named(&locals))?;
    Ok((name, locals))
}

/// Reads a start line: its body and its argument.
pub(crate) fn start_of(bodies: &[&[u8]], line: &[u8]) -> Result<Start, Code>
    requires { length bodies.now ≤ 65536 }
    ensures { result ≡ spec.start_of (lent bodies.now) (words_of line.now) }
{
    let (body, rest) = split_word(line).ok_or(Code::BadLine)?;
    let (number, rest) = split_word(rest).ok_or(Code::BadLine)?;
    if split_word(rest).is_some() {
        return Err(Code::BadLine);
    }
    let (body, arg) = both(body_at(bodies, body), numbered(number))?;
    Ok(Start { body, arg })
}
