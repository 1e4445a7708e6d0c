//! What a fault of a line is about.
ghost use Rattle.std.specs.Prelude.{◌≡◌, ◌≤◌, [], IfOk, take};
ghost use Rattle.job_reader.specs.Exprs.{cell_parts as parts_of};
ghost use Rattle.job_reader.specs.Views.{lent};
ghost use Rattle.refusal_reasons.specs.Marks as spec;
ghost use Rattle.refusal_reasons.specs.Marks.{known_in};

use crate::known::Known;
use job_reader::exprs::{cell_parts, has_bracket};
use job_reader::lines::{Keyword, keyword_of};
use job_reader::words::{declared_at, is_among, is_word, named, numbered, take_word};
use std::alloc::{AllocError, Global};
use text_lines::{Code, begins_number};

/// A part of a word.
#[derive(Clone, Copy, Debug, PartialEq, Eq)]
pub enum Part {
    /// The whole word.
    Whole,
    /// The name of a cell's array, before its bracket.
    Array,
    /// The index of a cell, between its brackets.
    Index,
}

/// What a fault is about: a word of a line, or a part of it.
#[derive(Clone, Copy, Debug, PartialEq, Eq)]
pub struct Mark {
    /// The number of the word, from 0.
    pub word: usize,
    /// The part of the word.
    pub part: Part,
}

/// Returns the mark of a whole word.
pub(crate) fn word_mark(word: usize) -> Mark
    ensures { result ≡ spec.word_mark word }
{
    Mark {
        word,
        part: Part::Whole,
    }
}

// Returns a mark of a part that is refused by this code.
fn at_fault<A: Copy>(code: Code, word: usize, part: Part, read: Result<A, Code>) -> Option<Mark>
    ensures { result ≡ spec.at_fault code word part read }
{
    match read {
        Ok(_) => None,
        Err(found) => {
            if found.number() == code.number() {
                Some(Mark { word, part })
            } else {
                None
            }
        }
    }
}

// Returns a mark of a local that is refused by this code.
fn local_mark(known: Known<'_>, code: Code, at: usize, part: Part, word: &[u8]) -> Option<Mark>
    ensures { result ≡ spec.local_mark (known_in known.entry).locals code at part word.now }
{
    match known.locals {
        None => at_fault(code, at, part, named(word)),
        Some(locals) => at_fault(code, at, part, declared_at(locals, word)),
    }
}

// Returns a mark of an index that is refused by this code.
fn index_mark(known: Known<'_>, code: Code, at: usize, part: Part, word: &[u8]) -> Option<Mark>
    ensures { result ≡ spec.index_mark (known_in known.entry) code at part word.now }
{
    if begins_number(word) {
        return at_fault(code, at, part, numbered(word));
    }
    if is_word(word, b"arg") || is_word(word, b"step") {
        return None;
    }
    local_mark(known, code, at, part, word)
}

// Returns a mark of a cell's array or index that is refused by this code.
fn cell_mark(known: Known<'_>, code: Code, at: usize, word: &[u8]) -> Option<Mark>
    ensures { result ≡ spec.cell_mark (known_in known.entry) code at (parts_of word.now) }
{
    let (array, index) = cell_parts(word)?;
    let name = at_fault(code, at, Part::Array, declared_at(known.arrays, array));
    name.or(index_mark(known, code, at, Part::Index, index))
}

// Returns a mark of an operand that is refused by this code.
fn operand_mark(known: Known<'_>, code: Code, at: usize, word: &[u8]) -> Option<Mark>
    ensures { result ≡ spec.operand_mark (known_in known.entry) code at word.now }
{
    if has_bracket(word) {
        return cell_mark(known, code, at, word);
    }
    index_mark(known, code, at, Part::Whole, word)
}

// Returns a mark of an operand of an expression whose first word has this number.
fn expr_mark(known: Known<'_>, code: Code, at: usize, words: &[&[u8]]) -> Option<Mark>
    requires { at ≤ 3 }
    ensures { result ≡ spec.expr_mark (known_in known.entry) code at (lent words.now) }
{
    let (a, rest) = take_word(words)?;
    let Some((_, rest)) = take_word(rest) else {
        return operand_mark(known, code, at, a);
    };
    let (b, rest) = take_word(rest)?;
    if take_word(rest).is_some() {
        return None;
    }
    let left = operand_mark(known, code, at, a);
    left.or(operand_mark(known, code, at + 2, b))
}

// Returns a mark of the words after `let`.
fn let_mark(known: Known<'_>, code: Code, words: &[&[u8]]) -> Option<Mark>
    ensures { result ≡ spec.let_mark (known_in known.entry) code (lent words.now) }
{
    let (name, rest) = take_word(words)?;
    let (_, rest) = take_word(rest)?;
    let local = local_mark(known, code, 1, Part::Whole, name);
    local.or(expr_mark(known, code, 3, rest))
}

// Returns a mark of the words after `put` or `add`.
fn put_mark(known: Known<'_>, code: Code, words: &[&[u8]]) -> Option<Mark>
    ensures { result ≡ spec.put_mark (known_in known.entry) code (lent words.now) }
{
    let (cell, rest) = take_word(words)?;
    let (_, rest) = take_word(rest)?;
    let target = cell_mark(known, code, 1, cell);
    target.or(expr_mark(known, code, 3, rest))
}

// Returns a mark of the words after `spawn`.
fn spawn_mark(known: Known<'_>, code: Code, words: &[&[u8]]) -> Option<Mark>
    ensures { result ≡ spec.spawn_mark (known_in known.entry) code (lent words.now) }
{
    let (body, rest) = take_word(words)?;
    let name = at_fault(code, 1, Part::Whole, named(body));
    name.or(expr_mark(known, code, 2, rest))
}

// Returns a mark of a line in a body, from its keyword and the words after it.
fn inner_mark(known: Known<'_>, code: Code, keyword: Keyword, words: &[&[u8]]) -> Option<Mark>
    ensures { result ≡ spec.inner_mark (known_in known.entry) code keyword (lent words.now) }
{
    match keyword {
        Keyword::Let => let_mark(known, code, words),
        Keyword::Put(_) => put_mark(known, code, words),
        Keyword::Print | Keyword::If | Keyword::While => expr_mark(known, code, 1, words),
        Keyword::Spawn => spawn_mark(known, code, words),
        Keyword::Sync | Keyword::Stop | Keyword::Else | Keyword::End => None,
    }
}

// Returns a mark of the first of the words that is no number, if it is refused by this code. The first has this number.
fn number_mark(code: Code, first: usize, words: &[&[u8]]) -> Option<Mark>
    requires { first ≤ 2 }
    ensures { result ≡ spec.number_mark code first (lent words.now) }
{
    let mut at = first;
    for word in words {
        let mark = at_fault(code, at, Part::Whole, numbered(word));
        if mark.is_some() {
            return mark;
        }
        at += 1;
    }
    None
}

// Returns a mark of the first of the words that is no name, if it is refused by this code. The first has this number.
fn name_mark(code: Code, first: usize, words: &[&[u8]]) -> Option<Mark>
    requires { first ≤ 2 }
    ensures { result ≡ spec.name_mark code first (lent words.now) }
{
    let mut at = first;
    for word in words {
        let mark = at_fault(code, at, Part::Whole, named(word));
        if mark.is_some() {
            return mark;
        }
        at += 1;
    }
    None
}

// Returns a mark of a name and numbers: the words after `array`.
fn array_mark(code: Code, words: &[&[u8]]) -> Option<Mark>
    ensures { result ≡ spec.array_mark code (lent words.now) }
{
    let (name, rest) = take_word(words)?;
    let mark = at_fault(code, 1, Part::Whole, named(name));
    mark.or(number_mark(code, 2, rest))
}

// Returns a mark of the words after `start`.
fn start_mark(code: Code, words: &[&[u8]]) -> Option<Mark>
    ensures { result ≡ spec.start_mark code (lent words.now) }
{
    let (body, rest) = take_word(words)?;
    let mark = at_fault(code, 1, Part::Whole, named(body));
    mark.or(number_mark(code, 2, rest))
}

// Returns a mark of a line outside bodies, from its first word and the words after it.
fn outer_mark(code: Code, word: &[u8], words: &[&[u8]]) -> Option<Mark>
    ensures { result ≡ spec.outer_mark code word.now (lent words.now) }
{
    if is_word(word, b"array") {
        return array_mark(code, words);
    }
    if is_word(word, b"body") {
        return name_mark(code, 1, words);
    }
    if is_word(word, b"start") {
        return start_mark(code, words);
    }
    None
}

// Returns a mark of the first part of a line that is refused by this code.
fn read_mark(known: Known<'_>, code: Code, words: &[&[u8]]) -> Option<Mark>
    ensures { result ≡ spec.read_mark (known_in known.entry) code (lent words.now) }
{
    let (first, rest) = take_word(words)?;
    match keyword_of(first) {
        Some(keyword) => inner_mark(known, code, keyword, rest),
        None => outer_mark(code, first, rest),
    }
}

// Returns a mark of the first of the words that is among those before it. The first has this number.
fn repeated(alloc: Global, first: usize, words: &[&[u8]]) -> Result<Option<Mark>, AllocError>
    requires { first ≤ 2 }
    ensures { IfOk result (λ mark. mark ≡ spec.repeated [] first (lent words.now)) }
{
    let mut seen = Vec::new(alloc);
    let mut at = first;
    for word in words {
        if is_among(&seen, word) {
            return Ok(Some(word_mark(at)));
        }
        seen.push(*word)?;
        at += 1;
    }
    Ok(None)
}

// Returns the first words, at most `count`.
fn front<'a, 'b>(words: &'b [&'a [u8]], count: usize) -> &'b [&'a [u8]]
    ensures { lent result.now ≡ take count (lent words.entry.now) }
{
    if count <= words.len() {
        let (front, _) = words.split_at(count);
        return front;
    }
    words
}

// Returns a mark of a name that is there twice.
fn twice_mark(alloc: Global, words: &[&[u8]]) -> Result<Option<Mark>, AllocError>
    ensures { IfOk result (λ mark. mark ≡ spec.twice_mark (lent words.now) (spec.word_mark 1)) }
{
    let name = Some(word_mark(1));
    let Some((keyword, rest)) = take_word(words) else {
        return Ok(name);
    };
    let Some((_, locals)) = take_word(rest) else {
        return Ok(name);
    };
    if !is_word(keyword, b"body") {
        return Ok(name);
    }
    let local = repeated(alloc, 2, front(locals, 33))?;
    Ok(local.or(name))
}

/// Returns what a fault of this code is about, on the line of these words. `None` means the line as a whole.
pub(crate) fn mark_on(
    alloc: Global,
    known: Known<'_>,
    code: Code,
    words: &[&[u8]],
) -> Result<Option<Mark>, AllocError>
    ensures { IfOk result (λ mark. mark ≡ spec.mark_on (known_in known.entry) code (lent words.now)) }
{
    match code {
        Code::BadName | Code::BadNumber | Code::Reserved => Ok(read_mark(known, code, words)),
        Code::UnknownName => Ok(read_mark(known, code, words).or(Some(word_mark(1)))),
        Code::Twice => twice_mark(alloc, words),
        Code::BadLength => Ok(Some(word_mark(2))),
        _ => Ok(None),
    }
}
