//! Names, numbers and indices as words.
ghost use Rattle.std.specs.Prelude.{◌≡◌, ◌≤◌, ◌<◌, ◌∷◌, [], length, MatchOption, IfSome, IfOk, FitsSigned};
ghost use Rattle.std.specs.Int.{w64};
ghost use Rattle.std.specs.Str.{bytes_eq};
ghost use Rattle.job_reader.specs.Words as spec;
ghost use Rattle.task_code.specs.Names.{is_among};
ghost use Rattle.job_reader.specs.Views.{lent};

use crate::faults::both;
use task_code::code::Index;
use task_code::names::{is_name, is_reserved};
use text_lines::{Code, begins_number, number};

/// Returns true if two words are the same.
pub fn is_word(word: &[u8], other: &[u8]) -> bool
    ensures { result ≡ bytes_eq word.now other.now }
{
    word == other
}

/// Splits off the first word of a line. Returns `None` if there is no word.
pub fn take_word<'a, 'b>(words: &'b [&'a [u8]]) -> Option<(&'a [u8], &'b [&'a [u8]])>
    ensures { MatchOption result (lent words.entry.now ≡ []) (λ r. lent words.entry.now ≡ r.0.now ∷ lent r.1.now) }
{
    match words {
        [] => None,
        [first, rest @ ..] => Some((first, rest)),
    }
}

/// Checks that an array, a body or a local may have this name. Fails with `Reserved` or `BadName`.
pub fn named(word: &[u8]) -> Result<(), Code>
    ensures { result ≡ spec.named word.now }
{
    if is_reserved(word) {
        Err(Code::Reserved)
    } else if is_name(word) {
        Ok(())
    } else {
        Err(Code::BadName)
    }
}

/// Returns the number of 64 signed bits that a word writes. Fails with `BadNumber`.
pub fn numbered(word: &[u8]) -> Result<i64, Code>
    ensures number { result ≡ spec.numbered word.now }
    ensures fits { IfOk result (λ n. FitsSigned w64 n) }
{
    number(word).ok_or(Code::BadNumber)
}

/// Returns the place of the first of the names that is this word, from 0.
pub fn place(names: &[&[u8]], word: &[u8]) -> Option<usize>
    ensures place { result ≡ spec.place_from 0 (lent names.now) word.now }
    ensures within { IfSome result (λ i. i < length names.now) }
{
    for (i, name) in names.iter().enumerate() {
        if *name == word {
            return Some(i);
        }
    }
    None
}

/// Returns true if one of the names is this word.
#[tactic(auto, using(crate::proofs::NotedLemmas::among_steps))]
pub fn is_among(names: &[&[u8]], word: &[u8]) -> bool
    ensures { result ≡ is_among (lent names.now) word.now }
{
    match place(names, word) {
        Some(_) => true,
        None => false,
    }
}

/// Returns the place of a word among the declared names. Fails with `Reserved`, `BadName` or `UnknownName`.
pub fn declared_at(names: &[&[u8]], word: &[u8]) -> Result<usize, Code>
    ensures place { result ≡ spec.declared_at (lent names.now) word.now }
    ensures within { IfOk result (λ i. i < length names.now) }
{
    let known = place(names, word).ok_or(Code::UnknownName);
    let (_, i) = both(named(word), known)?;
    Ok(i)
}

/// Reads a word as an index: a number, `arg`, `step` or a local.
#[tactic(auto, unfolding(crate::specs::Words::index_of))]
pub fn index_of(locals: &[&[u8]], word: &[u8]) -> Result<Index, Code>
    requires { length locals.now ≤ 256 }
    ensures { result ≡ spec.index_of (lent locals.now) word.now }
{
    if begins_number(word) {
        return Ok(Index::Number(numbered(word)?));
    }
    if is_word(word, b"arg") {
        return Ok(Index::Arg);
    }
    if is_word(word, b"step") {
        return Ok(Index::Step);
    }
    let local = declared_at(locals, word)?;
    Ok(Index::Local(local as u8))
}
