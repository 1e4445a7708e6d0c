//! Lines of a body as words.
ghost use Rattle.std.specs.Prelude.{◌≡◌, ◌≤◌, length};
ghost use Rattle.job_reader.specs.Lines as spec;
ghost use Rattle.job_reader.specs.Views.{lent, names_in};

use crate::exprs::{Scope, cell_of, expr_of};
use crate::faults::both;
use crate::words::{declared_at, is_word, named, place, take_word};
use superstep_memory::arrays::PutKind;
use task_code::code::{Action, Line};
use text_lines::Code;

/// The first word of a line in a body.
#[derive(Clone, Copy, PartialEq, Eq)]
pub enum Keyword {
    /// `let`
    Let,
    /// `put`, or `add`, by what landing does with the value
    Put(PutKind),
    /// `print`
    Print,
    /// `spawn`
    Spawn,
    /// `sync`
    Sync,
    /// `stop`
    Stop,
    /// `if`
    If,
    /// `else`
    Else,
    /// `while`
    While,
    /// `end`
    End,
}

/// Reads a word as the first word of a line in a body.
#[tactic(auto, unfolding(crate::specs::Lines::keyword_of))]
pub fn keyword_of(word: &[u8]) -> Option<Keyword>
    ensures { result ≡ spec.keyword_of word.now }
{
    if is_word(word, b"let") {
        Some(Keyword::Let)
    } else if is_word(word, b"put") {
        Some(Keyword::Put(PutKind::Set))
    } else if is_word(word, b"add") {
        Some(Keyword::Put(PutKind::Add))
    } else if is_word(word, b"print") {
        Some(Keyword::Print)
    } else if is_word(word, b"spawn") {
        Some(Keyword::Spawn)
    } else if is_word(word, b"sync") {
        Some(Keyword::Sync)
    } else if is_word(word, b"stop") {
        Some(Keyword::Stop)
    } else if is_word(word, b"if") {
        Some(Keyword::If)
    } else if is_word(word, b"else") {
        Some(Keyword::Else)
    } else if is_word(word, b"while") {
        Some(Keyword::While)
    } else if is_word(word, b"end") {
        Some(Keyword::End)
    } else {
        None
    }
}

// Returns true if lines of format 1 may begin with the keyword.
fn is_of_first(keyword: Keyword) -> bool
    ensures { result ≡ spec.is_of_first keyword }
{
    match keyword {
        Keyword::Put(kind) => match kind {
            PutKind::Set => true,
            PutKind::Add => false,
        },
        _ => true,
    }
}

/// Returns the keyword if the format has it: format 1 has no `add`.
pub fn known_in(format: u32, keyword: Option<Keyword>) -> Option<Keyword>
    ensures { result ≡ spec.known_in format keyword }
{
    let keyword = keyword?;
    if is_of_first(keyword) || format != 1 {
        Some(keyword)
    } else {
        None
    }
}

// Checks that a word is an equals sign.
fn is_equals(word: &[u8]) -> Result<(), Code>
    ensures { result ≡ spec.is_equals word.now }
{
    if is_word(word, b"=") {
        Ok(())
    } else {
        Err(Code::BadLine)
    }
}

/// Returns the place of a body, from 0. Returns 0 too if no body has the name: the reader checks that at the end of the
/// text.
pub fn body_at(bodies: &[&[u8]], word: &[u8]) -> Result<u16, Code>
    requires { length bodies.now ≤ 65536 }
    ensures { result ≡ spec.body_at (lent bodies.now) word.now }
{
    named(word)?;
    Ok(place(bodies, word).unwrap_or(0) as u16)
}

// Reads the words after `let`.
fn let_of(scope: &Scope<'_>, words: &[&[u8]]) -> Result<Line, Code>
    requires arrays { length scope.now.arrays.now ≤ 65536 }
    requires locals { length scope.now.locals.now ≤ 256 }
    ensures { result ≡ spec.let_of (names_in scope.now) (lent words.now) }
{
    let Some((name, rest)) = take_word(words) else {
        return Err(Code::BadLine);
    };
    let Some((is, rest)) = take_word(rest) else {
        return Err(Code::BadLine);
    };
    let front = both(is_equals(is), declared_at(scope.locals, name));
    let ((_, local), expr) = both(front, expr_of(scope, rest))?;
    Ok(Line::Do(Action::Let(local as u8, expr)))
}

// Reads the words after `put` or `add`.
fn put_of(scope: &Scope<'_>, kind: PutKind, words: &[&[u8]]) -> Result<Line, Code>
    requires arrays { length scope.now.arrays.now ≤ 65536 }
    requires locals { length scope.now.locals.now ≤ 256 }
    ensures { result ≡ spec.put_of (names_in scope.now) kind (lent words.now) }
{
    let Some((cell, rest)) = take_word(words) else {
        return Err(Code::BadLine);
    };
    let Some((is, rest)) = take_word(rest) else {
        return Err(Code::BadLine);
    };
    let front = both(cell_of(scope, cell), is_equals(is));
    let ((cell, _), expr) = both(front, expr_of(scope, rest))?;
    Ok(Line::Do(Action::Put(kind, cell, expr)))
}

// Reads the words after `spawn`.
fn spawn_of(scope: &Scope<'_>, words: &[&[u8]]) -> Result<Line, Code>
    requires arrays { length scope.now.arrays.now ≤ 65536 }
    requires bodies { length scope.now.bodies.now ≤ 65536 }
    requires locals { length scope.now.locals.now ≤ 256 }
    ensures { result ≡ spec.spawn_of (names_in scope.now) (lent words.now) }
{
    let Some((body, rest)) = take_word(words) else {
        return Err(Code::BadLine);
    };
    let (body, expr) = both(body_at(scope.bodies, body), expr_of(scope, rest))?;
    Ok(Line::Do(Action::Spawn(body, expr)))
}

// Returns a line of one word, if no word follows.
fn alone(line: Line, words: &[&[u8]]) -> Result<Line, Code>
    ensures { result ≡ spec.alone line (lent words.now) }
{
    match words {
        [] => Ok(line),
        _ => Err(Code::BadLine),
    }
}

// Returns an `else`. Fails with `BadNesting` if none fits here.
fn else_of(fits: bool, words: &[&[u8]]) -> Result<Line, Code>
    ensures { result ≡ spec.else_of fits (lent words.now) }
{
    let nested = if fits { Ok(()) } else { Err(Code::BadNesting) };
    let (_, line) = both(nested, alone(Line::Else(0), words))?;
    Ok(line)
}

/// Reads a line in a body from its keyword and the words after it. `fits` is true if an `else` may be here. Leaves jumps
/// at 0.
#[tactic(auto, unfolding(crate::specs::Lines::line_behind))]
pub fn line_behind(
    scope: &Scope<'_>,
    fits: bool,
    keyword: Option<Keyword>,
    words: &[&[u8]],
) -> Result<Line, Code>
    requires arrays { length scope.now.arrays.now ≤ 65536 }
    requires bodies { length scope.now.bodies.now ≤ 65536 }
    requires locals { length scope.now.locals.now ≤ 256 }
    ensures { result ≡ spec.line_behind (names_in scope.now) fits keyword (lent words.now) }
{
    let Some(keyword) = keyword else {
        return Err(Code::UnknownLine);
    };
    match keyword {
        Keyword::Let => let_of(scope, words),
        Keyword::Put(kind) => put_of(scope, kind, words),
        Keyword::Print => Ok(Line::Do(Action::Print(expr_of(scope, words)?))),
        Keyword::Spawn => spawn_of(scope, words),
        Keyword::Sync => alone(Line::Do(Action::Sync), words),
        Keyword::Stop => alone(Line::Do(Action::Stop), words),
        Keyword::If => Ok(Line::If(expr_of(scope, words)?, 0)),
        Keyword::Else => else_of(fits, words),
        Keyword::While => Ok(Line::While(expr_of(scope, words)?, 0)),
        Keyword::End => alone(Line::EndIf, words),
    }
}
