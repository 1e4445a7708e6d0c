//! The locals that lines mention.
ghost use Rattle.std.specs.Prelude.{◌≡◌, ◌≤◌, ◌+◌, ◌++◌, ◌∷◌, [], length, OnOk};
ghost use Rattle.job_reader.specs.Words as words;
ghost use Rattle.job_reader.specs.Exprs as exprs;
ghost use Rattle.job_reader.specs.Lines as lines;
ghost use Rattle.job_reader.specs.Views.{lent};

use crate::exprs::{cell_parts, has_bracket};
use crate::lines::Keyword;
use crate::words::{is_word, place, take_word};
use std::alloc::AllocError;
use text_lines::begins_number;

// Notes a local: adds it at the end, unless it is in the list.
#[tactic(auto, using(crate::proofs::NotedLemmas::note_steps))]
fn note<'a>(locals: &mut Vec<&'a [u8]>, word: &'a [u8]) -> Result<(), AllocError>
    ensures noted { OnOk result (lent locals.new.items ≡ words.noted (lent locals.old.items) (word.entry.now ∷ [])) }
    ensures few { OnOk result (length locals.new.items ≤ length locals.old.items + 1) }
{
    match place(locals, word) {
        Some(_) => Ok(()),
        None => {
            locals.push(word)?;
            Ok(())
        }
    }
}

// Notes the local that the word of an index mentions, if any.
#[tactic(auto, unfolding(crate::specs::Words::in_index))]
fn note_index<'a>(locals: &mut Vec<&'a [u8]>, word: &'a [u8]) -> Result<(), AllocError>
    ensures noted { OnOk result (lent locals.new.items ≡ words.noted (lent locals.old.items) (words.in_index word.entry.now)) }
    ensures few { OnOk result (length locals.new.items ≤ length locals.old.items + 1) }
{
    if begins_number(word) || is_word(word, b"arg") || is_word(word, b"step") {
        return Ok(());
    }
    note(locals, word)
}

// Notes the local that the word of an operand mentions, if any.
#[tactic(auto, unfolding(crate::specs::Exprs::in_operand))]
fn note_operand<'a>(locals: &mut Vec<&'a [u8]>, word: &'a [u8]) -> Result<(), AllocError>
    ensures noted { OnOk result (lent locals.new.items ≡ words.noted (lent locals.old.items) (exprs.in_operand word.entry.now)) }
    ensures few { OnOk result (length locals.new.items ≤ length locals.old.items + 1) }
{
    if !has_bracket(word) {
        return note_index(locals, word);
    }
    match cell_parts(word) {
        Some((_, index)) => note_index(locals, index),
        None => Ok(()),
    }
}

// Notes the locals that two operands mention.
#[tactic(auto, using(crate::proofs::NotedLemmas::noted_steps))]
fn note_two<'a>(locals: &mut Vec<&'a [u8]>, a: &'a [u8], b: &'a [u8]) -> Result<(), AllocError>
    ensures noted { OnOk result (lent locals.new.items
        ≡ words.noted (lent locals.old.items) (exprs.in_operand a.entry.now ++ exprs.in_operand b.entry.now)) }
    ensures few { OnOk result (length locals.new.items ≤ length locals.old.items + 2) }
{
    note_operand(locals, a)?;
    note_operand(locals, b)?;
    Ok(())
}

// Notes the locals that the words of an expression mention.
fn note_expr<'a>(locals: &mut Vec<&'a [u8]>, line: &[&'a [u8]]) -> Result<(), AllocError>
    ensures noted { OnOk result (lent locals.new.items ≡ words.noted (lent locals.old.items) (exprs.in_expr (lent line.entry.now))) }
    ensures few { OnOk result (length locals.new.items ≤ length locals.old.items + 2) }
{
    match line {
        [a] => note_operand(locals, a),
        [a, _, b] => note_two(locals, a, b),
        _ => Ok(()),
    }
}

// Notes the locals that the words after `let` mention.
#[tactic(auto, using(crate::proofs::NotedLemmas::noted_steps))]
fn note_let<'a>(locals: &mut Vec<&'a [u8]>, line: &[&'a [u8]]) -> Result<(), AllocError>
    ensures noted { OnOk result (lent locals.new.items ≡ words.noted (lent locals.old.items) (lines.in_let (lent line.entry.now))) }
    ensures few { OnOk result (length locals.new.items ≤ length locals.old.items + 3) }
{
    let Some((name, rest)) = take_word(line) else {
        return Ok(());
    };
    let Some((_, rest)) = take_word(rest) else {
        return Ok(());
    };
    note(locals, name)?;
    note_expr(locals, rest)?;
    Ok(())
}

// Notes the locals that the words after `put` or `add` mention.
#[tactic(auto, using(crate::proofs::NotedLemmas::noted_steps))]
fn note_put<'a>(locals: &mut Vec<&'a [u8]>, line: &[&'a [u8]]) -> Result<(), AllocError>
    ensures noted { OnOk result (lent locals.new.items ≡ words.noted (lent locals.old.items) (lines.in_put (lent line.entry.now))) }
    ensures few { OnOk result (length locals.new.items ≤ length locals.old.items + 3) }
{
    let Some((cell, rest)) = take_word(line) else {
        return Ok(());
    };
    let Some((_, rest)) = take_word(rest) else {
        return Ok(());
    };
    note_operand(locals, cell)?;
    note_expr(locals, rest)?;
    Ok(())
}

// Notes the locals that the words after `spawn` mention.
fn note_spawn<'a>(locals: &mut Vec<&'a [u8]>, line: &[&'a [u8]]) -> Result<(), AllocError>
    ensures noted { OnOk result (lent locals.new.items ≡ words.noted (lent locals.old.items) (lines.in_spawn (lent line.entry.now))) }
    ensures few { OnOk result (length locals.new.items ≤ length locals.old.items + 2) }
{
    let Some((_, rest)) = take_word(line) else {
        return Ok(());
    };
    note_expr(locals, rest)
}

// Notes the locals that the words after a keyword mention.
#[tactic(auto, unfolding(crate::specs::Lines::mentions_behind))]
fn note_words<'a>(
    locals: &mut Vec<&'a [u8]>,
    keyword: Option<Keyword>,
    line: &[&'a [u8]],
) -> Result<(), AllocError>
    ensures noted { OnOk result (lent locals.new.items
        ≡ words.noted (lent locals.old.items) (lines.mentions_behind keyword (lent line.entry.now))) }
    ensures few { OnOk result (length locals.new.items ≤ length locals.old.items + 3) }
{
    let Some(keyword) = keyword else {
        return Ok(());
    };
    match keyword {
        Keyword::Let => note_let(locals, line),
        Keyword::Put(_) => note_put(locals, line),
        Keyword::Spawn => note_spawn(locals, line),
        Keyword::Print | Keyword::If | Keyword::While => note_expr(locals, line),
        Keyword::Sync | Keyword::Stop | Keyword::Else | Keyword::End => Ok(()),
    }
}

/// Notes the locals that the words after a keyword mention, in format 1: adds each new one at the end. In format 2 the first line of
/// a body lists them all.
pub fn note_behind<'a>(
    locals: &mut Vec<&'a [u8]>,
    format: u32,
    keyword: Option<Keyword>,
    line: &[&'a [u8]],
) -> Result<(), AllocError>
    ensures noted { OnOk result (lent locals.new.items
        ≡ words.locals_behind format (lent locals.old.items) (lines.mentions_behind keyword (lent line.entry.now))) }
    ensures few { OnOk result (length locals.new.items ≤ length locals.old.items + 3) }
{
    if format != 1 {
        return Ok(());
    }
    note_words(locals, keyword, line)
}
