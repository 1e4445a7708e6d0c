//! The word of a line that is no number, or none of its range.
ghost use Rattle.std.specs.Prelude.{◌≡◌, [], is_some};
ghost use Rattle.text_lines.specs.Number.{number_of};
ghost use Rattle.text_lines.specs.Text.{lines_of, words_of};
ghost use Rattle.trace_text.specs.Faulty as spec;
ghost use Rattle.trace_text.specs.TreeWords.{above_zero, most_members};
ghost use Rattle.trace_text.specs.Words.{up_to as spec_up_to};

use crate::barrier_words::generation;
use crate::words::{is_word, of_32_bits, up_to};
use phaser_word::{LAST_PHASE, MOST_PARTIES};
use text_lines::{begins_number, first_word, number, split_line, split_word};

// Returns true if a word is a whole number from 0 to `most`.
fn fits(most: u32, word: &[u8]) -> bool
    ensures { result ≡ spec.fits most word.now }
{
    up_to(most, word).is_some()
}

// Returns true if a word may be the value of an option of a head, if the word before it is one.
fn option_fits(option: &[u8], word: &[u8]) -> bool
    ensures { result ≡ spec.option_fits option.now word.now }
{
    if is_word(option, b"least") {
        fits(65536, word)
    } else if is_word(option, b"at") {
        fits(LAST_PHASE, word)
    } else if is_word(option, b"fails") {
        generation(word).is_some()
    } else {
        true
    }
}

// Returns the number of the first word of a line that doesn't fit the word before it. The first has number 2.
fn value_fault(line: &[u8]) -> Option<usize>
    ensures { result ≡ spec.value_fault [] 2 (words_of line.now) }
{
    let mut before: &[u8] = &[];
    let mut at: usize = 2;
    let mut rest = line;
    while let Some((word, after)) = split_word(rest) {
        if !option_fits(before, word) {
            return Some(at);
        }
        before = word;
        at += 1;
        rest = after;
    }
    None
}

// Returns true if the next word is no phase that is too great.
fn phase_fits(line: &[u8]) -> bool
    ensures { result ≡ spec.phase_fits (words_of line.now) }
{
    match split_word(line) {
        Some((word, _)) => !begins_number(word) || fits(LAST_PHASE, word),
        None => true,
    }
}

// Returns the number of the word at fault of a head, from its first word and the rest of its line.
fn head_fault(head: &[u8], line: &[u8]) -> Option<usize>
    ensures { result ≡ spec.head_fault head.now (words_of line.now) }
{
    let (word, rest) = split_word(line)?;
    if !is_word(head, b"tree") && number(word).is_none() {
        return Some(1);
    }
    if !phase_fits(rest) {
        return Some(2);
    }
    value_fault(rest)
}

// Returns true if as many members may join at once as a word says.
fn members_fit(word: &[u8]) -> bool
    ensures { result ≡ is_some (above_zero (spec_up_to most_members (number_of word.now))) }
{
    match up_to(MOST_PARTIES, word) {
        Some(count) => count > 0,
        None => false,
    }
}

// Returns the number of the word at fault of a join, from `join` on.
fn join_fault(line: &[u8]) -> Option<usize>
    ensures { result ≡ spec.join_fault (words_of line.now) }
{
    let (_, rest) = split_word(line)?;
    let (tier, rest) = split_word(rest)?;
    let (count, _) = split_word(rest)?;
    if !fits(u32::MAX, tier) {
        return Some(3);
    }
    if members_fit(count) { None } else { Some(4) }
}

// Returns true if a word may be the number after the first word of a command.
fn number_fits(of_phaser: bool, command: &[u8], word: &[u8]) -> bool
    ensures { result ≡ spec.number_fits of_phaser command.now word.now }
{
    if !of_phaser {
        return fits(u32::MAX, word);
    }
    if is_word(command, b"await") {
        return of_32_bits(word).is_some();
    }
    number(word).is_some()
}

// Returns the number of the word at fault of a command, from its first word and the rest of its line.
fn command_fault(of_phaser: bool, command: &[u8], line: &[u8]) -> Option<usize>
    ensures { result ≡ spec.command_fault of_phaser command.now (words_of line.now) }
{
    let (word, rest) = split_word(line)?;
    if number_fits(of_phaser, command, word) {
        return join_fault(rest);
    }
    Some(1)
}

// Returns true if a word begins a head.
fn is_head(word: &[u8]) -> bool
    ensures { result ≡ spec.is_head word.now }
{
    is_word(word, b"phaser") || is_word(word, b"tree") || is_word(word, b"barrier")
}

// Returns the number of the word at fault of a line.
fn line_fault(of_phaser: bool, line: &[u8]) -> Option<usize>
    ensures { result ≡ spec.line_fault of_phaser (words_of line.now) }
{
    let (word, rest) = split_word(line)?;
    if is_head(word) {
        return head_fault(word, rest);
    }
    command_fault(of_phaser, word, rest)
}

// Returns true if a trace is one of a phaser.
fn is_of_phaser(text: &[u8]) -> bool
    ensures { result ≡ spec.is_of_phaser (lines_of text.now) }
{
    let mut rest = text;
    while let Some((line, after)) = split_line(rest) {
        if let Some((word, _)) = first_word(line) {
            return is_word(word, b"phaser");
        }
        rest = after;
    }
    false
}

/// Returns which word of a line of this trace is no number, or none of its range, if one is. The first word has number 0. A
/// trace that is refused with `BadNumber` has its fault there.
pub fn faulty_number(text: &[u8], line: &[u8]) -> Option<usize>
    ensures { result ≡ spec.faulty_number text.now line.now }
{
    line_fault(is_of_phaser(text), line)
}
