//! Heads and commands of a trace, from the words of their lines.
ghost use Rattle.std.specs.Prelude.{◌≡◌, ◌∷◌, [], None, Some, Ok, Err, Option, option_copied, MatchOption, MatchResult, IfOk, IfSome, ◌≤◌, true, false};
ghost use Rattle.std.specs.Str.{bytes_eq};
ghost use Rattle.text_lines.specs.Text.{words_of, is_skipped};
ghost use Rattle.text_lines.specs.Number.{number_of};
ghost use Rattle.trace_text.specs.Words as spec;
ghost use Rattle.trace_text.specs.Parts.{words_in};
ghost use Rattle.std.specs.Prelude.{◌≢◌};

use advance_rule::CountPlan;
use phaser_one::Call;
use phaser_word::LAST_PHASE;
use text_lines::{Code, begins_number, number, split_word};

/// A command of a trace.
#[derive(Clone, Copy)]
pub enum PhaserCommand {
    /// A call of the phaser.
    Call(Call),
    /// The phaser's numbers.
    Show,
}

/// The head of a trace: what phaser it makes.
#[derive(Clone, Copy)]
pub struct PhaserHead {
    /// The number of parties that it begins with.
    pub parties: i64,
    /// The phase that it begins in.
    pub phase: u32,
    /// When it ends.
    pub plan: CountPlan,
}

/// Returns true if two words are the same.
pub(crate) fn is_word(word: &[u8], other: &[u8]) -> bool
    ensures { result ≡ bytes_eq word.now other.now }
{
    word == other
}

// Reads a word as a whole number from 0 to `most`.
pub(crate) fn up_to(most: u32, word: &[u8]) -> Option<u32>
    ensures value { result ≡ spec.up_to most (number_of word.now) }
    ensures small { IfSome result (λ n. n ≤ most) }
{
    let n = number(word)?;
    match u32::try_from(n) {
        Ok(n) if n <= most => Some(n),
        _ => None,
    }
}

// Reads a word as a number of 32 signed bits.
pub(crate) fn of_32_bits(word: &[u8]) -> Option<i32>
    ensures { result ≡ spec.of_32_bits (number_of word.now) }
{
    let n = number(word)?;
    i32::try_from(n).ok()
}

// Splits off the next word, if it begins as a number. Returns it and the rest of the line.
pub(crate) fn take_number(line: &[u8]) -> (Option<&[u8]>, &[u8])
    ensures { (option_copied result.0, words_of result.1.now) ≡ spec.take_number (words_of line.now) }
{
    let Some((word, rest)) = split_word(line) else {
        return (None, line);
    };
    if begins_number(word) {
        (Some(word), rest)
    } else {
        (None, line)
    }
}

// Splits off a keyword and the word after it, if the keyword comes next. Returns the word and the rest of the line, or
// `None` if the keyword has no word after it.
pub(crate) fn take_behind<'a>(
    keyword: &[u8],
    line: &'a [u8],
) -> Option<(Option<&'a [u8]>, &'a [u8])>
    ensures { MatchOption result
        (spec.take_behind keyword.now (words_of line.entry.now) ≡ None)
        (λ r. spec.take_behind keyword.now (words_of line.entry.now) ≡ Some (option_copied r.0, words_of r.1.now)) }
{
    let Some((word, rest)) = split_word(line) else {
        return Some((None, line));
    };
    if word != keyword {
        return Some((None, line));
    }
    let (word, rest) = split_word(rest)?;
    Some((Some(word), rest))
}

// What the first word of a command asks for.
#[derive(Clone, Copy)]
enum Form {
    // a command alone
    Alone(PhaserCommand),
    // a number of parties follows
    Bulk,
    // a phase follows
    Await,
}

// Reads a word as the first word of a command.
fn form_of(word: &[u8]) -> Option<Form>
    ensures { result ≡ spec.form_of word.now }
{
    if is_word(word, b"register") {
        Some(Form::Alone(PhaserCommand::Call(Call::Register)))
    } else if is_word(word, b"bulk") {
        Some(Form::Bulk)
    } else if is_word(word, b"arrive") {
        Some(Form::Alone(PhaserCommand::Call(Call::Arrive)))
    } else if is_word(word, b"leave") {
        Some(Form::Alone(PhaserCommand::Call(Call::Leave)))
    } else if is_word(word, b"await") {
        Some(Form::Await)
    } else if is_word(word, b"force") {
        Some(Form::Alone(PhaserCommand::Call(Call::Force)))
    } else if is_word(word, b"show") {
        Some(Form::Alone(PhaserCommand::Show))
    } else {
        None
    }
}

// Returns the word of a line, if it is the only one.
pub(crate) fn only_word(line: &[u8]) -> Option<&[u8]>
    ensures { MatchOption result
        ((w : spec.Word) → words_of line.now ≢ w ∷ [])
        (λ w. words_of line.now ≡ w.now ∷ []) }
{
    let (word, rest) = split_word(line)?;
    match split_word(rest) {
        None => Some(word),
        Some(_) => None,
    }
}

// Reads a command of this form from the words after the first.
fn formed(form: Form, rest: &[u8]) -> Result<PhaserCommand, Code>
    ensures { result ≡ spec.formed (Some form) (words_of rest.now) }
{
    match form {
        Form::Alone(command) => match split_word(rest) {
            None => Ok(command),
            Some(_) => Err(Code::BadLine),
        },
        Form::Bulk => {
            let word = only_word(rest).ok_or(Code::BadLine)?;
            let count = number(word).ok_or(Code::BadNumber)?;
            Ok(PhaserCommand::Call(Call::Bulk(count)))
        }
        Form::Await => {
            let word = only_word(rest).ok_or(Code::BadLine)?;
            let phase = of_32_bits(word).ok_or(Code::BadNumber)?;
            Ok(PhaserCommand::Call(Call::Await(phase)))
        }
    }
}

/// Reads a command of a phaser from the first word and the rest of its line.
pub(crate) fn phaser_command(word: &[u8], rest: &[u8]) -> Result<PhaserCommand, Code>
    ensures { result ≡ spec.command_of (word.now ∷ words_of rest.now) }
{
    let form = form_of(word).ok_or(Code::UnknownLine)?;
    formed(form, rest)
}

// A head in words.
#[derive(Clone, Copy)]
struct HeadWords<'a> {
    parties: &'a [u8],
    phase: Option<&'a [u8]>,
    least: Option<&'a [u8]>,
    at: Option<&'a [u8]>,
}

// Splits the rest of a head's line into its words.
fn head_words(line: &[u8]) -> Option<HeadWords<'_>>
    ensures { MatchOption result
        (spec.head_words (words_of line.now) ≡ None)
        (λ h. spec.head_words (words_of line.now) ≡ Some (words_in h)) }
{
    let (parties, rest) = split_word(line)?;
    let (phase, rest) = take_number(rest);
    let (least, rest) = take_behind(b"least", rest)?;
    let (at, rest) = take_behind(b"at", rest)?;
    if split_word(rest).is_some() {
        return None;
    }
    Some(HeadWords {
        parties,
        phase,
        least,
        at,
    })
}

// Reads a number from 0 to `most`, or returns `default` if the word is left out.
pub(crate) fn number_or(most: u32, default: u32, word: Option<&[u8]>) -> Option<u32>
    requires { default ≤ most }
    ensures value { result ≡ spec.number_or most default (option_copied word.entry) }
    ensures small { IfSome result (λ n. n ≤ most) }
{
    match word {
        None => Some(default),
        Some(word) => up_to(most, word),
    }
}

// Reads a number from 0 to `most`, if there is a word.
pub(crate) fn number_if(most: u32, word: Option<&[u8]>) -> Option<Option<u32>>
    ensures { result ≡ spec.number_if most (option_copied word.entry) }
{
    match word {
        None => Some(None),
        Some(word) => up_to(most, word).map(Some),
    }
}

// Reads a head from its words.
fn head_numbers(words: &HeadWords<'_>) -> Option<PhaserHead>
    ensures value { result ≡ spec.head_numbers (words_in words.now) }
    ensures phase { IfSome result (λ h. h.phase ≤ 2147483647) }
{
    let parties = number(words.parties)?;
    let phase = number_or(LAST_PHASE, 0, words.phase)?;
    let least = number_or(65536, 1, words.least)?;
    let at = number_if(LAST_PHASE, words.at)?;
    Some(PhaserHead {
        parties,
        phase,
        plan: CountPlan { least, at },
    })
}

/// Reads the head of a phaser from the rest of its line.
pub(crate) fn read_phaser_head(line: &[u8]) -> Result<PhaserHead, Code>
    ensures phase { IfOk result (λ h. h.phase ≤ 2147483647) }
    ensures value { result ≡ spec.numbered (spec.head_words (words_of line.now)) }
{
    let words = head_words(line).ok_or(Code::BadLine)?;
    head_numbers(&words).ok_or(Code::BadNumber)
}
