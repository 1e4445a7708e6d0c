//! Heads and commands of a trace of a barrier, from the words of their lines.
ghost use Rattle.std.specs.Prelude.{◌≡◌, ◌∷◌, None, Some, Ok, Err, option_copied, MatchOption, MatchResult, true, false};
ghost use Rattle.text_lines.specs.Text.{words_of, is_skipped};
ghost use Rattle.text_lines.specs.Number.{number_of};
ghost use Rattle.trace_text.specs.BarrierWords as spec;
ghost use Rattle.trace_text.specs.Parts.{barrier_words_in};

use crate::tree_words::one_number;
use crate::words::{is_word, take_behind};
use cyclic_gate::Call;
use text_lines::{Code, number, split_word};

/// A command of a trace of a barrier.
#[derive(Clone, Copy)]
pub enum BarrierCommand {
    /// A call of the barrier.
    Call(Call),
    /// Prints the barrier's numbers.
    Show,
}

/// The head of a trace of a barrier: what barrier it makes.
#[derive(Clone, Copy)]
pub struct BarrierHead {
    /// The number of parties that meet.
    pub parties: i64,
    /// The generation in which the action fails.
    pub fails: Option<u64>,
}

// What the first word of a command asks for.
#[derive(Clone, Copy)]
enum Form {
    // a caller follows, who arrives
    Await,
    // a caller follows, who leaves early
    Abandon,
    // a command alone
    Alone(BarrierCommand),
}

// Reads a word as the first word of a command.
fn form_of(word: &[u8]) -> Option<Form>
    ensures { result ≡ spec.barrier_form_of word.now }
{
    if is_word(word, b"await") {
        Some(Form::Await)
    } else if is_word(word, b"abandon") {
        Some(Form::Abandon)
    } else if is_word(word, b"break") {
        Some(Form::Alone(BarrierCommand::Call(Call::BreakOff)))
    } else if is_word(word, b"reset") {
        Some(Form::Alone(BarrierCommand::Call(Call::Reset)))
    } else if is_word(word, b"show") {
        Some(Form::Alone(BarrierCommand::Show))
    } else {
        None
    }
}

// Reads a command of this form from the words after the first.
fn formed(form: Form, rest: &[u8]) -> Result<BarrierCommand, Code>
    ensures { result ≡ spec.barrier_formed (Some form) (words_of rest.now) }
{
    match form {
        Form::Await => Ok(BarrierCommand::Call(Call::Await(one_number(rest)?))),
        Form::Abandon => Ok(BarrierCommand::Call(Call::Abandon(one_number(rest)?))),
        Form::Alone(command) => match split_word(rest) {
            None => Ok(command),
            Some(_) => Err(Code::BadLine),
        },
    }
}

/// Reads a command of a barrier from the first word and the rest of its line.
pub(crate) fn barrier_command(word: &[u8], rest: &[u8]) -> Result<BarrierCommand, Code>
    ensures { result ≡ spec.barrier_command_of (word.now ∷ words_of rest.now) }
{
    let form = form_of(word).ok_or(Code::UnknownLine)?;
    formed(form, rest)
}

// A head in words.
#[derive(Clone, Copy)]
struct BarrierHeadWords<'a> {
    parties: &'a [u8],
    fails: Option<&'a [u8]>,
}

// Splits the rest of a head's line into its words.
fn barrier_head_words(line: &[u8]) -> Option<BarrierHeadWords<'_>>
    ensures { MatchOption result
        (spec.barrier_head_words (words_of line.now) ≡ None)
        (λ h. spec.barrier_head_words (words_of line.now) ≡ Some (barrier_words_in h)) }
{
    let (parties, rest) = split_word(line)?;
    let (fails, rest) = take_behind(b"fails", rest)?;
    if split_word(rest).is_some() {
        return None;
    }
    Some(BarrierHeadWords { parties, fails })
}

// Reads a word as a generation.
pub(crate) fn generation(word: &[u8]) -> Option<u64>
    ensures { result ≡ spec.not_below_zero (number_of word.now) }
{
    let n = number(word)?;
    u64::try_from(n).ok()
}

// Reads a generation, if there is a word.
fn generation_if(word: Option<&[u8]>) -> Option<Option<u64>>
    ensures { result ≡ spec.generation_if (option_copied word.entry) }
{
    match word {
        None => Some(None),
        Some(word) => generation(word).map(Some),
    }
}

// Reads a head from its words.
fn head_numbers(words: &BarrierHeadWords<'_>) -> Option<BarrierHead>
    ensures { result ≡ spec.barrier_head_numbers (barrier_words_in words.now) }
{
    let parties = number(words.parties)?;
    let fails = generation_if(words.fails)?;
    Some(BarrierHead { parties, fails })
}

/// Reads the head of a barrier from the rest of its line.
pub(crate) fn read_barrier_head(line: &[u8]) -> Result<BarrierHead, Code>
    ensures { result ≡ spec.barrier_numbered (spec.barrier_head_words (words_of line.now)) }
{
    let words = barrier_head_words(line).ok_or(Code::BadLine)?;
    head_numbers(&words).ok_or(Code::BadNumber)
}
