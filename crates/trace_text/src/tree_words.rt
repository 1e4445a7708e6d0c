//! Heads and commands of a trace of a tree, from the words of their lines.
ghost use Rattle.std.specs.Prelude.{◌≡◌, ◌∷◌, ◌≤◌, ◌<◌, None, Some, Ok, Err, Option, MatchOption, MatchResult, IfOk, IfSome, true, false};
ghost use Rattle.text_lines.specs.Text.{words_of, is_skipped};
ghost use Rattle.trace_text.specs.TreeWords as spec;
ghost use Rattle.trace_text.specs.Words.{up_to};
ghost use Rattle.trace_text.specs.Parts.{call_words_in, tree_words_in, tree_asked};

use crate::words::{is_word, number_if, number_or, only_word, take_behind, take_number, up_to};
use advance_rule::EndPlan;
use phaser_word::{LAST_PHASE, MOST_PARTIES};
use text_lines::{Code, split_word};

/// A call that a token makes. Its tier may be any number.
#[derive(Clone, Copy)]
pub enum TokenCall {
    /// Registers members at a tier.
    Join {
        /// The tier.
        tier: u32,
        /// The number of members, from 1 to 65535.
        n: u32,
    },
    /// Arrives as a member that stays.
    Arrive,
    /// Arrives as a member that leaves.
    Leave,
    /// Asks whether the token's phase has passed.
    Poll,
    /// Ends the tree.
    Force,
}

/// A command of a trace of a tree. Its tokens and tiers may be any number.
#[derive(Clone, Copy)]
pub enum TreeCommand {
    /// Makes a new token.
    Token,
    /// Begins a token's call.
    Begin(u32, TokenCall),
    /// Takes the next step of a token's call.
    Go(u32),
    /// Takes the advance that a token owes.
    Finish(u32),
    /// Takes a token's call to its end.
    Run(u32),
    /// Begins a token's call, and takes it to its end.
    Do(u32, TokenCall),
    /// Prints the numbers of a tier.
    Show(u32),
}

/// The head of a trace of a tree: what tree it makes.
#[derive(Clone, Copy)]
pub struct TreeHead<'a> {
    /// The text of its widths.
    pub widths: &'a [u8],
    /// The phase that it begins in.
    pub phase: u32,
    /// When it ends.
    pub plan: EndPlan,
}

// What the first word of a command asks for.
#[derive(Clone, Copy)]
enum Form {
    Token,
    Begin,
    Go,
    Finish,
    Run,
    Do,
    Show,
}

// Reads a word as the first word of a command.
fn form_of(word: &[u8]) -> Option<Form>
    ensures { result ≡ spec.tree_form_of word.now }
{
    if is_word(word, b"token") {
        Some(Form::Token)
    } else if is_word(word, b"begin") {
        Some(Form::Begin)
    } else if is_word(word, b"go") {
        Some(Form::Go)
    } else if is_word(word, b"finish") {
        Some(Form::Finish)
    } else if is_word(word, b"run") {
        Some(Form::Run)
    } else if is_word(word, b"do") {
        Some(Form::Do)
    } else if is_word(word, b"show") {
        Some(Form::Show)
    } else {
        None
    }
}

// A call in words.
#[derive(Clone, Copy)]
enum CallWords<'a> {
    // a join, with the words of its numbers
    Join(&'a [u8], &'a [u8]),
    // another one
    Alone(TokenCall),
}

// Reads a word as a call that has no numbers.
fn call_alone(word: &[u8]) -> Option<TokenCall>
    ensures value { result ≡ spec.call_alone word.now }
    ensures range { IfSome result (λ c. spec.HasMembers c) }
{
    if is_word(word, b"arrive") {
        Some(TokenCall::Arrive)
    } else if is_word(word, b"leave") {
        Some(TokenCall::Leave)
    } else if is_word(word, b"poll") {
        Some(TokenCall::Poll)
    } else if is_word(word, b"force") {
        Some(TokenCall::Force)
    } else {
        None
    }
}

// Splits the rest of a line into the words of a join's numbers.
fn join_words(line: &[u8]) -> Option<CallWords<'_>>
    ensures value { MatchOption result
        (spec.join_words (words_of line.now) ≡ None)
        (λ c. spec.join_words (words_of line.now) ≡ Some (call_words_in c)) }
    ensures range { IfSome result (λ c. spec.WordsFit (call_words_in c)) }
{
    let (tier, rest) = split_word(line)?;
    let n = only_word(rest)?;
    Some(CallWords::Join(tier, n))
}

// Splits the rest of a line into the words of a call.
fn call_words(line: &[u8]) -> Option<CallWords<'_>>
    ensures value { MatchOption result
        (spec.call_words (words_of line.now) ≡ None)
        (λ c. spec.call_words (words_of line.now) ≡ Some (call_words_in c)) }
    ensures range { IfSome result (λ c. spec.WordsFit (call_words_in c)) }
{
    let (word, rest) = split_word(line)?;
    if is_word(word, b"join") {
        return join_words(rest);
    }
    let call = call_alone(word)?;
    if split_word(rest).is_some() {
        return None;
    }
    Some(CallWords::Alone(call))
}

// Reads a call from its words.
fn call_numbers(words: &CallWords<'_>) -> Option<TokenCall>
    requires { spec.WordsFit (call_words_in words.now) }
    ensures value { result ≡ spec.call_numbers (call_words_in words.now) }
    ensures range { IfSome result (λ c. spec.HasMembers c) }
{
    match words {
        CallWords::Alone(call) => Some(*call),
        CallWords::Join(tier, n) => {
            let tier = up_to(u32::MAX, tier)?;
            match up_to(MOST_PARTIES, n)? {
                0 => None,
                n => Some(TokenCall::Join { tier, n }),
            }
        }
    }
}

/// Reads the rest of a line as one number.
pub(crate) fn one_number(line: &[u8]) -> Result<u32, Code>
    ensures { result ≡ spec.one_number (words_of line.now) }
{
    let word = only_word(line).ok_or(Code::BadLine)?;
    up_to(u32::MAX, word).ok_or(Code::BadNumber)
}

// Reads the rest of a line as a token and a call.
fn token_and_call(line: &[u8]) -> Result<(u32, TokenCall), Code>
    ensures value { result ≡ spec.token_and_call (words_of line.now) }
    ensures range { IfOk result (λ k. spec.HasMembers k.1) }
{
    let (token, rest) = split_word(line).ok_or(Code::BadLine)?;
    let words = call_words(rest).ok_or(Code::BadLine)?;
    let token = up_to(u32::MAX, token).ok_or(Code::BadNumber)?;
    let call = call_numbers(&words).ok_or(Code::BadNumber)?;
    Ok((token, call))
}

// Reads a command of this form from the words after the first.
fn formed(form: Form, rest: &[u8]) -> Result<TreeCommand, Code>
    ensures value { result ≡ spec.tree_formed (Some form) (words_of rest.now) }
    ensures range { IfOk result (λ c. spec.InRange c) }
{
    match form {
        Form::Token => match split_word(rest) {
            None => Ok(TreeCommand::Token),
            Some(_) => Err(Code::BadLine),
        },
        Form::Begin => {
            let (token, call) = token_and_call(rest)?;
            Ok(TreeCommand::Begin(token, call))
        }
        Form::Go => Ok(TreeCommand::Go(one_number(rest)?)),
        Form::Finish => Ok(TreeCommand::Finish(one_number(rest)?)),
        Form::Run => Ok(TreeCommand::Run(one_number(rest)?)),
        Form::Do => {
            let (token, call) = token_and_call(rest)?;
            Ok(TreeCommand::Do(token, call))
        }
        Form::Show => Ok(TreeCommand::Show(one_number(rest)?)),
    }
}

/// Reads a command of a tree from the first word and the rest of its line.
pub(crate) fn tree_command(word: &[u8], rest: &[u8]) -> Result<TreeCommand, Code>
    ensures range { IfOk result (λ c. spec.InRange c) }
    ensures value { result ≡ spec.tree_command_of (word.now ∷ words_of rest.now) }
{
    let form = form_of(word).ok_or(Code::UnknownLine)?;
    formed(form, rest)
}

// A head in words.
#[derive(Clone, Copy)]
struct TreeHeadWords<'a> {
    widths: &'a [u8],
    phase: Option<&'a [u8]>,
    keep: bool,
    at: Option<&'a [u8]>,
}

// Splits off a keyword if it comes next. Returns whether it did, and the rest of the line.
fn take_keyword<'a>(keyword: &[u8], line: &'a [u8]) -> (bool, &'a [u8])
    ensures { (result.0, words_of result.1.now) ≡ spec.take_keyword keyword.now (words_of line.entry.now) }
{
    match split_word(line) {
        Some((word, rest)) if word == keyword => (true, rest),
        _ => (false, line),
    }
}

// Splits the rest of a head's line into its words.
fn tree_head_words(line: &[u8]) -> Option<TreeHeadWords<'_>>
    ensures { MatchOption result
        (spec.tree_head_words (words_of line.now) ≡ None)
        (λ h. spec.tree_head_words (words_of line.now) ≡ Some (tree_words_in h)) }
{
    let (widths, rest) = split_word(line)?;
    let (phase, rest) = take_number(rest);
    let (keep, rest) = take_keyword(b"keep", rest);
    let (at, rest) = take_behind(b"at", rest)?;
    if split_word(rest).is_some() {
        return None;
    }
    Some(TreeHeadWords {
        widths,
        phase,
        keep,
        at,
    })
}

/// Reads the head of a tree from the rest of its line.
pub(crate) fn read_tree_head(line: &[u8]) -> Result<TreeHead<'_>, Code>
    ensures phase { IfOk result (λ h. h.phase ≤ 2147483647) }
    ensures value { MatchResult result
        (λ h. spec.tree_numbered (spec.tree_head_words (words_of line.now)) ≡ Ok (tree_asked h))
        (λ e. spec.tree_numbered (spec.tree_head_words (words_of line.now)) ≡ Err e) }
{
    let words = tree_head_words(line).ok_or(Code::BadLine)?;
    let phase = number_or(LAST_PHASE, 0, words.phase).ok_or(Code::BadNumber)?;
    let at = number_if(LAST_PHASE, words.at).ok_or(Code::BadNumber)?;
    Ok(TreeHead {
        widths: words.widths,
        phase,
        plan: EndPlan {
            when_empty: !words.keep,
            at,
        },
    })
}
