//! What a text asks for.
ghost use Rattle.std.specs.Prelude.{◌≡◌, ◌+◌, ◌≤◌, ◌<◌, ◌^◌, not, ◌&&◌, ◌||◌, nat_lt, length, true, false, Ok, Err, MatchOption, MatchResult, IfOk, IfSome, OnOk, All, ℕ, List, ◌∷◌};
ghost use Rattle.text_lines.specs.Limits.{most_bytes};
ghost use Rattle.text_lines.specs.Text.{is_skipped, lines_of, words_of};
ghost use Rattle.trace_text.specs.Trace as spec;
ghost use Rattle.trace_text.specs.Gives.{Gives, Fails};
ghost use Rattle.trace_text.specs.Views.{asked, head_in, first_phase, start_phase, commands_fit};

use crate::barrier_words::{BarrierCommand, BarrierHead};
use crate::command::{Command, read_command};
use crate::fault::TraceFault;
use crate::head::{Head, read_head};
use crate::tree_words::{TreeCommand, TreeHead};
use crate::words::{PhaserCommand, PhaserHead};
use std::alloc::Global;
use text_lines::{Code, Refusal, bad_byte_line, split_line};

/// What a text asks for.
#[derive(Drop)]
pub(crate) enum Trace<'a> {
    /// The head of a phaser, and its commands.
    Phaser(PhaserHead, Vec<PhaserCommand>),
    /// The head of a tree, and its commands.
    Tree(TreeHead<'a>, Vec<TreeCommand>),
    /// The head of a barrier, and its commands.
    Barrier(BarrierHead, Vec<BarrierCommand>),
}

// Reads the head. Returns it, the number of the line after it, and the text from there on.
fn split_head(text: &[u8]) -> Result<(Head<'_>, usize, &[u8]), Refusal>
    requires { length text.now ≤ most_bytes }
    ensures head { MatchResult result
        (λ h. spec.asked_from 1 (lines_of text.now) ≡ spec.below (head_in h.0) h.1 (lines_of h.2.now))
        (λ r. spec.asked_from 1 (lines_of text.now) ≡ Err r) }
    ensures lines { IfOk result (λ h. h.1 + length h.2.now ≤ length text.now + 1) }
    ensures phase { IfOk result (λ h. first_phase h.0 ≤ 2147483647) }
{
    let mut line = 1;
    let mut rest = text;
    while let Some((first, after)) = split_line(rest) {
        rest = after;
        match read_head(first) {
            Ok(None) => line += 1,
            Ok(Some(head)) => return Ok((head, line + 1, rest)),
            Err(code) => return Err(Refusal { line, code }),
        }
    }
    Err(Refusal {
        line,
        code: Code::BadHeader,
    })
}

/// The largest number of commands of a trace.
pub(crate) const MOST_COMMANDS: usize = 4096;

/// The largest number of tokens of a trace.
pub(crate) const MOST_TOKENS: usize = 256;

// Returns true if one more command exceeds a limit, after `count` commands and `tokens` tokens.
fn is_too_many<C: Command>(count: usize, tokens: usize, command: C) -> bool
    ensures { result ≡ not (nat_lt count spec.most_commands && (not (C.brings command) || nat_lt tokens spec.most_tokens)) }
{
    count >= MOST_COMMANDS || (command.brings_token() && tokens >= MOST_TOKENS)
}

// Reads the command of this line, after `count` commands and `tokens` tokens, or returns `None` if the line is skipped.
fn next_command<C: Command>(
    text: &[u8],
    line: usize,
    count: usize,
    tokens: usize,
) -> Result<Option<C>, Refusal>
    ensures range { IfOk result (λ o. IfSome o (λ c. C.fits c)) }
    ensures value { MatchResult result
        (λ o. MatchOption o (is_skipped (words_of text.now) ≡ true)
        (λ c. (is_skipped (words_of text.now) ≡ false) × (spec.at line (spec.counted C.brings count tokens (C.says (words_of text.now))) ≡ Ok c)))
        (λ r. (is_skipped (words_of text.now) ≡ false) × (spec.at line (spec.counted C.brings count tokens (C.says (words_of text.now))) ≡ Err r)) }
{
    match read_command::<C>(text) {
        Ok(Some(command)) if is_too_many(count, tokens, command) => {
            let code = Code::TooMany;
            Err(Refusal { line, code })
        }
        Ok(command) => Ok(command),
        Err(code) => Err(Refusal { line, code }),
    }
}

// Reads the command of this line and adds it. Returns the number of tokens after it.
fn add_line<C: Command>(
    commands: &mut Vec<C>,
    text: &[u8],
    line: usize,
    tokens: usize,
) -> Result<usize, TraceFault>
    requires few { tokens ≤ 256 }
    ensures same { (ls : List (List ℕ)) → MatchResult result
        (λ t. spec.with_front commands.old.items (spec.commands_from C.says C.brings line (length commands.old.items) tokens (text.now ∷ ls))
        ≡ spec.with_front commands.new.items (spec.commands_from C.says C.brings (line + 1) (length commands.new.items) t ls))
        (λ fault. Fails fault (spec.with_front commands.old.items (spec.commands_from C.says C.brings line (length commands.old.items) tokens (text.now ∷ ls)))) }
    ensures few { IfOk result (λ t. t ≤ 256) }
    ensures range { All C.fits commands.old.items → OnOk result (All C.fits commands.new.items) }
{
    match next_command(text, line, commands.len(), tokens) {
        Ok(None) => Ok(tokens),
        Ok(Some(command)) => match commands.push(command) {
            Ok(()) if command.brings_token() => Ok(tokens + 1),
            Ok(()) => Ok(tokens),
            Err(_) => Err(TraceFault::Memory),
        },
        Err(refusal) => Err(TraceFault::Text(refusal)),
    }
}

// Reads the commands of a text that begins in this line.
fn read_commands<C: Command>(alloc: Global, text: &[u8], first: usize) -> Result<Vec<C>, TraceFault>
    requires { first + length text.now < 2 ^ 32 }
    ensures value { Gives (λ v. v.items) result (spec.commands_from C.says C.brings first 0 0 (lines_of text.now)) }
    ensures range { IfOk result (λ v. All C.fits v.items) }
{
    let mut commands = Vec::new(alloc);
    let mut tokens = 0;
    let mut line = first;
    let mut rest = text;
    while let Some((this, after)) = split_line(rest) {
        rest = after;
        tokens = add_line(&mut commands, this, line, tokens)?;
        line += 1;
    }
    Ok(commands)
}

// Reads the commands after this head, from this line on.
fn read_behind<'a>(
    alloc: Global,
    head: Head<'a>,
    line: usize,
    rest: &[u8],
) -> Result<Trace<'a>, TraceFault>
    requires { line + length rest.now < 2 ^ 32 }
    ensures asked { Gives asked result (spec.below (head_in head.entry) line (lines_of rest.now)) }
    ensures phase { first_phase head.entry ≤ 2147483647 → IfOk result (λ t. start_phase t ≤ 2147483647) }
    ensures range { IfOk result commands_fit }
{
    match head {
        Head::Phaser(head) => Ok(Trace::Phaser(head, read_commands(alloc, rest, line)?)),
        Head::Tree(head) => Ok(Trace::Tree(head, read_commands(alloc, rest, line)?)),
        Head::Barrier(head) => Ok(Trace::Barrier(head, read_commands(alloc, rest, line)?)),
    }
}

/// Reads a whole text as a trace.
#[tactic(auto, unfolding(crate::specs::Trace::asked_of))]
pub(crate) fn read_trace(alloc: Global, text: &[u8]) -> Result<Trace<'_>, TraceFault>
    requires { length text.now ≤ most_bytes }
    ensures asked { Gives asked result (spec.asked_of text.now) }
    ensures phase { IfOk result (λ t. start_phase t ≤ 2147483647) }
    ensures range { IfOk result commands_fit }
{
    if let Some(line) = bad_byte_line(text) {
        let code = Code::BadByte;
        return Err(TraceFault::Text(Refusal { line, code }));
    }
    let (head, line, rest) = split_head(text)?;
    read_behind(alloc, head, line, rest)
}
