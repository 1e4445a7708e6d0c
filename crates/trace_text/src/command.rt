//! Commands of traces, of whichever kind.
ghost use Rattle.std.specs.Prelude.{◌≡◌, ◌∷◌, ℕ, Bool, List, Ok, Err, Result, IfOk, IfSome, MatchOption, MatchResult, ⊤, true, false};
ghost use Rattle.text_lines.specs.declared.refusal.Code.{Code};
ghost use Rattle.text_lines.specs.Text.{words_of, is_skipped};
ghost use Rattle.trace_text.specs.BarrierWords.{barrier_command_of};
ghost use Rattle.trace_text.specs.Trace.{brings_none};
ghost use Rattle.trace_text.specs.TreeWords.{tree_command_of, brings_token, InRange};
ghost use Rattle.trace_text.specs.Words.{command_of};

use crate::barrier_words::{BarrierCommand, barrier_command};
use crate::tree_words::{TreeCommand, tree_command};
use crate::words::{PhaserCommand, phaser_command};
use text_lines::{Code, first_word};

/// A command of a trace.
pub(crate) trait Command: Copy {
    // what the words of a line say
    ghost says: { List (List ℕ) → Result Self Code };

    // whether it brings a token in
    ghost brings: { Self → Bool };

    // that its numbers are in range
    ghost fits: { Self → Type 0 };

    /// Reads a command from the first word and the rest of its line.
    fn of_words(word: &[u8], rest: &[u8]) -> Result<Self, Code>
        ensures range { IfOk result (λ c. fits c) }
        ensures value { result ≡ says (word.now ∷ words_of rest.now) };

    /// Returns true if the command brings a token in.
    fn brings_token(self) -> bool
        ensures { result ≡ brings self };
}

impl Command for PhaserCommand {
    ghost says = { command_of };

    ghost brings = { brings_none };

    ghost fits = { λ _. ⊤ };

    fn of_words(word: &[u8], rest: &[u8]) -> Result<Self, Code> {
        phaser_command(word, rest)
    }

    fn brings_token(self) -> bool {
        false
    }
}

impl Command for BarrierCommand {
    ghost says = { barrier_command_of };

    ghost brings = { brings_none };

    ghost fits = { λ _. ⊤ };

    fn of_words(word: &[u8], rest: &[u8]) -> Result<Self, Code> {
        barrier_command(word, rest)
    }

    fn brings_token(self) -> bool {
        false
    }
}

impl Command for TreeCommand {
    ghost says = { tree_command_of };

    ghost brings = { brings_token };

    ghost fits = { InRange };

    fn of_words(word: &[u8], rest: &[u8]) -> Result<Self, Code> {
        tree_command(word, rest)
    }

    fn brings_token(self) -> bool {
        matches!(self, TreeCommand::Token)
    }
}

/// Reads the command of a line, or `None` if the line is skipped.
pub(crate) fn read_command<C: Command>(line: &[u8]) -> Result<Option<C>, Code>
    ensures range { IfOk result (λ o. IfSome o (λ c. C.fits c)) }
    ensures value { MatchResult result
        (λ o. MatchOption o (is_skipped (words_of line.now) ≡ true)
        (λ c. (is_skipped (words_of line.now) ≡ false) × (C.says (words_of line.now) ≡ Ok c)))
        (λ e. (is_skipped (words_of line.now) ≡ false) × (C.says (words_of line.now) ≡ Err e)) }
{
    match first_word(line) {
        None => Ok(None),
        Some((word, rest)) => Ok(Some(C::of_words(word, rest)?)),
    }
}
