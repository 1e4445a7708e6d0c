//! The head of a trace: what it is a trace of.
ghost use Rattle.std.specs.Prelude.{◌≡◌, ◌≤◌, Ok, Err, MatchOption, MatchResult, IfOk, IfSome, true, false};
ghost use Rattle.text_lines.specs.Text.{words_of, is_skipped};
ghost use Rattle.trace_text.specs.Trace as spec;
ghost use Rattle.trace_text.specs.Views.{head_in, first_phase};

use crate::barrier_words::{BarrierHead, read_barrier_head};
use crate::tree_words::{TreeHead, read_tree_head};
use crate::words::{PhaserHead, is_word, read_phaser_head};
use text_lines::{Code, first_word};

/// The head of a trace: what it is a trace of.
#[derive(Clone, Copy)]
pub enum Head<'a> {
    /// A single phaser.
    Phaser(PhaserHead),
    /// A tree of phasers.
    Tree(TreeHead<'a>),
    /// A barrier.
    Barrier(BarrierHead),
}

/// Reads the head of a line, or returns `None` if the line is skipped.
pub(crate) fn read_head(line: &[u8]) -> Result<Option<Head<'_>>, Code>
    ensures phase { IfOk result (λ o. IfSome o (λ h. first_phase h ≤ 2147483647)) }
    ensures value { MatchResult result
        (λ o. MatchOption o (is_skipped (words_of line.now) ≡ true)
        (λ h. (is_skipped (words_of line.now) ≡ false) × (spec.head_of (words_of line.now) ≡ Ok (head_in h))))
        (λ e. (is_skipped (words_of line.now) ≡ false) × (spec.head_of (words_of line.now) ≡ Err e)) }
{
    let Some((word, rest)) = first_word(line) else {
        return Ok(None);
    };
    if is_word(word, b"phaser") {
        return Ok(Some(Head::Phaser(read_phaser_head(rest)?)));
    }
    if is_word(word, b"tree") {
        return Ok(Some(Head::Tree(read_tree_head(rest)?)));
    }
    if is_word(word, b"barrier") {
        return Ok(Some(Head::Barrier(read_barrier_head(rest)?)));
    }
    Err(Code::BadHeader)
}
