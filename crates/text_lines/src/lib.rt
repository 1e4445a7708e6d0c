//! Texts of numbered lines: lines, words, comments, numbers and the first byte that isn't allowed. The reader of jobs and
//! the reader of traces both use it. Nothing here is part of Java's API.
//!
//! # Where things are
//!
//! * `split.rt`: lines and words; `numbers.rt`: numbers as words; `refusal.rt`: why a text is refused, and where.
#![tactic(auto)]

ghost use Rattle.text_lines.specs.Laws.{
  JoinedLinesAreRead,
  LinesGiveBackTheText,
  SpacedWordsAreRead,
  WordsOfALine,
  NumbersAreRead,
};

mod numbers;
mod refusal;
mod split;

pub use numbers::{begins_number, number};
pub use refusal::{Code, Refusal};
pub use split::{bad_byte_line, first_word, split_line, split_word};

/// Lines are the lines of what they join to, and a last one may lack its LF.
pub fn joined_lines_are_read()
    ensures { JoinedLinesAreRead }
{}

/// The lines of a text hold no LF, and joined they are the text.
pub fn lines_give_back_the_text()
    ensures { LinesGiveBackTheText }
{}

/// Words are the words of what they join to.
pub fn spaced_words_are_read()
    ensures { SpacedWordsAreRead }
{}

/// The words of a line hold no space, and spaces in front of a line change none of them.
pub fn words_of_a_line()
    ensures { WordsOfALine }
{}

/// The text of a number of 64 signed bits is read as that number, and nothing else is.
pub fn numbers_are_read()
    ensures { NumbersAreRead }
{}
