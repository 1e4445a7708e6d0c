//! Why a text is refused, and where.
ghost use Rattle.std.specs.Prelude.{◌≡◌};
ghost use Rattle.text_lines.specs.Refusals.{code_number};

use thiserror::Error;

/// Why a text is refused. A reader of one format uses only some of these.
#[derive(Clone, Copy, Debug, PartialEq, Eq, Error)]
pub enum Code {
    /// The text has more bytes than a text may have. Split it.
    #[error("text too long")]
    TooLong,
    /// A byte is neither LF nor from 0x20 to 0x7E. Remove it.
    #[error("byte that isn't allowed")]
    BadByte,
    /// The first line isn't a header. Begin the text with one.
    #[error("the first line isn't a header")]
    BadHeader,
    /// The line's first word isn't allowed here. Correct the word or move the line.
    #[error("unknown line")]
    UnknownLine,
    /// A word isn't a name. Choose another.
    #[error("not a name")]
    BadName,
    /// A word isn't a number, or is out of its range. Correct it.
    #[error("not a number, or out of its range")]
    BadNumber,
    /// The line has too few words, too many, or a word in the wrong place. Correct the line.
    #[error("too few, too many or misplaced words")]
    BadLine,
    /// The name is declared already. Rename one of the two.
    #[error("declared twice")]
    Twice,
    /// Nothing of this name is declared. Declare it or correct the name.
    #[error("unknown name")]
    UnknownName,
    /// The text ends within a block. Close the block.
    #[error("the text ends within a block")]
    Unclosed,
    /// The line doesn't fit the blocks around it. Move it.
    #[error("the line doesn't fit the blocks around it")]
    BadNesting,
    /// There are more of a thing than a limit allows. Use fewer.
    #[error("over a limit")]
    TooMany,
    /// A length is out of its range. Correct it.
    #[error("length out of its range")]
    BadLength,
    /// A reserved word is used as a name. Choose another.
    #[error("reserved word as a name")]
    Reserved,
}

impl Code {
    /// Returns the code's number, from 1.
    pub fn number(self) -> u8
        ensures { result ≡ code_number self }
    {
        match self {
            Code::TooLong => 1,
            Code::BadByte => 2,
            Code::BadHeader => 3,
            Code::UnknownLine => 4,
            Code::BadName => 5,
            Code::BadNumber => 6,
            Code::BadLine => 7,
            Code::Twice => 8,
            Code::UnknownName => 9,
            Code::Unclosed => 10,
            Code::BadNesting => 11,
            Code::TooMany => 12,
            Code::BadLength => 13,
            Code::Reserved => 14,
        }
    }
}

/// The first line of a text that is refused, and why.
#[derive(Clone, Copy, Debug, PartialEq, Eq, Error)]
#[error("line {line}: {code}")]
pub struct Refusal {
    /// The line, from 1.
    pub line: usize,
    /// Why it is refused.
    pub code: Code,
}
