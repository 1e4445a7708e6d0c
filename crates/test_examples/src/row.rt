//! The rows of a table of texts: the words of a command line, the text that it reads, the status and
//! what is printed.

use std::alloc::{AllocError, Global};

/// A row of the table.
#[derive(Clone, Copy)]
pub(crate) struct Row<'a> {
    /// How often the words are run.
    pub(crate) times: u32,
    pub(crate) words: &'a str,
    pub(crate) text: &'a str,
    /// The status that the program is to end with.
    pub(crate) status: u8,
    pub(crate) output: &'a str,
}

/// Returns the row that a line holds, if it holds one.
pub(crate) fn row_of(line: &str) -> Option<Row<'_>> {
    let (words, behind_words) = line.split_once(" | ")?;
    let (text, behind_text) = behind_words.split_once(" | ")?;
    let (status_word, output) = behind_text.split_once(" | ")?;
    let (times_word, words) = words.split_once(" times ").unwrap_or(("1", words));
    Some(Row {
        times: times_word.parse::<u32>().ok()?,
        words,
        text,
        status: status_word.parse::<u8>().ok()?,
        output,
    })
}

impl Row<'_> {
    /// Returns true if the program is to run a job.
    pub(crate) fn runs(&self) -> bool {
        self.words == "run" || self.words.starts_with("run ")
    }

    /// Returns true if the text is that of a file.
    pub(crate) fn is_stored(&self) -> bool {
        self.text.starts_with('@')
    }
}

/// Returns the words of a command line, the program's name first.
pub(crate) fn words_of(alloc: Global, words: &str) -> Result<Vec<&str>, AllocError> {
    let mut line = Vec::new(alloc);
    line.push("bsp")?;
    for word in words.split_whitespace() {
        line.push(word)?;
    }
    Ok(line)
}

/// A short text written out: each piece `{N:piece}` N times, and a line's end at the end. A `{` with no number after it is
/// a `{`.
pub(crate) fn written_out(alloc: Global, short: &str) -> Result<String, AllocError> {
    let mut whole = String::new(alloc);
    let mut is_first = true;
    for part in short.split('{') {
        if is_first {
            write_lines(alloc, &mut whole, part, None)?;
        } else {
            write_part(alloc, &mut whole, part)?;
        }
        is_first = false;
    }
    if !whole.as_str().is_empty() && !whole.as_str().ends_with('\n') {
        whole.push('\n')?;
    }
    Ok(whole)
}

// Writes a part that begins after a `{`.
fn write_part(alloc: Global, whole: &mut String, part: &str) -> Result<(), AllocError> {
    let (repeated, rest) = part.split_once('}').unwrap_or(("", part));
    let (count_word, piece) = repeated.split_once(':').unwrap_or(("", ""));
    let Ok(count) = count_word.parse::<u32>() else {
        whole.push('{')?;
        return write_lines(alloc, whole, part, None);
    };
    for number in 0..count {
        write_lines(alloc, whole, piece, Some(number))?;
    }
    write_lines(alloc, whole, rest, None)
}

// Writes a line's end for each `;`, a space after it, and a piece's number for each `#`.
fn write_lines(
    alloc: Global,
    whole: &mut String,
    short: &str,
    piece_number: Option<u32>,
) -> Result<(), AllocError> {
    let mut behind_end = false;
    for letter in short.chars() {
        match (letter, piece_number) {
            ('#', Some(number)) => {
                let digits = format!(in alloc; "{number}")?;
                whole.push_str(digits.as_str())?;
            },
            (';', _) => whole.push('\n')?,
            _ if letter != ' ' || !behind_end => whole.push(letter)?,
            _ => {},
        }
        behind_end = letter == ';';
    }
    Ok(())
}
