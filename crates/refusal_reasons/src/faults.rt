//! The faulty lines of a text.
ghost use Rattle.std.specs.Prelude.{◌≡◌, IfOk, MatchOption, Ok, Err, option_map};
ghost use Rattle.text_lines.specs.Text.{words_of};
ghost use Rattle.job_reader.specs.Reading.{job_in};
ghost use Rattle.job_reader.specs.Trees.{JobTree};
ghost use Rattle.refusal_reasons.specs.Faults.{block_left, ends_list, faults_in, opens_body, repaired, stand_in};

use crate::lines::line_at;
use crate::replacing::with_line;
use job_reader::words::is_word;
use job_reader::{Code, ReadJobFault, Refusal, read_job};
use std::alloc::{AllocError, Global};
use text_lines::split_word;

/// The largest number of faulty lines that are listed.
pub const MOST_LISTED: usize = 20;

// Returns what a line does to blocks, without the rest of its words.
fn block_left(line: &[u8]) -> &'static [u8]
    ensures { result.now ≡ block_left (words_of line.now) }
{
    let Some((first, _)) = split_word(line) else {
        return b"";
    };
    if is_word(first, b"if") || is_word(first, b"while") {
        return b"if 0";
    }
    if is_word(first, b"end") {
        return b"end";
    }
    b""
}

// Returns what a line with this fault is read as when the lines after it are looked at.
fn stand_in(code: Code, line: &[u8]) -> &'static [u8]
    ensures { result.now ≡ stand_in code (words_of line.now) }
{
    match code {
        Code::BadLine | Code::Reserved | Code::BadName | Code::BadNumber | Code::UnknownName =>
            block_left(line),
        _ => b"",
    }
}

// Returns true if a line opens a body.
fn opens_body(line: &[u8]) -> bool
    ensures { result ≡ opens_body (words_of line.now) }
{
    match split_word(line) {
        Some((first, _)) => is_word(first, b"body"),
        None => false,
    }
}

// Returns true if no line after this fault is read in its place.
fn ends_list(code: Code, line: &[u8]) -> bool
    ensures { result ≡ ends_list code (words_of line.now) }
{
    match code {
        Code::TooLong | Code::BadHeader | Code::Unclosed => true,
        _ => opens_body(line),
    }
}

// Returns the first refusal of a text, or `None` if it is a job.
fn refusal_of(alloc: Global, text: &[u8]) -> Result<Option<Refusal>, AllocError>
    ensures { IfOk result (λ found. MatchOption found ((job : JobTree) × (job_in text.now ≡ Ok job)) (λ r. job_in text.now ≡ Err r)) }
{
    match read_job(alloc, text) {
        Ok(_) => Ok(None),
        Err(ReadJobFault::Text(refusal)) => Ok(Some(refusal)),
        Err(ReadJobFault::Memory) => Err(AllocError),
    }
}

// Returns the text with a replacement for the refused line, or `None` if no line after it can be read.
fn repaired(alloc: Global, text: &[u8], refusal: Refusal) -> Result<Option<Vec<u8>>, AllocError>
    ensures { IfOk result (λ other. option_map (λ t. t.items) other ≡ repaired text.now refusal) }
{
    let line = line_at(text, refusal.line);
    if ends_list(refusal.code, line) {
        return Ok(None);
    }
    let other = with_line(alloc, text, refusal.line, stand_in(refusal.code, line))?;
    Ok(Some(other))
}

/// Returns the faulty lines of a text, at most [`MOST_LISTED`], each with its first fault: the refusal of `read_job`, and
/// then, as long as there is one, that of the text in which the line before is left out. A line that opens or closes a block
/// keeps doing so. The list ends after a fault of the whole text (`TooLong`, `BadHeader`, `Unclosed`) and after a line that
/// was to open a body. It is empty if the text is a job. Reads the text once more for each line.
pub fn faults_of(alloc: Global, text: &[u8]) -> Result<Vec<Refusal>, AllocError>
    ensures { IfOk result (λ faults. faults.items ≡ faults_in text.now) }
{
    let mut faults = Vec::new(alloc);
    let mut other = Vec::from_slice(alloc, text)?;
    let mut left = MOST_LISTED;
    while left > 0 {
        let Some(refusal) = refusal_of(alloc, &other)? else {
            return Ok(faults);
        };
        faults.push(refusal)?;
        let Some(next) = repaired(alloc, &other, refusal)? else {
            return Ok(faults);
        };
        other = next;
        left -= 1;
    }
    Ok(faults)
}
