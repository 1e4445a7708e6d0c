//! Where in a refused text its fault is shown.
ghost use Rattle.std.specs.Prelude.{◌≡◌, ◌+◌, ◌≤◌, if◌then◌else◌, drop, length, true, IfOk, None, Some};
ghost use Rattle.text_lines.specs.Text.{is_allowed as allowed, lines_of};
ghost use Rattle.job_reader.specs.Views.{lent};
ghost use Rattle.refusal_reasons.specs.Marks.{mark_on as mark_on_of};
ghost use Rattle.refusal_reasons.specs.Places.{
  before_bad as before_bad_of,
  before_byte as before_byte_of,
  before_fault as before_fault_of,
  before_mark as before_mark_of,
  before_part as before_part_of,
  before_word as before_word_of,
  count_of as count_of_fault,
  front_word as front_word_of,
  job_mark as job_mark_of,
  mark_count as mark_count_of,
  part_count as part_count_of,
  place_by,
  place_in,
  place_on as place_on_of,
};

use crate::known::{Known, arrays_above, is_first, locals_above, words_in};
use crate::lines::line_at;
use crate::marks::{Mark, Part, mark_on};
use std::alloc::{AllocError, Global};
use text_lines::{Code, Refusal};

/// Where a fault is shown: the line and the code of its refusal, and the bytes of the line that count.
#[derive(Clone, Copy, Debug, PartialEq, Eq)]
pub struct Place {
    /// The line, from 1.
    pub line: usize,
    /// Why the text is refused.
    pub code: Code,
    /// The column at which they begin, from 1.
    pub column: usize,
    /// How many bytes count, at least 1.
    pub count: usize,
}

// Returns how many bytes are before the word of this number, or all if there are fewer words.
fn before_word(line: &[u8], number: usize) -> usize
    ensures before { result ≡ before_word_of true number line.now }
    ensures within { result ≤ length line.now }
{
    let mut spaced = true;
    let mut left = number;
    let mut before: usize = 0;
    for byte in line {
        if spaced && *byte != b' ' {
            if left == 0 {
                return before;
            }
            left -= 1;
        }
        spaced = *byte == b' ';
        before += 1;
    }
    before
}

// Returns how many bytes are before the first that is this one, or all.
fn before_byte(byte: u8, line: &[u8]) -> usize
    ensures before { result ≡ before_byte_of byte line.now }
    ensures within { result ≤ length line.now }
{
    let mut before: usize = 0;
    for other in line {
        if *other == byte {
            return before;
        }
        before += 1;
    }
    before
}

// Returns true if a byte is one of a text.
fn is_allowed(byte: u8) -> bool
    ensures { result ≡ allowed byte }
{
    byte == b'\n' || (b' ' <= byte && byte <= b'~')
}

// Returns how many bytes are before the first that isn't allowed.
fn before_bad(line: &[u8]) -> usize
    ensures before { result ≡ before_bad_of line.now }
    ensures within { result ≤ length line.now }
{
    let mut before: usize = 0;
    for byte in line {
        if !is_allowed(*byte) {
            return before;
        }
        before += 1;
    }
    before
}

// Returns the word at the front.
fn front_word(line: &[u8]) -> &[u8]
    ensures word { result.now ≡ front_word_of line.now }
    ensures within { length result.now ≤ length line.now }
{
    let (word, _) = line.split_at(before_byte(b' ', line));
    word
}

// Returns the word of this number.
fn word_at(line: &[u8], number: usize) -> &[u8]
    ensures word { result.now ≡ front_word_of (drop (before_word_of true number line.now) line.now) }
    ensures within { before_word_of true number line.now + length result.now ≤ length line.now }
{
    let (_, rest) = line.split_at(before_word(line, number));
    front_word(rest)
}

// Returns how many bytes of a word are before a part of it.
fn before_part(part: Part, word: &[u8]) -> usize
    ensures before { result ≡ before_part_of part word.now }
    ensures within { result ≤ length word.now + 1 }
{
    match part {
        Part::Index => before_byte(b'[', word) + 1,
        Part::Whole | Part::Array => 0,
    }
}

// Returns the bytes after the first that is this one.
fn after_byte(byte: u8, word: &[u8]) -> &[u8]
    ensures { result.now ≡ drop (before_byte_of byte word.now + 1) word.now }
{
    let (_, rest) = word.split_at(before_byte(byte, word));
    match rest.split_first() {
        Some((_, after)) => after,
        None => &[],
    }
}

// Returns how many bytes a part of a word has.
fn part_count(part: Part, word: &[u8]) -> usize
    ensures { result ≡ part_count_of part word.now }
{
    match part {
        Part::Whole => word.len(),
        Part::Array => before_byte(b'[', word),
        Part::Index => before_byte(b']', after_byte(b'[', word)),
    }
}

// Returns how many bytes are before what a fault is about.
fn before_mark(mark: Option<Mark>, line: &[u8]) -> usize
    ensures before { result ≡ before_mark_of mark line.now }
    ensures within { result ≤ length line.now + 1 }
{
    match mark {
        None => before_word(line, 0),
        Some(Mark { word, part }) => {
            before_word(line, word) + before_part(part, word_at(line, word))
        }
    }
}

// Returns how many bytes are before what counts.
fn before_fault(code: Code, mark: Option<Mark>, line: &[u8]) -> usize
    ensures before { result ≡ before_fault_of code mark line.now }
    ensures within { result ≤ length line.now + 1 }
{
    if code == Code::BadByte {
        return before_bad(line);
    }
    before_mark(mark, line)
}

// Returns how many bytes what a fault is about has.
fn mark_count(mark: Option<Mark>, line: &[u8]) -> usize
    ensures { result ≡ mark_count_of mark line.now }
{
    match mark {
        None => word_at(line, 0).len(),
        Some(Mark { word, part }) => part_count(part, word_at(line, word)),
    }
}

// Returns how many bytes are in a line from its first word on.
fn text_count(line: &[u8]) -> usize
    ensures { result ≡ length (drop (before_word_of true 0 line.now) line.now) }
{
    let (_, rest) = line.split_at(before_word(line, 0));
    rest.len()
}

// Returns how many bytes count.
fn count_of(code: Code, mark: Option<Mark>, line: &[u8]) -> usize
    ensures { result ≡ count_of_fault code mark line.now }
{
    match code {
        Code::BadByte => 1,
        Code::BadLine => text_count(line),
        _ => mark_count(mark, line),
    }
}

// Returns the place of a refusal on its line.
fn place_on(refusal: Refusal, mark: Option<Mark>, line: &[u8]) -> Place
    ensures { result ≡ place_on_of refusal mark line.now }
{
    Place {
        line: refusal.line,
        code: refusal.code,
        column: before_fault(refusal.code, mark, line) + 1,
        count: count_of(refusal.code, mark, line).max(1),
    }
}

/// Returns where the fault of a refused text is shown, by what it is about. `None` means the line as a whole, or its first word.
pub fn place_of(text: &[u8], refusal: Refusal, mark: Option<Mark>) -> Place
    ensures { result ≡ place_by text.now refusal mark }
{
    place_on(refusal, mark, line_at(text, refusal.line))
}

// Returns what a fault of this code is about on the line of these words, with these arrays above it. Any name may be a local if
// `is_first` is true, and else these.
fn mark_with<'x>(
    alloc: Global,
    arrays: &'x [&'x [u8]],
    locals: &'x [&'x [u8]],
    is_first: bool,
    code: Code,
    words: &[&[u8]],
) -> Result<Option<Mark>, AllocError>
    ensures { IfOk result (λ mark. mark ≡ mark_on_of (record {
      arrays = lent arrays.now;
      locals = if is_first then None else Some (lent locals.now);
    }) code (lent words.now)) }
{
    let known = Known {
        arrays,
        locals: if is_first { None } else { Some(locals) },
    };
    mark_on(alloc, known, code, words)
}

/// Returns what the refusal of a job's text is about: a name or a number, a name that is there twice, a length, or a body that
/// isn't there. `None` means the line as a whole, or its first word.
pub fn job_mark(alloc: Global, text: &[u8], refusal: Refusal) -> Result<Option<Mark>, AllocError>
    ensures { IfOk result (λ mark. mark ≡ job_mark_of text.now refusal) }
{
    let arrays = arrays_above(alloc, text, refusal.line)?;
    let locals = locals_above(alloc, text, refusal.line)?;
    let words = words_in(alloc, line_at(text, refusal.line))?;
    let first = is_first(text);
    mark_with(alloc, &arrays, &locals, first, refusal.code, &words)
}

/// Returns where the fault of the refused text of a job is shown.
pub fn job_place(alloc: Global, text: &[u8], refusal: Refusal) -> Result<Place, AllocError>
    ensures { IfOk result (λ place. place ≡ place_in text.now refusal) }
{
    let mark = job_mark(alloc, text, refusal)?;
    Ok(place_of(text, refusal, mark))
}
