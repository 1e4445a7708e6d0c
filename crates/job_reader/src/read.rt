//! The text of a job, read.
ghost use Rattle.std.specs.Prelude.{◌≡◌, ◌≤◌, ◌<◌, ◌+◌, ◌^◌, ◌∷◌, length, true, IsTrue, IfOk, IfErr, MatchResult, Err, List};
ghost use Rattle.text_lines.specs.Limits.{most_bytes};
ghost use Rattle.text_lines.specs.Text.{lines_of, words_of};
ghost use Rattle.task_code.specs.Rules.{is_format};
ghost use Rattle.job_reader.specs.Words.{Word};
ghost use Rattle.job_reader.specs.Views.{lent};
ghost use Rattle.job_reader.specs.Trees.{job_tree};
ghost use Rattle.job_reader.specs.Above.{Above, nothing};
ghost use Rattle.job_reader.specs.Begins.{has_header, BeginsWell};
ghost use Rattle.job_reader.specs.Kept.{HasKept, HasEnd, SaysJobs};
ghost use Rattle.job_reader.specs.Reading as spec;
ghost use Rattle.job_reader.specs.Relates.{IsAt};
ghost use Rattle.job_reader.specs.Gives.{LineGives, Gives};
ghost use Rattle.job_reader.specs.Grammar.{kept, IsTextOf};

use crate::fault::{LineFault, ReadJobFault};
use crate::outer::{declared_by, format_of};
use crate::so_far::SoFar;
use crate::state::State;
use crate::words::{is_among, is_word};
use phase_records::MOST_BYTES;
use std::alloc::{AllocError, Global};
use task_code::job::{Job, MOST_BODIES};
use text_lines::{Code, Refusal, bad_byte_line, first_word, split_line, split_word};

// Returns true if a line names a body that doesn't exist, from its first word and the rest of the line.
fn is_missing(bodies: &[&[u8]], first: &[u8], rest: &[u8]) -> bool
    ensures { result ≡ spec.is_missing (lent bodies.now) (first.now ∷ words_of rest.now) }
{
    let Some((name, _)) = split_word(rest) else {
        return false;
    };
    if !is_word(first, b"spawn") && !is_word(first, b"start") {
        return false;
    }
    !is_among(bodies, name)
}

// Returns the names of a text's bodies, in declared order.
fn declared<'a>(alloc: Global, text: &'a [u8]) -> Result<Vec<&'a [u8]>, AllocError>
    ensures names { IfOk result (λ names. lent names.items ≡ spec.declared (lines_of text.entry.now)) }
    ensures few { IfOk result (λ names. length names.items ≤ 64) }
{
    let mut names = Vec::new(alloc);
    let mut rest = text;
    while let Some((line, after)) = split_line(rest) {
        rest = after;
        if let Some(name) = declared_by(line) {
            if names.len() < MOST_BODIES {
                names.push(name)?;
            }
        }
    }
    Ok(names)
}

impl<'a> State<'a> {
    // Returns the state before the first line after the header of this format.
    fn new(alloc: Global, format: u32) -> Self
        ensures { IsAt (nothing format) result }
    {
        State {
            so_far: SoFar::new(alloc, format),
            inside: None,
            missing: None,
        }
    }

    // Notes the first line that names a body that doesn't exist.
    fn note_missing(&mut self, line: usize, missing: bool)
        ensures missing { self.new.missing ≡ spec.first_missing self.old.missing line missing }
        ensures inside { self.new.inside ≡ self.old.inside }
        ensures so_far { self.new.so_far ≡ self.old.so_far }
    {
        if missing && self.missing.is_none() {
            self.missing = Some(line);
        }
    }

    // Reads one line, of this number.
    fn step(
        &mut self,
        alloc: Global,
        bodies: &[&'a [u8]],
        line: usize,
        this: &'a [u8],
    ) -> Result<(), LineFault>
        requires bodies { length bodies.now ≤ 64 }
        requires kept { HasKept self.old.so_far self.old.inside }
        ensures { (a : Above) → IsAt a self.old
            → LineGives (λ _ b. IsAt b self.new) result (spec.kept_step (lent bodies.now) line a (words_of this.entry.now)) }
    {
        let Some((first, rest)) = first_word(this) else {
            return Ok(());
        };
        let inside = self.inside.take();
        self.inside = self.so_far.any_line(alloc, bodies, inside, first, rest)?;
        self.note_missing(line, is_missing(bodies, first, rest));
        Ok(())
    }

    // Returns the job, if no body is open and each body that is named exists.
    fn finished(self, line: usize) -> Result<Job, ReadJobFault>
        requires { HasEnd line self }
        ensures { (a : Above) → IsAt a self.entry → Gives job_tree result (spec.finished line a a.inside a.missing) }
    {
        let State {
            so_far,
            inside,
            missing,
        } = self;
        if inside.is_some() {
            let code = Code::Unclosed;
            return Err(ReadJobFault::Text(Refusal { line, code }));
        }
        if let Some(line) = missing {
            let code = Code::UnknownName;
            return Err(ReadJobFault::Text(Refusal { line, code }));
        }
        Ok(so_far.job())
    }
}

// Reads the lines after the header of this format, from this number on.
fn read_lines<'a>(
    alloc: Global,
    format: u32,
    bodies: &[&'a [u8]],
    text: &'a [u8],
    first: usize,
) -> Result<Job, ReadJobFault>
    requires bodies { length bodies.now ≤ 64 }
    requires lines { first + length text.now < 2 ^ 32 }
    requires format { IsTrue (is_format format) }
    requires jobs { SaysJobs (spec.read_lines (lent bodies.now) first (nothing format) (lines_of text.now)) }
    ensures { Gives job_tree result (spec.read_lines (lent bodies.now) first (nothing format) (lines_of text.entry.now)) }
{
    let mut state = State::new(alloc, format);
    let mut line = first;
    let mut rest = text;
    while let Some((this, after)) = split_line(rest) {
        rest = after;
        match state.step(alloc, bodies, line, this) {
            Ok(()) => line += 1,
            Err(fault) => return Err(fault.at(line)),
        }
    }
    state.finished(line)
}

// Reads the header: its format, the text after it, and the number of that text's first line.
fn split_header(text: &[u8]) -> Result<(u32, usize, &[u8]), Refusal>
    requires { length text.now ≤ most_bytes }
    ensures header { MatchResult result
        (λ h. (bodies : List Word) → spec.read_from bodies 1 (lines_of text.now) ≡ spec.read_lines bodies h.1 (nothing h.0) (lines_of h.2.now))
        (λ r. (bodies : List Word) → spec.read_from bodies 1 (lines_of text.now) ≡ Err r) }
    ensures lines { IfOk result (λ h. h.1 + length h.2.now ≤ length text.now + 1) }
    ensures format { IfOk result (λ h. IsTrue (is_format h.0)) }
    ensures begins { IfOk result (λ h. has_header (lines_of text.now) ≡ true) }
{
    let mut line = 1;
    let mut rest = text;
    while let Some((this, after)) = split_line(rest) {
        rest = after;
        if let Some((first, behind)) = first_word(this) {
            if let Some(format) = format_of(first, behind) {
                return Ok((format, line + 1, rest));
            }
            let code = Code::BadHeader;
            return Err(Refusal { line, code });
        }
        line += 1;
    }
    let code = Code::BadHeader;
    Err(Refusal { line, code })
}

/// Reads a text as a job, or returns its first refusal. The order is: `TooLong` above 1048576 bytes; the first byte
/// that isn't allowed; the first line that is refused, by its first fault in the order of `job_reader::faults`;
/// `Unclosed` if the text ends in a body; the first line that names a body that doesn't exist. Checks the length, the
/// bytes and the header before it allocates.
///
/// ```
/// let text = b"bsp 1\narray a 1\nbody b\nput a[0] = 7\nend\nstart b 0\n";
/// let job = read_job(rt.alloc(), text).expect(&rt, "a job");
/// assert!(rt; job.bodies().len() == 1);
/// assert!(rt; read_job(rt.alloc(), b"bsp 3\n").is_err());
/// ```
#[tactic(auto, using(crate::proofs::SpelledWhole::text_steps), unfolding(crate::specs::Reading::job_in))]
pub fn read_job(alloc: Global, text: &[u8]) -> Result<Job, ReadJobFault>
    ensures read { Gives job_tree result (spec.job_in text.now) }
    ensures grammar { IfOk result (λ job. IsTextOf (job_tree job) (kept (lines_of text.now))) }
    ensures memory { IfErr result (λ fault. fault ≡ ReadJobFault.Memory → BeginsWell text.now) }
{
    if text.len() > MOST_BYTES {
        let code = Code::TooLong;
        return Err(ReadJobFault::Text(Refusal { line: 1, code }));
    }
    if let Some(line) = bad_byte_line(text) {
        let code = Code::BadByte;
        return Err(ReadJobFault::Text(Refusal { line, code }));
    }
    let (format, line, rest) = split_header(text)?;
    let bodies = declared(alloc, text)?;
    read_lines(alloc, format, &bodies, rest, line)
}
