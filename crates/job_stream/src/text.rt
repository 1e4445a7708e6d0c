//! The lines of supersteps, and the rest of a report.
ghost use Rattle.std.specs.Prelude.{◌≡◌, ◌≤◌, ◌++◌, codes, IfOk};
ghost use Rattle.phase_records.specs.ReportText.{steps_text, report_text};
ghost use Rattle.job_stream.specs.Streamed.{IsPiece, Continues, WritesWhole, StreamCause};
ghost use Rattle.step_core.specs.Program.{program_of};

use crate::fault::StreamFault;
use phase_records::{
    CountedWrite, JobStatus, PhaseRecord, Print, Report, WriteFault, text_of, write_all,
    write_report,
};
use program_stretches::Lines;
use std::alloc::{AllocError, Global};
use superstep_memory::arrays::Arrays;
use task_code::job::Job;

// The number of bytes of the last line of a report of no arrays that ended after no superstep.
const LAST_LINE: usize = 8;

// Returns the text of a report that has only these supersteps: their lines, and a last line.
fn text_with_end(
    alloc: Global,
    prints: Vec<Print>,
    records: Vec<PhaseRecord>,
) -> Result<Vec<u8>, AllocError>
    ensures { IfOk result (λ text. text.items ≡ steps_text prints.items records.items ++ codes "ended 0\n") }
{
    let report = Report {
        prints,
        records,
        arrays: Arrays::new(alloc),
        status: JobStatus::Ended(0),
    };
    text_of(alloc, &report)
}

// Returns the text of the lines of supersteps.
fn text_of_lines(alloc: Global, lines: Lines) -> Result<Vec<u8>, AllocError>
    ensures { IfOk result (λ text. text.items ≡ steps_text lines.prints lines.records) }
{
    let Lines {
        prints,
        records,
        ..
    } = lines;
    let mut text = text_with_end(alloc, prints, records)?;
    let end = text.len().saturating_sub(LAST_LINE);
    text.truncate(end);
    Ok(text)
}

/// Writes the lines of supersteps.
pub(crate) fn write_lines<W: CountedWrite>(
    alloc: Global,
    lines: Lines,
    writer: &mut W,
) -> Result<(), StreamFault>
    ensures text { WritesWhole (steps_text lines.prints lines.records) (W.contents writer.old) (W.contents writer.new) result }
    ensures failures { StreamCause (W.failures writer.old) (W.failures writer.new) result }
{
    let text = match text_of_lines(alloc, lines) {
        Ok(text) => text,
        Err(AllocError) => return Err(StreamFault::Memory),
    };
    match write_all(writer, &text) {
        Ok(()) => Ok(()),
        Err(_) => Err(StreamFault::Write),
    }
}

/// Writes `lines`, given that the lines of the first `written` supersteps have been written. Returns the number of
/// supersteps written in all. Fails with `Internal` if `lines` don't begin there, or go beyond the limit.
pub fn pass_on<W: CountedWrite>(
    alloc: Global,
    job: &Job,
    limit: u32,
    lines: Lines,
    written: u32,
    writer: &mut W,
) -> Result<u32, StreamFault>
    requires piece { lines.next ≤ limit → IsPiece (program_of job.now) limit lines }
    ensures text { Continues (program_of job.now) limit written (W.contents writer.old) (W.contents writer.new) result }
    ensures failures { StreamCause (W.failures writer.old) (W.failures writer.new) result }
{
    let next = lines.next;
    if lines.first != written || next > limit {
        return Err(StreamFault::Internal);
    }
    match write_lines(alloc, lines, writer) {
        Ok(()) => Ok(next),
        Err(fault) => Err(fault),
    }
}

/// Writes what of a report isn't written yet.
pub(crate) fn write_rest<W: CountedWrite>(
    alloc: Global,
    report: &Report,
    writer: &mut W,
) -> Result<(), StreamFault>
    ensures text { WritesWhole (report_text report.now) (W.contents writer.old) (W.contents writer.new) result }
    ensures failures { StreamCause (W.failures writer.old) (W.failures writer.new) result }
{
    match write_report(alloc, report, writer) {
        Ok(()) => Ok(()),
        Err(WriteFault::Write) => Err(StreamFault::Write),
        Err(WriteFault::Memory) => Err(StreamFault::Memory),
    }
}
