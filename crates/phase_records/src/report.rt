//! The text of a report.
ghost use Rattle.std.specs.Prelude.{◌≡◌, ◌++◌, [], IfOk};
ghost use Rattle.std.specs.List.{flat_map};
ghost use Rattle.phase_records.specs.Written.{WritesText, WriteCause};
ghost use Rattle.phase_records.specs.Taken.{Took};
ghost use Rattle.phase_records.specs.StatusSeen.{status_seen};
ghost use Rattle.phase_records.specs.ReportText.{path_text, shown_path, print_line, record_line, cell_text, array_line, status_line};
ghost use Rattle.phase_records.specs.ReportText.{front_of, rest_of, steps_text, report_text};

use crate::device::CountedWrite;
use crate::pieces::{Pieces, Sink, Whole};
use crate::record::{JobStatus, PhaseRecord, Print, Report};
use itoa::{Buffer, Integer};
use std::alloc::{AllocError, Global};
use superstep_memory::arrays::Arrays;
use thiserror::Error;

/// Why a report was not written.
#[derive(Clone, Copy, Debug, PartialEq, Eq, Error)]
pub enum WriteFault {
    /// The device failed after a beginning of the text was written. A caller reports it and writes no more.
    #[error("write failed")]
    Write,
    /// An allocation failed, and nothing was written. A caller reports it.
    #[error("out of memory")]
    Memory,
}

// The size of the buffer through which a report is written.
const BUFFER_BYTES: usize = 65536;

// Appends the text of a number.
fn push_number<S: Sink, I: Integer>(out: &mut S, n: I)
    ensures { Took (S.seen out.old) (S.seen out.new) (I.text n) }
{
    out.put(Buffer::new().format(n).as_bytes())
}

// Appends a name and a number.
fn push_field<S: Sink, I: Integer>(out: &mut S, name: &[u8], n: I)
    ensures { Took (S.seen out.old) (S.seen out.new) (name.now ++ I.text n) }
{
    out.put(name);
    push_number(out, n)
}

// Appends the numbers of a path, with points between them.
fn push_path<S: Sink>(out: &mut S, path: &[u16])
    ensures { Took (S.seen out.old) (S.seen out.new) (path_text path.now) }
{
    let Some((first, mut rest)) = path.split_first() else {
        return;
    };
    push_number(out, *first);
    while let Some((number, after)) = rest.split_first() {
        push_field(out, b".", *number);
        rest = after;
    }
}

// Appends a name and the numbers of a path.
fn push_path_behind<S: Sink>(out: &mut S, name: &[u8], path: &[u16])
    ensures { Took (S.seen out.old) (S.seen out.new) (name.now ++ path_text path.now) }
{
    out.put(name);
    push_path(out, path)
}

// Appends the line of a print.
fn push_print<S: Sink>(out: &mut S, print: &Print)
    ensures { Took (S.seen out.old) (S.seen out.new) (print_line print.now) }
{
    push_field(out, b"print ", print.step);
    push_path_behind(out, b" ", print.path.as_slice());
    push_cell(out, print.value);
    out.put(b"\n")
}

// Appends the lines of the first prints that are of this superstep. Returns the other prints.
fn push_prints<'a, S: Sink>(out: &mut S, prints: &'a [Print], step: u32) -> &'a [Print]
    ensures lines { Took (S.seen out.old) (S.seen out.new) (flat_map print_line (front_of step prints.now)) }
    ensures others { result.now ≡ rest_of step prints.now }
{
    let mut rest = prints;
    while let Some((print, after)) = rest.split_first() {
        if print.step != step {
            break;
        }
        push_print(out, print);
        rest = after;
    }
    rest
}

// Appends the line of a record.
fn push_record<S: Sink>(out: &mut S, counts: PhaseRecord)
    ensures { Took (S.seen out.old) (S.seen out.new) (record_line counts) }
{
    push_field(out, b"phase ", counts.phase);
    push_field(out, b" parties ", counts.parties);
    push_field(out, b" left ", counts.left);
    push_field(out, b" spawned ", counts.spawned);
    out.put(b"\n")
}

// Appends the lines of supersteps.
fn push_steps<S: Sink>(out: &mut S, mut prints: &[Print], records: &[PhaseRecord])
    ensures { Took (S.seen out.old) (S.seen out.new) (steps_text prints.now records.now) }
{
    let mut rest = records;
    while let Some((counts, after)) = rest.split_first() {
        if out.has_failed() {
            return;
        }
        prints = push_prints(out, prints, counts.phase);
        push_record(out, *counts);
        rest = after;
    }
}

// Appends a cell of an array.
fn push_cell<S: Sink>(out: &mut S, cell: i64)
    ensures { Took (S.seen out.old) (S.seen out.new) (cell_text cell) }
{
    push_field(out, b" ", cell)
}

// Appends the cells of an array.
fn push_cells<S: Sink>(out: &mut S, cells: &[i64])
    ensures { Took (S.seen out.old) (S.seen out.new) (flat_map cell_text cells.now) }
{
    let mut rest = cells;
    while let Some((cell, after)) = rest.split_first() {
        push_cell(out, *cell);
        rest = after;
    }
}

// Appends the line of an array.
fn push_array<S: Sink>(out: &mut S, name: &str, cells: &[i64])
    ensures { Took (S.seen out.old) (S.seen out.new) (array_line (name.now, cells.now)) }
{
    out.put(b"array ");
    out.put(name.as_bytes());
    push_cells(out, cells);
    out.put(b"\n")
}

// Appends the lines of arrays.
fn push_arrays<S: Sink>(out: &mut S, arrays: &Arrays)
    ensures { Took (S.seen out.old) (S.seen out.new) (flat_map array_line arrays.now) }
{
    for place in 0..arrays.len() {
        if let Some((name, cells)) = arrays.get(place) {
            push_array(out, name, cells);
        }
    }
}

// Appends a path, or a dash if it has no numbers.
fn push_shown_path<S: Sink>(out: &mut S, path: &[u16])
    ensures { Took (S.seen out.old) (S.seen out.new) (shown_path path.now) }
{
    if path.is_empty() {
        return out.put(b"-");
    }
    push_path(out, path)
}

// Appends the last line of a report.
fn push_status<S: Sink>(out: &mut S, status: &JobStatus)
    ensures { Took (S.seen out.old) (S.seen out.new) (status_line (status_seen status.now)) }
{
    match status {
        JobStatus::Ended(steps) => push_field(out, b"ended ", *steps),
        JobStatus::Fault { code, step, path } => {
            push_field(out, b"fault ", *code);
            push_field(out, b" step ", *step);
            out.put(b" path ");
            push_shown_path(out, path.as_slice());
        }
        JobStatus::Limit(steps) => push_field(out, b"limit ", *steps),
    }
    out.put(b"\n")
}

// Appends the text of a report of these parts.
fn push_parts<S: Sink>(
    out: &mut S,
    prints: &[Print],
    records: &[PhaseRecord],
    arrays: &Arrays,
    status: &JobStatus,
)
    ensures { Took (S.seen out.old) (S.seen out.new) (report_text record { prints = prints.now; records = records.now; arrays = arrays.now; status = status_seen status.now }) }
{
    push_steps(out, prints, records);
    push_arrays(out, arrays);
    push_status(out, status)
}

// Appends the text of a report.
fn push_report<S: Sink>(out: &mut S, report: &Report)
    ensures { Took (S.seen out.old) (S.seen out.new) (report_text report.now) }
{
    push_steps(out, &report.prints, &report.records);
    push_arrays(out, &report.arrays);
    push_status(out, &report.status)
}

/// Returns the text of a report of these parts, as [`text_of`] gives it.
pub fn text_of_parts(
    alloc: Global,
    prints: &[Print],
    records: &[PhaseRecord],
    arrays: &Arrays,
    status: &JobStatus,
) -> Result<Vec<u8>, AllocError>
    ensures { IfOk result (λ text. text.items ≡ report_text record { prints = prints.now; records = records.now; arrays = arrays.now; status = status_seen status.now }) }
{
    let mut out = Whole {
        text: Vec::new(alloc),
        failed: false,
    };
    push_parts(&mut out, prints, records, arrays, status);
    if out.failed {
        return Err(AllocError);
    }
    Ok(out.text)
}

/// Returns the text of a report: for each superstep its prints and its record, then the arrays in declared order, then how the
/// job ended, each on a line of its own.
pub fn text_of(alloc: Global, report: &Report) -> Result<Vec<u8>, AllocError>
    ensures { IfOk result (λ text. text.items ≡ report_text report.now) }
{
    let mut out = Whole {
        text: Vec::new(alloc),
        failed: false,
    };
    push_report(&mut out, report);
    if out.failed {
        return Err(AllocError);
    }
    Ok(out.text)
}

// Writes the text of a report.
fn write_pieces<'w, W: CountedWrite>(pieces: &mut Pieces<'w, W>, report: &Report)
    ensures same_writer { pieces.new.writer.ghost_name ≡ pieces.old.writer.ghost_name }
    ensures took { Took (⟦<Pieces<'w, W> as Sink>⟧.seen pieces.old) (⟦<Pieces<'w, W> as Sink>⟧.seen pieces.new) (report_text report.now) }
    ensures empty { pieces.new.buffer.now.items ≡ [] }
{
    push_report(pieces, report);
    pieces.flush();
}

/// Writes the text of a report: for each superstep its prints and its record, then the arrays in declared order, then
/// how the job ended, each on a line of its own. All memory is taken before the first byte is written.
pub fn write_report<W: CountedWrite>(
    alloc: Global,
    report: &Report,
    writer: &mut W,
) -> Result<(), WriteFault>
    ensures text { WritesText (W.contents writer.old) (W.contents writer.new) result (report_text report.now) }
    ensures failures { WriteCause (W.failures writer.old) (W.failures writer.new) result }
{
    let Ok(mut buffer) = Vec::with_capacity(alloc, BUFFER_BYTES) else {
        return Err(WriteFault::Memory);
    };
    let mut pieces = Pieces {
        writer,
        buffer: &mut buffer,
        failed: false,
    };
    write_pieces(&mut pieces, report);
    if pieces.failed {
        return Err(WriteFault::Write);
    }
    Ok(())
}
