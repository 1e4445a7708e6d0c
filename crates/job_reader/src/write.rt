//! The canonical text of a job, written.
ghost use Rattle.std.specs.Prelude.{◌≡◌, ◌++◌, ◌∷◌, [], OnOk, IfOk, map, string_bytes, length};
ghost use Rattle.std.specs.Fmt.{signed_decimal};
ghost use Rattle.task_code.specs.Rules.{IsJob};
ghost use Rattle.job_reader.specs.Legal.{IsJobTree};
ghost use Rattle.job_reader.specs.Trees.{body_tree, job_tree};
ghost use Rattle.job_reader.specs.Grammar as spec;
ghost use Rattle.job_reader.specs.Grammar.{spaced, line_text, text_of};
ghost use Rattle.phase_records.specs.Written.{WritesText, WriteCause};

use crate::push::{Writing, push_body_name, push_code, push_number};
use phase_records::{CountedWrite, WriteFault, write_all};
use std::alloc::{AllocError, Global};
use superstep_memory::arrays::Arrays;
use task_code::body::Body;
use task_code::job::{Job, Start};

// Appends values, each after a space.
fn push_values(out: &mut Vec<u8>, values: &[i64]) -> Result<(), AllocError>
    ensures { OnOk result (out.new.items ≡ out.old.items ++ spaced (map signed_decimal values.now)) }
{
    let mut rest = values;
    while let Some((value, after)) = rest.split_first() {
        rest = after;
        out.extend_from_slice(b" ")?;
        push_number(out, *value)?;
    }
    Ok(())
}

// Appends the line of an array.
fn push_array(out: &mut Vec<u8>, name: &str, cells: &[i64]) -> Result<(), AllocError>
    ensures { OnOk result (out.new.items ≡ out.old.items ++ line_text (spec.array_words name.now (length cells.now) cells.now)) }
{
    out.extend_from_slice(b"array ")?;
    out.extend_from_slice(name.as_bytes())?;
    out.extend_from_slice(b" ")?;
    push_number(out, cells.len())?;
    push_cells(out, cells)
}

// Appends values, each after a space, and an LF.
fn push_cells(out: &mut Vec<u8>, values: &[i64]) -> Result<(), AllocError>
    ensures { OnOk result (out.new.items ≡ out.old.items ++ (spaced (map signed_decimal values.now) ++ 10 ∷ [])) }
{
    push_values(out, values)?;
    out.extend_from_slice(b"\n")?;
    Ok(())
}

// Appends the lines of the arrays.
fn push_arrays(out: &mut Vec<u8>, arrays: &Arrays) -> Result<(), AllocError>
    ensures { OnOk result (out.new.items ≡ out.old.items ++ text_of (spec.array_lines arrays.now)) }
{
    for place in 0..arrays.len() {
        if let Some((name, cells)) = arrays.get(place) {
            push_array(out, name, cells)?;
        }
    }
    Ok(())
}

// Appends names, each after a space.
fn push_names(out: &mut Vec<u8>, names: &[String]) -> Result<(), AllocError>
    ensures { OnOk result (out.new.items ≡ out.old.items ++ spaced (map string_bytes names.now)) }
{
    let mut rest = names;
    while let Some((name, after)) = rest.split_first() {
        rest = after;
        out.extend_from_slice(b" ")?;
        out.extend_from_slice(name.as_bytes())?;
    }
    Ok(())
}

// Appends the locals that a body line lists, each after a space: none in format 1.
fn push_listed(out: &mut Vec<u8>, format: u32, locals: &[String]) -> Result<(), AllocError>
    ensures { OnOk result (out.new.items ≡ out.old.items ++ spaced (spec.listed_in format (map string_bytes locals.now))) }
{
    if format == 1 {
        return Ok(());
    }
    push_names(out, locals)
}

// Appends the lines of a body.
fn push_body(
    out: &mut Vec<u8>,
    format: u32,
    arrays: &Arrays,
    bodies: &[Body],
    body: &Body,
) -> Result<(), AllocError>
    ensures { OnOk result (out.new.items ≡ out.old.items
        ++ text_of (spec.body_lines format (map (λ a. a.0) arrays.now) (map (λ b. b.name) bodies.now) (body_tree body.now))) }
{
    out.extend_from_slice(b"body ")?;
    out.extend_from_slice(body.name().as_bytes())?;
    push_listed(out, format, body.locals())?;
    out.extend_from_slice(b"\n")?;
    let names = Writing {
        arrays,
        bodies,
        locals: body.locals(),
    };
    push_code(out, &names, body.code())?;
    out.extend_from_slice(b"end\n")?;
    Ok(())
}

// Appends the lines of bodies. `all` has all bodies of the job.
fn push_bodies(
    out: &mut Vec<u8>,
    format: u32,
    arrays: &Arrays,
    all: &[Body],
    bodies: &[Body],
) -> Result<(), AllocError>
    ensures { OnOk result (out.new.items ≡ out.old.items
        ++ text_of (spec.bodies_lines format (map (λ a. a.0) arrays.now) (map (λ b. b.name) all.now) (map body_tree bodies.now))) }
{
    let mut rest = bodies;
    while let Some((body, after)) = rest.split_first() {
        rest = after;
        push_body(out, format, arrays, all, body)?;
    }
    Ok(())
}

// Appends a start line.
fn push_start(out: &mut Vec<u8>, bodies: &[Body], start: Start) -> Result<(), AllocError>
    ensures { OnOk result (out.new.items ≡ out.old.items ++ line_text (spec.start_words (map (λ b. b.name) bodies.now) start)) }
{
    out.extend_from_slice(b"start ")?;
    push_body_name(out, bodies, usize::from(start.body))?;
    out.extend_from_slice(b" ")?;
    push_number(out, start.arg)?;
    out.extend_from_slice(b"\n")?;
    Ok(())
}

// Appends start lines.
fn push_starts(out: &mut Vec<u8>, bodies: &[Body], starts: &[Start]) -> Result<(), AllocError>
    ensures { OnOk result (out.new.items ≡ out.old.items ++ text_of (spec.start_lines (map (λ b. b.name) bodies.now) starts.now)) }
{
    let mut rest = starts;
    while let Some((start, after)) = rest.split_first() {
        rest = after;
        push_start(out, bodies, *start)?;
    }
    Ok(())
}

// Appends the first line.
fn push_header(out: &mut Vec<u8>, format: u32) -> Result<(), AllocError>
    ensures { OnOk result (out.new.items ≡ out.old.items ++ line_text (spec.header_words format)) }
{
    out.extend_from_slice(b"bsp ")?;
    push_number(out, format)?;
    out.extend_from_slice(b"\n")?;
    Ok(())
}

/// Returns the canonical text of a job, as `write_job` writes it.
pub fn canonical(alloc: Global, job: &Job) -> Result<Vec<u8>, AllocError>
    ensures text { IfOk result (λ text. text.items ≡ spec.canonical_text (job_tree job.now)) }
    ensures kept { IsJob job.now }
{
    let bodies = job.bodies();
    let mut out = Vec::new(alloc);
    push_header(&mut out, job.format())?;
    push_arrays(&mut out, job.arrays())?;
    push_bodies(&mut out, job.format(), job.arrays(), bodies, bodies)?;
    push_starts(&mut out, bodies, job.starts())?;
    Ok(out)
}

/// Writes the canonical text of a job: `bsp` and its format, the arrays with all their values, the bodies, the start lines, each
/// in declared order, with single spaces, no comments and an LF after each line. Allocates before it writes the first
/// byte. Fails with `Write` if the writer failed, after a beginning of the text. Each job is one of the grammar, so its
/// text, if it isn't too long, is read as that job.
#[tactic(auto, using(crate::proofs::JobLemmas::jobs))]
pub fn write_job<W: CountedWrite>(
    alloc: Global,
    job: &Job,
    writer: &mut W,
) -> Result<(), WriteFault>
    ensures writes { WritesText (W.contents writer.old) (W.contents writer.new) result (spec.canonical_text (job_tree job.now)) }
    ensures failures { WriteCause (W.failures writer.old) (W.failures writer.new) result }
    ensures job { IsJobTree (job_tree job.now) }
{
    let Ok(text) = canonical(alloc, job) else {
        return Err(WriteFault::Memory);
    };
    match write_all(writer, &text) {
        Ok(()) => Ok(()),
        Err(_) => Err(WriteFault::Write),
    }
}
