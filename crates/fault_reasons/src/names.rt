//! Names of arrays, bodies, locals and cells.
ghost use Rattle.std.specs.Prelude.{◌≡◌, ◌++◌, OnOk, map, string_bytes, codes};
ghost use Rattle.job_reader.specs.Words.{name_at, index_word};

use crate::pieces::{push_number, push_text};
use std::alloc::AllocError;
use superstep_memory::arrays::Arrays;
use task_code::body::Body;
use task_code::code::{Cell, Index};

/// Appends the name of an array.
pub(crate) fn push_array_name(
    out: &mut Vec<u8>,
    arrays: &Arrays,
    place: usize,
) -> Result<(), AllocError>
    ensures { OnOk result (out.new.items ≡ out.old.items ++ name_at (map (λ a. a.0) arrays.now) place) }
{
    match arrays.get(place) {
        Some((name, _)) => push_text(out, name.as_bytes()),
        None => Ok(()),
    }
}

/// Appends the name of a body.
pub(crate) fn push_body_name(
    out: &mut Vec<u8>,
    bodies: &[Body],
    place: usize,
) -> Result<(), AllocError>
    ensures { OnOk result (out.new.items ≡ out.old.items ++ name_at (map (λ b. b.name) bodies.now) place) }
{
    if place < bodies.len() {
        push_text(out, bodies[place].name().as_bytes())?;
    }
    Ok(())
}

// Appends the name of a local.
fn push_local(out: &mut Vec<u8>, locals: &[String], place: usize) -> Result<(), AllocError>
    ensures { OnOk result (out.new.items ≡ out.old.items ++ name_at (map string_bytes locals.now) place) }
{
    if place < locals.len() {
        push_text(out, locals[place].as_bytes())?;
    }
    Ok(())
}

/// Appends an index.
pub(crate) fn push_index(
    out: &mut Vec<u8>,
    locals: &[String],
    index: Index,
) -> Result<(), AllocError>
    ensures { OnOk result (out.new.items ≡ out.old.items ++ index_word (map string_bytes locals.now) index) }
{
    match index {
        Index::Number(n) => push_number(out, n),
        Index::Local(local) => push_local(out, locals, usize::from(local)),
        Index::Arg => push_text(out, b"arg"),
        Index::Step => push_text(out, b"step"),
    }
}

/// Appends a cell.
pub(crate) fn push_cell(
    out: &mut Vec<u8>,
    arrays: &Arrays,
    locals: &[String],
    cell: Cell,
) -> Result<(), AllocError>
    ensures { OnOk result (out.new.items ≡ out.old.items
        ++ (name_at (map (λ a. a.0) arrays.now) cell.array ++ codes "[" ++ index_word (map string_bytes locals.now) cell.index ++ codes "]")) }
{
    push_array_name(out, arrays, usize::from(cell.array))?;
    push_text(out, b"[")?;
    push_index(out, locals, cell.index)?;
    push_text(out, b"]")
}
