//! Lists of numbers, of supersteps and of prints as JSON.
ghost use Rattle.std.specs.Prelude.{◌≡◌, ◌++◌, ◌∷◌, [], OnOk, codes, decimal, map};
ghost use Rattle.json.specs.Token.{key, number};
ghost use Rattle.json.specs.Tree.{items_tokens, json_tokens};
ghost use Rattle.json.specs.Value.{items_of};
ghost use Rattle.job_view.specs.ReportJson.{integer, list, natural, print_json, superstep_json};

use json::Writer;
use phase_records::{PhaseRecord, Print};
use std::alloc::AllocError;

/// Writes a key and a number.
pub(crate) fn write_field(out: &mut Writer, name: &str, n: u32) -> Result<(), AllocError>
    ensures tokens { OnOk result (out.new.tokens ≡ out.old.tokens ++ key name.now ∷ number (decimal n) ∷ []) }
    ensures before { out.new.before ≡ out.old.before }
{
    out.key(name)?;
    out.u64(u64::from(n))
}

// Writes the numbers of a path, and the end of their list.
fn write_numbers(out: &mut Writer, path: &[u16]) -> Result<(), AllocError>
    ensures tokens { OnOk result (out.new.tokens ≡ out.old.tokens ++ items_tokens (items_of (map natural path.now))) }
    ensures before { out.new.before ≡ out.old.before }
{
    for number in path {
        out.u64(u64::from(*number))?;
    }
    out.end_array()
}

/// Writes a path.
pub(crate) fn write_path(out: &mut Writer, path: &[u16]) -> Result<(), AllocError>
    ensures tokens { OnOk result (out.new.tokens ≡ out.old.tokens ++ json_tokens (list natural path.now)) }
    ensures before { out.new.before ≡ out.old.before }
{
    out.begin_array()?;
    write_numbers(out, path)
}

// Writes the values of cells, and the end of their list.
fn write_values(out: &mut Writer, cells: &[i64]) -> Result<(), AllocError>
    ensures tokens { OnOk result (out.new.tokens ≡ out.old.tokens ++ items_tokens (items_of (map integer cells.now))) }
    ensures before { out.new.before ≡ out.old.before }
{
    for cell in cells {
        out.i64(*cell)?;
    }
    out.end_array()
}

/// Writes the cells of an array.
pub(crate) fn write_cells(out: &mut Writer, cells: &[i64]) -> Result<(), AllocError>
    ensures tokens { OnOk result (out.new.tokens ≡ out.old.tokens ++ json_tokens (list integer cells.now)) }
    ensures before { out.new.before ≡ out.old.before }
{
    out.begin_array()?;
    write_values(out, cells)
}

// Writes how many tasks left in a superstep, and how many were spawned.
fn write_changes(out: &mut Writer, counts: PhaseRecord) -> Result<(), AllocError>
    ensures tokens { OnOk result (out.new.tokens
        ≡ out.old.tokens ++ key (codes "left") ∷ number (decimal counts.left) ∷ key (codes "spawned") ∷ number (decimal counts.spawned) ∷ []) }
    ensures before { out.new.before ≡ out.old.before }
{
    write_field(out, "left", counts.left)?;
    write_field(out, "spawned", counts.spawned)?;
    Ok(())
}

// Writes a superstep.
fn write_superstep(out: &mut Writer, counts: PhaseRecord) -> Result<(), AllocError>
    ensures tokens { OnOk result (out.new.tokens ≡ out.old.tokens ++ json_tokens (superstep_json counts)) }
    ensures before { out.new.before ≡ out.old.before }
{
    out.begin_object()?;
    write_field(out, "phase", counts.phase)?;
    write_field(out, "parties", counts.parties)?;
    write_changes(out, counts)?;
    out.end_object()?;
    Ok(())
}

// Writes supersteps, and the end of their list.
fn write_records(out: &mut Writer, records: &[PhaseRecord]) -> Result<(), AllocError>
    ensures tokens { OnOk result (out.new.tokens ≡ out.old.tokens ++ items_tokens (items_of (map superstep_json records.now))) }
    ensures before { out.new.before ≡ out.old.before }
{
    for counts in records {
        write_superstep(out, *counts)?;
    }
    out.end_array()
}

/// Writes the list of supersteps, after its name.
pub(crate) fn write_supersteps(out: &mut Writer, records: &[PhaseRecord]) -> Result<(), AllocError>
    ensures tokens { OnOk result (out.new.tokens
        ≡ out.old.tokens ++ key (codes "supersteps") ∷ json_tokens (list superstep_json records.now)) }
    ensures before { out.new.before ≡ out.old.before }
{
    out.key("supersteps")?;
    out.begin_array()?;
    write_records(out, records)
}

// Writes a print.
fn write_print(out: &mut Writer, print: &Print) -> Result<(), AllocError>
    ensures tokens { OnOk result (out.new.tokens ≡ out.old.tokens ++ json_tokens (print_json print.now)) }
    ensures before { out.new.before ≡ out.old.before }
{
    out.begin_object()?;
    write_field(out, "step", print.step)?;
    out.key("path")?;
    write_path(out, print.path.as_slice())?;
    out.key("value")?;
    out.i64(print.value)?;
    out.end_object()
}

// Writes prints, and the end of their list.
fn write_each_print(out: &mut Writer, prints: &[Print]) -> Result<(), AllocError>
    ensures tokens { OnOk result (out.new.tokens ≡ out.old.tokens ++ items_tokens (items_of (map print_json prints.now))) }
    ensures before { out.new.before ≡ out.old.before }
{
    for print in prints {
        write_print(out, print)?;
    }
    out.end_array()
}

/// Writes the list of prints, after its name.
pub(crate) fn write_prints(out: &mut Writer, prints: &[Print]) -> Result<(), AllocError>
    ensures tokens { OnOk result (out.new.tokens
        ≡ out.old.tokens ++ key (codes "prints") ∷ json_tokens (list print_json prints.now)) }
    ensures before { out.new.before ≡ out.old.before }
{
    out.key("prints")?;
    out.begin_array()?;
    write_each_print(out, prints)
}
