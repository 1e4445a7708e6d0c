//! Arrays as a JSON object with a member for each.
ghost use Rattle.std.specs.Prelude.{◌≡◌, ◌++◌, ◌∷◌, OnOk, map};
ghost use Rattle.json.specs.Token.{key};
ghost use Rattle.json.specs.Tree.{json_tokens, members_tokens};
ghost use Rattle.job_view.specs.ReportJson.{array_member, arrays_json, integer, list, members};

use crate::json_lists::write_cells;
use json::Writer;
use std::alloc::AllocError;
use superstep_memory::arrays::Arrays;

// Writes an array as a member: its name and its cells.
fn write_array(out: &mut Writer, name: &str, cells: &[i64]) -> Result<(), AllocError>
    ensures tokens { OnOk result (out.new.tokens ≡ out.old.tokens ++ key name.now ∷ json_tokens (list integer cells.now)) }
    ensures before { out.new.before ≡ out.old.before }
{
    out.key(name)?;
    write_cells(out, cells)
}

// Writes a member for each array, and the end of the object.
fn write_members(out: &mut Writer, arrays: &Arrays) -> Result<(), AllocError>
    ensures tokens { OnOk result (out.new.tokens ≡ out.old.tokens ++ members_tokens (members (map array_member arrays.now))) }
    ensures before { out.new.before ≡ out.old.before }
{
    for place in 0..arrays.len() {
        if let Some((name, cells)) = arrays.get(place) {
            write_array(out, name, cells)?;
        }
    }
    out.end_object()
}

/// Writes the arrays in declared order.
pub(crate) fn write_arrays(out: &mut Writer, arrays: &Arrays) -> Result<(), AllocError>
    ensures tokens { OnOk result (out.new.tokens ≡ out.old.tokens ++ json_tokens (arrays_json arrays.now)) }
    ensures before { out.new.before ≡ out.old.before }
{
    out.begin_object()?;
    write_members(out, arrays)
}
