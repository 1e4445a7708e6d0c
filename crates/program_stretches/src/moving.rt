//! Room for what a superstep leaves.
ghost use Rattle.std.specs.Prelude.{◌≡◌, ◌≤◌, ◌<◌, ◌+◌, OnOk, length};
ghost use Rattle.std.specs.Vec.{vec_len, vec_capacity};
ghost use Rattle.program_stretches.specs.Parts.{prints_in};

use crate::part::Part;
use crate::parts::count_prints;
use phase_records::{PhaseRecord, Print};
use programs::program::OnPath;
use std::alloc::AllocError;

/// Makes room for what stretches printed, and for a record.
pub fn make_room<T: OnPath>(
    parts: &[Option<Part<T>>],
    prints: &mut Vec<Print>,
    records: &mut Vec<PhaseRecord>,
) -> Result<(), AllocError>
    ensures prints { prints.new.items ≡ prints.old.items }
    ensures records { records.new.items ≡ records.old.items }
    ensures capacity { OnOk result (vec_len prints.new + length (prints_in parts.now) ≤ vec_capacity prints.new) }
    ensures one { OnOk result (vec_len records.new < vec_capacity records.new) }
{
    let Some(count) = count_prints(parts) else {
        return Err(AllocError);
    };
    prints.reserve(count)?;
    records.reserve(1)?;
    Ok(())
}
