//! How the puts that were delivered land.
ghost use Rattle.std.specs.Prelude.{◌≡◌, ◌<◌, List, None, IsTrue, IsSome, IfOk, OnErr, map, length};
ghost use Rattle.std.specs.List.{list_all};
ghost use Rattle.std.specs.Option.{option_map};
ghost use Rattle.std.specs.Arc.{arc_value};
ghost use Rattle.superstep_memory.specs.Landing.{landed, joined, is_set};
ghost use Rattle.task_lang.specs.Meaning.{Plan};
ghost use Rattle.programs.specs.Superstep.{overflow, fault_eight, log_of};
ghost use Rattle.step_core.specs.Slots.{slots_of, delivered};
ghost use Rattle.step_core.specs.SlotParts.{log_in, path_at, overflow_at};

use crate::slot::Slots;
use programs::blame::{Blame, overflowed};
use std::alloc::{AllocError, Global};
use std::sync::Arc;
use superstep_memory::arrays::Arrays;
use superstep_memory::puts::Puts;

// Returns true if each put that was delivered sets its cell.
fn are_all_sets(slots: &Slots<'_>) -> bool
    ensures { result ≡ list_all is_set (log_in slots.now) }
{
    let mut rest = slots.again();
    while let Some((slot, after)) = rest.split_first() {
        if !slot.are_sets() {
            return false;
        }
        rest = after;
    }
    true
}

// Lands puts that all set their cells.
fn write_all(arrays: &mut Arrays, slots: &Slots<'_>)
    requires { IsTrue (list_all is_set (log_in slots.now)) }
    ensures { arrays.new ≡ landed (log_in slots.now) arrays.old }
{
    let mut rest = slots.again();
    while let Some((slot, after)) = rest.split_first() {
        slot.land_sets(arrays);
        rest = after;
    }
}

// Returns all puts that were delivered, one after another.
fn join(alloc: Global, slots: &Slots<'_>) -> Result<Puts, AllocError>
    ensures { IfOk result (λ puts. puts ≡ log_in slots.now) }
{
    let mut puts = Puts::new(alloc);
    let mut rest = slots.again();
    while let Some((slot, after)) = rest.split_first() {
        slot.copy_puts(alloc, &mut puts)?;
        rest = after;
    }
    Ok(puts)
}

// Returns the fault of the task whose put is at this place of all of them, if there is such a put.
fn blame_at(slots: &Slots<'_>, place: usize) -> Option<Blame>
    ensures { result ≡ option_map overflow_at (path_at slots.now place) }
{
    let mut left = place;
    let mut rest = slots.again();
    while let Some((slot, after)) = rest.split_first() {
        let count = slot.count_puts();
        if left < count {
            return Some(overflowed(slot.task()));
        }
        left -= count;
        rest = after;
    }
    None
}

// Lands what was delivered. If a put overflows, reports the first that does and changes nothing.
fn land_slots(
    alloc: Global,
    arrays: &mut Arrays,
    slots: &Slots<'_>,
) -> Result<Option<Blame>, AllocError>
    ensures fault { IfOk result (λ fault. (ps : List Plan) → fault ≡ overflow arrays.old (delivered (slots_of ps slots.now))) }
    ensures lands { IfOk result (λ fault. fault ≡ None → (ps : List Plan)
        → arrays.new ≡ landed (joined (map log_of (delivered (slots_of ps slots.now)))) arrays.old) }
    ensures unlanded { IfOk result (λ fault. IsSome fault → arrays.new ≡ arrays.old) }
    ensures memory { OnErr result (arrays.new ≡ arrays.old) }
{
    if are_all_sets(slots) {
        write_all(arrays, slots);
        return Ok(None);
    }
    let puts = join(alloc, slots)?;
    let mut olds = Vec::new(alloc);
    match puts.land(arrays, &mut olds)? {
        None => Ok(None),
        Some(place) => Ok(blame_at(slots, place)),
    }
}

/// Lands what was delivered in the arrays as the superstep began. Lands it in place if nobody else has them, and in a
/// copy otherwise. If a put overflows, reports the first that does, and changes nothing.
pub(crate) fn land_start_arrays(
    alloc: Global,
    start_arrays: &mut Arc<Arrays>,
    slots: &Slots<'_>,
) -> Result<Option<Blame>, AllocError>
    ensures fault { IfOk result (λ fault. (ps : List Plan)
        → fault ≡ overflow (arc_value start_arrays.old) (delivered (slots_of ps slots.now))) }
    ensures lands { IfOk result (λ fault. fault ≡ None → (ps : List Plan)
        → arc_value start_arrays.new ≡ landed (joined (map log_of (delivered (slots_of ps slots.now)))) (arc_value start_arrays.old)) }
    ensures unlanded { IfOk result (λ fault. IsSome fault → arc_value start_arrays.new ≡ arc_value start_arrays.old) }
    ensures memory { OnErr result (arc_value start_arrays.new ≡ arc_value start_arrays.old) }
{
    if let Some(arrays) = Arc::get_mut(start_arrays) {
        return land_slots(alloc, arrays, slots);
    }
    let mut copy = start_arrays.copy(alloc)?;
    if let Some(blame) = land_slots(alloc, &mut copy, slots)? {
        return Ok(Some(blame));
    }
    match Arc::new(alloc, copy) {
        Ok(landed) => {
            *start_arrays = landed;
            Ok(None)
        }
        Err(_) => Err(AllocError),
    }
}
