//! How puts land in arrays that stretches may still share.
ghost use Rattle.std.specs.Prelude.{◌≡◌, ◌++◌, [], None, true, IsSome, IsTrue, IfOk, OnErr};
ghost use Rattle.std.specs.Arc.{arc_value};
ghost use Rattle.std.specs.List.{list_all};
ghost use Rattle.superstep_memory.specs.Landing.{landed, over_in, is_set};
ghost use Rattle.program_stretches.specs.Parts.{of_slot, puts_in};

use crate::part::Part;
use programs::program::OnPath;
use std::alloc::{AllocError, Global};
use std::sync::Arc;
use superstep_memory::arrays::Arrays;
use superstep_memory::puts::Puts;

// Lands the puts of a stretch. None of them adds.
fn land_one<T: OnPath>(arrays: &mut Arrays, slot: &Option<Part<T>>)
    requires { IsTrue (list_all is_set (of_slot (λ part. part.puts) slot.now)) }
    ensures { arrays.new ≡ landed (of_slot (λ part. part.puts) slot.now) arrays.old }
{
    if let Some(part) = slot {
        part.land_sets(arrays);
    }
}

// Lands the puts of stretches, one stretch after another, from where they are. None of them adds.
fn land_each<T: OnPath>(arrays: &mut Arrays, parts: &[Option<Part<T>>])
    requires { IsTrue (list_all is_set (puts_in parts.now)) }
    ensures { arrays.new ≡ landed (puts_in parts.now) arrays.old }
{
    let mut place = 0;
    while place < parts.len() {
        let slot = &parts[place];
        land_one(arrays, slot);
        place += 1;
    }
}

// Lands puts, and after them those of stretches. The puts of stretches don't add. If a put overflows, returns the place
// of the first that does. Then, and if memory runs out, nothing changes.
fn land_all<T: OnPath>(
    arrays: &mut Arrays,
    puts: &Puts,
    parts: &[Option<Part<T>>],
    olds: &mut Vec<i64>,
) -> Result<Option<usize>, AllocError>
    requires sets { IsTrue (list_all is_set (puts_in parts.now)) }
    ensures place { IfOk result (λ place. place ≡ over_in arrays.old [] 0 (puts.now ++ puts_in parts.now)) }
    ensures lands { IfOk result (λ place. place ≡ None → arrays.new ≡ landed (puts.now ++ puts_in parts.now) arrays.old) }
    ensures unlanded { IfOk result (λ place. IsSome place → arrays.new ≡ arrays.old) }
    ensures memory { OnErr result (arrays.new ≡ arrays.old) }
{
    match puts.land(arrays, olds)? {
        Some(place) => Ok(Some(place)),
        None => {
            land_each(arrays, parts);
            Ok(None)
        }
    }
}

/// Lands puts, and after them those of stretches: in place if nobody else has the arrays, else in a copy. The puts of
/// stretches don't add. If a put overflows, returns the place of the first that does. Then, and if memory runs out,
/// nothing changes.
pub fn land_shared<T: OnPath>(
    alloc: Global,
    arrays: &mut Arc<Arrays>,
    puts: &Puts,
    parts: &[Option<Part<T>>],
    olds: &mut Vec<i64>,
) -> Result<Option<usize>, AllocError>
    requires sets { IsTrue (list_all is_set (puts_in parts.now)) }
    ensures place { IfOk result (λ place. place ≡ over_in (arc_value arrays.old) [] 0 (puts.now ++ puts_in parts.now)) }
    ensures lands { IfOk result (λ place. place ≡ None → arc_value arrays.new ≡ landed (puts.now ++ puts_in parts.now) (arc_value arrays.old)) }
    ensures unlanded { IfOk result (λ place. IsSome place → arc_value arrays.new ≡ arc_value arrays.old) }
    ensures memory { OnErr result (arc_value arrays.new ≡ arc_value arrays.old) }
{
    if let Some(own) = Arc::get_mut(arrays) {
        return land_all(own, puts, parts, olds);
    }
    let mut copy = arrays.copy(alloc)?;
    if let Some(place) = land_all(&mut copy, puts, parts, olds)? {
        return Ok(Some(place));
    }
    put_in_place(alloc, arrays, copy)
}

// Puts a copy in which puts have landed in place of the arrays.
fn put_in_place(
    alloc: Global,
    arrays: &mut Arc<Arrays>,
    copy: Arrays,
) -> Result<Option<usize>, AllocError>
    ensures none { IfOk result (λ place. place ≡ None) }
    ensures lands { IfOk result (λ _. arc_value arrays.new ≡ copy) }
    ensures memory { OnErr result (arc_value arrays.new ≡ arc_value arrays.old) }
{
    match Arc::new(alloc, copy) {
        Ok(landed) => {
            *arrays = landed;
            Ok(None)
        }
        Err(_) => Err(AllocError),
    }
}
