//! The texts of a superstep's faults: too many tasks, and a sum that overflows.
ghost use Rattle.std.specs.Prelude.{◌≡◌, ◌≤◌, ◌++◌, [], Some, OnOk, IfOk, length, take, pos, unwrap_or};
ghost use Rattle.superstep_memory.specs.Cells.{cell_at};
ghost use Rattle.superstep_memory.specs.Landing.{landed, over_in};
ghost use Rattle.fault_reasons.specs.AgainSeen.{again_seen};
ghost use Rattle.fault_reasons.specs.Texts.{adds, all_living, all_puts as all_puts_of, cell_said, living as living_of, overflow, step_head, sum_at, sum_by, sum_head, sum_said, too_many};

use crate::names::push_array_name;
use crate::pieces::{push_field, push_number, push_text};
use crate::task::{Superstep, push_path, walk_task};
use crate::walk::{Doing, End};
use std::alloc::{AllocError, Global};
use superstep_memory::arrays::{Arrays, Put};
use superstep_memory::log::land_log;

// Returns how many tasks live on of one whose segment ends so, with those that it spawned.
fn living(end: End, doing: &Doing) -> u32
    ensures few { result ≤ 256 }
    ensures count { result ≡ living_of (end, doing.now) }
{
    match end {
        End::Synced => u32::from(doing.spawned) + 1,
        End::Stopped => u32::from(doing.spawned),
        End::Fault(_, _) => 0,
    }
}

// Returns how many tasks would live on after a superstep.
fn count_living(alloc: Global, at: Superstep<'_>) -> Result<u128, AllocError>
    ensures { IfOk result (λ n. n ≡ all_living (again_seen at.entry) (again_seen at.entry).tasks) }
{
    let mut count: u128 = 0;
    let rest = at.tasks;
    for task in rest {
        let (end, doing) = walk_task(alloc, at, task)?;
        count += u128::from(living(end, &doing));
    }
    Ok(count)
}

// Appends the superstep in which a fault of this name came.
#[tactic(auto, unfolding(crate::specs::Texts::step_head))]
fn push_step(out: &mut Vec<u8>, name: &[u8], step: u32) -> Result<(), AllocError>
    ensures { OnOk result (out.new.items ≡ out.old.items ++ step_head name.now step) }
{
    push_text(out, b"fault ")?;
    push_text(out, name)?;
    push_field(out, b" in superstep ", step)?;
    push_text(out, b": ")
}

/// Appends why a superstep has too many tasks.
pub(crate) fn push_too_many(
    alloc: Global,
    out: &mut Vec<u8>,
    at: Superstep<'_>,
) -> Result<(), AllocError>
    ensures { OnOk result (out.new.items ≡ out.old.items ++ too_many (again_seen at.entry)) }
{
    let count = count_living(alloc, at)?;
    push_step(out, b"7 (TooMany)", at.step)?;
    push_number(out, count)?;
    push_text(out, b" tasks would live on, and at most 4096 may\n")
}

// Returns the puts of all tasks, by path and then in program order.
fn all_puts(alloc: Global, at: Superstep<'_>) -> Result<Vec<Put>, AllocError>
    ensures { IfOk result (λ puts. puts.items ≡ all_puts_of (again_seen at.entry) (again_seen at.entry).tasks) }
{
    let mut puts = Vec::new(alloc);
    let rest = at.tasks;
    for task in rest {
        let (_, doing) = walk_task(alloc, at, task)?;
        puts.extend_from_slice(&doing.puts)?;
    }
    Ok(puts)
}

// Appends the cell of a put.
#[tactic(auto, unfolding(crate::specs::Texts::cell_said))]
fn push_put_cell(out: &mut Vec<u8>, at: Superstep<'_>, put: Put) -> Result<(), AllocError>
    ensures { OnOk result (out.new.items ≡ out.old.items ++ cell_said (again_seen at.entry) put) }
{
    push_array_name(out, at.arrays, usize::from(put.array))?;
    push_field(out, b"[", put.index)?;
    push_text(out, b"]")
}

// Appends what the task of this path adds to a cell.
#[tactic(auto, unfolding(crate::specs::Texts::adds))]
fn push_adds(out: &mut Vec<u8>, path: &[u16], put: Put) -> Result<(), AllocError>
    ensures { OnOk result (out.new.items ≡ out.old.items ++ adds path.now put) }
{
    push_text(out, b", and task ")?;
    push_path(out, path)?;
    push_field(out, b" adds ", put.value)?;
    push_text(out, b"\n")
}

// Appends the superstep and the cell of a put that makes a sum that overflows.
#[tactic(auto, unfolding(crate::specs::Texts::sum_head))]
fn push_sum_head(out: &mut Vec<u8>, at: Superstep<'_>, put: Put) -> Result<(), AllocError>
    ensures { OnOk result (out.new.items ≡ out.old.items ++ sum_head (again_seen at.entry) put) }
{
    push_step(out, b"8 (Overflowed)", at.step)?;
    push_put_cell(out, at, put)
}

// Appends that a put of the task of this path makes a sum that overflows, in a cell that had come to this.
fn push_sum(
    out: &mut Vec<u8>,
    at: Superstep<'_>,
    path: &[u16],
    put: Put,
    held: i64,
) -> Result<(), AllocError>
    ensures { OnOk result (out.new.items ≡ out.old.items ++ sum_said (again_seen at.entry) path.now put held) }
{
    push_sum_head(out, at, put)?;
    push_field(out, b" came to ", held)?;
    push_adds(out, path, put)
}

// Lands the puts before one that is the first to overflow.
fn land_before(
    alloc: Global,
    at: Superstep<'_>,
    puts: &[Put],
    place: usize,
) -> Result<Arrays, AllocError>
    requires within { place ≤ length puts.now }
    requires first { over_in (again_seen at).arrays [] 0 puts.now ≡ Some place }
    ensures { IfOk result (λ arrays. arrays ≡ landed (take place puts.now) (again_seen at.entry).arrays) }
{
    let mut arrays = at.arrays.copy(alloc)?;
    let mut olds = Vec::new(alloc);
    land_log(&mut arrays, &puts[..place], &mut olds)?;
    Ok(arrays)
}

// Returns what the cell of a put holds.
fn held_in(arrays: &Arrays, put: Put) -> i64
    ensures { result ≡ unwrap_or (cell_at arrays.now put.array (pos put.index)) (pos 0) }
{
    arrays.cell(put.array, put.index).unwrap_or(0)
}

// Appends the sum of the put at a place of the log, if there is one. It is the first to overflow.
fn push_at(
    alloc: Global,
    out: &mut Vec<u8>,
    at: Superstep<'_>,
    path: &[u16],
    puts: &[Put],
    place: usize,
) -> Result<(), AllocError>
    requires first { over_in (again_seen at).arrays [] 0 puts.now ≡ Some place }
    ensures { OnOk result (out.new.items ≡ out.old.items ++ sum_by (again_seen at.entry) path.now puts.now (Some place)) }
{
    if place >= puts.len() {
        return Ok(());
    }
    let put = puts[place];
    let arrays = land_before(alloc, at, puts, place)?;
    let held = held_in(&arrays, put);
    push_sum(out, at, path, put, held)
}

// Returns the place of the first of these puts that overflows, if there is one.
fn first_over(alloc: Global, at: Superstep<'_>, puts: &[Put]) -> Result<Option<usize>, AllocError>
    ensures { IfOk result (λ place. place ≡ over_in (again_seen at.entry).arrays [] 0 puts.now) }
{
    let mut arrays = at.arrays.copy(alloc)?;
    let mut olds = Vec::new(alloc);
    land_log(&mut arrays, puts, &mut olds)
}

/// Appends which sum overflows in a superstep: the cell, what it came to, and what the task of this path adds.
pub(crate) fn push_overflow(
    alloc: Global,
    out: &mut Vec<u8>,
    at: Superstep<'_>,
    path: &[u16],
) -> Result<(), AllocError>
    ensures { OnOk result (out.new.items ≡ out.old.items ++ overflow (again_seen at.entry) path.now) }
{
    let puts = all_puts(alloc, at)?;
    match first_over(alloc, at, &puts)? {
        Some(place) => push_at(alloc, out, at, path, &puts, place),
        None => Ok(()),
    }
}
