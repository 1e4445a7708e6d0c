//! What stretches hand over when their superstep is closed.
ghost use Rattle.std.specs.Prelude.{◌≡◌, ◌≤◌, ◌+◌, ◌++◌, [], true, IsTrue, OnOk, length, map};
ghost use Rattle.std.specs.Vec.{vec_len, vec_capacity};
ghost use Rattle.std.specs.List.{list_all};
ghost use Rattle.superstep_memory.specs.Landing.{is_set};
ghost use Rattle.programs.specs.InPlace.{left_in, spawned_in};
ghost use Rattle.program_stretches.specs.Parts.{of_slot, tasks_in, puts_in, deeds_in, prints_in, without_puts, without_tasks, without_prints, renewed};

use crate::part::Part;
use crate::parts::are_all_sets;
use phase_records::Print;
use programs::deeds::Deeds;
use programs::program::OnPath;
use std::alloc::AllocError;
use superstep_memory::puts::Puts;

// Moves the puts of a stretch to the end of others.
fn give_puts<T: OnPath>(slot: &mut Option<Part<T>>, puts: &mut Puts) -> Result<(), AllocError>
    ensures given { OnOk result (puts.new ≡ puts.old ++ of_slot (λ part. part.puts) slot.old) }
    ensures rest { OnOk result (slot.new ≡ without_puts slot.old) }
{
    match slot {
        Some(part) => part.give_puts(puts),
        None => Ok(()),
    }
}

// Moves the puts of all stretches to the end of others.
fn give_all_puts<T: OnPath>(
    parts: &mut Vec<Option<Part<T>>>,
    puts: &mut Puts,
) -> Result<(), AllocError>
    ensures given { OnOk result (puts.new ≡ puts.old ++ puts_in parts.old.items) }
    ensures rest { OnOk result (parts.new.items ≡ map without_puts parts.old.items) }
{
    let mut place = 0;
    while place < parts.len() {
        give_puts(&mut parts[place], puts)?;
        place += 1;
    }
    Ok(())
}

/// Moves the puts of all stretches to the end of none, unless none of them adds: those can land one stretch after another.
pub fn join_adds<T: OnPath>(
    parts: &mut Vec<Option<Part<T>>>,
    puts: &mut Puts,
) -> Result<(), AllocError>
    requires { puts.old ≡ [] }
    ensures same { OnOk result (puts.new ++ puts_in parts.new.items ≡ puts_in parts.old.items) }
    ensures sets { OnOk result (IsTrue (list_all is_set (puts_in parts.new.items))) }
    ensures rest { OnOk result (map without_puts parts.new.items ≡ map without_puts parts.old.items) }
{
    if are_all_sets(parts) {
        return Ok(());
    }
    give_all_puts(parts, puts)
}

// Moves the tasks of a stretch, and what they did, to the end of others.
fn give_tasks<T: OnPath>(
    slot: &mut Option<Part<T>>,
    tasks: &mut Vec<T>,
    deeds: &mut Deeds<T>,
) -> Result<(), AllocError>
    ensures tasks { OnOk result (tasks.new.items ≡ tasks.old.items ++ of_slot (λ part. part.tasks) slot.old) }
    ensures deeds { OnOk result (deeds.new ≡ deeds.old ++ of_slot (λ part. part.deeds) slot.old) }
    ensures rest { OnOk result (slot.new ≡ without_tasks slot.old) }
{
    match slot {
        Some(part) => part.give_tasks(tasks, deeds),
        None => Ok(()),
    }
}

/// Moves the tasks of all stretches, and what they did, to the end of others.
pub fn give_all_tasks<T: OnPath>(
    parts: &mut Vec<Option<Part<T>>>,
    tasks: &mut Vec<T>,
    deeds: &mut Deeds<T>,
) -> Result<(), AllocError>
    ensures tasks { OnOk result (tasks.new.items ≡ tasks.old.items ++ tasks_in parts.old.items) }
    ensures deeds { OnOk result (deeds.new ≡ deeds.old ++ deeds_in parts.old.items) }
    ensures rest { OnOk result (parts.new.items ≡ map without_tasks parts.old.items) }
{
    let mut place = 0;
    while place < parts.len() {
        give_tasks(&mut parts[place], tasks, deeds)?;
        place += 1;
    }
    Ok(())
}

// Moves the prints of a stretch to the end of others, which have room for them.
fn give_prints<T: OnPath>(slot: &mut Option<Part<T>>, prints: &mut Vec<Print>)
    requires capacity { vec_len prints.old + length (of_slot (λ part. part.prints) slot.old) ≤ vec_capacity prints.old }
    ensures given { prints.new.items ≡ prints.old.items ++ of_slot (λ part. part.prints) slot.old }
    ensures capacity { vec_capacity prints.old ≤ vec_capacity prints.new }
    ensures rest { slot.new ≡ without_prints slot.old }
{
    if let Some(part) = slot {
        part.give_prints(prints);
    }
}

/// Moves the prints of all stretches to the end of others, which have room for them.
pub fn give_all_prints<T: OnPath>(parts: &mut Vec<Option<Part<T>>>, prints: &mut Vec<Print>)
    requires capacity { vec_len prints.old + length (prints_in parts.old.items) ≤ vec_capacity prints.old }
    ensures given { prints.new.items ≡ prints.old.items ++ prints_in parts.old.items }
    ensures rest { parts.new.items ≡ map without_prints parts.old.items }
{
    let mut place = 0;
    while place < parts.len() {
        give_prints(&mut parts[place], prints);
        place += 1;
    }
}

// Gets a stretch ready for the next superstep, in which the same tasks live.
fn renew<T: OnPath>(slot: &mut Option<Part<T>>)
    requires { (left_in (of_slot (λ part. part.deeds) slot.old) ≡ 0) × (spawned_in (of_slot (λ part. part.deeds) slot.old) ≡ 0) }
    ensures { slot.new ≡ renewed slot.old }
{
    if let Some(part) = slot {
        part.renew();
    }
}

// Gets all stretches ready for the next superstep, in which the same tasks live.
fn renew_all<T: OnPath>(parts: &mut Vec<Option<Part<T>>>)
    requires { (left_in (deeds_in parts.old.items) ≡ 0) × (spawned_in (deeds_in parts.old.items) ≡ 0) }
    ensures { parts.new.items ≡ map renewed parts.old.items }
{
    let mut place = 0;
    while place < parts.len() {
        renew(&mut parts[place]);
        place += 1;
    }
}

/// Moves the prints of all stretches to the end of others, which have room for them, and gets the stretches ready for the next
/// superstep, in which the same tasks live.
pub fn print_and_renew<T: OnPath>(parts: &mut Vec<Option<Part<T>>>, prints: &mut Vec<Print>)
    requires stay { (left_in (deeds_in parts.old.items) ≡ 0) × (spawned_in (deeds_in parts.old.items) ≡ 0) }
    requires capacity { vec_len prints.old + length (prints_in parts.old.items) ≤ vec_capacity prints.old }
    ensures given { prints.new.items ≡ prints.old.items ++ prints_in parts.old.items }
    ensures renewed { parts.new.items ≡ map renewed parts.old.items }
{
    give_all_prints(parts, prints);
    renew_all(parts);
}
