//! What is read of a round.
ghost use Rattle.std.specs.Prelude.{◌≡◌, ◌≤◌, ◌++◌, length, false, IfOk, OnOk, MatchOption, map};
ghost use Rattle.step_core.specs.Slots.{all_prints, all_counts};
ghost use Rattle.step_core.specs.SlotParts.{IsPlaceOf};
ghost use Rattle.step_core.specs.Taking.{is_live};

use crate::slot::{Finished, Slots};
use phase_records::{PhaseRecord, Print};
use smallvec::SmallVec;
use std::alloc::{AllocError, Global};
use superstep_memory::path::is_before;

// Returns the place of a task of this path, if paths rise.
fn guess(slots: &Slots<'_>, path: &[u16]) -> usize {
    let mut low = 0;
    let mut high = slots.len();
    while low < high {
        let middle = low + (high - low) / 2;
        match slots.at(middle) {
            Some(slot) if is_before(slot.task().path.as_slice(), path) => low = middle + 1,
            _ => high = middle,
        }
    }
    low
}

// Returns the place of the first task of this path, if there is one.
fn scan(slots: &Slots<'_>, path: &[u16]) -> Option<usize>
    requires few { length slots.now ≤ 4096 }
    ensures { MatchOption result (is_live slots.now path.now ≡ false) (λ place. IsPlaceOf slots.now path.now place) }
{
    let mut place = 0;
    let mut rest = slots.again();
    while let Some((slot, after)) = rest.split_first() {
        if slot.is_of(path) {
            return Some(place);
        }
        place += 1;
        rest = after;
    }
    None
}

// Returns the place of a task of this path, if there is one. Live paths rise, so that halving finds it; the answer doesn't
// depend on that, since else all are looked at.
fn find_place(slots: &Slots<'_>, path: &[u16]) -> Option<usize>
    requires few { length slots.now ≤ 4096 }
    ensures { MatchOption result (is_live slots.now path.now ≡ false) (λ place. IsPlaceOf slots.now path.now place) }
{
    let near = guess(slots, path);
    if let Some(slot) = slots.at(near) {
        if slot.is_of(path) {
            return Some(near);
        }
    }
    scan(slots, path)
}

/// Returns the place of a task of this path, if there is one. Looks at the place `near` first.
pub fn find_near(slots: &Slots<'_>, near: usize, path: &[u16]) -> Option<usize>
    requires few { length slots.now ≤ 4096 }
    ensures { MatchOption result (is_live slots.now path.now ≡ false) (λ place. IsPlaceOf slots.now path.now place) }
{
    if let Some(slot) = slots.at(near) {
        if slot.is_of(path) {
            return Some(near);
        }
    }
    find_place(slots, path)
}

/// Returns what was printed, superstep by superstep.
pub fn prints_of(alloc: Global, finished: &[Finished]) -> Result<Vec<Print>, AllocError>
    ensures { IfOk result (λ prints. prints.items ≡ all_prints finished.now) }
{
    let mut prints = Vec::new(alloc);
    for one in finished {
        copy_prints(&mut prints, &one.prints)?;
    }
    Ok(prints)
}

// Appends copies of prints.
fn copy_prints(prints: &mut Vec<Print>, more: &[Print]) -> Result<(), AllocError>
    ensures { OnOk result (prints.new.items ≡ prints.old.items ++ more.now) }
{
    for print in more {
        let path = SmallVec::from_slice(*print.path.allocator(), print.path.as_slice())?;
        prints.push(Print {
            step: print.step,
            path,
            value: print.value,
        })?;
    }
    Ok(())
}

/// Returns the records, superstep by superstep.
pub fn records_of(alloc: Global, finished: &[Finished]) -> Result<Vec<PhaseRecord>, AllocError>
    ensures { IfOk result (λ records. records.items ≡ all_counts finished.now) }
{
    let mut records = Vec::with_capacity(alloc, finished.len())?;
    for one in finished {
        records.push(one.counts)?;
    }
    Ok(records)
}
