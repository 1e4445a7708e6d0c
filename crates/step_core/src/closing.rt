//! What a round does with what was delivered.
ghost use Rattle.std.specs.Prelude.{◌≡◌, ◌≤◌, ◌++◌, List, IfOk, OnOk, map, length, option_map, []};
ghost use Rattle.task_lang.specs.Meaning.{Plan};
ghost use Rattle.programs.specs.Superstep.{first_fault, prints_of, print_of, record_of, spawned, left};
ghost use Rattle.step_core.specs.Slots.{slots_of, delivered, first_missing};
ghost use Rattle.step_core.specs.SlotParts.{path_of, AllSmall};

use crate::slot::Slots;
use phase_records::{PhaseRecord, Print};
use programs::blame::{Blame, push_prints, task_path};
use std::alloc::{AllocError, Global};
use superstep_memory::path::Path;
use task_lang::task::After;

/// Returns the first path for whose task nothing was delivered, if there is one.
pub fn find_missing(slots: &Slots<'_>) -> Option<Path>
    ensures { (ps : List Plan) → option_map path_of result ≡ first_missing (slots_of ps slots.now) }
{
    let mut rest = slots.again();
    while let Some((slot, after)) = rest.split_first() {
        if !slot.is_done() {
            return Some(task_path(slot.task()));
        }
        rest = after;
    }
    None
}

/// Returns the first fault by path, if there is one.
pub fn find_fault(slots: &Slots<'_>) -> Option<Blame>
    ensures { (ps : List Plan) → result ≡ first_fault (delivered (slots_of ps slots.now)) }
{
    let mut rest = slots.again();
    while let Some((slot, after)) = rest.split_first() {
        if let Some(segment) = slot.done() {
            if let After::Fault(fault) = &segment.after {
                let code = fault.code();
                let path = task_path(slot.task());
                return Some(Blame { code, path });
            }
        }
        rest = after;
    }
    None
}

/// Returns what was printed, by path, then in program order.
pub(crate) fn collect_prints(
    alloc: Global,
    step: u32,
    slots: &Slots<'_>,
) -> Result<Vec<Print>, AllocError>
    ensures { IfOk result (λ prints. (ps : List Plan) → prints.items ≡ prints_of step (delivered (slots_of ps slots.now))) }
{
    let mut prints = Vec::new(alloc);
    let mut rest = slots.again();
    while let Some((slot, after)) = rest.split_first() {
        if let Some(segment) = slot.done() {
            push_prints(&mut prints, step, slot.task(), &segment.prints)?;
        }
        rest = after;
    }
    Ok(prints)
}

/// Returns the record of a superstep.
pub(crate) fn record_of(step: u32, slots: &Slots<'_>) -> PhaseRecord
    requires few { length slots.now ≤ 4096 }
    requires small { AllSmall slots.now }
    ensures { (ps : List Plan) → result ≡ record_of step (delivered (slots_of ps slots.now)) }
{
    let mut count: u32 = 0;
    let mut left: u32 = 0;
    let mut spawned: u32 = 0;
    let mut rest = slots.again();
    while let Some((slot, after)) = rest.split_first() {
        if let Some(segment) = slot.done() {
            count += 1;
            if matches!(segment.after, After::Stopped) {
                left += 1;
            }
            spawned += segment.spawns.len() as u32;
        }
        rest = after;
    }
    PhaseRecord {
        phase: step,
        parties: count + spawned,
        left,
        spawned,
    }
}
