//! Supersteps for C (own): the caller runs the segments of the tasks, on its own threads, and tells what each task left. The library
//! lands the puts, orders the prints, counts, and says which tasks live next. What C holds is a slot in its own memory.
//!
//! # Where things are
//!
//! * `lib.rt`: the exported calls; `specs/Calls.antt`, `specs/Runs.antt`: what they give.
//! * `given.rt`: what C gives (`specs/Given.antt`); `task.rt`: a live task; `given_deeds.rt`: the program of a superstep that was given;
//!   `packed.rt`: deeds as bytes (`specs/DeedBytes.antt`); `open.rt`: arrays; `run.rt`: a run whose supersteps are given; `laws.rt`: what a close means for each task.
//! * `state.rt`, `slot.rt`, `handle.rt`, `loose.rt`: what C holds. The unsafe code is in `handle/lend.rt` and `loose.rt`.
#![tactic(auto)]

ghost use Rattle.std.specs.Prelude.{◌≡◌, None, false, true, length};
ghost use Rattle.std.specs.List.{list_all};
ghost use Rattle.bsp_steps.specs.Given.{is_named};
ghost use Rattle.bsp_steps.specs.Runs.{refused_starts};
ghost use Rattle.bsp_steps.specs.Calls.{Begins, Opens, Closes, ClosesPacked, Frees, IsGiven, Looks, ReadsCells, ReadsPath, ReadsOrigin, ReadsFault, ReadsPrint, ReadsRecord, Reports};

use given::{ArrayGiven, Deed, Look, Origin, PrintReport, RecordReport};
use open::{OpenFault, are_named, open_arrays};
use packed::{Block, Unread};
use run::{DONE, NO_MEMORY, Run};
use slot::Slot;
use state::State;
use std::alloc::Global;

mod given;
mod given_deeds;
mod handle;
mod laws;
mod loose;
mod open;
mod packed;
mod run;
mod slot;
mod state;
mod task;

pub use laws::{
    bytes_are_worked_out, calls_are_worked_out, each_task_has_its_place, tasks_leave_what_was_given,
};

/// An array has the name of another, or too many cells.
const REFUSED: i32 = 4;

/// More start tasks than may live, or than 65535, or more may live than 2147483647.
const TASKS: i32 = 5;

/// Nothing is open.
const CLOSED: i32 = 7;

/// The slot is open already.
const OPEN: i32 = 8;

/// There is none of this number.
const NONE: i32 = 9;

/// The caller's bytes are too few.
const SHORT: i32 = 10;

/// The run goes on.
const GOING: i32 = 13;

/// An array has a name that no array of a job may have.
const UNNAMED: i32 = 14;

// Begins a run in a slot that has none.
fn begin(
    alloc: Global,
    arrays: &[ArrayGiven<'_>],
    starts: u32,
    most: u32,
    limit: u32,
    slot: &mut Slot,
) -> i32
    requires none { slot.old.handle.state ≡ None }
    requires few { refused_starts starts most ≡ false }
    requires named { list_all is_named arrays.now ≡ true }
    ensures { Begins slot.new.handle.state arrays.now starts most limit result }
{
    let arrays = match open_arrays(alloc, arrays) {
        Ok(arrays) => arrays,
        Err(OpenFault::Refused) => return REFUSED,
        Err(OpenFault::Memory) => return NO_MEMORY,
    };
    let Ok(run) = Run::begin(alloc, arrays, starts, most, limit) else {
        return NO_MEMORY;
    };
    match slot.fill(alloc, State { run }) {
        Ok(()) => DONE,
        Err(_) => NO_MEMORY,
    }
}

/// Begins a run of these arrays and of `starts` start tasks. At most `most` tasks may live at once, and at most `limit`
/// supersteps are taken. Returns 0, also if there is no start task or `limit` is 0: then the run is over at once. Otherwise nothing
/// is begun. Returns 8 if the slot is open; else 5 if the start tasks are refused; else 14 if a name is refused; else 4 if an array has
/// the name of another, or over 4294967295 cells; else 6 if an allocation failed.
#[unsafe(no_mangle)]
pub extern "C" fn bsp_steps_open(
    alloc: Global,
    arrays: &[ArrayGiven<'_>],
    starts: u32,
    most: u32,
    limit: u32,
    slot: &mut Slot,
) -> i32
    ensures { Opens slot.old.handle.state slot.new.handle.state arrays.now starts most limit result }
{
    if slot.held {
        return OPEN;
    }
    if most > 2147483647 || starts > 65535 || starts > most {
        return TASKS;
    }
    if !are_named(arrays) {
        return UNNAMED;
    }
    begin(alloc, arrays, starts, most, limit, slot)
}

/// Takes one superstep, in which each live task leaves what its deed says, the first deed that of the first live task. Returns 0 if
/// the run goes on; 1 if no task lives on; 2 if a fault has ended it; 3 if its limit is reached; 7 if nothing is open. Changes nothing
/// if an allocation failed, 6, if the deeds don't fit the live tasks, 11, or if the run was over before, 12.
#[unsafe(no_mangle)]
pub extern "C" fn bsp_steps_close(alloc: Global, deeds: &[Deed<'_>], slot: &mut Slot) -> i32
    ensures { Closes slot.old.handle.state slot.new.handle.state deeds.now result }
{
    if !slot.held {
        return CLOSED;
    }
    let state = slot.handle.get();
    state.run.close(alloc, deeds)
}

/// Takes one superstep as [`bsp_steps_close`] does, by deeds as bytes. The blocks have the deeds of all live tasks in order, and no deed
/// goes on in the next block. Returns what [`bsp_steps_close`] does, or 15 if the bytes aren't packed deeds: then `unread` has the block,
/// and the byte of it at which the first item begins that can't be read, and nothing is changed.
#[unsafe(no_mangle)]
pub extern "C" fn bsp_steps_close_packed(
    alloc: Global,
    blocks: &[Block<'_>],
    slot: &mut Slot,
    unread: &mut Unread,
) -> i32
    ensures { ClosesPacked slot.old.handle.state slot.new.handle.state unread.old unread.new blocks.now result }
{
    if !slot.held {
        return CLOSED;
    }
    let state = slot.handle.get();
    state.run.close_packed(alloc, blocks, unread)
}

/// Frees the run. Returns 7 if nothing is open.
#[unsafe(no_mangle)]
pub extern "C" fn bsp_steps_free(alloc: Global, slot: &mut Slot) -> i32
    ensures { Frees slot.old.handle.state slot.new.handle.state result }
{
    match slot.take(alloc) {
        Some(_state) => DONE,
        None => CLOSED,
    }
}

/// Tells how many supersteps were taken, whether and how the run has ended, how many tasks live, and how many arrays, prints and records there are. Returns 7 if nothing
/// is open.
#[unsafe(no_mangle)]
pub extern "C" fn bsp_steps_look(slot: &mut Slot, look: &mut Look) -> i32
    ensures { Looks slot.old.handle.state slot.new.handle.state look.old look.new result }
{
    let Some(state) = slot.look() else {
        return CLOSED;
    };
    *look = Look {
        step: state.run.superstep(),
        status: state.run.number(),
        live: state.run.tasks().len(),
        arrays: state.run.arrays().len(),
        prints: state.run.print_count(),
        records: state.run.records().len(),
    };
    DONE
}

/// Lends the cells of an array as the next superstep reads them, until the next call with this slot. The run stays as it is. Returns 7
/// if nothing is open, 9 if there is no such array.
#[unsafe(no_mangle)]
pub extern "C" fn bsp_steps_cells<'a>(
    slot: &'a mut Slot,
    array: usize,
    cells: &mut &'a [i64],
) -> i32
    ensures { ReadsCells slot.old.handle.state array cells.old.now cells.new.now result }
{
    let Some(state) = slot.look() else {
        return CLOSED;
    };
    match state.run.arrays().get(array) {
        Some((_, found)) => {
            *cells = found;
            DONE
        }
        None => NONE,
    }
}

/// Lends the path of a live task, until the next call with this slot. The run stays as it is. Returns 7 if nothing is open, 9 if there
/// is no such task.
#[unsafe(no_mangle)]
pub extern "C" fn bsp_steps_path<'a>(slot: &'a mut Slot, task: usize, path: &mut &'a [u16]) -> i32
    ensures { ReadsPath slot.old.handle.state task path.old.now path.new.now result }
{
    let Some(state) = slot.look() else {
        return CLOSED;
    };
    match state.run.path(task) {
        Some(found) => {
            *path = found;
            DONE
        }
        None => NONE,
    }
}

/// Tells where a live task comes from. Returns 7 if nothing is open, 9 if there is no such task.
#[unsafe(no_mangle)]
pub extern "C" fn bsp_steps_origin(slot: &mut Slot, task: usize, origin: &mut Origin) -> i32
    ensures { ReadsOrigin slot.old.handle.state slot.new.handle.state task origin.old origin.new result }
{
    let Some(state) = slot.look() else {
        return CLOSED;
    };
    match state.run.tasks().get(task) {
        Some(found) => {
            *origin = found.origin();
            DONE
        }
        None => NONE,
    }
}

/// Tells the fault that has ended the run, and lends the path of its task until the next call with this slot. The run stays as it is.
/// Returns 7 if nothing is open, 9 if no fault has ended the run.
#[unsafe(no_mangle)]
pub extern "C" fn bsp_steps_fault<'a>(
    slot: &'a mut Slot,
    code: &mut u32,
    path: &mut &'a [u16],
) -> i32
    ensures { ReadsFault slot.old.handle.state code.old code.new path.old.now path.new.now result }
{
    let Some(state) = slot.look() else {
        return CLOSED;
    };
    match state.run.fault() {
        Some((number, found)) => {
            *code = number;
            *path = found;
            DONE
        }
        None => NONE,
    }
}

/// Tells a print by its place in the report, and lends the path of its task until the next call with this slot. The run stays as it is.
/// Returns 7 if nothing is open, 9 if there is no such print.
#[unsafe(no_mangle)]
pub extern "C" fn bsp_steps_print<'a>(
    slot: &'a mut Slot,
    place: usize,
    reported: &mut PrintReport,
    path: &mut &'a [u16],
) -> i32
    ensures { ReadsPrint slot.old.handle.state place reported.old reported.new path.old.now path.new.now result }
{
    let Some(state) = slot.look() else {
        return CLOSED;
    };
    match state.run.print(place) {
        Some((print, found)) => {
            *reported = print;
            *path = found;
            DONE
        }
        None => NONE,
    }
}

/// Tells a record by its place in the report. Returns 7 if nothing is open, 9 if there is no such record.
#[unsafe(no_mangle)]
pub extern "C" fn bsp_steps_record(
    slot: &mut Slot,
    place: usize,
    reported: &mut RecordReport,
) -> i32
    ensures { ReadsRecord slot.old.handle.state slot.new.handle.state place reported.old reported.new result }
{
    let Some(state) = slot.look() else {
        return CLOSED;
    };
    match state.run.records().get(place) {
        Some(found) => {
            *reported = RecordReport {
                phase: found.phase,
                parties: found.parties,
                left: found.left,
                spawned: found.spawned,
            };
            DONE
        }
        None => NONE,
    }
}

// Puts a text at the front of the caller's bytes if there is room for it, and returns the status.
fn give(text: &[u8], out: &mut [u8]) -> i32
    ensures { IsGiven text.now out.new (length text.now) result }
{
    if out.len() < text.len() {
        return SHORT;
    }
    let (front, _) = out.split_at_mut(text.len());
    front.copy_from_slice(text);
    DONE
}

/// Puts the text of the report of a run that is over into the caller's bytes. Returns 0; 6 if an allocation failed; 7 if nothing is
/// open; 10 if `out` is too short, and then its bytes are unspecified; 13 if the run isn't over. `bytes` is the length of the text.
#[unsafe(no_mangle)]
pub extern "C" fn bsp_steps_report(
    alloc: Global,
    slot: &mut Slot,
    out: &mut [u8],
    bytes: &mut usize,
) -> i32
    ensures { Reports slot.old.handle.state slot.new.handle.state out.new bytes.new result }
{
    *bytes = 0;
    if !slot.held {
        return CLOSED;
    }
    let state = slot.handle.get();
    match state.run.text(alloc) {
        Ok(Some(text)) => {
            *bytes = text.len();
            give(&text, out)
        }
        Ok(None) => GOING,
        Err(_) => NO_MEMORY,
    }
}
