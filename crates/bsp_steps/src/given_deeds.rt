//! The program of a superstep for which C gives what each live task left.
ghost use Rattle.std.specs.Prelude.{◌≡◌, ◌≤◌, ◌++◌, [], true, IfOk, OnOk, length, refl};
ghost use Rattle.std.specs.List.{list_all};
ghost use Rattle.superstep_memory.specs.Cells.{is_cell};
ghost use Rattle.superstep_memory.specs.Rows.{row_puts};
ghost use Rattle.programs.specs.Lent.{IsLeft};
ghost use Rattle.task_bodies.specs.Bodies.{member_frame, path_of, framed, refused};
ghost use Rattle.task_bodies.specs.Settled.{IsSettled};
ghost use Rattle.bsp_steps.specs.Given.{TaskValue, put_given, puts_given, written, left_by};
ghost use Rattle.bsp_steps.specs.Runs.{AsGiven};

use crate::given::{Deed, PutGiven};
use crate::task::Task;
use phase_records::Print;
use programs::blame::Blame;
use programs::deeds::Deeds;
use programs::in_place::{StepScene, do_range};
use programs::program::{Program, TaskLoop};
use programs::work::{SegmentEnd, Work};
use std::alloc::{AllocError, Global};
use superstep_memory::arrays::{Arrays, Put, PutKind};
use superstep_memory::puts::Puts;

/// The program of a superstep's tasks, which leave what was given for them, the deed at the place of each.
#[derive(Clone, Copy)]
pub struct GivenDeeds<'a> {
    /// What was given, a deed for each live task, in order.
    pub deeds: &'a [Deed<'a>],
}

// Returns a put as it was given.
#[inline(always)]
fn put_of(put: &PutGiven) -> Put
    ensures { result ≡ put_given put.now }
{
    let kind = if put.adds == 0 {
        PutKind::Set
    } else {
        PutKind::Add
    };
    Put {
        array: put.array,
        index: put.index,
        kind,
        value: put.value,
    }
}

// Returns true if this put and the seven after it set cells side by side, judging by the last of them.
#[inline(always)]
fn begins_row(put: &PutGiven, after: &[PutGiven]) -> bool
    ensures { result ≡ true → put.now.adds ≡ 0 }
{
    if put.adds != 0 {
        return false;
    }
    match after.get(6) {
        Some(last) => {
            last.adds == 0
                && last.array == put.array
                && u64::from(last.index) == u64::from(put.index) + 7
        }
        None => false,
    }
}

// Takes the values of puts as long as they set cells of a row, which begins with the cell `first`, goes on after these values, and
// exists. Returns the puts that are left.
fn take_row<'a>(
    arrays: &Arrays,
    array: u16,
    first: u32,
    given: &'a [PutGiven],
    values: &mut Vec<i64>,
) -> Result<&'a [PutGiven], AllocError>
    ensures row { IfOk result (λ rest. row_puts array first values.new.items ++ puts_given rest.now ≡ row_puts array first values.old.items ++ puts_given given.now) }
    ensures cells { IfOk result (λ _. list_all (is_cell arrays.now) (row_puts array first values.new.items) ≡ list_all (is_cell arrays.now) (row_puts array first values.old.items)) }
    ensures fewer { IfOk result (λ rest. length rest.now ≤ length given.now) }
{
    let mut rest = given;
    while let Some((next, after)) = rest.split_first() {
        let goes_on = u64::from(next.index) == u64::from(first) + values.len() as u64;
        if next.adds != 0 || next.array != array || !goes_on || !arrays.has_cell(put_of(next)) {
            break;
        }
        values.push(next.value)?;
        rest = after;
    }
    Ok(rest)
}

// Appends puts one by one, and returns whether the cell of each exists.
#[inline(always)]
fn put_some(arrays: &Arrays, given: &[PutGiven], puts: &mut Puts) -> Result<bool, AllocError>
    ensures all { IfOk result (λ all. all ≡ list_all (is_cell arrays.now) (puts_given given.now)) }
    ensures put { IfOk result (λ all. all ≡ true → puts.new ≡ puts.old ++ puts_given given.now) }
{
    for next in given {
        let put = put_of(next);
        if !arrays.has_cell(put) {
            return Ok(false);
        }
        puts.put(put)?;
    }
    Ok(true)
}

// Appends puts, and returns whether the cell of each exists. Puts to cells side by side become rows; it looks for a row at every
// eighth of other puts.
fn put_each(
    alloc: Global,
    arrays: &Arrays,
    given: &[PutGiven],
    puts: &mut Puts,
) -> Result<bool, AllocError>
    ensures all { IfOk result (λ all. all ≡ list_all (is_cell arrays.now) (puts_given given.now)) }
    ensures put { IfOk result (λ all. all ≡ true → puts.new ≡ puts.old ++ puts_given given.now) }
{
    let mut rest = given;
    while let Some((next, after)) = rest.split_first() {
        if begins_row(next, after) {
            if !arrays.has_cell(put_of(next)) {
                return Ok(false);
            }
            let mut values = puts.buffer(alloc);
            values.push(next.value)?;
            rest = take_row(arrays, next.array, next.index, after, &mut values)?;
            puts.put_row(next.array, next.index, values)?;
        } else {
            let count = if rest.len() < 8 { rest.len() } else { 8 };
            let (some, later) = rest.split_at(count);
            if !put_some(arrays, some, puts)? {
                return Ok(false);
            }
            rest = later;
        }
    }
    Ok(true)
}

// Appends what a deed says that its task printed.
fn print_all(deed: &Deed<'_>, prints: &mut Vec<i64>) -> Result<(), AllocError>
    ensures { OnOk result (prints.new.items ≡ prints.old.items ++ deed.now.prints.now) }
{
    prints.extend_from_slice(deed.prints)?;
    Ok(())
}

// Writes what a deed says that its task wrote, and returns how the task ends: so, or by a fault.
fn settle(
    alloc: Global,
    deed: &Deed<'_>,
    task: &mut Task,
    arrays: &Arrays,
    work: &mut Work<Task>,
    ended: SegmentEnd,
) -> Result<SegmentEnd, AllocError>
    requires none_printed { work.old.prints.items ≡ [] }
    requires none_spawned { work.old.spawns.items ≡ [] }
    ensures { IfOk result (λ e. let o = written deed.now task.old.kept.place in
        IsSettled (refused arrays.now task.old.path task.old.begun o.puts (length o.spawns)) task.old task.new o work.old work.new ended e) }
{
    if !put_each(alloc, arrays, deed.puts, &mut work.puts)? {
        return Ok(SegmentEnd::Fails(3));
    }
    if let Some(code) = task.refuse(deed.spawns) {
        return Ok(SegmentEnd::Fails(code));
    }
    print_all(deed, &mut work.prints)?;
    task.spawn(deed.spawns, &mut work.spawns)?;
    Ok(ended)
}

// Does what a deed says of a task.
fn act(
    alloc: Global,
    deed: &Deed<'_>,
    task: &mut Task,
    arrays: &Arrays,
    work: &mut Work<Task>,
) -> Result<SegmentEnd, AllocError>
    requires none_printed { work.old.prints.items ≡ [] }
    requires none_spawned { work.old.spawns.items ≡ [] }
    ensures { IfOk result (λ e. IsLeft (λ (t : TaskValue). t) path_of e task.old task.new work.old work.new (framed arrays.now task.old (left_by deed.now task.old.kept))) }
{
    if deed.ending == 0 {
        let place = task.origin().place;
        task.stay(place);
        return settle(alloc, deed, task, arrays, work, SegmentEnd::Stays);
    }
    if deed.ending == 1 {
        return settle(alloc, deed, task, arrays, work, SegmentEnd::Stops);
    }
    Ok(SegmentEnd::Fails(deed.ending))
}

impl<'a> Program for GivenDeeds<'a> {
    type Task = Task;

    ghost Meant = { TaskValue };

    ghost meant = { λ p t. t };

    ghost frame = { λ p. member_frame };

    ghost may = { λ p t arrays step g. AsGiven p.deeds.now t arrays step g };

    ghost ready = { λ p. Unit {0} };

    #[inline(always)]
    fn segment(
        &self,
        alloc: Global,
        task: &mut Task,
        arrays: &Arrays,
        _step: u32,
        work: &mut Work<Task>,
    ) -> Result<SegmentEnd, AllocError> {
        match self.deeds.get(task.origin().place) {
            Some(deed) => act(alloc, deed, task, arrays, work),
            None => Ok(SegmentEnd::Stops),
        }
    }

    ghost keeps_paths = { λ p t. refl };
}

impl<'a> TaskLoop for GivenDeeds<'a> {
    fn segments(
        &self,
        alloc: Global,
        arrays: &Arrays,
        step: u32,
        tasks: &mut Vec<Task>,
        first: usize,
        end: usize,
        work: &mut Work<Task>,
        deeds: &mut Deeds<Task>,
        prints: &mut Vec<Print>,
    ) -> Result<Option<Blame>, AllocError> {
        let scene = StepScene {
            program: self,
            arrays,
            step,
        };
        do_range(alloc, &scene, tasks, first, end, work, deeds, prints)
    }
}
