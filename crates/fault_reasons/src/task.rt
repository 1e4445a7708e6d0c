//! The text of a task's fault.
ghost use Rattle.std.specs.Prelude.{◌≡◌, ◌++◌, OnOk, IfOk, map, slice_get, string_bytes};
ghost use Rattle.std.specs.Option.{option_map, option_copied};
ghost use Rattle.task_code.specs.Reading.{IsMatched};
ghost use Rattle.task_lang.specs.Views.{setting};
ghost use Rattle.phase_records.specs.ReportText.{path_text};
ghost use Rattle.fault_reasons.specs.AgainSeen.{again_seen};
ghost use Rattle.fault_reasons.specs.Done.{Done};
ghost use Rattle.fault_reasons.specs.Found.{line_found};
ghost use Rattle.fault_reasons.specs.declared.walk.End.TheVariants.{Fault as FaultAt};
ghost use Rattle.fault_reasons.specs.Texts.{
  body_in,
  body_line,
  code_in,
  names_in,
  fault_at,
  fault_by,
  fault_name as fault_name_of,
  line_said,
  reads_on,
  setting_in,
  statement_said,
  fault_head,
  task_line,
  task_said,
  walk_of,
};

use crate::items::{Sight, push_reads};
use crate::lines::{Found, line_in_body, push_words};
use crate::names::push_body_name;
use crate::pieces::{push_field, push_number, push_text};
use crate::walk::{Doing, End, statement_at, walk};
use std::alloc::{AllocError, Global};
use superstep_memory::arrays::Arrays;
use task_code::code::Line;
use task_code::job::Job;
use task_code::operation::line_at;
use task_lang::fault::Fault;
use task_lang::scene::Scene;
use task_lang::task::Task;

/// A superstep that is looked at again: the text of the job, the job, and the arrays and the tasks with which the superstep of
/// this number begins.
#[derive(Clone, Copy)]
pub(crate) struct Superstep<'a> {
    pub(crate) text: &'a [u8],
    pub(crate) job: &'a Job,
    pub(crate) arrays: &'a Arrays,
    pub(crate) tasks: &'a [Task],
    pub(crate) step: u32,
}

// Returns the name of a fault.
fn fault_name(fault: Fault) -> &'static str
    ensures { result.now ≡ fault_name_of fault }
{
    match fault {
        Fault::Overflow => "Overflow",
        Fault::DivideByZero => "DivideByZero",
        Fault::Index => "Index",
        Fault::Budget => "Budget",
        Fault::Depth => "Depth",
        Fault::Spawns => "Spawns",
    }
}

// Returns what the segment of a task reads.
fn scene_of<'a>(at: Superstep<'a>, task: &'a Task) -> Scene<'a>
    ensures { setting result ≡ setting_in (again_seen at.entry) task.now }
{
    Scene {
        bodies: at.job.bodies(),
        arrays: at.arrays,
        path: &task.path,
        arg: task.arg,
        spawned: task.spawned,
        step: at.step,
    }
}

// Returns the lines of a task's body.
fn code_of<'a>(at: Superstep<'a>, task: &Task) -> &'a [Line]
    ensures matched { IsMatched result.now }
    ensures code { result.now ≡ code_in (again_seen at.entry) (body_in (again_seen at.entry) task.now) }
{
    match at.job.bodies().get(usize::from(task.body)) {
        Some(body) => body.code(),
        None => &[],
    }
}

/// Does a task's segment again. Returns how it ends, and what it did.
pub(crate) fn walk_task(
    alloc: Global,
    at: Superstep<'_>,
    task: &Task,
) -> Result<(End, Doing), AllocError>
    ensures { IfOk result (λ r. r ≡ walk_of (again_seen at.entry) task.now) }
{
    let mut doing = Doing {
        locals: Vec::from_slice(alloc, task.locals.as_slice())?,
        puts: Vec::new(alloc),
        spawned: 0,
    };
    let scene = scene_of(at, task);
    let end = walk(&scene, code_of(at, task), task.place, &mut doing)?;
    Ok((end, doing))
}

/// Appends the numbers of a path, with points between them.
pub(crate) fn push_path(out: &mut Vec<u8>, path: &[u16]) -> Result<(), AllocError>
    ensures { OnOk result (out.new.items ≡ out.old.items ++ path_text path.now) }
{
    let Some((first, rest)) = path.split_first() else {
        return Ok(());
    };
    push_number(out, *first)?;
    for number in rest {
        push_field(out, b".", *number)?;
    }
    Ok(())
}

// Appends a line of the text, if there is one: its number and its words.
fn push_line(out: &mut Vec<u8>, found: Option<Found<'_>>) -> Result<(), AllocError>
    ensures { OnOk result (out.new.items ≡ out.old.items ++ line_said (option_map line_found found.entry)) }
{
    let Some(found) = found else {
        return Ok(());
    };
    push_field(out, b"line ", found.number)?;
    push_text(out, b": ")?;
    push_words(out, found.line)
}

/// Appends the line of a body that comes `count` lines after its first one.
pub(crate) fn push_body_line(
    out: &mut Vec<u8>,
    at: Superstep<'_>,
    body: u16,
    count: usize,
) -> Result<(), AllocError>
    ensures { OnOk result (out.new.items ≡ out.old.items ++ body_line (again_seen at.entry) body count) }
{
    push_text(out, b"body ")?;
    push_body_name(out, at.job.bodies(), usize::from(body))?;
    push_text(out, b", ")?;
    push_line(out, line_in_body(at.text, usize::from(body), count))
}

// Returns the names of a task's locals.
fn names_of<'a>(at: Superstep<'a>, task: &Task) -> &'a [String]
    ensures { map string_bytes result.now ≡ names_in (again_seen at.entry) (body_in (again_seen at.entry) task.now) }
{
    match at.job.bodies().get(usize::from(task.body)) {
        Some(body) => body.locals(),
        None => &[],
    }
}

// Appends what a line of a task's body reads, with these values of its locals.
fn push_values(
    alloc: Global,
    out: &mut Vec<u8>,
    at: Superstep<'_>,
    task: &Task,
    line: Option<&Line>,
    locals: &[i64],
) -> Result<(), AllocError>
    ensures { OnOk result (out.new.items ≡ out.old.items ++ reads_on (again_seen at.entry) task.now locals.now (option_copied line.entry)) }
{
    let Some(line) = line else {
        return Ok(());
    };
    let scene = scene_of(at, task);
    let sight = Sight {
        scene: &scene,
        names: names_of(at, task),
        locals,
    };
    push_reads(alloc, out, sight, *line)
}

// Appends the statement whose line is at a place of a task's body, and what it reads.
fn push_statement(
    alloc: Global,
    out: &mut Vec<u8>,
    at: Superstep<'_>,
    task: &Task,
    place: usize,
    locals: &[i64],
) -> Result<(), AllocError>
    ensures { OnOk result (out.new.items ≡ out.old.items
        ++ statement_said (again_seen at.entry) task.now place (slice_get (code_in (again_seen at.entry) (body_in (again_seen at.entry) task.now)) place) locals.now) }
{
    let code = code_of(at, task);
    push_body_line(out, at, task.body, statement_at(code, place))?;
    push_values(alloc, out, at, task, line_at(code, place), locals)
}

/// Appends a task's path and its argument.
pub(crate) fn push_task(out: &mut Vec<u8>, task: &Task) -> Result<(), AllocError>
    ensures { OnOk result (out.new.items ≡ out.old.items ++ task_said task.now) }
{
    push_text(out, b"task ")?;
    push_path(out, &task.path)?;
    push_field(out, b", arg = ", task.arg)
}

// Appends the number and the name of a fault.
fn push_name(out: &mut Vec<u8>, fault: Fault) -> Result<(), AllocError>
    ensures { OnOk result (out.new.items ≡ out.old.items ++ fault_head fault) }
{
    push_field(out, b"fault ", fault.code())?;
    push_text(out, b" (")?;
    push_text(out, fault_name(fault).as_bytes())?;
    push_text(out, b") in ")
}

// Appends the line of a task.
fn push_task_line(out: &mut Vec<u8>, at: Superstep<'_>, task: &Task) -> Result<(), AllocError>
    ensures { OnOk result (out.new.items ≡ out.old.items ++ task_line (again_seen at.entry) task.now) }
{
    push_text(out, b"\n  ")?;
    push_task(out, task)?;
    push_field(out, b", in superstep ", at.step)?;
    push_text(out, b"\n")
}

// Appends why this task faulted, if it did.
fn push_end(
    alloc: Global,
    out: &mut Vec<u8>,
    at: Superstep<'_>,
    task: &Task,
) -> Result<(), AllocError>
    ensures { OnOk result (out.new.items ≡ out.old.items ++ fault_by (again_seen at.entry) task.now (walk_of (again_seen at.entry) task.now)) }
{
    let (end, doing) = walk_task(alloc, at, task)?;
    let End::Fault(fault, place) = end else {
        return Ok(());
    };
    push_name(out, fault)?;
    push_statement(alloc, out, at, task, place, &doing.locals)?;
    push_task_line(out, at, task)
}

/// Appends why the task of this path faulted in a superstep.
pub(crate) fn push_task_fault(
    alloc: Global,
    out: &mut Vec<u8>,
    at: Superstep<'_>,
    path: &[u16],
) -> Result<(), AllocError>
    ensures { OnOk result (out.new.items ≡ out.old.items ++ fault_at (again_seen at.entry) path.now (again_seen at.entry).tasks) }
{
    let rest = at.tasks;
    for task in rest {
        if task.path.as_slice() == path {
            return push_end(alloc, out, at, task);
        }
    }
    Ok(())
}
