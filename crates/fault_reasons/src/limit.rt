//! The text of a job that reached its limit.
ghost use Rattle.std.specs.Prelude.{◌≡◌, ◌++◌, OnOk, length};
ghost use Rattle.fault_reasons.specs.AgainSeen.{again_seen};
ghost use Rattle.fault_reasons.specs.Texts.{limit_text, more_said, supersteps_said as supersteps_said_of, waiting, waits};

use crate::pieces::{push_field, push_text};
use crate::task::{Superstep, push_body_line, push_task};
use std::alloc::AllocError;
use task_lang::task::Task;

// How many tasks are shown.
const SHOWN: usize = 5;

// Appends where a task waits: at the line after which it goes on.
fn push_waits(out: &mut Vec<u8>, at: Superstep<'_>, task: &Task) -> Result<(), AllocError>
    ensures { OnOk result (out.new.items ≡ out.old.items ++ waits (again_seen at.entry) task.now) }
{
    push_text(out, b"  ")?;
    push_task(out, task)?;
    push_text(out, b", in ")?;
    push_body_line(out, at, task.body, task.place)?;
    push_text(out, b"\n")
}

// Appends how many tasks aren't shown.
fn push_more(out: &mut Vec<u8>, tasks: &[Task]) -> Result<(), AllocError>
    ensures { OnOk result (out.new.items ≡ out.old.items ++ more_said (length tasks.now)) }
{
    push_field(out, b"  and ", tasks.len())?;
    push_text(out, b" more\n")
}

// Appends where the first tasks wait, and how many others there are.
fn push_waiting(out: &mut Vec<u8>, at: Superstep<'_>) -> Result<(), AllocError>
    ensures { OnOk result (out.new.items ≡ out.old.items ++ waiting (again_seen at.entry) 5 (again_seen at.entry).tasks) }
{
    let mut left = SHOWN;
    let mut rest = at.tasks;
    while let Some((task, after)) = rest.split_first() {
        if left == 0 {
            return push_more(out, rest);
        }
        push_waits(out, at, task)?;
        left -= 1;
        rest = after;
    }
    Ok(())
}

// Returns the word for this many supersteps.
fn supersteps_said(count: u32) -> &'static [u8]
    ensures { result.now ≡ supersteps_said_of count }
{
    if count == 1 {
        b" superstep"
    } else {
        b" supersteps"
    }
}

/// Appends how many tasks live at the limit, and where the first of them wait.
pub(crate) fn push_limit(out: &mut Vec<u8>, at: Superstep<'_>) -> Result<(), AllocError>
    ensures { OnOk result (out.new.items ≡ out.old.items ++ limit_text (again_seen at.entry)) }
{
    push_field(out, b"limit of ", at.step)?;
    push_text(out, supersteps_said(at.step))?;
    push_field(out, b" reached, live tasks: ", at.tasks.len())?;
    push_text(out, b"\n")?;
    push_waiting(out, at)
}
