//! A program on one thread.
ghost use Rattle.std.specs.Prelude.{◌≡◌, ◌≤◌, ◌^◌, ◌<◌, [], IfOk, map, length};
ghost use Rattle.programs.specs.History.{HasRun, HasRunTo};
ghost use Rattle.programs.specs.Meaning.{children};

use crate::program::TaskLoop;
use crate::steps::Steps;
use crate::watch::{NoWatch, Watch};
use phase_records::Report;
use std::alloc::{AllocError, Global};
use superstep_memory::arrays::Arrays;

/// What a run leaves.
#[derive(Drop)]
pub struct Ran<T> {
    /// Arrays, prints, records, and how it ended.
    pub report: Report,
    /// The tasks that still live, in path order, if the limit was reached. After a fault there are none.
    pub tasks: Vec<T>,
}

/// Runs a program that begins with these arrays and tasks, on one thread: each superstep's tasks one after another, by path. At
/// most `most` tasks may live at once, and at most `limit` supersteps are taken.
pub fn run_alone<P: TaskLoop>(
    alloc: Global,
    program: &P,
    arrays: Arrays,
    tasks: Vec<P::Task>,
    most: u32,
    limit: u32,
) -> Result<Ran<P::Task>, AllocError>
    requires ready { P.ready program.now }
    requires most { most < 2 ^ 31 }
    requires few { length tasks.items ≤ most }
    requires paths { map P.Task.path_of tasks.items ≡ children [] 0 (length tasks.items) }
    ensures { IfOk result (λ ran. let p = program.now in
        HasRun (record { frame = P.frame p; may = P.may p; most = most; arrays = arrays; tasks = map (P.meant p) tasks.items; limit = limit })
        ran.report (map (P.meant p) ran.tasks.items)) }
{
    let ran = run_watched(alloc, program, arrays, tasks, most, limit, &mut NoWatch)?;
    Ok(ran)
}

/// Runs a program as [`run_alone`] does. `watch` is called before each superstep, and may stop the run.
pub fn run_watched<P: TaskLoop, W: Watch>(
    alloc: Global,
    program: &P,
    arrays: Arrays,
    tasks: Vec<P::Task>,
    most: u32,
    limit: u32,
    watch: &mut W,
) -> Result<Ran<P::Task>, AllocError>
    requires ready { P.ready program.now }
    requires most { most < 2 ^ 31 }
    requires few { length tasks.items ≤ most }
    requires paths { map P.Task.path_of tasks.items ≡ children [] 0 (length tasks.items) }
    ensures { IfOk result (λ ran. let p = program.now in
        HasRunTo W.stops W.goes
        (record { frame = P.frame p; may = P.may p; most = most; arrays = arrays; tasks = map (P.meant p) tasks.items; limit = limit })
        ran.report (map (P.meant p) ran.tasks.items)) }
{
    let mut steps = Steps::new::<P>(alloc, arrays, tasks, most, limit);
    while steps.status().is_none() {
        if !steps.may_go_on(watch) {
            return Ok(steps.stop());
        }
        if steps.step(alloc, program).is_err() {
            return Err(AllocError);
        }
    }
    match steps.into_report() {
        Some(ran) => Ok(ran),
        None => unreachable!(),
    }
}
