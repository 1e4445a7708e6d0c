//! Runs of tasks with a body written in Rattle.
ghost use Rattle.std.specs.Prelude.{◌≡◌, ◌<◌, ◌↔◌, [], Some, true, false, IfOk, IfErr, length};
ghost use Rattle.task_bodies.specs.declared.run.BodiesFault.TheVariants.{TooMany as TooManyStart};
ghost use Rattle.programs.specs.History.{HasRun, HasRunTo, says_of, living_after};
ghost use Rattle.programs.specs.Supersteps.{report_of, so_far};
ghost use Rattle.task_bodies.specs.Bodies.{MemberValue, member_frame, member_setup, are_too_many, body_does, numbered};

use crate::body::{Exact, TaskBody};
use crate::member::{Member, starts};
use crate::native::Native;
use programs::alone::{Ran, run_watched};
use programs::watch::{NoWatch, Watch};
use std::alloc::{AllocError, AllocFailed, Global};
use superstep_memory::arrays::Arrays;
use thiserror::Error;

/// The error of a run that didn't start or didn't end.
#[derive(Debug, Drop, Error)]
pub enum BodiesFault {
    /// There are more start tasks than may live at once, or than 65535. Start fewer, and let these spawn the others.
    #[error("too many start tasks")]
    TooMany,
    /// Out of memory. Nothing is left of the run.
    #[error(transparent)]
    Memory(AllocError),
}

impl From<AllocError> for BodiesFault {
    ghost from_gives = { λ _ e. (e ≡ TooManyStart) → ⊥ };

    fn from(fault: AllocError) -> BodiesFault {
        BodiesFault::Memory(fault)
    }
}

impl<T: Drop> From<AllocFailed<T>> for BodiesFault {
    ghost from_gives = { λ _ e. (e ≡ TooManyStart) → ⊥ };

    fn from(_failed: AllocFailed<T>) -> BodiesFault {
        BodiesFault::Memory(AllocError)
    }
}

/// Runs `body` on one thread. Starts one task for each element of `tasks`, which is what the task keeps. In each superstep, the
/// tasks run one after another, in path order. At most `most` tasks may live at once, and the run takes at most `limit`
/// supersteps.
///
/// The report has the arrays, the prints, a record for each superstep, and how the run ended: all tasks stopped, the limit was
/// reached, or a fault, with the number of the fault, the superstep, and the path of the task. If the limit was reached, the tasks
/// that still live come back with what they keep.
pub fn run_bodies<B: TaskBody>(
    alloc: Global,
    body: &B,
    arrays: Arrays,
    tasks: Vec<B::Kept>,
    most: u32,
    limit: u32,
) -> Result<Ran<Member<B::Kept>>, BodiesFault>
    requires ready { B.ready body.now }
    requires most { most < 2147483648 }
    ensures ran { IfOk result (λ ran. HasRun (member_setup (B.may body.now) most arrays (numbered [] 0 tasks.items) limit) ran.report ran.tasks.items) }
    ensures few { IfOk result (λ ran. are_too_many most (length tasks.items) ≡ false) }
    ensures fault { IfErr result (λ e. (e ≡ TooManyStart) ↔ (are_too_many most (length tasks.items) ≡ true)) }
{
    let ran = run_bodies_watched(alloc, body, arrays, tasks, most, limit, &mut NoWatch)?;
    Ok(ran)
}

/// Runs tasks as [`run_bodies`] does. Calls `watch` before each superstep. `watch` can stop the run there, as a limit does, for
/// instance once the values no longer change, or it can only observe.
pub fn run_bodies_watched<B: TaskBody, W: Watch>(
    alloc: Global,
    body: &B,
    arrays: Arrays,
    tasks: Vec<B::Kept>,
    most: u32,
    limit: u32,
    watch: &mut W,
) -> Result<Ran<Member<B::Kept>>, BodiesFault>
    requires ready { B.ready body.now }
    requires most { most < 2147483648 }
    ensures ran { IfOk result (λ ran.
        HasRunTo W.stops W.goes (member_setup (B.may body.now) most arrays (numbered [] 0 tasks.items) limit) ran.report ran.tasks.items) }
    ensures few { IfOk result (λ ran. are_too_many most (length tasks.items) ≡ false) }
    ensures fault { IfErr result (λ e. (e ≡ TooManyStart) ↔ (are_too_many most (length tasks.items) ≡ true)) }
{
    if tasks.len() > 65535 || tasks.len() > most as usize {
        return Err(BodiesFault::TooMany);
    }
    let members = starts(alloc, tasks)?;
    let program = Native { body };
    let ran = run_watched(alloc, &program, arrays, members, most, limit, watch)?;
    Ok(ran)
}

/// Runs tasks as [`run_bodies`] does. The report is that of what the body does, superstep by superstep, and so are the tasks that
/// come back.
pub fn run_exactly<B: Exact>(
    alloc: Global,
    body: &B,
    arrays: Arrays,
    tasks: Vec<B::Kept>,
    most: u32,
    limit: u32,
) -> Result<Ran<Member<B::Kept>>, BodiesFault>
    requires ready { B.ready body.now }
    requires most { most < 2147483648 }
    ensures report { IfOk result (λ ran. report_of (says_of member_frame most (body_does (B.does body.now))) arrays (numbered [] 0 tasks.items) limit ≡ Some ran.report) }
    ensures living { IfOk result (λ ran. living_after ran.report.status (so_far (says_of member_frame most (body_does (B.does body.now))) arrays (numbered [] 0 tasks.items) limit limit).live ≡ ran.tasks.items) }
    ensures few { IfOk result (λ ran. are_too_many most (length tasks.items) ≡ false) }
    ensures fault { IfErr result (λ e. (e ≡ TooManyStart) ↔ (are_too_many most (length tasks.items) ≡ true)) }
{
    let ran = run_bodies(alloc, body, arrays, tasks, most, limit)?;
    Ok(ran)
}
