//! What live tasks do in a superstep, each in its place.
ghost use Rattle.std.specs.Prelude.{◌≡◌, ◌≤◌, ◌+◌, ◌++◌, ◌∷◌, [], None, IfOk, OnOk, length, map};
ghost use Rattle.std.specs.Option.{option_map};
ghost use Rattle.programs.specs.Superstep.{print_of};
ghost use Rattle.programs.specs.InPlace.{at_path};
ghost use Rattle.programs.specs.Lent.{HasLeft};
ghost use Rattle.programs.specs.Done.{HasDoneOne, HasDoneRange, HasDoneAll};

use crate::blame::{Blame, push_prints, task_path};
use crate::deeds::Deeds;
use crate::program::{OnPath, Program, TaskLoop};
use crate::work::{SegmentEnd, Work};
use phase_records::Print;
use std::alloc::{AllocError, Global};
use superstep_memory::arrays::Arrays;

/// What all tasks read in a superstep: the program, the arrays as it began, and the step.
#[derive(Clone, Copy)]
pub struct StepScene<'a, P> {
    /// The program.
    pub program: &'a P,
    /// The arrays as the superstep began.
    pub arrays: &'a Arrays,
    /// The superstep, from 0.
    pub step: u32,
}

// Does the task's segment: its puts follow those in the log, its prints and spawns are in their buffers, and the task itself goes
// on unless it stopped. After a fault the task means nothing but its path.
#[inline(always)]
fn do_task<P: Program>(
    alloc: Global,
    scene: &StepScene<'_, P>,
    task: &mut P::Task,
    work: &mut Work<P::Task>,
) -> Result<SegmentEnd, AllocError>
    requires ready { P.ready scene.now.program.now }
    requires none_printed { work.old.prints.items ≡ [] }
    requires none_spawned { work.old.spawns.items ≡ [] }
    ensures { IfOk result (λ e. let p = scene.now.program.now in
        HasLeft (P.frame p) (P.may p) (P.meant p) P.Task.path_of scene.now.arrays.now scene.now.step e task.old task.new work.old work.new) }
{
    scene
        .program
        .segment(alloc, task, scene.arrays, scene.step, work)
}

// Keeps what a task did: its prints after those of others, and its deed. The buffers are empty then.
#[inline(always)]
fn keep<T: OnPath>(
    step: u32,
    task: &T,
    synced: bool,
    puts: usize,
    work: &mut Work<T>,
    deeds: &mut Deeds<T>,
    prints: &mut Vec<Print>,
) -> Result<(), AllocError>
    ensures prints { OnOk result (prints.new.items ≡ prints.old.items ++ map (print_of step (T.path_of task.now)) work.old.prints.items) }
    ensures deeds { OnOk result (deeds.new ≡ deeds.old ++ record { synced = synced; puts = puts; spawns = work.old.spawns.items } ∷ []) }
    ensures log { OnOk result (work.new.puts ≡ work.old.puts) }
    ensures emptied { OnOk result ((work.new.prints.items ≡ []) × (work.new.spawns.items ≡ [])) }
{
    if !work.prints.is_empty() {
        push_prints(prints, step, task, &work.prints)?;
        work.prints.clear();
    }
    deeds.push(synced, puts, &mut work.spawns)
}

// Returns how many puts a task has made: those that the log holds beyond what was noted. Notes how many it holds.
#[inline(always)]
fn made<T>(work: &Work<T>, logged: &mut usize) -> usize
    requires more { logged.old ≤ length work.now.puts }
    ensures made { result + logged.old ≡ length work.now.puts }
    ensures logged { logged.new ≡ length work.now.puts }
{
    let before = *logged;
    *logged = work.puts.len();
    *logged - before
}

// Does the segment of a task, which goes on in its place, and keeps what it did after what others did: its puts in `work`, its
// prints and its deed; the buffers are empty again. `logged` is the number of puts in `work`, before and after. Or returns the
// code of its fault; then nothing was printed, and what else `work`, the deeds and the task hold means nothing, except the
// task's path.
#[inline(always)]
fn do_one<P: Program>(
    alloc: Global,
    scene: &StepScene<'_, P>,
    task: &mut P::Task,
    logged: &mut usize,
    work: &mut Work<P::Task>,
    deeds: &mut Deeds<P::Task>,
    prints: &mut Vec<Print>,
) -> Result<Option<u8>, AllocError>
    requires ready { P.ready scene.now.program.now }
    requires logged { logged.old ≡ length work.old.puts }
    requires none_printed { work.old.prints.items ≡ [] }
    requires none_spawned { work.old.spawns.items ≡ [] }
    ensures reported { IfOk result (λ fault. let p = scene.now.program.now in
        HasDoneOne (P.frame p) (P.may p) (P.meant p) P.Task.path_of scene.now.arrays.now scene.now.step (option_map (at_path (P.Task.path_of task.new)) fault) task.old task.new
        work.old.puts work.new.puts deeds.old deeds.new prints.old.items prints.new.items) }
    ensures emptied { IfOk result (λ fault. fault ≡ None → (work.new.prints.items ≡ []) × (work.new.spawns.items ≡ [])) }
    ensures logged { IfOk result (λ fault. fault ≡ None → logged.new ≡ length work.new.puts) }
{
    match do_task(alloc, scene, task, work)? {
        SegmentEnd::Stays => {
            let puts = made(work, logged);
            keep(scene.step, task, true, puts, work, deeds, prints)?;
            Ok(None)
        }
        SegmentEnd::Stops => {
            let puts = made(work, logged);
            keep(scene.step, task, false, puts, work, deeds, prints)?;
            Ok(None)
        }
        SegmentEnd::Fails(code) => Ok(Some(code)),
    }
}

/// Does the segments of the tasks from one place to another, one after another, each in its place; what they did follows
/// what others did. Or returns the first fault; then what `work`, the deeds and the tasks hold means nothing, and what was
/// printed before stays.
#[inline(never)]
pub fn do_range<P: Program>(
    alloc: Global,
    scene: &StepScene<'_, P>,
    tasks: &mut Vec<P::Task>,
    first: usize,
    end: usize,
    work: &mut Work<P::Task>,
    deeds: &mut Deeds<P::Task>,
    prints: &mut Vec<Print>,
) -> Result<Option<Blame>, AllocError>
    requires ready { P.ready scene.now.program.now }
    requires rises { first ≤ end }
    requires within { end ≤ length tasks.old.items }
    ensures done { IfOk result (λ fault. let p = scene.now.program.now in
        HasDoneRange (P.frame p) (P.may p) (P.meant p) P.Task.path_of scene.now.arrays.now scene.now.step fault first end
        work.old.puts work.new.puts tasks.old.items tasks.new.items deeds.old deeds.new prints.old.items prints.new.items) }
    ensures count { IfOk result (λ _. length tasks.new.items ≡ length tasks.old.items) }
{
    work.prints.clear();
    work.spawns.clear();
    // A copy, which stays in registers or on the stack while tasks change.
    let own = StepScene {
        program: scene.program,
        arrays: scene.arrays,
        step: scene.step,
    };
    let mut place = first;
    let mut logged = work.puts.len();
    while place < end {
        let task = &mut tasks[place];
        let reported = do_one(alloc, &own, task, &mut logged, work, deeds, prints)?;
        match reported {
            Some(code) => {
                let path = task_path(task);
                return Ok(Some(Blame { code, path }));
            }
            None => place += 1,
        }
    }
    Ok(None)
}

/// Does the segments of tasks, one after another: all their puts are in one log then. Or returns the first fault.
#[tactic(auto, using(crate::proofs::Ranged::all_done))]
pub fn do_all<P: TaskLoop>(
    alloc: Global,
    scene: &StepScene<'_, P>,
    tasks: &mut Vec<P::Task>,
    work: &mut Work<P::Task>,
    deeds: &mut Deeds<P::Task>,
    prints: &mut Vec<Print>,
) -> Result<Option<Blame>, AllocError>
    requires ready { P.ready scene.now.program.now }
    requires none_put { work.old.puts ≡ [] }
    requires none_done { deeds.old ≡ [] }
    ensures { IfOk result (λ fault. let p = scene.now.program.now in
        HasDoneAll (P.frame p) (P.may p) (P.meant p) P.Task.path_of scene.now.arrays.now scene.now.step
        fault work.new.puts tasks.old.items tasks.new.items deeds.new prints.old.items prints.new.items) }
{
    let end = tasks.len();
    let reported = scene.program.segments(
        alloc,
        scene.arrays,
        scene.step,
        tasks,
        0,
        end,
        work,
        deeds,
        prints,
    )?;
    Ok(reported)
}
