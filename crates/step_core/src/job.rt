//! A job of the task language as a program.
ghost use Rattle.std.specs.Prelude.{◌≡◌, ◌≤◌, [], IfOk, length, map, refl};
ghost use Rattle.programs.specs.Meaning.{children};
ghost use Rattle.step_core.specs.SlotParts.{path_in};
ghost use Rattle.task_lang.specs.Meaning as job;
ghost use Rattle.task_lang.specs.Views.{plans, task_of};
ghost use Rattle.step_core.specs.JobMeaning.{start_tasks};
ghost use Rattle.step_core.specs.Superstep.{job_frame};
ghost use Rattle.step_core.specs.JobTasks.{JobMay};

use phase_records::Print;
use programs::blame::Blame;
use programs::deeds::Deeds;
use programs::in_place::{StepScene, do_range};
use programs::program::{Program, TaskLoop};
use programs::work::{SegmentEnd, Work};
use smallvec::SmallVec;
use std::alloc::{AllocError, Global};
use superstep_memory::arrays::Arrays;
use task_code::body::Body;
use task_code::job::{Job, Start};
use task_lang::scene;
use task_lang::segment::segment_into;
use task_lang::task::Task;

/// A job as a program.
#[derive(Clone, Copy)]
pub struct JobProgram<'j> {
    /// The job.
    pub job: &'j Job,
}

impl<'j> Program for JobProgram<'j> {
    type Task = Task;

    ghost Meant = { job.Task };

    ghost meant = { λ p t. task_of (plans p.job.now.bodies) t };

    ghost frame = { λ p. job_frame };

    ghost may = { λ p t arrays step g. JobMay (plans p.job.now.bodies) t arrays step g };

    ghost ready = { λ p. Unit {0} };

    #[inline(always)]
    fn segment(
        &self,
        alloc: Global,
        task: &mut Task,
        arrays: &Arrays,
        step: u32,
        work: &mut Work<Task>,
    ) -> Result<SegmentEnd, AllocError> {
        match segment_into(alloc, self.job, task, arrays, step, work)? {
            scene::CodeEnd::Synced(_) => Ok(SegmentEnd::Stays),
            scene::CodeEnd::Stopped => Ok(SegmentEnd::Stops),
            scene::CodeEnd::Fault(fault) => Ok(SegmentEnd::Fails(fault.code())),
        }
    }

    ghost keeps_paths = { λ p t. refl };
}

impl<'j> TaskLoop for JobProgram<'j> {
    // Not generic, so that all engines call one copy, in which the loop over operations is inlined: no task is a call.
    #[inline(never)]
    fn segments(
        &self,
        alloc: Global,
        arrays: &Arrays,
        step: u32,
        tasks: &mut Vec<Task>,
        first: usize,
        end: usize,
        work: &mut Work<Task>,
        deeds: &mut Deeds<Task>,
        prints: &mut Vec<Print>,
    ) -> Result<Option<Blame>, AllocError> {
        let scene = StepScene {
            program: self,
            arrays,
            step,
        };
        do_range(alloc, &scene, tasks, first, end, work, deeds, prints)
    }
}

/// Creates the tasks of the start lines.
pub fn start_all(alloc: Global, bodies: &[Body], starts: &[Start]) -> Result<Vec<Task>, AllocError>
    requires { length starts.now ≤ 4096 }
    ensures { IfOk result (λ tasks. map (task_of (plans bodies.now)) tasks.items ≡ start_tasks (plans bodies.now) 0 starts.now) }
{
    let mut tasks = Vec::new(alloc);
    let mut number: u16 = 0;
    let mut rest = starts;
    while let Some((start, after)) = rest.split_first() {
        let path = SmallVec::from_slice(alloc, &[number])?;
        let task = Task::start(alloc, bodies, path, start.body, start.arg)?;
        tasks.push(task)?;
        number += 1;
        rest = after;
    }
    Ok(tasks)
}

/// How many tasks of a job may live at once.
pub const MOST_TASKS: u32 = 4096;

/// What a run of a job begins with.
#[derive(Drop)]
pub struct Beginning {
    /// The arrays.
    pub arrays: Arrays,
    /// The tasks of the start lines.
    pub tasks: Vec<Task>,
}

/// Returns the arrays and tasks with which a run of this job begins.
pub fn begin(alloc: Global, job: &Job) -> Result<Beginning, AllocError>
    ensures arrays { IfOk result (λ b. b.arrays ≡ job.now.arrays) }
    ensures tasks { IfOk result (λ b. map (task_of (plans job.now.bodies)) b.tasks.items ≡ start_tasks (plans job.now.bodies) 0 job.now.starts) }
    ensures few { IfOk result (λ b. length b.tasks.items ≤ 4096) }
    ensures paths { IfOk result (λ b. map path_in b.tasks.items ≡ children [] 0 (length b.tasks.items)) }
{
    let arrays = job.arrays().copy(alloc)?;
    let tasks = start_all(alloc, job.bodies(), job.starts())?;
    Ok(Beginning { arrays, tasks })
}
