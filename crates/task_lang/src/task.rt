//! Tasks, and what their segments leave.
ghost use Rattle.std.specs.Prelude.{◌≡◌, ◌≤◌, IfOk, length};
ghost use Rattle.task_lang.specs.Meaning.{started, plan_at};
ghost use Rattle.task_lang.specs.Views.{plans, task_of};

use crate::fault::Fault;
use programs::program::OnPath;
use smallvec::SmallVec;
use std::alloc::{AllocError, Global};
use std::marker::Model;
use superstep_memory::path::Path;
use superstep_memory::puts::Puts;
use task_code::body::Body;

/// A task between two segments.
#[derive(Drop)]
pub struct Task {
    /// The numbers of the task and of those that spawned it, at most 8.
    pub path: Path,
    /// The place of its body in the job.
    pub body: u16,
    /// The line at which it goes on, from 0 to the number of lines.
    pub place: usize,
    /// The values of its locals.
    pub locals: Vec<i64>,
    /// Its argument.
    pub arg: i64,
    /// How many tasks it has spawned.
    pub spawned: u16,
}

impl Model for Task {
    ghost use Rattle.task_lang.specs.TaskValue.{TaskValue, IsTask};

    ghost Value = { TaskValue };

    ghost view = { λ t. record {
      path = t.path.items;
      body = t.body;
      place = t.place;
      locals = t.locals.items;
      arg = t.arg;
      spawned = t.spawned;
    } };

    ghost invariant = { λ t. IsTask t.path.items t.spawned };
}

impl OnPath for Task {
    ghost path_of = { λ t. t.path };

    #[inline(always)]
    fn path(&self) -> &Path {
        &self.path
    }
}

/// How a segment ends.
#[derive(Drop)]
pub enum After {
    /// At a `sync`, with the task as it goes on.
    Synced(Task),
    /// At a `stop`, or at the end of its body.
    Stopped,
    /// By a fault.
    Fault(Fault),
}

/// What a segment did: its puts, prints and spawns in program order, and how it ends.
#[derive(Drop)]
pub struct Segment {
    /// What is to be put into the arrays.
    pub puts: Puts,
    /// What was printed.
    pub prints: Vec<i64>,
    /// The tasks that begin in the next superstep.
    pub spawns: Vec<Task>,
    /// How it ends.
    pub after: After,
}

impl Model for Segment {
    ghost use Rattle.task_lang.specs.SegmentValue.{SegmentValue};

    ghost Value = { SegmentValue };

    ghost view = { λ s. record { puts = s.puts; prints = s.prints.items; spawns = s.spawns.items; after = s.after } };
}

impl Task {
    /// Creates a task at the beginning of the body at this place. If there is no such body, it has nothing to do.
    pub fn start(
        alloc: Global,
        bodies: &[Body],
        path: Path,
        body: u16,
        arg: i64,
    ) -> Result<Task, AllocError>
        requires { length path.items ≤ 8 }
        ensures { IfOk result (λ t. task_of (plans bodies.now) t ≡ started (plans bodies.now) path.items body arg) }
    {
        let count = local_count(bodies, body);
        let locals = Vec::from_elem(alloc, 0, count)?;
        Ok(Task {
            path,
            body,
            place: 0,
            locals,
            arg,
            spawned: 0,
        })
    }

    /// Copies the task.
    pub fn copy(&self, alloc: Global) -> Result<Task, AllocError>
        ensures { IfOk result (λ copy. copy ≡ self.now) }
    {
        let path = SmallVec::from_slice(alloc, self.path.as_slice())?;
        let locals = Vec::from_slice(alloc, self.locals.as_slice())?;
        Ok(Task {
            path,
            body: self.body,
            place: self.place,
            locals,
            arg: self.arg,
            spawned: self.spawned,
        })
    }
}

// Returns the number of locals of the body at this place.
fn local_count(bodies: &[Body], body: u16) -> usize
    ensures { result ≡ (plan_at (plans bodies.now) body).locals }
{
    match bodies.get(usize::from(body)) {
        Some(body) => body.locals().len(),
        None => 0,
    }
}
