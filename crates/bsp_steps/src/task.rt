//! A live task, and the tasks that it spawns.
ghost use Rattle.std.specs.Prelude.{◌≡◌, ◌≤◌, ◌+◌, ◌++◌, [], None, IfOk, OnOk, length};
ghost use Rattle.task_bodies.specs.Bodies.{numbered, refused_spawns, went};
ghost use Rattle.bsp_steps.specs.Given.{all_spawned, placed_at, start_origins};

use crate::given::Origin;
use programs::blame::copy_path;
use programs::program::OnPath;
use smallvec::SmallVec;
use std::alloc::{AllocError, Global};
use std::marker::Model;
use superstep_memory::path::{Path, child_of};

/// A live task: its path, how many tasks it has spawned, and where it comes from.
#[derive(Drop)]
pub struct Task {
    path: Path,
    begun: u16,
    origin: Origin,
}

impl Model for Task {
    ghost use Rattle.std.specs.Prelude.{◌≤◌, length};
    ghost use Rattle.bsp_steps.specs.Given.{TaskValue};

    ghost Value = { TaskValue };

    ghost view = { λ t. record { path = t.path.items; begun = t.begun; kept = t.origin } };

    ghost invariant = { λ t. length t.path.items ≤ 8 };
}

impl OnPath for Task {
    ghost path_of = { λ t. t.path };

    fn path(&self) -> &Path {
        &self.path
    }
}

// Appends tasks that are spawned at this place. Their spawner has this path, and has spawned `begun` tasks before.
fn push_spawned(
    path: &Path,
    begun: u16,
    place: usize,
    count: u16,
    tasks: &mut Vec<Task>,
) -> Result<(), AllocError>
    requires deep { length path.now.items ≤ 7 }
    requires many { begun + count ≤ 65535 }
    ensures { OnOk result (tasks.new.items ≡ tasks.old.items ++ numbered path.now.items begun (all_spawned place 0 count)) }
{
    let mut number: u16 = 0;
    while number < count {
        tasks.push(Task {
            path: child_of(path, begun + number),
            begun: 0,
            origin: Origin {
                place,
                number,
                spawned: true,
            },
        })?;
        number += 1;
    }
    Ok(())
}

/// Creates `count` start tasks.
pub fn start_tasks(alloc: Global, count: u32) -> Result<Vec<Task>, AllocError>
    requires few { count ≤ 65535 }
    ensures { IfOk result (λ tasks. tasks.items ≡ numbered [] 0 (start_origins 0 count)) }
{
    let none = SmallVec::new(alloc);
    let mut tasks = Vec::new(alloc);
    let mut place: u32 = 0;
    while place < count {
        tasks.push(Task {
            path: child_of(&none, place as u16),
            begun: 0,
            origin: Origin {
                place: place as usize,
                number: 0,
                spawned: false,
            },
        })?;
        place += 1;
    }
    Ok(tasks)
}

impl Task {
    /// Returns where the task comes from.
    pub fn origin(&self) -> Origin
        ensures { result ≡ self.now.kept }
    {
        self.origin
    }

    /// Returns a copy of the task that has this place now. Doesn't allocate.
    pub fn placed(&self, place: usize) -> Task
        ensures { result ≡ placed_at place self.now }
    {
        Task {
            path: copy_path(&self.path),
            begun: self.begun,
            origin: Origin {
                place,
                number: 0,
                spawned: false,
            },
        }
    }

    /// Sets the place that the task has now.
    pub fn stay(&mut self, place: usize)
        ensures { self.new ≡ placed_at place self.old }
    {
        self.origin = Origin {
            place,
            number: 0,
            spawned: false,
        };
    }

    /// Returns why the task may not spawn `count` tasks, if it may not.
    pub fn refuse(&self, count: u16) -> Option<u8>
        ensures { result ≡ refused_spawns self.now.path self.now.begun count }
    {
        if count == 0 {
            return None;
        }
        if self.path.len() >= 8 {
            return Some(5);
        }
        if count > 65535 - self.begun {
            return Some(6);
        }
        None
    }

    /// Spawns `count` tasks, which follow those in `tasks`.
    pub fn spawn(&mut self, count: u16, tasks: &mut Vec<Task>) -> Result<(), AllocError>
        requires fits { refused_spawns self.old.path self.old.begun count ≡ None }
        ensures task { OnOk result (self.new ≡ went self.old count self.old.kept) }
        ensures spawned { OnOk result (tasks.new.items ≡ tasks.old.items ++ numbered self.old.path self.old.begun (all_spawned self.old.kept.place 0 count)) }
    {
        if count == 0 {
            return Ok(());
        }
        push_spawned(&self.path, self.begun, self.origin.place, count, tasks)?;
        self.begun += count;
        Ok(())
    }
}
