//! Why a run ends by a fault.
ghost use Rattle.std.specs.Prelude.{◌≡◌, ◌≤◌, ◌++◌, [], OnOk, length, map};
ghost use Rattle.programs.specs.Superstep.{print_of};

use crate::program::OnPath;
use phase_records::{JobStatus, Print};
use smallvec::SmallVec;
use std::alloc::{AllocError, Global};
use std::marker::Model;
use superstep_memory::path::Path;

/// Why a run ended by a fault, and by which task.
#[derive(Drop)]
pub struct Blame {
    /// The number of the fault.
    pub code: u8,
    /// The path of the task; empty if no one task is to blame.
    pub path: Path,
}

impl Model for Blame {
    ghost use Rattle.std.specs.Prelude.{ℕ, List, ◌≤◌, length};

    ghost Value = { ℕ × List ℕ };

    ghost view = { λ b. (b.code, b.path.items) };

    ghost invariant = { λ b. length b.path.items ≤ 8 };
}

impl Blame {
    ghost use Rattle.std.specs.Prelude.{◌≡◌};
    ghost use Rattle.phase_records.specs.StatusSeen.{status_seen};
    ghost use Rattle.phase_records.specs.Status.{Fault, IsShort};

    /// Returns the status of a run that this fault ended in superstep `step`.
    pub fn status(&self, step: u32) -> JobStatus
        ensures status { status_seen result ≡ Fault self.now.0 step self.now.1 }
        ensures short { IsShort (status_seen result) }
    {
        JobStatus::Fault {
            code: self.code,
            step,
            path: copy_path(&self.path),
        }
    }
}

/// Copies this path. Doesn't allocate.
pub fn copy_path(path: &Path) -> Path
    requires { length path.now.items ≤ 8 }
    ensures { result.items ≡ path.now.items }
{
    match SmallVec::from_slice(*path.allocator(), path.as_slice()) {
        Ok(copy) => copy,
        Err(_) => unreachable!(),
    }
}

/// Copies the path of a task. Doesn't allocate.
pub fn task_path<T: OnPath>(task: &T) -> Path
    ensures path { result.items ≡ T.path_of task.now }
    ensures short { length result.items ≤ 8 }
{
    copy_path(task.path())
}

/// Returns the fault of too many live tasks.
pub fn too_many(alloc: Global) -> Blame
    ensures { result ≡ (7, []) }
{
    Blame {
        code: 7,
        path: SmallVec::new(alloc),
    }
}

/// Returns the fault of a put of this task that overflows.
pub fn overflowed<T: OnPath>(task: &T) -> Blame
    ensures { result ≡ (8, T.path_of task.now) }
{
    Blame {
        code: 8,
        path: task_path(task),
    }
}

/// Appends prints of a task.
pub fn push_prints<T: OnPath>(
    prints: &mut Vec<Print>,
    step: u32,
    task: &T,
    values: &[i64],
) -> Result<(), AllocError>
    ensures { OnOk result (prints.new.items ≡ prints.old.items ++ map (print_of step (T.path_of task.now)) values.now) }
{
    for value in values {
        prints.push(Print {
            step,
            path: task_path(task),
            value: *value,
        })?;
    }
    Ok(())
}
