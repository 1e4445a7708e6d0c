//! Tasks that run a body.
ghost use Rattle.std.specs.Prelude.{◌≡◌, ◌≤◌, ◌<◌, ◌+◌, [], IfOk, length};
ghost use Rattle.task_bodies.specs.Bodies.{numbered};

use programs::program::OnPath;
use smallvec::SmallVec;
use std::alloc::{AllocError, Global};
use std::marker::Model;
use superstep_memory::path::{Path, child_of};

/// A task between two supersteps: its path, how many tasks it has spawned, and what it keeps.
#[derive(Drop)]
pub struct Member<K> {
    pub(crate) path: Path,
    pub(crate) begun: u16,
    pub(crate) kept: K,
}

impl<K> Model for Member<K> {
    ghost use Rattle.std.specs.Prelude.{◌≤◌, length};
    ghost use Rattle.task_bodies.specs.Bodies.{MemberValue};

    ghost Value = { MemberValue K };

    ghost view = { λ t. record { path = t.path.items; begun = t.begun; kept = t.kept } };

    ghost invariant = { λ t. length t.path.items ≤ 8 };
}

impl<K: Drop> OnPath for Member<K> {
    ghost path_of = { λ t. t.path };

    fn path(&self) -> &Path {
        &self.path
    }
}

impl<K: Drop> Member<K> {
    ghost use Rattle.std.specs.Prelude.{◌≡◌};

    /// Returns what it keeps.
    pub fn kept(&self) -> &K
        ensures { result.now ≡ self.now.kept }
    {
        &self.kept
    }
}

/// Numbers the tasks that a task spawns.
pub(crate) fn number<K: Drop>(
    path: &Path,
    begun: u16,
    spawns: &mut Vec<K>,
    out: &mut Vec<Member<K>>,
) -> Result<(), AllocError>
    requires deep { length path.now.items ≤ 7 }
    requires many { begun + length spawns.old.items ≤ 65535 }
    requires empty { out.old.items ≡ [] }
    ensures { IfOk result (λ _. out.new.items ≡ numbered path.now.items begun spawns.old.items) }
{
    spawns.reverse();
    let mut next = begun;
    while let Some(kept) = spawns.pop() {
        let own = child_of(path, next);
        out.push(Member {
            path: own,
            begun: 0,
            kept,
        })?;
        next += 1;
    }
    Ok(())
}

/// Creates the tasks that a run begins with, which keep this.
pub fn starts<K: Drop>(alloc: Global, kept: Vec<K>) -> Result<Vec<Member<K>>, AllocError>
    requires few { length kept.items ≤ 65535 }
    ensures tasks { IfOk result (λ tasks. tasks.items ≡ numbered [] 0 kept.items) }
{
    let path = SmallVec::new(alloc);
    let mut kept = kept;
    let mut tasks = Vec::new(alloc);
    number(&path, 0, &mut kept, &mut tasks)?;
    Ok(tasks)
}
