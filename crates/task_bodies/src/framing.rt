//! How what a body wrote joins what others wrote.
ghost use Rattle.std.specs.Prelude.{◌≡◌, ◌++◌, [], None, Some, ℕ, List, IfOk, OnOk, length};
ghost use Rattle.task_bodies.specs.Bodies.{nothing, refused, refused_spawns};
ghost use Rattle.task_bodies.specs.Settled.{HasJoined, IsSettled};

use crate::body::Out;
use crate::member::{Member, number};
use programs::work::{SegmentEnd, Work};
use std::alloc::{AllocError, Global};
use std::mem;
use superstep_memory::arrays::Arrays;
use superstep_memory::puts::Puts;

/// Returns empty buffers for a body, with the memory that earlier ones had.
#[inline(always)]
pub(crate) fn open<K: Drop>(alloc: Global, work: &mut Work<Member<K>>) -> Out<K>
    requires { work.old.prints.items ≡ [] }
    ensures empty { result ≡ nothing }
    ensures puts { work.new.puts ≡ work.old.puts }
    ensures spawns { work.new.spawns.items ≡ work.old.spawns.items }
{
    let mut puts = mem::replace(&mut work.own, Puts::new(alloc));
    puts.clear();
    puts.swap_buffer(&mut work.puts);
    let prints = mem::replace(&mut work.prints, Vec::new(alloc));
    Out {
        puts,
        prints,
        spawns: Vec::new(alloc),
    }
}

// Returns why `count` tasks may not be spawned, if they may not.
fn refuse_spawns(path: usize, begun: u16, count: usize) -> Option<u8>
    ensures { (p : List ℕ) → length p ≡ path → result ≡ refused_spawns p begun count }
{
    if count == 0 {
        return None;
    }
    if path >= 8 {
        return Some(5);
    }
    if count > 65535 - begun as usize {
        return Some(6);
    }
    None
}

// Returns why what a body wrote is a fault, if it is one.
fn refuse<K: Drop>(task: &Member<K>, arrays: &Arrays, out: &Out<K>) -> Option<u8>
    ensures { result ≡ refused arrays.now task.now.path task.now.begun out.now.puts (length out.now.spawns) }
{
    if !out.puts.are_in(arrays) {
        return Some(3);
    }
    refuse_spawns(task.path.len(), task.begun, out.spawns.len())
}

// Joins what a body wrote, which is no fault, to what others wrote.
#[inline(always)]
fn join<K: Drop>(
    task: &mut Member<K>,
    out: Out<K>,
    work: &mut Work<Member<K>>,
) -> Result<(), AllocError>
    requires none { work.old.spawns.items ≡ [] }
    requires fits { refused_spawns task.old.path task.old.begun (length out.spawns) ≡ None }
    ensures { OnOk result (HasJoined task.old task.new out work.old work.new) }
{
    let Out {
        mut puts,
        prints,
        mut spawns,
    } = out;
    if !spawns.is_empty() {
        let count = spawns.len() as u16;
        number(&task.path, task.begun, &mut spawns, &mut work.spawns)?;
        task.begun += count;
    }
    puts.swap_buffer(&mut work.puts);
    work.puts.append(&mut puts)?;
    work.own = puts;
    work.prints = prints;
    Ok(())
}

/// Joins what a body wrote to what others wrote, and returns how its task ends: so, or by a fault.
#[inline(always)]
pub(crate) fn settle<K: Drop>(
    task: &mut Member<K>,
    arrays: &Arrays,
    out: Out<K>,
    work: &mut Work<Member<K>>,
    ended: SegmentEnd,
) -> Result<SegmentEnd, AllocError>
    requires { work.old.spawns.items ≡ [] }
    ensures { IfOk result (λ e. IsSettled (refused arrays.now task.old.path task.old.begun out.puts (length out.spawns)) task.old task.new out work.old work.new ended e) }
{
    match refuse(task, arrays, &out) {
        Some(code) => Ok(SegmentEnd::Fails(code)),
        None => {
            join(task, out, work)?;
            Ok(ended)
        }
    }
}
