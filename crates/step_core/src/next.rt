//! The next live tasks, in path order.
ghost use Rattle.std.specs.Prelude.{◌≡◌, ◌≤◌, ◌+◌, ◌++◌, [], OnOk, map, length, reverse};
ghost use Rattle.std.specs.Vec.{vec_len, vec_capacity};
ghost use Rattle.superstep_memory.specs.PathOrder.{put_all, in_path_order};
ghost use Rattle.step_core.specs.SlotParts.{AllSmall, path_in, living_of, living_in, living_by, no_segment};

use crate::slot::Slots;
use programs::next::put_task;
use std::alloc::AllocError;
use task_lang::task::{After, Segment, Task};

/// Returns the number of tasks that live on.
pub fn count_living(slots: &Slots<'_>) -> usize
    requires few { length slots.now ≤ 4096 }
    requires small { AllSmall slots.now }
    ensures { result ≡ length (living_in slots.now) }
{
    let mut count = 0;
    let mut rest = slots.again();
    while let Some((slot, after)) = rest.split_first() {
        count += slot.count_living();
        rest = after;
    }
    count
}

// The next live tasks are collected with the last by path first. Tasks come from the last slot to the first, so that
// each passes only those that its path begins. They are moved into existing room.

/// Puts tasks in their places among those that live on, the last by path first. Doesn't allocate.
pub fn put_tasks(living: &mut Vec<Task>, tasks: Vec<Task>)
    requires capacity { vec_len living.old + length tasks.items ≤ vec_capacity living.old }
    ensures items { living.new.items ≡ reverse (put_all path_in tasks.items (reverse living.old.items)) }
    ensures more { vec_len living.new ≡ vec_len living.old + length tasks.items }
    ensures capacity { vec_capacity living.new ≡ vec_capacity living.old }
{
    let mut rest = tasks;
    while let Some(task) = rest.pop() {
        put_task(living, task);
    }
}

// Puts the tasks that live on after what was delivered for a task in their places.
fn put_done(living: &mut Vec<Task>, done: Option<Segment>)
    requires capacity { vec_len living.old + length (living_of done) ≤ vec_capacity living.old }
    ensures items { living.new.items ≡ reverse (put_all path_in (living_of done) (reverse living.old.items)) }
    ensures more { vec_len living.new ≡ vec_len living.old + length (living_of done) }
    ensures capacity { vec_capacity living.new ≡ vec_capacity living.old }
{
    let Some(segment) = done else {
        return;
    };
    let Segment {
        puts: _,
        prints: _,
        spawns,
        after,
    } = segment;
    put_tasks(living, spawns);
    if let After::Synced(task) = after {
        put_task(living, task);
    }
}

// Collects the tasks that live on, the last by path first.
fn collect_living(done: &mut Vec<Option<Segment>>, living: &mut Vec<Task>)
    requires none_yet { living.old.items ≡ [] }
    requires capacity { length (living_by done.old.items) ≤ vec_capacity living.old }
    ensures living { living.new.items ≡ reverse (in_path_order path_in (living_by done.old.items)) }
    ensures done { done.new.items ≡ [] }
    ensures capacity { vec_capacity done.new ≡ vec_capacity done.old }
{
    while let Some(one) = done.pop() {
        put_done(living, one);
    }
}

/// Empties `living`, and makes room for `count` items in both.
pub(crate) fn make_room(
    living: &mut Vec<Task>,
    done: &mut Vec<Option<Segment>>,
    count: usize,
) -> Result<(), AllocError>
    ensures tasks { OnOk result ((living.new.items ≡ []) × (count ≤ vec_capacity living.new)) }
    ensures places { OnOk result (count ≤ vec_capacity done.new) }
    ensures same { done.new.items ≡ done.old.items }
{
    living.clear();
    living.reserve(count)?;
    done.reserve(count.saturating_sub(done.len()))?;
    Ok(())
}

/// Notes that nothing was delivered for these tasks.
pub(crate) fn set_undone(done: &mut Vec<Option<Segment>>, tasks: &[Task])
    requires none_yet { done.old.items ≡ [] }
    requires capacity { length tasks.now ≤ vec_capacity done.old }
    ensures { done.new.items ≡ map no_segment tasks.now }
{
    let mut rest = tasks;
    while let Some((_, after)) = rest.split_first() {
        done.push_reserved(None);
        rest = after;
    }
}

/// Puts the next live tasks into a list, with nothing delivered for them. Doesn't allocate: there is room in the other two.
pub(crate) fn list_next(
    done: &mut Vec<Option<Segment>>,
    living: &mut Vec<Task>,
    list: &mut Vec<Task>,
)
    requires none_yet { living.old.items ≡ [] }
    requires capacity { length (living_by done.old.items) ≤ vec_capacity living.old }
    requires places { length (living_by done.old.items) ≤ vec_capacity done.old }
    ensures tasks { list.new.items ≡ in_path_order path_in (living_by done.old.items) }
    ensures none { done.new.items ≡ map no_segment list.new.items }
{
    collect_living(done, living);
    living.reverse();
    set_undone(done, living);
    std::mem::swap(living, list);
}
