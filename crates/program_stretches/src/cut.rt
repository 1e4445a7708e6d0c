//! Live tasks cut into stretches.
ghost use Rattle.std.specs.Prelude.{◌≡◌, ◌≤◌, ◌<◌, ◌+◌, ◌^◌, ◌++◌, [], length, reverse};
ghost use Rattle.std.specs.Vec.{vec_len, vec_capacity};
ghost use Rattle.program_stretches.specs.Parts.{AreFresh, fresh_part, tasks_in};

use crate::part::Part;
use programs::program::OnPath;
use std::alloc::Global;
use superstep_memory::path::Path;

// The most tasks of a stretch.
const MOST_TASKS: usize = 512;

// With fewer tasks than this, a stretch costs more than it helps to share out the work.
const FEW_TASKS: usize = 16;

// Returns into how many stretches `count` tasks are cut, if about `pieces` are wanted: into half as many, if each had few tasks.
fn number_for(count: usize, pieces: usize) -> usize
    requires { 1 ≤ pieces }
    ensures { 1 ≤ result }
{
    let wanted = if count / pieces < FEW_TASKS {
        pieces / 2
    } else {
        pieces
    };
    wanted.max(count.div_ceil(MOST_TASKS)).min(count).max(1)
}

/// Returns how many tasks each of about `pieces` stretches has at most.
pub(crate) fn size_for(count: usize, pieces: usize) -> usize
    requires { 1 ≤ pieces }
    ensures { 1 ≤ result }
{
    (count.saturating_sub(1) / number_for(count, pieces)).min(MOST_TASKS - 1) + 1
}

/// Returns into how many stretches of at least this size a list of tasks can be cut, but at least 1.
pub(crate) fn number_in<T>(tasks: &[T], size: usize) -> usize
    requires { 1 ≤ size }
    ensures { 1 ≤ result }
{
    (tasks.len() / size).max(1)
}

// Returns the size of the next stretch that is cut off from the end of these `len` tasks. They were `total`, which are cut into
// `pieces` about equal ones.
fn next_size(len: usize, total: usize, pieces: usize) -> usize
    requires pieces { 1 ≤ pieces }
    requires some { 2 ≤ len }
    ensures { (1 ≤ result) × (result < len) }
{
    let before = len.saturating_mul(pieces).saturating_sub(1) / total.max(1);
    let front = total.saturating_mul(before) / pieces;
    len.saturating_sub(front).clamp(1, len - 1)
}

// Returns a place near to the end of this list, about `size` tasks in front of it: that of a task with a short path, so that
// few tasks have a spawner in front of the place.
fn place_to_cut<T: OnPath>(tasks: &[T], size: usize) -> usize
    requires some { 1 ≤ size }
    requires front { size < length tasks.now }
    ensures { result < length tasks.now }
{
    let middle = tasks.len() - size;
    let from = middle.saturating_sub(size / 4).max(1);
    let mut best = middle;
    let mut shortest = tasks[middle].path().as_slice().len();
    for place in from..middle + size / 4 {
        let long = tasks[place].path().as_slice().len();
        if long < shortest {
            best = place;
            shortest = long;
        }
    }
    best
}

/// Cuts stretches off from the end, the last first, as if `pieces` equal ones were made, as long as more than `most` tasks are left
/// and there is memory. `from` is the place of the first task, and there is room for one stretch more.
pub(crate) fn cut_off<T: OnPath>(
    alloc: Global,
    rest: &mut Vec<T>,
    from: usize,
    pieces: usize,
    most: usize,
    parts: &mut Vec<Option<Part<T>>>,
)
    requires pieces { 1 ≤ pieces }
    requires most { 1 ≤ most }
    requires end { from + length rest.old.items < 2 ^ 64 }
    requires fresh { AreFresh (from + length rest.old.items) (reverse parts.old.items) }
    requires capacity { vec_len parts.old < vec_capacity parts.old }
    ensures fresh { AreFresh (from + length rest.new.items) (reverse parts.new.items) }
    ensures tasks { rest.new.items ++ tasks_in (reverse parts.new.items) ≡ rest.old.items ++ tasks_in (reverse parts.old.items) }
    ensures capacity { vec_len parts.new < vec_capacity parts.new }
{
    let total = rest.len();
    while rest.len() > most {
        let Ok(()) = parts.reserve(2) else {
            return;
        };
        let Ok(part) = Part::new(alloc) else {
            return;
        };
        let size = next_size(rest.len(), total, pieces);
        let at = place_to_cut(rest, size);
        match rest.split_off(at) {
            Ok(behind) => parts.push_reserved(Some(part.with_tasks(from + at, behind))),
            Err(_) => return,
        }
    }
}

// Sets the bound of a stretch to the path of the first task after it. Returns the path of its own first task, if it has one,
// else that path.
fn bound_one<T: OnPath>(slot: &mut Option<Part<T>>, low: Option<Path>) -> Option<Path>
    ensures { slot.new ≡ slot.old }
{
    match slot {
        Some(part) => {
            let first = part.first_path();
            if first.is_some() {
                part.set_bound(low);
                first
            } else {
                low
            }
        }
        None => low,
    }
}

/// Sets the bound of each stretch to the path of the first task after it.
pub(crate) fn set_bounds<T: OnPath>(parts: &mut Vec<Option<Part<T>>>)
    ensures { parts.new.items ≡ parts.old.items }
{
    let mut low = None;
    let mut place = parts.len();
    while place > 0 {
        place -= 1;
        low = bound_one(&mut parts[place], low);
    }
}

/// Cuts live tasks into about `pieces` stretches. There is room for one, which is `first`. If there is no memory for more,
/// that one has all the tasks that are left.
pub fn cut<T: OnPath>(
    alloc: Global,
    tasks: Vec<T>,
    pieces: usize,
    first: Part<T>,
    parts: &mut Vec<Option<Part<T>>>,
)
    requires pieces { 1 ≤ pieces }
    requires first { first ≡ fresh_part 0 [] }
    requires none_yet { parts.old.items ≡ [] }
    requires capacity { vec_len parts.old < vec_capacity parts.old }
    ensures fresh { AreFresh 0 parts.new.items }
    ensures tasks { tasks_in parts.new.items ≡ tasks.items }
{
    let count = tasks.len();
    let mut rest = tasks;
    cut_off(
        alloc,
        &mut rest,
        0,
        number_for(count, pieces),
        size_for(count, pieces),
        parts,
    );
    parts.push_reserved(Some(first.with_tasks(0, rest)));
    parts.reverse();
    set_bounds(parts);
}
