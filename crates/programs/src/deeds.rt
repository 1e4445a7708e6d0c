//! What live tasks did in their places, and all that they spawned in one list.
ghost use Rattle.std.specs.Prelude.{◌≡◌, ◌≤◌, ◌<◌, ◌+◌, ◌-◌, ◌^◌, ◌++◌, ◌∷◌, ◌↔◌, ◌⊎◌, [], true, IsTrue, IfOk, IfSome, OnOk, OnErr, length, map, reverse, take};
ghost use Rattle.std.specs.Option.{option_map};
ghost use Rattle.std.specs.Vec.{vec_len, vec_capacity};
ghost use Rattle.superstep_memory.specs.Paths.{is_rising};
ghost use Rattle.superstep_memory.specs.PathOrder.{in_path_order};
ghost use Rattle.programs.specs.Regroup.{AreNumbered, IsBefore, AreWithin, AreStrays, IsNextAfter, IsNextOutside, IsBeforeNext, HasMoved, HasMovedWithin, HasMovedEarly, HasPut};
ghost use Rattle.programs.specs.DeedsView.{deeds_with, spawned_by, stopped_by, made_by, behind};
ghost use Rattle.programs.specs.InPlace.{one_left, overflow_at, record_in, maker, kept, living_with, left_in, spawned_in, made_in};

use crate::blame::{Blame, overflowed};
use crate::deed_list::{Deed, DeedList, LastDeeds};
use crate::program::OnPath;
use phase_records::PhaseRecord;
use std::alloc::{AllocError, Global};
use std::marker::Model;
use superstep_memory::path::{Path, is_before};

/// What live tasks did, one deed a task: whether it synced, and so goes on, how many puts it made, and the tasks that it
/// spawned, in program order.
#[derive(Drop)]
pub struct Deeds<T> {
    each: DeedList,
    spawns: Vec<T>,
    // How many tasks stopped.
    stopped: usize,
}

impl<T> Model for Deeds<T> {
    ghost use Rattle.std.specs.Prelude.{List};
    ghost use Rattle.programs.specs.DeedValue.{DeedValue};

    ghost Value = { List (DeedValue T) };

    ghost use Rattle.programs.specs.DeedsView.{deeds_in, IsInside};

    ghost view = { deeds_in };

    ghost invariant = { IsInside };
}

/// Working space for [`Deeds::regroup`]: a list of the next live tasks, and one of spawned tasks that wait for their places.
#[derive(Drop)]
pub struct Regrouping<T> {
    /// The next live tasks so far.
    pub living: Vec<T>,
    /// Spawned tasks that come after tasks that aren't in `living` yet, the first by path last.
    pub waiting: Vec<T>,
}

impl<T: OnPath> Regrouping<T> {
    /// Creates empty lists, without room.
    pub fn new(alloc: Global) -> Self
        ensures { (result.living.items ≡ []) × (result.waiting.items ≡ []) }
    {
        Regrouping {
            living: Vec::new(alloc),
            waiting: Vec::new(alloc),
        }
    }

    /// Empties the lists. Makes room for `count` living tasks and for `spawned` waiting ones.
    pub fn reserve(&mut self, count: usize, spawned: usize) -> Result<(), AllocError>
        ensures empty { (self.new.living.items ≡ []) × (self.new.waiting.items ≡ []) }
        ensures capacity { OnOk result ((count ≤ vec_capacity self.new.living) × (spawned ≤ vec_capacity self.new.waiting)) }
        ensures full { OnErr result ((vec_capacity self.old.living < count) ⊎ (vec_capacity self.old.waiting < spawned)) }
    {
        self.living.clear();
        self.waiting.clear();
        self.living.reserve(count)?;
        self.waiting.reserve(spawned)
    }
}

// Moves the tasks that wait and don't come after this path, the first by path first.
fn move_before<T: OnPath>(living: &mut Vec<T>, waiting: &mut Vec<T>, path: &[u16])
    requires capacity { vec_len living.old + vec_len waiting.old ≤ vec_capacity living.old }
    ensures moved { HasMoved T.path_of path.now living.old.items living.new.items (reverse waiting.old.items) (reverse waiting.new.items) }
    ensures rest { IsNextAfter T.path_of path.now (reverse waiting.new.items) }
    ensures capacity { (vec_capacity living.new ≡ vec_capacity living.old) × (vec_capacity waiting.new ≡ vec_capacity waiting.old) }
    ensures count { vec_len living.new + vec_len waiting.new ≡ vec_len living.old + vec_len waiting.old }
{
    while let Some(first) = waiting.last() {
        if is_before(path, first.path().as_slice()) {
            break;
        }
        match waiting.pop() {
            Some(task) => living.push_reserved(task),
            None => unreachable!(),
        }
    }
}

// Moves all tasks that wait, the first by path first.
fn move_all<T: OnPath>(living: &mut Vec<T>, waiting: &mut Vec<T>)
    requires capacity { vec_len living.old + vec_len waiting.old ≤ vec_capacity living.old }
    ensures moved { living.new.items ≡ living.old.items ++ reverse waiting.old.items }
    ensures none { waiting.new.items ≡ [] }
{
    while let Some(task) = waiting.pop() {
        living.push_reserved(task);
    }
}

// Moves the tasks that wait and don't come after the bound, the first by path first; with no bound, all of them.
fn move_within<T: OnPath>(living: &mut Vec<T>, waiting: &mut Vec<T>, bound: &Option<Path>)
    requires capacity { vec_len living.old + vec_len waiting.old ≤ vec_capacity living.old }
    ensures moved { HasMovedWithin T.path_of (option_map (λ p. p.items) bound.now) living.old.items living.new.items (reverse waiting.old.items) (reverse waiting.new.items) }
    ensures rest { IsNextOutside T.path_of (option_map (λ p. p.items) bound.now) (reverse waiting.new.items) }
{
    match bound {
        Some(path) => move_before(living, waiting, path.as_slice()),
        None => move_all(living, waiting),
    }
}

// Lets the last `count` tasks of a list wait, the last one first.
fn let_wait<T: OnPath>(waiting: &mut Vec<T>, spawns: &mut Vec<T>, count: usize)
    requires enough { count ≤ length spawns.old.items }
    requires capacity { vec_len waiting.old + count ≤ vec_capacity waiting.old }
    ensures waiting { reverse waiting.new.items ≡ take count (reverse spawns.old.items) ++ reverse waiting.old.items }
    ensures rest { reverse spawns.new.items ≡ behind count (reverse spawns.old.items) }
    ensures capacity { vec_capacity waiting.new ≡ vec_capacity waiting.old }
    ensures count { vec_len waiting.new ≡ vec_len waiting.old + count }
{
    let from = waiting.len();
    let mut left = count;
    while left > 0 {
        match spawns.pop() {
            Some(task) => waiting.push_reserved(task),
            None => unreachable!(),
        }
        left -= 1;
    }
    waiting[from..].reverse();
}

// Returns true if a task comes before the bound, or if there is no bound.
fn is_inside<T: OnPath>(task: &T, bound: &Option<Path>) -> bool
    ensures { IsTrue result → IsBefore T.path_of (option_map (λ p. p.items) bound.now) task.now }
{
    match bound {
        Some(path) => is_before(task.path().as_slice(), path.as_slice()),
        None => true,
    }
}

// Returns true if a task comes before the next one, which is the last of these. If there is none, returns true if the task
// comes before the bound.
fn is_early<T: OnPath>(task: &T, tasks: &[T], bound: &Option<Path>) -> bool
    ensures { IsTrue result → IsBeforeNext T.path_of (option_map (λ p. p.items) bound.now) (reverse tasks.now) task.now }
{
    match tasks.last() {
        Some(next) => is_before(task.path().as_slice(), next.path().as_slice()),
        None => is_inside(task, bound),
    }
}

// Moves spawned tasks from the end of a list, as long as they come before the next task or the bound, and at most `count`.
// Returns how many of these are left.
fn move_early<T: OnPath>(
    living: &mut Vec<T>,
    spawns: &mut Vec<T>,
    count: usize,
    tasks: &[T],
    bound: &Option<Path>,
) -> usize
    requires enough { count ≤ length spawns.old.items }
    requires capacity { vec_len living.old + count ≤ vec_capacity living.old }
    ensures moved { HasMovedEarly T.path_of (option_map (λ p. p.items) bound.now) (reverse tasks.now) living.old.items living.new.items (reverse spawns.old.items) (reverse spawns.new.items) (count - result) }
    ensures left { result ≤ count }
    ensures enough { result ≤ length spawns.new.items }
    ensures capacity { vec_capacity living.new ≡ vec_capacity living.old }
    ensures count { vec_len living.new + result ≡ vec_len living.old + count }
{
    let mut left = count;
    while left > 0 {
        let Some(first) = spawns.last() else {
            unreachable!()
        };
        if !is_early(first, tasks, bound) {
            break;
        }
        match spawns.pop() {
            Some(task) => living.push_reserved(task),
            None => unreachable!(),
        }
        left -= 1;
    }
    left
}

// Appends a task, if it goes on.
fn push_kept<T: OnPath>(living: &mut Vec<T>, task: T, synced: bool)
    requires capacity { vec_len living.old + length (kept synced task) ≤ vec_capacity living.old }
    ensures items { living.new.items ≡ living.old.items ++ kept synced task }
    ensures capacity { vec_capacity living.new ≡ vec_capacity living.old }
    ensures count { vec_len living.new ≡ vec_len living.old + length (kept synced task) }
{
    if synced {
        living.push_reserved(task);
    }
}

// Puts a task, if it goes on, after those that wait and come before it. `spawns` ends with those that it spawned, the last one
// first. They follow as long as they come before the next task: the last of `tasks`, or the bound. The others wait.
fn put_next<T: OnPath>(
    living: &mut Vec<T>,
    waiting: &mut Vec<T>,
    task: T,
    deed: Deed,
    spawns: &mut Vec<T>,
    tasks: &[T],
    bound: &Option<Path>,
)
    requires enough { deed.spawned ≤ length spawns.old.items }
    requires capacity { vec_len living.old + vec_len waiting.old + (length (kept deed.synced task) + deed.spawned) ≤ vec_capacity living.old }
    requires wait { vec_len waiting.old + deed.spawned ≤ vec_capacity waiting.old }
    ensures put { HasPut T.path_of (option_map (λ p. p.items) bound.now) task deed.synced (reverse tasks.now) (take deed.spawned (reverse spawns.old.items)) living.old.items living.new.items (reverse waiting.old.items) (reverse waiting.new.items) }
    ensures rest { reverse spawns.new.items ≡ behind deed.spawned (reverse spawns.old.items) }
    ensures capacity { (vec_capacity living.new ≡ vec_capacity living.old) × (vec_capacity waiting.new ≡ vec_capacity waiting.old) }
    ensures count { vec_len living.new + vec_len waiting.new ≡ vec_len living.old + vec_len waiting.old + (length (kept deed.synced task) + deed.spawned) }
    ensures wait { vec_len waiting.new ≤ vec_len waiting.old + deed.spawned }
{
    move_before(living, waiting, task.path().as_slice());
    push_kept(living, task, deed.synced);
    let left = move_early(living, spawns, deed.spawned, tasks, bound);
    if left > 0 {
        let_wait(waiting, spawns, left);
    }
}

// Puts the tasks that go on and those that they spawned in path order; those after the bound wait. The lists of tasks and of
// spawned tasks are read from their ends.
fn put_in_order<T: OnPath>(
    tasks: &mut Vec<T>,
    each: LastDeeds<'_>,
    spawns: &mut Vec<T>,
    living: &mut Vec<T>,
    waiting: &mut Vec<T>,
    bound: &Option<Path>,
)
    requires same { length tasks.old.items ≡ length each }
    requires all { spawned_by each ≡ length spawns.old.items }
    requires none_yet { (living.old.items ≡ []) × (waiting.old.items ≡ []) }
    requires capacity { length (living_with (reverse tasks.old.items) (deeds_with each (reverse spawns.old.items))) ≤ vec_capacity living.old }
    requires wait { length spawns.old.items ≤ vec_capacity waiting.old }
    requires rising { is_rising (map T.path_of (reverse tasks.old.items)) ≡ true }
    requires numbered { AreNumbered T.path_of (reverse tasks.old.items) (deeds_with each (reverse spawns.old.items)) }
    ensures living { living.new.items ++ reverse waiting.new.items ≡ in_path_order T.path_of (living_with (reverse tasks.old.items) (deeds_with each.entry (reverse spawns.old.items))) }
    ensures strays { AreStrays T.path_of (option_map (λ p. p.items) bound.now) (reverse waiting.new.items) }
    ensures within { AreWithin T.path_of (option_map (λ p. p.items) bound.now) (reverse tasks.old.items) → AreWithin T.path_of (option_map (λ p. p.items) bound.now) living.new.items }
    ensures tasks { tasks.new.items ≡ [] }
    ensures spawns { spawns.new.items ≡ [] }
{
    let mut rest = each;
    while let Some((deed, after)) = rest.split_first() {
        match tasks.pop() {
            Some(task) => put_next(living, waiting, task, deed, spawns, tasks, bound),
            None => unreachable!(),
        }
        rest = after;
    }
    move_within(living, waiting, bound);
}

// Returns true if the sum of `count` and `others` is at most `most`.
#[inline(always)]
fn fit(count: usize, others: usize, most: usize) -> bool
    ensures { IsTrue result ↔ (count + others ≤ most) }
{
    count <= most && others <= most - count
}

// Returns the number of tasks that stopped, with one task more, which stopped unless `synced` is true.
#[inline(always)]
fn with_one(stopped: usize, synced: bool) -> usize
    requires { stopped < 18446744073709551615 }
    ensures { result ≡ stopped + one_left synced }
{
    if synced { stopped } else { stopped + 1 }
}

// Moves tasks to the end of others. There is room for them.
#[inline(always)]
fn take_reserved<T: OnPath>(all: &mut Vec<T>, spawns: &mut Vec<T>)
    requires { vec_len all.old + vec_len spawns.old ≤ vec_capacity all.old }
    ensures items { all.new.items ≡ all.old.items ++ spawns.old.items }
    ensures none_left { spawns.new.items ≡ [] }
{
    if spawns.is_empty() {
        return;
    }
    match all.append(spawns) {
        Ok(()) => {}
        Err(_) => unreachable!(),
    }
}

impl<T: OnPath> Deeds<T> {
    /// Creates a list without deeds.
    pub fn new(alloc: Global) -> Self
        ensures { result ≡ [] }
    {
        Deeds {
            each: DeedList::new(alloc),
            spawns: Vec::new(alloc),
            stopped: 0,
        }
    }

    /// Forgets them all.
    pub fn clear(&mut self)
        ensures { self.new ≡ [] }
    {
        self.each.clear();
        self.spawns.clear();
        self.stopped = 0;
    }

    /// Notes what the next task did. What it spawned is moved out of the list.
    #[inline(always)]
    pub fn push(&mut self, synced: bool, puts: usize, spawns: &mut Vec<T>) -> Result<(), AllocError>
        ensures deeds { OnOk result (self.new ≡ self.old ++ record { synced = synced; puts = puts; spawns = spawns.old.items } ∷ []) }
        ensures moved { OnOk result (spawns.new.items ≡ []) }
    {
        if synced && spawns.is_empty() {
            self.each.push_going(puts)?;
            return Ok(());
        }
        let spawned = spawns.len();
        self.spawns.reserve(spawned)?;
        self.each.push(Deed {
            synced,
            puts,
            spawned,
        })?;
        take_reserved(&mut self.spawns, spawns);
        self.stopped = with_one(self.stopped, synced);
        Ok(())
    }

    /// Returns the fault of the task whose put is at this place of the log. `None` if fewer were made.
    pub fn blame_at(&self, tasks: &[T], place: usize) -> Option<Blame>
        ensures { result ≡ option_map overflow_at (maker T.path_of tasks.now self.now place) }
    {
        let mut left = place;
        let mut rest = self.each.all();
        let mut others = tasks;
        while let Some((deed, after)) = rest.split_first() {
            let Some((task, behind)) = others.split_first() else {
                return None;
            };
            if left < deed.puts {
                return Some(overflowed(task));
            }
            left -= deed.puts;
            rest = after;
            others = behind;
        }
        None
    }

    /// Returns true if at most `most` tasks live on: those that go on, and those that were spawned.
    pub fn are_few(&self, most: u32) -> bool
        ensures { IsTrue result ↔ (length self.now + spawned_in self.now ≤ most + left_in self.now) }
    {
        let most = most as usize;
        let count = self.each.len();
        let spawned = self.spawns.len();
        if fit(count, spawned, most) {
            return true;
        }
        let stay = count - self.stopped;
        fit(stay, spawned, most)
    }

    /// Returns the record of the superstep in which tasks did this.
    pub fn record(&self, step: u32) -> PhaseRecord
        requires { length self.now + spawned_in self.now < 2 ^ 32 }
        ensures { result ≡ record_in step self.now }
    {
        let left = self.stopped as u32;
        let count = self.each.len() as u32;
        let spawned = self.spawns.len() as u32;
        PhaseRecord {
            phase: step,
            parties: count + spawned,
            left,
            spawned,
        }
    }

    /// Replaces the tasks by those that go on and those that they spawned, in path order: `count` tasks. The paths of the tasks
    /// rise, and each has numbered those that it spawned. If memory runs out, the tasks are as they were.
    pub fn regroup(
        &mut self,
        tasks: &mut Vec<T>,
        spare: &mut Regrouping<T>,
        count: usize,
    ) -> Result<(), AllocError>
        requires same { length tasks.old.items ≡ length self.old }
        requires count { length (living_with tasks.old.items self.old) ≤ count }
        requires rising { is_rising (map T.path_of tasks.old.items) ≡ true }
        requires numbered { AreNumbered T.path_of tasks.old.items self.old }
        ensures tasks { OnOk result (tasks.new.items ≡ in_path_order T.path_of (living_with tasks.old.items self.old)) }
        ensures full { OnErr result ((vec_capacity spare.old.living < count) ⊎ (vec_capacity spare.old.waiting < spawned_in self.old)) }
        ensures memory { OnErr result ((self.new ≡ self.old) × (tasks.new.items ≡ tasks.old.items)) }
    {
        self.regroup_within(tasks, spare, count, &None)
    }

    /// Does what `regroup` does, for tasks that are followed by others, the first of which has the path `bound`. Leaves the
    /// tasks that come after the bound, the strays, in `room.waiting`, the first by path last. If the tasks don't come after
    /// the bound, nor do those that replace them.
    pub fn regroup_within(
        &mut self,
        tasks: &mut Vec<T>,
        spare: &mut Regrouping<T>,
        count: usize,
        bound: &Option<Path>,
    ) -> Result<(), AllocError>
        requires same { length tasks.old.items ≡ length self.old }
        requires count { length (living_with tasks.old.items self.old) ≤ count }
        requires rising { is_rising (map T.path_of tasks.old.items) ≡ true }
        requires numbered { AreNumbered T.path_of tasks.old.items self.old }
        ensures tasks { OnOk result (tasks.new.items ++ reverse spare.new.waiting.items ≡ in_path_order T.path_of (living_with tasks.old.items self.old)) }
        ensures strays { OnOk result (AreStrays T.path_of (option_map (λ p. p.items) bound.now) (reverse spare.new.waiting.items)) }
        ensures within { OnOk result (AreWithin T.path_of (option_map (λ p. p.items) bound.now) tasks.old.items → AreWithin T.path_of (option_map (λ p. p.items) bound.now) tasks.new.items) }
        ensures none_left { OnOk result (self.new ≡ []) }
        ensures no_strays { OnErr result (spare.new.waiting.items ≡ []) }
        ensures full { OnErr result ((vec_capacity spare.old.living < count) ⊎ (vec_capacity spare.old.waiting < spawned_in self.old)) }
        ensures memory { OnErr result ((self.new ≡ self.old) × (tasks.new.items ≡ tasks.old.items)) }
    {
        spare.reserve(count, self.spawns.len())?;
        tasks.reverse();
        self.spawns.reverse();
        put_in_order(
            tasks,
            self.each.all(),
            &mut self.spawns,
            &mut spare.living,
            &mut spare.waiting,
            bound,
        );
        self.each.clear();
        self.stopped = 0;
        std::mem::swap(&mut spare.living, tasks);
        Ok(())
    }
}

/// What a task did to the list of tasks.
#[derive(Drop)]
pub struct Change<'a, T> {
    /// Whether it goes on.
    pub synced: bool,
    /// How many puts it made.
    pub puts: usize,
    /// The tasks that it spawned, in program order.
    pub spawned: &'a [T],
}

/// What tasks did to the list of tasks, one after another.
#[derive(Drop)]
pub struct Changes<'a, T> {
    each: LastDeeds<'a>,
    spawns: &'a [T],
}

impl<'a, T> Model for Changes<'a, T> {
    ghost use Rattle.std.specs.Prelude.{◌≡◌, List, length};
    ghost use Rattle.programs.specs.DeedValue.{DeedValue};
    ghost use Rattle.programs.specs.DeedsView.{deeds_with, spawned_by};

    ghost Value = { List (DeedValue T) };

    ghost view = { λ c. deeds_with c.each c.spawns.now };

    ghost invariant = { λ c. spawned_by c.each ≡ length c.spawns.now };
}

impl<'a, T> Changes<'a, T> {
    ghost use Rattle.std.specs.Prelude.{◌≡◌, ◌∷◌, [], MatchOption};
    ghost use Rattle.programs.specs.Changes.{deed_of};

    /// Returns what the first of these tasks did, and what the others did, or `None` if there is none.
    pub fn split_first(&self) -> Option<(Change<'a, T>, Changes<'a, T>)>
        ensures { MatchOption result (self.now ≡ []) (λ r. self.now ≡ deed_of r.0 ∷ r.1) }
    {
        let (deed, each) = self.each.split_first()?;
        let (spawned, spawns) = self.spawns.split_at(deed.spawned);
        let change = Change {
            synced: deed.synced,
            puts: deed.puts,
            spawned,
        };
        Some((change, Changes { each, spawns }))
    }
}

// Returns the number of puts that were made, or `None` if it is too large to be kept.
fn count_puts(each: LastDeeds<'_>) -> Option<usize>
    ensures { IfSome result (λ count. count ≡ made_by each.entry) }
{
    let mut count: usize = 0;
    let mut rest = each;
    while let Some((deed, after)) = rest.split_first() {
        count = count.checked_add(deed.puts)?;
        rest = after;
    }
    Some(count)
}

impl<T: OnPath> Deeds<T> {
    /// Returns true if the same tasks live on: nobody stopped, and nobody was spawned.
    pub fn all_stay(&self) -> bool
        ensures { IsTrue result ↔ ((left_in self.now ≡ 0) × (spawned_in self.now ≡ 0)) }
    {
        self.spawns.is_empty() && self.stopped == 0
    }

    /// Returns what each task did to the list of tasks.
    pub fn changes(&self) -> Changes<'_, T>
        ensures { result ≡ self.now }
    {
        Changes {
            each: self.each.all(),
            spawns: &self.spawns,
        }
    }

    /// Returns the number of tasks that stopped.
    pub fn left(&self) -> usize
        ensures { result ≡ left_in self.now }
    {
        self.stopped
    }

    /// Returns the number of tasks that were spawned.
    pub fn spawned(&self) -> usize
        ensures { result ≡ spawned_in self.now }
    {
        self.spawns.len()
    }

    /// Returns the number of puts that they made. `None` if that number is too large to be kept.
    pub fn put_count(&self) -> Option<usize>
        ensures { IfSome result (λ count. count ≡ made_in self.now) }
    {
        count_puts(self.each.all())
    }

    /// Returns the number of tasks that did something.
    pub fn len(&self) -> usize
        ensures { result ≡ length self.now }
    {
        self.each.len()
    }

    /// Appends what other tasks did. Out of memory, both are as they were.
    pub fn append(&mut self, others: &mut Deeds<T>) -> Result<(), AllocError>
        ensures joined { OnOk result (self.new ≡ self.old ++ others.old) }
        ensures none_left { OnOk result (others.new ≡ []) }
        ensures memory { OnErr result ((self.new ≡ self.old) × (others.new ≡ others.old)) }
    {
        self.spawns.reserve(others.spawns.len())?;
        self.each.append(&mut others.each)?;
        take_reserved(&mut self.spawns, &mut others.spawns);
        self.stopped += others.stopped;
        others.stopped = 0;
        Ok(())
    }
}
