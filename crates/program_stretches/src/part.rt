//! A stretch of live tasks, and what they did.
ghost use Rattle.std.specs.Prelude.{◌≡◌, ◌≤◌, ◌<◌, ◌++◌, ◌↔◌, [], None, true, false, IsTrue, is_some, length, map, reverse, slice_get, IfSome, MatchOption, OnOk, OnErr};
ghost use Rattle.std.specs.Option.{option_map};
ghost use Rattle.superstep_memory.specs.Paths.{is_rising};
ghost use Rattle.superstep_memory.specs.PathOrder.{in_path_order};
ghost use Rattle.programs.specs.InPlace.{left_in, living_with, made_in, spawned_in};
ghost use Rattle.programs.specs.Regroup.{AreNumbered};
ghost use Rattle.program_stretches.specs.Kept.{IsKept, tasks_by, deeds_by};
ghost use Rattle.program_stretches.specs.Parts.{HasRun, reading_of, fresh_part};

use ghost_lists::notes::Notes;
use phase_records::Print;
use programs::blame::{Blame, copy_path, task_path};
use programs::deeds::{Changes, Deeds, Regrouping};
use programs::program::{OnPath, TaskLoop};
use programs::work::Work;
use std::alloc::{AllocError, Global};
use std::marker::Model;
use std::mem;
use superstep_memory::arrays::Arrays;
use superstep_memory::path::Path;
use superstep_memory::puts::Puts;

// What is known of tasks that the next live ones have replaced.
#[derive(Drop)]
pub(crate) struct Settled {
    // How many they were, how many of them stopped, how many tasks they spawned, and how many puts they made.
    ran: usize,
    left: usize,
    spawned: usize,
    puts: usize,
    // The path of the first of them.
    first: Option<Path>,
}

// What a stretch of live tasks has. As long as its tasks haven't run, its deeds, prints, puts and fault are those of an earlier
// superstep and mean nothing: so whoever closes a superstep, on another processor, needn't clear them. What is read then is
// side by side.
#[derive(Drop)]
pub(crate) struct State<T> {
    deeds: Deeds<T>,
    // The place of its first task among the live ones.
    first: usize,
    // Its tasks. Once it is settled, the next live ones.
    tasks: Vec<T>,
    // Whether they have run.
    done: bool,
    prints: Vec<Print>,
    // Their puts, and room for a segment.
    work: Work<T>,
    fault: Option<Blame>,
    // The path of the first live task after its own, when it was cut; `None` if there was none.
    bound: Option<Path>,
    // Room for the next live tasks. Once it is settled, those after the bound wait in it.
    spare: Regrouping<T>,
    // Whether the next live tasks have replaced those that ran.
    settled: Option<Settled>,
    // What these and their deeds were then.
    notes: Notes<Vec<T>, Deeds<T>>,
}

/// Consecutive live tasks of a superstep, and what they did in it, each in its place. It moves with a stretch, so it is a
/// box. Once it is settled, it has the next live tasks in place of those that ran; what these were is kept for proofs.
#[derive(Drop)]
pub struct Part<T: OnPath> {
    state: Box<State<T>>,
}

impl<T: OnPath> Model for Part<T> {
    ghost use Rattle.program_stretches.specs.PartValue.{PartValue};

    ghost Value = { PartValue T };

    ghost use Rattle.program_stretches.specs.PartView.{part_of, IsPartInside};

    ghost view = { part_of };

    ghost invariant = { IsPartInside T.path_of };
}

/// Copies a blame. Doesn't allocate.
pub fn blame_again(blame: &Blame) -> Blame
    ensures { result ≡ blame.now }
{
    Blame {
        code: blame.code,
        path: copy_path(&blame.path),
    }
}

impl<T: OnPath> Part<T> {
    ghost use Rattle.std.specs.Prelude.{◌≡◌, ◌≤◌, ◌<◌, ◌+◌, ◌-◌, ◌++◌, ◌↔◌, ◌&&◌, if◌then◌else◌, not, [], None, Some, true, false, IsTrue, IfOk, IfSome, MatchOption, OnOk, OnErr, is_some, length, map, reverse, slice_get};
    ghost use Rattle.std.specs.Option.{option_map};
    ghost use Rattle.superstep_memory.specs.Paths.{is_rising};
    ghost use Rattle.superstep_memory.specs.PathOrder.{in_path_order};
    ghost use Rattle.programs.specs.Regroup.{AreNumbered};
    ghost use Rattle.std.specs.Vec.{vec_len, vec_capacity};
    ghost use Rattle.std.specs.List.{list_all};
    ghost use Rattle.superstep_memory.specs.Landing.{landed, is_set};
    ghost use Rattle.programs.specs.InPlace.{overflow_at, maker, left_in, spawned_in, made_in, living_with};
    ghost use Rattle.program_stretches.specs.Parts.{fresh_part};

    /// Creates a stretch without tasks.
    pub fn new(alloc: Global) -> Result<Self, AllocError>
        ensures { IfOk result (λ part. part ≡ fresh_part 0 []) }
    {
        let state = Box::new(
            alloc,
            State {
                deeds: Deeds::new(alloc),
                first: 0,
                tasks: Vec::new(alloc),
                done: false,
                prints: Vec::new(alloc),
                work: Work {
                    puts: Puts::new(alloc),
                    own: Puts::new(alloc),
                    prints: Vec::new(alloc),
                    spawns: Vec::new(alloc),
                    effort: 0,
                },
                fault: None,
                bound: None,
                spare: Regrouping::new(alloc),
                settled: None,
                notes: Notes::new(),
            },
        )?;
        Ok(Part { state })
    }

    /// Returns it with these tasks before their segments, in place of none. The first has this place among the live ones.
    pub fn with_tasks(mut self, first: usize, tasks: Vec<T>) -> Self
        requires { self ≡ fresh_part 0 [] }
        ensures { result ≡ fresh_part first tasks.items }
    {
        self.state.first = first;
        self.state.tasks = tasks;
        self
    }

    /// Returns the number of tasks that it has, or had when they ran.
    pub fn len(&self) -> usize
        ensures { result ≡ length self.now.tasks }
    {
        match &self.state.settled {
            Some(settled) => settled.ran,
            None => self.state.tasks.len(),
        }
    }

    /// Returns the place of its first task among the live ones.
    pub fn first(&self) -> usize
        ensures { result ≡ self.now.first }
    {
        self.state.first
    }

    /// Returns true if its tasks have run.
    pub fn is_done(&self) -> bool
        ensures { result ≡ self.now.done }
    {
        self.state.done
    }

    /// Returns the path of its first task, if it has one.
    pub fn first_path(&self) -> Option<Path>
        ensures { option_map (λ p. p.items) result ≡ slice_get (map T.path_of self.now.tasks) 0 }
    {
        match &self.state.settled {
            Some(settled) => path_again(&settled.first),
            None => first_of(&self.state.tasks),
        }
    }

    /// Returns its first fault, if it has one.
    pub fn fault(&self) -> Option<Blame>
        ensures { result ≡ self.now.fault }
    {
        match &self.state.fault {
            Some(blame) if self.state.done => Some(blame_again(blame)),
            Some(_) | None => None,
        }
    }

    /// Returns true if one of its tasks has faulted.
    pub fn has_faulted(&self) -> bool
        ensures { result ≡ is_some self.now.fault }
    {
        self.state.done && self.state.fault.is_some()
    }

    /// Returns how much its tasks computed in the last superstep in which they ran: what they counted, such as statements, and
    /// their puts. It is 0 if they haven't run yet. Only a hint for whoever shares out stretches, so no clause says what it is.
    pub fn effort(&self) -> u64 {
        self.state.work.effort
    }

    /// Returns the number of values that it printed.
    pub fn print_count(&self) -> usize
        ensures { result ≡ length self.now.prints }
    {
        if self.state.done {
            self.state.prints.len()
        } else {
            0
        }
    }

    /// Returns the number of its tasks that stopped.
    pub fn left(&self) -> usize
        ensures { result ≡ left_in self.now.deeds }
    {
        match &self.state.settled {
            Some(settled) => settled.left,
            None if self.state.done => self.state.deeds.left(),
            None => 0,
        }
    }

    /// Returns the number of tasks that its tasks spawned.
    pub fn spawned(&self) -> usize
        ensures { result ≡ spawned_in self.now.deeds }
    {
        match &self.state.settled {
            Some(settled) => settled.spawned,
            None if self.state.done => self.state.deeds.spawned(),
            None => 0,
        }
    }

    /// Returns true if the same tasks live on.
    pub fn all_stay(&self) -> bool
        ensures { IsTrue result ↔ ((left_in self.now.deeds ≡ 0) × (spawned_in self.now.deeds ≡ 0)) }
    {
        match &self.state.settled {
            Some(_) => false,
            None => !self.state.done || self.state.deeds.all_stay(),
        }
    }

    /// Returns its tasks, and what each of them did to the list of tasks, up to the first fault. Returns `None` if it is settled, or
    /// if its tasks haven't run.
    pub fn changes(&self) -> Option<(&[T], Changes<'_, T>)>
        ensures changes { IfSome result (λ r. (r.0.now ≡ self.now.tasks) × (r.1 ≡ self.now.deeds)) }
        ensures some { is_some result ≡ (self.now.done && not self.now.settled) }
    {
        match &self.state.settled {
            None if self.state.done => Some((&self.state.tasks, self.state.deeds.changes())),
            Some(_) | None => None,
        }
    }

    /// Returns true if none of its puts adds.
    pub fn are_sets(&self) -> bool
        ensures { result ≡ list_all is_set self.now.puts }
    {
        !self.state.done || self.state.work.puts.are_sets()
    }

    /// Lands its puts. None of them adds.
    pub fn land_sets(&self, arrays: &mut Arrays)
        requires { IsTrue (list_all is_set self.now.puts) }
        ensures { arrays.new ≡ landed self.now.puts arrays.old }
    {
        if self.state.done {
            self.state.work.puts.land_sets(arrays);
        }
    }

    /// Moves its puts to the end of others.
    pub fn give_puts(&mut self, puts: &mut Puts) -> Result<(), AllocError>
        ensures given { OnOk result (puts.new ≡ puts.old ++ self.old.puts) }
        ensures rest { OnOk result (self.new ≡ record self.old { puts = [] }) }
    {
        if !self.state.done {
            return Ok(());
        }
        puts.append(&mut self.state.work.puts)
    }

    /// Moves its tasks and deeds to the end of others. Fails if memory runs out, or if it is settled.
    pub fn give_tasks(&mut self, tasks: &mut Vec<T>, deeds: &mut Deeds<T>) -> Result<(), AllocError>
        ensures tasks { OnOk result (tasks.new.items ≡ tasks.old.items ++ self.old.tasks) }
        ensures deeds { OnOk result (deeds.new ≡ deeds.old ++ self.old.deeds) }
        ensures rest { OnOk result (self.new ≡ record self.old { tasks = []; deeds = [] }) }
    {
        if self.state.settled.is_some() {
            return Err(AllocError);
        }
        if self.state.done {
            deeds.append(&mut self.state.deeds)?;
        }
        tasks.append(&mut self.state.tasks)?;
        Ok(())
    }

    /// Moves its prints to the end of others, which have room for them.
    pub fn give_prints(&mut self, prints: &mut Vec<Print>)
        requires capacity { vec_len prints.old + length self.old.prints ≤ vec_capacity prints.old }
        ensures given { prints.new.items ≡ prints.old.items ++ self.old.prints }
        ensures capacity { vec_capacity prints.old ≤ vec_capacity prints.new }
        ensures rest { self.new ≡ record self.old { prints = [] } }
    {
        if !self.state.done {
            return;
        }
        match prints.append(&mut self.state.prints) {
            Ok(()) => {}
            Err(_) => unreachable!(),
        }
    }

    /// Resets it to the same tasks before their segments of the next superstep. All of them must live on.
    pub fn renew(&mut self)
        requires { (left_in self.old.deeds ≡ 0) × (spawned_in self.old.deeds ≡ 0) }
        ensures { self.new ≡ fresh_part self.old.first self.old.tasks }
    {
        self.state.done = false;
    }

    // Loses its tasks.
    fn lose(&mut self)
        ensures { self.new ≡ fresh_part self.old.first [] }
    {
        let state = &mut *self.state;
        state.tasks.clear();
        forget(state);
    }

    /// Returns how many puts its tasks made, by their deeds. `None` if that number is too large to be kept.
    pub fn put_count(&self) -> Option<usize>
        ensures { MatchOption result (18446744073709551615 < made_in self.now.deeds) (λ count. count ≡ made_in self.now.deeds) }
    {
        match &self.state.settled {
            Some(settled) => Some(settled.puts),
            None if self.state.done => count_puts(self.state.deeds.changes()),
            None => Some(0),
        }
    }

    /// Returns the place, among the puts of later stretches, of the put at this place. `None` if that is one of its own.
    pub fn pass_by(&self, place: usize) -> Option<usize>
        ensures { MatchOption result (place < made_in self.now.deeds) (λ rest. (made_in self.now.deeds ≤ place) × (rest ≡ place - made_in self.now.deeds)) }
    {
        let count = self.put_count()?;
        if place < count {
            return None;
        }
        Some(place - count)
    }

    /// Returns the fault of the task that made the put at this place of its puts. `None` if fewer were made, if it is settled, or if
    /// its tasks haven't run.
    pub fn blame_at(&self, place: usize) -> Option<Blame>
        ensures { result ≡ if self.now.settled then None else option_map overflow_at (maker T.path_of self.now.tasks self.now.deeds place) }
    {
        match &self.state.settled {
            None if self.state.done => self.state.deeds.blame_at(&self.state.tasks, place),
            Some(_) | None => None,
        }
    }

    /// Sets the path of the first live task after its own; `None` if there is none. It only says where spawned tasks go.
    pub fn set_bound(&mut self, bound: Option<Path>)
        ensures { self.new ≡ self.old }
    {
        self.state.bound = bound;
    }

    /// Replaces tasks that have run by the next live tasks, in path order, if tasks came or left: those that go on and those that
    /// were spawned. This changes nothing else of what is said of them. If memory runs out, nothing changes.
    pub fn settle(&mut self) -> Result<(), AllocError>
        requires done { self.old.done ≡ true }
        requires same { length self.old.tasks ≡ length self.old.deeds }
        requires rising { is_rising (map T.path_of self.old.tasks) ≡ true }
        requires numbered { AreNumbered T.path_of self.old.tasks self.old.deeds }
        ensures rest { self.new ≡ record self.old { settled = self.new.settled } }
        ensures memory { OnErr result (self.new ≡ self.old) }
        ensures settled { OnOk result (IsTrue self.new.settled ↔ ((left_in self.old.deeds ≡ 0) × (spawned_in self.old.deeds ≡ 0) → ⊥)) }
    {
        settle_state(&mut self.state)
    }

    /// Takes the next live tasks out of it, in path order. The last of them, which may come after live tasks of the stretches
    /// after it, are put into a list, the first by path last.
    pub fn take_next(&mut self, alloc: Global, strays: &mut Vec<T>) -> Result<Vec<T>, AllocError>
        requires done { self.old.done ≡ true }
        requires same { length self.old.tasks ≡ length self.old.deeds }
        requires rising { is_rising (map T.path_of self.old.tasks) ≡ true }
        requires numbered { AreNumbered T.path_of self.old.tasks self.old.deeds }
        requires none_yet { strays.old.items ≡ [] }
        ensures next { IfOk result (λ next. next.items ++ reverse strays.new.items ≡ in_path_order T.path_of (living_with self.old.tasks self.old.deeds)) }
        ensures rest { OnOk result (self.new ≡ fresh_part 0 []) }
    {
        let state = &mut *self.state;
        settle_state(state)?;
        mem::swap(strays, &mut state.spare.waiting);
        let next = mem::replace(&mut state.tasks, Vec::new(alloc));
        state.first = 0;
        forget(state);
        Ok(next)
    }
}

// Copies a path, if there is one.
fn path_again(path: &Option<Path>) -> Option<Path>
    requires { IfSome path.now (λ p. length p.items ≤ 8) }
    ensures { option_map (λ p. p.items) result ≡ option_map (λ p. p.items) path.now }
{
    match path {
        Some(path) => Some(copy_path(path)),
        None => None,
    }
}

/// Returns the path of the first of these tasks, if there is one.
pub(crate) fn first_of<T: OnPath>(tasks: &[T]) -> Option<Path>
    ensures path { option_map (λ p. p.items) result ≡ slice_get (map T.path_of tasks.now) 0 }
    ensures short { IfSome result (λ p. length p.items ≤ 8) }
{
    match tasks.first() {
        Some(task) => Some(task_path(task)),
        None => None,
    }
}

// Forgets what tasks did, and whether they have run.
fn forget<T: OnPath>(state: &mut State<T>)
    ensures same { (state.new.first ≡ state.old.first) × (state.new.tasks.items ≡ state.old.tasks.items) }
    ensures fresh { state.new.done ≡ false }
    ensures kept { (state.new.settled ≡ None) × (state.new.notes.items ≡ []) × (state.new.spare.waiting.items ≡ []) }
{
    state.done = false;
    state.spare.waiting.clear();
    state.settled = None;
    state.notes = Notes::new();
}

// Replaces tasks that have run by the next live tasks, if tasks came or left. If memory runs out, nothing changes.
fn settle_state<T: OnPath>(state: &mut State<T>) -> Result<(), AllocError>
    requires kept { IsKept T.path_of state.old.settled state.old.tasks.items (reverse state.old.spare.waiting.items) state.old.notes.items state.old.done }
    requires done { state.old.done ≡ true }
    requires same { length (tasks_by state.old.notes.items state.old.tasks.items) ≡ length (deeds_by state.old.notes.items state.old.deeds) }
    requires rising { is_rising (map T.path_of (tasks_by state.old.notes.items state.old.tasks.items)) ≡ true }
    requires numbered { AreNumbered T.path_of (tasks_by state.old.notes.items state.old.tasks.items) (deeds_by state.old.notes.items state.old.deeds) }
    ensures kept { IsKept T.path_of state.new.settled state.new.tasks.items (reverse state.new.spare.waiting.items) state.new.notes.items state.new.done }
    ensures tasks { tasks_by state.new.notes.items state.new.tasks.items ≡ tasks_by state.old.notes.items state.old.tasks.items }
    ensures deeds { deeds_by state.new.notes.items state.new.deeds ≡ deeds_by state.old.notes.items state.old.deeds }
    ensures rest { (state.new.first ≡ state.old.first) × (state.new.done ≡ state.old.done) × (state.new.work ≡ state.old.work) × (state.new.prints ≡ state.old.prints) × (state.new.fault ≡ state.old.fault) }
    ensures settled { OnOk result (IsTrue (is_some state.new.settled) ↔ ((left_in (deeds_by state.old.notes.items state.old.deeds) ≡ 0) × (spawned_in (deeds_by state.old.notes.items state.old.deeds) ≡ 0) → ⊥)) }
    ensures memory { OnErr result (state.new.settled ≡ state.old.settled) }
    ensures next { OnOk result (state.new.tasks.items ++ reverse state.new.spare.waiting.items
        ≡ in_path_order T.path_of (living_with (tasks_by state.old.notes.items state.old.tasks.items) (deeds_by state.old.notes.items state.old.deeds))) }
{
    if state.settled.is_some() || state.deeds.all_stay() {
        return Ok(());
    }
    let ran = state.tasks.len();
    let left = state.deeds.left();
    let spawned = state.deeds.spawned();
    let Some(puts) = state.deeds.put_count() else {
        return Err(AllocError);
    };
    let Some(count) = (ran - left).checked_add(spawned) else {
        return Err(AllocError);
    };
    let first = first_of(&state.tasks);
    let notes = Notes::new().and(&state.tasks, &state.deeds);
    state
        .deeds
        .regroup_within(&mut state.tasks, &mut state.spare, count, &state.bound)?;
    state.notes = notes;
    state.settled = Some(Settled {
        ran,
        left,
        spawned,
        puts,
        first,
    });
    Ok(())
}

// Returns the number of puts that were made, or `None` if it is too large to be kept.
fn count_puts<T>(changes: Changes<'_, T>) -> Option<usize>
    ensures { MatchOption result (18446744073709551615 < made_in changes.entry) (λ count. count ≡ made_in changes.entry) }
{
    let mut count: usize = 0;
    let mut rest = changes;
    while let Some((change, after)) = rest.split_first() {
        count = count.checked_add(change.puts)?;
        rest = after;
    }
    Some(count)
}

// Adds the puts to what the segments have computed.
fn add_puts<T>(work: &mut Work<T>)
    ensures { work.new ≡ record work.old { effort = work.new.effort } }
{
    work.effort = work.effort.wrapping_add(work.puts.len() as u64);
}

/// Runs the tasks of a stretch, each in its place, over these arrays. Out of memory, the tasks are lost.
pub fn run_part<P: TaskLoop>(
    alloc: Global,
    program: &P,
    arrays: &Arrays,
    step: u32,
    part: &mut Part<P::Task>,
) -> Result<(), AllocError>
    requires ready { P.ready program.now }
    ensures ran { OnOk result (HasRun (reading_of P.frame P.may P.meant P.Task.path_of program.now) arrays.now step part.old.tasks part.new) }
    ensures count { OnOk result (length part.new.tasks ≡ length part.old.tasks) }
    ensures done { OnOk result (part.new.done ≡ true) }
    ensures unsettled { part.new.settled ≡ false }
    ensures place { part.new.first ≡ part.old.first }
    ensures lost { OnErr result (part.new ≡ fresh_part part.old.first []) }
{
    if part.state.settled.is_some() {
        part.lose();
        return Err(AllocError);
    }
    let state = &mut *part.state;
    state.work.puts.clear();
    state.work.effort = 0;
    state.deeds.clear();
    state.prints.clear();
    let end = state.tasks.len();
    match program.segments(
        alloc,
        arrays,
        step,
        &mut state.tasks,
        0,
        end,
        &mut state.work,
        &mut state.deeds,
        &mut state.prints,
    ) {
        Ok(fault) => {
            state.done = true;
            state.fault = fault;
            add_puts(&mut state.work);
            Ok(())
        }
        Err(fault) => {
            part.lose();
            Err(fault)
        }
    }
}
