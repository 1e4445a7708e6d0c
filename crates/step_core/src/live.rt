//! The live tasks of a round, and what was delivered for them.
ghost use Rattle.std.specs.Prelude.{◌≡◌, ◌≤◌, ◌++◌, ◌∷◌, List, [], None, IsSome, IfOk, OnOk, OnErr, map, length};
ghost use Rattle.std.specs.Arc.{arc_value};
ghost use Rattle.std.specs.Vec.{vec_capacity};
ghost use Rattle.superstep_memory.specs.Landing.{landed, joined};
ghost use Rattle.task_lang.specs.Meaning.{Plan};
ghost use Rattle.programs.specs.Superstep.{log_of, overflow};
ghost use Rattle.step_core.specs.Slots.{slots_of, delivered, finished_by};
ghost use Rattle.superstep_memory.specs.PathOrder.{in_path_order};
ghost use Rattle.step_core.specs.SlotParts.{AllSmall, beside, living_by, no_segment, path_in};

use crate::closing::{collect_prints, record_of};
use crate::landing::land_start_arrays;
use crate::next::{list_next, make_room, set_undone};
use crate::slot::{Finished, Slots};
use programs::blame::Blame;
use std::alloc::{AllocError, Global};
use std::marker::Model;
use std::sync::Arc;
use superstep_memory::arrays::Arrays;
use task_lang::task::{Segment, Task};

/// The live tasks of a round in path order, and by place what was delivered for them. Orders share the tasks.
#[derive(Drop)]
pub struct Live {
    tasks: Arc<Vec<Task>>,
    done: Vec<Option<Segment>>,
    // Room for the next tasks, kept from one closing to the next. What it holds means nothing.
    spare: Vec<Task>,
}

impl Model for Live {
    ghost use Rattle.std.specs.Prelude.{◌≡◌, List, length};
    ghost use Rattle.std.specs.Arc.{arc_value};
    ghost use Rattle.step_core.specs.SlotValue.{SlotValue};
    ghost use Rattle.step_core.specs.SlotParts.{beside};

    ghost Value = { List SlotValue };

    ghost view = { λ l. beside (arc_value l.tasks).items l.done.items };

    ghost invariant = { λ l. length (arc_value l.tasks).items ≡ length l.done.items };
}

// Lands what was delivered, and keeps what the superstep printed and its record. If a put overflows, reports the first
// that does. Then, and if memory runs out, nothing changes.
fn finish(
    alloc: Global,
    step: u32,
    slots: &Slots<'_>,
    start_arrays: &mut Arc<Arrays>,
    finished: &mut Vec<Finished>,
) -> Result<Option<Blame>, AllocError>
    requires few { length slots.now ≤ 4096 }
    requires small { AllSmall slots.now }
    ensures fault { IfOk result (λ fault. (ps : List Plan)
        → fault ≡ overflow (arc_value start_arrays.old) (delivered (slots_of ps slots.now))) }
    ensures lands { IfOk result (λ fault. fault ≡ None → (ps : List Plan)
        → arc_value start_arrays.new ≡ landed (joined (map log_of (delivered (slots_of ps slots.now)))) (arc_value start_arrays.old)) }
    ensures tells { IfOk result (λ fault. fault ≡ None → (ps : List Plan)
        → finished.new.items ≡ finished.old.items ++ finished_by step (delivered (slots_of ps slots.now)) ∷ []) }
    ensures unlanded { IfOk result (λ fault. IsSome fault
        → (arc_value start_arrays.new ≡ arc_value start_arrays.old) × (finished.new.items ≡ finished.old.items)) }
    ensures same_arrays { OnErr result (arc_value start_arrays.new ≡ arc_value start_arrays.old) }
    ensures same_tales { OnErr result (finished.new.items ≡ finished.old.items) }
{
    let prints = collect_prints(alloc, step, slots)?;
    let counts = record_of(step, slots);
    finished.reserve(1)?;
    if let Some(blame) = land_start_arrays(alloc, start_arrays, slots)? {
        return Ok(Some(blame));
    }
    match finished.push(Finished { prints, counts }) {
        Ok(()) => Ok(None),
        Err(_) => unreachable!(),
    }
}

// Returns a list for the next tasks, which can be filled because nobody else has it, and makes room for `count` tasks beside
// it. If memory runs out, nothing that has a meaning changes.
fn list_for(
    alloc: Global,
    spare: &mut Vec<Task>,
    done: &mut Vec<Option<Segment>>,
    count: usize,
) -> Result<Arc<Vec<Task>>, AllocError>
    ensures tasks { OnOk result ((spare.new.items ≡ []) × (count ≤ vec_capacity spare.new)) }
    ensures places { OnOk result (count ≤ vec_capacity done.new) }
    ensures same { done.new.items ≡ done.old.items }
{
    make_room(spare, done, count)?;
    match Arc::new(alloc, Vec::new(alloc)) {
        Ok(list) => Ok(list),
        Err(_) => Err(AllocError),
    }
}

// Lands what was delivered for these tasks, and puts the next into a list that nobody else has. If a put overflows,
// reports the first that does. Then, and if memory runs out, nothing changes.
fn close_into(
    alloc: Global,
    step: u32,
    tasks: &[Task],
    done: &mut Vec<Option<Segment>>,
    spare: &mut Vec<Task>,
    next: &mut Arc<Vec<Task>>,
    start_arrays: &mut Arc<Arrays>,
    finished: &mut Vec<Finished>,
) -> Result<Option<Blame>, AllocError>
    requires few { length (beside tasks.now done.old.items) ≤ 4096 }
    requires small { AllSmall (beside tasks.now done.old.items) }
    requires none_yet { spare.old.items ≡ [] }
    requires capacity { length (living_by done.old.items) ≤ vec_capacity spare.old }
    requires places { length (living_by done.old.items) ≤ vec_capacity done.old }
    ensures fault { IfOk result (λ fault. (ps : List Plan)
        → fault ≡ overflow (arc_value start_arrays.old) (delivered (slots_of ps (beside tasks.now done.old.items)))) }
    ensures lands { IfOk result (λ fault. fault ≡ None → (ps : List Plan) → arc_value start_arrays.new
        ≡ landed (joined (map log_of (delivered (slots_of ps (beside tasks.now done.old.items))))) (arc_value start_arrays.old)) }
    ensures tells { IfOk result (λ fault. fault ≡ None → (ps : List Plan) → finished.new.items
        ≡ finished.old.items ++ finished_by step (delivered (slots_of ps (beside tasks.now done.old.items))) ∷ []) }
    ensures tasks { IfOk result (λ fault. fault ≡ None → (arc_value next.new).items ≡ in_path_order path_in (living_by done.old.items)) }
    ensures none { IfOk result (λ fault. fault ≡ None → done.new.items ≡ map no_segment (arc_value next.new).items) }
    ensures unlanded { IfOk result (λ fault. IsSome fault → (done.new.items ≡ done.old.items)
        × (arc_value start_arrays.new ≡ arc_value start_arrays.old) × (finished.new.items ≡ finished.old.items)) }
    ensures same_done { OnErr result (done.new.items ≡ done.old.items) }
    ensures same_arrays { OnErr result (arc_value start_arrays.new ≡ arc_value start_arrays.old) }
    ensures same_tales { OnErr result (finished.new.items ≡ finished.old.items) }
{
    let Some(list) = Arc::get_mut(next) else {
        return Err(AllocError);
    };
    if let Some(blame) = finish(alloc, step, &Slots::of(tasks, done), start_arrays, finished)? {
        return Ok(Some(blame));
    }
    list_next(done, spare, list);
    Ok(None)
}

// Keeps the room of a list of tasks that nobody has any more.
fn reuse(last: Arc<Vec<Task>>, spare: &mut Vec<Task>) {
    if let Ok(mut tasks) = Arc::try_unwrap(last) {
        tasks.clear();
        *spare = tasks;
    }
}

impl Live {
    ghost use Rattle.std.specs.Prelude.{◌≡◌, ◌<◌, ◌≤◌, ◌↔◌, ◌++◌, ◌∷◌, List, [], None, IsSome, IfOk, OnErr, IsTrue, map, length, slice_get};
    ghost use Rattle.std.specs.Arc.{arc_value};
    ghost use Rattle.superstep_memory.specs.Landing.{landed, joined};
    ghost use Rattle.superstep_memory.specs.PathOrder.{in_path_order};
    ghost use Rattle.task_lang.specs.Meaning.{Plan};
    ghost use Rattle.programs.specs.Superstep.{log_of, overflow};
    ghost use Rattle.step_core.specs.Slots.{slots_of, delivered, finished_by, with_segment};
    ghost use Rattle.step_core.specs.SlotParts.{AllSmall, path_in, fresh_slot, living_in};
    ghost use Rattle.step_core.specs.Taking.{is_done, task_at};

    /// Creates a list of these tasks, with nothing delivered for them.
    pub fn new(alloc: Global, tasks: Vec<Task>) -> Result<Self, AllocError>
        ensures { IfOk result (λ live. live ≡ map fresh_slot tasks.items) }
    {
        let mut done = Vec::with_capacity(alloc, tasks.len())?;
        set_undone(&mut done, &tasks);
        match Arc::new(alloc, tasks) {
            Ok(tasks) => Ok(Live {
                tasks,
                done,
                spare: Vec::new(alloc),
            }),
            Err(_) => Err(AllocError),
        }
    }

    /// Returns each task beside what was delivered for it.
    pub fn slots(&self) -> Slots<'_>
        ensures { result ≡ self.now }
    {
        Slots::of(&self.tasks, &self.done)
    }

    /// Returns true if no task lives.
    pub fn is_empty(&self) -> bool
        ensures { IsTrue result ↔ (self.now ≡ []) }
    {
        self.slots().split_first().is_none()
    }

    /// Returns the tasks, shared.
    pub fn tasks(&self) -> Result<Arc<Vec<Task>>, AllocError>
        ensures { IfOk result (λ tasks. (arc_value tasks).items ≡ map task_at self.now) }
    {
        Arc::try_clone(&self.tasks)
    }

    /// Returns true if the segment of the task at this place was delivered.
    pub fn is_done(&self, place: usize) -> bool
        requires { place < length self.now }
        ensures { result ≡ is_done (slice_get self.now place) }
    {
        self.done[place].is_some()
    }

    /// Keeps what was delivered for the task at this place.
    pub fn put(&mut self, place: usize, segment: Segment)
        requires { place < length self.old }
        ensures { self.new ≡ with_segment self.old place segment }
    {
        self.done[place] = Some(segment);
    }

    /// Lands what was delivered, keeps what the superstep printed and its record, and goes on to the next live tasks,
    /// `count` of them. If a put overflows, reports the first that does. Then, and if memory runs out, nothing changes.
    pub fn take_superstep(
        &mut self,
        alloc: Global,
        step: u32,
        count: usize,
        start_arrays: &mut Arc<Arrays>,
        finished: &mut Vec<Finished>,
    ) -> Result<Option<Blame>, AllocError>
        requires few { length self.old ≤ 4096 }
        requires small { AllSmall self.old }
        requires count { count ≡ length (living_in self.old) }
        ensures fault { IfOk result (λ fault. (ps : List Plan)
            → fault ≡ overflow (arc_value start_arrays.old) (delivered (slots_of ps self.old))) }
        ensures lands { IfOk result (λ fault. fault ≡ None → (ps : List Plan)
            → arc_value start_arrays.new ≡ landed (joined (map log_of (delivered (slots_of ps self.old)))) (arc_value start_arrays.old)) }
        ensures tells { IfOk result (λ fault. fault ≡ None → (ps : List Plan)
            → finished.new.items ≡ finished.old.items ++ finished_by step (delivered (slots_of ps self.old)) ∷ []) }
        ensures next { IfOk result (λ fault. fault ≡ None → self.new ≡ map fresh_slot (in_path_order path_in (living_in self.old))) }
        ensures unlanded { IfOk result (λ fault. IsSome fault → (self.new ≡ self.old)
            × (arc_value start_arrays.new ≡ arc_value start_arrays.old) × (finished.new.items ≡ finished.old.items)) }
        ensures same_tasks { OnErr result (self.new ≡ self.old) }
        ensures same_arrays { OnErr result (arc_value start_arrays.new ≡ arc_value start_arrays.old) }
        ensures same_tales { OnErr result (finished.new.items ≡ finished.old.items) }
    {
        let mut next = list_for(alloc, &mut self.spare, &mut self.done, count)?;
        let landed = close_into(
            alloc,
            step,
            &self.tasks,
            &mut self.done,
            &mut self.spare,
            &mut next,
            start_arrays,
            finished,
        )?;
        if let Some(blame) = landed {
            return Ok(Some(blame));
        }
        let last = std::mem::replace(&mut self.tasks, next);
        reuse(last, &mut self.spare);
        Ok(None)
    }
}
