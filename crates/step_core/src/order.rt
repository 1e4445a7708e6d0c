//! Orders and deliveries.
ghost use Rattle.std.specs.Prelude.{◌≡◌, IfOk, map, slice_get};
ghost use Rattle.std.specs.Option.{option_map};
ghost use Rattle.step_core.specs.OrderValue.{now_of};
ghost use Rattle.step_core.specs.SlotParts.{path_of, path_in};

use programs::blame::task_path;
use std::alloc::{AllocError, Global};
use std::marker::Model;
use std::sync::Arc;
use superstep_memory::arrays::Arrays;
use superstep_memory::path::Path;
use task_code::job::Job;
use task_lang::segment::segment;
use task_lang::task::{After, Segment, Task};

/// What the segment of a live task needs: its job, its step, the task and the arrays as it began. It is one of the
/// job's supersteps. The tasks and the arrays are shared among the orders of a superstep.
#[derive(Drop)]
pub struct Order<'j> {
    job: &'j Job,
    superstep: u32,
    place: usize,
    // All live tasks of the step; the order's is at its place.
    tasks: Arc<Vec<Task>>,
    arrays: Arc<Arrays>,
}

impl<'j> Model for Order<'j> {
    ghost use Rattle.std.specs.Prelude.{◌<◌, length};
    ghost use Rattle.step_core.specs.OrderValue.{OrderValue, order_among, IsOrder};
    ghost use Rattle.std.specs.Arc.{arc_value};

    ghost Value = { OrderValue };

    ghost view = { λ o. order_among o.job.now o.superstep o.place (arc_value o.tasks).items (arc_value o.arrays) };

    ghost invariant = { λ o. IsOrder (order_among o.job.now o.superstep o.place (arc_value o.tasks).items (arc_value o.arrays))
        × (o.place < length (arc_value o.tasks).items) };
}

/// What the segment of an order did, for the round that gave it.
#[derive(Drop)]
pub struct Delivery<'j> {
    job: &'j Job,
    step: u32,
    place: usize,
    path: Path,
    segment: Segment,
}

impl<'j> Model for Delivery<'j> {
    ghost use Rattle.step_core.specs.OrderValue.{DeliveryValue, delivery_value, IsDeliveryInside};

    ghost Value = { DeliveryValue };

    ghost view = { λ d. delivery_value d.job.now d.step d.place d.path.items d.segment };

    ghost invariant = { λ d. IsDeliveryInside d.job.now d.step d.place d.path.items d.segment };
}

/// Returns the paths of tasks.
pub fn paths_of(alloc: Global, tasks: &[Task]) -> Result<Vec<Path>, AllocError>
    ensures { IfOk result (λ paths. map path_of paths.items ≡ map path_in tasks.now) }
{
    let mut paths = Vec::new(alloc);
    for task in tasks {
        paths.push(task_path(task))?;
    }
    Ok(paths)
}

// Returns the path of the task at this place, if there is one.
fn path_at(tasks: &[Task], place: usize) -> Option<&[u16]>
    ensures { option_map now_of result ≡ slice_get (map path_in tasks.now) place }
{
    match tasks.get(place) {
        Some(task) => Some(task.path.as_slice()),
        None => None,
    }
}

impl<'j> Order<'j> {
    ghost use Rattle.std.specs.Prelude.{◌≡◌, ◌<◌, IfOk, length};
    ghost use Rattle.task_lang.specs.Meaning.{segment_of};
    ghost use Rattle.task_lang.specs.Views.{plans, meant};
    ghost use Rattle.step_core.specs.OrderValue.{order_among, ordered_task, IsOrder};
    ghost use Rattle.std.specs.Arc.{arc_value};

    /// Creates an order for the task of this place.
    pub fn new(
        job: &'j Job,
        step: u32,
        place: usize,
        tasks: Arc<Vec<Task>>,
        arrays: Arc<Arrays>,
    ) -> Self
        requires order { IsOrder (order_among job.now step place (arc_value tasks).items (arc_value arrays)) }
        requires place { place < length (arc_value tasks).items }
        ensures { result ≡ order_among job.now step place (arc_value tasks).items (arc_value arrays) }
    {
        Order {
            job,
            superstep: step,
            place,
            tasks,
            arrays,
        }
    }

    // Returns its task.
    fn task(&self) -> &Task
        ensures { result.now ≡ self.now.task }
    {
        &self.tasks[self.place]
    }

    // Returns the path of its task, and what its segment does.
    fn run(&self, alloc: Global) -> Result<(Path, Segment), AllocError>
        ensures path { IfOk result (λ r. r.0.items ≡ self.now.task.path) }
        ensures segment { IfOk result (λ r. meant (plans self.now.job.bodies) r.1
            ≡ segment_of (plans self.now.job.bodies) (ordered_task self.now) self.now.arrays self.now.step) }
    {
        let task = self.task();
        let done = segment(alloc, self.job, task, &self.arrays, self.superstep)?;
        Ok((task_path(task), done))
    }

    /// Returns the path of its task. Doesn't allocate.
    pub fn path(&self) -> &[u16]
        ensures { result.now ≡ self.now.task.path }
    {
        self.task().path.as_slice()
    }

    /// Returns the place of its task among the live ones, in path order.
    pub fn place(&self) -> usize
        ensures { result ≡ self.now.place }
    {
        self.place
    }

    /// Returns the superstep, from 0.
    pub fn step(&self) -> u32
        ensures { result ≡ self.now.step }
    {
        self.superstep
    }
}

impl<'j> Delivery<'j> {
    ghost use Rattle.std.specs.Prelude.{◌≡◌, ◌↔◌, IsTrue, IfOk, map, length, slice_get};
    ghost use Rattle.std.specs.Option.{option_map};
    ghost use Rattle.task_lang.specs.Meaning.{segment_of};
    ghost use Rattle.task_lang.specs.Views.{plans};
    ghost use Rattle.step_core.specs.SlotParts.{path_of};
    ghost use Rattle.step_core.specs.OrderValue.{IsDelivery, ordered_task, delivered_segment, has_synced, spawned_paths, now_of};

    /// Does the segment of an order.
    pub fn of(alloc: Global, order: Order<'j>) -> Result<Self, AllocError>
        ensures job { IfOk result (λ d. d.job ≡ order.entry.job) }
        ensures step { IfOk result (λ d. d.step ≡ order.entry.step) }
        ensures place { IfOk result (λ d. d.place ≡ order.entry.place) }
        ensures path { IfOk result (λ d. d.path ≡ order.entry.task.path) }
        ensures segment { IfOk result (λ d. delivered_segment d
            ≡ segment_of (plans order.entry.job.bodies) (ordered_task order.entry) order.entry.arrays order.entry.step) }
    {
        let (path, segment) = order.run(alloc)?;
        Ok(Delivery {
            job: order.job,
            step: order.superstep,
            place: order.place,
            path,
            segment,
        })
    }

    /// Returns the path of its task. Doesn't allocate.
    pub fn path(&self) -> &[u16]
        ensures path { result.now ≡ self.now.path }
        ensures known { IsDelivery self.now }
    {
        self.path.as_slice()
    }

    /// Returns the paths of the tasks that were spawned, in order.
    #[tactic(auto, using(crate::proofs::Deeds::paths_mapped))]
    pub fn spawns(&self, alloc: Global) -> Result<Vec<Path>, AllocError>
        ensures { IfOk result (λ paths. map path_of paths.items ≡ spawned_paths (delivered_segment self.now)) }
    {
        paths_of(alloc, &self.segment.spawns)
    }

    /// Returns the number of tasks that were spawned. Doesn't allocate.
    #[tactic(auto, using(crate::proofs::Deeds::paths_counted))]
    pub fn spawn_count(&self) -> usize
        ensures { result ≡ length (spawned_paths (delivered_segment self.now)) }
    {
        self.segment.spawns.len()
    }

    /// Returns the path of the spawned task of this number, from 0, in order. Doesn't allocate.
    #[tactic(auto, using(crate::proofs::Deeds::paths_mapped))]
    pub fn spawn_path(&self, number: usize) -> Option<&[u16]>
        ensures { option_map now_of result ≡ slice_get (spawned_paths (delivered_segment self.now)) number }
    {
        path_at(&self.segment.spawns, number)
    }

    /// Returns true if its task synced. Doesn't allocate.
    pub fn synced(&self) -> bool
        ensures { result ≡ has_synced (delivered_segment self.now) }
    {
        matches!(self.segment.after, After::Synced(_))
    }

    /// Returns its job.
    pub fn job(&self) -> &'j Job
        ensures { result.now ≡ self.now.job }
    {
        self.job
    }

    /// Returns true if it is of this step.
    pub fn is_of_step(&self, step: u32) -> bool
        ensures { IsTrue result ↔ (self.now.step ≡ step) }
    {
        self.step == step
    }

    /// Returns the place of its task among the live ones, in path order.
    pub fn place(&self) -> usize
        ensures { result ≡ self.now.place }
    {
        self.place
    }

    /// Returns what the segment did.
    pub fn into_segment(self) -> Segment
        ensures same { result ≡ self.entry.segment }
        ensures known { IsDelivery self.entry }
    {
        self.segment
    }
}
