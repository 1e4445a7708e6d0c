//! The supersteps of a job, taken one by one.
ghost use Rattle.std.specs.Prelude.{◌≡◌, List};
ghost use Rattle.std.specs.Option.{option_map};
ghost use Rattle.task_lang.specs.Meaning.{Plan};
ghost use Rattle.step_core.specs.Slots.{first_missing, missing_in, slots_of};
ghost use Rattle.step_core.specs.SlotParts.{path_of};

use crate::closing::{find_fault, find_missing};
use crate::fault::{AcceptFault, CloseFault, Outcome};
use crate::live::Live;
use crate::next::count_living;
use crate::order::{Delivery, Order, paths_of};
use crate::reading::{find_near, prints_of, records_of};
use crate::slot::{Finished, Slots};
use crate::start_all;
use phase_records::{JobStatus, Report};
use programs::blame::{Blame, too_many};
use std::alloc::{AllocError, Global};
use std::marker::Model;
use std::sync::Arc;
use superstep_memory::arrays::Arrays;
use superstep_memory::path::Path;
use task_code::job::Job;

/// The supersteps of a job so far, and what was delivered of the next. Its type keeps that its arrays, prints, records,
/// live tasks and status are those of the job's supersteps so far, and that each delivery is the segment of its order.
///
/// ```
/// let text = b"bsp 1\narray a 1\nbody b\nput a[0] = 7\nend\nstart b 0\n";
/// let job = read_job(rt.alloc(), text).expect(&rt, "a job");
/// let mut round = Round::new(rt.alloc(), &job, 1000).expect(&rt, "memory");
/// // Orders may be done in any order, by any threads; each delivery is handed in once.
/// let order = round.order(rt.alloc(), &[0]).expect(&rt, "memory");
/// if let Some(order) = order {
///     let delivery = Delivery::of(rt.alloc(), order).expect(&rt, "memory");
///     if !round.has_ended() && round.accept(delivery).is_ok() && !round.has_ended() {
///         assert!(rt; round.close_round(rt.alloc()).is_ok());
///     }
/// }
/// assert!(rt; matches!(round.status(), Some(JobStatus::Ended(1))));
/// ```
#[derive(Drop)]
pub struct Round<'j> {
    job: &'j Job,
    limit: u32,
    step: u32,
    start_arrays: Arc<Arrays>,
    live: Live,
    // For how many live tasks nothing was delivered.
    missing: usize,
    finished: Vec<Finished>,
    fault: Option<Blame>,
}

// Returns the first path for whose task nothing was delivered, if there is one. Looks through the slots only if one is missing.
fn missing_path(missing: usize, slots: &Slots<'_>) -> Option<Path>
    requires { missing ≡ missing_in slots.now }
    ensures { (ps : List Plan) → option_map path_of result ≡ first_missing (slots_of ps slots.now) }
{
    if missing == 0 {
        return None;
    }
    find_missing(slots)
}

impl<'j> Model for Round<'j> {
    ghost use Rattle.step_core.specs.RoundValue.{RoundValue};

    ghost Value = { RoundValue };

    ghost use Rattle.step_core.specs.RoundView.{round_of, IsRoundInside};

    ghost view = { round_of };

    ghost invariant = { IsRoundInside };
}

impl<'j> Round<'j> {
    ghost use Rattle.std.specs.Prelude.{◌≡◌, ◌≤◌, ◌<◌, ◌↔◌, None, Some, IsTrue, IfOk, IfSome, OnOk, IfErr, OnErr, MatchOption, is_some, true, false, length, map, slice_get};
    ghost use Rattle.std.specs.Option.{option_map};
    ghost use Rattle.superstep_memory.specs.Paths.{is_rising};
    ghost use Rattle.phase_records.specs.Status.{IsShort};
    ghost use Rattle.phase_records.specs.StatusSeen.{status_seen};
    ghost use Rattle.step_core.specs.Program.{program_of};
    ghost use Rattle.step_core.specs.JobMeaning.{initial};
    ghost use Rattle.programs.specs.Supersteps.{report_in};
    ghost use Rattle.step_core.specs.Superstep.{superstep, live_paths};
    ghost use Rattle.programs.specs.Superstep.{first_fault};
    ghost use Rattle.step_core.specs.Slots.{delivered, first_missing, missing_in};
    ghost use Rattle.step_core.specs.SlotParts.{path_of, living_in, IsPlaceOf};
    ghost use Rattle.step_core.specs.RoundValue.{IsRound, Opens, state_of, status_in, slots_in, with_fault};
    ghost use Rattle.step_core.specs.Taking.{Refuses, Takes, IsDouble, with_delivery, NotClosed, outcome_of, IsOrderOf, IsOrderAt, is_live, task_at};

    /// Creates a round of this job with this limit of supersteps, before the first of them.
    pub fn new(alloc: Global, job: &'j Job, limit: u32) -> Result<Self, AllocError>
        requires { 1 ≤ limit }
        ensures { IfOk result (λ r. Opens r job.now limit (initial (program_of job.now))) }
    {
        let tasks = start_all(alloc, job.bodies(), job.starts())?;
        let missing = tasks.len();
        let live = Live::new(alloc, tasks)?;
        let arrays = job.arrays().copy(alloc)?;
        match Arc::new(alloc, arrays) {
            Ok(start_arrays) => Ok(Round {
                job,
                limit,
                step: 0,
                start_arrays,
                live,
                missing,
                finished: Vec::new(alloc),
                fault: None,
            }),
            Err(_) => Err(AllocError),
        }
    }

    /// Returns true if the job has ended. Doesn't allocate.
    pub fn has_ended(&self) -> bool
        ensures ended { result ≡ is_some (status_in self.now) }
        ensures round { IsRound self.now }
    {
        self.fault.is_some() || self.live.is_empty() || self.limit <= self.step
    }

    /// Returns how the job has ended, if it has: by a fault, with no task left, or at the limit, looked at in this order.
    /// Doesn't allocate.
    pub fn status(&self) -> Option<JobStatus>
        ensures status { option_map status_seen result ≡ status_in self.now }
        ensures short { IfSome result (λ status. IsShort (status_seen status)) }
        ensures round { IsRound self.now }
    {
        if let Some(blame) = &self.fault {
            return Some(blame.status(self.step));
        }
        if self.live.is_empty() {
            return Some(JobStatus::Ended(self.step));
        }
        if self.limit <= self.step {
            return Some(JobStatus::Limit(self.step));
        }
        None
    }

    /// Returns the live paths, in order: they strictly rise.
    pub fn live(&self, alloc: Global) -> Result<Vec<Path>, AllocError>
        ensures live { IfOk result (λ paths. map path_of paths.items ≡ live_paths (state_of self.now)) }
        ensures rising { is_rising (live_paths (state_of self.now)) ≡ true }
    {
        let tasks = self.live.tasks()?;
        paths_of(alloc, &tasks)
    }

    /// Returns true if it holds this job, by value, and this limit. Doesn't allocate.
    pub fn is_of(&self, job: &Job, limit: u32) -> bool
        ensures { IsTrue result ↔ ((self.now.job ≡ job.now) × (self.now.limit ≡ limit)) }
    {
        self.limit == limit && self.job.same_as(job)
    }

    /// Returns a copy of what the job leaves, once it has ended.
    pub fn report(&self, alloc: Global) -> Result<Option<Report>, AllocError>
        ensures { IfOk result (λ report. report ≡ report_in self.now.limit (state_of self.now)) }
    {
        let Some(status) = self.status() else {
            return Ok(None);
        };
        let prints = prints_of(alloc, &self.finished)?;
        let records = records_of(alloc, &self.finished)?;
        let arrays = self.start_arrays.copy(alloc)?;
        Ok(Some(Report {
            prints,
            records,
            arrays,
            status,
        }))
    }

    /// Returns the arrays as the next superstep begins, or as the job left them. Doesn't allocate.
    pub fn arrays(&self) -> &Arrays
        ensures { result.now ≡ self.now.arrays }
    {
        &self.start_arrays
    }

    /// Returns the number of live tasks for which nothing was delivered yet. It is 0 exactly if closing doesn't return
    /// `Missing`. Doesn't allocate.
    pub fn missing(&self) -> usize
        ensures { result ≡ missing_in self.now.slots }
    {
        self.missing
    }

    /// Returns what the segment of the live task at this place needs.
    pub(crate) fn order_at(&self, place: usize) -> Result<Order<'j>, AllocError>
        requires running { status_in self.now ≡ None }
        requires place { place < length self.now.slots }
        ensures order { IfOk result (λ o. IsOrderAt self.now place o) }
        ensures path { IfOk result (λ o. IsPlaceOf self.now.slots o.task.path place) }
        ensures task { IfOk result (λ o. option_map task_at (slice_get self.now.slots place) ≡ Some o.task) }
    {
        let tasks = self.live.tasks()?;
        let arrays = Arc::try_clone(&self.start_arrays)?;
        Ok(Order::new(self.job, self.step, place, tasks, arrays))
    }

    /// Returns what the segment of the live task of this path needs, the step and the arrays as it began included. Returns
    /// `None` if no live task has this path, or if the job has ended. Copies nothing.
    pub fn order(&self, _alloc: Global, path: &[u16]) -> Result<Option<Order<'j>>, AllocError>
        ensures { IfOk result (λ order. MatchOption order
            (status_in self.now ≡ None → is_live self.now.slots path.now ≡ false)
            (λ o. (status_in self.now ≡ None) × IsOrderOf self.now path.now o)) }
    {
        self.order_near(0, path)
    }

    /// Returns what [`order`](Round::order) returns. If the task is the one at place `near` of the live ones, in path order, it
    /// is found at once; else it takes about as many looks as `order`, which halves.
    pub fn order_near(&self, near: usize, path: &[u16]) -> Result<Option<Order<'j>>, AllocError>
        ensures { IfOk result (λ order. MatchOption order
            (status_in self.now ≡ None → is_live self.now.slots path.now ≡ false)
            (λ o. (status_in self.now ≡ None) × IsOrderOf self.now path.now o)) }
    {
        if self.has_ended() {
            return Ok(None);
        }
        let found = find_near(&self.live.slots(), near, path);
        match found {
            None => Ok(None),
            Some(place) => {
                let order = self.order_at(place)?;
                Ok(Some(order))
            }
        }
    }

    /// Takes a delivery of an order of this round, or refuses to and changes nothing: it is of another step; its order
    /// isn't one of this round, compared by value; its task has one already.
    pub fn accept(&mut self, delivery: Delivery<'j>) -> Result<(), AcceptFault>
        requires running { status_in self.old ≡ None }
        ensures taken { OnOk result (Takes self.old delivery.entry) }
        ensures added { OnOk result (self.new ≡ with_delivery self.old delivery.entry) }
        ensures refused { IfErr result (λ fault. Refuses fault self.old delivery.entry) }
        ensures unchanged { OnErr result (self.new ≡ self.old) }
    {
        if let Some(fault) = self.disowns(&delivery) {
            return Err(fault);
        }
        self.accept_known(delivery)
    }

    // Returns why a delivery isn't of this step and this job, if it isn't.
    fn disowns(&self, delivery: &Delivery<'j>) -> Option<AcceptFault>
        ensures { MatchOption result
            ((delivery.now.step ≡ self.now.step) × (delivery.now.job ≡ self.now.job))
            (λ fault. Refuses fault self.now delivery.now) }
    {
        if !delivery.is_of_step(self.step) {
            return Some(AcceptFault::WrongStep);
        }
        if !self.job.same_as(delivery.job()) {
            return Some(AcceptFault::Stranger);
        }
        None
    }

    /// Returns the number of supersteps that were taken. Doesn't allocate.
    pub fn step(&self) -> u32
        ensures { result ≡ self.now.step }
    {
        self.step
    }

    /// Takes a delivery of an order of this round, or refuses to and changes nothing: it is of another step; its order
    /// isn't one of this round; its task has one already. The caller knows that it is of this job: then an order of this step
    /// is one of this round.
    pub fn accept_known(&mut self, delivery: Delivery<'j>) -> Result<(), AcceptFault>
        requires running { status_in self.old ≡ None }
        requires job { delivery.job ≡ self.old.job }
        ensures taken { OnOk result (Takes self.old delivery.entry) }
        ensures added { OnOk result (self.new ≡ with_delivery self.old delivery.entry) }
        ensures refused { IfErr result (λ fault. Refuses fault self.old delivery.entry) }
        ensures own { delivery.entry.step ≡ self.old.step → IfErr result IsDouble }
        ensures unchanged { OnErr result (self.new ≡ self.old) }
    {
        match self.refuses(&delivery) {
            Some(fault) => Err(fault),
            None => {
                self.keep(delivery);
                Ok(())
            }
        }
    }

    // Returns why a delivery of this job isn't taken, if it isn't.
    fn refuses(&self, delivery: &Delivery<'j>) -> Option<AcceptFault>
        requires running { status_in self.now ≡ None }
        requires job { delivery.now.job ≡ self.now.job }
        ensures answered { MatchOption result (Takes self.now delivery.now) (λ fault. Refuses fault self.now delivery.now) }
        ensures own { delivery.now.step ≡ self.now.step → IfSome result IsDouble }
    {
        if !delivery.is_of_step(self.step) {
            return Some(AcceptFault::WrongStep);
        }
        let place = delivery.place();
        // For the prover: the contract of `path` says that the delivery is of its order's task.
        let _known = delivery.path();
        if self.live.is_done(place) {
            return Some(AcceptFault::Double);
        }
        None
    }

    // Keeps what was delivered.
    fn keep(&mut self, delivery: Delivery<'j>)
        requires running { status_in self.old ≡ None }
        requires taken { Takes self.old delivery }
        ensures { self.new ≡ with_delivery self.old delivery.entry }
    {
        let place = delivery.place();
        let segment = delivery.into_segment();
        self.live.put(place, segment);
        self.missing -= 1;
    }

    // Ends the job by this fault. The superstep leaves nothing else.
    fn end(&mut self, blame: Blame)
        requires round { IsRound (with_fault self.old blame) }
        ensures ended { self.new ≡ with_fault self.old blame }
    {
        self.fault = Some(blame);
    }

    /// Takes one superstep if each live task has its delivery, or refuses to and changes nothing. A task's fault, over 4096
    /// tasks that would live on, or a put that overflows, is no refusal: it ends the job, and the superstep leaves nothing
    /// else.
    pub fn close_round(&mut self, alloc: Global) -> Result<Outcome, CloseFault>
        requires running { status_in self.old ≡ None }
        ensures whole { OnOk result (first_missing (slots_in self.old) ≡ None) }
        ensures closed { OnOk result (Opens self.new self.old.job self.old.limit
            (superstep (program_of self.old.job) (state_of self.old))) }
        ensures outcome { IfOk result (λ outcome. outcome ≡ outcome_of self.old.arrays (delivered (slots_in self.old))) }
        ensures refused { IfErr result (λ fault. NotClosed fault self.old) }
        ensures unchanged { OnErr result (self.new ≡ self.old) }
    {
        let slots = self.live.slots();
        if let Some(path) = missing_path(self.missing, &slots) {
            return Err(CloseFault::Missing(path));
        }
        if let Some(blame) = find_fault(&slots) {
            self.end(blame);
            return Ok(Outcome::Faulted);
        }
        let count = count_living(&slots);
        if count > 4096 {
            self.end(too_many(alloc));
            return Ok(Outcome::TooMany);
        }
        self.land(alloc, count)
    }

    // Takes one superstep in which no task faults, after which `count` tasks live, or ends the job by the first put that
    // overflows. Without memory nothing changes.
    fn land(&mut self, alloc: Global, count: usize) -> Result<Outcome, CloseFault>
        requires running { status_in self.old ≡ None }
        requires whole { first_missing (slots_in self.old) ≡ None }
        requires faultless { first_fault (delivered (slots_in self.old)) ≡ None }
        requires count { count ≡ length (living_in self.old.slots) }
        requires few { count ≤ 4096 }
        ensures closed { OnOk result (Opens self.new self.old.job self.old.limit
            (superstep (program_of self.old.job) (state_of self.old))) }
        ensures outcome { IfOk result (λ outcome. outcome ≡ outcome_of self.old.arrays (delivered (slots_in self.old))) }
        ensures refused { IfErr result (λ fault. NotClosed fault self.old) }
        ensures unchanged { OnErr result (self.new ≡ self.old) }
    {
        let taken = self.live.take_superstep(
            alloc,
            self.step,
            count,
            &mut self.start_arrays,
            &mut self.finished,
        );
        match taken {
            Err(fault) => Err(CloseFault::Memory(fault)),
            Ok(Some(blame)) => {
                self.end(blame);
                Ok(Outcome::Overflowed)
            }
            Ok(None) => {
                self.missing = count;
                self.step += 1;
                Ok(Outcome::Landed)
            }
        }
    }
}
