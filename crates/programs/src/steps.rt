//! A run on one thread that is taken superstep by superstep: its live tasks are in one list, in path order, and are changed in place.
ghost use Rattle.std.specs.Prelude.{◌≡◌, ◌≤◌, ◌+◌, ◌++◌, ◌∷◌, ◌^◌, ◌<◌, [], ◌↔◌, true, IsTrue, IfOk, OnOk, OnErr, map, length};
ghost use Rattle.std.specs.Vec.{vec_len, vec_capacity};
ghost use Rattle.superstep_memory.specs.Paths.{is_rising};
ghost use Rattle.superstep_memory.specs.PathOrder.{in_path_order};
ghost use Rattle.phase_records.specs.Status.{IsShort};
ghost use Rattle.phase_records.specs.StatusSeen.{status_seen};
ghost use Rattle.programs.specs.InPlace.{living_with, left_in, spawned_in};
ghost use Rattle.programs.specs.Regroup.{AreNumbered};
ghost use Rattle.programs.specs.RunState.{HasTaken, HasRoom};

use crate::alone::Ran;
use crate::blame::{Blame, too_many};
use crate::deeds::{Deeds, Regrouping};
use crate::in_place::{StepScene, do_all};
use crate::program::{OnPath, Program, TaskLoop};
use crate::watch::Watch;
use crate::work::Work;
use phase_records::{JobStatus, PhaseRecord, Print, Report};
use std::alloc::{AllocError, Global};
use std::marker::Model;
use std::mem;
use superstep_memory::arrays::Arrays;
use superstep_memory::puts::Puts;

// A run between two supersteps, its live tasks in path order.
#[derive(Drop)]
struct RunState<T> {
    step: u32,
    arrays: Arrays,
    tasks: Vec<T>,
    prints: Vec<Print>,
    records: Vec<PhaseRecord>,
}

// Working space for a superstep, kept from one to the next. What it holds between two means nothing.
#[derive(Drop)]
struct Space<T> {
    work: Work<T>,
    deeds: Deeds<T>,
    spare: Regrouping<T>,
    olds: Vec<i64>,
}

// Creates an empty space.
fn no_space<T: OnPath>(alloc: Global) -> Space<T> {
    Space {
        work: Work {
            puts: Puts::new(alloc),
            own: Puts::new(alloc),
            prints: Vec::new(alloc),
            spawns: Vec::new(alloc),
            effort: 0,
        },
        deeds: Deeds::new(alloc),
        spare: Regrouping::new(alloc),
        olds: Vec::new(alloc),
    }
}

// Returns true if the same tasks live on.
fn all_stay(counts: PhaseRecord) -> bool
    ensures { IsTrue result ↔ ((counts.left ≡ 0) × (counts.spawned ≡ 0)) }
{
    counts.left == 0 && counts.spawned == 0
}

// Makes room for the record of a superstep, and for the next live tasks if tasks came or left.
fn make_room<T: OnPath>(
    records: &mut Vec<PhaseRecord>,
    spare: &mut Regrouping<T>,
    counts: PhaseRecord,
) -> Result<(), AllocError>
    requires some { counts.left ≤ counts.parties }
    ensures same { records.new.items ≡ records.old.items }
    ensures record { OnOk result (vec_len records.new < vec_capacity records.new) }
    ensures capacity { OnOk result (HasRoom counts (vec_capacity spare.new.living) (vec_capacity spare.new.waiting)) }
{
    records.reserve(1)?;
    if all_stay(counts) {
        return Ok(());
    }
    let count = (counts.parties - counts.left) as usize;
    spare.reserve(count, counts.spawned as usize)
}

// Replaces the tasks by those that live on. Moves them only if tasks came or left. Doesn't allocate.
fn renew<T: OnPath>(
    tasks: &mut Vec<T>,
    deeds: &mut Deeds<T>,
    spare: &mut Regrouping<T>,
    counts: PhaseRecord,
)
    requires same { length tasks.old.items ≡ length deeds.old }
    requires left { counts.left ≡ left_in deeds.old }
    requires spawned { counts.spawned ≡ spawned_in deeds.old }
    requires count { length (living_with tasks.old.items deeds.old) + counts.left ≡ counts.parties }
    requires rising { is_rising (map T.path_of tasks.old.items) ≡ true }
    requires numbered { AreNumbered T.path_of tasks.old.items deeds.old }
    requires capacity { HasRoom counts (vec_capacity spare.old.living) (vec_capacity spare.old.waiting) }
    ensures { tasks.new.items ≡ in_path_order T.path_of (living_with tasks.old.items deeds.old) }
{
    if all_stay(counts) {
        return;
    }
    let count = (counts.parties - counts.left) as usize;
    match deeds.regroup(tasks, spare, count) {
        Ok(()) => {}
        Err(_) => unreachable!(),
    }
}

// Records what the tasks did, whose log has landed, and goes on to the next live tasks. Doesn't allocate.
fn go_on<T: OnPath>(run_state: &mut RunState<T>, space: &mut Space<T>, counts: PhaseRecord)
    requires same { length run_state.old.tasks.items ≡ length space.old.deeds }
    requires left { counts.left ≡ left_in space.old.deeds }
    requires spawned { counts.spawned ≡ spawned_in space.old.deeds }
    requires count { length (living_with run_state.old.tasks.items space.old.deeds) + counts.left ≡ counts.parties }
    requires rising { is_rising (map T.path_of run_state.old.tasks.items) ≡ true }
    requires numbered { AreNumbered T.path_of run_state.old.tasks.items space.old.deeds }
    requires below { run_state.old.step + 1 < 2 ^ 32 }
    requires record { vec_len run_state.old.records < vec_capacity run_state.old.records }
    requires capacity { HasRoom counts (vec_capacity space.old.spare.living) (vec_capacity space.old.spare.waiting) }
    ensures step { run_state.new.step ≡ run_state.old.step + 1 }
    ensures arrays { run_state.new.arrays ≡ run_state.old.arrays }
    ensures tasks { run_state.new.tasks.items ≡ in_path_order T.path_of (living_with run_state.old.tasks.items space.old.deeds) }
    ensures prints { run_state.new.prints.items ≡ run_state.old.prints.items }
    ensures records { run_state.new.records.items ≡ run_state.old.records.items ++ counts ∷ [] }
{
    run_state.records.push_reserved(counts);
    renew(
        &mut run_state.tasks,
        &mut space.deeds,
        &mut space.spare,
        counts,
    );
    run_state.step += 1;
}

// Takes one superstep, or returns the fault that ends the run in it. At most `most` tasks may live on. If memory runs out, the tasks
// and what was printed mean nothing.
fn take_superstep<P: TaskLoop>(
    alloc: Global,
    program: &P,
    most: u32,
    run_state: &mut RunState<P::Task>,
    space: &mut Space<P::Task>,
) -> Result<Option<Blame>, AllocError>
    requires ready { P.ready program.now }
    requires most { most < 2 ^ 31 }
    requires few { length run_state.old.tasks.items ≤ most }
    requires rising { is_rising (map P.Task.path_of run_state.old.tasks.items) ≡ true }
    requires below { run_state.old.step + 1 < 2 ^ 32 }
    ensures taken { IfOk result (λ fault. let p = program.now in
        HasTaken (P.frame p) (P.may p) most (P.meant p) P.Task.path_of fault run_state.old run_state.new) }
    ensures memory { OnErr result ((run_state.new.step ≡ run_state.old.step) × (run_state.new.arrays ≡ run_state.old.arrays) × (run_state.new.records.items ≡ run_state.old.records.items)) }
{
    let printed = run_state.prints.len();
    space.work.puts.clear();
    space.deeds.clear();
    let scene = StepScene {
        program,
        arrays: &run_state.arrays,
        step: run_state.step,
    };
    let fault = do_all(
        alloc,
        &scene,
        &mut run_state.tasks,
        &mut space.work,
        &mut space.deeds,
        &mut run_state.prints,
    )?;
    match fault {
        Some(blame) => {
            run_state.prints.truncate(printed);
            Ok(Some(blame))
        }
        None => {
            if !space.deeds.are_few(most) {
                run_state.prints.truncate(printed);
                return Ok(Some(too_many(alloc)));
            }
            let counts = space.deeds.record(run_state.step);
            make_room(&mut run_state.records, &mut space.spare, counts)?;
            let over = space
                .work
                .puts
                .land(&mut run_state.arrays, &mut space.olds)?;
            match over {
                Some(place) => {
                    run_state.prints.truncate(printed);
                    Ok(space.deeds.blame_at(&run_state.tasks, place))
                }
                None => {
                    go_on(run_state, space, counts);
                    Ok(None)
                }
            }
        }
    }
}

/// A run on one thread that is taken superstep by superstep (own). The program may be another value, or of another type, at each
/// superstep: what a task does is that of the program given then.
#[derive(Drop)]
pub struct Steps<T: OnPath> {
    run_state: RunState<T>,
    space: Space<T>,
    most: u32,
    limit: u32,
    // The fault that has ended the run.
    fault: Option<Blame>,
    // Whether memory ran out in a superstep.
    failed: bool,
}

impl<T: OnPath> Model for Steps<T> {
    ghost use Rattle.std.specs.Prelude.{◌≤◌, ◌<◌, ◌^◌, length};
    ghost use Rattle.programs.specs.Steps.{StepsValue};

    ghost Value = { StepsValue T };

    ghost view = { λ s. record { step = s.run_state.step; arrays = s.run_state.arrays; tasks = s.run_state.tasks.items; prints = s.run_state.prints.items; records = s.run_state.records.items; fault = s.fault; failed = s.failed; most = s.most; limit = s.limit } };

    ghost invariant = { λ s. (s.most < 2 ^ 31) × (length s.run_state.tasks.items ≤ s.most) × (s.run_state.step ≤ s.limit) };
}

// Returns what a run that ended so leaves.
fn leave<T: OnPath>(run_state: RunState<T>, status: JobStatus) -> Ran<T>
    requires { IsShort (status_seen status) }
    ensures report { result.report ≡ record { prints = run_state.prints.items; records = run_state.records.items; arrays = run_state.arrays; status = status_seen status } }
    ensures tasks { result.tasks.items ≡ run_state.tasks.items }
{
    let RunState {
        step: _,
        arrays,
        tasks,
        prints,
        records,
    } = run_state;
    let report = Report {
        prints,
        records,
        arrays,
        status,
    };
    Ran { report, tasks }
}

impl<T: OnPath> Steps<T> {
    ghost use Rattle.std.specs.Prelude.{◌≡◌, ◌≤◌, ◌<◌, ◌^◌, [], true, false, None, IfOk, IfSome, OnOk, OnErr, MatchOption, IsSome, Ok, Err, map, length};
    ghost use Rattle.std.specs.Option.{option_map};
    ghost use Rattle.phase_records.specs.Status.{IsShort, Limit};
    ghost use Rattle.phase_records.specs.StatusSeen.{status_seen};
    ghost use Rattle.programs.specs.Meaning.{children};
    ghost use Rattle.programs.specs.Order.{AreOrdered};
    ghost use Rattle.programs.specs.Steps.{begun, ended, left_by, IsRunning, HasStepped};

    /// Begins a run with these arrays and tasks, of which it has taken no superstep. At most `most` tasks may live at once, and at
    /// most `limit` supersteps are taken. `P` is the type of the program of the first superstep: its tasks are in order.
    pub fn new<P: Program<Task = T>>(
        alloc: Global,
        arrays: Arrays,
        tasks: Vec<T>,
        most: u32,
        limit: u32,
    ) -> Self
        requires most { most < 2 ^ 31 }
        requires few { length tasks.items ≤ most }
        requires paths { map T.path_of tasks.items ≡ children [] 0 (length tasks.items) }
        ensures begun { result ≡ begun arrays tasks.items most limit }
        ensures ordered { (p : P) → AreOrdered (P.frame p) (map (P.meant p) tasks.items) }
    {
        Steps {
            run_state: RunState {
                step: 0,
                arrays,
                tasks,
                prints: Vec::new(alloc),
                records: Vec::new(alloc),
            },
            space: no_space(alloc),
            most,
            limit,
            fault: None,
            failed: false,
        }
    }

    /// Returns how the run has ended, or `None` if another superstep can be taken or memory has run out in one.
    pub fn status(&self) -> Option<JobStatus>
        ensures status { option_map status_seen result ≡ ended self.now }
        ensures short { IfSome result (λ s. IsShort (status_seen s)) }
    {
        if self.failed {
            return None;
        }
        let step = self.run_state.step;
        if let Some(blame) = &self.fault {
            return Some(blame.status(step));
        }
        if self.run_state.tasks.is_empty() {
            return Some(JobStatus::Ended(step));
        }
        if step < self.limit {
            return None;
        }
        Some(JobStatus::Limit(step))
    }

    /// Returns whether memory has run out in a superstep.
    pub fn has_failed(&self) -> bool
        ensures { result ≡ self.now.failed }
    {
        self.failed
    }

    /// Returns how many supersteps were taken.
    pub fn superstep(&self) -> u32
        ensures { result ≡ self.now.step }
    {
        self.run_state.step
    }

    /// Returns the arrays as the next superstep reads them.
    pub fn arrays(&self) -> &Arrays
        ensures { result.now ≡ self.now.arrays }
    {
        &self.run_state.arrays
    }

    /// Returns the live tasks, in path order. After a fault there are none.
    pub fn tasks(&self) -> &[T]
        ensures live { result.now ≡ self.now.tasks }
        ensures few { length result.now ≤ self.now.most }
    {
        &self.run_state.tasks
    }

    /// Returns what the supersteps printed since it was last taken, in order.
    pub fn prints(&self) -> &[Print]
        ensures { result.now ≡ self.now.prints }
    {
        &self.run_state.prints
    }

    /// Returns the records of the supersteps since they were last taken, in order.
    pub fn records(&self) -> &[PhaseRecord]
        ensures { result.now ≡ self.now.records }
    {
        &self.run_state.records
    }

    /// Returns the fault that has ended the run, if one did.
    pub fn fault(&self) -> Option<&Blame>
        ensures { option_map (λ b. b.now) result ≡ self.now.fault }
    {
        self.fault.as_ref()
    }

    /// Asks a watcher whether another superstep may begin.
    pub fn may_go_on<W: Watch>(&self, watch: &mut W) -> bool
        ensures stops { result ≡ false → W.stops self.now.step self.now.arrays (length self.now.tasks) }
        ensures goes { result ≡ true → W.goes self.now.step self.now.arrays (length self.now.tasks) }
    {
        watch.goes_on(self.superstep(), self.arrays(), self.tasks().len())
    }

    /// Exchanges the live tasks for others. Whoever gives them sees to it that they are in path order, and apart with all that they
    /// may spawn.
    pub fn swap_tasks(&mut self, tasks: &mut Vec<T>)
        requires few { length tasks.old.items ≤ self.old.most }
        ensures given { self.new ≡ record self.old { tasks = tasks.old.items } }
        ensures taken { tasks.new.items ≡ self.old.tasks }
        ensures few { length tasks.new.items ≤ self.old.most }
    {
        mem::swap(&mut self.run_state.tasks, tasks);
    }

    /// Lets a run go on in which memory ran out, with these tasks in exchange for those that it has. Whoever gives them sees to it that
    /// they are those from before that superstep. What was printed since it was last taken is lost.
    pub fn resume(&mut self, tasks: &mut Vec<T>)
        requires few { length tasks.old.items ≤ self.old.most }
        ensures given { self.new ≡ record self.old { tasks = tasks.old.items; failed = false } }
        ensures taken { tasks.new.items ≡ self.old.tasks }
    {
        mem::swap(&mut self.run_state.tasks, tasks);
        self.failed = false;
    }

    /// Gives away what the supersteps printed since it was last taken, in order.
    pub fn take_prints(&mut self) -> Vec<Print>
        ensures given { result.items ≡ self.old.prints }
        ensures kept { self.new ≡ record self.old { prints = [] } }
    {
        let none = Vec::new(*self.run_state.prints.allocator());
        mem::replace(&mut self.run_state.prints, none)
    }

    /// Gives away the records of the supersteps since they were last taken, in order.
    pub fn take_records(&mut self) -> Vec<PhaseRecord>
        ensures given { result.items ≡ self.old.records }
        ensures kept { self.new ≡ record self.old { records = [] } }
    {
        let none = Vec::new(*self.run_state.records.allocator());
        mem::replace(&mut self.run_state.records, none)
    }

    /// Returns what the run leaves, or `None` if it hasn't ended.
    pub fn into_report(self) -> Option<Ran<T>>
        ensures report { MatchOption result (ended self ≡ None) (λ ran. IfSome (ended self) (λ s. ran.report ≡ left_by self s)) }
        ensures tasks { IfSome result (λ ran. ran.tasks.items ≡ self.tasks) }
    {
        let status = self.status()?;
        let Steps { run_state, .. } = self;
        Some(leave(run_state, status))
    }

    /// Returns what a run that ends here leaves, as at a limit equal to the number of supersteps that it has taken.
    pub fn stop(self) -> Ran<T>
        ensures report { result.report ≡ left_by self (Limit self.step) }
        ensures tasks { result.tasks.items ≡ self.tasks }
    {
        let Steps { run_state, .. } = self;
        let status = JobStatus::Limit(run_state.step);
        leave(run_state, status)
    }

    /// Takes one superstep: each live task does its segment, one after another, by path. Then their puts land. Returns how the run
    /// has ended, or `None` if another superstep can be taken. After the end, changes nothing.
    ///
    /// The live tasks have to be in path order, and apart with all that they may spawn. They are as the run begins, and after a
    /// superstep of this program; whoever gives another program sees to it that they are by its values too.
    ///
    /// If memory runs out, the tasks are lost, and each later call fails too, unless [`Steps::resume`] gives the run its tasks back. The
    /// arrays and records are those before the superstep.
    pub fn step<P: TaskLoop<Task = T>>(
        &mut self,
        alloc: Global,
        program: &P,
    ) -> Result<Option<JobStatus>, AllocError>
        requires ready { P.ready program.now }
        requires ordered { AreOrdered (P.frame program.now) (map (P.meant program.now) self.old.tasks) }
        ensures over { IsSome (ended self.old) → OnOk result (self.new ≡ self.old) × OnErr result ⊥ }
        ensures failed { self.old.failed ≡ true → OnErr result (self.new ≡ self.old) × OnOk result ⊥ }
        ensures stepped { IsRunning self.old → OnOk result (let p = program.now in HasStepped (P.frame p) (P.may p) (P.meant p) self.old self.new) }
        ensures memory { IsRunning self.old → OnErr result (self.new ≡ record self.old { tasks = []; prints = []; failed = true }) }
        ensures status { IfOk result (λ s. option_map status_seen s ≡ ended self.new) }
        ensures ordered { AreOrdered (P.frame program.now) (map (P.meant program.now) self.new.tasks) }
    {
        if self.failed {
            return Err(AllocError);
        }
        let before = self.status();
        if before.is_some() {
            return Ok(before);
        }
        let Ok(fault) = take_superstep(
            alloc,
            program,
            self.most,
            &mut self.run_state,
            &mut self.space,
        ) else {
            self.run_state.tasks.clear();
            self.run_state.prints.clear();
            self.failed = true;
            return Err(AllocError);
        };
        let Some(blame) = fault else {
            return Ok(self.status());
        };
        self.run_state.tasks.clear();
        self.fault = Some(blame);
        Ok(self.status())
    }
}
