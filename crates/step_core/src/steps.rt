//! A run of a job on one thread, superstep by superstep.
ghost use Rattle.std.specs.Prelude.{◌≡◌, ◌≤◌, IfOk};
ghost use Rattle.task_lang.specs.Views.{plans, task_of};

use crate::job::{Beginning, JobProgram, MOST_TASKS, begin};
use phase_records::{JobStatus, PhaseRecord, Print};
use programs::alone::Ran;
use programs::steps::Steps;
use std::alloc::{AllocError, Global};
use std::marker::Model;
use superstep_memory::arrays::Arrays;
use task_code::job::Job;
use task_lang::task::Task;

/// A run of a job on one thread that is taken superstep by superstep (own): [`Steps`] whose program is the job.
///
/// ```
/// let text = b"bsp 1\nbody b\nprint 7\nsync\nprint 8\nend\nstart b 0\n";
/// let job = read_job(rt.alloc(), text).expect(&rt, "a job");
/// let mut run = JobSteps::new(rt.alloc(), &job, 1000).expect(&rt, "memory");
/// for _ in 0..2 {
///     assert!(rt; run.step(rt.alloc()).is_ok());
///     // The run forgets the prints that are taken, so a long run needs no more memory than a short one.
///     assert!(rt; run.take_prints().len() == 1);
///     assert!(rt; run.take_records().len() == 1);
/// }
/// assert!(rt; matches!(run.status(), Some(JobStatus::Ended(2))));
/// ```
#[derive(Drop)]
pub struct JobSteps<'j> {
    job: &'j Job,
    steps: Steps<Task>,
}

impl<'j> Model for JobSteps<'j> {
    ghost use Rattle.std.specs.Prelude.{map};
    ghost use Rattle.programs.specs.Order.{AreOrdered};
    ghost use Rattle.task_lang.specs.Views.{plans, task_of};
    ghost use Rattle.step_core.specs.Superstep.{job_frame};
    ghost use Rattle.step_core.specs.JobRun.{JobRunValue};

    ghost Value = { JobRunValue };

    ghost view = { λ s. record { job = s.job.now; run = s.steps } };

    ghost invariant = { λ s. AreOrdered job_frame (map (task_of (plans s.job.now.bodies)) s.steps.tasks) };
}

impl<'j> JobSteps<'j> {
    ghost use Rattle.std.specs.Prelude.{◌≡◌, ◌+◌, ℕ, List, [], true, None, IfOk, OnOk, OnErr, IfSome, IsSome, MatchOption};
    ghost use Rattle.std.specs.Option.{is_some, option_map};
    ghost use Rattle.phase_records.specs.PrintValue.{PrintValue};
    ghost use Rattle.phase_records.specs.declared.record.PhaseRecord.{PhaseRecord as RecordValue};
    ghost use Rattle.phase_records.specs.Status.{IsShort};
    ghost use Rattle.phase_records.specs.StatusSeen.{status_seen};
    ghost use Rattle.programs.specs.Steps.{ended, left_by, IsRunning};
    ghost use Rattle.programs.specs.Supersteps.{status as status_in};
    ghost use Rattle.step_core.specs.JobRun.{HasStepped, IsAfter, IsLater, state_after};

    /// Begins a run of a job that takes at most `limit` supersteps.
    pub fn new(alloc: Global, job: &'j Job, limit: u32) -> Result<Self, AllocError>
        ensures begun { IfOk result (λ run. IsAfter 0 [] [] run) }
        ensures job { IfOk result (λ run. (run.job ≡ job.now) × (run.run.limit ≡ limit)) }
    {
        let Beginning { arrays, tasks } = begin(alloc, job)?;
        Ok(JobSteps {
            job,
            steps: Steps::new::<JobProgram<'j>>(alloc, arrays, tasks, MOST_TASKS, limit),
        })
    }

    /// Returns how the run has ended, or `None` if another superstep can be taken or memory has run out in one.
    pub fn status(&self) -> Option<JobStatus>
        ensures status { option_map status_seen result ≡ ended self.now.run }
        ensures job { (n : ℕ) (ps : List PrintValue) (rs : List RecordValue) → IsAfter n ps rs self.now → option_map status_seen result ≡ status_in self.now.run.limit (state_after self.now n) }
        ensures short { IfSome result (λ s. IsShort (status_seen s)) }
    {
        self.steps.status()
    }

    /// Returns how many supersteps were taken.
    pub fn superstep(&self) -> u32
        ensures { result ≡ self.now.run.step }
    {
        self.steps.superstep()
    }

    /// Returns the arrays as the next superstep reads them.
    pub fn arrays(&self) -> &Arrays
        ensures { result.now ≡ self.now.run.arrays }
    {
        self.steps.arrays()
    }

    /// Returns the live tasks, in path order. After a fault there are none.
    pub fn tasks(&self) -> &[Task]
        ensures { result.now ≡ self.now.run.tasks }
    {
        self.steps.tasks()
    }

    /// Takes one superstep. Returns how the run has ended, or `None` if another superstep can be taken. After the end, changes
    /// nothing.
    ///
    /// If memory runs out, the tasks are lost and the run can't go on: each later call fails too. The arrays and records are those
    /// before the superstep.
    pub fn step(&mut self, alloc: Global) -> Result<Option<JobStatus>, AllocError>
        ensures over { IsSome (ended self.old.run) → OnOk result (self.new ≡ self.old) × OnErr result ⊥ }
        ensures failed { self.old.run.failed ≡ true → OnErr result (self.new ≡ self.old) × OnOk result ⊥ }
        ensures stepped { IsRunning self.old.run → OnOk result (HasStepped self.old self.new) }
        ensures memory { IsRunning self.old.run → OnErr result (self.new ≡ record self.old { run = record self.old.run { tasks = []; prints = []; failed = true } }) }
        ensures next { OnOk result ((n : ℕ) (ps : List PrintValue) (rs : List RecordValue) → IsAfter n ps rs self.old → IsAfter (n + 1) ps rs self.new) }
        ensures status { IfOk result (λ s. option_map status_seen s ≡ ended self.new.run) }
        ensures job { (self.new.job ≡ self.old.job) × (OnOk result (self.new.run.limit ≡ self.old.run.limit)) }
    {
        let program = JobProgram { job: self.job };
        self.steps.step(alloc, &program)
    }

    // Takes one superstep, and drops what was printed and recorded. Returns true if the run has ended.
    fn step_and_discard(&mut self, alloc: Global) -> Result<bool, AllocError>
        ensures later { OnOk result (IsLater 1 self.old self.new) }
        ensures over { IfOk result (λ over. over ≡ true → is_some (ended self.new.run) ≡ true) }
    {
        let status = self.step(alloc)?;
        self.take_prints();
        self.take_records();
        Ok(status.is_some())
    }

    /// Takes this many supersteps, or fewer if the run ends, and drops what was printed and recorded.
    ///
    /// If memory runs out, the run can't go on: each later call of [`JobSteps::step`] fails too.
    #[tactic(auto, using(crate::proofs::Stepped::none_on, crate::proofs::Stepped::more_on))]
    pub fn advance(&mut self, alloc: Global, count: u32) -> Result<(), AllocError>
        ensures { OnOk result (IsLater count self.old self.new) }
    {
        for _ in 0..count {
            if self.step_and_discard(alloc)? {
                return Ok(());
            }
        }
        Ok(())
    }

    /// Gives away what the supersteps printed since it was last taken, in order.
    pub fn take_prints(&mut self) -> Vec<Print>
        ensures given { result.items ≡ self.old.run.prints }
        ensures kept { self.new ≡ record self.old { run = record self.old.run { prints = [] } } }
    {
        self.steps.take_prints()
    }

    /// Gives away the records of the supersteps since they were last taken, in order.
    pub fn take_records(&mut self) -> Vec<PhaseRecord>
        ensures given { result.items ≡ self.old.run.records }
        ensures kept { self.new ≡ record self.old { run = record self.old.run { records = [] } } }
    {
        self.steps.take_records()
    }

    /// Returns what the run leaves, but for what was taken, or `None` if it hasn't ended.
    pub fn into_report(self) -> Option<Ran<Task>>
        ensures report { MatchOption result (ended self.entry.run ≡ None) (λ ran. IfSome (ended self.entry.run) (λ s. ran.report ≡ left_by self.entry.run s)) }
        ensures tasks { IfSome result (λ ran. ran.tasks.items ≡ self.entry.run.tasks) }
    {
        let JobSteps { steps, .. } = self;
        steps.into_report()
    }
}
