//! A run whose supersteps are given.
ghost use Rattle.std.specs.Prelude.{◌≡◌, ◌↔◌, ◌++◌, [], IsTrue, IfOk, OnOk, OnErr, MatchResult, FitsSigned, length, pos};
ghost use Rattle.std.specs.Int.{w32};
ghost use Rattle.std.specs.Option.{option_map};
ghost use Rattle.std.specs.List.{list_all};
ghost use Rattle.phase_records.specs.StatusSeen.{status_seen};
ghost use Rattle.bsp_steps.specs.Given.{Fit, is_ending, placed_from};
ghost use Rattle.programs.specs.Order.{AreOrdered};
ghost use Rattle.programs.specs.Steps.{IsRunning, HasStepped, ended};
ghost use Rattle.task_bodies.specs.Bodies.{member_frame};
ghost use Rattle.bsp_steps.specs.Runs.{AsGiven, closing, placed};

use crate::given::{Deed, PrintReport};
use crate::given_deeds::GivenDeeds;
use crate::packed::{Block, DeedRead, Unread, lend, read_blocks};
use crate::task::{Task, start_tasks};
use phase_records::{JobStatus, PhaseRecord, Print, text_of_parts};
use programs::program::OnPath;
use programs::steps::Steps;
use std::alloc::{AllocError, Global};
use std::marker::Model;
use superstep_memory::arrays::Arrays;

/// The call was done; of a close: the run goes on.
pub const DONE: i32 = 0;

/// No task lives on.
pub const ENDED: i32 = 1;

/// A fault has ended the run.
pub const FAULT: i32 = 2;

/// The limit was reached with live tasks.
pub const LIMIT: i32 = 3;

/// An allocation failed.
pub const NO_MEMORY: i32 = 6;

/// What was given doesn't fit the live tasks.
pub const UNFIT: i32 = 11;

/// The run is over.
pub const OVER: i32 = 12;

/// The bytes aren't packed deeds.
pub const UNREAD: i32 = 15;

/// A run whose supersteps are given.
#[derive(Drop)]
pub struct Run {
    // What was printed in the last superstep, and the rest of the run.
    steps: Steps<Task>,
    // What was printed before.
    printed: Vec<Print>,
    // Room for the tasks of a superstep. What it holds between two calls means nothing.
    spare: Vec<Task>,
}

impl Model for Run {
    ghost use Rattle.std.specs.Prelude.{◌≡◌, false};
    ghost use Rattle.programs.specs.Order.{AreOrdered};
    ghost use Rattle.task_bodies.specs.Bodies.{member_frame};
    ghost use Rattle.bsp_steps.specs.Runs.{RunValue, after_prints};

    ghost Value = { RunValue };

    ghost view = { λ r. after_prints r.printed.items r.steps };

    ghost invariant = { λ r. AreOrdered member_frame r.steps.tasks × (r.steps.failed ≡ false) };
}

// Copies tasks, each with the place that it has now.
fn copy_placed(tasks: &[Task], copies: &mut Vec<Task>) -> Result<(), AllocError>
    ensures { OnOk result (copies.new.items ≡ placed_from 0 tasks.now) }
{
    copies.clear();
    copies.reserve(tasks.len())?;
    for task in tasks {
        copies.push(task.placed(copies.len()))?;
    }
    Ok(())
}

// Appends what the last superstep printed to what was printed before. If memory runs out, nothing is changed.
fn join_prints(steps: &mut Steps<Task>, printed: &mut Vec<Print>) -> Result<(), AllocError>
    ensures joined { OnOk result ((steps.new ≡ record steps.old { prints = [] }) × (printed.new.items ≡ printed.old.items ++ steps.old.prints)) }
    ensures memory { OnErr result ((steps.new ≡ steps.old) × (printed.new.items ≡ printed.old.items)) }
{
    if steps.prints().is_empty() {
        return Ok(());
    }
    printed.reserve(steps.prints().len())?;
    let mut last = steps.take_prints();
    match printed.append(&mut last) {
        Ok(()) => Ok(()),
        Err(_) => unreachable!(),
    }
}

// Takes a superstep in which each live task leaves what `deeds` report of it. If memory runs out, nothing is changed: the tasks
// do their segments in copies.
fn take_given(
    alloc: Global,
    deeds: &[Deed<'_>],
    steps: &mut Steps<Task>,
    spare: &mut Vec<Task>,
) -> Result<Option<JobStatus>, AllocError>
    requires running { IsRunning steps.old }
    requires none_printed { steps.old.prints ≡ [] }
    requires ordered { AreOrdered member_frame steps.old.tasks }
    ensures stepped { OnOk result (HasStepped member_frame (AsGiven deeds.now) (λ t. t) (placed steps.old) steps.new) }
    ensures memory { OnErr result (steps.new ≡ steps.old) }
    ensures status { IfOk result (λ s. option_map status_seen s ≡ ended steps.new) }
    ensures ordered { AreOrdered member_frame steps.new.tasks }
{
    copy_placed(steps.tasks(), spare)?;
    steps.swap_tasks(spare);
    match steps.step(alloc, &GivenDeeds { deeds }) {
        Ok(status) => Ok(status),
        Err(memory) => {
            steps.resume(spare);
            Err(memory)
        }
    }
}

// Returns true if a deed ends in one of the ways that there are.
#[inline(always)]
fn ends(deed: &Deed<'_>) -> bool
    ensures { result ≡ is_ending deed.now }
{
    deed.ending <= 1 || deed.ending >= 16
}

// Returns true if each deed ends in one of the ways that there are.
fn all_end(deeds: &[Deed<'_>]) -> bool
    ensures { result ≡ list_all is_ending deeds.now }
{
    let mut place = 0;
    while place < deeds.len() {
        if !ends(&deeds[place]) {
            return false;
        }
        place += 1;
    }
    true
}

// Returns true if these deeds fit `live` live tasks.
fn fit(deeds: &[Deed<'_>], live: usize) -> bool
    ensures { IsTrue result ↔ Fit deeds.now live }
{
    deeds.len() == live && all_end(deeds)
}

// Returns the status of a run that has ended so, or that goes on.
fn number_of(status: &Option<JobStatus>) -> i32
    ensures { result ≡ closing (option_map status_seen status.now) }
{
    match status {
        None => DONE,
        Some(JobStatus::Ended(_)) => ENDED,
        Some(JobStatus::Fault { .. }) => FAULT,
        Some(JobStatus::Limit(_)) => LIMIT,
    }
}

// Returns the status of a superstep that was taken, or for which memory ran out.
fn reported_as(taken: Result<Option<JobStatus>, AllocError>) -> i32
    ensures status { MatchResult taken (λ s. result ≡ closing (option_map status_seen s)) (λ _. result ≡ pos 6) }
    ensures fits { FitsSigned w32 result }
{
    match taken {
        Ok(status) => number_of(&status),
        Err(_) => NO_MEMORY,
    }
}

impl Run {
    ghost use Rattle.std.specs.Prelude.{◌≡◌, ◌≤◌, ◌<◌, ◌^◌, [], true, false, IfOk, IfSome, map, length, slice_get};
    ghost use Rattle.std.specs.Option.{option_map};
    ghost use Rattle.phase_records.specs.Status.{IsShort};
    ghost use Rattle.phase_records.specs.StatusSeen.{status_seen};
    ghost use Rattle.programs.specs.Steps.{begun, ended, IsRunning};
    ghost use Rattle.programs.specs.Meaning.{children};
    ghost use Rattle.task_bodies.specs.Bodies.{numbered, path_of};
    ghost use Rattle.bsp_steps.specs.Given.{start_origins};
    ghost use Rattle.bsp_steps.specs.Calls.{print_report};
    ghost use Rattle.bsp_steps.specs.Runs.{refused_starts, text_by, closing, Takes, IsClosed};
    ghost use Rattle.bsp_steps.specs.DeedReads.{read_deed, ClosesBy, IsClosedPacked};

    // Begins a run of these tasks. The program may be that of any superstep.
    fn begin_with(
        alloc: Global,
        arrays: Arrays,
        tasks: Vec<Task>,
        most: u32,
        limit: u32,
        _program: &GivenDeeds<'_>,
    ) -> Run
        requires most { most < 2 ^ 31 }
        requires few { length tasks.items ≤ most }
        requires paths { map path_of tasks.items ≡ children [] 0 (length tasks.items) }
        ensures { result ≡ begun arrays tasks.items most limit }
    {
        Run {
            steps: Steps::new::<GivenDeeds<'_>>(alloc, arrays, tasks, most, limit),
            printed: Vec::new(alloc),
            spare: Vec::new(alloc),
        }
    }

    /// Begins a run of `count` start tasks.
    pub fn begin(
        alloc: Global,
        arrays: Arrays,
        count: u32,
        most: u32,
        limit: u32,
    ) -> Result<Run, AllocError>
        requires few { refused_starts count most ≡ false }
        ensures { IfOk result (λ run. run ≡ begun arrays (numbered [] 0 (start_origins 0 count)) most limit) }
    {
        let tasks = start_tasks(alloc, count)?;
        let reported = GivenDeeds { deeds: &[] };
        Ok(Run::begin_with(alloc, arrays, tasks, most, limit, &reported))
    }

    // Takes a superstep.
    fn take(&mut self, alloc: Global, deeds: &[Deed<'_>]) -> i32
        requires running { IsRunning self.old }
        ensures { Takes self.old self.new deeds.now result }
    {
        let Ok(()) = join_prints(&mut self.steps, &mut self.printed) else {
            return NO_MEMORY;
        };
        reported_as(take_given(alloc, deeds, &mut self.steps, &mut self.spare))
    }

    /// Takes a superstep in which each live task leaves what `deeds` report of it.
    pub fn close(&mut self, alloc: Global, deeds: &[Deed<'_>]) -> i32
        ensures { IsClosed self.old self.new deeds.now result }
    {
        if self.steps.status().is_some() {
            return OVER;
        }
        if !fit(deeds, self.steps.tasks().len()) {
            return UNFIT;
        }
        self.take(alloc, deeds)
    }

    // Takes a superstep by deeds that were read.
    fn close_read(&mut self, alloc: Global, read: &[DeedRead]) -> i32
        ensures { ClosesBy self.old self.new (map read_deed read.now) result }
    {
        let Ok(deeds) = lend(alloc, read) else {
            return NO_MEMORY;
        };
        self.close(alloc, &deeds)
    }

    /// Takes a superstep in which each live task leaves what the bytes of these blocks say.
    pub fn close_packed(&mut self, alloc: Global, blocks: &[Block<'_>], unread: &mut Unread) -> i32
        ensures { IsClosedPacked self.old self.new unread.old unread.new blocks.now result }
    {
        if self.steps.status().is_some() {
            return OVER;
        }
        match read_blocks(alloc, blocks) {
            Ok(Ok(read)) => self.close_read(alloc, &read),
            Ok(Err(place)) => {
                *unread = place;
                UNREAD
            }
            Err(_) => NO_MEMORY,
        }
    }

    /// Returns how the run has ended, if it has.
    pub fn status(&self) -> Option<JobStatus>
        ensures status { option_map status_seen result ≡ ended self.now }
        ensures short { IfSome result (λ s. IsShort (status_seen s)) }
    {
        self.steps.status()
    }

    /// Returns how the run has ended, as the number that `bsp_steps_close` gave, or 0 if it goes on.
    pub fn number(&self) -> i32
        ensures { result ≡ closing (ended self.now) }
    {
        number_of(&self.status())
    }

    /// Returns how many supersteps were taken.
    pub fn superstep(&self) -> u32
        ensures { result ≡ self.now.step }
    {
        self.steps.superstep()
    }

    /// Returns the arrays as the next superstep reads them.
    pub fn arrays(&self) -> &Arrays
        ensures { result.now ≡ self.now.arrays }
    {
        self.steps.arrays()
    }

    /// Returns the live tasks, in path order.
    pub fn tasks(&self) -> &[Task]
        ensures { result.now ≡ self.now.tasks }
    {
        self.steps.tasks()
    }

    /// Returns how many values were printed.
    pub fn print_count(&self) -> usize
        ensures { result ≡ length self.now.prints }
    {
        self.printed.len() + self.steps.prints().len()
    }

    /// Returns the path of a live task.
    pub fn path(&self, task: usize) -> Option<&[u16]>
        ensures { option_map (λ p. p.now) result ≡ option_map (λ t. t.path) (slice_get self.now.tasks task) }
    {
        let found = self.steps.tasks().get(task)?;
        Some(found.path().as_slice())
    }

    // Returns a print by its place.
    fn print_at(&self, place: usize) -> Option<&Print>
        ensures { option_map (λ p. p.now) result ≡ slice_get self.now.prints place }
    {
        let before = self.printed.len();
        if place < before {
            self.printed.get(place)
        } else {
            self.steps.prints().get(place - before)
        }
    }

    /// Returns the records.
    pub fn records(&self) -> &[PhaseRecord]
        ensures { result.now ≡ self.now.records }
    {
        self.steps.records()
    }

    /// Returns a print by its place, and the path of its task.
    pub fn print(&self, place: usize) -> Option<(PrintReport, &[u16])>
        ensures { option_map (λ p. (p.0, p.1.now)) result ≡ option_map print_report (slice_get self.now.prints place) }
    {
        let found = self.print_at(place)?;
        let reported = PrintReport {
            step: found.step,
            value: found.value,
        };
        Some((reported, found.path.as_slice()))
    }

    /// Returns the number of the fault that has ended the run, if one did, and the path of its task.
    pub fn fault(&self) -> Option<(u32, &[u16])>
        ensures { option_map (λ f. (f.0, f.1.now)) result ≡ self.now.fault }
    {
        let blame = self.steps.fault()?;
        Some((u32::from(blame.code), blame.path.as_slice()))
    }

    /// Returns the text of the report of a run that is over, or `None` if it isn't.
    pub fn text(&mut self, alloc: Global) -> Result<Option<Vec<u8>>, AllocError>
        ensures text { IfOk result (λ text. option_map (λ t. t.items) text ≡ text_by self.old (ended self.old)) }
        ensures same { self.new ≡ self.old }
    {
        let Some(status) = self.steps.status() else {
            return Ok(None);
        };
        join_prints(&mut self.steps, &mut self.printed)?;
        let text = text_of_parts(
            alloc,
            &self.printed,
            self.steps.records(),
            self.steps.arrays(),
            &status,
        )?;
        Ok(Some(text))
    }
}
