//! The supersteps of a program, run stretch by stretch.
ghost use Rattle.std.specs.Prelude.{◌≡◌, if◌then◌else◌, [], IfOk};
ghost use Rattle.phase_records.specs.Status.{IsShort};
ghost use Rattle.phase_records.specs.StatusSeen.{status_seen};
ghost use Rattle.program_stretches.specs.StretchesValue.{is_at_limit};
ghost use Rattle.program_stretches.specs.Parts.{tasks_in};
ghost use Rattle.std.specs.Arc.{arc_value};

use crate::fault::{AcceptStretchFault, CloseStretchesFault, Outcome};
use crate::hand_over::{give_all_prints, give_all_tasks, join_adds, print_and_renew};
use crate::landing::land_shared;
use crate::lines::Lines;
use crate::moving::make_room;
use crate::next::next_parts;
use crate::part::{Part, blame_again};
use crate::parts::{count_left, count_spawned, cover, find_blame, find_fault};
use crate::ready::{Ready, get_ready};
use crate::start::SuperstepStart;
use crate::stretch::Stretch;
use ghost_lists::log::{Log, Snapshot, Start, Writer};
use phase_records::{JobStatus, PhaseRecord, Print, Report};
use programs::alone::Ran;
use programs::blame::{Blame, too_many};
use programs::deeds::Deeds;
use programs::program::{OnPath, Program};
use std::alloc::{AllocError, Global};
use std::marker::Model;
use std::mem;
use std::sync::Arc;
use superstep_memory::arrays::Arrays;
use superstep_memory::puts::Puts;

/// The supersteps of a run so far, and the stretches of live tasks of the next that aren't taken. Its type keeps that its arrays,
/// prints, records and status are those of a history of supersteps, whose tasks each left what they may leave.
#[derive(Drop)]
pub struct Stretches<'t, 'p, P: Program> {
    log: &'t Log<SuperstepStart<'p, P, P::Task>>,
    writer: Writer<SuperstepStart<'p, P, P::Task>>,
    program: &'p P,
    // How many tasks may live at once.
    most: u32,
    limit: u32,
    // About how many stretches the live tasks are cut into.
    pieces: usize,
    step: u32,
    arrays: Arc<Arrays>,
    // How many tasks live.
    count: usize,
    // By number: `None` if one is taken.
    parts: Vec<Option<Part<P::Task>>>,
    prints: Vec<Print>,
    records: Vec<PhaseRecord>,
    fault: Option<Blame>,
    // How many supersteps' prints and records were given away.
    given: u32,
    // Room for landing. What it holds means nothing.
    olds: Vec<i64>,
}

impl<'t, 'p, P: Program> Model for Stretches<'t, 'p, P> {
    ghost use Rattle.program_stretches.specs.Parts.{reading_of};
    ghost use Rattle.program_stretches.specs.StretchesValue.{StretchesValue};
    ghost use Rattle.program_stretches.specs.StretchesView.{stretches_of, IsStretchesInside};

    ghost Value = { StretchesValue P P.Task };

    ghost view = { stretches_of };

    ghost invariant = { λ i. IsStretchesInside (reading_of P.frame P.may P.meant P.Task.path_of) P.ready i };
}

impl<'t, 'p, P: Program> Stretches<'t, 'p, P> {
    ghost use Rattle.std.specs.Prelude.{◌≡◌, ◌≤◌, ◌<◌, ◌+◌, ◌^◌, ◌++◌, ◌∷◌, [], None, Some, true, false, IsTrue, IfOk, IfSome, OnOk, IfErr, OnErr, MatchOption, is_some, not, ◌||◌, length, map, slice_get};
    ghost use Rattle.std.specs.Option.{option_map};
    ghost use Rattle.phase_records.specs.Status.{IsShort, Limit};
    ghost use Rattle.phase_records.specs.StatusSeen.{status_seen};
    ghost use Rattle.programs.specs.Meaning.{children};
    ghost use Rattle.ghost_lists.specs.Agreed.{WasBefore};
    ghost use Rattle.programs.specs.InPlace.{record_in, left_in, spawned_in, made_in};
    ghost use Rattle.std.specs.List.{list_all};
    ghost use Rattle.superstep_memory.specs.Landing.{is_set};
    ghost use Rattle.program_stretches.specs.Next.{CanAllSettle};
    ghost use Rattle.program_stretches.specs.Parts.{reading_of, AreFresh, EachDid, FindsMaker, covers, settled_at, tasks_in, puts_in, deeds_in, prints_in};
    ghost use Rattle.program_stretches.specs.StretchesValue.{status_in, left_after, can_leave, can_stop, ready_at, tasks_at, with_slot, IsAfter, IsRunSoFar, HaveRun, OverflowsAt};
    ghost use Rattle.program_stretches.specs.Closing.{IsBegun, IsTaken, Refuses, Accepts, IsSameRun, NotClosed, IsClosed, EndsBy, IsLeftAs, HasLeft, HasLeftTo, IsGiven, IsReopened, AllStay, Logs, opened_with};

    /// Creates a run of `program` that begins with these arrays and tasks, with a new log. At most `most` tasks may live at once,
    /// and the run takes at most `limit` supersteps. Whenever tasks come or leave, the live ones are cut into about `pieces`
    /// stretches.
    pub fn new(
        alloc: Global,
        log: &'t Log<SuperstepStart<'p, P, P::Task>>,
        start: Start<SuperstepStart<'p, P, P::Task>>,
        program: &'p P,
        arrays: Arrays,
        tasks: Vec<P::Task>,
        most: u32,
        limit: u32,
        pieces: usize,
    ) -> Result<Self, AllocError>
        requires start { start ≡ log.now }
        requires ready { P.ready program.now }
        requires most { most < 2 ^ 31 }
        requires few { length tasks.items ≤ most }
        requires paths { map P.Task.path_of tasks.items ≡ children [] 0 (length tasks.items) }
        requires pieces { 1 ≤ pieces }
        ensures { IfOk result (λ all. IsBegun log.now program.now arrays tasks.items most limit all) }
    {
        let Ok(ready) = get_ready(alloc, arrays, tasks, pieces) else {
            start.give_up();
            return Err(AllocError);
        };
        let Ready {
            arrays,
            shared,
            count,
            parts,
        } = ready;
        let mut writer = log.write(start);
        let SuperstepStart { parts, .. } = writer.note(
            log,
            SuperstepStart {
                program,
                most,
                limit,
                arrays: shared,
                parts,
            },
        );
        Ok(Stretches {
            log,
            writer,
            program,
            most,
            limit,
            pieces,
            step: 0,
            arrays,
            count,
            parts,
            prints: Vec::new(alloc),
            records: Vec::new(alloc),
            fault: None,
            given: 0,
            olds: Vec::new(alloc),
        })
    }

    /// Returns a snapshot of the log of opened supersteps.
    pub fn snapshot(&mut self) -> Snapshot<SuperstepStart<'p, P, P::Task>>
        ensures same { self.new ≡ self.old }
        ensures snapshot { result ≡ record { name = self.old.name; log = self.old.log } }
    {
        self.writer.snapshot(self.log)
    }

    /// Proves that an earlier snapshot of the log of opened supersteps is a beginning of that log.
    pub fn compare(&mut self, earlier: Snapshot<SuperstepStart<'p, P, P::Task>>)
        requires { earlier.name ≡ self.old.name }
        ensures same { self.new ≡ self.old }
        ensures before { WasBefore earlier.entry.log self.old.log }
    {
        self.writer.compare(self.log, earlier);
    }

    /// Returns the arrays with which the next superstep begins.
    pub fn arrays(&self) -> &Arrays
        ensures { result.now ≡ self.now.arrays }
    {
        &self.arrays
    }

    /// Returns how the run has ended, or `None` if it goes on. Checks, in this order, for a fault, for no live task, and for the
    /// limit. Doesn't allocate.
    pub fn status(&self) -> Option<JobStatus>
        ensures status { option_map status_seen result ≡ status_in self.now }
        ensures short { IfSome result (λ status. IsShort (status_seen status)) }
    {
        if let Some(blame) = &self.fault {
            return Some(blame_again(blame).status(self.step));
        }
        if self.count == 0 {
            return Some(JobStatus::Ended(self.step));
        }
        if self.limit <= self.step {
            return Some(JobStatus::Limit(self.step));
        }
        None
    }

    /// Returns true if the run has ended. Doesn't allocate.
    pub fn has_ended(&self) -> bool
        ensures { result ≡ is_some (status_in self.now) }
    {
        self.fault.is_some() || self.count == 0 || self.limit <= self.step
    }

    /// Returns the number of supersteps taken so far. Doesn't allocate.
    pub fn step(&self) -> u32
        ensures { result ≡ self.now.step }
    {
        self.step
    }

    /// Returns the number of stretches of live tasks. Doesn't allocate.
    pub fn len(&self) -> usize
        ensures { result ≡ length self.now.parts }
    {
        self.parts.len()
    }

    /// Returns the number of live tasks. Doesn't allocate.
    pub fn count(&self) -> usize
        ensures { result ≡ self.now.count }
    {
        self.count
    }

    /// Returns the number of tasks in the stretch of this number, or 0 if it is out. Doesn't allocate.
    pub fn length(&self, number: usize) -> usize
        ensures { result ≡ length (tasks_at (slice_get self.now.parts number)) }
    {
        match self.parts.get(number) {
            Some(Some(part)) => part.len(),
            Some(None) | None => 0,
        }
    }

    /// Returns true if the stretch of this number isn't out and hasn't run. Doesn't allocate.
    pub fn is_ready(&self, number: usize) -> bool
        ensures { result ≡ ready_at (slice_get self.now.parts number) }
    {
        match self.parts.get(number) {
            Some(Some(part)) => !part.is_done(),
            Some(None) | None => false,
        }
    }

    /// Gives out the stretch of this number, if it is ready.
    pub fn take(&mut self, number: usize) -> Result<Option<Stretch<'p, P>>, AllocError>
        ensures taken { IfOk result (λ taken. MatchOption taken
            ((ready_at (slice_get self.old.parts number) ≡ false) × (self.new ≡ self.old))
            (λ stretch. IsTaken self.old self.new number stretch)) }
        ensures unchanged { OnErr result (self.new ≡ self.old) }
        ensures ready { OnErr result (ready_at (slice_get self.old.parts number) ≡ true) }
    {
        if !self.is_ready(number) {
            return Ok(None);
        }
        let arrays = Arc::try_clone(&self.arrays)?;
        let snapshot = self.writer.snapshot(self.log);
        match mem::replace(&mut self.parts[number], None) {
            Some(part) => Ok(Some(Stretch {
                program: self.program,
                number,
                step: self.step,
                arrays,
                part,
                snapshot,
            })),
            None => unreachable!(),
        }
    }

    // Returns why a stretch isn't taken back, if it isn't.
    fn refuses(&self, stretch: &Stretch<'p, P>) -> Option<AcceptStretchFault>
        ensures { MatchOption result (Accepts self.now stretch.now) (λ fault. Refuses fault self.now stretch.now) }
    {
        if stretch.step() != self.step {
            return Some(AcceptStretchFault::WrongStep);
        }
        if !stretch.is_done() {
            return Some(AcceptStretchFault::Unfinished);
        }
        match self.parts.get(stretch.number()) {
            Some(None) => None,
            Some(Some(_)) => Some(AcceptStretchFault::Double),
            None => Some(AcceptStretchFault::Stranger),
        }
    }

    /// Takes a stretch back. Fails, and changes nothing, for the first of these reasons: it is of another superstep; its tasks
    /// haven't run; no stretch has its number; that stretch isn't out. The caller ensures that it is of this run.
    pub fn accept(&mut self, stretch: Stretch<'p, P>) -> Result<(), AcceptStretchFault>
        requires { stretch.name ≡ self.old.name }
        ensures accepted { OnOk result (Accepts self.old stretch.entry) }
        ensures added { OnOk result (self.new ≡ with_slot self.old stretch.entry.number (Some stretch.entry.part)) }
        ensures refused { IfErr result (λ fault. Refuses fault self.old stretch.entry) }
        ensures unchanged { OnErr result (self.new ≡ self.old) }
    {
        if let Some(fault) = self.refuses(&stretch) {
            stretch.give_up();
            return Err(fault);
        }
        let Stretch {
            program: _,
            number,
            step: _,
            arrays: _,
            part,
            snapshot,
        } = stretch;
        self.writer.compare(self.log, snapshot);
        self.parts[number] = Some(part);
        Ok(())
    }

    // Ends the run by this fault. The superstep leaves nothing else.
    fn end(&mut self, blame: Blame)
        requires none { self.old.parts ≡ [] }
        requires running { status_in self.old ≡ None }
        requires ends { EndsBy (reading_of P.frame P.may P.meant P.Task.path_of) self.old blame }
        ensures { self.new ≡ record self.old { fault = Some blame } }
    {
        self.fault = Some(blame);
    }

    // Ends the run by the put at this place of all puts, which overflows.
    fn overflow(&mut self, parts: &[Option<Part<P::Task>>], place: usize) -> Outcome
        requires none { self.old.parts ≡ [] }
        requires running { status_in self.old ≡ None }
        requires run { OverflowsAt (reading_of P.frame P.may P.meant P.Task.path_of) self.old (tasks_in parts.now) (deeds_in parts.now) (prints_in parts.now) place }
        requires few { length (deeds_in parts.now) + spawned_in (deeds_in parts.now) ≤ self.old.most + left_in (deeds_in parts.now) }
        requires each { EachDid parts.now }
        requires found { (settled_at parts.now place ≡ false) × (place < made_in (deeds_in parts.now)) }
        ensures closed { IsClosed (reading_of P.frame P.may P.meant P.Task.path_of) self.old self.new result }
        ensures over { result ≡ Outcome.Overflowed }
        ensures same { IsSameRun self.old self.new }
        ensures log { self.new.log ≡ self.old.log }
        ensures none { self.new.parts ≡ [] }
        ensures given { self.new.given ≡ self.old.given }
    {
        match find_blame(parts, place) {
            Some(blame) => {
                self.end(blame);
                Outcome::Overflowed
            }
            None => unreachable!(),
        }
    }

    // Opens the next superstep with these stretches. If memory runs out, there are none.
    fn reopen(&mut self, parts: Vec<Option<Part<P::Task>>>) -> Result<(), AllocError>
        requires none { self.old.parts ≡ [] }
        requires calm { self.old.fault ≡ None }
        requires count { length self.old.log ≡ self.old.step }
        requires fresh { AreFresh 0 parts.items }
        requires after { IsAfter (reading_of P.frame P.may P.meant P.Task.path_of) self.old (map (P.meant self.old.program) (tasks_in parts.items)) }
        ensures opened { OnOk result (self.new ≡ opened_with self.old parts.items) }
        ensures memory { OnErr result (self.new ≡ self.old) }
    {
        let arrays = Arc::try_clone(&self.arrays)?;
        let opened = SuperstepStart {
            program: self.program,
            most: self.most,
            limit: self.limit,
            arrays,
            parts,
        };
        let SuperstepStart { parts, .. } = self.writer.note(self.log, opened);
        self.parts = parts;
        Ok(())
    }

    // Takes one superstep after which the same tasks live, so that each stretch stays as it is.
    fn stay(
        &mut self,
        alloc: Global,
        mut parts: Vec<Option<Part<P::Task>>>,
        puts: &Puts,
        counts: PhaseRecord,
    ) -> Result<Outcome, AllocError>
        requires none { self.old.parts ≡ [] }
        requires running { status_in self.old ≡ None }
        requires run { HaveRun (reading_of P.frame P.may P.meant P.Task.path_of) self.old (puts.now ++ puts_in parts.items) (tasks_in parts.items) (deeds_in parts.items) (prints_in parts.items) }
        requires sets { IsTrue (list_all is_set (puts_in parts.items)) }
        requires covered { covers true self.old.count 0 parts.items ≡ true }
        requires few { length (deeds_in parts.items) + spawned_in (deeds_in parts.items) ≤ self.old.most + left_in (deeds_in parts.items) }
        requires counts { counts ≡ record_in self.old.step (deeds_in parts.items) }
        requires stays { (counts.left ≡ 0) × (counts.spawned ≡ 0) }
        requires each { EachDid parts.items }
        requires makers { FindsMaker self.old.arrays (puts.now ++ puts_in parts.items) parts.items }
        ensures closed { IfOk result (λ outcome. IsClosed (reading_of P.frame P.may P.meant P.Task.path_of) self.old self.new outcome) }
        ensures reopened { IfOk result (λ outcome. IsReopened P.Task.path_of outcome self.old.step parts.items self.new) }
        ensures logs { IfOk result (λ outcome. Logs outcome self.old self.new) }
        ensures unlogged { OnErr result (self.new.log ≡ self.old.log) }
        ensures lost { OnErr result (self.new.parts ≡ []) }
        ensures same { IsSameRun self.old self.new }
        ensures given { self.new.given ≡ self.old.given }
    {
        make_room(&parts, &mut self.prints, &mut self.records)?;
        match land_shared(alloc, &mut self.arrays, puts, &parts, &mut self.olds)? {
            Some(place) => Ok(self.overflow(&parts, place)),
            None => {
                print_and_renew(&mut parts, &mut self.prints);
                self.records.push_reserved(counts);
                self.step += 1;
                self.reopen(parts)?;
                Ok(Outcome::Landed)
            }
        }
    }

    // Takes one superstep in which tasks came or left.
    fn move_on(
        &mut self,
        alloc: Global,
        mut parts: Vec<Option<Part<P::Task>>>,
        puts: &Puts,
        counts: PhaseRecord,
    ) -> Result<Outcome, AllocError>
        requires none { self.old.parts ≡ [] }
        requires running { status_in self.old ≡ None }
        requires run { HaveRun (reading_of P.frame P.may P.meant P.Task.path_of) self.old (puts.now ++ puts_in parts.items) (tasks_in parts.items) (deeds_in parts.items) (prints_in parts.items) }
        requires sets { IsTrue (list_all is_set (puts_in parts.items)) }
        requires few { length (deeds_in parts.items) + spawned_in (deeds_in parts.items) ≤ self.old.most + left_in (deeds_in parts.items) }
        requires counts { counts ≡ record_in self.old.step (deeds_in parts.items) }
        requires moves { AllStay parts.items → ⊥ }
        requires each { EachDid parts.items }
        requires can { CanAllSettle P.Task.path_of parts.items }
        requires makers { FindsMaker self.old.arrays (puts.now ++ puts_in parts.items) parts.items }
        ensures closed { IfOk result (λ outcome. IsClosed (reading_of P.frame P.may P.meant P.Task.path_of) self.old self.new outcome) }
        ensures reopened { IfOk result (λ outcome. IsReopened P.Task.path_of outcome self.old.step parts.items self.new) }
        ensures logs { IfOk result (λ outcome. Logs outcome self.old self.new) }
        ensures unlogged { OnErr result (self.new.log ≡ self.old.log) }
        ensures lost { OnErr result (self.new.parts ≡ []) }
        ensures same { IsSameRun self.old self.new }
        ensures given { self.new.given ≡ self.old.given }
    {
        let count = (counts.parties - counts.left) as usize;
        make_room(&parts, &mut self.prints, &mut self.records)?;
        match land_shared(alloc, &mut self.arrays, puts, &parts, &mut self.olds)? {
            Some(place) => Ok(self.overflow(&parts, place)),
            None => {
                give_all_prints(&mut parts, &mut self.prints);
                self.records.push_reserved(counts);
                self.step += 1;
                self.count = count;
                let next = next_parts(alloc, parts, count, self.pieces)?;
                self.reopen(next)?;
                Ok(Outcome::Landed)
            }
        }
    }

    // Takes one superstep of stretches that have all run, in which no task faulted.
    fn take_superstep(
        &mut self,
        alloc: Global,
        mut parts: Vec<Option<Part<P::Task>>>,
        puts: &mut Puts,
    ) -> Result<Outcome, AllocError>
        requires none { self.old.parts ≡ [] }
        requires running { status_in self.old ≡ None }
        requires run { HaveRun (reading_of P.frame P.may P.meant P.Task.path_of) self.old (puts_in parts.items) (tasks_in parts.items) (deeds_in parts.items) (prints_in parts.items) }
        requires covered { covers true self.old.count 0 parts.items ≡ true }
        requires no_puts { puts.old ≡ [] }
        requires each { EachDid parts.items }
        requires can { CanAllSettle P.Task.path_of parts.items }
        requires makers { FindsMaker self.old.arrays (puts_in parts.items) parts.items }
        ensures closed { IfOk result (λ outcome. IsClosed (reading_of P.frame P.may P.meant P.Task.path_of) self.old self.new outcome) }
        ensures reopened { IfOk result (λ outcome. IsReopened P.Task.path_of outcome self.old.step parts.items self.new) }
        ensures logs { IfOk result (λ outcome. Logs outcome self.old self.new) }
        ensures unlogged { OnErr result (self.new.log ≡ self.old.log) }
        ensures lost { OnErr result (self.new.parts ≡ []) }
        ensures same { IsSameRun self.old self.new }
        ensures given { self.new.given ≡ self.old.given }
    {
        let left = count_left(&parts, self.count);
        let stay = self.count - left;
        let most = self.most as usize - stay;
        let Some(spawned) = count_spawned(&parts, most) else {
            self.end(too_many(alloc));
            return Ok(Outcome::TooMany);
        };
        let counts = PhaseRecord {
            phase: self.step,
            parties: (self.count + spawned) as u32,
            left: left as u32,
            spawned: spawned as u32,
        };
        join_adds(&mut parts, puts)?;
        if left == 0 && spawned == 0 {
            self.stay(alloc, parts, puts, counts)
        } else {
            self.move_on(alloc, parts, puts, counts)
        }
    }

    /// Closes the superstep. Fails with `Missing`, and changes nothing, if a stretch isn't back or hasn't run. A task's fault,
    /// too many tasks, or a sum that overflows is not an error: it ends the run, and nothing else of the superstep counts. If
    /// memory runs out, the live tasks are lost, and the run can't continue.
    pub fn close(&mut self, alloc: Global) -> Result<Outcome, CloseStretchesFault>
        requires running { status_in self.old ≡ None }
        ensures whole { OnOk result (covers true self.old.count 0 self.old.parts ≡ true) }
        ensures closed { IfOk result (λ outcome. IsClosed (reading_of P.frame P.may P.meant P.Task.path_of) self.old self.new outcome) }
        ensures reopened { IfOk result (λ outcome. IsReopened P.Task.path_of outcome self.old.step self.old.parts self.new) }
        ensures logs { IfOk result (λ outcome. Logs outcome self.old self.new) }
        ensures unlogged { OnErr result (self.new.log ≡ self.old.log) }
        ensures refused { IfErr result (λ fault. NotClosed fault self.old self.new) }
        ensures same { IsSameRun self.old self.new }
        ensures given { self.new.given ≡ self.old.given }
    {
        if !cover(&self.parts, true, self.count) {
            return Err(CloseStretchesFault::Missing);
        }
        let parts = mem::replace(&mut self.parts, Vec::new(alloc));
        if let Some(blame) = find_fault(&parts) {
            self.end(blame);
            return Ok(Outcome::Faulted);
        }
        // Filled only if a put adds.
        let mut puts = Puts::new(alloc);
        match self.take_superstep(alloc, parts, &mut puts) {
            Ok(outcome) => Ok(outcome),
            Err(fault) => Err(CloseStretchesFault::Memory(fault)),
        }
    }

    /// Returns what supersteps have printed and recorded since the last call, and removes it from the run's result.
    pub fn give(&mut self, alloc: Global) -> Lines
        requires { self.old.fault ≡ None }
        ensures given { IsGiven (reading_of P.frame P.may P.meant P.Task.path_of) self.old result }
        ensures rest { self.new ≡ record self.old { prints = []; records = []; given = self.old.step } }
    {
        let prints = mem::replace(&mut self.prints, Vec::new(alloc));
        let records = mem::replace(&mut self.records, Vec::new(alloc));
        let first = self.given;
        self.given = self.step;
        Lines {
            first,
            next: self.step,
            prints,
            records,
        }
    }

    // Returns true if no task lives any more (`lives` is false), or if no stretch is taken or has run.
    fn is_at_rest(&self, lives: bool) -> bool
        ensures { result ≡ (not lives || covers false self.now.count 0 self.now.parts) }
    {
        if !lives {
            return true;
        }
        cover(&self.parts, false, self.count)
    }

    /// Gives the run up. What it has left is lost.
    pub fn give_up(self) {
        let Stretches { writer, .. } = self;
        writer.give_up();
    }

    // Returns what a run leaves that has ended so, and the writer of its log. Returns `None` if it ended at a limit and a stretch is
    // out or has run.
    fn leave(self, alloc: Global, status: JobStatus) -> Result<Option<Left<'p, P>>, AllocError>
        requires short { IsShort (status_seen status) }
        ensures left { IfOk result (λ left. IfSome left (λ l. IsLeftAs self.entry (status_seen status) l.writer.name l.writer.log l.given l.ran.report l.ran.tasks.items)) }
        ensures some { IfOk result (λ left. is_some left ≡ left_after self.entry (Some (status_seen status))) }
        ensures run { IsRunSoFar (reading_of P.frame P.may P.meant P.Task.path_of) self.entry }
    {
        let lives = is_limit(&status);
        if !self.is_at_rest(lives) {
            self.give_up();
            return Ok(None);
        }
        let Stretches {
            writer,
            arrays,
            mut parts,
            prints,
            records,
            given,
            ..
        } = self;
        match finish(alloc, arrays, &mut parts, lives) {
            Ok((arrays, tasks)) => {
                let report = Report {
                    prints,
                    records,
                    arrays,
                    status,
                };
                let ran = Ran { report, tasks };
                Ok(Some(Left { ran, given, writer }))
            }
            Err(fault) => {
                writer.give_up();
                Err(fault)
            }
        }
    }

    /// Returns the result of a run that has ended, without what `give` returned, and the writer of its log. Returns `None` if the
    /// run hasn't ended, or if it has reached the limit while a stretch is out or has run.
    pub fn into_left(self, alloc: Global) -> Result<Option<Left<'p, P>>, AllocError>
        ensures left { IfOk result (λ left. IfSome left (λ l. (l.writer.name ≡ self.entry.name)
            × HasLeft (reading_of P.frame P.may P.meant P.Task.path_of) l.writer.log l.given l.ran.report l.ran.tasks.items)) }
        ensures log { IfOk result (λ left. IfSome left (λ l. l.writer.log ≡ self.entry.log)) }
        ensures given { IfOk result (λ left. IfSome left (λ l. l.given ≡ self.entry.given)) }
        ensures status { IfOk result (λ left. IfSome left (λ l. Some l.ran.report.status ≡ status_in self.entry)) }
        ensures some { IfOk result (λ left. is_some left ≡ can_leave self.entry) }
    {
        let Some(status) = self.status() else {
            self.give_up();
            return Ok(None);
        };
        self.leave(alloc, status)
    }

    /// Stops a run that hasn't ended, as at a limit of the supersteps that it has taken. Returns the result, without what `give`
    /// returned, and the writer of its log. Returns `None` if the run has ended, or if a stretch is out or has run.
    pub fn stop(self, alloc: Global) -> Result<Option<Left<'p, P>>, AllocError>
        ensures left { IfOk result (λ left. IfSome left (λ l. (l.writer.name ≡ self.entry.name)
            × HasLeftTo (reading_of P.frame P.may P.meant P.Task.path_of) (λ o. self.entry.step) l.writer.log l.given l.ran.report l.ran.tasks.items)) }
        ensures log { IfOk result (λ left. IfSome left (λ l. l.writer.log ≡ self.entry.log)) }
        ensures given { IfOk result (λ left. IfSome left (λ l. l.given ≡ self.entry.given)) }
        ensures arrays { IfOk result (λ left. IfSome left (λ l. l.ran.report.arrays ≡ self.entry.arrays)) }
        ensures status { IfOk result (λ left. IfSome left (λ l. l.ran.report.status ≡ Limit self.entry.step)) }
        ensures count { IfOk result (λ left. IfSome left (λ l. length l.ran.tasks.items ≡ self.entry.count)) }
        ensures some { IfOk result (λ left. is_some left ≡ can_stop self.entry) }
    {
        if self.has_ended() {
            self.give_up();
            return Ok(None);
        }
        let status = JobStatus::Limit(self.step);
        self.leave(alloc, status)
    }
}

/// What a run leaves: its report, the tasks that still live, and the writer of its log.
#[derive(Drop)]
pub struct Left<'p, P: Program> {
    /// The report, without the prints and records that were given away, and the tasks that still live.
    pub ran: Ran<P::Task>,
    /// How many supersteps' prints and records were given away.
    pub given: u32,
    /// The writer of the log of its starts.
    pub writer: Writer<SuperstepStart<'p, P, P::Task>>,
}

// Returns true if a run ended at its limit.
fn is_limit(status: &JobStatus) -> bool
    requires { IsShort (status_seen status.now) }
    ensures { result ≡ is_at_limit (status_seen status.now) }
{
    matches!(status, JobStatus::Limit(_))
}

// Returns the arrays: themselves if nobody else has them, else a copy.
fn own_arrays(alloc: Global, shared: Arc<Arrays>) -> Result<Arrays, AllocError>
    ensures { IfOk result (λ arrays. arrays ≡ arc_value shared) }
{
    match Arc::try_unwrap(shared) {
        Ok(arrays) => Ok(arrays),
        Err(shared) => shared.copy(alloc),
    }
}

// Returns the arrays that a run leaves, and the tasks of its stretches if they still live.
fn finish<T: OnPath>(
    alloc: Global,
    shared: Arc<Arrays>,
    parts: &mut Vec<Option<Part<T>>>,
    lives: bool,
) -> Result<(Arrays, Vec<T>), AllocError>
    ensures arrays { IfOk result (λ r. r.0 ≡ arc_value shared) }
    ensures tasks { IfOk result (λ r. r.1.items ≡ if lives then tasks_in parts.old.items else []) }
{
    let arrays = own_arrays(alloc, shared)?;
    let mut tasks = Vec::new(alloc);
    if lives {
        let mut deeds = Deeds::new(alloc);
        give_all_tasks(parts, &mut tasks, &mut deeds)?;
    }
    Ok((arrays, tasks))
}
