//! A job on a tree of phasers, between two steps of its workers.
ghost use Rattle.std.specs.Prelude.{◌≡◌, ◌≤◌, IfOk};
ghost use Rattle.phase_records.specs.StatusSeen.{status_seen};
ghost use Rattle.tier_shape.specs.Leaves.{leaves_of};
ghost use Rattle.tier_core.specs.Machine.{opened, with_token};
ghost use Rattle.job_schedule.specs.World.{plan_for, taking, mode_after, gone};

use crate::hands::{empty_hands, hand_of, set_hand};
use crate::next::{free_tokens, next_participants};
use crate::participant::{Child, Participant, all_over, copy_path, is_over};
use crate::rounds::{close_round, hand_in};
use crate::stage::{Mode, Move, Stage, asked};
use crate::step::{Answer, JobStep};
use advance_rule::EndPlan;
use phase_records::JobStatus;
use std::alloc::{AllocError, Global};
use step_core::Round;
use superstep_memory::path::Path;
use task_code::job::Job;
use tier_core::call::{Answer as TreeAnswer, Call, Played, Step};
use tier_core::tree::Core;
use tier_shape::Shape;
use tier_shape::leaves::{leaf_at, preferred};

/// A job on a tree of phasers, on which numbered workers work. Its round holds what was delivered, its core the tree.
#[derive(Drop)]
pub(crate) struct Schedule<'j> {
    round: Round<'j>,
    core: Core,
    leaves: Vec<u16>,
    participants: Vec<Participant>,
    taken: usize,
    hands: Vec<Option<usize>>,
    free: Vec<usize>,
    mode: Mode,
}

// Returns the move of a worker without a task, if it has one.
fn taking(taken: usize, live: usize, over: bool) -> Option<Move>
    ensures { result ≡ taking taken live over }
{
    if taken < live {
        Some(Move::Takes(taken))
    } else if over {
        Some(Move::Closes(0))
    } else {
        None
    }
}

// Returns the mode after the job has ended: after a fault the tree is ended by force.
fn mode_after(closer: usize, token: usize, status: &JobStatus) -> Mode
    ensures { result ≡ mode_after closer token (status_seen status.now) }
{
    match status {
        JobStatus::Ended(_) | JobStatus::Limit(_) => Mode::Over,
        JobStatus::Fault { .. } => Mode::Forces { closer, token },
    }
}

// Takes `steps` steps of a token's call.
fn go_steps(core: &mut Core, token: usize, steps: u32)
    ensures { core.new ≡ gone steps token core.old }
{
    let mut left = steps;
    while left > 0 {
        core.step(Step::Go(token));
        left -= 1;
    }
}

// Makes a tree of this shape, which ends in the last phase of a limit, and lists its leaves.
fn tree_of(alloc: Global, shape: Shape, limit: u32) -> Result<(Core, Vec<u16>), AllocError>
    requires some { 1 ≤ limit }
    ensures tree { IfOk result (λ t. t.0 ≡ opened shape 0 (plan_for limit)) }
    ensures leaves { IfOk result (λ t. t.1.items ≡ leaves_of shape) }
{
    let leaves = shape.leaves(alloc)?;
    let plan = EndPlan {
        when_empty: true,
        at: Some(limit - 1),
    };
    let core = Core::new(alloc, shape, 0, plan)?;
    Ok((core, leaves))
}

impl<'j> Schedule<'j> {
    ghost use Rattle.std.specs.Prelude.{◌<◌, OnOk, None, length, map, slice_index_or};
    ghost use Rattle.task_code.specs.JobValue.{JobValue};
    ghost use Rattle.step_core.specs.Program.{program_of};
    ghost use Rattle.step_core.specs.JobMeaning.{initial};
    ghost use Rattle.step_core.specs.RoundValue.{Opens, slots_in, status_in};
    ghost use Rattle.step_core.specs.Superstep.{live_paths};
    ghost use Rattle.job_schedule.specs.AnswerValue.{answer_seen};
    ghost use Rattle.job_schedule.specs.Parts.{path_items, world_of};
    ghost use Rattle.job_schedule.specs.ParticipantValue.{participant_at};
    ghost use Rattle.job_schedule.specs.World as spec;
    ghost use Rattle.job_schedule.specs.World.{
      initial_world,
      with_start,
      with_starts,
      move_of,
      by_hand,
      by_participant,
      answer_of,
      world_after,
      done_by,
      child_from,
      with_children,
      stepped,
      renewed,
    };
    ghost use Rattle.job_schedule.specs.ParticipantValue.{answered};
    ghost use Rattle.job_schedule.specs.Parts.{IsAllowed, IsKept, IsNext, IsReached, IsTaken, IsWanted};
    ghost use Rattle.job_schedule.specs.Laws.{IsStanding};
    ghost use Rattle.step_core.specs.Slots.{first_missing};
    ghost use Rattle.tier_core.specs.Run.{IsCall};

    /// Makes the schedule of a job with this limit, on a tree of this shape, before the first step of a worker.
    pub(crate) fn new(
        alloc: Global,
        job: &'j Job,
        shape: Shape,
        limit: u32,
    ) -> Result<Self, AllocError>
        requires some { 1 ≤ limit }
        ensures world { IfOk result (λ s. world_of s ≡ initial_world (program_of job.now) shape limit) }
        ensures kept { IfOk result (λ s. IsKept s.round (world_of s)) }
    {
        let round = Round::new(alloc, job, limit)?;
        let mut schedule = Self::around(alloc, round, shape, limit)?;
        schedule.start_live(alloc)?;
        Ok(schedule)
    }

    // Puts a round on a tree of this shape, before its start tasks are registered.
    fn around(alloc: Global, round: Round<'j>, shape: Shape, limit: u32) -> Result<Self, AllocError>
        requires some { 1 ≤ limit }
        ensures round { IfOk result (λ s. s.round ≡ round.entry) }
        ensures world { IfOk result (λ s. (job : JobValue) → Opens round.entry job limit (initial (program_of job)) → world_of s ≡ spec.empty_world (program_of job) shape limit) }
    {
        let (core, leaves) = tree_of(alloc, shape, limit)?;
        let hands = empty_hands(alloc, 64)?;
        Ok(Schedule {
            round,
            core,
            leaves,
            participants: Vec::new(alloc),
            taken: 0,
            hands,
            free: Vec::new(alloc),
            mode: Mode::Runs,
        })
    }

    // Registers each live task at its leaf.
    fn start_live(&mut self, alloc: Global) -> Result<(), AllocError>
        ensures world { OnOk result (world_of self.new ≡ with_starts (world_of self.old) (live_paths (world_of self.old).job)) }
        ensures round { OnOk result (self.new.round ≡ self.old.round) }
    {
        let paths = self.round.live(alloc)?;
        self.start_all(alloc, &paths)
    }

    // Adds a token for a start task, which joins its leaf.
    fn start(&mut self, alloc: Global, path: Path) -> Result<(), AllocError>
        ensures world { OnOk result (world_of self.new ≡ with_start (world_of self.old) path.items) }
        ensures round { OnOk result (self.new.round ≡ self.old.round) }
    {
        let home = leaf_at(&self.leaves, self.participants.len());
        let token = self.core.add_token()?;
        self.core
            .step(Step::Begin(token, Call::Join { tier: home, n: 1 }));
        go_steps(&mut self.core, token, 16);
        self.participants
            .push(Participant::new(alloc, path, token, home))?;
        Ok(())
    }

    // Adds a token for the start task with a copy of this path.
    fn start_copy(&mut self, alloc: Global, path: &Path) -> Result<(), AllocError>
        ensures world { OnOk result (world_of self.new ≡ with_start (world_of self.old) path.now.items) }
        ensures round { OnOk result (self.new.round ≡ self.old.round) }
    {
        let path = copy_path(path)?;
        self.start(alloc, path)
    }

    // Adds a token for each start task.
    fn start_all(&mut self, alloc: Global, paths: &[Path]) -> Result<(), AllocError>
        ensures world { OnOk result (world_of self.new ≡ with_starts (world_of self.old) (map path_items paths.now)) }
        ensures round { OnOk result (self.new.round ≡ self.old.round) }
    {
        for path in paths {
            self.start_copy(alloc, path)?;
        }
        Ok(())
    }

    // Returns the next move of a worker that has the task at this place, if it has one.
    fn move_at(&self, place: usize) -> Option<Move>
        ensures { result ≡ by_participant (world_of self.now) (participant_at self.now.participants.items place) place }
    {
        if place >= self.participants.len() {
            return None;
        }
        let participant = &self.participants[place];
        participant.next_move(place, self.core.must_advance(participant.token))
    }

    // Returns the next move of a worker within a superstep, if it has one.
    fn move_in(&self, worker: usize) -> Option<Move>
        ensures { result ≡ by_hand (world_of self.now) (slice_index_or self.now.hands.items worker None) }
    {
        match hand_of(&self.hands, worker) {
            None => taking(self.taken, self.participants.len(), self.round.has_ended()),
            Some(place) => self.move_at(place),
        }
    }

    // Returns the next move of a worker, if it has one.
    fn next_move(&self, worker: usize) -> Option<Move>
        ensures { result ≡ move_of (world_of self.now) worker }
    {
        if worker >= 64 {
            return None;
        }
        match self.mode {
            Mode::Runs => self.move_in(worker),
            Mode::Advanced { closer, token } if worker == closer && all_over(&self.participants) =>
                { Some(Move::Closes(token)) }
            Mode::Forces { closer, token } if worker == closer => Some(Move::Ends(token)),
            Mode::Advanced { .. } | Mode::Forces { .. } | Mode::Over => None,
        }
    }

    // Gives a worker the task at this place.
    fn take(&mut self, worker: usize, place: usize) -> Result<Answer, AllocError>
        requires place { place < length self.old.participants.items }
        ensures answer { IfOk result (λ a. answer_seen a ≡ (done_by (world_of self.old) worker (spec.Takes place)).0) }
        ensures after { OnOk result (world_of self.new ≡ (done_by (world_of self.old) worker (spec.Takes place)).1) }
        ensures round { OnOk result (self.new.round ≡ self.old.round) }
    {
        let path = copy_path(&self.participants[place].path)?;
        self.participants[place].set_stage(Stage::Taken);
        self.taken = place + 1;
        set_hand(&mut self.hands, worker, Some(place));
        Ok(Answer::Took(path))
    }

    // Adds a child to the task at this place: a free token, or a new one.
    fn add_child(&mut self, place: usize, path: Path) -> Result<(), AllocError>
        requires place { place < length self.old.participants.items }
        ensures world { OnOk result (world_of self.new ≡ child_from (world_of self.old) place path.items (world_of self.old).free) }
        ensures round { OnOk result (self.new.round ≡ self.old.round) }
    {
        let home = preferred(&self.leaves, self.participants[place].home, path.as_slice());
        let token = match self.free.pop() {
            Some(token) => token,
            None => self.core.add_token()?,
        };
        self.participants[place].add_child(Child { path, token, home })
    }

    // Adds children with these paths to the task at this place.
    fn add_children(&mut self, place: usize, paths: &[Path]) -> Result<(), AllocError>
        requires place { place < length self.old.participants.items }
        ensures world { OnOk result (world_of self.new ≡ with_children (world_of self.old) place (map path_items paths.now)) }
        ensures round { OnOk result (self.new.round ≡ self.old.round) }
    {
        for path in paths {
            self.add_child(place, copy_path(path)?)?;
        }
        Ok(())
    }

    // Delivers the segment of the task at this place.
    fn deliver(&mut self, alloc: Global, worker: usize, place: usize) -> Result<Answer, AllocError>
        requires place { place < length self.old.participants.items }
        requires wanted { IsWanted self.old.round (participant_at self.old.participants.items place).path }
        ensures answer { IfOk result (λ a. answer_seen a ≡ (done_by (world_of self.old) worker (spec.Delivers place)).0) }
        ensures after { OnOk result (world_of self.new ≡ (done_by (world_of self.old) worker (spec.Delivers place)).1) }
        ensures taken { OnOk result (IsTaken self.old.round (participant_at self.old.participants.items place).path self.new.round) }
    {
        let path = copy_path(&self.participants[place].path)?;
        let (synced, spawns) = hand_in(alloc, &mut self.round, path.as_slice())?;
        self.participants[place].note(synced);
        self.add_children(place, &spawns)?;
        Ok(Answer::Delivered)
    }

    // Notes the answer of a call of the task at this place.
    fn note_answer(&mut self, worker: usize, place: usize, played: Played)
        requires place { place < length self.old.participants.items }
        ensures world { world_of self.new ≡ stepped (world_of self.old) worker place self.old.core (answered (participant_at self.old.participants.items place) played) }
        ensures round { self.new.round ≡ self.old.round }
    {
        self.participants[place].answer(played);
        if is_over(self.participants[place].stage) {
            set_hand(&mut self.hands, worker, None);
        }
    }

    // Takes a step of a call.
    fn call(&mut self, worker: usize, place: usize, token: usize, call: Call) -> Answer
        requires place { place < length self.old.participants.items }
        requires size { IsCall call }
        ensures answer { answer_seen result ≡ (done_by (world_of self.old) worker (spec.Calls place token call)).0 }
        ensures after { world_of self.new ≡ (done_by (world_of self.old) worker (spec.Calls place token call)).1 }
        ensures round { self.new.round ≡ self.old.round }
    {
        self.core.step(Step::Begin(token, call));
        match self.core.step(Step::Go(token)) {
            TreeAnswer::Played(played) => {
                self.note_answer(worker, place, played);
                Answer::Stepped(played)
            }
            TreeAnswer::Begun | TreeAnswer::NotNow => Answer::NotNow,
        }
    }

    // Advances the root.
    fn advance(&mut self, worker: usize, place: usize) -> Answer
        requires place { place < length self.old.participants.items }
        ensures answer { answer_seen result ≡ (done_by (world_of self.old) worker (spec.Advances place)).0 }
        ensures after { world_of self.new ≡ (done_by (world_of self.old) worker (spec.Advances place)).1 }
        ensures round { self.new.round ≡ self.old.round }
    {
        let token = self.participants[place].token;
        match self.core.step(Step::Finish(token)) {
            TreeAnswer::Played(played) => {
                self.participants[place].set_stage(Stage::Over);
                set_hand(&mut self.hands, worker, None);
                self.mode = Mode::Advanced {
                    closer: worker,
                    token,
                };
                Answer::Advanced(played)
            }
            TreeAnswer::Begun | TreeAnswer::NotNow => Answer::NotNow,
        }
    }

    // Makes the next tasks ready.
    fn renew(&mut self, alloc: Global) -> Result<(), AllocError>
        ensures world { OnOk result (world_of self.new ≡ renewed (world_of self.old)) }
        ensures round { OnOk result (self.new.round ≡ self.old.round) }
    {
        free_tokens(&self.participants, &mut self.free)?;
        let participants = std::mem::replace(&mut self.participants, Vec::new(alloc));
        self.participants = next_participants(alloc, participants)?;
        self.taken = 0;
        self.mode = Mode::Runs;
        Ok(())
    }

    // Closes the round.
    fn close(&mut self, alloc: Global, worker: usize, token: usize) -> Result<Answer, AllocError>
        requires whole { status_in self.old.round ≡ None → first_missing (slots_in self.old.round) ≡ None }
        ensures answer { IfOk result (λ a. answer_seen a ≡ (done_by (world_of self.old) worker (spec.Closes token)).0) }
        ensures after { OnOk result (world_of self.new ≡ (done_by (world_of self.old) worker (spec.Closes token)).1) }
        ensures next { OnOk result (IsNext self.old.round self.new.round) }
    {
        close_round(alloc, &mut self.round)?;
        match self.round.report(alloc)? {
            Some(report) => {
                self.mode = mode_after(worker, token, &report.status);
                Ok(Answer::Finished(report))
            }
            None => {
                self.renew(alloc)?;
                Ok(Answer::Closed)
            }
        }
    }

    // Ends the tree by force.
    fn end(&mut self, worker: usize, token: usize) -> Answer
        ensures answer { answer_seen result ≡ (done_by (world_of self.old) worker (spec.Ends token)).0 }
        ensures after { world_of self.new ≡ (done_by (world_of self.old) worker (spec.Ends token)).1 }
        ensures round { self.new.round ≡ self.old.round }
    {
        self.core.step(Step::Begin(token, Call::Force));
        match self.core.step(Step::Go(token)) {
            TreeAnswer::Played(played) => {
                self.mode = Mode::Over;
                Answer::Stepped(played)
            }
            TreeAnswer::Begun | TreeAnswer::NotNow => Answer::NotNow,
        }
    }

    // Makes a worker's move.
    fn make(&mut self, alloc: Global, worker: usize, next: Move) -> Result<Answer, AllocError>
        requires allowed { IsAllowed (world_of self.old) next }
        requires kept { IsKept self.old.round (world_of self.old) }
        requires stands { status_in self.old.round ≡ None → IsStanding (world_of self.old) }
        ensures answer { IfOk result (λ a. answer_seen a ≡ (done_by (world_of self.old) worker next).0) }
        ensures after { OnOk result (world_of self.new ≡ (done_by (world_of self.old) worker next).1) }
        ensures kept { OnOk result (IsKept self.new.round (world_of self.new)) }
    {
        // For the prover: the contract of `has_ended` names the round's status.
        let _known = self.round.has_ended();
        match next {
            Move::Takes(place) => self.take(worker, place),
            Move::Delivers(place) => self.deliver(alloc, worker, place),
            Move::Calls(place, token, call) => Ok(self.call(worker, place, token, call)),
            Move::Advances(place) => Ok(self.advance(worker, place)),
            Move::Closes(token) => self.close(alloc, worker, token),
            Move::Ends(token) => Ok(self.end(worker, token)),
        }
    }

    /// Takes a step of a worker.
    pub(crate) fn step(&mut self, alloc: Global, step: JobStep) -> Result<Answer, AllocError>
        requires reached { IsReached (world_of self.old) }
        requires kept { IsKept self.old.round (world_of self.old) }
        ensures answer { IfOk result (λ a. answer_seen a ≡ answer_of (world_of self.old) step) }
        ensures after { OnOk result (world_of self.new ≡ world_after (world_of self.old) step) }
        ensures reached { OnOk result (IsReached (world_of self.new)) }
        ensures kept { OnOk result (IsKept self.new.round (world_of self.new)) }
    {
        let worker = step.worker();
        let Some(next) = asked(step.kind(), self.next_move(worker)) else {
            return Ok(Answer::NotNow);
        };
        self.make(alloc, worker, next)
    }
}
