//! Live tasks as participants of a tree.
ghost use Rattle.std.specs.Prelude.{◌≡◌, IfOk};
ghost use Rattle.job_schedule.specs.ParticipantValue as spec;
ghost use Rattle.job_schedule.specs.ParticipantValue.{all_over};
ghost use Rattle.job_schedule.specs.Moves.{passing};

use crate::stage::{Move, Stage};
use smallvec::SmallVec;
use std::alloc::{AllocError, Global};
use std::marker::Model;
use superstep_memory::path::Path;
use tier_core::call::{Call, Played};

/// A child: a task that a live task has spawned in this superstep.
#[derive(Drop)]
pub struct Child {
    /// Its path.
    pub path: Path,
    /// The number of its token.
    pub token: usize,
    /// The tier at which it has its member or is to join.
    pub home: u16,
}

impl Model for Child {
    ghost use Rattle.job_schedule.specs.ParticipantValue.{ChildValue};

    ghost Value = { ChildValue };

    ghost view = { λ k. record { path = k.path.items; token = k.token; home = k.home } };
}

/// A live task on the tree.
#[derive(Drop)]
pub struct Participant {
    /// Its path.
    pub path: Path,
    /// The number of its token.
    pub token: usize,
    /// The tier at which it has its member.
    pub home: u16,
    /// The tasks that it has spawned in this superstep, by spawn.
    pub children: Vec<Child>,
    /// Whether its segment ended with a `sync`.
    pub synced: bool,
    /// How far it has come.
    pub stage: Stage,
}

impl Model for Participant {
    ghost use Rattle.job_schedule.specs.ParticipantValue.{ParticipantValue};

    ghost Value = { ParticipantValue };

    ghost view = { λ s. record {
      path = s.path.items;
      token = s.token;
      home = s.home;
      children = s.children.items;
      synced = s.synced;
      stage = s.stage;
    } };
}

/// Copies a path.
pub fn copy_path(path: &Path) -> Result<Path, AllocError>
    ensures { IfOk result (λ copy. copy.items ≡ path.now.items) }
{
    SmallVec::from_slice(*path.allocator(), path.as_slice())
}

/// Returns whether a task is done with its superstep.
pub fn is_over(stage: Stage) -> bool
    ensures { result ≡ spec.is_over stage }
{
    matches!(stage, Stage::Over)
}

/// Returns whether all tasks are done with their superstep.
pub fn all_over(participants: &[Participant]) -> bool
    ensures { result ≡ all_over participants.now }
{
    for participant in participants {
        if !is_over(participant.stage) {
            return false;
        }
    }
    true
}

// Returns whether a call is done.
fn is_done(played: Played) -> bool
    ensures { result ≡ spec.is_done played }
{
    matches!(played, Played::Done(_) | Played::Passed(_))
}

// Returns true if a join was refused.
fn is_refused(played: Played) -> bool
    ensures { result ≡ spec.is_refused played }
{
    matches!(played, Played::Held(_, _) | Played::Full(_))
}

// Returns the stage after `arrived` of the spawned tasks have arrived.
fn arriving(arrived: usize, spawned: usize) -> Stage
    ensures { result ≡ spec.arriving arrived spawned }
{
    if arrived < spawned {
        Stage::Arriving(arrived)
    } else {
        Stage::Leaving
    }
}

// Returns the stage after `joined` of the spawned tasks have joined.
fn joining(joined: usize, spawned: usize) -> Stage
    ensures { result ≡ spec.joining joined spawned }
{
    if joined < spawned {
        Stage::Joining(joined)
    } else {
        arriving(0, spawned)
    }
}

// Returns the stage after a call that is done.
fn next_stage(stage: Stage, spawned: usize) -> Stage
    ensures { result ≡ spec.next_stage stage spawned }
{
    match stage {
        Stage::Waits => Stage::Waits,
        Stage::Taken => Stage::Taken,
        Stage::Polling => joining(0, spawned),
        Stage::Joining(joined) => {
            if joined < spawned {
                joining(joined + 1, spawned)
            } else {
                arriving(0, spawned)
            }
        }
        Stage::Arriving(arrived) => {
            if arrived < spawned {
                arriving(arrived + 1, spawned)
            } else {
                Stage::Leaving
            }
        }
        Stage::Leaving | Stage::Over => Stage::Over,
    }
}

// Returns the move of a task itself: its arrival or departure, or the advance if that is due.
fn passing(due: bool, place: usize, token: usize, synced: bool) -> Option<Move>
    ensures { result ≡ passing due place token synced }
{
    if due {
        return Some(Move::Advances(place));
    }
    let call = if synced { Call::Arrive } else { Call::Leave };
    Some(Move::Calls(place, token, call))
}

impl Child {
    ghost use Rattle.std.specs.Prelude.{◌≡◌};
    ghost use Rattle.job_schedule.specs.ParticipantValue.{child_participant};

    /// Sets the tier at which it is to join.
    pub fn set_home(&mut self, home: u16)
        ensures { self.new ≡ record self.old { home = home } }
    {
        self.home = home;
    }

    /// Makes the participant of the child, at the begin of its first superstep.
    pub fn into_participant(self, alloc: Global) -> Participant
        ensures { result ≡ child_participant self }
    {
        Participant::new(alloc, self.path, self.token, self.home)
    }
}

impl Participant {
    ghost use Rattle.std.specs.Prelude.{◌≡◌, ◌++◌, ◌∷◌, [], OnOk, slice_set};
    ghost use Rattle.job_schedule.specs.ParticipantValue as spec;
    ghost use Rattle.job_schedule.specs.ParticipantValue.{child_at, waiting, answered, sent_home};
    ghost use Rattle.job_schedule.specs.Moves.{by_stage, at_stage};

    /// Makes the participant of a task at the begin of a superstep.
    pub fn new(alloc: Global, path: Path, token: usize, home: u16) -> Self
        ensures { result ≡ waiting path.items token home }
    {
        Participant {
            path,
            token,
            home,
            children: Vec::new(alloc),
            synced: false,
            stage: Stage::Waits,
        }
    }

    /// Sets how far it has come.
    pub fn set_stage(&mut self, stage: Stage)
        ensures { self.new ≡ at_stage self.old stage }
    {
        self.stage = stage;
    }

    /// Notes that its segment was delivered, and whether it synced.
    pub fn note(&mut self, synced: bool)
        ensures { self.new ≡ record (at_stage self.old spec.Polling) { synced = synced; children = [] } }
    {
        self.children.clear();
        self.stage = Stage::Polling;
        self.synced = synced;
    }

    /// Adds a spawned task.
    pub fn add_child(&mut self, child: Child) -> Result<(), AllocError>
        ensures { OnOk result (self.new ≡ record self.old { children = self.old.children ++ child ∷ [] }) }
    {
        self.children.push(child)?;
        Ok(())
    }

    // Returns the token of the spawned task with this number.
    fn child_token(&self, number: usize) -> usize
        ensures { result ≡ (child_at self.now.children number).token }
    {
        if number < self.children.len() {
            self.children[number].token
        } else {
            0
        }
    }

    // Returns the tier at which the spawned task with this number is to join.
    fn child_home(&self, number: usize) -> u16
        ensures { result ≡ (child_at self.now.children number).home }
    {
        if number < self.children.len() {
            self.children[number].home
        } else {
            0
        }
    }

    /// Returns the next move of its worker, if it has one.
    pub fn next_move(&self, place: usize, due: bool) -> Option<Move>
        ensures { result ≡ by_stage self.now place due self.now.stage }
    {
        match self.stage {
            Stage::Waits | Stage::Over => None,
            Stage::Taken => Some(Move::Delivers(place)),
            Stage::Polling => Some(Move::Calls(place, self.token, Call::Poll)),
            Stage::Joining(joined) => {
                let tier = self.child_home(joined);
                let token = self.child_token(joined);
                Some(Move::Calls(place, token, Call::Join { tier, n: 1 }))
            }
            Stage::Arriving(arrived) => {
                let token = self.child_token(arrived);
                Some(Move::Calls(place, token, Call::Arrive))
            }
            Stage::Leaving => passing(due, place, self.token, self.synced),
        }
    }

    // Lets the spawned task that is to join next join at its spawner's tier.
    fn send_home(&mut self)
        ensures { self.new ≡ sent_home self.old self.old.stage }
    {
        if let Stage::Joining(joined) = self.stage {
            if joined < self.children.len() {
                let home = self.home;
                self.children[joined].set_home(home);
            }
        }
    }

    /// Notes the answer of its call.
    pub fn answer(&mut self, played: Played)
        ensures { self.new ≡ answered self.old played }
    {
        if is_done(played) {
            self.stage = next_stage(self.stage, self.children.len());
        } else if is_refused(played) {
            self.send_home();
        }
    }
}
