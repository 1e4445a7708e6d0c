//! How far a task has come in its superstep, and what a worker may do next.
ghost use Rattle.std.specs.Prelude.{◌≡◌};
ghost use Rattle.job_schedule.specs.Moves as spec;

use tier_core::call::Call;

/// How far a live task has come in its superstep (own).
#[derive(Clone, Copy)]
pub enum Stage {
    /// It is ready.
    Waits,
    /// A worker has taken it.
    Taken,
    /// Its segment was delivered, and its token polls.
    Polling,
    /// The tasks that it has spawned join. The number says how many have joined.
    Joining(usize),
    /// The tasks that it has spawned arrive. The number says how many have arrived.
    Arriving(usize),
    /// The participant's token arrives or leaves.
    Leaving,
    /// All its calls have their answers.
    Over,
}

/// The mode of a schedule between two steps of workers (own).
#[derive(Clone, Copy)]
pub enum Mode {
    /// A superstep runs.
    Runs,
    /// The root has advanced, and the worker that advanced it closes the round.
    Advanced {
        /// That worker.
        closer: usize,
        /// The token by which it advanced.
        token: usize,
    },
    /// A fault has ended the job, and the worker that closed the round ends the tree by force.
    Forces {
        /// That worker.
        closer: usize,
        /// The token by which it does.
        token: usize,
    },
    /// The job is over.
    Over,
}

/// The one step that a worker may take (own).
#[derive(Clone, Copy)]
pub enum Move {
    /// To take the task at this place.
    Takes(usize),
    /// To hand in the segment of the task at this place.
    Delivers(usize),
    /// A step of this call by this token, of the task at this place.
    Calls(usize, usize, Call),
    /// To advance the root for the task at this place.
    Advances(usize),
    /// To close the round; this token ends the tree after a fault.
    Closes(usize),
    /// To end the tree by force, by this token.
    Ends(usize),
}

impl Move {
    /// Returns which of the five kinds of step takes it, from 0.
    pub fn kind(self) -> u8
        ensures { result ≡ spec.kind_for self }
    {
        match self {
            Move::Takes(_) => 0,
            Move::Delivers(_) => 1,
            Move::Calls(_, _, _) | Move::Ends(_) => 2,
            Move::Advances(_) => 3,
            Move::Closes(_) => 4,
        }
    }
}

/// Returns the move of a step of this kind: its worker's next move, if steps of this kind take it.
pub fn asked(kind: u8, next: Option<Move>) -> Option<Move>
    ensures { result ≡ spec.asked kind next }
{
    let step = next?;
    if kind != step.kind() {
        return None;
    }
    Some(step)
}
