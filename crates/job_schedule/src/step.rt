//! The steps of workers, and their answers.
ghost use Rattle.std.specs.Prelude.{◌≡◌};
ghost use Rattle.job_schedule.specs.World.{worker_of, kind_of};

use phase_records::Report;
use superstep_memory::path::Path;
use tier_core::call::Played;

/// A step of a worker, which is known by its number from 0 to 63 (own).
#[derive(Clone, Copy)]
pub enum JobStep {
    /// The worker takes the first ready task.
    Take(usize),
    /// The worker delivers the segment of its task.
    Deliver(usize),
    /// The worker takes a step of its task's calls of the tree. After a fault, it ends the tree by force.
    Tree(usize),
    /// The worker advances the root.
    Advance(usize),
    /// The worker closes the round.
    Close(usize),
}

impl JobStep {
    /// Returns the number of the worker.
    pub fn worker(self) -> usize
        ensures { result ≡ worker_of self }
    {
        match self {
            JobStep::Take(worker)
            | JobStep::Deliver(worker)
            | JobStep::Tree(worker)
            | JobStep::Advance(worker)
            | JobStep::Close(worker) => worker,
        }
    }

    /// Returns which of the five kinds it is, from 0.
    pub(crate) fn kind(self) -> u8
        ensures { result ≡ kind_of self }
    {
        match self {
            JobStep::Take(_) => 0,
            JobStep::Deliver(_) => 1,
            JobStep::Tree(_) => 2,
            JobStep::Advance(_) => 3,
            JobStep::Close(_) => 4,
        }
    }
}

/// The answer of a step (own).
#[derive(Drop)]
pub enum Answer {
    /// The worker has taken the task of this path.
    Took(Path),
    /// The segment was delivered.
    Delivered,
    /// A step of a call was taken, with this answer.
    Stepped(Played),
    /// The root was advanced; the call has this answer.
    Advanced(Played),
    /// The round was closed, and the next tasks are ready.
    Closed,
    /// The job has ended, with this report.
    Finished(Report),
    /// The step isn't the worker's next one, and changed nothing.
    NotNow,
}
