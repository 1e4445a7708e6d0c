//! Why a run gives no report.
ghost use Rattle.std.specs.Prelude.{◌≡◌, ℕ};
ghost use Rattle.stretch_queue.specs.Refusals.{IsOfWorkers, refusal_number, refusal_of, closing_fault};

use program_stretches::CloseStretchesFault;
use std::alloc::AllocError;
use thiserror::Error;

/// Why a run gives no report (own). All workers that were started have been joined.
///
/// A caller may run the job again after [`Refused::Memory`] or [`Refused::NotStarted`]; the job is unchanged.
#[derive(Clone, Copy, Debug, PartialEq, Eq, Error)]
pub enum Refused {
    /// Out of memory.
    #[error("out of memory")]
    Memory,
    /// The worker of this number, counted from 0, couldn't be started. No segment has run.
    #[error("worker {0} not started")]
    NotStarted(u32),
    /// An internal error: a bug in this crate. That it never comes is tested, not proved.
    #[error("internal")]
    Internal,
    /// The tree has no room for another task: the run begins with more than 65536, or a tier has the 65535 parties that it can have. A
    /// caller may run fewer tasks, or choose a tree with more leaves.
    #[error("the tree is full")]
    Full,
}

impl Refused {
    /// Returns the number of this refusal.
    pub fn number(self) -> u32
        ensures { result ≡ refusal_number self }
    {
        match self {
            Refused::Memory => 1,
            Refused::NotStarted(_) => 2,
            Refused::Internal => 3,
            Refused::Full => 4,
        }
    }
}

impl From<AllocError> for Refused {
    fn from(_fault: AllocError) -> Self {
        Refused::Memory
    }
}

/// Why a worker stops before the end of a run (own).
#[derive(Clone, Copy, Debug, PartialEq, Eq, Error)]
pub enum WorkerFault {
    /// It ran out of memory.
    #[error("out of memory")]
    Memory,
    /// The engine or the tree failed in a way that should be impossible.
    #[error("internal")]
    Internal,
    /// The tree has no room for another task.
    #[error("the tree is full")]
    Full,
}

impl WorkerFault {
    /// Returns the refusal that the run returns for this reason.
    pub fn refusal(self) -> Refused
        ensures reported { result ≡ refusal_of self }
        ensures workers { (workers : ℕ) → IsOfWorkers workers result }
    {
        match self {
            WorkerFault::Memory => Refused::Memory,
            WorkerFault::Internal => Refused::Internal,
            WorkerFault::Full => Refused::Full,
        }
    }
}

impl From<AllocError> for WorkerFault {
    fn from(_fault: AllocError) -> Self {
        WorkerFault::Memory
    }
}

/// Returns the reason to note if a superstep can't be closed. Only memory can be the cause: once all tasks have arrived, each
/// stretch was delivered.
pub fn fault_of_closing(fault: CloseStretchesFault) -> WorkerFault
    ensures { result ≡ closing_fault fault }
{
    match fault {
        CloseStretchesFault::Missing => WorkerFault::Internal,
        CloseStretchesFault::Memory(_) => WorkerFault::Memory,
    }
}
