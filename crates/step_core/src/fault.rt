//! Why a round refuses, and how it is closed.
ghost use Rattle.std.specs.Prelude.{◌≡◌};
ghost use Rattle.step_core.specs.Taking.{accept_number, close_number};

use std::alloc::AllocError;
use superstep_memory::path::Path;
use thiserror::Error;

/// Why a round refuses a delivery (own). The round is then as it was.
#[derive(Clone, Copy, Debug, PartialEq, Eq, Error)]
pub enum AcceptFault {
    /// It is of another step.
    #[error("a delivery of another step")]
    WrongStep,
    /// Its order isn't one of this round.
    #[error("a delivery of another job")]
    Stranger,
    /// Its task has one already.
    #[error("a second delivery for a task")]
    Double,
}

impl AcceptFault {
    /// Returns the number of this refusal.
    pub fn number(self) -> u32
        ensures { result ≡ accept_number self }
    {
        match self {
            AcceptFault::Stranger => 1,
            AcceptFault::Double => 2,
            AcceptFault::WrongStep => 3,
        }
    }
}

/// Why a round isn't closed (own). It is then as it was.
#[derive(Debug, Drop, Error)]
pub enum CloseFault {
    /// Nothing was delivered for the task of this path, the first of those.
    #[error("a task without a delivery")]
    Missing(Path),
    /// There was no memory.
    #[error(transparent)]
    Memory(#[from(alloc)] AllocError),
}

impl CloseFault {
    /// Returns the number of this refusal. `Memory` has none.
    pub fn number(&self) -> Option<u32>
        ensures { result ≡ close_number self.now }
    {
        match self {
            CloseFault::Missing(_) => Some(4),
            CloseFault::Memory(_) => None,
        }
    }
}

/// How a superstep ended (own).
#[derive(Clone, Copy, Debug, PartialEq, Eq)]
pub enum Outcome {
    /// Its puts landed, and it was printed and recorded.
    Landed,
    /// A task faulted, and the job ended with that fault.
    Faulted,
    /// Over 4096 tasks would have lived on, and the job ended with fault 7. Its number among a round's answers is 5.
    TooMany,
    /// A put that adds had a sum outside of 64 signed bits, and the job ended with fault 8.
    Overflowed,
}
