//! Why stretches aren't taken back, why a superstep isn't closed, and how it ends.
use std::alloc::AllocError;
use thiserror::Error;

/// The error of `Stretches::accept` (own). Nothing has changed.
#[derive(Clone, Copy, Debug, PartialEq, Eq, Error)]
pub enum AcceptStretchFault {
    /// It is of another superstep.
    #[error("a stretch of another superstep")]
    WrongStep,
    /// Its tasks haven't run.
    #[error("a stretch that hasn't run")]
    Unfinished,
    /// No stretch of this superstep has its number.
    #[error("a stretch with an unknown number")]
    Stranger,
    /// The stretch of its number wasn't taken.
    #[error("a stretch that wasn't taken")]
    Double,
}

/// The error of `Stretches::close` (own).
#[derive(Debug, Drop, Error)]
pub enum CloseStretchesFault {
    /// A stretch isn't back, or its tasks haven't run. Nothing changes.
    #[error("a stretch that isn't back")]
    Missing,
    /// Out of memory. The live tasks are lost, so the run can only be given up.
    #[error(transparent)]
    Memory(#[from(alloc)] AllocError),
}

/// How a superstep ends (own).
#[derive(Clone, Copy, Debug, PartialEq, Eq)]
pub enum Outcome {
    /// Its puts have landed.
    Landed,
    /// A task faulted, which ends the run.
    Faulted,
    /// More tasks than the most would live on, which ends the run.
    TooMany,
    /// A sum of puts overflowed, which ends the run.
    Overflowed,
}
