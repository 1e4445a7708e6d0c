//! Why a run that is written superstep by superstep doesn't end.
use std::alloc::AllocError;
use thiserror::Error;

/// The error of a run whose report is written superstep by superstep (own).
#[derive(Clone, Copy, Debug, PartialEq, Eq, Error)]
pub enum StreamFault {
    /// The writer failed, and a beginning of the text was written. A caller reports it and writes no more.
    #[error("write failed")]
    Write,
    /// An allocation failed. The lines of whole supersteps were written.
    #[error("out of memory")]
    Memory,
    /// An internal error: a bug. That it never comes is tested, not proved. The lines of whole supersteps were written.
    #[error("internal")]
    Internal,
}

impl From<AllocError> for StreamFault {
    ghost use Rattle.std.specs.Prelude.{◌≡◌};
    ghost use Rattle.job_stream.specs.declared.fault.StreamFault.TheVariants.{Memory};

    ghost from_gives = { λ _ fault. fault ≡ Memory };

    fn from(_fault: AllocError) -> Self {
        StreamFault::Memory
    }
}
