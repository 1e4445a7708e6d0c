//! Why a trace was not run to its end.
ghost use Rattle.std.specs.Prelude.{◌≡◌};
ghost use Rattle.trace_text.specs.declared.fault.TraceFault.TheVariants.{Text, Memory};

use std::alloc::AllocError;
use text_lines::Refusal;
use thiserror::Error;

/// Why a trace was not run to its end.
#[derive(Clone, Copy, Debug, PartialEq, Eq, Error)]
pub enum TraceFault {
    /// The text is refused, and nothing was written. The refusal has the first line at fault, for a caller to report.
    #[error("{0}")]
    Text(Refusal),
    /// The reader failed, and nothing was written. A caller reports it.
    #[error("read failed")]
    Read,
    /// The writer failed after a beginning of the answers was written. A caller reports it and writes no more.
    #[error("write failed")]
    Write,
    /// An allocation failed. At most a beginning of the answers was written.
    #[error("out of memory")]
    Memory,
}

impl From<Refusal> for TraceFault {
    ghost from_gives = { λ refusal fault. fault ≡ Text refusal };

    fn from(refusal: Refusal) -> TraceFault {
        TraceFault::Text(refusal)
    }
}

impl From<AllocError> for TraceFault {
    ghost from_gives = { λ _ fault. fault ≡ Memory };

    fn from(_error: AllocError) -> TraceFault {
        TraceFault::Memory
    }
}
