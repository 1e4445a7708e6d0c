//! Why no job was read or written.
ghost use Rattle.std.specs.Prelude.{◌≡◌};
ghost use Rattle.job_reader.specs.declared.fault.LineFault.TheVariants as line_fault;
ghost use Rattle.job_reader.specs.declared.fault.ReadJobFault.TheVariants as job_fault;
ghost use Rattle.job_reader.specs.Gives.{fault_at};

use std::alloc::{AllocError, AllocFailed};
use text_lines::{Code, Refusal};
use thiserror::Error;

/// Why no job was read.
#[derive(Clone, Copy, Debug, PartialEq, Eq, Error)]
pub enum ReadJobFault {
    /// The text is refused. The refusal has the first line at fault, for a caller to report.
    #[error("{0}")]
    Text(Refusal),
    /// An allocation failed. The text may be correct, so a caller may try again.
    #[error("out of memory")]
    Memory,
}

impl From<Refusal> for ReadJobFault {
    ghost from_gives = { λ refusal fault. fault ≡ job_fault.Text refusal };

    fn from(refusal: Refusal) -> ReadJobFault {
        ReadJobFault::Text(refusal)
    }
}

impl From<AllocError> for ReadJobFault {
    ghost from_gives = { λ _ fault. fault ≡ job_fault.Memory };

    fn from(_error: AllocError) -> ReadJobFault {
        ReadJobFault::Memory
    }
}

/// Why a line was not read.
#[derive(Clone, Copy)]
pub(crate) enum LineFault {
    /// The line is refused.
    Refused(Code),
    /// An allocation failed.
    Memory,
}

impl LineFault {
    /// Returns the fault of a text whose line of this number has this fault.
    pub(crate) fn at(self, line: usize) -> ReadJobFault
        ensures { result ≡ fault_at line self }
    {
        match self {
            LineFault::Refused(code) => ReadJobFault::Text(Refusal { line, code }),
            LineFault::Memory => ReadJobFault::Memory,
        }
    }
}

impl From<Code> for LineFault {
    ghost from_gives = { λ code fault. fault ≡ line_fault.Refused code };

    fn from(code: Code) -> LineFault {
        LineFault::Refused(code)
    }
}

impl From<AllocError> for LineFault {
    ghost from_gives = { λ _ fault. fault ≡ line_fault.Memory };

    fn from(_error: AllocError) -> LineFault {
        LineFault::Memory
    }
}

impl<T: Drop> From<AllocFailed<T>> for LineFault {
    ghost from_gives = { λ _ fault. fault ≡ line_fault.Memory };

    fn from(_error: AllocFailed<T>) -> LineFault {
        LineFault::Memory
    }
}
