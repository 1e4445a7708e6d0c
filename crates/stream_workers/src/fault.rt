//! Why a run on workers that is written superstep by superstep doesn't end.
ghost use Rattle.std.specs.Prelude.{◌≡◌, ℕ, List, Option, Err};
ghost use Rattle.std.specs.Io.KnownBytes.{Appends};
ghost use Rattle.step_core.specs.Program.{Program};
ghost use Rattle.stretch_queue.specs.Refusals.{IsOfWorkers};
ghost use Rattle.job_stream.specs.Streamed.{lines_of};
ghost use Rattle.stream_workers.specs.Written.{CauseOn, StreamsOn};

use job_stream::StreamFault;
use thiserror::Error;
use worker_pool::Refused;

/// The error of a run on workers whose report is written superstep by superstep (own). All workers that were started have been
/// joined.
#[derive(Clone, Copy, Debug, PartialEq, Eq, Error)]
pub enum WorkersStreamFault {
    /// An error that one thread can also have.
    #[error(transparent)]
    Fault(StreamFault),
    /// The worker of this number, counted from 0, couldn't be started. Nothing was written.
    #[error("worker {0} not started")]
    NotStarted(u32),
}

/// Returns why a run that workers refused doesn't end, after the lines of `written` supersteps were written.
pub(crate) fn workers_stream_fault(refused: Refused, written: u32) -> WorkersStreamFault
    ensures streams { (workers limit : ℕ) (p : Program) (old new : Option (List ℕ)) → IsOfWorkers workers refused → Appends old new (lines_of p limit written)
        → StreamsOn workers p limit old new (Err result) }
    ensures cause { (failures : ℕ) → CauseOn failures failures (Err result) }
{
    match refused {
        Refused::NotStarted(k) if written == 0 => WorkersStreamFault::NotStarted(k),
        Refused::NotStarted(_) | Refused::Internal | Refused::Full => {
            WorkersStreamFault::Fault(StreamFault::Internal)
        }
        Refused::Memory => WorkersStreamFault::Fault(StreamFault::Memory),
    }
}
