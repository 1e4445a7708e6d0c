//! Why a command did not end, and the line that reports it.
ghost use Rattle.std.specs.Prelude.{◌≡◌, ◌++◌, OnOk};
ghost use Rattle.std.specs.Io.KnownBytes.{Appends};
ghost use Rattle.phase_records.specs.Device.{CountsFailure};
ghost use Rattle.bsp_cli.specs.Texts.{refusal_line, worker_line, fault_text, fault_status, Tells, Says};

use crate::status::{
    COMMAND_LINE_REFUSED, DEVICE_FAILED, INTERNAL, NOT_STARTED, OUT_OF_MEMORY, TEXT_REFUSED,
};
use itoa::{Buffer, Integer};
use phase_records::{CountedWrite, DeviceFailed, write_all};
use text_lines::Refusal;
use thiserror::Error;

/// Why a command did not end.
#[derive(Clone, Copy, Debug, PartialEq, Eq, Error)]
pub enum RunFault {
    /// The text is refused. The refusal has the first line at fault. Nothing was written.
    #[error("refused line {} code {}", .0.line, .0.code.number())]
    Text(Refusal),
    /// The reader failed. Nothing was written.
    #[error("read or write failed")]
    Read,
    /// The writer failed, and a beginning of the output was written.
    #[error("read or write failed")]
    Write,
    /// An allocation failed.
    #[error("out of memory")]
    Memory,
    /// The worker of this number, from 0, couldn't be started. Nothing was written.
    #[error("worker {0} not started")]
    NotStarted(u32),
    /// A bug: workers met a refusal that can't occur. Nothing was written.
    #[error("internal")]
    Internal,
}

// Writes a name and a number after it.
fn write_field<E: CountedWrite, I: Integer>(
    errors: &mut E,
    name: &[u8],
    number: I,
) -> Result<(), DeviceFailed>
    ensures ok { OnOk result (Appends (E.contents errors.old) (E.contents errors.new) (name.now ++ I.text number)) }
    ensures failures { CountsFailure (E.failures errors.old) (E.failures errors.new) result }
{
    write_all(errors, name)?;
    write_all(errors, Buffer::new().format(number).as_bytes())
}

// Writes the line of a refused text.
fn write_refusal<E: CountedWrite>(errors: &mut E, refusal: Refusal) -> Result<(), DeviceFailed>
    ensures ok { OnOk result (Appends (E.contents errors.old) (E.contents errors.new) (refusal_line refusal)) }
    ensures failures { CountsFailure (E.failures errors.old) (E.failures errors.new) result }
{
    write_field(errors, b"refused line ", refusal.line)?;
    write_field(errors, b" code ", refusal.code.number())?;
    write_all(errors, b"\n")
}

// Writes the line of a worker that wasn't started.
fn write_worker<E: CountedWrite>(errors: &mut E, k: u32) -> Result<(), DeviceFailed>
    ensures ok { OnOk result (Appends (E.contents errors.old) (E.contents errors.new) (worker_line k)) }
    ensures failures { CountsFailure (E.failures errors.old) (E.failures errors.new) result }
{
    write_field(errors, b"worker ", k)?;
    write_all(errors, b" not started\n")
}

/// Reports that the command line is refused. Returns the status.
#[tactic(auto, using(crate::proofs::Saying::refused_says))]
pub(crate) fn refuse<E: CountedWrite>(errors: &mut E) -> u8
    ensures status { result ≡ COMMAND_LINE_REFUSED }
    ensures says { Says result (E.contents errors.old) (E.contents errors.new) (E.failures errors.old) (E.failures errors.new) }
{
    let _ = write_all(errors, b"command line refused\n");
    COMMAND_LINE_REFUSED
}

/// Reports why a command did not end. Returns the status. A failure of `errors` changes nothing else.
#[tactic(auto, using(crate::proofs::Saying::fault_says))]
pub(crate) fn tell<E: CountedWrite>(errors: &mut E, fault: RunFault) -> u8
    ensures status { result ≡ fault_status fault }
    ensures tells { Tells (E.contents errors.old) (E.contents errors.new) (E.failures errors.old) (E.failures errors.new) (fault_text fault) }
    ensures says { Says result (E.contents errors.old) (E.contents errors.new) (E.failures errors.old) (E.failures errors.new) }
{
    match fault {
        RunFault::Text(refusal) => {
            let _ = write_refusal(errors, refusal);
            TEXT_REFUSED
        }
        RunFault::Memory => {
            let _ = write_all(errors, b"out of memory\n");
            OUT_OF_MEMORY
        }
        RunFault::Read | RunFault::Write => {
            let _ = write_all(errors, b"read or write failed\n");
            DEVICE_FAILED
        }
        RunFault::NotStarted(k) => {
            let _ = write_worker(errors, k);
            NOT_STARTED
        }
        RunFault::Internal => {
            let _ = write_all(errors, b"internal\n");
            INTERNAL
        }
    }
}
