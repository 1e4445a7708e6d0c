//! The subcommand `trace`.
ghost use Rattle.bsp_cli.specs.Ends.{Traces, ReadCause, WriteCause};

use crate::fault::RunFault;
use phase_records::{CountedRead, CountedWrite};
use std::alloc::Global;
use trace_text::{TraceFault, run_trace};

/// Reads a trace, runs it and writes what it prints.
pub(crate) fn trace<R: CountedRead, W: CountedWrite>(
    alloc: Global,
    reader: &mut R,
    writer: &mut W,
) -> Result<(), RunFault>
    ensures traces { Traces (R.remaining reader.old) (W.contents writer.old) (W.contents writer.new) result }
    ensures read_failures { ReadCause (R.failures reader.old) (R.failures reader.new) result }
    ensures write_failures { WriteCause (W.failures writer.old) (W.failures writer.new) result }
{
    match run_trace(alloc, reader, writer) {
        Ok(()) => Ok(()),
        Err(TraceFault::Text(refusal)) => Err(RunFault::Text(refusal)),
        Err(TraceFault::Read) => Err(RunFault::Read),
        Err(TraceFault::Write) => Err(RunFault::Write),
        Err(TraceFault::Memory) => Err(RunFault::Memory),
    }
}
