//! The subcommand `explain`.
ghost use Rattle.bsp_words.specs.Ranges.{IsTopic};
ghost use Rattle.bsp_cli.specs.Ends.{Explains, WriteCause};

use crate::fault::RunFault;
use bsp_words::{Topic, text_on};
use phase_records::{CountedWrite, write_all};

/// Writes what a code or a fault means, or the list of all. Reads nothing.
pub(crate) fn explain<W: CountedWrite>(writer: &mut W, topic: Topic) -> Result<(), RunFault>
    requires topic { IsTopic topic }
    ensures explains { Explains topic (W.contents writer.old) (W.contents writer.new) result }
    ensures write_failures { WriteCause (W.failures writer.old) (W.failures writer.new) result }
{
    match write_all(writer, text_on(topic).as_bytes()) {
        Ok(()) => Ok(()),
        Err(_) => Err(RunFault::Write),
    }
}
