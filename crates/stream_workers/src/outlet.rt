//! The writer of a run, which workers share.
ghost use Rattle.std.specs.Prelude.{◌≡◌, ◌≤◌};
ghost use Rattle.step_core.specs.Program.{program_of};
ghost use Rattle.job_stream.specs.Streamed.{IsPiece};

use crate::streaming::Streaming;
use job_stream::{StreamFault, pass_on};
use phase_records::CountedWrite;
use program_stretches::Lines;
use std::alloc::{AllocError, Global};
use std::marker::{Model, PhantomData};
use task_code::job::Job;

/// A writer that is passed to a run, and back.
#[derive(Drop)]
pub(crate) struct Lent<'w, W: CountedWrite> {
    pub(crate) writer: &'w mut W,
}

/// The writer of a run, and how many supersteps' lines it was given. Its type keeps that just these were written, in order. Once
/// something has failed, nothing more is written.
#[derive(Drop)]
pub(crate) struct Outlet<'w, W: CountedWrite, J: Streaming> {
    pub(crate) writer: &'w mut W,
    pub(crate) job: &'w Job,
    pub(crate) limit: u32,
    pub(crate) written: u32,
    pub(crate) fault: Option<StreamFault>,
    pub(crate) of: PhantomData<J>,
}

impl<'w, W: CountedWrite, J: Streaming> Model for Outlet<'w, W, J> {
    ghost use Rattle.std.specs.Prelude.{◌≡◌};
    ghost use Rattle.step_core.specs.Program.{program_of};
    ghost use Rattle.stream_workers.specs.Written.{HasWritten};

    ghost Value = { Unit {0} };

    ghost view = { λ o. tt };

    ghost invariant = { λ o. (o.writer.ghost_name ≡ J.writer) × (o.job.now ≡ J.job) × (o.limit ≡ J.limit)
        × HasWritten (program_of J.job) J.limit J.held J.failures (W.contents o.writer.now) (W.failures o.writer.now) o.written o.fault };
}

impl<'w, W: CountedWrite, J: Streaming> Outlet<'w, W, J> {
    /// Creates the writer as the run begins.
    pub(crate) fn new(lent: Lent<'w, W>, job: &'w Job, limit: u32) -> Self
        requires writer { lent.writer.ghost_name ≡ J.writer }
        requires job { job.now ≡ J.job }
        requires limit { limit ≡ J.limit }
        requires held { W.contents lent.writer.now ≡ J.held }
        requires failures { W.failures lent.writer.now ≡ J.failures }
    {
        let Lent { writer } = lent;
        Outlet {
            writer,
            job,
            limit,
            written: 0,
            fault: None,
            of: PhantomData,
        }
    }

    /// Writes the lines of the supersteps that come next. Fails if they can't be written, or if something has failed before.
    pub(crate) fn pass(&mut self, alloc: Global, lines: Lines) -> Result<(), AllocError>
        requires { lines.next ≤ J.limit → IsPiece (program_of J.job) J.limit lines }
    {
        if self.fault.is_some() {
            return Err(AllocError);
        }
        match pass_on(
            alloc,
            self.job,
            self.limit,
            lines,
            self.written,
            self.writer,
        ) {
            Ok(next) => {
                self.written = next;
                Ok(())
            }
            Err(fault) => {
                self.fault = Some(fault);
                Err(AllocError)
            }
        }
    }
}
