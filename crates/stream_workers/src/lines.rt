//! A hook that hands out the lines of each superstep, and these lines until a worker has written them.
ghost use Rattle.std.specs.Prelude.{◌≡◌, ◌≢◌, ◌⊎◌, None, Err, true, false, IfOk, IfSome, OnOk, OnErr};
ghost use Rattle.ghost_lists.specs.Agreed.{WasBefore};
ghost use Rattle.program_stretches.specs.Parts.{covers};
ghost use Rattle.program_stretches.specs.StretchesValue.{status_in};
ghost use Rattle.program_stretches.specs.Closing.{IsSameRun, IsGiven};
ghost use Rattle.job_stream.specs.Running.{IsGivenAfter, job_reading};
ghost use Rattle.stretch_queue.specs.Hooked.{AreNext, Reopens};
ghost use Rattle.stream_workers.specs.Lines.{IfLines};
ghost use Rattle.stretch_queue.specs.declared.fault.WorkerFault.TheVariants as worker_fault;

use crate::outlet::Outlet;
use crate::streaming::Streaming;
use phase_records::CountedWrite;
use program_stretches::{Lines, Outcome, Stretches};
use std::alloc::{AllocError, Global};
use std::marker::Model;
use std::sync::{Mutex, Wait};
use step_core::JobProgram;
use stretch_queue::fault::{WorkerFault, fault_of_closing};
use stretch_queue::hook;
use stretch_queue::hook::{Closed, Hook};

/// The lines of a superstep, and where they are to be written.
#[derive(Drop)]
pub(crate) struct Unwritten<'o, 'w, R: Wait, W: CountedWrite, J: Streaming> {
    rt: &'o R,
    outlet: &'o Mutex<Outlet<'w, W, J>>,
    lines: Lines,
}

impl<'o, 'w, R: Wait, W: CountedWrite, J: Streaming> Model for Unwritten<'o, 'w, R, W, J> {
    ghost use Rattle.std.specs.Prelude.{◌≤◌};
    ghost use Rattle.program_stretches.specs.LinesValue.{LinesValue};
    ghost use Rattle.step_core.specs.Program.{program_of};
    ghost use Rattle.job_stream.specs.Streamed.{IsPiece};

    ghost Value = { LinesValue };

    ghost view = { λ u. u.lines };

    ghost invariant = { λ u. u.lines.next ≤ J.limit → IsPiece (program_of J.job) J.limit u.lines };
}

impl<'o, 'w, R: Wait, W: CountedWrite, J: Streaming> hook::Lines for Unwritten<'o, 'w, R, W, J> {
    fn write(self, alloc: Global) -> Result<(), AllocError> {
        let Unwritten { rt, outlet, lines } = self;
        outlet.lock(rt).pass(alloc, lines)
    }
}

/// The hook of a run whose lines are written superstep by superstep.
#[derive(Drop)]
pub(crate) struct Streamed<'o, 'w, R: Wait, W: CountedWrite, J: Streaming> {
    pub(crate) rt: &'o R,
    pub(crate) outlet: &'o Mutex<Outlet<'w, W, J>>,
}

// Gives the lines of a superstep away that was closed, if the run goes on.
fn give(alloc: Global, stretches: &mut Stretches<'_, '_, JobProgram<'_>>) -> Option<Lines>
    requires next { AreNext stretches.old }
    ensures given { IfSome result (IsGiven job_reading stretches.old) }
    ensures log { stretches.new.log ≡ stretches.old.log }
    ensures next { AreNext stretches.new }
    ensures same { IsSameRun stretches.old stretches.new }
{
    if stretches.has_ended() {
        return None;
    }
    Some(stretches.give(alloc))
}

// Closes a superstep. Returns its lines if the run goes on, or whether a fault has ended it.
fn close(
    alloc: Global,
    stretches: &mut Stretches<'_, '_, JobProgram<'_>>,
) -> Result<Closed<Lines>, WorkerFault>
    requires running { status_in stretches.old ≡ None }
    ensures whole { OnOk result (covers true stretches.old.count 0 stretches.old.parts ≡ true) }
    ensures missing { result ≡ Err worker_fault.Internal → covers true stretches.old.count 0 stretches.old.parts ≡ false }
    ensures memory { result ≡ Err worker_fault.Memory → covers true stretches.old.count 0 stretches.old.parts ≡ true }
    ensures refused { OnErr result ((stretches.new ≡ stretches.old) ⊎ (covers true stretches.old.count 0 stretches.old.parts ≡ true)) }
    ensures full { result ≢ Err worker_fault.Full }
    ensures reopens { IfOk result (λ closed. Reopens closed stretches.new) }
    ensures goes { IfOk result (λ closed. closed ≢ Closed.Stopped) }
    ensures given { IfOk result (λ closed. IfLines (IsGivenAfter job_reading stretches.old.log) closed) }
    ensures log { WasBefore stretches.old.log stretches.new.log }
    ensures same { IsSameRun stretches.old stretches.new }
{
    let before = stretches.snapshot();
    let closed = stretches.close(alloc);
    stretches.compare(before);
    match closed {
        Ok(Outcome::Landed) => Ok(Closed::Landed(give(alloc, stretches))),
        Ok(Outcome::Faulted | Outcome::TooMany | Outcome::Overflowed) => Ok(Closed::Faulted),
        Err(fault) => Err(fault_of_closing(fault)),
    }
}

impl<'o, 'w, 'j, R: Wait, W: CountedWrite, J: Streaming> Hook<JobProgram<'j>>
    for Streamed<'o, 'w, R, W, J> {
    ghost use Rattle.std.specs.Prelude.{◌≡◌, false};
    ghost use Rattle.job_stream.specs.Running.{IsRunOf};

    type Lines = Unwritten<'o, 'w, R, W, J>;

    ghost kept = { λ v stopped. (stopped ≡ false) × IsRunOf J.job J.limit v.log };

    fn close(
        &mut self,
        alloc: Global,
        stretches: &mut Stretches<'_, '_, JobProgram<'j>>,
    ) -> Result<Closed<Unwritten<'o, 'w, R, W, J>>, WorkerFault> {
        match close(alloc, stretches)? {
            Closed::Landed(Some(lines)) => Ok(Closed::Landed(Some(Unwritten {
                rt: self.rt,
                outlet: self.outlet,
                lines,
            }))),
            Closed::Landed(None) => Ok(Closed::Landed(None)),
            Closed::Stopped => unreachable!(),
            Closed::Faulted => Ok(Closed::Faulted),
        }
    }
}
