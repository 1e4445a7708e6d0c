//! What a run does beside its supersteps: a hook that closes them, and lines that the next worker writes.
use crate::fault::WorkerFault;
use program_stretches::Stretches;
use programs::program::Program;
use std::alloc::{AllocError, Global};

/// Something that is to be written before the tasks of a stretch run, by the worker that holds it.
pub trait Lines: Drop {
    /// Writes it. No lock of the run is held. Fails to end the run: it is then refused as if memory had run out.
    fn write(self, alloc: Global) -> Result<(), AllocError>;
}

/// Nothing to write.
#[derive(Clone, Copy, Drop)]
pub struct NoLines;

impl Lines for NoLines {
    fn write(self, _alloc: Global) -> Result<(), AllocError> {
        Ok(())
    }
}

/// How closing a superstep ended (own).
#[derive(Drop)]
pub enum Closed<L> {
    /// The superstep was taken. Unless no task lives or the limit is reached, the stretches of the next one can be handed out,
    /// the first with these lines.
    Landed(Option<L>),
    /// The superstep was taken, and the hook has stopped the run while tasks live.
    Stopped,
    /// A fault has ended the run in this superstep.
    Faulted,
}

/// A hook that closes the supersteps of a run (own): it may stop the run, or hand out lines of what the superstep left.
pub trait Hook<P: Program>: Drop {
    ghost use Rattle.std.specs.Prelude.{◌≡◌, ◌≢◌, ◌⊎◌, true, false, None, Err, Bool, IfOk, OnOk, OnErr};
    ghost use Rattle.program_stretches.specs.Parts.{covers};
    ghost use Rattle.program_stretches.specs.StretchesValue.{StretchesValue, status_in};
    ghost use Rattle.program_stretches.specs.Closing.{IsSameRun};
    ghost use Rattle.stretch_queue.specs.Hooked.{bare, is_stopped, Reopens};
    ghost use Rattle.stretch_queue.specs.declared.fault.WorkerFault.TheVariants as worker_fault;

    /// What it hands out.
    type Lines: Lines;

    /// What it keeps true of a run, read without its stretches, and of whether it has stopped the run.
    ghost kept: { StretchesValue P P.Task → Bool → Type 0 };

    /// Closes the superstep after every stretch is back. Fails with `Internal` if a stretch is still out, and with `Memory` if
    /// memory runs out; then the run can't continue.
    fn close(
        &mut self,
        alloc: Global,
        stretches: &mut Stretches<'_, '_, P>,
    ) -> Result<Closed<Self::Lines>, WorkerFault>
        requires running { status_in stretches.old ≡ None }
        requires kept { kept (bare stretches.old) false }
        ensures whole { OnOk result (covers true stretches.old.count 0 stretches.old.parts ≡ true) }
        ensures missing { result ≡ Err worker_fault.Internal → covers true stretches.old.count 0 stretches.old.parts ≡ false }
        ensures memory { result ≡ Err worker_fault.Memory → covers true stretches.old.count 0 stretches.old.parts ≡ true }
        ensures refused { OnErr result ((stretches.new ≡ stretches.old) ⊎ (covers true stretches.old.count 0 stretches.old.parts ≡ true)) }
        ensures full { result ≢ Err worker_fault.Full }
        ensures kept { IfOk result (λ closed. kept (bare stretches.new) (is_stopped closed)) }
        ensures reopens { IfOk result (λ closed. Reopens closed stretches.new) }
        ensures same { IsSameRun stretches.old stretches.new };
}
