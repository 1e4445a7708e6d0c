//! A hook that asks a watcher before each superstep.
ghost use Rattle.std.specs.Prelude.{◌≡◌, None, true, false};
ghost use Rattle.program_stretches.specs.StretchesValue.{status_in};

use crate::fault::{WorkerFault, fault_of_closing};
use crate::hook::{Closed, Hook, NoLines};
use program_stretches::{Outcome, Stretches};
use programs::program::Program;
use programs::watch::Watch;
use std::alloc::Global;

/// The hook of a watcher, which is called before each superstep and may stop the run there.
#[derive(Drop)]
pub struct Watched<'w, W: Watch> {
    /// The watcher.
    pub watch: &'w mut W,
}

/// Asks the watcher of a run whether the next superstep begins. Returns true if it stops the run. A run that has ended isn't
/// stopped.
pub fn halts<P: Program, W: Watch>(stretches: &Stretches<'_, '_, P>, watch: &mut W) -> bool
    ensures stops { result ≡ true → (status_in stretches.now ≡ None) × W.stops stretches.now.step stretches.now.arrays stretches.now.count }
    ensures goes { result ≡ false → status_in stretches.now ≡ None → W.goes stretches.now.step stretches.now.arrays stretches.now.count }
{
    if stretches.has_ended() {
        return false;
    }
    !watch.goes_on(stretches.step(), stretches.arrays(), stretches.count())
}

impl<'w, P: Program, W: Watch> Hook<P> for Watched<'w, W> {
    ghost use Rattle.std.specs.Prelude.{◌≡◌};
    ghost use Rattle.stretch_queue.specs.Watched.{IsWatched};

    type Lines = NoLines;

    ghost kept = { λ v stopped. (v.given ≡ 0) × IsWatched W.stops W.goes v stopped };

    fn close(
        &mut self,
        alloc: Global,
        stretches: &mut Stretches<'_, '_, P>,
    ) -> Result<Closed<NoLines>, WorkerFault> {
        match stretches.close(alloc) {
            Ok(Outcome::Landed) => {
                if halts(stretches, self.watch) {
                    return Ok(Closed::Stopped);
                }
                Ok(Closed::Landed(None))
            }
            Ok(Outcome::Faulted | Outcome::TooMany | Outcome::Overflowed) => Ok(Closed::Faulted),
            Err(fault) => Err(fault_of_closing(fault)),
        }
    }
}
