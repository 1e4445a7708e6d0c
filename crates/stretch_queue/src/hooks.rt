//! Hooks of a run: a gate before and after each segment, and a starter that says which workers may be started.
use std::sync::Wait;
use superstep_memory::path::Path;

/// A hook that runs before and after the segment of each task, and before each stretch (own). It is not a barrier; for that see
/// `CyclicGate` of the crate `cyclic_gate`.
///
/// The worker that runs the segment calls `enter` before it and `leave` after it, with no lock held. It calls `leave` for
/// one task before it calls `enter` for another, and holds no other task meanwhile. So two tasks on two workers may wait
/// for each other in these calls.
pub trait Gate {
    /// Returns true if the gate needn't see segments. Then `enter` and `leave` aren't called, and a worker holds many tasks at a time.
    fn is_open(&self) -> bool {
        false
    }

    /// Called before the first segment of each stretch, even if the gate is open. `_step` is the superstep, counted from 0, and
    /// `_tasks` the number of tasks in the stretch. The default does nothing.
    fn stretch<R: Wait>(&self, _rt: &R, _step: u32, _tasks: usize) {}

    /// Called before the segment of the task with this path, in this superstep, counted from 0.
    fn enter<R: Wait>(&self, rt: &R, path: &Path, step: u32);

    /// Called after that segment.
    fn leave<R: Wait>(&self, rt: &R, path: &Path, step: u32);
}

/// A gate that is open: it sees no segment (own).
#[derive(Clone, Copy, Drop)]
pub struct OpenGate;

impl Gate for OpenGate {
    fn is_open(&self) -> bool {
        true
    }

    fn enter<R: Wait>(&self, _rt: &R, _path: &Path, _step: u32) {}

    fn leave<R: Wait>(&self, _rt: &R, _path: &Path, _step: u32) {}
}

/// A hook that says which workers may be started (own).
pub trait Starter {
    /// Returns whether worker `k`, counted from 0, may be started. If not, the run ends with `NotStarted(k)`.
    fn may_start(&self, k: u32) -> bool;
}

/// Starts every worker (own).
#[derive(Clone, Copy, Drop)]
pub struct AllStart;

impl Starter for AllStart {
    fn may_start(&self, _k: u32) -> bool {
        true
    }
}
