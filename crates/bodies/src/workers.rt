//! Workers that share the tasks of a run.
use std::marker::Model;
use thiserror::Error;
use tier_shape::Shape;

/// The error of a number of workers outside 1 to 64.
#[derive(Clone, Copy, Debug, PartialEq, Eq, Error)]
#[error("a run has 1 to 64 workers")]
pub struct WorkerCountError;

/// How many worker threads share the tasks of a run, 1 to 64, and the shape of the tree of phasers at which they meet.
#[derive(Drop)]
pub struct Workers {
    count: u32,
    shape: Shape,
}

impl Model for Workers {
    ghost use Rattle.bodies.specs.WorkersValue.{WorkersValue, IsWorkerCount};

    ghost Value = { WorkersValue };

    ghost view = { λ w. record { count = w.count; shape = w.shape } };

    ghost invariant = { λ w. IsWorkerCount w.count };
}

impl Workers {
    ghost use Rattle.std.specs.Prelude.{◌≡◌, IfOk, IfErr};
    ghost use Rattle.bodies.specs.WorkersValue.{IsWorkerCount};

    /// Returns this many workers that meet at a tree of this shape. Fails unless they are 1 to 64.
    pub fn new(count: u32, shape: Shape) -> Result<Workers, WorkerCountError>
        ensures workers { IfOk result (λ workers. workers ≡ record { count = count; shape = shape }) }
        ensures range { IfOk result (λ _. IsWorkerCount count) }
        ensures refused { IfErr result (λ _. IsWorkerCount count → ⊥) }
    {
        if count < 1 || count > 64 {
            return Err(WorkerCountError);
        }
        Ok(Workers { count, shape })
    }

    /// Returns their number and the shape.
    pub(crate) fn into_parts(self) -> (u32, Shape)
        ensures count { result.0 ≡ self.count }
        ensures shape { result.1 ≡ self.shape }
        ensures range { IsWorkerCount result.0 }
    {
        let Workers { count, shape } = self;
        (count, shape)
    }
}
