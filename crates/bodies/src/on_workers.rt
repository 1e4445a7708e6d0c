//! What a run on workers is given, and why it fails.
use thiserror::Error;
use worker_pool::{Gate, Refused, Starter};

/// What a run on workers calls: a gate before and after each segment, a starter before each worker is started. [`OpenGate`] and
/// [`AllStart`] do nothing.
///
/// [`OpenGate`]: crate::OpenGate
/// [`AllStart`]: crate::AllStart
#[derive(Drop)]
pub struct Hooks<'h, G: Gate, S: Starter> {
    /// The gate.
    pub gate: &'h G,
    /// The starter.
    pub starter: &'h S,
}

/// The error of a run on workers that didn't start or didn't end.
#[derive(Debug, Drop, Error)]
pub enum WorkersFault {
    /// There are more start tasks than may live at once. Start fewer, and let these spawn the others.
    #[error("too many tasks for workers")]
    TooMany,
    /// The run was refused: out of memory, or a worker that couldn't be started.
    #[error("{0}")]
    Refused(Refused),
}
