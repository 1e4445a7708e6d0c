//! What lies behind the handle.
use crate::run::Run;

/// What lies behind the handle.
#[derive(Drop)]
pub struct State {
    /// The run.
    pub run: Run,
}
