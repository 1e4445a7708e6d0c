//! What a segment leaves in the buffers that it is given, and how it ends.
use superstep_memory::puts::Puts;

/// What segments have done so far.
#[derive(Drop)]
pub struct Work<T> {
    /// The puts, those of this task after those of others.
    pub puts: Puts,
    /// Working space for the puts of one task. What it holds between two segments means nothing.
    pub own: Puts,
    /// What this task printed.
    pub prints: Vec<i64>,
    /// The tasks that this task spawned.
    pub spawns: Vec<T>,
    /// How much segments have computed, in a unit of the program, such as statements. It wraps around. Only a hint for whoever
    /// shares out tasks: nothing that a run leaves depends on it.
    pub effort: u64,
}

/// How a segment ends.
#[derive(Clone, Copy)]
pub enum SegmentEnd {
    /// The task goes on in the next superstep.
    Stays,
    /// The task stops.
    Stops,
    /// A fault of this number ends the run.
    Fails(u8),
}
