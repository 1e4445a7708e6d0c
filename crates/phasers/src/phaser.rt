//! The single phaser: a value that one thread steps, or several under a lock.

pub use advance_rule::{CountPlan, StoredCount};
pub use phaser_one::{Advance, Awaited, Call, OneFault, PhaserOne, Reply};
