//! What a run is of.
use std::marker::Brand;

/// Identifies a run in contracts: its job, its limit, and its writer (the reference, and what it held and how often it had failed
/// when the run began). Each run picks a type for it.
pub trait Streaming {
    ghost use Rattle.std.specs.Prelude.{ℕ, List, Option};
    ghost use Rattle.task_code.specs.JobValue.{JobValue};

    ghost job: { JobValue };

    ghost limit: { ℕ };

    ghost writer: { ℕ };

    ghost held: { Option (List ℕ) };

    ghost failures: { ℕ };
}

impl Streaming for Brand {
    ghost use Rattle.std.specs.Prelude.{[], None};

    ghost job = { record { format = 1; arrays = []; bodies = []; starts = [] } };

    ghost limit = { 1 };

    ghost writer = { 0 };

    ghost held = { None };

    ghost failures = { 0 };
}
