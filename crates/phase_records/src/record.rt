//! What is recorded of a job: its supersteps, what was printed, and how it ended.
use std::marker::Model;
use superstep_memory::arrays::Arrays;
use superstep_memory::path::Path;

/// The record of one superstep.
#[derive(Clone, Copy, PartialEq, Eq)]
pub struct PhaseRecord {
    /// Its number, from 0.
    pub phase: u32,
    /// The number of tasks that were alive as it began, and of those spawned in it.
    pub parties: u32,
    /// The number of tasks that stopped.
    pub left: u32,
    /// The number of tasks that were spawned.
    pub spawned: u32,
}

/// A value that a task printed. The type keeps a path to at most 8 numbers.
#[derive(Drop)]
pub struct Print {
    /// The superstep, from 0.
    pub step: u32,
    /// The path of the task.
    pub path: Path,
    /// What was printed.
    pub value: i64,
}

impl Model for Print {
    ghost use Rattle.phase_records.specs.PrintValue.{PrintValue};

    ghost Value = { PrintValue };

    ghost view = { λ p. record { step = p.step; path = p.path.items; value = p.value } };

    ghost use Rattle.std.specs.Prelude.{◌≤◌, length};

    ghost invariant = { λ p. length p.path.items ≤ 8 };
}

/// How a job ends.
#[derive(Drop)]
pub enum JobStatus {
    /// No task was alive after this number of supersteps.
    Ended(u32),
    /// A task faulted, or too many would have lived.
    Fault {
        /// The number of the fault; 7 is that more tasks would have lived than may at once: 4096 in a job, `most` in a run of
        /// bodies.
        code: u8,
        /// The superstep, from 0.
        step: u32,
        /// The path of the task; no numbers with fault 7.
        path: Path,
    },
    /// Tasks were still alive after this number of supersteps, which was the limit.
    Limit(u32),
}

/// What a job leaves: what it printed and the records of its supersteps, in order, its arrays and its status. Its type keeps
/// that paths have at most 8 numbers.
#[derive(Drop)]
pub struct Report {
    /// What was printed, by superstep, then by path, then in program order.
    pub prints: Vec<Print>,
    /// A record for each superstep, in order.
    pub records: Vec<PhaseRecord>,
    /// The arrays.
    pub arrays: Arrays,
    /// How the job ended.
    pub status: JobStatus,
}

impl Model for Report {
    ghost use Rattle.phase_records.specs.ReportValue.{ReportValue};
    ghost use Rattle.phase_records.specs.StatusSeen.{status_seen};

    ghost Value = { ReportValue };

    ghost view = { λ r. record {
      prints = r.prints.items;
      records = r.records.items;
      arrays = r.arrays;
      status = status_seen r.status;
    } };

    ghost use Rattle.phase_records.specs.Status.{IsShort};

    ghost invariant = { λ r. IsShort (status_seen r.status) };
}
