//! Jobs: read, run on one thread or on several, written.
//!
//! A program of your own is a crate of this repository, `crates/NAME`. The command `tools/new NAME --jobs` makes one.
//!
//! * [`read_job`] reads a [`Job`] from its text, and [`write_job`] writes it.
//! * [`run_alone`] runs a job on the caller's thread. [`run_observed`] also calls an observer ([`Observe`]) as each superstep
//!   begins.
//! * [`run_within`] runs it on 1 to 64 worker threads, which meet at a tree of phasers after each superstep. The
//!   [`Report`] is the same whatever the number of workers and the shape of the tree. [`run_job`] is the call below it,
//!   and takes your advance rule.
//! * [`JobSteps`] runs it on the caller's thread superstep by superstep, and gives away what each superstep printed.
//! * [`Round`] takes supersteps by deliveries in any order, for callers who run the tasks themselves.
//!
//! Four workers run four tasks, which shift the cells of an array three times round:
//!
//! ```
//! use anyhow::bail;
//! use jobs::{AllStart, OpenGate, Shape, read_job, run_within};
//!
//! // Each task moves its cell to the next, three times.
//! const SHIFT: &[u8] = b"bsp 1
//! array a 4 5 6 7 8
//! body shift
//! let to = arg + 1
//! let to = to % 4
//! let turn = 0
//! while turn < 3
//! put a[to] = a[arg]
//! sync
//! let turn = turn + 1
//! end
//! end
//! start shift 0
//! start shift 1
//! start shift 2
//! start shift 3
//! ";
//!
//! fn main(rt: HostRuntime) -> anyhow::Result<()> {
//!     let job = read_job(rt.alloc(), SHIFT)?;
//!     // A root with two leaves. Four workers take at most 1000 supersteps, without hooks.
//!     let shape = Shape::from_widths(rt.alloc(), "2")?;
//!     let report = run_within(&rt, rt.alloc(), &job, shape, 4, 1000, &OpenGate, &AllStart)?;
//!     let Some((_, cells)) = report.arrays.get(0) else {
//!         bail!("the report has no array");
//!     };
//!     println!(rt; "{cells:?}")?;
//!     Ok(())
//! }
//! ```
//!
//! It prints `[6, 7, 8, 5]`.
//!
//! The number of workers is 1 to 64, the limit 1 to 2147483648 (for [`run_alone`] at least 1). Constants need no proof. Before a
//! number from elsewhere, write `ensure!(1 <= workers && workers <= 64, "..")`, and the same for the limit.
//!
//! To read a [`Report`]: `report.records.len()` is the number of supersteps, `report.arrays.get(0)` the first array's name and
//! cells, `report.prints` what tasks printed. `report.status` is `JobStatus::Ended(steps)`, `JobStatus::Limit(steps)`, or
//! `JobStatus::Fault { code, step, path }`, whose path is read by `path.as_slice()`. `report.same_as(&other)` is true if prints,
//! records, arrays and status are the same.
//!
//! # What is in it
//!
//! * Texts: [`read_job`], [`write_job`], [`canonical`], [`upgrade`], [`ReadJobFault`], [`Refusal`], [`Code`].
//! * Runs: [`run_alone`] and [`run_observed`], which fail only if memory runs out; [`run_within`] and [`run_job`], whose error
//!   [`Refused`] says why there is no report.
//! * Hooks: [`Observe`] and [`NoObserver`] of a run on one thread; [`Gate`] and [`OpenGate`], called before and after each task's
//!   part of a superstep; [`Starter`] and [`AllStart`], asked before each worker is started.
//! * Reports: [`Report`], with its [`Print`]s, [`PhaseRecord`]s, arrays and [`JobStatus`]; [`write_report`], [`text_of`].
//! * Supersteps: [`JobSteps`]; [`Round`], [`Order`], [`Delivery`], [`AcceptFault`], [`CloseFault`], [`Outcome`].
//! * What the calls take: [`Job`]; [`Shape`], and [`ShapeFault`] if a text is none; [`EndPlan`], [`StoredAdvance`].
#![tactic(auto)]

pub use advance_rule::{EndPlan, StoredAdvance};
pub use job_reader::{Code, ReadJobFault, Refusal, canonical, read_job, upgrade, write_job};
pub use phase_records::{JobStatus, PhaseRecord, Print, Report, WriteFault, text_of, write_report};
pub use step_core::{
    AcceptFault, CloseFault, Delivery, JobSteps, NoObserver, Observe, Order, Outcome, Round,
    run_alone, run_observed,
};
pub use task_code::job::Job;
pub use tier_shape::{Shape, ShapeFault};
pub use worker_pool::{AllStart, Gate, OpenGate, Refused, Starter, run_job, run_within};
