//! Task bodies written in Rattle: all that a program with bodies of its own needs.
//!
//! A program of your own is a crate of this repository, `crates/NAME`. The command `tools/new NAME --bodies` makes one; name
//! `bodies` in its line of `crates.txt`.
//!
//! * [`TaskBody`] is what you write: what a task does in a superstep, by a [`View`] of the arrays and what the task keeps. It
//!   writes to an [`Out`] and returns an [`Ending`]. [`Map`], [`Stencil`], [`Grid`] and [`Reduce`] are bodies over a closure.
//! * [`Run`] runs a body: on the caller's thread, or on [`Workers`] that meet at a tree of phasers. The result is the same.
//! * [`Watch`] looks at a run before each superstep, and may stop it: [`Run::watch`] adds one.
//! * [`Hooks`] are a [`Gate`] that is called before and after each segment, and a [`Starter`] that says which workers may be started:
//!   [`Run::on_with`] calls them.
//! * [`Report`] is what a run leaves: [`Arrays`], [`Print`]s, a [`PhaseRecord`] for each superstep, and a [`JobStatus`].
//!   [`Report::same_as`] compares two.
//!
//! A cell is named by the place of its array, a `u16`, and its index in it, a `u32`.
//!
//! Ten tasks heat a rod for a thousand supersteps, on one thread and on four workers:
//!
//! ```
//! use bodies::{Arrays, Ending, Out, Run, Shape, TaskBody, View, Workers};
//! use std::alloc::{AllocError, Global};
//!
//! #[derive(Drop)]
//! struct Block {
//!     first: u32,
//!     end: u32,
//! }
//!
//! #[derive(Drop)]
//! struct Rod {
//!     last: u32,
//! }
//!
//! fn at(cells: &[i64], place: u32) -> i64 {
//!     cells.get(place as usize).copied().unwrap_or(0)
//! }
//!
//! impl TaskBody for Rod {
//!     type Kept = Block;
//!
//!     fn run(
//!         &self,
//!         alloc: Global,
//!         block: &mut Block,
//!         view: &View<'_>,
//!         out: &mut Out<Block>,
//!     ) -> Result<Ending, AllocError> {
//!         let cells = view.cells(0);
//!         let mut values = out.buffer(alloc);
//!         for place in block.first..block.end {
//!             let left = at(cells, place.wrapping_sub(1));
//!             values.push(left.wrapping_add(at(cells, place.wrapping_add(1))) / 2)?;
//!         }
//!         out.put_row(0, block.first, values)?;
//!         if view.step < self.last {
//!             Ok(Ending::Syncs)
//!         } else {
//!             Ok(Ending::Stops)
//!         }
//!     }
//! }
//!
//! // A rod of 1002 cells, the last of which is hot.
//! fn arrays(alloc: Global) -> anyhow::Result<Arrays> {
//!     let mut cells = Vec::from_elem(alloc, 0, 1001)?;
//!     cells.push(1_000_000)?;
//!     let mut arrays = Arrays::new(alloc);
//!     arrays.add(String::from_str(alloc, "rod")?, cells)?;
//!     Ok(arrays)
//! }
//!
//! // Ten blocks of 100 cells, one for each task.
//! fn blocks(alloc: Global) -> Result<Vec<Block>, AllocError> {
//!     let mut blocks = Vec::new(alloc);
//!     for number in 0..10 {
//!         blocks.push(Block {
//!             first: number * 100 + 1,
//!             end: number * 100 + 101,
//!         })?;
//!     }
//!     Ok(blocks)
//! }
//!
//! fn main(rt: HostRuntime) -> anyhow::Result<()> {
//!     let alloc = rt.alloc();
//!     let body = Rod { last: 999 };
//!     // At most 1000 supersteps.
//!     let alone = Run::of(&body, arrays(alloc)?, blocks(alloc)?).limit(1000);
//!     let one = alone.alone(alloc)?;
//!     println!(rt; "{:?}", one.report.arrays.cell(0, 1000))?;
//!     // Four workers that meet at a tree: a root, two tiers below it, three leaves below each.
//!     let workers = Workers::new(4, Shape::from_widths(alloc, "2x3")?)?;
//!     let shared = Run::of(&body, arrays(alloc)?, blocks(alloc)?).limit(1000);
//!     let other = shared.on(&rt, alloc, workers)?;
//!     println!(rt; "{}", other.report.same_as(&one.report))?;
//!     Ok(())
//! }
//! ```
//!
//! It prints `Some(974763)`, and `true`: both reports are the same.
//!
//! # Where things are
//!
//! * `run.rt`: runs; `watched.rt`: runs with a watcher; `workers.rt`: workers; `on_workers.rt`: hooks, and why a run on workers fails.
//!   The rest is that of `task_bodies` and `worker_pool`.
//! * `specs/RunValue.antt`: what a run begins with; `WorkersValue.antt`: workers; `Leaving.antt`: why a run on workers is refused.
#![tactic(auto)]

mod on_workers;
mod run;
mod watched;
mod workers;

pub use on_workers::{Hooks, WorkersFault};
pub use phase_records::{JobStatus, PhaseRecord, Print, Report, WriteFault, text_of, write_report};
pub use programs::alone::Ran;
pub use programs::watch::{NoWatch, Watch};
pub use run::Run;
pub use superstep_memory::arrays::Arrays;
pub use superstep_memory::path::Path;
pub use task_bodies::body::{Ending, Exact, Out, TaskBody, View};
pub use task_bodies::kernel::{BoardRows, Cells, Grid, Map, Reduce, Span, Stencil, Window};
pub use task_bodies::member::Member;
pub use task_bodies::run::BodiesFault;
pub use tier_shape::{Shape, ShapeFault};
pub use watched::WatchedRun;
pub use worker_pool::{AllStart, Gate, OpenGate, Refused, Starter};
pub use workers::{WorkerCountError, Workers};
