//! Tasks written in Rattle, on worker threads: heat in a rod, also until a cell of it is warm, the game of life, a shop whose
//! customers come and go, also until a watcher has counted to a number, a search in a graph, and its ranks. Each run leaves on
//! workers what it leaves on one thread. Then a run with hooks: a gate that gets each segment, and a starter that gets each worker.

ghost use Rattle.std.specs.Prelude.{◌≡◌};

use crate::hooks::{Meets, Starts};
use bodies::{Arrays, Grid, Hooks, Run, Shape, TaskBody, Watch, Window, Workers};
use example_tasks::life::next;
use example_tasks::queue::Shop;
use example_tasks::rank::Ranks;
use example_tasks::rod::{Rod, UntilWarm};
use example_tasks::search::Graph;
use example_tasks::start::{self, Start};
use std::alloc::Global;
use std::sync::Wait;
use std::thread::Threads;

// How many runs are compared.
const RUNS: usize = 7;

// How many supersteps of the shop begin before a watcher stops it.
const COUNTED: u32 = 37;

// Returns a number by all cells of one array.
fn array_number(before: i64, cells: &[i64]) -> i64 {
    let mut number = before;
    for cell in cells {
        number = number.wrapping_mul(31).wrapping_add(*cell);
    }
    number
}

// Returns a number by all cells of all arrays. Other cells give another number, except by a rare chance.
fn number_of(arrays: &Arrays) -> i64 {
    let mut number = 0;
    for place in 0..arrays.len() {
        if let Some((_, cells)) = arrays.get(place) {
            number = array_number(number, cells);
        }
    }
    number
}

// Returns this many workers at a tree of these widths.
fn workers_at(alloc: Global, workers: u32, widths: &str) -> anyhow::Result<Workers> {
    Ok(Workers::new(workers, Shape::from_widths(alloc, widths)?)?)
}

// Returns a run of a body, with at most 1000 tasks and 1000 supersteps.
fn run_of<B: TaskBody>(body: &B, start: Start<B::Kept>) -> Run<'_, B>
    ensures { result.body ≡ body.now }
{
    Run::of(body, start.arrays, start.tasks)
        .most(1000)
        .limit(1000)
}

// Returns what a body leaves on one thread.
fn alone<B: TaskBody>(alloc: Global, body: &B, start: Start<B::Kept>) -> anyhow::Result<i64>
    requires { B.ready body.now }
{
    let ran = run_of(body, start).alone(alloc)?;
    Ok(number_of(&ran.report.arrays))
}

// Returns what a body leaves on `workers` workers at a tree of these widths.
fn on_workers<B: TaskBody + Sync, R: Threads + Wait + Sync>(
    rt: &R,
    alloc: Global,
    body: &B,
    start: Start<B::Kept>,
    workers: u32,
    widths: &str,
) -> anyhow::Result<i64>
where
    B::Kept: Send,
    requires { B.ready body.now }
{
    let workers = workers_at(alloc, workers, widths)?;
    let ran = run_of(body, start).on(rt, alloc, workers)?;
    Ok(number_of(&ran.report.arrays))
}

// Stops the rod as soon as its cell 20 is warm.
fn until_warm() -> UntilWarm {
    UntilWarm {
        cell: 20,
        least: 1_000_000_000,
    }
}

// Returns what the rod that is stopped leaves, together with its number of supersteps.
fn warm_alone(alloc: Global) -> anyhow::Result<i64> {
    let rod = Rod { last: 999 };
    let ran = run_of(&rod, start::rod(alloc)?)
        .watch(&mut until_warm())
        .alone(alloc)?;
    Ok(array_number(
        number_of(&ran.report.arrays),
        &[ran.report.records.len() as i64],
    ))
}

fn warm_on_workers<R: Threads + Wait + Sync>(
    rt: &R,
    alloc: Global,
    workers: u32,
    widths: &str,
) -> anyhow::Result<i64> {
    let rod = Rod { last: 999 };
    let workers = workers_at(alloc, workers, widths)?;
    let ran = run_of(&rod, start::rod(alloc)?)
        .watch(&mut until_warm())
        .on(rt, alloc, workers)?;
    Ok(array_number(
        number_of(&ran.report.arrays),
        &[ran.report.records.len() as i64],
    ))
}

// Lets this many supersteps begin.
#[derive(Clone, Copy)]
struct Countdown {
    left: u32,
}

impl Watch for Countdown {
    fn goes_on(&mut self, _step: u32, _arrays: &Arrays, _tasks: usize) -> bool {
        let goes = self.left > 0;
        self.left = self.left.saturating_sub(1);
        goes
    }
}

// Returns after how many supersteps a watcher stops the shop that lets `COUNTED` begin: fewer if it is called too often.
fn counted_on_workers<R: Threads + Wait + Sync>(
    rt: &R,
    alloc: Global,
    workers: u32,
    widths: &str,
) -> anyhow::Result<i64> {
    let shop = Shop { open: 199 };
    let workers = workers_at(alloc, workers, widths)?;
    let ran = run_of(&shop, start::shop(alloc)?)
        .watch(&mut Countdown { left: COUNTED })
        .on(rt, alloc, workers)?;
    Ok(ran.report.records.len() as i64)
}

fn life_alone(alloc: Global) -> anyhow::Result<i64> {
    let life = Grid {
        array: 0,
        width: 512,
        beyond: 0,
        last: 9,
        f: |cells: Window| next(cells),
    };
    alone(alloc, &life, start::board(alloc)?)
}

fn life_on_workers<R: Threads + Wait + Sync>(
    rt: &R,
    alloc: Global,
    workers: u32,
    widths: &str,
) -> anyhow::Result<i64> {
    let life = Grid {
        array: 0,
        width: 512,
        beyond: 0,
        last: 9,
        f: |cells: Window| next(cells),
    };
    on_workers(rt, alloc, &life, start::board(alloc)?, workers, widths)
}

// Creates the body that computes the ranks after 10 rounds.
fn ranks() -> Ranks {
    Ranks {
        graph: Graph { nodes: 1000 },
        last: 19,
    }
}

// Returns what all runs leave on one thread.
fn all_alone(alloc: Global) -> anyhow::Result<[i64; RUNS]> {
    let rod = alone(alloc, &Rod { last: 199 }, start::rod(alloc)?)?;
    let warm = warm_alone(alloc)?;
    let life = life_alone(alloc)?;
    let shop = alone(alloc, &Shop { open: 199 }, start::shop(alloc)?)?;
    let search = alone(alloc, &Graph { nodes: 100_000 }, start::graph(alloc)?)?;
    let ranks = alone(alloc, &ranks(), start::ranks(alloc)?)?;
    Ok([rod, warm, i64::from(COUNTED), life, shop, search, ranks])
}

// Returns what all runs leave on `workers` workers at a tree of these widths.
fn all_on_workers<R: Threads + Wait + Sync>(
    rt: &R,
    alloc: Global,
    workers: u32,
    widths: &str,
) -> anyhow::Result<[i64; RUNS]> {
    let rod = on_workers(
        rt,
        alloc,
        &Rod { last: 199 },
        start::rod(alloc)?,
        workers,
        widths,
    )?;
    let warm = warm_on_workers(rt, alloc, workers, widths)?;
    let counted = counted_on_workers(rt, alloc, workers, widths)?;
    let life = life_on_workers(rt, alloc, workers, widths)?;
    let shop = on_workers(
        rt,
        alloc,
        &Shop { open: 199 },
        start::shop(alloc)?,
        workers,
        widths,
    )?;
    let graph = Graph { nodes: 100_000 };
    let search = on_workers(rt, alloc, &graph, start::graph(alloc)?, workers, widths)?;
    let ranks = on_workers(rt, alloc, &ranks(), start::ranks(alloc)?, workers, widths)?;
    Ok([rod, warm, counted, life, shop, search, ranks])
}

// Returns true if `workers` workers at a tree of these widths leave what one thread left.
fn is_same<R: Threads + Wait + Sync>(
    rt: &R,
    alloc: Global,
    workers: u32,
    widths: &str,
    left: &[i64; RUNS],
) -> anyhow::Result<bool> {
    let found = all_on_workers(rt, alloc, workers, widths)?;
    Ok(found.as_slice() == left.as_slice())
}

// What the hooks of a run of three workers got.
#[derive(Clone, Copy)]
struct HookedRun {
    supersteps: usize,
    entered: u64,
    left: u64,
    met: u64,
    workers: u64,
}

fn hooked<R: Threads + Wait + Sync>(rt: &R, alloc: Global) -> anyhow::Result<HookedRun> {
    let rod = Rod { last: 9 };
    let workers = workers_at(alloc, 3, "2")?;
    let (gate, starts) = (Meets::new(), Starts::new());
    let hooks = Hooks {
        gate: &gate,
        starter: &starts,
    };
    let ran = run_of(&rod, start::rod(alloc)?).on_with(rt, alloc, workers, hooks)?;
    let (entered, left, met) = gate.counts();
    Ok(HookedRun {
        supersteps: ran.report.records.len(),
        entered,
        left,
        met,
        workers: starts.digits(),
    })
}

/// Runs bodies on workers, and prints whether they leave the same, and what the hooks got.
pub(crate) fn run<R: AllocGlobal + Print + Threads + Wait + Sync>(rt: &R) -> anyhow::Result<()> {
    let alloc = rt.alloc();
    let left = all_alone(alloc)?;
    for widths in ["flat", "2x3"] {
        let one = is_same(rt, alloc, 1, widths, &left)?;
        let two = is_same(rt, alloc, 2, widths, &left)?;
        let eight = is_same(rt, alloc, 8, widths, &left)?;
        println!(rt; "1 worker on {widths}: the same is {one}")?;
        println!(rt; "2 workers on {widths}: the same is {two}")?;
        println!(rt; "8 workers on {widths}: the same is {eight}")?;
    }
    let got = hooked(rt, alloc)?;
    println!(rt;
        "{} supersteps, {} segments entered, {} left",
        got.supersteps, got.entered, got.left
    )?;
    println!(rt; "workers {}, of whom {} met", got.workers, got.met)?;
    Ok(())
}
