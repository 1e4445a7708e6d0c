//! Tasks that run bodies written in Rattle: heat in a rod, a shop whose customers come and go, a search in a graph, its
//! ranks, and the game of life.

use crate::exact::{ExactRod, pieces};
use example_tasks::life::next;
use example_tasks::queue::{CAME, Shop, TIME, WENT};
use example_tasks::rank::Ranks;
use example_tasks::rod::{Rod, UntilWarm};
use example_tasks::search::{DISTANCES, Graph, ROUNDS};
use example_tasks::start;
use phase_records::{JobStatus, Report};
use std::alloc::{AllocError, Global};
use superstep_memory::arrays::Arrays;
use task_bodies::kernel::{Cells, Grid, Map, Reduce, Span, Stencil, Window};
use task_bodies::run::{BodiesFault, run_bodies, run_bodies_watched, run_exactly};

// Returns the number of supersteps that were taken.
fn steps(report: &Report) -> u32 {
    match &report.status {
        JobStatus::Ended(steps) | JobStatus::Limit(steps) => *steps,
        JobStatus::Fault { step, .. } => *step,
    }
}

// Returns the number of nodes that were reached.
fn reached(report: &Report) -> usize {
    match report.arrays.get(usize::from(DISTANCES)) {
        Some((_, cells)) => cells.iter().filter(|it| **it >= 0).count(),
        None => 0,
    }
}

fn cell(report: &Report, array: u16, index: u32) -> i64 {
    report.arrays.cell(array, index).unwrap_or(0)
}

// Returns the rod after 1000 supersteps, by a closure.
fn cool_by_closure(alloc: Global) -> Result<Report, BodiesFault> {
    let start = start::rod(alloc)?;
    let mut spans = Vec::new(alloc);
    for block in start.tasks.iter() {
        spans.push(Span {
            before: block.before,
            end: block.end,
        })?;
    }
    let stencil = Stencil {
        array: 0,
        last: 999,
        f: |left: i64, own: i64, right: i64| left
            .wrapping_add(right)
            .wrapping_add(own)
            .wrapping_add(own)
            / 4,
    };
    let ran = run_bodies(alloc, &stencil, start.arrays, spans, 46, 1000)?;
    Ok(ran.report)
}

// Returns the rod after 1000 supersteps, by a body whose meaning is written down.
fn cool_exactly(alloc: Global) -> Result<Report, BodiesFault> {
    let start = start::rod(alloc)?;
    let pieces = pieces(alloc)?;
    let ran = run_exactly(
        alloc,
        &ExactRod { last: 999 },
        start.arrays,
        pieces,
        46,
        1000,
    )?;
    Ok(ran.report)
}

// The rod after 1000 supersteps: how many were taken, the cells 10 and 70, and whether the closure leaves the same, and the exact
// body.
fn cool(alloc: Global) -> Result<(u32, i64, i64, bool, bool), BodiesFault> {
    let start = start::rod(alloc)?;
    let rod = Rod { last: 999 };
    let report = run_bodies(alloc, &rod, start.arrays, start.tasks, 46, 1000)?.report;
    let closure = cool_by_closure(alloc)?;
    let exact = cool_exactly(alloc)?;
    Ok((
        steps(&report),
        cell(&report, 0, 10),
        cell(&report, 0, 70),
        report.arrays.same_as(&closure.arrays),
        report.arrays.same_as(&exact.arrays),
    ))
}

// The rod as soon as cell 20 is warm: after how many supersteps, and how warm it is.
fn warm(alloc: Global) -> Result<(u32, i64), BodiesFault> {
    let start = start::rod(alloc)?;
    let mut watch = UntilWarm {
        cell: 20,
        least: 1_000_000_000,
    };
    let rod = Rod { last: 999 };
    let ran = run_bodies_watched(alloc, &rod, start.arrays, start.tasks, 46, 1000, &mut watch)?;
    Ok((steps(&ran.report), cell(&ran.report, 0, 20)))
}

// A shop that is open for 1000 supersteps: how many were taken, who came, who went, and for how long they were there.
fn serve(alloc: Global) -> Result<(u32, i64, i64, i64), BodiesFault> {
    let start = start::shop(alloc)?;
    let shop = Shop { open: 999 };
    let report = run_bodies(alloc, &shop, start.arrays, start.tasks, 1000, 10000)?.report;
    Ok((
        steps(&report),
        cell(&report, 0, CAME),
        cell(&report, 0, WENT),
        cell(&report, 0, TIME),
    ))
}

// A search from node 0 in a graph of 100,000 nodes: how many supersteps were taken, how many nodes were reached, and the greatest
// distance.
fn find(alloc: Global) -> Result<(u32, usize, i64), BodiesFault> {
    let start = start::graph(alloc)?;
    let graph = Graph { nodes: 100_000 };
    let report = run_bodies(alloc, &graph, start.arrays, start.tasks, 20, 10000)?.report;
    Ok((steps(&report), reached(&report), cell(&report, ROUNDS, 0)))
}

// The ranks of the nodes 0, 1 and 7 of a graph of 1000 nodes after 20 rounds.
fn ranked(alloc: Global) -> Result<(i64, i64, i64), BodiesFault> {
    let start = start::ranks(alloc)?;
    let graph = Graph { nodes: 1000 };
    let ranks = Ranks { graph, last: 39 };
    let report = run_bodies(alloc, &ranks, start.arrays, start.tasks, 10, 40)?.report;
    Ok((
        cell(&report, 0, 0),
        cell(&report, 0, 1),
        cell(&report, 0, 7),
    ))
}

// The board after 30 supersteps: how many were taken, and how many cells live.
fn live(alloc: Global) -> Result<(u32, usize), BodiesFault> {
    let start = start::board(alloc)?;
    let life = Grid {
        array: 0,
        width: 512,
        beyond: 0,
        last: 29,
        f: |cells: Window| next(cells),
    };
    let report = run_bodies(alloc, &life, start.arrays, start.tasks, 16, 30)?.report;
    Ok((steps(&report), count(&report)))
}

// Makes `count` spans of `size` cells each.
fn spans(alloc: Global, count: u32, size: u32) -> Result<Vec<Cells>, AllocError> {
    let mut spans = Vec::new(alloc);
    for number in 0..count {
        let first = number.wrapping_mul(size);
        spans.push(Cells {
            first,
            end: first.wrapping_add(size),
        })?;
    }
    Ok(spans)
}

// Creates the numbers 0 to 999, and a cell for a sum.
fn numbers(alloc: Global) -> Result<Arrays, AllocError> {
    let mut arrays = Arrays::new(alloc);
    let mut numbers = Vec::new(alloc);
    for number in 0..1000 {
        numbers.push(number)?;
    }
    arrays.add(String::from_str(alloc, "numbers")?, numbers)?;
    let sum = Vec::from_elem(alloc, 0, 1)?;
    arrays.add(String::from_str(alloc, "sum")?, sum)?;
    Ok(arrays)
}

// The sum of the squares of the numbers: ten tasks square them, and ten add them up.
fn added_up(alloc: Global) -> Result<i64, BodiesFault> {
    let square = Map {
        from: 0,
        into: 0,
        last: 0,
        f: |it: i64| it.wrapping_mul(it),
    };
    let squares = run_bodies(
        alloc,
        &square,
        numbers(alloc)?,
        spans(alloc, 10, 100)?,
        10,
        1,
    )?
    .report;
    let add_up = Reduce {
        array: 0,
        into: 1,
        cell: 0,
        f: |it: i64| it,
    };
    let tasks = spans(alloc, 10, 100)?;
    let report = run_bodies(alloc, &add_up, squares.arrays, tasks, 10, 1)?.report;
    Ok(cell(&report, 1, 0))
}

// Returns the number of cells of array 0 that aren't 0.
fn count(report: &Report) -> usize {
    match report.arrays.get(0) {
        Some((_, cells)) => cells.iter().filter(|it| **it != 0).count(),
        None => 0,
    }
}

// The lines that are printed, of all examples.
fn lines(alloc: Global) -> Result<String, BodiesFault> {
    let (steps, ten, seventy, closure, exact) = cool(alloc)?;
    let (warm_steps, twenty) = warm(alloc)?;
    let (shop_steps, came, went, time) = serve(alloc)?;
    let (graph_steps, nodes, last) = find(alloc)?;
    let (first, second, eighth) = ranked(alloc)?;
    let (life_steps, living) = live(alloc)?;
    let sum = added_up(alloc)?;
    Ok(format!(in alloc;
        "rod: {steps} supersteps, cells {ten} {seventy}
rod: cell 20 is warm after {warm_steps} supersteps: {twenty}
by a closure the same: {closure}, by an exact body: {exact}
shop: {shop_steps} supersteps, {came} came, {went} went, {time} in all
search: {graph_steps} supersteps, {nodes} nodes reached, the last ones at distance {last}
ranks: {first} {second} {eighth}
life: {living} cells live after {life_steps} supersteps
squares: {sum}"
    )?)
}

/// Runs the bodies on one thread, and prints what they leave.
pub(crate) fn run<R: AllocGlobal + Print>(rt: &R) -> anyhow::Result<()> {
    let lines = lines(rt.alloc())?;
    println!(rt; "{lines}")?;
    Ok(())
}
