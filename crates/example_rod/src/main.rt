//! Ten tasks heat a rod for a thousand supersteps, on one thread and on four workers. The program prints the rod's last cell but one,
//! and whether both runs leave the same.
#![tactic(auto)]

use bodies::{Arrays, Ending, Out, Run, Shape, TaskBody, View, Workers};
use std::alloc::{AllocError, Global};

#[derive(Drop)]
struct Block {
    first: u32,
    end: u32,
}

#[derive(Drop)]
struct Rod {
    last: u32,
}

fn at(cells: &[i64], place: u32) -> i64 {
    cells.get(place as usize).copied().unwrap_or(0)
}

impl TaskBody for Rod {
    type Kept = Block;

    fn run(
        &self,
        alloc: Global,
        block: &mut Block,
        view: &View<'_>,
        out: &mut Out<Block>,
    ) -> Result<Ending, AllocError> {
        let cells = view.cells(0);
        let mut values = out.buffer(alloc);
        for place in block.first..block.end {
            let left = at(cells, place.wrapping_sub(1));
            values.push(left.wrapping_add(at(cells, place.wrapping_add(1))) / 2)?;
        }
        out.put_row(0, block.first, values)?;
        if view.step < self.last {
            Ok(Ending::Syncs)
        } else {
            Ok(Ending::Stops)
        }
    }
}

// A rod of 1002 cells, the last of which is hot.
fn arrays(alloc: Global) -> anyhow::Result<Arrays> {
    let mut cells = Vec::from_elem(alloc, 0, 1001)?;
    cells.push(1_000_000)?;
    let mut arrays = Arrays::new(alloc);
    arrays.add(String::from_str(alloc, "rod")?, cells)?;
    Ok(arrays)
}

// Ten blocks of 100 cells, one for each task.
fn blocks(alloc: Global) -> Result<Vec<Block>, AllocError> {
    let mut blocks = Vec::new(alloc);
    for number in 0..10 {
        blocks.push(Block {
            first: number * 100 + 1,
            end: number * 100 + 101,
        })?;
    }
    Ok(blocks)
}

fn main(rt: HostRuntime) -> anyhow::Result<()> {
    let alloc = rt.alloc();
    let body = Rod { last: 999 };
    // At most 1000 supersteps.
    let alone = Run::of(&body, arrays(alloc)?, blocks(alloc)?).limit(1000);
    let one = alone.alone(alloc)?;
    println!(rt; "{:?}", one.report.arrays.cell(0, 1000))?;
    // Four workers that meet at a tree: a root, two tiers below it, three leaves below each.
    let workers = Workers::new(4, Shape::from_widths(alloc, "2x3")?)?;
    let shared = Run::of(&body, arrays(alloc)?, blocks(alloc)?).limit(1000);
    let other = shared.on(&rt, alloc, workers)?;
    println!(rt; "{}", other.report.same_as(&one.report))?;
    Ok(())
}
