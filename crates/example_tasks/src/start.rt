//! What the runs begin with.
use crate::queue::Role;
use crate::rod::Block;
use crate::search::Nodes;
use std::alloc::{AllocError, Global};
use superstep_memory::arrays::Arrays;
use task_bodies::kernel::BoardRows;

/// Arrays, and what the start tasks keep.
#[derive(Drop)]
pub struct Start<K> {
    /// The arrays.
    pub arrays: Arrays,
    /// What each start task keeps.
    pub tasks: Vec<K>,
}

// Adds an array of `count` cells that hold `value`.
fn add(
    alloc: Global,
    arrays: &mut Arrays,
    name: &str,
    count: usize,
    value: i64,
) -> Result<(), AllocError> {
    let cells = Vec::from_elem(alloc, value, count)?;
    arrays.add(String::from_str(alloc, name)?, cells)?;
    Ok(())
}

// Adds an array of `count` cells. The first holds `first`, the others `others`.
fn add_with_first(
    alloc: Global,
    arrays: &mut Arrays,
    name: &str,
    count: usize,
    first: i64,
    others: i64,
) -> Result<(), AllocError> {
    let mut cells = Vec::from_elem(alloc, others, count)?;
    if let Some(cell) = cells.first_mut() {
        *cell = first;
    }
    arrays.add(String::from_str(alloc, name)?, cells)?;
    Ok(())
}

/// Creates a rod of 4096 cells in 46 blocks. Its first cell is hot.
pub fn rod(alloc: Global) -> Result<Start<Block>, AllocError> {
    let mut arrays = Arrays::new(alloc);
    add_with_first(alloc, &mut arrays, "rod", 4096, 1_000_000_000_000, 0)?;
    let mut tasks = Vec::new(alloc);
    for number in 0..46 {
        tasks.push(Block {
            before: number * 89,
            end: number * 89 + 89,
        })?;
    }
    Ok(Start { arrays, tasks })
}

/// Creates a shop with a door.
pub fn shop(alloc: Global) -> Result<Start<Role>, AllocError> {
    let mut arrays = Arrays::new(alloc);
    add(alloc, &mut arrays, "shop", 3, 0)?;
    let mut tasks = Vec::new(alloc);
    tasks.push(Role::Door(1))?;
    Ok(Start { arrays, tasks })
}

// Makes `count` blocks of `size` nodes each.
fn blocks(alloc: Global, count: u32, size: u32) -> Result<Vec<Nodes>, AllocError> {
    let mut blocks = Vec::new(alloc);
    for number in 0..count {
        let first = number.wrapping_mul(size);
        blocks.push(Nodes {
            first,
            end: first.wrapping_add(size),
        })?;
    }
    Ok(blocks)
}

/// Creates a graph of 100,000 nodes in 20 blocks. Only node 0 is reached.
pub fn graph(alloc: Global) -> Result<Start<Nodes>, AllocError> {
    let mut arrays = Arrays::new(alloc);
    add_with_first(alloc, &mut arrays, "distances", 100_000, 0, -1)?;
    add(alloc, &mut arrays, "rounds", 1, 0)?;
    let tasks = blocks(alloc, 20, 5000)?;
    Ok(Start { arrays, tasks })
}

/// Creates a graph of 1000 nodes in 10 blocks, all of one rank.
pub fn ranks(alloc: Global) -> Result<Start<Nodes>, AllocError> {
    let mut arrays = Arrays::new(alloc);
    add(alloc, &mut arrays, "ranks", 1000, 1_000_000_000)?;
    add(alloc, &mut arrays, "sums", 1000, 0)?;
    let tasks = blocks(alloc, 10, 100)?;
    Ok(Start { arrays, tasks })
}

/// Creates a board of 512 rows and columns, in 16 blocks of rows. Five cells live, in its middle.
pub fn board(alloc: Global) -> Result<Start<BoardRows>, AllocError> {
    let mut arrays = Arrays::new(alloc);
    let mut cells = Vec::from_elem(alloc, 0, 262_144)?;
    for place in [130_817, 130_818, 131_328, 131_329, 131_841] {
        if let Some(cell) = cells.get_mut(place) {
            *cell = 1;
        }
    }
    arrays.add(String::from_str(alloc, "board")?, cells)?;
    let mut tasks = Vec::new(alloc);
    for number in 0..16 {
        tasks.push(BoardRows {
            first: number * 32,
            end: number * 32 + 32,
        })?;
    }
    Ok(Start { arrays, tasks })
}
