//! Breadth-first search in a graph. Each task has the nodes of a block.
use std::alloc::{AllocError, Global};
use task_bodies::body::{Ending, Out, TaskBody, View};

/// A graph of a number of nodes. Each node has edges to two others.
#[derive(Clone, Copy)]
pub struct Graph {
    pub nodes: u32,
}

/// Nodes with numbers side by side.
#[derive(Clone, Copy)]
pub struct Nodes {
    pub first: u32,
    pub end: u32,
}

/// The distances, -1 for a node that no way is known to yet.
pub const DISTANCES: u16 = 0;
/// One cell: in how many supersteps new nodes were found.
pub const ROUNDS: u16 = 1;

impl Graph {
    /// Returns the nodes to which `node` has edges.
    pub fn neighbours(&self, node: u32) -> [u32; 2] {
        if self.nodes == 0 {
            return [0, 0];
        }
        [
            node.wrapping_mul(2).wrapping_add(1) % self.nodes,
            node.wrapping_mul(3).wrapping_add(7) % self.nodes,
        ]
    }

    // Reaches the neighbours of a node that no way is known to.
    fn go_on(
        &self,
        node: u32,
        distance: i64,
        distances: &[i64],
        out: &mut Out<Nodes>,
    ) -> Result<bool, AllocError> {
        let mut found = false;
        for neighbour in self.neighbours(node) {
            if distances.get(neighbour as usize).copied() == Some(-1) {
                out.put(DISTANCES, neighbour, distance)?;
                found = true;
            }
        }
        Ok(found)
    }
}

impl TaskBody for Graph {
    type Kept = Nodes;

    fn run(
        &self,
        alloc: Global,
        nodes: &mut Nodes,
        view: &View<'_>,
        out: &mut Out<Nodes>,
    ) -> Result<Ending, AllocError> {
        let distances = view.cells(DISTANCES);
        let now = i64::from(view.step);
        let mut found = false;
        for node in nodes.first..nodes.end {
            if distances.get(node as usize).copied() == Some(now) {
                found = self.go_on(node, now + 1, distances, out)? || found;
            }
        }
        if found {
            out.put(ROUNDS, 0, now + 1)?;
        }
        if view.cell(ROUNDS, 0) == Some(now) || view.step == 0 {
            Ok(Ending::Syncs)
        } else {
            Ok(Ending::Stops)
        }
    }
}
