//! PageRank in integers. Each task has the nodes of a block.
use crate::search::{Graph, Nodes};
use std::alloc::{AllocError, Global};
use task_bodies::body::{Ending, Out, TaskBody, View};

/// The nodes of a graph pass on their rank along its edges, in two supersteps a round: in the first each node adds to the sums of
/// those to which it has edges, in the second each node takes its sum. Superstep `last` is the last one.
#[derive(Clone, Copy)]
pub struct Ranks {
    pub graph: Graph,
    pub last: u32,
}

/// The rank of each node: a whole is 1,000,000,000 for each node.
pub const RANKS: u16 = 0;
/// What each node has got in this round.
pub const SUMS: u16 = 1;

impl Ranks {
    fn give(&self, nodes: &Nodes, ranks: &[i64], out: &mut Out<Nodes>) -> Result<(), AllocError> {
        for node in nodes.first..nodes.end {
            let share = ranks.get(node as usize).copied().unwrap_or(0) / 2;
            for neighbour in self.graph.neighbours(node) {
                out.add(SUMS, neighbour, share)?;
            }
        }
        Ok(())
    }

    // Of its sum a node takes 85 in a hundred.
    fn take(
        &self,
        alloc: Global,
        nodes: &Nodes,
        sums: &[i64],
        out: &mut Out<Nodes>,
    ) -> Result<(), AllocError> {
        let mut values = out.buffer(alloc);
        let mut zeros = out.buffer(alloc);
        for node in nodes.first..nodes.end {
            let sum = sums.get(node as usize).copied().unwrap_or(0);
            values.push((sum / 100).wrapping_mul(85).wrapping_add(150_000_000))?;
            zeros.push(0)?;
        }
        out.put_row(RANKS, nodes.first, values)?;
        out.put_row(SUMS, nodes.first, zeros)?;
        Ok(())
    }
}

impl TaskBody for Ranks {
    type Kept = Nodes;

    fn run(
        &self,
        alloc: Global,
        nodes: &mut Nodes,
        view: &View<'_>,
        out: &mut Out<Nodes>,
    ) -> Result<Ending, AllocError> {
        if view.step % 2 == 0 {
            self.give(nodes, view.cells(RANKS), out)?;
        } else {
            self.take(alloc, nodes, view.cells(SUMS), out)?;
        }
        if view.step < self.last {
            Ok(Ending::Syncs)
        } else {
            Ok(Ending::Stops)
        }
    }
}
