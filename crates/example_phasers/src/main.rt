//! More of trees and of barriers: first `tree`, then `barrier`.
#![tactic(auto)]

mod barrier;
mod tree;

fn main(rt: HostRuntime) -> anyhow::Result<()> {
    tree::run(&rt)?;
    barrier::run(&rt)
}
