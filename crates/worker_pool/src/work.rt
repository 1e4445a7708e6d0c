//! The loop of a worker.
ghost use Rattle.std.specs.Prelude.{◌<◌};
ghost use Rattle.advance_rule.specs.Stored.{Answers};
ghost use Rattle.advance_rule.specs.Plan.{end_ends_at};

use crate::shared::{Next, Shared};
use programs::program::TaskLoop;
use std::alloc::Global;
use std::sync::Wait;
use stretch_queue::fault::WorkerFault;
use stretch_queue::hand::HeldStretch;
use stretch_queue::hook::Hook;
use stretch_queue::hooks::Gate;
use stretch_queue::queue::Stopped;
use stretch_queue::running::Running;
use stretch_queue::tokens::OwnToken;

/// Runs stretches until workers stop. `own` is the token of the worker of this number, by which it can end the tree.
pub(crate) fn work<P: TaskLoop, H: Hook<P>, J: Running, R: Wait, F: Fn(u32, u32) -> bool, G: Gate>(
    rt: &R,
    alloc: Global,
    shared: &Shared<'_, '_, P, H, J, F>,
    gate: &G,
    own: &mut OwnToken<J>,
    worker: usize,
) -> Stopped<J>
    requires worker { worker < J.workers }
    requires rule { Answers (F.pre shared.now.tree.phaser.rule.closure) (F.post shared.now.tree.phaser.rule.closure) (end_ends_at shared.now.tree.phaser.rule.plan) }
{
    for _ in rt.forever() {
        match do_next(rt, alloc, shared, gate, own, worker) {
            Ok(None) => {}
            Ok(Some(stopped)) => return stopped,
            Err(fault) => return shared.give_up(rt, own, fault),
        }
    }
    unreachable!()
}

// Runs the next stretch, or stops if workers stop.
fn do_next<P: TaskLoop, H: Hook<P>, J: Running, R: Wait, F: Fn(u32, u32) -> bool, G: Gate>(
    rt: &R,
    alloc: Global,
    shared: &Shared<'_, '_, P, H, J, F>,
    gate: &G,
    own: &mut OwnToken<J>,
    worker: usize,
) -> Result<Option<Stopped<J>>, WorkerFault>
    requires worker { worker < J.workers }
    requires rule { Answers (F.pre shared.now.tree.phaser.rule.closure) (F.post shared.now.tree.phaser.rule.closure) (end_ends_at shared.now.tree.phaser.rule.plan) }
{
    match shared.next(rt, worker) {
        Next::Run(held) => {
            do_stretches(rt, alloc, shared, gate, own, worker, held)?;
            Ok(None)
        }
        Next::Stop(stopped) => Ok(Some(stopped)),
    }
}

// Runs a stretch. As long as its members come back after the superstep was closed, runs their stretch in the next one.
fn do_stretches<'p, P: TaskLoop, H: Hook<P>, J: Running, R: Wait, F: Fn(u32, u32) -> bool, G: Gate>(
    rt: &R,
    alloc: Global,
    shared: &Shared<'_, 'p, P, H, J, F>,
    gate: &G,
    own: &mut OwnToken<J>,
    worker: usize,
    first: HeldStretch<'p, P, H::Lines, J>,
) -> Result<(), WorkerFault>
    requires worker { worker < J.workers }
    requires rule { Answers (F.pre shared.now.tree.phaser.rule.closure) (F.post shared.now.tree.phaser.rule.closure) (end_ends_at shared.now.tree.phaser.rule.plan) }
{
    let mut held = first;
    for _ in rt.forever() {
        match do_stretch(rt, alloc, shared, gate, own, worker, held)? {
            Some(late) => held = late,
            None => return Ok(()),
        }
    }
    unreachable!()
}

// Runs the segments of a stretch, delivers it, and then lets the members of its tasks arrive. Returns their stretch in the next
// superstep if they came back late.
fn do_stretch<'p, P: TaskLoop, H: Hook<P>, J: Running, R: Wait, F: Fn(u32, u32) -> bool, G: Gate>(
    rt: &R,
    alloc: Global,
    shared: &Shared<'_, 'p, P, H, J, F>,
    gate: &G,
    own: &mut OwnToken<J>,
    worker: usize,
    held: HeldStretch<'p, P, H::Lines, J>,
) -> Result<Option<HeldStretch<'p, P, H::Lines, J>>, WorkerFault>
    requires worker { worker < J.workers }
    requires rule { Answers (F.pre shared.now.tree.phaser.rule.closure) (F.post shared.now.tree.phaser.rule.closure) (end_ends_at shared.now.tree.phaser.rule.plan) }
{
    let ran = held.run(rt, alloc, gate, shared.tree.leaf_count())?;
    let delivered = shared.deliver(rt, worker, ran)?;
    shared.arrive(rt, alloc, own, worker, delivered)
}
