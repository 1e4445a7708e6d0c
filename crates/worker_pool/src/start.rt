//! Starts the workers, which wait for each other at a barrier before any of them takes a task.
ghost use Rattle.std.specs.Prelude.{◌≡◌, ◌<◌, ◌≤◌, ◌⊎◌, ℕ, IfErr, IsSome, OnOk, vec_len, vec_capacity};
ghost use Rattle.std.specs.Thread.{IsSync};
ghost use Rattle.advance_rule.specs.Action.{AnswersAction};
ghost use Rattle.advance_rule.specs.Stored.{Answers};
ghost use Rattle.advance_rule.specs.Plan.{end_ends_at};
ghost use Rattle.stretch_queue.specs.Refusals.{IsOfWorkers};

use crate::shared::Shared;
use crate::work::work;
use cyclic_gate::{CyclicGate, GateFault};
use programs::program::TaskLoop;
use std::alloc::Global;
use std::sync::Wait;
use std::thread;
use std::thread::{JoinHandle, Threads};
use stretch_queue::fault::Refused;
use stretch_queue::hook::Hook;
use stretch_queue::hooks::{Gate, Starter};
use stretch_queue::queue::Stopped;
use stretch_queue::running::Running;
use stretch_queue::tokens::OwnToken;

/// How a run is set up: the number of workers, the gate before and after each segment, and which workers may be started.
#[derive(Drop)]
pub(crate) struct Setup<'a, G: Gate, S: Starter> {
    pub(crate) workers: u32,
    pub(crate) gate: &'a G,
    pub(crate) starter: &'a S,
}

// Notes why the run is refused before all workers have reached the barrier, and stops those that wait there.
fn call_off<
    P: TaskLoop,
    H: Hook<P>,
    J: Running,
    R: Wait,
    F: Fn(u32, u32) -> bool,
    A: Fn(u64) -> bool,
>(
    rt: &R,
    shared: &Shared<'_, '_, P, H, J, F>,
    barrier: &CyclicGate<A>,
    refused: Refused,
) -> Stopped<J>
    requires refused { IsOfWorkers J.workers refused }
    requires action { AnswersAction (A.pre barrier.now.action.closure) (A.post barrier.now.action.closure) barrier.now.action.plan }
{
    let stopped = shared.refuse(rt, refused);
    barrier.break_off(rt);
    stopped
}

// Does what a started worker does: it waits for the others at the barrier, then works. If it runs out of memory there, it stops
// the others. If the barrier is broken, a worker has noted why before, and this one stops as soon as it sees the note.
fn wait_and_work<
    P: TaskLoop,
    H: Hook<P>,
    J: Running,
    R: Wait,
    F: Fn(u32, u32) -> bool,
    A: Fn(u64) -> bool,
    G: Gate,
>(
    rt: &R,
    alloc: Global,
    shared: &Shared<'_, '_, P, H, J, F>,
    gate: &G,
    barrier: &CyclicGate<A>,
    k: u32,
    mut own: OwnToken<J>,
) -> Stopped<J>
    requires worker { k < J.workers }
    requires rule { Answers (F.pre shared.now.tree.phaser.rule.closure) (F.post shared.now.tree.phaser.rule.closure) (end_ends_at shared.now.tree.phaser.rule.plan) }
    requires action { AnswersAction (A.pre barrier.now.action.closure) (A.post barrier.now.action.closure) barrier.now.action.plan }
{
    match barrier.await_turn(rt, k) {
        Err(GateFault::Memory) => call_off(rt, shared, barrier, Refused::Memory),
        Ok(_) | Err(_) => work(rt, alloc, shared, gate, &mut own, k as usize),
    }
}

// Makes room for the handle of a worker's thread, unless the worker may not be started.
fn may_start<S: Starter, J: Running>(
    starter: &S,
    k: u32,
    started: &mut Vec<JoinHandle<Stopped<J>>>,
) -> Result<(), Refused>
    ensures refused { (workers : ℕ) → k < workers → IfErr result (IsOfWorkers workers) }
    ensures capacity { OnOk result (vec_len started.new < vec_capacity started.new) }
    ensures same { vec_len started.new ≡ vec_len started.old }
{
    if !starter.may_start(k) {
        return Err(Refused::NotStarted(k));
    }
    match started.reserve(1) {
        Ok(()) => Ok(()),
        Err(_) => Err(Refused::Memory),
    }
}

// Joins the threads that were started. Returns what one of them has, or what there was before.
fn join_all<R: Threads + Wait, J: Running>(
    rt: &R,
    mut started: Vec<JoinHandle<Stopped<J>>>,
    mut stopped: Option<Stopped<J>>,
) -> Stopped<J>
    requires { IsSome stopped ⊎ (0 < vec_len started) }
{
    while let Some(thread) = started.pop() {
        stopped = Some(thread.join(rt));
    }
    match stopped {
        Some(stopped) => stopped,
        None => unreachable!(),
    }
}

/// Starts the workers, and returns after joining all that were started. If one can't be started, that is noted and the
/// others stop before they take a task.
pub(crate) fn start_all<
    P: TaskLoop + Sync,
    H: Hook<P> + Send,
    J: Running + Send + Sync,
    R: Threads + Wait + Sync,
    F: Fn(u32, u32) -> bool + Sync,
    A: Fn(u64) -> bool + Sync,
    G: Gate + Sync,
    S: Starter,
>(
    rt: &R,
    alloc: Global,
    shared: &Shared<'_, '_, P, H, J, F>,
    own: &mut OwnToken<J>,
    barrier: &CyclicGate<A>,
    setup: Setup<'_, G, S>,
) -> Stopped<J>
where
    P::Task: Send,
    H::Lines: Send,
    requires workers { (setup.workers ≡ J.workers) × (1 ≤ setup.workers) }
    requires rule { Answers (F.pre shared.now.tree.phaser.rule.closure) (F.post shared.now.tree.phaser.rule.closure) (end_ends_at shared.now.tree.phaser.rule.plan) }
    requires action { AnswersAction (A.pre barrier.now.action.closure) (A.post barrier.now.action.closure) barrier.now.action.plan }
{
    let Setup {
        workers,
        gate,
        starter,
    } = setup;
    thread::scope(
        thread::scope_env(),
        rt,
        move |scope| -> Stopped<J>
            requires { (workers ≡ J.workers) × (1 ≤ workers) × Answers (F.pre shared.now.tree.phaser.rule.closure) (F.post shared.now.tree.phaser.rule.closure) (end_ends_at shared.now.tree.phaser.rule.plan)
                × AnswersAction (A.pre barrier.now.action.closure) (A.post barrier.now.action.closure) barrier.now.action.plan }
        {
            let mut started = Vec::new(alloc);
            let mut stopped = None;
            for k in 0..workers {
                if let Err(refused) = may_start(starter, k, &mut started) {
                    stopped = Some(call_off(rt, shared, barrier, refused));
                    break;
                }
                let own = shared.tree.own_token(own);
                match scope.spawn(move || wait_and_work(rt, alloc, shared, gate, barrier, k, own)) {
                    Ok(thread) => started.push_reserved(thread),
                    Err(_) => {
                        stopped = Some(call_off(rt, shared, barrier, Refused::NotStarted(k)));
                        break;
                    }
                }
            }
            join_all(rt, started, stopped)
        },
    )
}
