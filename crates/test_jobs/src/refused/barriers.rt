//! Callers who arrive at a barrier, and at a gate.
ghost use Rattle.std.specs.Prelude.{◌≡◌};
ghost use Rattle.advance_rule.specs.Action.{AnswersAction};

use advance_rule::StoredAction;
use cyclic_gate::{AwaitedStep, BarrierCore, BarrierFault, CyclicGate, GateFault};
use std::alloc::AllocError;
use std::sync::Wait;
use std::test::Fail;
use std::thread;
use std::thread::Threads;

// Returns true if this many wait at a barrier, in this generation, and it isn't broken.
fn is_as_it_was<F: Fn(u64) -> bool>(
    core: &BarrierCore<F>,
    waiting: usize,
    generation: u64,
) -> bool {
    core.waiting() == waiting && core.generation() == generation && !core.is_broken()
}

// Returns true if the caller waits, or three go on.
fn is_waiting_or_tripped(awaited: &Result<AwaitedStep, BarrierFault>, is_same: bool) -> bool {
    match awaited {
        Ok(AwaitedStep::Waits(_)) => is_same,
        Ok(AwaitedStep::Tripped(all)) => all.len() == 3,
        _ => false,
    }
}

// A caller comes while others wait, and comes again if there was no memory. Returns true if the barrier is as before in between, and
// the caller waits or three go on.
fn comes<F: Fn(u64) -> bool>(core: &mut BarrierCore<F>, caller: u32) -> bool
    requires rule { AnswersAction (F.pre core.old.action.closure) (F.post core.old.action.closure) core.old.action.plan }
    ensures rule { core.new.action ≡ core.old.action }
{
    let (waiting, generation) = (core.waiting(), core.generation());
    let mut awaited = core.await_step(caller);
    if matches!(awaited, Err(BarrierFault::Memory)) {
        if !is_as_it_was(core, waiting, generation) {
            return false;
        }
        awaited = core.await_step(caller);
    }
    is_waiting_or_tripped(&awaited, core.generation() == generation)
}

// Returns true if nine callers come, in three generations.
fn all_come<F: Fn(u64) -> bool>(core: &mut BarrierCore<F>) -> bool
    requires rule { AnswersAction (F.pre core.old.action.closure) (F.post core.old.action.closure) core.old.action.plan }
{
    for caller in 0..9 {
        if !comes(core, caller) {
            return false;
        }
    }
    is_as_it_was(core, 0, 3)
}

#[test]
fn callers_come_to_a_barrier(rt: HostRuntime) -> Result<(), Fail> {
    let action = StoredAction::new(|_generation: u64| false, None);
    let mut core = BarrierCore::new(rt.alloc(), 3, action)?;
    assert!(rt; all_come(&mut core));
    Ok(())
}

// Lets the one caller of a gate come, and again if there was no memory and it doesn't wait. Returns what it gets.
fn turns<R: Wait, F: Fn(u64) -> bool>(rt: &R, gate: &CyclicGate<F>) -> Result<u32, GateFault>
    requires { AnswersAction (F.pre gate.now.action.closure) (F.post gate.now.action.closure) gate.now.action.plan }
{
    let turn = gate.await_turn(rt, 0);
    if turn == Err(GateFault::Memory)
        && matches!(gate.abandon(rt, 0), Err(BarrierFault::NotWaiting))
    {
        return gate.await_turn(rt, 0);
    }
    turn
}

#[test]
fn a_caller_comes_to_a_gate(rt: HostRuntime) -> Result<(), Fail> {
    let action = StoredAction::new(|_generation: u64| false, None);
    let gate = CyclicGate::new(rt.alloc(), 1, action)?;
    for _ in 0..9 {
        assert!(rt; turns(&rt, &gate) == Ok(0));
    }
    Ok(())
}

// A caller arrives at a gate, and again if there was no memory.
fn comes_again<R: Wait, F: Fn(u64) -> bool>(
    rt: &R,
    gate: &CyclicGate<F>,
    caller: u32,
) -> Result<u32, GateFault>
    requires { AnswersAction (F.pre gate.now.action.closure) (F.post gate.now.action.closure) gate.now.action.plan }
{
    let turn = gate.await_turn(rt, caller);
    if turn == Err(GateFault::Memory) {
        return gate.await_turn(rt, caller);
    }
    turn
}

// Another thread comes and waits, then a caller comes here. Returns what both get, unless no thread was started.
fn both_come<R: Threads + Wait + Sync, F: Fn(u64) -> bool + Sync>(
    rt: &R,
    gate: &CyclicGate<F>,
) -> Result<(Result<u32, GateFault>, Result<u32, GateFault>), AllocError>
    requires { AnswersAction (F.pre gate.now.action.closure) (F.post gate.now.action.closure) gate.now.action.plan }
{
    thread::scope(
        thread::scope_env(),
        rt,
        move |scope| -> Result<(Result<u32, GateFault>, Result<u32, GateFault>), AllocError>
            requires { AnswersAction (F.pre gate.now.action.closure) (F.post gate.now.action.closure) gate.now.action.plan }
        {
            match scope.spawn(move || comes_again(rt, gate, 0)) {
                Ok(other) => {
                    for _ in 0..1000u32 {
                        thread::yield_now();
                    }
                    let own = comes_again(rt, gate, 1);
                    Ok((other.join(rt), own))
                }
                Err(_) => Err(AllocError),
            }
        },
    )
}

// If the last to come finds no memory, those who wait aren't lost: both go on, and get different indices.
#[test]
fn one_waits_at_a_gate(rt: HostRuntime) -> Result<(), Fail> {
    let action = StoredAction::new(|_generation: u64| false, None);
    let gate = CyclicGate::new(rt.alloc(), 2, action)?;
    for _ in 0..5 {
        let (other, own) = both_come(&rt, &gate)?;
        assert!(rt; matches!((other, own), (Ok(0), Ok(1)) | (Ok(1), Ok(0))));
    }
    Ok(())
}
