//! Commands of a trace of a barrier, done on the barrier.
ghost use Rattle.std.specs.Prelude.{◌≡◌, ◌++◌, OnOk};
ghost use Rattle.advance_rule.specs.Action.{AnswersAction};
ghost use Rattle.cyclic_gate.specs.Steps.{answer, after, Fails};
ghost use Rattle.cyclic_gate.specs.Seen.{answer_of};
ghost use Rattle.cyclic_gate.specs.declared.call.Call.TheVariants.{Await, Abandon, BreakOff, Reset};
ghost use Rattle.trace_text.specs.BarrierAnswers.{call_text, barrier_text, barrier_after};

use crate::barrier_print::{
    barrier_fault_line, push_barrier, push_callers_line, push_reset, push_tripped,
};
use crate::barrier_words::BarrierCommand;
use crate::print::push_field;
use crate::tree_print::push_number_line;
use cyclic_gate::{AwaitedStep, BarrierCore, BarrierFault, Call};
use std::alloc::AllocError;

// Appends the line of a failed action.
fn push_failed(out: &mut Vec<u8>, caller: u32, others: &[u32]) -> Result<(), AllocError>
    ensures { OnOk result (out.new.items ≡ out.old.items ++ call_text (Await caller) (Fails others.now)) }
{
    push_field(out, b"failed ", caller)?;
    push_callers_line(out, b" broken", others)
}

// Appends the line of an arrival's result.
fn push_awaited(out: &mut Vec<u8>, caller: u32, awaited: &AwaitedStep) -> Result<(), AllocError>
    ensures { OnOk result (out.new.items ≡ out.old.items ++ call_text (Await caller) (answer_of awaited.now)) }
{
    match awaited {
        AwaitedStep::Waits(index) => push_number_line(out, b"waits ", *index),
        AwaitedStep::Tripped(turns) => push_tripped(out, turns),
        AwaitedStep::ActionFailed(others) => push_failed(out, caller, others),
        AwaitedStep::Broken => out.extend_from_slice(b"broken\n"),
    }
}

// Arrives as a caller, and appends the line of the answer.
fn push_await<F: Fn(u64) -> bool>(
    out: &mut Vec<u8>,
    core: &mut BarrierCore<F>,
    caller: u32,
) -> Result<(), AllocError>
    requires { AnswersAction (F.pre core.old.action.closure) (F.post core.old.action.closure) core.old.action.plan }
    ensures text { OnOk result (out.new.items ≡ out.old.items ++ call_text (Await caller) (answer core.old.action.plan (Await caller) core.old.barrier)) }
    ensures after { OnOk result (core.new.barrier ≡ after core.old.action.plan (Await caller) core.old.barrier) }
    ensures action { core.new.action ≡ core.old.action }
{
    match core.await_step(caller) {
        Ok(awaited) => push_awaited(out, caller, &awaited),
        Err(BarrierFault::Memory) => Err(AllocError),
        Err(fault) => out.extend_from_slice(barrier_fault_line(fault).as_bytes()),
    }
}

// Takes a caller away, and appends the line of the answer.
fn push_abandon<F: Fn(u64) -> bool>(
    out: &mut Vec<u8>,
    core: &mut BarrierCore<F>,
    caller: u32,
) -> Result<(), AllocError>
    ensures text { OnOk result (out.new.items ≡ out.old.items ++ call_text (Abandon caller) (answer core.old.action.plan (Abandon caller) core.old.barrier)) }
    ensures after { OnOk result (core.new.barrier ≡ after core.old.action.plan (Abandon caller) core.old.barrier) }
    ensures action { core.new.action ≡ core.old.action }
{
    match core.abandon(caller) {
        Ok(others) => push_callers_line(out, b"broken", &others),
        Err(fault) => out.extend_from_slice(barrier_fault_line(fault).as_bytes()),
    }
}

/// Does a command, and appends what it prints.
pub(crate) fn push_barrier_command<F: Fn(u64) -> bool>(
    out: &mut Vec<u8>,
    core: &mut BarrierCore<F>,
    command: BarrierCommand,
) -> Result<(), AllocError>
    requires { AnswersAction (F.pre core.old.action.closure) (F.post core.old.action.closure) core.old.action.plan }
    ensures text { OnOk result (out.new.items ≡ out.old.items ++ barrier_text core.old.action.plan command core.old.barrier) }
    ensures after { OnOk result (core.new.barrier ≡ barrier_after core.old.action.plan command core.old.barrier) }
    ensures action { core.new.action ≡ core.old.action }
{
    match command {
        BarrierCommand::Call(Call::Await(caller)) => push_await(out, core, caller),
        BarrierCommand::Call(Call::Abandon(caller)) => push_abandon(out, core, caller),
        BarrierCommand::Call(Call::BreakOff) => {
            let callers = core.break_off();
            push_callers_line(out, b"broken", &callers)
        }
        BarrierCommand::Call(Call::Reset) => {
            let callers = core.reset();
            push_reset(out, &callers)
        }
        BarrierCommand::Show => push_barrier(
            out,
            core.parties(),
            core.waiting(),
            core.generation(),
            core.is_broken(),
        ),
    }
}
