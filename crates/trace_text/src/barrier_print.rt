//! The lines that a trace of a barrier prints.
ghost use Rattle.std.specs.Prelude.{◌≡◌, ◌++◌, OnOk, codes};
ghost use Rattle.trace_text.specs.BarrierAnswers.{barrier_fault_text, callers_text, turns_text, callers_line, reset_text, broken_mark, barrier_front, barrier_rest, barrier_line};

use crate::print::push_field;
use cyclic_gate::BarrierFault;
use std::alloc::AllocError;

/// Returns the line of a refusal. Running out of memory has none.
pub(crate) fn barrier_fault_line(fault: BarrierFault) -> &'static str
    ensures { result.now ≡ barrier_fault_text fault }
{
    match fault {
        BarrierFault::NoParty => "refused 1 NoParty\n",
        BarrierFault::AlreadyWaiting => "refused 2 AlreadyWaiting\n",
        BarrierFault::NotWaiting => "refused 3 NotWaiting\n",
        BarrierFault::TooMany => "refused 4 TooMany\n",
        BarrierFault::Memory => "",
    }
}

// Appends callers.
fn push_callers(out: &mut Vec<u8>, callers: &[u32]) -> Result<(), AllocError>
    ensures { OnOk result (out.new.items ≡ out.old.items ++ callers_text callers.now) }
{
    for caller in callers {
        push_field(out, b" ", *caller)?;
    }
    Ok(())
}

// Appends callers with their indices.
fn push_turns(out: &mut Vec<u8>, turns: &[(u32, u32)]) -> Result<(), AllocError>
    ensures { OnOk result (out.new.items ≡ out.old.items ++ turns_text turns.now) }
{
    for (caller, index) in turns {
        push_field(out, b" ", *caller)?;
        push_field(out, b":", *index)?;
    }
    Ok(())
}

/// Appends the line of a trip.
pub(crate) fn push_tripped(out: &mut Vec<u8>, turns: &[(u32, u32)]) -> Result<(), AllocError>
    ensures { OnOk result (out.new.items ≡ out.old.items ++ codes "tripped" ++ turns_text turns.now ++ codes "\n") }
{
    out.extend_from_slice(b"tripped")?;
    push_turns(out, turns)?;
    out.extend_from_slice(b"\n")
}

/// Appends a name and callers as a line.
pub(crate) fn push_callers_line(
    out: &mut Vec<u8>,
    name: &[u8],
    callers: &[u32],
) -> Result<(), AllocError>
    ensures { OnOk result (out.new.items ≡ out.old.items ++ callers_line name.now callers.now) }
{
    out.extend_from_slice(name)?;
    push_callers(out, callers)?;
    out.extend_from_slice(b"\n")
}

/// Appends the line of a reset.
pub(crate) fn push_reset(out: &mut Vec<u8>, callers: &[u32]) -> Result<(), AllocError>
    ensures { OnOk result (out.new.items ≡ out.old.items ++ reset_text callers.now) }
{
    if callers.is_empty() {
        out.extend_from_slice(b"reset\n")
    } else {
        push_callers_line(out, b"reset broken", callers)
    }
}

// Returns the end of the line of a show.
fn broken_line(broken: bool) -> &'static str
    ensures { result.now ≡ broken_mark broken }
{
    if broken {
        " broken yes\n"
    } else {
        " broken no\n"
    }
}

// Appends the front of the line of a show.
fn push_barrier_front(out: &mut Vec<u8>, parties: u32, waiting: usize) -> Result<(), AllocError>
    ensures { OnOk result (out.new.items ≡ out.old.items ++ barrier_front parties waiting) }
{
    push_field(out, b"barrier parties ", parties)?;
    push_field(out, b" waiting ", waiting)
}

// Appends the rest of the line of a show.
fn push_barrier_rest(out: &mut Vec<u8>, generation: u64, broken: bool) -> Result<(), AllocError>
    ensures { OnOk result (out.new.items ≡ out.old.items ++ barrier_rest generation broken) }
{
    push_field(out, b" generation ", generation)?;
    out.extend_from_slice(broken_line(broken).as_bytes())
}

/// Appends the line of a show.
pub(crate) fn push_barrier(
    out: &mut Vec<u8>,
    parties: u32,
    waiting: usize,
    generation: u64,
    broken: bool,
) -> Result<(), AllocError>
    ensures { OnOk result (out.new.items ≡ out.old.items ++ barrier_line parties waiting generation broken) }
{
    push_barrier_front(out, parties, waiting)?;
    push_barrier_rest(out, generation, broken)
}
