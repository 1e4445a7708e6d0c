//! Numbers at the axes.
ghost use Rattle.std.specs.Prelude.{◌≡◌, ◌-◌, ◌<◌, ◌++◌, OnOk};
ghost use Rattle.job_view.specs.Axes.{party_tick, step_tick, first_ticks, quarters, ticks};

use crate::pieces::{push_field, push_text};
use std::alloc::AllocError;

// The last number of an axis at which each is drawn.
const ALL_UP_TO: u32 = 8;

// Appends a line across at a number of parties.
fn push_party_tick(out: &mut Vec<u8>, most: u32, n: u32) -> Result<(), AllocError>
    ensures { OnOk result (out.new.items ≡ out.old.items ++ party_tick most n) }
{
    push_field(out, b"<g transform=\"translate(0,", most.saturating_sub(n))?;
    push_field(out, b") scale(.00125,", most)?;
    push_field(
        out,
        b") scale(1,.005)\"><path class=\"a\" d=\"M-5 0H800\"/><text class=\"n\" x=\"-9\" y=\"4\">",
        n,
    )?;
    push_text(out, b"</text></g>\n")
}

// Appends a number below its superstep.
fn push_step_tick(out: &mut Vec<u8>, steps: usize, n: usize) -> Result<(), AllocError>
    ensures { OnOk result (out.new.items ≡ out.old.items ++ step_tick steps n) }
{
    push_field(out, b"<g transform=\"translate(", n)?;
    push_field(out, b".5,0) scale(", steps)?;
    push_field(
        out,
        b",1) scale(.00125,.05)\"><text class=\"m\" y=\"12\">",
        n,
    )?;
    push_text(out, b"</text></g>\n")
}

// Appends a line across at each number of parties below this one.
fn push_first_parties(out: &mut Vec<u8>, most: u32, count: u32) -> Result<(), AllocError>
    ensures { OnOk result (out.new.items ≡ out.old.items ++ first_ticks (party_tick most) count) }
{
    for n in 0..count {
        push_party_tick(out, most, n)?;
    }
    Ok(())
}

// Appends lines across at the quarters of this number of parties.
fn push_party_quarters(out: &mut Vec<u8>, most: u32) -> Result<(), AllocError>
    ensures { OnOk result (out.new.items ≡ out.old.items ++ quarters (party_tick most) most) }
{
    push_party_tick(out, most, 0)?;
    push_party_tick(out, most, most / 4)?;
    push_party_tick(out, most, most / 2)?;
    push_party_tick(out, most, most - most / 4)?;
    push_party_tick(out, most, most)
}

/// Appends the lines across, from 0 to this number of parties.
pub(crate) fn push_party_ticks(out: &mut Vec<u8>, most: u32) -> Result<(), AllocError>
    ensures { OnOk result (out.new.items ≡ out.old.items ++ ticks (party_tick most) most) }
{
    if most <= ALL_UP_TO {
        return push_first_parties(out, most, most + 1);
    }
    push_party_quarters(out, most)
}

// Appends the numbers of the first `count` supersteps.
fn push_first_steps(out: &mut Vec<u8>, steps: usize, count: usize) -> Result<(), AllocError>
    ensures { OnOk result (out.new.items ≡ out.old.items ++ first_ticks (step_tick steps) count) }
{
    for n in 0..count {
        push_step_tick(out, steps, n)?;
    }
    Ok(())
}

// Appends the numbers at the quarters of the supersteps up to this one.
fn push_step_quarters(out: &mut Vec<u8>, steps: usize, last: usize) -> Result<(), AllocError>
    ensures { OnOk result (out.new.items ≡ out.old.items ++ quarters (step_tick steps) last) }
{
    push_step_tick(out, steps, 0)?;
    push_step_tick(out, steps, last / 4)?;
    push_step_tick(out, steps, last / 2)?;
    push_step_tick(out, steps, last - last / 4)?;
    push_step_tick(out, steps, last)
}

/// Appends the numbers below this number of supersteps.
pub(crate) fn push_step_ticks(out: &mut Vec<u8>, steps: usize) -> Result<(), AllocError>
    requires { 0 < steps }
    ensures { OnOk result (out.new.items ≡ out.old.items ++ ticks (step_tick steps) (steps - 1)) }
{
    let last = steps - 1;
    if last <= ALL_UP_TO as usize {
        return push_first_steps(out, steps, last + 1);
    }
    push_step_quarters(out, steps, last)
}
