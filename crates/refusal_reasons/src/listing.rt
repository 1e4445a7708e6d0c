//! The faulty lines of a text as a text.
ghost use Rattle.std.specs.Prelude.{◌≡◌, ◌++◌, OnOk, IfOk};
ghost use Rattle.std.specs.List.{flat_map};
ghost use Rattle.refusal_reasons.specs.Listing.{fault_line, listing};

use crate::faults::faults_of;
use crate::names::code_name;
use crate::pieces::push_field;
use job_reader::Refusal;
use std::alloc::{AllocError, Global};

// Appends the line that reports a faulty line.
fn push_fault(out: &mut Vec<u8>, refusal: Refusal) -> Result<(), AllocError>
    ensures { OnOk result (out.new.items ≡ out.old.items ++ fault_line refusal) }
{
    push_field(out, b"line ", refusal.line)?;
    push_field(out, b" code ", refusal.code.number())?;
    out.extend_from_slice(b" ")?;
    out.extend_from_slice(code_name(refusal.code).as_bytes())?;
    out.extend_from_slice(b"\n")
}

// Appends a line for each faulty line.
fn push_faults(out: &mut Vec<u8>, faults: &[Refusal]) -> Result<(), AllocError>
    ensures { OnOk result (out.new.items ≡ out.old.items ++ flat_map fault_line faults.now) }
{
    for refusal in faults {
        push_fault(out, *refusal)?;
    }
    Ok(())
}

/// Returns the faulty lines of a text, as [`faults_of`] does, each as a line `line L code C NAME`: its number from 1, and
/// the number and the name of its code.
pub fn listing_of(alloc: Global, text: &[u8]) -> Result<Vec<u8>, AllocError>
    ensures { IfOk result (λ lines. lines.items ≡ listing text.now) }
{
    let mut out = Vec::new(alloc);
    push_faults(&mut out, &faults_of(alloc, text)?)?;
    Ok(out)
}
