//! Appends numbers and texts.
ghost use Rattle.std.specs.Prelude.{◌≡◌, ◌++◌, OnOk, replicate};

use itoa::{Buffer, Integer};
use std::alloc::AllocError;

/// Appends a text.
pub(crate) fn push_text(out: &mut Vec<u8>, text: &[u8]) -> Result<(), AllocError>
    ensures { OnOk result (out.new.items ≡ out.old.items ++ text.now) }
{
    out.extend_from_slice(text)
}

/// Appends a text and a number.
pub(crate) fn push_field<I: Integer>(out: &mut Vec<u8>, name: &[u8], n: I) -> Result<(), AllocError>
    ensures { OnOk result (out.new.items ≡ out.old.items ++ name.now ++ I.text n) }
{
    out.extend_from_slice(name)?;
    out.extend_from_slice(Buffer::new().format(n).as_bytes())
}

/// Appends a byte this many times.
pub(crate) fn push_times(out: &mut Vec<u8>, byte: u8, count: usize) -> Result<(), AllocError>
    ensures { OnOk result (out.new.items ≡ out.old.items ++ replicate count byte) }
{
    for _ in 0..count {
        out.push(byte)?;
    }
    Ok(())
}
