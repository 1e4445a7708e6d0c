//! Appends numbers and texts.
ghost use Rattle.std.specs.Prelude.{◌≡◌, ◌++◌, OnOk};

use itoa::{Buffer, Integer};
use std::alloc::AllocError;

/// Appends a text.
pub(crate) fn push_text(out: &mut Vec<u8>, text: &[u8]) -> Result<(), AllocError>
    ensures { OnOk result (out.new.items ≡ out.old.items ++ text.now) }
{
    out.extend_from_slice(text)
}

/// Appends a text and a number.
pub(crate) fn push_field<I: Integer>(out: &mut Vec<u8>, name: &[u8], n: I) -> Result<(), AllocError>
    ensures { OnOk result (out.new.items ≡ out.old.items ++ name.now ++ I.text n) }
{
    out.extend_from_slice(name)?;
    out.extend_from_slice(Buffer::new().format(n).as_bytes())
}
