//! Texts with another line.
ghost use Rattle.std.specs.Prelude.{◌≡◌, ◌++◌, OnOk, IfOk, codes};
ghost use Rattle.text_lines.specs.Laws.{joined};
ghost use Rattle.text_lines.specs.Text.{lines_of};
ghost use Rattle.refusal_reasons.specs.Faults.{replaced};

use std::alloc::{AllocError, Global};
use text_lines::split_line;

// Appends a line and its end.
fn push_line(out: &mut Vec<u8>, line: &[u8]) -> Result<(), AllocError>
    ensures { OnOk result (out.new.items ≡ out.old.items ++ line.now ++ codes "\n") }
{
    out.extend_from_slice(line)?;
    out.extend_from_slice(b"\n")
}

/// Returns the text with another line in the place of the one of this number, from 1. Each line ends in LF.
pub(crate) fn with_line(
    alloc: Global,
    text: &[u8],
    number: usize,
    other: &[u8],
) -> Result<Vec<u8>, AllocError>
    ensures { IfOk result (λ t. t.items ≡ joined (replaced number other.now (lines_of text.now))) }
{
    let mut out = Vec::new(alloc);
    let mut left = number;
    let mut rest = text;
    while let Some((line, after)) = split_line(rest) {
        let kept = if left == 1 { other } else { line };
        push_line(&mut out, kept)?;
        left = left.saturating_sub(1);
        rest = after;
    }
    Ok(out)
}
