//! Lines of a text by their numbers.
ghost use Rattle.std.specs.Prelude.{◌≡◌};
ghost use Rattle.text_lines.specs.Text.{lines_of};
ghost use Rattle.refusal_reasons.specs.Lines.{line_at};

use text_lines::split_line;

/// Returns the line of this number, from 1, or no bytes if there is none.
pub fn line_at(text: &[u8], number: usize) -> &[u8]
    ensures { result.now ≡ line_at number (lines_of text.now) }
{
    let mut left = number;
    let mut rest = text;
    while let Some((line, after)) = split_line(rest) {
        if left == 1 {
            return line;
        }
        left = left.saturating_sub(1);
        rest = after;
    }
    &[]
}
