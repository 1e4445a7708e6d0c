//! Lines and words, split off one by one from the front.
ghost use Rattle.std.specs.Prelude.{◌≡◌, ◌≢◌, ◌+◌, take, drop, slice_index, ◌≤◌, ◌<◌, ◌∷◌, [], length, MatchOption, IfSome, true, false};
ghost use Rattle.text_lines.specs.Limits.{most_bytes};
ghost use Rattle.text_lines.specs.Text.{lines_of, words_of, is_skipped, bad_byte_line as bad_line_of};

#[tactic(auto, using(crate::proofs::LinesLemmas::line_at, crate::proofs::LinesLemmas::line_whole))]
/// Splits off the first line. Returns it and the text after it, or `None` at the end of the text.
pub fn split_line(text: &[u8]) -> Option<(&[u8], &[u8])>
    ensures lines { MatchOption result (text.now ≡ []) (λ r. lines_of text.now ≡ r.0.now ∷ lines_of r.1.now) }
    ensures shorter { IfSome result (λ r. length r.1.now + 1 ≤ length text.now) }
{
    if text.is_empty() {
        return None;
    }
    for (i, byte) in text.iter().enumerate() {
        if *byte == b'\n' {
            let (line, rest) = text.split_at(i);
            let (_, after) = rest.split_at(1);
            return Some((line, after));
        }
    }
    Some((text, &[]))
}

// Returns the line without the spaces at its front.
#[tactic(auto, using(crate::proofs::LinesLemmas::words_skip))]
fn skip_spaces(line: &[u8]) -> &[u8]
    ensures words { words_of result.now ≡ words_of line.now }
    ensures word { result.now ≢ [] → slice_index result.now 0 ≢ 32 }
    ensures shorter { length result.now ≤ length line.now }
{
    for (i, byte) in line.iter().enumerate() {
        if *byte != b' ' {
            let (_, rest) = line.split_at(i);
            return rest;
        }
    }
    &[]
}

// Returns the number of bytes of the word at the front.
#[tactic(auto, using(crate::proofs::LinesLemmas::word_at))]
fn word_len(line: &[u8]) -> usize
    requires some { 0 < length line.now }
    requires word { slice_index line.now 0 ≢ 32 }
    ensures within { (0 < result) × (result ≤ length line.now) }
    ensures words { words_of line.now ≡ take result line.now ∷ words_of (drop result line.now) }
{
    for (i, byte) in line.iter().enumerate() {
        if *byte == b' ' {
            return i;
        }
    }
    line.len()
}

/// Splits off the first word of a line. Returns it and the rest of the line, or `None` if the line has no word.
pub fn split_word(line: &[u8]) -> Option<(&[u8], &[u8])>
    ensures words { MatchOption result (words_of line.now ≡ []) (λ r. words_of line.now ≡ r.0.now ∷ words_of r.1.now) }
    ensures shorter { IfSome result (λ r. length r.1.now < length line.now) }
{
    let line = skip_spaces(line);
    if line.is_empty() {
        return None;
    }
    Some(line.split_at(word_len(line)))
}

/// Splits off the first word of a line that counts. Returns `None` if the line has no word or is a comment, whose first
/// word begins with `#`.
pub fn first_word(line: &[u8]) -> Option<(&[u8], &[u8])>
    ensures { MatchOption result (is_skipped (words_of line.now) ≡ true)
        (λ r. (is_skipped (words_of line.now) ≡ false) × (words_of line.now ≡ r.0.now ∷ words_of r.1.now)) }
{
    let (word, rest) = split_word(line)?;
    match word.first() {
        Some(&b'#') => None,
        _ => Some((word, rest)),
    }
}

/// Returns the line, from 1, of the first byte that is neither LF nor from 0x20 to 0x7E, if there is one.
pub fn bad_byte_line(text: &[u8]) -> Option<usize>
    requires { length text.now ≤ most_bytes }
    ensures { result ≡ bad_line_of 1 text.now }
{
    let mut line = 1;
    for byte in text {
        if *byte == b'\n' {
            line += 1;
        } else if *byte < b' ' || *byte > b'~' {
            return Some(line);
        }
    }
    None
}
