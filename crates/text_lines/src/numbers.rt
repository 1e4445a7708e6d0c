//! Numbers as words.
ghost use Rattle.std.specs.Prelude.{◌≡◌, ◌≢◌, ◌↔◌, true, ℤ, IfSome, IfNone, FitsSigned};
ghost use Rattle.std.specs.Fmt.{signed_decimal};
ghost use Rattle.std.specs.Int.{w64};
ghost use Rattle.text_lines.specs.Number as spec;
ghost use Rattle.text_lines.specs.Number.{number_of};

use itoa::Buffer;

/// Returns the number that a word writes, if it is one of 64 signed bits.
pub fn number(word: &[u8]) -> Option<i64>
    ensures value { result ≡ number_of word.now }
    ensures found { IfSome result (λ n. word.now ≡ signed_decimal n) }
    ensures none { IfNone result ((n : ℤ) → FitsSigned w64 n → word.now ≢ signed_decimal n) }
{
    let text = match str::from_utf8(word) {
        Ok(text) => text,
        Err(_) => return None,
    };
    let n = match text.parse::<i64>() {
        Ok(n) => n,
        Err(_) => return None,
    };
    if is_text_of(n, word) { Some(n) } else { None }
}

// Returns true if the word is the decimal text of `n`.
fn is_text_of(n: i64, word: &[u8]) -> bool
    ensures { (result ≡ true) ↔ (word.now ≡ signed_decimal n) }
{
    Buffer::new().format(n).as_bytes() == word
}

/// Returns true if the word begins with a digit or a minus. If both a number and a name are allowed, it is then meant
/// as a number.
pub fn begins_number(word: &[u8]) -> bool
    ensures { result ≡ spec.begins_number word.now }
{
    match word {
        [] => false,
        [first, ..] => *first == b'-' || first.is_ascii_digit(),
    }
}
