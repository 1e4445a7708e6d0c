//! Names of arrays, bodies and locals.
ghost use Rattle.std.specs.Prelude.{◌≡◌, ◌||◌, map, string_bytes};
ghost use Rattle.std.specs.List.{list_all};
ghost use Rattle.std.specs.Str.{bytes_eq};
ghost use Rattle.task_code.specs.Names as spec;

// Returns true if a name may have this byte.
fn is_in_name(c: u8) -> bool
    ensures { result ≡ spec.is_in_name c }
{
    c.is_ascii_lowercase() || c.is_ascii_digit() || c == b'_'
}

// Returns true if a name may have all these bytes.
fn are_in_name(word: &[u8]) -> bool
    ensures { result ≡ list_all spec.is_in_name word.now }
{
    word.iter().all(|c| is_in_name(*c))
}

// Returns true if a word begins with a lower-case letter.
fn begins_lower(word: &[u8]) -> bool
    ensures { result ≡ spec.begins_lower word.now }
{
    match word {
        [] => false,
        [first, ..] => first.is_ascii_lowercase(),
    }
}

/// Returns true if a word is a lower-case letter and up to 15 lower-case letters, digits and underscores. So is a reserved word.
pub fn is_name(word: &[u8]) -> bool
    ensures { result ≡ spec.is_name word.now }
{
    if !begins_lower(word) || word.len() > 16 {
        return false;
    }
    are_in_name(word)
}

/// Returns true if two words are the same.
pub(crate) fn are_same(word: &[u8], other: &[u8]) -> bool
    ensures { result ≡ bytes_eq word.now other.now }
{
    word == other
}

// Returns true if a word is one of these four, or if `or_else` is true.
fn is_one_of(word: &[u8], a: &[u8], b: &[u8], c: &[u8], d: &[u8], or_else: bool) -> bool
    ensures { result ≡ (bytes_eq word.now a.now || bytes_eq word.now b.now || bytes_eq word.now c.now || bytes_eq word.now d.now || or_else) }
{
    are_same(word, a) || are_same(word, b) || are_same(word, c) || are_same(word, d) || or_else
}

/// Returns true if a word is reserved: no array, body or local may have it as its name.
#[tactic(auto, unfolding(crate::specs::Names::is_reserved))]
pub fn is_reserved(word: &[u8]) -> bool
    ensures { result ≡ spec.is_reserved word.now }
{
    let last = are_same(word, b"bsp");
    let lines = is_one_of(word, b"end", b"array", b"body", b"start", last);
    let tests = is_one_of(word, b"stop", b"if", b"else", b"while", lines);
    let actions = is_one_of(word, b"add", b"print", b"spawn", b"sync", tests);
    is_one_of(word, b"arg", b"step", b"let", b"put", actions)
}

/// Returns true if an array, a body or a local may have this name.
pub fn is_free(word: &[u8]) -> bool
    ensures { result ≡ spec.is_free word.now }
{
    is_name(word) && !is_reserved(word)
}

// Returns true if a name is among these.
fn is_among(names: &[String], name: &[u8]) -> bool
    ensures { result ≡ spec.is_among (map string_bytes names.now) name.now }
{
    for first in names {
        if are_same(first.as_bytes(), name) {
            return true;
        }
    }
    false
}

/// Returns true if these are names that may be used, each once.
pub(crate) fn are_names(names: &[String]) -> bool
    ensures { result ≡ spec.are_names (map string_bytes names.now) }
{
    let mut rest = names;
    while let Some((first, after)) = rest.split_first() {
        if !is_free(first.as_bytes()) || is_among(after, first.as_bytes()) {
            return false;
        }
        rest = after;
    }
    true
}
