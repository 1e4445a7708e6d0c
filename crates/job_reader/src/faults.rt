//! Chooses which of several faults of a line to report.
ghost use Rattle.std.specs.Prelude.{◌≡◌, Ok, Err};
ghost use Rattle.job_reader.specs.Faults as spec;

use text_lines::Code;

// Returns the rank of a fault. Of a line's faults the one of the lowest rank is reported.
fn rank(code: Code) -> u8
    ensures { result ≡ spec.rank code }
{
    match code {
        Code::TooLong => 0,
        Code::BadByte => 1,
        Code::BadHeader => 2,
        Code::UnknownLine => 3,
        Code::BadNesting => 4,
        Code::BadLine => 5,
        Code::Reserved => 6,
        Code::BadName => 7,
        Code::BadNumber => 8,
        Code::BadLength => 9,
        Code::UnknownName => 10,
        Code::Twice => 11,
        Code::TooMany => 12,
        Code::Unclosed => 13,
    }
}

/// Returns the one of two faults of a line that is reported. The order is: unknown line, `else` without its `if`, too few,
/// too many or misplaced words, reserved word, not a name, not a number, bad length, unknown name, name declared twice,
/// limit.
pub fn earlier(a: Code, b: Code) -> Code
    ensures { result ≡ spec.earlier a b }
{
    if rank(a) <= rank(b) { a } else { b }
}

/// Joins two parts of a line. Returns both, or the fault to report if either failed.
pub fn both<A: Drop, B: Drop>(a: Result<A, Code>, b: Result<B, Code>) -> Result<(A, B), Code>
    ensures { result ≡ spec.both a b }
{
    match (a, b) {
        (Ok(a), Ok(b)) => Ok((a, b)),
        (Ok(_), Err(code)) => Err(code),
        (Err(code), Ok(_)) => Err(code),
        (Err(code), Err(other)) => Err(earlier(code, other)),
    }
}
