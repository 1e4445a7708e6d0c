//! The names of codes.
ghost use Rattle.std.specs.Prelude.{◌≡◌};
ghost use Rattle.refusal_reasons.specs.Names.{code_name};

use text_lines::Code;

/// Returns the name of a code.
pub fn code_name(code: Code) -> &'static str
    ensures { result.now ≡ code_name code }
{
    match code {
        Code::TooLong => "TooLong",
        Code::BadByte => "BadByte",
        Code::BadHeader => "BadHeader",
        Code::UnknownLine => "UnknownLine",
        Code::BadName => "BadName",
        Code::BadNumber => "BadNumber",
        Code::BadLine => "BadLine",
        Code::Twice => "Twice",
        Code::UnknownName => "UnknownName",
        Code::Unclosed => "Unclosed",
        Code::BadNesting => "BadNesting",
        Code::TooMany => "TooMany",
        Code::BadLength => "BadLength",
        Code::Reserved => "Reserved",
    }
}
