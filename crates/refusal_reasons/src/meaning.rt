//! What codes of refusals mean.
ghost use Rattle.std.specs.Prelude.{◌≡◌};
ghost use Rattle.refusal_reasons.specs.Meanings.{job_meaning, meaning, trace_meaning};

use text_lines::Code;

/// What a text is meant as.
#[derive(Clone, Copy, Debug, PartialEq, Eq)]
pub enum Kind {
    /// A job.
    Job,
    /// A trace.
    Trace,
}

// Returns what the code of a job's refusal means.
fn of_job(code: Code) -> &'static str
    ensures { result.now ≡ job_meaning code }
{
    match code {
        Code::TooLong => "over 1048576 bytes",
        Code::BadByte => "a byte that isn't allowed",
        Code::BadHeader => "the first line is neither bsp 1 nor bsp 2",
        Code::UnknownLine => "a line whose first word isn't allowed there",
        Code::BadName => "not a name",
        Code::BadNumber => "not a number, or one out of its range",
        Code::BadLine => "words too few, too many or misplaced",
        Code::Twice => "an array or a body declared twice, or a local listed twice",
        Code::UnknownName => "no such array above, no such body, or in bsp 2 no such local",
        Code::Unclosed => "the text ends in a body",
        Code::BadNesting => "an else that fits no if",
        Code::TooMany => "past a limit of the language",
        Code::BadLength => "a length outside 1 to 4096, or more values than the length",
        Code::Reserved => "a reserved word as a name",
    }
}

// Returns what the code of a trace's refusal means. A trace has no other codes than these.
fn of_trace(code: Code) -> &'static str
    ensures { result.now ≡ trace_meaning code }
{
    match code {
        Code::TooLong => "over 1048576 bytes",
        Code::BadByte => "a byte that isn't allowed",
        Code::BadHeader => "the first line is no phaser, tree or barrier",
        Code::UnknownLine => "a line whose first word is no command",
        Code::BadLine => "words too few, too many or misplaced",
        Code::BadNumber => "not a number, or one out of its range",
        Code::TooMany => "over 4096 commands, or over 256 tokens of a tree",
        _ => "no code of a trace",
    }
}

/// Returns what the code of a refusal means: the first line of what `bsp explain` prints of it.
pub fn meaning_of(kind: Kind, code: Code) -> &'static str
    ensures { result.now ≡ meaning kind code }
{
    match kind {
        Kind::Job => of_job(code),
        Kind::Trace => of_trace(code),
    }
}
