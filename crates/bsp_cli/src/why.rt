//! Why a text is refused, in words for people. They follow the line on standard error if they are asked for.

ghost use Rattle.std.specs.Prelude.{◌≡◌, Err, IfOk, IfSome};
ghost use Rattle.text_lines.specs.declared.refusal.Refusal.{Refusal};
ghost use Rattle.trace_text.specs.Trace.{asked_of};
ghost use Rattle.refusal_reasons.specs.Reasons.{refusal_reason as reason_said};
ghost use Rattle.bsp_cli.specs.Marked.{trace_mark as trace_mark_of};

use phase_records::{Reader, Writer};
use refusal_reasons::{Kind, Mark, Part, job_reason, line_at, refusal_reason};
use std::alloc::{AllocError, Global};
use text_lines::{Code, Refusal};
use trace_text::{TraceFault, faulty_number, run_trace};

/// The word that asks for reasons, anywhere in a command line.
pub(crate) const WHY: &str = "--why";

// Returns what the refusal of a trace is about, if it is a number.
fn trace_mark(text: &[u8], refusal: Refusal) -> Option<Mark>
    ensures { result ≡ trace_mark_of text.now refusal }
{
    if refusal.code != Code::BadNumber {
        return None;
    }
    let word = faulty_number(text, line_at(text, refusal.line))?;
    Some(Mark {
        word,
        part: Part::Whole,
    })
}

// Returns why the text of a trace is refused, if it is.
fn trace_reason(alloc: Global, source: &str, text: &[u8]) -> Result<Option<Vec<u8>>, AllocError>
    ensures { IfOk result (λ reason. IfSome reason (λ said.
        (r : Refusal) × (asked_of text.now ≡ Err r) × (said.items ≡ reason_said source.now text.now Kind.Trace r (trace_mark_of text.now r)))) }
{
    let mut answers = Vec::new(alloc);
    match run_trace(
        alloc,
        &mut Reader::new(text),
        &mut Writer::new(&mut answers),
    ) {
        Err(TraceFault::Text(refusal)) => {
            let mark = trace_mark(text, refusal);
            let reason = refusal_reason(alloc, source, text, Kind::Trace, refusal, mark)?;
            Ok(Some(reason))
        }
        Err(TraceFault::Memory) => Err(AllocError),
        _ => Ok(None),
    }
}

/// Returns why the text of this source is refused that a subcommand of these words read, if it is.
pub(crate) fn text_reason(
    alloc: Global,
    words: &[&str],
    source: &str,
    text: &[u8],
) -> Result<Option<Vec<u8>>, AllocError> {
    match words.get(1) {
        Some(command) if *command == "trace" => trace_reason(alloc, source, text),
        _ => job_reason(alloc, source, text),
    }
}
