//! The command line.
ghost use Rattle.std.specs.Prelude.{◌≡◌, ◌≢◌, ◌≤◌, ◌⊎◌, ◌+◌, [], true, Ok, IfOk, IsOk, IsErr, MatchOption, None, map, option_map, string_bytes};
ghost use Rattle.std.specs.Io.KnownBytes.{Appends};
ghost use Rattle.clap.specs.Words.{kind_of};
ghost use Rattle.clap.specs.declared.error.kind.ErrorKind.TheVariants as kinds;
ghost use Rattle.tier_shape.specs.InText.{shape_in_text};
ghost use Rattle.bsp_cli.specs.Answers.{AnswersWords, around};
ghost use Rattle.bsp_words.specs.CommandLine.{file_asked, refused_by, tree_asked, version_line};
ghost use Rattle.bsp_words.specs.Ranges.{IsAsked};
ghost use Rattle.job_view.specs.Look.{look_value};
ghost use Rattle.bsp_cli.specs.Did.{Did, ReadsNothing};
ghost use Rattle.bsp_cli.specs.Ends.{Does, ReadCause, WriteCause};
ghost use Rattle.bsp_cli.specs.Texts.{CountsFailures, Says, Tells, WritesSome};

use crate::explain::explain;
use crate::fault::{RunFault, refuse, tell};
use crate::job::{check, check_all, draw_bytes, run_bytes, run_json_bytes, run_status, upgrade};
use crate::progress::{NoProgress, Progress};
use crate::status::{COMMAND_LINE_REFUSED, DEVICE_FAILED, OUT_OF_MEMORY};
use crate::stream::stream_bytes;
use crate::trace::trace;
use bsp_words::{Asked, Request, parse, version_text};
use clap::Error;
use clap::error::ErrorKind;
use phase_records::{CountedRead, CountedWrite, write_all};
use std::alloc::{AllocError, Global};
use std::convert::AsStr;
use std::sync::Wait;
use std::thread::Threads;
use tier_shape::Shape;

// Writes a text that was asked for in place of a subcommand. Returns the status.
#[tactic(auto, using(crate::proofs::Saying::nothing_says))]
fn show<W: CountedWrite, E: CountedWrite>(writer: &mut W, errors: &mut E, text: &[u8]) -> u8
    ensures status { (result ≡ 0) ⊎ (result ≡ DEVICE_FAILED) }
    ensures shown { result ≡ 0 → Appends (W.contents writer.old) (W.contents writer.new) text.now }
    ensures silent { result ≡ 0 → errors.new ≡ errors.old }
    ensures says { Says result (E.contents errors.old) (E.contents errors.new) (E.failures errors.old) (E.failures errors.new) }
    ensures failed { result ≡ DEVICE_FAILED → W.failures writer.new ≡ W.failures writer.old + 1 }
    ensures worked { result ≢ DEVICE_FAILED → W.failures writer.new ≡ W.failures writer.old }
{
    match write_all(writer, text) {
        Ok(()) => 0,
        Err(_) => tell(errors, RunFault::Write),
    }
}

// Returns the text of help. The parser's text is empty only if memory ran out.
fn help_of(alloc: Global, error: &Error) -> Result<String, AllocError>
    ensures { IfOk result (λ text. string_bytes text ≢ []) }
{
    let text = error.to_string(alloc)?;
    if text.is_empty() {
        return Err(AllocError);
    }
    Ok(text)
}

// Writes help. Returns the status.
#[tactic(auto, using(crate::proofs::Saying::some_written))]
fn show_help<W: CountedWrite, E: CountedWrite>(
    alloc: Global,
    writer: &mut W,
    errors: &mut E,
    error: &Error,
) -> u8
    ensures status { (result ≡ 0) ⊎ (result ≡ OUT_OF_MEMORY) ⊎ (result ≡ DEVICE_FAILED) }
    ensures shown { result ≡ 0 → WritesSome (W.contents writer.old) (W.contents writer.new) }
    ensures silent { result ≡ 0 → errors.new ≡ errors.old }
    ensures out { result ≡ OUT_OF_MEMORY → writer.new ≡ writer.old }
    ensures says { Says result (E.contents errors.old) (E.contents errors.new) (E.failures errors.old) (E.failures errors.new) }
    ensures failed { result ≡ DEVICE_FAILED → W.failures writer.new ≡ W.failures writer.old + 1 }
    ensures worked { result ≢ DEVICE_FAILED → W.failures writer.new ≡ W.failures writer.old }
{
    match help_of(alloc, error) {
        Ok(text) => show(writer, errors, text.as_bytes()),
        Err(_) => tell(errors, RunFault::Memory),
    }
}

// Answers a command line that isn't taken: help, the version, or a refusal.
fn answer_error<W: CountedWrite, E: CountedWrite>(
    alloc: Global,
    writer: &mut W,
    errors: &mut E,
    error: &Error,
) -> u8
    ensures status { (result ≡ 0) ⊎ (result ≡ COMMAND_LINE_REFUSED) ⊎ (result ≡ OUT_OF_MEMORY) ⊎ (result ≡ DEVICE_FAILED) }
    ensures memory { kind_of error.now ≡ kinds.OutOfMemory → result ≡ OUT_OF_MEMORY }
    ensures help { kind_of error.now ≡ kinds.DisplayHelp → result ≢ COMMAND_LINE_REFUSED }
    ensures helped { kind_of error.now ≡ kinds.DisplayHelp → result ≡ 0 → WritesSome (W.contents writer.old) (W.contents writer.new) }
    ensures version { kind_of error.now ≡ kinds.DisplayVersion → result ≢ COMMAND_LINE_REFUSED }
    ensures versioned { kind_of error.now ≡ kinds.DisplayVersion → result ≡ 0
        → Appends (W.contents writer.old) (W.contents writer.new) version_line }
    ensures refuses { kind_of error.now ≢ kinds.DisplayHelp → kind_of error.now ≢ kinds.DisplayVersion → (result ≡ COMMAND_LINE_REFUSED) ⊎ (result ≡ OUT_OF_MEMORY) }
    ensures silent { result ≡ 0 → errors.new ≡ errors.old }
    ensures refused { result ≡ COMMAND_LINE_REFUSED → writer.new ≡ writer.old }
    ensures out { result ≡ OUT_OF_MEMORY → writer.new ≡ writer.old }
    ensures says { Says result (E.contents errors.old) (E.contents errors.new) (E.failures errors.old) (E.failures errors.new) }
    ensures failed { result ≡ DEVICE_FAILED → W.failures writer.new ≡ W.failures writer.old + 1 }
    ensures worked { result ≢ DEVICE_FAILED → W.failures writer.new ≡ W.failures writer.old }
{
    match error.kind() {
        ErrorKind::DisplayHelp => show_help(alloc, writer, errors, error),
        ErrorKind::DisplayVersion => show(writer, errors, version_text().as_bytes()),
        ErrorKind::OutOfMemory => tell(errors, RunFault::Memory),
        _ => refuse(errors),
    }
}

// Does what is asked for. Returns the status.
fn do_asked<T: Threads + Wait + Sync, R: CountedRead, W: CountedWrite + Send, P: Progress + Sync>(
    rt: &T,
    alloc: Global,
    request: Request<'_>,
    shape: Shape,
    reader: &mut R,
    writer: &mut W,
    progress: &P,
) -> Result<u8, RunFault>
    requires { IsAsked request.asked }
    ensures reads_nothing { ReadsNothing request.entry.asked → reader.new ≡ reader.old }
    ensures does { Does request.entry.asked (look_value request.entry.look) (R.remaining reader.old) (W.contents writer.old) (W.contents writer.new) result }
    ensures read_failures { ReadCause (R.failures reader.old) (R.failures reader.new) result }
    ensures write_failures { WriteCause (W.failures writer.old) (W.failures writer.new) result }
{
    let asked = if request.progress {
        Some(progress)
    } else {
        None
    };
    match request.asked {
        Asked::Trace => {
            trace(alloc, reader, writer)?;
            Ok(0)
        }
        Asked::Check => {
            check(alloc, reader, writer)?;
            Ok(0)
        }
        Asked::CheckAll => {
            check_all(alloc, reader, writer)?;
            Ok(0)
        }
        Asked::Upgrade => {
            upgrade(alloc, reader, writer)?;
            Ok(0)
        }
        Asked::Explain(topic) => {
            explain(writer, topic)?;
            Ok(0)
        }
        Asked::Run { workers, limit } => {
            let ended = run_bytes(rt, alloc, reader, writer, shape, workers, limit, asked);
            run_status(rt, progress, ended)
        }
        Asked::RunJson { workers, limit } => {
            let ended = run_json_bytes(rt, alloc, reader, writer, shape, workers, limit, asked);
            run_status(rt, progress, ended)
        }
        Asked::RunStream { workers, limit } => {
            let ended = stream_bytes(rt, alloc, reader, writer, shape, workers, limit, asked);
            run_status(rt, progress, ended)
        }
        Asked::Draw { workers, limit } => {
            let look = request.look;
            let ended = draw_bytes(rt, alloc, reader, writer, shape, workers, limit, look);
            run_status(rt, progress, ended)
        }
    }
}

// Does what is asked for, and reports what went wrong. Returns the status.
#[tactic(auto, using(crate::proofs::Faulted::faulted))]
fn run_asked<
    T: Threads + Wait + Sync,
    R: CountedRead,
    W: CountedWrite + Send,
    E: CountedWrite,
    P: Progress + Sync,
>(
    rt: &T,
    alloc: Global,
    request: Request<'_>,
    shape: Shape,
    reader: &mut R,
    writer: &mut W,
    errors: &mut E,
    progress: &P,
) -> u8
    requires { IsAsked request.asked }
    ensures did { Did request.entry.asked (look_value request.entry.look) (R.remaining reader.old) (W.contents writer.old) (W.contents writer.new)
        (Tells (E.contents errors.old) (E.contents errors.new) (E.failures errors.old) (E.failures errors.new)) result }
    ensures reads_nothing { ReadsNothing request.entry.asked → reader.new ≡ reader.old }
    ensures status { (result ≤ 9) × (result ≢ COMMAND_LINE_REFUSED) }
    ensures silent { result ≤ 3 → errors.new ≡ errors.old }
    ensures says { Says result (E.contents errors.old) (E.contents errors.new) (E.failures errors.old) (E.failures errors.new) }
    ensures failures { CountsFailures result (R.failures reader.old) (R.failures reader.new) (W.failures writer.old) (W.failures writer.new) }
{
    match do_asked(rt, alloc, request, shape, reader, writer, progress) {
        Ok(status) => status,
        Err(fault) => tell(errors, fault),
    }
}

// Reads the text of a tree. Returns `None` if it is none.
fn shape_of(alloc: Global, text: &str) -> Result<Option<Shape>, AllocError>
    ensures { IfOk result (λ found. MatchOption found (IsErr (shape_in_text text.now)) (λ shape. shape_in_text text.now ≡ Ok shape)) }
{
    match Shape::from_widths(alloc, text) {
        Ok(shape) => Ok(Some(shape)),
        Err(fault) => {
            if fault.number().is_none() {
                return Err(AllocError);
            }
            Ok(None)
        }
    }
}

// Returns the file that a request names, if the text of its tree is one.
fn file_of<'a>(alloc: Global, request: Request<'a>) -> Result<Option<&'a str>, AllocError>
    ensures taken { IfOk result (λ file. IsOk (shape_in_text request.entry.tree.now) → option_map (λ s. s.now) file ≡ option_map (λ s. s.now) request.entry.file) }
    ensures no_tree { IfOk result (λ file. IsErr (shape_in_text request.entry.tree.now) → file ≡ None) }
{
    match shape_of(alloc, request.tree) {
        Ok(Some(_)) => Ok(request.file),
        Ok(None) => Ok(None),
        Err(error) => Err(error),
    }
}

// Returns true if a parse failed because an allocation did.
fn is_memory(error: &Error) -> bool
    ensures { kind_of error.now ≡ kinds.OutOfMemory → result ≡ true }
{
    match error.kind() {
        ErrorKind::OutOfMemory => true,
        _ => false,
    }
}

/// Returns the file that a command line names for [`run`] to read: the caller opens it and hands it over as the
/// reader. Returns `None` if standard input is to be read, and also if the command line or the text of `--tree` is
/// refused; then nothing is read.
pub fn file_named<'a, S: AsStr>(
    alloc: Global,
    words: &'a [S],
) -> Result<Option<&'a str>, AllocError>
    ensures named { IfOk result (λ file. refused_by (map S.text words.entry.now) ≡ [] → IsOk (shape_in_text (tree_asked (map S.text words.entry.now)))
        → option_map (λ s. s.now) file ≡ file_asked (map S.text words.entry.now)) }
    ensures refused { IfOk result (λ file. refused_by (map S.text words.entry.now) ≢ [] → file ≡ None) }
    ensures no_tree { IfOk result (λ file. refused_by (map S.text words.entry.now) ≡ [] → IsErr (shape_in_text (tree_asked (map S.text words.entry.now)))
        → file ≡ None) }
{
    match parse(alloc, words) {
        Ok(request) => file_of(alloc, request),
        Err(error) => {
            if is_memory(&error) {
                return Err(AllocError);
            }
            Ok(None)
        }
    }
}

// Does what is asked for at the tree that is asked for, if its text is one.
fn run_request<
    T: Threads + Wait + Sync,
    R: CountedRead,
    W: CountedWrite + Send,
    E: CountedWrite,
    P: Progress + Sync,
>(
    rt: &T,
    alloc: Global,
    request: Request<'_>,
    reader: &mut R,
    writer: &mut W,
    errors: &mut E,
    progress: &P,
) -> u8
    requires { IsAsked request.asked }
    ensures did { Did request.entry.asked (look_value request.entry.look) (R.remaining reader.old) (W.contents writer.old) (W.contents writer.new)
        (Tells (E.contents errors.old) (E.contents errors.new) (E.failures errors.old) (E.failures errors.new)) result }
    ensures reads_nothing { ReadsNothing request.entry.asked → reader.new ≡ reader.old }
    ensures taken { IsOk (shape_in_text request.entry.tree.now) → result ≢ COMMAND_LINE_REFUSED }
    ensures no_tree { IsErr (shape_in_text request.entry.tree.now)
        → (reader.new ≡ reader.old) × (writer.new ≡ writer.old) × ((result ≡ COMMAND_LINE_REFUSED) ⊎ (result ≡ OUT_OF_MEMORY)) }
    ensures status { result ≤ 9 }
    ensures silent { result ≤ 3 → errors.new ≡ errors.old }
    ensures command_line_refused { result ≡ COMMAND_LINE_REFUSED → (reader.new ≡ reader.old) × (writer.new ≡ writer.old) }
    ensures says { Says result (E.contents errors.old) (E.contents errors.new) (E.failures errors.old) (E.failures errors.new) }
    ensures failures { CountsFailures result (R.failures reader.old) (R.failures reader.new) (W.failures writer.old) (W.failures writer.new) }
{
    match shape_of(alloc, request.tree) {
        Ok(Some(shape)) => run_asked(rt, alloc, request, shape, reader, writer, errors, progress),
        Ok(None) => refuse(errors),
        Err(_) => tell(errors, RunFault::Memory),
    }
}

/// Does what a command line asks for. Its first word is the program's name. Reads the input from `reader` and prints to
/// `writer`. Returns the status that the program ends with; unless that is 0, 2 or 3, `errors` gets one line. If progress
/// is asked for, `progress` is called for each segment; it gets how the job ended. That changes nothing else.
pub fn run_telling<
    'a,
    T: Threads + Wait + Sync,
    S: AsStr,
    R: CountedRead,
    W: CountedWrite + Send,
    E: CountedWrite,
    P: Progress + Sync,
>(
    rt: &T,
    alloc: Global,
    words: &'a [S],
    reader: &mut R,
    writer: &mut W,
    errors: &mut E,
    progress: &P,
) -> u8
    ensures { AnswersWords (map S.text words.entry.now) (around R.remaining R.failures reader.old reader.new)
        (around W.contents W.failures writer.old writer.new) (around E.contents E.failures errors.old errors.new) result }
{
    match parse(alloc, words) {
        Ok(request) => run_request(rt, alloc, request, reader, writer, errors, progress),
        Err(error) => answer_error(alloc, writer, errors, &error),
    }
}

/// Does what a command line asks for. Its first word is the program's name. Reads the input from `reader` and prints to
/// `writer`. Returns the status that the program ends with; unless that is 0, 2 or 3, `errors` gets one line. Reports no
/// progress.
pub fn run<
    'a,
    T: Threads + Wait + Sync,
    S: AsStr,
    R: CountedRead,
    W: CountedWrite + Send,
    E: CountedWrite,
>(rt: &T, alloc: Global, words: &'a [S], reader: &mut R, writer: &mut W, errors: &mut E) -> u8
    ensures { AnswersWords (map S.text words.entry.now) (around R.remaining R.failures reader.old reader.new)
        (around W.contents W.failures writer.old writer.new) (around E.contents E.failures errors.old errors.new) result }
{
    run_telling(rt, alloc, words, reader, writer, errors, &NoProgress)
}
