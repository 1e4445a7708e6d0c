//! The program, from the words that the system hands over to its status.
ghost use Rattle.std.specs.Prelude.{◌≡◌, ◌≤◌, ◌⊎◌};
ghost use Rattle.bsp_cli.specs.Texts.{Says};

use crate::command_line::{file_named, run_telling};
use crate::fault::{RunFault, refuse, tell};
use crate::progress::{Seen, Teller, seen_by, stop, ticker_for};
use crate::status::{
    COMMAND_LINE_REFUSED, DEVICE_FAILED, LIMIT_REACHED, OUT_OF_MEMORY, TASK_FAULT, TEXT_REFUSED,
};
use crate::why::{WHY, text_reason};
use bsp_words::reason_of;
use fault_reasons::end_reason;
use phase_records::{CountedWrite, JobStatus, Reader};
use std::alloc::{AllocError, Global};
use std::io::{Input, Read};
use std::rt::{Clock, Files};
use std::sync::Wait;
use std::thread::Threads;
use std::{env, fs, io};

// Reports that the words of the command line couldn't be read. Returns the status.
fn stopped<E: CountedWrite>(errors: &mut E, kind: io::ErrorKind) -> u8
    ensures status { (result ≡ COMMAND_LINE_REFUSED) ⊎ (result ≡ OUT_OF_MEMORY) }
    ensures says { Says result (E.contents errors.old) (E.contents errors.new) (E.failures errors.old) (E.failures errors.new) }
{
    if kind == io::ErrorKind::OutOfMemory {
        return tell(errors, RunFault::Memory);
    }
    refuse(errors)
}

// Standard input. If it is a terminal, the first read prints to standard error that it waits for a text.
#[derive(Drop)]
struct Standard<'a, T: Eprint, S: Read + Drop> {
    rt: &'a T,
    input: S,
    tells: bool,
}

impl<T: Eprint, S: Read + Drop> Read for Standard<'_, T, S> {
    fn read(&mut self, buffer: &mut [u8]) -> io::Result<usize> {
        if self.tells {
            self.tells = false;
            let _ = eprintln!(self.rt;
                "reading a text from standard input, up to Ctrl-D; -f FILE reads a file"
            );
        }
        self.input.read(buffer)
    }
}

// Where a text is read from. The reads of a file that couldn't be opened fail.
#[derive(Drop)]
enum Source<F: Read + Drop, S: Read + Drop> {
    File(F),
    Standard(S),
    Unopened,
}

impl<F: Read + Drop, S: Read + Drop> Read for Source<F, S> {
    fn read(&mut self, buffer: &mut [u8]) -> io::Result<usize> {
        match self {
            Source::File(file) => file.read(buffer),
            Source::Standard(input) => input.read(buffer),
            Source::Unopened => Err(io::ErrorKind::NotFound.into()),
        }
    }
}

// What is known of a text that was read: its bytes, whether these are all, and whether the last read failed.
#[derive(Drop)]
struct ReadText {
    bytes: Vec<u8>,
    is_whole: bool,
    has_failed: bool,
}

impl ReadText {
    // Creates a text of which nothing was read. Keeps the bytes if it is asked to.
    fn new(alloc: Global, keeps: bool) -> Self {
        ReadText {
            bytes: Vec::new(alloc),
            is_whole: keeps,
            has_failed: false,
        }
    }
}

// A reader that keeps what it gives, as long as it is asked to and memory is there.
#[derive(Drop)]
struct Kept<'a, R: Read + Drop> {
    inner: R,
    text: &'a mut ReadText,
}

impl<R: Read + Drop> Read for Kept<'_, R> {
    fn read(&mut self, buffer: &mut [u8]) -> io::Result<usize> {
        let read = self.inner.read(buffer);
        self.text.has_failed = read.is_err();
        let count = read?;
        if self.text.is_whole && count <= buffer.len() {
            self.text.is_whole = self.text.bytes.extend_from_slice(&buffer[..count]).is_ok();
        }
        Ok(count)
    }
}

// What a text is read from: a file, or standard input.
#[derive(Clone, Copy)]
struct Origin<'a> {
    file: Option<&'a str>,
    is_open: bool,
}

// Opens the file that is named, or takes standard input.
fn opened<T: Files, S: Read + Drop>(rt: &T, file: Option<&str>, standard: S) -> Source<T::File, S> {
    match file {
        None => Source::Standard(standard),
        Some(path) => match fs::open(rt, path) {
            Ok(file) => Source::File(file),
            Err(_) => Source::Unopened,
        },
    }
}

// Returns the words but for those that ask for reasons.
fn without_why(alloc: Global, words: &[String]) -> Result<Vec<&str>, AllocError> {
    words
        .iter()
        .map(|word| word.as_str())
        .filter(|word| *word != WHY)
        .collect(alloc)
}

// Says on standard error why a command line of these words is refused.
fn tell_reason<T: AllocGlobal + Eprint>(rt: &T, words: &[&str]) {
    if let Ok(reason) = reason_of(rt.alloc(), words) {
        let _ = eprint!(rt; "{reason}");
    }
}

// Says on standard error why a text is refused that was read whole.
fn tell_text_reason<T: AllocGlobal + Eprint>(
    rt: &T,
    words: &[&str],
    file: Option<&str>,
    text: &[u8],
) {
    let source = match file {
        Some(file) => file,
        None => "standard input",
    };
    if let Ok(Some(reason)) = text_reason(rt.alloc(), words, source, text)
        && let Ok(reason) = str::from_utf8(&reason)
    {
        let _ = eprint!(rt; "{reason}");
    }
}

// Says on standard error why the job of a text ended so, by a fault or at its limit.
fn tell_end_reason<T: AllocGlobal + Eprint>(rt: &T, text: &[u8], end: &JobStatus) {
    if let Ok(Some(reason)) = end_reason(rt.alloc(), text, end)
        && let Ok(reason) = str::from_utf8(&reason)
    {
        let _ = eprint!(rt; "{reason}");
    }
}

// Says on standard error which file can't be opened or read, or that standard output can't be written.
fn tell_device<T: Eprint>(rt: &T, origin: Origin<'_>, has_failed: bool) {
    let (device, verb) = match origin.file {
        Some(file) if !origin.is_open => (file, "opened"),
        Some(file) if has_failed => (file, "read"),
        None if has_failed => ("standard input", "read"),
        _ => ("standard output", "written"),
    };
    let _ = eprintln!(rt; "{device}: can't be {verb}");
}

// Says on standard error why a command of these words, which read this text, ended with this status, if there is more to say. `end`
// is how its job ended.
fn tell_why<T: AllocGlobal + Eprint>(
    rt: &T,
    words: &[&str],
    origin: Origin<'_>,
    text: &ReadText,
    end: Option<&JobStatus>,
    status: u8,
) {
    match status {
        COMMAND_LINE_REFUSED => tell_reason(rt, words),
        DEVICE_FAILED => tell_device(rt, origin, text.has_failed),
        TEXT_REFUSED if text.is_whole => tell_text_reason(rt, words, origin.file, &text.bytes),
        TASK_FAULT | LIMIT_REACHED if text.is_whole => {
            if let Some(end) = end {
                tell_end_reason(rt, &text.bytes, end);
            }
        }
        _ => {}
    }
}

// Returns the words of the command line of this process.
fn words_of<T: env::Env + AllocGlobal>(rt: &T) -> Result<Vec<String>, io::ErrorKind> {
    match env::args(rt) {
        Ok(words) => match words.collect::<Vec<String>>(rt.alloc()) {
            Ok(words) => Ok(words),
            Err(_) => Err(io::ErrorKind::OutOfMemory),
        },
        Err(error) => Err(error.kind()),
    }
}

/// Does what the command line of this process asks for, as [`run_telling`] does. Reads the file that the command line names,
/// or else standard input, prints to `writer`, and reports to `errors` what went wrong. Returns the status that the process
/// ends with. Words that aren't text are refused; the reads of a file that can't be opened fail. If `terminal` is true,
/// standard input is a terminal, and a first read of it prints to standard error that it waits for input.
///
/// If `reasons` is true, or a word is `--why`, the line on standard error is followed by the reason for a refused command line
/// or text, or by the file that can't be opened or read, or that standard output can't be written. The reason for a fault, or
/// for reaching the limit, is printed there too; to find it, the job is run again on this thread.
///
/// If a word is `--progress`, another thread prints progress to standard error once a second. If it can't be started, progress
/// is only printed when a superstep begins.
pub fn run_program<
    T: env::Env
        + AllocGlobal
        + Files
        + Input
        + Clock
        + Eprint
        + Threads
        + Wait
        + Copy
        + Send
        + Sync
        + 'static,
    W: CountedWrite + Send,
    E: CountedWrite,
>(rt: &T, terminal: bool, reasons: bool, writer: &mut W, errors: &mut E) -> u8
    ensures status { result ≤ 9 }
    ensures silent { result ≤ 3 → errors.new ≡ errors.old }
    ensures command_line_refused { result ≡ COMMAND_LINE_REFUSED → writer.new ≡ writer.old }
    ensures says { Says result (E.contents errors.old) (E.contents errors.new) (E.failures errors.old) (E.failures errors.new) }
{
    let words = match words_of(rt) {
        Ok(words) => words,
        Err(error) => return stopped(errors, error),
    };
    let Ok(asked) = without_why(rt.alloc(), &words) else {
        return stopped(errors, io::ErrorKind::OutOfMemory);
    };
    let Ok(file) = file_named(rt.alloc(), asked.as_slice()) else {
        return stopped(errors, io::ErrorKind::OutOfMemory);
    };
    let standard = Standard {
        rt,
        input: rt.reader(),
        tells: terminal,
    };
    let asks = reasons || asked.len() < words.len();
    let mut text = ReadText::new(rt.alloc(), asks);
    let source = opened(rt, file, standard);
    let is_open = !matches!(source, Source::Unopened);
    let origin = Origin { file, is_open };
    let mut reader = Reader::new(Kept {
        inner: source,
        text: &mut text,
    });
    let ticker = ticker_for(rt, rt.alloc(), &asked);
    let here = Seen::new();
    let seen = seen_by(&ticker, &here);
    let teller = Teller::new(rt, seen);
    let status = run_telling(
        rt,
        rt.alloc(),
        asked.as_slice(),
        &mut reader,
        writer,
        errors,
        &teller,
    );
    drop(reader);
    let end = seen.take_end(rt);
    stop(rt, ticker);
    if asks {
        tell_why(rt, &asked, origin, &text, end.as_ref(), status);
    }
    status
}
