//! Plays each stored example and each row of texts, and says how many hold.
#![tactic(auto)]

mod row;

use anyhow::Error;
use bsp_cli::run;
use phase_records::{Reader, Writer};
use row::{Row, row_of, words_of, written_out};
use std::alloc::Global;
use std::fs;
use std::fs::Files;
use std::sync::Wait;
use std::thread::Threads;

// The words that write a job in its canonical text, and in format 2.
const CHECK: [&str; 2] = ["bsp", "check"];

const UPGRADE: [&str; 2] = ["bsp", "upgrade"];

// What the program left of a text.
#[derive(Drop)]
struct Ran {
    status: u8,
    output: Vec<u8>,
    errors: Vec<u8>,
}

impl Ran {
    // Returns true if this was printed, on the output and after it on the errors.
    fn printed(&self, want: &str) -> bool {
        let (output, errors) = (self.output.as_slice(), self.errors.as_slice());
        match want.as_bytes().split_at_checked(output.len()) {
            Some((front, rest)) => front == output && rest == errors,
            None => false,
        }
    }

    // Returns true if another run left the same.
    fn same_as(&self, other: &Ran) -> bool {
        self.status == other.status
            && self.output.as_slice() == other.output.as_slice()
            && self.errors.as_slice() == other.errors.as_slice()
    }

    // Returns true if a picture was printed that has these parts, and no errors.
    fn has_drawn(&self, parts: &str) -> bool {
        let Ok(text) = str::from_utf8(self.output.as_slice()) else {
            return false;
        };
        for part in parts.split(" ~ ") {
            if !text.contains(part) {
                return false;
            }
        }
        self.errors.is_empty() && text.starts_with("<svg ") && text.ends_with("</svg>\n")
    }
}

// Runs the program on a text.
fn run_on<R: Threads + Wait + Sync>(rt: &R, alloc: Global, words: &[&str], text: &[u8]) -> Ran {
    let mut output = Vec::new(alloc);
    let mut errors = Vec::new(alloc);
    let status = run(
        rt,
        alloc,
        words,
        &mut Reader::new(text),
        &mut Writer::new(&mut output),
        &mut Writer::new(&mut errors),
    );
    Ran {
        status,
        output,
        errors,
    }
}

// Returns what these words print of a job's text, if they print the same of that again. `None` if the text is refused.
fn settled<R: Threads + Wait + Sync>(
    rt: &R,
    alloc: Global,
    words: &[&str],
    text: &[u8],
) -> Option<Ran> {
    let once = run_on(rt, alloc, words, text);
    let again = run_on(rt, alloc, words, once.output.as_slice());
    if once.status == 0 && again.same_as(&once) {
        Some(once)
    } else {
        None
    }
}

// Returns true if the text of a job is taken, and leaves the same in format 2 with these words. A text that is refused does so
// unless it is stored.
fn stays<R: Threads + Wait + Sync>(
    rt: &R,
    alloc: Global,
    words: &[&str],
    text: &[u8],
    left: &Ran,
    is_stored: bool,
) -> bool {
    match settled(rt, alloc, &UPGRADE, text) {
        Some(newer) => {
            settled(rt, alloc, &CHECK, text).is_some()
                && run_on(rt, alloc, words, newer.output.as_slice()).same_as(left)
        }
        None => !is_stored,
    }
}

// Returns a text: that of a file, or one that is written short.
fn text_of<R: AllocGlobal + Files>(rt: &R, short: &str) -> Result<String, Error> {
    match short.strip_prefix('@') {
        Some(name) => Ok(fs::read_to_string(rt, name)?),
        None => Ok(written_out(rt.alloc(), short)?),
    }
}

// Returns true if what a row's words left of its text is the row's output.
fn is_output<R: AllocGlobal + Files + Threads + Wait + Sync>(
    rt: &R,
    text: &[u8],
    left: &Ran,
    output: &str,
) -> Result<bool, Error> {
    if let Some(parts) = output.strip_prefix("~ ") {
        return Ok(left.has_drawn(parts));
    }
    if let Some(others) = output.strip_prefix("= ") {
        let words = words_of(rt.alloc(), others)?;
        return Ok(run_on(rt, rt.alloc(), words.as_slice(), text).same_as(left));
    }
    let want = text_of(rt, output)?;
    Ok(left.printed(want.as_str()))
}

// Returns true if the words leave the same of a text `times` times.
fn leave_again<R: Threads + Wait + Sync>(
    rt: &R,
    alloc: Global,
    words: &[&str],
    text: &[u8],
    left: &Ran,
    times: u32,
) -> bool {
    for _ in 0..times {
        if !run_on(rt, alloc, words, text).same_as(left) {
            return false;
        }
    }
    true
}

// Returns true if a row's text gives the row's status and output, as often as it says, and, if it runs a job, in format 2 too.
fn holds<R: AllocGlobal + Files + Threads + Wait + Sync>(
    rt: &R,
    row: &Row<'_>,
) -> Result<bool, Error> {
    let alloc = rt.alloc();
    let text = text_of(rt, row.text)?;
    let words = words_of(alloc, row.words)?;
    let left = run_on(rt, alloc, words.as_slice(), text.as_bytes());
    if left.status != row.status || !is_output(rt, text.as_bytes(), &left, row.output)? {
        return Ok(false);
    }
    let (words, text) = (words.as_slice(), text.as_bytes());
    Ok(
        leave_again(rt, alloc, words, text, &left, row.times.saturating_sub(1))
            && (!row.runs() || stays(rt, alloc, words, text, &left, row.is_stored())),
    )
}

// Returns true if a line is a row that holds.
fn is_row<R: AllocGlobal + Files + Threads + Wait + Sync>(
    rt: &R,
    line: &str,
) -> Result<bool, Error> {
    match row_of(line) {
        Some(row) => holds(rt, &row),
        None => Ok(false),
    }
}

// Plays the rows of a file, and says which don't hold and how many do.
fn play<R: AllocGlobal + Files + Print + Threads + Wait + Sync>(
    rt: &R,
    name: &str,
) -> Result<(), Error> {
    let rows = fs::read_to_string(rt, name)?;
    let mut number = 0u64;
    let mut held = 0u64;
    for line in rows.as_str().lines() {
        if line.is_empty() || line.starts_with("--") {
            continue;
        }
        number = number.saturating_add(1);
        if is_row(rt, line)? {
            held = held.saturating_add(1);
        } else {
            println!(rt; "row {number} of {name} doesn't hold")?;
        }
    }
    println!(rt; "{held} rows of {name} hold")?;
    Ok(())
}

fn main(rt: HostRuntime) -> Result<(), Error> {
    play(&rt, "stored.txt")?;
    play(&rt, "rows.txt")
}
