//! Jobs as texts, for C: a text is checked, or run on the caller's thread, and the output is put into the caller's bytes.
//! The bytes beyond that text may change. Nothing here is part of Java's API.
//!
//! # Where things are
//!
//! * `lib.rt`: the three exported calls; `specs/Jobs.antt`: what they give.
#![tactic(auto)]

ghost use Rattle.std.specs.Prelude.{◌≡◌, ◌⊎◌, ◌≤◌, length, pos};
ghost use Rattle.phase_records.specs.StatusSeen.{status_seen};
ghost use Rattle.job_reader.specs.Trees.{job_tree};
ghost use Rattle.bsp_job.specs.Given.{IsGiven};
ghost use Rattle.job_reader.specs.Grammar.{canonical_text};
ghost use Rattle.bsp_job.specs.Jobs.{Checks, Upgrades, Runs, RunsOut, IsNothing, IsQuiet, IsRefusedAs, GivesReport, StatusesAreNumbered, status_number};

use job_reader::{ReadJobFault, Refusal, canonical, read_job, upgrade};
use phase_records::{JobStatus, text_of};
use std::alloc::{AllocError, Global};
use step_core::run_alone;
use task_code::job::Job;

/// An allocation failed.
const NO_MEMORY: i32 = 6;

/// A limit of 0.
const NO_LIMIT: i32 = 5;

/// The caller's bytes are too few.
const TOO_SHORT: i32 = 10;

/// What a call returns beside its status. A field that the status doesn't need is 0.
#[repr(C)]
#[derive(Clone, Copy)]
pub struct Reported {
    /// The length of the text that was, or would have been, put into the caller's bytes.
    pub bytes: usize,
    /// The line of a refusal, from 1.
    pub line: usize,
    /// The code of a refusal, from 1.
    pub code: u32,
}

const NOTHING: Reported = Reported {
    bytes: 0,
    line: 0,
    code: 0,
};

// Puts a text at the front of the caller's bytes if there is room for it, and returns the status.
fn give(text: &[u8], done: i32, out: &mut [u8]) -> i32
    ensures { IsGiven text.now out.new done result (length text.now) }
{
    if out.len() < text.len() {
        return TOO_SHORT;
    }
    let (front, _) = out.split_at_mut(text.len());
    front.copy_from_slice(text);
    done
}

// Reports the fault for which a text is refused, and its place.
fn refuse(refusal: Refusal, reported: &mut Reported) -> i32
    ensures reported { IsRefusedAs refusal result reported.new }
    ensures kept { reported.new.bytes ≡ reported.old.bytes }
{
    reported.line = refusal.line;
    reported.code = u32::from(refusal.code.number());
    4
}

// Returns the program's status for how a job ended.
fn status_of(status: &JobStatus) -> i32
    ensures { result ≡ status_number (status_seen status.now) }
{
    match status {
        JobStatus::Ended(_) => 0,
        JobStatus::Fault { .. } => 2,
        JobStatus::Limit(_) => 3,
    }
}

// Puts the canonical text of a job into the caller's bytes.
fn write_and_give(alloc: Global, job: &Job, out: &mut [u8], reported: &mut Reported) -> i32
    requires nothing { IsNothing reported.old }
    ensures given { (result ≡ pos 6) ⊎ IsGiven (canonical_text (job_tree job.now)) out.new (pos 0) result reported.new.bytes }
    ensures quiet { IsQuiet result reported.new }
{
    match canonical(alloc, job) {
        Ok(bytes) => {
            reported.bytes = bytes.len();
            give(&bytes, 0, out)
        }
        Err(AllocError) => NO_MEMORY,
    }
}

/// Reads a job and puts its canonical text into `out`. Returns 0; 4 if the text is refused; 6 if an allocation failed, which
/// no text gets that is too long, has a byte that isn't allowed or lacks the header; 10 if `out` is too short, and then its
/// bytes are unspecified.
#[unsafe(no_mangle)]
pub extern "C" fn bsp_check(
    alloc: Global,
    text: &[u8],
    out: &mut [u8],
    reported: &mut Reported,
) -> i32
    ensures check { Checks text.now out.new result reported.new }
    ensures memory { RunsOut text.now result }
    ensures quiet { IsQuiet result reported.new }
{
    *reported = NOTHING;
    match read_job(alloc, text) {
        Ok(job) => write_and_give(alloc, &job, out, reported),
        Err(ReadJobFault::Text(refusal)) => refuse(refusal, reported),
        Err(ReadJobFault::Memory) => NO_MEMORY,
    }
}

/// Reads a job of either format and puts the canonical text of the same job in format 2 into `out`. The statuses are those
/// of `bsp_check`.
#[unsafe(no_mangle)]
pub extern "C" fn bsp_upgrade(
    alloc: Global,
    text: &[u8],
    out: &mut [u8],
    reported: &mut Reported,
) -> i32
    ensures upgrade { Upgrades text.now out.new result reported.new }
    ensures memory { RunsOut text.now result }
    ensures quiet { IsQuiet result reported.new }
{
    *reported = NOTHING;
    match read_job(alloc, text) {
        Ok(job) => write_and_give(alloc, &upgrade(job), out, reported),
        Err(ReadJobFault::Text(refusal)) => refuse(refusal, reported),
        Err(ReadJobFault::Memory) => NO_MEMORY,
    }
}

// Runs a job, and puts the text of its report into the caller's bytes.
fn run_and_give(
    alloc: Global,
    job: &Job,
    limit: u32,
    out: &mut [u8],
    reported: &mut Reported,
) -> i32
    requires limit { 1 ≤ limit }
    requires nothing { IsNothing reported.old }
    ensures given { (result ≡ pos 6) ⊎ GivesReport (job_tree job.now) limit out.new result reported.new }
    ensures quiet { IsQuiet result reported.new }
{
    let Ok(report) = run_alone(alloc, job, limit) else {
        return NO_MEMORY;
    };
    let Ok(text) = text_of(alloc, &report) else {
        return NO_MEMORY;
    };
    reported.bytes = text.len();
    give(&text, status_of(&report.status), out)
}

/// Reads a job, runs it on the caller's thread within this limit of supersteps, and puts the text of its report into
/// `out`. Returns 0 if the job ended, 2 if a task faulted, 3 if the limit was reached; 4 if the text is refused; 5 for a
/// limit of 0; 6 if an allocation failed; 10 if `out` is too short, and then its bytes are unspecified.
#[unsafe(no_mangle)]
pub extern "C" fn bsp_run(
    alloc: Global,
    text: &[u8],
    limit: u32,
    out: &mut [u8],
    reported: &mut Reported,
) -> i32
    ensures none { limit ≡ 0 → result ≡ pos 5 }
    ensures run { 1 ≤ limit → Runs limit text.now out.new result reported.new }
    ensures memory { RunsOut text.now result }
    ensures quiet { IsQuiet result reported.new }
{
    *reported = NOTHING;
    if limit == 0 {
        return NO_LIMIT;
    }
    match read_job(alloc, text) {
        Ok(job) => run_and_give(alloc, &job, limit, out, reported),
        Err(ReadJobFault::Text(refusal)) => refuse(refusal, reported),
        Err(ReadJobFault::Memory) => NO_MEMORY,
    }
}

/// The status of each end of a job is a table, and not computed by a rule.
pub fn statuses_are_numbered()
    ensures { StatusesAreNumbered }
{}
