//! The subcommands `check`, `upgrade`, `run` and `draw`.
ghost use Rattle.std.specs.Prelude.{◌≡◌, ◌≤◌, ℕ, Some, IfOk, IfErr};
ghost use Rattle.phase_records.specs.StatusSeen.{status_seen};
ghost use Rattle.bsp_cli.specs.Jobs.{status_number};
ghost use Rattle.phase_records.specs.ReportText.{report_text};
ghost use Rattle.refusal_reasons.specs.Listing.{listing};
ghost use Rattle.job_view.specs.Look.{look_value};
ghost use Rattle.job_reader.specs.Grammar.{canonical_text};
ghost use Rattle.job_reader.specs.Trees.{job_tree};
ghost use Rattle.job_view.specs.ReportJson.{json_text};
ghost use Rattle.step_core.specs.Program.{program_of};
ghost use Rattle.step_core.specs.JobMeaning.{report_of};
ghost use Rattle.worker_pool.specs.Refusals.{IsOfWorkers};
ghost use Rattle.bsp_cli.specs.Drawn.{drawn, is_bare as is_bare_of};
ghost use Rattle.bsp_cli.specs.Ends.{TakesJob, Checks, ChecksAll, Draws, ChecksText, ListsFaults, Writes, Upgrades, IsOfPool, Reports, Runs, ReadCause, WriteCause, end_result};

use crate::fault::RunFault;
use crate::progress::{NoProgress, ObserveEnd, Progress};
use crate::status::{LIMIT_REACHED, TASK_FAULT};
use job_reader::{Code, ReadJobFault, Refusal, read_job, upgrade as upgraded, write_job};
use job_view::{Look, draw_job, json_text_of, picture_of};
use phase_records::{
    CountedRead, CountedWrite, JobStatus, ReadFault, Report, WriteFault, read_all, write_all,
    write_report,
};
use refusal_reasons::listing_of;
use std::alloc::{AllocError, Global};
use std::sync::Wait;
use std::thread::Threads;
use step_core::{run_alone, run_observed};
use task_code::job::Job;
use tier_shape::Shape;
use worker_pool::{AllStart, Gate, OpenGate, Refused, run_within};

/// Reads a job to the reader's end, or returns the first fault.
pub(crate) fn take_job<R: CountedRead>(alloc: Global, reader: &mut R) -> Result<Job, RunFault>
    ensures takes { TakesJob (R.remaining reader.old) result }
    ensures failures { ReadCause (R.failures reader.old) (R.failures reader.new) result }
{
    let text = match read_all(alloc, reader) {
        Ok(text) => text,
        Err(ReadFault::TooLong) => {
            let code = Code::TooLong;
            return Err(RunFault::Text(Refusal { line: 1, code }));
        }
        Err(ReadFault::Read) => return Err(RunFault::Read),
        Err(ReadFault::Memory) => return Err(RunFault::Memory),
    };
    match read_job(alloc, &text) {
        Ok(job) => Ok(job),
        Err(ReadJobFault::Text(refusal)) => Err(RunFault::Text(refusal)),
        Err(ReadJobFault::Memory) => Err(RunFault::Memory),
    }
}

/// Reads a job and writes its canonical text.
pub(crate) fn check<R: CountedRead, W: CountedWrite>(
    alloc: Global,
    reader: &mut R,
    writer: &mut W,
) -> Result<(), RunFault>
    ensures checks { Checks (R.remaining reader.old) (W.contents writer.old) (W.contents writer.new) result }
    ensures read_failures { ReadCause (R.failures reader.old) (R.failures reader.new) result }
    ensures write_failures { WriteCause (W.failures writer.old) (W.failures writer.new) result }
{
    let job = take_job(alloc, reader)?;
    match write_job(alloc, &job, writer) {
        Ok(()) => Ok(()),
        Err(WriteFault::Write) => Err(RunFault::Write),
        Err(WriteFault::Memory) => Err(RunFault::Memory),
    }
}

// Writes the canonical text of a job.
fn write_canonical<W: CountedWrite>(
    alloc: Global,
    job: &Job,
    writer: &mut W,
) -> Result<(), RunFault>
    ensures writes { Writes (canonical_text (job_tree job.now)) (W.contents writer.old) (W.contents writer.new) result }
    ensures write_failures { WriteCause (W.failures writer.old) (W.failures writer.new) result }
{
    match write_job(alloc, job, writer) {
        Ok(()) => Ok(()),
        Err(WriteFault::Write) => Err(RunFault::Write),
        Err(WriteFault::Memory) => Err(RunFault::Memory),
    }
}

// Writes the lines that report a text's faulty lines. Returns the first of them as a fault.
fn write_faults<W: CountedWrite>(
    writer: &mut W,
    lines: &[u8],
    refusal: Refusal,
) -> Result<(), RunFault>
    ensures lists { ListsFaults lines.now refusal (W.contents writer.old) (W.contents writer.new) result }
    ensures write_failures { WriteCause (W.failures writer.old) (W.failures writer.new) result }
{
    match write_all(writer, lines) {
        Ok(()) => Err(RunFault::Text(refusal)),
        Err(_) => Err(RunFault::Write),
    }
}

// Writes the faulty lines of a text that is refused so. Allocates before it writes the first byte.
fn list_faults<W: CountedWrite>(
    alloc: Global,
    text: &[u8],
    refusal: Refusal,
    writer: &mut W,
) -> Result<(), RunFault>
    ensures lists { ListsFaults (listing text.now) refusal (W.contents writer.old) (W.contents writer.new) result }
    ensures write_failures { WriteCause (W.failures writer.old) (W.failures writer.new) result }
{
    match listing_of(alloc, text) {
        Ok(lines) => write_faults(writer, &lines, refusal),
        Err(AllocError) => Err(RunFault::Memory),
    }
}

// Writes the canonical text of a job, or the faulty lines of a text that is refused.
#[tactic(auto, using(crate::proofs::Listings::checks_job, crate::proofs::Listings::checks_refused))]
fn check_text<W: CountedWrite>(alloc: Global, text: &[u8], writer: &mut W) -> Result<(), RunFault>
    ensures checks { ChecksText text.now (W.contents writer.old) (W.contents writer.new) result }
    ensures write_failures { WriteCause (W.failures writer.old) (W.failures writer.new) result }
{
    match read_job(alloc, text) {
        Ok(job) => write_canonical(alloc, &job, writer),
        Err(ReadJobFault::Text(refusal)) => list_faults(alloc, text, refusal, writer),
        Err(ReadJobFault::Memory) => Err(RunFault::Memory),
    }
}

/// Reads a job and writes its canonical text. If it is refused, writes its faulty lines, and returns the first.
#[tactic(auto, using(crate::proofs::Listings::checks_known, crate::proofs::Listings::checks_long, crate::proofs::Listings::checks_unread))]
pub(crate) fn check_all<R: CountedRead, W: CountedWrite>(
    alloc: Global,
    reader: &mut R,
    writer: &mut W,
) -> Result<(), RunFault>
    ensures checks { ChecksAll (R.remaining reader.old) (W.contents writer.old) (W.contents writer.new) result }
    ensures read_failures { ReadCause (R.failures reader.old) (R.failures reader.new) result }
    ensures write_failures { WriteCause (W.failures writer.old) (W.failures writer.new) result }
{
    match read_all(alloc, reader) {
        Ok(text) => check_text(alloc, &text, writer),
        Err(ReadFault::TooLong) => {
            let code = Code::TooLong;
            write_faults(
                writer,
                b"line 1 code 1 TooLong\n",
                Refusal { line: 1, code },
            )
        }
        Err(ReadFault::Read) => Err(RunFault::Read),
        Err(ReadFault::Memory) => Err(RunFault::Memory),
    }
}

/// Reads a job of either format and writes its canonical text in format 2.
pub(crate) fn upgrade<R: CountedRead, W: CountedWrite>(
    alloc: Global,
    reader: &mut R,
    writer: &mut W,
) -> Result<(), RunFault>
    ensures upgrades { Upgrades (R.remaining reader.old) (W.contents writer.old) (W.contents writer.new) result }
    ensures read_failures { ReadCause (R.failures reader.old) (R.failures reader.new) result }
    ensures write_failures { WriteCause (W.failures writer.old) (W.failures writer.new) result }
{
    let job = upgraded(take_job(alloc, reader)?);
    match write_job(alloc, &job, writer) {
        Ok(()) => Ok(()),
        Err(WriteFault::Write) => Err(RunFault::Write),
        Err(WriteFault::Memory) => Err(RunFault::Memory),
    }
}

// Returns the program's status for how a job ended.
fn end_status(status: &JobStatus) -> u8
    ensures { result ≡ status_number (status_seen status.now) }
{
    match status {
        JobStatus::Ended(_) => 0,
        JobStatus::Fault { .. } => TASK_FAULT,
        JobStatus::Limit(_) => LIMIT_REACHED,
    }
}

/// Returns the program's status for how a run ended, or its fault. `progress` gets how it ended.
pub(crate) fn run_status<T: Wait, P: Progress>(
    rt: &T,
    progress: &P,
    ended: Result<JobStatus, RunFault>,
) -> Result<u8, RunFault>
    ensures { result ≡ end_result ended }
{
    let status = ended?;
    let number = end_status(&status);
    progress.set_end(rt, status);
    Ok(number)
}

// Runs a job on `workers` workers at a tree of this shape, with this gate before and after each segment. Returns what the job
// leaves within `limit` supersteps.
fn run_on_workers<T: Threads + Wait + Sync, G: Gate + Sync>(
    rt: &T,
    alloc: Global,
    job: &Job,
    shape: Shape,
    workers: u32,
    limit: u32,
    gate: &G,
) -> Result<Report, Refused>
    requires workers { (1 ≤ workers) × (workers ≤ 64) }
    requires limit { (1 ≤ limit) × (limit ≤ 2147483648) }
    ensures report { IfOk result (λ report. report_of (program_of job.now) limit ≡ Some report) }
    ensures started { IfErr result (IsOfWorkers workers) }
{
    run_within(rt, alloc, job, shape, workers, limit, gate, &AllStart)
}

// Runs a job within this limit on one thread, and reports progress if it is asked for.
fn run_on_one_thread<P: Progress>(
    alloc: Global,
    job: &Job,
    limit: u32,
    progress: Option<&P>,
) -> Result<Report, AllocError>
    requires limit { 1 ≤ limit }
    ensures report { IfOk result (λ report. report_of (program_of job.now) limit ≡ Some report) }
{
    let Some(progress) = progress else {
        return run_alone(alloc, job, limit);
    };
    let mut observer = progress.alone();
    let left = run_observed(alloc, job, limit, &mut observer);
    observer.end();
    left
}

/// Runs a job within this limit of supersteps: a single worker on this thread, several on threads that share it.
pub(crate) fn leave<T: Threads + Wait + Sync, P: Progress + Sync>(
    rt: &T,
    alloc: Global,
    job: &Job,
    shape: Shape,
    workers: u32,
    limit: u32,
    progress: Option<&P>,
) -> Result<Report, Refused>
    requires workers { (1 ≤ workers) × (workers ≤ 64) }
    requires limit { (1 ≤ limit) × (limit ≤ 2147483648) }
    ensures report { IfOk result (λ report. report_of (program_of job.now) limit ≡ Some report) }
    ensures started { IfErr result (IsOfWorkers workers) }
{
    if workers == 1 {
        return run_on_one_thread(alloc, job, limit, progress).map_err(|_| Refused::Memory);
    }
    let Some(progress) = progress else {
        return run_on_workers(rt, alloc, job, shape, workers, limit, &OpenGate);
    };
    let left = run_on_workers(rt, alloc, job, shape, workers, limit, progress);
    progress.end(rt);
    left
}

/// Returns the program's fault for why a run on workers didn't end.
pub(crate) fn fault_of(refused: Refused) -> RunFault
    ensures { (workers : ℕ) → IsOfWorkers workers refused → IsOfPool workers result }
{
    match refused {
        Refused::Memory => RunFault::Memory,
        Refused::NotStarted(k) => RunFault::NotStarted(k),
        // A job has at most 4096 tasks, for which each tier has room.
        Refused::Internal | Refused::Full => RunFault::Internal,
    }
}

// Returns how a job ended, from its report.
fn status_of(report: Report) -> JobStatus
    ensures { status_seen result ≡ report.status }
{
    let Report { status, .. } = report;
    status
}

/// Writes a report. Returns how its job ended.
pub(crate) fn write_end<W: CountedWrite>(
    alloc: Global,
    report: Report,
    writer: &mut W,
) -> Result<JobStatus, RunFault>
    ensures reports { Reports report_text report (W.contents writer.old) (W.contents writer.new) result }
    ensures write_failures { WriteCause (W.failures writer.old) (W.failures writer.new) result }
{
    match write_report(alloc, &report, writer) {
        Ok(()) => Ok(status_of(report)),
        Err(WriteFault::Write) => Err(RunFault::Write),
        Err(WriteFault::Memory) => Err(RunFault::Memory),
    }
}

// Writes a report as JSON. Returns how its job ended. Allocates before it writes the first byte.
fn json_end<W: CountedWrite>(
    alloc: Global,
    report: Report,
    writer: &mut W,
) -> Result<JobStatus, RunFault>
    ensures reports { Reports json_text report (W.contents writer.old) (W.contents writer.new) result }
    ensures write_failures { WriteCause (W.failures writer.old) (W.failures writer.new) result }
{
    let text = match json_text_of(alloc, &report) {
        Ok(text) => text,
        Err(AllocError) => return Err(RunFault::Memory),
    };
    match write_all(writer, &text) {
        Ok(()) => Ok(status_of(report)),
        Err(_) => Err(RunFault::Write),
    }
}

// Returns true if nothing is asked of a picture.
fn is_bare(look: Look<'_>) -> bool
    ensures { result ≡ is_bare_of (look_value look.entry) }
{
    look.title.is_none() && look.widths.is_empty() && look.over_time.is_empty()
}

// Returns the picture of what a job leaves, as it is asked for.
fn picture_by(
    alloc: Global,
    job: &Job,
    limit: u32,
    report: &Report,
    look: Look<'_>,
) -> Result<Vec<u8>, AllocError>
    requires limit { 1 ≤ limit }
    ensures { IfOk result (λ text. text.items ≡ drawn (look_value look.entry) (program_of job.now) limit report.now) }
{
    if is_bare(look) {
        return picture_of(alloc, report);
    }
    draw_job(alloc, job, limit, report, look)
}

// Writes the picture of what a job leaves. Returns how it ended. Allocates before it writes the first byte.
fn draw_end<W: CountedWrite>(
    alloc: Global,
    job: &Job,
    limit: u32,
    report: Report,
    writer: &mut W,
    look: Look<'_>,
) -> Result<JobStatus, RunFault>
    requires limit { 1 ≤ limit }
    ensures reports { Reports (drawn (look_value look.entry) (program_of job.now) limit) report (W.contents writer.old) (W.contents writer.new) result }
    ensures write_failures { WriteCause (W.failures writer.old) (W.failures writer.new) result }
{
    let text = match picture_by(alloc, job, limit, &report, look) {
        Ok(text) => text,
        Err(AllocError) => return Err(RunFault::Memory),
    };
    match write_all(writer, &text) {
        Ok(()) => Ok(status_of(report)),
        Err(_) => Err(RunFault::Write),
    }
}

/// Reads a job to the reader's end, runs it within this limit of supersteps on `workers` threads that meet at a tree of
/// this shape, and writes its report. The output depends only on the input and the limit. `progress` is called for each
/// segment.
///
/// ```
/// let text = b"bsp 1\narray a 1\nbody b\nput a[0] = 7\nend\nstart b 0\n";
/// let mut printed = Vec::new(rt.alloc());
/// let shape = Shape::from_widths(rt.alloc(), "2").expect(&rt, "a shape");
/// // Four workers, at most 1000 supersteps, and no progress is reported.
/// let (mut reader, mut writer) = (Reader::new(text.as_slice()), Writer::new(&mut printed));
/// let status = run_bytes(
///     &rt,
///     rt.alloc(),
///     &mut reader,
///     &mut writer,
///     shape,
///     4,
///     1000,
///     None::<&NoProgress>,
/// );
/// assert!(rt; matches!(status, Ok(JobStatus::Ended(1))));
/// let want = b"phase 0 parties 1 left 1 spawned 0\narray a 7\nended 1\n";
/// assert!(rt; printed.as_slice() == want.as_slice());
/// ```
pub fn run_bytes<T: Threads + Wait + Sync, R: CountedRead, W: CountedWrite, P: Progress + Sync>(
    rt: &T,
    alloc: Global,
    reader: &mut R,
    writer: &mut W,
    shape: Shape,
    workers: u32,
    limit: u32,
    progress: Option<&P>,
) -> Result<JobStatus, RunFault>
    requires workers { (1 ≤ workers) × (workers ≤ 64) }
    requires limit { (1 ≤ limit) × (limit ≤ 2147483648) }
    ensures runs { Runs report_text workers limit (R.remaining reader.old) (W.contents writer.old) (W.contents writer.new) result }
    ensures read_failures { ReadCause (R.failures reader.old) (R.failures reader.new) result }
    ensures write_failures { WriteCause (W.failures writer.old) (W.failures writer.new) result }
{
    let job = take_job(alloc, reader)?;
    match leave(rt, alloc, &job, shape, workers, limit, progress) {
        Ok(report) => write_end(alloc, report, writer),
        Err(refused) => Err(fault_of(refused)),
    }
}

/// Reads a job to the reader's end, runs it as [`run_bytes`] does, and writes its report as one JSON object and a line feed.
pub fn run_json_bytes<
    T: Threads + Wait + Sync,
    R: CountedRead,
    W: CountedWrite,
    P: Progress + Sync,
>(
    rt: &T,
    alloc: Global,
    reader: &mut R,
    writer: &mut W,
    shape: Shape,
    workers: u32,
    limit: u32,
    progress: Option<&P>,
) -> Result<JobStatus, RunFault>
    requires workers { (1 ≤ workers) × (workers ≤ 64) }
    requires limit { (1 ≤ limit) × (limit ≤ 2147483648) }
    ensures runs { Runs json_text workers limit (R.remaining reader.old) (W.contents writer.old) (W.contents writer.new) result }
    ensures read_failures { ReadCause (R.failures reader.old) (R.failures reader.new) result }
    ensures write_failures { WriteCause (W.failures writer.old) (W.failures writer.new) result }
{
    let job = take_job(alloc, reader)?;
    match leave(rt, alloc, &job, shape, workers, limit, progress) {
        Ok(report) => json_end(alloc, report, writer),
        Err(refused) => Err(fault_of(refused)),
    }
}

/// Reads a job to the reader's end, runs it as [`run_bytes`] does, and writes the picture of its report, an SVG file, as it
/// is asked for.
pub fn draw_bytes<T: Threads + Wait + Sync, R: CountedRead, W: CountedWrite>(
    rt: &T,
    alloc: Global,
    reader: &mut R,
    writer: &mut W,
    shape: Shape,
    workers: u32,
    limit: u32,
    look: Look<'_>,
) -> Result<JobStatus, RunFault>
    requires workers { (1 ≤ workers) × (workers ≤ 64) }
    requires limit { (1 ≤ limit) × (limit ≤ 2147483648) }
    ensures draws { Draws (look_value look.entry) workers limit (R.remaining reader.old) (W.contents writer.old) (W.contents writer.new) result }
    ensures read_failures { ReadCause (R.failures reader.old) (R.failures reader.new) result }
    ensures write_failures { WriteCause (W.failures writer.old) (W.failures writer.new) result }
{
    let job = take_job(alloc, reader)?;
    match leave(rt, alloc, &job, shape, workers, limit, None::<&NoProgress>) {
        Ok(report) => draw_end(alloc, &job, limit, report, writer, look),
        Err(refused) => Err(fault_of(refused)),
    }
}
