//! A run of a job on one thread.
ghost use Rattle.std.specs.Prelude.{◌≡◌, ◌≤◌, ◌<◌, ◌+◌, true, is_some, IfOk, IfErr};
ghost use Rattle.job_stream.specs.Streamed.{Streams, Continues, Ends, Closes, IsRest, IsNoWrite, StreamCause};
ghost use Rattle.job_stream.specs.Running.{IsRunOf, IsWritten, job_reading};
ghost use Rattle.programs.specs.Supersteps.{status as status_in};
ghost use Rattle.step_core.specs.JobMeaning.{so_far};
ghost use Rattle.phase_records.specs.StatusSeen.{status_seen};
ghost use Rattle.program_stretches.specs.Closing.{HasLeft};
ghost use Rattle.step_core.specs.Program.{program_of};

use crate::fault::StreamFault;
use crate::text::{write_lines, write_rest};
use ghost_lists::log::{Log, Snapshot};
use phase_records::{CountedWrite, JobStatus, Report};
use program_stretches::{Left, Lines, SuperstepStart};
use programs::alone::Ran;
use std::alloc::{AllocError, Global};
use step_core::{JobProgram, JobSteps};
use task_code::job::Job;
use task_lang::task::Task;

/// Runs `job` on one thread for at most `limit` supersteps and writes the text of its report: the lines of each superstep as soon
/// as it is closed, then the arrays and the last line. Returns how the job ended.
pub fn stream_alone<W: CountedWrite>(
    alloc: Global,
    job: &Job,
    limit: u32,
    writer: &mut W,
) -> Result<JobStatus, StreamFault>
    requires { 1 ≤ limit }
    ensures streams { Streams (program_of job.now) limit (W.contents writer.old) (W.contents writer.new) result }
    ensures failures { StreamCause (W.failures writer.old) (W.failures writer.new) result }
{
    let run = JobSteps::new(alloc, job, limit)?;
    stream_on(alloc, run, job, limit, writer)
}

// Takes the supersteps of a run that has begun, and writes what it leaves.
fn stream_on<W: CountedWrite>(
    alloc: Global,
    mut run: JobSteps<'_>,
    job: &Job,
    limit: u32,
    writer: &mut W,
) -> Result<JobStatus, StreamFault>
    requires run { IsWritten job.now limit 0 run }
    ensures streams { Streams (program_of job.now) limit (W.contents writer.old) (W.contents writer.new) result }
    ensures failures { StreamCause (W.failures writer.old) (W.failures writer.new) result }
{
    for written in 0..limit {
        if run.status().is_some() {
            return finish(alloc, run, job, limit, written, writer);
        }
        match advance(alloc, &mut run, job, limit, written, writer) {
            Ok(_) => {}
            Err(fault) => return Err(fault),
        }
    }
    finish(alloc, run, job, limit, limit, writer)
}

// Takes a superstep, and writes its lines after those of `written` others. Returns how many are written now.
fn advance<W: CountedWrite>(
    alloc: Global,
    run: &mut JobSteps<'_>,
    job: &Job,
    limit: u32,
    written: u32,
    writer: &mut W,
) -> Result<u32, StreamFault>
    requires run { IsWritten job.now limit written run.old }
    requires below { written < limit }
    ensures run { IfOk result (λ next. (next ≡ written + 1) × IsWritten job.now limit next run.new) }
    ensures text { Continues (program_of job.now) limit written (W.contents writer.old) (W.contents writer.new) result }
    ensures failures { StreamCause (W.failures writer.old) (W.failures writer.new) result }
{
    if run.step(alloc).is_err() {
        return Err(StreamFault::Memory);
    }
    let lines = Lines {
        first: written,
        next: written + 1,
        prints: run.take_prints(),
        records: run.take_records(),
    };
    match write_lines(alloc, lines, writer) {
        Ok(()) => Ok(written + 1),
        Err(fault) => Err(fault),
    }
}

// Writes what a run leaves that has ended, after the lines of `written` supersteps. Returns how it ended.
fn finish<W: CountedWrite>(
    alloc: Global,
    run: JobSteps<'_>,
    job: &Job,
    limit: u32,
    written: u32,
    writer: &mut W,
) -> Result<JobStatus, StreamFault>
    requires run { IsWritten job.now limit written run }
    requires ended { is_some (status_in limit (so_far (program_of job.now) limit written)) ≡ true }
    ensures text { Ends (program_of job.now) limit written (W.contents writer.old) (W.contents writer.new) result }
    ensures failures { StreamCause (W.failures writer.old) (W.failures writer.new) result }
{
    match run.into_report() {
        Some(Ran { report, tasks: _ }) => close_report(alloc, report, writer),
        None => unreachable!(),
    }
}

// Returns what a run left, if it gave away the lines of `written` supersteps.
fn rest_of<'t, 'p, 'j>(
    log: &'t Log<SuperstepStart<'p, JobProgram<'j>, Task>>,
    left: Left<'p, JobProgram<'j>>,
    first: Snapshot<SuperstepStart<'p, JobProgram<'j>, Task>>,
    job: &Job,
    limit: u32,
    written: u32,
) -> Result<Report, StreamFault>
    requires log { left.writer.name ≡ log.now }
    requires left { HasLeft job_reading left.writer.log left.given left.ran.report left.ran.tasks.items }
    requires name { first.name ≡ log.now }
    requires run { IsRunOf job.now limit first.log }
    ensures report { IfOk result (λ report. IsRest (program_of job.now) limit written report) }
    ensures whole { IfErr result IsNoWrite }
{
    let Left {
        ran,
        given,
        mut writer,
    } = left;
    writer.compare(log, first);
    writer.give_up();
    let Ran { report, tasks: _ } = ran;
    if given == written {
        Ok(report)
    } else {
        Err(StreamFault::Internal)
    }
}

// Writes what of a report isn't written yet. Returns how the run ended.
fn close_report<W: CountedWrite>(
    alloc: Global,
    report: Report,
    writer: &mut W,
) -> Result<JobStatus, StreamFault>
    ensures text { Closes report (W.contents writer.old) (W.contents writer.new) result }
    ensures failures { StreamCause (W.failures writer.old) (W.failures writer.new) result }
{
    match write_rest(alloc, &report, writer) {
        Ok(()) => Ok(status_of(report)),
        Err(fault) => Err(fault),
    }
}

// Returns how a run ended, from its report.
fn status_of(report: Report) -> JobStatus
    ensures { status_seen result ≡ report.status }
{
    let Report { status, .. } = report;
    status
}

/// Writes the rest of a report after the lines of the first `written` supersteps. Fails with `Internal` unless the run gave away
/// exactly these. Returns how the run ended. `first` is a snapshot of the run's log.
pub fn write_left<'t, 'p, 'j, W: CountedWrite>(
    alloc: Global,
    log: &'t Log<SuperstepStart<'p, JobProgram<'j>, Task>>,
    left: Left<'p, JobProgram<'j>>,
    first: Snapshot<SuperstepStart<'p, JobProgram<'j>, Task>>,
    job: &Job,
    limit: u32,
    written: u32,
    writer: &mut W,
) -> Result<JobStatus, StreamFault>
    requires log { left.writer.name ≡ log.now }
    requires left { HasLeft job_reading left.writer.log left.given left.ran.report left.ran.tasks.items }
    requires name { first.name ≡ log.now }
    requires run { IsRunOf job.now limit first.log }
    ensures text { Ends (program_of job.now) limit written (W.contents writer.old) (W.contents writer.new) result }
    ensures failures { StreamCause (W.failures writer.old) (W.failures writer.new) result }
{
    match rest_of(log, left, first, job, limit, written) {
        Ok(report) => close_report(alloc, report, writer),
        Err(fault) => Err(fault),
    }
}
