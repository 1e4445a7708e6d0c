//! The subcommand `run` with `--stream`: a job whose report is written superstep by superstep.
ghost use Rattle.std.specs.Prelude.{◌≡◌, ◌≤◌, ℕ, List, Option, Err};
ghost use Rattle.step_core.specs.Program.{Program, program_of};
ghost use Rattle.job_stream.specs.Streamed.{Streams, StreamCause};
ghost use Rattle.stream_workers.specs.Written.{CauseOn, StreamsOn};
ghost use Rattle.phase_records.specs.declared.record.JobStatus.{JobStatus as Ending};
ghost use Rattle.bsp_cli.specs.Ends.{ReadCause, RunsStream, StreamsJob, WriteCause};

use crate::fault::RunFault;
use crate::job::take_job;
use crate::progress::Progress;
use job_stream::{StreamFault, stream_alone};
use phase_records::{CountedRead, CountedWrite, JobStatus};
use std::alloc::Global;
use std::sync::Wait;
use std::thread::Threads;
use stream_workers::{WorkersStreamFault, stream_within};
use task_code::job::Job;
use tier_shape::Shape;
use worker_pool::{AllStart, Gate, OpenGate};

// Returns the program's fault for why a run on one thread didn't end.
fn fault_alone(fault: StreamFault) -> RunFault
    ensures streams { (workers limit : ℕ) (p : Program) (old new : Option (List ℕ)) → Streams p limit old new (Err fault) → StreamsJob workers p limit old new (Err result) }
    ensures cause { (old new : ℕ) → StreamCause {T = Ending} old new (Err fault) → WriteCause {T = Ending} old new (Err result) }
{
    match fault {
        StreamFault::Write => RunFault::Write,
        StreamFault::Memory => RunFault::Memory,
        StreamFault::Internal => RunFault::Internal,
    }
}

// Runs a job on this thread, and writes the lines of each superstep as soon as it is closed.
fn stream_here<W: CountedWrite>(
    alloc: Global,
    job: &Job,
    limit: u32,
    writer: &mut W,
) -> Result<JobStatus, RunFault>
    requires limit { 1 ≤ limit }
    ensures streams { (workers : ℕ) → StreamsJob workers (program_of job.now) limit (W.contents writer.old) (W.contents writer.new) result }
    ensures failures { WriteCause (W.failures writer.old) (W.failures writer.new) result }
{
    match stream_alone(alloc, job, limit, writer) {
        Ok(status) => Ok(status),
        Err(fault) => Err(fault_alone(fault)),
    }
}

// Returns the program's fault for why a run on workers didn't end.
fn fault_shared(unstreamed: WorkersStreamFault) -> RunFault
    ensures streams { (workers limit : ℕ) (p : Program) (old new : Option (List ℕ)) → StreamsOn workers p limit old new (Err unstreamed)
        → StreamsJob workers p limit old new (Err result) }
    ensures cause { (old new : ℕ) → CauseOn old new (Err unstreamed) → WriteCause {T = Ending} old new (Err result) }
{
    match unstreamed {
        WorkersStreamFault::Fault(fault) => fault_alone(fault),
        WorkersStreamFault::NotStarted(k) => RunFault::NotStarted(k),
    }
}

// Runs a job on workers with this gate before and after each segment, and writes the lines of each superstep as the next one
// begins.
fn stream_shared<T: Threads + Wait + Sync, W: CountedWrite + Send, G: Gate + Sync>(
    rt: &T,
    alloc: Global,
    job: &Job,
    shape: Shape,
    workers: u32,
    limit: u32,
    gate: &G,
    writer: &mut W,
) -> Result<JobStatus, RunFault>
    requires workers { (1 ≤ workers) × (workers ≤ 64) }
    requires limit { (1 ≤ limit) × (limit ≤ 2147483648) }
    ensures streams { StreamsJob workers (program_of job.now) limit (W.contents writer.old) (W.contents writer.new) result }
    ensures failures { WriteCause (W.failures writer.old) (W.failures writer.new) result }
{
    match stream_within(
        rt, alloc, job, shape, workers, limit, gate, &AllStart, writer,
    ) {
        Ok(status) => Ok(status),
        Err(unstreamed) => Err(fault_shared(unstreamed)),
    }
}

// Runs a job, and writes its report superstep by superstep: a single worker on this thread, unless progress is asked for.
fn stream_job<T: Threads + Wait + Sync, W: CountedWrite + Send, P: Progress + Sync>(
    rt: &T,
    alloc: Global,
    job: &Job,
    shape: Shape,
    workers: u32,
    limit: u32,
    progress: Option<&P>,
    writer: &mut W,
) -> Result<JobStatus, RunFault>
    requires workers { (1 ≤ workers) × (workers ≤ 64) }
    requires limit { (1 ≤ limit) × (limit ≤ 2147483648) }
    ensures streams { StreamsJob workers (program_of job.now) limit (W.contents writer.old) (W.contents writer.new) result }
    ensures failures { WriteCause (W.failures writer.old) (W.failures writer.new) result }
{
    if let Some(progress) = progress {
        let ended = stream_shared(rt, alloc, job, shape, workers, limit, progress, writer);
        progress.end(rt);
        return ended;
    }
    if workers == 1 {
        return stream_here(alloc, job, limit, writer);
    }
    stream_shared(rt, alloc, job, shape, workers, limit, &OpenGate, writer)
}

/// Reads a job to the reader's end, runs it within this limit of supersteps on `workers` threads that meet at a tree of this
/// shape, and writes its report: the lines of each superstep as soon as it has ended, then the arrays and the last line. The
/// bytes are those that [`run_bytes`](crate::run_bytes) writes. `progress` is called for each segment.
pub fn stream_bytes<
    T: Threads + Wait + Sync,
    R: CountedRead,
    W: CountedWrite + Send,
    P: Progress + Sync,
>(
    rt: &T,
    alloc: Global,
    reader: &mut R,
    writer: &mut W,
    shape: Shape,
    workers: u32,
    limit: u32,
    progress: Option<&P>,
) -> Result<JobStatus, RunFault>
    requires workers { (1 ≤ workers) × (workers ≤ 64) }
    requires limit { (1 ≤ limit) × (limit ≤ 2147483648) }
    ensures streams { RunsStream workers limit (R.remaining reader.old) (W.contents writer.old) (W.contents writer.new) result }
    ensures read_failures { ReadCause (R.failures reader.old) (R.failures reader.new) result }
    ensures write_failures { WriteCause (W.failures writer.old) (W.failures writer.new) result }
{
    let job = take_job(alloc, reader)?;
    stream_job(rt, alloc, &job, shape, workers, limit, progress, writer)
}
