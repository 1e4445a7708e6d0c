//! A run of a job on worker threads.
ghost use Rattle.std.specs.Prelude.{◌≡◌, ◌≤◌, ℕ, List, [], Option, IfOk, IfErr, length, map};
ghost use Rattle.std.specs.Io.KnownBytes.{Appends};
ghost use Rattle.advance_rule.specs.Stored.{Answers};
ghost use Rattle.advance_rule.specs.Plan.{end_ends_at};
ghost use Rattle.programs.specs.Meaning.{children};
ghost use Rattle.step_core.specs.Program.{program_of};
ghost use Rattle.stretch_queue.specs.Hooked.{AreNext};
ghost use Rattle.program_stretches.specs.Closing.{HasLeft};
ghost use Rattle.job_stream.specs.Running.{IsRunOf, job_reading};
ghost use Rattle.job_stream.specs.Streamed.{lines_of};
ghost use Rattle.worker_pool.specs.JobPlan.{IsJobPlan};
ghost use Rattle.stretch_queue.specs.Refusals.{IsOfWorkers};
ghost use Rattle.stream_workers.specs.Written.{StreamsOn, CauseOn};

use crate::fault::{WorkersStreamFault, workers_stream_fault};
use crate::lines::Streamed;
use crate::outlet::{Lent, Outlet};
use crate::streaming::Streaming;
use advance_rule::{EndPlan, StoredAdvance};
use ghost_lists::log::{Log, Snapshot};
use job_stream::{StreamFault, write_left};
use phase_records::{CountedWrite, JobStatus};
use program_stretches::{Left, Stretches, SuperstepStart};
use std::alloc::Global;
use std::marker::Brand;
use std::sync::{Mutex, Wait};
use std::thread::Threads;
use step_core::{Beginning, JobProgram, MOST_TASKS, begin};
use task_code::job::Job;
use task_lang::task::Task;
use tier_shape::Shape;
use worker_pool::{Gate, Refused, Starter, run_stretches, stretches_wanted};

// How a run is set up: the tree at which workers meet, how many they are, when the tree ends, and the hooks.
#[derive(Drop)]
struct Setup<'a, F: Fn(u32, u32) -> bool + Drop, G: Gate, S: Starter> {
    shape: Shape,
    workers: u32,
    advance: StoredAdvance<F>,
    gate: &'a G,
    starter: &'a S,
}

/// Runs `job` on `workers` threads that synchronize at a tree of phasers of this `shape`, for at most `limit` supersteps, and
/// writes the text of its report: the lines of each superstep as the next one begins, then the arrays and the last line. Returns
/// how the job ended (own). The bytes are those that [`stream_alone`](job_stream::stream_alone) writes. `gate` is called before
/// and after each segment, and `starter` before each worker is started. Pass `&OpenGate` and `&AllStart` for none.
///
/// Returns after joining all workers that were started. Termination is not part of the contract.
pub fn stream_within<R: Threads + Wait + Sync, W: CountedWrite + Send, G: Gate + Sync, S: Starter>(
    rt: &R,
    alloc: Global,
    job: &Job,
    shape: Shape,
    workers: u32,
    limit: u32,
    gate: &G,
    starter: &S,
    writer: &mut W,
) -> Result<JobStatus, WorkersStreamFault>
    requires workers { (1 ≤ workers) × (workers ≤ 64) }
    requires limit { (1 ≤ limit) × (limit ≤ 2147483648) }
    ensures streams { StreamsOn workers (program_of job.now) limit (W.contents writer.old) (W.contents writer.new) result }
    ensures failures { CauseOn (W.failures writer.old) (W.failures writer.new) result }
{
    let last = limit - 1;
    let plan = EndPlan::at_phase(last);
    let advance = StoredAdvance::new(|phase: u32, count: u32| count == 0 || phase == last, plan);
    let setup = Setup {
        shape,
        workers,
        advance,
        gate,
        starter,
    };
    stream_job(rt, alloc, job, limit, setup, writer)
}

// Begins a run, and runs it.
fn stream_job<
    R: Threads + Wait + Sync,
    W: CountedWrite + Send,
    F: Fn(u32, u32) -> bool + Sync + Drop,
    G: Gate + Sync,
    S: Starter,
>(
    rt: &R,
    alloc: Global,
    job: &Job,
    limit: u32,
    setup: Setup<'_, F, G, S>,
    writer: &mut W,
) -> Result<JobStatus, WorkersStreamFault>
    requires workers { (1 ≤ setup.workers) × (setup.workers ≤ 64) }
    requires plan { IsJobPlan setup.advance.plan }
    requires rule { Answers (F.pre setup.advance.closure) (F.post setup.advance.closure) (end_ends_at setup.advance.plan) }
    ensures streams { StreamsOn setup.entry.workers (program_of job.now) limit (W.contents writer.old) (W.contents writer.new) result }
    ensures failures { CauseOn (W.failures writer.old) (W.failures writer.new) result }
{
    let Ok(Beginning { arrays, tasks }) = begin(alloc, job) else {
        return Err(WorkersStreamFault::Fault(StreamFault::Memory));
    };
    let program = JobProgram { job };
    let Ok((log, start)) = Log::new(alloc) else {
        return Err(WorkersStreamFault::Fault(StreamFault::Memory));
    };
    let pieces = stretches_wanted(setup.gate, setup.workers);
    match Stretches::new(
        alloc, &log, start, &program, arrays, tasks, MOST_TASKS, limit, pieces,
    ) {
        Ok(stretches) => stream_begun(rt, alloc, &log, stretches, job, limit, setup, writer),
        Err(_) => Err(WorkersStreamFault::Fault(StreamFault::Memory)),
    }
}

// Runs the stretches of a run that has begun, and writes what they leave.
fn stream_begun<
    't,
    'p,
    'j,
    R: Threads + Wait + Sync,
    W: CountedWrite + Send,
    F: Fn(u32, u32) -> bool + Sync + Drop,
    G: Gate + Sync,
    S: Starter,
>(
    rt: &R,
    alloc: Global,
    log: &'t Log<SuperstepStart<'p, JobProgram<'j>, Task>>,
    stretches: Stretches<'t, 'p, JobProgram<'j>>,
    job: &Job,
    limit: u32,
    setup: Setup<'_, F, G, S>,
    writer: &mut W,
) -> Result<JobStatus, WorkersStreamFault>
    requires log { stretches.name ≡ log.now }
    requires run { IsRunOf job.now limit stretches.log }
    requires next { AreNext stretches }
    requires workers { (1 ≤ setup.workers) × (setup.workers ≤ 64) }
    requires plan { IsJobPlan setup.advance.plan }
    requires rule { Answers (F.pre setup.advance.closure) (F.post setup.advance.closure) (end_ends_at setup.advance.plan) }
    ensures streams { StreamsOn setup.entry.workers (program_of job.now) limit (W.contents writer.old) (W.contents writer.new) result }
    ensures failures { CauseOn (W.failures writer.old) (W.failures writer.new) result }
{
    let mut ended = Err(WorkersStreamFault::Fault(StreamFault::Internal));
    let _lent = stream_lent::<R, W, F, G, S, Brand>(
        rt,
        alloc,
        log,
        stretches,
        job,
        limit,
        setup,
        Lent { writer },
        &mut ended,
    );
    ended
}

// Does the same with a writer that is handed back. Sets how the run ended.
fn stream_lent<
    'w,
    't,
    'p,
    'j,
    R: Threads + Wait + Sync,
    W: CountedWrite + Send,
    F: Fn(u32, u32) -> bool + Sync + Drop,
    G: Gate + Sync,
    S: Starter,
    J: Streaming + Send + Sync,
>(
    rt: &R,
    alloc: Global,
    log: &'t Log<SuperstepStart<'p, JobProgram<'j>, Task>>,
    mut stretches: Stretches<'t, 'p, JobProgram<'j>>,
    job: &'w Job,
    limit: u32,
    setup: Setup<'_, F, G, S>,
    lent: Lent<'w, W>,
    ended: &mut Result<JobStatus, WorkersStreamFault>,
) -> Lent<'w, W>
    requires log { stretches.name ≡ log.now }
    requires run { IsRunOf job.now limit stretches.log }
    requires next { AreNext stretches }
    requires workers { (1 ≤ setup.workers) × (setup.workers ≤ 64) }
    requires plan { IsJobPlan setup.advance.plan }
    requires rule { Answers (F.pre setup.advance.closure) (F.post setup.advance.closure) (end_ends_at setup.advance.plan) }
    requires job { job.now ≡ J.job }
    requires limit { limit ≡ J.limit }
    requires writer { lent.writer.ghost_name ≡ J.writer }
    requires held { W.contents lent.writer.now ≡ J.held }
    requires failures { W.failures lent.writer.now ≡ J.failures }
    ensures writer { result.writer.ghost_name ≡ J.writer }
    ensures streams { StreamsOn setup.entry.workers (program_of job.now) limit J.held (W.contents result.writer.now) ended.new }
    ensures failures { CauseOn J.failures (W.failures result.writer.now) ended.new }
{
    let first = stretches.snapshot();
    let Setup {
        shape,
        workers,
        advance,
        gate,
        starter,
    } = setup;
    let outlet = Mutex::new(Outlet::<'w, W, J>::new(lent, job, limit));
    let hook = Streamed {
        rt,
        outlet: &outlet,
    };
    let left = run_stretches(
        rt, alloc, stretches, hook, false, shape, workers, advance, gate, starter,
    );
    conclude(alloc, log, outlet.into_inner(), left, first, workers, ended)
}

// Writes what a run left that workers have ended, and hands the writer back. Sets how the run ended.
fn conclude<'w, 't, 'p, 'j, W: CountedWrite, J: Streaming>(
    alloc: Global,
    log: &'t Log<SuperstepStart<'p, JobProgram<'j>, Task>>,
    outlet: Outlet<'w, W, J>,
    left: Result<Left<'p, JobProgram<'j>>, Refused>,
    first: Snapshot<SuperstepStart<'p, JobProgram<'j>, Task>>,
    workers: u32,
    ended: &mut Result<JobStatus, WorkersStreamFault>,
) -> Lent<'w, W>
    requires name { first.name ≡ log.now }
    requires run { IsRunOf J.job J.limit first.log }
    requires log { IfOk left (λ l. l.writer.name ≡ log.now) }
    requires left { IfOk left (λ l. HasLeft job_reading l.writer.log l.given l.ran.report l.ran.tasks.items) }
    requires refused { IfErr left (IsOfWorkers workers) }
    ensures writer { result.writer.ghost_name ≡ J.writer }
    ensures streams { StreamsOn workers (program_of J.job) J.limit J.held (W.contents result.writer.now) ended.new }
    ensures failures { CauseOn J.failures (W.failures result.writer.now) ended.new }
{
    let Outlet {
        writer,
        job,
        limit,
        written,
        fault,
        ..
    } = outlet;
    if let Some(fault) = fault {
        first.give_up();
        *ended = Err(WorkersStreamFault::Fault(fault));
        return Lent { writer };
    }
    *ended = end_run(
        alloc, log, left, first, job, limit, written, workers, writer,
    );
    Lent { writer }
}

// Writes what a run left after the lines of `written` supersteps, or says why it left nothing.
fn end_run<'t, 'p, 'j, W: CountedWrite>(
    alloc: Global,
    log: &'t Log<SuperstepStart<'p, JobProgram<'j>, Task>>,
    left: Result<Left<'p, JobProgram<'j>>, Refused>,
    first: Snapshot<SuperstepStart<'p, JobProgram<'j>, Task>>,
    job: &Job,
    limit: u32,
    written: u32,
    workers: u32,
    writer: &mut W,
) -> Result<JobStatus, WorkersStreamFault>
    requires name { first.name ≡ log.now }
    requires run { IsRunOf job.now limit first.log }
    requires log { IfOk left (λ l. l.writer.name ≡ log.now) }
    requires left { IfOk left (λ l. HasLeft job_reading l.writer.log l.given l.ran.report l.ran.tasks.items) }
    requires refused { IfErr left (IsOfWorkers workers) }
    ensures streams { (held : Option (List ℕ)) → Appends held (W.contents writer.old) (lines_of (program_of job.now) limit written)
        → StreamsOn workers (program_of job.now) limit held (W.contents writer.new) result }
    ensures failures { CauseOn (W.failures writer.old) (W.failures writer.new) result }
{
    match left {
        Ok(left) => match write_left(alloc, log, left, first, job, limit, written, writer) {
            Ok(status) => Ok(status),
            Err(fault) => Err(WorkersStreamFault::Fault(fault)),
        },
        Err(refused) => {
            first.give_up();
            Err(workers_stream_fault(refused, written))
        }
    }
}
