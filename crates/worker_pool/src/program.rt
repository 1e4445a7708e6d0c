//! Runs of programs on worker threads.
ghost use Rattle.std.specs.Prelude.{◌≡◌, ◌≤◌, ◌<◌, ◌^◌, ◌∷◌, [], IfOk, IfErr, length, map};
ghost use Rattle.advance_rule.specs.Stored.{Answers};
ghost use Rattle.advance_rule.specs.Plan.{end_ends_at};
ghost use Rattle.program_stretches.specs.SuperstepStart.{SuperstepStartValue, setup_of};
ghost use Rattle.program_stretches.specs.Parts.{AreFresh, reading_of, tasks_in};
ghost use Rattle.programs.specs.Meaning.{children};
ghost use Rattle.programs.specs.History.{HasRun, HasRunTo};
ghost use Rattle.worker_pool.specs.JobPlan.{limit_of, IsJobPlan};
ghost use Rattle.stretch_queue.specs.Refusals.{IsOfWorkers};
ghost use Rattle.stretch_queue.specs.Watched.{IsOpened};

use crate::run::{limit_in, run_stretches, stretches_wanted};
use advance_rule::StoredAdvance;
use ghost_lists::log::Log;
use program_stretches::{Left, Stretches, SuperstepStart};
use programs::alone::Ran;
use programs::program::TaskLoop;
use programs::watch::{NoWatch, Watch};
use std::alloc::Global;
use std::sync::Wait;
use std::thread::Threads;
use stretch_queue::fault::Refused;
use stretch_queue::hooks::{Gate, Starter};
use stretch_queue::watched::{Watched, halts};
use superstep_memory::arrays::Arrays;
use tier_shape::Shape;

/// Runs `program` from these arrays and tasks on `workers` threads that synchronize at a tree of phasers of the given `shape`.
/// The result is one that a single thread may produce: each superstep's tasks in path order, each on the arrays as they were when
/// the superstep began. At most `most` tasks may live at once.
///
/// The limit of supersteps is that of `advance`'s plan: its last phase, plus one. The closure of `advance` is called once a
/// superstep, after the last arrival, with the phase and the number of parties at the root. `gate` is called before and after
/// each segment, and `starter` before each worker is started. A task is a party of a tier, so over 65535 live tasks may find no
/// room: the run then fails with `Full`.
///
/// Returns after joining all workers that were started. Termination is not part of the contract.
pub fn run_program<
    P: TaskLoop + Sync,
    R: Threads + Wait + Sync,
    F: Fn(u32, u32) -> bool + Sync + Drop,
    G: Gate + Sync,
    S: Starter,
>(
    rt: &R,
    alloc: Global,
    program: &P,
    arrays: Arrays,
    tasks: Vec<P::Task>,
    most: u32,
    shape: Shape,
    workers: u32,
    advance: StoredAdvance<F>,
    gate: &G,
    starter: &S,
) -> Result<Ran<P::Task>, Refused>
where
    P::Task: Send,
    requires ready { P.ready program.now }
    requires most { most < 2 ^ 31 }
    requires few { length tasks.items ≤ most }
    requires paths { map P.Task.path_of tasks.items ≡ children [] 0 (length tasks.items) }
    requires workers { (1 ≤ workers) × (workers ≤ 64) }
    requires plan { IsJobPlan advance.plan }
    requires rule { Answers (F.pre advance.closure) (F.post advance.closure) (end_ends_at advance.plan) }
    ensures ran { IfOk result (λ ran. let p = program.now in
        HasRun
        (record { frame = P.frame p; may = P.may p; most = most; arrays = arrays; tasks = map (P.meant p) tasks.items; limit = limit_of advance.plan })
        ran.report (map (P.meant p) ran.tasks.items)) }
    ensures started { IfErr result (IsOfWorkers workers) }
{
    let ran = run_program_watched(
        rt,
        alloc,
        program,
        arrays,
        tasks,
        most,
        shape,
        workers,
        advance,
        gate,
        starter,
        &mut NoWatch,
    )?;
    Ok(ran)
}

/// Runs `program` as [`run_program`] does. `watch` is called before each superstep and can stop the run there, as a limit does. At
/// most one thread calls it at a time, and no segment runs meanwhile.
pub fn run_program_watched<
    P: TaskLoop + Sync,
    R: Threads + Wait + Sync,
    F: Fn(u32, u32) -> bool + Sync + Drop,
    G: Gate + Sync,
    S: Starter,
    W: Watch + Send,
>(
    rt: &R,
    alloc: Global,
    program: &P,
    arrays: Arrays,
    tasks: Vec<P::Task>,
    most: u32,
    shape: Shape,
    workers: u32,
    advance: StoredAdvance<F>,
    gate: &G,
    starter: &S,
    watch: &mut W,
) -> Result<Ran<P::Task>, Refused>
where
    P::Task: Send,
    requires ready { P.ready program.now }
    requires most { most < 2 ^ 31 }
    requires few { length tasks.items ≤ most }
    requires paths { map P.Task.path_of tasks.items ≡ children [] 0 (length tasks.items) }
    requires workers { (1 ≤ workers) × (workers ≤ 64) }
    requires plan { IsJobPlan advance.plan }
    requires rule { Answers (F.pre advance.closure) (F.post advance.closure) (end_ends_at advance.plan) }
    ensures ran { IfOk result (λ ran. let p = program.now in
        HasRunTo W.stops W.goes
        (record { frame = P.frame p; may = P.may p; most = most; arrays = arrays; tasks = map (P.meant p) tasks.items; limit = limit_of advance.plan })
        ran.report (map (P.meant p) ran.tasks.items)) }
    ensures started { IfErr result (IsOfWorkers workers) }
{
    let Ok((log, start)) = Log::new(alloc) else {
        return Err(Refused::Memory);
    };
    let limit = limit_in(advance.plan());
    let pieces = stretches_wanted(gate, workers);
    match Stretches::new(
        alloc, &log, start, program, arrays, tasks, most, limit, pieces,
    ) {
        Ok(stretches) => run_watched(
            rt, alloc, &log, stretches, shape, workers, advance, gate, starter, watch,
        ),
        Err(_) => Err(Refused::Memory),
    }
}

// Runs these stretches, whose log has the one start of the first superstep, with a watcher.
fn run_watched<
    't,
    'p,
    P: TaskLoop + Sync,
    R: Threads + Wait + Sync,
    F: Fn(u32, u32) -> bool + Sync + Drop,
    G: Gate + Sync,
    S: Starter,
    W: Watch + Send,
>(
    rt: &R,
    alloc: Global,
    log: &'t Log<SuperstepStart<'p, P, P::Task>>,
    mut stretches: Stretches<'t, 'p, P>,
    shape: Shape,
    workers: u32,
    advance: StoredAdvance<F>,
    gate: &G,
    starter: &S,
    watch: &mut W,
) -> Result<Ran<P::Task>, Refused>
where
    P::Task: Send,
    requires log { stretches.name ≡ log.now }
    requires fresh { AreFresh 0 stretches.parts × (stretches.count ≡ length (tasks_in stretches.parts)) }
    requires given { stretches.given ≡ 0 }
    requires opened { IsOpened stretches [] }
    requires workers { (1 ≤ workers) × (workers ≤ 64) }
    requires plan { IsJobPlan advance.plan }
    requires rule { Answers (F.pre advance.closure) (F.post advance.closure) (end_ends_at advance.plan) }
    ensures ran { IfOk result (λ ran. (o : SuperstepStartValue P P.Task) → stretches.entry.log ≡ o ∷ []
        → HasRunTo W.stops W.goes (setup_of (reading_of P.frame P.may P.meant P.Task.path_of) o)
        ran.report (map (P.meant o.program) ran.tasks.items)) }
    ensures started { IfErr result (IsOfWorkers workers) }
{
    let first = stretches.snapshot();
    let halted = halts(&stretches, watch);
    match run_stretches(
        rt,
        alloc,
        stretches,
        Watched { watch },
        halted,
        shape,
        workers,
        advance,
        gate,
        starter,
    ) {
        Ok(left) => {
            let Left {
                ran,
                mut writer,
                ..
            } = left;
            writer.compare(log, first);
            writer.give_up();
            Ok(ran)
        }
        Err(refused) => {
            first.give_up();
            Err(refused)
        }
    }
}
