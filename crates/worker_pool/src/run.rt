//! Runs the stretches of a program on worker threads.
ghost use Rattle.std.specs.Prelude.{◌≡◌, ◌≤◌, ◌<◌, ℕ, true, false, [], None, IfOk, IfErr, length, vec_len};
ghost use Rattle.advance_rule.specs.Stored.{Answers};
ghost use Rattle.advance_rule.specs.Action.{AnswersAction};
ghost use Rattle.advance_rule.specs.Plan.{end_ends_at};
ghost use Rattle.tier_shape.specs.Leaves.{leaves_of};
ghost use Rattle.program_stretches.specs.Parts.{reading_of};
ghost use Rattle.program_stretches.specs.StretchesValue.{status_in};
ghost use Rattle.stretch_queue.specs.Hooked.{bare, AreNext};
ghost use Rattle.stretch_queue.specs.QueueValue.{AreNew, AreNamed};
ghost use Rattle.stretch_queue.specs.Watched.{HasLeftKept};
ghost use Rattle.stretch_queue.specs.Refusals.{IsOfWorkers};
ghost use Rattle.worker_pool.specs.JobPlan.{limit_of, IsJobPlan};
ghost use Rattle.worker_pool.specs.LeafTiers.{AreLeaves};
ghost use Rattle.worker_pool.specs.Begun.{IsRuled, AreOf};

use crate::lane::{Lane, lanes_for};
use crate::leaves::Leaves;
use crate::published::Published;
use crate::shared::Shared;
use crate::start::{Setup, start_all};
use crate::tree::WorkerTree;
use advance_rule::{EndPlan, StoredAction, StoredAdvance};
use cyclic_gate::CyclicGate;
use ghost_lists::tickets::TicketList;
use program_stretches::{Left, Stretches};
use programs::program::TaskLoop;
use sleepers::Sleepers;
use std::alloc::{AllocError, Global};
use std::marker::Brand;
use std::sync::{Mutex, Wait};
use std::thread;
use std::thread::Threads;
use stretch_queue::fault::{Refused, WorkerFault};
use stretch_queue::hook::Hook;
use stretch_queue::hooks::{Gate, Starter};
use stretch_queue::queue::{Lists, Queue, lengths_of};
use stretch_queue::running::Running;
use stretch_queue::tokens::{Bundle, OwnToken, Tokens};
use tier_shape::Shape;
use tier_table::beginning::Unregistered;
use tier_table::groups::Group;
use tier_table::tokens::Door;
use tier_table::tree::Tree;

// About how many stretches each worker gets in a superstep.
const STRETCHES_EACH: usize = 4;

// The most start tasks: the path of each is a number of 16 bits.
const MOST_STARTS: usize = 65536;

// How often a worker looks for a ready stretch before it sleeps.
const MOST_SPINS: u32 = 6000;

// The same if there are more workers than processors.
const FEW_SPINS: u32 = 100;

// The tree at which workers meet, its first token, its leaves, and the members of the start tasks; and the lists of the passes for
// stretches, and for workers that have stopped.
#[derive(Drop)]
struct Meeting<F: Fn(u32, u32) -> bool> {
    tree: Tree<F>,
    door: Door,
    groups: Vec<Group>,
    leaves: Vec<u16>,
    lists: Lists,
}

// Does nothing and never fails: the barrier's action.
fn do_nothing(_generation: u64) -> bool
    ensures { result ≡ false }
{
    false
}

// Creates the barrier at which workers wait for each other before they begin.
fn barrier_for<A: Fn(u64) -> bool + Drop>(
    alloc: Global,
    workers: u32,
    action: StoredAction<A>,
) -> CyclicGate<A>
    requires { (1 ≤ workers) × (workers ≤ 64) }
    ensures { result.action ≡ action }
{
    match CyclicGate::new(alloc, i64::from(workers), action) {
        Ok(barrier) => barrier,
        Err(_) => unreachable!(),
    }
}

// Returns how many of `count` start tasks each leaf gets: start task i has the leaf with number i, modulo the number of leaves.
fn start_counts(alloc: Global, leaves: usize, count: usize) -> Result<Vec<u32>, AllocError>
    requires leaves { 1 ≤ leaves }
    requires count { count ≤ 65536 }
    ensures counts { IfOk result (λ counts. length counts.items ≡ leaves) }
{
    let each = (count / leaves) as u32;
    let more = count % leaves;
    let mut counts = Vec::new(alloc);
    counts.resize(more, each + 1)?;
    counts.resize(leaves, each)?;
    Ok(counts)
}

// Returns why a tree doesn't begin with the members of the start tasks.
fn refusal_of_start(fault: Unregistered) -> Refused
    ensures { (workers : ℕ) → IsOfWorkers workers result }
{
    match fault {
        Unregistered::Memory(_) => Refused::Memory,
        Unregistered::Full { .. } => Refused::Full,
        Unregistered::Stopped { .. } => Refused::Internal,
    }
}

// Returns what the tree is made with: its leaves, how many start tasks each gets, and the lists of passes.
fn prepared(
    alloc: Global,
    shape: &Shape,
    count: usize,
) -> Result<(Vec<u16>, Vec<u32>, Lists), AllocError>
    requires count { count ≤ 65536 }
    ensures leaves { IfOk result (λ r. AreLeaves shape.now r.0.items) }
    ensures counts { IfOk result (λ r. length r.1.items ≡ length (leaves_of shape.now)) }
    ensures passes { IfOk result (λ r. AreNew r.2) }
{
    let leaves = shape.leaves(alloc)?;
    let counts = start_counts(alloc, leaves.len(), count)?;
    let stretches = TicketList::new(alloc)?;
    let stops = TicketList::new(alloc)?;
    Ok((leaves, counts, Lists { stretches, stops }))
}

// Makes the tree at which workers meet, with the members of `count` start tasks.
#[tactic(auto, using(crate::proofs::Members::of_tree))]
fn opening_of<R: Wait, F: Fn(u32, u32) -> bool + Drop>(
    rt: &R,
    alloc: Global,
    shape: Shape,
    count: usize,
    advance: StoredAdvance<F>,
) -> Result<Meeting<F>, Refused>
    requires plan { IsJobPlan advance.plan }
    requires count { count ≤ 65536 }
    ensures ruled { IfOk result (λ o. IsRuled advance o.tree o.door) }
    ensures members { IfOk result (λ o. AreOf o.tree.tree o.groups.items) }
    ensures leaves { IfOk result (λ o. AreLeaves o.tree.tree.key.shape o.leaves.items) }
    ensures passes { IfOk result (λ o. AreNew o.lists) }
    ensures refused { IfErr result (λ refused. (workers : ℕ) → IsOfWorkers workers refused) }
{
    let Ok((leaves, counts, lists)) = prepared(alloc, &shape, count) else {
        return Err(Refused::Memory);
    };
    match Tree::with_groups(alloc, rt, shape, 0, advance, &counts) {
        Ok((tree, door, groups)) => Ok(Meeting {
            tree,
            door,
            groups,
            leaves,
            lists,
        }),
        Err(fault) => Err(refusal_of_start(fault)),
    }
}

// Returns the members of the start tasks, as those of the run.
fn bundles_of<J: Running>(
    alloc: Global,
    mut groups: Vec<Group>,
) -> Result<Vec<Bundle<J>>, AllocError>
    requires { AreOf J.tree groups.items }
{
    let mut bundles = Vec::with_capacity(alloc, groups.len())?;
    while let Some(group) = groups.pop() {
        bundles.push(Bundle::new(group))?;
    }
    Ok(bundles)
}

// Returns the members of the start tasks, by the number of their stretch.
fn tokens_of<P: TaskLoop, J: Running, F: Fn(u32, u32) -> bool>(
    alloc: Global,
    stretches: &Stretches<'_, '_, P>,
    tree: &WorkerTree<J, F>,
    groups: Vec<Group>,
) -> Result<Vec<Option<Tokens<J>>>, WorkerFault>
    requires { AreOf J.tree groups.items }
{
    let sizes = lengths_of(alloc, stretches)?;
    let bundles = bundles_of(alloc, groups)?;
    tree.cut(alloc, bundles, &sizes)
}

// Starts the workers, and returns what the run leaves once all have stopped.
fn run_at<
    't,
    'p,
    P: TaskLoop + Sync,
    H: Hook<P> + Send,
    J: Running + Send + Sync,
    R: Threads + Wait + Sync,
    F: Fn(u32, u32) -> bool + Sync + Drop,
    A: Fn(u64) -> bool + Sync,
    G: Gate + Sync,
    S: Starter,
>(
    rt: &R,
    alloc: Global,
    queue: Queue<'t, 'p, P, H, J>,
    lanes: Vec<Lane<'p, P, H, J>>,
    tree: WorkerTree<J, F>,
    door: Door,
    barrier: &CyclicGate<A>,
    setup: Setup<'_, G, S>,
) -> Result<Left<'p, P>, Refused>
where
    P::Task: Send,
    H::Lines: Send,
    requires workers { (setup.workers ≡ J.workers) × (1 ≤ setup.workers) }
    requires lanes { vec_len lanes ≡ setup.workers }
    requires tree { door.tree ≡ J.tree }
    requires rule { Answers (F.pre tree.phaser.rule.closure) (F.post tree.phaser.rule.closure) (end_ends_at tree.phaser.rule.plan) }
    requires action { AnswersAction (A.pre barrier.now.action.closure) (A.post barrier.now.action.closure) barrier.now.action.plan }
    ensures left { IfOk result (λ l. HasLeftKept (reading_of P.frame P.may P.meant P.Task.path_of) H.kept J.mark l.writer l.given l.ran.report l.ran.tasks.items) }
    ensures started { IfErr result (IsOfWorkers setup.entry.workers) }
{
    let mut own = OwnToken::new(door);
    let shared = Shared {
        queue: Mutex::new(queue),
        published: Published::new(),
        sleepers: Sleepers::new(spins_of(rt, setup.workers)),
        lanes,
        tree,
    };
    let stopped = match shared.begin(rt) {
        Ok(()) => start_all(rt, alloc, &shared, &mut own, barrier, setup),
        Err(fault) => shared.refuse(rt, fault.refusal()),
    };
    shared.conclude(alloc, stopped)
}

// Runs stretches at the tree that was opened.
fn run_opened<
    't,
    'p,
    P: TaskLoop + Sync,
    H: Hook<P> + Send,
    J: Running + Send + Sync,
    R: Threads + Wait + Sync,
    F: Fn(u32, u32) -> bool + Sync + Drop,
    G: Gate + Sync,
    S: Starter,
>(
    rt: &R,
    alloc: Global,
    stretches: Stretches<'t, 'p, P>,
    hook: H,
    halted: bool,
    meeting: Meeting<F>,
    setup: Setup<'_, G, S>,
) -> Result<Left<'p, P>, Refused>
where
    P::Task: Send,
    H::Lines: Send,
    requires mark { stretches.name ≡ J.mark }
    requires next { AreNext stretches }
    requires kept { H.kept (bare stretches) halted }
    requires halted { halted ≡ true → status_in stretches ≡ None }
    requires workers { (setup.workers ≡ J.workers) × (1 ≤ setup.workers) × (setup.workers ≤ 64) }
    requires lists { AreNew meeting.lists × AreNamed J.passes J.stops meeting.lists }
    requires tree { (meeting.tree.tree ≡ J.tree) × (meeting.door.tree ≡ J.tree) }
    requires members { AreOf J.tree meeting.groups.items }
    requires leaves { AreLeaves J.tree.key.shape meeting.leaves.items }
    requires rule { Answers (F.pre meeting.tree.rule.closure) (F.post meeting.tree.rule.closure) (end_ends_at meeting.tree.rule.plan) }
    ensures left { IfOk result (λ l. HasLeftKept (reading_of P.frame P.may P.meant P.Task.path_of) H.kept J.mark l.writer l.given l.ran.report l.ran.tasks.items) }
    ensures started { IfErr result (IsOfWorkers setup.entry.workers) }
{
    let Meeting {
        tree,
        door,
        groups,
        leaves,
        lists,
    } = meeting;
    let tree = WorkerTree::<J, F>::new(tree, Leaves::new(leaves));
    let tokens = match tokens_of(alloc, &stretches, &tree, groups) {
        Ok(tokens) => tokens,
        Err(fault) => {
            stretches.give_up();
            return Err(fault.refusal());
        }
    };
    let Ok(lanes) = lanes_for(alloc, setup.workers) else {
        stretches.give_up();
        return Err(Refused::Memory);
    };
    let queue = Queue::new(alloc, stretches, hook, halted, lists, tokens);
    let action = StoredAction::new(do_nothing, None);
    let barrier = barrier_for(alloc, setup.workers, action);
    run_at(rt, alloc, queue, lanes, tree, door, &barrier, setup)
}

/// Runs the stretches of a program on `workers` threads that synchronize at a tree of phasers of this `shape`, superstep by
/// superstep (own). Returns what the run leaves. `hook` closes each superstep, and `halted` says that it stops the run before the
/// first one.
///
/// The closure of `advance` is called once a superstep, after the last arrival, with the phase and the number of parties at the
/// root. Its plan mustn't end the tree before the run ends, or the run fails with `Internal`. `gate` is called before and after
/// each segment, and `starter` before each worker is started. The live tasks should be cut into [`stretches_wanted`] stretches. If
/// the gate isn't open, a stretch of more than one task fails the run with `Memory`.
///
/// Before the run, all stretches must be there, and none may have run. With more than 65536 tasks the run fails with `Full`.
///
/// Returns after joining all workers that were started. Termination is not part of the contract.
pub fn run_stretches<
    't,
    'p,
    P: TaskLoop + Sync,
    H: Hook<P> + Send,
    R: Threads + Wait + Sync,
    F: Fn(u32, u32) -> bool + Sync + Drop,
    G: Gate + Sync,
    S: Starter,
>(
    rt: &R,
    alloc: Global,
    stretches: Stretches<'t, 'p, P>,
    hook: H,
    halted: bool,
    shape: Shape,
    workers: u32,
    advance: StoredAdvance<F>,
    gate: &G,
    starter: &S,
) -> Result<Left<'p, P>, Refused>
where
    P::Task: Send,
    H::Lines: Send,
    requires workers { (1 ≤ workers) × (workers ≤ 64) }
    requires next { AreNext stretches }
    requires kept { H.kept (bare stretches) halted }
    requires halted { halted ≡ true → status_in stretches ≡ None }
    requires plan { IsJobPlan advance.plan }
    requires rule { Answers (F.pre advance.closure) (F.post advance.closure) (end_ends_at advance.plan) }
    ensures left { IfOk result (λ l. HasLeftKept (reading_of P.frame P.may P.meant P.Task.path_of) H.kept stretches.entry.name l.writer l.given l.ran.report l.ran.tasks.items) }
    ensures started { IfErr result (IsOfWorkers workers) }
{
    let setup = Setup {
        workers,
        gate,
        starter,
    };
    let count = stretches.count();
    if count > MOST_STARTS {
        stretches.give_up();
        return Err(Refused::Full);
    }
    match opening_of(rt, alloc, shape, count, advance) {
        Ok(meeting) => run_opened::<P, H, Brand, R, F, G, S>(
            rt, alloc, stretches, hook, halted, meeting, setup,
        ),
        Err(refused) => {
            stretches.give_up();
            Err(refused)
        }
    }
}

/// Returns about how many stretches live tasks should be cut into for a run on `workers` threads: some for each worker, or if
/// the gate isn't open, one for each task.
pub fn stretches_wanted<G: Gate>(gate: &G, workers: u32) -> usize
    requires { 1 ≤ workers }
    ensures { 1 ≤ result }
{
    if gate.is_open() {
        workers as usize * STRETCHES_EACH
    } else {
        usize::MAX
    }
}

// Returns how often a worker spins before it sleeps.
fn spins_of<R: Threads>(rt: &R, workers: u32) -> u32 {
    match thread::available_parallelism(rt) {
        Ok(count) if workers as usize <= count.get() => MOST_SPINS,
        Ok(_) | Err(_) => FEW_SPINS,
    }
}

/// Returns the limit of supersteps of a plan: its last phase plus one.
pub fn limit_in(plan: EndPlan) -> u32
    requires { IsJobPlan plan }
    ensures limit { result ≡ limit_of plan }
    ensures some { 1 ≤ result }
{
    plan.at.unwrap_or(0) + 1
}
