//! What the workers of a run share.
ghost use Rattle.std.specs.Prelude.{◌≡◌, vec_len};

use crate::lane::{Lane, end_of, take_of_fullest};
use crate::published::{OVER, Published};
use crate::tree::WorkerTree;
use program_stretches::Left;
use programs::program::TaskLoop;
use sleepers::{Pauses, Sleepers};
use std::alloc::Global;
use std::sync::{Mutex, Wait};
use stretch_queue::fault::{Refused, WorkerFault};
use stretch_queue::hand::{HeldStretch, RanStretch};
use stretch_queue::hook::{Hook, Lines};
use stretch_queue::led::Led;
use stretch_queue::members::Recut;
use stretch_queue::outbox::{Arrived, Delivered};
use stretch_queue::queue::{HandedBack, Queue, Stopped};
use stretch_queue::running::Running;
use stretch_queue::tokens::OwnToken;

/// What a worker does next.
#[derive(Drop)]
pub(crate) enum Next<'p, P: TaskLoop, L: Lines, J: Running> {
    /// Run the segments of this stretch.
    Run(HeldStretch<'p, P, L, J>),
    /// Stop.
    Stop(Stopped<J>),
}

/// The queue under a lock, a lane for each worker, and the tree without a lock. Only a worker that closes a superstep takes the lock
/// of the queue, one whose members come back after that, and one that stops. No call of the tree is made, and no segment
/// runs, while it is held.
#[derive(Drop)]
pub(crate) struct Shared<'t, 'p, P: TaskLoop, H: Hook<P>, J: Running, F: Fn(u32, u32) -> bool> {
    pub(crate) queue: Mutex<Queue<'t, 'p, P, H, J>>,
    // Written under the lock of the queue, once the inboxes are filled.
    pub(crate) published: Published,
    // The workers that wait until something else is published.
    pub(crate) sleepers: Sleepers,
    // By the number of a worker.
    pub(crate) lanes: Vec<Lane<'p, P, H, J>>,
    pub(crate) tree: WorkerTree<J, F>,
    ghost own: { vec_len lanes ≡ J.workers },
}

impl<'t, 'p, P: TaskLoop, H: Hook<P>, J: Running, F: Fn(u32, u32) -> bool> Shared<
    't,
    'p,
    P,
    H,
    J,
    F,
> {
    ghost use Rattle.std.specs.Prelude.{◌<◌, IfOk, IfErr};
    ghost use Rattle.advance_rule.specs.Stored.{Answers};
    ghost use Rattle.advance_rule.specs.Plan.{end_ends_at};
    ghost use Rattle.program_stretches.specs.Parts.{reading_of};
    ghost use Rattle.stretch_queue.specs.Watched.{HasLeftKept};
    ghost use Rattle.stretch_queue.specs.Refusals.{IsOfWorkers};

    // Publishes the superstep of the stretches that were handed out, or that workers must stop, and wakes all that wait for it.
    fn publish(&self, queue: &Queue<'t, 'p, P, H, J>) {
        self.published.publish(queue);
        self.sleepers.wake();
    }

    // Hands out the ready stretches, to each worker those of its range, and publishes their superstep.
    fn hand_out<R: Wait>(
        &self,
        rt: &R,
        queue: &mut Queue<'t, 'p, P, H, J>,
    ) -> Result<(), WorkerFault> {
        let count = queue.len();
        for k in 0..self.lanes.len() {
            let end = end_of(count, k, self.lanes.len());
            self.lanes[k].fill(rt, queue, end)?;
        }
        self.publish(queue);
        Ok(())
    }

    /// Hands out the stretches of the first superstep.
    pub(crate) fn begin<R: Wait>(&self, rt: &R) -> Result<(), WorkerFault> {
        let mut queue = self.queue.lock(rt);
        self.hand_out(rt, &mut queue)
    }

    // Takes a stretch that is to be run, one of the worker's own if there is one.
    fn take<R: Wait>(&self, rt: &R, worker: usize) -> Option<HeldStretch<'p, P, H::Lines, J>>
        requires { worker < J.workers }
    {
        match self.lanes[worker].take(rt) {
            Some(held) => Some(held),
            None => take_of_fullest(rt, &self.lanes),
        }
    }

    // Waits until something else than this is published.
    fn wait<R: Wait>(&self, rt: &R, seen: u64) {
        let mut pauses = Pauses::new();
        for _ in rt.forever() {
            if self.published.look() != seen {
                return;
            }
            self.sleepers.pause(rt, &mut pauses);
        }
        unreachable!()
    }

    /// Returns what a worker does next. Waits until a stretch is to be run, or workers must stop.
    pub(crate) fn next<R: Wait>(&self, rt: &R, worker: usize) -> Next<'p, P, H::Lines, J>
        requires { worker < J.workers }
    {
        for _ in rt.forever() {
            let seen = self.published.look();
            if seen == OVER {
                if let Some(stopped) = self.queue.lock(rt).stop_if_over() {
                    return Next::Stop(stopped);
                }
            }
            if let Some(held) = self.take(rt, worker) {
                return Next::Run(held);
            }
            self.wait(rt, seen);
        }
        unreachable!()
    }

    /// Delivers a stretch whose segments have run. Returns the members of its tasks.
    pub(crate) fn deliver<R: Wait>(
        &self,
        rt: &R,
        worker: usize,
        ran: RanStretch<'p, P, J>,
    ) -> Result<Delivered<J>, WorkerFault>
        requires { worker < J.workers }
    {
        self.lanes[worker].deliver(rt, ran)
    }

    // Cuts members anew for the next stretches, and hands these out.
    fn cut_anew<R: Wait>(&self, rt: &R, alloc: Global, recut: Recut<J>) -> Result<(), WorkerFault> {
        let tokens = self.tree.cut_anew(alloc, recut)?;
        let mut queue = self.queue.lock(rt);
        queue.put_back(tokens)?;
        self.hand_out(rt, &mut queue)
    }

    // Takes what all workers have delivered, and the members that are back. Members that come back after that are late.
    fn collect<R: Wait>(
        &self,
        rt: &R,
        queue: &mut Queue<'t, 'p, P, H, J>,
    ) -> Result<(), WorkerFault> {
        let next = queue.step().saturating_add(1);
        for lane in &self.lanes {
            lane.empty(rt, queue, next)?;
        }
        Ok(())
    }

    // Closes the superstep, in which these members came back last, and hands out the stretches of the next.
    fn close<R: Wait>(
        &self,
        rt: &R,
        alloc: Global,
        own: &mut OwnToken<J>,
        arrived: Arrived<J>,
        led: Led<J>,
    ) -> Result<(), WorkerFault> {
        let mut queue = self.queue.lock(rt);
        self.collect(rt, &mut queue)?;
        match queue.hand_back(alloc, arrived, Some(led))? {
            HandedBack::Unchanged => Ok(()),
            HandedBack::Ready => self.hand_out(rt, &mut queue),
            HandedBack::Ended => {
                self.publish(&queue);
                drop(queue);
                self.tree.force(rt, own);
                Ok(())
            }
            HandedBack::Recut(recut) => {
                drop(queue);
                self.cut_anew(rt, alloc, recut)
            }
        }
    }

    // Hands back members that are late. Returns their stretch, if it is ready.
    fn hand_back_late<R: Wait>(
        &self,
        rt: &R,
        alloc: Global,
        late: Arrived<J>,
    ) -> Result<Option<HeldStretch<'p, P, H::Lines, J>>, WorkerFault> {
        let mut queue = self.queue.lock(rt);
        match queue.hand_back(alloc, late, None)? {
            HandedBack::Ready => queue.next_below(usize::MAX),
            HandedBack::Recut(recut) => {
                drop(queue);
                self.cut_anew(rt, alloc, recut)?;
                Ok(None)
            }
            HandedBack::Unchanged | HandedBack::Ended => Ok(None),
        }
    }

    /// Lets the members of a stretch that was delivered arrive: new ones join and arrive for the tasks that were spawned, those of
    /// tasks that stopped leave. Hands back those that are left. If one of them advanced the tree, closes the superstep. If it was
    /// closed meanwhile, returns the stretch of these members in the next one, if it is ready: the worker runs it.
    pub(crate) fn arrive<R: Wait>(
        &self,
        rt: &R,
        alloc: Global,
        own: &mut OwnToken<J>,
        worker: usize,
        delivered: Delivered<J>,
    ) -> Result<Option<HeldStretch<'p, P, H::Lines, J>>, WorkerFault>
        requires worker { worker < J.workers }
        requires rule { Answers (F.pre self.now.tree.phaser.rule.closure) (F.post self.now.tree.phaser.rule.closure) (end_ends_at self.now.tree.phaser.rule.plan) }
    {
        let Delivered {
            number,
            step,
            mut tokens,
            moves,
        } = delivered;
        let led = self.tree.arrive(rt, alloc, own, &mut tokens, &moves)?;
        let arrived = Arrived {
            number,
            step,
            tokens,
        };
        if let Some(led) = led {
            self.close(rt, alloc, own, arrived, led)?;
            return Ok(None);
        }
        match self.lanes[worker].take_back(rt, arrived)? {
            Some(late) => self.hand_back_late(rt, alloc, late),
            None => Ok(None),
        }
    }

    /// Notes why the run is refused, and stops all workers.
    pub(crate) fn refuse<R: Wait>(&self, rt: &R, refused: Refused) -> Stopped<J>
        requires { IsOfWorkers J.workers refused }
    {
        let mut queue = self.queue.lock(rt);
        let stopped = queue.refuse(refused);
        self.publish(&queue);
        stopped
    }

    /// Notes why a worker can't go on, and stops all workers.
    pub(crate) fn give_up<R: Wait>(
        &self,
        rt: &R,
        own: &mut OwnToken<J>,
        fault: WorkerFault,
    ) -> Stopped<J> {
        let stopped = self.refuse(rt, fault.refusal());
        self.tree.force(rt, own);
        stopped
    }

    /// Returns what the run leaves, or why it leaves nothing, once all workers have stopped. `stopped` is that of one of them.
    pub(crate) fn conclude(self, alloc: Global, stopped: Stopped<J>) -> Result<Left<'p, P>, Refused>
        ensures left { IfOk result (λ l. HasLeftKept (reading_of P.frame P.may P.meant P.Task.path_of) H.kept J.mark l.writer l.given l.ran.report l.ran.tasks.items) }
        ensures started { IfErr result (IsOfWorkers J.workers) }
    {
        let Shared {
            queue,
            published: _,
            sleepers: _,
            lanes: _,
            tree: _,
        } = self;
        queue.into_inner().conclude(alloc, stopped)
    }
}
