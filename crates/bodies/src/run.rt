//! Runs of a body.
ghost use Rattle.std.specs.Prelude.{◌≡◌, ◌≤◌, ◌↔◌, [], true, false, IfOk, IfErr, length};
ghost use Rattle.bodies.specs.RunValue.{RunValue, AreLimits};

use crate::on_workers::{Hooks, WorkersFault};
use crate::watched::WatchedRun;
use crate::workers::Workers;
use programs::alone::Ran;
use programs::watch::{NoWatch, Watch};
use std::alloc::Global;
use std::marker::Model;
use std::sync::Wait;
use std::thread::Threads;
use superstep_memory::arrays::Arrays;
use task_bodies::body::TaskBody;
use task_bodies::member::Member;
use task_bodies::run::BodiesFault;
use worker_pool::{AllStart, Gate, OpenGate, Starter};

// How many tasks may live at once, and how many supersteps are taken, if a caller doesn't say so.
const MOST: u32 = 65535;

const LIMIT: u32 = 1_000_000;

/// A run of a body that hasn't begun: its arrays, what its start tasks keep, and how far it may go.
#[derive(Drop)]
pub struct Run<'b, B: TaskBody> {
    pub(crate) body: &'b B,
    pub(crate) arrays: Arrays,
    pub(crate) tasks: Vec<B::Kept>,
    pub(crate) most: u32,
    pub(crate) limit: u32,
}

impl<'b, B: TaskBody> Model for Run<'b, B> {
    ghost use Rattle.bodies.specs.RunValue.{RunValue, AreLimits};

    ghost Value = { RunValue B B.Kept };

    ghost view = { λ r. record { body = r.body.now; arrays = r.arrays; tasks = r.tasks.items; most = r.most; limit = r.limit } };

    ghost invariant = { λ r. AreLimits r.most r.limit };
}

impl<'b, B: TaskBody> Run<'b, B> {
    ghost use Rattle.std.specs.Prelude.{◌≡◌, ◌≤◌, ◌↔◌, [], true, false, IfOk, IfErr, length};
    ghost use Rattle.programs.specs.History.{HasRun};
    ghost use Rattle.task_bodies.specs.Bodies.{are_too_many};
    ghost use Rattle.bodies.specs.RunValue.{setup_in};
    ghost use Rattle.task_bodies.specs.declared.run.BodiesFault.TheVariants.{TooMany as TooManyStart};
    ghost use Rattle.bodies.specs.Leaving.{are_too_many_parties, RefusesFor};

    /// Creates a run of this body: a task for each element of `tasks`, which is what the task keeps. At most 65535 tasks may
    /// live at once, and at most 1000000 supersteps are taken, unless [`Run::most`] and [`Run::limit`] say otherwise.
    pub fn of(body: &'b B, arrays: Arrays, tasks: Vec<B::Kept>) -> Self
        ensures { result ≡ record { body = body.now; arrays = arrays; tasks = tasks.items; most = 65535; limit = 1000000 } }
    {
        Run {
            body,
            arrays,
            tasks,
            most: MOST,
            limit: LIMIT,
        }
    }

    /// Lets at most this many tasks live at once.
    pub fn most(self, most: u32) -> Self
        requires { most ≤ 65535 }
        ensures { result ≡ record self.entry { most = most } }
    {
        Run { most, ..self }
    }

    /// Takes at most this many supersteps.
    pub fn limit(self, limit: u32) -> Self
        requires some { 1 ≤ limit }
        requires most { limit ≤ 2147483648 }
        ensures { result ≡ record self.entry { limit = limit } }
    {
        Run { limit, ..self }
    }

    /// Adds a watcher, which is called before each superstep and can stop the run there.
    pub fn watch<'w, W: Watch>(self, watch: &'w mut W) -> WatchedRun<'b, 'w, B, W>
        ensures { result ≡ self.entry }
    {
        WatchedRun { run: self, watch }
    }

    /// Runs the body on this thread. In each superstep, the tasks run one after another, in path order. The report has the arrays,
    /// the prints, a record for each superstep, and how the run ended. If the limit was reached, the tasks that still live come
    /// back with what they keep.
    pub fn alone(self, alloc: Global) -> Result<Ran<Member<B::Kept>>, BodiesFault>
        requires ready { B.ready self.body }
        ensures ran { IfOk result (λ ran. let r = self.entry in HasRun (setup_in B.may r) ran.report ran.tasks.items) }
        ensures few { IfOk result (λ ran. are_too_many self.entry.most (length self.entry.tasks) ≡ false) }
        ensures fault { IfErr result (λ e. (e ≡ TooManyStart) ↔ (are_too_many self.entry.most (length self.entry.tasks) ≡ true)) }
    {
        let Run {
            body,
            arrays,
            tasks,
            most,
            limit,
        } = self;
        task_bodies::run::run_bodies(alloc, body, arrays, tasks, most, limit)
    }
}

impl<'b, B: TaskBody + Sync> Run<'b, B>
where
    B::Kept: Send,
{
    ghost use Rattle.std.specs.Prelude.{◌≡◌, [], false, IfOk, IfErr, length};
    ghost use Rattle.programs.specs.History.{HasRun};
    ghost use Rattle.bodies.specs.RunValue.{setup_in};
    ghost use Rattle.bodies.specs.Leaving.{are_too_many_parties, RefusesFor};

    /// Runs the body on these workers. What it promises is what [`Run::alone`] promises. If what the body does depends only on its
    /// arguments, both return the same. Returns after joining all workers. Termination is not part of the contract.
    pub fn on<R: Threads + Wait + Sync>(
        self,
        rt: &R,
        alloc: Global,
        workers: Workers,
    ) -> Result<Ran<Member<B::Kept>>, WorkersFault>
        requires ready { B.ready self.body }
        ensures ran { IfOk result (λ ran. let r = self.entry in HasRun (setup_in B.may r) ran.report ran.tasks.items) }
        ensures few { IfOk result (λ ran. are_too_many_parties self.entry.most (length self.entry.tasks) ≡ false) }
        ensures refused { IfErr result (RefusesFor workers.count self.entry.most (length self.entry.tasks)) }
    {
        let hooks = Hooks {
            gate: &OpenGate,
            starter: &AllStart,
        };
        self.on_with(rt, alloc, workers, hooks)
    }

    /// Runs the body as [`Run::on`] does. Calls these hooks.
    pub fn on_with<R: Threads + Wait + Sync, G: Gate + Sync, S: Starter>(
        self,
        rt: &R,
        alloc: Global,
        workers: Workers,
        hooks: Hooks<'_, G, S>,
    ) -> Result<Ran<Member<B::Kept>>, WorkersFault>
        requires ready { B.ready self.body }
        ensures ran { IfOk result (λ ran. let r = self.entry in HasRun (setup_in B.may r) ran.report ran.tasks.items) }
        ensures few { IfOk result (λ ran. are_too_many_parties self.entry.most (length self.entry.tasks) ≡ false) }
        ensures refused { IfErr result (RefusesFor workers.count self.entry.most (length self.entry.tasks)) }
    {
        let ran = self.watch(&mut NoWatch).on_with(rt, alloc, workers, hooks)?;
        Ok(ran)
    }
}
