//! Runs of a body with a watcher.
ghost use Rattle.std.specs.Prelude.{◌≡◌, ◌↔◌, [], true, false, IfOk, IfErr, length};
ghost use Rattle.bodies.specs.RunValue.{RunValue};

use crate::on_workers::{Hooks, WorkersFault};
use crate::run::Run;
use crate::workers::Workers;
use advance_rule::{EndPlan, StoredAdvance};
use programs::alone::Ran;
use programs::watch::Watch;
use std::alloc::Global;
use std::marker::Model;
use std::sync::Wait;
use std::thread::Threads;
use task_bodies::Native;
use task_bodies::body::TaskBody;
use task_bodies::member::{Member, starts};
use task_bodies::run::{BodiesFault, run_bodies_watched};
use worker_pool::{AllStart, Gate, OpenGate, Refused, Starter, run_program_watched};

/// A run of a body that hasn't begun, with a watcher, which is called before each superstep and can stop the run there, as a limit
/// does. [`Run::watch`] makes it.
#[derive(Drop)]
pub struct WatchedRun<'b, 'w, B: TaskBody, W: Watch> {
    pub(crate) run: Run<'b, B>,
    pub(crate) watch: &'w mut W,
}

impl<'b, 'w, B: TaskBody, W: Watch> Model for WatchedRun<'b, 'w, B, W> {
    ghost use Rattle.bodies.specs.RunValue.{RunValue};

    ghost Value = { RunValue B B.Kept };

    ghost view = { λ w. w.run };
}

impl<'b, 'w, B: TaskBody, W: Watch> WatchedRun<'b, 'w, B, W> {
    ghost use Rattle.std.specs.Prelude.{◌≡◌, ◌↔◌, [], true, false, IfOk, IfErr, length};
    ghost use Rattle.programs.specs.History.{HasRunTo};
    ghost use Rattle.task_bodies.specs.Bodies.{are_too_many};
    ghost use Rattle.bodies.specs.RunValue.{setup_in};
    ghost use Rattle.task_bodies.specs.declared.run.BodiesFault.TheVariants.{TooMany as TooManyStart};

    /// Runs the body as [`Run::alone`] does. Calls the watcher before each superstep, which can stop the run there, as a limit does.
    pub fn alone(self, alloc: Global) -> Result<Ran<Member<B::Kept>>, BodiesFault>
        requires ready { B.ready self.body }
        ensures ran { IfOk result (λ ran. let r = self.entry in HasRunTo W.stops W.goes (setup_in B.may r) ran.report ran.tasks.items) }
        ensures few { IfOk result (λ ran. are_too_many self.entry.most (length self.entry.tasks) ≡ false) }
        ensures fault { IfErr result (λ e. (e ≡ TooManyStart) ↔ (are_too_many self.entry.most (length self.entry.tasks) ≡ true)) }
    {
        let WatchedRun { run, watch } = self;
        let Run {
            body,
            arrays,
            tasks,
            most,
            limit,
        } = run;
        run_bodies_watched(alloc, body, arrays, tasks, most, limit, watch)
    }
}

impl<'b, 'w, B: TaskBody + Sync, W: Watch + Send> WatchedRun<'b, 'w, B, W>
where
    B::Kept: Send,
{
    ghost use Rattle.std.specs.Prelude.{◌≡◌, [], false, IfOk, IfErr, length};
    ghost use Rattle.programs.specs.History.{HasRunTo};
    ghost use Rattle.bodies.specs.RunValue.{setup_in};
    ghost use Rattle.bodies.specs.Leaving.{are_too_many_parties, RefusesFor};

    /// Runs the body as [`Run::on`] does. Calls the watcher before each superstep. At most one thread calls it at a time, and no body
    /// runs meanwhile.
    pub fn on<R: Threads + Wait + Sync>(
        self,
        rt: &R,
        alloc: Global,
        workers: Workers,
    ) -> Result<Ran<Member<B::Kept>>, WorkersFault>
        requires ready { B.ready self.body }
        ensures ran { IfOk result (λ ran. let r = self.entry in HasRunTo W.stops W.goes (setup_in B.may r) ran.report ran.tasks.items) }
        ensures few { IfOk result (λ ran. are_too_many_parties self.entry.most (length self.entry.tasks) ≡ false) }
        ensures refused { IfErr result (RefusesFor workers.count self.entry.most (length self.entry.tasks)) }
    {
        let hooks = Hooks {
            gate: &OpenGate,
            starter: &AllStart,
        };
        self.on_with(rt, alloc, workers, hooks)
    }

    /// Runs the body as [`WatchedRun::on`] does. Calls these hooks.
    pub fn on_with<R: Threads + Wait + Sync, G: Gate + Sync, S: Starter>(
        self,
        rt: &R,
        alloc: Global,
        workers: Workers,
        hooks: Hooks<'_, G, S>,
    ) -> Result<Ran<Member<B::Kept>>, WorkersFault>
        requires ready { B.ready self.body }
        ensures ran { IfOk result (λ ran. let r = self.entry in HasRunTo W.stops W.goes (setup_in B.may r) ran.report ran.tasks.items) }
        ensures few { IfOk result (λ ran. are_too_many_parties self.entry.most (length self.entry.tasks) ≡ false) }
        ensures refused { IfErr result (RefusesFor workers.count self.entry.most (length self.entry.tasks)) }
    {
        let WatchedRun { run, watch } = self;
        let Run {
            body,
            arrays,
            tasks,
            most,
            limit,
        } = run;
        if tasks.len() > most as usize {
            return Err(WorkersFault::TooMany);
        }
        let Ok(members) = starts(alloc, tasks) else {
            return Err(WorkersFault::Refused(Refused::Memory));
        };
        let (workers, shape) = workers.into_parts();
        let Hooks { gate, starter } = hooks;
        let program = Native { body };
        let last = limit - 1;
        let plan = EndPlan::at_phase(last);
        let advance = StoredAdvance::new(
            |phase: u32, count: u32| count == 0 || phase == last,
            plan,
        );
        match run_program_watched(
            rt, alloc, &program, arrays, members, most, shape, workers, advance, gate, starter,
            watch,
        ) {
            Ok(ran) => Ok(ran),
            Err(refused) => Err(WorkersFault::Refused(refused)),
        }
    }
}
