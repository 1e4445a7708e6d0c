//! A stretch that a worker holds.
ghost use Rattle.std.specs.Prelude.{◌≡◌, ◌≤◌, true, false, length, IfErr, IfOk, OnOk};
ghost use Rattle.program_stretches.specs.StretchesValue.{StretchValue};
ghost use Rattle.stretch_queue.specs.HandedOut.{IsFor};
ghost use Rattle.stretch_queue.specs.Segments.{IsSegment, HasRunSegment};
ghost use Rattle.stretch_queue.specs.declared.fault.WorkerFault.TheVariants as worker_fault;

use crate::fault::WorkerFault;
use crate::hook::Lines;
use crate::hooks::Gate;
use crate::moves::{Moves, moves_of};
use crate::running::Running;
use crate::tokens::Tokens;
use ghost_lists::tickets::Ticket;
use program_stretches::Stretch;
use programs::program::{Program, TaskLoop};
use std::alloc::{AllocError, Global};
use std::marker::Model;
use std::sync::Wait;
use superstep_memory::path::Path;

/// A stretch that a worker holds, with the ticket by which it comes back, the members of its tasks, and what is to be written before
/// its tasks run. Its type keeps that the stretch is of the run, and that the ticket is for it.
#[derive(Drop)]
pub struct HeldStretch<'p, P: Program, L: Lines, J: Running> {
    stretch: Stretch<'p, P>,
    pass: Ticket<()>,
    tokens: Tokens<J>,
    lines: Option<L>,
}

impl<'p, P: Program, L: Lines, J: Running> Model for HeldStretch<'p, P, L, J> {
    ghost Value = { StretchValue P P.Task };

    ghost view = { λ h. h.stretch };

    ghost invariant = { λ h. (h.stretch.name ≡ J.mark) × IsFor J.passes h.stretch.step h.stretch.number h.pass };
}

/// A stretch that a worker has run, with the ticket by which it comes back, and the members of its tasks. Its type keeps what that
/// of `HeldStretch` does, and that all segments have run. Only delivering it gives the members, so none arrives before.
#[derive(Drop)]
pub struct RanStretch<'p, P: Program, J: Running> {
    stretch: Stretch<'p, P>,
    pass: Ticket<()>,
    tokens: Tokens<J>,
    moves: Moves,
}

impl<'p, P: Program, J: Running> Model for RanStretch<'p, P, J> {
    ghost Value = { StretchValue P P.Task };

    ghost view = { λ h. h.stretch };

    ghost invariant = { λ h. (h.stretch.name ≡ J.mark) × IsFor J.passes h.stretch.step h.stretch.number h.pass × (h.stretch.part.done ≡ true) };
}

// Calls a gate before the first segment of a stretch.
fn begin_for<P: Program, R: Wait, G: Gate>(
    rt: &R,
    gate: &G,
    stretch: &Stretch<'_, P>,
    step: u32,
    tasks: usize,
)
    requires step { step ≡ stretch.now.step }
    requires tasks { tasks ≡ length stretch.now.part.tasks }
{
    gate.stretch(rt, step, tasks);
}

// Calls a gate before the only segment of a stretch.
fn enter_for<P: Program, R: Wait, G: Gate>(
    rt: &R,
    gate: &G,
    stretch: &Stretch<'_, P>,
    path: &Path,
    step: u32,
)
    requires { IsSegment P.Task.path_of stretch.now path.now.items step }
{
    gate.enter(rt, path, step);
}

// Calls a gate after the only segment of a stretch, which has just run. `done` says how it ended.
fn leave_for<P: Program, R: Wait, G: Gate>(
    rt: &R,
    gate: &G,
    stretch: &Stretch<'_, P>,
    path: &Path,
    step: u32,
    done: Result<(), AllocError>,
) -> Result<(), AllocError>
    requires ran { HasRunSegment P.Task.path_of stretch.now path.now.items step done }
    ensures { result ≡ done }
{
    gate.leave(rt, path, step);
    done
}

// Runs the only segment of a stretch between the two calls of a gate.
fn do_gated<P: TaskLoop, R: Wait, G: Gate>(
    rt: &R,
    alloc: Global,
    gate: &G,
    stretch: &mut Stretch<'_, P>,
) -> Result<(), AllocError>
    requires waits { stretch.old.part.done ≡ false }
    ensures done { OnOk result (stretch.new.part.done ≡ true) }
    ensures same { stretch.new ≡ record stretch.old { part = stretch.new.part } }
{
    let Some(path) = stretch.first_path() else {
        return stretch.run(alloc);
    };
    let step = stretch.step();
    enter_for(rt, gate, stretch, &path, step);
    let done = stretch.run(alloc);
    leave_for(rt, gate, stretch, &path, step, done)
}

// Runs all segments of a stretch. If the gate isn't open, the stretch has one task, whose segment runs between the two
// calls of the gate. There it has more only if there was no memory to cut it. The call then fails, since one of the
// tasks could wait for another.
fn do_all<P: TaskLoop, R: Wait, G: Gate>(
    rt: &R,
    alloc: Global,
    gate: &G,
    stretch: &mut Stretch<'_, P>,
) -> Result<(), AllocError>
    ensures done { OnOk result (stretch.new.part.done ≡ true) }
    ensures same { stretch.new ≡ record stretch.old { part = stretch.new.part } }
{
    if stretch.is_done() {
        return Ok(());
    }
    let count = stretch.len();
    if gate.is_open() || count == 0 {
        return stretch.run(alloc);
    }
    if count > 1 {
        return Err(AllocError);
    }
    do_gated(rt, alloc, gate, stretch)
}

// Writes the lines of an earlier superstep, if there are any.
fn write_lines<L: Lines>(alloc: Global, lines: Option<L>) -> Result<(), AllocError> {
    match lines {
        Some(lines) => lines.write(alloc),
        None => Ok(()),
    }
}

// Writes the lines, runs all segments of a stretch, counts how many tasks came and left, and makes its next live tasks.
fn run_all<P: TaskLoop, L: Lines, R: Wait, G: Gate>(
    rt: &R,
    alloc: Global,
    gate: &G,
    stretch: &mut Stretch<'_, P>,
    lines: Option<L>,
    leaves: u16,
) -> Result<Moves, AllocError>
    requires { 1 ≤ leaves }
    ensures done { OnOk result (stretch.new.part.done ≡ true) }
    ensures same { stretch.new ≡ record stretch.old { part = stretch.new.part } }
{
    write_lines(alloc, lines)?;
    begin_for(rt, gate, stretch, stretch.step(), stretch.len());
    do_all(rt, alloc, gate, stretch)?;
    let moves = moves_of(alloc, stretch, leaves)?;
    stretch.settle()?;
    Ok(moves)
}

impl<'p, P: TaskLoop, L: Lines, J: Running> HeldStretch<'p, P, L, J> {
    ghost use Rattle.std.specs.Prelude.{◌≡◌, ◌≤◌, true, IfOk, IfErr};
    ghost use Rattle.stretch_queue.specs.HandedOut.{IsFor};
    ghost use Rattle.stretch_queue.specs.declared.fault.WorkerFault.TheVariants as worker_fault;

    /// Holds a stretch of the run, with its ticket, the members of its tasks, and what is to be written before they run.
    pub fn new(
        stretch: Stretch<'p, P>,
        pass: Ticket<()>,
        tokens: Tokens<J>,
        lines: Option<L>,
    ) -> Self
        requires mark { stretch.name ≡ J.mark }
        requires pass { IsFor J.passes stretch.step stretch.number pass }
        ensures { result ≡ stretch.entry }
    {
        HeldStretch {
            stretch,
            pass,
            tokens,
            lines,
        }
    }

    /// Writes the lines, and runs the segments, with no lock held, after a call of the gate; if the gate isn't open, between
    /// two more calls of it. The tree has `leaves` leaves.
    pub fn run<R: Wait, G: Gate>(
        self,
        rt: &R,
        alloc: Global,
        gate: &G,
        leaves: u16,
    ) -> Result<RanStretch<'p, P, J>, WorkerFault>
        requires { 1 ≤ leaves }
        ensures same { IfOk result (λ ran. ran ≡ record self.entry { part = ran.part }) }
        ensures memory { IfErr result (λ fault. fault ≡ worker_fault.Memory) }
    {
        let HeldStretch {
            mut stretch,
            pass,
            tokens,
            lines,
        } = self;
        match run_all(rt, alloc, gate, &mut stretch, lines, leaves) {
            Ok(moves) => Ok(RanStretch {
                stretch,
                pass,
                tokens,
                moves,
            }),
            Err(_) => {
                stretch.give_up();
                Err(WorkerFault::Memory)
            }
        }
    }
}

impl<'p, P: Program, L: Lines, J: Running> HeldStretch<'p, P, L, J> {
    /// Returns how much the tasks of the stretch computed in the superstep before: a hint, of which no clause says what it is.
    pub fn effort(&self) -> u64 {
        self.stretch.effort()
    }

    /// Gives the stretch up. Its tasks are lost.
    pub fn give_up(self) {
        let HeldStretch { stretch, .. } = self;
        stretch.give_up();
    }
}

impl<'p, P: Program, J: Running> RanStretch<'p, P, J> {
    ghost use Rattle.std.specs.Prelude.{◌≡◌, true};
    ghost use Rattle.stretch_queue.specs.HandedOut.{IsFor};

    /// Gives the stretch up. Its tasks are lost.
    pub fn give_up(self) {
        let RanStretch { stretch, .. } = self;
        stretch.give_up();
    }

    /// Returns the stretch, its ticket, the members of its tasks, and how many tasks came and left.
    pub fn into_parts(self) -> (Stretch<'p, P>, Ticket<()>, Tokens<J>, Moves)
        ensures stretch { result.0 ≡ self.entry }
        ensures done { result.0.part.done ≡ true }
        ensures mark { result.0.name ≡ J.mark }
        ensures pass { IsFor J.passes result.0.step result.0.number result.1 }
    {
        let RanStretch {
            stretch,
            pass,
            tokens,
            moves,
        } = self;
        (stretch, pass, tokens, moves)
    }
}
