//! Where a segment ends, and what it did up to there: line by line, by what each line says.
ghost use Rattle.std.specs.Prelude.{◌≡◌, ◌≤◌, Some, IfOk, length, slice_get};
ghost use Rattle.task_code.specs.Reading.{IsMatched};
ghost use Rattle.task_lang.specs.Meaning.{value_of as value_in};
ghost use Rattle.task_lang.specs.Views.{setting};
ghost use Rattle.fault_reasons.specs.Walk.{acted, costing, free_to as free_to_of, moved, moved_at, spent as spent_at, statement_count, tested, walked, with_local, with_put, with_spawn};

use std::alloc::AllocError;
use std::marker::Model;
use superstep_memory::arrays::{Put, PutKind};
use task_code::code::{Action, Cell, Expr, Line};
use task_code::operation::line_at;
use task_lang::fault::Fault;
use task_lang::scene::{Effect, Move, Scene};
use task_lang::segment::BUDGET;
use task_lang::value::{index_value, value_of};

/// What a segment has done so far: the locals that it has set, its puts in order, and how many tasks it has spawned.
#[derive(Drop)]
pub(crate) struct Doing {
    pub(crate) locals: Vec<i64>,
    pub(crate) puts: Vec<Put>,
    pub(crate) spawned: u8,
}

impl Model for Doing {
    ghost use Rattle.fault_reasons.specs.Done.{Done};

    ghost Value = { Done };

    ghost view = { λ d. record { locals = d.locals.items; puts = d.puts.items; spawned = d.spawned } };
}

/// How a segment ends.
#[derive(Clone, Copy)]
pub(crate) enum End {
    /// By a `sync`.
    Synced,
    /// By a `stop`, or at the end of the body.
    Stopped,
    /// By a fault of the statement at this place of the body.
    Fault(Fault, usize),
}

// Notes a put of a value. The cell is checked before a fault of the value counts.
fn put(
    scene: &Scene<'_>,
    doing: &mut Doing,
    kind: PutKind,
    cell: &Cell,
    expr: &Expr,
) -> Result<Effect, AllocError>
    ensures { IfOk result (λ e. (e, doing.new) ≡ with_put (setting scene.now) doing.old kind cell.now expr.now) }
{
    let array = cell.array;
    let index = index_value(scene, &doing.locals, &cell.index);
    let Some(index) = scene.arrays.place(array, index) else {
        return Ok(Effect::Fails(Fault::Index));
    };
    match value_of(scene, &doing.locals, expr) {
        Ok(value) => {
            doing.puts.push(Put {
                array,
                index,
                kind,
                value,
            })?;
            Ok(Effect::Goes)
        }
        Err(fault) => Ok(Effect::Fails(fault)),
    }
}

// Counts a spawn.
fn spawn(scene: &Scene<'_>, doing: &mut Doing) -> Effect
    ensures { (result, doing.new) ≡ with_spawn (setting scene.now) doing.old }
{
    if scene.path.len() >= 8 {
        return Effect::Fails(Fault::Depth);
    }
    if doing.spawned >= 8 || u32::from(scene.spawned) + u32::from(doing.spawned) >= 65535 {
        return Effect::Fails(Fault::Spawns);
    }
    doing.spawned += 1;
    Effect::Goes
}

// Sets a local, if it is there.
fn set_local(scene: &Scene<'_>, doing: &mut Doing, local: u8, expr: &Expr) -> Effect
    ensures { (result, doing.new) ≡ with_local (setting scene.now) doing.old local expr.now }
{
    match value_of(scene, &doing.locals, expr) {
        Ok(value) => {
            let local = usize::from(local);
            if local < doing.locals.len() {
                doing.locals[local] = value;
            }
            Effect::Goes
        }
        Err(fault) => Effect::Fails(fault),
    }
}

// Does an action.
fn act(scene: &Scene<'_>, doing: &mut Doing, action: &Action) -> Result<Effect, AllocError>
    ensures { IfOk result (λ e. (e, doing.new) ≡ acted (setting scene.now) doing.old action.now) }
{
    match action {
        Action::Let(local, expr) => Ok(set_local(scene, doing, *local, expr)),
        Action::Put(kind, cell, expr) => put(scene, doing, *kind, cell, expr),
        Action::Print(expr) => match value_of(scene, &doing.locals, expr) {
            Ok(_) => Ok(Effect::Goes),
            Err(fault) => Ok(Effect::Fails(fault)),
        },
        Action::Spawn(_, expr) => match value_of(scene, &doing.locals, expr) {
            Ok(_) => Ok(spawn(scene, doing)),
            Err(fault) => Ok(Effect::Fails(fault)),
        },
        Action::Sync => Ok(Effect::Syncs),
        Action::Stop => Ok(Effect::Stops),
    }
}

// Returns where a test leads.
fn test(scene: &Scene<'_>, doing: &Doing, test: &Expr, yes: usize, no: usize) -> Move
    ensures { result ≡ tested (value_in (setting scene.now) doing.now.locals test.now) yes no }
{
    match value_of(scene, &doing.locals, test) {
        Ok(0) => Move::To(no),
        Ok(_) => Move::To(yes),
        Err(fault) => Move::Fails(fault),
    }
}

// Does the line at a place, and returns where it leads.
fn play_line(
    scene: &Scene<'_>,
    code: &[Line],
    doing: &mut Doing,
    place: usize,
    line: &Line,
) -> Result<Move, AllocError>
    requires matched { IsMatched code.now }
    requires at { slice_get code.now place ≡ Some line.now }
    ensures { IfOk result (λ m. (m, doing.new) ≡ moved (setting scene.now) place doing.old line.now) }
{
    match line {
        Line::Do(action) => match act(scene, doing, action)? {
            Effect::Goes => Ok(Move::To(place + 1)),
            Effect::Syncs => Ok(Move::Syncs(place + 1)),
            Effect::Stops => Ok(Move::Stops),
            Effect::Fails(fault) => Ok(Move::Fails(fault)),
        },
        Line::If(expr, n) => Ok(test(scene, doing, expr, place + 1, place + 1 + *n)),
        Line::While(expr, n) => Ok(test(scene, doing, expr, place + 1, place + 1 + *n)),
        Line::EndWhile(expr, n) => Ok(test(scene, doing, expr, place - *n, place + 1)),
        Line::Else(n) => Ok(Move::To(place + 1 + *n)),
        Line::EndIf => Ok(Move::To(place + 1)),
    }
}

// Returns where the line at a place leads at no cost, if it costs nothing.
fn free_to(code: &[Line], place: usize) -> Option<usize>
    requires matched { IsMatched code.now }
    ensures { result ≡ free_to_of (slice_get code.now place) place }
{
    let line = line_at(code, place)?;
    match line {
        Line::Else(n) => Some(place + 1 + *n),
        Line::EndIf => Some(place + 1),
        _ => None,
    }
}

// Returns the first place from this one on whose line costs, or the end of the code.
fn skip(code: &[Line], first: usize) -> usize
    requires matched { IsMatched code.now }
    ensures { result ≡ costing code.now first }
{
    let mut place = first;
    let mut left = code.len();
    while left > 0 {
        left -= 1;
        match free_to(code, place) {
            Some(next) => place = next,
            None => return place,
        }
    }
    place
}

// Returns how a segment ends that has nothing left of its budget.
fn spent(code: &[Line], place: usize, doing: &Doing) -> End
    ensures { (result, doing.now) ≡ spent_at (slice_get code.now place) place doing.now }
{
    if place < code.len() {
        return End::Fault(Fault::Budget, place);
    }
    End::Stopped
}

// Does the line at a place, if there is one. Returns where it leads: after the last line, to the end of the task.
fn play_at(
    scene: &Scene<'_>,
    code: &[Line],
    doing: &mut Doing,
    place: usize,
) -> Result<Move, AllocError>
    requires matched { IsMatched code.now }
    ensures { IfOk result (λ m. (m, doing.new) ≡ moved_at (setting scene.now) (slice_get code.now place) place doing.old) }
{
    match line_at(code, place) {
        Some(line) => play_line(scene, code, doing, place, line),
        None => Ok(Move::Stops),
    }
}

/// Does a segment from a place of its body on. Returns how it ends.
pub(crate) fn walk(
    scene: &Scene<'_>,
    code: &[Line],
    first: usize,
    doing: &mut Doing,
) -> Result<End, AllocError>
    requires matched { IsMatched code.now }
    ensures { IfOk result (λ e. (e, doing.new) ≡ walked (setting scene.now) code.now 100000 first doing.old) }
{
    let mut place = first;
    let mut left = BUDGET;
    while left > 0 {
        left -= 1;
        let here = skip(code, place);
        match play_at(scene, code, doing, here)? {
            Move::To(next) => place = next,
            Move::Syncs(_) => return Ok(End::Synced),
            Move::Stops => return Ok(End::Stopped),
            Move::Fails(fault) => return Ok(End::Fault(fault, here)),
        }
    }
    Ok(spent(code, skip(code, place), doing))
}

/// Returns how many lines after the first of its body the statement is whose line is at a place: at the end of a loop, that is
/// the loop's first line.
pub(crate) fn statement_at(code: &[Line], place: usize) -> usize
    ensures { result ≡ statement_count (slice_get code.now place) place }
{
    match line_at(code, place) {
        None => 0,
        Some(Line::EndWhile(_, n)) => place.saturating_sub(*n),
        Some(_) => place + 1,
    }
}
