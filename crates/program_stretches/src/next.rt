//! The stretches of the next superstep, if tasks came or left.
ghost use Rattle.std.specs.Prelude.{◌≡◌, ◌≤◌, ◌<◌, ◌+◌, ◌^◌, ◌++◌, [], None, true, false, IfOk, OnOk, IsTrue, length, map, reverse, slice_get};
ghost use Rattle.std.specs.Option.{option_map};
ghost use Rattle.std.specs.Vec.{vec_len, vec_capacity};
ghost use Rattle.superstep_memory.specs.PathOrder.{in_path_order, put_all};
ghost use Rattle.programs.specs.InPlace.{living_with};
ghost use Rattle.programs.specs.Regroup.{IsWithin, IsInOrder};
ghost use Rattle.program_stretches.specs.Parts.{AreFresh, fresh_part, tasks_in, living_in};
ghost use Rattle.program_stretches.specs.Next.{Receives, PassesBy, IsStrayNext, HasMovedLast, IsEndWithin, IsFirstBefore, AreEmpty, CanSettle, CanAllSettle, all_in, all_of};

use crate::cut::{cut_off, number_in, set_bounds, size_for};
use crate::part::{Part, first_of};
use programs::program::OnPath;
use std::alloc::{AllocError, Global};
use std::mem;
use superstep_memory::path::{Path, is_before};

// A stretch without its tasks, and its next live tasks.
#[derive(Drop)]
struct Piece<T: OnPath> {
    part: Part<T>,
    tasks: Vec<T>,
}

// Returns true if there is a stray, and the first of them comes before this path or there is no path.
fn is_first_below<T: OnPath>(strays: &[T], low: &Option<Path>) -> bool
    ensures below { result ≡ true → IsFirstBefore T.path_of (option_map (λ p. p.items) low.now) (reverse strays.now) }
    ensures all { result ≡ false → low.now ≡ None → strays.now ≡ [] }
{
    let Some(first) = strays.last() else {
        return false;
    };
    match low {
        Some(path) => is_before(first.path().as_slice(), path.as_slice()),
        None => true,
    }
}

// Returns true if there is a path, and a task comes after it.
fn is_above<T: OnPath>(task: &T, low: &Option<Path>) -> bool
    ensures { result ≡ false → IsWithin T.path_of (option_map (λ p. p.items) low.now) task.now }
{
    match low {
        Some(path) => is_before(path.as_slice(), task.path().as_slice()),
        None => false,
    }
}

// Moves the last task of a list to the end of another, which has room for it.
fn move_last<T: OnPath>(tasks: &mut Vec<T>, others: &mut Vec<T>)
    requires some { 0 < length tasks.old.items }
    requires capacity { vec_len others.old < vec_capacity others.old }
    ensures moved { HasMovedLast tasks.old.items tasks.new.items others.old.items others.new.items }
    ensures count { (vec_len tasks.new + 1 ≡ vec_len tasks.old) × (vec_len others.new ≡ vec_len others.old + 1) }
    ensures capacity { vec_capacity others.new ≡ vec_capacity others.old }
{
    match tasks.pop() {
        Some(task) => others.push_reserved(task),
        None => unreachable!(),
    }
}

// Moves tasks from the end of a list to the strays that follow it, as long as they come after this path.
fn pull_back<T: OnPath>(
    tasks: &mut Vec<T>,
    strays: &mut Vec<T>,
    low: &Option<Path>,
) -> Result<(), AllocError>
    ensures same { OnOk result (tasks.new.items ++ reverse strays.new.items ≡ tasks.old.items ++ reverse strays.old.items) }
    ensures end { OnOk result (IsEndWithin T.path_of (option_map (λ p. p.items) low.now) (reverse tasks.new.items)) }
{
    while let Some(last) = tasks.last() {
        if !is_above(last, low) {
            break;
        }
        strays.reserve(1)?;
        move_last(tasks, strays);
    }
    Ok(())
}

// Moves the first strays to the end of the list that they follow, as long as they come before this path.
fn keep_early<T: OnPath>(
    tasks: &mut Vec<T>,
    strays: &mut Vec<T>,
    low: &Option<Path>,
) -> Result<(), AllocError>
    requires end { IsEndWithin T.path_of (option_map (λ p. p.items) low.now) (reverse tasks.old.items) }
    ensures same { OnOk result (tasks.new.items ++ reverse strays.new.items ≡ tasks.old.items ++ reverse strays.old.items) }
    ensures end { OnOk result (IsEndWithin T.path_of (option_map (λ p. p.items) low.now) (reverse tasks.new.items)) }
    ensures all { OnOk result (low.now ≡ None → strays.new.items ≡ []) }
{
    while is_first_below(strays, low) {
        tasks.reserve(1)?;
        move_last(strays, tasks);
    }
    Ok(())
}

// Returns true if the first of these strays doesn't come after the last of these tasks. `false` if there are no strays or no tasks.
fn is_stray_next<T: OnPath>(tasks: &[T], strays: &[T]) -> bool
    ensures stray { result ≡ true → IsStrayNext T.path_of (reverse tasks.now) (reverse strays.now) }
    ensures task { result ≡ false → PassesBy T.path_of (reverse tasks.now) (reverse strays.now) }
{
    let Some(task) = tasks.last() else {
        return false;
    };
    match strays.last() {
        Some(stray) => !is_before(task.path().as_slice(), stray.path().as_slice()),
        None => false,
    }
}

// Moves tasks to the end of others, the last of them first, and in front of each the strays that it doesn't come before.
fn merge<T: OnPath>(tasks: &mut Vec<T>, strays: &mut Vec<T>, all: &mut Vec<T>)
    requires none_yet { all.old.items ≡ [] }
    requires capacity { vec_len tasks.old + vec_len strays.old ≤ vec_capacity all.old }
    requires order { IsInOrder T.path_of (reverse strays.old.items) }
    ensures { Receives T.path_of (reverse tasks.old.items) all.new.items (reverse strays.old.items) (reverse strays.new.items) }
{
    while !tasks.is_empty() {
        if is_stray_next(tasks, strays) {
            move_last(strays, all);
        } else {
            move_last(tasks, all);
        }
    }
}

// Puts strays in their places among tasks, as long as they don't come after the last of these. The other strays are left.
fn receive<T: OnPath>(
    alloc: Global,
    tasks: &mut Vec<T>,
    strays: &mut Vec<T>,
) -> Result<(), AllocError>
    requires tasks { IsInOrder T.path_of tasks.old.items }
    requires strays { IsInOrder T.path_of (reverse strays.old.items) }
    ensures { OnOk result (Receives T.path_of tasks.old.items tasks.new.items (reverse strays.old.items) (reverse strays.new.items)) }
{
    if !is_stray_next(tasks, strays) {
        return Ok(());
    }
    let Some(count) = tasks.len().checked_add(strays.len()) else {
        return Err(AllocError);
    };
    let mut all = Vec::with_capacity(alloc, count)?;
    tasks.reverse();
    merge(tasks, strays, &mut all);
    mem::swap(tasks, &mut all);
    Ok(())
}

// Does the same for the tasks of a piece.
fn receive_in<T: OnPath>(
    alloc: Global,
    piece: &mut Piece<T>,
    strays: &mut Vec<T>,
) -> Result<(), AllocError>
    requires tasks { IsInOrder T.path_of piece.old.tasks.items }
    requires strays { IsInOrder T.path_of (reverse strays.old.items) }
    ensures same { piece.new.part ≡ piece.old.part }
    ensures tasks { OnOk result (Receives T.path_of piece.old.tasks.items piece.new.tasks.items (reverse strays.old.items) (reverse strays.new.items)) }
{
    receive(alloc, &mut piece.tasks, strays)
}

// Moves all strays to the end of the tasks of a piece.
fn add_all<T: OnPath>(piece: &mut Piece<T>, strays: &mut Vec<T>) -> Result<(), AllocError>
    ensures same { piece.new.part ≡ piece.old.part }
    ensures tasks { OnOk result (piece.new.tasks.items ≡ piece.old.tasks.items ++ reverse strays.old.items) }
{
    strays.reverse();
    piece.tasks.append(strays)
}

// Puts strays in their places among the tasks of pieces, of which the last comes first.
fn place<T: OnPath>(
    alloc: Global,
    pieces: &mut Vec<Piece<T>>,
    strays: &mut Vec<T>,
) -> Result<(), AllocError>
    requires tasks { IsInOrder T.path_of (all_in pieces.old.items) }
    requires strays { IsInOrder T.path_of (reverse strays.old.items) }
    requires some { pieces.old.items ≡ [] → strays.old.items ≡ [] }
    requires empty { AreEmpty pieces.old.items }
    ensures empty { OnOk result (AreEmpty pieces.new.items) }
    ensures tasks { OnOk result (all_in pieces.new.items ≡ put_all T.path_of (reverse strays.old.items) (all_in pieces.old.items)) }
{
    let mut place = pieces.len();
    while place > 0 {
        if strays.is_empty() {
            return Ok(());
        }
        place -= 1;
        receive_in(alloc, &mut pieces[place], strays)?;
    }
    if pieces.is_empty() {
        return Ok(());
    }
    add_all(&mut pieces[0], strays)
}

// Returns the path of the first task of pieces, of which the last comes first, if there is one.
fn first_in<T: OnPath>(pieces: &[Piece<T>]) -> Option<Path>
    ensures { option_map (λ p. p.items) result ≡ slice_get (map T.path_of (all_in pieces.now)) 0 }
{
    let mut rest = pieces;
    while let Some((last, before)) = rest.split_last() {
        let first = first_of(&last.tasks);
        if first.is_some() {
            return first;
        }
        rest = before;
    }
    None
}

// Puts tasks in front of those of a piece. The list has room for them.
fn put_front<T: OnPath>(piece: &mut Piece<T>, tasks: Vec<T>) -> Result<(), AllocError>
    ensures same { piece.new.part ≡ piece.old.part }
    ensures tasks { OnOk result (piece.new.tasks.items ≡ tasks.items ++ piece.old.tasks.items) }
{
    let mut all = tasks;
    all.append(&mut piece.tasks)?;
    mem::swap(&mut all, &mut piece.tasks);
    Ok(())
}

// Returns true if a list of tasks is joined with the tasks after it: one has none, or they are at most `most` together.
fn are_joined<T: OnPath>(tasks: &[T], behind: &[T], most: usize) -> bool {
    if tasks.is_empty() || behind.is_empty() {
        return true;
    }
    tasks.len() <= most && behind.len() <= most - tasks.len()
}

// Adds a piece in front of others, or its tasks to the one after it, if these are few.
fn push_piece<T: OnPath>(
    pieces: &mut Vec<Piece<T>>,
    piece: Piece<T>,
    most: usize,
) -> Result<(), AllocError>
    requires fresh { piece.part ≡ fresh_part 0 [] }
    requires empty { AreEmpty pieces.old.items }
    ensures empty { OnOk result (AreEmpty pieces.new.items) }
    ensures tasks { OnOk result (all_in pieces.new.items ≡ piece.tasks.items ++ all_in pieces.old.items) }
{
    let count = pieces.len();
    if count > 0 && are_joined(&piece.tasks, &pieces[count - 1].tasks, most) {
        return put_front(&mut pieces[count - 1], piece.tasks);
    }
    pieces.push(piece)?;
    Ok(())
}

// Adds the next live tasks of a stretch in front of those of others, as far as they come before them.
fn add_part<T: OnPath>(
    alloc: Global,
    pieces: &mut Vec<Piece<T>>,
    part: Part<T>,
    most: usize,
) -> Result<(), AllocError>
    requires can { CanSettle T.path_of part }
    requires order { IsInOrder T.path_of (all_in pieces.old.items) }
    requires empty { AreEmpty pieces.old.items }
    ensures empty { OnOk result (AreEmpty pieces.new.items) }
    ensures tasks { OnOk result (all_in pieces.new.items ≡ put_all T.path_of (living_with part.tasks part.deeds) (all_in pieces.old.items)) }
{
    let mut part = part;
    let mut strays = Vec::new(alloc);
    let mut tasks = part.take_next(alloc, &mut strays)?;
    let low = first_in(pieces);
    pull_back(&mut tasks, &mut strays, &low)?;
    keep_early(&mut tasks, &mut strays, &low)?;
    place(alloc, pieces, &mut strays)?;
    push_piece(pieces, Piece { part, tasks }, most)
}

// Returns the next live tasks of all stretches, in pieces, of which the last comes first.
fn next_pieces<T: OnPath>(
    alloc: Global,
    parts: Vec<Option<Part<T>>>,
    most: usize,
) -> Result<Vec<Piece<T>>, AllocError>
    requires can { CanAllSettle T.path_of parts.items }
    ensures empty { IfOk result (λ pieces. AreEmpty pieces.items) }
    ensures tasks { IfOk result (λ pieces. all_in pieces.items ≡ in_path_order T.path_of (living_in parts.items)) }
{
    let mut parts = parts;
    let mut pieces = Vec::with_capacity(alloc, parts.len())?;
    while let Some(slot) = parts.pop() {
        if let Some(part) = slot {
            add_part(alloc, &mut pieces, part, most)?;
        }
    }
    Ok(pieces)
}

// Returns how many tasks a stretch has at most before it is cut, if each is to have about `size`.
fn most_for(size: usize) -> usize
    requires { 1 ≤ size }
    ensures { size ≤ result }
{
    if size == 1 {
        return 1;
    }
    size.saturating_mul(2)
}

// Makes stretches of pieces, of which the last comes first, and cuts those over twice the size.
fn make_parts<T: OnPath>(
    alloc: Global,
    pieces: Vec<Piece<T>>,
    count: usize,
    size: usize,
) -> Result<Vec<Option<Part<T>>>, AllocError>
    requires size { 1 ≤ size }
    requires count { length (all_in pieces.items) ≡ count }
    requires empty { AreEmpty pieces.items }
    ensures fresh { IfOk result (λ parts. AreFresh 0 parts.items) }
    ensures tasks { IfOk result (λ parts. tasks_in parts.items ≡ all_in pieces.items) }
{
    let mut pieces = pieces;
    let mut parts = Vec::with_capacity(alloc, pieces.len())?;
    let mut end = count;
    let most = most_for(size);
    pieces.reverse();
    while let Some(piece) = pieces.pop() {
        let Piece { part, mut tasks } = piece;
        let from = end - tasks.len();
        parts.reserve(1)?;
        let number = number_in(&tasks, size);
        cut_off(alloc, &mut tasks, from, number, most, &mut parts);
        parts.push_reserved(Some(part.with_tasks(from, tasks)));
        end = from;
    }
    parts.reverse();
    Ok(parts)
}

/// Makes the stretches of the next superstep, in which `count` tasks live, of stretches in which tasks came or left. Those in
/// which no task came or left stay as they are, but those over twice the size of `pieces` equal ones are cut, and those under
/// half of it joined.
pub fn next_parts<T: OnPath>(
    alloc: Global,
    parts: Vec<Option<Part<T>>>,
    count: usize,
    pieces: usize,
) -> Result<Vec<Option<Part<T>>>, AllocError>
    requires pieces { 1 ≤ pieces }
    requires can { CanAllSettle T.path_of parts.items }
    requires count { length (living_in parts.items) ≡ count }
    ensures fresh { IfOk result (λ next. AreFresh 0 next.items) }
    ensures tasks { IfOk result (λ next. tasks_in next.items ≡ in_path_order T.path_of (living_in parts.items)) }
{
    let size = size_for(count, pieces);
    let pieces = next_pieces(alloc, parts, size / 2)?;
    let mut next = make_parts(alloc, pieces, count, size)?;
    set_bounds(&mut next);
    Ok(next)
}
