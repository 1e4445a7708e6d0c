//! The locals that lines mention.
ghost use Rattle.std.specs.Prelude.{◌≡◌, ◌↔◌, ◌++◌, ◌&&◌, ◌∷◌, true, [], IsTrue, Some};
ghost use Rattle.std.specs.List.{list_all};
ghost use Rattle.task_code.specs.Limits.{fits_index, fits_operand, fits_line};
ghost use Rattle.task_code.specs.Mentions as spec;
ghost use Rattle.task_code.specs.Operands.{if_any, over_operands};

use crate::code::{Action, Cell, Index, Line, Operand};
use crate::limits::is_number;
use crate::operands::{Operands, operands_of};

// Returns true unless an index is a local that isn't below this number. Shows on the way that a number has 64 bits.
fn is_below_index(index: Index, count: usize) -> bool
    ensures below { result ≡ spec.are_below count (spec.in_index index) }
    ensures fits { IsTrue (fits_index index) }
{
    match index {
        Index::Local(local) => usize::from(local) < count,
        Index::Number(number) => {
            // For the prover: the contract of `is_number` names the range.
            let _fits = is_number(number);
            true
        }
        Index::Arg | Index::Step => true,
    }
}

fn is_below_operand(operand: Option<Operand>, count: usize) -> bool
    ensures below { result ≡ spec.are_below count (if_any [] spec.in_operand operand) }
    ensures fits { IsTrue (if_any true fits_operand operand) }
{
    match operand {
        Some(Operand::Plain(index)) => is_below_index(index, count),
        Some(Operand::Cell(cell)) => is_below_index(cell.index, count),
        None => true,
    }
}

fn are_below_operands(operands: &Operands, count: usize) -> bool
    ensures below { result ≡ spec.are_below count (over_operands ◌++◌ [] spec.in_operand operands.now) }
    ensures fits { IsTrue (over_operands ◌&&◌ true fits_operand operands.now) }
{
    let cell = is_below_operand(operands.cell, count);
    let left = is_below_operand(operands.left, count);
    let right = is_below_operand(operands.right, count);
    cell && left && right
}

// Returns true unless a line sets a local that isn't below this number.
fn sets_below(line: &Line, count: usize) -> bool
    ensures { result ≡ spec.are_below count (spec.set_in line.now) }
{
    match line {
        Line::Do(Action::Let(local, _)) => usize::from(*local) < count,
        _ => true,
    }
}

fn is_below(line: &Line, count: usize) -> bool
    ensures below { result ≡ spec.are_below count (spec.in_line line.now) }
    ensures fits { IsTrue (fits_line line.now) }
{
    let set = sets_below(line, count);
    let operands = are_below_operands(&operands_of(line, false), count);
    set && operands
}

/// Returns true if the locals that lines mention are below this number. Shows on the way that the lines' numbers have 64 bits.
pub(crate) fn are_below(code: &[Line], count: usize) -> bool
    ensures below { result ≡ spec.are_below count (spec.mentions code.now) }
    ensures fits { IsTrue result → IsTrue (list_all fits_line code.now) }
{
    for line in code {
        if !is_below(line, count) {
            return false;
        }
    }
    true
}

// Returns how many locals have been mentioned after this one, given how many were before it. `None` if one is left out.
fn mention(known: usize, local: u8) -> Option<usize>
    ensures { result ≡ spec.mentioned known (local ∷ []) }
{
    let local = usize::from(local);
    if local == known {
        Some(known + 1)
    } else if local < known {
        Some(known)
    } else {
        None
    }
}

fn mention_operand(known: usize, operand: Option<Operand>) -> Option<usize>
    ensures { result ≡ spec.mentioned known (if_any [] spec.in_operand operand) }
{
    match operand {
        Some(
            Operand::Plain(Index::Local(local))
            | Operand::Cell(
                Cell {
                    array: _,
                    index: Index::Local(local),
                },
            ),
        ) => mention(known, local),
        _ => Some(known),
    }
}

fn mention_operands(known: usize, operands: &Operands) -> Option<usize>
    ensures { result ≡ spec.mentioned known (over_operands ◌++◌ [] spec.in_operand operands.now) }
{
    let with_cell = mention_operand(known, operands.cell)?;
    let with_left = mention_operand(with_cell, operands.left)?;
    mention_operand(with_left, operands.right)
}

// Returns how many locals have been mentioned after the one that a line sets, given how many were before it.
fn mention_set(known: usize, line: &Line) -> Option<usize>
    ensures { result ≡ spec.mentioned known (spec.set_in line.now) }
{
    match line {
        Line::Do(Action::Let(local, _)) => mention(known, *local),
        _ => Some(known),
    }
}

fn mention_line(known: usize, line: &Line) -> Option<usize>
    ensures { result ≡ spec.mentioned known (spec.in_line line.now) }
{
    let with_set = mention_set(known, line)?;
    mention_operands(with_set, &operands_of(line, false))
}

/// Returns true if lines mention `count` locals, each for the first time after those before it.
pub(crate) fn are_in_order(code: &[Line], count: usize) -> bool
    ensures { IsTrue result ↔ (spec.mentioned 0 (spec.mentions code.now) ≡ Some count) }
{
    let mut known = 0;
    let mut rest = code;
    while let Some((line, after)) = rest.split_first() {
        match mention_line(known, line) {
            Some(now) => known = now,
            None => return false,
        }
        rest = after;
    }
    known == count
}
