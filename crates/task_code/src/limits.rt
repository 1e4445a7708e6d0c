//! What the limits of a body count, and which numbers lines may have.
ghost use Rattle.std.specs.Prelude.{◌≡◌, ◌↔◌, ◌≤◌, ◌&&◌, true, IsTrue};
ghost use Rattle.std.specs.List.{list_all};
ghost use Rattle.text_lines.specs.Number.{fits_i64};
ghost use Rattle.task_code.specs.Limits as spec;
ghost use Rattle.task_code.specs.Operands.{if_any, over_operands};

use crate::body::MOST_OPEN;
use crate::code::{Action, Line, Operand};
use crate::operands::{Operands, operands_of};
use superstep_memory::arrays::PutKind;

/// Returns true if a number is one of 64 signed bits, as each of its type is.
#[tactic(auto, using(text_lines::proofs::NumbersLemmas::fits_back))]
pub(crate) fn is_number(number: i64) -> bool
    ensures result { result ≡ fits_i64 number }
    ensures fits { IsTrue (fits_i64 number) }
{
    true
}

// Returns true if a line is a statement.
fn is_statement(line: &Line) -> bool
    ensures { result ≡ spec.is_statement line.now }
{
    match line {
        Line::Do(_) | Line::If(_, _) | Line::While(_, _) => true,
        Line::Else(_) | Line::EndIf | Line::EndWhile(_, _) => false,
    }
}

/// Returns how many statements these lines are.
pub(crate) fn statements(code: &[Line]) -> usize
    ensures { result ≡ spec.statements code.now }
{
    let mut count = 0;
    for line in code {
        if is_statement(line) {
            count += 1;
        }
    }
    count
}

// Returns how many lines are open after this one, given how many were before it.
fn opened(before: usize, line: &Line) -> usize
    requires { before ≤ 16 }
    ensures { result ≡ spec.opened before line.now }
{
    match line {
        Line::If(_, _) | Line::While(_, _) => before + 1,
        Line::EndIf | Line::EndWhile(_, _) => before.saturating_sub(1),
        Line::Do(_) | Line::Else(_) => before,
    }
}

/// Returns true if at most 16 lines are open at once.
pub(crate) fn are_shallow(code: &[Line]) -> bool
    ensures { IsTrue result ↔ (spec.deepest 0 code.now ≤ MOST_OPEN) }
{
    let mut open_lines = 0;
    let mut rest = code;
    while let Some((line, after)) = rest.split_first() {
        open_lines = opened(open_lines, line);
        if open_lines > MOST_OPEN {
            return false;
        }
        rest = after;
    }
    true
}

fn is_operand(operand: Option<Operand>, arrays: usize) -> bool
    ensures { result ≡ if_any true (spec.is_operand arrays) operand }
{
    match operand {
        Some(Operand::Cell(cell)) => usize::from(cell.array) < arrays,
        Some(Operand::Plain(_)) | None => true,
    }
}

fn are_operands(operands: &Operands, arrays: usize) -> bool
    ensures { result ≡ over_operands ◌&&◌ true (spec.is_operand arrays) operands.now }
{
    is_operand(operands.cell, arrays)
        && is_operand(operands.left, arrays)
        && is_operand(operands.right, arrays)
}

// Returns true unless a line spawns a task of a body that isn't below this number.
fn has_body(line: &Line, bodies: usize) -> bool
    ensures { result ≡ spec.has_body_in bodies line.now }
{
    match line {
        Line::Do(Action::Spawn(body, _)) => usize::from(*body) < bodies,
        _ => true,
    }
}

fn is_line(line: &Line, arrays: usize, bodies: usize) -> bool
    ensures { result ≡ spec.is_line arrays bodies line.now }
{
    has_body(line, bodies) && are_operands(&operands_of(line, true), arrays)
}

// Returns true if a line is one of format 1, which has no add.
fn is_of_first(line: &Line) -> bool
    ensures { result ≡ spec.is_of_first line.now }
{
    match line {
        Line::Do(Action::Put(kind, _, _)) => *kind == PutKind::Set,
        _ => true,
    }
}

/// Returns true if lines are those of format 1.
pub(crate) fn are_of_first(code: &[Line]) -> bool
    ensures { result ≡ list_all spec.is_of_first code.now }
{
    code.iter().all(|line| is_of_first(line))
}

/// Returns true if lines name only arrays and bodies below these numbers.
pub(crate) fn are_lines(code: &[Line], arrays: usize, bodies: usize) -> bool
    ensures { result ≡ list_all (spec.is_line arrays bodies) code.now }
{
    code.iter().all(|line| is_line(line, arrays, bodies))
}
