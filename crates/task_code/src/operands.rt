//! The one way through a line's operands in code.
ghost use Rattle.std.specs.Prelude.{◌≡◌, ◌++◌, []};
ghost use Rattle.task_code.specs.Operands as spec;

use crate::code::{Action, Expr, Line, Operand};

/// A line's operands: the cell that is put to, and what its expression takes.
#[derive(Clone, Copy)]
pub(crate) struct Operands {
    pub(crate) cell: Option<Operand>,
    pub(crate) left: Option<Operand>,
    pub(crate) right: Option<Operand>,
}

// Returns the operands of an expression, after the cell that is put to.
fn of_expr(cell: Option<Operand>, expr: &Expr) -> Operands
    ensures { spec.listed result ≡ spec.if_any [] spec.alone cell ++ spec.over_expr ◌++◌ [] spec.alone expr.now }
{
    let (left, right) = match *expr {
        Expr::One(a) => (a, None),
        Expr::Two(a, _, b) => (a, Some(b)),
    };
    Operands {
        cell,
        left: Some(left),
        right,
    }
}

// Returns no operand at all.
fn nothing() -> Operands
    ensures { spec.listed result ≡ [] }
{
    Operands {
        cell: None,
        left: None,
        right: None,
    }
}

fn of_action(action: &Action) -> Operands
    ensures { spec.listed result ≡ spec.over_action ◌++◌ [] spec.alone action.now }
{
    match action {
        Action::Let(_, expr) | Action::Print(expr) | Action::Spawn(_, expr) => of_expr(None, expr),
        Action::Put(_, cell, expr) => of_expr(Some(Operand::Cell(*cell)), expr),
        Action::Sync | Action::Stop => nothing(),
    }
}

/// Returns the operands of a line. If `again` is true, the end of a loop has those of its first line again, which the text
/// doesn't say.
pub(crate) fn operands_of(line: &Line, again: bool) -> Operands
    ensures { spec.listed result ≡ spec.line_operands again line.now }
{
    match line {
        Line::Do(action) => of_action(action),
        Line::If(expr, _) | Line::While(expr, _) => of_expr(None, expr),
        Line::EndWhile(expr, _) if again => of_expr(None, expr),
        Line::Else(_) | Line::EndIf | Line::EndWhile(_, _) => nothing(),
    }
}
