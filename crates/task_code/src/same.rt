//! Whether two lines, or parts of them, are the same.
ghost use Rattle.std.specs.Prelude.{◌≡◌, ◌↔◌, IsTrue, map, string_bytes};

use crate::body::Body;
use crate::code::{Action, Cell, Expr, Line, Operand, Operator};
use crate::job::Start;
use superstep_memory::arrays::PutKind;

fn same_kind(a: PutKind, b: PutKind) -> bool
    ensures { IsTrue result ↔ (a ≡ b) }
{
    a == b
}

fn same_cell(a: Cell, b: Cell) -> bool
    ensures { IsTrue result ↔ (a ≡ b) }
{
    a == b
}

fn same_operand(a: Operand, b: Operand) -> bool
    ensures { IsTrue result ↔ (a ≡ b) }
{
    a == b
}

fn same_operator(a: Operator, b: Operator) -> bool
    ensures { IsTrue result ↔ (a ≡ b) }
{
    a == b
}

fn same_expr(a: Expr, b: Expr) -> bool
    ensures { IsTrue result ↔ (a ≡ b) }
{
    match (a, b) {
        (Expr::One(x), Expr::One(y)) => same_operand(x, y),
        (Expr::Two(x, o, y), Expr::Two(p, q, r)) => {
            if !same_operand(x, p) {
                return false;
            }
            if !same_operator(o, q) {
                return false;
            }
            same_operand(y, r)
        }
        _ => false,
    }
}

fn same_action(a: Action, b: Action) -> bool
    ensures { IsTrue result ↔ (a ≡ b) }
{
    match (a, b) {
        (Action::Let(x, e), Action::Let(y, f)) => {
            if x != y {
                return false;
            }
            same_expr(e, f)
        }
        (Action::Put(k, x, e), Action::Put(l, y, f)) => {
            if !same_kind(k, l) {
                return false;
            }
            if !same_cell(x, y) {
                return false;
            }
            same_expr(e, f)
        }
        (Action::Print(e), Action::Print(f)) => same_expr(e, f),
        (Action::Spawn(x, e), Action::Spawn(y, f)) => {
            if x != y {
                return false;
            }
            same_expr(e, f)
        }
        (Action::Sync, Action::Sync) => true,
        (Action::Stop, Action::Stop) => true,
        _ => false,
    }
}

fn same_line(a: Line, b: Line) -> bool
    ensures { IsTrue result ↔ (a ≡ b) }
{
    match (a, b) {
        (Line::Do(x), Line::Do(y)) => same_action(x, y),
        (Line::If(e, n), Line::If(f, m))
        | (Line::While(e, n), Line::While(f, m))
        | (Line::EndWhile(e, n), Line::EndWhile(f, m)) => {
            if n != m {
                return false;
            }
            same_expr(e, f)
        }
        (Line::Else(n), Line::Else(m)) => n == m,
        (Line::EndIf, Line::EndIf) => true,
        _ => false,
    }
}

/// Returns true if lines are the same.
pub(crate) fn same_code(a: &[Line], b: &[Line]) -> bool
    ensures { IsTrue result ↔ (a.now ≡ b.now) }
{
    if a.len() != b.len() {
        return false;
    }
    for i in 0..a.len() {
        if !same_line(a[i], b[i]) {
            return false;
        }
    }
    true
}

// Returns true if two names are the same.
fn same_name(a: &str, b: &str) -> bool
    ensures { IsTrue result ↔ (a.now ≡ b.now) }
{
    a == b
}

// Returns true if names are the same.
fn same_names(a: &[String], b: &[String]) -> bool
    ensures { IsTrue result ↔ (map string_bytes a.now ≡ map string_bytes b.now) }
{
    if a.len() != b.len() {
        return false;
    }
    for i in 0..a.len() {
        if !same_name(a[i].as_str(), b[i].as_str()) {
            return false;
        }
    }
    true
}

// Returns true if two bodies are the same.
fn same_body(a: &Body, b: &Body) -> bool
    ensures { IsTrue result ↔ (a.now ≡ b.now) }
{
    if !same_name(a.name(), b.name()) {
        return false;
    }
    if !same_names(a.locals(), b.locals()) {
        return false;
    }
    same_code(a.code(), b.code())
}

/// Returns true if bodies are the same.
pub(crate) fn same_bodies(a: &[Body], b: &[Body]) -> bool
    ensures { IsTrue result ↔ (a.now ≡ b.now) }
{
    if a.len() != b.len() {
        return false;
    }
    for i in 0..a.len() {
        if !same_body(&a[i], &b[i]) {
            return false;
        }
    }
    true
}

// Returns true if two start lines are the same.
fn same_start(a: Start, b: Start) -> bool
    ensures { IsTrue result ↔ (a ≡ b) }
{
    a == b
}

/// Returns true if start lines are the same.
pub(crate) fn same_starts(a: &[Start], b: &[Start]) -> bool
    ensures { IsTrue result ↔ (a.now ≡ b.now) }
{
    if a.len() != b.len() {
        return false;
    }
    for i in 0..a.len() {
        if !same_start(a[i], b[i]) {
            return false;
        }
    }
    true
}
