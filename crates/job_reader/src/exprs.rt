//! Cells and expressions as words.
ghost use Rattle.std.specs.Prelude.{◌≡◌, ◌≤◌, ◌+◌, ◌∷◌, [], ◌<◌, length, None, Some, MatchOption};
ghost use Rattle.job_reader.specs.Exprs as spec;
ghost use Rattle.job_reader.specs.Views.{lent, names_in};

use crate::faults::both;
use crate::words::{declared_at, index_of, is_word};
use task_code::code::{Cell, Expr, Operand, Operator};
use text_lines::Code;

/// The names that a line may use.
#[derive(Clone, Copy)]
pub struct Scope<'a> {
    /// The arrays declared above the line, in declared order.
    pub arrays: &'a [&'a [u8]],
    /// The bodies of the text, in declared order.
    pub bodies: &'a [&'a [u8]],
    /// The locals of the line's body, by first mention.
    pub locals: &'a [&'a [u8]],
}

// Returns what precedes the closing bracket, if that ends the word and there is no other bracket.
#[tactic(auto, using(crate::proofs::CellLemmas::index_steps))]
fn index_part(rest: &[u8]) -> Option<&[u8]>
    ensures { MatchOption result (spec.index_part rest.now ≡ None) (λ i. spec.index_part rest.now ≡ Some i.now) }
{
    for (i, byte) in rest.iter().enumerate() {
        if *byte == b'[' {
            return None;
        }
        if *byte == b']' {
            if i + 1 < rest.len() {
                return None;
            }
            let (index, _) = rest.split_at(i);
            return Some(index);
        }
    }
    None
}

/// Splits a word into the name and the index of a cell, if it has one `[` and one `]` and ends in the latter.
#[tactic(auto, using(crate::proofs::CellLemmas::cell_steps))]
pub fn cell_parts(word: &[u8]) -> Option<(&[u8], &[u8])>
    ensures { MatchOption result (spec.cell_parts word.now ≡ None) (λ p. spec.cell_parts word.now ≡ Some (p.0.now, p.1.now)) }
{
    for (i, byte) in word.iter().enumerate() {
        if *byte == b']' {
            return None;
        }
        if *byte == b'[' {
            let (name, rest) = word.split_at(i);
            let (_, rest) = rest.split_at(1);
            let index = index_part(rest)?;
            return Some((name, index));
        }
    }
    None
}

/// Returns true if a word has a `[` and so is meant as a cell.
pub fn has_bracket(word: &[u8]) -> bool
    ensures { result ≡ spec.has_bracket word.now }
{
    for first in word {
        if *first == b'[' {
            return true;
        }
    }
    false
}

/// Reads a word as a cell.
#[tactic(auto, unfolding(crate::specs::Exprs::cell_of))]
pub fn cell_of(scope: &Scope<'_>, word: &[u8]) -> Result<Cell, Code>
    requires arrays { length scope.now.arrays.now ≤ 65536 }
    requires locals { length scope.now.locals.now ≤ 256 }
    ensures { result ≡ spec.cell_of (names_in scope.now) word.now }
{
    let Some((name, index)) = cell_parts(word) else {
        return Err(Code::BadLine);
    };
    let (array, index) = both(
        declared_at(scope.arrays, name),
        index_of(scope.locals, index),
    )?;
    Ok(Cell {
        array: array as u16,
        index,
    })
}

/// Reads a word as an operand: a cell or an index.
#[tactic(auto, unfolding(crate::specs::Exprs::operand_of))]
pub fn operand_of(scope: &Scope<'_>, word: &[u8]) -> Result<Operand, Code>
    requires arrays { length scope.now.arrays.now ≤ 65536 }
    requires locals { length scope.now.locals.now ≤ 256 }
    ensures { result ≡ spec.operand_of (names_in scope.now) word.now }
{
    if has_bracket(word) {
        Ok(Operand::Cell(cell_of(scope, word)?))
    } else {
        Ok(Operand::Plain(index_of(scope.locals, word)?))
    }
}

/// Reads a word as an operator.
#[tactic(auto, unfolding(crate::specs::Exprs::operator_of))]
pub fn operator_of(word: &[u8]) -> Result<Operator, Code>
    ensures { result ≡ spec.operator_of word.now }
{
    if is_word(word, b"+") {
        Ok(Operator::Add)
    } else if is_word(word, b"-") {
        Ok(Operator::Subtract)
    } else if is_word(word, b"*") {
        Ok(Operator::Multiply)
    } else if is_word(word, b"/") {
        Ok(Operator::Divide)
    } else if is_word(word, b"%") {
        Ok(Operator::Remainder)
    } else if is_word(word, b"<") {
        Ok(Operator::Below)
    } else if is_word(word, b"<=") {
        Ok(Operator::AtMost)
    } else if is_word(word, b"==") {
        Ok(Operator::Equal)
    } else if is_word(word, b"!=") {
        Ok(Operator::NotEqual)
    } else {
        Err(Code::BadLine)
    }
}

// Reads an operator between two operands.
fn two_of(scope: &Scope<'_>, a: &[u8], op: &[u8], b: &[u8]) -> Result<Expr, Code>
    requires arrays { length scope.now.arrays.now ≤ 65536 }
    requires locals { length scope.now.locals.now ≤ 256 }
    ensures { result ≡ spec.expr_of (names_in scope.now) (a.now ∷ op.now ∷ b.now ∷ []) }
{
    let front = both(operand_of(scope, a), operator_of(op));
    let ((a, op), b) = both(front, operand_of(scope, b))?;
    Ok(Expr::Two(a, op, b))
}

/// Reads words as an expression: an operand, or an operator between two.
pub fn expr_of(scope: &Scope<'_>, words: &[&[u8]]) -> Result<Expr, Code>
    requires arrays { length scope.now.arrays.now ≤ 65536 }
    requires locals { length scope.now.locals.now ≤ 256 }
    ensures { result ≡ spec.expr_of (names_in scope.now) (lent words.now) }
{
    match words {
        [a] => Ok(Expr::One(operand_of(scope, a)?)),
        [a, op, b] => two_of(scope, a, op, b),
        _ => Err(Code::BadLine),
    }
}
