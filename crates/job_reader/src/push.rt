//! Lines of a body, written.
ghost use Rattle.std.specs.Prelude.{◌≡◌, ◌++◌, ◌∷◌, [], OnOk, map, string_bytes};
ghost use Rattle.job_reader.specs.Words.{name_at, index_word};
ghost use Rattle.job_reader.specs.Exprs.{cell_word, operand_word, operator_word, expr_words};
ghost use Rattle.job_reader.specs.Lines.{kind_word, action_words, line_words};
ghost use Rattle.job_reader.specs.Grammar.{spaced, line_text, text_of};
ghost use Rattle.job_reader.specs.Writing.{names_of, code_lines};

use itoa::{Buffer, Integer};
use std::alloc::AllocError;
use superstep_memory::arrays::{Arrays, PutKind};
use task_code::body::Body;
use task_code::code::{Action, Cell, Expr, Index, Line, Operand, Operator};

/// The names by which a body's lines are written.
#[derive(Clone, Copy)]
pub(crate) struct Writing<'a> {
    pub arrays: &'a Arrays,
    pub bodies: &'a [Body],
    pub locals: &'a [String],
}

/// Appends the text of a number.
pub(crate) fn push_number<I: Integer>(out: &mut Vec<u8>, n: I) -> Result<(), AllocError>
    ensures { OnOk result (out.new.items ≡ out.old.items ++ I.text n) }
{
    out.extend_from_slice(Buffer::new().format(n).as_bytes())
}

/// Appends the name of an array.
pub(crate) fn push_array_name(
    out: &mut Vec<u8>,
    arrays: &Arrays,
    place: usize,
) -> Result<(), AllocError>
    ensures { OnOk result (out.new.items ≡ out.old.items ++ name_at (map (λ a. a.0) arrays.now) place) }
{
    match arrays.get(place) {
        Some((name, _)) => {
            out.extend_from_slice(name.as_bytes())?;
            Ok(())
        }
        None => Ok(()),
    }
}

/// Appends the name of a body.
pub(crate) fn push_body_name(
    out: &mut Vec<u8>,
    bodies: &[Body],
    place: usize,
) -> Result<(), AllocError>
    ensures { OnOk result (out.new.items ≡ out.old.items ++ name_at (map (λ b. b.name) bodies.now) place) }
{
    if place < bodies.len() {
        out.extend_from_slice(bodies[place].name().as_bytes())?;
    }
    Ok(())
}

// Appends the name of a local.
fn push_local(out: &mut Vec<u8>, locals: &[String], place: usize) -> Result<(), AllocError>
    ensures { OnOk result (out.new.items ≡ out.old.items ++ name_at (map string_bytes locals.now) place) }
{
    if place < locals.len() {
        out.extend_from_slice(locals[place].as_bytes())?;
    }
    Ok(())
}

// Appends an index.
fn push_index(out: &mut Vec<u8>, locals: &[String], index: Index) -> Result<(), AllocError>
    ensures { OnOk result (out.new.items ≡ out.old.items ++ index_word (map string_bytes locals.now) index) }
{
    match index {
        Index::Number(n) => {
            push_number(out, n)?;
            Ok(())
        }
        Index::Local(local) => {
            push_local(out, locals, usize::from(local))?;
            Ok(())
        }
        Index::Arg => {
            out.extend_from_slice(b"arg")?;
            Ok(())
        }
        Index::Step => {
            out.extend_from_slice(b"step")?;
            Ok(())
        }
    }
}

// Appends a cell.
fn push_cell(out: &mut Vec<u8>, names: &Writing<'_>, cell: Cell) -> Result<(), AllocError>
    ensures { OnOk result (out.new.items ≡ out.old.items ++ cell_word (names_of names.now) cell) }
{
    push_array_name(out, names.arrays, usize::from(cell.array))?;
    out.extend_from_slice(b"[")?;
    push_index(out, names.locals, cell.index)?;
    out.extend_from_slice(b"]")?;
    Ok(())
}

// Appends an operand.
fn push_operand(out: &mut Vec<u8>, names: &Writing<'_>, operand: Operand) -> Result<(), AllocError>
    ensures { OnOk result (out.new.items ≡ out.old.items ++ operand_word (names_of names.now) operand) }
{
    match operand {
        Operand::Plain(index) => {
            push_index(out, names.locals, index)?;
            Ok(())
        }
        Operand::Cell(cell) => {
            push_cell(out, names, cell)?;
            Ok(())
        }
    }
}

// Returns the word of an operator.
fn operator_text(operator: Operator) -> &'static str
    ensures { result.now ≡ operator_word operator }
{
    match operator {
        Operator::Add => "+",
        Operator::Subtract => "-",
        Operator::Multiply => "*",
        Operator::Divide => "/",
        Operator::Remainder => "%",
        Operator::Below => "<",
        Operator::AtMost => "<=",
        Operator::Equal => "==",
        Operator::NotEqual => "!=",
    }
}

// Appends a space and an operand.
fn push_spaced(out: &mut Vec<u8>, names: &Writing<'_>, operand: Operand) -> Result<(), AllocError>
    ensures { OnOk result (out.new.items ≡ out.old.items ++ 32 ∷ operand_word (names_of names.now) operand) }
{
    out.extend_from_slice(b" ")?;
    push_operand(out, names, operand)?;
    Ok(())
}

// Appends the words of an expression, each after a space.
fn push_expr(out: &mut Vec<u8>, names: &Writing<'_>, expr: Expr) -> Result<(), AllocError>
    ensures { OnOk result (out.new.items ≡ out.old.items ++ spaced (expr_words (names_of names.now) expr)) }
{
    match expr {
        Expr::One(a) => {
            push_spaced(out, names, a)?;
            Ok(())
        }
        Expr::Two(a, operator, b) => {
            push_spaced(out, names, a)?;
            out.extend_from_slice(b" ")?;
            out.extend_from_slice(operator_text(operator).as_bytes())?;
            push_spaced(out, names, b)?;
            Ok(())
        }
    }
}

// Appends the words of an expression, each after a space, and an LF.
fn push_end(out: &mut Vec<u8>, names: &Writing<'_>, expr: Expr) -> Result<(), AllocError>
    ensures { OnOk result (out.new.items ≡ out.old.items ++ (spaced (expr_words (names_of names.now) expr) ++ 10 ∷ [])) }
{
    push_expr(out, names, expr)?;
    out.extend_from_slice(b"\n")?;
    Ok(())
}

fn push_let(out: &mut Vec<u8>, names: &Writing<'_>, local: u8, expr: Expr) -> Result<(), AllocError>
    ensures { OnOk result (out.new.items ≡ out.old.items ++ line_text (action_words (names_of names.now) (Action.Let local expr))) }
{
    out.extend_from_slice(b"let ")?;
    push_local(out, names.locals, usize::from(local))?;
    out.extend_from_slice(b" =")?;
    push_end(out, names, expr)?;
    Ok(())
}

// Returns the first word of a put, by what landing does with its value.
fn kind_text(kind: PutKind) -> &'static [u8]
    ensures { result.now ≡ kind_word kind }
{
    match kind {
        PutKind::Set => b"put",
        PutKind::Add => b"add",
    }
}

fn push_put(
    out: &mut Vec<u8>,
    names: &Writing<'_>,
    kind: PutKind,
    cell: Cell,
    expr: Expr,
) -> Result<(), AllocError>
    ensures { OnOk result (out.new.items ≡ out.old.items ++ line_text (action_words (names_of names.now) (Action.Put kind cell expr))) }
{
    out.extend_from_slice(kind_text(kind))?;
    out.extend_from_slice(b" ")?;
    push_cell(out, names, cell)?;
    out.extend_from_slice(b" =")?;
    push_end(out, names, expr)?;
    Ok(())
}

fn push_spawn(
    out: &mut Vec<u8>,
    names: &Writing<'_>,
    body: u16,
    expr: Expr,
) -> Result<(), AllocError>
    ensures { OnOk result (out.new.items ≡ out.old.items ++ line_text (action_words (names_of names.now) (Action.Spawn body expr))) }
{
    out.extend_from_slice(b"spawn ")?;
    push_body_name(out, names.bodies, usize::from(body))?;
    push_end(out, names, expr)?;
    Ok(())
}

// Appends a keyword and an expression, as a line.
fn push_test(
    out: &mut Vec<u8>,
    names: &Writing<'_>,
    keyword: &[u8],
    expr: Expr,
) -> Result<(), AllocError>
    ensures { OnOk result (out.new.items ≡ out.old.items ++ line_text (keyword.now ∷ expr_words (names_of names.now) expr)) }
{
    out.extend_from_slice(keyword)?;
    push_end(out, names, expr)?;
    Ok(())
}

fn push_action(out: &mut Vec<u8>, names: &Writing<'_>, action: Action) -> Result<(), AllocError>
    ensures { OnOk result (out.new.items ≡ out.old.items ++ line_text (action_words (names_of names.now) action)) }
{
    match action {
        Action::Let(local, expr) => push_let(out, names, local, expr),
        Action::Put(kind, cell, expr) => push_put(out, names, kind, cell, expr),
        Action::Print(expr) => push_test(out, names, b"print", expr),
        Action::Spawn(body, expr) => push_spawn(out, names, body, expr),
        Action::Sync => out.extend_from_slice(b"sync\n"),
        Action::Stop => out.extend_from_slice(b"stop\n"),
    }
}

fn push_line(out: &mut Vec<u8>, names: &Writing<'_>, line: Line) -> Result<(), AllocError>
    ensures { OnOk result (out.new.items ≡ out.old.items ++ line_text (line_words (names_of names.now) line)) }
{
    match line {
        Line::Do(action) => push_action(out, names, action),
        Line::If(test, _) => push_test(out, names, b"if", test),
        Line::Else(_) => out.extend_from_slice(b"else\n"),
        Line::EndIf => out.extend_from_slice(b"end\n"),
        Line::While(test, _) => push_test(out, names, b"while", test),
        Line::EndWhile(_, _) => out.extend_from_slice(b"end\n"),
    }
}

/// Appends the lines of flat code.
pub(crate) fn push_code(
    out: &mut Vec<u8>,
    names: &Writing<'_>,
    code: &[Line],
) -> Result<(), AllocError>
    ensures { OnOk result (out.new.items ≡ out.old.items ++ text_of (code_lines (names_of names.now) code.now)) }
{
    let mut rest = code;
    while let Some((line, after)) = rest.split_first() {
        rest = after;
        push_line(out, names, *line)?;
    }
    Ok(())
}
