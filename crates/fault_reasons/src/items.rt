//! What a statement reads, each name with its value.
ghost use Rattle.std.specs.Prelude.{◌≡◌, ◌++◌, Ok, OnOk, IfOk, map, slice_get};
ghost use Rattle.task_code.specs.Names.{is_among as is_among_of};
ghost use Rattle.fault_reasons.specs.Items.{
  cells_in,
  listed,
  listed_on,
  reads,
  value_item as value_item_of,
  index_item,
  size_item,
  with_action,
  with_cell,
  with_expr,
  with_index,
  with_item,
  with_operand,
  with_target,
};
ghost use Rattle.fault_reasons.specs.SightSeen.{sight_seen};

use crate::names::{push_array_name, push_cell, push_index};
use crate::pieces::{push_field, push_text};
use std::alloc::{AllocError, Global};
use task_code::code::{Action, Cell, Expr, Index, Line, Operand};
use task_lang::scene::Scene;
use task_lang::value::{cell_value, index_value};

/// What a statement reads: the scene of its task, with the names and the values of its locals.
#[derive(Clone, Copy)]
pub(crate) struct Sight<'a> {
    pub(crate) scene: &'a Scene<'a>,
    pub(crate) names: &'a [String],
    pub(crate) locals: &'a [i64],
}

// Returns true if an item is among others.
fn is_among(items: &[Vec<u8>], item: &[u8]) -> bool
    ensures { result ≡ is_among_of (map (λ v. v.items) items.now) item.now }
{
    for known in items {
        if known.as_slice() == item {
            return true;
        }
    }
    false
}

// Keeps an item, unless it is there.
fn keep(items: &mut Vec<Vec<u8>>, item: Vec<u8>) -> Result<(), AllocError>
    ensures { OnOk result (map (λ v. v.items) items.new.items ≡ with_item (map (λ v. v.items) items.old.items) item.items) }
{
    if is_among(items, &item) {
        return Ok(());
    }
    items.push(item)?;
    Ok(())
}

// Returns a name and its value.
fn index_text(alloc: Global, sight: Sight<'_>, index: Index) -> Result<Vec<u8>, AllocError>
    ensures { IfOk result (λ text. text.items ≡ index_item (sight_seen sight.entry) index) }
{
    let mut text = Vec::new(alloc);
    push_index(&mut text, sight.names, index)?;
    push_field(
        &mut text,
        b" = ",
        index_value(sight.scene, sight.locals, &index),
    )?;
    Ok(text)
}

// Keeps the value of an index, unless it is a number.
fn keep_index(
    alloc: Global,
    items: &mut Vec<Vec<u8>>,
    sight: Sight<'_>,
    index: Index,
) -> Result<(), AllocError>
    ensures { OnOk result (map (λ v. v.items) items.new.items ≡ with_index (sight_seen sight.entry) (map (λ v. v.items) items.old.items) index) }
{
    match index {
        Index::Number(_) => Ok(()),
        Index::Local(_) | Index::Arg | Index::Step => {
            keep(items, index_text(alloc, sight, index)?)
        }
    }
}

// Returns how many cells an array has.
fn cell_count(sight: Sight<'_>, array: u16) -> usize
    ensures { result ≡ cells_in (slice_get (sight_seen sight.entry).setting.arrays array) }
{
    match sight.scene.arrays.get(usize::from(array)) {
        Some((_, cells)) => cells.len(),
        None => 0,
    }
}

// Returns which cells an array has.
fn size_text(alloc: Global, sight: Sight<'_>, array: u16) -> Result<Vec<u8>, AllocError>
    ensures { IfOk result (λ text. text.items ≡ size_item (sight_seen sight.entry) array) }
{
    let mut text = Vec::new(alloc);
    push_array_name(&mut text, sight.scene.arrays, usize::from(array))?;
    push_field(
        &mut text,
        b" has cells 0 to ",
        cell_count(sight, array).saturating_sub(1),
    )?;
    Ok(text)
}

// Returns a cell and its value.
fn cell_text(alloc: Global, sight: Sight<'_>, cell: Cell, value: i64) -> Result<Vec<u8>, AllocError>
    ensures { IfOk result (λ text. text.items ≡ value_item_of (sight_seen sight.entry) cell (Ok value)) }
{
    let mut text = Vec::new(alloc);
    push_cell(&mut text, sight.scene.arrays, sight.names, cell)?;
    push_field(&mut text, b" = ", value)?;
    Ok(text)
}

// Keeps the value of a cell; if it isn't there, which cells its array has.
fn keep_cell(
    alloc: Global,
    items: &mut Vec<Vec<u8>>,
    sight: Sight<'_>,
    cell: Cell,
) -> Result<(), AllocError>
    ensures { OnOk result (map (λ v. v.items) items.new.items ≡ with_cell (sight_seen sight.entry) (map (λ v. v.items) items.old.items) cell) }
{
    keep_index(alloc, items, sight, cell.index)?;
    match cell_value(sight.scene, sight.locals, &cell) {
        Ok(value) => keep(items, cell_text(alloc, sight, cell, value)?),
        Err(_) => keep(items, size_text(alloc, sight, cell.array)?),
    }
}

// Keeps the index of a cell that is put to; if the cell isn't there, also which cells its array has.
fn keep_target(
    alloc: Global,
    items: &mut Vec<Vec<u8>>,
    sight: Sight<'_>,
    cell: Cell,
) -> Result<(), AllocError>
    ensures { OnOk result (map (λ v. v.items) items.new.items ≡ with_target (sight_seen sight.entry) (map (λ v. v.items) items.old.items) cell) }
{
    keep_index(alloc, items, sight, cell.index)?;
    match cell_value(sight.scene, sight.locals, &cell) {
        Ok(_) => Ok(()),
        Err(_) => keep(items, size_text(alloc, sight, cell.array)?),
    }
}

// Keeps what an operand reads.
fn keep_operand(
    alloc: Global,
    items: &mut Vec<Vec<u8>>,
    sight: Sight<'_>,
    operand: Operand,
) -> Result<(), AllocError>
    ensures { OnOk result (map (λ v. v.items) items.new.items ≡ with_operand (sight_seen sight.entry) (map (λ v. v.items) items.old.items) operand) }
{
    match operand {
        Operand::Plain(index) => keep_index(alloc, items, sight, index),
        Operand::Cell(cell) => keep_cell(alloc, items, sight, cell),
    }
}

// Keeps what an expression reads.
fn keep_expr(
    alloc: Global,
    items: &mut Vec<Vec<u8>>,
    sight: Sight<'_>,
    expr: Expr,
) -> Result<(), AllocError>
    ensures { OnOk result (map (λ v. v.items) items.new.items ≡ with_expr (sight_seen sight.entry) (map (λ v. v.items) items.old.items) expr) }
{
    match expr {
        Expr::One(a) => keep_operand(alloc, items, sight, a),
        Expr::Two(a, _, b) => {
            keep_operand(alloc, items, sight, a)?;
            keep_operand(alloc, items, sight, b)
        }
    }
}

// Keeps what an action reads.
fn keep_action(
    alloc: Global,
    items: &mut Vec<Vec<u8>>,
    sight: Sight<'_>,
    action: Action,
) -> Result<(), AllocError>
    ensures { OnOk result (map (λ v. v.items) items.new.items ≡ with_action (sight_seen sight.entry) (map (λ v. v.items) items.old.items) action) }
{
    match action {
        Action::Let(_, expr) => keep_expr(alloc, items, sight, expr),
        Action::Put(_, cell, expr) => {
            keep_target(alloc, items, sight, cell)?;
            keep_expr(alloc, items, sight, expr)
        }
        Action::Print(expr) => keep_expr(alloc, items, sight, expr),
        Action::Spawn(_, expr) => keep_expr(alloc, items, sight, expr),
        Action::Sync => Ok(()),
        Action::Stop => Ok(()),
    }
}

// Returns what a line reads: each name once, with its value.
fn items_of(alloc: Global, sight: Sight<'_>, line: Line) -> Result<Vec<Vec<u8>>, AllocError>
    ensures { IfOk result (λ items. map (λ v. v.items) items.items ≡ reads (sight_seen sight.entry) line) }
{
    let mut items = Vec::new(alloc);
    match line {
        Line::Do(action) => keep_action(alloc, &mut items, sight, action)?,
        Line::If(expr, _) => keep_expr(alloc, &mut items, sight, expr)?,
        Line::Else(_) => {}
        Line::EndIf => {}
        Line::While(expr, _) => keep_expr(alloc, &mut items, sight, expr)?,
        Line::EndWhile(expr, _) => keep_expr(alloc, &mut items, sight, expr)?,
    }
    Ok(items)
}

// Appends items after another: commas between them, and a word before the last.
fn push_on(out: &mut Vec<u8>, items: &[Vec<u8>]) -> Result<(), AllocError>
    ensures { OnOk result (out.new.items ≡ out.old.items ++ listed_on (map (λ v. v.items) items.now)) }
{
    let mut rest = items;
    while let Some((item, after)) = rest.split_first() {
        if after.is_empty() {
            push_text(out, b" and ")?;
        } else {
            push_text(out, b", ")?;
        }
        push_text(out, item)?;
        rest = after;
    }
    Ok(())
}

// Appends items, if there are any.
fn push_items(out: &mut Vec<u8>, items: &[Vec<u8>]) -> Result<(), AllocError>
    ensures { OnOk result (out.new.items ≡ out.old.items ++ listed (map (λ v. v.items) items.now)) }
{
    let Some((item, after)) = items.split_first() else {
        return Ok(());
    };
    push_text(out, b", where ")?;
    push_text(out, item)?;
    push_on(out, after)
}

/// Appends what a line reads: each name once, with its value.
pub(crate) fn push_reads(
    alloc: Global,
    out: &mut Vec<u8>,
    sight: Sight<'_>,
    line: Line,
) -> Result<(), AllocError>
    ensures { OnOk result (out.new.items ≡ out.old.items ++ listed (reads (sight_seen sight.entry) line)) }
{
    push_items(out, &items_of(alloc, sight, line)?)
}
