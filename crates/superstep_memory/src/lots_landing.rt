//! How single puts and rows of puts land.
ghost use Rattle.std.specs.Prelude.{◌≡◌, ◌≤◌, ◌+◌, nat_le, ◌++◌, [], None, Some, List, ℕ, ℤ, true, IsTrue, IsSome, IfOk, OnOk, OnErr, length};
ghost use Rattle.std.specs.List.{list_all};
ghost use Rattle.superstep_memory.specs.declared.arrays.Put.{Put as PutValue};
ghost use Rattle.superstep_memory.specs.declared.lots.Row.{Row as RowValue};
ghost use Rattle.superstep_memory.specs.Cells.{is_cell};
ghost use Rattle.superstep_memory.specs.Landing.{landed, over_in, is_set};
ghost use Rattle.superstep_memory.specs.Rows.{row_puts, AreSideBySide};
ghost use Rattle.superstep_memory.specs.Lots.{puts_in, puts_of, rows_after, rows_among};
ghost use Rattle.superstep_memory.specs.Taken.{HasBegun, HasTakenMore, HasBegunMore};

use crate::arrays::Arrays;
use crate::log::after_put;
use crate::lots::{Lot, Row};
use std::alloc::AllocError;

// Writes a lot that sets its cells, and returns the rows that are left.
#[inline(always)]
fn write_lot<'a>(arrays: &mut Arrays, lot: Lot, rows: &'a [Row]) -> &'a [Row]
    requires { IsTrue (list_all is_set (puts_of lot rows.now)) }
    ensures arrays { arrays.new ≡ landed (puts_of lot rows.now) arrays.old }
    ensures rows { result.now ≡ rows_after lot rows.now }
{
    if !lot.is_row {
        arrays.write(lot.put(), lot.value);
        return rows;
    }
    match rows.split_first() {
        Some((row, after)) => {
            arrays.write_row(lot.array, lot.index, &row.values);
            after
        }
        None => rows,
    }
}

/// Lands lots that all set their cells. Doesn't allocate.
pub(crate) fn write_lots(arrays: &mut Arrays, lots: &[Lot], rows: &[Row])
    requires { IsTrue (list_all is_set (puts_in lots.now rows.now)) }
    ensures { arrays.new ≡ landed (puts_in lots.now rows.now) arrays.old }
{
    let mut rest = lots;
    let mut left = rows;
    while let Some((lot, after)) = rest.split_first() {
        left = write_lot(arrays, *lot, left);
        rest = after;
    }
}

// Returns true if a row of `count` values, beginning at the place `first`, ends within `cells` cells.
fn is_within(cells: usize, first: usize, count: usize) -> bool
    ensures { result ≡ nat_le (first + count) cells }
{
    count <= cells && first <= cells - count
}

// Returns true if `count` adjacent cells exist, beginning with the cell `first`.
fn is_row_in(arrays: &Arrays, array: u16, first: u32, count: usize) -> bool
    ensures { (vs : List ℤ) → length vs ≡ count → result ≡ list_all (is_cell arrays.now) (row_puts array first vs) }
{
    if count == 0 {
        return true;
    }
    match arrays.get(usize::from(array)) {
        Some((_, cells)) => is_within(cells.len(), first as usize, count),
        None => false,
    }
}

// Returns true if the cells of a lot exist.
fn is_lot_in(arrays: &Arrays, lot: Lot, rows: &[Row]) -> bool
    ensures { result ≡ list_all (is_cell arrays.now) (puts_of lot rows.now) }
{
    if !lot.is_row {
        return arrays.has_cell(lot.put());
    }
    match rows.split_first() {
        Some((row, _)) => is_row_in(arrays, lot.array, lot.index, row.values.len()),
        None => true,
    }
}

// Returns the rows that are left after a lot.
#[inline(always)]
fn after_lot<'a>(lot: Lot, rows: &'a [Row]) -> &'a [Row]
    ensures { result.now ≡ rows_after lot rows.now }
{
    if !lot.is_row {
        return rows;
    }
    match rows.split_first() {
        Some((_, after)) => after,
        None => rows,
    }
}

/// Returns true if the cells of each of these exist.
pub(crate) fn are_all_in(arrays: &Arrays, lots: &[Lot], rows: &[Row]) -> bool
    ensures { result ≡ list_all (is_cell arrays.now) (puts_in lots.now rows.now) }
{
    let mut left = rows;
    for lot in lots {
        if !is_lot_in(arrays, *lot, left) {
            return false;
        }
        left = after_lot(*lot, left);
    }
    true
}

// Takes the puts of a row, and keeps what their cells held before.
fn take_row(
    arrays: &mut Arrays,
    array: u16,
    first: u32,
    values: &[i64],
    olds: &mut Vec<i64>,
) -> Result<(), AllocError>
    ensures taken { OnOk result (HasTakenMore (row_puts array first values.now) olds.old.items olds.new.items arrays.old arrays.new) }
    ensures begun { HasBegunMore (row_puts array first values.now) olds.old.items olds.new.items arrays.old arrays.new }
{
    let mut place = first as usize;
    let mut rest = values;
    while let Some((value, after)) = rest.split_first() {
        let old = arrays.value_in(usize::from(array), place);
        olds.push(old)?;
        arrays.write_at(usize::from(array), place, *value);
        place += 1;
        rest = after;
    }
    Ok(())
}

// Takes lots one after another, and keeps what their cells held before. Stops before the first put that overflows, and
// returns its place. There are `count` puts.
fn take_lots(
    arrays: &mut Arrays,
    lots: &[Lot],
    rows: &[Row],
    count: usize,
    olds: &mut Vec<i64>,
) -> Result<Option<usize>, AllocError>
    requires none { olds.old.items ≡ [] }
    requires count { count ≡ length (puts_in lots.now rows.now) }
    ensures taken { HasBegun (puts_in lots.now rows.now) olds.new.items arrays.old arrays.new }
    ensures place { IfOk result (λ place. place ≡ over_in arrays.old [] 0 (puts_in lots.now rows.now)) }
    ensures whole { IfOk result (λ place. place ≡ None → arrays.new ≡ landed (puts_in lots.now rows.now) arrays.old) }
{
    let mut place = 0;
    let mut rest = lots;
    let mut left = rows;
    while let Some((lot, after)) = rest.split_first() {
        if lot.is_row {
            if let Some((row, later)) = left.split_first() {
                take_row(arrays, lot.array, lot.index, &row.values, olds)?;
                place += row.values.len();
                left = later;
            }
        } else {
            let put = lot.put();
            let old = arrays.value_at(put);
            let Some(value) = after_put(put, old) else {
                return Ok(Some(place));
            };
            olds.push(old)?;
            arrays.write(put, value);
            place += 1;
        }
        rest = after;
    }
    Ok(None)
}

// Gives adjacent cells, beginning with the cell `first`, what they held before, the last one first, as long as more
// than `before` old values are left.
fn give_back_row(arrays: &mut Arrays, array: u16, first: u32, before: usize, olds: &mut Vec<i64>)
    ensures { (front ps : List PutValue) (xs : List (List ℕ × List ℤ)) → length front ≡ before → AreSideBySide array first ps
        → HasBegun (front ++ ps) olds.old.items xs arrays.old → HasBegun front olds.new.items xs arrays.new }
{
    while olds.len() > before {
        if let Some(old) = olds.pop() {
            let place = first as usize + (olds.len() - before);
            arrays.write_at(usize::from(array), place, old);
        }
    }
}

// Gives the cells of the puts that were taken what they held before, the last one first. There are `count` puts.
fn give_back_lots(
    arrays: &mut Arrays,
    lots: &[Lot],
    rows: &[Row],
    count: usize,
    olds: &mut Vec<i64>,
)
    requires count { count ≡ length (puts_in lots.now rows.now) }
    requires rows { length rows.now ≡ rows_among lots.now }
    ensures { (xs : List (List ℕ × List ℤ)) → HasBegun (puts_in lots.now rows.now) olds.old.items xs arrays.old → arrays.new ≡ xs }
{
    let mut before = count;
    let mut rest = lots;
    let mut left = rows;
    while let Some((lot, earlier)) = rest.split_last() {
        if lot.is_row {
            match left.split_last() {
                Some((row, fewer)) => {
                    before -= row.values.len();
                    left = fewer;
                }
                None => unreachable!(),
            }
        } else {
            before -= 1;
        }
        give_back_row(arrays, lot.array, lot.index, before, olds);
        rest = earlier;
    }
}

/// Lands lots, some of which add: each put in turn sets its cell, or adds to what it holds. If a sum is outside of 64
/// signed bits, returns the place, from 0, of the first such put, and changes nothing. There are `count` puts.
pub(crate) fn land_adds(
    arrays: &mut Arrays,
    lots: &[Lot],
    rows: &[Row],
    count: usize,
    olds: &mut Vec<i64>,
) -> Result<Option<usize>, AllocError>
    requires count { count ≡ length (puts_in lots.now rows.now) }
    requires rows { length rows.now ≡ rows_among lots.now }
    ensures place { IfOk result (λ place. place ≡ over_in arrays.old [] 0 (puts_in lots.now rows.now)) }
    ensures lands { IfOk result (λ place. place ≡ None → arrays.new ≡ landed (puts_in lots.now rows.now) arrays.old) }
    ensures unlanded { IfOk result (λ place. IsSome place → arrays.new ≡ arrays.old) }
    ensures memory { OnErr result (arrays.new ≡ arrays.old) }
{
    olds.clear();
    match take_lots(arrays, lots, rows, count, olds) {
        Ok(None) => Ok(None),
        reported => {
            give_back_lots(arrays, lots, rows, count, olds);
            reported
        }
    }
}
