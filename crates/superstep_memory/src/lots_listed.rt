//! Single puts and rows of puts as one list.
ghost use Rattle.std.specs.Prelude.{◌≡◌, ◌++◌, OnOk, IfOk};
ghost use Rattle.superstep_memory.specs.Lots.{puts_in, puts_of, rows_after};
ghost use Rattle.superstep_memory.specs.Rows.{row_puts};

use crate::arrays::{Put, PutKind};
use crate::lots::{Lot, Row};
use std::alloc::{AllocError, Global};

// Appends the puts of a row. Fails if one is past the last cell that a put can name.
fn list_row(puts: &mut Vec<Put>, array: u16, first: u32, values: &[i64]) -> Result<(), AllocError>
    ensures { OnOk result (puts.new.items ≡ puts.old.items ++ row_puts array first values.now) }
{
    let mut index = first;
    let mut rest = values;
    while let Some((value, after)) = rest.split_first() {
        puts.push(Put {
            array,
            index,
            kind: PutKind::Set,
            value: *value,
        })?;
        if after.is_empty() {
            return Ok(());
        }
        if index == u32::MAX {
            return Err(AllocError);
        }
        index += 1;
        rest = after;
    }
    Ok(())
}

// Appends the puts of a lot, of the first of these rows if it is one. Returns the rows that are left.
fn list_lot<'a>(puts: &mut Vec<Put>, lot: Lot, rows: &'a [Row]) -> Result<&'a [Row], AllocError>
    ensures puts { OnOk result (puts.new.items ≡ puts.old.items ++ puts_of lot rows.now) }
    ensures rows { IfOk result (λ left. left.now ≡ rows_after lot rows.now) }
{
    if !lot.is_row {
        puts.push(lot.put())?;
        return Ok(rows);
    }
    match rows.split_first() {
        Some((row, after)) => {
            list_row(puts, lot.array, lot.index, &row.values)?;
            Ok(after)
        }
        None => Ok(rows),
    }
}

/// Returns the puts of these lots, one after another.
pub(crate) fn list_of(alloc: Global, lots: &[Lot], rows: &[Row]) -> Result<Vec<Put>, AllocError>
    ensures { IfOk result (λ puts. puts.items ≡ puts_in lots.now rows.now) }
{
    let mut puts = Vec::new(alloc);
    let mut left = rows;
    for lot in lots {
        left = list_lot(&mut puts, *lot, left)?;
    }
    Ok(puts)
}
