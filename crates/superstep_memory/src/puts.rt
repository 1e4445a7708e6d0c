//! Puts in order, some of them in rows.
ghost use Rattle.std.specs.Prelude.{◌≡◌, ◌≤◌, ◌+◌, ◌++◌, ◌∷◌, ◌↔◌, [], None, true, IsTrue, IsSome, IfOk, OnOk, OnErr, length, ◌&&◌};
ghost use Rattle.std.specs.List.{list_all};
ghost use Rattle.superstep_memory.specs.Cells.{is_cell};
ghost use Rattle.superstep_memory.specs.Landing.{landed, over_in, is_set};
ghost use Rattle.superstep_memory.specs.Rows.{row_puts};
ghost use Rattle.superstep_memory.specs.Lots.{puts_of, rows_after};

use crate::arrays::{Arrays, Put, PutKind};
use crate::lots::{Lot, Row};
use crate::lots_landing::{are_all_in, land_adds, write_lots};
use crate::lots_listed::list_of;
use std::alloc::{AllocError, Global};
use std::marker::Model;
use std::mem;

/// Puts in order. A row of puts to cells side by side is kept as its values, so it takes 8 bytes a cell; a single put takes 16.
#[derive(Drop)]
pub struct Puts {
    lots: Vec<Lot>,
    rows: Vec<Row>,
    // How many puts there are beyond one for each lot. Rows have these.
    more: usize,
    // Whether none of them adds.
    sets: bool,
    // Rows of the puts that were there before, whose memory later rows may use.
    spare: Vec<Row>,
}

impl Model for Puts {
    ghost use Rattle.std.specs.Prelude.{List};
    ghost use Rattle.superstep_memory.specs.declared.arrays.Put.{Put};

    ghost Value = { List Put };

    ghost use Rattle.superstep_memory.specs.PutsView.{puts_seen, IsInside};

    ghost view = { puts_seen };

    ghost invariant = { IsInside };
}

// The most that rows may have beyond one put each.
const MOST_MORE: usize = 4611686018427387904;

// Notes of a put whether it adds. A branch is cheaper here than storing the flag again.
#[inline(always)]
fn note_kind(sets: &mut bool, put: Put)
    ensures { sets.new ≡ (sets.old && is_set put) }
{
    if matches!(put.kind, PutKind::Add) {
        *sets = false;
    }
}

// Returns the sum, if it is at most `MOST_MORE`.
fn add_more(more: usize, others: usize) -> Result<usize, AllocError>
    requires { more ≤ 4611686018427387904 }
    ensures sum { IfOk result (λ sum. sum ≡ more + others) }
    ensures few { IfOk result (λ sum. sum ≤ 4611686018427387904) }
{
    if others > MOST_MORE - more {
        return Err(AllocError);
    }
    Ok(more + others)
}

// Returns true if both hold.
#[inline(always)]
fn both(one: bool, other: bool) -> bool
    ensures { result ≡ (one && other) }
{
    one && other
}

impl Puts {
    /// Creates an empty list of puts.
    pub fn new(alloc: Global) -> Self
        ensures { result ≡ [] }
    {
        Puts {
            lots: Vec::new(alloc),
            rows: Vec::new(alloc),
            more: 0,
            sets: true,
            spare: Vec::new(alloc),
        }
    }

    /// Removes all puts. The memory of their rows is kept for [`Puts::room`], in place of what was kept before.
    pub fn clear(&mut self)
        ensures { self.new ≡ [] }
    {
        self.lots.clear();
        if !self.rows.is_empty() {
            mem::swap(&mut self.rows, &mut self.spare);
            self.rows.clear();
        }
        self.more = 0;
        self.sets = true;
    }

    /// Returns the number of puts. A row counts as many as it has values.
    #[inline(always)]
    pub fn len(&self) -> usize
        ensures { result ≡ length self.now }
    {
        self.lots.len() + self.more
    }

    /// Returns true if there are no puts.
    pub fn is_empty(&self) -> bool
        ensures { result ≡ true ↔ self.now ≡ [] }
    {
        self.len() == 0
    }

    /// Returns the puts in order, each of a row by itself. Fails if memory runs out, or if a row goes on past cell 4294967295, which
    /// no put can name.
    pub fn to_vec(&self, alloc: Global) -> Result<Vec<Put>, AllocError>
        ensures { IfOk result (λ puts. puts.items ≡ self.now) }
    {
        list_of(alloc, &self.lots, &self.rows)
    }

    /// Returns true if none of them adds, so that no sum can overflow. It takes no time.
    #[inline(always)]
    pub fn are_sets(&self) -> bool
        ensures { result ≡ list_all is_set self.now }
    {
        self.sets
    }

    /// Appends one put.
    #[inline(always)]
    pub fn put(&mut self, put: Put) -> Result<(), AllocError>
        ensures added { OnOk result (self.new ≡ self.old ++ put ∷ []) }
        ensures memory { OnErr result (self.new ≡ self.old) }
    {
        self.lots.push(Lot::one(put))?;
        note_kind(&mut self.sets, put);
        Ok(())
    }

    /// Appends a row: these values for cells side by side, beginning with the cell `first`. Each sets its cell.
    pub fn put_row(&mut self, array: u16, first: u32, values: Vec<i64>) -> Result<(), AllocError>
        ensures added { OnOk result (self.new ≡ self.old ++ row_puts array first values.items) }
        ensures memory { OnErr result (self.new ≡ self.old) }
    {
        let count = values.len();
        if count == 0 {
            return Ok(());
        }
        let more = add_more(self.more, count - 1)?;
        self.rows.reserve(1)?;
        self.lots.push(Lot::row(array, first))?;
        self.rows.push_reserved(Row { values });
        self.more = more;
        Ok(())
    }

    /// Returns an empty vector for the values of a row, with the memory of an earlier row if there is one.
    pub fn buffer(&mut self, alloc: Global) -> Vec<i64>
        ensures empty { result.items ≡ [] }
        ensures same { self.new ≡ self.old }
    {
        match self.spare.pop() {
            Some(Row { mut values }) => {
                values.clear();
                values
            }
            None => Vec::new(alloc),
        }
    }

    /// Exchanges the memory that both keep for rows.
    #[inline(always)]
    pub fn swap_buffer(&mut self, other: &mut Puts)
        ensures { (self.new ≡ self.old) × (other.new ≡ other.old) }
    {
        mem::swap(&mut self.spare, &mut other.spare);
    }

    /// Moves all puts of `others` to the end of these. Out of memory, both are as they were.
    pub fn append(&mut self, others: &mut Puts) -> Result<(), AllocError>
        ensures joined { OnOk result (self.new ≡ self.old ++ others.old) }
        ensures moved { OnOk result (others.new ≡ []) }
        ensures memory { OnErr result ((self.new ≡ self.old) × (others.new ≡ others.old)) }
    {
        let more = add_more(self.more, others.more)?;
        self.rows.reserve(others.rows.len())?;
        self.lots.append(&mut others.lots)?;
        match self.rows.append(&mut others.rows) {
            Ok(()) => {}
            Err(_) => unreachable!(),
        }
        self.more = more;
        self.sets = both(self.sets, others.sets);
        others.more = 0;
        others.sets = true;
        Ok(())
    }

    // Appends a copy of the puts of a lot, the first of these rows if it is one. Returns the rows that are left.
    fn append_lot<'a>(
        &mut self,
        alloc: Global,
        lot: Lot,
        rows: &'a [Row],
    ) -> Result<&'a [Row], AllocError>
        ensures puts { OnOk result (self.new ≡ self.old ++ puts_of lot rows.now) }
        ensures rows { IfOk result (λ left. left.now ≡ rows_after lot rows.now) }
    {
        if !lot.is_row {
            self.put(lot.put())?;
            return Ok(rows);
        }
        match rows.split_first() {
            Some((row, after)) => {
                let values = Vec::from_slice(alloc, &row.values)?;
                self.put_row(lot.array, lot.index, values)?;
                Ok(after)
            }
            None => Ok(rows),
        }
    }

    /// Appends copies of all puts of `others`. If memory runs out, some are missing.
    pub fn append_copy(&mut self, alloc: Global, others: &Puts) -> Result<(), AllocError>
        ensures { OnOk result (self.new ≡ self.old ++ others.now) }
    {
        let mut rest = others.lots.as_slice();
        let mut left = others.rows.as_slice();
        while let Some((lot, after)) = rest.split_first() {
            left = self.append_lot(alloc, *lot, left)?;
            rest = after;
        }
        Ok(())
    }

    /// Returns true if the cell of each put exists.
    pub fn are_in(&self, arrays: &Arrays) -> bool
        ensures { result ≡ list_all (is_cell arrays.now) self.now }
    {
        are_all_in(arrays, &self.lots, &self.rows)
    }

    /// Lands the puts, one after another: each in turn sets its cell, or adds to what it holds. If a sum is outside of
    /// 64 signed bits, returns the place, from 0, of the first such put, and changes nothing. A put to no cell is left
    /// out.
    ///
    /// It takes memory only if a put adds. `olds` is working space for what cells held before; a caller may keep it for
    /// the next landing. Its content has no meaning.
    pub fn land(
        &self,
        arrays: &mut Arrays,
        olds: &mut Vec<i64>,
    ) -> Result<Option<usize>, AllocError>
        ensures place { IfOk result (λ place. place ≡ over_in arrays.old [] 0 self.now) }
        ensures lands { IfOk result (λ place. place ≡ None → arrays.new ≡ landed self.now arrays.old) }
        ensures unlanded { IfOk result (λ place. IsSome place → arrays.new ≡ arrays.old) }
        ensures memory { OnErr result (arrays.new ≡ arrays.old) }
    {
        if self.sets {
            write_lots(arrays, &self.lots, &self.rows);
            return Ok(None);
        }
        land_adds(arrays, &self.lots, &self.rows, self.len(), olds)
    }

    /// Lands puts that don't add, one after another. A put to no cell is left out. Doesn't allocate.
    pub fn land_sets(&self, arrays: &mut Arrays)
        requires { IsTrue (list_all is_set self.now) }
        ensures { arrays.new ≡ landed self.now arrays.old }
    {
        write_lots(arrays, &self.lots, &self.rows);
    }
}
