//! Arrays of numbers by name, in declared order.
ghost use Rattle.std.specs.Prelude.{
  ◌≡◌,
  ◌+◌,
  ◌↔◌,
  ◌≤◌,
  ◌^◌,
  ◌++◌,
  ◌∷◌,
  [],
  pos,
  length,
  map,
  slice_get,
  string_bytes,
  vec_len,
  if◌then◌else◌,
  true,
  IsTrue,
  IfOk,
  OnErr,
  IfSome,
};
ghost use Rattle.std.specs.Option.{option_map};
ghost use Rattle.superstep_memory.specs.Seen.{seen};
ghost use Rattle.superstep_memory.specs.Rows.{row_set, with_row};
ghost use Rattle.superstep_memory.specs.Cells.{cell_at, place_at, is_cell, value_at, with_place, are_distinct, IsNew};

use indexmap::IndexMap;
use std::alloc::{AllocError, Global};
use std::marker::Model;

/// What landing does with the value of a put.
#[derive(Clone, Copy, PartialEq, Eq)]
pub enum PutKind {
    /// The cell takes the value.
    Set,
    /// The value is added to the cell's.
    Add,
}

/// A value for a cell: the array by its place in declared order, the cell by its number from 0 on.
#[derive(Clone, Copy, PartialEq, Eq)]
pub struct Put {
    /// The place of the array, in declared order.
    pub array: u16,
    /// The number of the cell.
    pub index: u32,
    /// What landing does with the value.
    pub kind: PutKind,
    /// What is to be written there.
    pub value: i64,
}

/// The puts of one task, in program order.
pub type PutLog = Vec<Put>;

/// How many cells an array has at most, so that each has a number that a put can hold.
pub const MOST_CELLS: usize = 4_294_967_296;

/// Arrays of numbers by name, in declared order. No two have one name, and no array has over 4294967296 cells, so that each cell has
/// a number that a put can hold.
#[derive(Drop)]
pub struct Arrays {
    by_name: IndexMap<String, Vec<i64>>,
}

impl Model for Arrays {
    ghost use Rattle.std.specs.Prelude.{List, ℕ, ℤ};

    ghost Value = { List (List ℕ × List ℤ) };

    ghost use Rattle.superstep_memory.specs.ArraysView.{arrays_of};

    ghost view = { arrays_of };

    ghost use Rattle.superstep_memory.specs.ArraysView.{IsInside};

    ghost invariant = { IsInside };
}

impl Arrays {
    /// Creates an empty list of arrays.
    pub fn new(alloc: Global) -> Self
        ensures { result ≡ [] }
    {
        Arrays {
            by_name: IndexMap::new(alloc),
        }
    }

    /// Adds an array after the others. Returns `false`, and adds nothing, if an array has this name or if there are over
    /// 4294967296 cells.
    pub fn add(&mut self, name: String, cells: Vec<i64>) -> Result<bool, AllocError>
        ensures added { IfOk result (λ added. IsTrue added ↔ IsNew self.old (string_bytes name) cells.items) }
        ensures after { IfOk result (λ added. self.new
            ≡ (if added then self.old ++ (string_bytes name, cells.items) ∷ [] else self.old)) }
        ensures memory { OnErr result (self.new ≡ self.old) }
    {
        if cells.len() > MOST_CELLS {
            return Ok(false);
        }
        if self.by_name.contains_key(name.as_str()) {
            return Ok(false);
        }
        match self.by_name.insert(name, cells) {
            Ok(_) => Ok(true),
            Err(_) => Err(AllocError),
        }
    }

    // Adds an array of this name with these cells, as `add` does.
    fn add_copy(&mut self, alloc: Global, name: &str, cells: &[i64]) -> Result<bool, AllocError>
        ensures added { IfOk result (λ added. IsTrue added ↔ IsNew self.old name.now cells.now) }
        ensures after { IfOk result (λ added. self.new
            ≡ (if added then self.old ++ (name.now, cells.now) ∷ [] else self.old)) }
    {
        let name = String::from_str(alloc, name)?;
        let cells = Vec::from_slice(alloc, cells)?;
        self.add(name, cells)
    }

    /// Returns the number of arrays.
    pub fn len(&self) -> usize
        ensures count { result ≡ length self.now }
        ensures distinct { IsTrue (are_distinct self.now) }
    {
        self.by_name.len()
    }

    /// Returns the name and the cells of the array at this place, in declared order.
    pub fn get(&self, array: usize) -> Option<(&str, &[i64])>
        ensures seen { option_map seen result ≡ slice_get self.now array }
        ensures small { IfSome result (λ a. length a.1.now ≤ 2 ^ 32) }
    {
        let (name, cells) = self.by_name.get_index(array)?;
        Some((name.as_str(), cells.as_slice()))
    }

    /// Returns the value of a cell, if there is such a cell.
    pub fn cell(&self, array: u16, index: u32) -> Option<i64>
        ensures { result ≡ cell_at self.now array (pos index) }
    {
        self.cell_at(array, i64::from(index))
    }

    /// Returns the value of the cell that a number names, as in a job, where it may be negative, if there is such a cell.
    pub fn cell_at(&self, array: u16, index: i64) -> Option<i64>
        ensures { result ≡ cell_at self.now array index }
    {
        let (_, cells) = self.get(usize::from(array))?;
        let index = usize::try_from(index).ok()?;
        cells.get(index).copied()
    }

    /// Returns the index of the cell that a number names, as in a job, where it may be negative, if there is such a cell.
    pub fn place(&self, array: u16, index: i64) -> Option<u32>
        ensures { result ≡ place_at self.now array index }
    {
        let (_, cells) = self.get(usize::from(array))?;
        let place = usize::try_from(index).ok()?;
        if place < cells.len() {
            Some(place as u32)
        } else {
            None
        }
    }

    /// Returns true if the cell of a put exists.
    pub fn has_cell(&self, put: Put) -> bool
        ensures { result ≡ is_cell self.now put }
    {
        self.place(put.array, i64::from(put.index)).is_some()
    }

    /// Returns what the cell of a put holds, or 0 if there is no such cell.
    #[inline(always)]
    pub(crate) fn value_at(&self, put: Put) -> i64
        ensures { result ≡ value_at self.now put.array put.index }
    {
        self.value_in(usize::from(put.array), put.index as usize)
    }

    /// Returns what the cell of this number in the array at this place holds, or 0 if there is no such cell.
    #[inline(always)]
    pub(crate) fn value_in(&self, array: usize, index: usize) -> i64
        ensures { result ≡ value_at self.now array index }
    {
        match self.get(array) {
            Some((_, cells)) => cells.get(index).copied().unwrap_or(0),
            None => 0,
        }
    }

    /// Writes this value, in place of that of the put, into its cell, if there is one.
    #[inline(always)]
    pub(crate) fn write(&mut self, put: Put, value: i64)
        ensures { self.new ≡ with_place self.old put.array put.index value }
    {
        self.write_at(usize::from(put.array), put.index as usize, value);
    }

    /// Writes a value into the cell of this number of the array at this place, if there is one.
    #[inline(always)]
    pub(crate) fn write_at(&mut self, array: usize, index: usize, value: i64)
        ensures { self.new ≡ with_place self.old array index value }
    {
        if let Some(cells) = self.by_name.get_index_mut(array) {
            if index < cells.len() {
                cells[index] = value;
            }
        }
    }

    /// Writes these values into cells side by side, beginning with the cell `first`. Those past the end are left out.
    #[inline(always)]
    pub(crate) fn write_row(&mut self, array: u16, first: u32, values: &[i64])
        ensures { self.new ≡ with_row self.old array first values.now }
    {
        self.write_row_at(usize::from(array), first as usize, values);
    }

    // Writes a row into the array at this place, if there is one.
    fn write_row_at(&mut self, array: usize, first: usize, values: &[i64])
        ensures { self.new ≡ with_row self.old array first values.now }
    {
        if let Some(cells) = self.by_name.get_index_mut(array) {
            write_cells(cells, first, values);
        }
    }

    /// Returns a copy.
    pub fn copy(&self, alloc: Global) -> Result<Arrays, AllocError>
        ensures { IfOk result (λ copy. copy ≡ self.now) }
    {
        let mut copy = Arrays::new(alloc);
        for place in 0..self.len() {
            if let Some((name, cells)) = self.get(place) {
                copy.add_copy(alloc, name, cells)?;
            }
        }
        Ok(copy)
    }

    /// Returns true if the other arrays are the same: names, order and cells.
    pub fn same_as(&self, other: &Arrays) -> bool
        ensures { IsTrue result ↔ (self.now ≡ other.now) }
    {
        if self.len() != other.len() {
            return false;
        }
        for place in 0..self.len() {
            if !is_same(self.get(place), other.get(place)) {
                return false;
            }
        }
        true
    }
}

// Writes values into adjacent cells. All of the cells exist.
fn write_within(cells: &mut [i64], first: usize, values: &[i64])
    requires { first + length values.now ≤ length cells.old }
    ensures { cells.new ≡ row_set cells.old first values.now }
{
    let (_, rest) = cells.split_at_mut(first);
    let (those, _) = rest.split_at_mut(values.len());
    those.copy_from_slice(values);
}

// Writes values into cells side by side. Those past the end are left out.
fn write_each(cells: &mut [i64], first: usize, values: &[i64])
    ensures { cells.new ≡ row_set cells.old first values.now }
{
    let mut place = first;
    let mut rest = values;
    while let Some((value, after)) = rest.split_first() {
        if place >= cells.len() {
            return;
        }
        cells[place] = *value;
        place += 1;
        rest = after;
    }
}

// Writes values into cells side by side. Those past the end are left out.
fn write_cells(cells: &mut Vec<i64>, first: usize, values: &[i64])
    ensures { cells.new.items ≡ row_set cells.old.items first values.now }
{
    if first <= cells.len() && values.len() <= cells.len() - first {
        write_within(cells, first, values);
    } else {
        write_each(cells, first, values);
    }
}

// Returns true if two names are the same.
fn is_same_name(name: &str, other: &str) -> bool
    ensures { IsTrue result ↔ (name.now ≡ other.now) }
{
    name == other
}

// Returns true if two lists of cells are the same.
fn are_same_cells(cells: &[i64], other: &[i64]) -> bool
    ensures { IsTrue result ↔ (cells.now ≡ other.now) }
{
    cells == other
}

// Returns true if two arrays have the same name and cells.
fn is_same(array: Option<(&str, &[i64])>, other: Option<(&str, &[i64])>) -> bool
    ensures { IsTrue result ↔ (option_map seen array.entry ≡ option_map seen other.entry) }
{
    match (array, other) {
        (Some((name, cells)), Some((other_name, other_cells))) => {
            if !is_same_name(name, other_name) {
                return false;
            }
            are_same_cells(cells, other_cells)
        }
        (None, None) => true,
        _ => false,
    }
}
