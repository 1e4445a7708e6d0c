//! Single puts and rows of puts, as they are kept.

use crate::arrays::{Put, PutKind};

/// A put, or the place of a row among other puts. An enum would take 32 bytes, since its tag takes eight: this takes 16.
#[derive(Clone, Copy)]
pub(crate) struct Lot {
    /// The place of the array, in declared order.
    pub array: u16,
    /// Whether it is a row. Its values are kept elsewhere, and the value here means nothing.
    pub is_row: bool,
    /// What landing does with the value. A row sets its cells.
    pub kind: PutKind,
    /// The number of the cell, or of a row's first cell.
    pub index: u32,
    /// What is put.
    pub value: i64,
}

/// The values of a row.
#[derive(Drop)]
pub(crate) struct Row {
    /// The values, for cells side by side.
    pub values: Vec<i64>,
}

impl Lot {
    ghost use Rattle.std.specs.Prelude.{◌≡◌, true, false};
    ghost use Rattle.superstep_memory.specs.Lots.{put_of};

    /// Creates the lot of one put.
    #[inline(always)]
    pub(crate) fn one(put: Put) -> Lot
        ensures put { put_of result ≡ put }
        ensures single { result.is_row ≡ false }
    {
        Lot {
            array: put.array,
            is_row: false,
            kind: put.kind,
            index: put.index,
            value: put.value,
        }
    }

    /// Returns the place of a row that begins at this cell.
    #[inline(always)]
    pub(crate) fn row(array: u16, first: u32) -> Lot
        ensures array { result.array ≡ array }
        ensures index { result.index ≡ first }
        ensures row { result.is_row ≡ true }
    {
        Lot {
            array,
            is_row: true,
            kind: PutKind::Set,
            index: first,
            value: 0,
        }
    }

    /// Returns the put of a lot that is one.
    #[inline(always)]
    pub(crate) fn put(self) -> Put
        ensures { result ≡ put_of self }
    {
        Put {
            array: self.array,
            index: self.index,
            kind: self.kind,
            value: self.value,
        }
    }
}
