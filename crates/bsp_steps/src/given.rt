//! What C gives: arrays, and what each live task left.
/// An array as C gives it.
#[repr(C)]
#[derive(Clone, Copy)]
pub struct ArrayGiven<'a> {
    /// Its name.
    pub name: &'a [u8],
    /// Its cells.
    pub cells: &'a [i64],
}

/// A put as C gives it. It adds if `adds` is not 0.
#[repr(C)]
#[derive(Clone, Copy)]
pub struct PutGiven {
    /// The place of the array, from 0.
    pub array: u16,
    /// Not 0 if it adds.
    pub adds: u16,
    /// The number of the cell, from 0.
    pub index: u32,
    /// The value.
    pub value: i64,
}

/// What a live task left, as C tells it.
#[repr(C)]
#[derive(Clone, Copy)]
pub struct Deed<'a> {
    /// Its puts, in order.
    pub puts: &'a [PutGiven],
    /// What it printed, in order.
    pub prints: &'a [i64],
    /// How many tasks it spawned.
    pub spawns: u16,
    /// How it ends: 0 if it goes on, 1 if it stops, or the number of a fault, from 16 on.
    pub ending: u8,
}

/// Where a live task comes from: it had this place, or its spawner had.
#[repr(C)]
#[derive(Clone, Copy)]
pub struct Origin {
    /// The place among the live tasks of the superstep before.
    pub place: usize,
    /// How many tasks its spawner had spawned before it in that superstep. 0 if it wasn't spawned in it.
    pub number: u16,
    /// Whether it was spawned in that superstep.
    pub spawned: bool,
}

/// What [`bsp_steps_look`](crate::bsp_steps_look) tells.
#[repr(C)]
#[derive(Clone, Copy)]
pub struct Look {
    /// How many supersteps were taken.
    pub step: u32,
    /// 0 if the run goes on; 1 if no task lives on, 2 if a fault has ended it, 3 if its limit is reached.
    pub status: i32,
    /// How many tasks live.
    pub live: usize,
    /// How many arrays there are.
    pub arrays: usize,
    /// How many values were printed.
    pub prints: usize,
    /// How many records there are.
    pub records: usize,
}

/// A printed value, without the path of its task.
#[repr(C)]
#[derive(Clone, Copy)]
pub struct PrintReport {
    /// The superstep, from 0.
    pub step: u32,
    /// The value.
    pub value: i64,
}

/// The record of a superstep.
#[repr(C)]
#[derive(Clone, Copy)]
pub struct RecordReport {
    /// The superstep, from 0.
    pub phase: u32,
    /// How many tasks lived as it began, and were spawned in it.
    pub parties: u32,
    /// How many stopped.
    pub left: u32,
    /// How many were spawned.
    pub spawned: u32,
}
