//! Jobs.
ghost use Rattle.std.specs.Prelude.{◌≡◌, ◌↔◌, IsSome, IfSome, IsTrue, map, nat_lt};
ghost use Rattle.std.specs.List.{list_all, AllByRecursion};
ghost use Rattle.text_lines.specs.Number.{fits_i64};
ghost use Rattle.task_code.specs.JobValue.{JobValue, job_value};
ghost use Rattle.task_code.specs.Names as names;
ghost use Rattle.task_code.specs.Limits as limits;
ghost use Rattle.task_code.specs.Rules.{IsBody, IsOfFirst, IsJob, is_format, is_array};

use crate::body::Body;
use crate::limits::{are_lines, are_of_first as lines_of_first, is_number};
use crate::mentions::are_in_order;
use crate::names::{are_same, is_free};
use crate::same::{same_bodies, same_starts};
use std::marker::Model;
use superstep_memory::arrays::Arrays;

/// The most arrays of a job (own).
pub const MOST_ARRAYS: usize = 16;

/// The most cells of an array (own).
pub const MOST_CELLS: usize = 4096;

/// The most bodies of a job (own).
pub const MOST_BODIES: usize = 64;

/// The most start lines of a job, and the most tasks alive at once (own).
pub const MOST_TASKS: usize = 4096;

/// A task that a job begins with: its body by its place in the job, and its argument.
#[derive(Clone, Copy, PartialEq, Eq)]
pub struct Start {
    /// The place of the body in declared order.
    pub body: u16,
    /// The argument of the task.
    pub arg: i64,
}

/// A job: its format, 1 or 2, and its arrays, its bodies and its start lines, each in declared order. In one of format 1 no
/// line is an add, and the locals of each body are in the order of first mention.
#[derive(Drop)]
pub struct Job {
    format: u32,
    arrays: Arrays,
    bodies: Vec<Body>,
    starts: Vec<Start>,
}

impl Model for Job {
    ghost use Rattle.task_code.specs.JobValue.{JobValue};

    ghost Value = { JobValue };

    ghost use Rattle.task_code.specs.JobView.{job_of, IsJobInside};

    ghost view = { job_of };

    ghost invariant = { IsJobInside };
}

// Returns true if each cell holds a number of 64 signed bits.
fn are_numbers(cells: &[i64]) -> bool
    ensures { result ≡ list_all fits_i64 cells.now }
{
    cells.iter().all(|cell| is_number(*cell))
}

// Returns true if each cell of the arrays holds a number of 64 signed bits.
fn are_cells(arrays: &Arrays) -> bool
    ensures { result ≡ list_all (λ a. list_all fits_i64 a.1) arrays.now }
{
    for place in 0..arrays.len() {
        if let Some((_, cells)) = arrays.get(place) {
            if !are_numbers(cells) {
                return false;
            }
        }
    }
    true
}

// Returns true if a job may have an array of this name with these cells.
fn is_array(name: &[u8], cells: &[i64]) -> bool
    ensures { result ≡ is_array (name.now, cells.now) }
{
    is_free(name) && !cells.is_empty() && cells.len() <= MOST_CELLS
}

// Returns true if a job may have each of these arrays, whose names differ.
fn are_arrays(arrays: &Arrays) -> bool
    ensures arrays { result ≡ list_all is_array arrays.now }
    ensures named { IsTrue result → IsTrue (names.are_names (map (λ a. a.0) arrays.now)) }
{
    for place in 0..arrays.len() {
        if let Some((name, cells)) = arrays.get(place) {
            if !is_array(name.as_bytes(), cells) {
                return false;
            }
        }
    }
    true
}

// Returns true if one of these bodies has the name.
fn is_among(bodies: &[Body], name: &[u8]) -> bool
    ensures { result ≡ names.is_among (map (λ b. b.name) bodies.now) name.now }
{
    for first in bodies {
        if are_same(first.name().as_bytes(), name) {
            return true;
        }
    }
    false
}

// Returns true if the names of these bodies differ and may be used.
fn are_named_apart(bodies: &[Body]) -> bool
    ensures { result ≡ names.are_names (map (λ b. b.name) bodies.now) }
{
    let mut rest = bodies;
    while let Some((first, after)) = rest.split_first() {
        let name = first.name().as_bytes();
        if !is_free(name) || is_among(after, name) {
            return false;
        }
        rest = after;
    }
    true
}

// Returns true if the lines of each body name only arrays and bodies below these numbers.
fn are_within(bodies: &[Body], arrays: usize, count: usize) -> bool
    ensures within { result ≡ list_all (λ b. list_all (limits.is_line arrays count) b.code) bodies.now }
    ensures each { IsTrue result → AllByRecursion IsBody bodies.now }
{
    for first in bodies {
        if !are_lines(first.code(), arrays, count) {
            return false;
        }
    }
    true
}

// Returns true if a job of format 1 may have this body.
fn is_of_first(body: &Body) -> bool
    ensures { IsTrue result ↔ IsOfFirst body.now }
{
    if !are_in_order(body.code(), body.locals().len()) {
        return false;
    }
    lines_of_first(body.code())
}

// Returns true if a job of format 1 may have each of these bodies.
fn are_of_first(bodies: &[Body]) -> bool
    ensures { IsTrue result ↔ AllByRecursion IsOfFirst bodies.now }
{
    let mut rest = bodies;
    while let Some((first, after)) = rest.split_first() {
        if !is_of_first(first) {
            return false;
        }
        rest = after;
    }
    true
}

// Returns true if there is this format, and a job of it may have these bodies.
fn has_format(format: u32, bodies: &[Body]) -> bool
    ensures { IsTrue result ↔ (IsTrue (is_format format) × (format ≡ 1 → AllByRecursion IsOfFirst bodies.now)) }
{
    match format {
        1 => are_of_first(bodies),
        2 => true,
        _ => false,
    }
}

// Returns true if each start line names a body below this number.
fn are_starts(starts: &[Start], bodies: usize) -> bool
    ensures { result ≡ list_all (λ s. nat_lt s.body bodies) starts.now }
{
    starts.iter().all(|start| usize::from(start.body) < bodies)
}

// Returns true if the argument of each start line is a number of 64 signed bits.
fn are_args(starts: &[Start]) -> bool
    ensures { result ≡ list_all (λ s. fits_i64 s.arg) starts.now }
{
    starts.iter().all(|start| is_number(start.arg))
}

// Returns true if a job of this format may have these arrays, bodies and start lines.
fn is_job(format: u32, arrays: &Arrays, bodies: &Vec<Body>, starts: &Vec<Start>) -> bool
    ensures { IsTrue result ↔ IsJob (job_value format arrays.now bodies.now starts.now) }
{
    let count = bodies.len();
    if !has_format(format, bodies) {
        return false;
    }
    if arrays.len() > MOST_ARRAYS || count > MOST_BODIES || starts.len() > MOST_TASKS {
        return false;
    }
    if !are_arrays(arrays) || !are_named_apart(bodies) {
        return false;
    }
    if !are_within(bodies, arrays.len(), count) {
        return false;
    }
    are_starts(starts, count) && are_args(starts) && are_cells(arrays)
}

impl Job {
    /// Makes a job of this format, 1 or 2, with these arrays, bodies and start lines. Returns `None` if there is no
    /// such format; if in format 1 a line is an add, or the locals of a body aren't in the order of first mention; if a
    /// name isn't one, or two bodies share a name; if an array has no cell or over 4096; if a line names an array or a
    /// body that doesn't exist, or a start line no body; and above [`MOST_ARRAYS`] arrays, [`MOST_BODIES`] bodies and
    /// [`MOST_TASKS`] start lines (all own).
    pub fn new(format: u32, arrays: Arrays, bodies: Vec<Body>, starts: Vec<Start>) -> Option<Job>
        ensures refused { IsSome result ↔ IsJob (job_value format arrays bodies starts) }
        ensures made { IfSome result (λ job. job ≡ job_value format arrays bodies starts) }
    {
        if !is_job(format, &arrays, &bodies, &starts) {
            return None;
        }
        Some(Job {
            format,
            arrays,
            bodies,
            starts,
        })
    }

    /// Returns what the job was made of: its format, arrays, bodies and start lines.
    pub fn into_parts(self) -> (u32, Arrays, Vec<Body>, Vec<Start>)
        ensures parts { job_value result.0 result.1 result.2 result.3 ≡ self }
        ensures kept { IsJob self }
    {
        let Job {
            format,
            arrays,
            bodies,
            starts,
        } = self;
        (format, arrays, bodies, starts)
    }

    /// Returns the format, 1 or 2.
    pub fn format(&self) -> u32
        ensures format { result ≡ self.now.format }
        ensures kept { IsJob self.now }
    {
        self.format
    }

    /// Returns the arrays as the job begins, in declared order.
    pub fn arrays(&self) -> &Arrays
        ensures { result.now ≡ self.now.arrays }
    {
        &self.arrays
    }

    /// Returns the bodies, in declared order.
    pub fn bodies(&self) -> &[Body]
        ensures bodies { result.now ≡ self.now.bodies }
        ensures kept { IsJob self.now }
    {
        self.bodies.as_slice()
    }

    /// Returns the start lines, in declared order.
    pub fn starts(&self) -> &[Start]
        ensures { result.now ≡ self.now.starts }
    {
        self.starts.as_slice()
    }

    /// Returns true if the other job is the same: format, arrays, bodies and start lines, each in declared order.
    pub fn same_as(&self, other: &Job) -> bool
        ensures { IsTrue result ↔ (self.now ≡ other.now) }
    {
        if self.format != other.format {
            return false;
        }
        if !self.arrays().same_as(other.arrays()) {
            return false;
        }
        if !same_bodies(self.bodies(), other.bodies()) {
            return false;
        }
        same_starts(self.starts(), other.starts())
    }
}
