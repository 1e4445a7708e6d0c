//! What stretches have done together.
ghost use Rattle.std.specs.Prelude.{◌≡◌, ◌==◌, ◌&&◌, ◌≤◌, ◌<◌, ◌+◌, ◌++◌, ◌^◌, if◌then◌else◌, [], None, Some, nat_le, IfOk, IfSome, OnOk, MatchOption, length, map};
ghost use Rattle.std.specs.Vec.{vec_len, vec_capacity};
ghost use Rattle.std.specs.List.{list_all};
ghost use Rattle.superstep_memory.specs.Landing.{is_set};
ghost use Rattle.std.specs.Option.{option_map};
ghost use Rattle.programs.specs.InPlace.{left_in, spawned_in, overflow_at, maker};
ghost use Rattle.program_stretches.specs.Parts.{EachDid, covers, is_done, fault_in, of_slot, settled_at, tasks_in, puts_in, deeds_in, prints_in, renewed};

use crate::part::Part;
use phase_records::Print;
use programs::blame::Blame;
use programs::deeds::Deeds;
use programs::program::OnPath;
use std::alloc::{AllocError, Global};
use superstep_memory::puts::Puts;

// Returns true if a stretch begins at place `at`, has run or not as `done` says, and goes no further than to `end`.
fn is_at<T: OnPath>(part: &Part<T>, done: bool, at: usize, end: usize) -> bool
    requires { at ≤ end }
    ensures { result ≡ ((part.now.first == at) && is_done done part.now.done && nat_le (at + length part.now.tasks) end) }
{
    part.first() == at && part.is_done() == done && part.len() <= end - at
}

/// Returns true if these stretches are all there, have run or not as `done` says, and follow one another up to `end`.
pub fn cover<T: OnPath>(parts: &[Option<Part<T>>], done: bool, end: usize) -> bool
    ensures { result ≡ covers done end 0 parts.now }
{
    let mut at = 0;
    let mut place = 0;
    while place < parts.len() {
        let slot = &parts[place];
        let Some(part) = slot else {
            return false;
        };
        if !is_at(part, done, at, end) {
            return false;
        }
        at += part.len();
        place += 1;
    }
    at == end
}

/// Returns the first fault, if there is one.
pub fn find_fault<T: OnPath>(parts: &[Option<Part<T>>]) -> Option<Blame>
    ensures { result ≡ fault_in parts.now }
{
    let mut place = 0;
    while place < parts.len() {
        let slot = &parts[place];
        if let Some(part) = slot {
            if let Some(blame) = part.fault() {
                return Some(blame);
            }
        }
        place += 1;
    }
    None
}

// Returns the number of tasks of this stretch that stopped.
fn left_by<T: OnPath>(slot: &Option<Part<T>>) -> usize
    ensures { result ≡ left_in (of_slot (λ part. part.deeds) slot.now) }
{
    match slot {
        Some(part) => part.left(),
        None => 0,
    }
}

// Returns the number of tasks that those of this stretch spawned.
fn spawned_by<T: OnPath>(slot: &Option<Part<T>>) -> usize
    ensures { result ≡ spawned_in (of_slot (λ part. part.deeds) slot.now) }
{
    match slot {
        Some(part) => part.spawned(),
        None => 0,
    }
}

/// Returns the number of tasks that stopped, which is at most `most`.
pub fn count_left<T: OnPath>(parts: &[Option<Part<T>>], most: usize) -> usize
    requires { left_in (deeds_in parts.now) ≤ most }
    ensures { result ≡ left_in (deeds_in parts.now) }
{
    let mut count = 0;
    let mut place = 0;
    while place < parts.len() {
        let slot = &parts[place];
        count += left_by(slot);
        place += 1;
    }
    count
}

/// Returns the number of tasks that were spawned, or `None` if it is more than `most`.
pub fn count_spawned<T: OnPath>(parts: &[Option<Part<T>>], most: usize) -> Option<usize>
    ensures { MatchOption result (most < spawned_in (deeds_in parts.now)) (λ count. (count ≡ spawned_in (deeds_in parts.now)) × (count ≤ most)) }
{
    let mut count = 0;
    let mut place = 0;
    while place < parts.len() {
        let slot = &parts[place];
        let more = spawned_by(slot);
        if more > most - count {
            return None;
        }
        count += more;
        place += 1;
    }
    Some(count)
}

/// Returns the number of values that were printed, or `None` if it is too large to be kept.
pub fn count_prints<T: OnPath>(parts: &[Option<Part<T>>]) -> Option<usize>
    ensures { MatchOption result (18446744073709551615 < length (prints_in parts.now)) (λ count. count ≡ length (prints_in parts.now)) }
{
    let mut count: usize = 0;
    let mut place = 0;
    while place < parts.len() {
        let slot = &parts[place];
        if let Some(part) = slot {
            count = count.checked_add(part.print_count())?;
        }
        place += 1;
    }
    Some(count)
}

// Returns true if no put of this stretch adds.
fn sets_of<T: OnPath>(slot: &Option<Part<T>>) -> bool
    ensures { result ≡ list_all is_set (of_slot (λ part. part.puts) slot.now) }
{
    match slot {
        Some(part) => part.are_sets(),
        None => true,
    }
}

/// Returns true if no put adds.
pub fn are_all_sets<T: OnPath>(parts: &[Option<Part<T>>]) -> bool
    ensures { result ≡ list_all is_set (puts_in parts.now) }
{
    let mut place = 0;
    while place < parts.len() {
        let slot = &parts[place];
        if !sets_of(slot) {
            return false;
        }
        place += 1;
    }
    true
}

/// Returns the fault of the task that made the put at this place of all puts. `None` if fewer were made, or if the stretch of the
/// task is settled.
pub fn find_blame<T: OnPath>(parts: &[Option<Part<T>>], place: usize) -> Option<Blame>
    requires { EachDid parts.now }
    ensures { result ≡ if settled_at parts.now place then None else option_map overflow_at (maker T.path_of (tasks_in parts.now) (deeds_in parts.now) place) }
{
    let mut left = place;
    let mut place = 0;
    while place < parts.len() {
        let slot = &parts[place];
        if let Some(part) = slot {
            match part.pass_by(left) {
                Some(rest) => left = rest,
                None => return part.blame_at(left),
            }
        }
        place += 1;
    }
    None
}
