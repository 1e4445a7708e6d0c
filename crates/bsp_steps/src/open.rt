//! Arrays from what C gives.
ghost use Rattle.std.specs.Prelude.{◌≡◌, ◌↔◌, ◌++◌, ◌∷◌, [], true, IsTrue, IfOk, IfErr, map, string_bytes, if◌then◌else◌};
ghost use Rattle.std.specs.List.{list_all};
ghost use Rattle.std.specs.Str.{bytes_eq};
ghost use Rattle.superstep_memory.specs.Cells.{has_array};
ghost use Rattle.task_code.specs.Names as names;
ghost use Rattle.bsp_steps.specs.Given.{array_given, is_named, is_small, MayFollow, MayBeNext};
ghost use Rattle.bsp_steps.specs.declared.open.OpenFault.TheVariants.{Memory as MemoryFault, Refused as RefusedFault};

use crate::given::ArrayGiven;
use std::alloc::{AllocError, Global};
use superstep_memory::arrays::Arrays;
use task_code::names::is_free;

/// Why no arrays were made.
#[derive(Drop)]
pub enum OpenFault {
    /// A name is another array's, or there are too many cells.
    Refused,
    /// An allocation failed.
    Memory,
}

// Returns true if two names are the same.
fn are_same(name: &[u8], other: &[u8]) -> bool
    ensures { result ≡ bytes_eq name.now other.now }
{
    name == other
}

/// Returns true if each array has a name that an array of a job may have.
pub fn are_named(given: &[ArrayGiven<'_>]) -> bool
    ensures { result ≡ list_all is_named given.now }
{
    let mut place = 0;
    while place < given.len() {
        if !is_free(given[place].name) {
            return false;
        }
        place += 1;
    }
    true
}

// Returns true if an array isn't too large.
fn is_small_enough(given: &ArrayGiven<'_>) -> bool
    ensures { result ≡ is_small given.now }
{
    given.cells.len() < 4_294_967_296
}

// Returns true if no array is too large.
fn are_small(given: &[ArrayGiven<'_>]) -> bool
    ensures { result ≡ list_all is_small given.now }
{
    let mut place = 0;
    while place < given.len() {
        if !is_small_enough(&given[place]) {
            return false;
        }
        place += 1;
    }
    true
}

// Returns true if one of these arrays has this name.
fn has_name(given: &[ArrayGiven<'_>], name: &[u8]) -> bool
    ensures { result ≡ has_array (map array_given given.now) name.now }
{
    let mut place = 0;
    while place < given.len() {
        if are_same(name, given[place].name) {
            return true;
        }
        place += 1;
    }
    false
}

// Returns true if the arrays may follow each other. Allocates nothing; its time grows with the square of their number.
fn may_follow(given: &[ArrayGiven<'_>]) -> bool
    ensures { IsTrue result ↔ MayFollow [] given.now }
{
    let mut place = 0;
    while place < given.len() {
        let (before, _) = given.split_at(place);
        if has_name(before, given[place].name) || !is_small_enough(&given[place]) {
            return false;
        }
        place += 1;
    }
    true
}

// Returns why no arrays were made where memory ran out: an array that is refused comes first.
fn fault_of(given: &[ArrayGiven<'_>]) -> OpenFault
    ensures refused { result ≡ RefusedFault → MayFollow [] given.now → ⊥ }
    ensures memory { result ≡ MemoryFault → MayFollow [] given.now }
{
    if may_follow(given) {
        OpenFault::Memory
    } else {
        OpenFault::Refused
    }
}

// Copies a name into a string.
#[tactic(auto, using(crate::proofs::AsciiNames::ascii_steps))]
fn name_text(alloc: Global, name: &[u8]) -> Result<String, AllocError>
    requires { IsTrue (names.is_free name.now) }
    ensures { IfOk result (λ text. string_bytes text ≡ name.now) }
{
    match str::from_utf8(name) {
        Ok(text) => String::from_str(alloc, text),
        Err(_) => unreachable!(),
    }
}

// Adds an array, unless it may not follow the others.
fn add(alloc: Global, arrays: &mut Arrays, given: &ArrayGiven<'_>) -> Result<bool, AllocError>
    requires named { IsTrue (is_named given.now) }
    requires small { IsTrue (is_small given.now) }
    ensures added { IfOk result (λ added. IsTrue added ↔ MayBeNext arrays.old given.now) }
    ensures after { IfOk result (λ added. arrays.new ≡ (if added then arrays.old ++ array_given given.now ∷ [] else arrays.old)) }
{
    let name = name_text(alloc, given.name)?;
    let cells = Vec::from_slice(alloc, given.cells)?;
    arrays.add(name, cells)
}

/// Returns the arrays that C gives. If one is too large, nothing is allocated.
pub fn open_arrays(alloc: Global, given: &[ArrayGiven<'_>]) -> Result<Arrays, OpenFault>
    requires named { list_all is_named given.now ≡ true }
    ensures made { IfOk result (λ arrays. (arrays ≡ map array_given given.now) × MayFollow [] given.now) }
    ensures refused { IfErr result (λ e. e ≡ RefusedFault → MayFollow [] given.now → ⊥) }
    ensures memory { IfErr result (λ e. e ≡ MemoryFault → MayFollow [] given.now) }
{
    if !are_small(given) {
        return Err(OpenFault::Refused);
    }
    let mut arrays = Arrays::new(alloc);
    let mut place = 0;
    while place < given.len() {
        match add(alloc, &mut arrays, &given[place]) {
            Ok(true) => place += 1,
            Ok(false) => return Err(OpenFault::Refused),
            Err(_) => return Err(fault_of(given)),
        }
    }
    Ok(arrays)
}
