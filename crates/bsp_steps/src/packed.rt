//! Deeds as bytes.
ghost use Rattle.std.specs.Prelude.{◌≡◌, ◌≤◌, ◌+◌, ◌-◌, [], Ok, Err, IfOk, OnOk, MatchResult, map, length};
ghost use Rattle.std.specs.Option.{option_map};
ghost use Rattle.bsp_steps.specs.DeedBytes as spec;
ghost use Rattle.bsp_steps.specs.DeedReads.{after, read_deed, deed_value, item_from, IsHead, IsRow, IsTaken, HasEnded, IsBlock, deeds_of};

use crate::given::{Deed, PutGiven};
use std::alloc::{AllocError, Global};
use std::mem;

/// Bytes, as C gives them.
#[repr(C)]
#[derive(Clone, Copy)]
pub struct Block<'a> {
    /// The bytes.
    pub bytes: &'a [u8],
}

/// Where reading stopped.
#[repr(C)]
#[derive(Clone, Copy)]
pub struct Unread {
    /// The block, from 0.
    pub block: usize,
    /// The byte of the block, from 0.
    pub byte: usize,
}

/// What was read of a deed.
#[derive(Drop)]
pub struct DeedRead {
    puts: Vec<PutGiven>,
    prints: Vec<i64>,
    spawns: u16,
    ending: u8,
}

// An item, as it begins. The values of a row come after it.
#[derive(Clone, Copy)]
enum Head {
    Put(PutGiven),
    Row(u16, u32, u32),
    Print(i64),
    End(u16, u8),
}

// A number of one byte, and the bytes after it.
#[inline(always)]
fn one(bytes: &[u8]) -> Option<(u8, &[u8])>
    ensures { option_map after result ≡ spec.one bytes.now }
{
    match bytes {
        [first, rest @ ..] => Some((*first, rest)),
        _ => None,
    }
}

// A number of two bytes.
#[inline(always)]
fn two(bytes: &[u8]) -> Option<(u16, &[u8])>
    ensures { option_map after result ≡ spec.two bytes.now }
{
    let (low, rest) = one(bytes)?;
    let (high, rest) = one(rest)?;
    Some((u16::from(low) + 256 * u16::from(high), rest))
}

// A number of four bytes.
#[inline(always)]
fn four(bytes: &[u8]) -> Option<(u32, &[u8])>
    ensures { option_map after result ≡ spec.four bytes.now }
{
    let (low, rest) = two(bytes)?;
    let (high, rest) = two(rest)?;
    Some((u32::from(low) + 65536 * u32::from(high), rest))
}

// A number of eight bytes.
#[inline(always)]
fn eight(bytes: &[u8]) -> Option<(u64, &[u8])>
    ensures { option_map after result ≡ spec.eight bytes.now }
{
    let (low, rest) = four(bytes)?;
    let (high, rest) = four(rest)?;
    Some((u64::from(low) + 4_294_967_296 * u64::from(high), rest))
}

// A value, and the bytes after it.
#[inline(always)]
fn value(bytes: &[u8]) -> Option<(i64, &[u8])>
    ensures { option_map after result ≡ spec.value bytes.now }
{
    let (number, rest) = eight(bytes)?;
    Some((number.cast_signed(), rest))
}

// A put or an addition.
fn put_head(adds: u16, bytes: &[u8]) -> Option<(Head, &[u8])>
    ensures { IsHead (spec.put_item adds bytes.now) result }
{
    let (array, rest) = two(bytes)?;
    let (index, rest) = four(rest)?;
    let (value, rest) = value(rest)?;
    let put = PutGiven {
        array,
        adds,
        index,
        value,
    };
    Some((Head::Put(put), rest))
}

// A row, without its values.
fn row_head(bytes: &[u8]) -> Option<(Head, &[u8])>
    ensures { IsHead (spec.row_item bytes.now) result }
{
    let (array, rest) = two(bytes)?;
    let (first, rest) = four(rest)?;
    let (count, rest) = four(rest)?;
    Some((Head::Row(array, first, count), rest))
}

// A print.
fn print_head(bytes: &[u8]) -> Option<(Head, &[u8])>
    ensures { IsHead (spec.print_item bytes.now) result }
{
    let (value, rest) = value(bytes)?;
    Some((Head::Print(value), rest))
}

// The end of a deed.
fn end_head(bytes: &[u8]) -> Option<(Head, &[u8])>
    ensures { IsHead (spec.end_item bytes.now) result }
{
    let (ending, rest) = one(bytes)?;
    let (spawns, rest) = two(rest)?;
    if ending <= 1 || ending >= 16 {
        Some((Head::End(spawns, ending), rest))
    } else {
        None
    }
}

// The item at the front of bytes, as it begins, and the bytes after that.
fn item(bytes: &[u8]) -> Option<(Head, &[u8])>
    ensures { IsHead (spec.item_of bytes.now) result }
{
    let (kind, rest) = one(bytes)?;
    match kind {
        0 => end_head(rest),
        1 => put_head(0, rest),
        2 => put_head(1, rest),
        3 => row_head(rest),
        4 => print_head(rest),
        _ => None,
    }
}

// Appends the values of a row as puts. Returns the bytes after them, or `None` if they aren't all there.
fn take_values<'a>(
    bytes: &'a [u8],
    array: u16,
    first: u32,
    count: u32,
    puts: &mut Vec<PutGiven>,
) -> Result<Option<&'a [u8]>, AllocError>
    requires { first + count ≤ 4294967296 }
    ensures { IfOk result (λ rest. IsRow array first puts.old.items puts.new.items rest (spec.values count bytes.now)) }
{
    let mut rest = bytes;
    let mut place = 0;
    while place < count {
        let Some((value, behind)) = value(rest) else {
            return Ok(None);
        };
        puts.push(PutGiven {
            array,
            adds: 0,
            index: first + place,
            value,
        })?;
        rest = behind;
        place += 1;
    }
    Ok(Some(rest))
}

// Returns true if a row may have so many cells from this one on.
fn is_row(first: u32, count: u32) -> bool
    ensures { result ≡ spec.is_row first count }
{
    count > 0 && u64::from(first) + u64::from(count) <= 4_294_967_296
}

// Returns how many values of a row there may be in these bytes.
fn values_at_most(bytes: &[u8], count: u32) -> usize
    ensures { result ≤ count }
{
    let most = bytes.len() / 8;
    if most < count as usize {
        most
    } else {
        count as usize
    }
}

// Appends a row. Returns the bytes after it, or `None` if it is none.
fn take_row<'a>(
    bytes: &'a [u8],
    array: u16,
    first: u32,
    count: u32,
    puts: &mut Vec<PutGiven>,
) -> Result<Option<&'a [u8]>, AllocError>
    ensures { IfOk result (λ rest. IsRow array first puts.old.items puts.new.items rest (spec.row_values first count bytes.now)) }
{
    if !is_row(first, count) {
        return Ok(None);
    }
    puts.reserve(values_at_most(bytes, count))?;
    take_values(bytes, array, first, count, puts)
}

// What was read of no deed yet.
fn nothing(alloc: Global) -> DeedRead
    ensures puts { result.puts.items ≡ [] }
    ensures prints { result.prints.items ≡ [] }
{
    DeedRead {
        puts: Vec::new(alloc),
        prints: Vec::new(alloc),
        spawns: 0,
        ending: 0,
    }
}

// Ends the open deed.
fn end(
    alloc: Global,
    begun: &mut DeedRead,
    spawns: u16,
    ending: u8,
    deeds: &mut Vec<DeedRead>,
) -> Result<(), AllocError>
    ensures { OnOk result (HasEnded begun.old begun.new deeds.old.items deeds.new.items spawns ending) }
{
    let mut ended = mem::replace(begun, nothing(alloc));
    ended.spawns = spawns;
    ended.ending = ending;
    deeds.push(ended)?;
    Ok(())
}

// Takes the item that begins so. Returns the bytes after it, or `None` if it is none.
fn take<'a>(
    alloc: Global,
    head: Head,
    bytes: &'a [u8],
    begun: &mut DeedRead,
    deeds: &mut Vec<DeedRead>,
) -> Result<Option<&'a [u8]>, AllocError>
    ensures { IfOk result (λ rest. IsTaken begun.old begun.new deeds.old.items deeds.new.items rest (item_from head bytes.now)) }
{
    match head {
        Head::Put(put) => {
            begun.puts.push(put)?;
            Ok(Some(bytes))
        }
        Head::Row(array, first, count) => take_row(bytes, array, first, count, &mut begun.puts),
        Head::Print(value) => {
            begun.prints.push(value)?;
            Ok(Some(bytes))
        }
        Head::End(spawns, ending) => {
            end(alloc, begun, spawns, ending, deeds)?;
            Ok(Some(bytes))
        }
    }
}

// Takes the item at the front of bytes. Returns the bytes after it, or `None` if there is none.
fn take_item<'a>(
    alloc: Global,
    bytes: &'a [u8],
    begun: &mut DeedRead,
    deeds: &mut Vec<DeedRead>,
) -> Result<Option<&'a [u8]>, AllocError>
    ensures { IfOk result (λ rest. IsTaken begun.old begun.new deeds.old.items deeds.new.items rest (spec.item_of bytes.now)) }
{
    match item(bytes) {
        Some((head, behind)) => take(alloc, head, behind, begun, deeds),
        None => Ok(None),
    }
}

// Returns true if all bytes are read, and no deed is open.
fn is_done(bytes: &[u8], begun: &DeedRead) -> bool
    ensures { result ≡ spec.is_done bytes.now begun.now.puts.items begun.now.prints.items }
{
    bytes.is_empty() && begun.puts.is_empty() && begun.prints.is_empty()
}

// Returns how many of all bytes were read if these are left.
fn minus(all: usize, left: usize) -> usize
    ensures { result ≡ all - left }
{
    if left > all { 0 } else { all - left }
}

// Reads the deeds of a block. Returns the byte at which it has no item, if there is one.
fn read_block(
    alloc: Global,
    bytes: &[u8],
    deeds: &mut Vec<DeedRead>,
) -> Result<Option<usize>, AllocError>
    ensures { IfOk result (λ fault. IsBlock (length bytes.now) (map read_deed deeds.old.items) (map read_deed deeds.new.items) fault (spec.deeds_in bytes.now)) }
{
    let mut begun = nothing(alloc);
    let mut rest = bytes;
    let mut items = bytes.len() + 1;
    while items > 0 {
        if is_done(rest, &begun) {
            return Ok(None);
        }
        match take_item(alloc, rest, &mut begun, deeds)? {
            Some(behind) => rest = behind,
            None => return Ok(Some(minus(bytes.len(), rest.len()))),
        }
        items -= 1;
    }
    Ok(Some(minus(bytes.len(), rest.len())))
}

/// Reads the deeds of blocks, none of which goes on in the next block.
pub fn read_blocks(
    alloc: Global,
    blocks: &[Block<'_>],
) -> Result<Result<Vec<DeedRead>, Unread>, AllocError>
    ensures { IfOk result (λ found. MatchResult found (λ read. deeds_of 0 blocks.now ≡ Ok (map read_deed read.items)) (λ place. deeds_of 0 blocks.now ≡ Err place)) }
{
    let mut deeds = Vec::new(alloc);
    let mut block = 0;
    while block < blocks.len() {
        if let Some(byte) = read_block(alloc, blocks[block].bytes, &mut deeds)? {
            return Ok(Err(Unread { block, byte }));
        }
        block += 1;
    }
    Ok(Ok(deeds))
}

/// Returns what was read as deeds.
pub fn lend(alloc: Global, read: &[DeedRead]) -> Result<Vec<Deed<'_>>, AllocError>
    ensures { IfOk result (λ deeds. map deed_value deeds.items ≡ map read_deed read.now) }
{
    let mut deeds = Vec::new(alloc);
    deeds.reserve(read.len())?;
    for one in read {
        deeds.push(Deed {
            puts: &one.puts,
            prints: &one.prints,
            spawns: one.spawns,
            ending: one.ending,
        })?;
    }
    Ok(deeds)
}
