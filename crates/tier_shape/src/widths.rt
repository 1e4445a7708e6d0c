//! Texts of widths, and the trees that they describe.

ghost use Rattle.std.specs.Prelude.{◌≡◌, ◌≢◌, ℕ, ◌+◌, ◌/◌, ◌<◌, ◌≤◌, ◌==◌, ◌↔◌, [], ◌∷◌, ◌++◌, length, map, position, All};
ghost use Rattle.std.specs.Prelude.{IfNone, IfOk, IfSome, IsTrue, MatchOption, MatchResult, OnOk};
ghost use Rattle.std.specs.List.{slice_split, range_with_len};
ghost use Rattle.std.specs.Fmt.{decimal};
ghost use Rattle.tier_shape.specs.Faults.{IsRefusedText};
ghost use Rattle.tier_shape.specs.Widths.{IsWidth, IsWidthsText, tree_of, tiers_of};

use crate::{MOST_LEVELS, MOST_TIERS, ShapeFault};
use smallvec::SmallVec;
use std::alloc::{AllocError, Global};

// Reads a number from 1 to 64 without leading zeros.
fn width_of(digits: &[u8]) -> Option<u16>
    ensures { MatchOption result ((width : ℕ) → IsWidth width → decimal width ≢ digits.now)
        (λ width. IsWidth width × (decimal width ≡ digits.now)) }
{
    match digits {
        [ones @ b'1'..=b'9'] => Some(u16::from(*ones - b'0')),
        [tens @ b'1'..=b'9', ones @ b'0'..=b'9'] => {
            let width = u16::from(*tens - b'0') * 10 + u16::from(*ones - b'0');
            if width <= 64 { Some(width) } else { None }
        }
        _ => None,
    }
}

// Returns the index of the first `x`.
fn place_of_x(bytes: &[u8]) -> Option<usize>
    ensures { result ≡ position (λ byte. byte == 120) bytes.now }
{
    bytes.iter().position(|byte| *byte == b'x')
}

// Splits a text at the first `x`: the part before it, and the part after it if there is one.
fn first_piece(bytes: &[u8]) -> (&[u8], Option<&[u8]>)
    ensures last { IfNone result.1 (slice_split (λ byte. byte == 120) bytes.now ≡ result.0.now ∷ []) }
    ensures more { IfSome result.1 (λ more.
        (slice_split (λ byte. byte == 120) bytes.now ≡ result.0.now ∷ slice_split (λ byte. byte == 120) more.now)
        × (length more.now < length bytes.now)) }
{
    match place_of_x(bytes) {
        Some(at) => (&bytes[..at], Some(&bytes[at + 1..])),
        None => (bytes, None),
    }
}

// Reads the widths in a text. Fails if it has none or more than six.
pub(crate) fn read_widths(alloc: Global, text: &[u8]) -> Result<SmallVec<u16, 6>, ShapeFault>
    ensures { MatchResult result (λ widths. IsWidthsText text.now widths.items × (length widths.items ≤ 6))
        (λ fault. IsRefusedText text.now fault) }
{
    let mut widths = SmallVec::new(alloc);
    if text == b"flat".as_slice() {
        return Ok(widths);
    }
    let mut deep = false;
    let mut rest = Some(text);
    while let Some(bytes) = rest {
        let (piece, more) = first_piece(bytes);
        let Some(width) = width_of(piece) else {
            return Err(ShapeFault::BadText);
        };
        if widths.len() < MOST_LEVELS {
            widths.push_reserved(width);
        } else {
            deep = true;
        }
        rest = more;
    }
    if deep {
        return Err(ShapeFault::TooDeep);
    }
    Ok(widths)
}

// Returns true if the tree of these widths has at most 64 tiers.
pub(crate) fn is_small(widths: &[u16]) -> bool
    requires { All IsWidth widths.now }
    ensures { IsTrue result ↔ (tiers_of widths.now ≤ MOST_TIERS) }
{
    let mut size = 1;
    let mut count = 1;
    for width in widths {
        size *= usize::from(*width);
        count += size;
        if count > MOST_TIERS {
            return false;
        }
    }
    true
}

// Appends the parents of the next level's tiers: each tier of this level, from `first` on, `width` times.
fn push_level(
    parents: &mut Vec<u16>,
    first: u16,
    width: u16,
    children: u16,
) -> Result<(), AllocError>
    requires width { 0 < width }
    requires capacity { first + children < 65536 }
    ensures { OnOk result (parents.new.items ≡ parents.old.items ++ map (λ place. first + place / width) (range_with_len 0 children)) }
{
    for place in 0..children {
        parents.push(first + place / width)?;
    }
    Ok(())
}

// Returns the parents in the tree of these widths.
pub(crate) fn tree(alloc: Global, widths: &[u16]) -> Result<Vec<u16>, AllocError>
    requires widths { All IsWidth widths.now }
    requires few { tiers_of widths.now ≤ MOST_TIERS }
    ensures { IfOk result (λ parents. parents.items ≡ tree_of widths.now) }
{
    let mut parents = Vec::new(alloc);
    parents.push(0)?;
    let mut first = 0;
    let mut size = 1;
    for width in widths {
        let children = size * *width;
        push_level(&mut parents, first, *width, children)?;
        first += size;
        size = children;
    }
    Ok(parents)
}
