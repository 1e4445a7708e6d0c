//! What no text reaches: packed words, and shapes by lists of parents.
use phaser_word::{LAST_PHASE, Word};
use std::alloc::Global;
use std::process::Abort;
use tier_shape::Shape;

// Packed numbers, and what they are unpacked into: the phase, the parties, how many of them are unarrived, and whether
// it has ended. `None` if no legal word has the number.
const WORDS: [(u64, Option<(u32, u32, u32, bool)>); 8] = [
    (0x0000000000000000, Some((0, 0, 0, false))),
    (0x0000000000000001, Some((0, 0, 1, false))),
    (0x0000000000000002, Some((0, 0, 2, false))),
    (0x0000000100020002, Some((1, 2, 2, false))),
    (0x7fffffffffffffff, Some((LAST_PHASE, 65535, 65535, false))),
    (0xffffffffffffffff, Some((LAST_PHASE, 65535, 65535, true))),
    (0x0000000000000003, None),
    (0x0000000000010002, None),
];

// Returns true if a number is unpacked so, and packed again.
fn is_packed(bits: u64, want: Option<(u32, u32, u32, bool)>) -> bool {
    match (Word::unpack(bits), want) {
        (Some(word), Some(want)) => {
            (word.phase, word.parties, word.unarrived, word.ended) == want && word.pack() == bits
        }
        (None, None) => true,
        _ => false,
    }
}

#[test]
fn packs_the_known_words(rt: HostRuntime) {
    for (bits, want) in WORDS {
        assert!(rt; is_packed(bits, want));
    }
}

// Lists of parents, and the answer to them: the name of a refusal, or that they are taken.
const PARENTS: [(&[u16], &str); 5] = [
    (&[], "NoTier"),
    (&[1], "ParentNotEarlier"),
    (&[0, 1], "ParentNotEarlier"),
    (&[0, 0, 1, 2, 3, 4, 5, 6], "TooDeep"),
    (&[0, 0, 1, 2, 3, 4, 5], "taken"),
];

// A parent, how many tiers have it, and the answer to them.
const ALIKE: [(u16, usize, &str); 3] = [
    (0, 65, "TooManyTiers"),
    (1, 65, "TooManyTiers"),
    (0, 64, "taken"),
];

// Returns the answer to a list of parents.
fn reported(alloc: Global, parents: &[u16]) -> &'static str {
    match Shape::from_parents(alloc, parents) {
        Ok(shape) if shape.count() == parents.len() => "taken",
        Ok(_shape) => "miscounted",
        Err(fault) => fault.name(),
    }
}

// Returns the answer to `count` tiers with this parent.
fn reported_alike(rt: &impl Abort, alloc: Global, parent: u16, count: usize) -> &'static str {
    let parents = Vec::from_elem(alloc, parent, count).expect(rt, "memory");
    reported(alloc, &parents)
}

#[test]
fn takes_and_refuses_parents(rt: HostRuntime) {
    for (parents, want) in PARENTS {
        assert!(rt; reported(rt.alloc(), parents) == want);
    }
}

#[test]
fn takes_and_refuses_tiers_of_one_parent(rt: HostRuntime) {
    for (parent, count, want) in ALIKE {
        assert!(rt; reported_alike(&rt, rt.alloc(), parent, count) == want);
    }
}

// Which of the tiers of a tree of 2 by 3 are leaves.
fn has_leaves(alloc: Global, shape: &Shape) -> bool {
    match shape.leaves(alloc) {
        Ok(leaves) => are(&leaves, &[3, 4, 5, 6, 7, 8]),
        Err(_) => false,
    }
}

// Returns true if its last leaf has its path.
fn has_path(shape: &Shape) -> bool {
    shape.count() == 9 && are(&shape.path_up(8), &[8, 2, 0])
}

// Returns true if the tiers are these.
fn are(tiers: &[u16], wants: &[u16]) -> bool {
    tiers == wants
}

#[test]
fn lists_leaves_and_paths(rt: HostRuntime) {
    let shape = Shape::from_widths(rt.alloc(), "2x3").expect(&rt, "a shape");
    assert!(rt; has_leaves(rt.alloc(), &shape));
    assert!(rt; has_path(&shape));
    for tier in 0..10 {
        assert!(rt; shape.is_leaf(tier) == (tier > 2 && tier < 9));
    }
}

#[test]
fn knows_the_leaf_of_a_flat_tree(rt: HostRuntime) {
    let flat = Shape::from_widths(rt.alloc(), "flat").expect(&rt, "a shape");
    assert!(rt; flat.is_leaf(0));
}
