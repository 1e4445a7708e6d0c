//! The words of a closed tree.

use phaser_word::Word;
use tier_shape::Shape;
use tier_table::closing::ClosedToken;

// Returns how many parties of a tier have not arrived in the root's phase: all of them if it lags.
fn late(word: &Word, phase: u32) -> u32 {
    if word.parties == 0 {
        0
    } else if word.phase == phase {
        word.unarrived
    } else {
        word.parties
    }
}

// Returns how many members the tokens at a tier have, and how many of them have not arrived in the root's phase.
fn members(tokens: &[ClosedToken], tier: usize, phase: u32) -> (u32, u32) {
    let mut all = 0u32;
    let mut unarrived = 0u32;
    for token in tokens {
        if usize::from(token.tier) == tier {
            let here = if token.phase == phase {
                token.unarrived
            } else {
                token.size
            };
            all = all.saturating_add(token.size);
            unarrived = unarrived.saturating_add(here);
        }
    }
    (all, unarrived)
}

// Returns how many of the tiers below one have a party, and how many have an unarrived one.
fn children(shape: &Shape, words: &[Word], tier: usize, phase: u32) -> (u32, u32) {
    let mut all = 0u32;
    let mut unarrived = 0u32;
    for (child, word) in words.iter().enumerate() {
        let parent = shape.parent((child % 64) as u16);
        if parent.is_some_and(|parent| usize::from(parent) == tier) {
            all = all.saturating_add(u32::from(word.parties > 0));
            unarrived = unarrived.saturating_add(u32::from(late(word, phase) > 0));
        }
    }
    (all, unarrived)
}

/// Returns true if each word counts the tokens at its tier and the tiers below it. This leaves out the root's word if it has ended.
pub fn tally(shape: &Shape, words: &[Word], tokens: &[ClosedToken]) -> bool {
    let Some(root) = words.first() else {
        return false;
    };
    for (tier, word) in words.iter().enumerate() {
        let (own, own_late) = members(tokens, tier, root.phase);
        let (below, below_late) = children(shape, words, tier, root.phase);
        let counts = word.parties == own.saturating_add(below)
            && late(word, root.phase) == own_late.saturating_add(below_late);
        if !counts && (tier > 0 || !root.ended) {
            return false;
        }
    }
    words.len() == shape.count()
}

/// Returns true if the words are these: the phase, the parties, how many of them are unarrived, and whether it has ended.
pub fn are(words: &[Word], wants: &[(u32, u32, u32, bool)]) -> bool {
    if words.len() != wants.len() {
        return false;
    }
    for (word, want) in words.iter().zip(wants) {
        if (word.phase, word.parties, word.unarrived, word.ended) != *want {
            return false;
        }
    }
    true
}
