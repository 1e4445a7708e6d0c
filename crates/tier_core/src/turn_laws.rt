//! What is proved of the steps of calls.

ghost use Rattle.tier_core.specs.Machine.{TurnsAreSteps, OneWordIsEnough, OneWordTellsRanges};
ghost use Rattle.tier_core.specs.Run.{TheTreeIsFlat};

/// Each step of a call is one that its token may take, and the call then fits the token's view.
pub fn turns_are_steps()
    ensures { TurnsAreSteps }
{}

/// After its look at the root, each step of a call is determined by the word of one tier and by its token's
/// view, and is taken at that tier.
pub fn one_word_is_enough()
    ensures { OneWordIsEnough }
{}

/// If such a step answers `MustAdvance`, the phase is at most 2147483647 and the parties at most 65535.
pub fn one_word_tells_ranges()
    ensures { OneWordTellsRanges }
{}

/// The tree is flat: on every tree, any steps of any tokens are a run of one flat phaser over all members of
/// all tokens.
pub fn the_tree_is_flat()
    ensures { TheTreeIsFlat }
{}
