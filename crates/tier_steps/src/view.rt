//! What a token knows of its tree, and what it owes.

ghost use Rattle.std.specs.Prelude.{◌≡◌};

use phaser_word::Word;

/// What a climb passes on to the tier above: an arrival or a departure of one of its parties.
#[derive(Clone, Copy, PartialEq, Eq)]
pub enum Passage {
    /// The tier below has no unarrived party left, so it arrives.
    Arrival,
    /// The tier below has no party left, so it leaves.
    Departure,
}

/// How far the opening of a path of empty tiers has come.
#[derive(Clone, Copy, PartialEq, Eq)]
pub enum OpeningStage {
    /// Claims tiers. The join above them is still to come.
    Seeking,
    /// The join was taken. The claimed tiers get their parties, from the highest down.
    Joined,
    /// The join was refused. The claimed tiers are released, from the highest down.
    GoingBack,
}

/// What a token owes the tree.
#[derive(Clone, Copy)]
pub enum Errand {
    /// Nothing.
    Rest,
    /// It is opening the path from `tier` to the root, for `size` members at `tier`. The lowest `claimed` tiers of that
    /// path are claimed, at least one.
    Opening {
        /// The tier that the members are to join.
        tier: u16,
        /// The number of claimed tiers of the path.
        claimed: u16,
        /// How far the opening has come.
        stage: OpeningStage,
        /// The number of members that are to join.
        size: u32,
    },
    /// It is climbing, and must pass an arrival or a departure on to `tier` next.
    Climbing {
        /// The next tier.
        tier: u16,
        /// What is passed on to it.
        passage: Passage,
    },
    /// It must advance the root.
    Advancing,
}

/// What a token knows of its tree and owes it.
#[derive(Clone, Copy)]
pub struct View {
    /// The tier of its members.
    pub tier: u16,
    /// The number of its members.
    pub size: u32,
    /// The phase that the token is in.
    pub phase: u32,
    /// The number of members that have arrived in that phase.
    pub arrived: u32,
    /// The root's phase if the token has seen that the tree has ended.
    pub end_seen: Option<u32>,
    /// True if the token took an advance since it last looked at the root.
    pub led: bool,
    /// The tier and the word that last refused its join.
    pub note: Option<(u16, Word)>,
    /// What the token owes.
    pub errand: Errand,
}

impl View {
    ghost use Rattle.tier_steps.specs.View.{new_view};

    /// Returns the view of a new token of a tree whose root is in `phase`. It has no members.
    pub fn new(phase: u32) -> View
        ensures { result ≡ new_view phase }
    {
        View {
            tier: 0,
            size: 0,
            phase,
            arrived: 0,
            end_seen: None,
            led: false,
            note: None,
            errand: Errand::Rest,
        }
    }
}
