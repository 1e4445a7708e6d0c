//! The kinds of step that a token can take.

use crate::view::Passage;

/// A kind of step, taken at some tier.
///
/// In the steps of a join, `tier` is the tier at which the members register, `size` their number, and `claimed` the
/// number of tiers on the path to the root that the token has claimed: before the step, or in `Settle` and `SettleBack`
/// after it.
#[derive(Clone, Copy)]
pub enum Kind {
    /// Looks at the root.
    Look,
    /// Looks at a tier below the root. Changes nothing.
    Glance,
    /// Looks at a tier at which a join is due and which refuses it.
    Refuse {
        /// The tier to join.
        tier: u16,
        /// The number of claimed tiers.
        claimed: u16,
        /// The number of members that are to join.
        size: u32,
    },
    /// Admits the members.
    Join {
        /// The tier to join.
        tier: u16,
        /// The number of claimed tiers.
        claimed: u16,
        /// The number of members that join.
        size: u32,
    },
    /// Arrives with a member at the token's tier.
    Arrive,
    /// Removes a member from the token's tier.
    Leave,
    /// Advances the root. If true, this ends the tree.
    Advance(bool),
    /// Ends the tree by force.
    Force,
    /// Claims an empty tier below the root.
    Claim {
        /// The tier to join.
        tier: u16,
        /// The number of tiers claimed before.
        claimed: u16,
        /// The number of members that are to join.
        size: u32,
    },
    /// Gives the highest claimed tier its parties, after the join.
    Settle {
        /// The tier that was joined.
        tier: u16,
        /// The number of tiers claimed afterwards.
        claimed: u16,
        /// The number of members that have joined.
        size: u32,
    },
    /// Releases the highest claimed tier, after a refusal.
    SettleBack {
        /// The tier that was to be joined.
        tier: u16,
        /// The number of tiers claimed afterwards.
        claimed: u16,
        /// The number of members that were to join.
        size: u32,
    },
    /// Passes an arrival or a departure on to a tier above.
    Climb(Passage),
    /// Brings a lagging tier into the token's phase.
    Refresh,
}
