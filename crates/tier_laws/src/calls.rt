//! Laws of what the steps of each call do to their token. Each law is the contract of a function without parameters that
//! does nothing.

ghost use Rattle.tier_laws.specs.Ended.{TokensBeginCalls, EndedTreesTurnCallsAway, ForceEndsTheTree};
ghost use Rattle.tier_laws.specs.Calls.{OnlyAdvancesMove, PollsFollowTheRoot, PassesBeginWithALook, PassesCount, ClimbsKeepMembers, AdvancesKeepMembers};
ghost use Rattle.tier_laws.specs.Calls.{JoinsBeginWithALook, JoinsPlaceAtOnce, OpenTiersAdmit, SettlingKeepsMembers};
ghost use Rattle.tier_laws.specs.Refreshes.{RefreshesAreNext};

/// A token begins a call exactly if it exists, is in no call, and the call fits it: an arrival, a departure and a poll
/// need a member, a join needs a token without members and a tier that exists, and any token may end the tree.
pub fn tokens_begin_calls()
    ensures { TokensBeginCalls }
{}

/// A call that takes its first step after the tree has ended answers `Ended`, with the phase that the tree shows, and
/// changes nothing of the tree.
pub fn ended_trees_turn_calls_away()
    ensures { EndedTreesTurnCallsAway }
{}

/// A forced end is one step. It ends the tree in its current phase and changes no members.
pub fn force_ends_the_tree()
    ensures { ForceEndsTheTree }
{}

/// Only an advance and a forced end change the phase of the tree and whether it has ended. A tier that is in the root's
/// phase stays there until the advance.
pub fn only_advances_move()
    ensures { OnlyAdvancesMove }
{}

/// A poll by a token that has an awaited member moves it into the root's phase, if it is not there yet, and answers that
/// phase. The word of its tier is then in that phase too.
pub fn polls_follow_the_root()
    ensures { PollsFollowTheRoot }
{}

/// An arrival or a departure by a token that is awaited and in the root's phase begins with a look, which changes no
/// members.
pub fn passes_begin_with_a_look()
    ensures { PassesBeginWithALook }
{}

/// The second step of an arrival or a departure counts the member, if its tier is in the root's phase. Then the call is
/// done in that phase, climbs, or must advance the root.
pub fn passes_count()
    ensures { PassesCount }
{}

/// A step of a climb changes no members. Then the call is done in the phase in which it was counted, climbs on, or must
/// advance the root. If the root has ended, the call is done in that phase too.
pub fn climbs_keep_members()
    ensures { ClimbsKeepMembers }
{}

/// The advance changes no members of its token. The token owes nothing afterwards, and its call is done in the phase in
/// which it was counted, whether the tree has ended since or not.
pub fn advances_keep_members()
    ensures { AdvancesKeepMembers }
{}

/// A join begins with a look that leaves the token without members.
pub fn joins_begin_with_a_look()
    ensures { JoinsBeginWithALook }
{}

/// The token of a join has no members until one step admits all of them, unarrived in the root's phase.
pub fn joins_place_at_once()
    ensures { JoinsPlaceAtOnce }
{}

/// A tier with an unarrived party and room admits the members of a join at the first step after the look.
pub fn open_tiers_admit()
    ensures { OpenTiersAdmit }
{}

/// The steps that give claimed tiers their parties after a join, or release them after a refusal, change no members.
pub fn settling_keeps_members()
    ensures { SettlingKeepsMembers }
{}

/// A token brings a tier into its phase only if the tier lags and is the token's tier, at which a member is to arrive,
/// or the one that it climbs to.
pub fn refreshes_are_next()
    ensures { RefreshesAreNext }
{}
