//! Laws of when the root of a tree advances, what keeps it from advancing, and what steps leave unchanged. Each law is
//! the contract of a function without parameters that does nothing.

ghost use Rattle.tier_laws.specs.Frame.{TurnsChangeTheirOwn, OthersStay};
ghost use Rattle.tier_laws.specs.Tokens.{TokensEnterUnseen};
ghost use Rattle.tier_laws.specs.Plan.{AdvancesArePlanned, TheLastOneAdvances, QuietTreesWait, QuietTreesAwaitSomebody};
ghost use Rattle.tier_laws.specs.Rounds.{AdvancesBeginThePhase, AwaitedTokensStay};
ghost use Rattle.tier_laws.specs.Waits.{TheRootWaits, AdvancesAreAwaited};
ghost use Rattle.tier_laws.specs.Hold.{AwaitedTokensHold, NobodyMustAdvance, AdvancesAreAlone, MembersAreTheTokens, PartiesAreFew};

/// A turn of a token changes only its view, how far its call has come, and the word of one tier.
pub fn turns_change_their_own()
    ensures { TurnsChangeTheirOwn }
{}

/// A step of a token changes no other token's view or call.
pub fn others_stay()
    ensures { OthersStay }
{}

/// A new token has no members. Adding it changes no word, no other token's view or call, not who is awaited, and not
/// the flat phaser that the tree represents.
pub fn tokens_enter_unseen()
    ensures { TokensEnterUnseen }
{}

/// The root advances only after everyone has arrived. The advance ends the tree exactly if the plan says so, by the phase
/// that passes and by whether no member is left.
pub fn advances_are_planned()
    ensures { AdvancesArePlanned }
{}

/// When a token takes the advance after the answer `MustAdvance`, the advance is due, unless the tree has ended since.
pub fn the_last_one_advances()
    ensures { TheLastOneAdvances }
{}

/// While a token must advance the root, no step of another token changes the root's phase or parties, not even a forced
/// end.
pub fn the_root_waits()
    ensures { TheRootWaits }
{}

/// From the answer `MustAdvance` until the token takes the advance, the root keeps the phase and the parties in that
/// answer, whatever steps others take.
pub fn advances_are_awaited()
    ensures { AdvancesAreAwaited }
{}

/// If no token has an errand, no advance is due.
pub fn quiet_trees_wait()
    ensures { QuietTreesWait }
{}

/// If the tree has not ended, no token has an errand and there is a member, some member has not arrived.
pub fn quiet_trees_await_somebody()
    ensures { QuietTreesAwaitSomebody }
{}

/// While a token has a member that has not arrived in the root's phase, no token must advance the root.
pub fn awaited_tokens_hold()
    ensures { AwaitedTokensHold }
{}

/// While a token has a member that has not arrived in the root's phase, no step of another token is answered
/// `MustAdvance`.
pub fn nobody_must_advance()
    ensures { NobodyMustAdvance }
{}

/// While a token must advance the root, all members of all other tokens have arrived, and no other token climbs,
/// advances, or settles a path after its join.
pub fn advances_are_alone()
    ensures { AdvancesAreAlone }
{}

/// The tree has as many members as its tokens together.
pub fn members_are_the_tokens()
    ensures { MembersAreTheTokens }
{}

/// A tier has at most one party for each member, each token that climbs, and each tier.
pub fn parties_are_few()
    ensures { PartiesAreFew }
{}

/// An advance begins the next phase, and ends the tree exactly if the plan says so. Each token that has members is then
/// awaited.
pub fn advances_begin_the_phase()
    ensures { AdvancesBeginThePhase }
{}

/// Until the tree ends, steps of other tokens leave an awaited token awaited, and the root in its phase.
pub fn awaited_tokens_stay()
    ensures { AwaitedTokensStay }
{}
