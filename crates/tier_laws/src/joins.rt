//! Laws of joins that nothing refuses. Each law is the contract of a function without parameters that does nothing.

ghost use Rattle.tier_laws.specs.Fresh.{JoinsAreDoneAlone, NewTreesAreFresh, NewTokensKeepItFresh, AwaitedTiersWait};

/// If nobody has arrived, no token is in a call and there is room, a join whose token alone takes steps is done within 14
/// steps, whatever tiers it opens. Afterwards nobody has arrived and no token is in a call either.
pub fn joins_are_done_alone()
    ensures { JoinsAreDoneAlone }
{}

/// On a new tree nobody has arrived and no token is in a call.
pub fn new_trees_are_fresh()
    ensures { NewTreesAreFresh }
{}

/// Adding a token to such a tree leaves it one on which nobody has arrived and no token is in a call.
pub fn new_tokens_keep_it_fresh()
    ensures { NewTokensKeepItFresh }
{}

/// If a token has an awaited member and its tier is in the root's phase, that tier refuses a join only if it has no room.
pub fn awaited_tiers_wait()
    ensures { AwaitedTiersWait }
{}
