//! What each token of a tree does in a superstep. Each law is the contract of a function without parameters
//! that does nothing.

ghost use Rattle.job_laws.specs.Cast.{NobodyLeads, LeadersAreAlone, MembersAreInRoles, StepsKeepTheCast, BeginningsKeepTheCast, AdvancesTurnTheCast, NewTokensAreOut, HomesAdmit};

/// If a member is awaited no token has to advance the root.
pub fn nobody_leads()
    ensures { NobodyLeads }
{}

/// If a token has to advance the root no other climbs, or has to advance it.
pub fn leaders_are_alone()
    ensures { LeadersAreAlone }
{}

/// The tree has as many members as the roles of its tokens say.
pub fn members_are_in_roles()
    ensures { MembersAreInRoles }
{}

/// The next step of a poll, of an arrival or of a departure changes the role of its token alone, and the
/// root stays in its phase.
pub fn steps_keep_the_cast()
    ensures { StepsKeepTheCast }
{}

/// A call that begins in a state that the role allows keeps the cast too.
pub fn beginnings_keep_the_cast()
    ensures { BeginningsKeepTheCast }
{}

/// The advance turns each role to that at the beginning of the next superstep.
pub fn advances_turn_the_cast()
    ensures { AdvancesTurnTheCast }
{}

/// A new token has no member.
pub fn new_tokens_are_out()
    ensures { NewTokensAreOut }
{}

/// A join at the tier of an awaited token that has polled is done at its second step, if there is room: it is
/// never held.
pub fn homes_admit()
    ensures { HomesAdmit }
{}
