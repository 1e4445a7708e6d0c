//! Laws of the steps, over any shape, any words and any views. One view is the stepping token's. Each law is the
//! contract of a function without parameters that does nothing.

ghost use Rattle.tier_steps.specs.Laws.{KindsKeepTally, KindsAreFlat};
ghost use Rattle.tier_steps.specs.SpelledOut.{TallyIsSpelledOut};
ghost use Rattle.tier_steps.specs.Known.{TallyIsKnown, StepsAreRunnable, SeatsKeepTally, RegroupingKeepsTally};
ghost use Rattle.tier_steps.specs.Path.{AncestorsAreOnThePath, ClaimsAreListed, PathsFall};
ghost use Rattle.tier_steps.specs.Seats.{SeatsAreFlat, JoinedSeatsTally, JoinedSeatsLookTheSame, NewSeatsTally, NewSeatsLookTheSame};
ghost use Rattle.tier_steps.specs.Start.{StartTallies, EmptyTreesHaveNoMembers, NewTokensTally, NewTokensAreUnseen};
ghost use Rattle.tier_steps.specs.Marks.{MarksAreSpelledOut};
ghost use Rattle.tier_steps.specs.Due.{AdvancesAreDue, QuietIsNotDue, QuietTreesAwaitSomebody, MembersAreSizes, UnarrivedHoldTheRoot, PhasesStay};

/// Each kind of step keeps the tally. Whether a token may take it depends only on the word that it changes and on the
/// token's view.
pub fn kinds_keep_tally()
    ensures { KindsKeepTally }
{}

/// The mark `led` of a view is set from an advance that its token takes to its next look at the root. Its `note` is the
/// tier and the word of its last refusal.
pub fn marks_are_spelled_out()
    ensures { MarksAreSpelledOut }
{}

/// Each kind of step is a step of the flat phaser that the tree represents, the step of its label. An advance is taken
/// only when it is due. Afterwards the tree represents the stepped flat phaser.
pub fn kinds_are_flat()
    ensures { KindsAreFlat }
{}

/// What the tally means: who the parties of a tier are, who claims it, and who advances the root.
pub fn tally_is_spelled_out()
    ensures { TallyIsSpelledOut }
{}

/// What the tally says of one view and the word of one tier.
pub fn tally_is_known()
    ensures { TallyIsKnown }
{}

/// Each step that a token may take meets the preconditions of the code.
pub fn steps_are_runnable()
    ensures { StepsAreRunnable }
{}

/// If seats hold lists of views, a step by a seat with one view keeps the tally.
pub fn seats_keep_tally()
    ensures { SeatsKeepTally }
{}

/// A step by a seat with one view is the flat step of its label, for the token at that view's place among all views.
pub fn seats_are_flat()
    ensures { SeatsAreFlat }
{}

/// The tally holds after one seat takes the views of another.
pub fn joined_seats_tally()
    ensures { JoinedSeatsTally }
{}

/// The tally holds after a seat for a token without members is added, at any place.
pub fn new_seats_tally()
    ensures { NewSeatsTally }
{}

/// Joining two seats changes only the owners of members in the flat phaser that the tree represents.
pub fn joined_seats_look_the_same()
    ensures { JoinedSeatsLookTheSame }
{}

/// A new seat changes only the owners of members in the flat phaser that the tree represents.
pub fn new_seats_look_the_same()
    ensures { NewSeatsLookTheSame }
{}

/// The tally holds after views are regrouped, if no sum over them changes.
pub fn regrouping_keeps_tally()
    ensures { RegroupingKeepsTally }
{}

/// The tally holds for a tree of empty tiers with one token, and the tree represents the flat phaser without members.
pub fn start_tallies()
    ensures { StartTallies }
{}

/// A tree of empty tiers without tokens represents the flat phaser without members.
pub fn empty_trees_have_no_members()
    ensures { EmptyTreesHaveNoMembers }
{}

/// The tally holds after a token without members is added.
pub fn new_tokens_tally()
    ensures { NewTokensTally }
{}

/// A token without members changes nothing in the flat phaser that the tree represents.
pub fn new_tokens_are_unseen()
    ensures { NewTokensAreUnseen }
{}

/// If a token must advance the root, everyone has arrived. The root then has no parties exactly if there are no
/// members.
pub fn advances_are_due()
    ensures { AdvancesAreDue }
{}

/// If no token has an errand, no advance is due.
pub fn quiet_is_not_due()
    ensures { QuietIsNotDue }
{}

/// If the tree has not ended, no token has an errand and there is a member, some member has not arrived.
pub fn quiet_trees_await_somebody()
    ensures { QuietTreesAwaitSomebody }
{}

/// The flat phaser that a tree represents has as many members as the tokens together.
pub fn members_are_sizes()
    ensures { MembersAreSizes }
{}

/// While a token counts among the unarrived parties of a tier, the root has unarrived parties, so it can't advance.
pub fn unarrived_hold_the_root()
    ensures { UnarrivedHoldTheRoot }
{}

/// A tier in the root's phase stays there until the root advances.
pub fn phases_stay()
    ensures { PhasesStay }
{}

/// The path from a tier to the root lists its ancestors one after another.
pub fn ancestors_are_on_the_path()
    ensures { AncestorsAreOnThePath }
{}

/// An opening claims a tier as often as its list of claimed tiers names it.
pub fn claims_are_listed()
    ensures { ClaimsAreListed }
{}

/// The numbers on a path to the root fall by at least one at each tier.
pub fn paths_fall()
    ensures { PathsFall }
{}
