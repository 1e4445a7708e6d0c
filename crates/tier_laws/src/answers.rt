//! Laws of the answers of calls, and of the number of their steps. Each law is the contract of a function without
//! parameters that does nothing.

ghost use Rattle.tier_laws.specs.Moments.{MomentsAreAnswers, MomentsLookLikeTheTree};
ghost use Rattle.tier_laws.specs.Reports.{AnswersTell};
ghost use Rattle.tier_laws.specs.Driven.{RunsAnswerAsTheFlatPhaser, NewTreesAdvanceWhenAllArrived};
ghost use Rattle.tier_laws.specs.Once.{CallsCountOnce, JoinsPlaceWhereAsked, RefusalsAreNoted};
ghost use Rattle.tier_laws.specs.Count.{CallsAreShort, SixteenStepsAreEnough};
ghost use Rattle.tier_laws.specs.Worked.{EachAnswerIsGiven};

/// The answer of a run to each step is the answer of the turn taken at that moment.
pub fn moments_are_answers()
    ensures { MomentsAreAnswers }
{}

/// Before and after each turn of a run, the flat phaser that the labels have reached looks like the tree.
pub fn moments_look_like_the_tree()
    ensures { MomentsLookLikeTheTree }
{}

/// What each answer of a call says of the flat phaser that takes the labels of all steps and looks like the tree before
/// the call. It holds whatever steps other tokens take between those of the call, and whatever tokens are added.
pub fn answers_tell()
    ensures { AnswersTell }
{}

/// The answers of a run are those of one flat phaser. The labels of its steps are a run of every flat phaser that looks
/// like the tree before it. Each answer of each call says of the flat phasers that these labels reach what the table of
/// answers says.
pub fn runs_answer_as_the_flat_phaser()
    ensures { RunsAnswerAsTheFlatPhaser }
{}

/// A run on a new tree is a run of the flat phaser that starts without members. In it, an advance is due only after
/// everyone who is registered has arrived.
pub fn new_trees_advance_when_all_arrived()
    ensures { NewTreesAdvanceWhenAllArrived }
{}

/// A call counts once if it answers `Done` or `MustAdvance`, and not at all if it gives another answer. So an arrival, a
/// departure or a join that answers `Ended` has changed no members.
pub fn calls_count_once()
    ensures { CallsCountOnce }
{}

/// After a join answers `Done`, its members are at the tier that was asked for, unarrived in the phase of the answer.
/// After a join is refused or answers `Ended`, its token has no members.
pub fn joins_place_where_asked()
    ensures { JoinsPlaceWhereAsked }
{}

/// A join that answers `Held` or `Full` has noted the tier and the word that refused it.
pub fn refusals_are_noted()
    ensures { RefusalsAreNoted }
{}

/// A call has its answer after at most 16 steps, whatever steps other tokens take between them, and whatever tokens are
/// added. A join has at most 14, an arrival or a departure 15, a poll 2, and a forced end 1.
pub fn calls_are_short()
    ensures { CallsAreShort }
{}

/// However far a call has come, 16 steps of its token alone are enough for its answer.
pub fn sixteen_steps_are_enough()
    ensures { SixteenStepsAreEnough }
{}

/// On a new tree there is a run in which each call is made and each answer is given, so the premises of these laws can be
/// met.
pub fn each_answer_is_given()
    ensures { EachAnswerIsGiven }
{}
