//! Laws of the states that steps on the table of words reach. Each law is the contract of a function without parameters
//! that does nothing.

ghost use Rattle.tier_rule.specs.Laws.{AdvancesWaitForAll, StepsAreFlat, EndsAreForcedOrPlanned, EndsHaveAStep, NewTreesAreEmpty, RunsAreSteps, RootsHaveRoom};
ghost use Rattle.tier_rule.specs.Reach.{ReachedStatesTally};
ghost use Rattle.tier_rule.specs.Run.{EachPhaseIsWaitedFor, EachTokenIsWaitedFor, UnarrivedHoldThePhase, AccessesWaitForOthers, EachEndHasACause, EndsLast};
ghost use Rattle.tier_rule.specs.FlatRun.{RunsAreFlat, AdvancesAreDueInFlatRuns, FlatRunsWaitForAll};

/// The words and the views tally at every moment.
pub fn reached_states_tally()
    ensures { ReachedStatesTally }
{}

/// The tree doesn't advance before all have arrived. On every tree and after any steps of any number of threads, a step
/// by which the root leaves its phase finds that every member of every token has arrived in that phase.
pub fn advances_wait_for_all()
    ensures { AdvancesWaitForAll }
{}

/// The words represent one flat phaser. After any steps of any number of threads, each step that a seat may take is the
/// flat phaser's step of its label, or no step of it, and changes the flat phaser that the words and views represent
/// accordingly.
pub fn steps_are_flat()
    ensures { StepsAreFlat }
{}

/// A step ends the tree exactly if it is a force, or an advance that the plan says is the last, by the phase and by
/// whether there are no members.
#[tactic(auto, using(crate::proofs::Standing::ends_are_forced_or_planned))]
pub fn ends_are_forced_or_planned()
    ensures { EndsAreForcedOrPlanned }
{}

/// If a tree has ended, a force or an advance ended it, at a moment when it had not ended.
#[tactic(auto, using(crate::proofs::Standing::ends_have_a_step))]
pub fn ends_have_a_step()
    ensures { EndsHaveAStep }
{}

/// A new tree is empty. As long as its first token has taken no step and no other token was split off it, each tier is in
/// the first phase without parties, and there is no other token.
pub fn new_trees_are_empty()
    ensures { NewTreesAreEmpty }
{}

/// One exchange of a word may be several steps of tokens that share a seat, one after another: it leads from a state that
/// steps reach to another such state.
#[tactic(auto, using(crate::proofs::Groups::runs_are_steps))]
pub fn runs_are_steps()
    ensures { RunsAreSteps }
{}

/// Each phase was waited for. After any steps of any number of threads, the root is in the phase in which the tree was
/// opened if no step was an advance. Else it is in the phase after the one that the last advance left, and that advance
/// found that every member of every token had arrived.
#[tactic(auto, using(crate::proofs::Waited::each_phase_is_waited_for))]
pub fn each_phase_is_waited_for()
    ensures { EachPhaseIsWaitedFor }
{}

/// No token is left behind. If the root is in one phase, and some token with members is still in another, then the last
/// advance left that other phase, and found that every member of every token had arrived.
pub fn each_token_is_waited_for()
    ensures { EachTokenIsWaitedFor }
{}

/// Who has not arrived holds the phase. As long as some member of a token has not arrived, the root is in that token's
/// phase.
pub fn unarrived_hold_the_phase()
    ensures { UnarrivedHoldThePhase }
{}

/// No access to the table advances the tree too early, whatever it is. If it brings the root into the next phase, every
/// member of every token of the other seats had arrived. Here nothing is said of steps or runs.
pub fn accesses_wait_for_others()
    ensures { AccessesWaitForOthers }
{}

/// The root never has more than 65535 members, also after the tree has ended, when its word isn't compared with the tokens
/// any more.
#[tactic(auto, using(crate::proofs::Room::roots_have_room))]
pub fn roots_have_room()
    ensures { RootsHaveRoom }
{}

/// Every run of the tree is a run of one flat phaser. After any steps of any number of threads there is a flat run, from
/// the phase in which the tree was opened, to the flat phaser that the words and the seats represent. It takes the run's
/// joins, arrivals, departures, advances and forces, one after another, each when the flat phaser may take it. Between them
/// it may go on as a phaser that nobody can distinguish, and members may change their owners, as they do when seats are
/// joined or parted.
pub fn runs_are_flat()
    ensures { RunsAreFlat }
{}

/// Whenever the root advances, the flat phaser is due to. After any steps of any number of threads, the last advance found
/// a flat phaser that a flat run leads to, that has not ended, whose advance is due and of which everyone has arrived.
pub fn advances_are_due_in_flat_runs()
    ensures { AdvancesAreDueInFlatRuns }
{}

/// The last advance of a flat run was due, and everyone had arrived. This is said of flat phasers alone.
pub fn flat_runs_wait_for_all()
    ensures { FlatRunsWaitForAll }
{}

/// Each end has a cause. If the root has ended, then in whatever way this state was reached, a force or an advance that the
/// plan says is the last found the root not ended, and left it in the phase in which it is.
pub fn each_end_has_a_cause()
    ensures { EachEndHasACause }
{}

/// An end lasts. After a step that ends the tree the root has ended, and it stays in the phase in which that step left it.
pub fn ends_last()
    ensures { EndsLast }
{}
