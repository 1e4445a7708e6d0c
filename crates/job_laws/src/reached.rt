//! What holds of every world that schedules of a job reach. Each law is the contract of a function without parameters
//! that does nothing.

ghost use Rattle.job_laws.specs.Laws.{WorldsAreKept, ClosingMissesNothing, ClosesFollowAdvances, NextStepsAreAnswered, AdvancesAreCounted, SpawnsHaveRoomAtHome};

/// In every schedule each token of the tree is a live task's, a spawned one's or free, and does what the stage of its task
/// says. The other laws here follow from this one.
pub fn worlds_are_kept()
    ensures { WorldsAreKept }
{}

/// Once the root has advanced, every live task was handed in and all its calls have their answers: the worker that
/// advanced it may close the round at once, and no delivery is missing.
pub fn closing_misses_nothing()
    ensures { ClosingMissesNothing }
{}

/// An advance is answered, and then the close of the same worker is: neither answers `NotNow`.
pub fn closes_follow_advances()
    ensures { ClosesFollowAdvances }
{}

/// A worker's next step is answered whatever the others have done: the answer is `NotNow` only if the step isn't its
/// worker's next.
pub fn next_steps_are_answered()
    ensures { NextStepsAreAnswered }
{}

/// The root advances in the phase of the superstep, which is its number, and if none of its tasks faults, the members
/// of the tree are then the parties of the superstep's record except those that left.
pub fn advances_are_counted()
    ensures { AdvancesAreCounted }
{}

/// A spawned task that joins at the tier of its spawner is neither held nor finds it full: only at another leaf, its
/// preferred one, it may be, and then it goes there.
pub fn spawns_have_room_at_home()
    ensures { SpawnsHaveRoomAtHome }
{}
