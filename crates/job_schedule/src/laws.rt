//! What holds of every world that schedules of a job reach. Each law is the contract of a function without parameters that
//! does nothing.

ghost use Rattle.job_schedule.specs.Laws.{FinishedTellsTheJob, FinishedIsTheEnd, RoundsAreClosedOnce, RefusedStepsChangeNothing, ParticipantsAreTheLiveTasks};

/// Whatever the schedule, the answer that finishes a job carries the report of the job's meaning with its limit.
pub fn finished_tells_the_job()
    ensures { FinishedTellsTheJob }
{}

/// After that answer each step is answered `NotNow`, but one: after a fault the first step in the tree of the worker that
/// closed the round answers the end of the tree.
pub fn finished_is_the_end()
    ensures { FinishedIsTheEnd }
{}

/// A round is closed once, by the worker that advanced the root last. Then the next tasks are ready, or the job is
/// finished. A round is one superstep of the job. Only a job that is over as it begins may be closed by any worker.
pub fn rounds_are_closed_once()
    ensures { RoundsAreClosedOnce }
{}

/// A step that answers `NotNow` changes nothing.
pub fn refused_steps_change_nothing()
    ensures { RefusedStepsChangeNothing }
{}

/// While a job runs, its participants are those of its live tasks, in path order, and note what was delivered.
pub fn participants_are_the_live_tasks()
    ensures { ParticipantsAreTheLiveTasks }
{}
