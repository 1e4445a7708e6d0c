//! What the laws are about.
ghost use Rattle.std.specs.Prelude.{◌≤◌};
ghost use Rattle.step_core.specs.Program.{program_of};
ghost use Rattle.job_laws.specs.Laws.{IsDriven};
ghost use Rattle.job_laws.specs.WorkedSchedules.{SchedulesAreWorkedOut};

use task_code::job::Job;
use tier_shape::Shape;

/// Whatever job, shape and limit `drive_job` takes is one that the laws speak of: they hold in each of its schedules.
pub fn jobs_are_driven(job: &Job, shape: &Shape, limit: u32)
    requires some { 1 ≤ limit }
    requires few { limit ≤ 2147483648 }
    ensures { IsDriven (program_of job.now) shape.now limit }
{
    // For the prover: these calls give the rules that the types of a job and a shape keep.
    let _bodies = job.bodies();
    let _tiers = shape.count();
}

/// Three schedules, by one worker on one tier, by two workers on three, and by three on an uneven tree of four, with the
/// answer of each step written down: such schedules exist, and none of these laws is about nothing. They show which leaf is
/// whose: a start task's, the preferred one of a spawned task, at which it is held, and that of its spawner.
pub fn schedules_are_worked_out()
    ensures { SchedulesAreWorkedOut }
{}
