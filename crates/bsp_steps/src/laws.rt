//! Laws on what a close means for each task.
ghost use Rattle.bsp_steps.specs.Laws.{TasksLeaveWhatWasGiven, EachTaskHasItsPlace};
ghost use Rattle.bsp_steps.specs.Worked.{CallsAreWorkedOut};
ghost use Rattle.bsp_steps.specs.WorkedBytes.{BytesAreWorkedOut};

/// What was given for a task says all that it leaves in the superstep.
pub fn tasks_leave_what_was_given()
    ensures { TasksLeaveWhatWasGiven }
{}

/// The deed at a task's place is that of the task.
pub fn each_task_has_its_place()
    ensures { EachTaskHasItsPlace }
{}

/// A run through all calls, with each number, status and answer written down.
pub fn calls_are_worked_out()
    ensures { CallsAreWorkedOut }
{}

/// Which bytes are which deeds, with each byte written down.
pub fn bytes_are_worked_out()
    ensures { BytesAreWorkedOut }
{}
