//! Laws of what bodies leave. Each function does nothing: its contract is the law.
ghost use Rattle.task_bodies.specs.Worked.{BodiesAreWorkedOut, KernelsAreWorkedOut};

/// What tasks leave whose bodies wrote this: puts to cells that don't exist, tasks that are too deep or too many, a number of the
/// body's own, spawned tasks.
pub fn bodies_are_worked_out()
    ensures { BodiesAreWorkedOut }
{}

/// What kernels give their closures, where they put what these return, and when they fail with the numbers 16 and 17.
pub fn kernels_are_worked_out()
    ensures { KernelsAreWorkedOut }
{}
