//! Laws of walks, of ends and of reasons. Each function does nothing: its contract is the law.
ghost use Rattle.fault_reasons.specs.Laws.{EndsAreReached, WalksAreSegments};
ghost use Rattle.fault_reasons.specs.Worked.{ReasonsAreWorkedOut};

/// A walk of a body ends as the segment does: by the same fault, or with the same puts and as many spawns.
pub fn walks_are_segments()
    ensures { WalksAreSegments }
{}

/// The superstep that a job's end names is one that the job gets to, so that its fault or its limit has a reason.
pub fn ends_are_reached()
    ensures { EndsAreReached }
{}

/// Reasons for each fault, and for the limit, are as worked out by hand.
pub fn reasons_are_worked_out()
    ensures { ReasonsAreWorkedOut }
{}
