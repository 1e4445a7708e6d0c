//! What a barrier promises over whole runs.
ghost use Rattle.cyclic_gate.specs.Laws.{TripsGiveEachOnce, EndsNameTheAnswered, GenerationsFollow, EndsMoveOrKeep, FailuresAreAsPlanned};
ghost use Rattle.cyclic_gate.specs.Wakers.{LateWakersAreAnswered};
ghost use Rattle.cyclic_gate.specs.Forgetting.{BarriersAreTheirArrivals, ForgettingChangesNoAnswer};

/// In every run, each tripped generation gives each index below the number of parties exactly once, and gives no caller
/// two (Java SE 21, `CyclicBarrier.await`: "the arrival index of the current thread").
#[tactic(auto, using(crate::proofs::Trips::trips_give_each_once))]
pub fn trips_give_each_once()
    ensures { TripsGiveEachOnce }
{}

/// In every run, the list that ends a generation names exactly those whose arrival in it returned `Waits` (Java SE 21,
/// `CyclicBarrier`: its "all-or-none breakage model").
#[tactic(auto, using(crate::proofs::Answered::ends_name_the_answered))]
pub fn ends_name_the_answered()
    ensures { EndsNameTheAnswered }
{}

/// The first end that is noted after a caller's arrival is the end of the generation in which it arrived, however late it
/// is read. If that generation tripped, the caller has the index that its arrival returned. Else its wait failed.
#[tactic(auto, using(crate::proofs::Waking::late_wakers_are_answered))]
pub fn late_wakers_are_answered()
    ensures { LateWakersAreAnswered }
{}

/// Whatever calls there were, the state of the barrier follows from the calls of the current generation alone: the
/// arrivals of those who wait, or a break.
pub fn barriers_are_their_arrivals()
    ensures { BarriersAreTheirArrivals }
{}

/// The ledger keeps what its callers need, and no more. In every run of calls and readings, a caller that waits finds in
/// it the first end that the whole history has after the caller's arrival; and there are never more ends kept and callers
/// waiting than callers that haven't read their end.
pub fn forgetting_changes_no_answer()
    ensures { ForgettingChangesNoAnswer }
{}

/// After each generation comes the next number, and 0 only after 18446744073709551615.
#[tactic(auto, using(crate::proofs::Trips::generations_follow))]
pub fn generations_follow()
    ensures { GenerationsFollow }
{}

/// A trip and a reset take the next generation, and a break stays in its generation: in general, and worked out for a
/// barrier of two parties in generation 7, at which one caller waits (Java SE 21, `CyclicBarrier.reset`; a broken
/// barrier stays broken until then).
#[tactic(auto, using(crate::proofs::Trips::ends_move_or_keep))]
pub fn ends_move_or_keep()
    ensures { EndsMoveOrKeep }
{}

/// An action that fails in generation `at` by its plan fails in that one generation, and one without `at` never fails.
#[tactic(auto, using(crate::proofs::Trips::failures_are_as_planned))]
pub fn failures_are_as_planned()
    ensures { FailuresAreAsPlanned }
{}
