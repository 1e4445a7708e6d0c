//! Laws of a single phaser in its user's terms. Each law is the contract of a function without parameters that does
//! nothing.
ghost use Rattle.phaser_one.specs.Plans.{PlansAreSpelledOut};
ghost use Rattle.phaser_one.specs.Laws.{
  PhaseMovesByOne,
  EndedStays,
  NotAllArrived,
  WordsAreSeen,
  AwaitsAreReported,
  RegistrationsAreReported,
  ArrivalsAreReported,
  AlikeWordsAreOne,
  OnlyArrivalsAskThePlan,
  RefusalsLeaveAll,
};

/// Before the end, each advance moves the phase by one, and comes only after everyone registered has arrived. The phase
/// moves at no other time.
pub fn phase_moves_by_one()
    ensures { PhaseMovesByOne }
{}

/// After the end, no call changes the phase or the counts.
pub fn ended_stays()
    ensures { EndedStays }
{}

/// While two or more parties are unarrived, no call advances the phaser.
pub fn not_all_arrived()
    ensures { NotAllArrived }
{}

/// Every word with no more unarrived parties than parties is the word of a flat phaser.
pub fn words_are_seen()
    ensures { WordsAreSeen }
{}

/// What `poll_await` answers for a negative number, after the end, for another phase and for the current one.
pub fn awaits_are_reported()
    ensures { AwaitsAreReported }
{}

/// When a registration fails, and what it returns otherwise.
pub fn registrations_are_reported()
    ensures { RegistrationsAreReported }
{}

/// When an arrival or a departure fails, and what it returns otherwise.
pub fn arrivals_are_reported()
    ensures { ArrivalsAreReported }
{}

/// Two words of alike flat phasers are equal.
pub fn alike_words_are_one()
    ensures { AlikeWordsAreOne }
{}

/// Only arrivals and departures ask the plan that says when the phaser ends. Any other call does the same under every
/// plan.
pub fn only_arrivals_ask_the_plan()
    ensures { OnlyArrivalsAskThePlan }
{}

/// A call that fails, or answers that a phase has not passed, leaves the phaser as it is.
pub fn refusals_leave_all()
    ensures { RefusalsLeaveAll }
{}

/// What a plan says, as an equivalence with its fields: when a phaser ends by the count of its parties or in one phase, and
/// when a tree ends, empty or in one phase. Cases beside each bound are worked out.
pub fn plans_are_spelled_out()
    ensures { PlansAreSpelledOut }
{}
