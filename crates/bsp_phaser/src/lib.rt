//! A phaser in one 64-bit number, for C: each call takes the number and returns the next one.
//!
//! Keep the number in an atomic word, and exchange it for the next one by a compare-and-swap. The exchanges of any number
//! of threads are then a run of one phaser (law `exchanges_are_one_run`).
//!
//! Each call returns a status:
//!
//! | Status | Meaning |
//! |---|---|
//! | 0 | done |
//! | 1 | `word` is not the number of a phaser, or `phase` is above 2147483647 |
//! | 2 | the phase has not passed |
//! | 3 | fewer than 0 parties, or more than 65535, for a new phaser |
//! | 4 | no room for the new parties |
//! | 5 | no party is unarrived |
//! | 6 | fewer than 0 parties to add |
//!
//! After a status other than 0 the next number is the old one, and `answer` is 0.
//!
//! # Where things are
//!
//! * `lib.rt`: the exported calls; `step.rt`: a call on a number; `reading.rt`: what a number says; `number.rt`:
//!   which numbers are words.
#![tactic(auto)]

ghost use Rattle.std.specs.Prelude.{◌≡◌, ◌≢◌, ◌≤◌, pos};
ghost use Rattle.advance_rule.specs.declared.CountPlan.{CountPlan};
ghost use Rattle.flat_phaser.specs.Flat.{shown};
ghost use Rattle.phaser_one.specs.declared.call.Call.TheVariants as spec;
ghost use Rattle.bsp_phaser.specs.Steps.{IsStep, IsNew, StatusesAreNumbered, status_of_new, plan_of};
ghost use Rattle.bsp_phaser.specs.Readings.{IsReading, parties_in, arrived_in, unarrived_in, ended_in};
ghost use Rattle.bsp_phaser.specs.Runs.{ExchangesAreOneRun, NoPhasePassesEarly};
ghost use Rattle.bsp_phaser.specs.Worked.{RunIsWorkedOut};

mod number;
mod reading;
mod step;

use crate::number::new_number;
use crate::reading::{Reading, read};
use crate::step::step;
use advance_rule::CountPlan;
use phaser_one::Call;

// The plan for calls that never advance the phaser, and so ask no plan.
const NO_PLAN: CountPlan = CountPlan { least: 0, at: None };

// Returns the plan of an arrival or a departure.
fn plan(least: u32, at: u32) -> CountPlan
    ensures { result ≡ plan_of least at }
{
    CountPlan {
        least,
        at: Some(at),
    }
}

/// Creates a phaser with `parties` parties, all unarrived, in `phase`, and stores its number in `word`.
///
/// Returns 1 if `phase` is above 2147483647, else 3 if `parties` is below 0 or above 65535, else 0. Unless it returns 0,
/// `word` keeps its value.
#[unsafe(no_mangle)]
pub extern "C" fn bsp_phaser_new(parties: i64, phase: u32, word: &mut u64) -> i32
    ensures status { result ≡ status_of_new parties phase }
    ensures made { result ≡ pos 0 → IsNew parties phase word.new }
    ensures kept { result ≢ pos 0 → word.new ≡ word.old }
{
    match new_number(parties, phase) {
        Ok(number) => {
            *word = number;
            0
        }
        Err(status) => status,
    }
}

/// Arrives with one party (Java SE 21, `Phaser.arrive`). The last to arrive advances the phaser, which ends if fewer
/// than `least` parties are registered or the phase is `at`. The answer is the phase of the arrival.
#[unsafe(no_mangle)]
pub extern "C" fn bsp_phaser_arrive(
    word: u64,
    least: u32,
    at: u32,
    next: &mut u64,
    answer: &mut i32,
) -> i32
    ensures { IsStep (plan_of least at) spec.Arrive word next.new result answer.new }
{
    step(word, plan(least, at), Call::Arrive, next, answer)
}

/// Arrives with one party and deregisters it (Java SE 21, `Phaser.arriveAndDeregister`). `least` and `at` are as for
/// [`bsp_phaser_arrive`], for the parties that are left. The answer is the phase of the arrival.
#[unsafe(no_mangle)]
pub extern "C" fn bsp_phaser_leave(
    word: u64,
    least: u32,
    at: u32,
    next: &mut u64,
    answer: &mut i32,
) -> i32
    ensures { IsStep (plan_of least at) spec.Leave word next.new result answer.new }
{
    step(word, plan(least, at), Call::Leave, next, answer)
}

/// Registers `count` parties (Java SE 21, `Phaser.bulkRegister`). The answer is the phase to which this applies.
#[unsafe(no_mangle)]
pub extern "C" fn bsp_phaser_register(
    word: u64,
    count: i64,
    next: &mut u64,
    answer: &mut i32,
) -> i32
    ensures { (plan : CountPlan) → IsStep plan (spec.Bulk count) word next.new result answer.new }
{
    step(word, NO_PLAN, Call::Bulk(count), next, answer)
}

/// Asks whether `phase` has passed (Java SE 21, `Phaser.awaitAdvance`, but without waiting). Returns 2 if it has not. The
/// number doesn't change.
#[unsafe(no_mangle)]
pub extern "C" fn bsp_phaser_await(word: u64, phase: i32, answer: &mut i32) -> i32
    ensures { (plan : CountPlan) → IsStep plan (spec.Await phase) word word result answer.new }
{
    let mut next = word;
    step(word, NO_PLAN, Call::Await(phase), &mut next, answer)
}

/// Ends the phaser at once (Java SE 21, `Phaser.forceTermination`). The answer is the phase shown.
#[unsafe(no_mangle)]
pub extern "C" fn bsp_phaser_force(word: u64, next: &mut u64, answer: &mut i32) -> i32
    ensures { (plan : CountPlan) → IsStep plan spec.Force word next.new result answer.new }
{
    step(word, NO_PLAN, Call::Force, next, answer)
}

/// Reads the phase shown (Java SE 21, `Phaser.getPhase`). If the phaser has ended, this is its phase less 2147483648, a
/// number that is not part of Java's API.
#[unsafe(no_mangle)]
pub extern "C" fn bsp_phaser_phase(word: u64, answer: &mut i32) -> i32
    ensures { IsReading shown word result answer.new }
{
    read(word, Reading::Phase, answer)
}

/// Reads the number of registered parties (Java SE 21, `Phaser.getRegisteredParties`).
#[unsafe(no_mangle)]
pub extern "C" fn bsp_phaser_parties(word: u64, answer: &mut i32) -> i32
    ensures { IsReading parties_in word result answer.new }
{
    read(word, Reading::Parties, answer)
}

/// Reads the number of parties that have arrived in this phase (Java SE 21, `Phaser.getArrivedParties`).
#[unsafe(no_mangle)]
pub extern "C" fn bsp_phaser_arrived(word: u64, answer: &mut i32) -> i32
    ensures { IsReading arrived_in word result answer.new }
{
    read(word, Reading::Arrived, answer)
}

/// Reads the number of parties that have not arrived in this phase (Java SE 21, `Phaser.getUnarrivedParties`).
#[unsafe(no_mangle)]
pub extern "C" fn bsp_phaser_unarrived(word: u64, answer: &mut i32) -> i32
    ensures { IsReading unarrived_in word result answer.new }
{
    read(word, Reading::Unarrived, answer)
}

/// Reads 1 if the phaser has ended, else 0 (Java SE 21, `Phaser.isTerminated`).
#[unsafe(no_mangle)]
pub extern "C" fn bsp_phaser_ended(word: u64, answer: &mut i32) -> i32
    ensures { IsReading ended_in word result answer.new }
{
    read(word, Reading::Ended, answer)
}

/// If any number of threads exchange the number in a word for the next number of a call, then their calls, in the order
/// of the exchanges, are a run of one phaser.
pub fn exchanges_are_one_run()
    ensures { ExchangesAreOneRun }
{}

/// No call advances the phase before all parties then registered have arrived.
pub fn no_phase_passes_early()
    ensures { NoPhasePassesEarly }
{}

/// The status of each answer, one by one.
pub fn statuses_are_numbered()
    ensures { StatusesAreNumbered }
{}

/// One run through all calls, with each number, status and answer written down.
pub fn the_run_is_worked_out()
    ensures { RunIsWorkedOut }
{}
