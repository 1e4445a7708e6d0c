//! A call on a number.
ghost use Rattle.std.specs.Prelude.{◌≡◌, ◌≤◌};
ghost use Rattle.phaser_one.specs.Seen.{Follows};
ghost use Rattle.bsp_phaser.specs.Numbers.{IsWordOf};
ghost use Rattle.bsp_phaser.specs.Steps.{IsStep, status_of as status_reported, answer_of as answer_reported};

use crate::number::{NO_WORD, word_of};
use advance_rule::{CountPlan, StoredCount};
use phaser_one::{Call, OneFault, PhaserOne, Reply};
use phaser_word::Word;

// Returns the status of a reply.
fn status_of(reply: Reply) -> i32
    ensures { result ≡ status_reported reply }
{
    match reply {
        Reply::Number(_) => 0,
        Reply::Waiting => 2,
        Reply::Refused(OneFault::TooMany) => 3,
        Reply::Refused(OneFault::Full) => 4,
        Reply::Refused(OneFault::NobodyUnarrived) => 5,
        Reply::Refused(OneFault::Negative) => 6,
    }
}

// Returns the phase of a reply, or 0 if it has none.
fn answer_of(reply: Reply) -> i32
    ensures { result ≡ answer_reported reply }
{
    match reply {
        Reply::Number(phase) => phase,
        Reply::Waiting | Reply::Refused(_) => 0,
    }
}

// Makes a call, and returns the state after it and its reply.
fn called(word: Word, plan: CountPlan, call: Call) -> (Word, Reply)
    requires counted { word.unarrived ≤ word.parties }
    ensures flat { Follows plan call word result.0 result.1 }
    ensures counted { result.0.unarrived ≤ result.0.parties }
{
    let rule = StoredCount::new(|phase: u32, count: u32| plan.ends(phase, count), plan);
    let mut phaser = PhaserOne::of_word(word, rule);
    let reply = phaser.call(call);
    (phaser.word(), reply)
}

// Packs a state of a single phaser.
fn number_of(word: Word) -> u64
    requires counted { word.unarrived ≤ word.parties }
    ensures { IsWordOf word result }
{
    word.pack()
}

// Makes a call on a number: stores the next number and the answer, and returns the status.
pub(crate) fn step(
    number: u64,
    plan: CountPlan,
    call: Call,
    next: &mut u64,
    answer: &mut i32,
) -> i32
    ensures { IsStep plan call number next.new result answer.new }
{
    *next = number;
    *answer = 0;
    let Some(word) = word_of(number) else {
        return NO_WORD;
    };
    let (after, reply) = called(word, plan, call);
    *next = number_of(after);
    *answer = answer_of(reply);
    status_of(reply)
}
