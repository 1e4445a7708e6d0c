//! The single phaser.
ghost use Rattle.std.specs.Prelude.{◌≡◌, ◌≢◌, ◌+◌, ◌≤◌, ◌<◌, ◌^◌, ◌-◌, ◌⊎◌, ◌↔◌, ◌<ℤ◌, ℤ, pos, IfOk, IfErr, IsErr, OnErr};
ghost use Rattle.advance_rule.specs.Plan.{count_ends};
ghost use Rattle.advance_rule.specs.Stored.{Answers};
ghost use Rattle.flat_phaser.specs.Flat.{Flat, shown, registered, unarrived};
ghost use Rattle.flat_phaser.specs.Alike.{IsAlike};
ghost use Rattle.phaser_one.specs.Calls.{opened};
ghost use Rattle.phaser_one.specs.Calls as spec;
ghost use Rattle.phaser_word.specs.Phase.{shown_of};
ghost use Rattle.std.specs.Prelude.{true};
ghost use Rattle.phaser_one.specs.Seen.{Single, flat_of, Follows, reply_of, reply_of_awaited};
ghost use Rattle.phaser_one.specs.Runs.{FollowsAll, advance_of};
ghost use Rattle.std.specs.Prelude.{◌==◌, if◌then◌else◌};

use crate::call::{Advance, Awaited, Call, OneFault, Reply};
use crate::step::{Arrival, Stepped, absent, arrived, forced, joined, members, present};
use advance_rule::StoredCount;
use phaser_word::{LAST_PHASE, MOST_PARTIES, Word};
use std::alloc::{AllocError, Global};
use std::marker::Model;

/// A phaser without tiers, and the rule that says when it ends (Java SE 21, `Phaser`).
///
/// Its parties are anonymous: an arrival or a departure is that of any unarrived party. The call that makes an advance
/// due also takes it, and asks the rule whether the phaser ends. After the end, every call returns the phase that the
/// phaser shows, a negative number, and changes nothing.
///
/// ```
/// // It ends when fewer than one party is left.
/// let plan = CountPlan { least: 1, at: None };
/// let rule = StoredCount::new(|_phase, parties| parties < 1, plan);
/// let mut phaser = PhaserOne::new(2, 0, rule).expect(&rt, "two parties");
/// assert!(rt; phaser.arrive().is_ok());
/// assert!(rt; phaser.phase() == 0);
/// assert!(rt; phaser.arrive().is_ok());
/// assert!(rt; phaser.phase() == 1);
/// ```
#[derive(Drop)]
pub struct PhaserOne<F: Fn(u32, u32) -> bool> {
    word: Word,
    rule: StoredCount<F>,
}

impl<F: Fn(u32, u32) -> bool> Model for PhaserOne<F> {
    ghost use Rattle.std.specs.Prelude.{◌≤◌};
    ghost use Rattle.phaser_one.specs.Seen.{Single};

    ghost Value = { Single F };

    ghost view = { λ p. record { word = p.word; rule = p.rule } };

    ghost invariant = { λ p. p.word.unarrived ≤ p.word.parties };
}

impl<F: Fn(u32, u32) -> bool> PhaserOne<F> {
    /// Creates a phaser with `parties` parties, all unarrived, in `phase`.
    ///
    /// # Errors
    ///
    /// `TooMany` if `parties` is below 0 or above 65535.
    pub fn new(parties: i64, phase: u32, rule: StoredCount<F>) -> Result<Self, OneFault>
    where
        F: Drop,
        requires { phase ≤ LAST_PHASE }
        ensures word { IfOk result (λ p. (pos p.word.parties ≡ parties) × IsAlike (opened p.word.parties phase) (flat_of p.word)) }
        ensures rule { IfOk result (λ p. p.rule ≡ rule) }
        ensures refused { IsErr result ↔ ((parties <ℤ pos 0) ⊎ (pos MOST_PARTIES <ℤ parties)) }
        ensures fault { IfErr result (λ e. e ≡ OneFault.TooMany) }
    {
        match u32::try_from(parties) {
            Ok(parties) if parties <= MOST_PARTIES => Ok(PhaserOne {
                word: Word {
                    phase,
                    parties,
                    unarrived: parties,
                    ended: false,
                },
                rule,
            }),
            _ => Err(OneFault::TooMany),
        }
    }

    /// Returns a phaser in the state of `word`, in which no more parties may be unarrived than there are.
    pub fn of_word(word: Word, rule: StoredCount<F>) -> Self
        requires counted { word.unarrived ≤ word.parties }
        ensures word { result.word ≡ word }
        ensures rule { result.rule ≡ rule }
    {
        PhaserOne { word, rule }
    }

    /// Returns the state as a word.
    pub fn word(&self) -> Word
        ensures word { result ≡ self.now.word }
        ensures counted { result.unarrived ≤ result.parties }
    {
        self.word
    }

    /// Registers one unarrived party. Returns the phase to which this applies, or after the end the phase shown.
    ///
    /// # Errors
    ///
    /// `Full` if 65535 parties are registered and the phaser has not ended.
    pub fn register(&mut self) -> Result<i32, OneFault>
        ensures flat { Follows self.old.rule.plan spec.Register self.old.word self.new.word (reply_of result) }
        ensures rule { self.new.rule ≡ self.old.rule }
    {
        self.join(1)
    }

    /// Registers `count` unarrived parties. Returns as [`register`](PhaserOne::register). With 0 this adds nobody.
    ///
    /// # Errors
    ///
    /// `Negative` if `count` is below 0, whether the phaser has ended or not. `Full` if there is no room for all of them
    /// and the phaser has not ended.
    pub fn bulk_register(&mut self, count: i64) -> Result<i32, OneFault>
        ensures flat { Follows self.old.rule.plan (spec.Bulk count) self.old.word self.new.word (reply_of result) }
        ensures rule { self.new.rule ≡ self.old.rule }
    {
        match u64::try_from(count) {
            Ok(count) => self.join(count),
            Err(_) => Err(OneFault::Negative),
        }
    }

    // Registers `count` parties.
    fn join(&mut self, count: u64) -> Result<i32, OneFault>
        requires { count < 2 ^ 63 }
        ensures flat { Follows self.old.rule.plan (spec.Bulk (pos count)) self.old.word self.new.word (reply_of result) }
        ensures rule { self.new.rule ≡ self.old.rule }
    {
        let Stepped { word, shown } = joined(&self.rule, self.word, count)?;
        self.word = word;
        Ok(shown)
    }

    /// Arrives with one party, and doesn't wait for others. Returns the phase of the arrival, or after the end the phase
    /// shown.
    ///
    /// The last party to arrive advances the phaser: the closure, called with the phase and the number of parties, says
    /// whether the phaser ends.
    ///
    /// # Errors
    ///
    /// `NobodyUnarrived` if no party is unarrived and the phaser has not ended.
    pub fn arrive(&mut self) -> Result<i32, OneFault>
        requires rule { Answers (F.pre self.old.rule.closure) (F.post self.old.rule.closure) (count_ends self.old.rule.plan) }
        ensures flat { Follows self.old.rule.plan spec.Arrive self.old.word self.new.word (reply_of result) }
        ensures called { self.new.word.phase ≢ self.old.word.phase
            → F.post self.old.rule.closure self.old.word.phase self.new.word.parties self.new.word.ended }
        ensures rule { self.new.rule ≡ self.old.rule }
    {
        let Stepped { word, shown } = arrived(&self.rule, self.word, Arrival::Stays)?;
        self.word = word;
        Ok(shown)
    }

    /// Arrives with one party and deregisters it. Returns and fails as [`arrive`](PhaserOne::arrive). The closure is
    /// called with the number of parties that are left.
    pub fn arrive_and_deregister(&mut self) -> Result<i32, OneFault>
        requires rule { Answers (F.pre self.old.rule.closure) (F.post self.old.rule.closure) (count_ends self.old.rule.plan) }
        ensures flat { Follows self.old.rule.plan spec.Leave self.old.word self.new.word (reply_of result) }
        ensures called { self.new.word.phase ≢ self.old.word.phase
            → F.post self.old.rule.closure self.old.word.phase self.new.word.parties self.new.word.ended }
        ensures rule { self.new.rule ≡ self.old.rule }
    {
        let Stepped { word, shown } = arrived(&self.rule, self.word, Arrival::Leaves)?;
        self.word = word;
        Ok(shown)
    }

    /// Asks whether `phase` has passed, as Java's `awaitAdvance`, but doesn't wait.
    ///
    /// Returns `phase` if it is negative. Otherwise returns the phase shown if the phaser has ended, and the current
    /// phase if that is another one. Returns `Waiting` if `phase` is the current phase. This order is not part of Java's
    /// API.
    pub fn poll_await(&self, phase: i32) -> Awaited
        ensures { (f : Flat) → IsAlike f (flat_of self.now.word) → reply_of_awaited result ≡ spec.answer (spec.Await phase) f }
    {
        let shown = self.word.shown();
        if phase < 0 {
            Awaited::Now(phase)
        } else if self.word.ended || phase != shown {
            Awaited::Now(shown)
        } else {
            Awaited::Waiting
        }
    }

    /// Ends the phaser at once, as Java's `forceTermination`. The phase and the counts stay as they are. If the phaser has
    /// ended, nothing changes.
    pub fn force(&mut self)
        ensures word { self.new.word ≡ record self.old.word { ended = true } }
        ensures flat { Follows self.old.rule.plan spec.Force self.old.word self.new.word (spec.Number (shown_of self.new.word.phase true)) }
        ensures rule { self.new.rule ≡ self.old.rule }
    {
        self.word = forced(&self.rule, self.word);
    }

    /// Returns the current phase, as Java's `getPhase`. After the end, this is the last phase less 2147483648, a negative
    /// number.
    pub fn phase(&self) -> i32
        ensures { (f : Flat) → IsAlike f (flat_of self.now.word) → result ≡ shown f }
    {
        self.word.shown()
    }

    /// Returns the number of registered parties.
    pub fn registered(&self) -> u32
        ensures { (f : Flat) → IsAlike f (flat_of self.now.word) → result ≡ registered f }
    {
        members(self.word)
    }

    /// Returns the number of parties that have arrived in the current phase.
    pub fn arrived(&self) -> u32
        ensures { (f : Flat) → IsAlike f (flat_of self.now.word) → result + unarrived f ≡ registered f }
    {
        present(self.word)
    }

    /// Returns the number of parties that have not arrived in the current phase.
    pub fn unarrived(&self) -> u32
        ensures { (f : Flat) → IsAlike f (flat_of self.now.word) → result ≡ unarrived f }
    {
        absent(self.word)
    }

    /// Returns true if the phaser has ended.
    pub fn ended(&self) -> bool
        ensures { (f : Flat) → IsAlike f (flat_of self.now.word) → result ≡ f.ended }
    {
        self.word.ended
    }
}

impl<F: Fn(u32, u32) -> bool> PhaserOne<F> {
    /// Makes a call that is given as data, and returns its answer.
    pub fn call(&mut self, call: Call) -> Reply
        requires rule { Answers (F.pre self.old.rule.closure) (F.post self.old.rule.closure) (count_ends self.old.rule.plan) }
        ensures flat { Follows self.old.rule.plan call self.old.word self.new.word result }
        ensures rule { self.new.rule ≡ self.old.rule }
    {
        match call {
            Call::Register => reply(self.register()),
            Call::Bulk(count) => reply(self.bulk_register(count)),
            Call::Arrive => reply(self.arrive()),
            Call::Leave => reply(self.arrive_and_deregister()),
            Call::Await(phase) => match self.poll_await(phase) {
                Awaited::Now(phase) => Reply::Number(phase),
                Awaited::Waiting => Reply::Waiting,
            },
            Call::Force => {
                self.force();
                Reply::Number(self.phase())
            }
        }
    }

    /// Makes a call that is given as data, and returns its answer and the advance that it took, if any.
    pub fn call_reported(&mut self, call: Call) -> (Reply, Option<Advance>)
        requires rule { Answers (F.pre self.old.rule.closure) (F.post self.old.rule.closure) (count_ends self.old.rule.plan) }
        ensures flat { Follows self.old.rule.plan call self.old.word self.new.word result.0 }
        ensures advance { (f : Flat) → IsAlike f (flat_of self.old.word) → result.1 ≡ advance_of call f }
        ensures rule { self.new.rule ≡ self.old.rule }
    {
        let before = self.word;
        let reply = self.call(call);
        let after = self.word;
        (reply, advance_between(before, after))
    }

    /// Makes the calls one after another, and returns the answer of each. If memory for the answers runs out, makes no
    /// call.
    pub fn call_all(&mut self, alloc: Global, calls: &[Call]) -> Result<Vec<Reply>, AllocError>
        requires rule { Answers (F.pre self.old.rule.closure) (F.post self.old.rule.closure) (count_ends self.old.rule.plan) }
        ensures flat { IfOk result (λ replies. FollowsAll self.old.rule.plan calls.now self.old.word self.new.word replies.items) }
        ensures memory { OnErr result (self.new ≡ self.old) }
        ensures rule { self.new.rule ≡ self.old.rule }
    {
        let mut replies = Vec::with_capacity(alloc, calls.len())?;
        for call in calls {
            let reply = self.call(*call);
            replies.push_reserved(reply);
        }
        Ok(replies)
    }
}

// Returns the answer of a call that can fail.
fn reply(outcome: Result<i32, OneFault>) -> Reply
    ensures { result ≡ reply_of outcome }
{
    match outcome {
        Ok(phase) => Reply::Number(phase),
        Err(fault) => Reply::Refused(fault),
    }
}

// Returns the advance between the words before and after a call, if there is one.
fn advance_between(before: Word, after: Word) -> Option<Advance>
    ensures { result ≡ (if before.phase == after.phase then None else Some (record { phase = before.phase; parties = after.parties })) }
{
    (before.phase != after.phase).then_some(Advance {
        phase: before.phase,
        parties: after.parties,
    })
}
