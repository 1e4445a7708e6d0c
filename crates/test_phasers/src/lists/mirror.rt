//! The same calls on the tree as a machine, step by step.

ghost use Rattle.std.specs.Prelude.{IfSome};
ghost use Rattle.tier_core.specs.Run.{IsCall};

use crate::calls::ask::Ask;
use std::process::Abort;
use test_groups::machine::{stepped, view_of};
use test_groups::reported::Reported;
use tier_core::call::{Call, Played};
use tier_core::tree::Core;
use tier_steps::view::{Errand, View};

/// The machine, and for each token the tier of its last step that changed a word, with that word.
#[derive(Drop)]
pub struct Mirror {
    /// The machine.
    pub core: Core,
    /// The last steps.
    pub last: [Option<(usize, u64)>; 8],
}

/// Returns the words of the tiers, of up to nine.
pub(crate) fn words_of(core: &Core) -> [u64; 9] {
    let mut words = [0; 9];
    for tier in 0..9 {
        if tier < core.tiers() {
            words[tier] = core.word(tier as u16).pack();
        }
    }
    words
}

// Returns the tier whose word has changed, and its new word, if there is one.
fn changed(before: &[u64; 9], after: &[u64; 9]) -> Option<(usize, u64)> {
    for tier in 0..9 {
        if before[tier] != after[tier] {
            return Some((tier, after[tier]));
        }
    }
    None
}

// Returns what an answer says.
fn reported_by(ask: Ask, view: View, answer: Played) -> Reported {
    match answer {
        Played::GoesOn | Played::MustAdvance(_, _) => Reported::Owing,
        Played::Done(phase) => match ask {
            Ask::Register(_, _) | Ask::Open => Reported::Joined(phase),
            Ask::Poll => Reported::Here(phase),
            _ if view.size == 0 => Reported::Left(phase, view.led),
            _ => Reported::Done(phase, view.led),
        },
        Played::Passed(phase) => Reported::Passed(phase),
        Played::Waiting => Reported::Waiting,
        Played::Held(phase, cause) => Reported::Held(phase, cause),
        Played::Full(count) => Reported::Full(count),
        Played::AlreadyArrived(phase) => Reported::AlreadyArrived(phase),
        Played::Ended(shown) => Reported::Ended(shown),
    }
}

// Returns the call that a token begins, if it is to begin one.
fn call_of(rt: &impl Abort, ask: Ask) -> Option<Call>
    ensures { IfSome result IsCall }
{
    match ask {
        Ask::Open | Ask::Resume => None,
        Ask::Beside => panic!(rt; "nobody is asked so"),
        Ask::Register(tier, n) => {
            assert!(rt; n > 0 && n < 65536);
            Some(Call::Join { tier, n })
        }
        Ask::Arrive => Some(Call::Arrive),
        Ask::Leave => Some(Call::Leave),
        Ask::Poll => Some(Call::Poll),
        Ask::Force => Some(Call::Force),
    }
}

// Returns the tier that a token on its way has to report next, if there is one.
fn next_tier(view: View) -> Option<usize> {
    match view.errand {
        Errand::Climbing { tier, .. } => Some(usize::from(tier)),
        Errand::Advancing => Some(0),
        _ => None,
    }
}

// Returns the word of a tier, of up to nine.
fn word_at(rt: &impl Abort, core: &Core, tier: usize) -> u64 {
    assert!(rt; tier < 9);
    words_of(core)[tier]
}

impl Mirror {
    /// Returns the number of tiers.
    pub(crate) fn tiers(&self) -> u32 {
        self.core.tiers() as u32
    }

    // Steps of a call until it is over, or `tries` of them have changed a word.
    fn go(&mut self, rt: &impl Abort, token: usize, tries: u32) -> Option<Played> {
        assert!(rt; token < 8);
        let mut left = tries;
        for _ in 0..64 {
            if left == 0 {
                return None;
            }
            let before = words_of(&self.core);
            let answer = stepped(&mut self.core, token).expect(rt, "no step");
            if let Some(place) = changed(&before, &words_of(&self.core)) {
                self.last[token] = Some(place);
                left -= 1;
            }
            match answer {
                Played::GoesOn | Played::MustAdvance(_, _) => {}
                answer => return Some(answer),
            }
        }
        None
    }

    // Returns the tier at which a call that goes on loses its first try: another has changed the word that its token left
    // there. The token has then seen the word.
    fn lost_at(&mut self, rt: &impl Abort, token: usize) -> Option<usize> {
        assert!(rt; token < 8);
        let next = next_tier(view_of(&self.core, token))?;
        let word = word_at(rt, &self.core, next);
        let (tier, left) = self.last[token]?;
        if tier != next || left == word {
            return None;
        }
        self.last[token] = Some((next, word));
        Some(next)
    }

    // A call goes on. A lost try is a look, and it is the last step if it finds the end.
    fn resume(&mut self, rt: &impl Abort, token: usize, tries: u32) -> Option<Played> {
        if tries == 0 {
            return None;
        }
        match self.lost_at(rt, token) {
            Some(0) if self.core.root().ended => Some(stepped(&mut self.core, token).expect(
                rt, "no step",
            )),
            Some(_) => self.go(rt, token, tries - 1),
            None => self.go(rt, token, tries),
        }
    }

    // A call begins, with its look at the root.
    fn begin(&mut self, rt: &impl Abort, token: usize, call: Call, tries: u32) -> Option<Played>
        requires { IsCall call }
    {
        assert!(rt; self.core.begin(token, call).is_ok());
        match stepped(&mut self.core, token).expect(rt, "no step") {
            Played::GoesOn => self.go(rt, token, tries),
            answer => Some(answer),
        }
    }

    // Takes the steps of a call with `tries` tries, or of one that was busy.
    fn steps(
        &mut self,
        rt: &impl Abort,
        token: usize,
        ask: Ask,
        tries: u32,
        again: bool,
    ) -> Option<Played> {
        let Some(call) = call_of(rt, ask) else {
            return self.resume(rt, token, tries);
        };
        if again && !matches!(call, Call::Force) {
            return self.go(rt, token, tries);
        }
        let tries = match call {
            Call::Force => 1,
            Call::Poll => 2,
            _ => tries,
        };
        self.begin(rt, token, call, tries)
    }

    /// Returns what a token gets from a call with `tries` tries, or from one that was busy.
    pub(crate) fn reported(
        &mut self,
        rt: &impl Abort,
        token: usize,
        ask: Ask,
        tries: u32,
        again: bool,
    ) -> Reported {
        let answer = self.steps(rt, token, ask, tries, again);
        let view = view_of(&self.core, token);
        match answer {
            Some(answer) => reported_by(ask, view, answer),
            None if matches!(view.errand, Errand::Rest) => Reported::Busy,
            None => Reported::Owing,
        }
    }
}
