//! Rules that say when a phaser ends, or the action of a barrier fails: closures, each beside the plan that says what the
//! closure returns. Plans and stored closures are not part of Java's API. Those of a phaser are here, that of a barrier in
//! `action.rt`.
#![tactic(auto)]

ghost use Rattle.std.specs.Prelude.{◌≡◌, ◌≤◌, None, Some, true};
ghost use Rattle.advance_rule.specs.Plan.{count_ends, end_ends, end_ends_at};
ghost use Rattle.advance_rule.specs.Stored.{Stored, Answers};
ghost use Rattle.advance_rule.specs.declared.CountPlan.{CountPlan};
ghost use Rattle.advance_rule.specs.declared.EndPlan.{EndPlan};

use std::marker::Model;

mod action;

pub use action::StoredAction;

/// When a phaser ends at an advance: with fewer registered parties than `least`, or at the end of phase `at` (Java SE 21's
/// default for `Phaser.onAdvance` is `least` 1 and no `at`).
#[derive(Clone, Copy, PartialEq, Eq)]
pub struct CountPlan {
    /// The fewest parties with which the phaser goes on.
    pub least: u32,
    /// The phase whose end is the end of the phaser.
    pub at: Option<u32>,
}

impl CountPlan {
    /// Returns true if the phaser ends at the advance of `phase`, with `count` registered parties.
    pub fn ends(&self, phase: u32, count: u32) -> bool
        ensures { result ≡ count_ends self.now phase count }
    {
        count < self.least || self.at == Some(phase)
    }
}

/// A closure of a phase and a count of parties, beside the plan that says what it returns.
///
/// The type can't keep that the closure follows its plan. So each call that may call the closure requires it again.
#[derive(Drop)]
pub struct StoredCount<F: Fn(u32, u32) -> bool> {
    closure: F,
    plan: CountPlan,
}

impl<F: Fn(u32, u32) -> bool> Model for StoredCount<F> {
    ghost Value = { Stored F CountPlan };

    ghost view = { λ s. record { closure = s.closure; plan = s.plan } };
}

impl<F: Fn(u32, u32) -> bool> StoredCount<F> {
    /// Stores a closure that may be called at every phase up to 2147483647 and every count up to 65535, and returns there
    /// what the plan says.
    pub fn new(closure: F, plan: CountPlan) -> Self
        requires { Answers (F.pre closure) (F.post closure) (count_ends plan) }
        ensures { result ≡ record { closure = closure; plan = plan } }
    {
        StoredCount { closure, plan }
    }

    /// Returns the plan.
    pub fn plan(&self) -> CountPlan
        ensures { result ≡ self.now.plan }
    {
        self.plan
    }

    /// Calls the closure with this phase and this count of registered parties.
    pub fn call(&self, phase: u32, count: u32) -> bool
        requires phase { phase ≤ 2147483647 }
        requires count { count ≤ 65535 }
        requires rule { Answers (F.pre self.now.closure) (F.post self.now.closure) (count_ends self.now.plan) }
        ensures called { F.post self.now.closure phase count result }
        ensures answer { result ≡ count_ends self.now.plan phase count }
    {
        (self.closure)(phase, count)
    }
}

/// When a tree of phasers ends at an advance of its root: if nobody is registered and `when_empty` is true, or at the
/// end of phase `at` (Java SE 21's default for `Phaser.onAdvance` is `when_empty` and no `at`).
#[derive(Clone, Copy, PartialEq, Eq)]
pub struct EndPlan {
    /// Whether the tree ends when nobody is registered.
    pub when_empty: bool,
    /// The phase whose end is its end.
    pub at: Option<u32>,
}

impl EndPlan {
    /// Ends the tree at the first advance after which nobody is registered, as Java SE 21's `Phaser` does by default.
    pub fn when_empty() -> EndPlan
        ensures { result ≡ record { when_empty = true; at = None } }
    {
        EndPlan {
            when_empty: true,
            at: None,
        }
    }

    /// Ends the tree at the end of `phase`, counted from 0, or earlier at the first advance after which nobody is
    /// registered.
    pub fn at_phase(phase: u32) -> EndPlan
        ensures { result ≡ record { when_empty = true; at = Some phase } }
    {
        EndPlan {
            when_empty: true,
            at: Some(phase),
        }
    }

    /// Returns true if the tree ends at the advance of `phase`; `empty` says that nobody is registered.
    pub fn ends(&self, phase: u32, empty: bool) -> bool
        ensures { result ≡ end_ends self.now phase empty }
    {
        (empty && self.when_empty) || self.at == Some(phase)
    }
}

/// A closure of a phase and a count of parties, beside the plan that says what it returns. Of the count the plan looks only
/// at whether it is zero.
///
/// The type can't keep that the closure follows its plan. So each call that may call the closure requires it again.
#[derive(Drop)]
pub struct StoredAdvance<F: Fn(u32, u32) -> bool> {
    closure: F,
    plan: EndPlan,
}

impl<F: Fn(u32, u32) -> bool> Model for StoredAdvance<F> {
    ghost Value = { Stored F EndPlan };

    ghost view = { λ s. record { closure = s.closure; plan = s.plan } };
}

impl<F: Fn(u32, u32) -> bool> StoredAdvance<F> {
    /// Stores a closure that may be called at every phase up to 2147483647 and every count up to 65535, and returns there
    /// what the plan says.
    pub fn new(closure: F, plan: EndPlan) -> Self
        requires { Answers (F.pre closure) (F.post closure) (end_ends_at plan) }
        ensures { result ≡ record { closure = closure; plan = plan } }
    {
        StoredAdvance { closure, plan }
    }

    /// Returns the plan.
    pub fn plan(&self) -> EndPlan
        ensures { result ≡ self.now.plan }
    {
        self.plan
    }

    /// Calls the closure with this phase and this count of registered parties.
    pub fn call(&self, phase: u32, count: u32) -> bool
        requires phase { phase ≤ 2147483647 }
        requires count { count ≤ 65535 }
        requires rule { Answers (F.pre self.now.closure) (F.post self.now.closure) (end_ends_at self.now.plan) }
        ensures called { F.post self.now.closure phase count result }
        ensures answer { result ≡ end_ends_at self.now.plan phase count }
    {
        (self.closure)(phase, count)
    }
}
