//! The tiers of a tree as atomic words, and single loads and compare-and-swaps of them.

ghost use Rattle.std.specs.Prelude.{◌≡◌, ◌≤◌, ◌<◌, IfErr, IfOk, MatchBool, [], length, replicate};
ghost use Rattle.tier_shape.specs.Paths.{IsTiers};
ghost use Rattle.tier_steps.specs.View.{new_view};
ghost use Rattle.tier_steps.specs.Start.{empty_word};
ghost use Rattle.tier_steps.specs.Step.{Needs};
ghost use Rattle.tier_steps.specs.declared.kind.Kind.TheVariants.{Look};
ghost use Rattle.tier_calls.specs.Holding.{Looked, Lost, Won, HaveLooked, IsSat, split_once};
ghost use Rattle.tier_rule.specs.Look.{MayLook};
ghost use Rattle.tier_rule.specs.Reach.{PlanSays};

use crate::seated::Seated;
use crate::seen::Seen;
use crate::tokens::{Crew, Door};
use crate::writing::step_in;
use advance_rule::EndPlan;
use atomic_table::{Seat, Table};
use phaser_word::{LAST_PHASE, Word};
use sleepers::{Patience, Sleepers, TimedOut};
use std::alloc::{AllocError, Global};
use std::marker::{Brand, Model};
use std::sync::Wait;
use tier_core::turn::above;
use tier_rule::look::look_for;
use tier_rule::rule::{Cuts, Joins, Keyed, Looks, LooksTogether, Meant, Parts, Rule, Sits, Tries};
use tier_rule::sight::{Key, Sights};
use tier_shape::Shape;
use tier_steps::kind::Kind;
use tier_steps::step::step_word;
use tier_steps::view::View;

/// The tiers of a tree, one atomic word each. Any number of threads may call it by shared reference, each by its
/// tokens.
#[derive(Drop)]
pub struct Tiers {
    pub(crate) table: Table<Kind, Sights, Key, Rule, Global>,
    key: Key,
    // Who waits for an advance or the end of the tree, or until a tier takes newcomers again.
    pub(crate) sleepers: Sleepers,
}

// A thread that waits lets others run after each look: looks without a break at the root's word slow down those who arrive.
const NO_SPINS: u32 = 0;

impl Model for Tiers {
    ghost use Rattle.tier_calls.specs.Holding.{Named, IsTable};

    ghost Value = { Named };

    ghost view = { λ t. record { id = t.table.shared.table_id; key = t.table.shared.key } };

    ghost invariant = { λ t. IsTable t.table.shared.table_id.words t.table.shared.table_id.slots t.key t.table.shared.key };
}

impl Tiers {
    /// Creates empty tiers in `phase`, and the first token.
    fn seated(
        alloc: Global,
        shape: Shape,
        phase: u32,
        plan: EndPlan,
    ) -> Result<(Tiers, Seated), AllocError>
        requires { phase ≤ LAST_PHASE }
        ensures tree { IfOk result (λ r. r.0.key ≡ record { shape = shape; phase = phase; plan = plan }) }
        ensures token { IfOk result (λ r. (r.1.tree ≡ r.0) × (r.1.view ≡ new_view phase) × (r.1.tier ≡ 0) × (r.1.word ≡ empty_word phase) × (r.1.tried ≡ 0) × (r.1.steps ≡ []) × (r.1.opened ≡ 0)) }
    {
        let word = Seen::of(Word {
            phase,
            parties: 0,
            unarrived: 1,
            ended: false,
        });
        let numbers = vec![in alloc; word.number(); shape.count()]?;
        let key = Key { shape, phase, plan };
        let (table, seat) = Table::of_words(alloc, &numbers, &key)?;
        let view = View::new(phase);
        Ok((
            Tiers {
                table,
                key,
                sleepers: Sleepers::new(NO_SPINS),
            },
            Seated {
                seat,
                view,
                tier: 0,
                word,
            },
        ))
    }

    /// Creates a tree of empty tiers in `phase`, and its first token. It ends at an advance if `plan` says so.
    pub fn new(
        alloc: Global,
        shape: Shape,
        phase: u32,
        plan: EndPlan,
    ) -> Result<(Tiers, Door), AllocError>
        requires { phase ≤ LAST_PHASE }
        ensures tree { IfOk result (λ r. r.0.key ≡ record { shape = shape; phase = phase; plan = plan }) }
        ensures token { IfOk result (λ r. (r.1.tree ≡ r.0) × (r.1.view ≡ new_view phase) × (r.1.tier ≡ 0) × (r.1.word ≡ empty_word phase) × (r.1.tried ≡ 0) × (r.1.steps ≡ []) × (r.1.opened ≡ 0)) }
    {
        let (tiers, token) = Tiers::seated(alloc, shape, phase, plan)?;
        Ok((tiers, Door { token }))
    }

    /// Returns the shape of the tree.
    pub fn shape(&self) -> &Shape
        ensures value { result.now ≡ self.now.key.shape }
        ensures tiers { IsTiers result.now }
    {
        &self.key.shape
    }

    /// Loads the word of a tier. `J` names the step that the token means to take there, for the table's rule.
    #[inline(always)]
    fn look_as<J: Meant>(&self, token: &mut Seated, tier: u16, kind: Kind)
        requires own { token.old.tree ≡ self.now }
        requires tier { tier < length self.now.key.shape }
        requires kind { (kind ≡ J.kind) × MayLook self.now.key.shape kind tier token.old.view }
        ensures { Looked kind tier token.old token.new }
    {
        let found = self
            .table
            .shared
            .load::<Looks<J>>(&mut token.seat, usize::from(tier));
        let seen = Seen::at(found);
        let word = seen.word();
        let look = look_for(kind, tier, word);
        let above = above(&self.key.shape, tier);
        step_in(look, tier, above, word, &mut token.view);
        token.tier = tier;
        token.word = seen;
    }

    /// Loads the word of a tier at which the token means to take a step of this kind.
    #[inline(always)]
    pub(crate) fn look(&self, token: &mut Seated, tier: u16, kind: Kind)
        requires own { token.old.tree ≡ self.now }
        requires tier { tier < length self.now.key.shape }
        requires kind { MayLook self.now.key.shape kind tier token.old.view }
        ensures { Looked kind tier token.old token.new }
    {
        self.look_as::<Brand>(token, tier, kind);
    }

    /// Loads the word of the root.
    #[inline(always)]
    pub(crate) fn look_at_root(&self, token: &mut Seated)
        requires own { token.old.tree ≡ self.now }
        ensures { Looked Look 0 token.old token.new }
    {
        // Only for the prover: brings in that the tree has a root.
        let _ = self.shape();
        self.look(token, 0, Kind::Look);
    }

    /// Loads the word of the root once for two tokens. Returns the second one.
    pub(crate) fn look_together(&self, one: &mut Seated, other: Seated) -> Seated
        requires own { (one.old.tree ≡ self.now) × (other.tree ≡ self.now) }
        ensures { HaveLooked one.old one.new other result }
    {
        // Only for the prover: brings in what the other token knows of its tier.
        let _ = other.word();
        let mut view = other.view();
        self.table
            .shared
            .join_seat::<Joins>(&mut one.seat, other.into_seat());
        let found = self.table.shared.load::<LooksTogether>(&mut one.seat, 0);
        let seat = self.table.shared.split_seat::<Parts>(&mut one.seat);
        let seen = Seen::at(found);
        let word = seen.word();
        step_in(Kind::Look, 0, 0, word, &mut one.view);
        step_in(Kind::Look, 0, 0, word, &mut view);
        one.tier = 0;
        one.word = seen;
        Seated {
            seat,
            view,
            tier: 0,
            word: seen,
        }
    }

    /// Makes one try of a step at the tier that the token saw last, from the word that it saw there. Returns true if
    /// the try won. A lost try only looks.
    #[inline(always)]
    pub(crate) fn attempt(&self, token: &mut Seated, kind: Kind) -> bool
        requires own { token.old.tree ≡ self.now }
        requires needs { Needs self.now.key.shape kind token.old.tier token.old.word token.old.view }
        requires plan { PlanSays self.now.key kind token.old.word }
        ensures { MatchBool result (Won kind token.old token.new) (Lost kind token.old token.new) }
    {
        let tier = token.tier;
        let seen = token.word;
        let word = seen.word();
        let above = above(&self.key.shape, tier);
        let after = step_word(kind, tier, word, &token.view);
        let next = Seen::of(after);
        let old = seen.number();
        let new = next.number();
        let found = self
            .table
            .shared
            .compare_exchange_with::<Tries>(&mut token.seat, usize::from(tier), old, new, &kind);
        if found == old {
            step_in(kind, tier, above, word, &mut token.view);
            token.word = next;
            self.tell_of(kind);
            true
        } else {
            let other = Seen::at(found);
            let now = other.word();
            let look = look_for(kind, tier, now);
            step_in(look, tier, above, now, &mut token.view);
            token.word = other;
            false
        }
    }

    /// Wakes those who may wait for a step of this kind: it advances or ends the tree, or a tier takes newcomers again.
    #[inline(always)]
    fn tell_of(&self, kind: Kind) {
        match kind {
            Kind::Advance(_)
            | Kind::Force
            | Kind::Refresh
            | Kind::Settle { .. }
            | Kind::SettleBack { .. } => self.sleepers.wake(),
            _ => {}
        }
    }

    /// Waits for a while, or until a step was taken for which others may wait. Look at the tree again after each pause. Fails if
    /// the time of the wait has passed.
    pub fn pause<R: Wait, P: Patience<R>>(&self, rt: &R, patience: &mut P) -> Result<(), TimedOut>
        ensures { IfErr result (λ fault. P.ends) }
    {
        patience.pause(rt, &self.sleepers)
    }

    /// Makes a token of a new seat, by a first load of the root. `J` names the tree, for the table's rule.
    fn sit_as<J: Keyed>(&self, mut seat: Seat<Kind, Sights>) -> Seated
        requires own { seat.table_id ≡ self.now.id }
        requires blank { seat.me ≡ ([], []) }
        requires key { J.key ≡ self.now.key }
        ensures { IsSat self.now result }
    {
        let found = self.table.shared.load::<Sits<J>>(&mut seat, 0);
        let seen = Seen::at(found);
        let word = seen.word();
        let view = View::new(word.phase);
        Seated {
            seat,
            view,
            tier: 0,
            word: seen,
        }
    }

    /// Makes a token of this tree from a new seat, by a first load of the root.
    fn sit(&self, seat: Seat<Kind, Sights>) -> Seated
        requires own { seat.table_id ≡ self.now.id }
        requires blank { seat.me ≡ ([], []) }
        ensures { IsSat self.now result }
    {
        self.sit_as::<Brand>(seat)
    }

    /// Splits a new token off another. The new token has no members and is in the root's current phase.
    fn split_off(&self, token: &mut Seated) -> Seated
        requires own { token.old.tree ≡ self.now }
        ensures counted { token.new ≡ split_once token.old }
        ensures new { IsSat self.now result }
    {
        let seat = self.table.shared.split_seat::<Cuts>(&mut token.seat);
        self.sit(seat)
    }

    /// Splits a new door off a door. The new one is in the root's current phase.
    pub fn open_door(&self, door: &mut Door) -> Door
        requires own { door.old.tree ≡ self.now }
        ensures counted { door.new ≡ split_once door.old }
        ensures new { IsSat self.now result }
    {
        Door {
            token: self.split_off(&mut door.token),
        }
    }

    /// Splits a new door off a crew. The new one is in the root's current phase.
    pub fn open_beside(&self, crew: &mut Crew) -> Door
        requires own { crew.old.tree ≡ self.now }
        ensures counted { crew.new ≡ split_once crew.old }
        ensures new { IsSat self.now result }
    {
        Door {
            token: self.split_off(&mut crew.token),
        }
    }
}
