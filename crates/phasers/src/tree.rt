//! A tree of phasers whose calls have no preconditions but ranges of numbers: the tree ends as its plan says, and each
//! token borrows its tree.

ghost use Rattle.std.specs.Prelude.{◌≡◌, ◌<◌, ◌≤◌, ◌+◌, ℕ, None, Some, Ok, Err, length, IfOk, IfErr};
ghost use Rattle.tier_calls.specs.Holding.{IsSat, split_once};
ghost use Rattle.tier_calls.specs.Led.{LedInPlaceWaited};
ghost use Rattle.tier_calls.specs.InPlace.{ArrivesInPlace};
ghost use Rattle.tier_calls.specs.InPlace as in_place;
ghost use Rattle.tier_calls.specs.Polls.{Polls};
ghost use Rattle.tier_calls.specs.Polls as polls;
ghost use Rattle.tier_calls.specs.Waited.{PollWaited};
ghost use Rattle.tier_calls.specs.Forces.{Forces, ForcedBy};
ghost use Rattle.tier_calls.specs.Forces as forces;
ghost use Rattle.tier_calls.specs.Made.{HasEntered, HasLooked};
ghost use Rattle.tier_table.specs.AtLast.{token_admitted, token_counted, LedAtLast, RegistersAtLast, AwaitsAdvance, AwaitWaited, HasEndedJoin, HasEndedArrival, HasEndedWait};
ghost use Rattle.tier_table.specs.AtLast as at_last;
ghost use Rattle.tier_shape.specs.Leaves.{leaves_of};
ghost use Rattle.tier_shape.specs.Preferred.{leaf_at};
ghost use Rattle.tier_shape.specs.Faults.{fault_number};
ghost use Rattle.tier_shape.specs.InText.{shape_in_text};
ghost use Rattle.phasers.specs.Thin.{IsFirst, admitted_of, awaited_of, counted_of, Meets, Brings, Leaves, HasEndedBringing, LeavesWords};

pub use crate::answers::{BringError, Departed, JoinError, JoinTimedOut, MeetError, TreeEnded};
use crate::beside::{join_beside_wait, leave_next};
pub use crate::seat::Seat;
use crate::shared::SharedTree;
pub use crate::shared::{NoHook, OnAdvance};
pub use crate::snapshot::Snapshot;
pub use crate::trying::{Met, Owed, Settled};
pub use advance_rule::{EndPlan, StoredAdvance};
pub use phaser_word::Word;
pub use sleepers::TimedOut;
use std::alloc::{AllocError, Global};
use std::marker::Model;
use std::sync::Wait;
pub use tier_calls::forcing::Forced;
pub use tier_calls::in_place::ArrivedInPlace;
pub use tier_calls::polling::Polled;
use tier_calls::tokens::{Crew, Door, Token};
pub use tier_core::tree::Core;
pub use tier_shape::{Shape, ShapeFault};
use tier_table::TRIES;
pub use tier_table::tree::Tree;
pub use tier_table::waiting::AwaitedAdvance;
use tier_table::waiting::{ArrivedAtLast, RegisteredAtLast, await_advance, register_wait};

/// A tree of phasers that ends as its plan says (Java SE 21, tiered `Phaser`s).
///
/// Any threads share it, and each has its tokens: a [`Guest`] has no members, a [`Party`] has some, all at one tier. A
/// token refers to its tree, so the tree outlives its tokens.
///
/// ```
/// let plan = EndPlan::at_phase(2);
/// let mut tree = PhaserTree::from_widths(rt.alloc(), "2", plan).expect(&rt, "a tree");
/// let mut guest = tree.guest();
/// // The only member meets in phases 0 and 1; the tree ends with phase 2.
/// if let Ok(mut party) = guest.split().join(&rt, 0) {
///     assert!(rt; party.meet(&rt) == Ok(1));
///     assert!(rt; party.meet(&rt) == Ok(2));
///     assert!(rt; matches!(party.meet(&rt), Err(MeetError::Ended(_))));
/// }
/// ```
#[derive(Drop)]
pub struct PhaserTree<A: OnAdvance = NoHook> {
    pub(crate) shared: SharedTree<A>,
    pub(crate) first: Door,
}

impl<A: OnAdvance> Model for PhaserTree<A> {
    ghost use Rattle.std.specs.Prelude.{◌≡◌};
    ghost use Rattle.tier_calls.specs.Holding.{Holding};

    ghost Value = { Holding };

    ghost view = { λ t. t.first };

    ghost invariant = { λ t. t.first.tree ≡ t.shared };
}

/// A token without members, which can register some.
#[derive(Drop)]
pub struct Guest<'a, A: OnAdvance = NoHook> {
    pub(crate) shared: &'a SharedTree<A>,
    pub(crate) door: Door,
}

impl<'a, A: OnAdvance> Model for Guest<'a, A> {
    ghost use Rattle.std.specs.Prelude.{◌≡◌};
    ghost use Rattle.tier_calls.specs.Holding.{Holding};

    ghost Value = { Holding };

    ghost view = { λ g. g.door };

    ghost invariant = { λ g. g.door.tree ≡ g.shared.now };
}

/// A token with members, all at one tier. Its members arrive, and leave, one after another.
#[derive(Drop)]
pub struct Party<'a, A: OnAdvance = NoHook> {
    pub(crate) shared: &'a SharedTree<A>,
    pub(crate) crew: Crew,
}

impl<'a, A: OnAdvance> Model for Party<'a, A> {
    ghost use Rattle.std.specs.Prelude.{◌≡◌};
    ghost use Rattle.tier_calls.specs.Holding.{Holding};

    ghost Value = { Holding };

    ghost view = { λ p. p.crew };

    ghost invariant = { λ p. p.crew.tree ≡ p.shared.now };
}

impl PhaserTree {
    /// Creates a tree of empty tiers in `phase`, which ends as `plan` says.
    pub fn new(
        alloc: Global,
        shape: Shape,
        phase: u32,
        plan: EndPlan,
    ) -> Result<PhaserTree, AllocError>
        requires { phase ≤ 2147483647 }
        ensures tree { IfOk result (λ t. t.tree.key ≡ record { shape = shape; phase = phase; plan = plan }) }
        ensures first { IfOk result (IsFirst phase) }
    {
        PhaserTree::with_hook(alloc, shape, phase, plan, NoHook)
    }

    /// Creates a tree of empty tiers in phase 0, which ends as `plan` says. The text `widths` says its shape: `flat` is
    /// the root alone, and `2x3` is a root with two children that have three children each. Fails with the fault of
    /// `Shape::from_widths`.
    pub fn from_widths(alloc: Global, widths: &str, plan: EndPlan) -> Result<PhaserTree, ShapeFault>
        ensures shape { IfOk result (λ t. shape_in_text widths.now ≡ Ok t.tree.key.shape) }
        ensures same { IfOk result (λ t. (t.tree.key.phase ≡ 0) × (t.tree.key.plan ≡ plan)) }
        ensures first { IfOk result (IsFirst 0) }
        ensures refused { IfErr result (λ fault. (fault_number fault ≡ None → ⊥) → shape_in_text widths.now ≡ Err fault) }
    {
        let shape = match Shape::from_widths(alloc, widths) {
            Ok(shape) => shape,
            Err(fault) => return Err(fault),
        };
        match PhaserTree::new(alloc, shape, 0, plan) {
            Ok(tree) => Ok(tree),
            Err(fault) => Err(ShapeFault::Memory(fault)),
        }
    }
}

impl<A: OnAdvance> PhaserTree<A> {
    /// Creates a tree of empty tiers in `phase`, which ends as `plan` says, and runs `hook` at each advance.
    pub fn with_hook(
        alloc: Global,
        shape: Shape,
        phase: u32,
        plan: EndPlan,
        hook: A,
    ) -> Result<PhaserTree<A>, AllocError>
    where
        A: Drop,
        requires { phase ≤ 2147483647 }
        ensures tree { IfOk result (λ t. t.tree.key ≡ record { shape = shape; phase = phase; plan = plan }) }
        ensures first { IfOk result (IsFirst phase) }
    {
        let (shared, first) = SharedTree::new(alloc, shape, phase, plan, hook)?;
        Ok(PhaserTree { shared, first })
    }

    /// Returns the shape of the tree.
    pub fn shape(&self) -> &Shape
        ensures { result.now ≡ self.now.tree.key.shape }
    {
        self.shared.tiers.shape()
    }

    /// Splits a new token off the tree's first one. It has no members and is in the root's current phase. Split further tokens
    /// off it, one for each thread.
    pub fn guest(&mut self) -> Guest<'_, A>
        ensures { IsSat self.old.tree result }
    {
        let PhaserTree { shared, first } = self;
        let door = shared.tiers.open_door(first);
        Guest { shared, door }
    }

    /// Closes the tree, and returns the word of each tier as it is at the end. No token is left then, since each borrows
    /// from the tree. If memory runs out, hands the tree back as it was.
    pub fn close(self, alloc: Global) -> Result<Vec<Word>, PhaserTree<A>>
    where
        A: Drop,
        ensures words { IfOk result (λ words. LeavesWords self words.items) }
        ensures refused { IfErr result (λ tree. tree ≡ self) }
    {
        let Ok(words) = Vec::with_capacity(alloc, self.shape().count()) else {
            return Err(self);
        };
        let Ok(mut tokens) = Vec::with_capacity(alloc, 1) else {
            return Err(self);
        };
        let PhaserTree { shared, first } = self;
        // For the prover: a door has no members.
        let _ = first.phase();
        tokens.push_reserved(Token::Door(first));
        let SharedTree { tiers, .. } = shared;
        Ok(tiers.close(tokens, words))
    }
}

impl<'a, A: OnAdvance> Guest<'a, A> {
    /// Splits a new token off this one. The new token has no members and is in the root's current phase. This one stays
    /// as it is.
    pub fn split(&mut self) -> Guest<'a, A>
        ensures same { self.new ≡ split_once self.old }
        ensures new { IsSat self.old.tree result }
    {
        let shared = self.shared;
        let door = shared.tiers.open_door(&mut self.door);
        Guest { shared, door }
    }

    /// Returns the phase of this token, as it saw the root last.
    pub fn phase(&self) -> u32
        ensures phase { result ≡ self.now.view.phase }
        ensures none { self.now.view.size ≡ 0 }
    {
        self.door.phase()
    }

    /// Registers `members` new members at `tier`. If the tier is empty, first opens the path to it from the nearest tier
    /// above that has parties. Tries again, and lets other threads run in between, while all parties of a tier on the
    /// path have arrived: a newcomer then has to wait for the next phase.
    pub fn register<R: Wait>(
        self,
        rt: &R,
        tier: u16,
        members: u32,
    ) -> Result<Party<'a, A>, JoinError<'a, A>>
        requires tier { tier < length self.tree.key.shape }
        requires members { (0 < members) × (members ≤ 65535) }
        ensures answer { RegistersAtLast self.entry.tree tier members (admitted_of result) }
        ensures unsplit { (token_admitted (admitted_of result)).opened ≡ self.entry.opened }
        ensures made { HasEntered self.entry.steps (token_admitted (admitted_of result)).steps }
        ensures ended { (phase : ℕ) → self.entry.view.end_seen ≡ Some phase → HasEndedJoin (admitted_of result) }
    {
        let Guest { shared, door } = self;
        match register_wait(&shared.tiers, rt, door, tier, members) {
            RegisteredAtLast::Joined(crew, _) => Ok(Party { shared, crew }),
            RegisteredAtLast::Full(door, count) => Err(JoinError::Full(
                Guest { shared, door },
                count,
            )),
            RegisteredAtLast::Ended(door, shown) => {
                Err(JoinError::Ended(Guest { shared, door }, shown))
            }
        }
    }

    /// Registers one member at the leaf of this number, and waits as `register` does. Leaves are numbered from 0; after
    /// the last, numbers start again at the first.
    ///
    /// Call it before the threads start, or from a thread none of whose members is unarrived: while it waits for an
    /// advance, such a member would hold that advance up for ever. A thread with an unarrived member brings others by
    /// [`Party::bring`].
    pub fn join<R: Wait>(self, rt: &R, number: usize) -> Result<Party<'a, A>, JoinError<'a, A>>
        ensures answer { RegistersAtLast self.entry.tree (leaf_at (leaves_of self.entry.tree.key.shape) number) 1 (admitted_of result) }
        ensures unsplit { (token_admitted (admitted_of result)).opened ≡ self.entry.opened }
        ensures made { HasEntered self.entry.steps (token_admitted (admitted_of result)).steps }
        ensures ended { (phase : ℕ) → self.entry.view.end_seen ≡ Some phase → HasEndedJoin (admitted_of result) }
    {
        let tier = self.shared.leaf(number);
        self.register(rt, tier, 1)
    }

    /// Ends the tree, whoever has arrived, with at most `tries` tries; 16 are enough if no other thread is inside a call.
    /// Returns `Ended` if the tree has ended, by this call or before. On `Busy` all tries failed and nothing changed:
    /// call again.
    pub fn force(&mut self, tries: u32) -> Forced
        ensures tree { self.new.tree ≡ self.old.tree }
        ensures answer { Forces self.old tries self.new result }
        ensures made { ForcedBy result self.old.steps self.new.steps }
        ensures ended { (phase : ℕ) → self.old.view.end_seen ≡ Some phase → forces.HasEnded result }
    {
        let shared = self.shared;
        shared.tiers.force(&mut self.door, tries)
    }
}

impl<'a, A: OnAdvance> Party<'a, A> {
    /// Splits a new token off this one. The new token has no members and is in the root's current phase. This one stays
    /// as it is.
    pub fn split(&mut self) -> Guest<'a, A>
        ensures same { self.new ≡ split_once self.old }
        ensures new { IsSat self.old.tree result }
    {
        let shared = self.shared;
        let door = shared.tiers.open_beside(&mut self.crew);
        Guest { shared, door }
    }

    /// Returns the tier of the members.
    pub fn tier(&self) -> u16
        ensures { result ≡ self.now.view.tier }
    {
        self.crew.tier()
    }

    /// Returns how many members the party has, from 1 to 65535.
    pub fn size(&self) -> u32
        ensures size { result ≡ self.now.view.size }
        ensures some { 0 < self.now.view.size }
    {
        self.crew.size()
    }

    /// Returns how many members have not arrived in the party's phase.
    pub fn unarrived(&self) -> u32
        ensures { result + self.now.view.arrived ≡ self.now.view.size }
    {
        self.crew.unarrived()
    }

    /// Returns the phase of the party, as it saw the root last.
    pub fn phase(&self) -> u32
        ensures { result ≡ self.now.view.phase }
    {
        self.crew.phase()
    }

    /// Lets a member arrive. Doesn't wait for others to arrive.
    pub fn arrive<R: Wait>(&mut self, rt: &R) -> ArrivedInPlace
        ensures answer { ArrivesInPlace self.old self.new result }
        ensures waited { LedInPlaceWaited self.new result }
        ensures found { in_place.FindsArrived self.old self.new result }
        ensures ended { (phase : ℕ) → self.old.view.end_seen ≡ Some phase → in_place.HasEnded result }
    {
        self.shared.arrive_in_place(rt, &mut self.crew)
    }

    /// Checks whether the phase in which all members have arrived is over. Doesn't wait. Returns `Passed` only after an
    /// advance of the tree that found every member of every party arrived in that phase (clause `waited`).
    pub fn poll(&mut self) -> Polled
        ensures tree { self.new.tree ≡ self.old.tree }
        ensures answer { Polls self.old self.new result }
        ensures waited { PollWaited self.old self.new result }
        ensures caught_up { polls.CaughtUpBy result self.new }
        ensures ended { (phase : ℕ) → self.old.view.end_seen ≡ Some phase → polls.HasEnded result }
    {
        let shared = self.shared;
        shared.tiers.poll(&mut self.crew)
    }

    /// Waits until the phase in which all members have arrived is over. Returns at once if a member has not arrived, or
    /// the tree has ended.
    ///
    /// Returns `Passed` only after an advance of the tree that found every member of every party arrived in that phase
    /// (clause `waited`): some run of steps leads to what this party saw, and the last advance of every such run found so.
    /// That the call returns is not part of its contract.
    pub fn await_advance<R: Wait>(&mut self, rt: &R) -> AwaitedAdvance
        ensures tree { self.new.tree ≡ self.old.tree }
        ensures answer { AwaitsAdvance self.old self.new result }
        ensures waited { AwaitWaited self.old self.new result }
        ensures unsplit { self.new.opened ≡ self.old.opened }
        ensures made { HasLooked self.old.steps self.new.steps }
        ensures caught_up { at_last.CaughtUpBy result self.new }
        ensures ended { (phase : ℕ) → self.old.view.end_seen ≡ Some phase → HasEndedWait result }
    {
        let shared = self.shared;
        await_advance(&shared.tiers, rt, &mut self.crew)
    }

    /// Lets a member arrive, waits until the phase in which all members have arrived is over, and returns the next phase: one
    /// more, or 0 after 2147483647. A party of one member meets all others by this call. With several members, each but the last
    /// only arrives, and the call fails with `Here`. [`Parties`](crate::parties::Parties) lets several members arrive at once.
    /// Fails with `Ended` if the tree has ended.
    ///
    /// Returns a phase only after an advance of the tree that found every member of every party arrived in the phase in
    /// which this party arrived.
    pub fn meet<R: Wait>(&mut self, rt: &R) -> Result<u32, MeetError>
        ensures tree { self.new.tree ≡ self.old.tree }
        ensures answer { Meets self.old self.new (awaited_of result) }
        ensures unsplit { self.new.opened ≡ self.old.opened }
    {
        self.arrive(rt);
        match self.await_advance(rt) {
            AwaitedAdvance::Passed(phase) => Ok(phase),
            AwaitedAdvance::Here(phase) => Err(MeetError::Here(phase)),
            AwaitedAdvance::Ended(shown) => Err(MeetError::Ended(shown)),
        }
    }

    /// Registers `members` new members at this party's tier, as a separate party, which is in this party's phase and has not
    /// arrived. A member of this party has not arrived, so the phase can't end meanwhile, and the call waits for no advance. If
    /// all members have arrived, does nothing and fails with `AllArrived`.
    pub fn bring<R: Wait>(
        &mut self,
        rt: &R,
        members: u32,
    ) -> Result<Party<'a, A>, BringError<'a, A>>
        requires members { (0 < members) × (members ≤ 65535) }
        ensures answer { Brings TRIES self.old self.new members result }
        ensures ended { (phase : ℕ) → self.old.view.end_seen ≡ Some phase → HasEndedBringing result }
    {
        if self.unarrived() == 0 {
            return Err(BringError::AllArrived);
        }
        let Guest { shared, door } = self.split();
        match join_beside_wait(&shared.tiers, rt, &mut self.crew, door, members) {
            RegisteredAtLast::Joined(crew, _) => Ok(Party { shared, crew }),
            RegisteredAtLast::Full(door, count) => {
                Err(BringError::Full(Guest { shared, door }, count))
            }
            RegisteredAtLast::Ended(door, shown) => {
                Err(BringError::Ended(Guest { shared, door }, shown))
            }
        }
    }

    /// Lets a member leave. Its departure counts as its arrival. If all members have arrived in this phase, none can leave in
    /// it: then the call first waits until the phase is over. A member whose last phase is p leaves in p, in place of arriving;
    /// or it meets the others in p, and leaves in the phase after it, which then has waited for it too.
    pub fn leave<R: Wait>(self, rt: &R) -> Departed<'a, A>
        ensures answer { Leaves self.entry (counted_of result) }
        ensures waited { LedAtLast (counted_of result) }
        ensures unsplit { (token_counted (counted_of result)).opened ≡ self.entry.opened }
        ensures ended { (phase : ℕ) → self.entry.view.end_seen ≡ Some phase → HasEndedArrival (counted_of result) }
    {
        let Party { shared, crew } = self;
        match shared.leave_wait(rt, crew) {
            ArrivedAtLast::Done(crew, phase, led) => {
                let party = Party { shared, crew };
                Departed::Done { party, phase, led }
            }
            ArrivedAtLast::Left(door, phase, led) => {
                let guest = Guest { shared, door };
                Departed::Left { guest, phase, led }
            }
            ArrivedAtLast::Ended(crew, shown) => Departed::Ended(Party { shared, crew }, shown),
            ArrivedAtLast::AlreadyArrived(crew, _) => leave_next(shared, rt, crew),
        }
    }
}
