//! Closing a tree.

ghost use Rattle.std.specs.Prelude.{◌≡◌, ◌≤◌, ◌-◌, [], ◌++◌, All, List, length, vec_capacity};
ghost use Rattle.std.specs.Slots.{slots_items, slots_len, IsFull};
ghost use Rattle.tier_rule.specs.declared.sight.Key.{Key};
ghost use Rattle.tier_rule.specs.declared.sight.Sight.{Sight};
ghost use Rattle.tier_calls.specs.Closes.{held, plain_of, plain_tokens, views_in, sights_in, TallyWithOthers, IsLeftBy, IsShut};
ghost use Rattle.tier_calls.specs.Closes as closes;
ghost use Rattle.tier_calls.specs.Closes.{sights_together, views_together};

use crate::groups::Group;
use crate::tiers::Tiers;
use crate::tokens::Token;
use atomic_table::{Closed as ClosedTable, Seat};
use phaser_word::Word;
use std::alloc::Global;
use tier_rule::rule::Joins;
use tier_rule::sight::Sights;
use tier_steps::kind::Kind;

/// What a token had when its tree was closed.
#[derive(Clone, Copy)]
pub struct ClosedToken {
    /// The tier of its members.
    pub tier: u16,
    /// The number of its members.
    pub size: u32,
    /// The number of members that had not arrived in its phase.
    pub unarrived: u32,
    /// The phase that the token was in.
    pub phase: u32,
}

/// What remains of a tree after it was closed.
#[derive(Drop)]
pub struct Closed {
    /// The words of the tiers, by tier number.
    pub words: Vec<Word>,
    /// The tokens that the caller handed in, in their order.
    pub tokens: Vec<ClosedToken>,
}

/// Returns a token as plain numbers.
fn plain(token: &Token) -> ClosedToken
    ensures { result ≡ plain_of (held token.now).view }
{
    let view = token.view();
    ClosedToken {
        tier: view.tier,
        size: view.size,
        unarrived: view.size.saturating_sub(view.arrived),
        phase: view.phase,
    }
}

/// Writes all tokens as plain numbers into `plains`, in their order. `plains` must be empty and have room for
/// them.
pub fn plain_all(tokens: &[Token], plains: &mut Vec<ClosedToken>)
    requires empty { plains.old.items ≡ [] }
    requires capacity { length tokens.now ≤ vec_capacity plains.old }
    ensures { plains.new.items ≡ plain_tokens tokens.now }
{
    for token in tokens {
        plains.push_reserved(plain(token));
    }
}

/// Returns the members of a group as plain numbers.
fn plain_group(group: &Group) -> ClosedToken
    ensures { result ≡ closes.plain_group group.now }
{
    let size = group.size();
    let unarrived = if group.view.arrived == 0 { size } else { 0 };
    ClosedToken {
        tier: group.tier(),
        size,
        unarrived,
        phase: group.phase(),
    }
}

/// Writes the members of all groups as plain numbers into `plains`, one item for each group, in their order. `plains` must be
/// empty and have room for them.
pub fn plain_groups(groups: &[Group], plains: &mut Vec<ClosedToken>)
    requires empty { plains.old.items ≡ [] }
    requires capacity { length groups.now ≤ vec_capacity plains.old }
    ensures { plains.new.items ≡ closes.plain_groups groups.now }
{
    for group in groups {
        plains.push_reserved(plain_group(group));
    }
}

/// Writes the words of a closed table into `words`, by tier number. `count` is the number of tiers. `words` must be empty and
/// have room for them.
fn words_of(closed: ClosedTable<Kind, Global>, count: usize, mut words: Vec<Word>) -> Vec<Word>
    requires whole { (slots_len closed.slots ≡ 0) × IsFull closed.words × (slots_len closed.words ≡ count) }
    requires shut { (k : Key) × (l : List Sight) × IsShut k (slots_items closed.words) l × (length k.shape ≡ count) }
    requires empty { words.items ≡ [] }
    requires capacity { count ≤ vec_capacity words }
    ensures { (k : Key) → (l : List Sight) → IsShut k (slots_items closed.words) l → length k.shape ≡ count → IsLeftBy k result.items l }
{
    for tier in 0..count {
        words.push_reserved(Word::unpack(closed.word(tier)).unwrap());
    }
    closed.free();
    words
}

impl Tiers {
    /// Joins the seats of all tokens with another seat, whose knowledge comes last.
    fn gather(&self, mut seat: Seat<Kind, Sights>, mut tokens: Vec<Token>) -> Seat<Kind, Sights>
        requires own { (seat.table_id ≡ self.now.id) × (seat.me.1 ≡ []) }
        requires tokens { All (λ t. (held t).tree ≡ self.now) tokens.items }
        ensures table { (result.table_id ≡ seat.table_id) × (result.me.1 ≡ []) }
        ensures sights { result.me.0 ≡ sights_in tokens.items ++ seat.me.0 }
    {
        while let Some(token) = tokens.pop() {
            let mut next = token.into_seated().into_seat();
            self.table.shared.join_seat::<Joins>(&mut next, seat);
            seat = next;
        }
        seat
    }

    /// Closes the table with the joined seats of all tokens.
    fn shut(self, mut tokens: Vec<Token>) -> ClosedTable<Kind, Global>
        requires tokens { All (λ t. (held t).tree ≡ self) tokens.items }
        ensures empty { (slots_len result.slots ≡ 0) × IsFull result.words }
        ensures words { IsShut self.key (slots_items result.words) (sights_in tokens.items) }
        ensures count { slots_len result.words ≡ length self.key.shape }
    {
        match tokens.pop() {
            None => self.table.close(),
            Some(token) => {
                let seat = self.gather(token.into_seated().into_seat(), tokens);
                self.table.close_with(seat)
            }
        }
    }

    /// Joins the seats of all groups with another seat, whose knowledge comes last.
    fn gather_groups(
        &self,
        mut seat: Seat<Kind, Sights>,
        mut groups: Vec<Group>,
    ) -> Seat<Kind, Sights>
        requires own { (seat.table_id ≡ self.now.id) × (seat.me.1 ≡ []) }
        requires groups { All (λ g. g.tree ≡ self.now) groups.items }
        ensures table { (result.table_id ≡ seat.table_id) × (result.me.1 ≡ []) }
        ensures sights { result.me.0 ≡ sights_together groups.items ++ seat.me.0 }
    {
        while let Some(group) = groups.pop() {
            let mut next = group.into_seat();
            self.table.shared.join_seat::<Joins>(&mut next, seat);
            seat = next;
        }
        seat
    }

    /// Closes the table with the joined seats of all tokens and groups.
    fn shut_all(self, tokens: Vec<Token>, mut groups: Vec<Group>) -> ClosedTable<Kind, Global>
        requires tokens { All (λ t. (held t).tree ≡ self) tokens.items }
        requires groups { All (λ g. g.tree ≡ self) groups.items }
        ensures empty { (slots_len result.slots ≡ 0) × IsFull result.words }
        ensures words { IsShut self.key (slots_items result.words) (sights_in tokens.items ++ sights_together groups.items) }
        ensures count { slots_len result.words ≡ length self.key.shape }
    {
        match groups.pop() {
            None => self.shut(tokens),
            Some(group) => {
                let seat = self.gather_groups(group.into_seat(), groups);
                let seat = self.gather(seat, tokens);
                self.table.close_with(seat)
            }
        }
    }

    /// Closes the tree and writes the words of its tiers into `words`, by tier number. `words` must be empty and have
    /// room for them. Takes no memory.
    pub fn close(self, tokens: Vec<Token>, words: Vec<Word>) -> Vec<Word>
        requires tokens { All (λ t. (held t).tree ≡ self) tokens.items }
        requires empty { words.items ≡ [] }
        requires capacity { length self.key.shape ≤ vec_capacity words }
        ensures tally { TallyWithOthers self.key.shape result.items (views_in tokens.items) }
        ensures left { IsLeftBy self.key result.items (sights_in tokens.items) }
    {
        let count = self.shape().count();
        let closed = self.shut(tokens);
        words_of(closed, count, words)
    }

    /// Closes the tree as [`Tiers::close`] does, and takes groups too.
    pub fn close_all(self, tokens: Vec<Token>, groups: Vec<Group>, words: Vec<Word>) -> Vec<Word>
        requires tokens { All (λ t. (held t).tree ≡ self) tokens.items }
        requires groups { All (λ g. g.tree ≡ self) groups.items }
        requires empty { words.items ≡ [] }
        requires capacity { length self.key.shape ≤ vec_capacity words }
        ensures tally { TallyWithOthers self.key.shape result.items (views_in tokens.items ++ views_together groups.items) }
        ensures left { IsLeftBy self.key result.items (sights_in tokens.items ++ sights_together groups.items) }
    {
        let count = self.shape().count();
        let closed = self.shut_all(tokens, groups);
        words_of(closed, count, words)
    }
}
