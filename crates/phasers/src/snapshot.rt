//! Which tiers a tree waits for: the words of all tiers, one look each.

ghost use Rattle.std.specs.Prelude.{◌≡◌, ◌<◌, ◌≤◌, [], length, vec_capacity, IfErr, IfOk};
ghost use Rattle.tier_steps.specs.Tally.{word_at};
ghost use Rattle.tier_calls.specs.Holding.{split_once};
ghost use Rattle.phasers.specs.Snapshots.{FindsAll, FindsWords, unarrived_at};

use crate::shared::{OnAdvance, SharedTree};
use crate::tree::{Guest, Party, PhaserTree, Word};
use std::alloc::{AllocError, Global};
use std::fmt;
use std::marker::Model;
use tier_calls::tokens::Door;

/// The words of a tree's tiers, by tier number, as one look at each has found them. Threads may change words meanwhile, so they
/// aren't those of one moment: each was its tier's at some moment of the call.
///
/// ```
/// let plan = EndPlan::when_empty();
/// let mut tree = PhaserTree::from_widths(rt.alloc(), "2", plan).expect(&rt, "a tree");
/// let mut guest = tree.guest();
/// let mut party = guest.split().join(&rt, 0).expect(&rt, "the leaf has room");
/// let _late = guest.join(&rt, 1).expect(&rt, "the leaf has room");
/// party.arrive(&rt);
/// let snapshot = party.snapshot(rt.alloc()).expect(&rt, "memory");
/// assert!(rt; snapshot.words().len() == 3);
/// assert!(rt; snapshot.unarrived(1) == 0 && snapshot.unarrived(2) == 1);
/// ```
#[derive(Drop)]
pub struct Snapshot {
    words: Vec<Word>,
}

impl Model for Snapshot {
    ghost use Rattle.std.specs.Prelude.{◌<◌, List, length};
    ghost use Rattle.phaser_word.specs.Fields.{Fields};

    ghost Value = { List Fields };

    ghost view = { λ s. s.words.items };

    ghost invariant = { λ s. 0 < length s.words.items };
}

// Returns how many parties of a tier with this word have not arrived in the root's phase.
fn unarrived_of(root: Word, word: Word) -> u32
    ensures { result ≡ unarrived_at root word }
{
    if word.parties == 0 {
        return 0;
    }
    if word.unarrived == 0 && word.phase != root.phase {
        return word.parties;
    }
    word.unarrived
}

impl Snapshot {
    /// Returns the words of the tiers, by tier number.
    pub fn words(&self) -> &[Word]
        ensures { result.now ≡ self.now }
    {
        &self.words
    }

    /// Returns how many parties are registered at `tier`: members, and tiers below it that have parties.
    pub fn parties(&self, tier: u16) -> u32
        requires { tier < length self.now }
        ensures { result ≡ (word_at self.now tier).parties }
    {
        self.words[usize::from(tier)].parties
    }

    /// Returns how many parties of `tier` have not arrived. A tier whose members haven't seen the root's phase yet counts
    /// all.
    pub fn unarrived(&self, tier: u16) -> u32
        requires { tier < length self.now }
        ensures { result ≡ unarrived_at (word_at self.now 0) (word_at self.now tier) }
    {
        unarrived_of(self.words[0], self.words[usize::from(tier)])
    }
}

/// Prints a line for each tier that the tree waits for: `tier 3: 1 of 4 hasn't arrived`.
impl fmt::Display for Snapshot {
    fn fmt<W: fmt::Write>(&self, f: &mut fmt::Formatter<W>) -> fmt::Result {
        for (tier, word) in self.words.iter().enumerate() {
            let unarrived = unarrived_of(self.words[0], *word);
            if unarrived == 1 {
                write!(f, "tier {tier}: 1 of {} hasn't arrived\n", word.parties)?;
            } else if unarrived > 0 {
                write!(
                    f,
                    "tier {tier}: {unarrived} of {} haven't arrived\n",
                    word.parties
                )?;
            }
        }
        Ok(())
    }
}

// Reads the words of all tiers into `words` by a token of its own.
fn snapshot_by<A: OnAdvance>(shared: &SharedTree<A>, mut door: Door, words: Vec<Word>) -> Snapshot
    requires own { door.tree ≡ shared.now }
    requires empty { words.items ≡ [] }
    requires capacity { length shared.now.key.shape ≤ vec_capacity words }
    ensures { FindsWords door result }
{
    // For the prover: a tree has a root.
    let _ = shared.tiers.shape();
    let words = shared.tiers.read_words(&mut door, words);
    Snapshot { words }
}

impl<'a, A: OnAdvance> Guest<'a, A> {
    /// Looks at each tier once, by a token that is split off this one, and returns the words. Fails if memory runs out, and leaves
    /// the guest as it was.
    pub fn snapshot(&mut self, alloc: Global) -> Result<Snapshot, AllocError>
        ensures words { IfOk result (λ words. FindsAll self.old.tree words) }
        ensures same { IfOk result (λ words. self.new ≡ split_once self.old) }
        ensures refused { IfErr result (λ fault. self.new ≡ self.old) }
    {
        let shared = self.shared;
        let words = Vec::with_capacity(alloc, shared.tiers.shape().count())?;
        let door = shared.tiers.open_door(&mut self.door);
        Ok(snapshot_by(shared, door, words))
    }
}

impl<'a, A: OnAdvance> Party<'a, A> {
    /// Looks at each tier once, by a token that is split off this one, and returns the words: for a party that waits in vain, to see
    /// who has not arrived. Fails if memory runs out, and leaves the party as it was.
    pub fn snapshot(&mut self, alloc: Global) -> Result<Snapshot, AllocError>
        ensures words { IfOk result (λ words. FindsAll self.old.tree words) }
        ensures same { IfOk result (λ words. self.new ≡ split_once self.old) }
        ensures refused { IfErr result (λ fault. self.new ≡ self.old) }
    {
        let shared = self.shared;
        let words = Vec::with_capacity(alloc, shared.tiers.shape().count())?;
        let door = shared.tiers.open_beside(&mut self.crew);
        Ok(snapshot_by(shared, door, words))
    }
}

impl<A: OnAdvance> PhaserTree<A> {
    /// Looks at each tier once, by a token that is split off the tree's first one, and returns the words. Fails if memory runs out,
    /// and leaves the tree as it was.
    pub fn snapshot(&mut self, alloc: Global) -> Result<Snapshot, AllocError>
        ensures words { IfOk result (λ words. FindsAll self.old.tree words) }
        ensures same { IfOk result (λ words. self.new ≡ split_once self.old) }
        ensures refused { IfErr result (λ fault. self.new ≡ self.old) }
    {
        let words = Vec::with_capacity(alloc, self.shape().count())?;
        let PhaserTree { shared, first } = self;
        let door = shared.tiers.open_door(first);
        Ok(snapshot_by(shared, door, words))
    }
}
