//! The rest of an arrival whose exchange counted a whole group: what its last member owes, and the group as a whole.

ghost use Rattle.std.specs.Prelude.{◌≡◌, IfSome};
ghost use Rattle.advance_rule.specs.Stored.{Answers};
ghost use Rattle.advance_rule.specs.Plan.{end_ends_at};
ghost use Rattle.tier_calls.specs.Finishes.{IsBeside, IsWhole, Finishes};

use crate::arriving::Resumed;
use crate::groups::Group;
use crate::tiers::Tiers;
use crate::tokens::{Crew, Errand};
use advance_rule::StoredAdvance;

/// The answer of [`Tiers::finish`](crate::tiers::Tiers::finish).
pub enum Finished {
    /// Nobody owes anything any more. The group has all its tokens again. Its members arrived in this phase, and the flag
    /// is true if the call itself advanced the tree.
    Done(Group, u32, bool),
    /// The tries ran out again. Everyone waits for the rest, so call `finish` again soon.
    Owing(Errand, Option<Group>),
}

impl Tiers {
    /// Joins a token that has arrived with the others of its group, if there are any. Then looks at the root once for all of
    /// them.
    pub fn whole(&self, crew: Crew, others: Option<Group>) -> Group
        requires own { crew.tree ≡ self.now }
        requires one { crew.view.size ≡ 1 }
        requires beside { IfSome others (IsBeside crew) }
        ensures { IsWhole crew others result }
    {
        let mut group = Group::of(crew);
        match others {
            None => group,
            Some(others) => {
                self.append(&mut group, others);
                group
            }
        }
    }

    /// Resumes an arrival of a whole group that was counted: brings the news to the tiers above, and advances the tree if
    /// nobody else is to arrive. Then joins the token that owed this with the others of its group. Makes at most `tries`
    /// tries.
    pub fn finish<F: Fn(u32, u32) -> bool>(
        &self,
        errand: Errand,
        others: Option<Group>,
        rule: &StoredAdvance<F>,
        tries: u32,
    ) -> Finished
        requires own { errand.token.tree ≡ self.now }
        requires one { errand.token.view.size ≡ 1 }
        requires beside { IfSome others (IsBeside errand.token) }
        requires rule { Answers (F.pre rule.now.closure) (F.post rule.now.closure) (end_ends_at rule.now.plan) }
        requires plan { rule.now.plan ≡ self.now.key.plan }
        ensures { Finishes errand others tries result }
    {
        match self.pass_on(errand, rule, tries) {
            Resumed::Done(crew, phase, led) => Finished::Done(self.whole(crew, others), phase, led),
            Resumed::Left(door, _, _) => {
                // For the prover: a door has no members.
                let _ = door.phase();
                unreachable!()
            }
            Resumed::Owing(errand) => Finished::Owing(errand, others),
        }
    }
}
