//! The sign that members of the run have advanced the tree.
ghost use Rattle.std.specs.Prelude.{◌≡◌, is_some};
ghost use Rattle.stretch_queue.specs.Signs.{led_by, led_by_leaving};
ghost use Rattle.tier_table.specs.GroupsAtLast.{tokens_arrived};
ghost use Rattle.tier_table.specs.GroupMembersAtLast.{tree_left};

use crate::running::Running;
use std::marker::PhantomData;
use tier_table::group_members::GroupLeft;
use tier_table::groups::GroupArrived;

/// A sign that an arrival or a departure of this run has advanced the tree (own). Only an answer of the tree gives one.
#[derive(Drop)]
pub struct Led<J: Running> {
    of: PhantomData<J>,
}

impl<J: Running> Led<J> {
    /// Returns the sign if an arrival with this answer has advanced the tree.
    pub fn of_arrival(answer: &GroupArrived) -> Option<Led<J>>
        requires { (tokens_arrived answer.now).tree ≡ J.tree }
        ensures { is_some result ≡ led_by answer.now }
    {
        match answer {
            GroupArrived::Done(_, _, led) => sign(*led),
            GroupArrived::Full(_, _)
            | GroupArrived::AlreadyArrived(_, _)
            | GroupArrived::Ended(_, _) => None,
        }
    }

    /// Returns the sign if a departure with this answer has advanced the tree.
    pub fn of_departure(answer: &GroupLeft) -> Option<Led<J>>
        requires { tree_left answer.now ≡ J.tree }
        ensures { is_some result ≡ led_by_leaving answer.now }
    {
        match answer {
            GroupLeft::Left(_, _, led) => sign(*led),
            GroupLeft::AlreadyArrived(_, _) | GroupLeft::Ended(_, _) => None,
        }
    }
}

// Returns the sign, if `led` is true.
fn sign<J: Running>(led: bool) -> Option<Led<J>>
    ensures { is_some result ≡ led }
{
    if led {
        Some(Led { of: PhantomData })
    } else {
        None
    }
}
