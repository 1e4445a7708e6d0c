//! A tree of phasers on atomic words, called from any threads without a lock.
//!
//! * [`tree`]: the tree, and its calls that never wait.
//! * [`waiting`]: its calls that wait, and the same as functions over the tiers and the rule.
//! * [`groups`]: groups of tokens, whose members arrive together, by one exchange of a word.
//! * [`group_members`]: how groups register, grow and leave.
//! * [`beginning`]: a new tree with a group at each of its leaves.
//! * [`closing`]: what is left of a tree that was closed.
//! * [`tokens`]: who calls: doors, without members, and crews, with members.
//! * [`arriving`], [`in_place`], [`joining`], [`polling`], [`forcing`]: the answers of calls by one token;
//!   [`arriving_with`], [`finishing`]: those of calls by a group.
//! * [`TRIES`]: how many tries are always enough for a call that no other thread disturbs.
//!
#![tactic(auto)]

pub mod beginning;
pub mod closing;
pub mod group_members;
pub mod groups;
pub mod tree;
pub mod waiting;

pub use tier_calls::{
    TRIES, arriving, arriving_with, finishing, forcing, in_place, joining, polling, tokens,
};
