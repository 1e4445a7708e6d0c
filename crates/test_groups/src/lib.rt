//! Tests of groups of tokens in the tree on atomic words.
//!
//! * `runs`: runs on one thread, worked out by hand; `begun`, `closed`: trees that begin or are closed with groups; `threads`: eight
//!   threads; `random`, `mirror`: random lists of calls, beside the calls of their members.
//! * `ask`, `calls`, `seats`, `trees`: what these tests share.
//! * `reported`: answers; `numbers`: random numbers; `machine`, `rules`: the tree as a machine, and its rule; `counts`: the words of a
//!   closed tree. `test_phasers` has these from here.
#![tactic(auto)]

#[cfg(test)]
mod ask;
#[cfg(test)]
mod begun;
#[cfg(test)]
mod calls;
#[cfg(test)]
mod closed;
pub mod counts;
pub mod machine;
#[cfg(test)]
mod mirror;
pub mod numbers;
#[cfg(test)]
mod random;
pub mod reported;
pub mod rules;
#[cfg(test)]
mod runs;
pub mod seats;
#[cfg(test)]
mod threads;
#[cfg(test)]
mod trees;
