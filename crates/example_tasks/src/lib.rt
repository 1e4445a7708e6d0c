//! Tasks, written in Rattle, that the example programs run, on one thread and on workers.
//!
//! # Where things are
//!
//! * `rod.rt`: heat; `queue.rt`: a shop; `search.rt`: a search in a graph; `rank.rt`: ranks; `life.rt`: the rule of the
//!   game of life; `start.rt`: what each run begins with.
#![tactic(auto)]

pub mod life;
pub mod queue;
pub mod rank;
pub mod rod;
pub mod search;
pub mod start;
