//! A tree of phasers as a pure machine: tokens begin calls, and each call is taken one step at a time.
//!
//! The calls are those of Java SE 21's `Phaser`. Tokens, steps and polls are not part of Java's API.
//!
//! * [`call`]: the calls, what they answer, and how far a call has come.
//! * [`turn`]: the next step of a call, and what it answers.
//! * [`tree`]: the tree itself, with its tokens and the calls that they are in.
//! * [`turn_laws`]: the tree is one flat phaser, whatever steps are taken in whatever order.
//!
//! # Where things are
//!
//! * `call.rt`, `turn.rt`: calls as steps; `tree.rt`: the machine `Core`; `turn_laws.rt`: the laws.
//! * `proofs/Turns.antt`: that turns are steps, each known by one word; `Runs.antt`: that the tree is flat.
#![tactic(auto)]

pub mod call;
pub mod tree;
pub mod turn;
pub mod turn_laws;
