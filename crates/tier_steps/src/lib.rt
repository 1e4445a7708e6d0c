//! The steps of a tree of phasers.
//!
//! A tree has one word for each tier and one view for each token. A step changes at most one word, and the view of the
//! token that takes it. Registering, arriving, leaving, advancing and ending by force are those of Java SE 21's
//! `Phaser`. Tokens and steps are not part of Java's API.
//!
//! * [`view`] and [`kind`]: what a token knows and owes, and the kinds of step, as plain data.
//! * [`step`]: what each kind of step does to a word and to a view.
//! * [`laws`]: each kind of step keeps the tally of words and views, and is a step of one flat phaser over all
//!   members of all tokens.
//!
//! # Where things are
//!
//! * `view.rt`, `kind.rt`: the data; `step.rt`: the Rust twins of the steps; `laws.rt`: the laws.
//! * `proofs/Balance.antt` and `Keeping.antt`: the tally after a step; `Advance.antt`: the root's advance;
//!   `FlatLaw.antt`: the labels.
#![tactic(auto)]

pub mod kind;
pub mod laws;
pub mod step;
pub mod view;
