//! Laws of a tree of phasers: what the answers of calls say of the one flat phaser that the tree represents, how many
//! steps a call takes, and what its steps do to its token.
//!
//! * [`answers`]: what each answer means, and how many steps a call takes.
//! * [`calls`]: which tokens can begin a call, and what its steps do to its token.
//! * [`holds`]: when the root advances, what keeps it from advancing, and what steps leave unchanged.
//! * [`joins`]: joins that nothing refuses.
//!
//! # Where things are
//!
//! * `answers.rt`: what answers mean and how many steps a call takes; `calls.rt`: who begins a call and what the
//!   steps of each call do to their token; `holds.rt`: when the root advances and what steps and new tokens leave
//!   as it was; `joins.rt`: joins that nothing refuses.
//! * `proofs/Along.antt`: the induction along a call; `Searching.antt` and `Passing.antt`: the turns of a join and
//!   of a step that passes a tier; `Telling.antt`, `Seeking.antt`, `Going.antt`: the answers; `Reached.antt`,
//!   `Driven.antt`: beside the flat phaser that the labels reach; `Once.antt`: what a call counts, places and
//!   notes; `Waiting.antt`: the root before its advance; `Ranks.antt`, `Short.antt`, `Sixteen.antt`: the bound;
//!   `Opens.antt`: joins alone.
#![tactic(auto)]

pub mod answers;
pub mod calls;
pub mod holds;
pub mod joins;
