//! Tasks that run a body written in Rattle.
//!
//! # Where things are
//!
//! * `body.rt`: what you write; `run.rt`: runs; `kernel.rt`: bodies that are a closure, with `cells.rt` and `grid.rt`;
//!   `member.rt`: tasks; `native.rt`: the program of a body; `framing.rt`: how what a body wrote joins what others wrote;
//!   `laws.rt`: laws.
//! * `specs/Bodies.antt`: what bodies leave; `Kernels.antt`, `Cells.antt`, `Board.antt`: what kernels leave;
//!   `Settled.antt`: how both join; `Worked.antt`: cases worked out by hand.
#![tactic(auto)]

pub mod body;
mod cells;
mod framing;
mod grid;
pub mod kernel;
pub mod laws;
pub mod member;
mod native;
pub mod run;

pub use native::Native;
pub use programs::watch::{NoWatch, Watch};
