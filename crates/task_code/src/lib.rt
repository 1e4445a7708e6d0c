//! The code of the task language: bodies of flat code, their builder and operations, and jobs.
//!
//! # Where things are
//!
//! * `code.rt`: flat code; `builder.rt`: its jumps; `operation.rt`: lines as a segment does them; `body.rt`,
//!   `job.rt`: the types that keep the rules; `names.rt`: names; `mentions.rt`: the locals of lines; `limits.rt`: what the
//!   limits of a body count; `same.rt`: whether lines are the same; `operands.rt` and `specs/Operands.antt`: a line's operands, in code
//!   and in definitions; `Tree.antt`: statements as trees; `Reading.antt`: the tree that a flat code is;
//!   `Operations.antt`: what operations say of lines; `Rules.antt`: what the types of a body and a job keep.
//! * `proofs/Jumps.antt`: where jumps lead; `Said.antt`: operations beside lines.
#![tactic(auto)]

pub mod body;
pub mod builder;
pub mod code;
pub mod job;
mod limits;
mod mentions;
pub mod names;
mod operands;
pub mod operation;
mod same;
