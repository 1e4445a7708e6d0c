//! Traces of phasers, trees of phasers and barriers: calls as lines of text in, answers as lines of text out.
//!
//! # Where things are
//!
//! * `words.rt`, `tree_words.rt`, `barrier_words.rt` and `head.rt`: one line; `faulty.rt`: the number at fault of a line;
//!   `command.rt`: what all kinds of command have in common; `trace.rt`: a text; `fault.rt`: why it wasn't run to its end.
//! * `print.rt`, `tree_print.rt` and `barrier_print.rt`: answers as lines; `tree.rt` and `barrier.rt`: commands done on a tree
//!   and on a barrier; `run.rt`: the run; `laws.rt`: the laws.
//! * `proofs/CommandRuns.antt`: a run that is written in part.
#![tactic(auto)]

mod barrier;
mod barrier_print;
mod barrier_words;
mod command;
mod fault;
mod faulty;
mod head;
mod laws;
mod print;
mod run;
mod trace;
mod tree;
mod tree_print;
mod tree_words;
mod words;

pub use barrier_words::{BarrierCommand, BarrierHead};
pub use fault::TraceFault;
pub use faulty::faulty_number;
pub use head::Head;
pub use laws::{
    commands_are_spelled, faults_of_lines_come_first, faulty_numbers_are_worked_out,
    lines_say_what_is_asked, number_faults_are_found,
};
pub use run::run_trace;
pub use text_lines::{Code, Refusal};
pub use tree_words::{TokenCall, TreeCommand, TreeHead};
pub use words::{PhaserCommand, PhaserHead};
