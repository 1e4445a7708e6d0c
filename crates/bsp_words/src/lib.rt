//! The words of the program's command line: what they ask for, help, and the texts of `explain`. Nothing here is part of
//! Java's API.
//!
//! # Where things are
//!
//! * `words.rt`: what words ask for; `parser.rt`: the subcommands and their options; `asked.rt`: what parsed words ask for;
//!   `clash.rt`: words that ask for too much; `reason.rt`: why words are refused, for people; `help.rt`: the texts of help;
//!   `topics.rt`: the texts of `explain`; `laws.rt`: the laws.
//! * `specs/CommandLine.antt`: words; `Topics.antt`: how the texts of `explain` begin; `Ranges.antt`: the numbers that can be
//!   asked for; `Laws.antt`: words, and what they ask for.
#![tactic(auto)]

mod asked;
mod clash;
mod help;
mod laws;
mod parser;
mod reason;
mod topics;
mod words;

pub use asked::{Asked, Request, Topic};
pub use laws::{
    limits_ask, numbers_ask, other_numbers_are_refused, words_are_refused, words_ask, words_help,
    words_look, words_name_files, words_tell_the_version, workers_ask,
};
pub use parser::version_text;
pub use reason::reason_of;
pub use topics::text_on;
pub use words::parse;
