//! The program's command line: what each subcommand does. What words ask for is in `bsp_words`. Nothing here is part of Java's
//! API.
//!
//! # Where things are
//!
//! * `trace.rt`, `job.rt`, `stream.rt` and `explain.rt`: the subcommands; `progress.rt`: progress while a job runs, and how it
//!   ended; `why.rt`: the reasons for people; `fault.rt`: the line on standard error; `command_line.rt`: the whole;
//!   `program.rt`: from the system's words; `laws.rt`: the laws.
//! * `specs/Answers.antt`: what words lead to; `Did.antt`: what a status means.
#![tactic(auto)]

mod command_line;
mod explain;
mod fault;
mod job;
mod laws;
mod program;
mod progress;
mod stream;
mod trace;
mod why;

pub use bsp_words::{Asked, Topic};
pub use command_line::{file_named, run, run_telling};
pub use fault::RunFault;
pub use job::{draw_bytes, run_bytes, run_json_bytes};
pub use laws::lines_are_worked_out;
pub use program::run_program;
pub use progress::{NoProgress, ObserveEnd, Progress, Seen, Teller};
pub use stream::stream_bytes;

/// Statuses that the program ends with. 0 means success.
pub mod status {
    /// A task faulted, or too many would have lived; the report is printed.
    pub const TASK_FAULT: u8 = 2;
    /// The limit of supersteps was reached with live tasks; the report is printed.
    pub const LIMIT_REACHED: u8 = 3;
    /// The text is refused.
    pub const TEXT_REFUSED: u8 = 4;
    /// The command line is refused.
    pub const COMMAND_LINE_REFUSED: u8 = 5;
    /// An allocation failed.
    pub const OUT_OF_MEMORY: u8 = 6;
    /// A worker couldn't be started.
    pub const NOT_STARTED: u8 = 7;
    /// A read or a write failed.
    pub const DEVICE_FAILED: u8 = 8;
    /// A bug: workers met a refusal that can't occur.
    pub const INTERNAL: u8 = 9;
}
