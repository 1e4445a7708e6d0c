//! Laws on texts of jobs and of traces. Each function does nothing: its contract is the law.
//!
//! * [`canonical`]: the canonical text of a job.
//! * [`laws`]: texts that are a job's: these and no others are read, each as that job.
//! * [`upgrades`]: what is upgraded is read as it was written; texts of format 2, worked out.
//! * [`worked`]: bytes and names in numbers; the order of faults; refusals, worked out.
//! * [`refusals`]: the refusal of a line doesn't depend on what follows it, and the lines above it can be continued to a job.
//! * [`traces`]: heads of traces, advances, how many steps `run` and `do` take; traces, worked out.
//!
//! # Where things are
//!
//! * `proofs/Chain.antt`: lines in turn; `InBody.antt`: a body's lines read back; `Items.antt`: items in turn;
//!   `Whole.antt`: texts; `CanonicalJob.antt`: the canonical text; `Seen.antt`: what a line's fault depends on;
//!   `SeenLines.antt`: that it does; `Folds.antt`: lines up to the first fault; `Closing.antt`: the ends;
//!   `Named.antt` and `Lacking.antt`: the missing bodies; `Held.antt` and `Above.antt`: the laws.
//! * Of traces: `proofs/HeadParts.antt` and `TraceHeads.antt`: heads; `Advances.antt` and `TreeAdvances.antt`: advances;
//!   `EnoughSteps.antt`: how many steps are enough.
#![tactic(auto)]

mod canonical;
mod laws;
mod refusals;
mod traces;
mod upgrades;
mod worked;

pub use canonical::{canonical_texts_are_texts, read_jobs_are_jobs};
pub use laws::{
    canonical_texts_are_read, each_text_is_one_jobs_or_refused, one_job_a_text,
    texts_are_read_as_their_jobs, texts_are_worked_out, texts_of_jobs_are_read,
    writing_twice_is_writing_once,
};
pub use refusals::{
    lines_above_are_read, lines_above_go_on, plain_texts_are_refused_alike,
    refusals_are_of_a_line_or_texts_go_on, refusals_hold_for_all_that_follows,
};
pub use traces::{
    advances_come_first, advances_of_trees_come_first, calls_done_reach_their_answer,
    heads_are_spelled, refused_traces_are_worked_out, runs_reach_their_answer,
    traces_are_worked_out,
};
pub use upgrades::{
    second_format_is_worked_out, upgraded_texts_are_read, upgrading_twice_is_upgrading_once,
};
pub use worked::{
    bytes_are_spelled_out, codes_are_numbered, faults_count_in_order, first_bytes_are_spelled_out,
    names_are_spelled_out, names_are_worked_out, refusals_are_worked_out,
};
