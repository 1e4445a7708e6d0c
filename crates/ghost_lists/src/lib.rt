//! Lists that exist in contracts alone: what has been handed out, what has been written, and what values were. At run time
//! the first two take atomic steps on one word, and the third does nothing.
//!
//! # Tickets
//!
//! Code that hands something out issues a ticket with it. The list has an entry for each ticket that is out. An entry also
//! keeps what was known when its ticket was issued. A ticket that comes back proves that its entry is in the list, whichever
//! threads it has been on. So what the owner of the list keeps for each entry holds for that one.
//!
//! Entries exist in contracts alone. What runs is one or two atomic steps on a word.
//!
//! # Logs
//!
//! One writer extends a log, and snapshots of it agree with each other. The log takes no memory: it exists in contracts
//! alone. What it gives is agreement. Whoever holds a [`Snapshot`](log::Snapshot) knows what the log was when it was taken,
//! and [`compare`](log::Writer::compare) proves that it is a beginning of what the writer has written since, whichever
//! threads both have been on.
//!
//! # Notes
//!
//! Only proofs read them: what values were that are gone since. They take no memory.
//!
//! Not part of Java's API.
//!
//! # Where things are
//!
//! * `tickets.rt`: the list of tickets; `tickets_rule.rt`: the rule of its one word; `specs/Passed.antt`: what the list knows of
//!   its tickets.
//! * `log.rt`: the log, its writer and its snapshots; `log_rule.rt`: the rule of its one word; `specs/Agreed.antt`: what a
//!   snapshot says of a later one.
//! * `notes.rt`: the notes.
#![tactic(auto)]

pub mod log;
pub mod log_rule;
pub mod notes;
pub mod tickets;
pub mod tickets_rule;
