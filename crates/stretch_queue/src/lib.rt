//! What workers share of a run, without threads: the stretches of its tasks, which of them are ready, and the members of the tree that
//! arrive for their tasks. `worker_pool` runs workers on it.
//!
//! * `queue`: all that is shared. `running`: what names a run in contracts.
//! * `inbox`: the stretches that a worker is to run; `outbox`: those that it has run, until the superstep is closed.
//! * `hand`: a stretch while a worker holds it. `tokens`: the members that arrive for its tasks; `members`: those of all stretches
//!   that no worker holds; `moves`: how many tasks came and left. `led`: the sign that members have advanced the tree.
//! * `hook`: what closes supersteps; `watched`: a hook with a watcher. `hooks`: what a caller hooks into segments and starts.
//!   `fault`: why a run leaves nothing.
//! * `specs/Watched.antt`: what a run leaves; `QueueValue.antt`: what always holds for the queue.
#![tactic(auto)]

pub mod fault;
pub mod hand;
pub mod hook;
pub mod hooks;
pub mod inbox;
pub mod led;
pub mod members;
pub mod moves;
pub mod outbox;
pub mod queue;
pub mod running;
pub mod tokens;
pub mod watched;
