//! A cyclic barrier after Java's `CyclicBarrier`.
//!
//! * [`BarrierCore`]: the barrier with its action, as a value that one thread steps; [`BarrierState`] is the same without
//!   its action.
//! * [`Ledger`]: that state beside the ends of generations that some callers have still to read, as it is under the gate's
//!   lock.
//! * [`CyclicGate`]: the barrier with its action under a lock, at which threads wait; [`GateState`] is the same without its
//!   action.
//!
//! Not part of Java's API: callers are numbers, an action answers true if it fails, and `abandon` and `break_off` are in
//! place of interrupts, timeouts and broken threads.
//!
//! # Where things are
//!
//! * `call.rt`: calls and answers as data; `state.rt` and `barrier.rt`: the barrier as a value; `ledger.rt`: the
//!   ends beside it; `gate_state.rt` and `gate.rt`: the lock; `laws.rt`: the laws.
//! * `proofs/Indexed.antt`: callers with their indices; `Trips.antt`, `Answered.antt`, `Waking.antt` and
//!   `Forgetting.antt`: the laws; `Replay.antt`: that some list of calls leaves the barrier; `Ends.antt`: the ends
//!   that are kept.
#![tactic(auto)]

mod barrier;
mod call;
mod gate;
mod gate_state;
mod laws;
mod ledger;
mod state;

pub use barrier::BarrierCore;
pub use call::{Arrived, AwaitedStep, BarrierFault, Call, MOST_PARTIES};
pub use gate::{CyclicGate, GateFault};
pub use gate_state::GateState;
pub use laws::{
    barriers_are_their_arrivals, ends_move_or_keep, ends_name_the_answered,
    failures_are_as_planned, forgetting_changes_no_answer, generations_follow,
    late_wakers_are_answered, trips_give_each_once,
};
pub use ledger::{KeptEnd, Ledger, Outcome};
pub use state::BarrierState;
