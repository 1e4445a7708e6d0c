//! Phasers, trees of phasers and barriers.
//!
//! A program of your own is a crate of this repository, `crates/NAME`. The command `tools/new NAME` makes one, with its line
//! in `crates.txt`; `rt run` in its folder proves it and runs it. None of your functions needs a clause for the calls below,
//! because the types keep what the calls rely on. Only numbers have to be in range: a first phase up to 2147483647, 1 to
//! 65535 members, and for `register` a tier of the shape.
//!
//! # A tree of phasers
//!
//! * [`PhaserTree`](tree::PhaserTree): the tree. It ends as its [`EndPlan`](tree::EndPlan) says: `EndPlan::when_empty()`, or
//!   `EndPlan::at_phase(p)` with the end of phase `p`. Then each call returns `Ended`.
//! * [`Guest`](tree::Guest): a token without members. `split` makes another, one for each thread; `join` registers one
//!   member at the leaf of a number, `register` several at a tier; `await_phase` waits for a phase; `force` ends the tree.
//! * [`Party`](tree::Party): a token with members, all at one tier. `meet` arrives and waits; `arrive` and `await_advance`
//!   are its two halves; `poll` and `try_meet` don't wait. `bring` registers more members, `leave` takes one away.
//!   Registrations and `meet` return a `Result`, whose errors `?` takes; `party.leave(rt).phase()` is the phase in which the
//!   member left.
//! * [`Parties`](parties::Parties): members that arrive together, for a thread that takes part for many.
//!   `PhaserTree::with_parties` registers some at each leaf of a new tree, `Guest::join_all` at one leaf. `meet_all` arrives
//!   with all of them and waits, `arrive_with` also lets new members join and old ones leave, `leave_all` and `leave_some`
//!   let members leave. Each takes one exchange of a word, however many members they are.
//! * [`Seat`](tree::Seat): a place in which one thread leaves a party for another, which runs already and joins late.
//! * [`OnAdvance`](tree::OnAdvance): a hook of your own, which `PhaserTree::with_hook` runs at each advance.
//!
//! `PhaserTree::close` returns the words of the tiers at the end, when all tokens are gone.
//!
//! Two threads meet on a root with two leaves, and add to a sum that they share. The first brings a third one in phase 1. The
//! second leaves in phase 7, the others in phase 10:
//!
//! ```
//! use anyhow::Result;
//! use phasers::tree::{EndPlan, Party, PhaserTree};
//! use std::sync::Wait;
//! use std::sync::atomic::{AtomicU64, Ordering};
//! use std::thread::{self, Threads};
//!
//! // Meets the others until phase `end`, and adds each phase that begins to the sum. Then leaves, and returns the phase in which it left.
//! fn take_part<R: Wait>(rt: &R, sum: &AtomicU64, end: u32, mut party: Party<'_>) -> Result<u32> {
//!     for _ in party.phase()..end {
//!         let phase = party.meet(rt)?;
//!         let _ = sum.fetch_add(u64::from(phase), Ordering::SeqCst);
//!     }
//!     Ok(party.leave(rt).phase()?)
//! }
//!
//! // Meets the others once, and brings another thread in phase 1. Returns the phase in which the last of the two left.
//! fn bring_one<R: Threads + Wait + Sync>(rt: &R, sum: &AtomicU64, mut own: Party<'_>) -> Result<u32> {
//!     let phase = own.meet(rt)?;
//!     let _ = sum.fetch_add(u64::from(phase), Ordering::SeqCst);
//!     let late = own.bring(rt, 1)?;
//!     let other = || take_part(rt, sum, 10, late);
//!     let (a, b) = thread::join(rt, || take_part(rt, sum, 10, own), other);
//!     Ok(a?.max(b?))
//! }
//!
//! fn main(rt: HostRuntime) -> Result<()> {
//!     let mut tree = PhaserTree::from_widths(rt.alloc(), "2", EndPlan::when_empty())?;
//!     let mut guest = tree.guest();
//!     let (long, short) = (guest.split().join(&rt, 0)?, guest.join(&rt, 1)?);
//!     let sum = AtomicU64::new(0);
//!     let other = || take_part(&rt, &sum, 7, short);
//!     let (a, b) = thread::join(&rt, || bring_one(&rt, &sum, long), other);
//!     println!(rt; "{} {} {}", sum.load(Ordering::SeqCst), a?, b?)?;
//!     Ok(())
//! }
//! ```
//!
//! It prints `137 10 7`.
//!
//! Four threads meet on a root with two children that have two leaves each. Thread 0 brings a member in phase 3, thread 1
//! leaves in phase 5, and the plan ends the tree. Then each of four threads takes part for a thousand members, which come
//! and go for a thousand phases:
//!
//! ```
//! use phasers::parties::{Parties, PartiesArrived, PartiesLeft};
//! use phasers::tree::{EndPlan, Party, PhaserTree};
//! use std::sync::Wait;
//! use std::thread::{self, Threads};
//!
//! // Meets the others until the tree ends, and returns the last phase in which this thread took part.
//! fn last_phase<R: Wait>(rt: &R, (number, mut own): (usize, Party<'_>)) -> u32 {
//!     let mut other = None;
//!     for _ in rt.forever() {
//!         match (number, own.phase()) {
//!             (0, 3) => other = own.bring(rt, 1).ok(),
//!             (1, 5) => break,
//!             _ => {}
//!         }
//!         if let Some(party) = &mut other {
//!             party.arrive(rt);
//!         }
//!         if own.meet(rt).is_err() {
//!             break;
//!         }
//!     }
//!     // Of a tree that has ended, nobody has to leave.
//!     let last = own.phase();
//!     own.leave(rt).phase().unwrap_or(last)
//! }
//!
//! // In each phase p up to 999, lets p % 5 new members join and arrive, p % 3 of the old ones leave, and the others arrive.
//! // Then lets all of them leave, and returns how many they were.
//! fn stands_for<R: Wait>(rt: &R, mut parties: Parties<'_>) -> u32 {
//!     for _ in rt.forever() {
//!         let phase = parties.phase();
//!         if phase >= 1000 {
//!             break;
//!         }
//!         let leaving = (phase % 3).min(parties.size() - 1);
//!         match parties.arrive_with(rt, phase % 5, leaving) {
//!             PartiesArrived::Done {
//!                 parties: mut next,
//!                 ..
//!             } => {
//!                 next.await_advance(rt);
//!                 parties = next;
//!             }
//!             PartiesArrived::Full(next, _)
//!             | PartiesArrived::AlreadyArrived(next, _)
//!             | PartiesArrived::Ended(next, _) => {
//!                 parties = next;
//!                 break;
//!             }
//!         }
//!     }
//!     let left = parties.size();
//!     match parties.leave_all(rt) {
//!         PartiesLeft::Left { .. } => left,
//!         PartiesLeft::AlreadyArrived(_, _) | PartiesLeft::Ended(_, _) => 0,
//!     }
//! }
//!
//! /// Runs the threads at the two trees, and prints what they return.
//! pub(crate) fn run<R: AllocGlobal + Print + Threads + Wait + Sync>(rt: &R) -> anyhow::Result<()> {
//!     let mut tree = PhaserTree::from_widths(rt.alloc(), "2x2", EndPlan::at_phase(9))?;
//!     let mut guest = tree.guest();
//!     let mut parties = Vec::new(rt.alloc());
//!     for number in 0..4 {
//!         parties.push((number, guest.split().join(rt, number)?))?;
//!     }
//!     let last = thread::map_vec(rt, parties, &|it: (usize, Party<'_>)| last_phase(rt, it))?;
//!     println!(rt; "{last:?}")?;
//!
//!     // Each thread ends with 1000 + 2000 - 999 members: in a thousand phases, 2000 join and 999 leave.
//!     let mut tree = PhaserTree::from_widths(rt.alloc(), "2x2", EndPlan::when_empty())?;
//!     if let Ok((_guest, thousands)) = tree.with_parties(rt.alloc(), rt, &[1000; 4]) {
//!         let left = thread::map_vec(
//!             rt,
//!             thousands,
//!             &|parties: Parties<'_>| stands_for(rt, parties),
//!         )?;
//!         println!(rt; "{left:?}")?;
//!     }
//!     Ok(())
//! }
//! ```
//!
//! It prints `[9, 5, 9, 9]` and `[2001, 2001, 2001, 2001]`.
//!
//! Register all who meet in phase 0 before the first thread starts: who joins later joins the phase that runs then.
//!
//! # A barrier
//!
//! * [`Barrier`](barrier::Barrier): `await_turn` waits until all parties have arrived. Each thread calls it with a
//!   different number. `break_off`, `abandon` and `reset` break the barrier or start it again.
//! * [`Action`](barrier::Action): what the last caller of a generation runs, before any caller passes.
//!   [`NoAction`](barrier::NoAction) does nothing.
//!
//! Three threads meet twenty times:
//!
//! ```
//! use phasers::barrier::{Action, Barrier, GateFault};
//! use std::sync::Wait;
//! use std::sync::atomic::{AtomicU64, Ordering};
//! use std::thread::{self, Threads};
//!
//! #[derive(Drop)]
//! struct Counting<'a>(&'a AtomicU64);
//!
//! impl Action for Counting<'_> {
//!     fn run(&self, _generation: u64) {
//!         self.0.fetch_add(1, Ordering::SeqCst);
//!     }
//! }
//!
//! // Meets the others twenty times, and returns the sum of the arrival indices.
//! fn turns<R: Wait, A: Action>(rt: &R, barrier: &Barrier<A>, caller: u32) -> Result<u64, GateFault> {
//!     let mut sum = 0u64;
//!     for _ in 0..20 {
//!         match barrier.await_turn(rt, caller) {
//!             Ok(index) => sum = sum.saturating_add(u64::from(index)),
//!             Err(fault) => {
//!                 // The others would wait for this thread.
//!                 barrier.break_off(rt);
//!                 return Err(fault);
//!             }
//!         }
//!     }
//!     Ok(sum)
//! }
//!
//! /// Runs the threads at the barrier, and prints what they return.
//! pub(crate) fn run<R: AllocGlobal + Print + Threads + Wait + Sync>(rt: &R) -> anyhow::Result<()> {
//!     let count = AtomicU64::new(0);
//!     let barrier = Barrier::new(rt.alloc(), 3, Counting(&count))?;
//!     let sums = thread::map_indices(rt, rt.alloc(), 3, &|i: usize| turns(rt, &barrier, i as u32))?;
//!     let mut all = 0u64;
//!     for sum in sums {
//!         all = all.saturating_add(sum?);
//!     }
//!     println!(rt; "{all} {}", count.load(Ordering::SeqCst))?;
//!     Ok(())
//! }
//! ```
//!
//! It prints `60 20`: in each generation the three indices 0, 1 and 2, and one call of the action.
//!
//! # What a thread that passes may rely on
//!
//! A thread that sees an advance (`Passed`, or a turn at a barrier) sees all that each member's thread wrote before its
//! arrival in that phase, and all that the hook or the action wrote. That is due to the order of atomic operations and of
//! locks; no contract says it.
//!
//! What the calls return is proved. That a call returns at all is not: it waits for ever if the others never arrive.
//!
//! # What deadlocks
//!
//! * A thread with an unarrived member that registers another one by `join` or `register` at another tier: if all
//!   parties there have arrived, the call waits for the next phase, which waits for this thread. Use `bring`, which stays
//!   at one tier.
//! * A thread that waits, with an unarrived member, until another thread has joined by `join` or `register`: the same may
//!   happen to the other. Bring a party by `bring`, and start the other thread with it, or hand it to a thread that runs by a
//!   [`Seat`](tree::Seat). A thread that waits for nobody may join at any time, after `await_phase` too: it then joins the
//!   phase that runs.
//! * A thread that waits for a party in a seat in which nobody leaves one: call `close` if none comes.
//! * A thread that waits for a phase by `await_phase` while it has an unarrived member: the phase waits for the thread.
//! * A thread that gives up without a word. A party that is dropped stays registered, and the others wait for it: call
//!   `leave` first, or `force` the tree to end. At a barrier, call `break_off`.
//! * A hook that calls its tree, or an action that calls its barrier.
//!
//! # What is in it
//!
//! * [`tree`]: the types above; their answers, [`Departed`](tree::Departed), [`Met`](tree::Met),
//!   [`Settled`](tree::Settled), [`ArrivedInPlace`](tree::ArrivedInPlace), [`Polled`](tree::Polled),
//!   [`AwaitedAdvance`](tree::AwaitedAdvance) and [`Forced`](tree::Forced), and errors, [`JoinError`](tree::JoinError),
//!   [`BringError`](tree::BringError), [`MeetError`](tree::MeetError) and [`TreeEnded`](tree::TreeEnded);
//!   [`Shape`](tree::Shape), which tier is whose parent; [`Tree`](tree::Tree), the same tree with a closure that ends it and calls that never wait;
//!   [`Core`](tree::Core), the tree as a value, one step at a time.
//! * [`barrier`]: the types above; [`CyclicGate`](barrier::CyclicGate), the same barrier with a closure that may fail;
//!   [`BarrierCore`](barrier::BarrierCore), the barrier as a value.
//! * [`phaser`]: [`PhaserOne`](phaser::PhaserOne), a single phaser as a value, with [`StoredCount`](phaser::StoredCount), the
//!   closure that ends it.
//!
//! The files: `tree`, `parties`, `seat`, `barrier` and `phaser` have the types above, `answers` what calls of a tree answer;
//! `late` has guests that wait for a phase, `limited` calls that wait for some time, `snapshot` the words of all tiers, `trying`
//! meetings that don't wait, `beside` and `shared` what several of these call.
//!
//! Your contracts may cite the definitions that the calls use. There, a `Guest` or a `Party` is a `Holding`, like the token
//! inside it, and a `PhaserTree` is its first token, off which `guest` splits others.
#![tactic(auto)]

mod answers;
pub mod barrier;
mod beside;
mod late;
mod limited;
pub mod parties;
pub mod phaser;
mod seat;
mod shared;
mod snapshot;
pub mod tree;
mod trying;
