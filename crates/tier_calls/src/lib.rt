//! The tiers of a tree of phasers as atomic words, the tokens that call it, and each call as its steps.
//!
//! The calls are those of Java SE 21's `Phaser`. Tokens, tries and polls are not part of Java's API.
//!
//! # Tokens
//!
//! A thread calls a tree by a token. A [`Door`](tokens::Door) has no members and can register some. A
//! [`Crew`](tokens::Crew) has members, all at one tier, which arrive and leave one at a time. A new tree comes
//! with one token, and every other token is split off one that the tree already has. These are the tokens of the
//! tree, and a call takes only tokens of the tree that it is made on.
//!
//! # Tries
//!
//! A try is one compare-and-swap of the word of one tier, won or lost. `tries` is the most that a call makes. No
//! call waits for another thread. If the tries run out before the call has its answer, it returns one of these:
//!
//! * `Busy`: the call has counted nothing and claimed nothing. Make it again, best after other threads have run.
//! * `Owing`: the call has counted a member or claimed a tier, and other threads may wait for the rest. Resume it
//!   soon.
//!
//! 16 tries ([`TRIES`]) are enough if no other token takes a step meanwhile, because no call has more than 16 steps (law
//! `calls_are_short` counts them: a registration has at most 14, an arrival or a departure at most 15). So 16 is
//! the right number for most callers. More tries help only if other threads often change the same words, and
//! fewer return earlier. With 0 tries a call only looks at the tree.
//!
//! # Who advances the tree
//!
//! The last party to arrive takes the advance within its call. The answers `Done` and `Left` say so by a flag, `led`:
//! it is true if this call, or the one that resumed it, took the advance.
//!
//! # Where things are
//!
//! * `tokens.rt`: the tokens; `seen.rt`: words as the numbers in the table, which a step unpacks only in part;
//!   `tiers.rt`: single loads and exchanges; `going.rt`: calls that go on; `stepping.rt`: the steps of arrivals and
//!   departures, by kind; `writing.rt`: what a step writes into a view; `arriving.rt`, `in_place.rt` (an arrival whose
//!   crew isn't moved), `joining.rt`, `beside.rt` (`join_here`), `polling.rt`, `looking.rt`, `reading.rt`,
//!   `forcing.rt`, `closing.rt`: the calls;
//!   `next.rt`: which tier a call looks for; `seated.rt`: a token's seat.
//! * `groups.rt`: groups, their arrivals and polls, how they split and go together; `kept.rt`: from what an exchange by all
//!   tokens begins; `arriving_with.rt`: an arrival with which others join and leave, and the new tokens for it;
//!   `joining_all.rt`: registrations beside a group; `registering_all.rt`: those of a new group at any tier;
//!   `leaving_all.rt`: all departures; `finishing.rt`: the rest of an arrival that was counted, and the group as a whole.
//! * `proofs/Seating.antt`: a token's seat; `Turning.antt` and `Running.antt`: the loop; `Tries.antt`: those steps;
//!   `Settling.antt`, `Staying.antt`, `Coming.antt`, `Waits.antt`: the answers; `Sitting.antt` and `Pairing.antt`:
//!   new seats, and two that look at once; `StayingHere.antt` and `Greeting.antt`: a door beside a crew;
//!   `Making.antt`, `Entering.antt` and `Breaking.antt`: which kinds of step a call takes (`specs/Made.antt`);
//!   `Gathering.antt`: the end; `Ending.antt`: the end that was seen.
//! * `proofs/Grouping.antt`: a group's seat; `Arrivals.antt`, `LastOnes.antt`, `LeavingAll.antt`, `Exchanging.antt`: their
//!   exchanges; `ExchangeTry.antt`, `JoiningTry.antt`: one try of these; `ArrivingAll.antt`, `ExchangeTries.antt`,
//!   `JoiningTries.antt`, `LeavingTries.antt`: what each token did; `Keeping.antt`, `KeepingLeaving.antt`,
//!   `KeepingWith.antt`: exchanges from a word that a group has kept; `Splitting.antt`, `Few.antt`, `Settled.antt`: groups
//!   that split and go together; `CatchingUp.antt`: the tier after a poll; `Registering.antt`: a new group.
#![tactic(auto)]

pub mod arriving;
pub mod arriving_with;
mod beside;
pub mod closing;
pub mod finishing;
pub mod forcing;
mod going;
pub mod groups;
pub mod in_place;
pub mod joining;
pub mod joining_all;
mod kept;
pub mod leaving_all;
mod looking;
mod next;
pub mod polling;
pub mod reading;
pub mod registering_all;
mod seated;
mod seen;
mod stepping;
pub mod tiers;
pub mod tokens;
mod writing;

pub use sleepers::{Limited, Patience, TimedOut, Unlimited};

/// The number of tries that is enough for every call if no other token takes a step meanwhile.
pub const TRIES: u32 = 16;
