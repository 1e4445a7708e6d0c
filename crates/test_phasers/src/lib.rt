//! Tests of phasers, trees and barriers that need Rust: what a row can say is in `examples/rows.txt`.
//!
//! * `parties`, `leaving`, `hooked`, `limited`, `seats`: the calls of `phasers`; `sleeping`: who wakes threads that wait; `barrier`: the
//!   barrier; `closures`, `written`: closures at advances.
//! * `table`: runs on one thread, worked out by hand; `lists`: random lists of calls, beside the machine; `shared`: threads.
//! * `makers`: words and shapes; `examples`: the examples in docs; `calls`, `trees`: what these tests share.
#![tactic(auto)]

#[cfg(test)]
mod barrier;
pub mod calls;
#[cfg(test)]
mod closures;
#[cfg(test)]
mod examples;
#[cfg(test)]
mod hooked;
#[cfg(test)]
mod leaving;
#[cfg(test)]
mod limited;
#[cfg(test)]
mod lists;
#[cfg(test)]
mod makers;
#[cfg(test)]
mod parties;
#[cfg(test)]
mod seats;
#[cfg(test)]
mod shared;
#[cfg(test)]
mod sleeping;
#[cfg(test)]
mod table;
#[cfg(test)]
mod trees;
#[cfg(test)]
mod written;
