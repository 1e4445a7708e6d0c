//! Tests of the program that need Rust: devices that give or take little or fail, texts that are cut at each byte, help,
//! progress, and what errors print. What a row can say is in `examples/rows.txt`.
//!
//! * `failing`, `interrupted`: devices; `fronts`: texts that are cut; `progress`, `seconds`: progress; `help`, `errors`: texts;
//!   `examples`: the examples in docs; `fakes`, `runs`: what these tests share.
#![tactic(auto)]

#[cfg(test)]
mod errors;
#[cfg(test)]
mod examples;
#[cfg(test)]
mod failing;
#[cfg(test)]
mod fakes;
#[cfg(test)]
mod fronts;
#[cfg(test)]
mod help;
#[cfg(test)]
mod interrupted;
#[cfg(test)]
mod progress;
#[cfg(test)]
mod runs;
#[cfg(test)]
mod seconds;
