//! Tests of jobs that need Rust: deliveries in any order, schedules, workers that come late, and calls that run out of memory.
//! Those that run the program are in `test_program`. What a row can say is in `examples/rows.txt`.
//!
//! * `pool`: jobs on workers; `schedule`: jobs over a tree, step by step; `step`: rounds; `refused`: memory that runs out, and landing;
//!   `errors`: what errors print; `examples`: the examples in docs; `left`: what jobs leave.
#![tactic(auto)]

#[cfg(test)]
mod errors;
#[cfg(test)]
mod examples;
#[cfg(test)]
mod left;
#[cfg(test)]
mod pool;
#[cfg(test)]
mod refused;
#[cfg(test)]
mod schedule;
#[cfg(test)]
mod step;
