//! Tasks that run bodies written in Rattle: first `alone`, on one thread, with `exact`, a body whose meaning is written down; then
//! `workers`, on worker threads, with `hooks`. With a word on its command line the program runs only `alone`.
#![tactic(auto)]

mod alone;
mod exact;
mod hooks;
mod workers;

use std::env;

fn main(rt: HostRuntime) -> anyhow::Result<()> {
    let words = env::args(&rt)?;
    alone::run(&rt)?;
    if words.len() < 2 {
        workers::run(&rt)?;
    }
    Ok(())
}
