//! Threads meet at a tree of phasers and add to a sum. One joins later, and one leaves early.
#![tactic(auto)]

use anyhow::Result;
use phasers::tree::{EndPlan, Party, PhaserTree};
use std::sync::Wait;
use std::sync::atomic::{AtomicU64, Ordering};
use std::thread::{self, Threads};

// Meets the others until phase `end`, and adds each phase that begins to the sum. Then leaves, and returns the phase in which it left.
fn take_part<R: Wait>(rt: &R, sum: &AtomicU64, end: u32, mut party: Party<'_>) -> Result<u32> {
    for _ in party.phase()..end {
        let phase = party.meet(rt)?;
        let _ = sum.fetch_add(u64::from(phase), Ordering::SeqCst);
    }
    Ok(party.leave(rt).phase()?)
}

// Meets the others once, and brings another thread in phase 1. Returns the phase in which the last of the two left.
fn bring_one<R: Threads + Wait + Sync>(rt: &R, sum: &AtomicU64, mut own: Party<'_>) -> Result<u32> {
    let phase = own.meet(rt)?;
    let _ = sum.fetch_add(u64::from(phase), Ordering::SeqCst);
    let late = own.bring(rt, 1)?;
    let other = || take_part(rt, sum, 10, late);
    let (a, b) = thread::join(rt, || take_part(rt, sum, 10, own), other);
    Ok(a?.max(b?))
}

fn main(rt: HostRuntime) -> Result<()> {
    let mut tree = PhaserTree::from_widths(rt.alloc(), "2", EndPlan::when_empty())?;
    let mut guest = tree.guest();
    let (long, short) = (guest.split().join(&rt, 0)?, guest.join(&rt, 1)?);
    let sum = AtomicU64::new(0);
    let other = || take_part(&rt, &sum, 7, short);
    let (a, b) = thread::join(&rt, || bring_one(&rt, &sum, long), other);
    println!(rt; "{} {} {}", sum.load(Ordering::SeqCst), a?, b?)?;
    Ok(())
}
