//! Four threads meet at a tree, which ends with phase 9: thread 0 brings a member in phase 3, thread 1 leaves in phase 5.
//! Then each of four threads takes part for a thousand members, which come and go for a thousand phases.

use phasers::parties::{Parties, PartiesArrived, PartiesLeft};
use phasers::tree::{EndPlan, Party, PhaserTree};
use std::sync::Wait;
use std::thread::{self, Threads};

// Meets the others until the tree ends, and returns the last phase in which this thread took part.
fn last_phase<R: Wait>(rt: &R, (number, mut own): (usize, Party<'_>)) -> u32 {
    let mut other = None;
    for _ in rt.forever() {
        match (number, own.phase()) {
            (0, 3) => other = own.bring(rt, 1).ok(),
            (1, 5) => break,
            _ => {}
        }
        if let Some(party) = &mut other {
            party.arrive(rt);
        }
        if own.meet(rt).is_err() {
            break;
        }
    }
    // Of a tree that has ended, nobody has to leave.
    let last = own.phase();
    own.leave(rt).phase().unwrap_or(last)
}

// In each phase p up to 999, lets p % 5 new members join and arrive, p % 3 of the old ones leave, and the others arrive.
// Then lets all of them leave, and returns how many they were.
fn stands_for<R: Wait>(rt: &R, mut parties: Parties<'_>) -> u32 {
    for _ in rt.forever() {
        let phase = parties.phase();
        if phase >= 1000 {
            break;
        }
        let leaving = (phase % 3).min(parties.size() - 1);
        match parties.arrive_with(rt, phase % 5, leaving) {
            PartiesArrived::Done {
                parties: mut next,
                ..
            } => {
                next.await_advance(rt);
                parties = next;
            }
            PartiesArrived::Full(next, _)
            | PartiesArrived::AlreadyArrived(next, _)
            | PartiesArrived::Ended(next, _) => {
                parties = next;
                break;
            }
        }
    }
    let left = parties.size();
    match parties.leave_all(rt) {
        PartiesLeft::Left { .. } => left,
        PartiesLeft::AlreadyArrived(_, _) | PartiesLeft::Ended(_, _) => 0,
    }
}

/// Runs the threads at the two trees, and prints what they return.
pub(crate) fn run<R: AllocGlobal + Print + Threads + Wait + Sync>(rt: &R) -> anyhow::Result<()> {
    let mut tree = PhaserTree::from_widths(rt.alloc(), "2x2", EndPlan::at_phase(9))?;
    let mut guest = tree.guest();
    let mut parties = Vec::new(rt.alloc());
    for number in 0..4 {
        parties.push((number, guest.split().join(rt, number)?))?;
    }
    let last = thread::map_vec(rt, parties, &|it: (usize, Party<'_>)| last_phase(rt, it))?;
    println!(rt; "{last:?}")?;

    // Each thread ends with 1000 + 2000 - 999 members: in a thousand phases, 2000 join and 999 leave.
    let mut tree = PhaserTree::from_widths(rt.alloc(), "2x2", EndPlan::when_empty())?;
    if let Ok((_guest, thousands)) = tree.with_parties(rt.alloc(), rt, &[1000; 4]) {
        let left = thread::map_vec(
            rt,
            thousands,
            &|parties: Parties<'_>| stands_for(rt, parties),
        )?;
        println!(rt; "{left:?}")?;
    }
    Ok(())
}
