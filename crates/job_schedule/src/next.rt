//! The next participants, in path order.
ghost use Rattle.std.specs.Prelude.{◌≡◌, ◌≤◌, ◌++◌, [], OnOk, IfOk, map, length, reverse};
ghost use Rattle.std.specs.List.{insert};
ghost use Rattle.superstep_memory.specs.PathOrder.{put_in, put_all, in_path_order};
ghost use Rattle.job_schedule.specs.ParticipantValue.{ParticipantValue, participant_path, own_participant, child_participant, living_participants, next_participants, freed};

use crate::participant::{Child, Participant};
use std::alloc::{AllocError, Global};
use superstep_memory::path::is_before;

// The next participants are collected with the last by path first. They come from the last participant to the first, so that each
// passes only those that its path begins.

// Returns the place at which to insert a participant with this path.
fn place_for(living: &[Participant], path: &[u16]) -> usize
    ensures place { (g : ParticipantValue) → g.path ≡ path.now
        → insert living.now result g ≡ reverse (put_in participant_path g (reverse living.now)) }
    ensures within { result ≤ length living.now }
{
    let mut rest = living;
    while let Some((last, before)) = rest.split_last() {
        if !is_before(last.path.as_slice(), path) {
            break;
        }
        rest = before;
    }
    rest.len()
}

// Inserts a participant at its place.
fn put_participant(
    living: &mut Vec<Participant>,
    participant: Participant,
) -> Result<(), AllocError>
    ensures { OnOk result (living.new.items ≡ reverse (put_in participant_path participant (reverse living.old.items))) }
{
    let place = place_for(living, participant.path.as_slice());
    match living.insert(place, participant) {
        Ok(()) => Ok(()),
        Err(_) => Err(AllocError),
    }
}

// Inserts the participants of spawned tasks at their places.
fn put_children(
    alloc: Global,
    living: &mut Vec<Participant>,
    children: Vec<Child>,
) -> Result<(), AllocError>
    ensures { OnOk result (living.new.items ≡ reverse (put_all participant_path (map child_participant children.items) (reverse living.old.items))) }
{
    let mut rest = children;
    while let Some(child) = rest.pop() {
        put_participant(living, child.into_participant(alloc))?;
    }
    Ok(())
}

// Inserts the participants that a task leaves: its spawned tasks, and itself if it synced.
fn put_living(
    alloc: Global,
    living: &mut Vec<Participant>,
    participant: Participant,
) -> Result<(), AllocError>
    ensures { OnOk result (living.new.items
        ≡ reverse (put_all participant_path (own_participant participant ++ map child_participant participant.children) (reverse living.old.items))) }
{
    let Participant {
        path,
        token,
        home,
        children,
        synced,
        stage: _,
    } = participant;
    put_children(alloc, living, children)?;
    if synced {
        put_participant(living, Participant::new(alloc, path, token, home))?;
    }
    Ok(())
}

// Collects the participants that all tasks leave, the last by path first.
fn collect(alloc: Global, participants: Vec<Participant>) -> Result<Vec<Participant>, AllocError>
    ensures { IfOk result (λ living. living.items ≡ reverse (next_participants participants.items)) }
{
    let mut living = Vec::new(alloc);
    let mut rest = participants;
    while let Some(participant) = rest.pop() {
        put_living(alloc, &mut living, participant)?;
    }
    Ok(living)
}

/// Returns the next superstep's participants, in path order.
pub fn next_participants(
    alloc: Global,
    participants: Vec<Participant>,
) -> Result<Vec<Participant>, AllocError>
    ensures { IfOk result (λ next. next.items ≡ next_participants participants.items) }
{
    let mut living = collect(alloc, participants)?;
    living.reverse();
    Ok(living)
}

/// Frees the tokens of tasks that left.
pub fn free_tokens(participants: &[Participant], free: &mut Vec<usize>) -> Result<(), AllocError>
    ensures { OnOk result (reverse free.new.items ≡ freed participants.now (reverse free.old.items)) }
{
    for participant in participants {
        if !participant.synced {
            free.push(participant.token)?;
        }
    }
    Ok(())
}
