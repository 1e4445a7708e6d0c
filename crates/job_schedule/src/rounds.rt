//! What the schedule does with its round: a delivery, and the close.
ghost use Rattle.std.specs.Prelude.{◌≡◌, None, OnOk, IfOk, map};
ghost use Rattle.step_core.specs.OrderValue.{delivered_segment, has_synced, spawned_paths};
ghost use Rattle.step_core.specs.RoundValue.{slots_in, status_in};
ghost use Rattle.step_core.specs.Slots.{first_missing};
ghost use Rattle.job_schedule.specs.Parts.{IsAsBefore, IsTaken, IsNext, IsWanted, deed_by, path_items};

use std::alloc::{AllocError, Global};
use step_core::{CloseFault, Delivery, Order, Round};
use superstep_memory::path::Path;

// Orders the segment of the live task with this path.
fn order_for<'j>(alloc: Global, round: &Round<'j>, path: &[u16]) -> Result<Order<'j>, AllocError>
    requires wanted { IsWanted round.now path.now }
    ensures job { IfOk result (λ o. o.job ≡ round.now.job) }
    ensures step { IfOk result (λ o. o.step ≡ round.now.step) }
    ensures path { IfOk result (λ o. o.task.path ≡ path.now) }
{
    match round.order(alloc, path)? {
        Some(order) => Ok(order),
        None => unreachable!(),
    }
}

// Runs the segment of the live task with this path.
fn segment_for<'j>(
    alloc: Global,
    round: &Round<'j>,
    path: &[u16],
) -> Result<Delivery<'j>, AllocError>
    requires wanted { IsWanted round.now path.now }
    ensures job { IfOk result (λ d. d.job ≡ round.now.job) }
    ensures step { IfOk result (λ d. d.step ≡ round.now.step) }
    ensures path { IfOk result (λ d. d.path ≡ path.now) }
    ensures deed { IfOk result (λ d. delivered_segment d ≡ deed_by round.now path.now) }
{
    // For the prover: the contract of `has_ended` names the round's status.
    let _known = round.has_ended();
    let order = order_for(alloc, round, path)?;
    let delivery = Delivery::of(alloc, order)?;
    // For the prover: the contract of `path` says that the delivery is of its order's task.
    let _own = delivery.path();
    Ok(delivery)
}

/// Delivers the segment of the live task with this path, for which nothing was delivered yet. Returns whether the task
/// synced, and the paths that it spawned.
pub(crate) fn hand_in<'j>(
    alloc: Global,
    round: &mut Round<'j>,
    path: &[u16],
) -> Result<(bool, Vec<Path>), AllocError>
    requires wanted { IsWanted round.old path.now }
    ensures taken { OnOk result (IsTaken round.old path.now round.new) }
    ensures round { OnOk result (IsAsBefore round.old round.new) }
    ensures synced { IfOk result (λ replies. replies.0 ≡ has_synced (deed_by round.old path.now)) }
    ensures spawns { IfOk result (λ replies. map path_items replies.1.items ≡ spawned_paths (deed_by round.old path.now)) }
{
    let delivery = segment_for(alloc, round, path)?;
    let synced = delivery.synced();
    let spawns = delivery.spawns(alloc)?;
    match round.accept_known(delivery) {
        Ok(()) => Ok((synced, spawns)),
        Err(_) => unreachable!(),
    }
}

/// Closes the round, in which a segment was delivered for each task. Does nothing if the job has ended.
pub(crate) fn close_round(alloc: Global, round: &mut Round<'_>) -> Result<(), AllocError>
    requires whole { status_in round.old ≡ None → first_missing (slots_in round.old) ≡ None }
    ensures { OnOk result (IsNext round.old round.new) }
{
    if round.has_ended() {
        return Ok(());
    }
    match round.close_round(alloc) {
        Ok(_) => Ok(()),
        Err(CloseFault::Memory(fault)) => Err(fault),
        Err(CloseFault::Missing(_)) => unreachable!(),
    }
}
