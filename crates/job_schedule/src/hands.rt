//! Which task each worker has.
ghost use Rattle.std.specs.Prelude.{◌≡◌, ℕ, Option, None, OnOk, IfOk, replicate, slice_index_or, slice_set};

use std::alloc::{AllocError, Global};

/// Makes the hands of this number of workers. No worker has a task yet.
pub fn empty_hands(alloc: Global, workers: usize) -> Result<Vec<Option<usize>>, AllocError>
    ensures { IfOk result (λ hands. hands.items ≡ replicate workers None) }
{
    let mut hands = Vec::with_capacity(alloc, workers)?;
    for _ in 0..workers {
        hands.push(None)?;
    }
    Ok(hands)
}

/// Returns the place of the task that a worker has, if it has one.
pub fn hand_of(hands: &[Option<usize>], worker: usize) -> Option<usize>
    ensures { result ≡ slice_index_or hands.now worker None }
{
    if worker >= hands.len() {
        return None;
    }
    hands[worker]
}

/// Sets which task a worker has.
pub fn set_hand(hands: &mut Vec<Option<usize>>, worker: usize, hand: Option<usize>)
    ensures { hands.new.items ≡ slice_set hands.old.items worker hand }
{
    if worker < hands.len() {
        hands[worker] = hand;
    }
}
