//! The cyclic barrier: threads at the barrier of `phasers` and at the gate.
#[cfg(test)]
mod door;
#[cfg(test)]
mod woken;
