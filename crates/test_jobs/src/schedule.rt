//! Jobs over a tree, by schedules of their workers.
#[cfg(test)]
mod fixtures;
#[cfg(test)]
pub(crate) mod orders;
#[cfg(test)]
mod random;
#[cfg(test)]
mod rows;
