//! The tree on atomic words: worked runs on one thread.
#[cfg(test)]
mod rows;
#[cfg(test)]
mod runs;
#[cfg(test)]
pub(crate) mod trees;
#[cfg(test)]
mod waits;
