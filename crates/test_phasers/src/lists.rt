//! The tree on atomic words: random lists of calls on one thread, beside the tree as a machine.
#[cfg(test)]
mod act;
#[cfg(test)]
mod mirror;
#[cfg(test)]
mod played;
