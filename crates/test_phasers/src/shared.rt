//! The tree on atomic words: threads that share a tree.
#[cfg(test)]
mod duties;
#[cfg(test)]
mod random;
#[cfg(test)]
mod reported;
#[cfg(test)]
mod threads;
