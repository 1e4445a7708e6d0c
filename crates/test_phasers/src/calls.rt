//! A token in all its states, what it may be asked, and what it answers.
#[cfg(test)]
pub(crate) mod ask;
#[cfg(test)]
pub(crate) mod call;
pub mod holders;
