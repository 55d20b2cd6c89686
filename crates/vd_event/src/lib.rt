//! When a published range wants a signal: event words, and the check of a range against the word that the other side left.
#![tactic(auto)]

mod due;
mod rule;

pub use due::{Answer, Due};
pub use rule::{EventRule, arm_word, off_word};

#[cfg(test)]
mod tests;
