//! Commands of a control queue in the words of a control ring: each head has two command words and an ack word.
#![tactic(auto)]

mod words;

pub use words::{Words, ack_for, bytes_of, words_come_back, words_of};

#[cfg(test)]
mod tests;
