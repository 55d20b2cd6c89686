//! A relay at work: a guest on one ring of plain words, a device on a second, and the relay between them.
#![tactic(auto)]

mod bridge;
mod orders;
mod steps;
mod testing;

pub use bridge::Bridge;

#[cfg(test)]
mod tests;
