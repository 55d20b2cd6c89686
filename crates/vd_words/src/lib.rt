//! The words of a ring, and the ports through which they are loaded and stored.
#![tactic(auto)]

mod access;
mod plain;
mod port;

pub use access::{Access, Op};
pub use plain::{PlainPort, PlainWords};
pub use port::Port;

#[cfg(test)]
mod tests;
