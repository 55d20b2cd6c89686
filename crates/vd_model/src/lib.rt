//! Buffer chains, what a ring is set up with, maps of addresses, and what parties record of chains.
#![tactic(auto)]

mod base;
mod chain;
mod features;
mod map;
mod record;

pub use base::{Base, Mode};
pub use chain::{Chain, ChainFault, Piece};
pub use features::Features;
pub use map::{Map, Mapping};
pub use record::{Begun, Return, Run, Script};

#[cfg(test)]
mod tests;
