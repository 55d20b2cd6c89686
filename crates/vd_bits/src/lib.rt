//! Lanes of a 64-bit word, positions in a ring, and the test of the event index.
#![tactic(auto)]

mod event;
mod lanes;
mod positions;

pub use event::need_event;
pub use lanes::{lane16, lane32, set_lane16, set_lane32};
pub use positions::{place, wrap};

#[cfg(test)]
mod tests;
