//! The structures by which vhost sets up a ring and its addresses, as bytes.
#![tactic(auto)]

mod fault;
mod message;
mod numbers;
mod vring_addr;
mod vring_state;

pub use fault::UapiFault;
pub use message::Msg;
pub use vring_addr::VringAddr;
pub use vring_state::VringState;

#[cfg(test)]
mod tests;
