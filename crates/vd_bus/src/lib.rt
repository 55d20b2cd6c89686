//! The bus, orders, events, journals, and what a guest and a device of a queue are.
#![tactic(auto)]

mod bus;
mod device;
mod event;
mod fault;
mod guest;
mod journal;
mod order;

pub use bus::{Bus, Vring};
pub use device::{Attached, Device, Refused};
pub use event::Event;
pub use fault::BusFault;
pub use guest::Guest;
pub use journal::{Entries, Journal};
pub use order::Order;

#[cfg(test)]
mod tests;
