//! Model parties: a guest that offers a script, a device that takes and gives, and a device that refuses an attach.
#![tactic(auto)]

mod commanding;
mod counts;
mod cursor;
mod device;
mod driving;
mod faulty;
mod guest;
mod hand;
mod pending;
mod refusal;
mod script;
mod sending;
mod sent;
mod serving;
mod window;

pub use commanding::Commanding;
pub use counts::{Counts, Turn};
pub use cursor::Cursor;
pub use device::ModelDevice;
pub use driving::{Booted, GuestPhase, GuestStage, Loaded};
pub use faulty::FaultyDevice;
pub use guest::ModelGuest;
pub use hand::Hand;
pub use pending::Pending;
pub use refusal::Refusal;
pub use serving::{Phase, Session, Stage};
pub use window::Held;

#[cfg(test)]
mod tests;
