//! One party's turn in a play of single accesses: a guest's and a device's over the plain words of a ring, and a relay's over those of
//! its two rings, of a data queue and of a control queue.
#![tactic(auto)]

mod control_steps;
mod draws;
mod relay_steps;
mod turn;

pub use control_steps::control_turn;
pub use draws::Draws;
pub use relay_steps::relay_turn;
pub use turn::{device_once, device_turn, guest_once, guest_turn};
