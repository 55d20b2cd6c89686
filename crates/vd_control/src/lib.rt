//! Commands of a network device's control queue, the settings that they leave, and the list that brings settings back.
#![tactic(auto)]

mod command;
mod flags;
mod replay;
mod settings;
mod vlans;

pub use command::Command;
pub use replay::{replay_at, replay_comes_back, replay_len};
pub use settings::Settings;

#[cfg(test)]
mod tests;
