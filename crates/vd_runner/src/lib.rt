//! The whole of a command: words, a source, a sink and the parties of a bench.
#![tactic(auto)]

mod acks;
mod checking;
mod chosen;
mod control;
mod control_line;
mod epochs;
mod line;
mod playing;
mod playing_command;
mod read;
mod reporting;
mod status;
mod top;
mod words;
mod writing;

pub use chosen::{ModeWord, Options};
pub use playing_command::play_command;
pub use reporting::report;
pub use status::Status;
pub use top::vdpa;
pub use vd_play::{Bench, Floor, PlayFault, play_machine, prepare};
pub use words::options;

#[cfg(test)]
mod tests;
