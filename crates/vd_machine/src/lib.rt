//! The machine file: what a program is to run.
#![tactic(auto)]

mod commands;
mod control_lines;
mod draws;
mod iovas;
mod keys;
mod limits;
mod listing;
mod lookup;
mod machine;
mod made_commands;
mod making;
mod printing;
mod queues;
mod reading;
mod regions;
mod rings;
mod switch_lines;
mod switch_tables;
mod switches;
mod types;
mod words;

pub use limits::MOST_CHAINS;
pub use machine::{Machine, MachineFault, ReadRefusal, Switch, To};
pub use making::make;
pub use regions::Region;
pub use rings::{MOST_PLACES, MOST_WINDOW};
pub use switches::MOST_SWITCHES;

#[cfg(test)]
mod tests;
