//! Chain texts and command texts: the words by which a machine file writes buffer chains and commands.
#![tactic(auto)]

mod chains;
mod commands;
mod printing;
mod reading;

pub use chains::{MOST_PIECES, is_chain, read_run};
pub use commands::{print_command, read_command};
pub use printing::print_run;
pub use reading::{cut_at, number_in};

#[cfg(test)]
mod tests;
