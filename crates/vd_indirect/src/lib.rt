//! Indirect descriptor tables of split and packed rings: the words that a chain is written as, and the chain that a
//! table's words spell.
#![tactic(auto)]

mod descriptor;
mod read;
mod write;

pub use descriptor::TableKind;
pub use read::{TableFault, read_table};
pub use write::{table_word, write_plan};

#[cfg(test)]
mod tests;
