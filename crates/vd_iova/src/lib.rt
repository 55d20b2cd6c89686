//! The address tree: which iova a guest address has, and where the next mapping fits.
#![tactic(auto)]

mod fault;
mod index;
mod tree;

pub use fault::MapFault;
pub use tree::IovaTree;

#[cfg(test)]
mod tests;
