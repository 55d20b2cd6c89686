//! The lane of the control queue as its guest sees it: what it has sent, and what came back, by its script.
#![tactic(auto)]

pub mod laws;
pub mod sleeping_laws;
pub mod turn_laws;
