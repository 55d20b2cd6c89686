//! Uses of the ring and of streams, as a caller writes them.
#![tactic(auto)]

mod device;
mod embedded;
mod slice;

pub use device::Filler;
pub use embedded::{echo, fresh_echo};
pub use slice::{SliceSource, read_slice};
