//! Split rings (VIRTIO 1.2, 2.7): the two ends, whose steps make one access each of any port.
#![tactic(auto)]

mod descriptors;
mod device;
mod driver;
mod lanes;
mod layout;
mod pieces;
mod places;
mod tables;

pub use device::SplitDevice;
pub use driver::SplitDriver;
pub use layout::Split;

#[cfg(test)]
mod tests;
