//! Packed rings (VIRTIO 1.2, 2.8): the two ends, whose steps make one access each of any port.
#![tactic(auto)]

mod device;
mod driver;
mod event;
mod layout;
mod ring_position;
mod tables;
mod words;

pub use device::PackedDevice;
pub use driver::PackedDriver;
pub use layout::Packed;

#[cfg(test)]
mod tests;
