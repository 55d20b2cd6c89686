//! The two ends of a ring, and what a layout of a ring is.
#![tactic(auto)]

mod device;
mod driver;
mod ended;
mod finish;
mod history;
mod layout;
mod moves;
mod plain;
mod ring;
mod steps;

pub use device::{BadBase, DeviceEnd, Told};
pub use driver::DriverEnd;
pub use finish::{finish_device, finish_driver};
pub use layout::Layout;
pub use moves::Move;
pub use plain::{finish_device_beside, finish_driver_beside};
pub use ring::PlainRing;
pub use steps::{step_device_beside, step_driver_beside};
pub use vd_ring::{DeviceAct, DriverAct};
