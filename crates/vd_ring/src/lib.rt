//! What the two sides of a ring know, and the definitions that every layout cites.
#![tactic(auto)]

mod act;
mod device;
mod driver;
mod frame;
mod laws;

pub use act::{DeviceAct, DriverAct};
pub use device::{DeviceDone, DeviceNow, DeviceView};
pub use driver::{DriverDone, DriverNow, DriverView};
pub use frame::{Frame, Put, Used};
pub use laws::{account_law, quiet_law};
