//! What any access through a seat's port tells its caller, in any layout.
ghost use Rattle.vd_ring.specs.declared.driver.DriverView.{DriverView};
ghost use Rattle.vd_ring.specs.declared.device.DeviceView.{DeviceView};
ghost use Rattle.vd_seats.specs.Around.{DriverStepped, DeviceStepped};
ghost use Rattle.vd_seats.specs.Seat.{DrivesAt, ServesAt};

use crate::SeatPort;
use vd_layout::Layout;
use vd_words::{Access, Op, Port};

/// The driver's access: what its side is told, its view after it, and that it is one step between words that meet the ring invariant
/// with one view of the device.
fn access_driver<L: Layout>(port: &mut SeatPort<L>, op: Op, a: Access) -> u64
    requires { (v : DriverView) × DrivesAt L.layout port.old v × L.Driver.driver.side.next v op a }
    ensures { (v : DriverView) → DrivesAt L.layout port.old v → L.Driver.driver.side.next v op a
        → L.Driver.driver.side.tells v op a result × DrivesAt L.layout port.new (L.Driver.driver.side.after v op a result)
        × DriverStepped L.layout v (L.Driver.driver.side.after v op a result) a result }
{
    port.access(op, a)
}

/// The device's access, in the same way.
fn access_device<L: Layout>(port: &mut SeatPort<L>, op: Op, a: Access) -> u64
    requires { (w : DeviceView) × ServesAt L.layout port.old w × L.Device.device.side.next w op a }
    ensures { (w : DeviceView) → ServesAt L.layout port.old w → L.Device.device.side.next w op a
        → L.Device.device.side.tells w op a result × ServesAt L.layout port.new (L.Device.device.side.after w op a result)
        × DeviceStepped L.layout w (L.Device.device.side.after w op a result) a result }
{
    port.access(op, a)
}
