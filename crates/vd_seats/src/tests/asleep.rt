//! What the holder of one seat knows when its end was told Asleep or Nothing, in any layout.
ghost use Rattle.std.specs.Prelude.{◌≡◌, true, false};
ghost use Rattle.vd_ring.specs.declared.act.DriverAct.TheVariants as driver_act;
ghost use Rattle.vd_ring.specs.declared.act.DeviceAct.TheVariants as device_act;
ghost use Rattle.vd_ring.specs.declared.driver.DriverView.{DriverView};
ghost use Rattle.vd_ring.specs.declared.device.DeviceView.{DeviceView};
ghost use Rattle.vd_layout.specs.Begun.{DriverOp, DeviceOp};
ghost use Rattle.vd_seats.specs.Asleep.{DriverSlept, DeviceSlept, DriverSawAll, DeviceSawAll};
ghost use Rattle.vd_seats.specs.Seat.{DrivesAt, ServesAt};

use crate::SeatPort;
use vd_layout::{DeviceAct, DeviceEnd, DriverAct, DriverEnd, Layout, finish_device, finish_driver};

/// The driver hears. Where it answers Asleep nothing lay before it at that load, or the device owed it a check or a bell.
fn hear_driver<L: Layout>(end: &mut L::Driver, port: &mut SeatPort<L>) -> DriverAct
    requires idle { L.Driver.driver.begun end.old ≡ DriverOp.idle }
    requires armed { L.Driver.driver.armed end.old ≡ true }
    requires at { (v : DriverView) × L.Driver.driver.stands end.old v × DrivesAt L.layout port.old v }
    ensures { (v : DriverView) → L.Driver.driver.stands end.old v → DrivesAt L.layout port.old v → result ≡ driver_act.Asleep
        → (u : DriverView) × (u.done ≡ v.done) × DriverSlept L.layout u }
{
    port.is_drivers();
    end.begin_hear();
    finish_driver(end, port)
}

/// The device hears. Where it answers Asleep nothing lay before it at that load, or the driver owed it a check or a bell.
fn hear_device<L: Layout>(end: &mut L::Device, port: &mut SeatPort<L>) -> DeviceAct
    requires idle { L.Device.device.begun end.old ≡ DeviceOp.idle }
    requires awake { L.Device.device.resting end.old ≡ false }
    requires armed { L.Device.device.armed end.old ≡ true }
    requires at { (w : DeviceView) × L.Device.device.stands end.old w × ServesAt L.layout port.old w }
    ensures { (w : DeviceView) → L.Device.device.stands end.old w → ServesAt L.layout port.old w → result ≡ device_act.Asleep
        → (u : DeviceView) × (u.done ≡ w.done) × DeviceSlept L.layout u }
{
    port.is_devices();
    end.begin_hear();
    finish_device(end, port)
}

/// The driver collects. Where it answers Nothing all that was given was collected, at that load.
fn collect<L: Layout>(end: &mut L::Driver, port: &mut SeatPort<L>) -> DriverAct
    requires idle { L.Driver.driver.begun end.old ≡ DriverOp.idle }
    requires unarmed { L.Driver.driver.armed end.old ≡ false }
    requires at { (v : DriverView) × L.Driver.driver.stands end.old v × DrivesAt L.layout port.old v }
    ensures { (v : DriverView) → L.Driver.driver.stands end.old v → DrivesAt L.layout port.old v → result ≡ driver_act.Nothing
        → (u : DriverView) × (u.done ≡ v.done) × DriverSawAll L.layout u }
{
    port.is_drivers();
    end.begin_collect();
    finish_driver(end, port)
}

/// The device takes. Where it answers Nothing all that was offered was taken, at that load.
fn take<L: Layout>(end: &mut L::Device, port: &mut SeatPort<L>) -> DeviceAct
    requires idle { L.Device.device.begun end.old ≡ DeviceOp.idle }
    requires awake { L.Device.device.resting end.old ≡ false }
    requires unarmed { L.Device.device.armed end.old ≡ false }
    requires at { (w : DeviceView) × L.Device.device.stands end.old w × ServesAt L.layout port.old w }
    ensures { (w : DeviceView) → L.Device.device.stands end.old w → ServesAt L.layout port.old w → result ≡ device_act.Nothing
        → (u : DeviceView) × (u.done ≡ w.done) × DeviceSawAll L.layout u }
{
    port.is_devices();
    end.begin_take();
    finish_device(end, port)
}
