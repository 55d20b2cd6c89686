//! Operations made to their end over plain words, with the other end as it is.
ghost use Rattle.std.specs.Prelude.{◌≡◌, ℕ, List};
ghost use Rattle.vd_ring.specs.declared.frame.Frame.{Frame};
ghost use Rattle.vd_layout.specs.Begun.{DriverOp, DeviceOp};
ghost use Rattle.vd_layout.specs.DriverFinish.{IsDriverWork};
ghost use Rattle.vd_layout.specs.DeviceFinish.{IsDeviceWork};
ghost use Rattle.vd_layout.specs.Device.{DeviceSays, is_rested};
ghost use Rattle.vd_layout.specs.Driver.{DriverSays};
ghost use Rattle.vd_layout.specs.Both.{AreOn, Finished, DriverBeside, DeviceBeside};

use crate::finish::{finish_device, finish_driver};
use crate::layout::Layout;
use vd_ring::{DeviceAct, DriverAct};
use vd_words::Port;

/// Finishes the operation of the driver's end over a plain port. The words still meet the ring invariant, with what the
/// device's side knows unchanged.
#[inline(always)]
pub fn finish_driver_beside<L: Layout, P: Port>(
    driver: &mut L::Driver,
    device: &L::Device,
    port: &mut P,
) -> DriverAct
    requires begun { IsDriverWork (L.Driver.driver.begun driver.old) }
    requires on { (f : Frame) × (ws : List ℕ) × P.port.plain port.old ws
        × AreOn L.Driver.driver L.Device.device L.layout f driver.old device.now ws × (P.port.ring port.old ≡ f.ring) }
    ensures on { (f : Frame) (ws : List ℕ) → P.port.plain port.old ws
        → AreOn L.Driver.driver L.Device.device L.layout f driver.old device.now ws
        → Finished P.port L.Driver.driver L.Device.device L.layout f port.old port.new driver.new device.now }
    ensures idle { L.Driver.driver.begun driver.new ≡ DriverOp.idle }
    // the answer is about the very views of before and after, and the other side knows what it knew
    ensures did { (f : Frame) (ws : List ℕ) → P.port.plain port.old ws
        → (a : AreOn L.Driver.driver L.Device.device L.layout f driver.old device.now ws)
        → (z : Finished P.port L.Driver.driver L.Device.device L.layout f port.old port.new driver.new device.now)
        × DriverSays result (L.Driver.driver.begun driver.old) DriverOp.idle a.view.frame a.view.done z.on.view.done
        × DriverBeside P.port L.Driver.driver L.Device.device L.layout f port.old port.new ws driver.old driver.new device.now result a z }
{
    let _ = device;
    finish_driver(driver, port)
}

/// Finishes the operation of the device's end over a plain port. The words still meet the ring invariant, with what the
/// driver's side knows unchanged.
#[inline(always)]
pub fn finish_device_beside<L: Layout, P: Port>(
    driver: &L::Driver,
    device: &mut L::Device,
    port: &mut P,
) -> DeviceAct
    requires begun { IsDeviceWork (L.Device.device.begun device.old) }
    requires on { (f : Frame) × (ws : List ℕ) × P.port.plain port.old ws
        × AreOn L.Driver.driver L.Device.device L.layout f driver.now device.old ws × (P.port.ring port.old ≡ f.ring) }
    ensures on { (f : Frame) (ws : List ℕ) → P.port.plain port.old ws
        → AreOn L.Driver.driver L.Device.device L.layout f driver.now device.old ws
        → Finished P.port L.Driver.driver L.Device.device L.layout f port.old port.new driver.now device.new }
    ensures idle { L.Device.device.begun device.new ≡ DeviceOp.idle }
    ensures rests { L.Device.device.resting device.new ≡ is_rested result }
    // the answer is about the very views of before and after, and the other side knows what it knew
    ensures did { (f : Frame) (ws : List ℕ) → P.port.plain port.old ws
        → (a : AreOn L.Driver.driver L.Device.device L.layout f driver.now device.old ws)
        → (z : Finished P.port L.Driver.driver L.Device.device L.layout f port.old port.new driver.now device.new)
        × DeviceSays L.Device.device.words result (L.Device.device.begun device.old) DeviceOp.idle a.device_view.frame
        a.device_view.done z.on.device_view.done × DeviceBeside P.port L.Driver.driver L.Device.device L.layout f port.old port.new ws
        driver.now device.old device.new result a z }
{
    let _ = driver;
    finish_device(device, port)
}
