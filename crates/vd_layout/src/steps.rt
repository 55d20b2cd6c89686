//! Single steps of an end over plain words, with the other end as it is.
ghost use Rattle.std.specs.Prelude.{◌≡◌, ℕ, List};
ghost use Rattle.vd_ring.specs.declared.frame.Frame.{Frame};
ghost use Rattle.vd_layout.specs.Begun.{DriverOp, DeviceOp};
ghost use Rattle.vd_layout.specs.Driver.{IsDriverStep};
ghost use Rattle.vd_layout.specs.Device.{IsDeviceStep};
ghost use Rattle.vd_layout.specs.Both.{AreOn};
ghost use Rattle.vd_layout.specs.Stepped.{DriverStepped, DeviceStepped};

use crate::device::DeviceEnd;
use crate::driver::DriverEnd;
use crate::layout::Layout;
use vd_ring::{DeviceAct, DriverAct};
use vd_words::Port;

/// Makes one step of the driver's end over a plain port. The words still meet the ring invariant, with what the device's side
/// knows unchanged; the ring's bag has made the one step that the answer names; and an offered chain stands in the words.
#[inline(always)]
pub fn step_driver_beside<L: Layout, P: Port>(
    driver: &mut L::Driver,
    device: &L::Device,
    port: &mut P,
) -> DriverAct
    requires busy { ¬ (L.Driver.driver.begun driver.old ≡ DriverOp.idle) }
    requires on { (f : Frame) × (ws : List ℕ) × P.port.plain port.old ws
        × AreOn L.Driver.driver L.Device.device L.layout f driver.old device.now ws × (P.port.ring port.old ≡ f.ring) }
    ensures { (f : Frame) (ws : List ℕ) → P.port.plain port.old ws
        → (a : AreOn L.Driver.driver L.Device.device L.layout f driver.old device.now ws)
        → (s : IsDriverStep P.port L.Driver.driver port.old port.new a.view driver.old driver.new result)
        × DriverStepped P.port L.Driver.driver L.layout port.old port.new ws a.view a.device_view driver.old driver.new result s }
{
    let _ = device;
    driver.step(port)
}

/// Makes one step of the device's end over a plain port. The words still meet the ring invariant, with what the driver's side
/// knows unchanged; the ring's bag has made the one step that the answer names; and a given entry stands in the words.
#[inline(always)]
pub fn step_device_beside<L: Layout, P: Port>(
    driver: &L::Driver,
    device: &mut L::Device,
    port: &mut P,
) -> DeviceAct
    requires busy { ¬ (L.Device.device.begun device.old ≡ DeviceOp.idle) }
    requires on { (f : Frame) × (ws : List ℕ) × P.port.plain port.old ws
        × AreOn L.Driver.driver L.Device.device L.layout f driver.now device.old ws × (P.port.ring port.old ≡ f.ring) }
    ensures { (f : Frame) (ws : List ℕ) → P.port.plain port.old ws
        → (a : AreOn L.Driver.driver L.Device.device L.layout f driver.now device.old ws)
        → (s : IsDeviceStep P.port L.Device.device port.old port.new a.device_view device.old device.new result)
        × DeviceStepped P.port L.Device.device L.layout port.old port.new ws a.view a.device_view device.old device.new result s }
{
    let _ = driver;
    device.step(port)
}
