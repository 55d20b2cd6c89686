//! Operations made to their end over the words of a ring, with the other end as it is.
ghost use Rattle.std.specs.Prelude.{◌≡◌, ℕ, List};
ghost use Rattle.vd_ring.specs.declared.frame.Frame.{Frame};
ghost use Rattle.vd_layout.specs.Begun.{DriverOp, DeviceOp};
ghost use Rattle.vd_layout.specs.DriverFinish.{IsDriverWork};
ghost use Rattle.vd_layout.specs.DeviceFinish.{IsDeviceWork};
ghost use Rattle.vd_layout.specs.Device.{is_rested};
ghost use Rattle.vd_layout.specs.Both.{AreOn};
ghost use Rattle.vd_layout.specs.Ended.{DriverEnded, DeviceEnded, DriverEndedAt, DeviceEndedAt};

use crate::layout::Layout;
use crate::plain::{finish_device_beside, finish_driver_beside};
use vd_ring::{DeviceAct, DriverAct};
use vd_words::{PlainPort, PlainWords, Port};

/// Finishes the operation of the driver's end.
#[inline(always)]
pub fn end_driver<L: Layout>(
    driver: &mut L::Driver,
    device: &L::Device,
    words: &mut PlainWords,
) -> DriverAct
    requires begun { IsDriverWork (L.Driver.driver.begun driver.old) }
    requires on { (f : Frame) × AreOn L.Driver.driver L.Device.device L.layout f driver.old device.now words.old.words
        × (words.old.ring ≡ f.ring) }
    ensures ring { words.new.ring ≡ words.old.ring }
    ensures idle { L.Driver.driver.begun driver.new ≡ DriverOp.idle }
    ensures did { (f : Frame) (a : AreOn L.Driver.driver L.Device.device L.layout f driver.old device.now words.old.words)
        → DriverEnded L.Driver.driver L.Device.device L.layout f driver.old driver.new device.now words.old.words words.new.words result a }
{
    let mut port = words.port();
    driver_behind::<L, PlainPort<'_>>(driver, device, &mut port)
}

/// Finishes the operation of the device's end.
#[inline(always)]
pub fn end_device<L: Layout>(
    driver: &L::Driver,
    device: &mut L::Device,
    words: &mut PlainWords,
) -> DeviceAct
    requires begun { IsDeviceWork (L.Device.device.begun device.old) }
    requires on { (f : Frame) × AreOn L.Driver.driver L.Device.device L.layout f driver.now device.old words.old.words
        × (words.old.ring ≡ f.ring) }
    ensures ring { words.new.ring ≡ words.old.ring }
    ensures idle { L.Device.device.begun device.new ≡ DeviceOp.idle }
    ensures rests { L.Device.device.resting device.new ≡ is_rested result }
    ensures did { (f : Frame) (a : AreOn L.Driver.driver L.Device.device L.layout f driver.now device.old words.old.words)
        → DeviceEnded L.Driver.driver L.Device.device L.layout f driver.now device.old device.new words.old.words words.new.words result a }
{
    let mut port = words.port();
    device_behind::<L, PlainPort<'_>>(driver, device, &mut port)
}

/// The same over any plain port.
#[inline(always)]
fn driver_behind<L: Layout, P: Port>(
    driver: &mut L::Driver,
    device: &L::Device,
    port: &mut P,
) -> DriverAct
    requires begun { IsDriverWork (L.Driver.driver.begun driver.old) }
    requires on { (f : Frame) × (ws : List ℕ) × P.port.plain port.old ws
        × AreOn L.Driver.driver L.Device.device L.layout f driver.old device.now ws × (P.port.ring port.old ≡ f.ring) }
    ensures idle { L.Driver.driver.begun driver.new ≡ DriverOp.idle }
    ensures did { (f : Frame) (ws : List ℕ) → P.port.plain port.old ws
        → (a : AreOn L.Driver.driver L.Device.device L.layout f driver.old device.now ws)
        → DriverEndedAt P.port L.Driver.driver L.Device.device L.layout f port.old port.new driver.old driver.new device.now ws result a }
{
    finish_driver_beside::<L, P>(driver, device, port)
}

#[inline(always)]
fn device_behind<L: Layout, P: Port>(
    driver: &L::Driver,
    device: &mut L::Device,
    port: &mut P,
) -> DeviceAct
    requires begun { IsDeviceWork (L.Device.device.begun device.old) }
    requires on { (f : Frame) × (ws : List ℕ) × P.port.plain port.old ws
        × AreOn L.Driver.driver L.Device.device L.layout f driver.now device.old ws × (P.port.ring port.old ≡ f.ring) }
    ensures idle { L.Device.device.begun device.new ≡ DeviceOp.idle }
    ensures rests { L.Device.device.resting device.new ≡ is_rested result }
    ensures did { (f : Frame) (ws : List ℕ) → P.port.plain port.old ws
        → (a : AreOn L.Driver.driver L.Device.device L.layout f driver.now device.old ws)
        → DeviceEndedAt P.port L.Driver.driver L.Device.device L.layout f port.old port.new driver.now device.old device.new ws result a }
{
    finish_device_beside::<L, P>(driver, device, port)
}
