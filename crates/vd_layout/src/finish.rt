//! An operation that was begun, made to its end.
ghost use Rattle.std.specs.Prelude.{◌≡◌};
ghost use Rattle.vd_ring.specs.declared.act.DriverAct.{DriverAct};
ghost use Rattle.vd_ring.specs.declared.act.DeviceAct.{DeviceAct};
ghost use Rattle.vd_ring.specs.declared.driver.DriverView.{DriverView};
ghost use Rattle.vd_ring.specs.declared.device.DeviceView.{DeviceView};
ghost use Rattle.vd_words.specs.Own.{IsOwn};
ghost use Rattle.vd_layout.specs.Begun.{DriverOp, DeviceOp};
ghost use Rattle.vd_layout.specs.Driver.{IsDriverStep};
ghost use Rattle.vd_layout.specs.Device.{IsDeviceStep};
ghost use Rattle.vd_layout.specs.DriverFinish.{IsDriverWork, IsDriverFinish, driver_told};
ghost use Rattle.vd_layout.specs.DeviceFinish.{IsDeviceWork, IsDeviceFinish, device_told};

use crate::device::DeviceEnd;
use crate::driver::DriverEnd;
use vd_ring::{DeviceAct, DriverAct};
use vd_words::Port;

/// Steps the driver's end until it is idle, and answers what the operation came to.
#[inline(always)]
pub fn finish_driver<E: DriverEnd, P: Port>(end: &mut E, port: &mut P) -> DriverAct
    requires begun { IsDriverWork (E.driver.begun end.old) }
    requires own { (v : DriverView) × E.driver.stands end.old v × IsOwn P.port E.driver.side port.old v }
    ensures { (v : DriverView) → E.driver.stands end.old v → IsOwn P.port E.driver.side port.old v
        → IsDriverFinish P.port E.driver port.old port.new v end.old end.new result }
{
    let mut answer = DriverAct::Moved;
    while !end.idle() {
        step_driver(end, port, &mut answer);
    }
    answer
}

/// Steps the device's end until it is idle, and answers what the operation came to.
#[inline(always)]
pub fn finish_device<E: DeviceEnd, P: Port>(end: &mut E, port: &mut P) -> DeviceAct
    requires begun { IsDeviceWork (E.device.begun end.old) }
    requires own { (v : DeviceView) × E.device.stands end.old v × IsOwn P.port E.device.side port.old v }
    ensures { (v : DeviceView) → E.device.stands end.old v → IsOwn P.port E.device.side port.old v
        → IsDeviceFinish P.port E.device port.old port.new v end.old end.new result }
{
    let mut answer = DeviceAct::Moved;
    while !end.idle() {
        step_device(end, port, &mut answer);
    }
    answer
}

// One step of a loop stands in a function of its own, so that LLVM sees where its answer's life ends. Else each step that
// tells nothing writes and copies a whole answer.

/// Makes one step, and keeps its answer unless that is Moved.
#[inline(always)]
fn step_driver<E: DriverEnd, P: Port>(end: &mut E, port: &mut P, answer: &mut DriverAct)
    requires busy { ¬ (E.driver.begun end.old ≡ DriverOp.idle) }
    requires own { (v : DriverView) × E.driver.stands end.old v × IsOwn P.port E.driver.side port.old v }
    ensures { (v : DriverView) → E.driver.stands end.old v → IsOwn P.port E.driver.side port.old v
        → (act : DriverAct) × IsDriverStep P.port E.driver port.old port.new v end.old end.new act
        × (answer.new ≡ driver_told answer.old act) }
{
    keep_driver(answer, end.step(port));
}

/// Keeps the later of two answers that isn't Moved.
#[inline(always)]
fn keep_driver(answer: &mut DriverAct, now: DriverAct)
    ensures { answer.new ≡ driver_told answer.old now }
{
    match now {
        DriverAct::Moved => {}
        _ => *answer = now,
    }
}

/// Makes one step, and keeps its answer unless that is Moved.
#[inline(always)]
fn step_device<E: DeviceEnd, P: Port>(end: &mut E, port: &mut P, answer: &mut DeviceAct)
    requires busy { ¬ (E.device.begun end.old ≡ DeviceOp.idle) }
    requires own { (v : DeviceView) × E.device.stands end.old v × IsOwn P.port E.device.side port.old v }
    ensures { (v : DeviceView) → E.device.stands end.old v → IsOwn P.port E.device.side port.old v
        → (act : DeviceAct) × IsDeviceStep P.port E.device port.old port.new v end.old end.new act
        × (answer.new ≡ device_told answer.old act) }
{
    keep_device(answer, end.step(port));
}

/// Keeps the later of two answers that isn't Moved.
#[inline(always)]
fn keep_device(answer: &mut DeviceAct, now: DeviceAct)
    ensures { answer.new ≡ device_told answer.old now }
{
    match now {
        DeviceAct::Moved => {}
        _ => *answer = now,
    }
}
