//! The steps that follow a give's publishing store: the check and the bell.
ghost use Rattle.std.specs.Prelude.{◌≡◌};
ghost use Rattle.vd_words.specs.Own.{IsOwn};
ghost use Rattle.vd_ring.specs.declared.device.DeviceView.{DeviceView};
ghost use Rattle.vd_packed_ring.specs.PackedDevice.{device_side};
ghost use Rattle.vd_layout.specs.Device.{IsDeviceStep};
ghost use Rattle.vd_packed.specs.DeviceEnd.{DeviceStands, packed_device};
ghost use Rattle.vd_layout.specs.Telling.{act_of};
ghost use Rattle.vd_packed.specs.Telling.{TakesNone};

use super::{DeviceStep, PackedDevice};
use crate::event::asks;
use vd_layout::Told;
use vd_words::{Access, Op, Port};

impl PackedDevice {
    /// The load of the driver's event word, after the used descriptor was stored: it answers the driver's arming, which looks again
    /// after its own store.
    #[inline(always)]
    pub(super) fn check<P: Port>(&mut self, port: &mut P, count: u32) -> Told
        requires now { self.old.doing ≡ DeviceStep.Check count }
        requires own { (v : DeviceView) × DeviceStands self.old v × IsOwn P.port device_side port.old v }
        ensures did { (v : DeviceView) → DeviceStands self.old v → IsOwn P.port device_side port.old v
            → IsDeviceStep P.port packed_device port.old port.new v self.old self.new (act_of result self.new.pieces.items) }
        ensures none { TakesNone result }
    {
        let word = port.access(Op::Give, Access::Load(2 * self.size));
        let new = self.used_position;
        if asks(self.size, new - count as u64, new, word) {
            self.doing = DeviceStep::Ring;
            return Told::Moved;
        }
        self.doing = DeviceStep::Idle;
        Told::Moved
    }

    /// The store of the bell.
    #[inline(always)]
    pub(super) fn ring<P: Port>(&mut self, port: &mut P) -> Told
        requires now { self.old.doing ≡ DeviceStep.Ring }
        requires own { (v : DeviceView) × DeviceStands self.old v × IsOwn P.port device_side port.old v }
        ensures did { (v : DeviceView) → DeviceStands self.old v → IsOwn P.port device_side port.old v
            → IsDeviceStep P.port packed_device port.old port.new v self.old self.new (act_of result self.new.pieces.items) }
        ensures none { TakesNone result }
    {
        let bells = self.bells + 1;
        port.access(Op::Give, Access::Store(self.kick + 1, bells));
        self.bells = bells;
        self.doing = DeviceStep::Idle;
        Told::Moved
    }
}
