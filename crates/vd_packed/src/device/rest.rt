//! The two steps of a rest.
ghost use Rattle.std.specs.Prelude.{◌≡◌, false};
ghost use Rattle.vd_words.specs.Own.{IsOwn};
ghost use Rattle.vd_ring.specs.declared.device.DeviceView.{DeviceView};
ghost use Rattle.vd_packed_ring.specs.PackedDevice.{device_side};
ghost use Rattle.vd_layout.specs.Device.{IsDeviceStep};
ghost use Rattle.vd_packed.specs.DeviceEnd.{DeviceStands, packed_device};
ghost use Rattle.vd_layout.specs.Telling.{act_of};
ghost use Rattle.vd_packed.specs.Telling.{TakesNone};

use super::running::clear;
use super::{DeviceStep, PackedDevice};
use crate::event::disarmed_word;
use vd_layout::Told;
use vd_words::{Access, Op, Port};

impl PackedDevice {
    /// The first access, which disarms the end: without EVENT_IDX a store of the flags DISABLE, with it a load of the driver's bell,
    /// since no store disarms.
    #[inline(always)]
    pub(super) fn leave<P: Port>(&mut self, port: &mut P) -> Told
        requires now { self.old.doing ≡ DeviceStep.Rest }
        requires own { (v : DeviceView) × DeviceStands self.old v × IsOwn P.port device_side port.old v }
        ensures did { (v : DeviceView) → DeviceStands self.old v → IsOwn P.port device_side port.old v
            → IsDeviceStep P.port packed_device port.old port.new v self.old self.new (act_of result self.new.pieces.items) }
        ensures none { TakesNone result }
    {
        if self.features.event_idx {
            port.access(Op::Rest, Access::Load(self.kick));
            self.armed = false;
            self.doing = DeviceStep::RestLook;
            return Told::Moved;
        }
        self.leave_by_store(port)
    }

    #[inline(always)]
    fn leave_by_store<P: Port>(&mut self, port: &mut P) -> Told
        requires now { self.old.doing ≡ DeviceStep.Rest }
        requires flags { self.old.features.event_idx ≡ false }
        requires own { (v : DeviceView) × DeviceStands self.old v × IsOwn P.port device_side port.old v }
        ensures did { (v : DeviceView) → DeviceStands self.old v → IsOwn P.port device_side port.old v
            → IsDeviceStep P.port packed_device port.old port.new v self.old self.new (act_of result self.new.pieces.items) }
        ensures none { TakesNone result }
    {
        port.access(
            Op::Rest,
            Access::Store(2 * self.size + 1, disarmed_word(self.size)),
        );
        self.armed = false;
        self.doing = DeviceStep::RestLook;
        Told::Moved
    }

    /// The look, whatever it shows. The chains taken and not given are offered still.
    #[inline(always)]
    pub(super) fn rest<P: Port>(&mut self, port: &mut P) -> Told
        requires now { self.old.doing ≡ DeviceStep.RestLook }
        requires own { (v : DeviceView) × DeviceStands self.old v × IsOwn P.port device_side port.old v }
        ensures did { (v : DeviceView) → DeviceStands self.old v → IsOwn P.port device_side port.old v
            → IsDeviceStep P.port packed_device port.old port.new v self.old self.new (act_of result self.new.pieces.items) }
        ensures none { TakesNone result }
    {
        port.access(Op::Rest, Access::Load(2 * self.next.place + 1));
        self.taken = self.given;
        self.next.place = self.used.place;
        self.next.wrap = self.used.wrap;
        self.next_position = self.used_position;
        clear(&mut self.running);
        self.doing = DeviceStep::Resting;
        Told::Rested
    }
}
