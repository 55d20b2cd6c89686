//! The steps that follow a give's publishing store: the check and the bell.
ghost use Rattle.std.specs.Prelude.{◌≡◌};
ghost use Rattle.vd_words.specs.Own.{IsOwn};
ghost use Rattle.vd_ring.specs.declared.device.DeviceView.{DeviceView};
ghost use Rattle.vd_split_ring.specs.SplitDevice.{device_side};
ghost use Rattle.vd_layout.specs.Device.{IsDeviceStep};
ghost use Rattle.vd_split.specs.DeviceEnd.{DeviceStands, split_device};
ghost use Rattle.vd_layout.specs.Telling.{act_of};

use super::{DeviceStep, SplitDevice};
use crate::driver::{own_lane, wanted};
use crate::lanes::lane_at;
use vd_layout::Told;
use vd_words::{Access, Op, Port};

impl SplitDevice {
    /// The load of the driver's event word, after the index was stored: it answers the driver's arming, which looks again after its
    /// own store.
    #[inline(always)]
    pub(super) fn check<P: Port>(&mut self, port: &mut P, old: u64, new: u64) -> Told
        requires now { self.old.doing ≡ DeviceStep.Check old new }
        requires own { (v : DeviceView) × DeviceStands self.old v × IsOwn P.port device_side port.old v }
        ensures { (v : DeviceView) → DeviceStands self.old v → IsOwn P.port device_side port.old v
            → IsDeviceStep P.port split_device port.old port.new v self.old self.new (act_of result self.new.pieces.items) }
    {
        let event_idx = self.features.event_idx;
        let lane = own_lane(self.size, event_idx);
        let word = port.access(Op::Give, Access::Load(2 * self.size + lane / 4));
        let rings = wanted(event_idx, old, new, lane_at(word, lane % 4));
        self.doing = if rings {
            DeviceStep::Ring(old, new)
        } else {
            DeviceStep::Idle
        };
        Told::Moved
    }

    /// The store of the bell.
    #[inline(always)]
    pub(super) fn ring<P: Port>(&mut self, port: &mut P, old: u64, new: u64) -> Told
        requires now { self.old.doing ≡ DeviceStep.Ring old new }
        requires own { (v : DeviceView) × DeviceStands self.old v × IsOwn P.port device_side port.old v }
        ensures { (v : DeviceView) → DeviceStands self.old v → IsOwn P.port device_side port.old v
            → IsDeviceStep P.port split_device port.old port.new v self.old self.new (act_of result self.new.pieces.items) }
    {
        let bells = self.bells + 1;
        port.access(Op::Give, Access::Store(self.kick + 1, bells));
        self.bells = bells;
        self.doing = DeviceStep::Idle;
        Told::Moved
    }
}
