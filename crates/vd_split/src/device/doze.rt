//! One access of an arming, a hearing, a disarming or a rest.
ghost use Rattle.std.specs.Prelude.{◌≡◌, ℕ};
ghost use Rattle.vd_words.specs.Own.{IsOwn};
ghost use Rattle.vd_ring.specs.declared.device.DeviceView.{DeviceView};
ghost use Rattle.vd_split_ring.specs.SplitDevice.{device_side};
ghost use Rattle.vd_layout.specs.Device.{IsDeviceStep};
ghost use Rattle.vd_split.specs.DeviceEnd.{DeviceStands, split_device};
ghost use Rattle.vd_layout.specs.Telling.{act_of};
ghost use Rattle.vd_split.specs.Telling.{DeviceSleeps};

use super::{DeviceStep, SplitDevice};
use vd_layout::Told;
use vd_words::{Op, Port};

impl SplitDevice {
    /// Makes one access of an arming, a hearing, a disarming or a rest, which few chains bring.
    #[inline(never)]
    pub(super) fn doze<P: Port>(&mut self, port: &mut P) -> Told
        requires now { DeviceSleeps self.old.doing }
        requires own { (v : DeviceView) × DeviceStands self.old v × IsOwn P.port device_side port.old v }
        ensures did { (v : DeviceView) → DeviceStands self.old v → IsOwn P.port device_side port.old v
            → IsDeviceStep P.port split_device port.old port.new v self.old self.new (act_of result self.new.pieces.items) }
        ensures chain { (k : ℕ) → ¬ (result ≡ Told.Taken k) }
    {
        match self.doing {
            DeviceStep::Arm => self.arm(port),
            DeviceStep::LookAgain => self.look_again(port),
            DeviceStep::Hear => self.hear(port),
            DeviceStep::WakeArming => self.wake(port, Op::Arm),
            DeviceStep::WakeHearing => self.wake(port, Op::Hear),
            DeviceStep::Disarm => self.disarm(port),
            DeviceStep::Rest => self.leave(port),
            DeviceStep::RestLook => self.rest(port),
            _ => unreachable!(),
        }
    }
}
