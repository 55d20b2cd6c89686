//! The steps of an arming, a hearing and a disarming.
ghost use Rattle.std.specs.Prelude.{◌≡◌, false};
ghost use Rattle.vd_words.specs.Own.{IsOwn};
ghost use Rattle.vd_words.specs.declared.access.Op.{Op};
ghost use Rattle.vd_ring.specs.declared.device.DeviceView.{DeviceView};
ghost use Rattle.vd_packed_ring.specs.PackedDevice.{device_side};
ghost use Rattle.vd_layout.specs.Device.{IsDeviceStep};
ghost use Rattle.vd_packed.specs.DeviceEnd.{DeviceStands, Wakes, packed_device};
ghost use Rattle.vd_layout.specs.Telling.{act_of};
ghost use Rattle.vd_packed.specs.Telling.{TakesNone};

use super::{DeviceStep, PackedDevice};
use crate::event::{armed_word, disarmed_word};
use crate::words::shows_available;
use vd_layout::Told;
use vd_words::{Access, Op, Port};

impl PackedDevice {
    /// The store of the own event word. What the driver offered before it is found by the second look; for what it offers after it, it
    /// finds this word.
    #[inline(always)]
    pub(super) fn arm<P: Port>(&mut self, port: &mut P) -> Told
        requires now { self.old.doing ≡ DeviceStep.Arm }
        requires own { (v : DeviceView) × DeviceStands self.old v × IsOwn P.port device_side port.old v }
        ensures did { (v : DeviceView) → DeviceStands self.old v → IsOwn P.port device_side port.old v
            → IsDeviceStep P.port packed_device port.old port.new v self.old self.new (act_of result self.new.pieces.items) }
        ensures none { TakesNone result }
    {
        let word = armed_word(self.size, self.features.event_idx, self.next_position);
        port.access(Op::Arm, Access::Store(2 * self.size + 1, word));
        self.armed = true;
        self.doing = DeviceStep::LookAgain;
        Told::Moved
    }

    /// The second look.
    #[inline(always)]
    pub(super) fn look_again<P: Port>(&mut self, port: &mut P) -> Told
        requires now { self.old.doing ≡ DeviceStep.LookAgain }
        requires own { (v : DeviceView) × DeviceStands self.old v × IsOwn P.port device_side port.old v }
        ensures did { (v : DeviceView) → DeviceStands self.old v → IsOwn P.port device_side port.old v
            → IsDeviceStep P.port packed_device port.old port.new v self.old self.new (act_of result self.new.pieces.items) }
        ensures none { TakesNone result }
    {
        let word = port.access(Op::Arm, Access::Load(2 * self.next.place + 1));
        if !shows_available(word, self.next.wrap) {
            self.doing = DeviceStep::Idle;
            return Told::Armed;
        }
        self.armed = false;
        if self.features.event_idx {
            self.doing = DeviceStep::Idle;
            return Told::Awake;
        }
        self.doing = DeviceStep::WakeArming;
        Told::Moved
    }

    /// The load of the driver's bell.
    #[inline(always)]
    pub(super) fn hear<P: Port>(&mut self, port: &mut P) -> Told
        requires now { self.old.doing ≡ DeviceStep.Hear }
        requires own { (v : DeviceView) × DeviceStands self.old v × IsOwn P.port device_side port.old v }
        ensures did { (v : DeviceView) → DeviceStands self.old v → IsOwn P.port device_side port.old v
            → IsDeviceStep P.port packed_device port.old port.new v self.old self.new (act_of result self.new.pieces.items) }
        ensures none { TakesNone result }
    {
        let word = port.access(Op::Hear, Access::Load(self.kick));
        if word == self.heard {
            self.doing = DeviceStep::Idle;
            return Told::Asleep;
        }
        self.heard = word;
        self.armed = false;
        if self.features.event_idx {
            self.doing = DeviceStep::Idle;
            return Told::Awake;
        }
        self.doing = DeviceStep::WakeHearing;
        Told::Moved
    }

    /// The disarming access: without EVENT_IDX a store of the flags DISABLE, with it a load, since no store disarms.
    #[inline(always)]
    pub(super) fn disarm<P: Port>(&mut self, port: &mut P) -> Told
        requires now { self.old.doing ≡ DeviceStep.Disarm }
        requires own { (v : DeviceView) × DeviceStands self.old v × IsOwn P.port device_side port.old v }
        ensures did { (v : DeviceView) → DeviceStands self.old v → IsOwn P.port device_side port.old v
            → IsDeviceStep P.port packed_device port.old port.new v self.old self.new (act_of result self.new.pieces.items) }
        ensures none { TakesNone result }
    {
        if self.features.event_idx {
            port.access(Op::Disarm, Access::Load(self.kick));
            self.armed = false;
            self.doing = DeviceStep::Idle;
            return Told::Awake;
        }
        self.wake(port, Op::Disarm)
    }

    /// The disarming store of an arming, of a hearing, or alone.
    #[inline(always)]
    pub(super) fn wake<P: Port>(&mut self, port: &mut P, op: Op) -> Told
        requires now { Wakes self.old.doing op }
        requires flags { self.old.features.event_idx ≡ false }
        requires own { (v : DeviceView) × DeviceStands self.old v × IsOwn P.port device_side port.old v }
        ensures did { (v : DeviceView) → DeviceStands self.old v → IsOwn P.port device_side port.old v
            → IsDeviceStep P.port packed_device port.old port.new v self.old self.new (act_of result self.new.pieces.items) }
        ensures none { TakesNone result }
    {
        port.access(
            op,
            Access::Store(2 * self.size + 1, disarmed_word(self.size)),
        );
        self.armed = false;
        self.doing = DeviceStep::Idle;
        Told::Awake
    }
}
