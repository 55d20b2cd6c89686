//! The steps of an arming, a hearing and a disarming, and the first of a rest.
ghost use Rattle.std.specs.Prelude.{◌≡◌, ◌≤◌, false};
ghost use Rattle.vd_words.specs.Own.{IsOwn};
ghost use Rattle.vd_words.specs.declared.access.Op.{Op};
ghost use Rattle.vd_ring.specs.declared.device.DeviceView.{DeviceView};
ghost use Rattle.vd_split_ring.specs.SplitDevice.{device_side};
ghost use Rattle.vd_layout.specs.Device.{IsDeviceStep};
ghost use Rattle.vd_split.specs.DeviceEnd.{DeviceStands, Wakes, split_device};
ghost use Rattle.vd_layout.specs.Telling.{act_of};
ghost use Rattle.vd_split.specs.Parts.{event_offset, event_lane};

use super::{DeviceStep, SplitDevice};
use crate::descriptors::{shows_count, used_area};
use crate::driver::own_value;
use vd_bits::set_lane16;
use vd_layout::Told;
use vd_words::{Access, Op, Port};

/// How far behind the device area's first word the own event word stands.
#[inline]
fn event_offset(size: u32, event_idx: bool) -> u32
    ensures { result ≡ event_offset size event_idx }
{
    if event_idx { size } else { 0 }
}

/// Its lane there.
#[inline]
fn event_lane(event_idx: bool) -> u32
    ensures { result ≡ event_lane event_idx }
{
    if event_idx { 2 } else { 0 }
}

impl SplitDevice {
    /// The store of the own event word. What the driver published before it is found by the second look; for what it publishes after
    /// it, it finds this word.
    #[inline(always)]
    pub(super) fn arm<P: Port>(&mut self, port: &mut P) -> Told
        requires now { self.old.doing ≡ DeviceStep.Arm }
        requires own { (v : DeviceView) × DeviceStands self.old v × IsOwn P.port device_side port.old v }
        ensures { (v : DeviceView) → DeviceStands self.old v → IsOwn P.port device_side port.old v
            → IsDeviceStep P.port split_device port.old port.new v self.old self.new (act_of result self.new.pieces.items) }
    {
        let event_idx = self.features.event_idx;
        let i = event_offset(self.size, event_idx);
        let value = own_value(self.taken, event_idx);
        let lane = event_lane(event_idx);
        let word = set_lane16(self.area[i as usize], lane, value);
        port.access(Op::Arm, Access::Store(used_area(self.size) + i, word));
        self.area[i as usize] = word;
        self.armed = true;
        self.doing = DeviceStep::LookAgain;
        Told::Moved
    }

    /// The second look.
    #[inline(always)]
    pub(super) fn look_again<P: Port>(&mut self, port: &mut P) -> Told
        requires now { self.old.doing ≡ DeviceStep.LookAgain }
        requires own { (v : DeviceView) × DeviceStands self.old v × IsOwn P.port device_side port.old v }
        ensures { (v : DeviceView) → DeviceStands self.old v → IsOwn P.port device_side port.old v
            → IsDeviceStep P.port split_device port.old port.new v self.old self.new (act_of result self.new.pieces.items) }
    {
        let word = port.access(Op::Arm, Access::Load(2 * self.size));
        if shows_count(word, self.taken) {
            self.shown = false;
            self.doing = DeviceStep::Idle;
            return Told::Armed;
        }
        self.shown = true;
        self.armed = false;
        if self.features.event_idx {
            self.doing = DeviceStep::Idle;
            return Told::Awake;
        }
        self.doing = DeviceStep::WakeArming;
        Told::Moved
    }

    /// The load of the driver's bell.
    #[inline(always)]
    pub(super) fn hear<P: Port>(&mut self, port: &mut P) -> Told
        requires now { self.old.doing ≡ DeviceStep.Hear }
        requires own { (v : DeviceView) × DeviceStands self.old v × IsOwn P.port device_side port.old v }
        ensures { (v : DeviceView) → DeviceStands self.old v → IsOwn P.port device_side port.old v
            → IsDeviceStep P.port split_device port.old port.new v self.old self.new (act_of result self.new.pieces.items) }
    {
        let word = port.access(Op::Hear, Access::Load(self.kick));
        if word == self.heard {
            self.doing = DeviceStep::Idle;
            return Told::Asleep;
        }
        self.heard = word;
        self.armed = false;
        if self.features.event_idx {
            self.doing = DeviceStep::Idle;
            return Told::Awake;
        }
        self.doing = DeviceStep::WakeHearing;
        Told::Moved
    }

    /// The disarming access: without EVENT_IDX a store that sets NO_NOTIFY, with it a load, since no store disarms.
    #[inline(always)]
    pub(super) fn disarm<P: Port>(&mut self, port: &mut P) -> Told
        requires now { self.old.doing ≡ DeviceStep.Disarm }
        requires own { (v : DeviceView) × DeviceStands self.old v × IsOwn P.port device_side port.old v }
        ensures { (v : DeviceView) → DeviceStands self.old v → IsOwn P.port device_side port.old v
            → IsDeviceStep P.port split_device port.old port.new v self.old self.new (act_of result self.new.pieces.items) }
    {
        if self.features.event_idx {
            port.access(Op::Disarm, Access::Load(self.kick));
            self.armed = false;
            self.doing = DeviceStep::Idle;
            return Told::Awake;
        }
        self.wake(port, Op::Disarm)
    }

    /// The disarming store of an arming, of a hearing, or alone.
    #[inline(always)]
    pub(super) fn wake<P: Port>(&mut self, port: &mut P, op: Op) -> Told
        requires now { Wakes self.old.doing op }
        requires flags { self.old.features.event_idx ≡ false }
        requires own { (v : DeviceView) × DeviceStands self.old v × IsOwn P.port device_side port.old v }
        ensures { (v : DeviceView) → DeviceStands self.old v → IsOwn P.port device_side port.old v
            → IsDeviceStep P.port split_device port.old port.new v self.old self.new (act_of result self.new.pieces.items) }
    {
        let word = set_lane16(self.area[0], 0, 1);
        port.access(op, Access::Store(used_area(self.size), word));
        self.armed = false;
        self.area[0] = word;
        self.doing = DeviceStep::Idle;
        Told::Awake
    }

    /// The first access of a rest, which disarms the end.
    #[inline(always)]
    pub(super) fn leave<P: Port>(&mut self, port: &mut P) -> Told
        requires now { self.old.doing ≡ DeviceStep.Rest }
        requires own { (v : DeviceView) × DeviceStands self.old v × IsOwn P.port device_side port.old v }
        ensures { (v : DeviceView) → DeviceStands self.old v → IsOwn P.port device_side port.old v
            → IsDeviceStep P.port split_device port.old port.new v self.old self.new (act_of result self.new.pieces.items) }
    {
        if self.features.event_idx {
            port.access(Op::Rest, Access::Load(self.kick));
            self.armed = false;
            self.doing = DeviceStep::RestLook;
            return Told::Moved;
        }
        self.leave_by_store(port)
    }

    #[inline(always)]
    fn leave_by_store<P: Port>(&mut self, port: &mut P) -> Told
        requires now { self.old.doing ≡ DeviceStep.Rest }
        requires flags { self.old.features.event_idx ≡ false }
        requires own { (v : DeviceView) × DeviceStands self.old v × IsOwn P.port device_side port.old v }
        ensures { (v : DeviceView) → DeviceStands self.old v → IsOwn P.port device_side port.old v
            → IsDeviceStep P.port split_device port.old port.new v self.old self.new (act_of result self.new.pieces.items) }
    {
        let word = set_lane16(self.area[0], 0, 1);
        port.access(Op::Rest, Access::Store(used_area(self.size), word));
        self.armed = false;
        self.area[0] = word;
        self.doing = DeviceStep::RestLook;
        Told::Moved
    }
}
