//! What the device's end offers its holder.
ghost use Rattle.std.specs.Prelude.{◌≡◌, ◌↔◌, IsTrue, ◌≤◌, ℕ, Option, Some};
ghost use Rattle.vd_words.specs.Own.{IsOwn};
ghost use Rattle.vd_ring.specs.declared.device.DeviceView.{DeviceView};
ghost use Rattle.vd_packed_ring.specs.PackedDevice.{device_side};
ghost use Rattle.vd_layout.specs.Device.{IsDeviceStep};
ghost use Rattle.vd_packed.specs.DeviceEnd.{DeviceStands, IsSignal, packed_device, number_at};
ghost use Rattle.vd_layout.specs.Telling.{act_of};
ghost use Rattle.vd_packed.specs.Telling.{TakesNone};
ghost use Rattle.vd_packed.specs.laws.DeviceLaws.{device_laws};

use super::running::{find_head, guess, none_below};
use super::{DeviceStep, PackedDevice};
use crate::ring_position::base_word;
use arrayvec::ArrayVec;
use vd_layout::{BadBase, DeviceEnd, Told};
use vd_model::{Base, Chain, Features};
use vd_words::{Op, Port};

impl DeviceEnd for PackedDevice {
    ghost device = { packed_device };

    ghost device_lawful = { device_laws };

    fn size(&self) -> u32 {
        self.size
    }

    fn features(&self) -> Features {
        self.features
    }

    fn idle(&self) -> bool {
        matches!(self.doing, DeviceStep::Idle | DeviceStep::Resting)
    }

    fn armed(&self) -> bool {
        self.armed
    }

    fn taken(&self) -> u32 {
        self.taken
    }

    fn given(&self) -> u32 {
        self.given
    }

    fn outstanding(&self) -> u32 {
        self.taken.saturating_sub(self.given)
    }

    fn holds(&self, k: u32) -> bool {
        find_head(&self.running, self.size, guess(&self.guesses, k), k).is_some()
    }

    fn whole(&self) -> bool {
        none_below(&self.running, self.given)
    }

    fn begin_take(&mut self) {
        self.doing = DeviceStep::Look;
    }

    fn begin_give(&mut self, k: u32, len: u32) {
        match find_head(&self.running, self.size, guess(&self.guesses, k), k) {
            Some(head) => self.doing = DeviceStep::Give(k, head, len),
            None => unreachable!(),
        }
    }

    fn begin_arm(&mut self) {
        self.doing = DeviceStep::Arm;
    }

    fn begin_hear(&mut self) {
        self.doing = DeviceStep::Hear;
    }

    fn begin_disarm(&mut self) {
        self.doing = DeviceStep::Disarm;
    }

    fn begin_rest(&mut self) {
        self.doing = DeviceStep::Rest;
    }

    #[inline(never)]
    fn advance<P: Port>(&mut self, port: &mut P) -> Told {
        match self.doing {
            DeviceStep::Idle | DeviceStep::Resting => unreachable!(),
            DeviceStep::Look => self.look(port),
            DeviceStep::Address => self.address(port),
            DeviceStep::Second => self.second(port),
            DeviceStep::TableAddress => self.table_address(port),
            DeviceStep::TableSecond(addr) => self.table_second(port, addr),
            DeviceStep::Give(number, head, len) => self.give(port, number, head, len),
            DeviceStep::Check(_)
            | DeviceStep::Ring
            | DeviceStep::Arm
            | DeviceStep::LookAgain
            | DeviceStep::Hear
            | DeviceStep::WakeArming
            | DeviceStep::WakeHearing
            | DeviceStep::Disarm
            | DeviceStep::Rest
            | DeviceStep::RestLook => self.signal(port),
        }
    }

    #[inline]
    fn chain(&self) -> Chain {
        let mut copy = ArrayVec::new();
        match copy.try_extend_from_slice(self.pieces.as_slice()) {
            Ok(()) => {}
            Err(_) => unreachable!(),
        }
        Chain::of(copy)
    }

    fn base(&self) -> Base {
        Base(base_word(self.next))
    }

    fn resume(&mut self, b: Base) -> Result<(), BadBase> {
        let kept = Base(base_word(self.next));
        if b.0 != kept.0 {
            return Err(BadBase { kept, given: b });
        }
        self.doing = DeviceStep::Idle;
        Ok(())
    }
}

impl PackedDevice {
    /// Makes one access of a check, a bell, an arming, a hearing, a disarming or a rest.
    #[inline(always)]
    fn signal<P: Port>(&mut self, port: &mut P) -> Told
        requires now { IsSignal self.old.doing }
        requires own { (v : DeviceView) × DeviceStands self.old v × IsOwn P.port device_side port.old v }
        ensures did { (v : DeviceView) → DeviceStands self.old v → IsOwn P.port device_side port.old v
            → IsDeviceStep P.port packed_device port.old port.new v self.old self.new (act_of result self.new.pieces.items) }
        ensures none { TakesNone result }
    {
        match self.doing {
            DeviceStep::Idle
            | DeviceStep::Resting
            | DeviceStep::Look
            | DeviceStep::Address
            | DeviceStep::Second
            | DeviceStep::TableAddress
            | DeviceStep::TableSecond(_)
            | DeviceStep::Give(_, _, _) => unreachable!(),
            DeviceStep::Check(count) => self.check(port, count),
            DeviceStep::Ring => self.ring(port),
            DeviceStep::Arm => self.arm(port),
            DeviceStep::LookAgain => self.look_again(port),
            DeviceStep::Hear => self.hear(port),
            DeviceStep::WakeArming => self.wake(port, Op::Arm),
            DeviceStep::WakeHearing => self.wake(port, Op::Hear),
            DeviceStep::Disarm => self.disarm(port),
            DeviceStep::Rest => self.leave(port),
            DeviceStep::RestLook => self.rest(port),
        }
    }
}
