//! What the device's end offers its holder.
ghost use Rattle.std.specs.Prelude.{◌≡◌, ◌↔◌, IsTrue, ◌≤◌, ℕ, Option, Some};
ghost use Rattle.vd_split.specs.DeviceEnd.{split_device, number_at};
ghost use Rattle.vd_split.specs.laws.DeviceLaws.{device_laws};

use super::running::{find_head, none_below};
use super::{DeviceStep, SplitDevice};
use arrayvec::ArrayVec;
use vd_layout::{BadBase, DeviceEnd, Told};
use vd_model::{Base, Chain, Features};
use vd_words::Port;

impl DeviceEnd for SplitDevice {
    ghost device = { split_device };

    ghost device_lawful = { device_laws };

    fn size(&self) -> u32 {
        self.size
    }

    fn features(&self) -> Features {
        self.features
    }

    fn idle(&self) -> bool {
        matches!(self.doing, DeviceStep::Idle | DeviceStep::Resting)
    }

    fn armed(&self) -> bool {
        self.armed
    }

    fn taken(&self) -> u32 {
        self.taken
    }

    fn given(&self) -> u32 {
        self.given
    }

    fn outstanding(&self) -> u32 {
        self.taken.saturating_sub(self.given)
    }

    fn holds(&self, k: u32) -> bool {
        find_head(&self.running, self.size, self.guess(k), k).is_some()
    }

    fn whole(&self) -> bool {
        none_below(&self.running, self.given)
    }

    fn begin_take(&mut self) {
        self.doing = DeviceStep::Look;
    }

    fn begin_give(&mut self, k: u32, len: u32) {
        match find_head(&self.running, self.size, self.guess(k), k) {
            Some(head) => self.doing = DeviceStep::StoreId(k, head, len),
            None => unreachable!(),
        }
    }

    fn begin_arm(&mut self) {
        self.doing = DeviceStep::Arm;
    }

    fn begin_hear(&mut self) {
        self.doing = DeviceStep::Hear;
    }

    fn begin_disarm(&mut self) {
        self.doing = DeviceStep::Disarm;
    }

    fn begin_rest(&mut self) {
        self.doing = DeviceStep::Rest;
    }

    #[inline(never)]
    fn advance<P: Port>(&mut self, port: &mut P) -> Told {
        match self.doing {
            DeviceStep::Idle | DeviceStep::Resting => unreachable!(),
            DeviceStep::Look => self.look(port),
            DeviceStep::Entry(word) => self.entry(port, word),
            DeviceStep::Address(word, head, place) => self.address(port, word, head, place),
            DeviceStep::Second(word, head, place) => self.second(port, word, head, place),
            DeviceStep::TableAddress(word, head, count) => {
                self.table_address(port, word, head, count)
            }
            DeviceStep::TableSecond(word, head, count) => {
                self.table_second(port, word, head, count)
            }
            DeviceStep::StoreId(number, head, len) => self.store_id(port, number, head, len),
            DeviceStep::StoreLen(number, head, len) => self.store_len(port, number, head, len),
            DeviceStep::StoreIndex(number, head, len) => self.store_index(port, number, head, len),
            DeviceStep::Check(old, new) => self.check(port, old, new),
            DeviceStep::Ring(old, new) => self.ring(port, old, new),
            _ => self.doze(port),
        }
    }

    #[inline]
    fn chain(&self) -> Chain {
        let mut copy = ArrayVec::new();
        match copy.try_extend_from_slice(self.pieces.as_slice()) {
            Ok(()) => {}
            Err(_) => unreachable!(),
        }
        Chain::of(copy)
    }

    fn base(&self) -> Base {
        Base(self.taken % 0x1_0000)
    }

    fn resume(&mut self, b: Base) -> Result<(), BadBase> {
        let kept = Base(self.taken % 0x1_0000);
        if b.0 != kept.0 {
            return Err(BadBase { kept, given: b });
        }
        self.doing = DeviceStep::Idle;
        Ok(())
    }
}

impl SplitDevice {
    /// The head at which the chain of this number may run.
    #[inline]
    fn guess(&self, number: u32) -> u32 {
        let n = self.guesses.len();
        if n == 0 {
            return 0;
        }
        let i = number as usize & (n - 1);
        self.guesses[i]
    }
}
