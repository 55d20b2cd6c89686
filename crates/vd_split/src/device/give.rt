//! The steps of a give and of a rest.
ghost use Rattle.std.specs.Prelude.{◌≡◌, ◌+◌, ◌*◌};
ghost use Rattle.vd_words.specs.Own.{IsOwn};
ghost use Rattle.vd_ring.specs.declared.device.DeviceView.{DeviceView};
ghost use Rattle.vd_split_ring.specs.SplitDevice.{device_side};
ghost use Rattle.vd_layout.specs.Device.{IsDeviceStep};
ghost use Rattle.vd_split.specs.DeviceEnd.{DeviceStands, split_device};
ghost use Rattle.vd_layout.specs.Telling.{act_of};

use super::running::clear;
use super::{DeviceStep, SplitDevice};
use crate::descriptors::{next_place, used_area};
use vd_bits::{set_lane16, set_lane32};
use vd_layout::Told;
use vd_words::{Access, Op, Port};

impl SplitDevice {
    /// The store of the next entry's id: the chain's head.
    #[inline(always)]
    pub(super) fn store_id<P: Port>(
        &mut self,
        port: &mut P,
        number: u32,
        head: u32,
        len: u32,
    ) -> Told
        requires now { self.old.doing ≡ DeviceStep.StoreId number head len }
        requires own { (v : DeviceView) × DeviceStands self.old v × IsOwn P.port device_side port.old v }
        ensures { (v : DeviceView) → DeviceStands self.old v → IsOwn P.port device_side port.old v
            → IsDeviceStep P.port split_device port.old port.new v self.old self.new (act_of result self.new.pieces.items) }
    {
        let i = self.used;
        let word = set_lane32(self.area[i as usize], 1, head);
        port.access(Op::Give, Access::Store(used_area(self.size) + i, word));
        self.area[i as usize] = word;
        self.doing = DeviceStep::StoreLen(number, head, len);
        Told::Moved
    }

    /// The store of its length.
    #[inline(always)]
    pub(super) fn store_len<P: Port>(
        &mut self,
        port: &mut P,
        number: u32,
        head: u32,
        len: u32,
    ) -> Told
        requires now { self.old.doing ≡ DeviceStep.StoreLen number head len }
        requires own { (v : DeviceView) × DeviceStands self.old v × IsOwn P.port device_side port.old v }
        ensures { (v : DeviceView) → DeviceStands self.old v → IsOwn P.port device_side port.old v
            → IsDeviceStep P.port split_device port.old port.new v self.old self.new (act_of result self.new.pieces.items) }
    {
        let i = self.used + 1;
        let word = set_lane32(self.area[i as usize], 0, len);
        port.access(Op::Give, Access::Store(used_area(self.size) + i, word));
        self.area[i as usize] = word;
        self.doing = DeviceStep::StoreIndex(number, head, len);
        Told::Moved
    }

    /// The store of the index, after the whole entry: by it the chain is given. The driver's look at it is the first
    /// access of its collect.
    #[inline(always)]
    pub(super) fn store_index<P: Port>(
        &mut self,
        port: &mut P,
        number: u32,
        head: u32,
        len: u32,
    ) -> Told
        requires now { self.old.doing ≡ DeviceStep.StoreIndex number head len }
        requires own { (v : DeviceView) × DeviceStands self.old v × IsOwn P.port device_side port.old v }
        ensures { (v : DeviceView) → DeviceStands self.old v → IsOwn P.port device_side port.old v
            → IsDeviceStep P.port split_device port.old port.new v self.old self.new (act_of result self.new.pieces.items) }
    {
        let _ = len;
        let word = set_lane16(self.area[0], 1, ((self.given + 1) % 0x1_0000) as u16);
        port.access(Op::Give, Access::Store(used_area(self.size), word));
        self.area[0] = word;
        self.running[head as usize] = None;
        let first = self.given;
        self.given = first + 1;
        self.used = next_place(self.used, self.size);
        self.doing = DeviceStep::Check(first as u64, first as u64 + 1);
        Told::Given(number)
    }

    /// The look of a rest, whatever it shows. The chains taken and not given are offered still.
    #[inline(always)]
    pub(super) fn rest<P: Port>(&mut self, port: &mut P) -> Told
        requires now { self.old.doing ≡ DeviceStep.RestLook }
        requires own { (v : DeviceView) × DeviceStands self.old v × IsOwn P.port device_side port.old v }
        ensures { (v : DeviceView) → DeviceStands self.old v → IsOwn P.port device_side port.old v
            → IsDeviceStep P.port split_device port.old port.new v self.old self.new (act_of result self.new.pieces.items) }
    {
        port.access(Op::Rest, Access::Load(2 * self.size));
        self.taken = self.given;
        self.entry = self.used;
        clear(&mut self.running);
        self.doing = DeviceStep::Resting;
        Told::Rested
    }
}
