//! The steps of a take by a table, after the descriptor that names it (VIRTIO 1.2, 2.7.5.3). A table's places stand in order, at the
//! place that the head gives.
ghost use Rattle.vd_model.specs.Chains.{IsChain};
ghost use Rattle.std.specs.Prelude.{ℕ, ◌≡◌};
ghost use Rattle.vd_words.specs.Own.{IsOwn};
ghost use Rattle.vd_ring.specs.declared.device.DeviceView.{DeviceView};
ghost use Rattle.vd_split_ring.specs.SplitDevice.{device_side};
ghost use Rattle.vd_layout.specs.Device.{IsDeviceStep};
ghost use Rattle.vd_split.specs.DeviceEnd.{DeviceStands, split_device};
ghost use Rattle.vd_layout.specs.Telling.{act_of};

use super::take::{piece_from, remember};
use super::{DeviceStep, SplitDevice};
use crate::descriptors::{next_place, shows_count};
use crate::tables::table_place;
use vd_layout::Told;
use vd_words::{Access, Op, Port};

impl SplitDevice {
    /// The load of the address in the table's next place.
    #[inline(always)]
    pub(super) fn table_address<P: Port>(
        &mut self,
        port: &mut P,
        word: u64,
        head: u32,
        count: u32,
    ) -> Told
        requires now { self.old.doing ≡ DeviceStep.TableAddress word head count }
        requires own { (v : DeviceView) × DeviceStands self.old v × IsOwn P.port device_side port.old v }
        ensures { (v : DeviceView) → DeviceStands self.old v → IsOwn P.port device_side port.old v
            → IsDeviceStep P.port split_device port.old port.new v self.old self.new (act_of result self.new.pieces.items) }
    {
        let place = table_place(self.size, head) + 2 * self.pieces.len() as u32;
        self.addr = port.access(Op::Take, Access::Load(place));
        self.doing = DeviceStep::TableSecond(word, head, count);
        Told::Moved
    }

    /// The load of the second word there, by which, in the last place, the chain is taken.
    #[inline(always)]
    pub(super) fn table_second<P: Port>(
        &mut self,
        port: &mut P,
        word: u64,
        head: u32,
        count: u32,
    ) -> Told
        requires now { self.old.doing ≡ DeviceStep.TableSecond word head count }
        requires own { (v : DeviceView) × DeviceStands self.old v × IsOwn P.port device_side port.old v }
        ensures did { (v : DeviceView) → DeviceStands self.old v → IsOwn P.port device_side port.old v
            → IsDeviceStep P.port split_device port.old port.new v self.old self.new (act_of result self.new.pieces.items) }
        ensures chain { (k : ℕ) → result ≡ Told.Taken k → IsChain self.new.pieces.items }
    {
        let loaded = self.pieces.len() as u32;
        let place = table_place(self.size, head) + 2 * loaded + 1;
        let second = port.access(Op::Take, Access::Load(place));
        self.pieces.push(piece_from(self.addr, second));
        if loaded + 1 != count {
            self.doing = DeviceStep::TableAddress(word, head, count);
            return Told::Moved;
        }
        let number = self.taken;
        self.running[head as usize] = Some(number);
        remember(&mut self.guesses, number, head);
        self.taken = number + 1;
        self.entry = next_place(self.entry, self.size);
        self.shown = !shows_count(word, self.taken);
        self.doing = DeviceStep::Idle;
        Told::Taken(number)
    }
}
