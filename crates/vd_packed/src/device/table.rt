//! The steps of a take that load a table: two words a piece, in the order of its places (VIRTIO 1.2, 2.8.7).
ghost use Rattle.std.specs.Prelude.{◌≡◌, ◌<◌, ◌≤◌, ℕ};
ghost use Rattle.vd_model.specs.Chains.{IsChain};
ghost use Rattle.vd_words.specs.Own.{IsOwn};
ghost use Rattle.vd_ring.specs.declared.device.DeviceView.{DeviceView};
ghost use Rattle.vd_packed_ring.specs.PackedDevice.{device_side};
ghost use Rattle.vd_packed_ring.specs.PackedWords.{id_of};
ghost use Rattle.vd_layout.specs.Device.{IsDeviceStep};
ghost use Rattle.vd_packed.specs.DeviceEnd.{DeviceStands, packed_device};
ghost use Rattle.vd_packed.specs.Tabled.{table_place};
ghost use Rattle.vd_layout.specs.Telling.{act_of};
ghost use Rattle.vd_packed.specs.Telling.{TakesNone};

use super::{DeviceStep, PackedDevice};
use crate::tables::table_place;
use vd_bits::lane16;
use vd_layout::Told;
use vd_words::{Access, Op, Port};

impl PackedDevice {
    /// The first word of the table that the second word loaded last names: that of its id, whatever address was loaded.
    #[inline(always)]
    fn table(&self) -> u32
        requires { (self.now.size ≤ 32768) × (id_of self.now.second < self.now.size) }
        ensures { result ≡ table_place self.now.size (id_of self.now.second) }
    {
        table_place(self.size, lane16(self.second, 2) as u32)
    }

    /// The load of a piece's address.
    #[inline(always)]
    pub(super) fn table_address<P: Port>(&mut self, port: &mut P) -> Told
        requires now { self.old.doing ≡ DeviceStep.TableAddress }
        requires own { (v : DeviceView) × DeviceStands self.old v × IsOwn P.port device_side port.old v }
        ensures did { (v : DeviceView) → DeviceStands self.old v → IsOwn P.port device_side port.old v
            → IsDeviceStep P.port packed_device port.old port.new v self.old self.new (act_of result self.new.pieces.items) }
        ensures none { TakesNone result }
    {
        let place = self.table() + 2 * self.pieces.len() as u32;
        let addr = port.access(Op::Take, Access::Load(place));
        self.loaded_table_address(addr)
    }

    /// The load of its second word, by which a whole chain is taken.
    #[inline(always)]
    pub(super) fn table_second<P: Port>(&mut self, port: &mut P, addr: u64) -> Told
        requires now { self.old.doing ≡ DeviceStep.TableSecond addr }
        requires own { (v : DeviceView) × DeviceStands self.old v × IsOwn P.port device_side port.old v }
        ensures did { (v : DeviceView) → DeviceStands self.old v → IsOwn P.port device_side port.old v
            → IsDeviceStep P.port packed_device port.old port.new v self.old self.new (act_of result self.new.pieces.items) }
        ensures chain { (k : ℕ) → result ≡ Told.Taken k → IsChain self.new.pieces.items }
    {
        let place = self.table() + 2 * self.pieces.len() as u32 + 1;
        let word = port.access(Op::Take, Access::Load(place));
        self.loaded_table_second(addr, word)
    }
}
