//! The steps of a take: each loads a word, which is then taken in.
ghost use Rattle.std.specs.Prelude.{◌≡◌, ◌<◌, ℕ, length};
ghost use Rattle.vd_model.specs.Chains.{IsChain};
ghost use Rattle.vd_words.specs.Own.{IsOwn};
ghost use Rattle.vd_ring.specs.declared.device.DeviceView.{DeviceView};
ghost use Rattle.vd_packed_ring.specs.PackedDevice.{device_side};
ghost use Rattle.vd_layout.specs.Device.{IsDeviceStep};
ghost use Rattle.vd_packed.specs.DeviceEnd.{DeviceStands, packed_device};
ghost use Rattle.vd_layout.specs.Telling.{act_of};
ghost use Rattle.vd_packed.specs.Telling.{TakesNone};

use super::{DeviceStep, PackedDevice};
use vd_layout::Told;
use vd_words::{Access, Op, Port};

impl PackedDevice {
    /// The load of the second word at the available position, which the last store of an offer changes.
    #[inline(never)]
    pub(super) fn look<P: Port>(&mut self, port: &mut P) -> Told
        requires now { self.old.doing ≡ DeviceStep.Look }
        requires own { (v : DeviceView) × DeviceStands self.old v × IsOwn P.port device_side port.old v }
        ensures did { (v : DeviceView) → DeviceStands self.old v → IsOwn P.port device_side port.old v
            → IsDeviceStep P.port packed_device port.old port.new v self.old self.new (act_of result self.new.pieces.items) }
        ensures none { TakesNone result }
    {
        let word = port.access(Op::Take, Access::Load(2 * self.next.place + 1));
        self.saw(word)
    }

    /// The load of a further descriptor's second word.
    #[inline(always)]
    pub(super) fn second<P: Port>(&mut self, port: &mut P) -> Told
        requires now { self.old.doing ≡ DeviceStep.Second }
        requires own { (v : DeviceView) × DeviceStands self.old v × IsOwn P.port device_side port.old v }
        ensures did { (v : DeviceView) → DeviceStands self.old v → IsOwn P.port device_side port.old v
            → IsDeviceStep P.port packed_device port.old port.new v self.old self.new (act_of result self.new.pieces.items) }
        ensures none { TakesNone result }
    {
        let word = port.access(Op::Take, Access::Load(2 * self.at.place + 1));
        self.loaded_second(word)
    }

    /// The load of a descriptor's address, by which a whole chain is taken where it has no table.
    #[inline(always)]
    pub(super) fn address<P: Port>(&mut self, port: &mut P) -> Told
        requires now { self.old.doing ≡ DeviceStep.Address }
        requires own { (v : DeviceView) × DeviceStands self.old v × IsOwn P.port device_side port.old v }
        ensures did { (v : DeviceView) → DeviceStands self.old v → IsOwn P.port device_side port.old v
            → IsDeviceStep P.port packed_device port.old port.new v self.old self.new (act_of result self.new.pieces.items) }
        ensures chain { (k : ℕ) → result ≡ Told.Taken k → IsChain self.new.pieces.items }
    {
        let addr = port.access(Op::Take, Access::Load(2 * self.at.place));
        if self.names_its_table() {
            return self.loaded_pointer();
        }
        self.loaded_address(addr)
    }
}
