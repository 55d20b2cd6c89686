//! The step of a give.
ghost use Rattle.std.specs.Prelude.{◌≡◌};
ghost use Rattle.vd_words.specs.Own.{IsOwn};
ghost use Rattle.vd_ring.specs.declared.device.DeviceView.{DeviceView};
ghost use Rattle.vd_packed_ring.specs.PackedDevice.{device_side};
ghost use Rattle.vd_layout.specs.Device.{IsDeviceStep};
ghost use Rattle.vd_packed.specs.DeviceEnd.{DeviceStands, packed_device};
ghost use Rattle.vd_layout.specs.Telling.{act_of};
ghost use Rattle.vd_packed.specs.Telling.{TakesNone};

use super::{DeviceStep, PackedDevice};
use crate::ring_position::forward;
use crate::words::used_word;
use vd_layout::Told;
use vd_words::{Access, Op, Port};

impl PackedDevice {
    /// The store of a second word at the used position, by which the chain is given: one for the whole chain, whose
    /// descriptors the position then passes. The driver's look at it is the access of its collect.
    #[inline(never)]
    pub(super) fn give<P: Port>(&mut self, port: &mut P, number: u32, head: u32, len: u32) -> Told
        requires now { self.old.doing ≡ DeviceStep.Give number head len }
        requires own { (v : DeviceView) × DeviceStands self.old v × IsOwn P.port device_side port.old v }
        ensures did { (v : DeviceView) → DeviceStands self.old v → IsOwn P.port device_side port.old v
            → IsDeviceStep P.port packed_device port.old port.new v self.old self.new (act_of result self.new.pieces.items) }
        ensures none { TakesNone result }
    {
        let word = used_word(len, head, self.used.wrap);
        port.access(Op::Give, Access::Store(2 * self.used.place + 1, word));
        let count = self.counts[head as usize];
        self.running[head as usize] = None;
        self.given += 1;
        let ring_position = forward(self.used, count, self.size);
        self.used.place = ring_position.place;
        self.used.wrap = ring_position.wrap;
        self.used_position += count as u64;
        self.doing = DeviceStep::Check(count);
        Told::Given(number)
    }
}
