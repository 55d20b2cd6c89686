//! The step of a collect.
ghost use Rattle.std.specs.Prelude.{◌≡◌};
ghost use Rattle.vd_words.specs.Own.{IsOwn};
ghost use Rattle.vd_ring.specs.declared.driver.DriverView.{DriverView};
ghost use Rattle.vd_packed_ring.specs.PackedDriver.{driver_side};
ghost use Rattle.vd_layout.specs.Driver.{IsDriverStep};
ghost use Rattle.vd_packed.specs.DriverEnd.{DriverStands, packed_driver};

use super::ids::give_back;
use super::{DriverStep, PackedDriver};
use crate::ring_position::forward;
use crate::words::shows_used;
use vd_bits::{lane16, lane32};
use vd_ring::DriverAct;
use vd_words::{Access, Op, Port};

impl PackedDriver {
    /// The load of the second word at the used position, which the store of a give changes. Where it is used the chain
    /// with its id is collected, and the id is free again.
    #[inline(always)]
    pub(super) fn look<P: Port>(&mut self, port: &mut P) -> DriverAct
        requires now { self.old.doing ≡ DriverStep.Look }
        requires own { (v : DriverView) × DriverStands self.old v × IsOwn P.port driver_side port.old v }
        ensures { (v : DriverView) → DriverStands self.old v → IsOwn P.port driver_side port.old v
            → IsDriverStep P.port packed_driver port.old port.new v self.old self.new result }
    {
        let word = port.access(Op::Collect, Access::Load(2 * self.used.place + 1));
        self.doing = DriverStep::Idle;
        if !shows_used(word, self.used.wrap) {
            return DriverAct::Nothing;
        }
        let head = lane16(word, 2) as u32;
        let len = lane32(word, 0);
        let slot = self.slots[head as usize];
        give_back(&mut self.free, head);
        self.collected += 1;
        self.space += slot.count;
        let ring_position = forward(self.used, slot.count, self.size);
        self.used.place = ring_position.place;
        self.used.wrap = ring_position.wrap;
        self.used_position += slot.count as u64;
        DriverAct::Collected {
            number: slot.number,
            len,
            head,
        }
    }
}
