//! The steps that follow an offer's publishing store: the check and the bell.
ghost use Rattle.std.specs.Prelude.{◌≡◌};
ghost use Rattle.vd_words.specs.Own.{IsOwn};
ghost use Rattle.vd_ring.specs.declared.driver.DriverView.{DriverView};
ghost use Rattle.vd_packed_ring.specs.PackedDriver.{driver_side};
ghost use Rattle.vd_layout.specs.Driver.{IsDriverStep};
ghost use Rattle.vd_packed.specs.DriverEnd.{DriverStands, packed_driver};

use super::{DriverStep, PackedDriver};
use crate::event::asks;
use vd_ring::DriverAct;
use vd_words::{Access, Op, Port};

impl PackedDriver {
    /// The load of the device's event word, after the chain was made available: it answers the device's arming, which looks again
    /// after its own store.
    #[inline(always)]
    pub(super) fn check<P: Port>(&mut self, port: &mut P, count: u32) -> DriverAct
        requires now { self.old.doing ≡ DriverStep.Check count }
        requires own { (v : DriverView) × DriverStands self.old v × IsOwn P.port driver_side port.old v }
        ensures { (v : DriverView) → DriverStands self.old v → IsOwn P.port driver_side port.old v
            → IsDriverStep P.port packed_driver port.old port.new v self.old self.new result }
    {
        let word = port.access(Op::Offer, Access::Load(2 * self.size + 1));
        let new = self.next_position;
        if asks(self.size, new - count as u64, new, word) {
            self.doing = DriverStep::Ring;
            return DriverAct::Moved;
        }
        self.doing = DriverStep::Idle;
        DriverAct::Moved
    }

    /// The store of the bell.
    #[inline(always)]
    pub(super) fn ring<P: Port>(&mut self, port: &mut P) -> DriverAct
        requires now { self.old.doing ≡ DriverStep.Ring }
        requires own { (v : DriverView) × DriverStands self.old v × IsOwn P.port driver_side port.old v }
        ensures { (v : DriverView) → DriverStands self.old v → IsOwn P.port driver_side port.old v
            → IsDriverStep P.port packed_driver port.old port.new v self.old self.new result }
    {
        let bells = self.bells + 1;
        port.access(Op::Offer, Access::Store(self.kick, bells));
        self.bells = bells;
        self.doing = DriverStep::Idle;
        DriverAct::Moved
    }
}
