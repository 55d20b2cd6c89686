//! The steps of a collect.
ghost use Rattle.std.specs.Prelude.{◌≡◌};
ghost use Rattle.vd_words.specs.Own.{IsOwn};
ghost use Rattle.vd_ring.specs.declared.driver.DriverView.{DriverView};
ghost use Rattle.vd_split_ring.specs.SplitDriver.{driver_side};
ghost use Rattle.vd_layout.specs.Driver.{IsDriverStep};
ghost use Rattle.vd_split.specs.DriverEnd.{DriverStands, split_driver};
ghost use Rattle.vd_split.specs.Telling.{driver_act_of};

use super::{Collected, DriverStep, DriverTold, SplitDriver};
use crate::descriptors::{give_back, next_place, shows_count, used_area};
use vd_bits::lane32;
use vd_words::{Access, Op, Port};

impl SplitDriver {
    /// The look at the used index, which the last store of a give changes.
    #[inline(always)]
    pub(super) fn look<P: Port>(&mut self, port: &mut P) -> DriverTold
        requires now { self.old.doing ≡ DriverStep.Look }
        requires own { (v : DriverView) × DriverStands self.old v × IsOwn P.port driver_side port.old v }
        ensures { (v : DriverView) → DriverStands self.old v → IsOwn P.port driver_side port.old v
            → IsDriverStep P.port split_driver port.old port.new v self.old self.new (driver_act_of result self.new.got) }
    {
        let word = port.access(Op::Collect, Access::Load(used_area(self.size)));
        if shows_count(word, self.collected) {
            self.shown = false;
            self.doing = DriverStep::Idle;
            return DriverTold::Nothing;
        }
        self.shown = true;
        self.doing = DriverStep::Find(word);
        DriverTold::Moved
    }

    /// The load of the next entry's id.
    #[inline(always)]
    pub(super) fn find<P: Port>(&mut self, port: &mut P, word: u64) -> DriverTold
        requires now { self.old.doing ≡ DriverStep.Find word }
        requires own { (v : DriverView) × DriverStands self.old v × IsOwn P.port driver_side port.old v }
        ensures { (v : DriverView) → DriverStands self.old v → IsOwn P.port driver_side port.old v
            → IsDriverStep P.port split_driver port.old port.new v self.old self.new (driver_act_of result self.new.got) }
    {
        let found = port.access(Op::Collect, Access::Load(used_area(self.size) + self.used));
        self.doing = DriverStep::Finish(word, found);
        DriverTold::Moved
    }

    /// The load of its length, by which the chain is collected. Its places are free again.
    #[inline(always)]
    pub(super) fn finish<P: Port>(&mut self, port: &mut P, word: u64, found: u64) -> DriverTold
        requires now { self.old.doing ≡ DriverStep.Finish word found }
        requires own { (v : DriverView) × DriverStands self.old v × IsOwn P.port driver_side port.old v }
        ensures { (v : DriverView) → DriverStands self.old v → IsOwn P.port driver_side port.old v
            → IsDriverStep P.port split_driver port.old port.new v self.old self.new (driver_act_of result self.new.got) }
    {
        let last = port.access(
            Op::Collect,
            Access::Load(used_area(self.size) + self.used + 1),
        );
        let head = lane32(found, 1);
        let len = lane32(last, 0);
        let slot = &self.slots[head as usize];
        let number = slot.number;
        give_back(&mut self.free, slot.places.as_slice());
        self.collected += 1;
        self.used = next_place(self.used, self.size);
        self.shown = !shows_count(word, self.collected);
        self.doing = DriverStep::Idle;
        self.got = Collected { number, len, head };
        DriverTold::Collected
    }
}
