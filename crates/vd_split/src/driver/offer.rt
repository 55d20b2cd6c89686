//! The steps of an offer.
ghost use Rattle.std.specs.Prelude.{◌≡◌, ◌+◌, ◌*◌, ◌<◌, ◌≤◌};
ghost use Rattle.vd_words.specs.Own.{IsOwn};
ghost use Rattle.vd_ring.specs.declared.driver.DriverView.{DriverView};
ghost use Rattle.vd_split_ring.specs.SplitDriver.{driver_side};
ghost use Rattle.vd_layout.specs.Driver.{IsDriverStep};
ghost use Rattle.vd_split.specs.DriverEnd.{DriverStands, split_driver};
ghost use Rattle.vd_split.specs.Parts.{described_step, tabled_step};
ghost use Rattle.vd_split.specs.Telling.{driver_act_of};

use super::{DriverStep, DriverTold, SplitDriver};
use crate::descriptors::{descriptor_word, fill_slot, next_place, place_at};
use crate::lanes::set_lane_at;
use crate::tables::{needed, tabled_word};
use vd_bits::set_lane16;
use vd_words::{Access, Op, Port};

/// The step after word number `at` of the descriptors of so many pieces.
#[inline]
fn after_word(at: u32, pieces: u32) -> DriverStep
    requires { (at < 2 * pieces) × (pieces ≤ 16) }
    ensures { result ≡ described_step at pieces }
{
    if at + 1 < 2 * pieces {
        DriverStep::Describe(at + 1)
    } else {
        DriverStep::Enter
    }
}

/// The step after word number `at` of a table of so many pieces and of the descriptor that names it.
#[inline]
fn after_tabled(at: u32, pieces: u32) -> DriverStep
    requires { (at < 2 * pieces + 2) × (pieces ≤ 16) }
    ensures { result ≡ tabled_step at pieces }
{
    if at + 1 < 2 * pieces + 2 {
        DriverStep::Table(at + 1)
    } else {
        DriverStep::Enter
    }
}

impl SplitDriver {
    /// The store of a descriptor word.
    #[inline(always)]
    pub(super) fn describe<P: Port>(&mut self, port: &mut P, at: u32) -> DriverTold
        requires now { self.old.doing ≡ DriverStep.Describe at }
        requires own { (v : DriverView) × DriverStands self.old v × IsOwn P.port driver_side port.old v }
        ensures { (v : DriverView) → DriverStands self.old v → IsOwn P.port driver_side port.old v
            → IsDriverStep P.port split_driver port.old port.new v self.old self.new (driver_act_of result self.new.got) }
    {
        let pieces = self.pieces.as_slice();
        let (place, word) = descriptor_word(&self.free, pieces, at);
        let count = pieces.len() as u32;
        port.access(Op::Offer, Access::Store(place, word));
        self.doing = after_word(at, count);
        DriverTold::Moved
    }

    /// The store of a word of the chain's table, or, after them, of the descriptor that names it.
    #[inline(always)]
    pub(super) fn tabulate<P: Port>(&mut self, port: &mut P, at: u32) -> DriverTold
        requires now { self.old.doing ≡ DriverStep.Table at }
        requires own { (v : DriverView) × DriverStands self.old v × IsOwn P.port driver_side port.old v }
        ensures { (v : DriverView) → DriverStands self.old v → IsOwn P.port driver_side port.old v
            → IsDriverStep P.port split_driver port.old port.new v self.old self.new (driver_act_of result self.new.got) }
    {
        let pieces = self.pieces.as_slice();
        let head = place_at(&self.free, 0);
        let (place, word) = tabled_word(self.size, head, pieces, at);
        let count = pieces.len() as u32;
        port.access(Op::Offer, Access::Store(place, word));
        self.doing = after_tabled(at, count);
        DriverTold::Moved
    }

    /// The store of the ring entry, after the last descriptor word: the device finds whole chains alone.
    #[inline(always)]
    pub(super) fn enter<P: Port>(&mut self, port: &mut P) -> DriverTold
        requires now { self.old.doing ≡ DriverStep.Enter }
        requires own { (v : DriverView) × DriverStands self.old v × IsOwn P.port driver_side port.old v }
        ensures { (v : DriverView) → DriverStands self.old v → IsOwn P.port driver_side port.old v
            → IsDriverStep P.port split_driver port.old port.new v self.old self.new (driver_act_of result self.new.got) }
    {
        let lane = self.entry + 2;
        let i = lane / 4;
        let head = place_at(&self.free, 0);
        let word = set_lane_at(self.area[i as usize], lane % 4, head as u16);
        port.access(Op::Offer, Access::Store(2 * self.size + i, word));
        self.area[i as usize] = word;
        self.doing = DriverStep::Publish;
        DriverTold::Moved
    }

    /// The store of the index, by which the chain is offered. The device's look at it is the first access of its take.
    #[inline(always)]
    pub(super) fn publish<P: Port>(&mut self, port: &mut P) -> DriverTold
        requires now { self.old.doing ≡ DriverStep.Publish }
        requires own { (v : DriverView) × DriverStands self.old v × IsOwn P.port driver_side port.old v }
        ensures { (v : DriverView) → DriverStands self.old v → IsOwn P.port driver_side port.old v
            → IsDriverStep P.port split_driver port.old port.new v self.old self.new (driver_act_of result self.new.got) }
    {
        let number = self.offered;
        let word = set_lane16(self.area[0], 1, ((number + 1) % 0x1_0000) as u16);
        port.access(Op::Offer, Access::Store(2 * self.size, word));
        self.area[0] = word;
        let head = place_at(&self.free, 0);
        let count = needed(self.features.indirect, self.pieces.len());
        fill_slot(
            &mut self.slots[head as usize],
            &mut self.free,
            number,
            count,
        );
        self.offered = number + 1;
        self.entry = next_place(self.entry, self.size);
        self.doing = DriverStep::Check(number as u64, number as u64 + 1);
        DriverTold::Offered(number)
    }
}
