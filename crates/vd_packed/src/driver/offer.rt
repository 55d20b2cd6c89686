//! The steps of an offer.
ghost use Rattle.std.specs.Prelude.{◌≡◌, ◌*◌, ◌+◌, ◌<◌, ◌≤◌};
ghost use Rattle.vd_words.specs.Own.{IsOwn};
ghost use Rattle.vd_ring.specs.declared.driver.DriverView.{DriverView};
ghost use Rattle.vd_packed_ring.specs.PackedDriver.{driver_side};
ghost use Rattle.vd_layout.specs.Driver.{IsDriverStep};
ghost use Rattle.vd_packed.specs.DriverEnd.{DriverStands, packed_driver};
ghost use Rattle.vd_packed.specs.Seconds.{described_step, ring_position_after};
ghost use Rattle.vd_packed.specs.Tabled.{tabled_step};

use super::ids::{next_id, take_id};
use super::{DriverStep, PackedDriver, Slot};
use crate::ring_position::{RingPosition, forward};
use crate::tables::{needed, published_word, tabled_word};
use crate::words::descriptor_word;
use vd_ring::DriverAct;
use vd_words::{Access, Op, Port};

/// The step after store number `at` of an offer of so many pieces.
#[inline]
fn after_word(at: u32, pieces: u32) -> DriverStep
    requires { (at + 1 < 2 * pieces) × (pieces ≤ 16) }
    ensures { result ≡ described_step at pieces }
{
    if at + 2 < 2 * pieces {
        DriverStep::Describe(at + 1)
    } else {
        DriverStep::Publish
    }
}

/// The step after word number `at` of a table of so many pieces and of the address of the descriptor that names it.
#[inline]
fn after_tabled(at: u32, pieces: u32) -> DriverStep
    requires { (at < 2 * pieces + 1) × (pieces ≤ 16) }
    ensures { result ≡ tabled_step at pieces }
{
    if at < 2 * pieces {
        DriverStep::Table(at + 1)
    } else {
        DriverStep::Publish
    }
}

/// Where the descriptor of the store after number `at` stands.
#[inline]
fn ring_position_after(ring_position: RingPosition, at: u32, size: u32) -> RingPosition
    requires { (ring_position.place < size) × (size ≤ 32768) }
    ensures { result ≡ ring_position_after ring_position at size }
{
    if at % 2 == 0 {
        forward(ring_position, 1, size)
    } else {
        ring_position
    }
}

impl PackedDriver {
    /// The store of a descriptor's word, other than the first second word.
    #[inline(always)]
    pub(super) fn describe<P: Port>(&mut self, port: &mut P, at: u32) -> DriverAct
        requires now { self.old.doing ≡ DriverStep.Describe at }
        requires own { (v : DriverView) × DriverStands self.old v × IsOwn P.port driver_side port.old v }
        ensures { (v : DriverView) → DriverStands self.old v → IsOwn P.port driver_side port.old v
            → IsDriverStep P.port packed_driver port.old port.new v self.old self.new result }
    {
        let id = next_id(&self.free);
        let pieces = self.pieces.as_slice();
        let (place, word) = descriptor_word(pieces, id, self.at, at);
        let count = pieces.len() as u32;
        port.access(Op::Offer, Access::Store(place, word));
        let ring_position = ring_position_after(self.at, at, self.size);
        self.at.place = ring_position.place;
        self.at.wrap = ring_position.wrap;
        self.doing = after_word(at, count);
        DriverAct::Moved
    }

    /// The store of a word of the chain's table, or, after them, of the address of the descriptor that names it.
    #[inline(always)]
    pub(super) fn tabulate<P: Port>(&mut self, port: &mut P, at: u32) -> DriverAct
        requires now { self.old.doing ≡ DriverStep.Table at }
        requires own { (v : DriverView) × DriverStands self.old v × IsOwn P.port driver_side port.old v }
        ensures { (v : DriverView) → DriverStands self.old v → IsOwn P.port driver_side port.old v
            → IsDriverStep P.port packed_driver port.old port.new v self.old self.new result }
    {
        let id = next_id(&self.free);
        let pieces = self.pieces.as_slice();
        let (place, word) = tabled_word(self.size, id, self.next.place, pieces, at);
        let count = pieces.len() as u32;
        port.access(Op::Offer, Access::Store(place, word));
        self.doing = after_tabled(at, count);
        DriverAct::Moved
    }

    /// The store of the first second word, after all others of the chain: by it the whole chain is available. The
    /// device's look at it is the first access of its take.
    #[inline(always)]
    pub(super) fn publish<P: Port>(&mut self, port: &mut P) -> DriverAct
        requires now { self.old.doing ≡ DriverStep.Publish }
        requires own { (v : DriverView) × DriverStands self.old v × IsOwn P.port driver_side port.old v }
        ensures { (v : DriverView) → DriverStands self.old v → IsOwn P.port driver_side port.old v
            → IsDriverStep P.port packed_driver port.old port.new v self.old self.new result }
    {
        let id = next_id(&self.free);
        let pieces = self.pieces.as_slice();
        let word = published_word(pieces, self.features.indirect, id, self.next.wrap);
        let count = needed(self.features.indirect, pieces.len()) as u32;
        port.access(Op::Offer, Access::Store(2 * self.next.place + 1, word));
        let number = self.offered;
        take_id(&mut self.free);
        self.slots[id as usize] = Slot { number, count };
        self.offered = number + 1;
        self.space -= count;
        self.next.place = self.at.place;
        self.next.wrap = self.at.wrap;
        self.next_position += count as u64;
        self.doing = DriverStep::Check(count);
        DriverAct::Offered(number)
    }
}
