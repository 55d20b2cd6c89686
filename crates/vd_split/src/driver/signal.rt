//! The steps that follow an offer's publishing store: the check and the bell.
ghost use Rattle.std.specs.Prelude.{◌≡◌, ◌↔◌, ◌-◌, ◌<◌, ◌≤◌, IsTrue};
ghost use Rattle.vd_event.specs.Words.{reach};
ghost use Rattle.vd_event.specs.Rings.{Rings};
ghost use Rattle.vd_words.specs.Own.{IsOwn};
ghost use Rattle.vd_ring.specs.declared.driver.DriverView.{DriverView};
ghost use Rattle.vd_split_ring.specs.SplitDriver.{driver_side};
ghost use Rattle.vd_layout.specs.Driver.{IsDriverStep};
ghost use Rattle.vd_split.specs.DriverEnd.{DriverStands, split_driver};
ghost use Rattle.vd_split.specs.Parts.{asks, wanted, event_place};
ghost use Rattle.vd_split.specs.Telling.{driver_act_of};

use super::{DriverStep, DriverTold, SplitDriver};
use crate::descriptors::used_area;
use vd_bits::lane16;
use vd_event::{Answer, Due, EventRule};
use vd_words::{Access, Op, Port};

/// Whether an event word by this rule asks for a signal for the range `old` to `new - 1`.
#[inline]
fn rings(rule: EventRule, old: u64, new: u64, event: u16) -> bool
    requires some { old < new }
    requires near { new - old ≤ reach rule }
    ensures { IsTrue result ↔ Rings rule old new event }
{
    matches!(
        Due::new(rule, old, new).check(u32::from(event)),
        Answer::Ring
    )
}

/// Whether this event word asks for one.
#[inline]
pub(crate) fn wanted(event_idx: bool, old: u64, new: u64, event: u16) -> bool
    requires some { old < new }
    requires near { new - old ≤ 32768 }
    ensures { result ≡ wanted event_idx old new event }
{
    if event_idx {
        rings(EventRule::SplitIndex, old, new, event)
    } else {
        rings(EventRule::SplitFlags, old, new, event)
    }
}

/// Whether the loaded word with the device's event word asks for one.
#[inline]
fn asks(event_idx: bool, old: u64, new: u64, word: u64) -> bool
    requires some { old < new }
    requires near { new - old ≤ 32768 }
    ensures { result ≡ asks event_idx old new word }
{
    if event_idx {
        wanted(event_idx, old, new, lane16(word, 2))
    } else {
        wanted(event_idx, old, new, lane16(word, 0))
    }
}

/// The place of the device's event word.
#[inline]
fn event_place(size: u32, event_idx: bool) -> u32
    requires { size ≤ 32768 }
    ensures { result ≡ event_place size event_idx }
{
    if event_idx {
        used_area(size) + size
    } else {
        used_area(size)
    }
}

impl SplitDriver {
    /// The load of the device's event word, after the index was stored: it answers the device's arming, which looks again after its
    /// own store.
    #[inline(always)]
    pub(super) fn check<P: Port>(&mut self, port: &mut P, old: u64, new: u64) -> DriverTold
        requires now { self.old.doing ≡ DriverStep.Check old new }
        requires own { (v : DriverView) × DriverStands self.old v × IsOwn P.port driver_side port.old v }
        ensures { (v : DriverView) → DriverStands self.old v → IsOwn P.port driver_side port.old v
            → IsDriverStep P.port split_driver port.old port.new v self.old self.new (driver_act_of result self.new.got) }
    {
        let event_idx = self.features.event_idx;
        let place = event_place(self.size, event_idx);
        let word = port.access(Op::Offer, Access::Load(place));
        let rings = asks(event_idx, old, new, word);
        self.doing = if rings {
            DriverStep::Ring(old, new)
        } else {
            DriverStep::Idle
        };
        DriverTold::Moved
    }

    /// The store of the bell.
    #[inline(always)]
    pub(super) fn ring<P: Port>(&mut self, port: &mut P, old: u64, new: u64) -> DriverTold
        requires now { self.old.doing ≡ DriverStep.Ring old new }
        requires own { (v : DriverView) × DriverStands self.old v × IsOwn P.port driver_side port.old v }
        ensures { (v : DriverView) → DriverStands self.old v → IsOwn P.port driver_side port.old v
            → IsDriverStep P.port split_driver port.old port.new v self.old self.new (driver_act_of result self.new.got) }
    {
        let bells = self.bells + 1;
        port.access(Op::Offer, Access::Store(self.kick, bells));
        self.bells = bells;
        self.doing = DriverStep::Idle;
        DriverTold::Moved
    }
}
