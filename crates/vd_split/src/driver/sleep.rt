//! The steps of an arming, a hearing and a disarming.
ghost use Rattle.std.specs.Prelude.{◌≡◌, ◌≤◌, false};
ghost use Rattle.vd_words.specs.Own.{IsOwn};
ghost use Rattle.vd_words.specs.declared.access.Op.{Op};
ghost use Rattle.vd_ring.specs.declared.driver.DriverView.{DriverView};
ghost use Rattle.vd_split_ring.specs.SplitDriver.{driver_side};
ghost use Rattle.vd_layout.specs.Driver.{IsDriverStep};
ghost use Rattle.vd_split.specs.DriverEnd.{DriverStands, Wakes, split_driver};
ghost use Rattle.vd_split.specs.Parts.{own_lane, own_value};
ghost use Rattle.vd_split.specs.Telling.{driver_act_of};

use super::{DriverStep, DriverTold, SplitDriver};
use crate::descriptors::{shows_count, used_area};
use vd_bits::set_lane16;
use vd_words::{Access, Op, Port};

/// The lane of the own event word.
#[inline]
pub(crate) fn own_lane(size: u32, event_idx: bool) -> u32
    requires { size ≤ 32768 }
    ensures { result ≡ own_lane size event_idx }
{
    if event_idx { size + 2 } else { 0 }
}

/// What it holds where the end waits for the entry of this count.
#[inline]
pub(crate) fn own_value(count: u32, event_idx: bool) -> u16
    ensures { result ≡ own_value count event_idx }
{
    if event_idx {
        (count % 0x1_0000) as u16
    } else {
        0
    }
}

impl SplitDriver {
    /// The store of the own event word. What the device published before it is found by the second look; for what it publishes after
    /// it, it finds this word.
    #[inline(always)]
    pub(super) fn arm<P: Port>(&mut self, port: &mut P) -> DriverTold
        requires now { self.old.doing ≡ DriverStep.Arm }
        requires own { (v : DriverView) × DriverStands self.old v × IsOwn P.port driver_side port.old v }
        ensures { (v : DriverView) → DriverStands self.old v → IsOwn P.port driver_side port.old v
            → IsDriverStep P.port split_driver port.old port.new v self.old self.new (driver_act_of result self.new.got) }
    {
        let lane = own_lane(self.size, self.features.event_idx);
        let value = own_value(self.collected, self.features.event_idx);
        let i = lane / 4;
        let word = set_lane16(self.area[i as usize], lane % 4, value);
        port.access(Op::Arm, Access::Store(2 * self.size + i, word));
        self.area[i as usize] = word;
        self.armed = true;
        self.doing = DriverStep::LookAgain;
        DriverTold::Moved
    }

    /// The second look.
    #[inline(always)]
    pub(super) fn look_again<P: Port>(&mut self, port: &mut P) -> DriverTold
        requires now { self.old.doing ≡ DriverStep.LookAgain }
        requires own { (v : DriverView) × DriverStands self.old v × IsOwn P.port driver_side port.old v }
        ensures { (v : DriverView) → DriverStands self.old v → IsOwn P.port driver_side port.old v
            → IsDriverStep P.port split_driver port.old port.new v self.old self.new (driver_act_of result self.new.got) }
    {
        let word = port.access(Op::Arm, Access::Load(used_area(self.size)));
        if shows_count(word, self.collected) {
            self.shown = false;
            self.doing = DriverStep::Idle;
            return DriverTold::Armed;
        }
        self.shown = true;
        self.armed = false;
        if self.features.event_idx {
            self.doing = DriverStep::Idle;
            return DriverTold::Awake;
        }
        self.doing = DriverStep::WakeArming;
        DriverTold::Moved
    }

    /// The load of the device's bell.
    #[inline(always)]
    pub(super) fn hear<P: Port>(&mut self, port: &mut P) -> DriverTold
        requires now { self.old.doing ≡ DriverStep.Hear }
        requires own { (v : DriverView) × DriverStands self.old v × IsOwn P.port driver_side port.old v }
        ensures { (v : DriverView) → DriverStands self.old v → IsOwn P.port driver_side port.old v
            → IsDriverStep P.port split_driver port.old port.new v self.old self.new (driver_act_of result self.new.got) }
    {
        let word = port.access(Op::Hear, Access::Load(self.kick + 1));
        if word == self.heard {
            self.doing = DriverStep::Idle;
            return DriverTold::Asleep;
        }
        self.heard = word;
        self.armed = false;
        if self.features.event_idx {
            self.doing = DriverStep::Idle;
            return DriverTold::Awake;
        }
        self.doing = DriverStep::WakeHearing;
        DriverTold::Moved
    }

    /// The disarming access: without EVENT_IDX a store that sets NO_INTERRUPT, with it a load, since no store disarms.
    #[inline(always)]
    pub(super) fn disarm<P: Port>(&mut self, port: &mut P) -> DriverTold
        requires now { self.old.doing ≡ DriverStep.Disarm }
        requires own { (v : DriverView) × DriverStands self.old v × IsOwn P.port driver_side port.old v }
        ensures { (v : DriverView) → DriverStands self.old v → IsOwn P.port driver_side port.old v
            → IsDriverStep P.port split_driver port.old port.new v self.old self.new (driver_act_of result self.new.got) }
    {
        if self.features.event_idx {
            port.access(Op::Disarm, Access::Load(self.kick + 1));
            self.armed = false;
            self.doing = DriverStep::Idle;
            return DriverTold::Awake;
        }
        self.wake(port, Op::Disarm)
    }

    /// The disarming store of an arming, of a hearing, or alone.
    #[inline(always)]
    pub(super) fn wake<P: Port>(&mut self, port: &mut P, op: Op) -> DriverTold
        requires now { Wakes self.old.doing op }
        requires flags { self.old.features.event_idx ≡ false }
        requires own { (v : DriverView) × DriverStands self.old v × IsOwn P.port driver_side port.old v }
        ensures { (v : DriverView) → DriverStands self.old v → IsOwn P.port driver_side port.old v
            → IsDriverStep P.port split_driver port.old port.new v self.old self.new (driver_act_of result self.new.got) }
    {
        let word = set_lane16(self.area[0], 0, 1);
        port.access(op, Access::Store(2 * self.size, word));
        self.armed = false;
        self.area[0] = word;
        self.doing = DriverStep::Idle;
        DriverTold::Awake
    }
}
