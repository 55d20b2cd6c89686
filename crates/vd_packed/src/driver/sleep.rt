//! The steps of an arming, a hearing and a disarming.
ghost use Rattle.std.specs.Prelude.{◌≡◌, false};
ghost use Rattle.vd_words.specs.Own.{IsOwn};
ghost use Rattle.vd_words.specs.declared.access.Op.{Op};
ghost use Rattle.vd_ring.specs.declared.driver.DriverView.{DriverView};
ghost use Rattle.vd_packed_ring.specs.PackedDriver.{driver_side};
ghost use Rattle.vd_layout.specs.Driver.{IsDriverStep};
ghost use Rattle.vd_packed.specs.DriverEnd.{DriverStands, Wakes, packed_driver};

use super::{DriverStep, PackedDriver};
use crate::event::{armed_word, disarmed_word};
use crate::words::shows_used;
use vd_ring::DriverAct;
use vd_words::{Access, Op, Port};

impl PackedDriver {
    /// The store of the own event word. What the device gave before it is found by the second look; for what it gives after it, it
    /// finds this word.
    #[inline(always)]
    pub(super) fn arm<P: Port>(&mut self, port: &mut P) -> DriverAct
        requires now { self.old.doing ≡ DriverStep.Arm }
        requires own { (v : DriverView) × DriverStands self.old v × IsOwn P.port driver_side port.old v }
        ensures { (v : DriverView) → DriverStands self.old v → IsOwn P.port driver_side port.old v
            → IsDriverStep P.port packed_driver port.old port.new v self.old self.new result }
    {
        let word = armed_word(self.size, self.features.event_idx, self.used_position);
        port.access(Op::Arm, Access::Store(2 * self.size, word));
        self.armed = true;
        self.doing = DriverStep::LookAgain;
        DriverAct::Moved
    }

    /// The second look.
    #[inline(always)]
    pub(super) fn look_again<P: Port>(&mut self, port: &mut P) -> DriverAct
        requires now { self.old.doing ≡ DriverStep.LookAgain }
        requires own { (v : DriverView) × DriverStands self.old v × IsOwn P.port driver_side port.old v }
        ensures { (v : DriverView) → DriverStands self.old v → IsOwn P.port driver_side port.old v
            → IsDriverStep P.port packed_driver port.old port.new v self.old self.new result }
    {
        let word = port.access(Op::Arm, Access::Load(2 * self.used.place + 1));
        if !shows_used(word, self.used.wrap) {
            self.doing = DriverStep::Idle;
            return DriverAct::Armed;
        }
        self.armed = false;
        if self.features.event_idx {
            self.doing = DriverStep::Idle;
            return DriverAct::Awake;
        }
        self.doing = DriverStep::WakeArming;
        DriverAct::Moved
    }

    /// The load of the device's bell.
    #[inline(always)]
    pub(super) fn hear<P: Port>(&mut self, port: &mut P) -> DriverAct
        requires now { self.old.doing ≡ DriverStep.Hear }
        requires own { (v : DriverView) × DriverStands self.old v × IsOwn P.port driver_side port.old v }
        ensures { (v : DriverView) → DriverStands self.old v → IsOwn P.port driver_side port.old v
            → IsDriverStep P.port packed_driver port.old port.new v self.old self.new result }
    {
        let word = port.access(Op::Hear, Access::Load(self.kick + 1));
        if word == self.heard {
            self.doing = DriverStep::Idle;
            return DriverAct::Asleep;
        }
        self.heard = word;
        self.armed = false;
        if self.features.event_idx {
            self.doing = DriverStep::Idle;
            return DriverAct::Awake;
        }
        self.doing = DriverStep::WakeHearing;
        DriverAct::Moved
    }

    /// The disarming access: without EVENT_IDX a store of the flags DISABLE, with it a load, since no store disarms.
    #[inline(always)]
    pub(super) fn disarm<P: Port>(&mut self, port: &mut P) -> DriverAct
        requires now { self.old.doing ≡ DriverStep.Disarm }
        requires own { (v : DriverView) × DriverStands self.old v × IsOwn P.port driver_side port.old v }
        ensures { (v : DriverView) → DriverStands self.old v → IsOwn P.port driver_side port.old v
            → IsDriverStep P.port packed_driver port.old port.new v self.old self.new result }
    {
        if self.features.event_idx {
            port.access(Op::Disarm, Access::Load(self.kick + 1));
            self.armed = false;
            self.doing = DriverStep::Idle;
            return DriverAct::Awake;
        }
        self.wake(port, Op::Disarm)
    }

    /// The disarming store of an arming, of a hearing, or alone.
    #[inline(always)]
    pub(super) fn wake<P: Port>(&mut self, port: &mut P, op: Op) -> DriverAct
        requires now { Wakes self.old.doing op }
        requires flags { self.old.features.event_idx ≡ false }
        requires own { (v : DriverView) × DriverStands self.old v × IsOwn P.port driver_side port.old v }
        ensures { (v : DriverView) → DriverStands self.old v → IsOwn P.port driver_side port.old v
            → IsDriverStep P.port packed_driver port.old port.new v self.old self.new result }
    {
        port.access(op, Access::Store(2 * self.size, disarmed_word(self.size)));
        self.armed = false;
        self.doing = DriverStep::Idle;
        DriverAct::Awake
    }
}
