//! One access of the operation in progress, and what it told.
ghost use Rattle.std.specs.Prelude.{◌≡◌};
ghost use Rattle.vd_words.specs.Own.{IsOwn};
ghost use Rattle.vd_ring.specs.declared.driver.DriverView.{DriverView};
ghost use Rattle.vd_split_ring.specs.SplitDriver.{driver_side};
ghost use Rattle.vd_layout.specs.Begun.{DriverOp};
ghost use Rattle.vd_layout.specs.Driver.{IsDriverStep};
ghost use Rattle.vd_split.specs.DriverEnd.{DriverStands, split_driver};
ghost use Rattle.vd_split.specs.Telling.{DriverSleeps, driver_act_of};

use super::{DriverStep, DriverTold, SplitDriver};
use vd_words::{Op, Port};

impl SplitDriver {
    /// Makes one access of the operation in progress.
    #[inline(always)]
    pub(super) fn advance<P: Port>(&mut self, port: &mut P) -> DriverTold
        requires busy { ¬ (split_driver.begun self.old ≡ DriverOp.idle) }
        requires own { (v : DriverView) × DriverStands self.old v × IsOwn P.port driver_side port.old v }
        ensures { (v : DriverView) → DriverStands self.old v → IsOwn P.port driver_side port.old v
            → IsDriverStep P.port split_driver port.old port.new v self.old self.new (driver_act_of result self.new.got) }
    {
        match self.doing {
            DriverStep::Idle => unreachable!(),
            DriverStep::Describe(at) => self.describe(port, at),
            DriverStep::Table(at) => self.tabulate(port, at),
            DriverStep::Enter => self.enter(port),
            DriverStep::Publish => self.publish(port),
            DriverStep::Look => self.look(port),
            DriverStep::Find(word) => self.find(port, word),
            DriverStep::Finish(word, found) => self.finish(port, word, found),
            DriverStep::Check(old, new) => self.check(port, old, new),
            DriverStep::Ring(old, new) => self.ring(port, old, new),
            _ => self.doze(port),
        }
    }

    /// Makes one access of an arming, a hearing or a disarming, which few chains bring.
    #[inline(never)]
    fn doze<P: Port>(&mut self, port: &mut P) -> DriverTold
        requires now { DriverSleeps self.old.doing }
        requires own { (v : DriverView) × DriverStands self.old v × IsOwn P.port driver_side port.old v }
        ensures { (v : DriverView) → DriverStands self.old v → IsOwn P.port driver_side port.old v
            → IsDriverStep P.port split_driver port.old port.new v self.old self.new (driver_act_of result self.new.got) }
    {
        match self.doing {
            DriverStep::Arm => self.arm(port),
            DriverStep::LookAgain => self.look_again(port),
            DriverStep::Hear => self.hear(port),
            DriverStep::WakeArming => self.wake(port, Op::Arm),
            DriverStep::WakeHearing => self.wake(port, Op::Hear),
            DriverStep::Disarm => self.disarm(port),
            _ => unreachable!(),
        }
    }
}
