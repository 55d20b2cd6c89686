//! The driver's end of a ring.
ghost use Rattle.std.specs.Prelude.{◌≡◌, ◌<◌, ◌≤◌, ◌↔◌, IsTrue, true, false, length};
ghost use Rattle.vd_ring.specs.declared.driver.DriverView.{DriverView};
ghost use Rattle.vd_ring.specs.History.{offers, collects, free, next_head};
ghost use Rattle.vd_words.specs.Own.{IsOwn};
ghost use Rattle.vd_layout.specs.Begun.{DriverOp};
ghost use Rattle.vd_layout.specs.Driver.{DriverModel, MayOffer, HasRoom, IsDriverStep, IsLawfulDriver};

use vd_model::{Chain, Features};
use vd_ring::DriverAct;
use vd_words::Port;

/// The driver's end of a ring. It is idle, or in the middle of one operation. A `begin_` call starts an operation and
/// makes no access; each `step` makes one.
pub trait DriverEnd: Drop {
    ghost driver: { DriverModel Self };

    /// How many places the ring has.
    fn size(&self) -> u32
        ensures { result ≡ driver.size self.now };

    /// The features with which the ring was made.
    fn features(&self) -> Features
        ensures { result ≡ driver.features self.now };

    /// Whether no operation is in progress.
    fn idle(&self) -> bool
        ensures { IsTrue result ↔ (driver.begun self.now ≡ DriverOp.idle) };

    /// Whether the end is armed.
    fn armed(&self) -> bool
        ensures { result ≡ driver.armed self.now };

    /// How many chains were offered.
    fn offered(&self) -> u32
        ensures { (v : DriverView) → driver.stands self.now v → result ≡ length (offers v.done) };

    /// How many chains were collected.
    fn collected(&self) -> u32
        ensures { (v : DriverView) → driver.stands self.now v → result ≡ length (collects v.done) };

    /// Whether there are as many free places as the chain needs.
    fn room(&self, c: &Chain) -> bool
        ensures { (v : DriverView) → driver.stands self.now v → IsTrue result ↔ HasRoom v.frame v.done c.now };

    /// The place (split) or buffer id (packed) that the next chain gets.
    fn next_head(&self) -> u32
        requires { (v : DriverView) × driver.stands self.now v × (0 < length (free v.frame v.done)) }
        ensures { (v : DriverView) → driver.stands self.now v → result ≡ next_head v.frame v.done };

    /// Begins the offer of a chain.
    fn begin_offer(&mut self, c: &Chain)
        requires idle { driver.begun self.old ≡ DriverOp.idle }
        requires unarmed { driver.armed self.old ≡ false }
        requires may { (v : DriverView) × driver.stands self.old v × MayOffer driver.words v c.now }
        ensures begun { driver.begun self.new ≡ DriverOp.offer c.now }
        ensures stands { (v : DriverView) → driver.stands self.old v → MayOffer driver.words v c.now → driver.stands self.new v }
        ensures left { driver.left self.new ≤ 38 };

    /// Begins a collect of the next used entry.
    fn begin_collect(&mut self)
        requires idle { driver.begun self.old ≡ DriverOp.idle }
        requires unarmed { driver.armed self.old ≡ false }
        ensures begun { driver.begun self.new ≡ DriverOp.collect }
        ensures stands { (v : DriverView) → driver.stands self.old v → driver.stands self.new v }
        ensures left { driver.left self.new ≤ 3 };

    /// Begins an arming: the event word is stored, and the end looks again.
    fn begin_arm(&mut self)
        requires idle { driver.begun self.old ≡ DriverOp.idle }
        requires unarmed { driver.armed self.old ≡ false }
        ensures begun { driver.begun self.new ≡ DriverOp.arm }
        ensures stands { (v : DriverView) → driver.stands self.old v → driver.stands self.new v }
        ensures left { driver.left self.new ≤ 3 };

    /// Begins a hearing of the device's bell.
    fn begin_hear(&mut self)
        requires idle { driver.begun self.old ≡ DriverOp.idle }
        requires armed { driver.armed self.old ≡ true }
        ensures begun { driver.begun self.new ≡ DriverOp.hear }
        ensures stands { (v : DriverView) → driver.stands self.old v → driver.stands self.new v }
        ensures left { driver.left self.new ≤ 2 };

    /// Begins a disarming, of one access.
    fn begin_disarm(&mut self)
        requires idle { driver.begun self.old ≡ DriverOp.idle }
        requires armed { driver.armed self.old ≡ true }
        ensures begun { driver.begun self.new ≡ DriverOp.disarm }
        ensures stands { (v : DriverView) → driver.stands self.old v → driver.stands self.new v }
        ensures left { driver.left self.new ≤ 1 };

    /// Makes one access of the operation in progress, on the end's own ring.
    fn step<P: Port>(&mut self, port: &mut P) -> DriverAct
        requires busy { ¬ (driver.begun self.old ≡ DriverOp.idle) }
        requires own { (v : DriverView) × driver.stands self.old v × IsOwn P.port driver.side port.old v }
        ensures { (v : DriverView) → driver.stands self.old v → IsOwn P.port driver.side port.old v
            → IsDriverStep P.port driver port.old port.new v self.old self.new result };

    ghost driver_lawful: { IsLawfulDriver driver };
}
