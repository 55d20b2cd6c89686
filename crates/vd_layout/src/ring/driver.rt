//! The operations of a plain ring's driver.
ghost use Rattle.std.specs.Prelude.{◌≡◌, ◌≤◌, ◌↔◌, IsTrue, IsSome, IfSome, IsNone, length, false, true};
ghost use Rattle.vd_model.specs.Chains.{total};
ghost use Rattle.vd_ring.specs.declared.act.DriverAct.TheVariants.{Offered};
ghost use Rattle.vd_ring.specs.declared.act.DriverAct.TheVariants as driver_act;
ghost use Rattle.vd_layout.specs.RingLists.{and_offered, after_driver};
ghost use Rattle.vd_layout.specs.PlainRing.{CanOffer, IsCollect, IsDriverArm, IsDriverHear, IsDriverMove};

use super::PlainRing;
use crate::driver::DriverEnd;
use crate::ended::end_driver;
use crate::history::Note;
use crate::layout::Layout;
use vd_model::Chain;
use vd_ring::DriverAct;

impl<L: Layout> PlainRing<L> {
    /// Whether the chain may be offered now.
    #[inline(always)]
    pub fn can_offer(&self, c: &Chain) -> bool
        ensures { IsTrue result ↔ CanOffer self.now c.now }
    {
        if self.driver.armed() || !has_few_bytes(c) {
            return false;
        }
        let offered = self.driver.offered();
        if offered >= self.limit {
            return false;
        }
        self.driver.room(c)
    }

    /// Offers the chain, where it may be.
    #[inline(always)]
    pub fn offer(&mut self, c: &Chain) -> Option<DriverAct>
        ensures can { IsSome result ↔ CanOffer self.old c.now }
        ensures made { IfSome result (λ a. (a ≡ driver_act.Offered (length self.old.lists.offered))
            × (self.new.lists ≡ and_offered c.now self.old.lists)) }
        ensures same { IsDriverMove self.old self.new × (self.new.driver_armed ≡ self.old.driver_armed) }
        ensures none { IsNone result → self.new ≡ self.old }
    {
        if !self.can_offer(c) {
            return None;
        }
        let _ = c.pieces();
        self.driver.begin_offer(c);
        let answer = end_driver::<L>(&mut self.driver, &self.device, &mut self.words);
        self.history = self.history.then(&Note::Offered(c));
        Some(answer)
    }

    /// Collects the next used entry, where the driver isn't armed.
    #[inline(always)]
    pub fn collect(&mut self) -> Option<DriverAct>
        ensures can { IsSome result ↔ (self.old.driver_armed ≡ false) }
        ensures made { IfSome result (λ a. IsCollect self.old.lists a × (self.new.lists ≡ after_driver a self.old.lists)) }
        ensures same { IsDriverMove self.old self.new × (self.new.driver_armed ≡ self.old.driver_armed) }
        ensures none { IsNone result → self.new ≡ self.old }
    {
        if self.driver.armed() {
            return None;
        }
        self.driver.begin_collect();
        let answer = end_driver::<L>(&mut self.driver, &self.device, &mut self.words);
        self.history = self.history.then(&Note::Driver(&answer));
        Some(answer)
    }

    /// Arms the driver, where it isn't armed. Awake leaves it so.
    #[inline(always)]
    pub fn arm_driver(&mut self) -> Option<DriverAct>
        ensures can { IsSome result ↔ (self.old.driver_armed ≡ false) }
        ensures made { IfSome result (λ a. IsDriverArm a) }
        ensures armed { IfSome result (λ a. (a ≡ driver_act.Armed) ↔ (self.new.driver_armed ≡ true)) }
        ensures same { IsDriverMove self.old self.new × (self.new.lists ≡ self.old.lists) }
        ensures none { IsNone result → self.new ≡ self.old }
    {
        if self.driver.armed() {
            return None;
        }
        self.driver.begin_arm();
        let answer = end_driver::<L>(&mut self.driver, &self.device, &mut self.words);
        Some(answer)
    }

    /// Hears the device's bell, where the driver is armed. Asleep leaves it so, Awake not.
    #[inline(always)]
    pub fn hear_driver(&mut self) -> Option<DriverAct>
        ensures can { IsSome result ↔ (self.old.driver_armed ≡ true) }
        ensures made { IfSome result (λ a. IsDriverHear a) }
        ensures armed { IfSome result (λ a. (a ≡ driver_act.Asleep) ↔ (self.new.driver_armed ≡ true)) }
        ensures same { IsDriverMove self.old self.new × (self.new.lists ≡ self.old.lists) }
        ensures none { IsNone result → self.new ≡ self.old }
    {
        if !self.driver.armed() {
            return None;
        }
        self.driver.begin_hear();
        let answer = end_driver::<L>(&mut self.driver, &self.device, &mut self.words);
        Some(answer)
    }

    /// Disarms the driver, where it is armed.
    #[inline(always)]
    pub fn disarm_driver(&mut self) -> Option<DriverAct>
        ensures can { IsSome result ↔ (self.old.driver_armed ≡ true) }
        ensures made { IfSome result (λ a. (a ≡ driver_act.Awake) × (self.new.driver_armed ≡ false)) }
        ensures same { IsDriverMove self.old self.new × (self.new.lists ≡ self.old.lists) }
        ensures none { IsNone result → self.new ≡ self.old }
    {
        if !self.driver.armed() {
            return None;
        }
        self.driver.begin_disarm();
        let answer = end_driver::<L>(&mut self.driver, &self.device, &mut self.words);
        Some(answer)
    }
}

/// Whether the chain has at most 2^32 - 1 bytes.
#[inline(always)]
fn has_few_bytes(c: &Chain) -> bool
    ensures { IsTrue result ↔ (total c.now ≤ 4294967295) }
{
    let mut sum = 0u64;
    for p in c.pieces() {
        sum += p.len as u64;
    }
    sum <= 0xffff_ffff
}
