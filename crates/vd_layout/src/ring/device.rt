//! The operations of a plain ring's device.
ghost use Rattle.std.specs.Prelude.{◌≡◌, ◌↔◌, IsTrue, IsSome, IfSome, IsNone, IsOk, OnOk, OnErr, IfErr, false, true};
ghost use Rattle.vd_ring.specs.declared.act.DeviceAct.TheVariants.{Given, Rested};
ghost use Rattle.vd_ring.specs.declared.act.DeviceAct.TheVariants as device_act;
ghost use Rattle.vd_layout.specs.RingLists.{and_given, and_rested, after_device};
ghost use Rattle.vd_layout.specs.PlainRing.{IsAtWork, Sleeps, CanGive, CanRest, IsTake, IsDeviceArm, IsDeviceHear, IsDeviceMove};

use super::PlainRing;
use crate::device::{BadBase, DeviceEnd};
use crate::ended::end_device;
use crate::history::Note;
use crate::layout::Layout;
use vd_model::Base;
use vd_ring::DeviceAct;

impl<L: Layout> PlainRing<L> {
    /// Takes the next chain, where the device neither rests nor is armed.
    #[inline(always)]
    pub fn take(&mut self) -> Option<DeviceAct>
        ensures can { IsSome result ↔ IsAtWork self.old }
        ensures made { IfSome result (λ a. IsTake self.old.lists a × (self.new.lists ≡ after_device a 0 self.old.lists)) }
        ensures same { IsDeviceMove self.old self.new
            × ((self.new.resting ≡ self.old.resting) × (self.new.device_armed ≡ self.old.device_armed)) }
        ensures none { IsNone result → self.new ≡ self.old }
    {
        if self.resting || self.device.armed() {
            return None;
        }
        self.device.begin_take();
        let answer = end_device::<L>(&self.driver, &mut self.device, &mut self.words);
        self.history = self.history.then(&Note::Device(&answer, 0));
        Some(answer)
    }

    /// Whether chain number `k` may be given now.
    #[inline(always)]
    pub fn can_give(&self, k: u32) -> bool
        ensures { IsTrue result ↔ CanGive self.now k }
    {
        if self.resting || self.device.armed() {
            return false;
        }
        let held = self.device.holds(k);
        if !held {
            return false;
        }
        if !self.device.features().in_order {
            return true;
        }
        k == self.device.given()
    }

    /// Gives chain number `k` with a length in bytes, where it may be given.
    #[inline(always)]
    pub fn give(&mut self, k: u32, len: u32) -> Option<DeviceAct>
        ensures can { IsSome result ↔ CanGive self.old k }
        ensures made { IfSome result (λ a. (a ≡ device_act.Given k) × (self.new.lists ≡ and_given k len self.old.lists)) }
        ensures same { IsDeviceMove self.old self.new
            × ((self.new.resting ≡ self.old.resting) × (self.new.device_armed ≡ self.old.device_armed)) }
        ensures none { IsNone result → self.new ≡ self.old }
    {
        if !self.can_give(k) {
            return None;
        }
        self.device.begin_give(k, len);
        let answer = end_device::<L>(&self.driver, &mut self.device, &mut self.words);
        self.history = self.history.then(&Note::Device(&answer, len));
        Some(answer)
    }

    /// Arms the device, where it neither rests nor is armed. Awake leaves it unarmed.
    #[inline(always)]
    pub fn arm_device(&mut self) -> Option<DeviceAct>
        ensures can { IsSome result ↔ IsAtWork self.old }
        ensures made { IfSome result (λ a. IsDeviceArm a) }
        ensures armed { IfSome result (λ a. (a ≡ device_act.Armed) ↔ (self.new.device_armed ≡ true)) }
        ensures same { IsDeviceMove self.old self.new × ((self.new.resting ≡ self.old.resting) × (self.new.lists ≡ self.old.lists)) }
        ensures none { IsNone result → self.new ≡ self.old }
    {
        if self.resting || self.device.armed() {
            return None;
        }
        self.device.begin_arm();
        let answer = end_device::<L>(&self.driver, &mut self.device, &mut self.words);
        Some(answer)
    }

    /// Hears the driver's bell, where the device is armed. Asleep leaves it so, Awake not.
    #[inline(always)]
    pub fn hear_device(&mut self) -> Option<DeviceAct>
        ensures can { IsSome result ↔ Sleeps self.old }
        ensures made { IfSome result (λ a. IsDeviceHear a) }
        ensures armed { IfSome result (λ a. (a ≡ device_act.Asleep) ↔ (self.new.device_armed ≡ true)) }
        ensures same { IsDeviceMove self.old self.new × ((self.new.resting ≡ self.old.resting) × (self.new.lists ≡ self.old.lists)) }
        ensures none { IsNone result → self.new ≡ self.old }
    {
        if self.resting || !self.device.armed() {
            return None;
        }
        self.device.begin_hear();
        let answer = end_device::<L>(&self.driver, &mut self.device, &mut self.words);
        Some(answer)
    }

    /// Disarms the device, where it is armed.
    #[inline(always)]
    pub fn disarm_device(&mut self) -> Option<DeviceAct>
        ensures can { IsSome result ↔ Sleeps self.old }
        ensures made { IfSome result (λ a. (a ≡ device_act.Awake) × (self.new.device_armed ≡ false)) }
        ensures same { IsDeviceMove self.old self.new × ((self.new.resting ≡ self.old.resting) × (self.new.lists ≡ self.old.lists)) }
        ensures none { IsNone result → self.new ≡ self.old }
    {
        if self.resting || !self.device.armed() {
            return None;
        }
        self.device.begin_disarm();
        let answer = end_device::<L>(&self.driver, &mut self.device, &mut self.words);
        Some(answer)
    }

    /// Rests, where the chains given are all those below their count. The chains taken and not given are offered still.
    #[inline(always)]
    pub fn rest(&mut self) -> Option<DeviceAct>
        ensures can { IsSome result ↔ CanRest self.old }
        ensures made { IfSome result (λ a. (a ≡ device_act.Rested) × (self.new.lists ≡ and_rested self.old.lists)
            × (self.new.resting ≡ true) × (self.new.device_armed ≡ false)) }
        ensures same { IsDeviceMove self.old self.new }
        ensures none { IsNone result → self.new ≡ self.old }
    {
        if self.resting || !self.device.whole() {
            return None;
        }
        self.device.begin_rest();
        let answer = end_device::<L>(&self.driver, &mut self.device, &mut self.words);
        self.history = self.history.then(&Note::Device(&answer, 0));
        self.resting = true;
        Some(answer)
    }

    /// The base of a ring that rests.
    pub fn base(&self) -> Option<Base>
        ensures can { IsSome result ↔ (self.now.resting ≡ true) }
        ensures base { IfSome result (λ b. b.0 ≡ self.now.base) }
    {
        if !self.resting {
            return None;
        }
        Some(self.device.base())
    }

    /// Ends the rest where the base is the ring's own. None where it doesn't rest.
    pub fn resume(&mut self, b: Base) -> Option<Result<(), BadBase>>
        ensures can { IsSome result ↔ (self.old.resting ≡ true) }
        ensures ok { IfSome result (λ r. IsOk r ↔ (b.0 ≡ self.old.base)) }
        ensures err { IfSome result (λ r. IfErr r (λ x. (x.kept.0 ≡ self.old.base) × (x.given ≡ b))) }
        ensures rests { IfSome result (λ r. OnOk r (self.new.resting ≡ false) × OnErr r (self.new ≡ self.old)) }
        ensures same { IsDeviceMove self.old self.new × (self.new.lists ≡ self.old.lists) }
        ensures none { IsNone result → self.new ≡ self.old }
    {
        if !self.resting {
            return None;
        }
        match self.device.resume(b) {
            Ok(()) => {
                self.resting = false;
                Some(Ok(()))
            }
            Err(bad) => Some(Err(bad)),
        }
    }
}
