//! The device's end of a ring.
ghost use Rattle.std.specs.Prelude.{ℕ, ◌≡◌, ◌<◌, ◌≤◌, ◌-◌, ◌↔◌, IsTrue, IsOk, OnOk, IfErr, length, true, false};
ghost use Rattle.std.specs.List.{Contains};
ghost use Rattle.vd_model.specs.Chains.{IsChain};
ghost use Rattle.vd_ring.specs.declared.device.DeviceView.{DeviceView};
ghost use Rattle.vd_ring.specs.History.{takes, gives, running, IsWhole};
ghost use Rattle.vd_words.specs.Own.{IsOwn};
ghost use Rattle.vd_layout.specs.Begun.{DeviceOp};
ghost use Rattle.vd_layout.specs.Device.{DeviceModel, MayGive, IsStill, IsDeviceStep, IsLawfulDevice};
ghost use Rattle.vd_layout.specs.Telling.{act_of};

use thiserror::Error;
use vd_model::{Base, Chain, Features};
use vd_ring::DeviceAct;
use vd_words::Port;

/// A base was given that isn't the end's own.
#[derive(Copy, Clone, Debug, PartialEq, Eq, Drop, Error)]
#[error("the base is {}, and {} was given", .kept.0, .given.0)]
pub struct BadBase {
    /// The base that the end keeps.
    pub kept: Base,
    /// The base that was given.
    pub given: Base,
}

/// What one step told. A `DeviceAct` without the chain of a take, for which a holder then needn't keep room.
#[derive(Copy, Clone)]
pub enum Told {
    Moved,
    Taken(u32),
    Given(u32),
    Nothing,
    Armed,
    Awake,
    Asleep,
    Rested,
}

/// The device's end of a ring. It is idle, or in the middle of one operation. A `begin_` call starts an operation and
/// makes no access; each `step` makes one.
pub trait DeviceEnd: Drop {
    ghost device: { DeviceModel Self };

    /// How many places the ring has.
    fn size(&self) -> u32
        ensures { result ≡ device.size self.now };

    /// The features with which the ring was made.
    fn features(&self) -> Features
        ensures { result ≡ device.features self.now };

    /// Whether no operation is in progress.
    fn idle(&self) -> bool
        ensures { IsTrue result ↔ (device.begun self.now ≡ DeviceOp.idle) };

    /// Whether the end is armed.
    fn armed(&self) -> bool
        ensures { result ≡ device.armed self.now };

    /// How many chains were taken.
    fn taken(&self) -> u32
        ensures { (w : DeviceView) → device.stands self.now w → result ≡ length (takes w.done) };

    /// How many chains were given.
    fn given(&self) -> u32
        ensures { (w : DeviceView) → device.stands self.now w → result ≡ length (gives w.done) };

    /// How many chains were taken and not given.
    fn outstanding(&self) -> u32
        ensures { (w : DeviceView) → device.stands self.now w → result ≡ length (takes w.done) - length (gives w.done) };

    /// Whether chain number `k` was taken and not given.
    fn holds(&self, k: u32) -> bool
        ensures { (w : DeviceView) → device.stands self.now w → IsTrue result ↔ Contains (running w.done) k };

    /// Whether the chains given are exactly those with a number below `given`.
    fn whole(&self) -> bool
        ensures { (w : DeviceView) → device.stands self.now w → IsTrue result ↔ IsWhole w.done };

    /// Begins a take of the next chain.
    fn begin_take(&mut self)
        requires idle { device.begun self.old ≡ DeviceOp.idle }
        requires unarmed { device.armed self.old ≡ false }
        requires awake { device.resting self.old ≡ false }
        ensures begun { device.begun self.new ≡ DeviceOp.take }
        ensures awake { device.resting self.new ≡ false }
        ensures stands { (w : DeviceView) → device.stands self.old w → device.stands self.new w }
        ensures left { device.left self.new ≤ 36 };

    /// Begins the give of chain number `k` with a length in bytes.
    fn begin_give(&mut self, k: u32, len: u32)
        requires idle { device.begun self.old ≡ DeviceOp.idle }
        requires unarmed { device.armed self.old ≡ false }
        requires awake { device.resting self.old ≡ false }
        requires may { (w : DeviceView) × device.stands self.old w × MayGive w.frame w.done k }
        ensures begun { device.begun self.new ≡ DeviceOp.give k len }
        ensures awake { device.resting self.new ≡ false }
        ensures stands { (w : DeviceView) → device.stands self.old w → device.stands self.new w }
        ensures left { device.left self.new ≤ 5 };

    /// Begins an arming: the event word is stored, and the end looks again.
    fn begin_arm(&mut self)
        requires idle { device.begun self.old ≡ DeviceOp.idle }
        requires awake { device.resting self.old ≡ false }
        requires unarmed { device.armed self.old ≡ false }
        ensures begun { device.begun self.new ≡ DeviceOp.arm }
        ensures awake { device.resting self.new ≡ false }
        ensures stands { (w : DeviceView) → device.stands self.old w → device.stands self.new w }
        ensures left { device.left self.new ≤ 3 };

    /// Begins a hearing of the driver's bell.
    fn begin_hear(&mut self)
        requires idle { device.begun self.old ≡ DeviceOp.idle }
        requires awake { device.resting self.old ≡ false }
        requires armed { device.armed self.old ≡ true }
        ensures begun { device.begun self.new ≡ DeviceOp.hear }
        ensures awake { device.resting self.new ≡ false }
        ensures stands { (w : DeviceView) → device.stands self.old w → device.stands self.new w }
        ensures left { device.left self.new ≤ 2 };

    /// Begins a disarming, of one access.
    fn begin_disarm(&mut self)
        requires idle { device.begun self.old ≡ DeviceOp.idle }
        requires awake { device.resting self.old ≡ false }
        requires armed { device.armed self.old ≡ true }
        ensures begun { device.begun self.new ≡ DeviceOp.disarm }
        ensures awake { device.resting self.new ≡ false }
        ensures stands { (w : DeviceView) → device.stands self.old w → device.stands self.new w }
        ensures left { device.left self.new ≤ 1 };

    /// Begins a rest. After it the chains taken and not given are offered still.
    fn begin_rest(&mut self)
        requires idle { device.begun self.old ≡ DeviceOp.idle }
        requires awake { device.resting self.old ≡ false }
        requires whole { (w : DeviceView) × device.stands self.old w × IsWhole w.done }
        ensures begun { device.begun self.new ≡ DeviceOp.rest }
        ensures awake { device.resting self.new ≡ false }
        ensures stands { (w : DeviceView) → device.stands self.old w → device.stands self.new w }
        ensures left { device.left self.new ≤ 2 };

    /// Makes one access of the operation in progress, on the end's own ring, and tells what it did. A chain that it took is
    /// `chain`'s until the next take.
    fn advance<P: Port>(&mut self, port: &mut P) -> Told
        requires busy { ¬ (device.begun self.old ≡ DeviceOp.idle) }
        requires own { (w : DeviceView) × device.stands self.old w × IsOwn P.port device.side port.old w }
        ensures did { (w : DeviceView) → device.stands self.old w → IsOwn P.port device.side port.old w
            → IsDeviceStep P.port device port.old port.new w self.old self.new (act_of result (device.loaded self.new)) }
        ensures chain { (k : ℕ) → result ≡ Told.Taken k → IsChain (device.loaded self.new) };

    /// The chain taken last.
    fn chain(&self) -> Chain
        requires { IsChain (device.loaded self.now) }
        ensures { result ≡ device.loaded self.now };

    /// Makes one access of the operation in progress, on the end's own ring, and answers with the chain that it took.
    #[inline(always)]
    fn step<P: Port>(&mut self, port: &mut P) -> DeviceAct
        requires busy { ¬ (device.begun self.old ≡ DeviceOp.idle) }
        requires own { (w : DeviceView) × device.stands self.old w × IsOwn P.port device.side port.old w }
        ensures { (w : DeviceView) → device.stands self.old w → IsOwn P.port device.side port.old w
            → IsDeviceStep P.port device port.old port.new w self.old self.new result }
    {
        match self.advance(port) {
            Told::Moved => DeviceAct::Moved,
            Told::Taken(number) => DeviceAct::Taken(number, self.chain()),
            Told::Given(number) => DeviceAct::Given(number),
            Told::Nothing => DeviceAct::Nothing,
            Told::Armed => DeviceAct::Armed,
            Told::Awake => DeviceAct::Awake,
            Told::Asleep => DeviceAct::Asleep,
            Told::Rested => DeviceAct::Rested,
        }
    }

    /// Where the ring stands, in the form of its layout.
    fn base(&self) -> Base
        requires { IsStill device self.now }
        ensures { result.0 ≡ device.base self.now };

    /// Ends the rest where the base is the end's own. Else the end is unchanged.
    fn resume(&mut self, b: Base) -> Result<(), BadBase>
        requires { IsStill device self.old }
        ensures ok { IsOk result ↔ (b.0 ≡ device.base self.old) }
        ensures begun { OnOk result (device.begun self.new ≡ DeviceOp.idle) }
        ensures awake { OnOk result (device.resting self.new ≡ false) }
        ensures stands { OnOk result ((w : DeviceView) → device.stands self.old w → device.stands self.new w) }
        ensures err { IfErr result (λ x. (x.kept.0 ≡ device.base self.old) × (x.given ≡ b) × (self.new ≡ self.old)) };

    ghost device_lawful: { IsLawfulDevice device };
}
