//! A lane in an epoch of the mode shadow.
ghost use Rattle.std.specs.Prelude.{◌≡◌, ◌<◌, ◌↔◌, ℕ, Some, None, is_some, IsSome, IsSomeAnd, IsTrue, false, true, length};
ghost use Rattle.vd_words.specs.Own.{IsOwn};
ghost use Rattle.vd_ring.specs.declared.device.DeviceView.{DeviceView};
ghost use Rattle.vd_ring.specs.declared.driver.DriverView.{DriverView};
ghost use Rattle.vd_ring.specs.History.{gives};
ghost use Rattle.vd_bus.specs.Device.{IsSuspend};
ghost use Rattle.vd_control.specs.Settings.{HasPairs, replay};
ghost use Rattle.vd_commands.specs.Loads.{ack_load};
ghost use Rattle.vd_relay.specs.declared.control.Control.{Control};
ghost use Rattle.vd_relay.specs.Stages.{is_rested};
ghost use Rattle.vd_relay.specs.Tie.{Start};
ghost use Rattle.vd_relay.specs.Modes.{Opening, ControlHolds, has_replayed};
ghost use Rattle.vd_relay.specs.ModeEnds.{HandsBackControl};
ghost use Rattle.vd_relay.specs.ModeSteps.{CanControl, IsControlStep};
ghost use Rattle.vd_relay.specs.Moving.{Holds, CanStep, IsRelayStep};
ghost use Rattle.vd_relay.specs.Replays.{ReplayHolds};

use crate::still::Still;
use vd_bus::Device;
use vd_iova::IovaTree;
use vd_layout::{DeviceEnd, Layout, Move};
use vd_relay::Relay;
use vd_words::Port;

/// A lane whose device works on a shadow ring: a relay takes the chains from the guest's ring, offers them there with moved addresses,
/// and gives back what comes back. It owns the device's end of the guest's ring.
#[derive(Drop)]
pub struct Shadowing<L: Layout> {
    pub(crate) relay: Relay<L>,
}

impl<L: Layout> Shadowing<L> {
    pub(crate) fn new(relay: Relay<L>) -> Shadowing<L>
        ensures { result.relay ≡ relay }
    {
        Shadowing { relay }
    }

    /// Makes exactly one access of the relay, on one of the two ports.
    pub fn step<P: Port, Q: Port>(
        &mut self,
        tree: &IovaTree,
        guest_port: &mut P,
        shadow_port: &mut Q,
    ) -> Move
        requires live { is_rested self.old.relay.state.stage ≡ false }
        requires own { self.old.relay.control ≡ None → CanStep P.port Q.port L.Device.device L.Driver.driver tree.now.mappings
            guest_port.old shadow_port.old self.old.relay.state self.old.relay.counts }
        requires commands { (k : Control) → self.old.relay.control ≡ Some k → CanControl P.port Q.port L.layout L.Device.device
            L.Driver.driver guest_port.old shadow_port.old self.old.relay.state k self.old.relay.settings self.old.relay.counts }
        ensures step { self.old.relay.control ≡ None → (z : Start) (w : DeviceView) (v : DriverView)
            → Holds L.Device.device L.Driver.driver z self.old.relay.state self.old.relay.counts w v → tree.now.mappings ≡ z.map
            → IsOwn P.port L.Device.device.side guest_port.old w → IsOwn Q.port L.Driver.driver.side shadow_port.old v
            → IsRelayStep P.port Q.port L.Device.device L.Driver.driver z guest_port.old guest_port.new shadow_port.old shadow_port.new w v
            self.old.relay.state self.new.relay.state self.old.relay.counts self.new.relay.counts result }
        ensures plain { self.old.relay.control ≡ None → self.new.relay.control ≡ None }
        ensures settings { self.old.relay.control ≡ None → self.new.relay.settings ≡ self.old.relay.settings }
        ensures lawful { HasPairs self.old.relay.settings → HasPairs self.new.relay.settings }
        ensures commands { (k : Control) → self.old.relay.control ≡ Some k → IsSomeAnd self.new.relay.control (λ k'. (z : Opening)
            (w : DeviceView) (v : DriverView)
            → ControlHolds L.layout L.Device.device L.Driver.driver z self.old.relay.state k self.old.relay.settings self.old.relay.counts
            w v → IsOwn P.port L.Device.device.side guest_port.old w → IsOwn Q.port L.Driver.driver.side shadow_port.old v
            → IsControlStep P.port Q.port L.layout L.Device.device L.Driver.driver z guest_port.old guest_port.new shadow_port.old
            shadow_port.new w v self.old.relay.state self.new.relay.state k k' self.old.relay.settings self.new.relay.settings
            self.old.relay.counts self.new.relay.counts result) }
    {
        self.relay.step(tree, guest_port, shadow_port)
    }

    /// Whether every command of the replay list was acknowledged: at once where nothing is replayed.
    pub fn replayed(&self) -> bool
        ensures is { result ≡ has_replayed self.now.relay.control }
        ensures exact { (k : Control) → self.now.relay.control ≡ Some k → (v : DriverView)
            → ReplayHolds L.layout L.Driver.driver k.replay self.now.relay.state.shadow v
            → IsTrue result ↔ ((i : ℕ) → i < length (replay k.replay.settings) → IsSome (ack_load v.done i)) }
    {
        self.relay.replayed()
    }

    /// Suspends the shadow ring's device, which is done, and lets the relay wind up: it gives back what that device gave.
    pub fn begin_wind_up<V: Device<L>>(&mut self, device: &mut V)
        requires live { is_rested self.old.relay.state.stage ≡ false }
        requires once { self.old.relay.state.winding ≡ false }
        requires commands { (k : Control) → self.old.relay.control ≡ Some k → (z : Opening) × (w : DeviceView) × (v : DriverView)
            × ControlHolds L.layout L.Device.device L.Driver.driver z self.old.relay.state k self.old.relay.settings
            self.old.relay.counts w v }
        requires done { V.party.is_done device.old }
        requires held { (w : DeviceView) × V.party.holds device.old w }
        ensures suspended { (end : L.Device) × IsSuspend L.Device.device V.party device.old device.new end }
        ensures holds { self.old.relay.control ≡ None → (z : Start) (w : DeviceView) (v : DriverView)
            → Holds L.Device.device L.Driver.driver z self.old.relay.state self.old.relay.counts w v
            → Holds L.Device.device L.Driver.driver z self.new.relay.state self.new.relay.counts w v }
        ensures plain { self.old.relay.control ≡ None → self.new.relay.control ≡ None }
        ensures commands { (k : Control) → self.old.relay.control ≡ Some k → IsSomeAnd self.new.relay.control (λ k'. (z : Opening)
            (w : DeviceView) (v : DriverView)
            → ControlHolds L.layout L.Device.device L.Driver.driver z self.old.relay.state k self.old.relay.settings self.old.relay.counts
            w v → ControlHolds L.layout L.Device.device L.Driver.driver z self.new.relay.state k' self.new.relay.settings
            self.new.relay.counts w v) }
        ensures as_far { (k : Control) → self.old.relay.control ≡ Some k → IsSomeAnd self.new.relay.control (λ k'. (k'.mode ≡ k.mode)
            × (k'.replay.next ≡ k.replay.next)) }
        ensures live { is_rested self.new.relay.state.stage ≡ false }
        ensures winding { self.new.relay.state.winding ≡ true }
        ensures target { (sw : DeviceView) → V.party.holds device.old sw → self.new.relay.state.target ≡ length (gives sw.done) }
        ensures counts { self.new.relay.counts ≡ self.old.relay.counts }
        ensures settings { self.new.relay.settings ≡ self.old.relay.settings }
    {
        let end = device.suspend();
        self.relay.begin_wind_up(end.given());
    }

    /// Whether it winds up.
    pub fn winds(&self) -> bool
        ensures { result ≡ self.now.relay.state.winding }
    {
        self.relay.state.winding
    }

    /// Whether the guest's end rests.
    pub fn rested(&self) -> bool
        ensures { result ≡ is_rested self.now.relay.state.stage }
    {
        self.relay.rested()
    }

    /// The still lane after the wind-up. It is a control lane exactly where its relay was one of a control queue.
    pub fn stop(self) -> Still<L>
        requires rested { is_rested self.relay.state.stage ≡ true }
        requires held { self.relay.control ≡ None → (z : Start) × (w : DeviceView) × (v : DriverView)
            × Holds L.Device.device L.Driver.driver z self.relay.state self.relay.counts w v }
        requires commands { (k : Control) → self.relay.control ≡ Some k → (z : Opening) × (w : DeviceView) × (v : DriverView)
            × ControlHolds L.layout L.Device.device L.Driver.driver z self.relay.state k self.relay.settings self.relay.counts w v }
        ensures end { result.end ≡ self.relay.state.guest }
        ensures control { result.control ≡ is_some self.relay.control }
        ensures settings { result.settings ≡ self.relay.settings }
        ensures commands { (k : Control) → self.relay.control ≡ Some k → (z : Opening) (w : DeviceView) (v : DriverView)
            → ControlHolds L.layout L.Device.device L.Driver.driver z self.relay.state k self.relay.settings self.relay.counts w v
            → HandsBackControl L.Device.device L.Driver.driver z k result.settings result.end self.relay.state.shadow
            self.relay.state.target w v }
    {
        let control = self.relay.control.is_some();
        let (end, _, settings) = self.relay.hand_back();
        Still {
            end,
            control,
            settings,
        }
    }

    /// How many of its steps did not answer Looked, a wind-up's repeated looks left out. It stays at the last u64.
    pub fn accesses(&self) -> u64
        ensures { result ≡ self.now.relay.counts.accesses }
    {
        self.relay.accesses()
    }

    /// How many of its steps took, offered, collected or gave a chain.
    pub fn handled(&self) -> u64
        ensures { result ≡ self.now.relay.counts.handled }
    {
        self.relay.handled()
    }

    /// How many of its steps ended a hearing with Awake.
    pub fn heard(&self) -> u64
        ensures { result ≡ self.now.relay.counts.heard }
    {
        self.relay.heard()
    }
}
