//! Single steps of a party over plain words.
ghost use Rattle.std.specs.Prelude.{◌≡◌, ℕ, List, None, false};
ghost use Rattle.vd_ring.specs.declared.device.DeviceView.{DeviceView};
ghost use Rattle.vd_ring.specs.declared.driver.DriverView.{DriverView};
ghost use Rattle.vd_relay.specs.Moving.{Holds};
ghost use Rattle.vd_relay.specs.Stages.{is_rested};
ghost use Rattle.vd_relay.specs.Tie.{Start};
ghost use Rattle.vd_relayed.specs.Ports.{GuestOn, DeviceOn, RelayOn};

use vd_bus::{Device, Guest};
use vd_iova::IovaTree;
use vd_layout::{Layout, Move};
use vd_relay::Relay;
use vd_words::Port;

/// One access of the guest.
pub fn step_guest<L: Layout, G: Guest<L>, P: Port>(guest: &mut G, port: &mut P) -> Move
    requires live { ¬ (G.party.is_done guest.old) }
    requires on { (ws : List ℕ) × (v : DriverView) ×
        (w : DeviceView) × P.port.plain port.old ws × L.layout.ring ws v w × G.party.holds guest.old v }
    ensures { (ws : List ℕ) (v : DriverView) (w : DeviceView) → P.port.plain port.old ws → L.layout.ring ws v w
        → G.party.holds guest.old v → GuestOn P.port L.Driver.driver L.layout G.party port.old port.new v w guest.old guest.new result }
{
    guest.step(port)
}

/// One access of the device.
pub fn step_device<L: Layout, V: Device<L>, P: Port>(device: &mut V, port: &mut P) -> Move
    requires live { ¬ (V.party.is_done device.old) }
    requires on { (ws : List ℕ) × (v : DriverView) ×
        (w : DeviceView) × P.port.plain port.old ws × L.layout.ring ws v w × V.party.holds device.old w }
    ensures { (ws : List ℕ) (v : DriverView) (w : DeviceView) → P.port.plain port.old ws → L.layout.ring ws v w
        → V.party.holds device.old w → DeviceOn P.port L.Device.device L.layout V.party port.old port.new v w device.old device.new result }
{
    device.step(port)
}

/// One access of the relay, on one of the two rings.
pub fn step_relay<L: Layout, P: Port, Q: Port>(
    relay: &mut Relay<L>,
    tree: &IovaTree,
    port: &mut P,
    other: &mut Q,
) -> Move
    requires plain { relay.old.control ≡ None }
    requires live { is_rested relay.old.state.stage ≡ false }
    requires on { (z : Start) × (ws : List ℕ) × (shadow_ws : List ℕ) × (v : DriverView) × (w : DeviceView) × (sv : DriverView)
        × (sw : DeviceView) × P.port.plain port.old ws × Q.port.plain other.old shadow_ws × L.layout.ring ws v w
        × L.layout.ring shadow_ws sv sw × Holds L.Device.device L.Driver.driver z relay.old.state relay.old.counts w sv
        × (tree.now.mappings ≡ z.map) }
    ensures step { (z : Start) (ws : List ℕ) (shadow_ws : List ℕ) (v : DriverView) (w : DeviceView) (sv : DriverView) (sw : DeviceView)
        → P.port.plain port.old ws → Q.port.plain other.old shadow_ws → L.layout.ring ws v w → L.layout.ring shadow_ws sv sw
        → Holds L.Device.device L.Driver.driver z relay.old.state relay.old.counts w sv → tree.now.mappings ≡ z.map
        → RelayOn P.port Q.port L.Device.device L.Driver.driver L.layout z port.old port.new other.old other.new v w sv sw relay.old.state
        relay.new.state relay.old.counts relay.new.counts result }
    ensures settings { relay.new.settings ≡ relay.old.settings }
    ensures plain { relay.new.control ≡ None }
{
    relay.step(tree, port, other)
}
