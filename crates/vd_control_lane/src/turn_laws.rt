//! A turn of a guest or of a device keeps the lane of the control queue. The functions do nothing: their contracts are its laws.

ghost use Rattle.std.specs.Prelude.{◌≡◌, ℕ, List, Some, length, false};
ghost use Rattle.vd_model.specs.declared.record.Begun.{Begun};
ghost use Rattle.vd_model.specs.declared.record.Script.{Script};
ghost use Rattle.vd_ring.specs.declared.device.DeviceView.{DeviceView};
ghost use Rattle.vd_ring.specs.declared.driver.DriverView.{DriverView};
ghost use Rattle.vd_bus.specs.GuestCommands.{HasCommands, commands};
ghost use Rattle.vd_bus.specs.Orders.{IsControl};
ghost use Rattle.vd_control.specs.declared.settings.Settings.{Settings};
ghost use Rattle.vd_relay.specs.declared.control.Control.{Control};
ghost use Rattle.vd_relay.specs.declared.counts.Counts.{Counts};
ghost use Rattle.vd_relay.specs.declared.state.State.{State};
ghost use Rattle.vd_switch.specs.CommandLanes.{AreAnsweredTo};
ghost use Rattle.vd_switch.specs.Controlling.{ControlStart, IsControlling};
ghost use Rattle.vd_turns.specs.Turns.{GuestRun, DeviceRun};
ghost use Rattle.vd_control_lane.specs.Scripts.{AreSendable};

use vd_bus::{Device, Guest};
use vd_layout::Layout;

/// A guest's turn keeps the lane, and the acks of the chains given before its relay's takeover stay right.
pub fn guest_turn_law<L: Layout, G: Guest<L>>()
    ensures { (x : ControlStart) (r : State L.Device L.Driver) (k : Control) (s : Settings) (c : Counts) (begun : List Begun)
        (now : Settings) (words : List ℕ) (words2 : List ℕ) (shadow_words : List ℕ) (v : DriverView) (w : DeviceView) (sv : DriverView)
        (sw : DeviceView) (script : Script) (y : G) (z : G) (made : ℕ)
        → IsControlling L.layout L.Device.device L.Driver.driver x r k s c begun now words shadow_words v w sv sw
        → G.party.holds y v → G.party.script y ≡ Some script → HasCommands script → AreSendable (commands script)
        → (t : GuestRun L.layout G.party words2 v w y z made)
        → IsControlling L.layout L.Device.device L.Driver.driver x r k s c begun now words2 shadow_words t.view w sv sw
        × (AreAnsweredTo (length x.opening.gives) v w → AreAnsweredTo (length x.opening.gives) t.view w) }
{}

/// A turn of the shadow ring's device keeps the lane while its relay doesn't wind up.
pub fn device_turn_law<L: Layout, V: Device<L>>()
    ensures { (x : ControlStart) (r : State L.Device L.Driver) (k : Control) (s : Settings) (c : Counts) (words : List ℕ)
        (shadow_words : List ℕ) (shadow_words2 : List ℕ) (v : DriverView) (w : DeviceView) (sv : DriverView) (sw : DeviceView) (y : V)
        (z : V) (made : ℕ)
        → IsControlling L.layout L.Device.device L.Driver.driver x r k s c (V.party.begun y) (V.party.settings y) words shadow_words v w
        sv sw → r.winding ≡ false → V.party.attached y ≡ Some x.by → IsControl x.by.queue → V.party.attached_with y ≡ x.settings
        → (t : DeviceRun L.layout V.party shadow_words2 sv sw y z made)
        → IsControlling L.layout L.Device.device L.Driver.driver x r k s c (V.party.begun z) (V.party.settings z) words shadow_words2 v w
        sv t.view }
{}
