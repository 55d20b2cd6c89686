//! One access of a party of a control lane, whatever its relay does. The functions do nothing: their contracts are its laws.

ghost use Rattle.std.specs.Prelude.{◌≡◌, ℕ, List, Some, false};
ghost use Rattle.vd_model.specs.declared.record.Begun.{Begun};
ghost use Rattle.vd_ring.specs.declared.device.DeviceView.{DeviceView};
ghost use Rattle.vd_ring.specs.declared.driver.DriverView.{DriverView};
ghost use Rattle.vd_layout.specs.declared.moves.Move.{Move};
ghost use Rattle.vd_bus.specs.Device.{IsDeviceAccess};
ghost use Rattle.vd_bus.specs.Guest.{IsGuestAccess};
ghost use Rattle.vd_bus.specs.Orders.{IsControl};
ghost use Rattle.vd_control.specs.declared.settings.Settings.{Settings};
ghost use Rattle.vd_relay.specs.declared.control.Control.{Control};
ghost use Rattle.vd_relay.specs.declared.counts.Counts.{Counts};
ghost use Rattle.vd_relay.specs.declared.state.State.{State};
ghost use Rattle.vd_relay.specs.ModeSteps.{IsControlStep};
ghost use Rattle.vd_switch.specs.CommandLaneSteps.{DeviceCommanded, GuestCommanded};
ghost use Rattle.vd_switch.specs.Controlling.{ControlStart, IsControlling, start_of};
ghost use Rattle.vd_switch.specs.ControllingSteps.{RelayControlled};

use vd_bus::{Device, Guest};
use vd_layout::Layout;
use vd_words::Port;

/// One step of the relay over plain words keeps the lane. It is no step of the lane's bag, or the end of one chain; which access it was is
/// told, and the views after it.
pub fn control_relay_law<L: Layout, P: Port, Q: Port>()
    ensures { (x : ControlStart) (r : State L.Device L.Driver) (r2 : State L.Device L.Driver) (k : Control) (k2 : Control) (s : Settings)
        (s2 : Settings) (c : Counts) (c2 : Counts) (begun : List Begun) (now : Settings) (words : List ℕ) (shadow_words : List ℕ)
        (v : DriverView) (w : DeviceView) (sv : DriverView) (sw : DeviceView) (a : P) (a2 : P) (b : Q) (b2 : Q) (said : Move)
        → IsControlling L.layout L.Device.device L.Driver.driver x r k s c begun now words shadow_words v w sv sw → P.port.plain a words
        → Q.port.plain b shadow_words
        → (t : IsControlStep P.port Q.port L.layout L.Device.device L.Driver.driver x.opening a a2 b b2 w sv r r2 k k2 s s2 c c2 said)
        → RelayControlled P.port Q.port L.layout L.Device.device L.Driver.driver x a a2 b b2 t.by r r2 k k2 s2 c c2 begun now v w sv sw
        said }
{}

/// One step of the shadow ring's device keeps the lane. It begins one of the guest's commands exactly where it loads its second command
/// word; of the lane's bag it is no other step.
pub fn control_device_law<L: Layout, V: Device<L>, Q: Port>()
    ensures { (x : ControlStart) (r : State L.Device L.Driver) (k : Control) (s : Settings) (c : Counts) (words : List ℕ)
        (shadow_words : List ℕ) (v : DriverView) (w : DeviceView) (sv : DriverView) (sw : DeviceView) (y : V) (z : V) (b : Q) (b2 : Q)
        (said : Move)
        → IsControlling L.layout L.Device.device L.Driver.driver x r k s c (V.party.begun y) (V.party.settings y) words shadow_words v w
        sv sw → r.winding ≡ false → V.party.attached y ≡ Some x.by → IsControl x.by.queue → V.party.attached_with y ≡ x.settings
        → Q.port.plain b shadow_words → (t : IsDeviceAccess Q.port L.Device.device V.party b b2 sw y z said)
        → DeviceCommanded Q.port (start_of x k) (λ us. IsControlling L.layout L.Device.device L.Driver.driver x r k s c
        (V.party.begun z) (V.party.settings z) words us v w sv (L.Device.device.side.after sw t.op t.access t.got)) (V.party.begun y)
        (V.party.begun z) b2 v w sw (L.Device.device.side.after sw t.op t.access t.got) }
{}

/// One step of the guest keeps the lane. It offers one command, or none.
pub fn control_guest_law<L: Layout, G: Guest<L>, P: Port>()
    ensures { (x : ControlStart) (r : State L.Device L.Driver) (k : Control) (s : Settings) (c : Counts) (begun : List Begun)
        (now : Settings) (words : List ℕ) (shadow_words : List ℕ) (v : DriverView) (w : DeviceView) (sv : DriverView) (sw : DeviceView)
        (y : G) (z : G) (a : P) (a2 : P) (said : Move)
        → IsControlling L.layout L.Device.device L.Driver.driver x r k s c begun now words shadow_words v w sv sw → P.port.plain a words
        → (t : IsGuestAccess P.port L.Driver.driver G.party a a2 v y z said)
        → GuestCommanded P.port (start_of x k) (λ us. IsControlling L.layout L.Device.device L.Driver.driver x r k s c begun now us
        shadow_words (L.Driver.driver.side.after v t.op t.access t.got) w sv sw) begun a2 v
        (L.Driver.driver.side.after v t.op t.access t.got) w }
{}
