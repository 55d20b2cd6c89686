//! One access of a party of a control lane. The functions do nothing: their contracts are its laws.

ghost use Rattle.std.specs.Prelude.{◌≡◌, ℕ, List, Option, Some, Bool, false};
ghost use Rattle.vd_model.specs.declared.record.Begun.{Begun};
ghost use Rattle.vd_ring.specs.declared.device.DeviceView.{DeviceView};
ghost use Rattle.vd_ring.specs.declared.driver.DriverView.{DriverView};
ghost use Rattle.vd_layout.specs.declared.moves.Move.{Move};
ghost use Rattle.vd_bus.specs.Device.{IsDeviceAccess};
ghost use Rattle.vd_bus.specs.Guest.{IsGuestAccess};
ghost use Rattle.vd_bus.specs.Orders.{IsControl};
ghost use Rattle.vd_control.specs.declared.settings.Settings.{Settings};
ghost use Rattle.vd_control.specs.Settings.{replay};
ghost use Rattle.vd_table.specs.declared.Command as kept;
ghost use Rattle.vd_relay.specs.declared.carry.Carry.{Carry};
ghost use Rattle.vd_relay.specs.declared.commander.Commander.{Commander};
ghost use Rattle.vd_relay.specs.declared.counts.Counts.{Counts};
ghost use Rattle.vd_relay.specs.declared.counts.Turn.{Turn};
ghost use Rattle.vd_relay.specs.declared.replay.Replay.{Replay};
ghost use Rattle.vd_relay.specs.declared.state.State.{State};
ghost use Rattle.vd_relay.specs.CommandSteps.{IsCommandStep};
ghost use Rattle.vd_relay.specs.Leaving.{IsLeave};
ghost use Rattle.vd_relay.specs.Replays.{ReplayTurn};
ghost use Rattle.vd_switch.specs.CommandLanes.{CommandStart, IsReplaying, IsCommandLane};
ghost use Rattle.vd_switch.specs.CommandLaneSteps.{DeviceCommanded, GuestCommanded, RelayCommanded, IsCarryingStep, ReplayCommanded};

use vd_bus::{Device, Guest};
use vd_layout::Layout;
use vd_words::Port;

/// One step of the shadow ring's device keeps a control lane whose relay carries. It begins one of the guest's commands exactly where it
/// loads its second command word; of the lane's bag it is no other step.
pub fn command_device_law<L: Layout, V: Device<L>, Q: Port>()
    ensures { (y : CommandStart) (r : State L.Device L.Driver) (table : List (Option kept.Command)) (settings : Settings)
        (words : List ℕ) (shadow_words : List ℕ) (v : DriverView) (w : DeviceView) (sv : DriverView) (sw : DeviceView) (x : V) (z : V)
        (b : Q) (b2 : Q) (said : Move)
        → IsCommandLane L.Device.device L.Driver.driver L.layout y r table settings (V.party.begun x) (V.party.settings x) words shadow_words
        v w sv sw → r.winding ≡ false → V.party.attached x ≡ Some y.by → IsControl y.by.queue → V.party.attached_with x ≡ y.settings
        → Q.port.plain b shadow_words → (s : IsDeviceAccess Q.port L.Device.device V.party b b2 sw x z said)
        → DeviceCommanded Q.port y (λ us. IsCommandLane L.Device.device L.Driver.driver L.layout y r table settings (V.party.begun z)
        (V.party.settings z) words us v w sv (L.Device.device.side.after sw s.op s.access s.got)) (V.party.begun x) (V.party.begun z) b2 v w
        sw (L.Device.device.side.after sw s.op s.access s.got) }
{}

/// And one whose relay replays.
pub fn replaying_device_law<L: Layout, V: Device<L>, Q: Port>()
    ensures { (y : CommandStart) (words : List ℕ) (shadow_words : List ℕ) (v : DriverView) (w : DeviceView) (sv : DriverView)
        (sw : DeviceView) (x : V) (z : V) (b : Q) (b2 : Q) (said : Move)
        → IsReplaying L.layout y (V.party.begun x) (V.party.settings x) words shadow_words v w sv sw → V.party.attached x ≡ Some y.by
        → IsControl y.by.queue → V.party.attached_with x ≡ y.settings → Q.port.plain b shadow_words
        → (s : IsDeviceAccess Q.port L.Device.device V.party b b2 sw x z said)
        → DeviceCommanded Q.port y (λ us. IsReplaying L.layout y (V.party.begun z) (V.party.settings z) words us v w sv
        (L.Device.device.side.after sw s.op s.access s.got)) (V.party.begun x) (V.party.begun z) b2 v w
        sw (L.Device.device.side.after sw s.op s.access s.got) }
{}

/// One step of the guest keeps a control lane whose relay carries.
pub fn command_guest_law<L: Layout, G: Guest<L>, P: Port>()
    ensures { (y : CommandStart) (r : State L.Device L.Driver) (table : List (Option kept.Command)) (settings : Settings)
        (begun : List Begun) (now : Settings) (words : List ℕ) (shadow_words : List ℕ) (v : DriverView) (w : DeviceView) (sv : DriverView)
        (sw : DeviceView) (x : G) (z : G) (a : P) (a2 : P) (said : Move)
        → IsCommandLane L.Device.device L.Driver.driver L.layout y r table settings begun now words shadow_words v w sv sw
        → P.port.plain a words → (s : IsGuestAccess P.port L.Driver.driver G.party a a2 v x z said)
        → GuestCommanded P.port y (λ us. IsCommandLane L.Device.device L.Driver.driver L.layout y r table settings begun now us shadow_words
        (L.Driver.driver.side.after v s.op s.access s.got) w sv sw) begun a2 v (L.Driver.driver.side.after v s.op s.access s.got) w }
{}

/// And one whose relay replays.
pub fn replaying_guest_law<L: Layout, G: Guest<L>, P: Port>()
    ensures { (y : CommandStart) (begun : List Begun) (now : Settings) (words : List ℕ) (shadow_words : List ℕ) (v : DriverView)
        (w : DeviceView) (sv : DriverView) (sw : DeviceView) (x : G) (z : G) (a : P) (a2 : P) (said : Move)
        → IsReplaying L.layout y begun now words shadow_words v w sv sw → P.port.plain a words
        → (s : IsGuestAccess P.port L.Driver.driver G.party a a2 v x z said)
        → GuestCommanded P.port y (λ us. IsReplaying L.layout y begun now us shadow_words
        (L.Driver.driver.side.after v s.op s.access s.got) w sv sw) begun a2 v (L.Driver.driver.side.after v s.op s.access s.got) w }
{}

/// One step of a relay that carries keeps the lane. It is no step of the lane's bag, or the end of one chain.
pub fn command_relay_law<L: Layout, P: Port, Q: Port>()
    ensures { (y : CommandStart) (r : State L.Device L.Driver) (r2 : State L.Device L.Driver) (table : List (Option kept.Command))
        (table2 : List (Option kept.Command)) (settings : Settings) (settings2 : Settings) (hand : Carry) (begun : List Begun)
        (now : Settings) (words : List ℕ) (shadow_words : List ℕ) (v : DriverView) (w : DeviceView) (sv : DriverView) (sw : DeviceView)
        (a : P) (a2 : P) (b : Q) (b2 : Q) (c : Counts) (c2 : Counts) (said : Move)
        → IsCommandLane L.Device.device L.Driver.driver L.layout y r table settings begun now words shadow_words v w sv sw
        → P.port.plain a words → Q.port.plain b shadow_words
        → IsCarryingStep P.port Q.port L.layout L.Device.device L.Driver.driver y.from a a2 b b2 w sv r r2 hand table2 settings2 c c2 said
        → RelayCommanded P.port Q.port L.Device.device L.Driver.driver L.layout y r2 table2 settings2 begun now a2 b2 v w sw }
{}

/// And so does a step as the relay's code makes it, by accesses of command and ack words and of its rings' operations.
pub fn command_step_law<L: Layout, P: Port, Q: Port>()
    ensures { (y : CommandStart) (r : State L.Device L.Driver) (r2 : State L.Device L.Driver) (x : Commander) (x2 : Commander)
        (settings : Settings) (settings2 : Settings) (begun : List Begun) (now : Settings) (words : List ℕ) (shadow_words : List ℕ)
        (v : DriverView) (w : DeviceView) (sv : DriverView) (sw : DeviceView) (a : P) (a2 : P) (b : Q) (b2 : Q) (c : Counts) (c2 : Counts)
        (said : Move)
        → IsCommandLane L.Device.device L.Driver.driver L.layout y r x.commands settings begun now words shadow_words v w sv sw
        → P.port.plain a words → Q.port.plain b shadow_words
        → IsCommandStep P.port Q.port L.layout L.Device.device L.Driver.driver y.from a a2 b b2 w sv r r2 x x2 settings settings2 c c2 said
        → RelayCommanded P.port Q.port L.Device.device L.Driver.driver L.layout y r2 x2.commands settings2 begun now a2 b2 v w sw }
{}

/// One step of a relay that replays keeps the lane: an access of the shadow ring.
pub fn replaying_relay_law<L: Layout, Q: Port>()
    ensures { (y : CommandStart) (begun : List Begun) (now : Settings) (words : List ℕ) (shadow_words : List ℕ) (v : DriverView)
        (w : DeviceView) (sv : DriverView) (sw : DeviceView) (r : Replay) (r2 : Replay) (x : L.Driver) (x2 : L.Driver) (b : Q) (b2 : Q)
        (turn : Turn) → IsReplaying L.layout y begun now words shadow_words v w sv sw → Q.port.plain b shadow_words
        → (t : ReplayTurn Q.port L.layout L.Driver.driver b b2 r r2 x x2 sv turn) → y.replays ≡ replay r2.settings
        → ReplayCommanded Q.port (λ us. IsReplaying L.layout y begun now words us v w
        (L.Driver.driver.side.after sv t.op t.access t.got) sw) b2 }
{}

/// So does one by which it leaves the guest's end, where it never came to carry.
pub fn replaying_leave_law<L: Layout, P: Port>()
    ensures { (y : CommandStart) (begun : List Begun) (now : Settings) (words : List ℕ) (shadow_words : List ℕ) (v : DriverView)
        (w : DeviceView) (sv : DriverView) (sw : DeviceView) (end : L.Device) (end2 : L.Device) (a : P) (a2 : P) (rested : Bool)
        → IsReplaying L.layout y begun now words shadow_words v w sv sw → P.port.plain a words
        → (t : IsLeave P.port L.Device.device a a2 end end2 w rested)
        → ReplayCommanded P.port (λ us. IsReplaying L.layout y begun now us shadow_words v
        (L.Device.device.side.after w t.op t.access t.got) sv sw) a2 }
{}
