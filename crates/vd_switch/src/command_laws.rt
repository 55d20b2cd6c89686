//! The lane of the control queue. The functions do nothing: their contracts are its laws.

ghost use Rattle.std.specs.Prelude.{◌≡◌, ℕ, ◌-◌, ◌≤◌, Bool, List, [], ◌++◌, length, map, take, drop, Option, Some, true, false};
ghost use Rattle.std.specs.List.{All};
ghost use Rattle.vd_model.specs.declared.record.Begun.{Begun};
ghost use Rattle.vd_ring.specs.declared.device.DeviceView.{DeviceView};
ghost use Rattle.vd_ring.specs.declared.driver.DriverView.{DriverView};
ghost use Rattle.vd_ring.specs.History.{offers, takes, gives, numbers, occurs};
ghost use Rattle.vd_control.specs.declared.settings.Settings.{Settings};
ghost use Rattle.vd_commands.specs.Loads.{ack_load};
ghost use Rattle.vd_control.specs.Commands.{spelled};
ghost use Rattle.vd_commands.specs.Words.{ack_byte, set_by};
ghost use Rattle.vd_table.specs.declared.Command as kept;
ghost use Rattle.vd_relay.specs.declared.stage.Stage.TheVariants.{Rested};
ghost use Rattle.vd_relay.specs.declared.state.State.{State};
ghost use Rattle.vd_relay.specs.Commanding.{carries, AreCarried};
ghost use Rattle.vd_relay.specs.Settling.{bytes_of};
ghost use Rattle.vd_relay.specs.Relay.{Stands};
ghost use Rattle.vd_switch.specs.Account.{IsBegunBefore};
ghost use Rattle.vd_switch.specs.ShadowingLanes.{IsWinding};
ghost use Rattle.vd_switch.specs.CommandLanes.{CommandStart, CommandParts, IsReplaying, IsCommandLane, KeepsCommands, IsSpelled, IsAnsweredTo, AreAnsweredTo, before, guest_commands, lane_commands};
ghost use Rattle.vd_switch.specs.CommandSettling.{settled_by, PassWhereOk};
ghost use Rattle.vd_switch.specs.CommandLaneSteps.{LeavesCommands};

use vd_layout::Layout;

/// A control lane whose relay carries is kept: what its device has journalled, its account, and the acks.
pub fn command_law<L: Layout>()
    ensures { (y : CommandStart) (r : State L.Device L.Driver) (table : List (Option kept.Command)) (settings : Settings)
        (begun : List Begun) (now : Settings) (words : List ℕ) (shadow_words : List ℕ) (v : DriverView) (w : DeviceView) (sv : DriverView)
        (sw : DeviceView)
        → IsCommandLane L.Device.device L.Driver.driver L.layout y r table settings begun now words shadow_words v w sv sw
        → KeepsCommands y begun v w }
{}

/// So is one whose relay replays.
pub fn replaying_law<L: Layout>()
    ensures { (y : CommandStart) (begun : List Begun) (now : Settings) (words : List ℕ) (shadow_words : List ℕ) (v : DriverView)
        (w : DeviceView) (sv : DriverView) (sw : DeviceView) → IsReplaying L.layout y begun now words shadow_words v w sv sw
        → KeepsCommands y begun v w }
{}

/// Where the acks of the chains given before were right, all are that were given and that the guest loaded.
pub fn answers_law<L: Layout>()
    ensures { (y : CommandStart) (begun : List Begun) (words : List ℕ) (v : DriverView) (w : DeviceView) → L.layout.ring words v w
        → KeepsCommands y begun v w → AreAnsweredTo (before y) v w
        → ((k : ℕ) → 1 ≤ occurs k (numbers (gives w.done)) → IsAnsweredTo v w k)
        × ((k : ℕ) (x : ℕ) → ack_load v.done k ≡ Some x → x ≡ ack_byte (bytes_of v.frame v.done k)) }
{}

/// What a stop of a control lane leaves.
pub fn command_still_law<L: Layout>()
    ensures { (y : CommandStart) (r : State L.Device L.Driver) (table : List (Option kept.Command)) (settings : Settings)
        (begun : List Begun) (now : Settings) (words : List ℕ) (shadow_words : List ℕ) (v : DriverView) (w : DeviceView) (sv : DriverView)
        (sw : DeviceView)
        → IsCommandLane L.Device.device L.Driver.driver L.layout y r table settings begun now words shadow_words v w sv sw
        → r.stage ≡ Rested → LeavesCommands L.Device.device r.guest (lane_commands y begun) v w
        × (AreAnsweredTo (before y) v w → AreAnsweredTo (length (gives w.done)) v w) }
{}

/// What it leaves where the relay never came to carry, and the guest's end rests.
pub fn replaying_still_law<L: Layout>()
    ensures { (y : CommandStart) (begun : List Begun) (now : Settings) (words : List ℕ) (shadow_words : List ℕ) (v : DriverView)
        (w : DeviceView) (sv : DriverView) (sw : DeviceView) (end : L.Device)
        → IsReplaying L.layout y begun now words shadow_words v w sv sw → L.Device.device.stands end w → L.Device.device.resting end ≡ true
        → LeavesCommands L.Device.device end (lane_commands y begun) v w }
{}

/// A control lane begins with a device that is just attached to a fresh shadow ring.
pub fn command_start_law<L: Layout>()
    ensures { (y : CommandStart) (begun : List Begun) (words : List ℕ) (shadow_words : List ℕ) (v : DriverView) (w : DeviceView)
        (sv : DriverView) (sw : DeviceView) → L.layout.ring words v w → L.layout.ring shadow_words sv sw → v.frame.control ≡ true
        → sv.frame.control ≡ true → takes w.done ≡ y.from.takes → gives w.done ≡ y.from.gives
        → length y.from.takes ≡ length y.from.gives → sv.done ≡ [] → sw.done ≡ [] → y.by.at ≡ length begun → y.by.from ≡ 0
        → y.from.replayed ≡ length y.replays → All IsSpelled y.replays
        → IsBegunBefore y.old (take (before y) (guest_commands v)) y.from.gives → All (λ x. x.1 ≡ 1) y.old
        → IsReplaying L.layout y begun y.settings words shadow_words v w sv sw }
{}

/// It goes on once its relay carries, after what was replayed.
pub fn command_carry_law<L: Layout>()
    ensures { (y : CommandStart) (r : State L.Device L.Driver) (table : List (Option kept.Command)) (settings : Settings)
        (begun : List Begun) (now : Settings) (words : List ℕ) (shadow_words : List ℕ) (v : DriverView) (w : DeviceView) (sv : DriverView)
        (sw : DeviceView) → IsReplaying L.layout y begun now words shadow_words v w sv sw
        → (s : Stands L.Device.device L.Driver.driver (carries y.from) r w sv)
        → AreCarried y.from table settings (L.Device.device.words.ack w.frame) s.acts sv.frame sv.done → r.winding ≡ false
        → IsCommandLane L.Device.device L.Driver.driver L.layout y r table settings begun now words shadow_words v w sv sw }
{}

/// It goes on while its relay winds up, once the shadow ring's device is done.
pub fn command_wind_law<L: Layout>()
    ensures { (y : CommandStart) (r : State L.Device L.Driver) (r2 : State L.Device L.Driver) (table : List (Option kept.Command))
        (settings : Settings) (begun : List Begun) (now : Settings) (words : List ℕ) (shadow_words : List ℕ) (v : DriverView)
        (w : DeviceView) (sv : DriverView) (sw : DeviceView)
        → IsCommandLane L.Device.device L.Driver.driver L.layout y r table settings begun now words shadow_words v w sv sw
        → (s : Stands L.Device.device L.Driver.driver (carries y.from) r2 w sv)
        → AreCarried y.from table settings (L.Device.device.words.ack w.frame) s.acts sv.frame sv.done → IsWinding r2 sw
        → IsCommandLane L.Device.device L.Driver.driver L.layout y r2 table settings begun now words shadow_words v w sv sw }
{}

/// The settings of the shadow ring's device are those at its attach, changed by what it has begun since: by the commands replayed, and then
/// by the guest's.
pub fn command_settings_law<L: Layout>()
    ensures { (y : CommandStart) (begun : List Begun) (now : Settings) (words : List ℕ) (shadow_words : List ℕ) (v : DriverView)
        (w : DeviceView) (sv : DriverView) (sw : DeviceView) → CommandParts L.layout y begun now words shadow_words v w sv sw
        → KeepsCommands y begun v w
        → now ≡ set_by y.settings (take (length (drop y.by.at begun)) (map spelled y.replays ++ drop (before y) (guest_commands v))) }
{}

/// Where a relay's settings are changed by the commands acknowledged, in the order of the commands, and each ack was loaded, they are those
/// at its takeover, changed by the guest's commands from the first on that was not given before.
pub fn command_settled_law<L: Layout>()
    ensures { (y : CommandStart) (r : State L.Device L.Driver) (table : List (Option kept.Command)) (settings : Settings)
        (begun : List Begun) (now : Settings) (words : List ℕ) (shadow_words : List ℕ) (v : DriverView) (w : DeviceView) (sv : DriverView)
        (sw : DeviceView) (passes : ℕ → Bool)
        → IsCommandLane L.Device.device L.Driver.driver L.layout y r table settings begun now words shadow_words v w sv sw
        → PassWhereOk y.from passes sv.done → settings ≡ settled_by y.from passes sv.frame sv.done
        → settings ≡ set_by y.from.settings (take (length (offers sv.done) - y.from.replayed) (drop (before y) (guest_commands v))) }
{}
