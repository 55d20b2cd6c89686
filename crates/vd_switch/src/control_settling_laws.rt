//! The settings of a control lane, whatever its relay does. The functions do nothing: their contracts are its laws.

ghost use Rattle.std.specs.Prelude.{◌≡◌, ℕ, ◌-◌, List, ◌++◌, length, map, take, drop, Some, true};
ghost use Rattle.vd_model.specs.declared.record.Begun.{Begun};
ghost use Rattle.vd_ring.specs.declared.device.DeviceView.{DeviceView};
ghost use Rattle.vd_ring.specs.declared.driver.DriverView.{DriverView};
ghost use Rattle.vd_ring.specs.History.{gives};
ghost use Rattle.vd_control.specs.declared.settings.Settings.{Settings};
ghost use Rattle.vd_control.specs.Commands.{spelled};
ghost use Rattle.vd_control.specs.Settings.{default};
ghost use Rattle.vd_commands.specs.Words.{set_by};
ghost use Rattle.vd_relay.specs.declared.control.Control.{Control};
ghost use Rattle.vd_relay.specs.declared.counts.Counts.{Counts};
ghost use Rattle.vd_relay.specs.declared.state.State.{State};
ghost use Rattle.vd_relay.specs.Modes.{has_replayed};
ghost use Rattle.vd_relay.specs.Stages.{is_rested};
ghost use Rattle.vd_switch.specs.CommandLanes.{guest_commands, lane_commands};
ghost use Rattle.vd_switch.specs.CommandSettling.{AcksCount};
ghost use Rattle.vd_switch.specs.Controlling.{ControlStart, IsControlling, replay_list, start_of};

use vd_layout::Layout;

/// The settings that a stop hands out are those at the takeover, changed by the guest's commands that were given back since. So where those
/// were the settings after all commands given back before, these are the settings after all that are given back now.
pub fn control_settled_law<L: Layout>()
    ensures { (x : ControlStart) (r : State L.Device L.Driver) (k : Control) (s : Settings) (c : Counts) (begun : List Begun)
        (now : Settings) (words : List ℕ) (shadow_words : List ℕ) (v : DriverView) (w : DeviceView) (sv : DriverView) (sw : DeviceView)
        → IsControlling L.layout L.Device.device L.Driver.driver x r k s c begun now words shadow_words v w sv sw
        → is_rested r.stage ≡ true → AcksCount sv.done
        → (s ≡ set_by x.opening.settings (take (length (gives w.done) - length x.opening.gives)
        (drop (length x.opening.gives) (guest_commands v))))
        × (x.opening.settings ≡ set_by default (take (length x.opening.gives) (guest_commands v))
        → s ≡ set_by default (take (length (gives w.done)) (guest_commands v))) }
{}

/// The settings of the shadow ring's device are those at its attach, changed by what it has begun since: by the commands replayed, and then
/// by the guest's. Once every command of the replay list was acknowledged, and before it begins one of the guest's, they are those that
/// the list sets.
pub fn control_settings_law<L: Layout>()
    ensures { (x : ControlStart) (r : State L.Device L.Driver) (k : Control) (s : Settings) (c : Counts) (begun : List Begun)
        (now : Settings) (words : List ℕ) (shadow_words : List ℕ) (v : DriverView) (w : DeviceView) (sv : DriverView) (sw : DeviceView)
        → IsControlling L.layout L.Device.device L.Driver.driver x r k s c begun now words shadow_words v w sv sw
        → (now ≡ set_by x.settings (take (length (drop x.by.at begun))
        (map spelled (start_of x k).replays ++ drop (length x.opening.gives) (guest_commands v))))
        × (has_replayed (Some k) ≡ true → lane_commands (start_of x k) begun ≡ x.old
        → now ≡ set_by x.settings (map spelled (replay_list x))) }
{}
