//! A control lane, whatever its relay does: one record stands for it between two accesses. The functions do nothing: their contracts are
//! its laws.

ghost use Rattle.std.specs.Prelude.{◌≡◌, ℕ, List, [], length, take, true, false};
ghost use Rattle.std.specs.List.{All};
ghost use Rattle.vd_model.specs.declared.record.Begun.{Begun};
ghost use Rattle.vd_ring.specs.declared.device.DeviceView.{DeviceView};
ghost use Rattle.vd_ring.specs.declared.driver.DriverView.{DriverView};
ghost use Rattle.vd_ring.specs.History.{takes, gives};
ghost use Rattle.vd_control.specs.declared.settings.Settings.{Settings};
ghost use Rattle.vd_relay.specs.declared.control.Control.{Control};
ghost use Rattle.vd_relay.specs.declared.control.Mode.TheVariants.{Carrying};
ghost use Rattle.vd_relay.specs.declared.counts.Counts.{Counts};
ghost use Rattle.vd_relay.specs.declared.state.State.{State};
ghost use Rattle.vd_relay.specs.Modes.{ControlHolds};
ghost use Rattle.vd_relay.specs.Stages.{is_rested};
ghost use Rattle.vd_switch.specs.Account.{IsBegunBefore};
ghost use Rattle.vd_switch.specs.ShadowingLanes.{IsWinding};
ghost use Rattle.vd_switch.specs.CommandLanes.{KeepsCommands, IsSpelled, AreAnsweredTo, guest_commands, lane_commands};
ghost use Rattle.vd_switch.specs.CommandLaneSteps.{LeavesCommands};
ghost use Rattle.vd_switch.specs.Controlling.{ControlStart, IsControlling, replay_list, start_of};

use vd_layout::Layout;

/// It begins with a new relay, and with a device that is just attached to a fresh shadow ring. A relay that carries at once has nothing
/// to replay.
pub fn control_start_law<L: Layout>()
    ensures { (x : ControlStart) (r : State L.Device L.Driver) (k : Control) (s : Settings) (c : Counts) (begun : List Begun)
        (words : List ℕ) (shadow_words : List ℕ) (v : DriverView) (w : DeviceView) (sv : DriverView) (sw : DeviceView)
        → ControlHolds L.layout L.Device.device L.Driver.driver x.opening r k s c w sv → r.winding ≡ false
        → (k.mode ≡ Carrying → k.replay.next ≡ length (replay_list x)) → L.layout.ring words v w → L.layout.ring shadow_words sv sw
        → v.frame.control ≡ true → sv.frame.control ≡ true → takes w.done ≡ x.opening.takes → gives w.done ≡ x.opening.gives
        → length x.opening.takes ≡ length x.opening.gives → sv.done ≡ [] → sw.done ≡ [] → x.by.at ≡ length begun → x.by.from ≡ 0
        → All IsSpelled (replay_list x) → IsBegunBefore x.old (take (length x.opening.gives) (guest_commands v)) x.opening.gives
        → All (λ y. y.1 ≡ 1) x.old
        → IsControlling L.layout L.Device.device L.Driver.driver x r k s c begun x.settings words shadow_words v w sv sw }
{}

/// It is kept: what its device has journalled, its account, and the acks.
pub fn control_law<L: Layout>()
    ensures { (x : ControlStart) (r : State L.Device L.Driver) (k : Control) (s : Settings) (c : Counts) (begun : List Begun)
        (now : Settings) (words : List ℕ) (shadow_words : List ℕ) (v : DriverView) (w : DeviceView) (sv : DriverView) (sw : DeviceView)
        → IsControlling L.layout L.Device.device L.Driver.driver x r k s c begun now words shadow_words v w sv sw
        → KeepsCommands (start_of x k) begun v w }
{}

/// It goes on while its relay winds up, once the shadow ring's device is done. Of the lane's bag this is no step.
pub fn control_wind_law<L: Layout>()
    ensures { (x : ControlStart) (r : State L.Device L.Driver) (r2 : State L.Device L.Driver) (k : Control) (k2 : Control) (s : Settings)
        (c : Counts) (begun : List Begun) (now : Settings) (words : List ℕ) (shadow_words : List ℕ) (v : DriverView) (w : DeviceView)
        (sv : DriverView) (sw : DeviceView)
        → IsControlling L.layout L.Device.device L.Driver.driver x r k s c begun now words shadow_words v w sv sw → r.winding ≡ false
        → ControlHolds L.layout L.Device.device L.Driver.driver x.opening r2 k2 s c w sv → k2.mode ≡ k.mode
        → k2.replay.next ≡ k.replay.next → IsWinding r2 sw
        → IsControlling L.layout L.Device.device L.Driver.driver x r2 k2 s c begun now words shadow_words v w sv sw
        × (lane_commands (start_of x k2) begun ≡ lane_commands (start_of x k) begun) }
{}

/// What a stop leaves: the next epoch can begin with it.
pub fn control_still_law<L: Layout>()
    ensures { (x : ControlStart) (r : State L.Device L.Driver) (k : Control) (s : Settings) (c : Counts) (begun : List Begun)
        (now : Settings) (words : List ℕ) (shadow_words : List ℕ) (v : DriverView) (w : DeviceView) (sv : DriverView) (sw : DeviceView)
        → IsControlling L.layout L.Device.device L.Driver.driver x r k s c begun now words shadow_words v w sv sw
        → is_rested r.stage ≡ true → LeavesCommands L.Device.device r.guest (lane_commands (start_of x k) begun) v w
        × (AreAnsweredTo (length x.opening.gives) v w → AreAnsweredTo (length (gives w.done)) v w) }
{}
