//! A control lane whose relay sleeps while it carries. The functions do nothing: their contracts are its laws.

ghost use Rattle.std.specs.Prelude.{◌≡◌, ℕ, List, true, false};
ghost use Rattle.vd_ring.specs.declared.device.DeviceView.{DeviceView};
ghost use Rattle.vd_ring.specs.declared.driver.DriverView.{DriverView};
ghost use Rattle.vd_ring.specs.Signals.{nothing};
ghost use Rattle.vd_ring.specs.Sleep.{DriverWaits, DeviceWaits, driver_owed};
ghost use Rattle.vd_layout.specs.Begun.{DriverOp, DeviceOp};
ghost use Rattle.vd_relay.specs.declared.state.State.{State};
ghost use Rattle.vd_relay.specs.Commanding.{Takeover, carries};
ghost use Rattle.vd_relay.specs.Relay.{Stands};
ghost use Rattle.vd_relay.specs.Stages.{is_hearing};
ghost use Rattle.vd_relay.specs.Ways.{IsReplayed};
ghost use Rattle.vd_switch.specs.Sleeping.{SleepsOn, IsControlAtRest};

use vd_layout::Layout;

/// A relay that carries, hears and doesn't wind up, and whose ends are idle, keeps nothing; its ends are armed, and what it replayed is
/// collected.
pub fn control_sleeping_law<L: Layout>()
    ensures { (y : Takeover) (r : State L.Device L.Driver) (w : DeviceView) (v : DriverView)
        → Stands L.Device.device L.Driver.driver (carries y) r w v → r.winding ≡ false → is_hearing r.stage ≡ true
        → L.Device.device.begun r.guest ≡ DeviceOp.idle → L.Driver.driver.begun r.shadow ≡ DriverOp.idle
        → SleepsOn (carries y) w v × IsReplayed y.replayed v.done }
{}

/// Where the guest owes no check and no bell, and relay and device sleep without a signal, nothing lies before any of them.
pub fn control_rest_of_all_law<L: Layout>()
    ensures { (y : Takeover) (words : List ℕ) (shadow_words : List ℕ) (v : DriverView) (w : DeviceView) (sv : DriverView) (sw : DeviceView)
        → L.layout.ring words v w → L.layout.ring shadow_words sv sw → SleepsOn (carries y) w sv → IsReplayed y.replayed sv.done
        → driver_owed v.doing ≡ nothing → DeviceWaits v w → DriverWaits sv sw → DeviceWaits sv sw → IsControlAtRest y v w sv sw }
{}
