//! The begin of a relay's wind-up.
ghost use Rattle.std.specs.Prelude.{◌≡◌, true, false};
ghost use Rattle.vd_ring.specs.declared.device.DeviceView.{DeviceView};
ghost use Rattle.vd_ring.specs.declared.driver.DriverView.{DriverView};
ghost use Rattle.vd_control.specs.declared.settings.Settings.{Settings};
ghost use Rattle.vd_relay.specs.declared.commander.Commander.{Commander};
ghost use Rattle.vd_relay.specs.declared.counts.Counts.{Counts};
ghost use Rattle.vd_relay.specs.Stages.{is_rested};
ghost use Rattle.vd_relay.specs.Tie.{Course};
ghost use Rattle.vd_relay.specs.Relay.{Holds};
ghost use Rattle.vd_relay.specs.Commanding.{Takeover};
ghost use Rattle.vd_relay.specs.CommandSteps.{CommandHolds};
ghost use Rattle.vd_relay.specs.Modes.{Opening, ControlHolds};

use crate::begin::after_sleep;
use crate::control::{Control, Mode};
use crate::state::State;
use vd_layout::{DeviceEnd, DriverEnd, Layout};

/// From now on no chain's offer is begun. A sleeper is roused.
pub(crate) fn wind_up<L: Layout>(state: &mut State<L::Device, L::Driver>, given: u32)
    requires live { is_rested state.old.stage ≡ false }
    requires once { state.old.winding ≡ false }
    ensures holds { (z : Course) (c : Counts) (w : DeviceView) (v : DriverView)
        → Holds L.Device.device L.Driver.driver z state.old c w v → Holds L.Device.device L.Driver.driver z state.new c w v }
    ensures commands { (z : Takeover) (x : Commander) (s : Settings) (c : Counts) (w : DeviceView) (v : DriverView)
        → CommandHolds L.layout L.Device.device L.Driver.driver z state.old x s c w v
        → CommandHolds L.layout L.Device.device L.Driver.driver z state.new x s c w v }
    ensures live { is_rested state.new.stage ≡ false }
    ensures winding { state.new.winding ≡ true }
    ensures target { state.new.target ≡ given }
{
    state.winding = true;
    state.target = given;
    if state.stage.is_hearing() && state.guest.idle() && state.shadow.idle() {
        state.stage = after_sleep::<L>(state);
    }
}

/// Of a relay of a control queue: a replay winds up itself.
pub(crate) fn wind_up_control<L: Layout>(
    state: &mut State<L::Device, L::Driver>,
    control: &mut Control,
    given: u32,
)
    requires live { is_rested state.old.stage ≡ false }
    requires once { state.old.winding ≡ false }
    requires held { (z : Opening) × (s : Settings) × (c : Counts) × (w : DeviceView) × (v : DriverView)
        × ControlHolds L.layout L.Device.device L.Driver.driver z state.old control.old s c w v }
    ensures holds { (z : Opening) (s : Settings) (c : Counts) (w : DeviceView) (v : DriverView)
        → ControlHolds L.layout L.Device.device L.Driver.driver z state.old control.old s c w v
        → ControlHolds L.layout L.Device.device L.Driver.driver z state.new control.new s c w v }
    ensures live { is_rested state.new.stage ≡ false }
    ensures winding { state.new.winding ≡ true }
    ensures target { state.new.target ≡ given }
    ensures mode { control.new.mode ≡ control.old.mode }
    ensures next { control.new.replay.next ≡ control.old.replay.next }
{
    match control.mode {
        Mode::Replaying => {
            state.winding = true;
            state.target = given;
            control.replay.begin_wind_up::<L>(&state.shadow, given);
        }
        Mode::Carrying => wind_up::<L>(state, given),
        Mode::Leaving => wind_up::<L>(state, given),
    }
}
