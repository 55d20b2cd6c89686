//! What a relay does with the device's end of the guest's ring.
ghost use Rattle.std.specs.Prelude.{◌≡◌, false};
ghost use Rattle.vd_words.specs.Own.{IsOwn};
ghost use Rattle.vd_ring.specs.declared.device.DeviceView.{DeviceView};
ghost use Rattle.vd_ring.specs.declared.driver.DriverView.{DriverView};
ghost use Rattle.vd_layout.specs.Begun.{DeviceOp, DriverOp};
ghost use Rattle.vd_relay.specs.Stages.{is_rested, is_shadow, heard_next};
ghost use Rattle.vd_relay.specs.Pace.{waking};
ghost use Rattle.vd_relay.specs.Tie.{Course};
ghost use Rattle.vd_relay.specs.Relay.{Stands, IsQuiet, IsKept};
ghost use Rattle.vd_relay.specs.Carriers.{CarriesOn};

use crate::begin::after_sleep;
use crate::carrier::Carrier;
use crate::counts::Turn;
use crate::stage::Stage;
use crate::state::State;
use vd_layout::{DeviceAct, DeviceEnd, DriverEnd, Layout};
use vd_words::Port;

/// What Awake ended: a hearing, or an arming or a disarming.
pub(crate) fn waking(stage: Stage) -> Turn
    ensures { result ≡ waking stage }
{
    if stage.is_hearing() {
        Turn::Woke
    } else {
        Turn::Worked
    }
}

/// Whose bell is heard next: they are heard in turn.
pub(crate) fn hear_next(stage: Stage) -> Stage
    ensures { result ≡ heard_next stage }
{
    match stage {
        Stage::HearingGuest => Stage::HearingShadow,
        Stage::HearingShadow => Stage::HearingGuest,
        _ => stage,
    }
}

/// Makes one access of the guest's ring. The offer of a chain is begun with the last access of its take.
pub(crate) fn guest_turn<L: Layout, C: Carrier<L>, P: Port>(
    state: &mut State<L::Device, L::Driver>,
    carrier: &mut C,
    port: &mut P,
) -> Turn
    requires live { is_rested state.old.stage ≡ false }
    requires side { is_shadow state.old.stage ≡ false }
    requires busy { ¬ (L.Device.device.begun state.old.guest ≡ DeviceOp.idle) }
    requires own { (z : Course) × (w : DeviceView) × (v : DriverView) × Stands L.Device.device L.Driver.driver z state.old w v
        × C.carrier.by carrier.old z.way v.frame × IsOwn P.port L.Device.device.side port.old w }
    ensures turn { (z : Course) (w : DeviceView) (v : DriverView) → Stands L.Device.device L.Driver.driver z state.old w v
        → C.carrier.by carrier.old z.way v.frame → IsOwn P.port L.Device.device.side port.old w
        → CarriesOn C.carrier P.port L.Device.device L.Driver.driver z carrier.old carrier.new port.old port.new
        state.old state.new w v result }
    ensures kept { IsKept state.old state.new }
    ensures quiet { IsQuiet L.Driver.driver state.old state.new }
    ensures calm { L.Driver.driver.begun state.new.shadow ≡ DriverOp.hear → L.Driver.driver.begun state.old.shadow ≡ DriverOp.hear }
{
    match state.guest.step(port) {
        DeviceAct::Taken(number, chain) => {
            if state.winding {
                return Turn::Handled;
            }
            let mut chain = chain;
            carrier.carry(number, &mut chain, &state.shadow);
            let head = state.shadow.next_head();
            state.shadow.begin_offer(&chain);
            state.stage = Stage::Offering { number, head };
            Turn::Handled
        }
        DeviceAct::Given(_) => {
            state.stage = Stage::Taking;
            Turn::Handled
        }
        DeviceAct::Nothing => {
            state.stage = Stage::Collecting { none: true };
            Turn::Worked
        }
        DeviceAct::Armed => {
            state.stage = Stage::ArmingShadow;
            Turn::Worked
        }
        DeviceAct::Awake => {
            let turn = waking(state.stage);
            state.stage = after_sleep::<L>(state);
            turn
        }
        DeviceAct::Asleep => {
            state.stage = hear_next(state.stage);
            Turn::Slept
        }
        DeviceAct::Rested => {
            state.stage = Stage::Rested;
            Turn::Worked
        }
        DeviceAct::Moved => Turn::Worked,
    }
}
