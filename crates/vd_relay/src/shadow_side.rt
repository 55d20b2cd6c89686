//! What a relay does with the driver's end of the shadow ring.
ghost use Rattle.std.specs.Prelude.{◌≡◌, true};
ghost use Rattle.vd_words.specs.Own.{IsOwn};
ghost use Rattle.vd_ring.specs.declared.device.DeviceView.{DeviceView};
ghost use Rattle.vd_ring.specs.declared.driver.DriverView.{DriverView};
ghost use Rattle.vd_layout.specs.Begun.{DeviceOp, DriverOp};
ghost use Rattle.vd_relay.specs.Stages.{is_shadow, none_next};
ghost use Rattle.vd_relay.specs.Pace.{repeating};
ghost use Rattle.vd_relay.specs.Tie.{Course};
ghost use Rattle.vd_relay.specs.Relay.{Stands, IsQuiet, IsKept};
ghost use Rattle.vd_relay.specs.Tellings.{MayTell, TellsOf};

use crate::begin::after_sleep;
use crate::carrier::Carrier;
use crate::counts::Turn;
use crate::guest_side::{hear_next, waking};
use crate::stage::Stage;
use crate::state::State;
use vd_layout::{DeviceEnd, DriverAct, DriverEnd, Layout};
use vd_table::Origin;
use vd_words::Port;

/// What comes after a look that showed no entry: where the take before it showed nothing either, the ends are armed.
fn after_nothing(stage: Stage) -> Stage
    ensures { result ≡ none_next stage }
{
    match stage {
        Stage::Collecting { none: true } => Stage::ArmingGuest,
        _ => Stage::Taking,
    }
}

/// What a look of the wind-up was: it is made again until all is collected and given.
fn repeating(stage: Stage) -> Turn
    ensures { result ≡ repeating stage }
{
    match stage {
        Stage::Collecting { .. } => Turn::Again,
        _ => Turn::Worked,
    }
}

/// Makes one access of the shadow ring. The give of a chain is begun with the last access of its collect. The carrier is told which
/// chain was offered or collected, by its head.
pub(crate) fn shadow_turn<L: Layout, C: Carrier<L>, Q: Port>(
    state: &mut State<L::Device, L::Driver>,
    carrier: &mut C,
    port: &mut Q,
) -> Turn
    requires side { is_shadow state.old.stage ≡ true }
    requires busy { ¬ (L.Driver.driver.begun state.old.shadow ≡ DriverOp.idle) }
    requires own { (z : Course) × (w : DeviceView) × (v : DriverView) × Stands L.Device.device L.Driver.driver z state.old w v
        × MayTell C.carrier carrier.old state.old v × IsOwn Q.port L.Driver.driver.side port.old v }
    ensures turn { (z : Course) (w : DeviceView) (v : DriverView) → Stands L.Device.device L.Driver.driver z state.old w v
        → IsOwn Q.port L.Driver.driver.side port.old v
        → TellsOf C.carrier Q.port L.Device.device L.Driver.driver z carrier.old carrier.new port.old port.new
        state.old state.new w v result }
    ensures kept { IsKept state.old state.new }
    ensures quiet { IsQuiet L.Driver.driver state.old state.new }
    ensures calm { L.Device.device.begun state.new.guest ≡ DeviceOp.hear → L.Device.device.begun state.old.guest ≡ DeviceOp.hear }
{
    match state.shadow.step(port) {
        DriverAct::Offered(_) => {
            let Stage::Offering { number, head } = state.stage else {
                unreachable!()
            };
            let origin = Origin::Guest {
                number,
                ack_place: 0,
            };
            state.table.put(head, origin);
            carrier.offered(head);
            state.stage = Stage::Collecting { none: false };
            Turn::Handled
        }
        DriverAct::Collected { len, head, .. } => {
            let Origin::Guest { number, .. } = state.table.take(head) else {
                unreachable!()
            };
            state.guest.begin_give(number, len);
            carrier.collected(head);
            state.stage = Stage::Giving;
            Turn::Handled
        }
        DriverAct::Nothing => {
            if state.winding {
                state.stage = after_sleep::<L>(state);
                return repeating(state.stage);
            }
            state.stage = after_nothing(state.stage);
            Turn::Worked
        }
        DriverAct::Armed => {
            if state.winding {
                state.stage = after_sleep::<L>(state);
                return Turn::Worked;
            }
            state.stage = Stage::HearingGuest;
            Turn::Worked
        }
        DriverAct::Awake => {
            let turn = waking(state.stage);
            state.stage = after_sleep::<L>(state);
            turn
        }
        DriverAct::Asleep => {
            state.stage = hear_next(state.stage);
            Turn::Slept
        }
        DriverAct::Moved => Turn::Worked,
    }
}
