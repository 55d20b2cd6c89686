//! One access of a relay, on one of its two ports.
ghost use Rattle.std.specs.Prelude.{◌≡◌, false};
ghost use Rattle.vd_words.specs.Own.{IsOwn};
ghost use Rattle.vd_ring.specs.declared.device.DeviceView.{DeviceView};
ghost use Rattle.vd_ring.specs.declared.driver.DriverView.{DriverView};
ghost use Rattle.vd_relay.specs.Stages.{is_rested};
ghost use Rattle.vd_relay.specs.Tie.{Course};
ghost use Rattle.vd_relay.specs.Relay.{Stands, IsKept, IsQuiet};
ghost use Rattle.vd_relay.specs.Tellings.{CanTurn, CarriesOne};

use crate::begin::{begin, turn};
use crate::carrier::Carrier;
use crate::counts::Turn;
use crate::guest_side::guest_turn;
use crate::shadow_side::shadow_turn;
use crate::state::State;
use vd_layout::Layout;
use vd_words::Port;

/// Makes one access, on one of the two ports. The carrier makes of a chain that was taken the one that is offered, and is told when it
/// was, and when it came back.
pub(crate) fn make_turn<L: Layout, C: Carrier<L>, P: Port, Q: Port>(
    state: &mut State<L::Device, L::Driver>,
    carrier: &mut C,
    guest_port: &mut P,
    shadow_port: &mut Q,
) -> Turn
    requires live { is_rested state.old.stage ≡ false }
    requires own { CanTurn C.carrier P.port Q.port L.Device.device L.Driver.driver carrier.old guest_port.old shadow_port.old state.old }
    ensures made { (z : Course) (w : DeviceView) (v : DriverView) → Stands L.Device.device L.Driver.driver z state.old w v
        → C.carrier.by carrier.old z.way v.frame → IsOwn P.port L.Device.device.side guest_port.old w
        → IsOwn Q.port L.Driver.driver.side shadow_port.old v
        → CarriesOne C.carrier P.port Q.port L.Device.device L.Driver.driver z carrier.old carrier.new guest_port.old guest_port.new
        shadow_port.old shadow_port.new state.old state.new w v result }
    ensures kept { IsKept state.old state.new }
    ensures quiet { IsQuiet L.Driver.driver state.old state.new }
{
    turn::<L>(state);
    begin::<L>(state);
    if state.stage.is_shadow() {
        shadow_turn::<L, C, Q>(state, carrier, shadow_port)
    } else {
        guest_turn::<L, C, P>(state, carrier, guest_port)
    }
}
