//! One step of a relay of a control queue.
ghost use Rattle.std.specs.Prelude.{◌≡◌, ◌↔◌, true, false};
ghost use Rattle.vd_words.specs.Own.{IsOwn};
ghost use Rattle.vd_ring.specs.declared.device.DeviceView.{DeviceView};
ghost use Rattle.vd_ring.specs.declared.driver.DriverView.{DriverView};
ghost use Rattle.vd_layout.specs.Begun.{DriverOp};
ghost use Rattle.vd_layout.specs.declared.moves.Move.TheVariants.{Finished, Looked};
ghost use Rattle.vd_control.specs.Settings.{HasPairs};
ghost use Rattle.vd_relay.specs.declared.control.Mode.TheVariants.{Replaying, Leaving};
ghost use Rattle.vd_relay.specs.declared.replay.ReplayStage.TheVariants.{Second, Arming};
ghost use Rattle.vd_relay.specs.Stages.{is_rested};
ghost use Rattle.vd_relay.specs.Relay.{IsKept, IsQuiet};
ghost use Rattle.vd_relay.specs.Modes.{Opening, ControlHolds};
ghost use Rattle.vd_relay.specs.ModeSteps.{CanControl, GoesOver, IsControlStep, OnGuestControl, OnShadowControl};

use crate::command_step::command_step;
use crate::control::{Control, Mode};
use crate::counts::{Counts, Turn, move_of};
use crate::leaving::leave;
use crate::stage::Stage;
use crate::state::State;
use vd_control::Settings;
use vd_layout::{Layout, Move};
use vd_words::Port;

/// Makes one access of the replay. After its last one the relay carries.
fn replay_step<L: Layout, Q: Port>(
    state: &mut State<L::Device, L::Driver>,
    control: &mut Control,
    settings: &Settings,
    counts: &mut Counts,
    port: &mut Q,
) -> Move
    requires mode { control.old.mode ≡ Replaying }
    requires arms { control.old.replay.winding ≡ true → control.old.replay.stage ≡ Arming
        → ¬ (L.Driver.driver.begun state.old.shadow ≡ DriverOp.idle) }
    requires second { control.old.replay.winding ≡ true → ¬ (control.old.replay.stage ≡ Second) }
    requires own { (z : Opening) × (w : DeviceView) × (v : DriverView)
        × ControlHolds L.layout L.Device.device L.Driver.driver z state.old control.old settings.now counts.old w v
        × IsOwn Q.port L.Driver.driver.side port.old v }
    ensures made { (z : Opening) (w : DeviceView) (v : DriverView)
        → ControlHolds L.layout L.Device.device L.Driver.driver z state.old control.old settings.now counts.old w v
        → IsOwn Q.port L.Driver.driver.side port.old v
        → OnShadowControl Q.port L.layout L.Device.device L.Driver.driver z port.old port.new Replaying state.old state.new control.new
        settings.now counts.old counts.new w v result }
    ensures over { (z : Opening) (w : DeviceView) (v : DriverView)
        → ControlHolds L.layout L.Device.device L.Driver.driver z state.old control.old settings.now counts.old w v
        → IsOwn Q.port L.Driver.driver.side port.old v → GoesOver z state.old.winding Replaying control.new v }
    ensures kept { IsKept state.old state.new }
    ensures quiet { IsQuiet L.Driver.driver state.old state.new }
    ensures live { is_rested state.new.stage ≡ false }
    ensures works { ¬ (result ≡ Finished) }
    ensures still { result ≡ Looked → counts.new ≡ counts.old }
{
    let _ = settings;
    let turn = control.replay.step::<L, Q>(&mut state.shadow, port);
    counts.note(turn);
    control.go_on::<L>(state);
    move_of(turn, false)
}

/// Makes one access of the rest of the guest's end.
fn leave_step<L: Layout, P: Port>(
    state: &mut State<L::Device, L::Driver>,
    control: &Control,
    settings: &Settings,
    counts: &mut Counts,
    port: &mut P,
) -> Move
    requires live { is_rested state.old.stage ≡ false }
    requires mode { control.now.mode ≡ Leaving }
    requires own { (z : Opening) × (w : DeviceView) × (v : DriverView)
        × ControlHolds L.layout L.Device.device L.Driver.driver z state.old control.now settings.now counts.old w v
        × IsOwn P.port L.Device.device.side port.old w }
    ensures made { (z : Opening) (w : DeviceView) (v : DriverView)
        → ControlHolds L.layout L.Device.device L.Driver.driver z state.old control.now settings.now counts.old w v
        → IsOwn P.port L.Device.device.side port.old w
        → OnGuestControl P.port L.layout L.Device.device L.Driver.driver z port.old port.new state.old state.new control.now
        settings.now counts.old counts.new w v result }
    ensures kept { IsKept state.old state.new }
    ensures shadow { state.new.shadow ≡ state.old.shadow }
    ensures finished { (result ≡ Finished) ↔ (is_rested state.new.stage ≡ true) }
    ensures awake { ¬ (result ≡ Looked) }
{
    let _ = control;
    let _ = settings;
    counts.note(Turn::Worked);
    if leave::<L, P>(&mut state.guest, port) {
        state.stage = Stage::Rested;
        return Move::Finished;
    }
    Move::Worked
}

/// Makes exactly one access, on one of the two ports. Where a replay is over it goes on without an access of its own.
pub(crate) fn control_step<L: Layout, P: Port, Q: Port>(
    state: &mut State<L::Device, L::Driver>,
    control: &mut Control,
    settings: &mut Settings,
    counts: &mut Counts,
    guest_port: &mut P,
    shadow_port: &mut Q,
) -> Move
    requires live { is_rested state.old.stage ≡ false }
    requires own { CanControl P.port Q.port L.layout L.Device.device L.Driver.driver guest_port.old shadow_port.old state.old control.old
        settings.old counts.old }
    ensures step { (z : Opening) (w : DeviceView) (v : DriverView)
        → ControlHolds L.layout L.Device.device L.Driver.driver z state.old control.old settings.old counts.old w v
        → IsOwn P.port L.Device.device.side guest_port.old w → IsOwn Q.port L.Driver.driver.side shadow_port.old v
        → IsControlStep P.port Q.port L.layout L.Device.device L.Driver.driver z guest_port.old guest_port.new shadow_port.old
        shadow_port.new w v state.old state.new control.old control.new settings.old settings.new counts.old counts.new result }
    ensures lawful { HasPairs settings.old → HasPairs settings.new }
{
    control.turn::<L>(state);
    match control.mode {
        Mode::Replaying => replay_step::<L, Q>(state, control, settings, counts, shadow_port),
        Mode::Carrying => command_step::<L, P, Q>(
            state,
            &mut control.commander,
            settings,
            counts,
            guest_port,
            shadow_port,
        ),
        Mode::Leaving => leave_step::<L, P>(state, control, settings, counts, guest_port),
    }
}
