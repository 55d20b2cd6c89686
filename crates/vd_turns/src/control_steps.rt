//! The turn of a relay of a control queue, whatever it does: single accesses of the plain words of its two rings, until it looked, rests,
//! or has made as many as were drawn.
ghost use Rattle.std.specs.Prelude.{◌≡◌, ◌≤◌, ℕ, false, List, Some, IsSomeAnd};
ghost use Rattle.vd_model.specs.declared.record.Begun.{Begun};
ghost use Rattle.vd_control.specs.declared.settings.Settings.{Settings};
ghost use Rattle.vd_ring.specs.declared.device.DeviceView.{DeviceView};
ghost use Rattle.vd_ring.specs.declared.driver.DriverView.{DriverView};
ghost use Rattle.vd_relay.specs.declared.control.Control.{Control};
ghost use Rattle.vd_relay.specs.Stages.{is_rested};
ghost use Rattle.vd_switch.specs.Controlling.{ControlStart};
ghost use Rattle.vd_turns.specs.ControlTurns.{CanControlTurn, IsControlLane, ControlOn, ControlSteps, ControlTurns};

use crate::draws::Draws;
use vd_iova::IovaTree;
use vd_layout::{Layout, Move};
use vd_switch::Shadowing;
use vd_words::{PlainPort, PlainWords, Port};

fn control_access<L: Layout, P: Port, Q: Port>(
    guest_port: &mut P,
    shadow_port: &mut Q,
    lane: &mut Shadowing<L>,
    tree: &IovaTree,
) -> Move
    requires live { is_rested lane.old.relay.state.stage ≡ false }
    requires on { (ws : List ℕ) × (us : List ℕ) × P.port.plain guest_port.old ws × Q.port.plain shadow_port.old us
        × CanControlTurn L.layout L.Device.device L.Driver.driver ws us lane.old.relay.state lane.old.relay.control
        lane.old.relay.settings lane.old.relay.counts }
    ensures { (k : Control) → lane.old.relay.control ≡ Some k → IsSomeAnd lane.new.relay.control (λ k'. (ws : List ℕ)
        (us : List ℕ) (x : ControlStart) (begun : List Begun) (now : Settings) (v : DriverView) (w : DeviceView) (sv : DriverView) (sw : DeviceView) → P.port.plain guest_port.old ws
        → Q.port.plain shadow_port.old us
        → IsControlLane L.layout L.Device.device L.Driver.driver x begun now ws us v w sv sw lane.old.relay.state k lane.old.relay.settings
        lane.old.relay.counts → ControlOn P.port Q.port L.layout L.Device.device L.Driver.driver x begun now guest_port.old guest_port.new
        shadow_port.old shadow_port.new v w sv sw lane.old.relay.state lane.new.relay.state k k' lane.old.relay.settings
        lane.new.relay.settings lane.old.relay.counts lane.new.relay.counts result) }
{
    lane.step(tree, guest_port, shadow_port)
}

/// One step of a relay.
fn control_step<L: Layout>(
    words: &mut PlainWords,
    shadow: &mut PlainWords,
    lane: &mut Shadowing<L>,
    tree: &IovaTree,
) -> Move
    requires live { is_rested lane.old.relay.state.stage ≡ false }
    requires on { CanControlTurn L.layout L.Device.device L.Driver.driver words.old.words shadow.old.words lane.old.relay.state
        lane.old.relay.control lane.old.relay.settings lane.old.relay.counts }
    ensures ring { words.new.ring ≡ words.old.ring }
    ensures shadow_ring { shadow.new.ring ≡ shadow.old.ring }
    ensures step { ControlSteps L.layout L.Device.device L.Driver.driver words.old.words words.new.words shadow.old.words
        shadow.new.words lane.old.relay.state lane.new.relay.state lane.old.relay.control lane.new.relay.control
        lane.old.relay.settings lane.new.relay.settings lane.old.relay.counts lane.new.relay.counts result }
{
    let mut port = words.port();
    let mut shadow_port = shadow.port();
    control_access::<L, PlainPort<'_>, PlainPort<'_>>(&mut port, &mut shadow_port, lane, tree)
}

/// A relay's turn of as many steps as are drawn. It answers how many of its steps were no look of a sleeper.
#[inline(never)]
fn control_drawn<L: Layout>(
    words: &mut PlainWords,
    shadow: &mut PlainWords,
    lane: &mut Shadowing<L>,
    tree: &IovaTree,
    draws: &mut Draws,
) -> u64
    requires live { is_rested lane.old.relay.state.stage ≡ false }
    requires on { CanControlTurn L.layout L.Device.device L.Driver.driver words.old.words shadow.old.words lane.old.relay.state
        lane.old.relay.control lane.old.relay.settings lane.old.relay.counts }
    ensures few { result ≤ 4 }
    ensures ring { words.new.ring ≡ words.old.ring }
    ensures shadow_ring { shadow.new.ring ≡ shadow.old.ring }
    ensures turn { ControlTurns L.layout L.Device.device L.Driver.driver words.old.words words.new.words shadow.old.words
        shadow.new.words lane.old.relay.state lane.new.relay.state lane.old.relay.control lane.new.relay.control
        lane.old.relay.settings lane.new.relay.settings lane.old.relay.counts lane.new.relay.counts result }
{
    let most = draws.steps();
    for made in 0..most {
        match control_step::<L>(words, shadow, lane, tree) {
            Move::Looked => return made,
            Move::Finished => return made + 1,
            Move::Worked => {}
        }
    }
    most
}

/// A relay's turn of one step.
fn control_once<L: Layout>(
    words: &mut PlainWords,
    shadow: &mut PlainWords,
    lane: &mut Shadowing<L>,
    tree: &IovaTree,
) -> u64
    requires live { is_rested lane.old.relay.state.stage ≡ false }
    requires on { CanControlTurn L.layout L.Device.device L.Driver.driver words.old.words shadow.old.words lane.old.relay.state
        lane.old.relay.control lane.old.relay.settings lane.old.relay.counts }
    ensures few { result ≤ 4 }
    ensures ring { words.new.ring ≡ words.old.ring }
    ensures shadow_ring { shadow.new.ring ≡ shadow.old.ring }
    ensures turn { ControlTurns L.layout L.Device.device L.Driver.driver words.old.words words.new.words shadow.old.words
        shadow.new.words lane.old.relay.state lane.new.relay.state lane.old.relay.control lane.new.relay.control
        lane.old.relay.settings lane.new.relay.settings lane.old.relay.counts lane.new.relay.counts result }
{
    match control_step::<L>(words, shadow, lane, tree) {
        Move::Looked => 0,
        Move::Finished => 1,
        Move::Worked => 1,
    }
}

/// The turn of a relay of a control queue that doesn't rest. It answers how many of its steps were no look of a sleeper. Whether all is
/// replayed is told by its control before and after.
pub fn control_turn<L: Layout>(
    words: &mut PlainWords,
    shadow: &mut PlainWords,
    lane: &mut Shadowing<L>,
    tree: &IovaTree,
    draws: &mut Draws,
) -> u64
    requires live { is_rested lane.old.relay.state.stage ≡ false }
    requires on { CanControlTurn L.layout L.Device.device L.Driver.driver words.old.words shadow.old.words lane.old.relay.state
        lane.old.relay.control lane.old.relay.settings lane.old.relay.counts }
    ensures few { result ≤ 4 }
    ensures ring { words.new.ring ≡ words.old.ring }
    ensures shadow_ring { shadow.new.ring ≡ shadow.old.ring }
    ensures turn { ControlTurns L.layout L.Device.device L.Driver.driver words.old.words words.new.words shadow.old.words
        shadow.new.words lane.old.relay.state lane.new.relay.state lane.old.relay.control lane.new.relay.control
        lane.old.relay.settings lane.new.relay.settings lane.old.relay.counts lane.new.relay.counts result }
{
    if draws.are_drawn() {
        control_drawn::<L>(words, shadow, lane, tree, draws)
    } else {
        control_once::<L>(words, shadow, lane, tree)
    }
}
