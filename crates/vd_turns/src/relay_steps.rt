//! A relay's turn: single accesses of the plain words of its two rings, until it looked, rests, or has made as many as were drawn.
ghost use Rattle.std.specs.Prelude.{◌≡◌, ◌≤◌, ℕ, None, false, List};
ghost use Rattle.vd_model.specs.declared.chain.Piece.{Piece};
ghost use Rattle.vd_model.specs.declared.record.Begun.{Begun};
ghost use Rattle.vd_ring.specs.declared.device.DeviceView.{DeviceView};
ghost use Rattle.vd_ring.specs.declared.driver.DriverView.{DriverView};
ghost use Rattle.vd_bus.specs.declared.device.Attached.{Attached};
ghost use Rattle.vd_relay.specs.Moving.{Holds};
ghost use Rattle.vd_relay.specs.Stages.{is_rested};
ghost use Rattle.vd_relay.specs.Tie.{Start};
ghost use Rattle.vd_switch.specs.ShadowingLanes.{IsShadowing};
ghost use Rattle.vd_turns.specs.RelayTurns.{CanRelay, RelayOn, RelaySteps, RelayTurns};

use crate::draws::Draws;
use vd_iova::IovaTree;
use vd_layout::{Layout, Move};
use vd_switch::Shadowing;
use vd_words::{PlainPort, PlainWords, Port};

fn relay_access<L: Layout, P: Port, Q: Port>(
    guest_port: &mut P,
    shadow_port: &mut Q,
    lane: &mut Shadowing<L>,
    tree: &IovaTree,
) -> Move
    requires live { is_rested lane.old.relay.state.stage ≡ false }
    requires plain { lane.old.relay.control ≡ None }
    requires on { (ws : List ℕ) × (us : List ℕ) × P.port.plain guest_port.old ws × Q.port.plain shadow_port.old us
        × CanRelay L.layout L.Device.device L.Driver.driver tree.now.mappings ws us lane.old.relay.state lane.old.relay.counts }
    ensures plain { lane.new.relay.control ≡ None }
    ensures step { (ws : List ℕ) (us : List ℕ) (z : Start) (old : List (List Piece × ℕ)) (begun : List Begun) (by : Attached)
        (v : DriverView) (w : DeviceView) (sv : DriverView) (sw : DeviceView) → P.port.plain guest_port.old ws
        → Q.port.plain shadow_port.old us → tree.now.mappings ≡ z.map
        → IsShadowing L.Device.device L.Driver.driver L.layout z old lane.old.relay.state begun by ws us v w sv sw
        → Holds L.Device.device L.Driver.driver z lane.old.relay.state lane.old.relay.counts w sv
        → RelayOn P.port Q.port L.layout L.Device.device L.Driver.driver z old begun by guest_port.old guest_port.new shadow_port.old
        shadow_port.new v w sv sw lane.old.relay.state lane.new.relay.state lane.old.relay.counts lane.new.relay.counts result }
{
    lane.step(tree, guest_port, shadow_port)
}

/// One step of a relay.
fn relay_step<L: Layout>(
    words: &mut PlainWords,
    shadow: &mut PlainWords,
    lane: &mut Shadowing<L>,
    tree: &IovaTree,
) -> Move
    requires live { is_rested lane.old.relay.state.stage ≡ false }
    requires plain { lane.old.relay.control ≡ None }
    requires on { CanRelay L.layout L.Device.device L.Driver.driver tree.now.mappings words.old.words shadow.old.words
        lane.old.relay.state lane.old.relay.counts }
    ensures ring { words.new.ring ≡ words.old.ring }
    ensures shadow_ring { shadow.new.ring ≡ shadow.old.ring }
    ensures plain { lane.new.relay.control ≡ None }
    ensures step { RelaySteps L.layout L.Device.device L.Driver.driver tree.now.mappings words.old.words words.new.words shadow.old.words
        shadow.new.words lane.old.relay.state lane.new.relay.state lane.old.relay.counts lane.new.relay.counts result }
{
    let mut port = words.port();
    let mut shadow_port = shadow.port();
    relay_access::<L, PlainPort<'_>, PlainPort<'_>>(&mut port, &mut shadow_port, lane, tree)
}

/// A relay's turn of as many steps as are drawn. It answers how many of its steps were no look of a sleeper.
#[inline(never)]
fn relay_drawn<L: Layout>(
    words: &mut PlainWords,
    shadow: &mut PlainWords,
    lane: &mut Shadowing<L>,
    tree: &IovaTree,
    draws: &mut Draws,
) -> u64
    requires live { is_rested lane.old.relay.state.stage ≡ false }
    requires plain { lane.old.relay.control ≡ None }
    requires on { CanRelay L.layout L.Device.device L.Driver.driver tree.now.mappings words.old.words shadow.old.words
        lane.old.relay.state lane.old.relay.counts }
    ensures few { result ≤ 4 }
    ensures ring { words.new.ring ≡ words.old.ring }
    ensures shadow_ring { shadow.new.ring ≡ shadow.old.ring }
    ensures plain { lane.new.relay.control ≡ None }
    ensures turn { RelayTurns L.layout L.Device.device L.Driver.driver tree.now.mappings words.old.words words.new.words shadow.old.words
        shadow.new.words lane.old.relay.state lane.new.relay.state lane.old.relay.counts lane.new.relay.counts result }
{
    let most = draws.steps();
    for made in 0..most {
        match relay_step::<L>(words, shadow, lane, tree) {
            Move::Looked => return made,
            Move::Finished => return made + 1,
            Move::Worked => {}
        }
    }
    most
}

/// A relay's turn of one step.
fn relay_once<L: Layout>(
    words: &mut PlainWords,
    shadow: &mut PlainWords,
    lane: &mut Shadowing<L>,
    tree: &IovaTree,
) -> u64
    requires live { is_rested lane.old.relay.state.stage ≡ false }
    requires plain { lane.old.relay.control ≡ None }
    requires on { CanRelay L.layout L.Device.device L.Driver.driver tree.now.mappings words.old.words shadow.old.words
        lane.old.relay.state lane.old.relay.counts }
    ensures few { result ≤ 4 }
    ensures ring { words.new.ring ≡ words.old.ring }
    ensures shadow_ring { shadow.new.ring ≡ shadow.old.ring }
    ensures plain { lane.new.relay.control ≡ None }
    ensures turn { RelayTurns L.layout L.Device.device L.Driver.driver tree.now.mappings words.old.words words.new.words shadow.old.words
        shadow.new.words lane.old.relay.state lane.new.relay.state lane.old.relay.counts lane.new.relay.counts result }
{
    match relay_step::<L>(words, shadow, lane, tree) {
        Move::Looked => 0,
        Move::Finished => 1,
        Move::Worked => 1,
    }
}

/// The turn of a relay that doesn't rest. It answers how many of its steps were no look of a sleeper.
pub fn relay_turn<L: Layout>(
    words: &mut PlainWords,
    shadow: &mut PlainWords,
    lane: &mut Shadowing<L>,
    tree: &IovaTree,
    draws: &mut Draws,
) -> u64
    requires live { is_rested lane.old.relay.state.stage ≡ false }
    requires plain { lane.old.relay.control ≡ None }
    requires on { CanRelay L.layout L.Device.device L.Driver.driver tree.now.mappings words.old.words shadow.old.words
        lane.old.relay.state lane.old.relay.counts }
    ensures few { result ≤ 4 }
    ensures ring { words.new.ring ≡ words.old.ring }
    ensures shadow_ring { shadow.new.ring ≡ shadow.old.ring }
    ensures plain { lane.new.relay.control ≡ None }
    ensures turn { RelayTurns L.layout L.Device.device L.Driver.driver tree.now.mappings words.old.words words.new.words shadow.old.words
        shadow.new.words lane.old.relay.state lane.new.relay.state lane.old.relay.counts lane.new.relay.counts result }
{
    if draws.are_drawn() {
        relay_drawn::<L>(words, shadow, lane, tree, draws)
    } else {
        relay_once::<L>(words, shadow, lane, tree)
    }
}
