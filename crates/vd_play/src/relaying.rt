//! One lane in a shadow epoch: its guest, its relay and its device.
ghost use Rattle.std.specs.Prelude.{◌≡◌, ℕ, ◌≤◌, Bool, true, is_some, None, IsSomeAnd, option_map};
ghost use Rattle.vd_ring.specs.declared.device.DeviceView.{DeviceView};
ghost use Rattle.vd_ring.specs.declared.driver.DriverView.{DriverView};
ghost use Rattle.vd_relay.specs.Moving.{Holds};
ghost use Rattle.vd_relay.specs.Stages.{is_rested};
ghost use Rattle.vd_relay.specs.Tie.{Start};
ghost use Rattle.vd_machine.specs.File.{Plan};
ghost use Rattle.vd_play.specs.Journal.{tree_map};
ghost use Rattle.vd_play.specs.Progress.{InEpoch};
ghost use Rattle.vd_play.specs.Rounds.{LaneGoes};
ghost use Rattle.vd_play.specs.Setting.{setting_of};

use crate::floor::{Lane, Relaying};
use vd_bus::{Device, Guest};
use vd_iova::IovaTree;
use vd_layout::Layout;
use vd_turns::{Draws, device_turn, guest_turn, relay_turn};

/// Keeps the end of the guest's ring in the lane, which a relay that rests hands back.
#[inline(never)]
fn stop<L: Layout>(relaying: &mut Option<Relaying<L>>, still: &mut Option<L::Device>)
    requires rested { IsSomeAnd relaying.old (λ x. (is_rested x.lane.relay.state.stage ≡ true) × (x.lane.relay.control ≡ None)
        × ((z : Start) × (w : DeviceView) × (v : DriverView)
        × Holds L.Device.device L.Driver.driver z x.lane.relay.state x.lane.relay.counts w v)) }
    ensures gone { relaying.new ≡ None }
    ensures kept { still.new ≡ option_map (λ x. x.lane.relay.state.guest) relaying.old }
{
    let Some(x) = relaying.take() else {
        unreachable!()
    };
    *still = Some(x.lane.stop().finish());
}

/// The guest's turn, the relay's and then, while it is attached, the device's. A device that is done is suspended, and its relay winds up;
/// a relay that rests hands the end of the guest's ring back to the lane. It answers how many steps were no look of a sleeper.
#[inline(always)]
pub(crate) fn shadow_round<L: Layout, G: Guest<L>, V: Device<L>>(
    lane: &mut Lane<L>,
    tree: &IovaTree,
    guest: &mut G,
    device: &mut V,
    draws: &mut Draws,
) -> u64
    requires relayed { is_some lane.old.relaying ≡ true }
    requires lane { (plan : Plan) × (q : ℕ) × (on : Bool) × (k : ℕ) × (n : ℕ) × (tree.now.mappings ≡ tree_map plan)
        × InEpoch (setting_of L.Driver.driver L.Device.device L.layout G.party V.party) plan q on k n lane.old guest.old device.old }
    ensures few { result ≤ 12 }
    ensures goes { (plan : Plan) → tree.now.mappings ≡ tree_map plan
        → LaneGoes (setting_of L.Driver.driver L.Device.device L.layout G.party V.party) plan
        lane.old lane.new guest.old guest.new device.old device.new result }
    ensures carried { V.party.carried device.new ≡ V.party.carried device.old }
    ensures faults { V.party.faults device.new ≡ V.party.faults device.old }
{
    let by_guest = guest_turn::<L, G>(&mut lane.words, guest, draws);
    let Some(relaying) = lane.relaying.as_mut() else {
        unreachable!()
    };
    let by_relay = relay_turn::<L>(
        &mut lane.words,
        &mut relaying.words,
        &mut relaying.lane,
        tree,
        draws,
    );
    lane.relayed += by_relay;
    if relaying.lane.rested() {
        stop::<L>(&mut lane.relaying, &mut lane.still);
        return by_guest + by_relay;
    }
    if relaying.lane.winds() {
        return by_guest + by_relay;
    }
    let by_device = device_turn::<L, V>(&mut relaying.words, device, draws);
    if device.done() {
        relaying.lane.begin_wind_up(device);
    }
    by_guest + by_relay + by_device
}
