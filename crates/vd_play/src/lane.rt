//! One lane: a ring over plain words with its guest and its device, and in a shadow epoch a relay between them.
ghost use Rattle.std.specs.Prelude.{◌≡◌, ℕ, ◌≤◌, Bool, None};
ghost use Rattle.vd_machine.specs.File.{Plan};
ghost use Rattle.vd_play.specs.Journal.{tree_map};
ghost use Rattle.vd_play.specs.Progress.{InEpoch};
ghost use Rattle.vd_play.specs.Rounds.{LaneGoes, IsSuspended};
ghost use Rattle.vd_ring.specs.declared.device.DeviceView.{DeviceView};
ghost use Rattle.vd_play.specs.Setting.{setting_of};

use crate::floor::Lane;
use crate::relaying::shadow_round;
use vd_bus::{Device, Guest};
use vd_iova::IovaTree;
use vd_layout::Layout;
use vd_turns::{Draws, device_turn, guest_turn};

/// Suspends a device that is done, and keeps the ring's end here. It is a function of its own, since an end is large.
#[inline(never)]
pub(crate) fn suspend<L: Layout, V: Device<L>>(still: &mut Option<L::Device>, device: &mut V)
    requires done { V.party.is_done device.old }
    requires held { (w : DeviceView) × V.party.holds device.old w }
    ensures { IsSuspended L.Device.device V.party device.old device.new still.new }
{
    *still = Some(device.suspend());
}

/// The guest's turn and then, while it is attached, the device's. A device that is done is suspended. It answers how many
/// steps were no look of a sleeper.
#[inline(never)]
fn pass_round<L: Layout, G: Guest<L>, V: Device<L>>(
    lane: &mut Lane<L>,
    guest: &mut G,
    device: &mut V,
    draws: &mut Draws,
) -> u64
    requires alone { lane.old.relaying ≡ None }
    requires lane { (plan : Plan) × (q : ℕ) × (on : Bool) × (k : ℕ) × (n : ℕ)
        × InEpoch (setting_of L.Driver.driver L.Device.device L.layout G.party V.party) plan q on k n lane.old guest.old device.old }
    ensures few { result ≤ 12 }
    ensures goes { (plan : Plan) → LaneGoes (setting_of L.Driver.driver L.Device.device L.layout G.party V.party) plan
        lane.old lane.new guest.old guest.new device.old device.new result }
    ensures carried { V.party.carried device.new ≡ V.party.carried device.old }
    ensures faults { V.party.faults device.new ≡ V.party.faults device.old }
{
    let by_guest = guest_turn::<L, G>(&mut lane.words, guest, draws);
    if lane.still.is_some() {
        return by_guest;
    }
    let by_device = device_turn::<L, V>(&mut lane.words, device, draws);
    if !device.done() {
        return by_guest + by_device;
    }
    suspend::<L, V>(&mut lane.still, device);
    by_guest + by_device
}

/// A turn of each live party of a lane. It answers how many steps were no look of a sleeper.
#[inline(always)]
pub(crate) fn lane_round<L: Layout, G: Guest<L>, V: Device<L>>(
    lane: &mut Lane<L>,
    tree: &IovaTree,
    guest: &mut G,
    device: &mut V,
    draws: &mut Draws,
) -> u64
    requires lane { (plan : Plan) × (q : ℕ) × (on : Bool) × (k : ℕ) × (n : ℕ) × (tree.now.mappings ≡ tree_map plan)
        × InEpoch (setting_of L.Driver.driver L.Device.device L.layout G.party V.party) plan q on k n lane.old guest.old device.old }
    ensures few { result ≤ 12 }
    ensures goes { (plan : Plan) → tree.now.mappings ≡ tree_map plan
        → LaneGoes (setting_of L.Driver.driver L.Device.device L.layout G.party V.party) plan
        lane.old lane.new guest.old guest.new device.old device.new result }
    ensures carried { V.party.carried device.new ≡ V.party.carried device.old }
    ensures faults { V.party.faults device.new ≡ V.party.faults device.old }
{
    if lane.relaying.is_some() {
        shadow_round::<L, G, V>(lane, tree, guest, device, draws)
    } else {
        pass_round::<L, G, V>(lane, guest, device, draws)
    }
}
