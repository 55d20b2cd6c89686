//! The only lane of a floor, in an epoch of the mode pass and without a seed. A turn is one step, and there is neither another lane nor a
//! relay to ask after: so the epoch's rounds stand in one loop.
ghost use Rattle.std.specs.Prelude.{◌≡◌, ℕ, ◌≤◌, true, None, is_some, length};
ghost use Rattle.vd_machine.specs.File.{Plan};
ghost use Rattle.vd_play.specs.Alone.{is_alone, PassEnds, LaneEnds};
ghost use Rattle.vd_play.specs.Each.{HasLanes};
ghost use Rattle.vd_play.specs.Journal.{tree_map};
ghost use Rattle.vd_play.specs.Played.{KeepsBench, HasNoFault};
ghost use Rattle.vd_play.specs.Progress.{IsPassing, InEpoch, AllInEpoch};
ghost use Rattle.vd_play.specs.Rounds.{EpochGoes};
ghost use Rattle.vd_play.specs.Setting.{setting_of};

use crate::bench::Bench;
use crate::floor::{Floor, Lane};
use crate::lane::suspend;
use crate::rounds::ROUNDS;
use vd_bus::{Device, Guest};
use vd_layout::Layout;
use vd_turns::{device_once, guest_once};
use vd_words::PlainWords;

impl<L: Layout> Floor<L> {
    /// Whether it has one lane, without a relay.
    pub(crate) fn is_alone(&self) -> bool
        ensures { result ≡ is_alone self.now.lanes.items }
    {
        if self.lanes.len() == 1 {
            self.lanes[0].relaying.is_none()
        } else {
            false
        }
    }
}

/// A step of the guest and one of the device, in turn, until the device is done. It is suspended, and its end kept in `still`.
fn pass_alone<L: Layout, G: Guest<L>, V: Device<L>>(
    words: &mut PlainWords,
    still: &mut Option<L::Device>,
    guest: &mut G,
    device: &mut V,
)
    requires passing { (plan : Plan) × (q : ℕ) × (k : ℕ) × (relayed : ℕ)
        × IsPassing (setting_of L.Driver.driver L.Device.device L.layout G.party V.party) plan q k 0 words.old relayed guest.old
        device.old }
    ensures ends { (plan : Plan) (q k relayed : ℕ)
        → IsPassing (setting_of L.Driver.driver L.Device.device L.layout G.party V.party) plan q k 0 words.old relayed guest.old
        device.old
        → PassEnds (setting_of L.Driver.driver L.Device.device L.layout G.party V.party) plan q k words.new still.new relayed guest.old
        guest.new device.old device.new }
    ensures carried { V.party.carried device.new ≡ V.party.carried device.old }
    ensures faults { V.party.faults device.new ≡ V.party.faults device.old }
{
    for turn in 0..ROUNDS {
        guest_once::<L, G>(words, guest);
        device_once::<L, V>(words, device);
        if device.done() {
            suspend::<L, V>(still, device);
            return;
        }
    }
    unreachable!()
}

/// All rounds of a lane in an epoch. It answers how many steps were no look of a sleeper.
fn lane_alone<L: Layout, G: Guest<L>, V: Device<L>>(
    lane: &mut Lane<L>,
    guest: &mut G,
    device: &mut V,
) -> u64
    requires alone { lane.old.relaying ≡ None }
    requires lane { (plan : Plan) × (q : ℕ) × (k : ℕ)
        × InEpoch (setting_of L.Driver.driver L.Device.device L.layout G.party V.party) plan q true k 0 lane.old guest.old device.old }
    ensures few { result ≤ 1000000000 }
    ensures still { is_some lane.new.still ≡ true }
    ensures ends { (plan : Plan) → LaneEnds (setting_of L.Driver.driver L.Device.device L.layout G.party V.party) plan
        lane.old lane.new guest.old guest.new device.old device.new result }
    ensures carried { V.party.carried device.new ≡ V.party.carried device.old }
    ensures faults { V.party.faults device.new ≡ V.party.faults device.old }
{
    if lane.still.is_some() {
        return 0;
    }
    let before = guest.accesses() + device.accesses();
    pass_alone::<L, G, V>(&mut lane.words, &mut lane.still, guest, device);
    guest.accesses() + device.accesses() - before
}

/// All rounds of an epoch.
pub(crate) fn run_alone<L: Layout, G: Guest<L>, V: Device<L>>(
    floor: &mut Floor<L>,
    bench: &mut Bench<G, V>,
) -> u64
    requires alone { is_alone floor.old.lanes.items ≡ true }
    requires parties { HasLanes (length floor.old.lanes.items) bench.old }
    requires lanes { (plan : Plan) × (k : ℕ) × (floor.old.tree.mappings ≡ tree_map plan)
        × AllInEpoch (setting_of L.Driver.driver L.Device.device L.layout G.party V.party) plan true k 0 floor.old.lanes.items bench.old }
    ensures many { length floor.new.lanes.items ≡ length floor.old.lanes.items }
    ensures tree { floor.new.tree ≡ floor.old.tree }
    ensures few { result ≤ 412316860416 }
    ensures keeps { KeepsBench V.party (length floor.old.lanes.items) bench.old bench.new }
    ensures faults { HasNoFault V.party bench.old bench.new }
    ensures goes { (plan : Plan) → floor.old.tree.mappings ≡ tree_map plan
        → EpochGoes (setting_of L.Driver.driver L.Device.device L.layout G.party V.party) plan
        floor.old.lanes.items floor.new.lanes.items bench.old bench.new result }
{
    lane_alone::<L, G, V>(
        &mut floor.lanes[0],
        &mut bench.guests[0],
        &mut bench.devices[0],
    )
}
