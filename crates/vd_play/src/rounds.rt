//! Rounds of all lanes.
ghost use Rattle.std.specs.Prelude.{◌≡◌, ℕ, ◌<◌, ◌≤◌, ◌+◌, Bool, true, false, IsTrue, length, is_some};
ghost use Rattle.std.specs.List.{list_all};
ghost use Rattle.vd_machine.specs.File.{Plan};
ghost use Rattle.vd_play.specs.Each.{HasLanes};
ghost use Rattle.vd_play.specs.Journal.{tree_map};
ghost use Rattle.vd_play.specs.Played.{KeepsBench, HasNoFault};
ghost use Rattle.vd_play.specs.Progress.{AllInEpoch};
ghost use Rattle.vd_play.specs.Rounds.{RoundGoes, EpochGoes, IsLast, AllDone, Drains};
ghost use Rattle.vd_play.specs.Setting.{setting_of};

use crate::alone::run_alone;
use crate::bench::Bench;
use crate::floor::Floor;
use crate::lane::lane_round;
use vd_bus::{Device, Guest};
use vd_layout::Layout;
use vd_turns::Draws;

/// More rounds than an epoch has: each makes a step that is no look on every lane that isn't still, and no lane has so many.
pub(crate) const ROUNDS: u64 = 4_294_967_296;

impl<L: Layout> Floor<L> {
    /// Whether each lane is still.
    pub(crate) fn is_still(&self) -> bool
        ensures { result ≡ list_all (λ l. is_some l.still) self.now.lanes.items }
    {
        self.lanes.iter().all(|lane| lane.still.is_some())
    }
}

/// Whether the guests of the first `queues` queues are done.
pub(crate) fn all_done<L: Layout, G: Guest<L>, V: Device<L>>(
    queues: usize,
    bench: &Bench<G, V>,
) -> bool
    requires { queues ≤ length bench.now.guests.items }
    ensures { IsTrue result → AllDone G.party queues bench.now }
{
    for i in 0..queues {
        if !bench.guests[i].done() {
            return false;
        }
    }
    true
}

/// A round of each lane, in the order of the queues. It answers how many steps were no look of a sleeper.
#[inline(always)]
pub(crate) fn round<L: Layout, G: Guest<L>, V: Device<L>>(
    floor: &mut Floor<L>,
    bench: &mut Bench<G, V>,
    draws: &mut Draws,
) -> u64
    requires parties { HasLanes (length floor.old.lanes.items) bench.old }
    requires few { length floor.old.lanes.items ≤ 8 }
    requires lanes { (plan : Plan) × (on : Bool) × (k : ℕ) × (n : ℕ) × (floor.old.tree.mappings ≡ tree_map plan)
        × AllInEpoch (setting_of L.Driver.driver L.Device.device L.layout G.party V.party) plan on k n floor.old.lanes.items bench.old }
    ensures many { length floor.new.lanes.items ≡ length floor.old.lanes.items }
    ensures tree { floor.new.tree ≡ floor.old.tree }
    ensures few { result ≤ 96 }
    ensures keeps { KeepsBench V.party (length floor.old.lanes.items) bench.old bench.new }
    ensures faults { HasNoFault V.party bench.old bench.new }
    ensures goes { (plan : Plan) → floor.old.tree.mappings ≡ tree_map plan
        → RoundGoes (setting_of L.Driver.driver L.Device.device L.layout G.party V.party) plan
        floor.old.lanes.items floor.new.lanes.items bench.old bench.new result }
{
    let mut made = 0;
    for i in 0..floor.lanes.len() {
        made += lane_round::<L, G, V>(
            &mut floor.lanes[i],
            &floor.tree,
            &mut bench.guests[i],
            &mut bench.devices[i],
            draws,
        );
    }
    made
}

/// Rounds until each lane is still.
fn run_all<L: Layout, G: Guest<L>, V: Device<L>>(
    floor: &mut Floor<L>,
    bench: &mut Bench<G, V>,
    draws: &mut Draws,
) -> u64
    requires parties { HasLanes (length floor.old.lanes.items) bench.old }
    requires few { length floor.old.lanes.items ≤ 8 }
    requires lanes { (plan : Plan) × (k : ℕ) × (floor.old.tree.mappings ≡ tree_map plan)
        × AllInEpoch (setting_of L.Driver.driver L.Device.device L.layout G.party V.party) plan true k 0 floor.old.lanes.items bench.old }
    ensures many { length floor.new.lanes.items ≡ length floor.old.lanes.items }
    ensures tree { floor.new.tree ≡ floor.old.tree }
    ensures few { result ≤ 412316860416 }
    ensures keeps { KeepsBench V.party (length floor.old.lanes.items) bench.old bench.new }
    ensures faults { HasNoFault V.party bench.old bench.new }
    ensures goes { (plan : Plan) → floor.old.tree.mappings ≡ tree_map plan
        → EpochGoes (setting_of L.Driver.driver L.Device.device L.layout G.party V.party) plan
        floor.old.lanes.items floor.new.lanes.items bench.old bench.new result }
{
    let mut made = 0;
    for turn in 0..ROUNDS {
        if floor.is_still() {
            return made;
        }
        made += round::<L, G, V>(floor, bench, draws);
    }
    made
}

/// Rounds until each lane is still. The only lane, in the mode pass and without a seed, has a loop of its own.
pub(crate) fn run_epoch<L: Layout, G: Guest<L>, V: Device<L>>(
    floor: &mut Floor<L>,
    bench: &mut Bench<G, V>,
    draws: &mut Draws,
) -> u64
    requires parties { HasLanes (length floor.old.lanes.items) bench.old }
    requires few { length floor.old.lanes.items ≤ 8 }
    requires lanes { (plan : Plan) × (k : ℕ) × (floor.old.tree.mappings ≡ tree_map plan)
        × AllInEpoch (setting_of L.Driver.driver L.Device.device L.layout G.party V.party) plan true k 0 floor.old.lanes.items bench.old }
    ensures many { length floor.new.lanes.items ≡ length floor.old.lanes.items }
    ensures tree { floor.new.tree ≡ floor.old.tree }
    ensures few { result ≤ 412316860416 }
    ensures keeps { KeepsBench V.party (length floor.old.lanes.items) bench.old bench.new }
    ensures faults { HasNoFault V.party bench.old bench.new }
    ensures goes { (plan : Plan) → floor.old.tree.mappings ≡ tree_map plan
        → EpochGoes (setting_of L.Driver.driver L.Device.device L.layout G.party V.party) plan
        floor.old.lanes.items floor.new.lanes.items bench.old bench.new result }
{
    if floor.is_alone() && !draws.are_drawn() {
        run_alone::<L, G, V>(floor, bench)
    } else {
        run_all::<L, G, V>(floor, bench, draws)
    }
}

/// After the closing epoch: rounds until each guest is done.
pub(crate) fn drain<L: Layout, G: Guest<L>, V: Device<L>>(
    floor: &mut Floor<L>,
    bench: &mut Bench<G, V>,
    draws: &mut Draws,
) -> u64
    requires parties { HasLanes (length floor.old.lanes.items) bench.old }
    requires few { length floor.old.lanes.items ≤ 8 }
    requires lanes { (plan : Plan) × (k : ℕ) × (floor.old.tree.mappings ≡ tree_map plan) × IsLast plan k
        × AllInEpoch (setting_of L.Driver.driver L.Device.device L.layout G.party V.party) plan false k 0 floor.old.lanes.items bench.old }
    ensures many { length floor.new.lanes.items ≡ length floor.old.lanes.items }
    ensures tree { floor.new.tree ≡ floor.old.tree }
    ensures few { result ≤ 412316860416 }
    ensures keeps { KeepsBench V.party (length floor.old.lanes.items) bench.old bench.new }
    ensures faults { HasNoFault V.party bench.old bench.new }
    ensures done { AllDone G.party (length floor.old.lanes.items) bench.new }
    ensures goes { (plan : Plan) → floor.old.tree.mappings ≡ tree_map plan
        → Drains (setting_of L.Driver.driver L.Device.device L.layout G.party V.party) plan
        floor.old.lanes.items floor.new.lanes.items bench.old bench.new result }
{
    let mut made = 0;
    for turn in 0..ROUNDS {
        if all_done::<L, G, V>(floor.lanes.len(), bench) {
            return made;
        }
        made += round::<L, G, V>(floor, bench, draws);
    }
    made
}
