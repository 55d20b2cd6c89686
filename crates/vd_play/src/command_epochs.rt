//! Rounds of all lanes of a machine with a control queue, whose lane is the last in each round. Its parties stand on the bench behind those
//! of the data queues.
ghost use Rattle.std.specs.Prelude.{◌≡◌, ℕ, ◌<◌, ◌≤◌, ◌+◌, true, false, List, length, map, slice_get};
ghost use Rattle.vd_machine.specs.File.{Plan};
ghost use Rattle.vd_play.specs.CommandEpochs.{CommandsIn, ReplayGoes, CommandEpochGoes, CommandDrains};
ghost use Rattle.vd_play.specs.CommandProgress.Next.{guests};
ghost use Rattle.vd_play.specs.CommandRounds.{is_replayed};
ghost use Rattle.vd_play.specs.Commands.{control_epochs};
ghost use Rattle.vd_play.specs.Each.{HasLanes};
ghost use Rattle.vd_play.specs.GuestsAlone.{AllWait};
ghost use Rattle.vd_play.specs.Journal.{tree_map};
ghost use Rattle.vd_play.specs.Played.{KeepsBench, HasNoFault};
ghost use Rattle.vd_play.specs.Progress.{AllInEpoch};
ghost use Rattle.vd_play.specs.Rounds.{AllDone, IsLast};
ghost use Rattle.vd_play.specs.Setting.{setting_of};

use crate::bench::Bench;
use crate::command_lane::CommandLane;
use crate::command_rounds::{command_device, command_guest, command_relay, command_round};
use crate::floor::Floor;
use crate::guests_alone::guests_round;
use crate::rounds::{ROUNDS, all_done, round};
use vd_bus::{Device, Guest};
use vd_layout::Layout;
use vd_turns::Draws;

/// As an epoch begins whose settings are replayed: rounds in which no device of a data queue is attached, up to the turn of the control
/// queue's relay by which all of the replay is acknowledged. It answers how many steps were no look of a sleeper.
pub(crate) fn replay_rounds<L: Layout, G: Guest<L>, V: Device<L>>(
    floor: &mut Floor<L>,
    lane: &mut CommandLane<L>,
    bench: &mut Bench<G, V>,
    draws: &mut Draws,
) -> u64
    requires parties { HasLanes (length floor.old.lanes.items + 1) bench.old }
    requires few { length floor.old.lanes.items ≤ 8 }
    requires replays { is_replayed lane.old.relaying ≡ false }
    requires lanes { (plan : Plan) × (j : ℕ) × (k : ℕ) × (xs : List V) × (length floor.old.lanes.items ≤ length xs)
        × AllWait (setting_of L.Driver.driver L.Device.device L.layout G.party V.party) plan j 0 floor.old.lanes.items
        bench.old.guests.items xs
        × CommandsIn (setting_of L.Driver.driver L.Device.device L.layout G.party V.party) plan guests true k 0
        (length floor.old.lanes.items) lane.old bench.old }
    ensures many { length floor.new.lanes.items ≡ length floor.old.lanes.items }
    ensures tree { floor.new.tree ≡ floor.old.tree }
    ensures few { result ≤ 189000000000 }
    ensures keeps { KeepsBench V.party (length floor.old.lanes.items + 1) bench.old bench.new }
    ensures devices { (q : ℕ) → q < length floor.old.lanes.items
        → slice_get bench.new.devices.items q ≡ slice_get bench.old.devices.items q }
    ensures ends { map (λ l. l.still) floor.new.lanes.items ≡ map (λ l. l.still) floor.old.lanes.items }
    ensures faults { HasNoFault V.party bench.old bench.new }
    ensures replayed { is_replayed lane.new.relaying ≡ true }
    ensures goes { (plan : Plan) → ReplayGoes (setting_of L.Driver.driver L.Device.device L.layout G.party V.party) plan
        floor.old.lanes.items floor.new.lanes.items lane.old lane.new bench.old bench.new result }
{
    let place = floor.lanes.len();
    let mut made = 0;
    for turn in 0..ROUNDS {
        made += guests_round::<L, G, V>(floor, bench, draws);
        made += command_guest::<L, G, V>(lane, &mut bench.guests[place], draws);
        made += command_relay::<L, G, V>(lane, &floor.tree, draws);
        if lane.replayed() {
            return made;
        }
        made += command_device::<L, G, V>(lane, &mut bench.devices[place], draws);
    }
    unreachable!()
}

/// Rounds until each lane is still, the control queue's too.
pub(crate) fn run_with_commands<L: Layout, G: Guest<L>, V: Device<L>>(
    floor: &mut Floor<L>,
    lane: &mut CommandLane<L>,
    bench: &mut Bench<G, V>,
    draws: &mut Draws,
) -> u64
    requires parties { HasLanes (length floor.old.lanes.items + 1) bench.old }
    requires few { length floor.old.lanes.items ≤ 8 }
    requires lanes { (plan : Plan) × (k : ℕ) × (r : ℕ) × (floor.old.tree.mappings ≡ tree_map plan)
        × AllInEpoch (setting_of L.Driver.driver L.Device.device L.layout G.party V.party) plan true k 0 floor.old.lanes.items bench.old
        × CommandsIn (setting_of L.Driver.driver L.Device.device L.layout G.party V.party) plan guests true k r
        (length floor.old.lanes.items) lane.old bench.old }
    ensures many { length floor.new.lanes.items ≡ length floor.old.lanes.items }
    ensures tree { floor.new.tree ≡ floor.old.tree }
    ensures few { result ≤ 463856467968 }
    ensures keeps { KeepsBench V.party (length floor.old.lanes.items + 1) bench.old bench.new }
    ensures faults { HasNoFault V.party bench.old bench.new }
    ensures goes { (plan : Plan) → floor.old.tree.mappings ≡ tree_map plan
        → CommandEpochGoes (setting_of L.Driver.driver L.Device.device L.layout G.party V.party) plan
        floor.old.lanes.items floor.new.lanes.items lane.old lane.new bench.old bench.new result }
{
    let place = floor.lanes.len();
    let mut made = 0;
    for turn in 0..ROUNDS {
        if floor.is_still() && lane.is_still() {
            return made;
        }
        made += round::<L, G, V>(floor, bench, draws);
        made += command_round::<L, G, V>(
            lane,
            &floor.tree,
            &mut bench.guests[place],
            &mut bench.devices[place],
            draws,
        );
    }
    made
}

/// After the closing epoch: rounds until each guest is done.
pub(crate) fn drain_with_commands<L: Layout, G: Guest<L>, V: Device<L>>(
    floor: &mut Floor<L>,
    lane: &mut CommandLane<L>,
    bench: &mut Bench<G, V>,
    draws: &mut Draws,
) -> u64
    requires parties { HasLanes (length floor.old.lanes.items + 1) bench.old }
    requires few { length floor.old.lanes.items ≤ 8 }
    requires lanes { (plan : Plan) × (k : ℕ) × (floor.old.tree.mappings ≡ tree_map plan) × IsLast plan k
        × (length (control_epochs plan) ≡ k + 1)
        × AllInEpoch (setting_of L.Driver.driver L.Device.device L.layout G.party V.party) plan false k 0 floor.old.lanes.items bench.old
        × CommandsIn (setting_of L.Driver.driver L.Device.device L.layout G.party V.party) plan guests false k 0
        (length floor.old.lanes.items) lane.old bench.old }
    ensures many { length floor.new.lanes.items ≡ length floor.old.lanes.items }
    ensures tree { floor.new.tree ≡ floor.old.tree }
    ensures few { result ≤ 463856467968 }
    ensures keeps { KeepsBench V.party (length floor.old.lanes.items + 1) bench.old bench.new }
    ensures faults { HasNoFault V.party bench.old bench.new }
    ensures done { AllDone G.party (length floor.old.lanes.items + 1) bench.new }
    ensures goes { (plan : Plan) → floor.old.tree.mappings ≡ tree_map plan
        → CommandDrains (setting_of L.Driver.driver L.Device.device L.layout G.party V.party) plan
        floor.old.lanes.items floor.new.lanes.items lane.old lane.new bench.old bench.new result }
{
    let place = floor.lanes.len();
    let mut made = 0;
    for turn in 0..ROUNDS {
        if all_done::<L, G, V>(place + 1, bench) {
            return made;
        }
        made += round::<L, G, V>(floor, bench, draws);
        made += command_round::<L, G, V>(
            lane,
            &floor.tree,
            &mut bench.guests[place],
            &mut bench.devices[place],
            draws,
        );
    }
    made
}
