//! All epochs of a machine, one after the other.
ghost use Rattle.std.specs.Prelude.{◌≡◌, ℕ, ◌<◌, ◌≤◌, ◌+◌, false, None, IfErr, IfOk, OnOk, length};
ghost use Rattle.vd_machine.specs.File.{Plan, view};
ghost use Rattle.vd_play.specs.Each.{HasLanes};
ghost use Rattle.vd_play.specs.Played.{AllPlayed, AllCut, KeepsBench, HasNoFault, IsFaultOf, faulty};
ghost use Rattle.vd_play.specs.Prepared.{IsPrepared};
ghost use Rattle.vd_play.specs.Progress.{AllInEpoch, all_steps, most_steps};
ghost use Rattle.vd_play.specs.Rounds.{AllDone, IsLast, Halts};
ghost use Rattle.vd_play.specs.Setting.{setting_of};
ghost use Rattle.vd_play.specs.Tree.{IsLaid};

use crate::bench::Bench;
use crate::epoch::{PlayFault, attach_all};
use crate::floor::Floor;
use crate::renewing::renew;
use crate::rounds::{drain, run_epoch};
use crate::setup::{new_bus, set_up};
use vd_bus::{Device, Guest};
use vd_layout::Layout;
use vd_machine::Machine;
use vd_turns::Draws;

/// Halts each guest; all are done.
fn halt_all<L: Layout, G: Guest<L>, V: Device<L>>(floor: Floor<L>, bench: &mut Bench<G, V>)
    requires parties { HasLanes (length floor.lanes.items) bench.old }
    requires done { AllDone G.party (length floor.lanes.items) bench.old }
    requires lanes { (plan : Plan) × (k : ℕ) × (r : ℕ) × IsLast plan k
        × AllInEpoch (setting_of L.Driver.driver L.Device.device L.layout G.party V.party) plan false k r floor.lanes.items bench.old }
    ensures keeps { KeepsBench V.party (length floor.lanes.items) bench.old bench.new }
    ensures devices { bench.new.devices ≡ bench.old.devices }
    ensures counted { all_steps (setting_of L.Driver.driver L.Device.device L.layout G.party V.party) bench.new
        ≡ all_steps (setting_of L.Driver.driver L.Device.device L.layout G.party V.party) bench.old }
    ensures halted { Halts (setting_of L.Driver.driver L.Device.device L.layout G.party V.party) floor.lanes.items bench.old bench.new }
{
    for i in 0..floor.lanes.len() {
        bench.guests[i].halt();
    }
}

/// Plays the machine, for which the floor was prepared, with the parties of the bench: each live party in its turn, one
/// access after the other. With a seed a turn has 1 to 4 of them. It answers how many accesses were made, without the
/// looks of sleepers. The machine has data queues alone: a control queue isn't played yet.
pub fn play_machine<'a, L: Layout, G: Guest<L>, V: Device<L>>(
    floor: Floor<L>,
    m: &Machine,
    seed: Option<u64>,
    bench: &'a mut Bench<G, V>,
) -> Result<u64, PlayFault>
    requires uncontrolled { m.now.control ≡ None }
    requires prepared { IsPrepared (setting_of L.Driver.driver L.Device.device L.layout G.party V.party) (view m.now)
        floor.lanes.items bench.old }
    requires tree { IsLaid (view m.now) floor.tree.mappings }
    ensures keeps { KeepsBench V.party (length m.now.queues) bench.old bench.new }
    ensures played { OnOk result (AllPlayed (setting_of L.Driver.driver L.Device.device L.layout G.party V.party) (view m.now) bench.new) }
    ensures counted { IfOk result (λ n. all_steps (setting_of L.Driver.driver L.Device.device L.layout G.party V.party) bench.new ≤ n) }
    ensures bound { IfOk result (λ n. n ≤ most_steps (view m.now)) }
    ensures faults { OnOk result (HasNoFault V.party bench.old bench.new) }
    ensures fault { IfErr result (λ f. IsFaultOf V.party (length m.now.queues) (faulty f) bench.old bench.new) }
    ensures cut { IfErr result (λ f. AllCut (setting_of L.Driver.driver L.Device.device L.layout G.party V.party) (view m.now) bench.new) }
{
    let mut floor = floor;
    let mut draws = Draws::new(seed);
    let mut bus = new_bus(m);
    let mut made = 0;
    for epoch in 0..m.switches.len() + 2 {
        renew::<L, G, V>(m, epoch, &mut bus, bench);
        set_up::<L>(m, &floor.tree, epoch, &mut bus, floor.lanes.as_slice());
        // There is no control queue's device. (A lifetime of its own would have to be shown to be outlived by V.)
        let control: Option<&'a V> = None;
        attach_all::<L, G, V>(m, epoch, &mut bus, &mut floor, bench, control)?;
        made += run_epoch::<L, G, V>(&mut floor, bench, &mut draws);
    }
    made += drain::<L, G, V>(&mut floor, bench, &mut draws);
    halt_all::<L, G, V>(floor, bench);
    Ok(made)
}
