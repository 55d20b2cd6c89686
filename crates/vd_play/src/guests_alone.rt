//! Rounds of the guests alone: while the settings of the control queue are replayed, no device of a data queue is attached.
ghost use Rattle.std.specs.Prelude.{◌≡◌, ℕ, ◌≤◌, ◌+◌, List, false, length, map};
ghost use Rattle.std.specs.List.{sum_by};
ghost use Rattle.vd_machine.specs.File.{Plan};
ghost use Rattle.vd_play.specs.GuestsAlone.{GuestGoes, GuestsGo};
ghost use Rattle.vd_play.specs.Each.{EachLane, HasLanes};
ghost use Rattle.vd_play.specs.Played.{KeepsBench};
ghost use Rattle.vd_play.specs.Progress.{InEpoch};
ghost use Rattle.vd_play.specs.Setting.{setting_of};

use crate::bench::Bench;
use crate::floor::{Floor, Lane};
use vd_bus::{Device, Guest};
use vd_layout::Layout;
use vd_turns::{Draws, guest_turn};

/// The turn of the guest of a still lane. It answers how many steps were no look of a sleeper.
fn guest_alone<L: Layout, G: Guest<L>, V: Device<L>>(
    lane: &mut Lane<L>,
    guest: &mut G,
    draws: &mut Draws,
) -> u64
    requires lane { (plan : Plan) × (q : ℕ) × (k : ℕ) × (n : ℕ) × (x : V)
        × InEpoch (setting_of L.Driver.driver L.Device.device L.layout G.party V.party) plan q false k n lane.old guest.old x }
    ensures few { result ≤ 4 }
    ensures end { lane.new.still ≡ lane.old.still }
    ensures goes { GuestGoes (setting_of L.Driver.driver L.Device.device L.layout G.party V.party) lane.old lane.new guest.old guest.new
        result }
{
    guest_turn::<L, G>(&mut lane.words, guest, draws)
}

/// A turn of each lane's guest, in the order of the queues. It answers how many steps were no look of a sleeper.
pub(crate) fn guests_round<L: Layout, G: Guest<L>, V: Device<L>>(
    floor: &mut Floor<L>,
    bench: &mut Bench<G, V>,
    draws: &mut Draws,
) -> u64
    requires parties { HasLanes (length floor.old.lanes.items) bench.old }
    requires few { length floor.old.lanes.items ≤ 8 }
    requires lanes { (plan : Plan) × (k : ℕ) × (n : ℕ) × (xs : List V) × (length floor.old.lanes.items ≤ length xs)
        × EachLane (λ q a b x. InEpoch (setting_of L.Driver.driver L.Device.device L.layout G.party V.party) plan q false k n a b x)
        floor.old.lanes.items bench.old.guests.items xs }
    ensures many { length floor.new.lanes.items ≡ length floor.old.lanes.items }
    ensures tree { floor.new.tree ≡ floor.old.tree }
    ensures few { result ≤ 32 }
    ensures keeps { KeepsBench V.party (length floor.old.lanes.items) bench.old bench.new }
    ensures devices { bench.new.devices ≡ bench.old.devices }
    ensures ends { map (λ l. l.still) floor.new.lanes.items ≡ map (λ l. l.still) floor.old.lanes.items }
    ensures goes { GuestsGo (setting_of L.Driver.driver L.Device.device L.layout G.party V.party) floor.old.lanes.items
        floor.new.lanes.items bench.old.guests.items bench.new.guests.items result }
{
    let mut made = 0;
    for i in 0..floor.lanes.len() {
        made += guest_alone::<L, G, V>(&mut floor.lanes[i], &mut bench.guests[i], draws);
    }
    made
}
