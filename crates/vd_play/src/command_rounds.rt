//! A round of the control queue's lane, the last one of each round: its guest's turn, its relay's, and then, while it is attached, its
//! device's. They are calls of their own, since as an epoch begins the data queues are attached behind the relay's turn by which all of its
//! replay is acknowledged.
ghost use Rattle.std.specs.Prelude.{◌≡◌, ℕ, ◌≤◌, Bool, true, None, IsSomeAnd};
ghost use Rattle.vd_ring.specs.declared.device.DeviceView.{DeviceView};
ghost use Rattle.vd_ring.specs.declared.driver.DriverView.{DriverView};
ghost use Rattle.vd_relay.specs.Modes.{Opening, ControlHolds};
ghost use Rattle.vd_relay.specs.Stages.{is_rested};
ghost use Rattle.vd_machine.specs.File.{Plan};
ghost use Rattle.vd_play.specs.CommandProgress.{InCommandRound};
ghost use Rattle.vd_play.specs.CommandProgress.Next.{guests, relays, devices};
ghost use Rattle.vd_play.specs.CommandRounds.{is_replayed, CommandGuestGoes, CommandRelayGoes, CommandsReplayed, CommandDeviceGoes, CommandGoes};
ghost use Rattle.vd_play.specs.Setting.{setting_of};

use crate::command_lane::CommandLane;
use crate::floor::Relaying;
use vd_bus::{Device, Guest};
use vd_iova::IovaTree;
use vd_layout::Layout;
use vd_switch::Still;
use vd_turns::{Draws, control_turn, device_turn, guest_turn};

/// The guest's turn. It answers how many of its steps were no look of a sleeper.
pub(crate) fn command_guest<L: Layout, G: Guest<L>, V: Device<L>>(
    lane: &mut CommandLane<L>,
    guest: &mut G,
    draws: &mut Draws,
) -> u64
    requires lane { (plan : Plan) × (on : Bool) × (k : ℕ) × (n : ℕ) × (device : V)
        × InCommandRound (setting_of L.Driver.driver L.Device.device L.layout G.party V.party) plan guests on k n lane.old guest.old device }
    ensures few { result ≤ 4 }
    ensures relaying { lane.new.relaying ≡ lane.old.relaying }
    ensures goes { (plan : Plan) → CommandGuestGoes (setting_of L.Driver.driver L.Device.device L.layout G.party V.party) plan
        lane.old lane.new guest.old guest.new result }
{
    guest_turn::<L, G>(&mut lane.words, guest, draws)
}

/// Keeps the still lane that a relay which rests leaves. It is a function of its own, since an end is large.
#[inline(never)]
fn stop<L: Layout>(relaying: &mut Option<Relaying<L>>, still: &mut Option<Still<L>>)
    requires rested { IsSomeAnd relaying.old (λ x. (is_rested x.lane.relay.state.stage ≡ true)
        × IsSomeAnd x.lane.relay.control (λ k. (z : Opening) × (w : DeviceView) × (v : DriverView)
        × ControlHolds L.layout L.Device.device L.Driver.driver z x.lane.relay.state k x.lane.relay.settings x.lane.relay.counts w v)) }
    ensures gone { relaying.new ≡ None }
    ensures kept { IsSomeAnd relaying.old (λ x. IsSomeAnd still.new (λ y. (y.end ≡ x.lane.relay.state.guest) × (y.control ≡ true)
        × (y.settings ≡ x.lane.relay.settings))) }
{
    let Some(x) = relaying.take() else {
        unreachable!()
    };
    *still = Some(x.lane.stop());
}

/// The relay's turn, if there is one. A relay that rests hands the end of the guest's ring back to the lane. It answers how many of its
/// steps were no look of a sleeper.
pub(crate) fn command_relay<L: Layout, G: Guest<L>, V: Device<L>>(
    lane: &mut CommandLane<L>,
    tree: &IovaTree,
    draws: &mut Draws,
) -> u64
    requires lane { (plan : Plan) × (on : Bool) × (k : ℕ) × (n : ℕ) × (guest : G) × (device : V)
        × InCommandRound (setting_of L.Driver.driver L.Device.device L.layout G.party V.party) plan relays on k n lane.old guest device }
    ensures few { result ≤ 4 }
    ensures goes { (plan : Plan) → CommandRelayGoes (setting_of L.Driver.driver L.Device.device L.layout G.party V.party) plan
        lane.old lane.new result }
    ensures replayed { (plan : Plan) → CommandsReplayed (setting_of L.Driver.driver L.Device.device L.layout G.party V.party) plan
        lane.old lane.new }
{
    let Some(relaying) = lane.relaying.as_mut() else {
        return 0;
    };
    let made = control_turn::<L>(
        &mut lane.words,
        &mut relaying.words,
        &mut relaying.lane,
        tree,
        draws,
    );
    lane.relayed += made;
    if relaying.lane.rested() {
        stop::<L>(&mut lane.relaying, &mut lane.still);
    }
    made
}

/// The device's turn, while it is attached. A device that is done is suspended, and its relay begins to wind up. It answers how many of its
/// steps were no look of a sleeper.
pub(crate) fn command_device<L: Layout, G: Guest<L>, V: Device<L>>(
    lane: &mut CommandLane<L>,
    device: &mut V,
    draws: &mut Draws,
) -> u64
    requires lane { (plan : Plan) × (on : Bool) × (k : ℕ) × (n : ℕ) × (guest : G)
        × InCommandRound (setting_of L.Driver.driver L.Device.device L.layout G.party V.party) plan devices on k n lane.old guest device.old }
    ensures few { result ≤ 4 }
    ensures replayed { is_replayed lane.new.relaying ≡ is_replayed lane.old.relaying }
    ensures goes { (plan : Plan) → CommandDeviceGoes (setting_of L.Driver.driver L.Device.device L.layout G.party V.party) plan
        lane.old lane.new device.old device.new result }
    ensures carried { V.party.carried device.new ≡ V.party.carried device.old }
    ensures faults { V.party.faults device.new ≡ V.party.faults device.old }
{
    let Some(relaying) = lane.relaying.as_mut() else {
        return 0;
    };
    if relaying.lane.winds() {
        return 0;
    }
    let made = device_turn::<L, V>(&mut relaying.words, device, draws);
    if device.done() {
        relaying.lane.begin_wind_up(device);
    }
    made
}

/// A round: the turns of all three.
pub(crate) fn command_round<L: Layout, G: Guest<L>, V: Device<L>>(
    lane: &mut CommandLane<L>,
    tree: &IovaTree,
    guest: &mut G,
    device: &mut V,
    draws: &mut Draws,
) -> u64
    requires lane { (plan : Plan) × (on : Bool) × (k : ℕ) × (n : ℕ) × InCommandRound
        (setting_of L.Driver.driver L.Device.device L.layout G.party V.party) plan guests on k n lane.old guest.old device.old }
    ensures few { result ≤ 12 }
    ensures goes { (plan : Plan) → CommandGoes (setting_of L.Driver.driver L.Device.device L.layout G.party V.party) plan
        lane.old lane.new guest.old guest.new device.old device.new result }
    ensures carried { V.party.carried device.new ≡ V.party.carried device.old }
    ensures faults { V.party.faults device.new ≡ V.party.faults device.old }
{
    let by_guest = command_guest::<L, G, V>(lane, guest, draws);
    let by_relay = command_relay::<L, G, V>(lane, tree, draws);
    by_guest + by_relay + command_device::<L, G, V>(lane, device, draws)
}
