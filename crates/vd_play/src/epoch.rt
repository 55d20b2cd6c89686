//! An epoch's begin: each lane's device is attached to its ring.
ghost use Rattle.std.specs.Prelude.{◌≡◌, ◌<◌, ◌+◌, true, None, Some, IfErr, IfOk, OnOk, length};
ghost use Rattle.std.specs.Option.{option_copied};
ghost use Rattle.vd_bus.specs.Bus.{vring_of};
ghost use Rattle.vd_bus.specs.BusRings.{enable_fault, order_fault, terms};
ghost use Rattle.vd_bus.specs.Device.{IsAttach, IsRefused, control_settings};
ghost use Rattle.vd_machine.specs.File.{view};
ghost use Rattle.vd_play.specs.Commands.{settings_at};
ghost use Rattle.vd_play.specs.Each.{EachLane, HasLanes};
ghost use Rattle.vd_play.specs.Epochs.{mode_at};
ghost use Rattle.vd_play.specs.Orders.{CanAttach};
ghost use Rattle.vd_play.specs.Attaching.{IsSameLane, CanShadow, HasShadowed, removed_last};
ghost use Rattle.vd_play.specs.Played.{IsCut, KeepsBench, HasNoFault, IsFaultOf, faulty};
ghost use Rattle.vd_play.specs.Progress.{AllInEpoch, all_made};
ghost use Rattle.vd_play.specs.Renewing.{AllRenewed};
ghost use Rattle.vd_play.specs.Setting.{setting_of};
ghost use Rattle.vd_play.specs.Setup.{on, serving, HasBase, IsReady, IsUp, HasSizes};

use crate::bench::Bench;
use crate::calls::{enable, order};
use crate::floor::{Floor, Lane, Relaying};
use crate::order::{chain_count, mode_of, stop_of};
use vd_bus::{Bus, Device, Guest};
use vd_layout::Layout;
use vd_machine::Machine;
use vd_model::Mode;
use vd_switch::Still;
use vd_uapi::VringState;

/// How a play is cut off.
#[derive(Copy, Clone, Debug, PartialEq, Eq)]
pub enum PlayFault {
    /// The device of this queue refused an attach.
    Device(u32),
}

/// Attaches a lane's device to the guest's ring, by an order of the bus to begin `count` chains more, with the settings of the control
/// queue's device, or the default where there is none. A refusal leaves the end in the lane.
fn attach_pass<L: Layout, V: Device<L>>(
    bus: &mut Bus,
    queue: u32,
    count: u32,
    lane: &mut Lane<L>,
    device: &mut V,
    control: Option<&V>,
) -> Result<(), PlayFault>
    requires can { CanAttach L.Device.device V.party queue count lane.old.still device.old }
    requires enabled { enable_fault bus.old (on queue) ≡ None }
    requires ordered { order_fault (serving bus.old queue) queue ≡ None }
    requires base { HasBase L.Device.device lane.old.still (vring_of (serving bus.old queue) queue) }
    ensures bus { bus.new ≡ serving bus.old queue }
    ensures lane { IsSameLane lane.old lane.new × (lane.new.relaying ≡ lane.old.relaying) × (lane.new.kits ≡ lane.old.kits) }
    ensures ok { IfOk result (λ _. (lane.new.still ≡ None) × ((end : _) → lane.old.still ≡ Some end
        → IsAttach L.Device.device V.party (terms (serving bus.old queue) queue count) (option_copied control.entry) end
        device.old device.new)) }
    ensures carried { V.party.carried device.new ≡ V.party.carried device.old }
    ensures faults { OnOk result (V.party.faults device.new ≡ V.party.faults device.old) }
    ensures err { IfErr result (λ f. (f ≡ PlayFault.Device queue) × (lane.new.still ≡ lane.old.still)
        × IsRefused V.party device.old device.new) }
{
    let Some(end) = lane.still.take() else {
        unreachable!()
    };
    enable(
        bus,
        &VringState {
            index: queue,
            num: 1,
        },
    );
    let order = order(bus, queue, count);
    match device.attach(&order, end, control) {
        Ok(()) => Ok(()),
        Err(refused) => {
            lane.still = Some(refused.end);
            Err(PlayFault::Device(queue))
        }
    }
}

/// Attaches a lane's device to the epoch's shadow ring, by an order of the bus to begin `count` chains more, with the settings of the
/// control queue's device, and lets a relay stand between it and the guest's ring. A refusal leaves the end in the lane.
fn attach_shadow<L: Layout, V: Device<L>>(
    bus: &mut Bus,
    queue: u32,
    count: u32,
    lane: &mut Lane<L>,
    device: &mut V,
    control: Option<&V>,
) -> Result<(), PlayFault>
    requires can { CanAttach L.Device.device V.party queue count lane.old.still device.old }
    requires enabled { enable_fault bus.old (on queue) ≡ None }
    requires ordered { order_fault (serving bus.old queue) queue ≡ None }
    requires shadow { CanShadow L.Driver.driver L.Device.device L.layout (terms (serving bus.old queue) queue count) lane.old.still
        lane.old.kits.items }
    ensures bus { bus.new ≡ serving bus.old queue }
    ensures lane { IsSameLane lane.old lane.new × (lane.new.kits.items ≡ removed_last lane.old.kits.items) }
    ensures ok { IfOk result (λ _. (lane.new.still ≡ None) × HasShadowed L.Driver.driver L.Device.device V.party
        (terms (serving bus.old queue) queue count) (option_copied control.entry) lane.old lane.new device.old device.new) }
    ensures carried { V.party.carried device.new ≡ V.party.carried device.old }
    ensures faults { OnOk result (V.party.faults device.new ≡ V.party.faults device.old) }
    ensures err { IfErr result (λ f. (f ≡ PlayFault.Device queue) × (lane.new.still ≡ lane.old.still)
        × (lane.new.relaying ≡ lane.old.relaying) × IsRefused V.party device.old device.new) }
{
    let Some(end) = lane.still.take() else {
        unreachable!()
    };
    let Some(ring) = lane.kits.pop() else {
        unreachable!()
    };
    enable(
        bus,
        &VringState {
            index: queue,
            num: 1,
        },
    );
    let order = order(bus, queue, count);
    match Still::new(end, false).to_shadow(ring.kit, false, device, &order, control) {
        Ok(shadowing) => {
            lane.relaying = Some(Relaying {
                lane: shadowing,
                words: ring.words,
            });
            Ok(())
        }
        Err(fault) => {
            lane.still = Some(fault.lane.finish());
            Err(PlayFault::Device(queue))
        }
    }
}

/// Begins an epoch on each lane, in the order of the queues, with the settings of the control queue's device. A refusal ends it, and no
/// further device is attached.
pub(crate) fn attach_all<L: Layout, G: Guest<L>, V: Device<L>>(
    m: &Machine,
    epoch: usize,
    bus: &mut Bus,
    floor: &mut Floor<L>,
    bench: &mut Bench<G, V>,
    control: Option<&V>,
) -> Result<(), PlayFault>
    requires settings { control_settings V.party.settings (option_copied control) ≡ settings_at (view m.now) epoch }
    requires many { length floor.old.lanes.items ≡ length m.now.queues }
    requires parties { HasLanes (length m.now.queues) bench.old }
    requires epoch { epoch < length m.now.switches + 2 }
    requires ready { IsReady L.Device.device L.layout.fresh_base (view m.now) (mode_at (view m.now) epoch) epoch
        floor.old.lanes.items bus.old }
    requires lanes { AllRenewed (setting_of L.Driver.driver L.Device.device L.layout G.party V.party) (view m.now) epoch
        floor.old.lanes.items bench.old }
    ensures many { length floor.new.lanes.items ≡ length floor.old.lanes.items }
    ensures tree { floor.new.tree ≡ floor.old.tree }
    ensures up { OnOk result (IsUp (view m.now) (mode_at (view m.now) epoch) bus.new × HasSizes (view m.now) bus.new) }
    ensures keeps { KeepsBench V.party (length m.now.queues) bench.old bench.new }
    ensures lanes { IfOk result (λ _. AllInEpoch (setting_of L.Driver.driver L.Device.device L.layout G.party V.party) (view m.now)
        true epoch 0 floor.new.lanes.items bench.new) }
    ensures counted { IfOk result (λ _. all_made (setting_of L.Driver.driver L.Device.device L.layout G.party V.party)
        floor.new.lanes.items bench.new
        ≡ all_made (setting_of L.Driver.driver L.Device.device L.layout G.party V.party) floor.old.lanes.items bench.old) }
    ensures faults { IfOk result (λ _. HasNoFault V.party bench.old bench.new) }
    ensures cut { IfErr result (λ f. EachLane
        (λ q a b x. IsCut (setting_of L.Driver.driver L.Device.device L.layout G.party V.party) (view m.now) q b x)
        floor.new.lanes.items bench.new.guests.items bench.new.devices.items) }
    ensures fault { IfErr result (λ f. IsFaultOf V.party (length m.now.queues) (faulty f) bench.old bench.new) }
{
    let mode = mode_of(m, epoch);
    for i in 0..floor.lanes.len() {
        let runs = m.queues.as_slice()[i].runs.as_slice();
        let stop = stop_of(m.switches.as_slice(), epoch, chain_count(runs));
        let device = &mut bench.devices[i];
        let count = stop - device.journal().begun.len() as u32;
        match mode {
            Mode::Pass => {
                attach_pass::<L, V>(bus, i as u32, count, &mut floor.lanes[i], device, control)?;
            }
            Mode::Shadow => {
                attach_shadow::<L, V>(bus, i as u32, count, &mut floor.lanes[i], device, control)?;
            }
        }
    }
    Ok(())
}
