//! An epoch's begin on the control queue's lane: its device is attached to the epoch's shadow ring, and a relay stands between that and the
//! guest's ring.
ghost use Rattle.std.specs.Prelude.{◌≡◌, ℕ, ◌<◌, ◌+◌, true, List, IfErr, IfOk, OnOk, length};
ghost use Rattle.vd_bus.specs.Device.{IsRefused};
ghost use Rattle.vd_machine.specs.File.{view};
ghost use Rattle.vd_play.specs.declared.floor.Lane.{Lane};
ghost use Rattle.vd_play.specs.Commands.{settings_at};
ghost use Rattle.vd_play.specs.CommandProgress.{InCommandEpoch};
ghost use Rattle.vd_play.specs.CommandRenewing.{CommandRenewed};
ghost use Rattle.vd_play.specs.CommandRounds.{is_replayed};
ghost use Rattle.vd_play.specs.CommandsPlayed.{AreCommandsCut};
ghost use Rattle.vd_play.specs.Epochs.{mode_at};
ghost use Rattle.vd_play.specs.Places.{HasControl};
ghost use Rattle.vd_play.specs.Progress.{steps};
ghost use Rattle.vd_play.specs.Setting.{setting_of};
ghost use Rattle.vd_play.specs.Setup.{IsReady};

use crate::calls::{enable, order};
use crate::command_count::command_count;
use crate::command_lane::CommandLane;
use crate::epoch::PlayFault;
use crate::floor::Relaying;
use crate::order::is_renewed;
use vd_bus::{Bus, Device, Guest};
use vd_layout::Layout;
use vd_machine::Machine;
use vd_uapi::VringState;

/// The number of the control queue.
const CONTROL: u32 = 15;

/// Attaches the device, by an order of the bus to begin the epoch's commands, those of a replay counted. After a renewal the relay replays
/// what was set. A refusal leaves the lane still; its shadow ring is gone.
pub(crate) fn attach_commands<'a, L: Layout, G: Guest<L>, V: Device<L>>(
    m: &Machine,
    epoch: usize,
    bus: &mut Bus,
    lane: &mut CommandLane<L>,
    device: &'a mut V,
) -> Result<(), PlayFault>
    requires control { HasControl (view m.now) }
    requires epoch { epoch < length m.now.switches + 2 }
    requires ready { (lanes : List (Lane L L.Driver L.Device)) × IsReady L.Device.device L.layout.fresh_base (view m.now)
        (mode_at (view m.now) epoch) epoch lanes bus.old }
    requires lane { (guest : G) × CommandRenewed (setting_of L.Driver.driver L.Device.device L.layout G.party V.party) (view m.now) epoch
        lane.old guest device.old }
    ensures ready { (lanes : List (Lane L L.Driver L.Device)) → IsReady L.Device.device L.layout.fresh_base (view m.now)
        (mode_at (view m.now) epoch) epoch lanes bus.old → IsReady L.Device.device L.layout.fresh_base (view m.now)
        (mode_at (view m.now) epoch) epoch lanes bus.new }
    ensures ok { IfOk result (λ _. (guest : G)
        → CommandRenewed (setting_of L.Driver.driver L.Device.device L.layout G.party V.party) (view m.now) epoch lane.old guest device.old
        → InCommandEpoch (setting_of L.Driver.driver L.Device.device L.layout G.party V.party) (view m.now) true epoch 0 lane.new guest
        device.new
        × (steps (setting_of L.Driver.driver L.Device.device L.layout G.party V.party) lane.new.relayed guest device.new
        ≡ steps (setting_of L.Driver.driver L.Device.device L.layout G.party V.party) lane.old.relayed guest device.old)) }
    ensures replayed { IfOk result (λ _. is_replayed lane.new.relaying ≡ true
        → V.party.settings device.new ≡ settings_at (view m.now) epoch) }
    ensures carried { V.party.carried device.new ≡ V.party.carried device.old }
    ensures faults { OnOk result (V.party.faults device.new ≡ V.party.faults device.old) }
    ensures err { IfErr result (λ f. (f ≡ PlayFault.Device 15) × IsRefused V.party device.old device.new) }
    ensures cut { IfErr result (λ f. (guest : G)
        → CommandRenewed (setting_of L.Driver.driver L.Device.device L.layout G.party V.party) (view m.now) epoch lane.old guest device.old
        → AreCommandsCut (setting_of L.Driver.driver L.Device.device L.layout G.party V.party) (view m.now) guest device.new) }
{
    let Some(still) = lane.still.take() else {
        unreachable!()
    };
    let Some(ring) = lane.kits.pop() else {
        unreachable!()
    };
    enable(
        bus,
        &VringState {
            index: CONTROL,
            num: 1,
        },
    );
    let count = command_count(m, epoch, still.settings());
    let order = order(bus, CONTROL, count);
    // The control queue's own attach has the default settings. (A lifetime of its own would have to be shown to be outlived by V.)
    let control: Option<&'a V> = None;
    match still.to_shadow(ring.kit, is_renewed(m, epoch), device, &order, control) {
        Ok(shadowing) => {
            lane.relaying = Some(Relaying {
                lane: shadowing,
                words: ring.words,
            });
            Ok(())
        }
        Err(fault) => {
            lane.still = Some(fault.lane);
            Err(PlayFault::Device(CONTROL))
        }
    }
}
