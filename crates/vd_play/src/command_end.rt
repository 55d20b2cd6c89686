//! The control queue's lane after the closing epoch.
ghost use Rattle.std.specs.Prelude.{◌≡◌, ℕ, ◌+◌, false, length};
ghost use Rattle.vd_machine.specs.File.{Plan};
ghost use Rattle.vd_play.specs.Commands.{control_epochs};
ghost use Rattle.vd_play.specs.CommandProgress.{InCommandEpoch};
ghost use Rattle.vd_play.specs.CommandsPlayed.{IsCommandsPlayed};
ghost use Rattle.vd_play.specs.Setting.{setting_of};

use crate::command_lane::CommandLane;
use vd_bus::{Device, Guest};
use vd_layout::Layout;

/// Halts the guest, which is done.
pub(crate) fn halt_commands<L: Layout, G: Guest<L>, V: Device<L>>(
    lane: CommandLane<L>,
    guest: &mut G,
)
    requires done { G.party.is_done guest.old }
    requires lane { (plan : Plan) × (k : ℕ) × (n : ℕ) × (device : V) × InCommandEpoch
        (setting_of L.Driver.driver L.Device.device L.layout G.party V.party) plan false k n lane guest.old device }
    ensures counted { G.party.accesses guest.new ≡ G.party.accesses guest.old }
    ensures played { (plan : Plan) (k : ℕ) (n : ℕ) (device : V) → length (control_epochs plan) ≡ k + 1
        → InCommandEpoch (setting_of L.Driver.driver L.Device.device L.layout G.party V.party) plan false k n lane guest.old device
        → IsCommandsPlayed (setting_of L.Driver.driver L.Device.device L.layout G.party V.party) plan guest.new device }
{
    guest.halt();
}
