//! What a guest of the control queue has sent and got back, by its script. The functions do nothing: their contracts are its laws.

ghost use Rattle.std.specs.Prelude.{◌≡◌, ℕ, ◌<◌, List, Some, length, take};
ghost use Rattle.std.specs.List.{All};
ghost use Rattle.vd_model.specs.declared.record.Script.{Script};
ghost use Rattle.vd_ring.specs.declared.device.DeviceView.{DeviceView};
ghost use Rattle.vd_ring.specs.declared.driver.DriverView.{DriverView};
ghost use Rattle.vd_ring.specs.History.{offers, gives, used_at};
ghost use Rattle.vd_bus.specs.GuestCommands.{HasCommands, commands};
ghost use Rattle.vd_control.specs.Settings.{folded, replay};
ghost use Rattle.vd_commands.specs.Loads.{ack_load};
ghost use Rattle.vd_commands.specs.Words.{ack_byte};
ghost use Rattle.vd_relay.specs.Settling.{bytes_of};
ghost use Rattle.vd_switch.specs.CommandLanes.{IsSpelled, guest_commands};
ghost use Rattle.vd_control_lane.specs.Scripts.{AreSendable, IsReturned};

use vd_bus::Guest;
use vd_layout::Layout;

/// The chains that a guest of the control queue has offered carry the first commands of its script, byte by byte.
pub fn sent_law<L: Layout, G: Guest<L>>()
    ensures { (s : Script) (x : G) (v : DriverView) → G.party.holds x v → G.party.script x ≡ Some s → HasCommands s
        → AreSendable (commands s) → guest_commands v ≡ take (length (offers v.done)) (commands s) }
{}

/// Where each ack that it loaded is that of its command, and each chain was given with one byte written, what came back to it are commands
/// of its script with their acks.
pub fn returned_law<L: Layout, G: Guest<L>>()
    ensures { (s : Script) (x : G) (words : List ℕ) (v : DriverView) (w : DeviceView) → L.layout.ring words v w → G.party.holds x v
        → G.party.script x ≡ Some s → HasCommands s → AreSendable (commands s)
        → ((k : ℕ) (ack : ℕ) → ack_load v.done k ≡ Some ack → ack ≡ ack_byte (bytes_of v.frame v.done k))
        → ((j : ℕ) → j < length (gives w.done) → (used_at (gives w.done) j).len ≡ 1)
        → All (IsReturned (commands s)) (G.party.returned x) }
{}

/// Where the settings were set by commands of bytes, each command of their replay list can be spelled.
pub fn spelled_law()
    ensures { (strings : List (List ℕ)) → All (All (λ byte. byte < 256)) strings → All IsSpelled (replay (folded strings)) }
{}
