//! What a guest of a queue is.
ghost use Rattle.std.specs.Prelude.{◌≡◌, ℕ, ◌↔◌, None, Some, [], IsTrue, List, OnOk, OnErr};
ghost use Rattle.vd_ring.specs.declared.driver.DriverView.{DriverView};
ghost use Rattle.vd_layout.specs.Begun.{DriverOp};
ghost use Rattle.vd_bus.specs.Scripts.{IsScript};
ghost use Rattle.vd_bus.specs.Guest.{GuestParty, IsLawfulGuestParty, IsBoot, IsHalt, HoldsNone, OwnsAsGuest, MakesGuestAccess};

use std::alloc::{AllocError, Global};
use vd_layout::{Layout, Move};
use vd_model::{Return, Script};
use vd_words::Port;

/// A guest of a queue: from `boot` to `halt` it holds a ring's driver end, offers the chains of its script in order, and
/// keeps what comes back. Of a script with commands it offers those, on a control ring: before each offer it stores the command's
/// bytes, filled up with zeros, in the two command words of the next head, and after each collect it loads the ack.
pub trait Guest<L: Layout>: Drop {
    ghost party: { GuestParty Self };

    /// Copies the script, and takes room for all that will come back.
    fn load(&mut self, alloc: Global, script: &Script) -> Result<(), AllocError>
        requires free { party.script self.old ≡ None }
        requires few { IsScript script.now }
        ensures ok { OnOk result (party.is_loaded self.new × (party.script self.new ≡ Some script.now)) }
        ensures err { OnErr result (party.script self.new ≡ None) }
        ensures offered { party.offered self.new ≡ party.offered self.old }
        ensures returned { party.returned self.new ≡ party.returned self.old }
        ensures counts { (party.accesses self.new ≡ party.accesses self.old) × (party.heard self.new ≡ party.heard self.old) }
        ensures free { HoldsNone party self.new };

    /// Takes over the driver's end of a fresh ring: of a control ring where the script has commands.
    fn boot(&mut self, end: L::Driver)
        requires loaded { party.is_loaded self.old }
        requires unused { (party.offered self.old ≡ 0) × (party.returned self.old ≡ []) }
        requires idle { L.Driver.driver.begun end ≡ DriverOp.idle }
        ensures { IsBoot L.Driver.driver L.layout party end self.old self.new };

    /// Makes one access of the ring's words.
    fn step<P: Port>(&mut self, port: &mut P) -> Move
        requires live { ¬ (party.is_done self.old) }
        requires own { OwnsAsGuest P.port L.Driver.driver party port.old self.old }
        ensures { MakesGuestAccess P.port L.Driver.driver party port.old port.new self.old self.new result };

    /// Whether all chains of the script, or all commands, were offered and returned, and the end is idle.
    fn done(&self) -> bool
        ensures { IsTrue result ↔ party.is_done self.now };

    /// Hands out the ring's end.
    fn halt(&mut self) -> L::Driver
        requires done { party.is_done self.old }
        requires held { (v : DriverView) × party.holds self.old v }
        ensures { IsHalt L.Driver.driver party self.old self.new result };

    /// How many chains or commands were offered.
    fn offered(&self) -> u32
        ensures { result ≡ party.offered self.now };

    /// How many of its steps did not answer Looked. It stays at the last u64.
    fn accesses(&self) -> u64
        ensures { result ≡ party.accesses self.now };

    /// How many of its hearings ended with Awake. It stays at the last u64.
    fn heard(&self) -> u64
        ensures { result ≡ party.heard self.now };

    /// What came back, in order.
    fn returned(&self) -> &[Return]
        ensures { result.now ≡ party.returned self.now };

    ghost lawful: { IsLawfulGuestParty L.Driver.driver party };
}
