//! What a device of a queue is.
ghost use Rattle.vd_bus.specs.Scripts.{most_window};
ghost use Rattle.std.specs.Prelude.{◌≡◌, ◌≢◌, ℕ, ◌<◌, ◌≤◌, ◌+◌, ◌^◌, ◌↔◌, None, IsTrue, length, List, MatchResult, OnOk, OnErr};
ghost use Rattle.std.specs.Option.{option_copied};
ghost use Rattle.vd_ring.specs.declared.device.DeviceView.{DeviceView};
ghost use Rattle.vd_layout.specs.Device.{IsStill};
ghost use Rattle.vd_bus.specs.Device.{DeviceParty, IsLawfulDeviceParty, IsUnchanged, IsAttach, IsRefused, IsSuspend, IsReset, OwnsAsDevice, MakesDeviceAccess};

use crate::journal::Journal;
use crate::order::Order;
use std::alloc::{AllocError, Global};
use vd_control::Settings;
use vd_layout::{Layout, Move};
use vd_words::Port;

/// By what a device is attached: what it needs of its order, and where it stood then.
#[derive(Copy, Clone)]
pub struct Attached {
    /// The queue's number.
    pub queue: u32,
    /// How many chains are begun under the order.
    pub count: u32,
    /// How many chains it had begun before.
    pub at: u32,
    /// How many chains were taken on the ring before.
    pub from: u32,
}

/// An attach was refused: the end comes back as it was handed in.
#[derive(Drop)]
pub struct Refused<L: Layout> {
    pub end: L::Device,
}

/// A device of a queue: while it is attached it holds a ring's device end, takes chains in the ring's order, and records
/// each chain that it begins.
pub trait Device<L: Layout>: Drop {
    /// Plain data that no call changes.
    type Carried;

    ghost party: { DeviceParty Self Self.Carried };

    /// Makes room in the journal for so many events and chains, and sets the window: at most so many chains are to be held at
    /// a time.
    fn reserve(
        &mut self,
        alloc: Global,
        window: u32,
        events: u32,
        chains: u32,
    ) -> Result<(), AllocError>
        requires free { party.attached self.old ≡ None }
        requires window { (1 ≤ window) × (window ≤ most_window) }
        ensures same { IsUnchanged party self.old self.new }
        ensures window { OnOk result (party.window self.new ≡ window) }
        ensures err { OnErr result (party.window self.new ≡ party.window self.old) }
        ensures room { OnOk result ((events ≤ party.event_room self.new) × (chains ≤ party.chain_room self.new)) };

    /// Attaches the device to a ring, with the settings of the control queue's device, or the default where there is none.
    /// A refusal hands the end back and has changed the count of faults alone.
    fn attach(
        &mut self,
        order: &Order,
        end: L::Device,
        control: Option<&Self>,
    ) -> Result<(), Refused<L>>
        requires free { party.attached self.old ≡ None }
        requires events { 2 ≤ party.event_room self.old }
        requires chains { order.now.count ≤ party.chain_room self.old }
        requires few { length (party.begun self.old) + order.now.count < 2 ^ 32 }
        requires still { IsStill L.Device.device end }
        requires base { L.Device.device.base end ≡ order.now.base.0 }
        ensures { MatchResult
            result
            (λ _. IsAttach L.Device.device party order.now (option_copied control.entry) end self.old self.new)
            (λ r. (r.end ≡ end) × IsRefused party self.old self.new) };

    /// Makes one access of the ring's words.
    fn step<P: Port>(&mut self, port: &mut P) -> Move
        requires live { ¬ (party.is_done self.old) }
        requires own { OwnsAsDevice P.port L.Device.device party port.old self.old }
        ensures { MakesDeviceAccess P.port L.Device.device party port.old port.new self.old self.new result };

    /// Whether all chains of its order were begun and given, and its end rests.
    fn done(&self) -> bool
        ensures { IsTrue result ↔ party.is_done self.now };

    /// Hands out the ring's end. Without it the device can change nothing.
    fn suspend(&mut self) -> L::Device
        requires done { party.is_done self.old }
        requires held { (w : DeviceView) × party.holds self.old w }
        ensures { IsSuspend L.Device.device party self.old self.new result };

    /// How many of its steps did not answer Looked. It stays at the last u64.
    fn accesses(&self) -> u64
        ensures { result ≡ party.accesses self.now };

    /// How many of its hearings ended with Awake. It stays at the last u64.
    fn heard(&self) -> u64
        ensures { result ≡ party.heard self.now };

    /// Sets the settings to the default.
    fn reset(&mut self)
        requires free { party.attached self.old ≡ None }
        requires room { 1 ≤ party.event_room self.old }
        ensures { IsReset party self.old self.new };

    /// What it has recorded.
    fn journal(&self) -> &Journal
        ensures events { result.now.events.items ≡ party.events self.now }
        ensures begun { result.now.begun.items ≡ party.begun self.now };

    /// What the control queue has set in it.
    fn settings(&self) -> &Settings
        ensures { result.now ≡ party.settings self.now };

    /// How many of its attaches were refused.
    fn faults(&self) -> u64
        ensures { result ≡ party.faults self.now };

    ghost lawful: { IsLawfulDeviceParty L.Device.device party };
}
