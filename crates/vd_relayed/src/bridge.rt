//! A guest and a device over two rings, with a relay between them. A call that isn't possible isn't made.
ghost use Rattle.std.specs.Prelude.{◌≡◌, ◌≤◌, ◌↔◌, ◌∷◌, [], None, Some, IsNone, IfSome, IfOk, IsTrue, true, false};
ghost use Rattle.vd_ring.specs.declared.device.DeviceView.{DeviceView};
ghost use Rattle.vd_layout.specs.Layout.{CanMake};
ghost use Rattle.vd_relay.specs.Stages.{is_rested};
ghost use Rattle.vd_relayed.specs.Bridges.{IsBridge, IsNew, guest_frame, shadow_frame};
ghost use Rattle.vd_relayed.specs.Steps.{GuestSteps, RelaySteps, DeviceSteps, BeginsWindUp};

use crate::orders::order_of;
use crate::steps::{step_device, step_guest, step_relay};
use crate::testing::{is_mapped, is_small};
use sqlite_items::Items;
use std::alloc::{AllocError, Global};
use std::marker::Model;
use vd_bus::{Device, Guest, Journal};
use vd_control::Settings;
use vd_iova::IovaTree;
use vd_layout::{DeviceEnd, Layout, Move};
use vd_model::{Chain, Features, Return, Run, Script};
use vd_relay::Relay;
use vd_table::ShadowTable;
use vd_words::PlainWords;

/// The guest holds the driver's end of the first ring, the relay the device's end and the driver's end of the second, and the
/// device the other end of that. Contracts see the three parties, the words of both rings and the map.
#[derive(Drop)]
pub struct Bridge<L: Layout, G: Guest<L>, V: Device<L>> {
    guest: G,
    words: PlainWords,
    relay: Relay<L>,
    shadow_words: PlainWords,
    device: V,
    tree: IovaTree,
}

impl<L: Layout, G: Guest<L>, V: Device<L>> Model for Bridge<L, G, V> {
    ghost use Rattle.std.specs.Prelude.{◌≡◌, None};
    ghost use Rattle.vd_relayed.specs.Bridges.{Parts, IsBridge};

    ghost Value = { Parts L.Device L.Driver G V };

    ghost view = { λ r. record {
      guest = r.guest;
      words = r.words;
      state = r.relay.state;
      counts = r.relay.counts;
      settings = r.relay.settings;
      shadow = r.shadow_words;
      device = r.device;
      map = r.tree.mappings;
    } };

    ghost invariant = { λ r. IsBridge L.Driver.driver L.Device.device L.layout G.party V.party (record {
      guest = r.guest;
      words = r.words;
      state = r.relay.state;
      counts = r.relay.counts;
      settings = r.relay.settings;
      shadow = r.shadow_words;
      device = r.device;
      map = r.tree.mappings;
    }) × (r.relay.control ≡ None) };
}

/// The chain so many times.
fn script_of(alloc: Global, chain: &Chain, count: u32) -> Result<Script, AllocError>
    ensures { IfOk result (λ s. s ≡ record { runs = record { count = count; chain = chain.now } ∷ []; commands = [] }) }
{
    let mut runs = Vec::with_capacity(alloc, 1)?;
    runs.push(Run {
        count,
        chain: chain.copy(),
    })?;
    Ok(Script {
        runs: Items::from_vec(runs),
        commands: Items::new(alloc),
    })
}

/// Attaches the device to a fresh shadow ring, to begin so many chains.
fn attach<'a, L: Layout, V: Device<L>>(device: &'a mut V, end: L::Device, count: u32) -> bool
    requires free { V.party.attached device.old ≡ None }
    requires unused { V.party.begun device.old ≡ [] }
    requires events { 2 ≤ V.party.event_room device.old }
    requires chains { count ≤ V.party.chain_room device.old }
    requires still { L.Device.device.fresh end ≡ true }
    ensures holds { result ≡ true → (w : DeviceView) → L.Device.device.stands end w → w.frame.control ≡ false → V.party.holds device.new w }
    ensures attached { result ≡ true → (w : DeviceView) → L.Device.device.stands end w → w.done ≡ []
        → V.party.attached device.new ≡ Some (record { queue = 0; count = count; at = 0; from = 0 }) }
    ensures begun { result ≡ true → V.party.begun device.new ≡ [] }
{
    let packed = L::fresh_base().0 != 0;
    let Ok(order) = order_of(packed, end.size(), end.features(), 16, end.base().0, count) else {
        return false;
    };
    let control: Option<&'a V> = None;
    device.attach(&order, end, control).is_ok()
}

impl<L: Layout, G: Guest<L>, V: Device<L>> Bridge<L, G, V> {
    /// Fresh rings of plain words. The guest is to offer the chain so many times, at most 1,000, and the device to begin the first
    /// `stop` of them. A chain that doesn't fit is answered as want of memory.
    pub fn new(
        alloc: Global,
        size: u32,
        f: Features,
        tree: IovaTree,
        chain: &Chain,
        count: u32,
        stop: u32,
        guest: G,
        device: V,
    ) -> Result<Bridge<L, G, V>, AllocError>
        requires can { CanMake L.layout size f }
        requires guest { (G.party.script guest ≡ None) × (G.party.offered guest ≡ 0) × (G.party.returned guest ≡ []) }
        requires device { (V.party.attached device ≡ None) × (V.party.begun device ≡ []) }
        ensures { IfOk result (λ b. IsNew L.Driver.driver L.Device.device L.layout G.party V.party
            (guest_frame L.layout size f tree.mappings) (shadow_frame L.layout size f) tree.mappings chain.now count stop b) }
    {
        let mut guest = guest;
        let mut device = device;
        if !is_small(chain, size) || !is_mapped(&tree, chain) || 1000 < count || 1000 < stop {
            return Err(AllocError);
        }
        let (driver, end) = L::make(alloc, size, f, false)?;
        let words = PlainWords::new(alloc, 0, L::words(size, f, false))?;
        let (shadow_driver, shadow_end) = L::make(alloc, size, f, false)?;
        let shadow_words = PlainWords::new(alloc, 16, L::words(size, f, false))?;
        let table = ShadowTable::new(alloc, size)?;
        let script = script_of(alloc, chain, count)?;
        guest.load(alloc, &script)?;
        guest.boot(driver);
        device.reserve(alloc, 4, 16, stop)?;
        if !attach::<L, V>(&mut device, shadow_end, stop) {
            return Err(AllocError);
        }
        let relay = Relay::new(end, shadow_driver, table, false, Settings::new(), false);
        Ok(Bridge {
            guest,
            words,
            relay,
            shadow_words,
            device,
            tree,
        })
    }

    /// Makes one access of the guest on the first ring, unless it is done.
    pub fn guest_step(&mut self) -> Option<Move>
        ensures live { IsNone result ↔ G.party.is_done self.old.guest }
        ensures none { result ≡ None → self.new ≡ self.old }
        ensures same { self.new ≡ record self.old { guest = self.new.guest; words = self.new.words } }
        ensures step { IfSome result (λ said. GuestSteps L.Driver.driver L.layout G.party self.old self.new said) }
        ensures stands { IsBridge L.Driver.driver L.Device.device L.layout G.party V.party self.new }
    {
        if self.guest.done() {
            return None;
        }
        Some(step_guest::<L, G, _>(&mut self.guest, &mut self.words.port()))
    }

    /// Makes one access of the relay on one of the two rings, unless it rests.
    pub fn relay_step(&mut self) -> Option<Move>
        ensures live { IsNone result ↔ (is_rested self.old.state.stage ≡ true) }
        ensures none { result ≡ None → self.new ≡ self.old }
        ensures same { self.new ≡ record self.old {
          words = self.new.words;
          state = self.new.state;
          counts = self.new.counts;
          shadow = self.new.shadow;
        } }
        ensures step { IfSome result (λ said. RelaySteps L.Driver.driver L.Device.device L.layout self.old self.new said) }
        ensures stands { IsBridge L.Driver.driver L.Device.device L.layout G.party V.party self.new }
    {
        if self.relay.rested() {
            return None;
        }
        Some(step_relay::<L, _, _>(
            &mut self.relay,
            &self.tree,
            &mut self.words.port(),
            &mut self.shadow_words.port(),
        ))
    }

    /// Makes one access of the device on the second ring, unless it is done.
    pub fn device_step(&mut self) -> Option<Move>
        ensures live { IsNone result ↔ V.party.is_done self.old.device }
        ensures none { result ≡ None → self.new ≡ self.old }
        ensures same { self.new ≡ record self.old { shadow = self.new.shadow; device = self.new.device } }
        ensures step { IfSome result (λ said. DeviceSteps L.Device.device L.layout V.party self.old self.new said) }
        ensures stands { IsBridge L.Driver.driver L.Device.device L.layout G.party V.party self.new }
    {
        if self.device.done() {
            return None;
        }
        Some(step_device::<L, V, _>(&mut self.device, &mut self.shadow_words.port()))
    }

    /// Once the device is done the relay gives back what it gave, and rests. It tells whether it begins to.
    pub fn begin_wind_up(&mut self) -> bool
        ensures when { IsTrue result ↔ (V.party.is_done self.old.device × (is_rested self.old.state.stage ≡ false)
            × (self.old.state.winding ≡ false)) }
        ensures none { result ≡ false → self.new ≡ self.old }
        ensures same { self.new ≡ record self.old { state = self.new.state } }
        ensures begun { result ≡ true → BeginsWindUp L.Driver.driver L.Device.device V.party self.old self.new }
        ensures stands { IsBridge L.Driver.driver L.Device.device L.layout G.party V.party self.new }
    {
        if !self.device.done() || self.relay.rested() || self.relay.state.winding {
            return false;
        }
        let begun = self.device.journal().begun.len() as u32;
        self.relay.begin_wind_up(begun);
        true
    }

    /// Whether the relay rests.
    pub fn rested(&self) -> bool
        ensures { result ≡ is_rested self.now.state.stage }
    {
        self.relay.rested()
    }

    /// How many bells the relay heard.
    pub fn heard(&self) -> u64
        ensures { result ≡ self.now.counts.heard }
    {
        self.relay.heard()
    }

    /// What came back to the guest, in order.
    pub fn returned(&self) -> &[Return]
        ensures { result.now ≡ G.party.returned self.now.guest }
    {
        self.guest.returned()
    }

    /// What the device has recorded.
    pub fn journal(&self) -> &Journal
        ensures events { result.now.events.items ≡ V.party.events self.now.device }
        ensures begun { result.now.begun.items ≡ V.party.begun self.now.device }
    {
        self.device.journal()
    }
}
