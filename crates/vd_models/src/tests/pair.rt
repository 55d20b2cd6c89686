//! Both parties of a queue on one ring of plain words. A call that isn't possible isn't made.
ghost use Rattle.std.specs.Prelude.{◌≡◌, ◌≤◌, None};
ghost use Rattle.vd_layout.specs.Layout.{CanMake};

use super::orders::order_of;
use super::scripts::{fits, script_of};
use super::steps::{step_device, step_guest};
use std::alloc::{AllocError, Global};
use std::marker::Model;
use vd_bus::{Device, Guest, Journal};
use vd_layout::{DeviceEnd, Layout, Move};
use vd_model::{Base, Chain, Features, Return};
use vd_words::PlainWords;

/// The guest holds the driver's end. The device holds the other end while it is attached; else it lies beside it.
#[derive(Drop)]
pub struct Pair<L: Layout, G: Guest<L>, V: Device<L>> {
    guest: G,
    device: V,
    end: Option<L::Device>,
    words: PlainWords,
    // for how many events the device has room, and for how many chains since it was made
    events: u32,
    chains: u32,
}

impl<L: Layout, G: Guest<L>, V: Device<L>> Model for Pair<L, G, V> {
    ghost use Rattle.vd_models.specs.Pairs.{IsPair};

    ghost Value = { Unit {0} };

    ghost view = { λ r. tt };

    ghost invariant = { λ r. IsPair L.Driver.driver L.Device.device L.layout G.party V.party r.guest r.device r.end r.words.words
        r.events r.chains };
}

impl<L: Layout, G: Guest<L>, V: Device<L>> Pair<L, G, V> {
    /// A fresh ring of plain words. The guest is to offer the chain so many times, at most 1,000, and the device has room for
    /// 16 events and for as many chains. A chain that doesn't fit is answered as want of memory.
    pub fn new(
        alloc: Global,
        size: u32,
        f: Features,
        window: u32,
        chain: &Chain,
        count: u32,
        guest: G,
        device: V,
    ) -> Result<Pair<L, G, V>, AllocError>
        requires can { CanMake L.layout size f }
        requires guest { G.party.script guest ≡ None }
        requires device { V.party.attached device ≡ None }
        requires window { (1 ≤ window) × (window ≤ 64) }
    {
        let mut guest = guest;
        let mut device = device;
        if !fits(chain, size) || 1000 < count {
            return Err(AllocError);
        }
        let (driver, end) = L::make(alloc, size, f, false)?;
        let words = PlainWords::new(alloc, 0, L::words(size, f, false))?;
        let script = script_of(alloc, chain, count)?;
        guest.load(alloc, &script)?;
        guest.boot(driver);
        device.reserve(alloc, window, 16, count)?;
        Ok(Pair {
            guest,
            device,
            end: Some(end),
            words,
            events: 16,
            chains: count,
        })
    }

    pub fn guest_step(&mut self) -> Option<Move> {
        if self.guest.done() {
            return None;
        }
        Some(step_guest::<L, G, _>(&mut self.guest, &mut self.words.port()))
    }

    pub fn device_step(&mut self) -> Option<Move> {
        if self.end.is_some() {
            return None;
        }
        if self.device.done() {
            return None;
        }
        Some(step_device::<L, V, _>(&mut self.device, &mut self.words.port()))
    }

    /// Attaches the device by an order of so many chains, and tells whether it was attached.
    pub fn attach<'a>(&'a mut self, ring: u32, count: u32) -> Option<bool> {
        let begun = self.device.journal().begun.len();
        if self.events < 2 || (self.chains as usize) < begun + count as usize {
            return None;
        }
        let Some(end) = self.end.take() else {
            return None;
        };
        let base = end.base().0;
        let packed = L::fresh_base().0 != 0;
        let Ok(order) = order_of(packed, end.size(), end.features(), ring, base, count) else {
            self.end = Some(end);
            return None;
        };
        let control: Option<&'a V> = None;
        match self.device.attach(&order, end, control) {
            Ok(()) => {
                self.events -= 1;
                Some(true)
            }
            Err(refused) => {
                self.end = Some(refused.end);
                Some(false)
            }
        }
    }

    /// Suspends the device, and answers the ring's base.
    pub fn suspend(&mut self) -> Option<Base> {
        if self.end.is_some() || self.events == 0 {
            return None;
        }
        if !self.device.done() {
            return None;
        }
        let end = self.device.suspend();
        let base = end.base();
        self.end = Some(end);
        self.events -= 1;
        Some(base)
    }

    pub fn journal(&self) -> &Journal {
        self.device.journal()
    }

    pub fn device_done(&self) -> bool {
        self.device.done()
    }

    pub fn guest_done(&self) -> bool {
        self.guest.done()
    }

    pub fn offered(&self) -> u32 {
        self.guest.offered()
    }

    pub fn returned(&self) -> &[Return] {
        self.guest.returned()
    }

    /// The guest's steps until it looks at its bell or is done: how many.
    pub fn guest_turn(&mut self) -> u32 {
        for made in 0..100 {
            match self.guest_step() {
                Some(Move::Looked) | None => return made,
                _ => {}
            }
        }
        100
    }

    /// The same of the device.
    pub fn device_turn(&mut self) -> u32 {
        for made in 0..100 {
            match self.device_step() {
                Some(Move::Looked) | None => return made,
                _ => {}
            }
        }
        100
    }

    /// How many bells the guest heard.
    pub fn heard(&self) -> u64 {
        self.guest.heard()
    }
}
