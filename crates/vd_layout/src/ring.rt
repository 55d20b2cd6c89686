//! A ring over plain words with both its ends, which make whole operations.
ghost use Rattle.std.specs.Prelude.{◌≡◌, ◌↔◌, IsTrue, IfOk, length, slice_index_or, replicate, false, None};
ghost use Rattle.std.specs.List.{Contains};
ghost use Rattle.vd_layout.specs.Layout.{CanMake};
ghost use Rattle.vd_layout.specs.Both.{plain_frame};
ghost use Rattle.vd_layout.specs.RingLists.{no_lists};
ghost use Rattle.vd_layout.specs.PlainRing.{IsWholeList, most_chains};

mod device;
mod driver;

use crate::device::DeviceEnd;
use crate::driver::DriverEnd;
use crate::history::History;
use crate::layout::Layout;
use std::alloc::{AllocError, Global};
use std::marker::Model;
use vd_model::Features;
use vd_words::PlainWords;

/// Both idle ends of a ring and its words, to embed in a program. An operation that isn't possible isn't made: it answers None and
/// changes nothing.
#[derive(Drop)]
pub struct PlainRing<L: Layout> {
    driver: L::Driver,
    device: L::Device,
    words: PlainWords,
    history: History,
    count: u32,
    limit: u32,
    resting: bool,
}

impl<L: Layout> Model for PlainRing<L> {
    ghost use Rattle.vd_layout.specs.PlainRing.{PlainView, frame_at, IsPlainRing};

    ghost Value = { PlainView };

    ghost view = { λ r. record {
      frame = frame_at L.Driver.driver L.layout r.driver r.words;
      words = r.words.words;
      lists =
          r.history.lists;
      driver_armed = L.Driver.driver.armed r.driver;
      device_armed = L.Device.device.armed r.device;
      resting =
          r.resting;
      base = L.Device.device.base r.device;
    } };

    ghost invariant = { λ r. IsPlainRing L.Driver.driver L.Device.device L.layout r.driver r.device r.words r.history.lists r.count
        r.limit r.resting };
}

impl<L: Layout> PlainRing<L> {
    /// Ring number `ring`, fresh: its words are 0, and no end has done anything.
    pub fn make(
        alloc: Global,
        ring: u32,
        size: u32,
        f: Features,
    ) -> Result<PlainRing<L>, AllocError>
        requires { CanMake L.layout size f }
        ensures { IfOk result (λ r. (r.frame ≡ plain_frame L.layout ring size f false None)
            × (r.words ≡ replicate (L.layout.width r.frame) 0) × (r.lists ≡ no_lists) × (r.driver_armed ≡ false)
            × (r.device_armed ≡ false) × (r.resting ≡ false)) }
    {
        let (driver, device) = L::make(alloc, size, f, false)?;
        let count = L::words(size, f, false);
        let words = PlainWords::new(alloc, ring, count)?;
        Ok(PlainRing {
            driver,
            device,
            words,
            history: History::new(),
            count,
            limit: most_chains(ring),
            resting: false,
        })
    }

    /// The word at a place, and 0 beyond the ring.
    pub fn word(&self, place: u32) -> u64
        ensures { result ≡ slice_index_or self.now.words place 0 }
    {
        if place < self.count {
            self.words.get(place)
        } else {
            0
        }
    }

    /// How many places the ring has.
    pub fn size(&self) -> u32
        ensures { result ≡ self.now.frame.size }
    {
        self.driver.size()
    }

    /// The features with which the ring was made.
    pub fn features(&self) -> Features
        ensures { result ≡ self.now.frame.features }
    {
        self.driver.features()
    }

    /// Whether the driver and the device are armed.
    pub fn armed(&self) -> (bool, bool)
        ensures { (result.0 ≡ self.now.driver_armed) × (result.1 ≡ self.now.device_armed) }
    {
        (self.driver.armed(), self.device.armed())
    }

    /// How many chains were offered, collected, taken and given.
    pub fn counts(&self) -> (u32, u32, u32, u32)
        ensures { (result.0 ≡ length self.now.lists.offered) × (result.1 ≡ length self.now.lists.collected)
            × (result.2 ≡ length self.now.lists.taken) × (result.3 ≡ length self.now.lists.given) }
    {
        (
            self.driver.offered(),
            self.driver.collected(),
            self.device.taken(),
            self.device.given(),
        )
    }

    /// Whether chain number `k` was taken and not given.
    pub fn holds(&self, k: u32) -> bool
        ensures { IsTrue result ↔ Contains self.now.lists.running k }
    {
        self.device.holds(k)
    }

    /// Whether the chains given are exactly those with a number below their count.
    pub fn whole(&self) -> bool
        ensures { IsTrue result ↔ IsWholeList self.now.lists }
    {
        self.device.whole()
    }
}

/// How many chains may be offered on a ring with this number: guests' rings have numbers below 16.
fn most_chains(ring: u32) -> u32
    ensures { result ≡ most_chains ring }
{
    if ring < 16 { 4_000_000_000 } else { u32::MAX }
}
