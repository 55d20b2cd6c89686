//! By what a device is attached to a ring.
ghost use Rattle.std.specs.Prelude.{◌≡◌};
ghost use Rattle.vd_bus.specs.Orders.{mode_of};

use std::marker::Model;
use vd_model::{Base, Features, Map, Mode};

/// By what a device is attached to a ring. `Bus::order` alone makes it. Contracts see what it says.
#[derive(Drop)]
pub struct Order {
    pub(crate) queue: u32,
    pub(crate) ring: u32,
    pub(crate) base: Base,
    pub(crate) count: u32,
    pub(crate) size: u32,
    pub(crate) features: Features,
    pub(crate) map: Map,
}

impl Model for Order {
    ghost use Rattle.vd_bus.specs.Orders.{Terms};

    ghost Value = { Terms };

    ghost view = { λ o. record {
      queue = o.queue;
      ring = o.ring;
      base = o.base;
      count = o.count;
      size = o.size;
      features = o.features;
      map = o.map;
    } };
}

impl Order {
    /// The queue's number: a data queue's is below 8, the control queue's is 15.
    pub fn queue(&self) -> u32
        ensures { result ≡ self.now.queue }
    {
        self.queue
    }

    /// The ring's number: a guest's ring has one below 16.
    pub fn ring(&self) -> u32
        ensures { result ≡ self.now.ring }
    {
        self.ring
    }

    /// The base from which the ring is served (`vhost_vring_state.num`).
    pub fn base(&self) -> Base
        ensures { result ≡ self.now.base }
    {
        self.base
    }

    /// Shadow exactly where the ring is 16 or more.
    pub fn mode(&self) -> Mode
        ensures { result ≡ mode_of self.now.ring }
    {
        if self.ring < 16 {
            Mode::Pass
        } else {
            Mode::Shadow
        }
    }

    /// How many chains are begun under the order.
    pub fn count(&self) -> u32
        ensures { result ≡ self.now.count }
    {
        self.count
    }

    /// How many places the ring has.
    pub fn size(&self) -> u32
        ensures { result ≡ self.now.size }
    {
        self.size
    }

    /// The features with which the ring was made.
    pub fn features(&self) -> Features
        ensures { result ≡ self.now.features }
    {
        self.features
    }

    /// The map in force.
    pub fn map(&self) -> &Map
        ensures { result.now ≡ self.now.map }
    {
        &self.map
    }
}
