//! Maps of addresses.
ghost use Rattle.std.specs.Prelude.{◌≡◌, ◌<◌, ◌≤◌, ◌∷◌, ◌++◌, [], length, IsTrue, ◌↔◌};
ghost use Rattle.vd_model.specs.declared.map.Mapping.{Mapping};

use arrayvec::ArrayVec;
use std::marker::Model;

/// A range of guest addresses and where it lies for the device: `size` bytes from `guest` stand at `iova`.
#[derive(Copy, Clone, Debug, Default, PartialEq, Eq)]
pub struct Mapping {
    pub iova: u64,
    pub size: u64,
    pub guest: u64,
}

/// At most 64 mappings, in their order.
#[derive(Drop)]
pub struct Map {
    mappings: ArrayVec<Mapping, 64>,
}

impl Model for Map {
    ghost use Rattle.std.specs.Prelude.{List, length, ◌≤◌};
    ghost use Rattle.vd_model.specs.declared.map.Mapping.{Mapping};

    ghost Value = { List Mapping };

    ghost view = { λ m. m.mappings.items };

    ghost invariant = { λ m. length m.mappings.items ≤ 64 };
}

impl Map {
    /// How many mappings a map holds at most.
    pub const MOST: usize = 64;

    /// A map without mappings.
    pub fn new() -> Map
        ensures { result ≡ [] }
    {
        Map {
            mappings: ArrayVec::new(),
        }
    }

    /// Whether there is no room for another mapping.
    pub fn is_full(&self) -> bool
        ensures { IsTrue result ↔ (length self.now ≡ 64) }
    {
        self.mappings.len() == Map::MOST
    }

    /// Appends a mapping.
    pub fn push(&mut self, mapping: Mapping)
        requires { length self.old < 64 }
        ensures { self.new ≡ self.old ++ mapping ∷ [] }
    {
        self.mappings.push(mapping);
    }

    pub fn mappings(&self) -> &[Mapping]
        ensures value { result.now ≡ self.now }
        ensures few { length self.now ≤ 64 }
    {
        self.mappings.as_slice()
    }

    /// The same map again. It takes no memory.
    pub fn copy(&self) -> Map
        ensures { result ≡ self.now }
    {
        let mut mappings = ArrayVec::new();
        for mapping in self.mappings.as_slice() {
            mappings.push(*mapping);
        }
        Map { mappings }
    }
}
