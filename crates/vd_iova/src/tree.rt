//! The address tree: mappings from guest addresses to iovas, found by either.
ghost use Rattle.std.specs.Prelude.{◌≡◌, ◌<◌, ◌≤◌, ◌^◌, [], length, find, IsNone, IfSome, ◌↔◌};
ghost use Rattle.vd_iova.specs.Trees.{starts, without};

mod add;
mod hole;
mod lookup;
mod map;
mod overlap;

use std::alloc::Global;
use std::collections::BTreeMap;
use std::marker::Model;
use vd_model::{Map, Mapping};

/// Mappings within a range of iovas. No two have an iova or a guest address in common.
/// Either way an address is found by descending an ordered tree.
#[derive(Drop)]
pub struct IovaTree {
    first: u64,
    last: u64,
    by_iova: BTreeMap<u64, Mapping>,
    by_guest: BTreeMap<u64, Mapping>,
}

impl Model for IovaTree {
    ghost use Rattle.vd_iova.specs.Trees.{Tree};
    ghost use Rattle.vd_iova.specs.Indexes.{tree_of, IsIndexed};

    ghost Value = { Tree };

    ghost view = { λ t. tree_of t.first t.last t.by_iova };

    ghost invariant = { λ t. IsIndexed t.first t.last t.by_iova t.by_guest };
}

impl IovaTree {
    /// A tree without mappings over the iovas from `first` to `last`, both of them in its range.
    /// It takes no memory, and keeps its allocator.
    pub fn new(alloc: Global, first: u64, last: u64) -> IovaTree
        requires order { first ≤ last }
        requires below { last < 2 ^ 63 }
        ensures { result ≡ record { first = first; last = last; mappings = [] } }
    {
        IovaTree {
            first,
            last,
            by_iova: BTreeMap::new(alloc),
            by_guest: BTreeMap::new(alloc),
        }
    }

    /// Takes out the mapping that starts at an iova. It takes no memory.
    pub fn unmap(&mut self, iova: u64) -> Option<Mapping>
        ensures found { result ≡ find (starts iova) self.old.mappings }
        ensures rest { self.new ≡ without self.old iova }
    {
        let mapping = self.by_iova.remove(&iova)?;
        self.by_guest.remove(&mapping.guest);
        Some(mapping)
    }

    /// The mappings in order of iova, or none where there are more than 64. It takes no memory.
    pub fn copy_map(&self) -> Option<Map>
        ensures many { IsNone result ↔ (64 < length self.now.mappings) }
        ensures all { IfSome result (λ map. map ≡ self.now.mappings) }
    {
        if self.by_iova.len() > Map::MOST {
            return None;
        }
        let mut map = Map::new();
        for mapping in self.by_iova.values() {
            map.push(*mapping);
        }
        Some(map)
    }
}
