//! The kept mapping that a range meets.
ghost use Rattle.std.specs.Prelude.{◌≡◌, ◌+◌, ◌<◌, ◌≤◌, ◌^◌, find};
ghost use Rattle.vd_iova.specs.Ranges.{meets_guest, meets_iova, meets_either};
ghost use Rattle.vd_iova.specs.Trees.{IsKept};
ghost use Rattle.vd_iova.specs.Indexes.{lower_of};

use super::IovaTree;
use crate::index::first_within;
use vd_model::Mapping;

/// The one with the lower iova.
fn lower(best: Option<Mapping>, mapping: Mapping) -> Mapping
    ensures { result ≡ lower_of best mapping }
{
    match best {
        Some(best) if best.iova <= mapping.iova => best,
        _ => mapping,
    }
}

impl IovaTree {
    /// The first in order of iova of the mappings whose guest range meets a range.
    pub(super) fn guest_met(&self, guest: u64, size: u64) -> Option<Mapping>
        requires some { 0 < size }
        requires below { guest + size ≤ 2 ^ 63 }
        ensures first { result ≡ find (meets_guest guest size) self.now.mappings }
        ensures kept { IsKept self.now }
    {
        let mut lowest = self.guest_at(guest);
        for (_, mapping) in self.by_guest.range(guest..guest + size) {
            lowest = Some(lower(lowest, *mapping));
        }
        lowest
    }

    /// The first in order of iova of the mappings whose iova range meets a range.
    fn iova_met(&self, iova: u64, size: u64) -> Option<Mapping>
        requires some { 0 < size }
        requires below { iova + size ≤ 2 ^ 63 }
        ensures { result ≡ find (meets_iova iova size) self.now.mappings }
    {
        match self.iova_at(iova) {
            Some(mapping) => Some(mapping),
            None => first_within(&self.by_iova, iova, iova + size),
        }
    }

    /// The first in order of iova of the mappings that another meets, in guest memory or among the iovas.
    pub(super) fn met(&self, mapping: Mapping) -> Option<Mapping>
        requires some { 0 < mapping.size }
        requires guest { mapping.guest + mapping.size ≤ 2 ^ 63 }
        requires iova { mapping.iova + mapping.size ≤ 2 ^ 63 }
        ensures { result ≡ find (meets_either mapping) self.now.mappings }
    {
        let by_iova = self.iova_met(mapping.iova, mapping.size);
        match self.guest_met(mapping.guest, mapping.size) {
            Some(by_guest) => Some(lower(by_iova, by_guest)),
            None => by_iova,
        }
    }
}
