//! Translation between guest addresses and iovas.
ghost use Rattle.std.specs.Prelude.{◌≡◌, ◌+◌, ◌<◌, ◌≤◌, ◌^◌, List, [], find, IfSome, Some};
ghost use Rattle.vd_model.specs.declared.map.Mapping.{Mapping};
ghost use Rattle.vd_model.specs.Maps.{to, back, holds_guest, holds_iova};
ghost use Rattle.vd_iova.specs.Trees.{Tree, IsKept, IsWithin, added_all};
ghost use Rattle.vd_iova.specs.Indexes.{IsFloor};

use super::IovaTree;
use crate::index::floor;
use vd_model::Mapping;

impl IovaTree {
    /// The mapping with the greatest guest address that is not above `addr`.
    pub(super) fn guest_floor(&self, addr: u64) -> Option<Mapping>
        ensures floor { IsFloor (λ m. m.guest) addr self.now.mappings result }
        ensures within { IfSome result (IsWithin self.now.first self.now.last) }
        ensures kept { IsKept self.now }
    {
        floor(&self.by_guest, addr)
    }

    /// The mapping with the greatest iova that is not above `iova`.
    pub(super) fn iova_floor(&self, iova: u64) -> Option<Mapping>
        ensures floor { IsFloor (λ m. m.iova) iova self.now.mappings result }
        ensures within { IfSome result (IsWithin self.now.first self.now.last) }
        ensures kept { IsKept self.now }
    {
        floor(&self.by_iova, iova)
    }

    /// The mapping that holds a guest address.
    pub(super) fn guest_at(&self, addr: u64) -> Option<Mapping>
        ensures found { result ≡ find (holds_guest addr 1) self.now.mappings }
        ensures kept { IsKept self.now }
    {
        match self.guest_floor(addr) {
            Some(mapping) if addr - mapping.guest < mapping.size => Some(mapping),
            _ => None,
        }
    }

    /// The mapping that holds an iova.
    pub(super) fn iova_at(&self, iova: u64) -> Option<Mapping>
        ensures found { result ≡ find (holds_iova iova 1) self.now.mappings }
        ensures kept { IsKept self.now }
    {
        match self.iova_floor(iova) {
            Some(mapping) if iova - mapping.iova < mapping.size => Some(mapping),
            _ => None,
        }
    }

    /// The iova of `len` bytes of guest memory from `addr`, where one mapping holds them all.
    /// The order in which the mappings were added does not matter.
    pub fn translate(&self, addr: u64, len: u32) -> Option<u64>
        requires some { 0 < len }
        requires below { addr < 2 ^ 63 }
        ensures value { result ≡ to self.now.mappings addr len }
        ensures undone { IfSome result (λ iova. back self.now.mappings iova len ≡ Some addr) }
        ensures in_turn { (ms : List Mapping) (t : Tree)
            → t.mappings ≡ [] → self.now ≡ added_all ms t → result ≡ to ms addr len }
        ensures within { IfSome result (λ iova.
            (self.now.first ≤ iova) × (iova + len ≤ self.now.last + 1)) }
        ensures kept { IsKept self.now }
    {
        let mapping = self.guest_floor(addr)?;
        let offset = addr - mapping.guest;
        if offset + u64::from(len) <= mapping.size {
            Some(mapping.iova + offset)
        } else {
            None
        }
    }

    /// The guest address of `len` bytes from `iova`, where one mapping holds them all.
    /// The order in which the mappings were added does not matter.
    pub fn resolve(&self, iova: u64, len: u32) -> Option<u64>
        requires some { 0 < len }
        requires below { iova < 2 ^ 63 }
        ensures value { result ≡ back self.now.mappings iova len }
        ensures undone { IfSome result (λ addr. to self.now.mappings addr len ≡ Some iova) }
        ensures in_turn { (ms : List Mapping) (t : Tree)
            → t.mappings ≡ [] → self.now ≡ added_all ms t → result ≡ back ms iova len }
        ensures within { IfSome result (λ addr. addr + len ≤ 2 ^ 63) }
        ensures kept { IsKept self.now }
    {
        let mapping = self.iova_floor(iova)?;
        let offset = iova - mapping.iova;
        if offset + u64::from(len) <= mapping.size {
            Some(mapping.guest + offset)
        } else {
            None
        }
    }
}
