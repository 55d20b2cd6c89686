//! The lowest hole among the iovas.
ghost use Rattle.std.specs.Prelude.{◌≡◌, ◌<◌, ◌≤◌, ◌^◌, IfNone, IfSome};
ghost use Rattle.vd_iova.specs.Holes.{hole, IsLowestHole, HasNoHole};
ghost use Rattle.vd_iova.specs.Indexes.{page_end};

use super::IovaTree;

/// What a mapping's iova is a multiple of.
const PAGE: u64 = 4096;

/// The lowest multiple of 4,096 that is not below an address.
fn page_up(address: u64) -> u64
    requires { address ≤ 2 ^ 63 }
    ensures { result ≡ page_end address }
{
    (address + (PAGE - 1)) / PAGE * PAGE
}

impl IovaTree {
    /// The lowest multiple of 4,096 from which `size` bytes of the range are free.
    pub(super) fn lowest_hole(&self, size: u64) -> Option<u64>
        requires { 0 < size }
        ensures is { result ≡ hole self.now size }
        ensures lowest { IfSome result (IsLowestHole self.now size) }
        ensures full { IfNone result (HasNoHole self.now size) }
    {
        let mut iova = page_up(self.first);
        for mapping in self.by_iova.values() {
            if size <= mapping.iova.saturating_sub(iova) {
                return Some(iova);
            }
            iova = page_up(mapping.iova + mapping.size);
        }
        if size <= (self.last + 1).saturating_sub(iova) {
            Some(iova)
        } else {
            None
        }
    }
}
