//! A new mapping goes into both indexes, or into none.
ghost use Rattle.std.specs.Prelude.{◌≡◌, OnOk, MatchResult};
ghost use Rattle.vd_iova.specs.declared.fault.MapFault.TheVariants.{Memory};
ghost use Rattle.vd_iova.specs.Trees.{added, IsKept};
ghost use Rattle.vd_iova.specs.Indexes.{IsFresh};

use super::IovaTree;
use crate::MapFault;
use vd_model::Mapping;

impl IovaTree {
    /// Keeps a mapping that meets no other.
    pub(super) fn add(&mut self, mapping: Mapping) -> Result<(), MapFault>
        requires { IsFresh self.old mapping }
        ensures tree { MatchResult result
            (λ _. self.new ≡ added self.old mapping)
            (λ fault. (fault ≡ Memory) × (self.new ≡ self.old)) }
        ensures kept { OnOk result (IsKept self.new) }
    {
        let Ok(_) = self.by_guest.insert(mapping.guest, mapping) else {
            return Err(MapFault::Memory);
        };
        let Ok(_) = self.by_iova.insert(mapping.iova, mapping) else {
            self.by_guest.remove(&mapping.guest);
            return Err(MapFault::Memory);
        };
        Ok(())
    }
}
