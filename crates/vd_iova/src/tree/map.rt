//! The calls that map a guest range.
ghost use Rattle.std.specs.Prelude.{◌≡◌, ◌+◌, ◌<◌, ◌≤◌, ◌^◌, ◌↔◌, true, false, ℕ, List, ◌∷◌, find, None, Some, Err, IfOk, OnOk, MatchResult};
ghost use Rattle.std.specs.Option.{option_map};
ghost use Rattle.vd_model.specs.declared.map.Mapping.{Mapping};
ghost use Rattle.vd_iova.specs.declared.fault.MapFault.TheVariants.{Empty, Overlap, NoHole};
ghost use Rattle.vd_iova.specs.Ranges.{meets_guest, meets_either};
ghost use Rattle.vd_iova.specs.Trees.{added, lies_within, IsUnmapped, IsUnmappedAt, IsKept};
ghost use Rattle.vd_iova.specs.Holes.{hole, laid, range_at, IsLowestHole, HasNoHole};

use super::IovaTree;
use crate::MapFault;
use vd_model::Mapping;

impl IovaTree {
    /// Maps `size` bytes of guest memory from `guest` at the lowest hole, and gives its iova.
    /// A refusal leaves the tree as it was.
    pub fn map(&mut self, size: u64, guest: u64) -> Result<u64, MapFault>
        requires { guest + size ≤ 2 ^ 63 }
        // Each refusal has its exact cause. Where there is none, only memory can run out.
        ensures empty { (result ≡ Err Empty) ↔ (size ≡ 0) }
        ensures overlap { (m : Mapping) → (result ≡ Err (Overlap m))
            ↔ ((0 < size) × (find (meets_guest guest size) self.old.mappings ≡ Some m)) }
        ensures no_hole { (n : ℕ) → (result ≡ Err (NoHole n))
            ↔ ((n ≡ size) × IsUnmapped self.old size guest × (hole self.old size ≡ None)) }
        ensures ok { IfOk result (λ iova.
            IsUnmapped self.old size guest × (hole self.old size ≡ Some iova)) }

        // What the hole is, and what the tree is then.
        ensures lowest { IfOk result (IsLowestHole self.old size) }
        ensures full { result ≡ Err (NoHole size) → HasNoHole self.old size }
        ensures tree { MatchResult result
            (λ iova. self.new ≡ added self.old (record { iova = iova; size = size; guest = guest }))
            (λ _. self.new ≡ self.old) }
        ensures kept { OnOk result (IsKept self.new) }

        // The first of several guest ranges that are mapped in turn.
        ensures laid { IfOk result (λ iova. (rs : List (ℕ × ℕ)) → laid ((guest, size) ∷ rs) self.old
            ≡ option_map (λ ms. range_at (guest, size) iova ∷ ms) (laid rs self.new)) }
        ensures not_laid { result ≡ Err (NoHole size)
            → (rs : List (ℕ × ℕ)) → laid ((guest, size) ∷ rs) self.old ≡ None }
    {
        if size == 0 {
            return Err(MapFault::Empty);
        }
        if let Some(met) = self.guest_met(guest, size) {
            return Err(MapFault::Overlap(met));
        }
        let Some(iova) = self.lowest_hole(size) else {
            return Err(MapFault::NoHole(size));
        };
        self.add(Mapping { iova, size, guest })?;
        Ok(iova)
    }

    /// Maps at a given iova. A refusal leaves the tree as it was.
    pub fn map_at(&mut self, m: Mapping) -> Result<(), MapFault>
        requires guest { m.guest + m.size ≤ 2 ^ 63 }
        requires iova { m.iova + m.size ≤ 2 ^ 63 }
        // Each refusal has its exact cause. Where there is none, only memory can run out.
        ensures empty { (result ≡ Err Empty) ↔ (m.size ≡ 0) }
        ensures overlap { (k : Mapping) → (result ≡ Err (Overlap k))
            ↔ ((0 < m.size) × (find (meets_either m) self.old.mappings ≡ Some k)) }
        ensures no_hole { (n : ℕ) → (result ≡ Err (NoHole n))
            ↔ ((n ≡ m.size) × IsUnmappedAt self.old m × (lies_within self.old m ≡ false)) }
        ensures ok { OnOk result (IsUnmappedAt self.old m × (lies_within self.old m ≡ true)) }

        // What the tree is then.
        ensures tree { MatchResult result
            (λ _. self.new ≡ added self.old m)
            (λ _. self.new ≡ self.old) }
        ensures kept { OnOk result (IsKept self.new) }
    {
        if m.size == 0 {
            return Err(MapFault::Empty);
        }
        if let Some(met) = self.met(m) {
            return Err(MapFault::Overlap(met));
        }
        if m.iova < self.first || self.last + 1 < m.iova + m.size {
            return Err(MapFault::NoHole(m.size));
        }
        self.add(m)
    }
}
