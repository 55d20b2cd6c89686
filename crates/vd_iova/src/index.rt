//! A search in an ordered index of mappings.
ghost use Rattle.std.specs.Prelude.{ℕ, ◌≤◌, List};
ghost use Rattle.std.specs.Ordering.{nat_cmp};
ghost use Rattle.std.specs.BTreeMap.{get};
ghost use Rattle.vd_model.specs.declared.map.Mapping.{Mapping};
ghost use Rattle.vd_iova.specs.Indexes.{IsIndex, IsFloor, IsFirst};

use std::collections::BTreeMap;
use vd_model::Mapping;

/// The mapping with the greatest key that is not above `at`.
pub(crate) fn floor(index: &BTreeMap<u64, Mapping>, at: u64) -> Option<Mapping>
    ensures { (key : Mapping → ℕ) (ms : List Mapping)
        → IsIndex key (get nat_cmp index.now) ms → IsFloor key at ms result }
{
    match index.range(..=at).next_back() {
        Some((_, mapping)) => Some(*mapping),
        None => None,
    }
}

/// The mapping with the lowest key from `start` on, and below `end`.
pub(crate) fn first_within(index: &BTreeMap<u64, Mapping>, start: u64, end: u64) -> Option<Mapping>
    requires { start ≤ end }
    ensures { (key : Mapping → ℕ) (ms : List Mapping)
        → IsIndex key (get nat_cmp index.now) ms → IsFirst key start end ms result }
{
    match index.range(start..end).next() {
        Some((_, mapping)) => Some(*mapping),
        None => None,
    }
}
