//! The regions of the guest's memory.
ghost use Rattle.std.specs.Prelude.{◌≡◌, map, option_map, IfOk, IfSome, true};
ghost use Rattle.std.specs.List.{list_all};
ghost use Rattle.toml.specs.View.{view, table_view};
ghost use Rattle.vd_text.specs.Grammar.{all_some};
ghost use Rattle.vd_machine.specs.Regions.{is_region, are_apart, all_apart, are_regions, region_of, regions_of};

use crate::lookup::{items_at, natural_at};
use sqlite_items::Items;
use std::alloc::{AllocError, Global};
use toml::{Table, Value};
use vd_model::Map;

/// A range of the guest's addresses: `size` bytes from `addr`.
#[derive(Copy, Clone, Debug, PartialEq, Eq)]
pub struct Region {
    pub addr: u64,
    pub size: u64,
}

fn region_of(value: &Value) -> Option<Region>
    ensures { result ≡ region_of (view value.now) }
{
    match value.as_table() {
        None => None,
        Some(table) => match natural_at(table, "addr") {
            None => None,
            Some(addr) => match natural_at(table, "size") {
                None => None,
                Some(size) => Some(Region { addr, size }),
            },
        },
    }
}

fn is_region(region: &Region) -> bool
    ensures { result ≡ is_region region.now }
{
    1 <= region.size
        && region.size < 0x8000_0000_0000_0000
        && region.addr as u128 + region.size as u128 <= 0x8000_0000_0000_0000
}

fn each_is_region(regions: &[Region]) -> bool
    ensures { result ≡ list_all is_region regions.now }
{
    regions.iter().all(|region| is_region(region))
}

fn are_apart(first: &Region, second: &Region) -> bool
    ensures { result ≡ are_apart first.now second.now }
{
    first.addr as u128 + first.size as u128 <= second.addr as u128
        || second.addr as u128 + second.size as u128 <= first.addr as u128
}

fn is_apart_from(first: &Region, others: &[Region]) -> bool
    ensures { result ≡ list_all (are_apart first.now) others.now }
{
    others.iter().all(|other| are_apart(first, other))
}

fn all_apart(regions: &[Region]) -> bool
    ensures { result ≡ all_apart regions.now }
{
    for i in 0..regions.len() {
        if !is_apart_from(&regions[i], &regions[i + 1..]) {
            return false;
        }
    }
    true
}

fn are_regions(regions: &[Region]) -> bool
    ensures { result ≡ are_regions regions.now }
{
    regions.len() <= Map::MOST && each_is_region(regions) && all_apart(regions)
}

fn all_regions(alloc: Global, values: &[Value]) -> Result<Option<Vec<Region>>, AllocError>
    ensures { IfOk result (λ o. option_map (λ v. v.items) o ≡ all_some (map region_of (map view values.now))) }
{
    let mut found = Vec::new(alloc);
    for value in values {
        match region_of(value) {
            None => return Ok(None),
            Some(region) => found.push(region)?,
        }
    }
    Ok(Some(found))
}

/// The regions, where they are lawful.
#[tactic(auto, unfolding(crate::specs::Regions::regions_of))]
pub fn regions_of(alloc: Global, file: &Table) -> Result<Option<Items<Region>>, AllocError>
    ensures value { IfOk result (λ o. o ≡ regions_of (table_view file.now)) }
    ensures lawful { IfOk result (λ o. IfSome o (λ rs. are_regions rs ≡ true)) }
{
    match all_regions(alloc, items_at(file, "regions"))? {
        None => Ok(None),
        Some(regions) => {
            if are_regions(&regions) {
                Ok(Some(Items::from_vec(regions)))
            } else {
                Ok(None)
            }
        }
    }
}
