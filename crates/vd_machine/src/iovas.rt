//! The range of iovas, and whether each region finds a place in it.
ghost use Rattle.std.specs.Prelude.{◌≡◌, IfOk, IfSome, true};
ghost use Rattle.toml.specs.View.{table_view};
ghost use Rattle.vd_machine.specs.Iovas.{is_range, range_of, are_laid};
ghost use Rattle.vd_machine.specs.Regions.{are_regions};

use crate::Region;
use crate::lookup::natural_or;
use std::alloc::{AllocError, Global};
use toml::Table;
use vd_iova::{IovaTree, MapFault};

/// The first iova of a file that names none.
const FIRST_IOVA: u64 = 4_096;

/// The last iova of a file that names none: the highest of 48 bits.
const LAST_IOVA: u64 = 0xffff_ffff_ffff;

/// A range of iovas, the first and the last of which are in it.
#[derive(Copy, Clone, Debug)]
pub struct Iovas {
    pub first: u64,
    pub last: u64,
}

fn is_range(first: u64, last: u64) -> bool
    ensures { result ≡ is_range first last }
{
    first <= last && last < 0x8000_0000_0000_0000
}

/// The range of iovas, where it is not negative and ends where it begins or behind.
#[tactic(auto, unfolding(crate::specs::Iovas::range_of))]
pub fn range_of(file: &Table) -> Option<Iovas>
    ensures value { result ≡ range_of (table_view file.now) }
    ensures lawful { IfSome result (λ r. is_range r.first r.last ≡ true) }
{
    match natural_or(FIRST_IOVA, file, "iova_first") {
        None => None,
        Some(first) => match natural_or(LAST_IOVA, file, "iova_last") {
            None => None,
            Some(last) => {
                if is_range(first, last) {
                    Some(Iovas { first, last })
                } else {
                    None
                }
            }
        },
    }
}

/// Whether each region in file order finds the lowest hole that those before it leave. No two have an address in common,
/// so none of them meets a mapping.
pub fn are_laid(alloc: Global, iovas: Iovas, regions: &[Region]) -> Result<bool, AllocError>
    requires range { is_range iovas.first iovas.last ≡ true }
    requires regions { are_regions regions.now ≡ true }
    ensures { IfOk result (λ b. b ≡ are_laid iovas.first iovas.last regions.now) }
{
    let mut tree = IovaTree::new(alloc, iovas.first, iovas.last);
    for region in regions {
        match tree.map(region.size, region.addr) {
            Ok(_) => {}
            Err(MapFault::NoHole(_)) => return Ok(false),
            Err(MapFault::Memory) => return Err(AllocError),
            // No region is empty, and none meets another.
            Err(MapFault::Empty) => return Ok(false),
            Err(MapFault::Overlap(_)) => return Ok(false),
        }
    }
    Ok(true)
}
