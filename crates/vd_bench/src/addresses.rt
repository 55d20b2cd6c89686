//! Translations of addresses that are spread over all mappings of a tree.
ghost use Rattle.std.specs.Prelude.{◌≤◌, ◌<◌, ◌^◌};

use crate::draws::Draws;
use std::alloc::Global;
use vd_iova::{IovaTree, MapFault};
use vd_model::Mapping;

const PAGE: u64 = 4096;

const BASE: u64 = 1 << 40;

/// The sum, modulo 2^64, of the iovas of `turns` addresses over `mappings` mappings of a page each.
pub fn checksum(alloc: Global, mappings: u32, turns: u64) -> Result<u64, MapFault> {
    let tree = filled(alloc, mappings)?;
    let span = u64::from(mappings) * PAGE;
    let mut draws = Draws { state: 1 };
    let mut sum = 0u64;
    for _ in 0..turns {
        let address = scaled(draws.next(), span);
        sum = sum.wrapping_add(tree.translate(address, 1).unwrap_or(0));
    }
    Ok(sum)
}

/// Guest pages from address 0 on, at iovas from 2^40 on.
fn filled(alloc: Global, mappings: u32) -> Result<IovaTree, MapFault> {
    let mut tree = IovaTree::new(alloc, BASE, (1 << 63) - 1);
    for number in 0..u64::from(mappings) {
        let guest = number * PAGE;
        tree.map_at(Mapping {
            iova: BASE + guest,
            size: PAGE,
            guest,
        })?;
    }
    Ok(tree)
}

/// A draw below 2^31, as an address below `span`.
fn scaled(draw: u64, span: u64) -> u64
    requires draw { draw < 2 ^ 31 }
    requires span { span < 2 ^ 45 }
    ensures { result < 2 ^ 63 }
{
    (u128::from(draw) * u128::from(span) >> 31) as u64
}
