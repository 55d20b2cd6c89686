//! A chain of two pieces through a ring of four places, with each set of features, with bounds and without.
ghost use Rattle.std.specs.Prelude.{◌≡◌, IfSome, true};
ghost use Rattle.vd_ring.specs.Frames.{AreInBounds};
ghost use Rattle.vd_layout.specs.Layout.{CanMake};
ghost use Rattle.vd_seats.specs.Two.{two};

use super::turns::{collect_one, give_one, offer_chain, take_one};
use crate::{Counts, RingTable};
use std::alloc::{AllocError, Global};
use std::test::*;
use vd_layout::{DeviceAct, DriverAct, Layout};
use vd_model::{Chain, Features, Map, Mapping, Piece};
use vd_packed::Packed;
use vd_split::Split;

const FIRST: Piece = Piece {
    addr: 4096,
    len: 10,
    write: false,
};

const SECOND: Piece = Piece {
    addr: 8192,
    len: 20,
    write: true,
};

const ONE: Counts = Counts {
    offered: 1,
    taken: 1,
    given: 1,
    collected: 1,
};

const COLLECTED: DriverAct = DriverAct::Collected {
    number: 0,
    len: 7,
    head: 0,
};

fn two_pieces() -> Option<Chain>
    ensures { IfSome result (λ c. c ≡ two) }
{
    let mut chain = Chain::new(FIRST);
    match chain.push(SECOND) {
        Ok(()) => Some(chain),
        Err(_) => None,
    }
}

// No bounds, or one mapping whose last byte is the chain's.
fn bounds(bounded: bool) -> Option<Map>
    ensures { AreInBounds result two }
{
    if !bounded {
        return None;
    }
    let mut map = Map::new();
    map.push(Mapping {
        iova: 0,
        size: 4116,
        guest: 4096,
    });
    Some(map)
}

fn is_the_chain(act: &DeviceAct) -> bool {
    match act {
        DeviceAct::Taken(number, chain) => {
            *number == 0 && chain.pieces() == [FIRST, SECOND].as_slice()
        }
        _ => false,
    }
}

// Whether the chain comes through, and each count is 1.
fn moves<L: Layout>(
    alloc: Global,
    f: Features,
    chain: &Chain,
    bounded: bool,
) -> Result<bool, AllocError>
    requires can { CanMake L.layout 4 f }
    requires chain { chain.now ≡ two }
{
    let _ = chain.pieces();
    let (mut driver, mut device) = L::make(alloc, 4, f, false)?;
    let bounds = bounds(bounded);
    let (table, mut first, mut second) = RingTable::<L>::make(alloc, 3, 4, f, false, bounds)?;
    let offered = offer_chain(&mut driver, &mut first, chain);
    let taken = take_one(&mut device, &mut second);
    give_one(&mut device, &mut second, 0, 7);
    let collected = collect_one(&mut driver, &mut first);
    let counts = table.close(first, second, &driver, &device);
    Ok(offered && is_the_chain(&taken) && collected == COLLECTED && counts == ONE)
}

// The same with each set of features.
fn moves_always<L: Layout>(alloc: Global) -> Result<bool, AllocError>
    requires lawful { L.layout.lawful_size 4 ≡ true }
{
    let Some(chain) = two_pieces() else {
        return Ok(false);
    };
    for kind in 0..16u32 {
        let f = Features {
            indirect: kind & 1 != 0,
            event_idx: kind & 2 != 0,
            in_order: kind & 4 != 0,
        };
        if !moves::<L>(alloc, f, &chain, kind & 8 != 0)? {
            return Ok(false);
        }
    }
    Ok(true)
}

#[test]
fn each_kind_of_ring_moves_a_chain(rt: HostRuntime) -> Result<(), Fail> {
    assert!(rt; moves_always::<Split>(rt.alloc())?);
    assert!(rt; moves_always::<Packed>(rt.alloc())?);
    Ok(())
}
