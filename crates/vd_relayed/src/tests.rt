//! Chains through a relay over both layouts, with its wind-up.
ghost use Rattle.vd_layout.specs.Layout.{CanMake};

use crate::Bridge;
use std::alloc::{AllocError, Global};
use std::test::*;
use vd_bus::Journal;
use vd_iova::IovaTree;
use vd_layout::Layout;
use vd_model::{Chain, Features, Piece, Return};
use vd_models::{ModelDevice, ModelGuest};
use vd_packed::Packed;
use vd_split::Split;

const FIRST: u64 = 1_048_576;

fn chain() -> Chain {
    let mut chain = Chain::new(Piece {
        addr: 4096,
        len: 10,
        write: false,
    });
    let _ = chain.push(Piece {
        addr: 8192,
        len: 64,
        write: true,
    });
    chain
}

/// Whether these chains were begun, at their iovas.
fn begun_moved(journal: &Journal, stop: usize) -> bool {
    for begun in journal.begun.as_slice() {
        let pieces = begun.chain.pieces();
        if pieces.len() != 2
            || pieces[0].addr != FIRST
            || pieces[1].addr != FIRST + 4096
            || begun.len != 10
        {
            return false;
        }
    }
    journal.begun.len() == stop
}

/// Whether so many chains came back, each with that length.
fn came_back(returned: &[Return], stop: usize) -> bool {
    for back in returned {
        if back.len != 10 || back.number as usize >= stop {
            return false;
        }
    }
    returned.len() == stop
}

/// The guest offers 40 chains, and makes one step in so many of the others'; the device begins the first `stop`. How many bells the
/// relay heard, where all went well.
fn relayed<L: Layout>(
    alloc: Global,
    f: Features,
    slow: u32,
    stop: u32,
) -> Result<Option<u64>, AllocError>
    requires { CanMake L.layout 8 f }
{
    let mut tree = IovaTree::new(alloc, FIRST, 4_294_967_295);
    if tree.map(65_536, 4096).is_err() {
        return Err(AllocError);
    }
    let guest = ModelGuest::new(alloc);
    let device = ModelDevice::new(alloc, 4);
    let mut bridge: Bridge<L, ModelGuest<L>, ModelDevice<L>> = Bridge::new(
        alloc,
        8,
        f,
        tree,
        &chain(),
        40,
        stop,
        guest,
        device,
    )?;
    for i in 0..20_000u32 {
        if i % slow.max(1) == 0 {
            let _ = bridge.guest_step();
        }
        let _ = bridge.relay_step();
        let _ = bridge.device_step();
        let _ = bridge.begin_wind_up();
    }
    let well = bridge.rested()
        && begun_moved(bridge.journal(), stop as usize)
        && came_back(bridge.returned(), stop as usize);
    Ok(well.then_some(bridge.heard()))
}

const PLAIN: Features = Features {
    indirect: false,
    event_idx: false,
    in_order: false,
};

const ALL: Features = Features {
    indirect: true,
    event_idx: true,
    in_order: true,
};

#[test]
fn through_split_rings(rt: HostRuntime) -> Result<(), Fail> {
    for f in [PLAIN, ALL] {
        assert_eq!(rt; relayed::<Split>(rt.alloc(), f, 1, 0)?.is_some(), true);
        assert_eq!(rt; relayed::<Split>(rt.alloc(), f, 1, 33)?.is_some(), true);
        assert_eq!(rt;
            relayed::<Split>(rt.alloc(), f, 40, 21)?.unwrap_or(0) > 0,
            true
        );
    }
    Ok(())
}

#[test]
fn through_packed_rings(rt: HostRuntime) -> Result<(), Fail> {
    for f in [PLAIN, ALL] {
        assert_eq!(rt; relayed::<Packed>(rt.alloc(), f, 1, 0)?.is_some(), true);
        assert_eq!(rt; relayed::<Packed>(rt.alloc(), f, 1, 33)?.is_some(), true);
        assert_eq!(rt;
            relayed::<Packed>(rt.alloc(), f, 40, 21)?.unwrap_or(0) > 0,
            true
        );
    }
    Ok(())
}
