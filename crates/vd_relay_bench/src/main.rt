//! Chains through a relay between two rings, timed from outside. Prints a checksum of what came back, and no time.
#![tactic(auto)]

mod words;

ghost use Rattle.vd_layout.specs.Layout.{CanMake};

use anyhow::{Context, Result};
use std::alloc::{AllocError, Global};
use std::env;
use vd_iova::IovaTree;
use vd_layout::Layout;
use vd_model::{Chain, Features, Piece};
use vd_models::{ModelDevice, ModelGuest};
use vd_packed::Packed;
use vd_relayed::Bridge;
use vd_split::Split;
use words::Kind;

/// How many chains a bridge moves; a round makes one of them, with rings of 256 places.
const CHAINS: u32 = 1000;

/// More steps of a party than a round has.
const STEPS: u32 = 1_000_000;

const FIRST: u64 = 1_048_576;

const PLAIN: Features = Features {
    indirect: false,
    event_idx: false,
    in_order: false,
};

/// A chain of one piece.
fn chain() -> Chain {
    Chain::new(Piece {
        addr: 4096,
        len: 64,
        write: true,
    })
}

/// Guest, relay and device make one access each in turn until all came back: the sum of the numbers of the chains that did.
fn round<L: Layout>(alloc: Global) -> Result<u64, AllocError>
    requires { CanMake L.layout 256 PLAIN }
{
    let mut tree = IovaTree::new(alloc, FIRST, 4_294_967_295);
    if tree.map(65_536, 4096).is_err() {
        return Err(AllocError);
    }
    let guest = ModelGuest::new(alloc);
    let device = ModelDevice::new(alloc, 4);
    let mut bridge: Bridge<L, ModelGuest<L>, ModelDevice<L>> = Bridge::new(
        alloc,
        256,
        PLAIN,
        tree,
        &chain(),
        CHAINS,
        CHAINS,
        guest,
        device,
    )?;
    for _ in 0..STEPS {
        if bridge.guest_step().is_none() {
            break;
        }
        let _ = bridge.relay_step();
        let _ = bridge.device_step();
    }
    let mut sum = 0u64;
    for back in bridge.returned() {
        sum = sum.wrapping_add(back.number as u64);
    }
    Ok(sum)
}

fn rounds<L: Layout>(alloc: Global, count: u32) -> Result<u64, AllocError>
    requires { CanMake L.layout 256 PLAIN }
{
    let mut sum = 0u64;
    for _ in 0..count {
        sum = sum.wrapping_add(round::<L>(alloc)?);
    }
    Ok(sum)
}

fn main(rt: HostRuntime) -> Result<()> {
    let (kind, count) = words::read(env::args(&rt)?).context(
        "usage: vd_relay_bench split|packed ROUNDS",
    )?;
    let alloc = rt.alloc();
    let sum = match kind {
        Kind::Split => rounds::<Split>(alloc, count)?,
        Kind::Packed => rounds::<Packed>(alloc, count)?,
    };
    println!(rt; "{}", sum)?;
    Ok(())
}
