//! Chains through a split or a packed ring, timed from outside. Prints a checksum of what came back, and no time.
#![tactic(auto)]

mod words;

use anyhow::{Context, Result};
use std::alloc::{AllocError, Global};
use std::env;
use vd_layout::{DeviceAct, DriverAct, Layout, PlainRing};
use vd_model::{Chain, Features, Piece};
use vd_packed::Packed;
use vd_split::Split;
use words::{Kind, Size, Way, Workload};

/// How many chains stand on the ring at once, but for a ring of four.
const WINDOW: u32 = 16;

const PLAIN: Features = Features {
    indirect: false,
    event_idx: false,
    in_order: false,
};

const TABLED: Features = Features {
    indirect: true,
    event_idx: false,
    in_order: false,
};

const INDEXED: Features = Features {
    indirect: false,
    event_idx: true,
    in_order: false,
};

fn piece(k: u32, write: bool) -> Piece {
    Piece {
        addr: (k as u64) << 12,
        len: 64,
        write,
    }
}

/// A chain of one piece, or of one to three.
fn chain(k: u32, most: u32) -> Chain {
    let mut chain = Chain::new(piece(k, false));
    if most > 1 {
        for _ in 0..k % 3 {
            let _ = chain.push(piece(k, true));
        }
    }
    chain
}

/// The device arms before the offers of a round.
fn arms<L: Layout>(ring: &mut PlainRing<L>, sleeps: bool) {
    if sleeps {
        let _ = ring.arm_device();
    }
}

/// After the offers the device hears the driver's bell, and the driver arms.
fn wakes<L: Layout>(ring: &mut PlainRing<L>, sleeps: bool) {
    if sleeps {
        let _ = ring.hear_device();
        let _ = ring.arm_driver();
    }
}

/// After the gives the driver hears the device's bell.
fn hears<L: Layout>(ring: &mut PlainRing<L>, sleeps: bool) {
    if sleeps {
        let _ = ring.hear_driver();
    }
}

/// Offers, takes, gives and collects so many chains.
fn round<L: Layout>(
    ring: &mut PlainRing<L>,
    window: u32,
    sleeps: bool,
    chains: &[Chain; 3],
) -> u64 {
    let mut sum = 0u64;
    arms(ring, sleeps);
    for k in 0..window {
        let _ = ring.offer(&chains[(k % 3) as usize]);
    }
    wakes(ring, sleeps);
    for _ in 0..window {
        if let Some(DeviceAct::Taken(number, chain)) = ring.take() {
            sum = sum.wrapping_add(chain.pieces().len() as u64);
            let _ = ring.give(number, 10);
        }
    }
    hears(ring, sleeps);
    for _ in 0..window {
        if let Some(DriverAct::Collected { number, len, .. }) = ring.collect() {
            sum = sum.wrapping_add(number as u64).wrapping_add(len as u64);
        }
    }
    sum
}

fn run<L: Layout>(ring: &mut PlainRing<L>, w: Workload, window: u32) -> u64 {
    let mut sum = 0u64;
    let chains = [chain(0, w.most), chain(1, w.most), chain(2, w.most)];
    let sleeps = matches!(w.way, Way::Flags | Way::Index);
    for _ in 0..w.rounds {
        sum = sum.wrapping_add(round(ring, window, sleeps, &chains));
    }
    sum
}

fn features_of(way: Way) -> Features {
    match way {
        Way::Awake => PLAIN,
        Way::Flags => PLAIN,
        Way::Index => INDEXED,
        Way::Tables => TABLED,
    }
}

fn split(alloc: Global, w: Workload) -> Result<u64, AllocError> {
    let f = features_of(w.way);
    Ok(match w.size {
        Size::Four => run(&mut PlainRing::<Split>::make(alloc, 0, 4, f)?, w, 1),
        Size::Middle => run(&mut PlainRing::<Split>::make(alloc, 0, 256, f)?, w, WINDOW),
        Size::Large => run(&mut PlainRing::<Split>::make(alloc, 0, 1024, f)?, w, WINDOW),
    })
}

fn packed(alloc: Global, w: Workload) -> Result<u64, AllocError> {
    let f = features_of(w.way);
    Ok(match w.size {
        Size::Four => run(&mut PlainRing::<Packed>::make(alloc, 0, 4, f)?, w, 1),
        Size::Middle => run(&mut PlainRing::<Packed>::make(alloc, 0, 256, f)?, w, WINDOW),
        Size::Large => run(
            &mut PlainRing::<Packed>::make(alloc, 0, 1024, f)?,
            w,
            WINDOW,
        ),
    })
}

fn main(rt: HostRuntime) -> Result<()> {
    let workload = words::read(env::args(&rt)?).context(
        "usage: vd_ring_bench LAYOUT SIZE ROUNDS MOST [flags|index|tables]",
    )?;
    let alloc = rt.alloc();
    let sum = match workload.kind {
        Kind::Split => split(alloc, workload)?,
        Kind::Packed => packed(alloc, workload)?,
    };
    println!(rt; "{}", sum)?;
    Ok(())
}
