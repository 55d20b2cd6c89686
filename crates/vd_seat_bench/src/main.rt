//! Chains through a ring in a table, timed from outside. Prints a checksum.
#![tactic(auto)]

ghost use Rattle.std.specs.Prelude.{◌≡◌, ◌≤◌, [], ◌∷◌};
ghost use Rattle.vd_model.specs.declared.chain.Piece.{Piece};
ghost use Rattle.vd_layout.specs.Layout.{CanMake};

mod halves;
mod threads;

use anyhow::{Context, Result};
use halves::{DeviceHalf, DriverHalf, ring};
use std::alloc::{AllocError, Global};
use std::env;
use std::env::Args;
use threads::{move_packed, move_split};
use vd_layout::{DeviceAct, DriverAct, Layout};
use vd_model::{Chain, Features, Piece};
use vd_packed::Packed;
use vd_split::Split;

pub const PLAIN: Features = Features {
    indirect: false,
    event_idx: false,
    in_order: false,
};

/// What is run.
#[derive(Copy, Clone)]
enum Kind {
    Split,
    Packed,
    TwoSplit,
    TwoPacked,
}

const PIECE: Piece = Piece {
    addr: 4096,
    len: 64,
    write: false,
};

/// Offers, takes, gives and collects so many chains of one piece.
fn round<L: Layout>(
    driver: &mut DriverHalf<L>,
    device: &mut DeviceHalf<L>,
    chain: &Chain,
    window: u32,
) -> u64
    requires { (p : Piece) × (chain.now ≡ p ∷ []) × (p.len ≤ 4294967295) }
{
    let mut sum = 0u64;
    for _ in 0..window {
        let _ = driver.offer(chain);
    }
    for _ in 0..window {
        if let Some(DeviceAct::Taken(number, chain)) = device.take() {
            sum = sum.wrapping_add(chain.pieces().len() as u64);
            let _ = device.give(number, 10);
        }
    }
    for _ in 0..window {
        if let Some(DriverAct::Collected { number, len, .. }) = driver.collect() {
            sum = sum.wrapping_add(number as u64).wrapping_add(len as u64);
        }
    }
    sum
}

fn run<L: Layout>(alloc: Global, size: u32, rounds: u32, window: u32) -> Result<u64, AllocError>
    requires { CanMake L.layout size PLAIN }
{
    let (_table, mut driver, mut device) = ring::<L>(alloc, size, PLAIN)?;
    let mut sum = 0u64;
    let chain = Chain::new(PIECE);
    for _ in 0..rounds {
        sum = sum.wrapping_add(round(&mut driver, &mut device, &chain, window));
    }
    Ok(sum)
}

fn kind_of(name: &str) -> Option<Kind> {
    match name {
        "split" => Some(Kind::Split),
        "packed" => Some(Kind::Packed),
        "two-split" => Some(Kind::TwoSplit),
        "two-packed" => Some(Kind::TwoPacked),
        _ => None,
    }
}

fn read(mut words: Args) -> Option<(Kind, u32)> {
    let _program = words.next()?;
    let kind = kind_of(words.next()?.as_str())?;
    let rounds = words.next()?.as_str().parse().ok()?;
    Some((kind, rounds))
}

fn main(rt: HostRuntime) -> Result<()> {
    let (kind, rounds) = read(env::args(&rt)?).context("usage: vd_seat_bench LAYOUT ROUNDS")?;
    let alloc = rt.alloc();
    let sum = match kind {
        Kind::Split => run::<Split>(alloc, 256, rounds, 16)?,
        Kind::Packed => run::<Packed>(alloc, 256, rounds, 16)?,
        Kind::TwoSplit => move_split(&rt, alloc, 256, rounds)?.1,
        Kind::TwoPacked => move_packed(&rt, alloc, 256, rounds)?.1,
    };
    println!(rt; "{}", sum)?;
    Ok(())
}
