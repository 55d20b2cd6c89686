//! Two threads move chains through one ring, each with its own end and port.
ghost use Rattle.std.specs.Prelude.{◌≡◌};
ghost use Rattle.vd_layout.specs.Layout.{CanMake};

use crate::PLAIN;
use crate::halves::{DeviceHalf, DriverHalf, close, ring};
use std::alloc::{AllocError, Global};
use std::sync::Wait;
use std::thread;
use std::thread::{Threads, join};
use vd_layout::{DeviceAct, DriverAct, Layout};
use vd_model::{Chain, Piece};
use vd_packed::Packed;
use vd_seats::Counts;
use vd_split::Split;

// Offers so many chains, and collects them.
fn drive<R: Wait, L: Layout>(rt: &R, mut half: DriverHalf<L>, count: u32) -> (DriverHalf<L>, u64)
    ensures { result.0 ≡ half }
{
    let mut sum = 0u64;
    for _ in rt.forever() {
        let offered = half.offered();
        if half.collected() >= count {
            break;
        }
        if offered < count {
            let chain = Chain::new(Piece {
                addr: (offered as u64) << 12,
                len: 64,
                write: true,
            });
            let _ = half.offer(&chain);
        }
        match half.collect() {
            Some(DriverAct::Collected { number, len, .. }) => {
                sum = sum.wrapping_add(number as u64).wrapping_add(len as u64);
            }
            _ => thread::yield_now(),
        }
    }
    (half, sum)
}

// Takes so many chains, and gives each with a length of 10 bytes.
fn serve<R: Wait, L: Layout>(rt: &R, mut half: DeviceHalf<L>, count: u32) -> (DeviceHalf<L>, u64)
    ensures { result.0 ≡ half }
{
    let mut sum = 0u64;
    for _ in rt.forever() {
        if half.given() >= count {
            break;
        }
        match half.take() {
            Some(DeviceAct::Taken(number, chain)) => {
                sum = sum.wrapping_add(chain.pieces()[0].addr >> 12);
                let _ = half.give(number, 10);
            }
            _ => thread::yield_now(),
        }
    }
    (half, sum)
}

pub fn move_split<R: Threads + Wait + Sync>(
    rt: &R,
    alloc: Global,
    size: u32,
    count: u32,
) -> Result<(Counts, u64, u64), AllocError>
    requires { CanMake ⟦<Split as Layout>⟧.layout size PLAIN }
{
    let (table, driver, device) = ring::<Split>(alloc, size, PLAIN)?;
    let ((driver, collected), (device, taken)) = join(
        rt,
        move || drive(rt, driver, count),
        move || serve(rt, device, count),
    );
    Ok((close(table, driver, device), collected, taken))
}

pub fn move_packed<R: Threads + Wait + Sync>(
    rt: &R,
    alloc: Global,
    size: u32,
    count: u32,
) -> Result<(Counts, u64, u64), AllocError>
    requires { CanMake ⟦<Packed as Layout>⟧.layout size PLAIN }
{
    let (table, driver, device) = ring::<Packed>(alloc, size, PLAIN)?;
    let ((driver, collected), (device, taken)) = join(
        rt,
        move || drive(rt, driver, count),
        move || serve(rt, device, count),
    );
    Ok((close(table, driver, device), collected, taken))
}
