//! Two threads move chains through one ring, each with its own end and port, and sleep by yielding. The threads are started over any
//! two ports.
ghost use Rattle.std.specs.Prelude.{◌≡◌, true};
ghost use Rattle.vd_ring.specs.declared.driver.DriverView.{DriverView};
ghost use Rattle.vd_ring.specs.declared.device.DeviceView.{DeviceView};
ghost use Rattle.vd_layout.specs.Layout.{CanMake};
ghost use Rattle.vd_layout.specs.Runs.{DriverOn, DeviceOn, DriverRan, DeviceRan};
ghost use Rattle.vd_seats.specs.Open.{IsOpen};

use super::turns::{turn_device, turn_driver};
use crate::{Counts, RingTable};
use std::alloc::{AllocError, Global};
use std::sync::Wait;
use std::test::*;
use std::thread;
use std::thread::{Threads, join};
use vd_layout::{DeviceEnd, DriverEnd, Layout};
use vd_model::Features;
use vd_packed::Packed;
use vd_split::Split;
use vd_words::Port;

// Offers so many chains, and collects them.
fn drive<R: Wait, E: DriverEnd, P: Port + Drop>(
    rt: &R,
    mut end: E,
    mut port: P,
    count: u32,
) -> (E, P, u64)
    requires { (v : DriverView) × DriverOn P.port E.driver port v end × IsOpen v.frame }
    ensures { (v : DriverView) → DriverOn P.port E.driver port v end → IsOpen v.frame → DriverRan P.port E.driver port v result.1 result.0 }
{
    let mut sum = 0u64;
    for _ in rt.forever() {
        if end.collected() >= count {
            break;
        }
        match turn_driver(&mut end, &mut port, count) {
            Some(more) => sum = sum.wrapping_add(more),
            None => thread::yield_now(),
        }
    }
    (end, port, sum)
}

// Takes so many chains, and gives them.
fn serve<R: Wait, E: DeviceEnd, P: Port + Drop>(
    rt: &R,
    mut end: E,
    mut port: P,
    count: u32,
) -> (E, P, u64)
    requires { (w : DeviceView) × DeviceOn P.port E.device port w end }
    ensures { (w : DeviceView) → DeviceOn P.port E.device port w end → DeviceRan P.port E.device port w result.1 result.0 }
{
    let mut sum = 0u64;
    for _ in rt.forever() {
        if end.given() >= count {
            break;
        }
        match turn_device(&mut end, &mut port) {
            Some(more) => sum = sum.wrapping_add(more),
            None => thread::yield_now(),
        }
    }
    (end, port, sum)
}

// The threads, over any two ports.
fn run_two<
    R: Threads + Wait + Sync,
    D: DriverEnd + Send,
    E: DeviceEnd + Send,
    P: Port + Drop + Send,
    Q: Port + Drop + Send,
>(rt: &R, driver: D, first: P, device: E, second: Q, count: u32) -> ((D, P, u64), (E, Q, u64))
    requires drives { (v : DriverView) × DriverOn P.port D.driver first v driver × IsOpen v.frame }
    requires serves { (w : DeviceView) × DeviceOn Q.port E.device second w device }
    ensures drives { (v : DriverView) → DriverOn P.port D.driver first v driver → IsOpen v.frame
        → DriverRan P.port D.driver first v result.0.1 result.0.0 }
    ensures serves { (w : DeviceView) → DeviceOn Q.port E.device second w device
        → DeviceRan Q.port E.device second w result.1.1 result.1.0 }
{
    join(
        rt,
        move || drive(rt, driver, first, count),
        move || serve(rt, device, second, count),
    )
}

// The same for a fresh ring of any layout.
fn move_all<R: Threads + Wait + Sync, L: Layout + Send + Sync>(
    rt: &R,
    alloc: Global,
    size: u32,
    f: Features,
    count: u32,
) -> Result<(Counts, u64, u64), AllocError>
where
    L::Driver: Send + Sync,
    L::Device: Send + Sync,
    requires { CanMake L.layout size f }
{
    let (driver, device) = L::make(alloc, size, f, false)?;
    let (table, first, second) = RingTable::<L>::make(alloc, 0, size, f, false, None)?;
    let ((driver, first, collected), (device, second, taken)) = run_two(
        rt, driver, first, device, second, count,
    );
    let counts = table.close(first, second, &driver, &device);
    Ok((counts, collected, taken))
}

const ALL: Counts = Counts {
    offered: 1000,
    taken: 1000,
    given: 1000,
    collected: 1000,
};

// Whether 1,000 chains come through four places with each set of features.
fn moves_always<R: Threads + Wait + Sync, L: Layout + Send + Sync>(
    rt: &R,
    alloc: Global,
) -> Result<bool, AllocError>
where
    L::Driver: Send + Sync,
    L::Device: Send + Sync,
    requires lawful { L.layout.lawful_size 4 ≡ true }
{
    for kind in 0..8u32 {
        let f = Features {
            indirect: kind & 1 != 0,
            event_idx: kind & 2 != 0,
            in_order: kind & 4 != 0,
        };
        let (counts, collected, taken) = move_all::<R, L>(rt, alloc, 4, f, 1000)?;
        if counts != ALL || collected != 509_500 || taken != 499_500 {
            return Ok(false);
        }
    }
    Ok(true)
}

#[test]
fn two_threads_move_chains_through_split_words(rt: HostRuntime) -> Result<(), Fail> {
    assert!(rt; moves_always::<_, Split>(&rt, rt.alloc())?);
    Ok(())
}

#[test]
fn two_threads_move_chains_through_packed_words(rt: HostRuntime) -> Result<(), Fail> {
    assert!(rt; moves_always::<_, Packed>(&rt, rt.alloc())?);
    Ok(())
}
