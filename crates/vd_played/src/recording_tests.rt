//! In which order the parties of a play make their steps.
ghost use Rattle.std.specs.Prelude.{IfOk};
ghost use Rattle.vd_play.specs.Prepared.{IsEmptyBench};

use crate::answers_tests::FILE;
use crate::benches::no_parties;
use crate::recording::{Record, RecordingDevice, RecordingGuest};
use std::alloc::{AllocError, Global};
use std::cell::Cell;
use std::test::*;
use vd_bus::{Device, Guest};
use vd_models::{ModelDevice, ModelGuest};
use vd_packed::Packed;
use vd_runner::{Bench, Status, play_command};
use vd_split::Split;
use vd_stream::{MemorySink, MemorySource};

type Guests<'a> = RecordingGuest<'a, ModelGuest<Split>>;

type Devices<'a> = RecordingDevice<'a, ModelDevice<Split>>;

/// A bench of one guest and one device that record by the clock.
fn recording<'a>(
    alloc: Global,
    clock: &'a Cell<u32>,
) -> Result<Bench<Guests<'a>, Devices<'a>>, AllocError>
    ensures { IfOk result (λ b. IsEmptyBench ⟦<RecordingGuest<'a, ModelGuest<Split>> as Guest<Split>>⟧.party
        ⟦<RecordingDevice<'a, ModelDevice<Split>> as Device<Split>>⟧.party b) }
{
    let mut guests = Vec::new(alloc);
    guests.push(RecordingGuest {
        inner: ModelGuest::new(alloc),
        record: Record::new(clock),
    })?;
    let mut devices = Vec::new(alloc);
    devices.push(RecordingDevice {
        inner: ModelDevice::new(alloc, 1),
        record: Record::new(clock),
    })?;
    Ok(Bench { guests, devices })
}

/// How a play by this seed ends.
fn play<GS: Guest<Split>, VS: Device<Split>>(
    alloc: Global,
    seed: Option<u64>,
    source: &mut MemorySource,
    sink: &mut MemorySink,
    bench: &mut Bench<GS, VS>,
) -> Status
    requires { IsEmptyBench GS.party VS.party bench.old }
{
    let mut packed = no_parties::<Packed>(alloc);
    play_command(alloc, seed, false, source, sink, bench, &mut packed)
}

/// Whether a play of the file by this seed has the guest's and the device's steps at these times.
fn steps_at(
    alloc: Global,
    seed: Option<u64>,
    guest: &[u32],
    device: &[u32],
) -> Result<bool, AllocError> {
    let clock = Cell::new(0);
    let mut bench = recording(alloc, &clock)?;
    let mut source = MemorySource::new(alloc, FILE.as_bytes(), &[])?;
    let mut sink = MemorySink::new(alloc, 200, &[])?;
    if play(alloc, seed, &mut source, &mut sink, &mut bench) != Status::Ok {
        return Ok(false);
    }
    match (bench.guests.as_slice(), bench.devices.as_slice()) {
        ([driver], [server]) => {
            Ok(driver.record.times() == guest && server.record.times() == device)
        }
        _ => Ok(false),
    }
}

/// Without a seed each party makes one step in its turn, the guest before the device. With one the turns have 1 to 4 steps,
/// and end early where a party looked or is done. The chain has two pieces.
#[test]
fn steps_follow_the_schedule(rt: HostRuntime) -> Result<(), Fail> {
    let alloc = rt.alloc();
    let guest = [
        0, 2, 4, 6, 8, 10, 12, 14, 16, 18, 20, 22, 24, 26, 28, 30, 32, 34, 36, 38, 40, 42, 44, 46,
        48,
    ];
    let device = [
        1, 3, 5, 7, 9, 11, 13, 15, 17, 19, 21, 23, 25, 27, 29, 31, 33, 35, 37, 39, 41, 43, 45, 47,
    ];
    assert!(rt; steps_at(alloc, None, &guest, &device)?);
    let guest = [0, 1, 2, 3, 5, 6, 8, 9, 14, 19, 24, 25, 26, 27, 31];
    let device = [
        4, 7, 10, 11, 12, 13, 15, 16, 17, 18, 20, 21, 22, 23, 28, 29, 30, 32, 33,
    ];
    assert!(rt; steps_at(alloc, Some(0), &guest, &device)?);
    let guest = [
        0, 1, 2, 3, 6, 8, 9, 10, 11, 16, 21, 22, 25, 30, 32, 33, 36, 37,
    ];
    let device = [
        4, 5, 7, 12, 13, 14, 15, 17, 18, 19, 20, 23, 24, 26, 27, 28, 29, 31, 34, 35,
    ];
    assert!(rt; steps_at(alloc, Some(9), &guest, &device)?);
    Ok(())
}
