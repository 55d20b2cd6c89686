//! A machine that was read is played over a bench of its layout, and reported.
ghost use Rattle.std.specs.Prelude.{◌≡◌, None, false};
ghost use Rattle.vd_machine.specs.File.{view};
ghost use Rattle.vd_play.specs.Played.{faulty};
ghost use Rattle.vd_play.specs.Prepared.{IsOfLayout, IsEmptyBench, IsUntouched};
ghost use Rattle.vd_play.specs.Setting.{setting_of};
ghost use Rattle.vd_runner.specs.Answers.{has_played};
ghost use Rattle.vd_runner.specs.Outcome.{PlaysTo};

use crate::reporting::report;
use crate::status::Status;
use std::alloc::Global;
use vd_bus::{Device, Guest};
use vd_layout::Layout;
use vd_machine::Machine;
use vd_play::{Bench, PlayFault, play_machine, prepare};
use vd_stream::{Failed, Sink};

/// A device that refused an attach ends the command.
fn status_of(fault: PlayFault) -> Status
    ensures { result ≡ Status.DeviceFault (faulty fault) }
{
    match fault {
        PlayFault::Device(queue) => Status::DeviceFault(queue),
    }
}

/// Plays the machine with the parties of the bench, by the turns of the seed where there is one, and writes its report to
/// the sink. All memory is taken before the first step of a ring. The machine has no control queue yet.
pub fn play_on<L: Layout, K: Sink, G: Guest<L>, V: Device<L>>(
    alloc: Global,
    m: &Machine,
    seed: Option<u64>,
    brief: bool,
    bench: &mut Bench<G, V>,
    sink: &mut K,
) -> Status
    requires layout { IsOfLayout L.layout (view m.now) }
    requires uncontrolled { m.now.control ≡ None }
    requires empty { IsEmptyBench G.party V.party bench.old }
    ensures answer { PlaysTo (setting_of L.Driver.driver L.Device.device L.layout G.party V.party) (view m.now) brief
        bench.old bench.new
        (K.held sink.old) (K.held sink.new) (K.faults sink.old) (K.faults sink.new) result }
    ensures nothing { has_played result ≡ false → IsUntouched G.party V.party bench.old bench.new }
{
    let need = m.queues.len();
    let guests = bench.guests.len();
    let devices = bench.devices.len();
    if guests < need || devices < need {
        return Status::TooFewParties {
            need: need as u64,
            guests: guests as u64,
            devices: devices as u64,
        };
    }
    let Ok(floor) = prepare::<L, G, V>(alloc, m, bench) else {
        return Status::Memory;
    };
    match play_machine::<L, G, V>(floor, m, seed, bench) {
        Ok(_) => {}
        Err(fault) => return status_of(fault),
    }
    match report::<L, K, G, V>(m, brief, bench, sink) {
        Ok(()) => Status::Ok,
        Err(Failed) => Status::WriteFault,
    }
}
