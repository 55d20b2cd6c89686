//! The report of a machine that was played.
ghost use Rattle.std.specs.Prelude.{IfSome, OnOk, OnErr, length};
ghost use Rattle.std.specs.Io.KnownBytes.{Appends};
ghost use Rattle.vd_stream.specs.Causes.{HasCause};
ghost use Rattle.vd_stream.specs.Sinks.{AppendsFront};
ghost use Rattle.vd_machine.specs.File.{view};
ghost use Rattle.vd_play.specs.Each.{HasLanes};
ghost use Rattle.vd_play.specs.Played.{AllPlayed};
ghost use Rattle.vd_play.specs.Setting.{setting_of};
ghost use Rattle.vd_runner.specs.ControlPlayed.{HasControlPlayed};
ghost use Rattle.vd_runner.specs.Report.{report, all_lens, control_lines};

use crate::control::put_control;
use crate::line::drained_line;
use crate::writing::{put_line, put_queue};
use vd_bus::{Device, Guest};
use vd_layout::Layout;
use vd_machine::Machine;
use vd_play::Bench;
use vd_stream::{Failed, Sink};

/// Writes the lines of the control queue, where there is one, whose parties stand behind those of the data queues.
fn put_if_control<L: Layout, K: Sink, G: Guest<L>, V: Device<L>>(
    m: &Machine,
    bench: &Bench<G, V>,
    sink: &mut K,
) -> Result<(), Failed>
    requires control { IfSome m.now.control (λ _.
        HasControlPlayed (setting_of L.Driver.driver L.Device.device L.layout G.party V.party) (view m.now) bench.now) }
    ensures ok { OnOk result (Appends (K.held sink.old) (K.held sink.new) (control_lines (view m.now))) }
    ensures err { OnErr result (AppendsFront (K.held sink.old) (K.held sink.new) (control_lines (view m.now))) }
    ensures cause { HasCause (K.faults sink.old) (K.faults sink.new) result }
{
    let Some(script) = &m.control else {
        return Ok(());
    };
    let place = m.queues.len();
    let list = bench.guests[place].returned();
    let settings = bench.devices[place].settings();
    match put_control(script, list, settings, sink) {
        Ok(()) => Ok(()),
        Err(Failed) => Err(Failed),
    }
}

/// Writes the report of a machine that was played, by the lengths in the journals of its data queues' devices, and by the acks
/// that came back on its control queue and the settings of the device there. Where it is brief, no line says the length of
/// each chain. It takes no memory.
pub fn report<L: Layout, K: Sink, G: Guest<L>, V: Device<L>>(
    m: &Machine,
    brief: bool,
    bench: &Bench<G, V>,
    sink: &mut K,
) -> Result<(), Failed>
    requires parties { HasLanes (length m.now.queues) bench.now }
    requires played { AllPlayed (setting_of L.Driver.driver L.Device.device L.layout G.party V.party) (view m.now) bench.now }
    requires control { IfSome m.now.control (λ _.
        HasControlPlayed (setting_of L.Driver.driver L.Device.device L.layout G.party V.party) (view m.now) bench.now) }
    ensures ok { OnOk result (Appends (K.held sink.old) (K.held sink.new)
        (report (view m.now) brief (all_lens V.party (view m.now) bench.now))) }
    ensures err { OnErr result (AppendsFront (K.held sink.old) (K.held sink.new)
        (report (view m.now) brief (all_lens V.party (view m.now) bench.now))) }
    ensures cause { HasCause (K.faults sink.old) (K.faults sink.new) result }
{
    let mut drained = 0u64;
    for queue in 0..m.queues.len() {
        let journal = bench.devices[queue].journal();
        match put_queue(m, brief, queue as u64, journal, sink) {
            Ok(()) => {}
            Err(Failed) => return Err(Failed),
        }
        drained += bench.guests[queue].returned().len() as u64;
    }
    match put_if_control::<L, K, G, V>(m, bench, sink) {
        Ok(()) => {}
        Err(Failed) => return Err(Failed),
    }
    match put_line(drained_line(drained), sink) {
        Ok(()) => Ok(()),
        Err(Failed) => Err(Failed),
    }
}
