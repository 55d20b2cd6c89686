//! Writing the epochs of a queue.
ghost use Rattle.std.specs.Prelude.{◌≡◌, false, OnOk, OnErr};
ghost use Rattle.std.specs.Io.KnownBytes.{Appends};
ghost use Rattle.vd_stream.specs.Causes.{HasCause};
ghost use Rattle.vd_stream.specs.Sinks.{AppendsFront};
ghost use Rattle.vd_play.specs.Epochs.{epochs_from, mode_after};
ghost use Rattle.vd_runner.specs.Report.{epoch_lines};

use crate::line::epoch_line;
use crate::writing::put_line;
use vd_machine::{Switch, To};
use vd_model::Mode;
use vd_stream::{Failed, Sink};

fn mode_after(mode: Mode, to: To) -> Mode
    ensures { result ≡ mode_after mode to }
{
    match to {
        To::Pass => Mode::Pass,
        To::Shadow => Mode::Shadow,
        To::Renew => mode,
    }
}

/// Writes a line for each epoch of a queue of `count` chains, but for the closing one.
pub fn put_epochs<K: Sink>(
    queue: u64,
    start: Mode,
    switches: &[Switch],
    count: u64,
    sink: &mut K,
) -> Result<(), Failed>
    ensures ok { OnOk result (Appends (K.held sink.old) (K.held sink.new)
        (epoch_lines queue 0 (epochs_from 0 switches.now start false 0 count))) }
    ensures err { OnErr result (AppendsFront (K.held sink.old) (K.held sink.new)
        (epoch_lines queue 0 (epochs_from 0 switches.now start false 0 count))) }
    ensures cause { HasCause (K.faults sink.old) (K.faults sink.new) result }
{
    let mut mode = start;
    let mut from = 0u64;
    for epoch in 0..switches.len() {
        let switch = switches[epoch];
        let to = (switch.after as u64).min(count);
        match put_line(epoch_line(queue, epoch as u64, mode, from, to), sink) {
            Ok(()) => {}
            Err(Failed) => return Err(Failed),
        }
        mode = mode_after(mode, switch.to);
        from = to;
    }
    match put_line(
        epoch_line(queue, switches.len() as u64, mode, from, count),
        sink,
    ) {
        Ok(()) => Ok(()),
        Err(Failed) => Err(Failed),
    }
}
