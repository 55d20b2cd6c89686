//! Writing the parts of a queue's report, a line at a time.
ghost use Rattle.std.specs.Prelude.{◌≡◌, ◌<◌, ◌^◌, [], length, sum, OnOk, OnErr, if◌then◌else◌};
ghost use Rattle.std.specs.Io.KnownBytes.{Appends};
ghost use Rattle.vd_bus.specs.Device.{lens_of};
ghost use Rattle.vd_stream.specs.Causes.{HasCause};
ghost use Rattle.vd_stream.specs.Sinks.{AppendsFront};
ghost use Rattle.vd_machine.specs.File.{view};
ghost use Rattle.vd_runner.specs.Report.{chain_lines, queue_lines};

use crate::epochs::put_epochs;
use crate::line::{Line, chain_line, queue_line};
use vd_bus::Journal;
use vd_machine::Machine;
use vd_model::Begun;
use vd_stream::{Failed, Sink, put_all};

fn sum_of(begun: &[Begun]) -> u64
    requires { length begun.now < 2 ^ 32 }
    ensures { result ≡ sum (lens_of begun.now) }
{
    begun.iter().map(|entry| entry.len as u64).sum()
}

/// Writes one line.
pub fn put_line<K: Sink>(line: Line, sink: &mut K) -> Result<(), Failed>
    ensures ok { OnOk result (Appends (K.held sink.old) (K.held sink.new) line.bytes) }
    ensures err { OnErr result (AppendsFront (K.held sink.old) (K.held sink.new) line.bytes) }
    ensures cause { HasCause (K.faults sink.old) (K.faults sink.new) result }
{
    put_all(sink, line.as_bytes())
}

fn put_chains<K: Sink>(queue: u64, begun: &[Begun], sink: &mut K) -> Result<(), Failed>
    ensures ok { OnOk result (Appends (K.held sink.old) (K.held sink.new) (chain_lines queue 0 (lens_of begun.now))) }
    ensures err { OnErr result (AppendsFront (K.held sink.old) (K.held sink.new) (chain_lines queue 0 (lens_of begun.now))) }
    ensures cause { HasCause (K.faults sink.old) (K.faults sink.new) result }
{
    for chain in 0..begun.len() {
        match put_line(chain_line(queue, chain as u64, begun[chain].len), sink) {
            Ok(()) => {}
            Err(Failed) => return Err(Failed),
        }
    }
    Ok(())
}

/// Writes a line for each chain, unless the report is brief.
fn put_if_long<K: Sink>(
    brief: bool,
    queue: u64,
    begun: &[Begun],
    sink: &mut K,
) -> Result<(), Failed>
    ensures ok { OnOk result (Appends (K.held sink.old) (K.held sink.new)
        (if brief then [] else chain_lines queue 0 (lens_of begun.now))) }
    ensures err { OnErr result (AppendsFront (K.held sink.old) (K.held sink.new)
        (if brief then [] else chain_lines queue 0 (lens_of begun.now))) }
    ensures cause { HasCause (K.faults sink.old) (K.faults sink.new) result }
{
    if brief {
        return Ok(());
    }
    put_chains(queue, begun, sink)
}

/// Writes what the report says of one queue, by the lengths in its device's journal.
pub fn put_queue<K: Sink>(
    m: &Machine,
    brief: bool,
    queue: u64,
    journal: &Journal,
    sink: &mut K,
) -> Result<(), Failed>
    ensures ok { OnOk result (Appends (K.held sink.old) (K.held sink.new)
        (queue_lines (view m.now) brief queue (lens_of journal.now.begun.items))) }
    ensures err { OnErr result (AppendsFront (K.held sink.old) (K.held sink.new)
        (queue_lines (view m.now) brief queue (lens_of journal.now.begun.items))) }
    ensures cause { HasCause (K.faults sink.old) (K.faults sink.new) result }
{
    let count = journal.begun.len() as u64;
    let begun = journal.begun.as_slice();
    match put_line(queue_line(queue, count, sum_of(begun)), sink) {
        Ok(()) => {}
        Err(Failed) => return Err(Failed),
    }
    match put_if_long(brief, queue, begun, sink) {
        Ok(()) => {}
        Err(Failed) => return Err(Failed),
    }
    match put_epochs(queue, m.start, m.switches.as_slice(), count, sink) {
        Ok(()) => Ok(()),
        Err(Failed) => Err(Failed),
    }
}
