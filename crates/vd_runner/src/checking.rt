//! Reading a machine file and writing its canonical text.
ghost use Rattle.vd_runner.specs.Checking.{ChecksTo};

use crate::read::read_machine;
use crate::status::Status;
use std::alloc::Global;
use vd_stream::{Failed, Sink, Source, put_all};

/// Reads a machine file from the source and writes its canonical text to the sink.
pub fn check<S: Source, K: Sink>(alloc: Global, source: &mut S, sink: &mut K) -> Status
    ensures { ChecksTo (S.left source.old) (S.left source.new) (S.faults source.old) (S.faults source.new)
        (K.held sink.old) (K.held sink.new) (K.faults sink.old) (K.faults sink.new) result }
{
    let machine = match read_machine(alloc, source) {
        Ok(machine) => machine,
        Err(status) => return status,
    };
    let mut text = Vec::new(alloc);
    let Ok(()) = machine.print(alloc, &mut text) else {
        return Status::Memory;
    };
    match put_all(sink, &text) {
        Ok(()) => Status::Ok,
        Err(Failed) => Status::WriteFault,
    }
}
