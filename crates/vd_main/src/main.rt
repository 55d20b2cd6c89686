//! The program `vdpa`: reads a machine file from standard input, and writes its report or its canonical text to standard output.
#![tactic(auto)]

mod bench;
mod ending;

use bench::model_bench;
use ending::ended;
use std::alloc::{AllocError, Global};
use std::io::BufWriter;
use std::process::ExitCode;
use std::{env, io};
use vd_machine::MachineFault;
use vd_packed::Packed;
use vd_runner::{Status, vdpa};
use vd_split::Split;
use vd_stream::{MOST_BYTES, ReadSource, WriteSink};

/// The status with which the process ends.
fn number(status: Status) -> u8 {
    match status {
        Status::Ok => 0,
        Status::Usage => 1,
        Status::Machine(_) => 2,
        Status::ReadFault => 3,
        Status::WriteFault => 4,
        Status::DeviceFault(_) => 5,
        Status::TooLarge(_) => 6,
        Status::TooFewParties { .. } => 7,
        Status::Memory => 8,
    }
}

/// The number of a rule of the machine file.
fn rule(fault: MachineFault) -> u32 {
    match fault {
        MachineFault::M1 => 1,
        MachineFault::M2 => 2,
        MachineFault::M3 => 3,
        MachineFault::M4 => 4,
        MachineFault::M5 => 5,
        MachineFault::M6 => 6,
        MachineFault::M7 => 7,
        MachineFault::M8 => 8,
        MachineFault::M9 => 9,
        MachineFault::M10 => 10,
        MachineFault::M11 => 11,
        MachineFault::M12 => 12,
        MachineFault::M13 => 13,
        MachineFault::M14 => 14,
        MachineFault::M15 => 15,
        MachineFault::M16 => 16,
        MachineFault::M17 => 17,
    }
}

/// Writes the text of a status that isn't Ok to standard error.
fn explain(rt: &HostRuntime, status: Status) -> io::Result<()> {
    match status {
        Status::Ok => Ok(()),
        Status::Usage => eprintln!(rt; "vdpa: usage: vdpa play [--seed N] [--brief] | check"),
        Status::Machine(fault) => eprintln!(rt; "vdpa: machine file breaks rule M{}", rule(fault)),
        Status::ReadFault => eprintln!(rt; "vdpa: read fault"),
        Status::WriteFault => eprintln!(rt; "vdpa: write fault"),
        Status::DeviceFault(queue) => eprintln!(rt; "vdpa: device fault on queue {queue}"),
        Status::TooLarge(_) => eprintln!(rt;
            "vdpa: machine file is larger than {MOST_BYTES} bytes"
        ),
        Status::TooFewParties {
            need,
            guests,
            devices,
        } => eprintln!(rt;
            "vdpa: too few parties: need {need}, guests {guests}, devices {devices}"
        ),
        Status::Memory => eprintln!(rt; "vdpa: out of memory"),
    }
}

/// Runs the command that the words mean on standard input and output.
fn run(rt: &HostRuntime, alloc: Global) -> Result<Status, AllocError> {
    let Ok(args) = env::args(rt) else {
        return Ok(Status::Usage);
    };
    let mut texts = Vec::new(alloc);
    for arg in args.skip(1) {
        texts.push(arg)?;
    }
    let mut words = Vec::new(alloc);
    for text in &texts {
        words.push(text.as_str())?;
    }
    let mut split = model_bench::<Split>(alloc)?;
    let mut packed = model_bench::<Packed>(alloc)?;
    let mut source = ReadSource::new(rt.stdin());
    let Ok(out) = BufWriter::with_capacity(alloc, 65536, rt.stdout()) else {
        return Err(AllocError);
    };
    let mut sink = WriteSink::new(out);
    let status = vdpa(
        alloc,
        &words,
        &mut source,
        &mut sink,
        &mut split,
        &mut packed,
    );
    Ok(ended(status, sink.flush()))
}

fn main(rt: HostRuntime) -> ExitCode {
    let status = run(&rt, rt.alloc()).unwrap_or(Status::Memory);
    let _ = explain(&rt, status);
    ExitCode::from(number(status))
}
