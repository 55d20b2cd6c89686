//! A source and a sink that move one byte a call.
ghost use Rattle.std.specs.Prelude.{Some};

use crate::answers_tests::{FILE, REPORT};
use crate::benches::{Parties, models, no_parties};
use crate::commands::ending;
use std::test::*;
use vd_packed::Packed;
use vd_runner::Status;
use vd_split::Split;
use vd_stream::{Failed, MemorySink, MemorySource, Sink, Source};

/// A source that gives one byte a call.
#[derive(Drop)]
struct Dripping {
    inner: MemorySource,
}

impl Source for Dripping {
    ghost left = { λ s. Some s.inner.left };

    ghost faults = { λ s. s.inner.faults };

    fn take(&mut self, into: &mut [u8]) -> Result<usize, Failed> {
        self.inner.take(&mut into[..1])
    }
}

/// A sink that takes one byte a call.
#[derive(Drop)]
struct Narrow {
    inner: MemorySink,
}

impl Sink for Narrow {
    ghost held = { λ s. Some s.inner.held };

    ghost faults = { λ s. s.inner.faults };

    fn put(&mut self, bytes: &[u8]) -> Result<usize, Failed> {
        self.inner.put(&bytes[..1])
    }
}

#[test]
fn a_byte_a_call_serves(rt: HostRuntime) -> Result<(), Fail> {
    let alloc = rt.alloc();
    let mut source = Dripping {
        inner: MemorySource::new(alloc, FILE.as_bytes(), &[])?,
    };
    let mut sink = Narrow {
        inner: MemorySink::new(alloc, 200, &[])?,
    };
    let mut bench = models::<Split>(alloc, Parties::Models)?;
    let status = ending(
        alloc,
        &["play"],
        &mut source,
        &mut sink,
        &mut bench,
        &mut no_parties::<Packed>(alloc),
    );
    assert!(rt; status == Status::Ok);
    assert!(rt; sink.inner.held() == REPORT.as_bytes());
    Ok(())
}
