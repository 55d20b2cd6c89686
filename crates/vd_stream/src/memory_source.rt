//! A source in memory, which fails where it is told to.
ghost use Rattle.std.specs.Prelude.{◌≡◌, ◌+◌, ◌-◌, ◌≤◌, ◌<◌, ◌^◌, ◌++◌, [], length, take, Some, IfOk, is_ok, not, min, drop};
ghost use Rattle.std.specs.Io.{ReadsAtMost};
ghost use Rattle.std.specs.Io.KnownBytes.{ReadConsumes};
ghost use Rattle.vd_stream.specs.Causes.{HasCause};
ghost use Rattle.vd_stream.specs.Memory.{is_listed};

use crate::{Failed, Source};
use std::alloc::{AllocError, Global};
use std::marker::Model;

/// Bytes in memory. Contracts see what is left of them, which takes fail, and how many were made and failed.
#[derive(Drop)]
pub struct MemorySource {
    bytes: Vec<u8>,
    at: usize,
    fails: Vec<u32>,
    takes: u32,
    faults: u64,
}

impl Model for MemorySource {
    ghost use Rattle.std.specs.Prelude.{◌≤◌, drop, length};
    ghost use Rattle.vd_stream.specs.Memory.{Source};

    ghost Value = { Source };

    ghost view = { λ s. record { left = drop s.at s.bytes.items; fails = s.fails.items; takes = s.takes; faults = s.faults } };

    ghost invariant = { λ s. s.at ≤ length s.bytes.items };
}

impl MemorySource {
    /// A source of these bytes. The listed takes, counted from 1, fail, and no other does.
    pub fn new(alloc: Global, bytes: &[u8], fails: &[u32]) -> Result<MemorySource, AllocError>
        ensures { IfOk result (λ s. s ≡ record { left = bytes.now; fails = fails.now; takes = 0; faults = 0 }) }
    {
        Ok(MemorySource {
            bytes: Vec::from_slice(alloc, bytes)?,
            at: 0,
            fails: Vec::from_slice(alloc, fails)?,
            takes: 0,
            faults: 0,
        })
    }
}

impl Source for MemorySource {
    ghost left = { λ s. Some s.left };

    ghost faults = { λ s. s.faults };

    fn take(&mut self, into: &mut [u8]) -> Result<usize, Failed>
        ensures bound { ReadsAtMost result into.new }
        ensures bytes { ReadConsumes (Some self.old.left) (Some self.new.left) result into.new }
        ensures cause { HasCause self.old.faults self.new.faults result }
        // The listed takes fail, and no other.
        ensures listed { is_ok result ≡ not (is_listed self.old.fails self.new.takes) }
        ensures counted { self.new.takes ≡ min (self.old.takes + 1) (2 ^ 32 - 1) }
        ensures kept { self.new.fails ≡ self.old.fails }
    {
        self.takes = self.takes.saturating_add(1);
        if self.fails.contains(&self.takes) {
            self.faults = self.faults.saturating_add(1);
            return Err(Failed);
        }
        let count = copy_front(&self.bytes, self.at, into);
        self.at += count;
        Ok(count)
    }
}

/// Copies what is left of the bytes from `at` on, as far as there is room, and answers how many.
fn copy_front(bytes: &[u8], at: usize, into: &mut [u8]) -> usize
    requires { at ≤ length bytes.now }
    ensures within { at + result ≤ length bytes.now }
    ensures bound { result ≤ length into.new }
    ensures copied { drop at bytes.now ≡ take result into.new ++ drop (at + result) bytes.now }
    ensures end { result ≡ 0 → 0 < length into.new → drop (at + result) bytes.now ≡ [] }
{
    let count = into.len().min(bytes.len() - at);
    into[..count].copy_from_slice(&bytes[at..at + count]);
    count
}
