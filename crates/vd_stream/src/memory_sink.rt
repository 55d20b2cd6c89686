//! A sink in memory, which fails where it is told to.
ghost use Rattle.std.specs.Prelude.{◌≡◌, ◌+◌, ◌-◌, ◌<◌, ◌^◌, ◌==◌, ◌||◌, Some, [], IfOk, is_ok, not, min, length};
ghost use Rattle.std.specs.Io.KnownBytes.{WriteAppends};
ghost use Rattle.vd_stream.specs.Causes.{HasCause};
ghost use Rattle.vd_stream.specs.Sinks.{TakesSome};
ghost use Rattle.vd_stream.specs.Memory.{is_listed};

use crate::{Failed, Sink};
use std::alloc::{AllocError, Global};
use std::marker::Model;

/// A sink in memory, of fixed room. Contracts see what it holds, its room, which puts fail, and how many were made and failed.
#[derive(Drop)]
pub struct MemorySink {
    held: Vec<u8>,
    room: u32,
    fails: Vec<u32>,
    puts: u32,
    faults: u64,
}

impl Model for MemorySink {
    ghost use Rattle.std.specs.Prelude.{◌≤◌, length, vec_capacity};
    ghost use Rattle.vd_stream.specs.Memory.{Sink};

    ghost Value = { Sink };

    ghost view = { λ s. record { held = s.held.items; room = s.room; fails = s.fails.items; puts = s.puts; faults = s.faults } };

    ghost invariant = { λ s. (s.room ≤ vec_capacity s.held) × (length s.held.items ≤ s.room) };
}

impl MemorySink {
    /// An empty sink, with the memory for `room` bytes. The listed puts, counted from 1, fail, and those that find no
    /// room left.
    pub fn new(alloc: Global, room: u32, fails: &[u32]) -> Result<MemorySink, AllocError>
        ensures { IfOk result (λ s. s ≡ record { held = []; room = room; fails = fails.now; puts = 0; faults = 0 }) }
    {
        Ok(MemorySink {
            held: Vec::with_capacity(alloc, room as usize)?,
            room,
            fails: Vec::from_slice(alloc, fails)?,
            puts: 0,
            faults: 0,
        })
    }

    /// The bytes that it holds.
    pub fn held(&self) -> &[u8]
        ensures { result.now ≡ self.now.held }
    {
        self.held.as_slice()
    }
}

impl Sink for MemorySink {
    ghost held = { λ s. Some s.held };

    ghost faults = { λ s. s.faults };

    fn put(&mut self, bytes: &[u8]) -> Result<usize, Failed>
        requires { 0 < length bytes.now }
        ensures bound { TakesSome result bytes.now }
        ensures bytes { WriteAppends (Some self.old.held) (Some self.new.held) result bytes.now }
        ensures cause { HasCause self.old.faults self.new.faults result }
        // All bytes are taken, or as many as there is room.
        ensures count { IfOk result (λ n. n ≡ min (length bytes.now) (self.old.room - length self.old.held)) }
        // The listed puts fail, and those that find no room, and no other.
        ensures listed { is_ok result ≡ not (is_listed self.old.fails self.new.puts || (self.old.room == length self.old.held)) }
        ensures counted { self.new.puts ≡ min (self.old.puts + 1) (2 ^ 32 - 1) }
        ensures kept { (self.new.room ≡ self.old.room) × (self.new.fails ≡ self.old.fails) }
    {
        self.puts = self.puts.saturating_add(1);
        let room = self.room as usize - self.held.len();
        let count = bytes.len().min(room);
        if self.fails.contains(&self.puts)
            || room == 0
            || self.held.extend_from_slice(&bytes[..count]).is_err()
        {
            self.faults = self.faults.saturating_add(1);
            return Err(Failed);
        }
        Ok(count)
    }
}
