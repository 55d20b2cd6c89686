//! Parties for tests that record when they step.
ghost use Rattle.std.specs.Prelude.{◌≡◌};
ghost use Rattle.vd_played.specs.Through.{guest_through, device_through};
ghost use Rattle.vd_played.specs.laws.Through.{lawful_guest, lawful_device};

use arrayvec::ArrayVec;
use std::alloc::{AllocError, Global};
use std::cell::Cell;
use vd_bus::{Device, Guest, Journal, Order, Refused};
use vd_control::Settings;
use vd_layout::{Layout, Move};
use vd_model::{Return, Script};
use vd_words::Port;

/// When the first steps were made, by a clock that all parties share.
#[derive(Drop)]
pub struct Record<'a> {
    clock: &'a Cell<u32>,
    times: ArrayVec<u32, 64>,
}

impl<'a> Record<'a> {
    pub fn new(clock: &'a Cell<u32>) -> Record<'a> {
        Record {
            clock,
            times: ArrayVec::new(),
        }
    }

    /// The times of the first steps, at most 64.
    pub fn times(&self) -> &[u32] {
        &self.times
    }

    fn note(&mut self) {
        let now = self.clock.get();
        self.clock.set(now.wrapping_add(1));
        if !self.times.is_full() {
            self.times.push(now);
        }
    }
}

/// A guest that records when it steps.
#[derive(Drop)]
pub struct RecordingGuest<'a, G> {
    pub inner: G,
    pub record: Record<'a>,
}

impl<'a, L: Layout, G: Guest<L>> Guest<L> for RecordingGuest<'a, G> {
    ghost party = { guest_through (λ y. y.inner) G.party };

    ghost lawful = { lawful_guest L.Driver.driver (λ y. y.inner) G.party G.lawful };

    fn load(&mut self, alloc: Global, script: &Script) -> Result<(), AllocError> {
        self.inner.load(alloc, script)
    }

    fn boot(&mut self, end: L::Driver) {
        self.inner.boot(end);
    }

    fn step<P: Port>(&mut self, port: &mut P) -> Move {
        self.record.note();
        self.inner.step(port)
    }

    fn done(&self) -> bool {
        self.inner.done()
    }

    fn halt(&mut self) -> L::Driver {
        self.inner.halt()
    }

    fn offered(&self) -> u32 {
        self.inner.offered()
    }

    fn accesses(&self) -> u64 {
        self.inner.accesses()
    }

    fn heard(&self) -> u64 {
        self.inner.heard()
    }

    fn returned(&self) -> &[Return] {
        self.inner.returned()
    }
}

/// A device that records when it steps.
#[derive(Drop)]
pub struct RecordingDevice<'a, V> {
    pub inner: V,
    pub record: Record<'a>,
}

impl<'a, L: Layout, V: Device<L>> Device<L> for RecordingDevice<'a, V> {
    type Carried = V::Carried;

    ghost party = { device_through (λ y. y.inner) V.party };

    ghost lawful = { lawful_device L.Device.device (λ y. y.inner) V.party V.lawful };

    fn reserve(
        &mut self,
        alloc: Global,
        window: u32,
        events: u32,
        chains: u32,
    ) -> Result<(), AllocError> {
        self.inner.reserve(alloc, window, events, chains)
    }

    fn attach<'b>(
        &mut self,
        order: &Order,
        end: L::Device,
        control: Option<&'b Self>,
    ) -> Result<(), Refused<L>> {
        let inner: Option<&'b V> = match control {
            Some(other) => Some(&other.inner),
            None => None,
        };
        self.inner.attach(order, end, inner)
    }

    fn step<P: Port>(&mut self, port: &mut P) -> Move {
        self.record.note();
        self.inner.step(port)
    }

    fn done(&self) -> bool {
        self.inner.done()
    }

    fn suspend(&mut self) -> L::Device {
        self.inner.suspend()
    }

    fn accesses(&self) -> u64 {
        self.inner.accesses()
    }

    fn heard(&self) -> u64 {
        self.inner.heard()
    }

    fn reset(&mut self) {
        self.inner.reset();
    }

    fn journal(&self) -> &Journal {
        self.inner.journal()
    }

    fn settings(&self) -> &Settings {
        self.inner.settings()
    }

    fn faults(&self) -> u64 {
        self.inner.faults()
    }
}
