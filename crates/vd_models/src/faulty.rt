//! A device that refuses one of its attaches.
ghost use Rattle.std.specs.Prelude.{◌≡◌, ◌≤◌, ◌<◌, ◌+◌, ◌-◌, ◌^◌, ◌↔◌, None, true, length, IsErr, MatchResult};
ghost use Rattle.std.specs.Option.{option_copied};
ghost use Rattle.vd_layout.specs.Device.{IsStill};
ghost use Rattle.vd_bus.specs.Device.{IsAttach, IsRefused};
ghost use Rattle.vd_models.specs.Holding.{journal_room};
ghost use Rattle.vd_models.specs.Phases.{Holds, attached_of, is_done_of, settings_of};
ghost use Rattle.vd_models.specs.laws.Laws.{held_law, serves_law, commanded_law, done_law, armed_law, pace_law};
ghost use Rattle.vd_models.specs.Faulty.{asked, was_refused, IsAround, RefusesNext, refusals};

use crate::device::ModelDevice;
use crate::refusal::{Refusal, was_refused};
use std::alloc::{AllocError, Global};
use vd_bus::{Device, Journal, Order, Refused};
use vd_control::Settings;
use vd_layout::{Layout, Move};
use vd_words::Port;

/// A model device that refuses the attach of one number, counted from 1, and no other.
#[derive(Drop)]
pub struct FaultyDevice<L: Layout> {
    inner: ModelDevice<L>,
    refusal: Refusal,
    // how many attaches are asked until it is refused, that one among them; 0 after it
    left: u32,
    ghost after: { refusal.after ≤ length inner.journal.events.items },
    ghost counted: { left ≡ refusal.number - asked refusal inner.journal.events.items (was_refused refusal.number left) },
}

impl<L: Layout> FaultyDevice<L> {
    /// The device that refuses attach number `fails`.
    pub fn new(inner: ModelDevice<L>, fails: u32) -> FaultyDevice<L>
        ensures around { IsAround ⟦<FaultyDevice<L> as Device<L>>⟧.party ⟦<ModelDevice<L> as Device<L>>⟧.party result inner }
        ensures faults { ⟦<FaultyDevice<L> as Device<L>>⟧.party.faults result ≡ 0 }
        ensures number { (⟦<FaultyDevice<L> as Device<L>>⟧.party.carried result).number ≡ fails }
    {
        let after = inner.journal().events.len() as u32;
        FaultyDevice {
            inner,
            refusal: Refusal {
                number: fails,
                after,
            },
            left: fails,
        }
    }
}

impl<L: Layout> Device<L> for FaultyDevice<L> {
    /// Which attach it refuses.
    type Carried = Refusal;

    ghost party = { record {
      events = λ m. m.inner.journal.events.items;
      begun = λ m. m.inner.journal.begun.items;
      event_room = λ m. journal_room m.inner.phase m.inner.journal.events.room;
      chain_room = λ m. m.inner.journal.begun.room;
      settings = λ m. m.inner.settings;
      attached_with = λ m. settings_of m.inner.phase m.inner.settings;
      faults = λ m. was_refused m.refusal.number m.left;
      window = λ m. m.inner.window;
      carried = λ m. m.refusal;
      attached = λ m. attached_of m.inner.phase;
      holds = λ m w. Holds L.Device.device m.inner.phase m.inner.journal m.inner.counts m.inner.settings w;
      is_done = λ m. is_done_of m.inner.phase ≡ true;
      accesses = λ m. m.inner.counts.accesses;
      heard = λ m. m.inner.counts.heard;
    } };

    ghost lawful = { record {
      held = λ x w h. held_law L.Device.device x.inner.phase x.inner.journal x.inner.counts x.inner.settings w h;
      serves = λ x w a h is d. serves_law L.Device.device x.inner.phase x.inner.journal x.inner.counts x.inner.settings w a h is d;
      commanded = λ x w a h is c. commanded_law L.Device.device x.inner.phase x.inner.journal x.inner.counts x.inner.settings w a h is c;
      done = λ x w a h is d. done_law L.Device.device L.Device.device_lawful x.inner.phase x.inner.journal x.inner.counts
          x.inner.settings w a h is d;
      armed = λ x w a h is. armed_law L.Device.device x.inner.phase x.inner.journal x.inner.counts x.inner.settings w a h is;
      pace = λ x w a h is. pace_law L.Device.device x.inner.phase x.inner.journal x.inner.counts x.inner.settings w a h is;
      pace_free = λ x is. x.inner.paced is;
    } };

    fn reserve(
        &mut self,
        alloc: Global,
        window: u32,
        events: u32,
        chains: u32,
    ) -> Result<(), AllocError> {
        self.inner.reserve(alloc, window, events, chains)
    }

    fn attach(
        &mut self,
        order: &Order,
        end: L::Device,
        control: Option<&Self>,
    ) -> Result<(), Refused<L>>
        requires free { ⟦<FaultyDevice<L> as Device<L>>⟧.party.attached self.old ≡ None }
        requires events { 2 ≤ ⟦<FaultyDevice<L> as Device<L>>⟧.party.event_room self.old }
        requires chains { order.now.count ≤ ⟦<FaultyDevice<L> as Device<L>>⟧.party.chain_room self.old }
        requires few { length (⟦<FaultyDevice<L> as Device<L>>⟧.party.begun self.old) + order.now.count < 2 ^ 32 }
        requires still { IsStill L.Device.device end }
        requires base { L.Device.device.base end ≡ order.now.base.0 }
        ensures does { MatchResult
            result
            (λ _. IsAttach L.Device.device ⟦<FaultyDevice<L> as Device<L>>⟧.party order.now
            (option_copied control.entry) end self.old self.new)
            (λ r. (r.end ≡ end) × IsRefused ⟦<FaultyDevice<L> as Device<L>>⟧.party self.old self.new) }
        ensures refused { IsErr result ↔ RefusesNext ⟦<FaultyDevice<L> as Device<L>>⟧.party self.old }
    {
        if self.left == 1 {
            self.left = 0;
            return Err(Refused { end });
        }
        self.left = self.left.saturating_sub(1);
        let control = match control {
            Some(device) => Some(&device.inner),
            None => None,
        };
        self.inner.attach(order, end, control)
    }

    fn step<P: Port>(&mut self, port: &mut P) -> Move {
        self.inner.step(port)
    }

    fn done(&self) -> bool {
        self.inner.done()
    }

    fn suspend(&mut self) -> L::Device {
        self.inner.suspend()
    }

    fn reset(&mut self) {
        self.inner.reset();
    }

    fn journal(&self) -> &Journal {
        self.inner.journal()
    }

    fn settings(&self) -> &Settings {
        self.inner.settings()
    }

    fn faults(&self) -> u64
        ensures value { result ≡ ⟦<FaultyDevice<L> as Device<L>>⟧.party.faults self.now }
        ensures refused { result ≡ refusals ⟦<FaultyDevice<L> as Device<L>>⟧.party self.now result }
    {
        was_refused(self.refusal.number, self.left)
    }

    fn accesses(&self) -> u64 {
        self.inner.accesses()
    }

    fn heard(&self) -> u64 {
        self.inner.heard()
    }
}
