//! A device that takes chains up to its window, and then gives all of them back; where none is there it sleeps.
ghost use Rattle.std.specs.Prelude.{◌≡◌, ◌≤◌, true, false, None, [], length, min, OnOk, OnErr};
ghost use Rattle.vd_bus.specs.Scripts.{most_window};
ghost use Rattle.vd_models.specs.Unused.{IsUnused, IsWindow, HoldsAtMost};
ghost use Rattle.vd_models.specs.Holding.{HaveLens, capacity_of, journal_room};
ghost use Rattle.vd_models.specs.Phases.{Holds, PacesFree, attached_of, is_done_of, settings_of};
ghost use Rattle.vd_models.specs.laws.Laws.{held_law, serves_law, commanded_law, done_law, armed_law, pace_law};

use crate::commanding::{Commanding, command};
use crate::counts::{Counts, move_of};
use crate::serving::{Phase, Session, Stage, phase_of, serve, session_of};
use circular_buffer::HeapCircularBuffer;
use std::alloc::{AllocError, Global};
use std::mem::replace;
use vd_bus::{Attached, Device, Event, Journal, Order, Refused};
use vd_control::Settings;
use vd_layout::{DeviceEnd, Layout, Move};
use vd_words::Port;

/// How many chains a device may hold at once.
const MOST_WINDOW: u32 = 64;

/// A device that takes while fewer chains than its window are held. Where the window is full, all are begun, or no further
/// chain is there, it gives all that it holds: the one begun last first, under IN_ORDER the one begun first. Where none is there
/// and none is held it arms its end, and hears its bell until it wakes. The length that it gives is the smaller
/// of the chain's readable and writable bytes.
///
/// On the control queue it takes one chain, loads its two command words, executes the command, stores its ack, and gives it with the
/// length 1, before it takes the next.
#[derive(Drop)]
pub struct ModelDevice<L: Layout> {
    phase: Phase<L::Device>,
    window: u32,
    // the most chains that it holds, whatever its window
    most: u32,
    settings: Settings,
    journal: Journal,
    counts: Counts,
    ghost some: { 1 ≤ most },
    ghost sized: { capacity_of phase ≤ min window most },
    ghost lens: { HaveLens journal.begun.items },
    ghost paced: { PacesFree phase counts journal.begun.items journal.events.items },
}

impl<L: Layout> ModelDevice<L> {
    /// An unattached device with an empty journal. It takes no memory.
    pub fn new(alloc: Global, window: u32) -> ModelDevice<L>
        requires { IsWindow window }
        ensures unused { IsUnused ⟦<ModelDevice<L> as Device<L>>⟧.party result }
        ensures faults { ⟦<ModelDevice<L> as Device<L>>⟧.party.faults result ≡ 0 }
        ensures window { ⟦<ModelDevice<L> as Device<L>>⟧.party.window result ≡ window }
        ensures most { ⟦<ModelDevice<L> as Device<L>>⟧.party.carried result ≡ most_window }
    {
        ModelDevice::with_most(alloc, window, MOST_WINDOW)
    }

    /// The same, which holds one chain at a time, whatever its window.
    pub fn single(alloc: Global, window: u32) -> ModelDevice<L>
        requires { IsWindow window }
        ensures unused { IsUnused ⟦<ModelDevice<L> as Device<L>>⟧.party result }
        ensures faults { ⟦<ModelDevice<L> as Device<L>>⟧.party.faults result ≡ 0 }
        ensures window { ⟦<ModelDevice<L> as Device<L>>⟧.party.window result ≡ window }
        ensures most { ⟦<ModelDevice<L> as Device<L>>⟧.party.carried result ≡ 1 }
    {
        ModelDevice::with_most(alloc, window, 1)
    }

    fn with_most(alloc: Global, window: u32, most: u32) -> ModelDevice<L>
        requires { 1 ≤ most }
        ensures unused { IsUnused ⟦<ModelDevice<L> as Device<L>>⟧.party result }
        ensures window { result.window ≡ window }
        ensures most { result.most ≡ most }
    {
        ModelDevice {
            phase: Phase::Unreserved,
            window,
            most,
            settings: Settings::new(),
            journal: Journal::new(alloc),
            counts: Counts::new(),
        }
    }

    /// The window that was reserved. It holds at most so many chains, and no more than `most`, at a time. What it has begun has
    /// the smaller of the readable and the writable bytes as its length, and no attach of it is refused.
    pub fn window(&self) -> u32
        ensures window { result ≡ ⟦<ModelDevice<L> as Device<L>>⟧.party.window self.now }
        ensures holds { HoldsAtMost ⟦<ModelDevice<L> as Device<L>>⟧.party self.now (min result
            (⟦<ModelDevice<L> as Device<L>>⟧.party.carried self.now)) }
        ensures lens { HaveLens (⟦<ModelDevice<L> as Device<L>>⟧.party.begun self.now) }
        ensures faultless { ⟦<ModelDevice<L> as Device<L>>⟧.party.faults self.now ≡ 0 }
    {
        self.window
    }
}

impl<L: Layout> Device<L> for ModelDevice<L> {
    /// The most chains that it holds, whatever its window.
    type Carried = u32;

    ghost party = { record {
      events = λ m. m.journal.events.items;
      begun = λ m. m.journal.begun.items;
      event_room = λ m. journal_room m.phase m.journal.events.room;
      chain_room = λ m. m.journal.begun.room;
      settings = λ m. m.settings;
      attached_with = λ m. settings_of m.phase m.settings;
      faults = λ m. 0;
      window = λ m. m.window;
      carried = λ m. m.most;
      attached = λ m. attached_of m.phase;
      holds = λ m w. Holds L.Device.device m.phase m.journal m.counts m.settings w;
      is_done = λ m. is_done_of m.phase ≡ true;
      accesses = λ m. m.counts.accesses;
      heard = λ m. m.counts.heard;
    } };

    ghost lawful = { record {
      held = λ x w h. held_law L.Device.device x.phase x.journal x.counts x.settings w h;
      serves = λ x w a h is d. serves_law L.Device.device x.phase x.journal x.counts x.settings w a h is d;
      commanded = λ x w a h is c. commanded_law L.Device.device x.phase x.journal x.counts x.settings w a h is c;
      done = λ x w a h is d. done_law L.Device.device L.Device.device_lawful x.phase x.journal x.counts x.settings w a h is d;
      armed = λ x w a h is. armed_law L.Device.device x.phase x.journal x.counts x.settings w a h is;
      pace = λ x w a h is. pace_law L.Device.device x.phase x.journal x.counts x.settings w a h is;
      pace_free = λ x is. x.paced is;
    } };

    fn reserve(
        &mut self,
        alloc: Global,
        window: u32,
        events: u32,
        chains: u32,
    ) -> Result<(), AllocError> {
        let most = window.min(self.most);
        let held = HeapCircularBuffer::with_capacity(alloc, most as usize)?;
        self.journal.events.reserve(events as usize)?;
        self.journal.begun.reserve(chains as usize)?;
        self.phase = Phase::Free(held);
        self.window = window;
        Ok(())
    }

    fn attach(
        &mut self,
        order: &Order,
        end: L::Device,
        control: Option<&Self>,
    ) -> Result<(), Refused<L>> {
        let mut end = end;
        if end.resume(order.base()).is_err() {
            unreachable!()
        }
        let settings = match control {
            Some(device) => device.settings,
            None => Settings::new(),
        };
        let at = self.journal.begun.len() as u32;
        self.journal.events.push(Event::Attach {
            at,
            ring: order.ring(),
            base: order.base(),
            mode: order.mode(),
            settings,
            map: order.map().copy(),
        });
        let Phase::Free(mut held) = replace(&mut self.phase, Phase::Unreserved) else {
            unreachable!()
        };
        held.clear();
        let by = Attached {
            queue: order.queue(),
            count: order.count(),
            at,
            from: end.taken(),
        };
        let session = Session {
            end,
            by,
            stage: Stage::Taking,
            held,
        };
        self.phase = phase_of(session, self.settings);
        Ok(())
    }

    #[inline(always)]
    fn step<P: Port>(&mut self, port: &mut P) -> Move {
        match &mut self.phase {
            Phase::Serving(session) => {
                let turn = serve::<L, P>(session, &mut self.journal.begun, port);
                let done = session.stage.is_done();
                self.counts.note(turn);
                move_of(turn, done)
            }
            Phase::Commanding(commanding) => {
                let Commanding { session, hand, .. } = commanding;
                let begun = &mut self.journal.begun;
                let turn = command::<L, P>(session, hand, begun, &mut self.settings, port);
                let done = session.stage.is_done();
                self.counts.note(turn);
                move_of(turn, done)
            }
            _ => unreachable!(),
        }
    }

    #[inline(always)]
    fn done(&self) -> bool {
        match &self.phase {
            Phase::Serving(session) => session.stage.is_done(),
            _ => self.phase.is_done(),
        }
    }

    fn suspend(&mut self) -> L::Device {
        let phase = replace(&mut self.phase, Phase::Unreserved);
        let Session { end, held, .. } = session_of(phase);
        self.phase = Phase::Free(held);
        let at = self.journal.begun.len() as u32;
        let base = end.base();
        self.journal.events.push(Event::Suspend { at, base });
        end
    }

    fn reset(&mut self) {
        let at = self.journal.begun.len() as u32;
        self.journal.events.push(Event::Reset { at });
        self.settings = Settings::new();
    }

    fn journal(&self) -> &Journal {
        &self.journal
    }

    fn settings(&self) -> &Settings {
        &self.settings
    }

    fn faults(&self) -> u64 {
        0
    }

    fn accesses(&self) -> u64 {
        self.counts.accesses
    }

    fn heard(&self) -> u64 {
        self.counts.heard
    }
}
