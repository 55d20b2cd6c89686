//! The format of VIRTIO 1.2, 2.7, in lanes of 16 bits. One chain is published at a time, so an event index asks for a signal exactly where
//! it names that chain's entry.
mod areas;
mod spelled;

use crate::drawn::Drawn;
use crate::format::{Format, Side};
use crate::queue::Queue;
use vd_model::Features;

/// The places that a chain borrowed, the first one of them its head.
#[derive(Copy, Clone)]
struct Slot {
    count: u32,
    places: [u32; 4],
}

const EMPTY: Slot = Slot {
    count: 0,
    places: [0; 4],
};

/// A ring's lanes, what each chain borrowed, and the numbers of the next entries.
#[derive(Drop)]
pub struct SplitFormat {
    size: u32,
    indirect: bool,
    event_idx: bool,
    lanes: [u16; 2048],
    free: Queue,
    slots: [Slot; 8],
    // the next offer's, take's, give's and collect's
    avail: u32,
    next: u32,
    used: u32,
    back: u32,
}

impl SplitFormat {
    fn borrow_places(&mut self, count: u32) -> Slot {
        let mut places = [0; 4];
        for i in 0..count {
            places[(i & 3) as usize] = self.free.borrow_next();
        }
        Slot { count, places }
    }

    /// Where entry number `k` stands in a ring of entries.
    fn entry(&self, k: u32) -> u32 {
        k & self.size.wrapping_sub(1)
    }

    /// Whether the event word in a lane asks for a signal for entry number `k`: it names that entry, or its flag is clear.
    fn asks(&self, lane: u32, k: u32) -> bool {
        let event = self.lane(lane);
        if self.event_idx {
            event == (k & 0xffff) as u64
        } else {
            event & 1 == 0
        }
    }

    /// The lane by which a side says when it wants a signal.
    fn event(&self, side: Side) -> u32 {
        match side {
            Side::Driver => self.driver_event(),
            Side::Device => self.device_event(),
        }
    }
}

impl Format for SplitFormat {
    fn new(size: u32, f: Features) -> SplitFormat {
        SplitFormat {
            size,
            indirect: f.indirect,
            event_idx: f.event_idx,
            lanes: [0; 2048],
            free: Queue::all(size),
            slots: [EMPTY; 8],
            avail: 0,
            next: 0,
            used: 0,
            back: 0,
        }
    }

    fn words(&self) -> u32 {
        self.bells() >> 2
    }

    fn word(&self, i: u32) -> u64 {
        let at = i.wrapping_mul(4);
        self.lane(at)
            | self.lane(at.wrapping_add(1)) << 16
            | self.lane(at.wrapping_add(2)) << 32
            | self.lane(at.wrapping_add(3)) << 48
    }

    fn room(&self, descriptors: u32) -> bool {
        descriptors <= self.free.count
    }

    fn offer(&mut self, c: Drawn) -> (u32, bool) {
        let slot = self.borrow_places(c.descriptors());
        let head = slot.places[0];
        self.slots[(head & 7) as usize] = slot;
        self.spell(c, slot.places);
        let k = self.avail;
        let area = self.driver_area();
        let at = area.wrapping_add(2).wrapping_add(self.entry(k));
        self.set(at, head);
        self.avail = k.wrapping_add(1);
        self.set(area.wrapping_add(1), self.avail);
        (head, self.asks(self.device_event(), k))
    }

    fn take(&mut self, head: u32) {
        let _ = head;
        self.next = self.next.wrapping_add(1);
    }

    fn give(&mut self, head: u32, len: u32) -> bool {
        let k = self.used;
        let area = self.device_area();
        let at = area
            .wrapping_add(2)
            .wrapping_add(self.entry(k).wrapping_mul(4));
        self.set_32(at, head);
        self.set_32(at.wrapping_add(2), len);
        self.used = k.wrapping_add(1);
        self.set(area.wrapping_add(1), self.used);
        self.asks(self.driver_event(), k)
    }

    fn collect(&mut self, head: u32) {
        let slot = self.slots[(head & 7) as usize];
        for i in 0..slot.count {
            self.free.put_back(slot.places[(i & 3) as usize]);
        }
        self.back = self.back.wrapping_add(1);
    }

    fn rest(&mut self) {
        self.next = self.used;
    }

    fn base(&self) -> u32 {
        self.used & 0xffff
    }

    fn want_next(&mut self, side: Side) {
        let k = match side {
            Side::Driver => self.back,
            Side::Device => self.next,
        };
        self.set(self.event(side), if self.event_idx { k } else { 0 });
    }

    fn want_none(&mut self, side: Side) {
        if !self.event_idx {
            self.set(self.event(side), 1);
        }
    }
}
