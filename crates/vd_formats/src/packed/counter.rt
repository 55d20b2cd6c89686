//! Places in a packed ring with their wrap counters, and the event words that name them (VIRTIO 1.2, 2.8.10 and 2.8.14): an event word's
//! low half names a place and a wrap, its high half says whether each descriptor is signalled (0), none (1), or the one that it names (2).

/// A side's place in the ring and its wrap counter.
#[derive(Copy, Clone)]
pub struct Counter {
    pub place: u32,
    pub wrap: bool,
}

/// The first place of the first lap.
pub const START: Counter = Counter {
    place: 0,
    wrap: true,
};

impl Counter {
    pub fn step(self, size: u32) -> Counter {
        let next = self.place.wrapping_add(1);
        if next == size {
            Counter {
                place: 0,
                wrap: !self.wrap,
            }
        } else {
            Counter {
                place: next,
                wrap: self.wrap,
            }
        }
    }

    pub fn steps(self, count: u32, size: u32) -> Counter {
        let mut c = self;
        for _ in 0..count {
            c = c.step(size);
        }
        c
    }
}

/// The event word of a side that waits for the descriptor there.
pub fn waits(at: Counter) -> u32 {
    let wrap = if at.wrap { 1 << 15 } else { 0 };
    2 << 16 | wrap | at.place & 0x7fff
}

/// Whether an event word asks for a signal for so many descriptors from this one on.
pub fn asks(event: u32, first: Counter, count: u32, size: u32) -> bool {
    if event >> 16 & 3 == 0 {
        return true;
    }
    let mut at = first;
    for _ in 0..count {
        if event & 0x3_ffff == waits(at) {
            return true;
        }
        at = at.step(size);
    }
    false
}
