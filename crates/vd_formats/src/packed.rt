//! The format of VIRTIO 1.2, 2.8, in the fields of descriptors.
mod counter;
mod descriptor;

use crate::drawn::Drawn;
use crate::format::{Format, Side};
use crate::queue::Queue;
use counter::{Counter, START, asks, waits};
use descriptor::{AVAIL, Descriptor, EMPTY, INDIRECT, NEXT, USED, WRITE};
use vd_model::Features;

/// The event word of a side that wants no signal.
const DISABLE: u32 = 1 << 16;

/// A ring's descriptors, tables and event words, what each chain borrowed, and where the next descriptors stand.
#[derive(Drop)]
pub struct PackedFormat {
    size: u32,
    indirect: bool,
    event_idx: bool,
    ring: [Descriptor; 8],
    // the table of each id, of 16 descriptors
    tables: [Descriptor; 128],
    driver_event: u32,
    device_event: u32,
    // the free ids, how many descriptors each id's chain has, and how many no chain has
    free: Queue,
    counts: [u32; 8],
    space: u32,
    // the next offer's, take's, give's and collect's
    avail: Counter,
    next: Counter,
    used: Counter,
    back: Counter,
}

impl PackedFormat {
    /// Where the tables begin, behind the descriptors and the event words.
    fn tables_start(&self) -> u32 {
        self.size.wrapping_mul(2).wrapping_add(2)
    }

    /// Word `i` of the tables.
    fn table_word(&self, i: u32) -> u64 {
        self.tables[(i >> 1 & 127) as usize].half(i & 1 == 1)
    }

    /// The next descriptor, with AVAIL and USED of its lap.
    fn make_available(&mut self, id: u32, addr: u64, len: u32, flags: u16) {
        let made = if self.avail.wrap { AVAIL } else { USED };
        self.ring[(self.avail.place & 7) as usize] = Descriptor {
            addr,
            len,
            id: (id & 0xffff) as u16,
            flags: flags | made,
        };
        self.avail = self.avail.step(self.size);
    }

    /// The descriptors of a chain.
    fn spell_ring(&mut self, c: Drawn, id: u32) {
        let n = c.pieces();
        for i in 0..n {
            let piece = c.piece(i);
            let next = if i.wrapping_add(1) < n { NEXT } else { 0 };
            let write = if piece.write { WRITE } else { 0 };
            self.make_available(id, piece.addr, piece.len, next | write);
        }
    }

    /// The table of a chain, and the descriptor that names it.
    fn spell_table(&mut self, c: Drawn, id: u32) {
        let n = c.pieces();
        for i in 0..n {
            let piece = c.piece(i);
            let at = id.wrapping_mul(16).wrapping_add(i);
            self.tables[(at & 127) as usize] = Descriptor {
                addr: piece.addr,
                len: piece.len,
                id: 0,
                flags: if piece.write { WRITE } else { 0 },
            };
        }
        let table = self.tables_start().wrapping_add(id.wrapping_mul(32));
        let addr = u64::from(table).wrapping_mul(8);
        self.make_available(id, addr, n.wrapping_mul(16), INDIRECT);
    }

    fn count_of(&self, id: u32) -> u32 {
        self.counts[(id & 7) as usize]
    }

    fn set_event(&mut self, side: Side, event: u32) {
        match side {
            Side::Driver => self.driver_event = event,
            Side::Device => self.device_event = event,
        }
    }
}

impl Format for PackedFormat {
    fn new(size: u32, f: Features) -> PackedFormat {
        PackedFormat {
            size,
            indirect: f.indirect,
            event_idx: f.event_idx,
            ring: [EMPTY; 8],
            tables: [EMPTY; 128],
            driver_event: 0,
            device_event: 0,
            free: Queue::all(size),
            counts: [0; 8],
            space: size,
            avail: START,
            next: START,
            used: START,
            back: START,
        }
    }

    fn words(&self) -> u32 {
        let tables = if self.indirect {
            self.size.wrapping_mul(32)
        } else {
            0
        };
        self.tables_start().wrapping_add(tables)
    }

    /// The bytes of two words a descriptor, the lowest first; behind them the event words and the tables.
    fn word(&self, i: u32) -> u64 {
        let end = self.size.wrapping_mul(2);
        if i < end {
            self.ring[(i >> 1 & 7) as usize].half(i & 1 == 1)
        } else if i == end {
            self.driver_event as u64
        } else if i == end.wrapping_add(1) {
            self.device_event as u64
        } else {
            self.table_word(i.wrapping_sub(self.tables_start()))
        }
    }

    fn room(&self, descriptors: u32) -> bool {
        descriptors <= self.space
    }

    fn offer(&mut self, c: Drawn) -> (u32, bool) {
        let id = self.free.borrow_next();
        let count = c.descriptors();
        self.counts[(id & 7) as usize] = count;
        self.space = self.space.wrapping_sub(count);
        let first = self.avail;
        if c.tabled() {
            self.spell_table(c, id);
        } else {
            self.spell_ring(c, id);
        }
        (id, asks(self.device_event, first, count, self.size))
    }

    fn take(&mut self, id: u32) {
        self.next = self.next.steps(self.count_of(id), self.size);
    }

    fn give(&mut self, id: u32, len: u32) -> bool {
        let first = self.used;
        let at = (first.place & 7) as usize;
        let write = if len == 0 { 0 } else { WRITE };
        let made = if first.wrap { AVAIL | USED } else { 0 };
        self.ring[at].len = len;
        self.ring[at].id = (id & 0xffff) as u16;
        self.ring[at].flags = write | made;
        let count = self.count_of(id);
        self.used = first.steps(count, self.size);
        asks(self.driver_event, first, count, self.size)
    }

    fn collect(&mut self, id: u32) {
        self.free.put_back(id);
        let count = self.count_of(id);
        self.space = self.space.wrapping_add(count);
        self.back = self.back.steps(count, self.size);
    }

    fn rest(&mut self) {
        self.next = self.used;
    }

    fn base(&self) -> u32 {
        let wrap = if self.next.wrap { 1 << 15 } else { 0 };
        let used = if self.used.wrap { 1 << 31 } else { 0 };
        self.next.place | wrap | self.used.place << 16 | used
    }

    fn want_next(&mut self, side: Side) {
        let at = match side {
            Side::Driver => self.back,
            Side::Device => self.next,
        };
        self.set_event(side, if self.event_idx { waits(at) } else { 0 });
    }

    fn want_none(&mut self, side: Side) {
        if !self.event_idx {
            self.set_event(side, DISABLE);
        }
    }
}
