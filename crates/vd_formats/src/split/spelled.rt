//! Descriptors and tables in the lanes of a split ring (VIRTIO 1.2, 2.7.5).
use super::SplitFormat;
use crate::drawn::Drawn;

const NEXT: u32 = 1;

const WRITE: u32 = 2;

const INDIRECT: u32 = 4;

impl SplitFormat {
    /// A descriptor: an address, a length, flags and the next place.
    fn describe(&mut self, at: u32, addr: u64, len: u32, flags: u32, next: u32) {
        self.set_32(at, (addr & 0xffff_ffff) as u32);
        self.set_32(at.wrapping_add(2), (addr >> 32) as u32);
        self.set_32(at.wrapping_add(4), len);
        self.set(at.wrapping_add(6), flags);
        self.set(at.wrapping_add(7), next);
    }

    /// Piece `i` of a chain, in the descriptor at this lane.
    fn describe_piece(&mut self, at: u32, c: Drawn, i: u32, next: u32) {
        let piece = c.piece(i);
        let write = if piece.write { WRITE } else { 0 };
        if i.wrapping_add(1) < c.pieces() {
            self.describe(at, piece.addr, piece.len, write | NEXT, next);
        } else {
            self.describe(at, piece.addr, piece.len, write, 0);
        }
    }

    /// The descriptors of a chain at these places.
    fn spell_places(&mut self, c: Drawn, places: [u32; 4]) {
        for i in 0..c.pieces() {
            let at = places[(i & 3) as usize].wrapping_mul(8);
            let next = places[(i.wrapping_add(1) & 3) as usize];
            self.describe_piece(at, c, i, next);
        }
    }

    /// The table of a chain with this head, and the descriptor there, which names it.
    fn spell_table(&mut self, c: Drawn, head: u32) {
        let table = self.table(head);
        for i in 0..c.pieces() {
            let at = table.wrapping_add(i.wrapping_mul(8));
            self.describe_piece(at, c, i, i.wrapping_add(1));
        }
        // a lane has two bytes, a descriptor sixteen
        let addr = u64::from(table).wrapping_mul(2);
        let len = c.pieces().wrapping_mul(16);
        self.describe(head.wrapping_mul(8), addr, len, INDIRECT, 0);
    }

    pub(super) fn spell(&mut self, c: Drawn, places: [u32; 4]) {
        if c.tabled() {
            self.spell_table(c, places[0]);
        } else {
            self.spell_places(c, places);
        }
    }
}
