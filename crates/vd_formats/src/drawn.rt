//! The chains of the tests, each drawn by its number.
use vd_model::{Chain, Piece};

/// The most pieces of a chain with a table.
pub const MOST_TABLED: u32 = 16;

/// The number of a chain, on a ring whose chains have so many pieces at most, in tables or not.
#[derive(Copy, Clone)]
pub struct Drawn {
    pub number: u32,
    pub most: u32,
    pub indirect: bool,
}

impl Drawn {
    /// How many pieces it has: 1 to 2, 4 or 16, and at most `most`.
    pub fn pieces(self) -> u32 {
        let mask = if self.most > 4 {
            15
        } else if self.most > 2 {
            3
        } else {
            1
        };
        let n = (mixed(self.number) & mask).wrapping_add(1);
        if n < self.most { n } else { self.most }
    }

    /// Its piece `i`.
    pub fn piece(self, i: u32) -> Piece {
        let x = mixed(self.number.wrapping_mul(4).wrapping_add(i));
        let last = i.wrapping_add(1) == self.pieces();
        Piece {
            addr: (x as u64) << 20,
            len: (x & 0xffff).wrapping_add(1),
            write: i >= mixed(self.number) >> 4 & 7 || (last && x & 1 == 1),
        }
    }

    /// Whether its pieces stand in a table.
    pub fn tabled(self) -> bool {
        self.indirect && self.pieces() > 1
    }

    /// How many descriptors of the ring it takes.
    pub fn descriptors(self) -> u32 {
        if self.indirect { 1 } else { self.pieces() }
    }

    pub fn chain(self) -> Chain {
        let mut c = Chain::new(self.piece(0));
        for i in 1..self.pieces() {
            let _ = c.push(self.piece(i));
        }
        c
    }

    /// Whether it is this chain.
    pub fn is(self, c: &Chain) -> bool {
        let pieces = c.pieces();
        if pieces.len() != self.pieces() as usize {
            return false;
        }
        for (i, p) in pieces.iter().enumerate() {
            if *p != self.piece((i & 15) as u32) {
                return false;
            }
        }
        true
    }
}

/// A number with its bits mixed.
pub fn mixed(k: u32) -> u32 {
    let x = (k ^ k >> 15).wrapping_mul(0x2c1b_3c6d);
    let y = (x ^ x >> 12).wrapping_mul(0x297a_2d39);
    y ^ y >> 15
}
