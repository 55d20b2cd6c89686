//! What chains borrow, and who borrows next.

/// The places or ids of a ring that are free, the next one first.
#[derive(Drop)]
pub struct Queue {
    items: [u32; 8],
    size: u32,
    from: u32,
    pub count: u32,
}

impl Queue {
    /// All of a ring of so many places.
    pub fn all(size: u32) -> Queue {
        Queue {
            items: [0, 1, 2, 3, 4, 5, 6, 7],
            size,
            from: 0,
            count: size,
        }
    }

    /// Where entry `i` stands.
    fn at(&self, i: u32) -> u32 {
        let at = self.from.wrapping_add(i);
        if at >= self.size {
            at.wrapping_sub(self.size)
        } else {
            at
        }
    }

    /// The first one is borrowed.
    pub fn borrow_next(&mut self) -> u32 {
        let item = self.items[(self.from & 7) as usize];
        self.from = self.at(1);
        self.count = self.count.wrapping_sub(1);
        item
    }

    /// It comes back.
    pub fn put_back(&mut self, item: u32) {
        let at = self.at(self.count);
        self.items[(at & 7) as usize] = item;
        self.count = self.count.wrapping_add(1);
    }
}
