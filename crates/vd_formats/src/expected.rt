//! A ring as its format has it: the words, and who holds which chain.
use crate::drawn::{Drawn, MOST_TABLED};
use crate::format::{Format, Side};
use crate::sleepers::{AWAKE, Sleeper};
use vd_model::Features;

/// What stands in a ring, and who holds what. Heads are below 8.
#[derive(Drop)]
pub struct Expected<F: Format> {
    pub format: F,
    indirect: bool,
    most: u32,
    pub driver: Sleeper,
    pub device: Sleeper,
    // the chain of each head, and the heads of the chains offered by their numbers
    numbers: [u32; 8],
    shown: [u32; 8],
    // the heads of the chains taken and not given, in the order of their takes
    running: [u32; 8],
    runs: u32,
    // the heads and lengths of the chains given
    back: [(u32, u32); 8],
    pub offered: u32,
    pub taken: u32,
    pub given: u32,
    pub collected: u32,
}

impl<F: Format> Expected<F> {
    /// A fresh ring.
    pub fn new(size: u32, f: Features) -> Expected<F> {
        Expected {
            format: F::new(size, f),
            indirect: f.indirect,
            most: if f.indirect {
                MOST_TABLED
            } else if size < 4 {
                size
            } else {
                4
            },
            driver: AWAKE,
            device: AWAKE,
            numbers: [0; 8],
            shown: [0; 8],
            running: [0; 8],
            runs: 0,
            back: [(0, 0); 8],
            offered: 0,
            taken: 0,
            given: 0,
            collected: 0,
        }
    }

    /// How many words there are, with both bells.
    pub fn words(&self) -> u32 {
        self.format.words().wrapping_add(2)
    }

    /// Word `i`.
    pub fn word(&self, i: u32) -> u64 {
        let bells = self.format.words();
        if i < bells {
            self.format.word(i)
        } else if i == bells {
            self.driver.bells as u64
        } else {
            self.device.bells as u64
        }
    }

    /// Chain number `k`.
    pub fn drawn(&self, number: u32) -> Drawn {
        Drawn {
            number,
            most: self.most,
            indirect: self.indirect,
        }
    }

    /// How many chains were offered, collected, taken and given.
    pub fn counts(&self) -> (u32, u32, u32, u32) {
        (self.offered, self.collected, self.taken, self.given)
    }

    /// Whether the next chain has room.
    pub fn room(&self) -> bool {
        self.format.room(self.drawn(self.offered).descriptors())
    }

    pub fn offer(&mut self) {
        let k = self.offered;
        let c = self.drawn(k);
        let (head, rings) = self.format.offer(c);
        self.numbers[(head & 7) as usize] = k;
        self.shown[(k & 7) as usize] = head;
        self.offered = k.wrapping_add(1);
        if rings {
            self.ring(Side::Driver);
        }
    }

    pub fn take(&mut self) {
        let head = self.shown[(self.taken & 7) as usize];
        self.running[(self.runs & 7) as usize] = head;
        self.runs = self.runs.wrapping_add(1);
        self.format.take(head);
        self.taken = self.taken.wrapping_add(1);
    }

    /// How many chains run.
    pub fn runs(&self) -> u32 {
        self.runs
    }

    /// The number of the `j`th of the running chains.
    pub fn running(&self, j: u32) -> u32 {
        self.numbers[(self.running[(j & 7) as usize] & 7) as usize]
    }

    /// The `j`th of the running chains stops.
    fn stop(&mut self, j: u32) -> u32 {
        let head = self.running[(j & 7) as usize];
        for i in 0..7u32 {
            if i >= j {
                self.running[(i & 7) as usize] = self.running[(i.wrapping_add(1) & 7) as usize];
            }
        }
        self.runs = self.runs.wrapping_sub(1);
        head
    }

    /// The `j`th of the running chains is given.
    pub fn give(&mut self, j: u32, len: u32) {
        let head = self.stop(j);
        self.back[(self.given & 7) as usize] = (head, len);
        self.given = self.given.wrapping_add(1);
        if self.format.give(head, len) {
            self.ring(Side::Device);
        }
    }

    /// The number, the length and the head of the chain that comes back next.
    pub fn collect(&mut self) -> (u32, u32, u32) {
        let (head, len) = self.back[(self.collected & 7) as usize];
        self.format.collect(head);
        self.collected = self.collected.wrapping_add(1);
        (self.numbers[(head & 7) as usize], len, head)
    }

    /// Whether the chains given are those with a number below their count.
    pub fn whole(&self) -> bool {
        for j in 0..8u32 {
            if j < self.runs && self.running(j) < self.given {
                return false;
            }
        }
        true
    }

    pub fn rest(&mut self) {
        self.taken = self.given;
        self.runs = 0;
        self.format.rest();
        self.disarm(Side::Device);
    }
}
