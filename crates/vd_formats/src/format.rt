//! What is asked of a format: the words of a ring of up to 8 places, after each whole operation.
use crate::drawn::Drawn;
use vd_model::Features;

/// A side of a ring.
#[derive(Copy, Clone, PartialEq, Eq)]
pub enum Side {
    Driver,
    Device,
}

/// The words of a ring, but for the bells behind them. A chain is known by its head: the place of its first descriptor in a split ring,
/// its buffer id in a packed one.
pub trait Format: Drop {
    /// A fresh ring.
    fn new(size: u32, f: Features) -> Self;

    /// How many words there are.
    fn words(&self) -> u32;

    /// Word `i`.
    fn word(&self, i: u32) -> u64;

    /// Whether a chain of so many descriptors of the ring has room.
    fn room(&self, descriptors: u32) -> bool;

    /// The driver offers a chain: its head, and whether the device's event word asks for a signal.
    fn offer(&mut self, c: Drawn) -> (u32, bool);

    /// The device takes the next chain, which has this head.
    fn take(&mut self, head: u32);

    /// The device gives a chain: whether the driver's event word asks for a signal.
    fn give(&mut self, head: u32, len: u32) -> bool;

    /// The driver collects the next chain, which has this head.
    fn collect(&mut self, head: u32);

    /// The device takes back what it took and didn't give.
    fn rest(&mut self);

    /// The base of a ring that rests.
    fn base(&self) -> u32;

    /// The event word of a side that waits for the next chain.
    fn want_next(&mut self, side: Side);

    /// The event word of a side that wants no signal. With EVENT_IDX there is none, and the word stays.
    fn want_none(&mut self, side: Side);
}
