//! What the driver's side knows. No value of these types is made.
use crate::frame::{Frame, Put, Used};
use std::collections::LinkedList;
use vd_model::Piece;
use vd_words::Op;

/// What the driver has done.
pub enum DriverDone {
    Offer(LinkedList<Piece>),
    /// The entries that one step collected. The list isn't empty.
    Collect(LinkedList<Used>),
    StoreCommand { head: u32, half: u32, word: u64 },
    LoadAck { number: u32, word: u64 },
}

/// The operation in progress, with the words that it has stored or loaded, in order.
pub enum DriverNow {
    Idle,
    /// The stores of an offer so far: its table's, then its descriptors'.
    Offering(LinkedList<Put>),
    /// The same, and the ring entry is stored too (split).
    Entered(LinkedList<Put>),
    /// The look of a collect, then its entry's id word (split).
    Collecting(LinkedList<u64>),
    /// Published: the range, its end not included, whose event word is loaded next.
    Checking(u64, u64),
    /// The check of this range said Ring: the bell is stored next.
    Ringing(u64, u64),
    /// The event word is stored; the look is next.
    Arming,
    /// The disarming access of this operation, an arming or a hearing, is next.
    Disarming(Op),
}

pub struct DriverView {
    pub frame: Frame,
    /// The newest first.
    pub done: LinkedList<DriverDone>,
    /// What this side last stored in each word of the ring.
    pub stored: LinkedList<u64>,
    pub doing: DriverNow,
    /// The count (split) or position (packed) at which it is armed.
    pub armed: Option<u64>,
    /// The bell value heard last.
    pub heard: u64,
    /// How many bells it stored.
    pub bells: u64,
    /// How many used entries (split), or up to which position (packed), its last look showed. It never
    /// goes back.
    pub seen: u64,
    /// Its last look showed an entry that it has not collected since.
    pub shown: bool,
}
