//! What the device's side knows. No value of these types is made.
use crate::frame::{Frame, Used};
use std::collections::LinkedList;
use vd_model::Piece;
use vd_words::Op;

/// What the device has done.
pub enum DeviceDone {
    /// A chain and its head.
    Take(LinkedList<Piece>, u32),
    /// The entries that one step gave. The list isn't empty.
    Give(LinkedList<Used>),
    /// The chains taken and not given were taken back.
    Rest,
    StoreAck { head: u32, word: u64 },
    LoadCommand { number: u32, half: u32, word: u64 },
}

/// The operation in progress, with the words that it has stored or loaded, in order.
pub enum DeviceNow {
    Idle,
    /// The loads of a take, from its look on.
    Taking(LinkedList<u64>),
    /// The stores of a give: its id word, then its length word (split).
    Giving(LinkedList<u64>),
    /// Published: the range, its end not included, whose event word is loaded next.
    Checking(u64, u64),
    /// The check of this range said Ring: the bell is stored next.
    Ringing(u64, u64),
    /// The event word is stored; the look is next.
    Arming,
    /// The disarming access of this operation, an arming or a hearing, is next.
    Disarming(Op),
    /// The first access of a rest is made; its look is next.
    Resting,
}

pub struct DeviceView {
    pub frame: Frame,
    /// The newest first.
    pub done: LinkedList<DeviceDone>,
    /// What this side last stored in each word of the ring.
    pub stored: LinkedList<u64>,
    pub doing: DeviceNow,
    /// The count (split) or position (packed) at which it is armed.
    pub armed: Option<u64>,
    /// The bell value heard last.
    pub heard: u64,
    /// How many bells it stored.
    pub bells: u64,
    /// How many chains (split), or up to which position (packed), the last index or descriptor loaded in a look showed, a rest's
    /// too. It never goes back.
    pub seen: u64,
    /// Its last look showed a chain that it has not taken since.
    pub shown: bool,
}
