//! The driver's end.
use crate::pieces::Pieces;
use crate::places::Places;
use circular_buffer::HeapCircularBuffer;
pub(crate) use make::kick_place;
pub(crate) use signal::wanted;
pub(crate) use sleep::{own_lane, own_value};
use vd_model::Features;

mod advance;
mod collect;
mod end;
mod make;
mod offer;
mod signal;
mod sleep;

/// What the next step does. `Describe` has the number of descriptor words stored so far, `Table` that of the words of a table and
/// of the descriptor that names it; `Find` and `Finish` have the words loaded. `Check` has the published range, its end not included.
#[derive(Copy, Clone)]
pub enum DriverStep {
    Idle,
    Describe(u32),
    Table(u32),
    Enter,
    Publish,
    Look,
    Find(u64),
    Finish(u64, u64),
    Check(u64, u64),
    Ring(u64, u64),
    Arm,
    LookAgain,
    Hear,
    WakeArming,
    WakeHearing,
    Disarm,
}

/// An open chain, kept at its head: its number, and its places in order.
#[derive(Drop)]
pub struct Slot {
    pub number: u32,
    pub places: Places,
}

/// A collected chain: its number, the length that the device wrote, and its head.
#[derive(Copy, Clone)]
pub struct Collected {
    pub number: u32,
    pub len: u32,
    pub head: u32,
}

/// What a step did. The chain of a collect is kept in the end, so that each step returns a small answer.
#[derive(Copy, Clone)]
pub enum DriverTold {
    Moved,
    Offered(u32),
    Collected,
    Nothing,
    Armed,
    Awake,
    Asleep,
}

/// The driver's end of a split ring.
#[derive(Drop)]
pub struct SplitDriver {
    pub(crate) size: u32,
    pub(crate) features: Features,
    pub(crate) offered: u32,
    pub(crate) collected: u32,
    // the places of the next ring entry and of the next used entry: the counts modulo the size
    pub(crate) entry: u32,
    pub(crate) used: u32,
    // the free places, the next one first
    pub(crate) free: HeapCircularBuffer<u32>,
    pub(crate) slots: Vec<Slot>,
    // a copy of the driver area, whose words hold several lanes
    pub(crate) area: Vec<u64>,
    pub(crate) shown: bool,
    // the place of the own bell; the other side's is the next one
    pub(crate) kick: u32,
    // whether it is armed, the bell heard last, and the number of bells stored
    pub(crate) armed: bool,
    pub(crate) heard: u64,
    pub(crate) bells: u64,
    // the chain of an offer in progress
    pub(crate) pieces: Pieces,
    // the chain collected last
    pub(crate) got: Collected,
    pub(crate) doing: DriverStep,
}
