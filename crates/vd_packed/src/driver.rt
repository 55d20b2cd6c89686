//! The driver's end.
use crate::ring_position::RingPosition;
use arrayvec::ArrayVec;
use circular_buffer::HeapCircularBuffer;
use vd_model::{Features, Piece};

mod collect;
mod end;
mod ids;
pub(crate) mod make;
mod offer;
mod signal;
mod sleep;

/// What the next step does. `Describe` and `Table` have the number of words stored so far; `Check` the number of descriptors
/// published last, which end at the available position.
#[derive(Copy, Clone)]
pub enum DriverStep {
    Idle,
    Describe(u32),
    Table(u32),
    Publish,
    Look,
    Check(u32),
    Ring,
    Arm,
    LookAgain,
    Hear,
    WakeArming,
    WakeHearing,
    Disarm,
}

/// An open chain, kept at its id: its number, and how many descriptors it has.
#[derive(Copy, Clone)]
pub struct Slot {
    pub number: u32,
    pub count: u32,
}

/// The driver's end of a packed ring.
#[derive(Drop)]
pub struct PackedDriver {
    pub(crate) size: u32,
    pub(crate) features: Features,
    pub(crate) offered: u32,
    pub(crate) collected: u32,
    // where the next chain and the next used descriptor stand, and their positions
    pub(crate) next: RingPosition,
    pub(crate) used: RingPosition,
    pub(crate) next_position: u64,
    pub(crate) used_position: u64,
    // how many places the open chains leave
    pub(crate) space: u32,
    // the free ids, the next one first
    pub(crate) free: HeapCircularBuffer<u32>,
    pub(crate) slots: Vec<Slot>,
    // the place of the own bell; the device's is the next
    pub(crate) kick: u32,
    // whether it is armed, the bell heard last, and the number of bells stored
    pub(crate) armed: bool,
    pub(crate) heard: u64,
    pub(crate) bells: u64,
    // the chain of an offer in progress, and where its next descriptor stands, or the first after a table's
    pub(crate) pieces: ArrayVec<Piece, 16>,
    pub(crate) at: RingPosition,
    pub(crate) doing: DriverStep,
}
