//! The device's end.
use crate::ring_position::RingPosition;
use arrayvec::ArrayVec;
use vd_model::{Features, Piece};

mod end;
mod give;
mod loaded;
mod make;
mod rest;
pub(crate) mod running;
mod signal;
mod sleep;
mod table;
mod take;

/// What the next step does. A give has the chain's number and head, and the length; `Check` the number of descriptors given last,
/// which end at the used position.
#[derive(Copy, Clone)]
pub enum DeviceStep {
    Idle,
    /// Idle, since a rest.
    Resting,
    Look,
    Address,
    Second,
    /// A word of a table is next: a piece's address, or the second word of the piece at this address.
    TableAddress,
    TableSecond(u64),
    Give(u32, u32, u32),
    Check(u32),
    Ring,
    Arm,
    LookAgain,
    Hear,
    WakeArming,
    WakeHearing,
    Disarm,
    Rest,
    RestLook,
}

/// The device's end of a packed ring.
#[derive(Drop)]
pub struct PackedDevice {
    pub(crate) size: u32,
    pub(crate) features: Features,
    pub(crate) taken: u32,
    pub(crate) given: u32,
    // where the next chain and the next used descriptor stand, and their positions
    pub(crate) next: RingPosition,
    pub(crate) used: RingPosition,
    pub(crate) next_position: u64,
    pub(crate) used_position: u64,
    // the numbers of the running chains, and how many descriptors each has, by their ids
    pub(crate) running: Vec<Option<u32>>,
    pub(crate) counts: Vec<u32>,
    // at the low bits of a number, the id of the chain taken last with these bits: where to look first
    pub(crate) guesses: Vec<u32>,
    // the place of the driver's bell; the own one is the next
    pub(crate) kick: u32,
    // whether it is armed, the bell heard last, and the number of bells stored
    pub(crate) armed: bool,
    pub(crate) heard: u64,
    pub(crate) bells: u64,
    // what a take has loaded so far: whole pieces, and the second word of the descriptor at this ring_position; of a table, the second
    // word of the descriptor before this ring_position, which names it
    pub(crate) pieces: ArrayVec<Piece, 16>,
    pub(crate) second: u64,
    pub(crate) at: RingPosition,
    pub(crate) doing: DeviceStep,
}
