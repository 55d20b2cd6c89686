//! The device's end.
use crate::pieces::Pieces;
use vd_model::Features;

mod doze;
mod end;
mod give;
mod make;
mod running;
mod signal;
mod sleep;
mod table;
mod take;

/// What the next step does. A take has the index word that it loaded, its chain's head and the next descriptor's place, or, by a
/// table, the number of its pieces; a give has the chain's number and head, and the length. `Check` has the published range, its end not
/// included.
#[derive(Copy, Clone)]
pub enum DeviceStep {
    Idle,
    /// Idle, since a rest.
    Resting,
    Look,
    Entry(u64),
    Address(u64, u32, u32),
    Second(u64, u32, u32),
    TableAddress(u64, u32, u32),
    TableSecond(u64, u32, u32),
    StoreId(u32, u32, u32),
    StoreLen(u32, u32, u32),
    StoreIndex(u32, u32, u32),
    Check(u64, u64),
    Ring(u64, u64),
    Arm,
    LookAgain,
    Hear,
    WakeArming,
    WakeHearing,
    Disarm,
    Rest,
    RestLook,
}

/// The device's end of a split ring.
#[derive(Drop)]
pub struct SplitDevice {
    pub(crate) size: u32,
    pub(crate) features: Features,
    pub(crate) taken: u32,
    pub(crate) given: u32,
    // the places of the next ring entry and of the next used entry: the counts modulo the size
    pub(crate) entry: u32,
    pub(crate) used: u32,
    // the numbers of the running chains, by their heads
    pub(crate) running: Vec<Option<u32>>,
    // at the low bits of a number, the head of the chain taken last with these bits: where to look first
    pub(crate) guesses: Vec<u32>,
    // a copy of the device area, whose words hold several entries' parts
    pub(crate) area: Vec<u64>,
    pub(crate) shown: bool,
    // the place of the driver's bell; the own one is the next
    pub(crate) kick: u32,
    // whether it is armed, the bell heard last, and the number of bells stored
    pub(crate) armed: bool,
    pub(crate) heard: u64,
    pub(crate) bells: u64,
    // what a take has loaded so far
    pub(crate) pieces: Pieces,
    pub(crate) addr: u64,
    pub(crate) doing: DeviceStep,
}
