//! What a relay holds.
use crate::stage::Stage;
use vd_table::{Origin, Rows};

/// The device's end of the guest's ring and the driver's end of the shadow ring; where each chain on the shadow ring came from; what
/// comes next; and whether it winds up, until so many chains are collected.
#[derive(Drop)]
pub struct State<E, D> {
    pub guest: E,
    pub shadow: D,
    pub table: Rows<Origin>,
    pub stage: Stage,
    pub winding: bool,
    pub target: u32,
}
