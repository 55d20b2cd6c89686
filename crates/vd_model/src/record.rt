//! What a guest is to offer, and what a device and a guest record of each chain.
use crate::Chain;
use arrayvec::ArrayVec;
use sqlite_items::Items;

/// A chain as a device began it, with its raw addresses.
#[derive(Drop)]
pub struct Begun {
    pub chain: Chain,
    /// The length given, in bytes.
    pub len: u32,
    /// The command on a control queue; empty on a data queue.
    pub bytes: ArrayVec<u8, 10>,
}

/// A chain as its guest got it back.
#[derive(Copy, Clone, Debug, PartialEq, Eq)]
pub struct Return {
    /// The chain's number: how many were offered on its queue before it.
    pub number: u32,
    /// The length that the device gave, in bytes.
    pub len: u32,
    /// The acknowledgement on a control queue; 0 on a data queue.
    pub ack: u8,
}

/// The same chain, so many times one after the other.
#[derive(Drop)]
pub struct Run {
    pub count: u32,
    pub chain: Chain,
}

/// What a guest offers, in order. A data queue's script has no commands, a control queue's no runs.
#[derive(Drop)]
pub struct Script {
    pub runs: Items<Run>,
    pub commands: Items<ArrayVec<u8, 10>>,
}
