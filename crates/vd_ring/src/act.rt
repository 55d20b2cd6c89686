//! What one step of an end answers.
use vd_model::Chain;

/// What one step of a driver's end did.
#[derive(Copy, Clone, Debug, PartialEq, Eq)]
pub enum DriverAct {
    /// An access in the middle of an operation.
    Moved,
    /// The chain of this number is offered: the count of chains offered before it.
    Offered(u32),
    /// The chain of this number came back with a length in bytes; its head is free again.
    Collected { number: u32, len: u32, head: u32 },
    /// The look showed no further used entry.
    Nothing,
    /// The end is armed: its second look showed nothing.
    Armed,
    /// The end is no longer armed.
    Awake,
    /// The bell is the one heard last.
    Asleep,
}

/// What one step of a device's end did.
#[derive(Drop)]
pub enum DeviceAct {
    /// An access in the middle of an operation.
    Moved,
    /// The chain of this number is taken.
    Taken(u32, Chain),
    /// The chain of this number is given back.
    Given(u32),
    /// The look showed no further chain.
    Nothing,
    /// The end is armed: its second look showed nothing.
    Armed,
    /// The end is no longer armed.
    Awake,
    /// The bell is the one heard last.
    Asleep,
    /// The end rests: the chains taken and not given are taken back.
    Rested,
}
