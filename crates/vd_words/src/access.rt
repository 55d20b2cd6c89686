//! One access of a ring's words.

/// The operation of an end to which an access belongs. What an access does to the words doesn't depend on it.
#[derive(Copy, Clone, Debug, PartialEq, Eq)]
pub enum Op {
    Offer,
    Collect,
    Take,
    Give,
    Arm,
    Hear,
    Disarm,
    Rest,
    /// A load or a store of a command or ack word.
    Control,
}

/// A single load or store of one 64-bit word. The first number is the word's place in the ring.
#[derive(Copy, Clone, Debug, PartialEq, Eq)]
pub enum Access {
    Load(u32),
    Store(u32, u64),
}
