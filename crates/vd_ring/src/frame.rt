//! What both sides' views name. No value of these types is made.
use std::collections::LinkedList;
use vd_model::{Features, Mapping};

/// What a ring was made with. No step changes it.
pub struct Frame {
    /// The ring's number: below 16 a guest's ring, else a shadow ring.
    pub ring: u32,
    /// Packed (VIRTIO 1.2, 2.8): a chain borrows one buffer id. Else split (2.7): it borrows the places of its descriptors.
    pub packed: bool,
    /// How many places the ring has.
    pub size: u32,
    pub features: Features,
    /// Whether it is a control queue's ring.
    pub control: bool,
    /// The mappings in which each piece has to lie, where the ring has such bounds.
    pub bounds: Option<LinkedList<Mapping>>,
}

/// A used entry: a chain's number, and the length given in bytes.
pub struct Used {
    pub number: u32,
    pub len: u32,
}

/// A word stored at a place of the ring.
pub struct Put {
    pub place: u32,
    pub word: u64,
}
