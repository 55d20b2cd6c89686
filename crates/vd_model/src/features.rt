//! The features of a ring.

/// What the driver and the device agreed on (VIRTIO 1.2, 6).
#[derive(Copy, Clone, Debug, PartialEq, Eq)]
pub struct Features {
    /// INDIRECT_DESC, bit 28: a chain may stand in a table of its own (VIRTIO 1.2, 2.7.5.3 and 2.8.7).
    pub indirect: bool,
    /// EVENT_IDX, bit 29: each side names the position at which it wants a signal (VIRTIO 1.2, 2.7.7 and 2.7.10).
    pub event_idx: bool,
    /// IN_ORDER, bit 35: chains are given back in the order in which they were offered (VIRTIO 1.2, 2.7.9).
    pub in_order: bool,
}
