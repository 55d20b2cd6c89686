//! Where a ring stands, and in which mode it is served.

/// A ring's base, in the form of its layout: for a split ring the count of chains modulo 65,536; for a packed ring
/// the available place and wrap in bits 0 to 15 and the used place and wrap in bits 16 to 31 (`vhost_vring_state.num`).
#[derive(Copy, Clone, Debug, PartialEq, Eq)]
pub struct Base(pub u32);

/// How a queue is served.
#[derive(Copy, Clone, Debug, PartialEq, Eq)]
pub enum Mode {
    /// The device works on the guest's own ring.
    Pass,
    /// A relay stands between the guest's ring and a second ring, on which the device works.
    Shadow,
}
