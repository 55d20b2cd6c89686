//! Why a call of the bus is refused.
use thiserror::Error;

/// Why a call of the bus is refused. The bus is then as it was.
#[derive(Copy, Clone, Debug, PartialEq, Eq, Drop, Error)]
pub enum BusFault {
    /// The call doesn't come at this status: the status that stands.
    #[error("not at status {0}")]
    WrongStatus(u8),
    /// The bus has no queue of this number.
    #[error("no queue {0}")]
    NoSuchQueue(u32),
    /// The number is none that may be set.
    #[error("the number {0} may not be set")]
    BadNum(u32),
    /// The features that were to be accepted.
    #[error("the features {0:#x} may not be accepted")]
    BadFeatures(u64),
    /// The device runs: the status that stands.
    #[error("not suspended, at status {0}")]
    NotSuspended(u8),
    /// The base isn't one of a ring of the queue's size.
    #[error("no ring of this size has the base {0}")]
    BadBase(u32),
    /// The kind of a message that the bus doesn't take.
    #[error("a message of kind {0} is not taken")]
    BadMessage(u8),
    /// The iova of a message that the map doesn't allow.
    #[error("the map doesn't allow the message on iova {0}")]
    BadMap(u64),
    /// The address space of a message: there is but 0.
    #[error("no address space {0}")]
    BadAsid(u32),
}
