//! Why a mapping is refused.
use thiserror::Error;
use vd_model::Mapping;

/// Why a mapping is refused. The tree is then as it was.
#[derive(Copy, Clone, Debug, PartialEq, Eq, Error)]
pub enum MapFault {
    /// The range has no byte.
    #[error("the range is empty")]
    Empty,
    /// The range meets this kept mapping, the one with the lowest iova of those that it meets.
    #[error("the range meets the mapping at iova {}", .0.iova)]
    Overlap(Mapping),
    /// No place in the tree's range has so many free bytes.
    #[error("no hole of {0} bytes")]
    NoHole(u64),
    /// Out of memory.
    #[error("out of memory")]
    Memory,
}
