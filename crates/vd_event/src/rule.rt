//! The rules by which a side says when it wants a signal, and the words that say it.
ghost use Rattle.std.specs.Prelude.{◌≡◌};
ghost use Rattle.vd_event.specs.Words.{arm_word, off_word, IsArmable};

use vd_bits::{place, wrap};

/// RING_EVENT_FLAGS_DISABLE, in bits 16 and 17 of a packed event word.
const DISABLE: u32 = 0x1_0000;
/// RING_EVENT_FLAGS_DESC, in the same bits.
const DESC: u32 = 0x2_0000;

/// How an event word is read.
#[derive(Copy, Clone, Debug, PartialEq, Eq)]
pub enum EventRule {
    /// A split ring without EVENT_IDX: bit 0 of the flags turns signals off (VIRTIO 1.2, 2.7.7 and 2.7.10).
    SplitFlags,
    /// A split ring with EVENT_IDX: the word is the count at which a signal is wanted, modulo 65,536 (VIRTIO 1.2, 2.7.7 and 2.7.10).
    SplitIndex,
    /// A packed ring of `size` descriptors: offset, wrap and flags (VIRTIO 1.2, 2.8.14).
    Packed { size: u32 },
}

/// The event word of a side that wants a signal at this position, counted in entries of a split ring and in descriptors of a packed
/// ring. A packed ring has EVENT_IDX here; without it a side asks for signals by the word 0.
#[inline]
pub fn arm_word(rule: EventRule, position: u64) -> u32
    requires { IsArmable rule }
    ensures { result ≡ arm_word rule position }
{
    match rule {
        EventRule::SplitFlags => 0,
        EventRule::SplitIndex => (position % 0x1_0000) as u32,
        EventRule::Packed { size } => {
            let wrap_bit = if wrap(position, size) { 0x8000 } else { 0 };
            DESC + wrap_bit + place(position, size)
        }
    }
}

/// The event word of a side that wants no signal; None for `SplitIndex`, which has no such word. A packed ring has no EVENT_IDX here.
#[inline]
pub fn off_word(rule: EventRule) -> Option<u32>
    ensures { result ≡ off_word rule }
{
    match rule {
        EventRule::SplitFlags => Some(1),
        EventRule::SplitIndex => None,
        EventRule::Packed { .. } => Some(DISABLE),
    }
}
