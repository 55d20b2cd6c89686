//! The second words of descriptors: length, buffer id, flags (VIRTIO 1.2, 2.8.13).
ghost use Rattle.std.specs.Prelude.{◌≡◌, ◌↔◌, ◌⊎◌, IsTrue, ◌+◌, ◌*◌, ◌/◌, ◌%◌, ◌<◌, ◌≤◌, ℕ, if◌then◌else◌, nat_lt, length, slice_index_or};
ghost use Rattle.vd_model.specs.Chains.{blank};
ghost use Rattle.vd_packed_ring.specs.PackedWords.{packed_word, flags_of, goes_on, put};
ghost use Rattle.vd_packed_ring.specs.PackedChains.{piece_of, direct, staged};
ghost use Rattle.vd_packed.specs.RingPositions.{IsAt};
ghost use Rattle.vd_packed.specs.Seconds.{available_word, used_second, shows_available, shows_used};

use crate::ring_position::{RingPosition, bit};
use vd_model::Piece;

/// A second word of its fields.
#[inline]
pub fn packed(len: u32, id: u32, flags: u64) -> u64
    requires { (id < 65536) × (flags < 65536) }
    ensures { result ≡ packed_word len id flags }
{
    len as u64 + 0x1_0000_0000 * (id as u64 + 0x1_0000 * flags)
}

/// Its flags.
#[inline]
pub fn flags(word: u64) -> u64
    ensures { result ≡ flags_of word }
{
    word / 0x1_0000_0000 / 0x1_0000
}

/// Whether a second word is that of an available descriptor in a lap with this wrap: AVAIL equals it, and USED doesn't.
#[inline]
pub fn shows_available(word: u64, wrap: bool) -> bool
    ensures { result ≡ shows_available wrap word }
{
    let f = flags(word);
    f / 0x80 % 2 == bit(wrap) && f / 0x8000 % 2 == bit(!wrap)
}

/// Whether it is that of a used descriptor: AVAIL and USED equal the wrap.
#[inline]
pub fn shows_used(word: u64, wrap: bool) -> bool
    ensures { result ≡ shows_used wrap word }
{
    let f = flags(word);
    f / 0x80 % 2 == bit(wrap) && f / 0x8000 % 2 == bit(wrap)
}

/// Whether another descriptor follows.
#[inline]
pub fn has_next(word: u64) -> bool
    ensures { result ≡ goes_on word }
{
    flags(word) % 2 == 1
}

/// The piece of a descriptor's two words.
#[inline]
pub fn piece_from(addr: u64, word: u64) -> Piece
    ensures { result ≡ piece_of addr word }
{
    Piece {
        addr,
        len: (word % 0x1_0000_0000) as u32,
        write: flags(word) / 2 % 2 == 1,
    }
}

/// The second word that the driver stores for piece `i`: NEXT in all but the last, and AVAIL equal to the wrap alone.
pub fn available_word(pieces: &[Piece], i: usize, id: u32, wrap: bool) -> u64
    requires { (i < length pieces.now) × (length pieces.now ≤ 16) × (id < 65536) }
    ensures { result ≡ available_word wrap id (slice_index_or pieces.now i blank) (if nat_lt (i + 1) (length pieces.now) then 1 else 0) }
{
    let piece = pieces[i];
    let next = if i + 1 < pieces.len() { 1 } else { 0 };
    let write = if piece.write { 2 } else { 0 };
    packed(
        piece.len,
        id,
        next + write + 0x80 * bit(wrap) + 0x8000 * bit(!wrap),
    )
}

/// The second word that the device stores for a chain given with a length: AVAIL and USED equal the wrap, and WRITE
/// stands where a byte at least was written.
pub fn used_word(len: u32, id: u32, wrap: bool) -> u64
    requires { id < 65536 }
    ensures { result ≡ used_second wrap id len }
{
    let write = if len > 0 { 2 } else { 0 };
    packed(len, id, write + 0x80 * bit(wrap) + 0x8000 * bit(wrap))
}

/// Whether store number `at` of an offer is an address: the first is, and each odd one.
#[inline]
fn stores_address(at: u32) -> bool
    ensures { IsTrue result ↔ ((at ≡ 0) ⊎ (at % 2 ≡ 1)) }
{
    at == 0 || at % 2 == 1
}

/// Where store number `at` of an offer goes, and what it stores, where `ring_position` is that of its descriptor. The first
/// descriptor's second word is none of these: it is stored last.
pub fn descriptor_word(
    pieces: &[Piece],
    id: u32,
    ring_position: RingPosition,
    at: u32,
) -> (u32, u64)
    requires { (at + 1 < 2 * length pieces.now) × (length pieces.now ≤ 16) × (id < 65536) × (ring_position.place < 32768) }
    ensures place { (n q : ℕ) → IsAt ring_position n (q + (at + 1) / 2)
        → result.0 ≡ (slice_index_or (staged n q (direct id pieces.now)) at (put 0 0)).place }
    ensures word { (n q : ℕ) → IsAt ring_position n (q + (at + 1) / 2)
        → result.1 ≡ (slice_index_or (staged n q (direct id pieces.now)) at (put 0 0)).word }
{
    let i = ((at + 1) / 2) as usize;
    if stores_address(at) {
        return (2 * ring_position.place, pieces[i].addr);
    }
    let word = available_word(pieces, i, id, ring_position.wrap);
    (2 * ring_position.place + 1, word)
}
