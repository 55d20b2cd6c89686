//! Chains that stand in a table of the ring (VIRTIO 1.2, 2.8.7).
ghost use Rattle.std.specs.Prelude.{◌≡◌, ◌≤◌, ◌<◌, ◌+◌, ◌*◌, ◌/◌, length, slice_index_or};
ghost use Rattle.vd_packed_ring.specs.PackedWords.{len_of, names_table, put};
ghost use Rattle.vd_packed.specs.Tabled.{is_tabled, needed, published_word, table_place, tabled};

use crate::ring_position::bit;
use crate::words::{available_word, flags, packed};
use vd_indirect::{TableKind, table_word};
use vd_model::Piece;

/// The flag INDIRECT of a descriptor.
const INDIRECT: u64 = 4;

/// Whether a chain of so many pieces stands in a table: where the ring has them, each of two pieces and more.
#[inline]
pub fn is_tabled(indirect: bool, pieces: usize) -> bool
    ensures { result ≡ is_tabled indirect pieces }
{
    indirect && pieces > 1
}

/// How many places of the ring a chain of so many pieces takes.
#[inline]
pub fn needed(indirect: bool, pieces: usize) -> usize
    ensures { result ≡ needed indirect pieces }
{
    if indirect { 1 } else { pieces }
}

/// The first word of the table of an id in a ring of `size` places.
#[inline]
pub fn table_place(size: u32, id: u32) -> u32
    requires { (size ≤ 32768) × (id < size) }
    ensures { result ≡ table_place size id }
{
    2 * size + 2 + 32 * id
}

/// Where word number `at` of a chain with this id goes, and what it is: first the words of its table, then the address of the
/// descriptor at this place, which is that of the table in bytes.
#[inline]
pub fn tabled_word(size: u32, id: u32, place: u32, pieces: &[Piece], at: u32) -> (u32, u64)
    requires room { (size ≤ 32768) × (id < size) × (place < size) }
    requires few { length pieces.now ≤ 16 }
    requires within { at < 2 * length pieces.now + 1 }
    ensures place { result.0 ≡ (slice_index_or (tabled (table_place size id) place pieces.now) at (put 0 0)).place }
    ensures word { result.1 ≡ (slice_index_or (tabled (table_place size id) place pieces.now) at (put 0 0)).word }
{
    let table = table_place(size, id);
    if at < 2 * pieces.len() as u32 {
        return (table + at, table_word(TableKind::Packed, pieces, at));
    }
    (2 * place, 8 * table as u64)
}

/// The second word with which a chain is made available: that of the descriptor that names its table by its length in bytes, or
/// that of its first piece.
#[inline]
pub fn published_word(pieces: &[Piece], indirect: bool, id: u32, wrap: bool) -> u64
    requires { (0 < length pieces.now) × (length pieces.now ≤ 16) × (id < 65536) }
    ensures { result ≡ published_word indirect wrap id pieces.now }
{
    if is_tabled(indirect, pieces.len()) {
        let len = 16 * pieces.len() as u32;
        return packed(len, id, INDIRECT + 0x80 * bit(wrap) + 0x8000 * bit(!wrap));
    }
    available_word(pieces, 0, id, wrap)
}

/// Whether a second word names a table.
#[inline]
pub fn is_indirect(word: u64) -> bool
    ensures { result ≡ names_table word }
{
    flags(word) / INDIRECT % 2 == 1
}

/// How many places the table has that it names.
#[inline]
pub fn places_of(word: u64) -> usize
    ensures { result ≡ len_of word / 16 }
{
    (word % 0x1_0000_0000 / 16) as usize
}
