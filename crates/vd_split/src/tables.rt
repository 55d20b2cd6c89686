//! Chains that stand in a table of the ring (VIRTIO 1.2, 2.7.5.3).
ghost use Rattle.std.specs.Prelude.{◌≡◌, ◌≤◌, ◌<◌, ◌+◌, ◌*◌, length, slice_index_or};
ghost use Rattle.vd_split_ring.specs.SplitWords.{put};
ghost use Rattle.vd_split.specs.Parts.{needed, table_place, tabled};

use crate::descriptors::used_area;
use vd_indirect::{TableKind, table_word};
use vd_model::Piece;

/// How many places of the ring a chain of so many pieces takes.
#[inline]
pub fn needed(indirect: bool, pieces: usize) -> usize
    ensures { result ≡ needed indirect pieces }
{
    if indirect { 1 } else { pieces }
}

/// The first word of the table of a head in a ring of `size` places.
#[inline]
pub fn table_place(size: u32, head: u32) -> u32
    requires { (size ≤ 32768) × (head < size) }
    ensures { result ≡ table_place size head }
{
    used_area(size) + size + 1 + 32 * head
}

/// The flag INDIRECT in a descriptor's second word.
const NAMES_TABLE: u64 = 0x4_0000_0000;

/// Where word number `at` of a chain with this head goes, and what it is: first the words of its table, then those of the
/// descriptor at the head, which names the table by its address and its length in bytes.
#[inline]
pub fn tabled_word(size: u32, head: u32, pieces: &[Piece], at: u32) -> (u32, u64)
    requires room { (size ≤ 32768) × (head < size) }
    requires few { length pieces.now ≤ 16 }
    requires within { at < 2 * length pieces.now + 2 }
    ensures place { result.0 ≡ (slice_index_or (tabled (table_place size head) head pieces.now) at (put 0 0)).place }
    ensures word { result.1 ≡ (slice_index_or (tabled (table_place size head) head pieces.now) at (put 0 0)).word }
{
    let table = table_place(size, head);
    let words = 2 * pieces.len() as u32;
    if at < words {
        return (table + at, table_word(TableKind::Split, pieces, at));
    }
    if at == words {
        return (2 * head, 8 * table as u64);
    }
    (2 * head + 1, 16 * pieces.len() as u64 + NAMES_TABLE)
}
