//! The two words of a descriptor in a table.
ghost use Rattle.std.specs.Prelude.{◌≡◌, ◌+◌, ◌*◌, ◌<◌, ◌≤◌, length};
ghost use Rattle.vd_indirect.specs.Tables.{flag, flags_of, has, next_of, piece_at, second_word};

use vd_bits::{lane16, lane32, set_lane16};
use vd_model::Piece;

/// The layout of the ring that a table belongs to.
#[derive(Copy, Clone, Debug, PartialEq, Eq)]
pub enum TableKind {
    /// Its descriptors are linked by NEXT and `next` (VIRTIO 1.2, 2.7.5.3).
    Split,
    /// Its descriptors stand in order, and NEXT counts for nothing (VIRTIO 1.2, 2.8.7).
    Packed,
}

/// The bits of a descriptor's flags (VIRTIO 1.2, 2.7.5 and 2.8.1).
const NEXT: u32 = 0;

const WRITE: u32 = 1;

const INDIRECT: u32 = 2;

/// The second word of the descriptor of a piece in a place; `more` where another descriptor follows in the next place.
#[inline]
pub fn second_word_of(kind: TableKind, piece: &Piece, place: u16, more: bool) -> u64
    requires { place < 65535 }
    ensures { result ≡ second_word kind piece.now more place }
{
    let low = u64::from(piece.len);
    let write = flag_of(1 << WRITE, piece.write);
    match kind {
        TableKind::Split if more => {
            set_lane16(set_lane16(low, 2, (1 << NEXT) + write), 3, place + 1)
        }
        TableKind::Split => set_lane16(low, 2, write),
        TableKind::Packed => set_lane16(low, 3, write),
    }
}

/// What a flag is worth where it is set.
#[inline]
fn flag_of(worth: u16, set: bool) -> u16
    ensures value { result ≡ flag worth set }
    ensures small { result ≤ worth }
{
    if set { worth } else { 0 }
}

/// The piece that the descriptor in a place spells.
pub fn piece_in(kind: TableKind, words: &[u64], place: u32) -> Piece
    requires { 2 * place + 1 < length words.now }
    ensures { result ≡ piece_at kind words.now place }
{
    Piece {
        addr: words[2 * place as usize],
        len: lane32(words[2 * place as usize + 1], 0),
        write: has_bit(flags_in(kind, words, place), WRITE),
    }
}

/// Whether the descriptor in a place points to another table.
pub fn is_indirect(kind: TableKind, words: &[u64], place: u32) -> bool
    requires { 2 * place + 1 < length words.now }
    ensures { result ≡ has (flags_of kind words.now place) 2 }
{
    has_bit(flags_in(kind, words, place), INDIRECT)
}

/// Whether the descriptor in a place names a next one.
pub fn has_next(kind: TableKind, words: &[u64], place: u32) -> bool
    requires { 2 * place + 1 < length words.now }
    ensures { result ≡ has (flags_of kind words.now place) 0 }
{
    has_bit(flags_in(kind, words, place), NEXT)
}

/// The place that the descriptor of a split table names as the next.
pub fn next_in(words: &[u64], place: u32) -> u32
    requires { 2 * place + 1 < length words.now }
    ensures { result ≡ next_of words.now place }
{
    u32::from(lane16(words[2 * place as usize + 1], 3))
}

/// The flags of the descriptor in a place: bits 32 to 47 of its second word in a split table, 48 to 63 in a packed one.
fn flags_in(kind: TableKind, words: &[u64], place: u32) -> u16
    requires { 2 * place + 1 < length words.now }
    ensures { result ≡ flags_of kind words.now place }
{
    let second = words[2 * place as usize + 1];
    match kind {
        TableKind::Split => lane16(second, 2),
        TableKind::Packed => lane16(second, 3),
    }
}

/// Whether this bit of the flags is set.
fn has_bit(flags: u16, bit: u32) -> bool
    requires { bit < 16 }
    ensures { result ≡ has flags bit }
{
    flags >> bit & 1 == 1
}
