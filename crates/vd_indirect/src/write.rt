//! A chain as the words of a table.
ghost use Rattle.std.specs.Prelude.{◌≡◌, ◌≤◌, ◌<◌, ◌*◌, length, slice_index, Ok};
ghost use Rattle.vd_indirect.specs.Tables.{read, table_words};

use crate::descriptor::{TableKind, second_word_of};
use arrayvec::ArrayVec;
use vd_model::{Chain, Piece};

/// The words of a chain's table, two for each piece: the address in bytes, then the length, the flags and, in a split
/// table, the next place (VIRTIO 1.2, 2.7.5.3 and 2.8.7). The table has 16 bytes a piece.
pub fn write_plan(kind: TableKind, c: &Chain) -> ArrayVec<u64, 32>
    ensures words { result.items ≡ table_words kind c.now }
    ensures back { read kind result.items (16 * length c.now) ≡ Ok c.now }
{
    let mut words = ArrayVec::new();
    let pieces = c.pieces();
    for (place, piece) in pieces.iter().enumerate() {
        words.push(piece.addr);
        words.push(second_word_of(kind, piece, place as u16, place + 1 < pieces.len()));
    }
    words
}

/// Word number `at` of the table of a chain of these pieces.
#[inline]
pub fn table_word(kind: TableKind, pieces: &[Piece], at: u32) -> u64
    requires few { length pieces.now ≤ 16 }
    requires within { at < 2 * length pieces.now }
    ensures { result ≡ slice_index (table_words kind pieces.now) at }
{
    let place = at as usize / 2;
    let piece = &pieces[place];
    if at % 2 == 0 {
        return piece.addr;
    }
    second_word_of(kind, piece, place as u16, place + 1 < pieces.len())
}
