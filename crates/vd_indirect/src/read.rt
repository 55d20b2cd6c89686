//! A chain from the words of a table.
ghost use Rattle.std.specs.Prelude.{◌≡◌, ◌≤◌, ◌<◌, ◌/◌, ◌+◌, ◌*◌, ◌++◌, ◌∷◌, [], length, if◌then◌else◌, nat_le, Ok, Err, OnOk, IfOk, IfSome};
ghost use Rattle.vd_indirect.specs.Steps.{appending, following};
ghost use Rattle.vd_indirect.specs.Tables.{flags_of, has, piece_at, read, visited, walked};
ghost use Rattle.vd_model.specs.Chains.{ends_writable};
ghost use Rattle.vd_indirect.specs.declared.read.TableFault.TheVariants.{Nested};

use crate::descriptor::{TableKind, has_next, is_indirect, next_in, piece_in};
use thiserror::Error;
use vd_model::{Chain, Piece};

/// Why the words of a table spell no chain. A place is counted from 0.
#[derive(Copy, Clone, Debug, PartialEq, Eq, Error)]
pub enum TableFault {
    /// The length in bytes is 0 or no multiple of 16.
    #[error("{0} bytes, no table of 16 bytes a descriptor")]
    Length(u32),
    /// The length in bytes is above 256: more than 16 descriptors.
    #[error("{0} bytes, more than 16 descriptors")]
    TooMany(u32),
    /// The place names a next one that the table hasn't, or as many places were visited as the table has.
    #[error("place {0} goes on where the table ends")]
    Link(u32),
    /// The place points to another table (VIRTIO 1.2, 2.7.5.3.1 and 2.8.7).
    #[error("place {0} points to another table")]
    Nested(u32),
    /// The place is readable and follows a writable one (VIRTIO 1.2, 2.7.4.2).
    #[error("place {0} is readable and follows a writable one")]
    Order(u32),
}

/// The chain that a table of `len` bytes spells, or the first fault: of the length, then at the first bad place of the
/// walk. A split table is walked from place 0 along NEXT and `next`, a packed table in the order of its places.
pub fn read_table(kind: TableKind, words: &[u64], len: u32) -> Result<Chain, TableFault>
    requires { length words.now ≡ (if nat_le len 256 then len / 8 else 0) }
    ensures { result ≡ read kind words.now len }
{
    if len == 0 || len % 16 != 0 {
        return Err(TableFault::Length(len));
    }
    if len > 256 {
        return Err(TableFault::TooMany(len));
    }
    walk(kind, words)
}

/// What the walk through a table of 1 to 16 places gives.
fn walk(kind: TableKind, words: &[u64]) -> Result<Chain, TableFault>
    requires some { 0 < length words.now / 2 }
    requires few { length words.now ≤ 32 }
    ensures { result ≡ walked kind words.now (length words.now / 2) }
{
    let places = words.len() as u32 / 2;
    let mut place = 0;
    let mut chain = Chain::new(first_piece(kind, words)?);
    for count in 0..places {
        match next_place(kind, words, place, count)? {
            None => return Ok(chain),
            Some(next) => place = next,
        }
        append(&mut chain, kind, words, place)?;
    }
    unreachable!()
}

/// The piece in place 0.
fn first_piece(kind: TableKind, words: &[u64]) -> Result<Piece, TableFault>
    requires { 1 < length words.now }
    ensures { result ≡ (if has (flags_of kind words.now 0) 2 then Err (Nested 0) else Ok (piece_at kind words.now 0)) }
{
    if is_indirect(kind, words, 0) {
        return Err(TableFault::Nested(0));
    }
    Ok(piece_in(kind, words, 0))
}

/// The place that the walk visits after `place`, before which it visited `count` others; None where it ends.
#[tactic(auto, unfolding(crate::specs::Tables::visited))]
fn next_place(
    kind: TableKind,
    words: &[u64],
    place: u32,
    count: u32,
) -> Result<Option<u32>, TableFault>
    requires few { length words.now ≤ 32 }
    requires low { 2 * place + 1 < length words.now }
    requires early { count < length words.now / 2 }
    requires at { place ≡ visited kind words.now count }
    ensures value { result ≡ following kind words.now (length words.now / 2) count }
    ensures low { IfOk result (λ next. IfSome next (λ p. 2 * p + 1 < length words.now)) }
{
    let places = words.len() as u32 / 2;
    match kind {
        TableKind::Packed => Ok((count + 1 < places).then_some(place + 1)),
        TableKind::Split if has_next(kind, words, place) => {
            let next = next_in(words, place);
            if places <= next || count + 1 == places {
                return Err(TableFault::Link(place));
            }
            Ok(Some(next))
        }
        TableKind::Split => Ok(None),
    }
}

/// Appends the piece in a place, or says what is wrong with the place.
fn append(chain: &mut Chain, kind: TableKind, words: &[u64], place: u32) -> Result<(), TableFault>
    requires room { length chain.old < 16 }
    requires low { 2 * place + 1 < length words.now }
    ensures value { result ≡ appending kind words.now place (ends_writable chain.old) }
    ensures ok { OnOk result (chain.new ≡ chain.old ++ piece_at kind words.now place ∷ []) }
{
    if is_indirect(kind, words, place) {
        return Err(TableFault::Nested(place));
    }
    match chain.push(piece_in(kind, words, place)) {
        Ok(()) => Ok(()),
        Err(_) => Err(TableFault::Order(place)),
    }
}
